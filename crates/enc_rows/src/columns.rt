//! Where each column of each table stands in its row, and its bytes, worked out once for a stream.
ghost use Rattle.std.specs.Prelude.{◌≡◌, ◌+◌, ◌*◌, ◌<◌, ◌≤◌, ◌⊎◌, Some, IsSome, IfSome};
ghost use Rattle.enc_schema.specs.Schema.{column_in};
ghost use Rattle.enc_schema.specs.Widths.{width_of, space_of, row_width, column_start};
ghost use Rattle.enc_rows.specs.Columns.{width_at, AreStarts, AreWidths};

use enc_schema::{Widths, column_of};
use std::marker::Model;

/// The starts and the widths of all columns, nine a table.
#[derive(Drop)]
pub(crate) struct Columns {
    widths: Widths,
    starts: [u8; 504],
    sizes: [u8; 504],
}

impl Model for Columns {
    ghost use Rattle.enc_schema.specs.Widths.{Shape};
    ghost use Rattle.enc_rows.specs.Columns.{AreStarts, AreWidths};

    ghost Value = { Shape };

    ghost view = { λ c. c.widths };

    ghost invariant = { λ c. AreStarts c.widths c.starts × AreWidths c.widths c.sizes };
}

/// The place of a column among nine of each table.
fn place_of(table: u8, column: u8) -> usize
    requires { IsSome (column_in table column) }
    ensures place { result ≡ table * 9 + column }
    ensures few { result < 504 }
    ensures column { column < 9 }
{
    table as usize * 9 + column as usize
}

/// The bytes of a column's number, 0 where the table has no such column.
#[tactic(auto, unfolding(crate::specs::Columns::width_at))]
fn width_at(widths: &Widths, table: u8, column: u8) -> u8
    ensures { result ≡ width_at widths.now table column }
{
    match column_of(table, column) {
        Some(kind) => widths.width(kind),
        None => 0,
    }
}

/// Where each column begins in its row.
fn starts_of(widths: &Widths) -> [u8; 504]
    ensures { AreStarts widths.now result }
{
    let mut starts = [0; 504];
    for at in 0..504u16 {
        starts[at as usize] = widths.start((at / 9) as u8, (at % 9) as u8) as u8;
    }
    starts
}

/// The bytes of each column's number.
fn sizes_of(widths: &Widths) -> [u8; 504]
    ensures { AreWidths widths.now result }
{
    let mut sizes = [0; 504];
    for at in 0..504u16 {
        sizes[at as usize] = width_at(widths, (at / 9) as u8, (at % 9) as u8);
    }
    sizes
}

impl Columns {
    pub(crate) fn of(widths: Widths) -> Columns
        ensures { result ≡ widths }
    {
        let starts = starts_of(&widths);
        let sizes = sizes_of(&widths);
        Columns {
            widths,
            starts,
            sizes,
        }
    }

    /// The bytes of a table's rows.
    pub(crate) fn row(&self, table: u8) -> u32
        ensures width { result ≡ row_width self.now table }
        ensures few { result ≤ 36 }
    {
        self.widths.row(table)
    }

    /// The bytes from a row's beginning to a column.
    pub(crate) fn start(&self, table: u8, column: u8) -> u32
        requires { IsSome (column_in table column) }
        ensures start { result ≡ column_start self.now table column }
        ensures within { IfSome (column_in table column)
            (λ c. result + space_of self.now c ≤ row_width self.now table) }
        ensures few { result < 256 }
    {
        u32::from(self.starts[place_of(table, column)])
    }

    /// The bytes of a column's number: 1, 2 or 4.
    pub(crate) fn width(&self, table: u8, column: u8) -> u8
        requires { IsSome (column_in table column) }
        ensures width { IfSome (column_in table column) (λ c. result ≡ width_of self.now c) }
        ensures size { (result ≡ 1) ⊎ ((result ≡ 2) ⊎ (result ≡ 4)) }
        ensures fits { IfSome (column_in table column) (λ c. result ≤ space_of self.now c) }
    {
        self.sizes[place_of(table, column)]
    }
}
