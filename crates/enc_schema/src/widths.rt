//! How many bytes a column takes in a file (ECMA-335 II.24.2.6).
ghost use Rattle.std.specs.Prelude.{◌≡◌, ℕ, ◌+◌, ◌*◌, ◌/◌, ◌%◌, ◌<◌, ◌≤◌, ◌^◌, ◌⊎◌, ◌==◌, true, length, take, sum_by, Option, nat_lt, slice_index, IfSome};
ghost use Rattle.enc_schema.specs.Coding.{each_table};
ghost use Rattle.enc_schema.specs.Schema.{column_in};
ghost use Rattle.enc_schema.specs.Widths.{has_bit, heap_width, index_width, coded_width, width_of, space_of, row_width, column_start, coded_widths, row_widths};

use crate::coding::{tables_of, tag_bits};
use crate::column::{Coding, Column};
use crate::schema::columns_of;
use enc_base::Counts;
use std::marker::Model;

/// The rows of a table, 0 where there is no such table.
fn rows_in(counts: &Counts, table: u8) -> u32
    ensures { result ≡ slice_index counts.now.rows table }
{
    if table < 64 {
        counts.rows[table as usize]
    } else {
        0
    }
}

/// Whether this heap bit is set.
fn is_set(flags: u8, bit: u8) -> bool
    requires { 0 < bit }
    ensures { result ≡ has_bit flags bit }
{
    flags / bit % 2 == 1
}

/// Whether each of the tables has fewer rows than the limit.
fn each_below(counts: &Counts, tables: &[Option<u8>], limit: u32) -> bool
    ensures { result ≡ each_table (λ (n : ℕ). nat_lt (slice_index counts.now.rows n) limit) tables.now }
{
    for table in tables {
        match *table {
            None => {}
            Some(table) => {
                if rows_in(counts, table) >= limit {
                    return false;
                }
            }
        }
    }
    true
}

/// What widths go by.
#[derive(Clone, Copy, Debug)]
struct FileShape {
    counts: Counts,
    jtd: bool,
    flags: u8,
}

impl Model for FileShape {
    ghost use Rattle.enc_schema.specs.Widths.{Shape};

    ghost Value = { Shape };

    ghost view = { λ s. record { counts = s.counts.rows; jtd = s.jtd; flags = s.flags } };

    ghost inverse = { λ s. record { counts = record { rows = s.counts }; jtd = s.jtd; flags = s.flags } };
}

impl FileShape {
    /// The bytes of an offset in a heap, or of an entry of `#GUID`.
    #[tactic(auto, unfolding(crate::specs::Widths::heap_width))]
    fn heap(&self, bit: u8) -> u8
        requires { 0 < bit }
        ensures width { result ≡ heap_width self.now bit }
        ensures size { (result ≡ 2) ⊎ (result ≡ 4) }
    {
        if is_set(self.flags, bit) { 4 } else { 2 }
    }

    /// The bytes of a row of one table.
    #[tactic(auto, unfolding(crate::specs::Widths::index_width))]
    fn index(&self, table: u8) -> u8
        ensures width { result ≡ index_width self.now table }
        ensures size { (result ≡ 2) ⊎ (result ≡ 4) }
    {
        if self.jtd || rows_in(&self.counts, table) >= 0x1_0000 {
            4
        } else {
            2
        }
    }

    /// The bytes of a row of one of several tables.
    #[tactic(auto, unfolding(crate::specs::Widths::coded_width))]
    fn coded(&self, kind: Coding) -> u8
        ensures { result ≡ coded_width self.now kind }
    {
        if self.jtd {
            return 4;
        }
        if each_below(&self.counts, tables_of(kind), 1 << (16 - tag_bits(kind))) {
            2
        } else {
            4
        }
    }

    /// The widths of all codings, in the order of the enum.
    #[tactic(auto, unfolding(crate::specs::Widths::coded_widths))]
    fn all_coded(&self) -> [u8; 14]
        ensures { result ≡ coded_widths self.now }
    {
        [
            self.coded(Coding::TypeDefOrRef),
            self.coded(Coding::HasConstant),
            self.coded(Coding::HasCustomAttribute),
            self.coded(Coding::HasFieldMarshal),
            self.coded(Coding::HasDeclSecurity),
            self.coded(Coding::MemberRefParent),
            self.coded(Coding::HasSemantics),
            self.coded(Coding::MethodDefOrRef),
            self.coded(Coding::MemberForwarded),
            self.coded(Coding::Implementation),
            self.coded(Coding::CustomAttributeType),
            self.coded(Coding::ResolutionScope),
            self.coded(Coding::TypeOrMethodDef),
            self.coded(Coding::HasCustomDebugInformation),
        ]
    }
}

/// The widths of columns, with those of the codings kept.
#[derive(Clone, Copy, Debug)]
struct ColumnWidths {
    shape: FileShape,
    coded: [u8; 14],
}

impl Model for ColumnWidths {
    ghost use Rattle.std.specs.Prelude.{◌≡◌};
    ghost use Rattle.enc_schema.specs.Widths.{Shape, coded_widths};

    ghost Value = { Shape };

    ghost view = { λ w. w.shape };

    ghost invariant = { λ w. w.coded ≡ coded_widths w.shape };

    ghost inverse = { λ s. record { shape = s; coded = coded_widths s } };
}

impl ColumnWidths {
    fn of(shape: FileShape) -> ColumnWidths
        ensures { result ≡ shape }
    {
        let coded = shape.all_coded();
        ColumnWidths { shape, coded }
    }

    fn coded(&self, kind: Coding) -> u8
        ensures width { result ≡ coded_width self.now kind }
        ensures size { (result ≡ 2) ⊎ (result ≡ 4) }
    {
        self.coded[kind as usize]
    }

    fn width(&self, column: Column) -> u8
        ensures width { result ≡ width_of self.now column }
        ensures size { (result ≡ 1) ⊎ ((result ≡ 2) ⊎ (result ≡ 4)) }
    {
        match column {
            Column::Num8 => 1,
            Column::Num16 => 2,
            Column::Num32 => 4,
            Column::Text => self.shape.heap(1),
            Column::Guid => self.shape.heap(2),
            Column::Blob => self.shape.heap(4),
            Column::Index(table) | Column::Run(table) => self.shape.index(table),
            Column::Coded(kind) => self.coded(kind),
        }
    }

    /// The bytes that a column takes in its row.
    fn space(&self, column: Column) -> u8
        ensures space { result ≡ space_of self.now column }
        ensures few { result ≤ 4 }
    {
        match column {
            Column::Num8 => 2,
            _ => self.width(column),
        }
    }

    /// The bytes of columns that stand one behind the other.
    fn total(&self, columns: &[Column]) -> u8
        requires { length columns.now ≤ 9 }
        ensures total { result ≡ sum_by (space_of self.now) columns.now }
        ensures few { result ≤ 36 }
    {
        let mut sum = 0;
        for column in columns {
            sum += self.space(*column);
        }
        sum
    }

    /// The bytes of a table's rows.
    #[tactic(auto, unfolding(crate::specs::Widths::row_width))]
    fn row(&self, table: u8) -> u8
        ensures { result ≡ row_width self.now table }
    {
        self.total(columns_of(table))
    }

    /// The bytes of all tables' rows.
    fn rows(&self) -> [u8; 56]
        ensures { result ≡ row_widths self.now }
    {
        let mut rows = [0; 56];
        for table in 0..56u8 {
            rows[table as usize] = self.row(table);
        }
        rows
    }
}

/// So many columns from the first, or all of them.
fn front(columns: &[Column], n: usize) -> &[Column]
    ensures { result.now ≡ take n columns.now }
{
    if n < columns.len() {
        &columns[..n]
    } else {
        columns
    }
}

/// The widths of one file's columns and rows, in bytes.
#[derive(Clone, Copy, Debug)]
pub struct Widths {
    columns: ColumnWidths,
    rows: [u8; 56],
}

impl Model for Widths {
    ghost use Rattle.std.specs.Prelude.{◌≡◌};
    ghost use Rattle.enc_schema.specs.Widths.{Shape, row_widths};

    ghost Value = { Shape };

    ghost view = { λ w. w.columns };

    ghost invariant = { λ w. w.rows ≡ row_widths w.columns };

    ghost inverse = { λ s. record { columns = s; rows = row_widths s } };
}

/// The widths in a file with these counts of rows, whose root has a stream `#JTD` or not, and with
/// these heap bits: 1 strings, 2 GUIDs, 4 blobs. The other bits have no effect.
pub fn widths_of(counts: &Counts, jtd: bool, flags: u8) -> Widths
    ensures { result ≡ record { counts = counts.now.rows; jtd = jtd; flags = flags } }
{
    let columns = ColumnWidths::of(FileShape {
        counts: *counts,
        jtd,
        flags,
    });
    let rows = columns.rows();
    Widths { columns, rows }
}

impl Widths {
    /// The bytes of a column's number: 1, 2 or 4.
    pub fn width(&self, column: Column) -> u8
        ensures width { result ≡ width_of self.now column }
        ensures size { (result ≡ 1) ⊎ ((result ≡ 2) ⊎ (result ≡ 4)) }
        ensures some { 0 < result }
        ensures few { result ≤ 4 }
        ensures fits { result ≤ space_of self.now column }
    {
        self.columns.width(column)
    }

    /// The bytes of a table's rows, at most 36: 0 where there is no such table.
    #[tactic(auto, using(crate::proofs::Kept::kept_row, crate::proofs::Kept::kept_few, crate::proofs::Kept::row_past))]
    pub fn row(&self, table: u8) -> u32
        ensures width { result ≡ row_width self.now table }
        ensures few { result ≤ 36 }
    {
        if table < 56 {
            u32::from(self.rows[table as usize])
        } else {
            0
        }
    }

    /// The bytes from a row's beginning to a column, from 0. Past the last column, those of the row.
    #[tactic(auto, unfolding(crate::specs::Widths::column_start))]
    pub fn start(&self, table: u8, column: u8) -> u32
        ensures start { result ≡ column_start self.now table column }
        ensures within { IfSome (column_in table column)
            (λ c. result + space_of self.now c ≤ row_width self.now table) }
        ensures few { result ≤ 36 }
    {
        u32::from(
            self.columns
                .total(front(columns_of(table), column as usize)),
        )
    }
}
