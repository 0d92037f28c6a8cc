//! The rows of a table stream.
ghost use Rattle.std.specs.Prelude.{◌≡◌, ℕ, ◌+◌, ◌*◌, ◌<◌, ◌≤◌, ◌^◌, ◌⊎◌, length, Some, IsTrue, IsSome, IfOk, IfSome, slice_index};
ghost use Rattle.enc_meta.specs.Heaps.{part};
ghost use Rattle.enc_schema.specs.Schema.{column_in};
ghost use Rattle.enc_schema.specs.Widths.{space_of, row_width};
ghost use Rattle.enc_rows.specs.Layout.{Layout, layout_of, whole_layout, stream_tables, laid_out, rows_of, stream_has_row, raw_cell, table_start, cell_place, number_of_width, IsWithin};

use crate::columns::Columns;
use crate::form::Form;
use crate::header::{counts_of, first_row, fits, width_counts_of};
use enc_base::{Code, Counts, Place, Refusal, Steps, Token, u16_at, u32_at, u64_at};
use enc_meta::Span;
use enc_schema::{Widths, widths_of};
use std::marker::{Brand, Model};
use std::sync::ledger::{Blank, Ledger};

/// Where each table begins in the stream, and where the last one ends.
#[derive(Drop)]
struct Starts {
    of: [usize; 64],
    end: usize,
}

/// The rows of a table stream that was read: how many there are of each table, and where their
/// cells stand. It holds no bytes.
#[derive(Drop)]
pub struct Tables {
    span: Span,
    counts: Counts,
    columns: Columns,
    first: usize,
    starts: [usize; 64],
}

impl Model for Tables {
    ghost use Rattle.enc_rows.specs.Layout.{Layout, IsLaidOut};

    ghost Value = { Layout };

    ghost view = { λ t. record { span = t.span; counts = t.counts.rows; shape = t.columns; first = t.first } };

    ghost invariant = { λ t. IsLaidOut
        (record { span = t.span; counts = t.counts.rows; shape = t.columns; first = t.first }) t.starts };
}

/// The bytes of all rows of a table.
fn bytes_of(counts: &Counts, widths: &Widths, table: u8) -> usize
    requires { table < 64 }
    ensures bytes { result ≡ slice_index counts.now.rows table * row_width widths.now table }
    ensures few { result ≤ 36 * 2 ^ 32 }
{
    counts.rows[table as usize] as usize * widths.row(table) as usize
}

/// Where the tables begin one behind the other.
#[tactic(auto, using(crate::proofs::Below::sum_steps), unfolding(crate::specs::Layout::table_start))]
fn starts_of(span: Span, counts: &Counts, widths: &Widths, first: usize) -> Starts
    requires { first ≤ 284 }
    ensures of { (k : ℕ) → k < 64 → slice_index result.of k
        ≡ table_start (record { span = span; counts = counts.now.rows; shape = widths.now; first = first }) k }
    ensures end { result.end ≡ table_start
        (record { span = span; counts = counts.now.rows; shape = widths.now; first = first }) 64 }
{
    let _ = span;
    let mut of = [0; 64];
    let mut end = first;
    for table in 0..64 {
        of[table as usize] = end;
        end += bytes_of(counts, widths, table);
    }
    Starts { of, end }
}

impl Tables {
    /// The rows of the table stream in this range. F6 `tables` where the stream doesn't hold its
    /// counts and rows, where a count passes 2^24 - 1, or where the form has no such tables.
    /// `outer` has the numbers of rows of a PDB's module, and else zeros.
    #[tactic(auto, unfolding(crate::specs::Layout::stream_tables))]
    pub fn read(
        bytes: &[u8],
        span: Span,
        form: Form,
        jtd: bool,
        outer: &Counts,
    ) -> Result<Tables, Refusal>
        ensures tables { result ≡ stream_tables bytes.now span form jtd outer.now.rows }
        ensures within { IfOk result (λ l. IsWithin (part bytes.now span) l × (l.span ≡ span)) }
    {
        match laid(span.part(bytes), span, form, jtd, outer) {
            Some(tables) => Ok(tables),
            None => Err(Refusal {
                code: Code::F(6),
                place: Place::Tables,
            }),
        }
    }

    /// The number of rows of a table.
    pub fn count(&self, table: u8) -> u32
        ensures count { result ≡ rows_of self.now table }
        ensures few { result < 2 ^ 24 }
    {
        if table < 64 {
            self.counts.rows[table as usize]
        } else {
            0
        }
    }

    /// The number of rows of each table.
    pub fn counts(&self) -> &Counts
        ensures { result.now.rows ≡ self.now.counts }
    {
        &self.counts
    }

    /// Where a cell stands in the stream.
    fn place(&self, token: Token, column: u8) -> usize
        requires row { IsTrue (stream_has_row self.now token) }
        requires column { IsSome (column_in token.table column) }
        requires near { table_start self.now 64 < 2 ^ 63 }
        ensures place { result ≡ cell_place self.now token column }
        ensures within { IfSome (column_in token.table column)
            (λ c. result + space_of self.now.shape c ≤ table_start self.now 64) }
    {
        self.starts[token.table as usize]
            + (token.row as usize - 1) * self.columns.row(token.table) as usize
            + self.columns.start(token.table, column) as usize
    }

    /// The number that stands in a cell: a number, an offset in a heap, or an index as it is
    /// stored. One step. `bytes` are those from which the tables were read.
    pub fn raw<L: Ledger>(
        &self,
        bytes: &[u8],
        token: Token,
        column: u8,
        steps: &mut Steps<L>,
    ) -> u32
        requires bytes { IsWithin (part bytes.now self.now.span) self.now }
        requires row { IsTrue (stream_has_row self.now token) }
        requires column { IsSome (column_in token.table column) }
        ensures cell { raw_cell (part bytes.now self.now.span) self.now token column ≡ Some result }
        ensures steps { steps.new ≡ steps.old + 1 }
    {
        steps.tick();
        let width = self.columns.width(token.table, column);
        number_of(self.span.part(bytes), self.place(token, column), width)
    }
}

impl Tables {
    /// The number that stands in a cell, for a caller that counts nothing.
    pub fn cell(&self, bytes: &[u8], token: Token, column: u8) -> u32
        requires bytes { IsWithin (part bytes.now self.now.span) self.now }
        requires row { IsTrue (stream_has_row self.now token) }
        requires column { IsSome (column_in token.table column) }
        ensures { raw_cell (part bytes.now self.now.span) self.now token column ≡ Some result }
    {
        raw_counted::<Brand>(self, bytes, token, column, Blank::new(1))
    }
}

/// The number that stands in a cell, counted in a ledger of its own.
fn raw_counted<L: Ledger>(
    tables: &Tables,
    bytes: &[u8],
    token: Token,
    column: u8,
    blank: Blank,
) -> u32
    requires name { blank.name ≡ L.name }
    requires parts { blank.parts ≡ L.parts }
    requires some { 0 < L.parts }
    requires bytes { IsWithin (part bytes.now tables.now.span) tables.now }
    requires row { IsTrue (stream_has_row tables.now token) }
    requires column { IsSome (column_in token.table column) }
    ensures { raw_cell (part bytes.now tables.now.span) tables.now token column ≡ Some result }
{
    let mut steps = Steps::<L>::begin(blank);
    tables.raw(bytes, token, column, &mut steps)
}

/// The number of one, two or four bytes at a place.
fn number_of(stream: &[u8], at: usize, width: u8) -> u32
    requires size { (width ≡ 1) ⊎ ((width ≡ 2) ⊎ (width ≡ 4)) }
    requires room { at + width ≤ length stream.now }
    ensures { number_of_width width stream.now at ≡ Some result }
{
    match width {
        1 => u32::from(stream[at]),
        2 => {
            let Some(n) = u16_at(stream, at) else {
                unreachable!()
            };
            u32::from(n)
        }
        _ => {
            let Some(n) = u32_at(stream, at) else {
                unreachable!()
            };
            n
        }
    }
}

/// The tables by the valid bits and the heap bits, where the stream is whole.
fn whole(
    stream: &[u8],
    span: Span,
    form: Form,
    valid: u64,
    flags: u8,
    jtd: bool,
    outer: &Counts,
) -> Option<Tables>
    ensures layout { result ≡ whole_layout stream.now form valid
        (laid_out stream.now span valid flags jtd outer.now.rows) }
    ensures within { IfSome result (λ l. IsWithin stream.now l × (l.span ≡ span)) }
{
    let counts = counts_of(stream, valid);
    let widths = widths_of(&width_counts_of(stream, valid, outer), jtd, flags);
    let first = first_row(valid, flags);
    let starts = starts_of(span, &counts, &widths, first);
    if !fits(stream.len(), form, valid, &counts, first, starts.end) {
        return None;
    }
    let starts = starts.of;
    Some(Tables {
        span,
        counts,
        columns: Columns::of(widths),
        first,
        starts,
    })
}

/// The tables as the stream's header lays them out, where the stream is whole.
#[tactic(auto, unfolding(crate::specs::Layout::layout_of))]
fn laid(stream: &[u8], span: Span, form: Form, jtd: bool, outer: &Counts) -> Option<Tables>
    ensures layout { result ≡ layout_of stream.now span form jtd outer.now.rows }
    ensures within { IfSome result (λ l. IsWithin stream.now l × (l.span ≡ span)) }
{
    let valid = u64_at(stream, 8)?;
    let flags = *stream.get(6)?;
    whole(stream, span, form, valid, flags, jtd, outer)
}
