//! The first bad index of the tables (ECMA-335 II.22).
ghost use Rattle.std.specs.Prelude.{◌≡◌, ℕ, ◌<◌, ◌^◌, Some, None, length, IsTrue, IsSome, IfOk};
ghost use Rattle.enc_base.specs.Order.{first_below};
ghost use Rattle.enc_meta.specs.Heaps.{part};
ghost use Rattle.enc_schema.specs.Schema.{columns_in, column_in};
ghost use Rattle.enc_rows.specs.Layout.{IsWithin, rows_of};
ghost use Rattle.enc_base.specs.Token.{nth_row};
ghost use Rattle.enc_rows.specs.Runs.{table_stream, raw_number, goes_by_ptr, run_rows as run_room};
ghost use Rattle.enc_rows.specs.Owners.{TellsOwners};
ghost use Rattle.enc_rows.specs.Fault.{is_past as is_token_past, is_bad_run as is_run_bad, is_bad_index as is_index_bad, index_fault_at as fault_at, index_fault_in_row, index_fault_in, index_fault};

use crate::owners::{Owners, owners_of};
use crate::tables::Tables;
use enc_base::{Place, Token};
use enc_schema::{Column, column_of, columns_of, decode_coded, ptr_table};
use std::alloc::{AllocError, Global};

/// How many rows a run of a child table can name: those of its Ptr table where that has rows.
pub(crate) fn run_rows(tables: &Tables, child: u8) -> u32
    ensures rows { result ≡ run_room tables.now child }
    ensures few { result < 2 ^ 24 }
{
    let through = tables.count(ptr_table(child));
    if through > 0 {
        through
    } else {
        tables.count(child)
    }
}

/// The number in a cell of the n-th row, n from 0.
pub(crate) fn number_of(tables: &Tables, bytes: &[u8], table: u8, n: u32, i: u8) -> u32
    requires bytes { IsWithin (part bytes.now tables.now.span) tables.now }
    requires row { n < rows_of tables.now table }
    requires few { n < 2 ^ 24 }
    requires column { IsSome (column_in table i) }
    ensures { result ≡ raw_number (table_stream bytes.now tables.now) (nth_row table n) i }
{
    tables.cell(bytes, Token { table, row: n + 1 }, i)
}

/// A token is past its table, or there is none.
fn is_past(tables: &Tables, token: Option<Token>) -> bool
    ensures { result ≡ is_token_past tables.now token }
{
    match token {
        Some(token) => token.row > tables.count(token.table),
        None => true,
    }
}

/// The run in a column of the n-th row begins at 0, past the count plus 1, or before the run of
/// the row before it (ECMA-335 II.22.37, II.22.26, II.22.12, II.22.35).
fn is_bad_run(tables: &Tables, bytes: &[u8], table: u8, i: u8, child: u8, n: u32) -> bool
    requires bytes { IsWithin (part bytes.now tables.now.span) tables.now }
    requires row { n < rows_of tables.now table }
    requires few { n < 2 ^ 24 }
    requires column { IsSome (column_in table i) }
    ensures { result ≡ is_run_bad (table_stream bytes.now tables.now) table i child n }
{
    let start = number_of(tables, bytes, table, n, i);
    if start == 0 || start > run_rows(tables, child) + 1 {
        return true;
    }
    n > 0 && start < number_of(tables, bytes, table, n - 1, i)
}

/// The index in a column of the n-th row is bad.
fn is_bad_index(tables: &Tables, bytes: &[u8], table: u8, n: u32, i: u8, column: Column) -> bool
    requires bytes { IsWithin (part bytes.now tables.now.span) tables.now }
    requires row { n < rows_of tables.now table }
    requires few { n < 2 ^ 24 }
    requires column { column_in table i ≡ Some column }
    ensures { result ≡ is_index_bad (table_stream bytes.now tables.now) table n i column }
{
    match column {
        Column::Index(other) => number_of(tables, bytes, table, n, i) > tables.count(other),
        Column::Coded(kind) => is_past(
            tables,
            decode_coded(kind, number_of(tables, bytes, table, n, i)),
        ),
        Column::Run(child) => is_bad_run(tables, bytes, table, i, child, n),
        _ => false,
    }
}

/// The cell, where its index is bad.
#[tactic(auto, unfolding(crate::specs::Fault::index_fault_at))]
fn index_fault_at(tables: &Tables, bytes: &[u8], table: u8, n: u32, i: u8) -> Option<Place>
    requires bytes { IsWithin (part bytes.now tables.now.span) tables.now }
    requires row { n < rows_of tables.now table }
    requires few { n < 2 ^ 24 }
    ensures { result ≡ fault_at (table_stream bytes.now tables.now) table n i }
{
    let column = column_of(table, i)?;
    if is_bad_index(tables, bytes, table, n, i, column) {
        Some(Place::Cell(Token { table, row: n + 1 }, i))
    } else {
        None
    }
}

/// The first cell of a row whose index is bad.
#[tactic(auto, using(enc_base::proofs::First::first_steps))]
fn columns_fault(tables: &Tables, bytes: &[u8], table: u8, n: u32) -> Option<Place>
    requires bytes { IsWithin (part bytes.now tables.now.span) tables.now }
    requires row { n < rows_of tables.now table }
    requires few { n < 2 ^ 24 }
    ensures { result ≡ first_below (fault_at (table_stream bytes.now tables.now) table n) (length (columns_in table)) }
{
    for i in 0..columns_of(table).len() {
        match index_fault_at(tables, bytes, table, n, i as u8) {
            Some(place) => return Some(place),
            None => {}
        }
    }
    None
}

/// What is wrong with a row: the first cell whose index is bad, and behind its columns the row
/// itself, where it isn't named by the runs exactly once.
#[tactic(auto, unfolding(crate::specs::Fault::index_fault_in_row, crate::specs::Fault::owner_fault))]
fn row_fault(tables: &Tables, bytes: &[u8], owners: &Owners, table: u8, n: u32) -> Option<Place>
    requires bytes { IsWithin (part bytes.now tables.now.span) tables.now }
    requires owners { TellsOwners (table_stream bytes.now tables.now) table owners.now }
    requires row { n < rows_of tables.now table }
    requires few { n < 2 ^ 24 }
    ensures { result ≡ index_fault_in_row (table_stream bytes.now tables.now) table n }
{
    match columns_fault(tables, bytes, table, n) {
        Some(place) => return Some(place),
        None => {}
    }
    if owners.name_once(n) {
        None
    } else {
        Some(Place::Owner(Token { table, row: n + 1 }))
    }
}

/// The first fault of a table's rows.
#[tactic(auto, using(enc_base::proofs::First::first_steps), unfolding(crate::specs::Fault::index_fault_in))]
fn rows_fault(tables: &Tables, bytes: &[u8], owners: &Owners, table: u8) -> Option<Place>
    requires bytes { IsWithin (part bytes.now tables.now.span) tables.now }
    requires owners { TellsOwners (table_stream bytes.now tables.now) table owners.now }
    ensures { result ≡ index_fault_in (table_stream bytes.now tables.now) table }
{
    for n in 0..tables.count(table) {
        match row_fault(tables, bytes, owners, table, n) {
            Some(place) => return Some(place),
            None => {}
        }
    }
    None
}

/// The first fault of a table, where the tables below it have none.
fn table_fault(
    tables: &Tables,
    alloc: Global,
    bytes: &[u8],
    table: u8,
) -> Result<Option<Place>, AllocError>
    requires bytes { IsWithin (part bytes.now tables.now.span) tables.now }
    requires good { first_below (index_fault_in (table_stream bytes.now tables.now)) table ≡ None }
    ensures { IfOk result (λ place. place ≡ index_fault_in (table_stream bytes.now tables.now) table) }
{
    let owners = owners_of(tables, alloc, bytes, table)?;
    Ok(rows_fault(tables, bytes, &owners, table))
}

impl Tables {
    /// The first bad index of the tables, by table, row and column: one that is past its table,
    /// a coded one with a tag of no table, a run that doesn't begin from the run before it to the
    /// place behind the last row, and behind the columns of a row that has an owner the row, where
    /// the runs don't name it exactly once. `bytes` are those from which the tables were read. It
    /// takes a time linear in their rows, and memory only where there are Ptr tables.
    #[tactic(auto, using(enc_base::proofs::First::first_steps), unfolding(crate::specs::Fault::index_fault))]
    pub fn first_bad_index(&self, alloc: Global, bytes: &[u8]) -> Result<Option<Place>, AllocError>
        requires bytes { IsWithin (part bytes.now self.now.span) self.now }
        ensures { IfOk result (λ place. place ≡ index_fault (table_stream bytes.now self.now)) }
    {
        for table in 0..0x40 {
            match table_fault(self, alloc, bytes, table) {
                Ok(Some(place)) => return Ok(Some(place)),
                Ok(None) => {}
                Err(error) => return Err(error),
            }
        }
        Ok(None)
    }
}
