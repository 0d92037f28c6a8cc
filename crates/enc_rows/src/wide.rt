//! Which heaps' columns need four bytes for their numbers (ECMA-335 II.24.2.6).
ghost use Rattle.std.specs.Prelude.{◌≡◌, ◌<◌, length, IsTrue};
ghost use Rattle.std.specs.List.{list_all, list_any};
ghost use Rattle.enc_schema.specs.Schema.{columns_in};
ghost use Rattle.enc_rows.specs.Sums.{below};
ghost use Rattle.enc_rows.specs.Written.{rows_at, has_cells, heap_bit, cell_is_wide, row_is_wide, is_wide, heap_bits, AreRows};

use crate::row::{Row, TableRows};
use crate::written::rows_at;
use enc_schema::{Column, columns_of};

/// The heap bit of a column, 0 where it names no heap.
fn heap_bit(column: Column) -> u8
    ensures { result ≡ heap_bit column }
{
    match column {
        Column::Text => 1,
        Column::Guid => 2,
        Column::Blob => 4,
        _ => 0,
    }
}

/// Whether a column is of this heap, and its number doesn't fit two bytes.
#[tactic(auto, unfolding(crate::specs::Written::cell_is_wide))]
fn cell_is_wide(bit: u8, column: Column, number: u32) -> bool
    ensures { result ≡ cell_is_wide bit column number }
{
    heap_bit(column) == bit && number >= 0x1_0000
}

/// Whether some number in a row's columns of this heap doesn't fit two bytes.
fn row_is_wide(bit: u8, columns: &[Column], cells: &[u32]) -> bool
    requires { length cells.now ≡ length columns.now }
    ensures { result ≡ row_is_wide bit columns.now cells.now }
{
    for i in 0..cells.len() {
        if cell_is_wide(bit, columns[i], cells[i]) {
            return true;
        }
    }
    false
}

/// Whether some row of a table has such a number.
fn table_is_wide(bit: u8, columns: &[Column], rows: &[Row]) -> bool
    requires { IsTrue (list_all (has_cells columns.now) rows.now) }
    ensures { result ≡ list_any (row_is_wide bit columns.now) rows.now }
{
    for row in rows {
        if row_is_wide(bit, columns, row.cells()) {
            return true;
        }
    }
    false
}

/// Whether some table has such a row.
#[tactic(auto, using(crate::proofs::Below::any_steps), unfolding(crate::specs::Written::is_wide))]
fn is_wide(bit: u8, tables: &[TableRows]) -> bool
    requires { AreRows tables.now }
    ensures { result ≡ is_wide tables.now bit }
{
    for table in 0..64 {
        if table_is_wide(bit, columns_of(table), rows_at(tables, table)) {
            return true;
        }
    }
    false
}

/// The heap bits by which all numbers fit their heaps' columns: 1 for strings, 2 for GUIDs, 4 for
/// blobs.
#[tactic(auto, unfolding(crate::specs::Written::heap_bits))]
pub(crate) fn heap_bits(tables: &[TableRows]) -> u8
    requires { AreRows tables.now }
    ensures bits { result ≡ heap_bits tables.now }
    ensures few { result < 8 }
{
    let strings = if is_wide(1, tables) { 1 } else { 0 };
    let guids = if is_wide(2, tables) { 2 } else { 0 };
    let blobs = if is_wide(4, tables) { 4 } else { 0 };
    strings + guids + blobs
}
