//! The bytes of a table stream (ECMA-335 II.24.2.6).
ghost use Rattle.std.specs.Prelude.{◌≡◌, ℕ, ◌+◌, ◌^◌, ◌<◌, ◌≤◌, ◌++◌, length, flat_map, is_ok, if◌then◌else◌, IsTrue, OnOk};
ghost use Rattle.std.specs.List.{list_all};
ghost use Rattle.enc_schema.specs.Schema.{columns_in};
ghost use Rattle.enc_rows.specs.Sums.{below};
ghost use Rattle.enc_rows.specs.Written.{rows_at, count_at, counts_of, bit_of, valid_of, cell_bytes, row_bytes, table_written, count_written, more_data, header_written, stream_of, fits, row_fits, AreRows, AllFit};

use crate::row::{Row, TableRows};
use enc_base::{Counts, push_half, push_long, push_word, push_zeros};
use enc_schema::{Column, Widths, columns_of, widths_of};
use std::alloc::AllocError;

/// The rows of a table, none past the last table.
pub(crate) fn rows_at(tables: &[TableRows], table: u8) -> &[Row]
    ensures { result.now ≡ rows_at tables.now table }
{
    match tables.get(table as usize) {
        Some(rows) => rows.rows(),
        None => &[],
    }
}

/// The number of rows of a table.
pub(crate) fn count_at(tables: &[TableRows], table: u8) -> usize
    ensures { result ≡ count_at tables.now table }
{
    rows_at(tables, table).len()
}

/// The numbers of rows of all tables.
#[tactic(auto, using(crate::proofs::Below::filled_below), unfolding(crate::specs::Written::counts_of))]
fn counts_of(tables: &[TableRows]) -> Counts
    requires { AreRows tables.now }
    ensures { result.rows ≡ counts_of tables.now }
{
    let mut rows = [0; 64];
    for table in 0..64 {
        rows[table as usize] = count_at(tables, table) as u32;
    }
    Counts { rows }
}

/// The bit of a table, where it has rows.
fn bit_of(tables: &[TableRows], table: u8) -> u64
    requires { table < 64 }
    ensures bit { result ≡ bit_of tables.now table }
    ensures few { result ≤ 2 ^ table }
{
    if count_at(tables, table) > 0 {
        1 << table
    } else {
        0
    }
}

/// The bits of the tables that are there.
#[tactic(auto, using(crate::proofs::Below::sum_steps), unfolding(crate::specs::Written::valid_of))]
fn valid_of(tables: &[TableRows]) -> u64
    ensures { result ≡ valid_of tables.now }
{
    let mut valid = 0;
    for table in 0..64 {
        valid += bit_of(tables, table);
    }
    valid
}

/// Appends the header.
fn push_header(valid: u64, flags: u8, out: &mut Vec<u8>) -> Result<(), AllocError>
    ensures { OnOk result (out.new.items ≡ out.old.items ++ header_written valid flags) }
{
    out.extend_from_slice(&[0, 0, 0, 0, 2, 0, flags, 1])?;
    push_long(valid, out)?;
    push_zeros(8, out)?;
    Ok(())
}

/// Appends the number of rows of a table that is there.
fn push_count(tables: &[TableRows], table: u8, out: &mut Vec<u8>) -> Result<(), AllocError>
    requires { AreRows tables.now }
    ensures { OnOk result (out.new.items ≡ out.old.items ++ count_written tables.now table) }
{
    let count = count_at(tables, table);
    if count == 0 {
        return Ok(());
    }
    push_word(count as u32, out)
}

/// Appends the numbers of rows of the tables that are there.
#[tactic(auto, using(crate::proofs::Pieces::pieces_none, crate::proofs::Pieces::pieces_behind))]
fn push_counts(tables: &[TableRows], out: &mut Vec<u8>) -> Result<(), AllocError>
    requires { AreRows tables.now }
    ensures { OnOk result (out.new.items ≡ out.old.items ++ flat_map (count_written tables.now) (below 64)) }
{
    for table in 0..64 {
        push_count(tables, table, out)?;
    }
    Ok(())
}

/// Appends the four bytes that heap bit 40 adds.
fn push_more(flags: u8, out: &mut Vec<u8>) -> Result<(), AllocError>
    ensures { OnOk result (out.new.items ≡ out.old.items ++ more_data flags) }
{
    if (flags / 0x40) % 2 == 1 {
        return push_zeros(4, out);
    }
    Ok(())
}

/// Appends a number in the bytes of its column.
#[tactic(auto, unfolding(crate::specs::Written::cell_bytes))]
fn push_cell(
    widths: &Widths,
    column: Column,
    number: u32,
    out: &mut Vec<u8>,
) -> Result<(), AllocError>
    requires { IsTrue (fits widths.now column number) }
    ensures { OnOk result (out.new.items ≡ out.old.items ++ cell_bytes widths.now column number) }
{
    if widths.width(column) == 4 {
        return push_word(number, out);
    }
    push_half(number as u16, out)
}

/// Appends a row.
fn push_row(
    widths: &Widths,
    columns: &[Column],
    cells: &[u32],
    out: &mut Vec<u8>,
) -> Result<(), AllocError>
    requires length { length cells.now ≡ length columns.now }
    requires fit { IsTrue (row_fits widths.now columns.now cells.now) }
    ensures { OnOk result (out.new.items ≡ out.old.items ++ row_bytes widths.now columns.now cells.now) }
{
    for i in 0..cells.len() {
        push_cell(widths, columns[i], cells[i], out)?;
    }
    Ok(())
}

/// Appends the rows of a table.
fn push_rows(
    widths: &Widths,
    columns: &[Column],
    rows: &[Row],
    out: &mut Vec<u8>,
) -> Result<(), AllocError>
    requires { IsTrue (list_all (row_fits widths.now columns.now) rows.now) }
    ensures { OnOk result (out.new.items ≡ out.old.items ++ flat_map (row_bytes widths.now columns.now) rows.now) }
{
    for row in rows {
        push_row(widths, columns, row.cells(), out)?;
    }
    Ok(())
}

/// Appends the rows of all tables, table by table.
#[tactic(auto, using(crate::proofs::Pieces::pieces_steps), unfolding(crate::specs::Written::table_written))]
fn push_tables(widths: &Widths, tables: &[TableRows], out: &mut Vec<u8>) -> Result<(), AllocError>
    requires { (table : ℕ) → IsTrue (list_all (row_fits widths.now (columns_in table)) (rows_at tables.now table)) }
    ensures { OnOk result (out.new.items ≡ out.old.items ++ flat_map (table_written tables.now widths.now) (below 64)) }
{
    for table in 0..64 {
        push_rows(widths, columns_of(table), rows_at(tables, table), out)?;
    }
    Ok(())
}

/// Appends the stream.
#[tactic(auto, unfolding(crate::specs::Written::stream_of))]
pub(crate) fn push_stream(
    tables: &[TableRows],
    jtd: bool,
    flags: u8,
    out: &mut Vec<u8>,
) -> Result<(), AllocError>
    requires rows { AreRows tables.now }
    requires fit { AllFit tables.now jtd flags }
    ensures { OnOk result (out.new.items ≡ out.old.items ++ stream_of tables.now jtd flags) }
{
    push_header(valid_of(tables), flags, out)?;
    push_counts(tables, out)?;
    push_more(flags, out)?;
    let widths = widths_of(&counts_of(tables), jtd, flags);
    push_tables(&widths, tables, out)?;
    Ok(())
}
