//! The cells of an added row.
ghost use Rattle.std.specs.Prelude.{◌≡◌, ◌<◌, ◌==◌, length, map, filter, drop, option_map, slice_get, Some, if◌then◌else◌};
ghost use Rattle.std.specs.List.{list_any};
ghost use Rattle.serde_json.specs.View.{view};
ghost use Rattle.enc_schema.specs.Schema.{columns_in};
ghost use Rattle.enc_edit_list.specs.declared.edit.Cell.TheVariants.{Num};
ghost use Rattle.enc_edit_list.specs.Form.{is_stated, begins_with_rva, stated_columns};
ghost use Rattle.enc_jobs.specs.Outcome.{ReadsAs};
ghost use Rattle.enc_jobs.specs.Cell.{text_cell_said, cell_said, cells_said};
ghost use Rattle.enc_jobs.specs.Json.{number_said};

use crate::fault::Refused;
use crate::value::{blob, bytes_of, guid, number, text, token};
use enc_base::tables::{FIELD_RVA, METHOD_DEF};
use enc_edit_list::{Cell, Cells};
use enc_schema::{Column, columns_of};
use serde_json::Value;
use std::alloc::Global;

/// Whether a text has a zero character.
fn has_zero(text: &str) -> bool
    ensures { result ≡ list_any (λ b. b == 0) text.now }
{
    text.as_bytes().contains(&0)
}

/// A text without a zero character.
#[tactic(auto, unfolding(crate::specs::Cell::text_cell_said))]
fn text_cell(alloc: Global, value: &Value) -> Result<Cell, Refused>
    ensures { ReadsAs result (text_cell_said (view value.now)) }
{
    let text = text(value)?;
    if has_zero(text) {
        return Err(Refused::Form);
    }
    Ok(Cell::Text(bytes_of(alloc, text)?))
}

/// A cell of a number up to a bound below 2^32.
fn number_cell(most: u32, value: &Value) -> Result<Cell, Refused>
    ensures { ReadsAs result (option_map Num (number_said most (view value.now))) }
{
    let number = number(u64::from(most), value)?;
    Ok(Cell::Num(number as u32))
}

/// What stands in a column of an added row.
#[tactic(auto, unfolding(crate::specs::Cell::cell_said))]
fn cell_read(alloc: Global, column: Column, value: &Value) -> Result<Cell, Refused>
    ensures { ReadsAs result (cell_said column (view value.now)) }
{
    match column {
        Column::Num8 => number_cell(0xFF, value),
        Column::Num16 => number_cell(0xFFFF, value),
        Column::Num32 => number_cell(0xFFFF_FFFF, value),
        Column::Text => text_cell(alloc, value),
        Column::Guid => Ok(Cell::Guid(guid(value)?)),
        Column::Blob => Ok(Cell::Blob(blob(alloc, value)?)),
        Column::Index(_) | Column::Coded(_) => Ok(Cell::Refer(token(value)?)),
        Column::Run(_) => Err(Refused::Form),
    }
}

/// Whether an edit has a cell for the column.
fn is_stated(column: Column) -> bool
    ensures { result ≡ is_stated column }
{
    !matches!(column, Column::Run(_))
}

/// The column at an index.
fn column_at(columns: &[Column], i: usize) -> Column
    requires { i < length columns.now }
    ensures { slice_get columns.now i ≡ Some result }
{
    columns[i]
}

/// A cell for each of these columns but runs.
#[tactic(auto, using(crate::proofs::Rows::cell_steps))]
fn cells_in(alloc: Global, columns: &[Column], items: &[Value]) -> Result<Cells, Refused>
    ensures { ReadsAs result (cells_said (filter is_stated columns.now) (map view items.now)) }
{
    let mut cells = Cells::begin(alloc);
    for i in 0..columns.len() {
        let column = column_at(columns, i);
        if !is_stated(column) {
            continue;
        }
        let Some(value) = items.get(cells.len()) else {
            return Err(Refused::Form);
        };
        cells.push(cell_read(alloc, column, value)?)?;
    }
    if cells.len() < items.len() {
        return Err(Refused::Form);
    }
    Ok(cells)
}

/// The columns of a table but an RVA in front.
fn columns_behind_rva(table: u8) -> &'static [Column]
    ensures { result.now ≡ drop (if begins_with_rva table then 1 else 0) (columns_in table) }
{
    let columns = columns_of(table);
    if table == METHOD_DEF || table == FIELD_RVA {
        return columns.get(1..).unwrap_or(&[]);
    }
    columns
}

/// The cells of a row that is added to a table: one for each column but runs and RVA.
#[tactic(auto, unfolding(enc_edit_list::specs::Form::stated_columns))]
pub fn cells(alloc: Global, table: u8, items: &[Value]) -> Result<Cells, Refused>
    ensures { ReadsAs result (cells_said (stated_columns table) (map view items.now)) }
{
    cells_in(alloc, columns_behind_rva(table), items)
}
