//! Judging the cells of a module: the first index, offset, signature or body that isn't good.
ghost use Rattle.std.specs.Prelude.{◌≡◌, ℕ, ◌<◌, ◌^◌, IfOk, IsTrue, None, Some, length, is_some, not, ◌&&◌};
ghost use Rattle.enc_base.specs.Order.{first_below};
ghost use Rattle.enc_base.specs.Token.{nth_row};
ghost use Rattle.enc_meta.specs.Heaps.{part};
ghost use Rattle.enc_schema.specs.Schema.{columns_in, column_in, is_offset};
ghost use Rattle.enc_rows.specs.Layout.{IsWithin, stream_has_row, rows_of};
ghost use Rattle.enc_image.specs.Base.{cell_for, offset_fault_at, offset_fault_in_row, offset_fault_in, offset_fault, body_fault_at, body_fault, rule, cells_fault};
ghost use Rattle.enc_image.specs.Seen.{source_seen};

use crate::bodies::body_fault;
use crate::fields::field_fault;
use crate::signatures::signature_fault;
use enc_base::tables::TABLE_COUNT;
use enc_base::{Code, Place, Refusal, Token};
use enc_meta::Heaps;
use enc_pe::{Container, LoadedFile};
use enc_rows::Tables;
use enc_schema::{Column, column_of, columns_of};
use std::alloc::{AllocError, Global};

/// What is judged: a module's file and its container, what of it is loaded, its metadata, its tables
/// and its heaps.
#[derive(Drop)]
pub struct Cells<'a> {
    pub file: &'a [u8],
    pub container: Container,
    pub loaded: LoadedFile<'a>,
    pub bytes: &'a [u8],
    pub tables: &'a Tables,
    pub heaps: Heaps<'a>,
}

/// The column is an offset in a heap, and no entry stands there.
#[tactic(auto, unfolding(enc_plain::specs::Reading::cell_read))]
fn is_bad_offset(cells: &Cells<'_>, column: Column, number: u32) -> bool
    ensures { result ≡ (is_offset column && not (is_some (cell_for (source_seen cells.now) column number))) }
{
    match column {
        Column::Text => !cells.heaps.has_text(number),
        Column::Guid => cells.heaps.guid(number).is_none(),
        Column::Blob => cells.heaps.blob(number).is_none(),
        _ => false,
    }
}

/// The place of a cell whose offset isn't good.
#[tactic(auto, unfolding(crate::specs::Base::offset_fault_at))]
fn offset_fault_at(cells: &Cells<'_>, token: Token, i: u8) -> Option<Place>
    requires bytes { IsWithin (part cells.now.bytes.now cells.now.tables.now.span) cells.now.tables.now }
    requires row { IsTrue (stream_has_row cells.now.tables.now token) }
    ensures { result ≡ offset_fault_at (source_seen cells.now) token i }
{
    let column = column_of(token.table, i)?;
    let number = cells.tables.cell(cells.bytes, token, i);
    if is_bad_offset(cells, column, number) {
        return Some(Place::Cell(token, i));
    }
    None
}

/// The first such cell of a row.
#[tactic(auto, using(enc_base::proofs::First::first_steps), unfolding(crate::specs::Base::offset_fault_in_row))]
fn offset_fault_in_row(cells: &Cells<'_>, table: u8, r: u32) -> Option<Place>
    requires bytes { IsWithin (part cells.now.bytes.now cells.now.tables.now.span) cells.now.tables.now }
    requires row { r < rows_of cells.now.tables.now table }
    requires few { r < 2 ^ 24 }
    ensures { result ≡ offset_fault_in_row (source_seen cells.now) table r }
{
    let token = Token { table, row: r + 1 };
    for i in 0..columns_of(table).len() {
        match offset_fault_at(cells, token, i as u8) {
            Some(place) => return Some(place),
            None => {}
        }
    }
    None
}

/// The first such cell of a table.
#[tactic(auto, using(enc_base::proofs::First::first_steps), unfolding(crate::specs::Base::offset_fault_in))]
fn offset_fault_in(cells: &Cells<'_>, table: u8) -> Option<Place>
    requires { IsWithin (part cells.now.bytes.now cells.now.tables.now.span) cells.now.tables.now }
    ensures { result ≡ offset_fault_in (source_seen cells.now) table }
{
    for r in 0..cells.tables.count(table) {
        match offset_fault_in_row(cells, table, r) {
            Some(place) => return Some(place),
            None => {}
        }
    }
    None
}

/// F8: the first offset that isn't good.
#[tactic(auto, using(enc_base::proofs::First::first_steps), unfolding(crate::specs::Base::offset_fault))]
fn offset_fault(cells: &Cells<'_>) -> Option<Place>
    requires { IsWithin (part cells.now.bytes.now cells.now.tables.now.span) cells.now.tables.now }
    ensures { result ≡ offset_fault (source_seen cells.now) }
{
    for table in 0..TABLE_COUNT {
        match offset_fault_in(cells, table) {
            Some(place) => return Some(place),
            None => {}
        }
    }
    None
}

/// The refusal by a rule at a place.
fn broken(n: u8, place: Place) -> Refusal
    ensures { Some result ≡ rule n (Some place) }
{
    Refusal {
        code: Code::F(n),
        place,
    }
}

/// What is wrong with the cells: F7 of indices, F8 of offsets, F11 of signatures, F10 of bodies, and
/// then F5 of fields.
#[tactic(auto, unfolding(crate::specs::Base::cells_fault))]
pub fn cells_fault(alloc: Global, cells: &Cells<'_>) -> Result<Option<Refusal>, AllocError>
    requires { IsWithin (part cells.now.bytes.now cells.now.tables.now.span) cells.now.tables.now }
    ensures { IfOk result (λ r. r ≡ cells_fault (source_seen cells.now)) }
{
    match cells.tables.first_bad_index(alloc, cells.bytes) {
        Err(error) => return Err(error),
        Ok(Some(place)) => return Ok(Some(broken(7, place))),
        Ok(None) => {}
    }
    match offset_fault(cells) {
        Some(place) => return Ok(Some(broken(8, place))),
        None => {}
    }
    match signature_fault(alloc, cells) {
        Err(error) => return Err(error),
        Ok(Some(place)) => return Ok(Some(broken(11, place))),
        Ok(None) => {}
    }
    match body_fault(alloc, cells) {
        Err(error) => return Err(error),
        Ok(Some(place)) => return Ok(Some(broken(10, place))),
        Ok(None) => {}
    }
    match field_fault(alloc, cells) {
        Err(error) => Err(error),
        Ok(Some(place)) => Ok(Some(broken(5, place))),
        Ok(None) => Ok(None),
    }
}
