//! The value in a column of a row, over any view of a module.
ghost use Rattle.std.specs.Prelude.{◌≡◌};
ghost use Rattle.enc_c.specs.Cells.{asked_number, asked_text, asked_blob, asked_guid, asked_token, lent};

use crate::kinds::{CellKind, kind_in};
use crate::status::Status;
use enc_base::Token;
use enc_plain::{ModuleView, is_row};

/// The number in a column.
#[tactic(auto, unfolding(crate::specs::Cells::asked_number))]
pub fn number<V: ModuleView>(view: &V, row: Token, column: u8) -> Result<u32, Status>
    ensures { result ≡ asked_number (V.meaning view.now) row column }
{
    if !is_row(view, row) {
        return Err(Status::Absent);
    }
    match kind_in(row.table, column) {
        Some(CellKind::Numbers) => Ok(view.num(row, column)),
        _ => Err(Status::Unlike),
    }
}

/// The bytes of a text.
#[tactic(auto, unfolding(crate::specs::Cells::asked_text))]
pub fn text<V: ModuleView>(view: &V, row: Token, column: u8) -> Result<&[u8], Status>
    ensures { lent result ≡ asked_text (V.meaning view.now) row column }
{
    if !is_row(view, row) {
        return Err(Status::Absent);
    }
    match kind_in(row.table, column) {
        Some(CellKind::Texts) => Ok(view.text(row, column)),
        _ => Err(Status::Unlike),
    }
}

/// The bytes of a blob.
#[tactic(auto, unfolding(crate::specs::Cells::asked_blob))]
pub fn blob<V: ModuleView>(view: &V, row: Token, column: u8) -> Result<&[u8], Status>
    ensures { lent result ≡ asked_blob (V.meaning view.now) row column }
{
    if !is_row(view, row) {
        return Err(Status::Absent);
    }
    match kind_in(row.table, column) {
        Some(CellKind::Blobs) => Ok(view.blob(row, column)),
        _ => Err(Status::Unlike),
    }
}

/// The sixteen bytes of a GUID.
#[tactic(auto, unfolding(crate::specs::Cells::asked_guid))]
pub fn guid<V: ModuleView>(view: &V, row: Token, column: u8) -> Result<[u8; 16], Status>
    ensures { result ≡ asked_guid (V.meaning view.now) row column }
{
    if !is_row(view, row) {
        return Err(Status::Absent);
    }
    match kind_in(row.table, column) {
        Some(CellKind::Guids) => Ok(view.guid(row, column)),
        _ => Err(Status::Unlike),
    }
}

/// The token in a column of an index.
#[tactic(auto, unfolding(crate::specs::Cells::asked_token))]
pub fn token<V: ModuleView>(view: &V, row: Token, column: u8) -> Result<Token, Status>
    ensures { result ≡ asked_token (V.meaning view.now) row column }
{
    if !is_row(view, row) {
        return Err(Status::Absent);
    }
    match kind_in(row.table, column) {
        Some(CellKind::References) => Ok(view.refer(row, column)),
        _ => Err(Status::Unlike),
    }
}
