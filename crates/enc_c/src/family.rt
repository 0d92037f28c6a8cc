//! The owner and the children of a row, over any view of a module.
ghost use Rattle.std.specs.Prelude.{◌≡◌};
ghost use Rattle.enc_c.specs.Family.{asked_owner, asked_kids, OrMemory, items_listed};

use crate::status::Status;
use enc_base::Token;
use enc_plain::{ModuleView, is_row};
use enc_schema::{is_child_table, owner_table};
use std::alloc::Global;

/// The owner of a row of a child table.
#[tactic(auto, unfolding(crate::specs::Family::asked_owner))]
pub fn owner<V: ModuleView>(view: &V, row: Token) -> Result<Token, Status>
    ensures { result ≡ asked_owner (V.meaning view.now) row }
{
    if !is_row(view, row) {
        return Err(Status::Absent);
    }
    if !is_child_table(row.table) {
        return Err(Status::Unlike);
    }
    Ok(view.owner(row))
}

/// The rows of a row's children in a child table.
#[tactic(auto, unfolding(crate::specs::Family::asked_kids))]
pub fn kids<V: ModuleView>(
    alloc: Global,
    view: &V,
    row: Token,
    table: u8,
) -> Result<Vec<u32>, Status>
    ensures { OrMemory (items_listed result) (asked_kids (V.meaning view.now) row table) }
{
    if !is_row(view, row) {
        return Err(Status::Absent);
    }
    if !is_child_table(table) || row.table != owner_table(table) {
        return Err(Status::Unlike);
    }
    match view.kid_rows(alloc, row, table) {
        Ok(rows) => Ok(rows),
        Err(_) => Err(Status::Memory),
    }
}
