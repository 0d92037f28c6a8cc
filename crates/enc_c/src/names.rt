//! Types and members by their names, and user texts by their offsets, over any view of a module.
ghost use Rattle.std.specs.Prelude.{◌≡◌};
ghost use Rattle.enc_c.specs.Asked.{told_by_number};
ghost use Rattle.enc_c.specs.Cells.{lent};
ghost use Rattle.enc_c.specs.Family.{OrMemory, items_listed};
ghost use Rattle.enc_c.specs.Names.{asked_members, asked_type, asked_user, may_have};

use crate::status::Status;
use enc_base::Token;
use enc_base::tables::{EVENT, PROPERTY, TYPE_DEF};
use enc_lookup::{members_named, type_named};
use enc_plain::{ModuleView, is_row};
use enc_schema::{is_child_table, owner_table};
use std::alloc::Global;

/// The number of the type with these names, nested in another or in none.
#[tactic(auto, unfolding(crate::specs::Names::asked_type))]
pub fn type_number<V: ModuleView>(
    view: &V,
    enclosing: Token,
    namespace: &[u8],
    name: &[u8],
) -> Result<u32, Status>
    ensures { result ≡ told_by_number (asked_type (V.meaning view.now) enclosing namespace.now name.now) }
{
    match type_named(view, enclosing, namespace, name) {
        Some(token) => Ok(token.number()),
        None => Err(Status::Absent),
    }
}

/// Whether rows of a table may have children in a child table, a type also by way of a map.
fn may_have(owners: u8, table: u8) -> bool
    ensures { result ≡ may_have owners table }
{
    is_child_table(table)
        && (owners == owner_table(table)
            || owners == TYPE_DEF && (table == EVENT || table == PROPERTY))
}

/// The rows of a child table with a name that belong to a row.
#[tactic(auto, unfolding(crate::specs::Names::asked_members))]
pub fn members<V: ModuleView>(
    alloc: Global,
    view: &V,
    owner: Token,
    table: u8,
    name: &[u8],
) -> Result<Vec<u32>, Status>
    ensures { OrMemory (items_listed result) (asked_members (V.meaning view.now) owner table name.now) }
{
    if !is_row(view, owner) {
        return Err(Status::Absent);
    }
    if !may_have(owner.table, table) {
        return Err(Status::Unlike);
    }
    match members_named(alloc, view, owner, table, name) {
        Ok(rows) => Ok(rows),
        Err(_) => Err(Status::Memory),
    }
}

/// The bytes of a user text's units.
#[tactic(auto, unfolding(crate::specs::Names::asked_user))]
pub fn user_text<V: ModuleView>(view: &V, offset: u32) -> Result<&[u8], Status>
    ensures { lent result ≡ asked_user (V.users view.now) offset }
{
    match view.user_text(offset) {
        Some(bytes) => Ok(bytes),
        None => Err(Status::Absent),
    }
}
