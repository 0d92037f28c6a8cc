//! The stages in which the rows of a module get their order.
ghost use Rattle.std.specs.Prelude.{◌≡◌, ◌<◌, ◌^◌, ◌&&◌, not, true, length, IfOk};
ghost use Rattle.enc_row_order.specs.Keyed.{entries_numbered};
ghost use Rattle.enc_row_order.specs.Orders.{is_keyed, is_last, keyed_rows};
ghost use Rattle.enc_row_order.specs.Stages.{
  is_ordered,
  ordered_rows,
  rows_by_owner as owned_rows,
  stage_of,
  types_by_depth as sorted_types,
  AreOrdersOf,
};
ghost use Rattle.enc_plain.specs.Sound.{IsSound};
ghost use Rattle.enc_schema.specs.Children.{is_child_table};
ghost use Rattle.enc_schema.specs.Schema.{list_at};

use crate::depth::depths;
use crate::key_columns::key_columns;
use crate::keys::keyed_entries;
use crate::kids::kids_listed;
use crate::order::Order;
use crate::rows::Rows;
use crate::sorting::{KeyedRow, sorted_rows};
use enc_base::tables::{
    CUSTOM_ATTRIBUTE, EVENT, FIELD, GENERIC_PARAM_CONSTRAINT, METHOD_DEF, PARAM, PROPERTY,
    TABLE_COUNT, TYPE_DEF,
};
use enc_plain::ModuleView;
use enc_schema::owner_table;
use std::alloc::{AllocError, Global};

/// What rows are ordered by, one after the other: a stage stands on the order that those before it
/// gave.
#[derive(Clone, Copy, Debug, PartialEq, Eq)]
pub(crate) enum Stage {
    /// Types by how deep they are nested.
    Depth,
    /// Fields, methods, events and properties by their owners.
    Owner,
    /// Parameters by their methods.
    Method,
    /// Tables that go by keys.
    Key,
    /// Constraints by their parameters.
    Param,
    /// Attributes by what they stand at.
    Attribute,
}

/// The types by depth.
fn types_by_depth<V: ModuleView>(alloc: Global, view: &V) -> Result<Vec<u32>, AllocError>
    requires sound { IsSound (V.meaning view.now) }
    ensures { IfOk result (λ v. v.items ≡ sorted_types (V.meaning view.now)) }
{
    let depths = depths(alloc, view)?;
    let entries = depth_entries(alloc, &depths)?;
    let rows = sorted_rows(alloc, entries)?;
    Ok(rows)
}

/// The types, from row 1, with their depths.
fn depth_entries(alloc: Global, depths: &[u32]) -> Result<Vec<KeyedRow>, AllocError>
    requires few { length depths.now < 2 ^ 24 }
    ensures { IfOk result (λ v. v.items ≡ entries_numbered depths.now) }
{
    let mut entries = Vec::with_capacity(alloc, depths.len())?;
    for i in 0..depths.len() {
        let depth = depths[i];
        entries.push(KeyedRow {
            key: u64::from(depth),
            row: i as u32 + 1,
        })?;
    }
    Ok(entries)
}

/// The rows of a table by its keys.
fn rows_by_key<V: ModuleView>(
    alloc: Global,
    view: &V,
    before: &Order,
    table: u8,
) -> Result<Vec<u32>, AllocError>
    requires sound { IsSound (V.meaning view.now) }
    ensures { IfOk result (λ v. v.items ≡ keyed_rows (list_at before.now) (V.meaning view.now) table) }
{
    let entries = keyed_entries(alloc, view, before, table)?;
    let rows = sorted_rows(alloc, entries)?;
    Ok(rows)
}

/// The rows of a child table by their owners.
fn rows_by_owner<V: ModuleView>(
    alloc: Global,
    view: &V,
    before: &Order,
    table: u8,
) -> Result<Vec<u32>, AllocError>
    requires orders { AreOrdersOf (V.meaning view.now) before.now }
    requires table { is_child_table table ≡ true }
    ensures { IfOk result (λ v. v.items ≡ owned_rows (V.meaning view.now) (list_at before.now) table) }
{
    let rows = kids_listed(alloc, view, before.rows(owner_table(table)), table)?;
    Ok(rows)
}

/// Whether a table goes by keys, and names no rows of others that do.
fn goes_by_key(table: u8) -> bool
    ensures { result ≡ (is_keyed table && not (is_last table)) }
{
    if table == GENERIC_PARAM_CONSTRAINT || table == CUSTOM_ATTRIBUTE {
        return false;
    }
    !key_columns(table).is_empty()
}

/// Whether a stage orders a table.
fn orders(stage: Stage, table: u8) -> bool
    ensures { result ≡ is_ordered stage table }
{
    match stage {
        Stage::Depth => table == TYPE_DEF,
        Stage::Owner => {
            table == FIELD || table == METHOD_DEF || table == EVENT || table == PROPERTY
        }
        Stage::Method => table == PARAM,
        Stage::Key => goes_by_key(table),
        Stage::Param => table == GENERIC_PARAM_CONSTRAINT,
        Stage::Attribute => table == CUSTOM_ATTRIBUTE,
    }
}

/// The rows of a table that a stage orders.
fn ordered<V: ModuleView>(
    alloc: Global,
    view: &V,
    before: &Order,
    stage: Stage,
    table: u8,
) -> Result<Vec<u32>, AllocError>
    requires sound { IsSound (V.meaning view.now) }
    requires orders { AreOrdersOf (V.meaning view.now) before.now }
    requires on { is_ordered stage table ≡ true }
    ensures { IfOk result (λ v. v.items ≡ ordered_rows stage (V.meaning view.now) (list_at before.now) table) }
{
    match stage {
        Stage::Depth => types_by_depth(alloc, view),
        Stage::Owner => rows_by_owner(alloc, view, before, table),
        Stage::Method => rows_by_owner(alloc, view, before, table),
        Stage::Key => rows_by_key(alloc, view, before, table),
        Stage::Param => rows_by_key(alloc, view, before, table),
        Stage::Attribute => rows_by_key(alloc, view, before, table),
    }
}

/// The rows of a table behind a stage.
fn table_rows<V: ModuleView>(
    alloc: Global,
    view: &V,
    before: &Order,
    stage: Stage,
    table: u8,
) -> Result<Rows, AllocError>
    requires sound { IsSound (V.meaning view.now) }
    requires orders { AreOrdersOf (V.meaning view.now) before.now }
    ensures { IfOk result (λ r. r ≡ stage_of stage (V.meaning view.now) (list_at before.now) table) }
{
    if !orders(stage, table) {
        let same = before.copied(alloc, table)?;
        return Ok(same);
    }
    let list = ordered(alloc, view, before, stage, table)?;
    let rows = Rows::of(alloc, list)?;
    Ok(rows)
}

/// The order behind a stage.
pub(crate) fn staged<V: ModuleView>(
    alloc: Global,
    view: &V,
    before: &Order,
    stage: Stage,
) -> Result<Order, AllocError>
    requires sound { IsSound (V.meaning view.now) }
    requires orders { AreOrdersOf (V.meaning view.now) before.now }
    ensures staged { IfOk result (λ o. list_at o ≡ stage_of stage (V.meaning view.now) (list_at before.now)) }
    ensures orders { IfOk result (λ o. AreOrdersOf (V.meaning view.now) o) }
{
    let mut tables = Vec::new(alloc);
    for table in 0..TABLE_COUNT {
        tables.push(table_rows(alloc, view, before, stage, table)?)?;
    }
    Ok(Order::with(tables))
}
