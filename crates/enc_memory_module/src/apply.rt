//! A plain module with edits made directly.
ghost use Rattle.std.specs.Prelude.{◌≡◌, ℕ, ◌+◌, ◌<◌, ◌^◌, true, false, length, slice_get, option_map, take, IfOk, OnOk, IsTrue};
ghost use Rattle.std.specs.List.{list_all};
ghost use Rattle.enc_edit_list.specs.Form.{list_fits};
ghost use Rattle.enc_plain.specs.Apply.{apply, attach_all};
ghost use Rattle.enc_plain.specs.Sound.{IsSound};
ghost use Rattle.enc_rewriter.specs.Values.{passes_limit};
ghost use Rattle.enc_rewriter.specs.declared.pass.Pass.TheVariants.{Users};
ghost use Rattle.enc_rules.specs.Edited.{edited, row_edited, attached_by};
ghost use Rattle.enc_rules.specs.Listed.{count_after};
ghost use Rattle.enc_schema.specs.Schema.{list_at};
ghost use Rattle.enc_base.specs.Tables.{method_def};
ghost use Rattle.enc_memory_module.specs.Applied.{alone, MayApply};
ghost use Rattle.enc_memory_module.specs.Encoded.{with_tables};
ghost use Rattle.enc_memory_module.specs.Following.{changes_from, attached_from};
ghost use Rattle.enc_memory_module.specs.Standing.{edit_assembles};

use crate::change::{attach, cells_edited, put};
use crate::encode::{Encoded, encode};
use crate::plain::{PlainModule, PlainRow, PlainTable};
use enc_base::Token;
use enc_base::tables::METHOD_DEF;
use enc_edit_list::{Added, Edit, EditList};
use enc_plain::ModuleView;
use enc_schema::is_child_table;
use std::alloc::{AllocError, Global};

/// The row that the edit at a place is about: the next of its table, or the method whose body it
/// replaces.
fn row_at(module: &PlainModule, added: &Added<'_>, k: usize) -> Token
    requires there { k < length added.now }
    requires few { (t : ℕ) → count_after (alone «module».now.plain) added.now t < 2 ^ 24 }
    ensures { option_map (row_edited «module».now.plain (take k added.now)) (slice_get added.now k) ≡ Some result }
{
    let edits = added.edits();
    let rank = added.rank_at(k);
    match &edits[k] {
        Edit::Add { table, .. } => Token {
            table: *table,
            row: module.count(*table) + rank as u32 + 1,
        },
        Edit::Body { method, .. } => *method,
    }
}

/// Puts the cells of the edit at a place into its row.
fn change(
    alloc: Global,
    module: &PlainModule,
    added: &Added<'_>,
    k: usize,
    tables: &mut Vec<PlainTable>,
) -> Result<(), AllocError>
    requires there { k < length added.now }
    requires few { (t : ℕ) → count_after (alone «module».now.plain) added.now t < 2 ^ 24 }
    requires stand { list_all edit_assembles added.now ≡ true }
    ensures { OnOk result (apply (with_tables tables.new.items) (changes_from «module».now.plain added.now (k + 1))
        ≡ apply (with_tables tables.old.items) (changes_from «module».now.plain added.now k)) }
{
    let row = row_at(module, added, k);
    let edits = added.edits();
    let edit = &edits[k];
    let cells = cells_edited(alloc, module, edit)?;
    put(alloc, tables, row, cells)
}

/// The tables with all changes made.
fn changed(
    alloc: Global,
    module: &PlainModule,
    added: &Added<'_>,
) -> Result<Vec<PlainTable>, AllocError>
    requires few { (t : ℕ) → count_after (alone «module».now.plain) added.now t < 2 ^ 24 }
    requires stand { list_all edit_assembles added.now ≡ true }
    ensures { IfOk result (λ t. with_tables t.items
        ≡ apply «module».now.plain (changes_from «module».now.plain added.now 0)) }
{
    let mut tables = module.copied(alloc)?;
    for k in 0..added.edits().len() {
        change(alloc, module, added, k, &mut tables)?;
    }
    Ok(tables)
}

/// Attaches the child that an edit gives to its owner, if it gives one.
fn attach_child(edit: &Edit, child: Token, tables: &mut Vec<PlainTable>) -> Result<(), AllocError>
    ensures { OnOk result (with_tables tables.new.items
        ≡ attach_all (with_tables tables.old.items) (attached_by edit.now child)) }
{
    let Edit::Add { table, owner, .. } = edit else {
        return Ok(());
    };
    if !is_child_table(*table) {
        return Ok(());
    }
    attach(tables, *owner, child)
}

/// Attaches all children to their owners.
fn attach_children(
    module: &PlainModule,
    added: &Added<'_>,
    tables: &mut Vec<PlainTable>,
) -> Result<(), AllocError>
    requires few { (t : ℕ) → count_after (alone «module».now.plain) added.now t < 2 ^ 24 }
    ensures { OnOk result (with_tables tables.new.items
        ≡ attach_all (with_tables tables.old.items) (attached_from «module».now.plain added.now 0)) }
{
    let edits = added.edits();
    for k in 0..edits.len() {
        let edit = &edits[k];
        attach_child(edit, row_at(module, added, k), tables)?;
    }
    Ok(())
}

/// The tables with all edits made.
#[tactic(auto, unfolding(enc_rules::specs::Edited::edited))]
fn edited_tables(
    alloc: Global,
    module: &PlainModule,
    list: &EditList,
) -> Result<Vec<PlainTable>, AllocError>
    requires few { (t : ℕ) → count_after (alone «module».now.plain) list.now.edits t < 2 ^ 24 }
    requires stand { list_all edit_assembles list.now.edits ≡ true }
    ensures { IfOk result (λ t. with_tables t.items ≡ edited «module».now.plain list.now.edits) }
{
    let added = Added::of(alloc, &list.edits)?;
    let mut tables = changed(alloc, module, &added)?;
    attach_children(module, &added, &mut tables)?;
    Ok(tables)
}

/// The rows of methods.
fn methods_in(tables: &[PlainTable]) -> &[PlainRow]
    ensures { result.now ≡ list_at tables.now method_def }
{
    match tables.get(METHOD_DEF as usize) {
        Some(table) => &table.rows,
        None => &[],
    }
}

/// The module with these tables, whose bodies are encoded anew.
fn finished(alloc: Global, tables: Vec<PlainTable>) -> Result<PlainModule, AllocError>
    requires sound { IsSound (with_tables tables.items) }
    requires texts { passes_limit Users (with_tables tables.items) ≡ false }
    ensures { IfOk result (λ m. m.plain ≡ with_tables tables.items) }
{
    let Encoded { users, codes } = encode(alloc, methods_in(&tables))?;
    Ok(PlainModule {
        tables,
        users,
        codes,
    })
}

/// The module with all edits of a list made directly: rows added and bodies replaced, and then the
/// children attached to their owners. The list breaks no rule but those on its EncId, on heaps and on
/// the number of deltas; its points and documents are no part of a module. The time is linear in the
/// module and the list. `AllocError` where there is no memory.
pub fn apply_edits(
    alloc: Global,
    module: &PlainModule,
    list: &EditList,
) -> Result<PlainModule, AllocError>
    requires form { IsTrue (list_fits list.now) }
    requires rules { MayApply «module».now.plain list.now }
    ensures { IfOk result (λ m. m.plain ≡ edited «module».now.plain list.now.edits) }
{
    module.sound();
    let tables = edited_tables(alloc, module, list)?;
    finished(alloc, tables)
}
