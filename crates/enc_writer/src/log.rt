//! EncLog of a delta (System.Reflection.Metadata's EditAndContinueLogEntry).
ghost use Rattle.std.specs.Prelude.{◌≡◌, ◌+◌, ◌-◌, ◌^◌, ◌<◌, [], ◌∷◌, ◌++◌, length, map, true, Some, slice_get, OnOk};
ghost use Rattle.std.specs.List.{list_all};
ghost use Rattle.enc_rows.specs.Written.{rows_at, count_at};
ghost use Rattle.enc_base.specs.Tables.{enc_log};
ghost use Rattle.enc_rules.specs.Edited.{rows_edited};
ghost use Rattle.enc_list_delta.specs.Delta.{add_code, adds_reference, entries_for, is_reference_table, log_written};
ghost use Rattle.enc_list_delta.specs.Holds.{MayFollow, entry_numbers};
ghost use Rattle.enc_writer.specs.Writing.{OthersStay};
ghost use Rattle.enc_writer.specs.LogWriting.{entries_at, entries_logged, has_number, is_asked, owner_entries};

use crate::edit::{edit_at, row_at};
use enc_base::Token;
use enc_base::tables::{
    ASSEMBLY_REF, ENC_LOG, FIELD, MEMBER_REF, METHOD_DEF, METHOD_SPEC, MODULE_REF, PARAM, PROPERTY,
    STAND_ALONE_SIG, TYPE_REF, TYPE_SPEC,
};
use enc_delta::{LogEntry, operations};
use enc_edit_list::Edit;
use enc_plain::ChainView;
use enc_rows::TableBuilder;
use enc_rules::Context;
use enc_schema::is_child_table;
use std::alloc::AllocError;

/// The code of an entry that gives its token a child of a table.
fn add_code(child: u8) -> u32
    ensures { result ≡ add_code child }
{
    match child {
        METHOD_DEF => operations::ADD_METHOD,
        FIELD => operations::ADD_FIELD,
        PARAM => operations::ADD_PARAMETER,
        PROPERTY => operations::ADD_PROPERTY,
        _ => operations::ADD_EVENT,
    }
}

/// Whether the rows of a table refer to something else (ECMA-335 II.22).
fn is_reference_table(table: u8) -> bool
    ensures { result ≡ is_reference_table table }
{
    match table {
        ASSEMBLY_REF
        | MEMBER_REF
        | METHOD_SPEC
        | MODULE_REF
        | STAND_ALONE_SIG
        | TYPE_REF
        | TYPE_SPEC => true,
        _ => false,
    }
}

/// Whether an edit adds such a row.
fn adds_reference(edit: &Edit) -> bool
    ensures { result ≡ adds_reference edit.now }
{
    match edit {
        Edit::Add { table, .. } => is_reference_table(*table),
        Edit::Body { .. } => false,
    }
}

/// Whether an edit is one of those that add references, or one of all others.
fn is_asked(references: bool, edit: &Edit) -> bool
    ensures { result ≡ is_asked references edit.now }
{
    if references {
        return adds_reference(edit);
    }
    !adds_reference(edit)
}

/// Adds an entry.
#[tactic(auto, using(crate::proofs::LogSays::log_columns, crate::proofs::LogSays::log_width))]
fn push_entry(entry: LogEntry, tables: &mut TableBuilder) -> Result<(), AllocError>
    requires number { entry.token.row < 2 ^ 24 }
    requires few { count_at tables.old enc_log < 2 ^ 24 - 1 }
    ensures pushed { OnOk result (rows_at tables.new enc_log ≡ rows_at tables.old enc_log ++ entry_numbers entry ∷ []) }
    ensures others { OnOk result (OthersStay enc_log tables.old tables.new) }
{
    tables.push(ENC_LOG, &[entry.token.number(), entry.operation])
}

/// Adds the entry that gives the row of an edit to its owner, where it has one.
fn push_owner(edit: &Edit, row: Token, tables: &mut TableBuilder) -> Result<(), AllocError>
    requires numbers { list_all has_number (owner_entries edit.now row) ≡ true }
    requires few { count_at tables.old enc_log + length (owner_entries edit.now row) < 2 ^ 24 }
    ensures pushed { OnOk result (rows_at tables.new enc_log ≡ rows_at tables.old enc_log ++ map entry_numbers
        (owner_entries edit.now row)) }
    ensures others { OnOk result (OthersStay enc_log tables.old tables.new) }
{
    let Edit::Add { table, owner, .. } = edit else {
        return Ok(());
    };
    if !is_child_table(*table) {
        return Ok(());
    }
    let operation = add_code(row.table);
    push_entry(
        LogEntry {
            token: *owner,
            operation,
        },
        tables,
    )?;
    Ok(())
}

/// Adds the entries of an edit: one that gives its row to the owner, where it has one, and one for the row.
#[tactic(auto, unfolding(enc_list_delta::specs::Delta::entries_for))]
fn push_entries(edit: &Edit, row: Token, tables: &mut TableBuilder) -> Result<(), AllocError>
    requires numbers { list_all has_number (entries_for edit.now row) ≡ true }
    requires few { count_at tables.old enc_log + length (entries_for edit.now row) < 2 ^ 24 }
    ensures pushed { OnOk result (rows_at tables.new enc_log ≡ rows_at tables.old enc_log ++ map entry_numbers
        (entries_for edit.now row)) }
    ensures others { OnOk result (OthersStay enc_log tables.old tables.new) }
{
    push_owner(edit, row, tables)?;
    push_entry(
        LogEntry {
            token: row,
            operation: 0,
        },
        tables,
    )?;
    Ok(())
}

/// Adds the entries of the edit at a place, where it is one of those that are asked for.
fn push_edit<C: ChainView>(
    context: &Context<'_, C>,
    references: bool,
    k: usize,
    tables: &mut TableBuilder,
) -> Result<(), AllocError>
    requires may { MayFollow context.now.chain context.now.list }
    requires there { k < length context.now.list.edits }
    requires few { count_at tables.old enc_log + length (entries_at references context.now.chain context.now.list k)
        < 2 ^ 24 }
    ensures pushed { OnOk result (rows_at tables.new enc_log ≡ rows_at tables.old enc_log ++ map entry_numbers
        (entries_at references context.now.chain context.now.list k)) }
    ensures others { OnOk result (OthersStay enc_log tables.old tables.new) }
{
    let edit = edit_at(context, k);
    let row = row_at(context, k);
    if !is_asked(references, edit) {
        return Ok(());
    }
    push_entries(edit, row, tables)?;
    Ok(())
}

/// Adds the entries of all edits that add references, or of all others, in their order.
fn push_edits<C: ChainView>(
    context: &Context<'_, C>,
    references: bool,
    tables: &mut TableBuilder,
) -> Result<(), AllocError>
    requires may { MayFollow context.now.chain context.now.list }
    requires few { count_at tables.old enc_log + length (entries_logged references context.now.chain context.now.list)
        < 2 ^ 24 - 1 }
    ensures pushed { OnOk result (rows_at tables.new enc_log ≡ rows_at tables.old enc_log ++ map entry_numbers
        (entries_logged references context.now.chain context.now.list)) }
    ensures others { OnOk result (OthersStay enc_log tables.old tables.new) }
{
    for k in 0..context.edits().len() {
        push_edit(context, references, k, tables)?;
    }
    Ok(())
}

/// Adds EncLog: the entries of all references, and behind them those of all else, each in the order of the
/// edits. An edit whose row has an owner has two entries: the owner with the code of its kind of child, and
/// the row itself.
pub(crate) fn push_log<C: ChainView>(
    context: &Context<'_, C>,
    tables: &mut TableBuilder,
) -> Result<(), AllocError>
    requires may { MayFollow context.now.chain context.now.list }
    requires none { rows_at tables.old enc_log ≡ [] }
    ensures log { OnOk result (rows_at tables.new enc_log
        ≡ map entry_numbers (log_written context.now.chain.plain context.now.list.edits)) }
    ensures others { OnOk result (OthersStay enc_log tables.old tables.new) }
{
    push_edits(context, true, tables)?;
    push_edits(context, false, tables)?;
    Ok(())
}
