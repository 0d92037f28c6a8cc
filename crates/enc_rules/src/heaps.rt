//! Whether the heaps have room for what the edits bring.
ghost use Rattle.std.specs.Prelude.{◌≡◌, ◌<◌, ◌^◌, false, None, flat_map, length, IfOk, IfSome, IsTrue};
ghost use Rattle.enc_edit_list.specs.Form.{edit_fits, list_fits};
ghost use Rattle.enc_meta.specs.Built.{AreWithinLimits, unit_bytes, with_text, with_user, with_blob};
ghost use Rattle.enc_plain.specs.Sound.{IsSound};
ghost use Rattle.enc_rules.specs.Filled.{Fills, has_no_zero, have_no_zero};
ghost use Rattle.enc_rules.specs.First.{first_edit, first_such};
ghost use Rattle.enc_rules.specs.Known.{listed_rows};
ghost use Rattle.enc_rules.specs.Rules.{heaps_with, heap_passes, heaps_are_full, heaps_after_edit, with_texts, with_users, with_blobs, texts_in_cell, blobs_in_cell, users_in_argument, texts_of_edit, users_of_edit, blobs_of_edit};
ghost use Rattle.enc_edit_list.specs.declared.body.InstrValue.{InstrValue as TheInstr};

use crate::context::Context;
use crate::signatures::body_given;
use enc_base::tables::METHOD_DEF;
use enc_edit_list::{ArgValue, Cell, Edit, InstrValue};
use enc_meta::{BuildFault, HeapBuilder};
use enc_plain::{CellView, ChainView};
use enc_schema::columns::{METHOD_DEF_NAME, METHOD_DEF_SIGNATURE};
use std::alloc::{AllocError, Global};

/// Adds a text.
fn add_text(heaps: &mut HeapBuilder, text: &[u8]) -> Result<(), BuildFault>
    requires { IsTrue (has_no_zero text.now) }
    ensures { Fills result heaps.new (with_text heaps.old text.now) }
{
    match heaps.add_text(text) {
        Ok(_) => Ok(()),
        Err(fault) => Err(fault),
    }
}

/// Adds a blob.
fn add_blob(heaps: &mut HeapBuilder, blob: &[u8]) -> Result<(), BuildFault>
    ensures { Fills result heaps.new (with_blob heaps.old blob.now) }
{
    match heaps.add_blob(blob) {
        Ok(_) => Ok(()),
        Err(fault) => Err(fault),
    }
}

/// Adds a user text.
fn add_user(heaps: &mut HeapBuilder, units: &[u16]) -> Result<(), BuildFault>
    ensures { Fills result heaps.new (with_user heaps.old (unit_bytes units.now)) }
{
    match heaps.add_user(units) {
        Ok(_) => Ok(()),
        Err(fault) => Err(fault),
    }
}

/// Adds the text of a cell, where it is one.
#[tactic(auto, unfolding(crate::specs::Rules::with_texts))]
fn add_cell_text(heaps: &mut HeapBuilder, cell: &Cell) -> Result<(), BuildFault>
    requires { IsTrue (have_no_zero (texts_in_cell cell.now)) }
    ensures { Fills result heaps.new (with_texts heaps.old (texts_in_cell cell.now)) }
{
    match cell {
        Cell::Text(text) => add_text(heaps, text.as_slice()),
        _ => Ok(()),
    }
}

/// Adds the texts of cells.
fn add_cell_texts(heaps: &mut HeapBuilder, cells: &[Cell]) -> Result<(), BuildFault>
    requires { IsTrue (have_no_zero (flat_map texts_in_cell cells.now)) }
    ensures { Fills result heaps.new (with_texts heaps.old (flat_map texts_in_cell cells.now)) }
{
    let mut rest = cells;
    while let [cell, tail @ ..] = rest {
        match add_cell_text(heaps, cell) {
            Err(fault) => return Err(fault),
            Ok(()) => {}
        }
        rest = tail;
    }
    Ok(())
}

/// Adds the blob of a cell, where it is one.
#[tactic(auto, unfolding(crate::specs::Rules::with_blobs))]
fn add_cell_blob(heaps: &mut HeapBuilder, cell: &Cell) -> Result<(), BuildFault>
    ensures { Fills result heaps.new (with_blobs heaps.old (blobs_in_cell cell.now)) }
{
    match cell {
        Cell::Blob(blob) => add_blob(heaps, blob.as_slice()),
        _ => Ok(()),
    }
}

/// Adds the blobs of cells.
fn add_cell_blobs(heaps: &mut HeapBuilder, cells: &[Cell]) -> Result<(), BuildFault>
    ensures { Fills result heaps.new (with_blobs heaps.old (flat_map blobs_in_cell cells.now)) }
{
    let mut rest = cells;
    while let [cell, tail @ ..] = rest {
        match add_cell_blob(heaps, cell) {
            Err(fault) => return Err(fault),
            Ok(()) => {}
        }
        rest = tail;
    }
    Ok(())
}

/// Adds the user text of an instruction, where it has one.
#[tactic(auto, unfolding(crate::specs::Rules::with_users))]
fn add_argument(heaps: &mut HeapBuilder, instr: &InstrValue) -> Result<(), BuildFault>
    ensures { Fills result heaps.new (with_users heaps.old (users_in_argument instr.now.arg)) }
{
    match &instr.arg {
        ArgValue::User(units) => add_user(heaps, units.as_slice()),
        _ => Ok(()),
    }
}

/// Adds the user texts of instructions.
fn add_arguments(heaps: &mut HeapBuilder, code: &[InstrValue]) -> Result<(), BuildFault>
    ensures { Fills result heaps.new
        (with_users heaps.old (flat_map (λ (i : TheInstr). users_in_argument i.arg) code.now)) }
{
    let mut rest = code;
    while let [instr, tail @ ..] = rest {
        match add_argument(heaps, instr) {
            Err(fault) => return Err(fault),
            Ok(()) => {}
        }
        rest = tail;
    }
    Ok(())
}

/// Adds the texts that an edit brings.
#[tactic(auto, using(crate::proofs::WholeTexts::method_name), unfolding(crate::specs::Rules::with_texts))]
fn add_texts<C: ChainView>(
    context: &Context<'_, C>,
    heaps: &mut HeapBuilder,
    edit: &Edit,
) -> Result<(), BuildFault>
    requires sound { IsSound context.now.chain.plain }
    requires list { IsTrue (list_fits context.now.list) }
    requires form { IsTrue (edit_fits edit.now) }
    ensures { Fills result heaps.new (with_texts heaps.old (texts_of_edit (listed_rows context.now) edit.now)) }
{
    match edit {
        Edit::Add { cells, .. } => add_cell_texts(heaps, cells.as_slice()),
        Edit::Body { method, .. } => {
            if method.table != METHOD_DEF {
                return Ok(());
            }
            add_text(heaps, context.text(*method, METHOD_DEF_NAME))
        }
    }
}

/// Adds the user texts that an edit brings.
#[tactic(auto, unfolding(crate::specs::Rules::with_users))]
fn add_users(heaps: &mut HeapBuilder, edit: &Edit) -> Result<(), BuildFault>
    ensures { Fills result heaps.new (with_users heaps.old (users_of_edit edit.now)) }
{
    match body_given(edit) {
        Some(body) => add_arguments(heaps, body.code.as_slice()),
        None => Ok(()),
    }
}

/// Adds the blobs that an edit brings.
#[tactic(auto, using(crate::proofs::WholeTexts::method_signature), unfolding(crate::specs::Rules::with_blobs))]
fn add_blobs<C: ChainView>(
    context: &Context<'_, C>,
    heaps: &mut HeapBuilder,
    edit: &Edit,
) -> Result<(), BuildFault>
    ensures { Fills result heaps.new (with_blobs heaps.old (blobs_of_edit (listed_rows context.now) edit.now)) }
{
    match edit {
        Edit::Add { cells, .. } => add_cell_blobs(heaps, cells.as_slice()),
        Edit::Body { method, .. } => {
            if method.table != METHOD_DEF {
                return Ok(());
            }
            add_blob(heaps, context.blob(*method, METHOD_DEF_SIGNATURE))
        }
    }
}

/// Adds what an edit brings.
fn add_edit<C: ChainView>(
    context: &Context<'_, C>,
    heaps: &mut HeapBuilder,
    edit: &Edit,
) -> Result<(), BuildFault>
    requires sound { IsSound context.now.chain.plain }
    requires list { IsTrue (list_fits context.now.list) }
    requires form { IsTrue (edit_fits edit.now) }
    ensures filled { Fills result heaps.new (heaps_after_edit (listed_rows context.now) heaps.old edit.now) }
    ensures within { IfOk result (λ _. AreWithinLimits heaps.new) }
{
    match add_texts(context, heaps, edit) {
        Err(fault) => return Err(fault),
        Ok(()) => {}
    }
    match add_users(heaps, edit) {
        Err(fault) => return Err(fault),
        Ok(()) => {}
    }
    match add_blobs(context, heaps, edit) {
        Err(fault) => return Err(fault),
        Ok(()) => {}
    }
    heaps.laws();
    Ok(())
}

/// The first edit with which a heap passes its limit. It takes memory for what the edits bring.
#[tactic(auto, using(crate::proofs::EditAt::such_none))]
pub fn heap_passes<C: ChainView>(
    alloc: Global,
    context: &Context<'_, C>,
) -> Result<Option<u32>, AllocError>
    requires sound { IsSound context.now.chain.plain }
    requires room { heaps_are_full context.now.chain context.now.list ≡ false }
    ensures first { IfOk result (λ k. k ≡ first_such (heap_passes context.now.chain context.now.list)
        (length context.now.list.edits)) }
    ensures few { IfOk result (λ k. IfSome k (λ n. n < 2 ^ 24)) }
{
    let mut heaps = HeapBuilder::begin(alloc, context.old.view.lengths())?;
    let edits = context.edits();
    for k in 0..edits.len() {
        let edit = &edits[k];
        match add_edit(context, &mut heaps, edit) {
            Err(BuildFault::Memory) => return Err(AllocError),
            Err(BuildFault::TooLarge(_)) => return Ok(Some(k as u32)),
            Ok(()) => {}
        }
    }
    Ok(None)
}

/// The heaps behind the chain's with all that the edits bring, each value once. The list breaks no rule, so
/// they have room.
pub fn heaps_of<C: ChainView>(
    alloc: Global,
    context: &Context<'_, C>,
) -> Result<HeapBuilder, AllocError>
    requires sound { IsSound context.now.chain.plain }
    requires rules { first_edit context.now.chain context.now.list ≡ None }
    ensures { IfOk result (λ h. h ≡ heaps_with context.now.chain context.now.list.edits context.now.list.edits) }
{
    let mut heaps = HeapBuilder::begin(alloc, context.old.view.lengths())?;
    let edits = context.edits();
    for k in 0..edits.len() {
        let edit = &edits[k];
        match add_edit(context, &mut heaps, edit) {
            Err(BuildFault::Memory) => return Err(AllocError),
            Err(BuildFault::TooLarge(_)) => unreachable!(),
            Ok(()) => {}
        }
    }
    Ok(heaps)
}
