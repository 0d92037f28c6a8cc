//! The lists of a case, each of twenty turns.
ghost use Rattle.std.specs.Prelude.{◌≡◌, ◌<◌, ◌≤◌, ◌^◌, ◌++◌, ◌∷◌, [], length, replicate, IfOk, OnOk};
ghost use Rattle.std.specs.List.{list_any};
ghost use Rattle.enc_generator.specs.Generated.{is_of_row, edit_of_turn, edits_of_turns, list_of_turns, methods_added, lists_from, generated_lists};

use crate::base::METHODS;
use crate::draw::{Act, AllTurns, Turn, turns_from};
use crate::edits::{method, name_added, replacing};
use enc_edit_list::{Documents, EditList, Edits, ListOf};
use std::alloc::{AllocError, Global};

/// Edit lists, in order.
pub type EditLists = ListOf<EditList>;

/// How many turns a list has.
const TURNS: u32 = 20;

/// One of these turns is about the method of a row.
fn is_repeated(before: &[Turn], row: u32) -> bool
    ensures { result ≡ list_any (is_of_row row) before.now }
{
    let mut rest = before;
    while let [turn, tail @ ..] = rest {
        if turn.is_of_row(row) {
            return true;
        }
        rest = tail;
    }
    false
}

/// Puts the edit of a turn behind others; none where a turn before it is about its method.
fn push_edit(
    alloc: Global,
    list: u32,
    before: &[Turn],
    turn: &Turn,
    edits: &mut Edits,
) -> Result<(), AllocError>
    requires { length before.now < 2 ^ 31 }
    ensures { OnOk result (edits.new ≡ edits.old ++ edit_of_turn list before.now turn.now) }
{
    match turn.act() {
        Act::Adds(number) => {
            let name = name_added(alloc, list, before.len() as u32 + 1)?;
            edits.push(method(alloc, name, number)?)
        }
        Act::Replaces { row, number } => {
            if is_repeated(before, row) {
                return Ok(());
            }
            edits.push(replacing(alloc, row, number)?)
        }
    }
}

/// The edits of turns.
#[tactic(auto, using(crate::proofs::Turning::edit_steps))]
fn edits_of(alloc: Global, list: u32, turns: &[Turn]) -> Result<Edits, AllocError>
    requires { length turns.now < 2 ^ 31 }
    ensures { IfOk result (λ e. e ≡ edits_of_turns list [] turns.now) }
{
    let mut edits = Edits::begin(alloc);
    for k in 0..turns.len() {
        push_edit(alloc, list, &turns[..k], &turns[k], &mut edits)?;
    }
    Ok(edits)
}

/// How many methods turns add.
fn methods_added(turns: &[Turn]) -> u32
    requires { length turns.now < 2 ^ 31 }
    ensures added { result ≡ methods_added turns.now }
    ensures few { result ≤ length turns.now }
{
    let mut added = 0;
    let mut rest = turns;
    while let [turn, tail @ ..] = rest {
        if turn.is_adding() {
            added += 1;
        }
        rest = tail;
    }
    added
}

/// The EncId of the list with a number.
fn enc_id(list: u32) -> [u8; 16]
    requires { list < 256 }
    ensures { result ≡ list ∷ replicate 15 1 }
{
    let mut id = [1; 16];
    id[0] = list as u8;
    id
}

/// The list with a number.
fn list_of_turns(alloc: Global, list: u32, turns: &[Turn]) -> Result<EditList, AllocError>
    requires few { list < 256 }
    requires short { length turns.now < 2 ^ 31 }
    ensures { IfOk result (λ l. l ≡ list_of_turns list turns.now) }
{
    let edits = edits_of(alloc, list, turns)?;
    Ok(EditList {
        enc_id: enc_id(list),
        edits,
        documents: Documents::begin(alloc),
    })
}

/// So many lists behind a state.
#[tactic(auto, using(crate::proofs::Turning::list_steps))]
pub fn make_lists(alloc: Global, start: u64, count: u32) -> Result<EditLists, AllocError>
    requires few { count ≤ 64 }
    ensures { IfOk result (λ l. l ≡ generated_lists start count) }
{
    let mut lists = EditLists::begin(alloc);
    let mut methods = METHODS;
    let mut state = start;
    for list in 0..count {
        let AllTurns {
            turns,
            state: behind,
        } = turns_from(alloc, methods, TURNS, state)?;
        lists.push(list_of_turns(alloc, list + 1, turns.as_slice())?)?;
        methods += methods_added(turns.as_slice());
        state = behind;
    }
    Ok(lists)
}
