//! The calls that change a session.
ghost use Rattle.std.specs.Prelude.{◌≡◌, IfOk, Some};
ghost use Rattle.enc_base.specs.Token.{token_of};
ghost use Rattle.enc_c.specs.Asked.{of_open};
ghost use Rattle.enc_c.specs.SessionSeen.{TellsApplied};
ghost use Rattle.enc_c.specs.SessionCalls.{AppliesIn, ChangesOrRunsOut, StepsOf, asked_remap, asked_spawn, delta_given};
ghost use Rattle.enc_c.specs.SessionNumbers.{pairs_of};

use crate::open::files_of;
use crate::refusal::{RefusalNumbers, numbers_of};
use crate::session_handle::{SessionHandle, put_session, take_session};
use crate::session_numbers::{
    PairNumbers, RemappedNumbers, SteppedNumbers, remapped_numbers, stepped_numbers,
};
use crate::status::Status;
use enc_base::Token;
use enc_plain::PairList;
use enc_session::{Applied, Recording, Stepped};
use enc_vm::SpawnEnd;
use std::alloc::{AllocError, Global};

/// A new task, and its number.
#[tactic(auto, unfolding(crate::specs::SessionCalls::asked_spawn))]
fn spawn(recording: &mut Recording, method: Token, task: &mut u32) -> u32
    ensures { ChangesOrRunsOut result (Some recording.old) (Some recording.new) task.old task.new
        (asked_spawn method recording.old) }
{
    if !recording.has_room(3) {
        return Status::Short.number();
    }
    match recording.spawn(method) {
        Ok(SpawnEnd::Task(number)) => {
            *task = number;
            Status::Done.number()
        }
        Ok(SpawnEnd::Limit) => Status::Limit.number(),
        Ok(SpawnEnd::Method) => Status::Unlike.number(),
        Err(AllocError) => Status::Memory.number(),
    }
}

/// Begins a task with a method, and tells its number.
#[unsafe(no_mangle)]
pub extern "C" fn enc_spawn(
    alloc: Global,
    session: &mut SessionHandle,
    method: u32,
    task: &mut u32,
) -> u32
    ensures { ChangesOrRunsOut result session.old.held session.new.held task.old task.new
        (of_open session.old.held (asked_spawn (token_of method))) }
{
    let Some(held) = take_session(session, alloc) else {
        return Status::Closed.number();
    };
    let mut held = held;
    let status = spawn(&mut held, Token::of(method), task);
    put_session(session, alloc, held);
    status
}

/// At most so many steps of a task.
fn steps(recording: &mut Recording, task: u32, count: u32, stepped: &mut SteppedNumbers) -> u32
    ensures { StepsOf result (Some recording.old) (Some recording.new) stepped.old stepped.new task count }
{
    let Some(_) = recording.status(task) else {
        return Status::Absent.number();
    };
    if !recording.may_hold_steps(count) {
        return Status::Limit.number();
    }
    if !recording.has_room_for_steps(count) {
        return Status::Short.number();
    }
    let Stepped { ran, end } = recording.steps(task, count);
    *stepped = stepped_numbers(ran, recording.status(task));
    match end {
        Ok(_) => Status::Done.number(),
        Err(AllocError) => Status::Memory.number(),
    }
}

/// Makes at most so many steps of a task, and tells how many ran and how it stands with the task.
#[unsafe(no_mangle)]
pub extern "C" fn enc_step(
    alloc: Global,
    session: &mut SessionHandle,
    task: u32,
    count: u32,
    stepped: &mut SteppedNumbers,
) -> u32
    ensures { StepsOf result session.old.held session.new.held stepped.old stepped.new task count }
{
    let Some(held) = take_session(session, alloc) else {
        return Status::Closed.number();
    };
    let mut held = held;
    let status = steps(&mut held, task, count, stepped);
    put_session(session, alloc, held);
    status
}

/// Tells what became of the files of a delta.
fn tell_applied(applied: Applied, refusal: &mut RefusalNumbers) -> u32
    ensures { TellsApplied result refusal.old refusal.new applied }
{
    match applied {
        Applied::Generation(_) => Status::Done.number(),
        Applied::Refused(found) => {
            *refusal = numbers_of(found);
            Status::Refused.number()
        }
    }
}

/// Applies the files of a delta to a session.
fn apply(
    alloc: Global,
    recording: &mut Recording,
    meta: &[u8],
    il: &[u8],
    pdb: &[u8],
    refusal: &mut RefusalNumbers,
) -> u32
    ensures { AppliesIn result (Some recording.old) (Some recording.new) refusal.old refusal.new
        (delta_given meta.now il.now pdb.now) }
{
    if !recording.has_room(1) {
        return Status::Short.number();
    }
    let Ok(files) = files_of(alloc, meta, il, pdb) else {
        return Status::Memory.number();
    };
    match recording.apply(files) {
        Ok(applied) => tell_applied(applied, refusal),
        Err(AllocError) => Status::Memory.number(),
    }
}

/// Judges a delta after those before it, with its PDB, where that has bytes, and applies it.
#[unsafe(no_mangle)]
pub extern "C" fn enc_session_apply(
    alloc: Global,
    session: &mut SessionHandle,
    meta: &[u8],
    il: &[u8],
    pdb: &[u8],
    refusal: &mut RefusalNumbers,
) -> u32
    ensures { AppliesIn result session.old.held session.new.held refusal.old refusal.new
        (delta_given meta.now il.now pdb.now) }
{
    let Some(held) = take_session(session, alloc) else {
        return Status::Closed.number();
    };
    let mut held = held;
    let status = apply(alloc, &mut held, meta, il, pdb, refusal);
    put_session(session, alloc, held);
    status
}

/// The pairs of a map.
pub(crate) fn list_pairs(alloc: Global, map: &[PairNumbers]) -> Result<PairList, AllocError>
    ensures { IfOk result (λ l. l ≡ pairs_of map.now) }
{
    let mut pairs = PairList::begin(alloc);
    for pair in map {
        pairs.push((pair.from, pair.to))?;
    }
    Ok(pairs)
}

/// Has the innermost frame of a task go on in the newest body of its method.
#[tactic(auto, unfolding(crate::specs::SessionCalls::asked_remap))]
fn remap(
    alloc: Global,
    recording: &mut Recording,
    task: u32,
    map: &[PairNumbers],
    remapped: &mut RemappedNumbers,
) -> u32
    ensures { ChangesOrRunsOut result (Some recording.old) (Some recording.new) remapped.old remapped.new
        (asked_remap task (pairs_of map.now) recording.old) }
{
    let Ok(pairs) = list_pairs(alloc, map) else {
        return Status::Memory.number();
    };
    match recording.remap(task, &pairs) {
        Ok(made) => {
            *remapped = remapped_numbers(made);
            Status::Done.number()
        }
        Err(AllocError) => Status::Memory.number(),
    }
}

/// Has the innermost frame of a task go on in the newest body of its method, at the offset to which a map leads; or
/// tells the first of Q1 to Q7 that is broken.
#[unsafe(no_mangle)]
pub extern "C" fn enc_remap(
    alloc: Global,
    session: &mut SessionHandle,
    task: u32,
    map: &[PairNumbers],
    remapped: &mut RemappedNumbers,
) -> u32
    ensures { ChangesOrRunsOut result session.old.held session.new.held remapped.old remapped.new
        (of_open session.old.held (asked_remap task (pairs_of map.now))) }
{
    let Some(held) = take_session(session, alloc) else {
        return Status::Closed.number();
    };
    let mut held = held;
    let status = remap(alloc, &mut held, task, map, remapped);
    put_session(session, alloc, held);
    status
}
