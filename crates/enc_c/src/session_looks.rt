//! The calls that look at a session.
ghost use Rattle.std.specs.Prelude.{◌≡◌, ◌++◌, IfOk, length, map};
ghost use Rattle.enc_vm.specs.Looks.{frames_in};
ghost use Rattle.enc_session.specs.States.{state_text};
ghost use Rattle.enc_c.specs.Asked.{of_open};
ghost use Rattle.enc_c.specs.Copied.{CopiesOrStays};
ghost use Rattle.enc_c.specs.Family.{OrMemory, items_listed};
ghost use Rattle.enc_c.specs.SessionCalls.{asked_frames, asked_state, asked_task, asked_values, facts_below, listed_if};
ghost use Rattle.enc_c.specs.SessionNumbers.{frame_numbers, value_numbers};
ghost use Rattle.enc_c.specs.Status.{TellsValue};

use crate::copy::copy_items;
use crate::session_handle::{SessionHandle, put_session, take_session};
use crate::session_numbers::{
    FrameNumbers, SteppedNumbers, ValueNumbers, frame_numbers, part_by, stepped_numbers,
    value_numbers,
};
use crate::status::{Status, tell};
use enc_objects::Value;
use enc_session::{FrameFacts, Recording};
use std::alloc::{AllocError, Global};

/// The text of the state of a session.
fn state(alloc: Global, recording: &Recording) -> Result<Vec<u8>, Status>
    ensures { OrMemory (items_listed result) (asked_state recording.now) }
{
    let mut text = Vec::new(alloc);
    match recording.state(&mut text) {
        Ok(()) => Ok(text),
        Err(AllocError) => Err(Status::Memory),
    }
}

/// Copies the state of a session, as a script prints it.
#[unsafe(no_mangle)]
pub extern "C" fn enc_state(
    alloc: Global,
    session: &mut SessionHandle,
    buffer: &mut [u8],
    size: &mut usize,
) -> u32
    ensures kept { session.new.held ≡ session.old.held }
    ensures answer { CopiesOrStays result buffer.old buffer.new size.old size.new
        (of_open session.old.held asked_state) }
{
    let Some(held) = take_session(session, alloc) else {
        return Status::Closed.number();
    };
    let status = copy_items(state(alloc, &held), buffer, size);
    put_session(session, alloc, held);
    status
}

/// How it stands with a task.
fn standing(recording: &Recording, task: u32) -> Result<SteppedNumbers, Status>
    ensures { result ≡ asked_task task recording.now }
{
    match recording.status(task) {
        None => Err(Status::Absent),
        Some(state) => Ok(stepped_numbers(0, Some(state))),
    }
}

/// Tells how it stands with a task.
#[unsafe(no_mangle)]
pub extern "C" fn enc_task(
    alloc: Global,
    session: &mut SessionHandle,
    task: u32,
    stepped: &mut SteppedNumbers,
) -> u32
    ensures kept { session.new.held ≡ session.old.held }
    ensures answer { TellsValue result stepped.old stepped.new (of_open session.old.held (asked_task task)) }
{
    let Some(held) = take_session(session, alloc) else {
        return Status::Closed.number();
    };
    let answer = standing(&held, task);
    put_session(session, alloc, held);
    tell(answer, stepped)
}

/// Appends the numbers of a frame, where there is one.
fn push_frame(frame: Option<FrameFacts>, frames: &mut Vec<FrameNumbers>) -> Result<(), AllocError>
    ensures { IfOk result (λ u. frames.new.items ≡ frames.old.items ++ map frame_numbers (listed_if frame)) }
{
    match frame {
        None => Ok(()),
        Some(frame) => {
            frames.push(frame_numbers(frame))?;
            Ok(())
        }
    }
}

/// The frames of a task.
fn list_frames(
    alloc: Global,
    recording: &Recording,
    task: u32,
) -> Result<Vec<FrameNumbers>, AllocError>
    ensures { IfOk result (λ v. v.items
        ≡ map frame_numbers (facts_below recording.now task (length (frames_in recording.now.machine task)))) }
{
    let mut frames = Vec::new(alloc);
    for i in 0..recording.frames(task) {
        push_frame(recording.frame(task, i), &mut frames)?;
    }
    Ok(frames)
}

/// The frames of a task that is there.
#[tactic(auto, unfolding(crate::specs::SessionCalls::asked_frames))]
fn frames(alloc: Global, recording: &Recording, task: u32) -> Result<Vec<FrameNumbers>, Status>
    ensures { OrMemory (items_listed result) (asked_frames task recording.now) }
{
    let Some(_) = recording.status(task) else {
        return Err(Status::Absent);
    };
    match list_frames(alloc, recording, task) {
        Ok(frames) => Ok(frames),
        Err(AllocError) => Err(Status::Memory),
    }
}

/// Copies the frames of a task, from the outermost.
#[unsafe(no_mangle)]
pub extern "C" fn enc_frames(
    alloc: Global,
    session: &mut SessionHandle,
    task: u32,
    buffer: &mut [FrameNumbers],
    size: &mut usize,
) -> u32
    ensures kept { session.new.held ≡ session.old.held }
    ensures answer { CopiesOrStays result buffer.old buffer.new size.old size.new
        (of_open session.old.held (asked_frames task)) }
{
    let Some(held) = take_session(session, alloc) else {
        return Status::Closed.number();
    };
    let status = copy_items(frames(alloc, &held, task), buffer, size);
    put_session(session, alloc, held);
    status
}

/// The numbers of values.
fn list_values(alloc: Global, values: &[Value]) -> Result<Vec<ValueNumbers>, AllocError>
    ensures { IfOk result (λ v. v.items ≡ map value_numbers values.now) }
{
    let mut numbers = Vec::new(alloc);
    for value in values {
        numbers.push(value_numbers(*value))?;
    }
    Ok(numbers)
}

/// The values of a frame.
#[tactic(auto, unfolding(crate::specs::SessionCalls::asked_values))]
fn values(
    alloc: Global,
    recording: &Recording,
    task: u32,
    frame: u32,
    which: u32,
) -> Result<Vec<ValueNumbers>, Status>
    ensures { OrMemory (items_listed result) (asked_values task frame which recording.now) }
{
    let Some(part) = part_by(which) else {
        return Err(Status::Unlike);
    };
    let Some(values) = recording.values(task, frame, part) else {
        return Err(Status::Absent);
    };
    match list_values(alloc, values) {
        Ok(numbers) => Ok(numbers),
        Err(AllocError) => Err(Status::Memory),
    }
}

/// Copies the arguments, the local variables or the stack of a frame, counted from 0 for the outermost.
#[unsafe(no_mangle)]
pub extern "C" fn enc_values(
    alloc: Global,
    session: &mut SessionHandle,
    task: u32,
    frame: u32,
    which: u32,
    buffer: &mut [ValueNumbers],
    size: &mut usize,
) -> u32
    ensures kept { session.new.held ≡ session.old.held }
    ensures answer { CopiesOrStays result buffer.old buffer.new size.old size.new
        (of_open session.old.held (asked_values task frame which)) }
{
    let Some(held) = take_session(session, alloc) else {
        return Status::Closed.number();
    };
    let status = copy_items(values(alloc, &held, task, frame, which), buffer, size);
    put_session(session, alloc, held);
    status
}
