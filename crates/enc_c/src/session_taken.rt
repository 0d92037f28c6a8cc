//! The calls that take what a session recorded.
ghost use Rattle.std.specs.Prelude.{◌≡◌, ◌≤◌, ◌++◌, Some, drop, length, map, slice_get};
ghost use Rattle.enc_c.specs.Copied.{IsCopiedOut};
ghost use Rattle.enc_c.specs.SessionCalls.{TakesEvents, TakesText};
ghost use Rattle.enc_c.specs.SessionNumbers.{event_numbers};

use crate::copy::copy_out;
use crate::session_handle::{SessionHandle, put_session, take_session};
use crate::session_numbers::{EventNumbers, event_numbers};
use crate::status::Status;
use enc_session::Recording;
use enc_watch::Event;
use std::alloc::Global;

/// The i-th event, from 0; None past the last.
fn event_at(events: &[Event], i: usize) -> Option<Event>
    ensures { result ≡ slice_get events.now i }
{
    events.get(i).copied()
}

/// Writes the numbers of events over the front of a buffer.
fn write_events(events: &[Event], buffer: &mut [EventNumbers])
    requires { length events.now ≤ length buffer.old }
    ensures { buffer.new ≡ map event_numbers events.now ++ drop (length events.now) buffer.old }
{
    for i in 0..events.len() {
        let Some(event) = event_at(events, i) else {
            unreachable!()
        };
        buffer[i] = event_numbers(event);
    }
}

/// Copies the numbers of all events into a buffer, or none where it is too short.
#[tactic(auto, unfolding(crate::specs::Copied::copied, crate::specs::Copied::status_of_copy))]
fn copy_events(events: &[Event], buffer: &mut [EventNumbers], size: &mut usize) -> u32
    ensures { IsCopiedOut result buffer.old buffer.new size.new (map event_numbers events.now) }
{
    *size = events.len();
    if events.len() > buffer.len() {
        return Status::Short.number();
    }
    write_events(events, buffer);
    Status::Done.number()
}

/// Copies all events, and takes them where the buffer isn't too short.
fn take_events(recording: &mut Recording, buffer: &mut [EventNumbers], size: &mut usize) -> u32
    ensures { TakesEvents result (Some recording.old) (Some recording.new) buffer.old buffer.new size.old size.new }
{
    let fits = recording.events().len() <= buffer.len();
    let status = copy_events(recording.events(), buffer, size);
    if fits {
        recording.clear_events();
    }
    status
}

/// Copies the events since the last call that was done.
#[unsafe(no_mangle)]
pub extern "C" fn enc_events(
    alloc: Global,
    session: &mut SessionHandle,
    buffer: &mut [EventNumbers],
    size: &mut usize,
) -> u32
    ensures { TakesEvents result session.old.held session.new.held buffer.old buffer.new size.old size.new }
{
    let Some(held) = take_session(session, alloc) else {
        return Status::Closed.number();
    };
    let mut held = held;
    let status = take_events(&mut held, buffer, size);
    put_session(session, alloc, held);
    status
}

/// Copies all lines, and takes them where the buffer isn't too short.
fn take_text(recording: &mut Recording, buffer: &mut [u8], size: &mut usize) -> u32
    ensures { TakesText result (Some recording.old) (Some recording.new) buffer.old buffer.new size.old size.new }
{
    let fits = recording.text().len() <= buffer.len();
    let status = copy_out(recording.text(), buffer, size);
    if fits {
        recording.clear_text();
    }
    status
}

/// Copies the lines since the last call that was done: what steps wrote, and that tasks ended or trapped.
#[unsafe(no_mangle)]
pub extern "C" fn enc_output(
    alloc: Global,
    session: &mut SessionHandle,
    buffer: &mut [u8],
    size: &mut usize,
) -> u32
    ensures { TakesText result session.old.held session.new.held buffer.old buffer.new size.old size.new }
{
    let Some(held) = take_session(session, alloc) else {
        return Status::Closed.number();
    };
    let mut held = held;
    let status = take_text(&mut held, buffer, size);
    put_session(session, alloc, held);
    status
}
