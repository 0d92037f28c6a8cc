//! The events that watchers hear of a spawn, a step and a delta. None of this takes memory.
ghost use Rattle.std.specs.Prelude.{◌≡◌, ◌≤◌, ◌<◌, ◌+◌, ◌++◌, ◌∷◌, [], length};
ghost use Rattle.enc_vm.specs.Looks.{frame_in, frames_in};
ghost use Rattle.enc_vm.specs.Turns.{shown_in};
ghost use Rattle.enc_session.specs.Seen.{ending_told, entered_if};
ghost use Rattle.enc_session.specs.Session.{applied_event, begun_events, ending_events, entered_events, left_events, line_events, step_events};

use crate::applied::Applied;
use crate::engine::Engine;
use enc_base::Token;
use enc_vm::{Seen, StepEnd};
use enc_watch::Event;
use std::marker::Model;

/// As many events as one call tells at most.
const MOST: usize = 4;

/// A few events, in order.
#[derive(Drop)]
pub(crate) struct Events {
    items: [Event; MOST],
    len: usize,
}

impl Model for Events {
    ghost use Rattle.std.specs.Prelude.{List, take, ◌≤◌};
    ghost use Rattle.enc_watch.specs.declared.event.Event.{Event};

    ghost Value = { List Event };

    ghost view = { λ e. take e.len e.items };

    ghost invariant = { λ e. e.len ≤ 4 };
}

impl Events {
    /// None.
    fn none() -> Events
        ensures { result ≡ [] }
    {
        Events {
            items: [Event::Ended { task: 0 }; MOST],
            len: 0,
        }
    }

    /// One more.
    fn push(&mut self, event: Event)
        requires { length self.old < 4 }
        ensures { self.new ≡ self.old ++ event ∷ [] }
    {
        self.items[self.len] = event;
        self.len += 1;
    }

    /// All, in order.
    pub(crate) fn as_slice(&self) -> &[Event]
        ensures { result.now ≡ self.now }
    {
        &self.items[..self.len]
    }
}

/// Adds that the i-th frame of a task was entered, where there is one.
fn push_entered(engine: &Engine, task: u32, i: u32, events: &mut Events)
    requires { length events.old < 4 }
    ensures events { events.new ≡ events.old ++ entered_if task (frame_in engine.now.machine task i) }
    ensures few { length events.new ≤ length events.old + 1 }
{
    match engine.method_at(task, i) {
        None => {}
        Some(method) => events.push(Event::Entered { task, method }),
    }
}

/// That a task began, and entered each of its frames, from the outermost; at its begin it has at most two.
pub(crate) fn begun_events(engine: &Engine, method: Token, task: u32) -> Events
    requires { length (frames_in engine.now.machine task) ≤ 2 }
    ensures { result ≡ begun_events method task engine.now.machine }
{
    let mut events = Events::none();
    events.push(Event::Spawned { task, method });
    push_entered(engine, task, 0, &mut events);
    push_entered(engine, task, 1, &mut events);
    events
}

/// Adds the line that a step came to, in a method.
fn push_line(task: u32, method: Option<Token>, line: Option<u32>, events: &mut Events)
    requires { length events.old < 4 }
    ensures events { events.new ≡ events.old ++ line_events task method line }
    ensures few { length events.new ≤ length events.old + 1 }
{
    let Some(method) = method else {
        return;
    };
    let Some(line) = line else {
        return;
    };
    events.push(Event::Line { task, method, line });
}

/// Adds that a method was entered, where one was.
fn push_entry(task: u32, entered: Option<Token>, events: &mut Events)
    requires { length events.old < 4 }
    ensures events { events.new ≡ events.old ++ entered_events task entered }
    ensures few { length events.new ≤ length events.old + 1 }
{
    match entered {
        None => {}
        Some(method) => events.push(Event::Entered { task, method }),
    }
}

/// Adds that a method's frame was left, where one was.
fn push_left(task: u32, left: Option<Token>, events: &mut Events)
    requires { length events.old < 4 }
    ensures events { events.new ≡ events.old ++ left_events task left }
    ensures few { length events.new ≤ length events.old + 1 }
{
    match left {
        None => {}
        Some(method) => events.push(Event::Left { task, method }),
    }
}

/// Adds how a step ended, nothing where the task goes on.
fn push_ending(task: u32, end: StepEnd, events: &mut Events)
    requires { length events.old < 4 }
    ensures { events.new ≡ events.old ++ ending_events task (ending_told end) }
{
    match end {
        StepEnd::Ran | StepEnd::Idle | StepEnd::Absent => {}
        StepEnd::Ended => events.push(Event::Ended { task }),
        StepEnd::Trapped(trap) => events.push(Event::Trapped { task, trap }),
    }
}

/// What a step of a task shows: the line that it came to in the innermost frame's method, a frame that was entered
/// or left, and how it ended.
#[tactic(auto, unfolding(crate::specs::Session::step_events))]
pub(crate) fn step_events(task: u32, method: Option<Token>, seen: &Seen, end: StepEnd) -> Events
    ensures { result ≡ step_events task method (ending_told end) seen.now.line (shown_in seen.now) }
{
    let mut events = Events::none();
    push_line(task, method, seen.line, &mut events);
    push_entry(task, seen.entered, &mut events);
    push_left(task, seen.left, &mut events);
    push_ending(task, end, &mut events);
    events
}

/// That a delta was applied, or refused.
pub(crate) fn applied_event(applied: Applied) -> Event
    ensures { result ≡ applied_event applied }
{
    match applied {
        Applied::Generation(generation) => Event::Applied { generation },
        Applied::Refused(refusal) => Event::Refused { code: refusal.code },
    }
}
