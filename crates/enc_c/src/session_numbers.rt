//! What C sees of a session, by numbers.
ghost use Rattle.std.specs.Prelude.{◌≡◌, ◌+◌, ◌*◌};
ghost use Rattle.enc_c.specs.Refusals.{letter_of, rule_of};
ghost use Rattle.enc_c.specs.SessionNumbers.{count_number, event_numbers, frame_numbers, part_by, stepped_numbers, token_as_number, trap_number, value_numbers};
ghost use Rattle.enc_c.specs.SessionSeen.{remapped_told};

use crate::refusal::numbers_of;
use enc_base::{Code, Place, Refusal, Token};
use enc_objects::{Trap, Value};
use enc_remap::Remapped;
use enc_session::{FrameFacts, FramePart};
use enc_vm::TaskState;
use enc_watch::Event;

/// How many steps ran, and how it stands with the task.
#[repr(C)]
#[derive(Clone, Copy)]
pub struct SteppedNumbers {
    /// One that trapped isn't counted.
    pub ran: u32,
    /// 0 where the task goes on, 1 where it ended, 2 where it trapped.
    pub state: u32,
    /// X1 to X14 where it trapped, and else 0.
    pub trap: u32,
}

/// An event.
#[repr(C)]
#[derive(Clone, Copy)]
pub struct EventNumbers {
    pub kind: u32,
    /// From 1; 0 where the event is of no task.
    pub task: u32,
    /// 0 where the event is of no method.
    pub method: u32,
    /// A line, a generation, the letter and the number of a rule, or the number of a trap.
    pub detail: u32,
}

/// A frame of a task.
#[repr(C)]
#[derive(Clone, Copy)]
pub struct FrameNumbers {
    pub method: u32,
    /// The generation that brought the frame's body, 0 for the base.
    pub generation: u32,
    /// The offset of its next instruction, in bytes.
    pub offset: u32,
    /// The start line of the last point at or before the offset that isn't hidden, 0 where there is none.
    pub line: u32,
    pub arguments: u32,
    pub locals: u32,
    pub stack: u32,
}

/// A value.
#[repr(C)]
#[derive(Clone, Copy)]
pub struct ValueNumbers {
    /// 0 of an integer of 32 bits, 1 of one of 64, 2 of null, 3 of an object.
    pub kind: u32,
    /// The number of the object, from 1, and else 0.
    pub object: u32,
    /// The integer, and else 0.
    pub number: i64,
}

/// An offset of a body, and the one in the newest body to which it leads.
#[repr(C)]
#[derive(Clone, Copy)]
pub struct PairNumbers {
    pub from: u32,
    pub to: u32,
}

/// What came of a remap.
#[repr(C)]
#[derive(Clone, Copy)]
pub struct RemappedNumbers {
    /// 0 where the frame was moved, and else the first rule that is broken, Q1 to Q7.
    pub rule: u32,
    pub method: u32,
    pub from: u32,
    pub to: u32,
}

/// The number of a token, 0 where its row is past three bytes.
pub fn token_as_number(token: Token) -> u32
    ensures { result ≡ token_as_number token }
{
    if token.row < 0x100_0000 {
        token.number()
    } else {
        0
    }
}

/// The number of a trap.
pub fn trap_number(trap: Trap) -> u32
    ensures { result ≡ trap_number trap }
{
    match trap {
        Trap::X1 => 1,
        Trap::X2 => 2,
        Trap::X3 => 3,
        Trap::X4 => 4,
        Trap::X5 => 5,
        Trap::X6 => 6,
        Trap::X7 => 7,
        Trap::X8 => 8,
        Trap::X9 => 9,
        Trap::X10 => 10,
        Trap::X11 => 11,
        Trap::X12 => 12,
        Trap::X13 => 13,
        Trap::X14 => 14,
    }
}

/// How many steps of a task ran, and how it stands with it.
pub fn stepped_numbers(ran: u32, state: Option<TaskState>) -> SteppedNumbers
    ensures { result ≡ stepped_numbers ran state }
{
    let (state, trap) = match state {
        None | Some(TaskState::Running) => (0, 0),
        Some(TaskState::Ended) => (1, 0),
        Some(TaskState::Trapped(trap)) => (2, trap_number(trap)),
    };
    SteppedNumbers { ran, state, trap }
}

/// The letter and the number of a rule in one.
#[tactic(auto, unfolding(crate::specs::Refusals::numbers_of))]
fn rule_detail(code: Code) -> u32
    ensures { result ≡ letter_of code * 0x100 + rule_of code }
{
    let numbers = numbers_of(Refusal {
        code,
        place: Place::Root,
    });
    u32::from(numbers.letter) * 0x100 + u32::from(numbers.rule)
}

/// An event of a task and a method.
fn method_event(kind: u32, task: u32, method: Token, detail: u32) -> EventNumbers
    ensures { result ≡ record { kind = kind; task = task; method = token_as_number method; detail = detail } }
{
    EventNumbers {
        kind,
        task,
        method: token_as_number(method),
        detail,
    }
}

/// An event of no method.
fn bare_event(kind: u32, task: u32, detail: u32) -> EventNumbers
    ensures { result ≡ record { kind = kind; task = task; method = 0; detail = detail } }
{
    EventNumbers {
        kind,
        task,
        method: 0,
        detail,
    }
}

/// The numbers of an event.
pub fn event_numbers(event: Event) -> EventNumbers
    ensures { result ≡ event_numbers event }
{
    match event {
        Event::Spawned { task, method } => method_event(1, task, method, 0),
        Event::Entered { task, method } => method_event(2, task, method, 0),
        Event::Left { task, method } => method_event(3, task, method, 0),
        Event::Line { task, method, line } => method_event(4, task, method, line),
        Event::Applied { generation } => bare_event(5, 0, generation),
        Event::Refused { code } => bare_event(6, 0, rule_detail(code)),
        Event::Trapped { task, trap } => bare_event(7, task, trap_number(trap)),
        Event::Ended { task } => bare_event(8, task, 0),
    }
}

/// A number of things, 2^32 - 1 where there are more.
fn count_number(count: usize) -> u32
    ensures { result ≡ count_number count }
{
    if count < 0xffff_ffff {
        count as u32
    } else {
        0xffff_ffff
    }
}

/// The numbers of a frame.
pub fn frame_numbers(frame: FrameFacts) -> FrameNumbers
    ensures { result ≡ frame_numbers frame }
{
    FrameNumbers {
        method: token_as_number(frame.method),
        generation: frame.generation,
        offset: frame.offset,
        line: frame.line,
        arguments: count_number(frame.arguments),
        locals: count_number(frame.locals),
        stack: count_number(frame.stack),
    }
}

/// The numbers of a value.
pub fn value_numbers(value: Value) -> ValueNumbers
    ensures { result ≡ value_numbers value }
{
    let (kind, object, number) = match value {
        Value::I4(number) => (0, 0, i64::from(number)),
        Value::I8(number) => (1, 0, number),
        Value::Null => (2, 0, 0),
        Value::Obj(id) => (3, id, 0),
    };
    ValueNumbers {
        kind,
        object,
        number,
    }
}

/// What a number asks of a frame; None where it asks nothing.
pub fn part_by(which: u32) -> Option<FramePart>
    ensures { result ≡ part_by which }
{
    match which {
        0 => Some(FramePart::Arguments),
        1 => Some(FramePart::Locals),
        2 => Some(FramePart::Stack),
        _ => None,
    }
}

/// The numbers of what came of a remap.
pub fn remapped_numbers(remapped: Remapped) -> RemappedNumbers
    ensures { result ≡ remapped_told remapped }
{
    match remapped {
        Remapped::Moved { method, from, to } => RemappedNumbers {
            rule: 0,
            method: token_as_number(method),
            from,
            to,
        },
        Remapped::Refused(number) => RemappedNumbers {
            rule: u32::from(number),
            method: 0,
            from: 0,
            to: 0,
        },
    }
}
