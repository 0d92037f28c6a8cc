//! What a watcher hears, and how it answers.
use enc_base::{Code, Token};
use enc_objects::Trap;
use std::alloc::{AllocError, AllocFailed};

/// What happened in a session. Tasks and generations go by their numbers.
#[derive(Clone, Copy, Debug, PartialEq, Eq)]
pub enum Event {
    /// A task began in a method.
    Spawned { task: u32, method: Token },
    /// A task entered a method.
    Entered { task: u32, method: Token },
    /// A task left a method.
    Left { task: u32, method: Token },
    /// A task came to a line of the source of a method.
    Line { task: u32, method: Token, line: u32 },
    /// A delta was applied, which made the generation.
    Applied { generation: u32 },
    /// A delta was refused by the rule of this number.
    Refused { code: Code },
    /// A task stopped in front of an instruction.
    Trapped { task: u32, trap: Trap },
    /// A task left the last of its methods.
    Ended { task: u32 },
}

/// How a watcher reports, and whether it can fail.
#[derive(Clone, Copy, Debug, PartialEq, Eq)]
pub enum WatchKind {
    /// Reports each event, in the order heard.
    Trace,
    /// Reports how often each line of a method was heard.
    Cover,
    /// Reports as a trace, and fails where its limit is reached.
    Failing,
}

/// Why an event was not heard.
#[derive(Clone, Copy, Debug, PartialEq, Eq)]
pub enum HearError {
    /// No memory was left for the event.
    Memory,
    /// The watcher had heard as many events as it can.
    Failed,
}

impl From<AllocError> for HearError {
    ghost use Rattle.std.specs.Prelude.{◌≡◌};
    ghost use Rattle.enc_watch.specs.declared.event.HearError.TheVariants.{Memory};

    ghost from_gives = { λ _ e. e ≡ Memory };

    fn from(_error: AllocError) -> HearError {
        HearError::Memory
    }
}

impl<T: Drop> From<AllocFailed<T>> for HearError {
    ghost use Rattle.std.specs.Prelude.{◌≡◌};
    ghost use Rattle.enc_watch.specs.declared.event.HearError.TheVariants.{Memory};

    ghost from_gives = { λ _ e. e ≡ Memory };

    fn from(_error: AllocFailed<T>) -> HearError {
        HearError::Memory
    }
}
