//! Why a command ends before its answer.

use crate::plan::Plan;
use enc_outside::LoadError;
use std::alloc::{AllocError, AllocFailed};

/// Why a step ends the command.
#[derive(Debug, Drop)]
pub enum Halt {
    /// Memory ran out.
    Memory,
    /// The store failed.
    Failed,
    /// The command does nothing, and this is said of it.
    Plan(Plan),
}

impl From<AllocError> for Halt {
    ghost use Rattle.std.specs.Prelude.{◌≡◌};
    ghost use Rattle.enc_commands.specs.declared.halt.Halt.TheVariants.{Memory};

    ghost from_gives = { λ _ stop. stop ≡ Memory };

    fn from(_error: AllocError) -> Halt {
        Halt::Memory
    }
}

impl<T: Drop> From<AllocFailed<T>> for Halt {
    ghost use Rattle.std.specs.Prelude.{◌≡◌};
    ghost use Rattle.enc_commands.specs.declared.halt.Halt.TheVariants.{Memory};

    ghost from_gives = { λ _ stop. stop ≡ Memory };

    fn from(_error: AllocFailed<T>) -> Halt {
        Halt::Memory
    }
}

impl From<LoadError> for Halt {
    ghost use Rattle.std.specs.Prelude.{◌≡◌};
    ghost use Rattle.enc_commands.specs.Stops.{halt_of};

    ghost from_gives = { λ error stop. stop ≡ halt_of error };

    fn from(error: LoadError) -> Halt {
        match error {
            LoadError::Memory => Halt::Memory,
            LoadError::Failed => Halt::Failed,
        }
    }
}
