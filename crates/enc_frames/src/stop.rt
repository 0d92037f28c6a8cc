//! Why an instruction changes nothing.
ghost use Rattle.std.specs.Prelude.{◌≡◌};
ghost use Rattle.enc_frames.specs.declared.stop.Stop.{Stop};

use enc_objects::Trap;
use std::alloc::AllocError;

/// Why an instruction changes nothing.
#[derive(Clone, Copy, Debug, PartialEq, Eq)]
pub enum Stop {
    /// There is no memory for what it makes.
    Memory,
    /// The task stops in front of it.
    Trap(Trap),
}

impl From<AllocError> for Stop {
    ghost from_gives = { λ _ e. e ≡ Stop.Memory };

    fn from(_: AllocError) -> Stop {
        Stop::Memory
    }
}

impl From<Trap> for Stop {
    ghost from_gives = { λ t e. e ≡ Stop.Trap t };

    fn from(trap: Trap) -> Stop {
        Stop::Trap(trap)
    }
}
