//! Why no delta is written.
use std::alloc::AllocError;

/// Why no delta is written of an edit list.
#[derive(Clone, Copy, Debug, PartialEq, Eq)]
pub enum EditFault {
    /// There is no memory.
    Memory,
    /// The first rule that the list breaks, by its number, and the edit that does, counted from 1; 0 for the
    /// list as a whole.
    Broken(u8, u32),
}

impl From<AllocError> for EditFault {
    ghost use Rattle.std.specs.Prelude.{◌≡◌};
    ghost use Rattle.enc_writer.specs.declared.fault.EditFault.TheVariants.{Memory};

    ghost from_gives = { λ _ e. e ≡ Memory };

    fn from(_error: AllocError) -> EditFault {
        EditFault::Memory
    }
}
