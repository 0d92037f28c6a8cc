//! Why two deltas aren't merged.
use enc_base::Token;
use std::alloc::AllocError;

/// Why the last two deltas of a chain aren't merged.
#[derive(Clone, Copy, Debug, PartialEq, Eq)]
pub enum MergeFault {
    /// There is no memory.
    Memory,
    /// The PDB would pass its limit.
    TooLarge,
    /// The first TypeRef, or else the first TypeSpec, that lies too deep in others.
    Deep(Token),
}

impl From<AllocError> for MergeFault {
    ghost use Rattle.std.specs.Prelude.{◌≡◌};
    ghost use Rattle.enc_merge.specs.declared.fault.MergeFault.TheVariants.{Memory};

    ghost from_gives = { λ _ e. e ≡ Memory };

    fn from(_error: AllocError) -> MergeFault {
        MergeFault::Memory
    }
}
