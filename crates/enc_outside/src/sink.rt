//! A sink of bytes: what is put into it stands in order.
ghost use Rattle.std.specs.Prelude.{◌≡◌, ℕ, List, Option, OnOk, IsErrOf};
ghost use Rattle.enc_outside.specs.Outside.{with_piece, GrowsInPart, HasCause};

use std::alloc::{AllocError, AllocFailed};
use thiserror::Error;

/// Why a piece was not put.
#[derive(Clone, Copy, Debug, PartialEq, Eq, Error)]
pub enum PutError {
    /// No memory was left, and the bytes are as before.
    #[error("out of memory")]
    Memory,
    /// The outside failed, and the count of faults rose. A first part of the piece may have been put.
    #[error("the output cannot be written")]
    Failed,
}

/// Bytes that only grow.
pub trait Sink {
    // The bytes so far, where the sink can tell them.
    ghost told: { Self → Option (List ℕ) };

    // How many faults there were so far: a call that answers no fault leaves it.
    ghost faults: { Self → ℕ };

    /// Appends the piece.
    fn put(&mut self, bytes: &[u8]) -> Result<(), PutError>
        ensures cause { HasCause PutError.Failed (faults self.old) (faults self.new) result }
        ensures grown { OnOk result (told self.new ≡ with_piece bytes.now (told self.old)) }
        ensures failed { IsErrOf result PutError.Failed →
            GrowsInPart bytes.now (told self.old) (told self.new) }
        ensures memory { IsErrOf result PutError.Memory → told self.new ≡ told self.old };
}

impl From<AllocError> for PutError {
    ghost use Rattle.std.specs.Prelude.{◌≡◌};
    ghost use Rattle.enc_outside.specs.declared.sink.PutError.TheVariants.{Memory};

    ghost from_gives = { λ _ e. e ≡ Memory };

    fn from(_error: AllocError) -> PutError {
        PutError::Memory
    }
}

impl<T: Drop> From<AllocFailed<T>> for PutError {
    ghost use Rattle.std.specs.Prelude.{◌≡◌};
    ghost use Rattle.enc_outside.specs.declared.sink.PutError.TheVariants.{Memory};

    ghost from_gives = { λ _ e. e ≡ Memory };

    fn from(_error: AllocFailed<T>) -> PutError {
        PutError::Memory
    }
}
