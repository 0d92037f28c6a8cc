//! A store of files: whole files by name.
ghost use Rattle.std.specs.Prelude.{◌≡◌, ℕ, List, Option, IfSome, IfOk, OnOk, IsErrOf};
ghost use Rattle.std.specs.Option.{option_map};
ghost use Rattle.std.specs.FinMap.{get};
ghost use Rattle.enc_outside.specs.Outside.{Files, with_file, IsSavedInPart, HasCause};

use std::alloc::{AllocError, AllocFailed};
use thiserror::Error;

/// Why a file was not loaded.
#[derive(Clone, Copy, Debug, PartialEq, Eq, Error)]
pub enum LoadError {
    /// No memory was left for the bytes.
    #[error("out of memory")]
    Memory,
    /// The outside failed, and the count of faults rose.
    #[error("the file cannot be read")]
    Failed,
}

/// Why a file was not saved.
#[derive(Clone, Copy, Debug, PartialEq, Eq, Error)]
pub enum SaveError {
    /// No memory was left, and no file has changed.
    #[error("out of memory")]
    Memory,
    /// The outside failed, and the count of faults rose. The name holds its old bytes or a first part of the new ones.
    #[error("the file cannot be written")]
    Failed,
}

/// Files by name. Names are compared byte by byte, and a file is read and written as a whole.
pub trait Store {
    // The files, where the store can tell them.
    ghost told: { Self → Option Files };

    // How many faults there were so far: a call that answers no fault leaves it.
    ghost faults: { Self → ℕ };

    /// The bytes of the file of this name, or `None` where there is no such file.
    fn load(&mut self, name: &str) -> Result<Option<Vec<u8>>, LoadError>
        ensures cause { HasCause LoadError.Failed (faults self.old) (faults self.new) result }
        ensures stays { told self.new ≡ told self.old }
        ensures found { IfSome (told self.old) (λ files. IfOk result (λ loaded.
            option_map (λ v. v.items) loaded ≡ get files name.now)) };

    /// Makes the file of this name, or replaces all of its bytes. No other file changes.
    fn save(&mut self, name: &str, bytes: &[u8]) -> Result<(), SaveError>
        ensures cause { HasCause SaveError.Failed (faults self.old) (faults self.new) result }
        ensures saved { OnOk result (told self.new ≡ with_file name.now bytes.now (told self.old)) }
        ensures failed { IsErrOf result SaveError.Failed →
            IsSavedInPart name.now bytes.now (told self.old) (told self.new) }
        ensures memory { IsErrOf result SaveError.Memory → told self.new ≡ told self.old };
}

impl From<AllocError> for LoadError {
    ghost use Rattle.std.specs.Prelude.{◌≡◌};
    ghost use Rattle.enc_outside.specs.declared.store.LoadError.TheVariants.{Memory};

    ghost from_gives = { λ _ e. e ≡ Memory };

    fn from(_error: AllocError) -> LoadError {
        LoadError::Memory
    }
}

impl<T: Drop> From<AllocFailed<T>> for LoadError {
    ghost use Rattle.std.specs.Prelude.{◌≡◌};
    ghost use Rattle.enc_outside.specs.declared.store.LoadError.TheVariants.{Memory};

    ghost from_gives = { λ _ e. e ≡ Memory };

    fn from(_error: AllocFailed<T>) -> LoadError {
        LoadError::Memory
    }
}

impl From<AllocError> for SaveError {
    ghost use Rattle.std.specs.Prelude.{◌≡◌};
    ghost use Rattle.enc_outside.specs.declared.store.SaveError.TheVariants.{Memory};

    ghost from_gives = { λ _ e. e ≡ Memory };

    fn from(_error: AllocError) -> SaveError {
        SaveError::Memory
    }
}

impl<T: Drop> From<AllocFailed<T>> for SaveError {
    ghost use Rattle.std.specs.Prelude.{◌≡◌};
    ghost use Rattle.enc_outside.specs.declared.store.SaveError.TheVariants.{Memory};

    ghost from_gives = { λ _ e. e ≡ Memory };

    fn from(_error: AllocFailed<T>) -> SaveError {
        SaveError::Memory
    }
}
