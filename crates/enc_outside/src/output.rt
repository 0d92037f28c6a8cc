//! A sink over the standard output.
ghost use Rattle.std.specs.Prelude.{◌≡◌, ℕ, None, OnOk, IsErrOf};
ghost use Rattle.enc_outside.specs.Outside.{HasCause};

use crate::count::one_more;
use crate::sink::{PutError, Sink};
use std::io;
use std::marker::Model;

/// The standard output, with a count of faults. No byte is held back: each put has written all of its piece, or fails.
#[derive(Drop)]
pub struct OutSink<R> {
    rt: R,
    faults: u64,
    last: Option<io::Error>,
}

impl<R> Model for OutSink<R> {
    ghost use Rattle.std.specs.Prelude.{ℕ};

    ghost Value = { ℕ };

    ghost view = { λ s. s.faults };
}

impl<R: Print> OutSink<R> {
    /// A sink with no fault so far.
    pub fn begin(rt: R) -> OutSink<R>
        ensures { result ≡ 0 }
    {
        OutSink {
            rt,
            faults: 0,
            last: None,
        }
    }

    /// How many faults there were. The count stands still at `u64::MAX`.
    pub fn faults(&self) -> u64
        ensures { result ≡ self.now }
    {
        self.faults
    }

    /// What the system said at the last fault, None where there was none: for people to read. No clause speaks of it.
    pub fn last_fault(&self) -> Option<io::Error> {
        self.last
    }
}

impl<R: Print> Sink for OutSink<R> {
    ghost told = { λ _. None };

    ghost faults = { λ s. s };

    /// Any error is a fault, after which a first part of the piece may stand in the output.
    fn put(&mut self, bytes: &[u8]) -> Result<(), PutError>
        ensures cause { HasCause PutError.Failed self.old self.new result }
        ensures quiet { OnOk result (self.new ≡ self.old) }
        ensures no_memory { ¬ (IsErrOf result PutError.Memory) }
    {
        match self.rt.write_all(bytes) {
            Ok(()) => Ok(()),
            Err(error) => {
                self.faults = one_more(self.faults);
                self.last = Some(error);
                Err(PutError::Failed)
            }
        }
    }
}
