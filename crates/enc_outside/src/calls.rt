//! Counts calls, and says which of them are to fail.
ghost use Rattle.std.specs.Prelude.{◌≡◌, [], ◌∷◌, ◌++◌, ◌≤◌, OnOk, OnErr};
ghost use Rattle.enc_outside.specs.Outside.{Rose};
ghost use Rattle.enc_outside.specs.Memory.{is_failing, called, faulted};

use crate::count::one_more;
use std::alloc::{AllocError, Global};
use std::marker::Model;

/// The calls that were made, the numbers of those that fail, and the faults so far.
#[derive(Drop)]
pub(crate) struct Calls {
    made: u64,
    failing: Vec<u64>,
    faults: u64,
}

impl Model for Calls {
    ghost use Rattle.enc_outside.specs.Memory.{Counts};

    ghost Value = { Counts };

    ghost view = { λ c. record { calls = c.made; failing = c.failing.items; faults = c.faults } };
}

impl Calls {
    pub(crate) fn begin(alloc: Global) -> Calls
        ensures { result ≡ record { calls = 0; failing = []; faults = 0 } }
    {
        Calls {
            made: 0,
            failing: Vec::new(alloc),
            faults: 0,
        }
    }

    /// The calls that were made.
    pub(crate) fn made(&self) -> u64
        ensures { result ≡ self.now.calls }
    {
        self.made
    }

    /// Has the call of this number fail, where 1 is the first.
    pub(crate) fn fail_at(&mut self, call: u64) -> Result<(), AllocError>
        ensures ok { OnOk result (self.new ≡
            record self.old { failing = self.old.failing ++ call ∷ [] }) }
        ensures err { OnErr result (self.new ≡ self.old) }
    {
        self.failing.push(call)?;
        Ok(())
    }

    /// Counts a call, and says whether it is to fail.
    #[tactic(auto, unfolding(crate::specs::Memory::is_failing))]
    pub(crate) fn next_fails(&mut self) -> bool
        ensures fails { result ≡ is_failing self.old }
        ensures counted { self.new ≡ called self.old }
    {
        self.made = one_more(self.made);
        self.failing.contains(&self.made)
    }

    /// Counts a fault.
    pub(crate) fn fault(&mut self)
        ensures counted { self.new ≡ faulted self.old }
        ensures later { self.old.faults ≤ self.new.faults }
        ensures rose { Rose self.old.faults self.new.faults }
    {
        self.faults = one_more(self.faults);
    }
}
