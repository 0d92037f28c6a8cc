//! UTF-16 units that grow at their end.
ghost use Rattle.std.specs.Prelude.{◌≡◌, ◌++◌, ◌∷◌, [], length, slice_get, IfOk, OnErr};
ghost use Rattle.std.specs.Option.{option_copied};

use std::alloc::{AllocError, Global};
use std::marker::Model;

/// UTF-16 units that grow at their end.
#[derive(Drop)]
pub struct Units {
    items: Vec<u16>,
}

impl Model for Units {
    ghost use Rattle.std.specs.Prelude.{ℕ, List};

    ghost Value = { List ℕ };

    ghost view = { λ u. u.items.items };
}

impl Units {
    /// No units, which take no memory.
    pub fn begin(alloc: Global) -> Units
        ensures { result ≡ [] }
    {
        Units {
            items: Vec::new(alloc),
        }
    }

    /// The units as a slice.
    pub fn as_slice(&self) -> &[u16]
        ensures { result.now ≡ self.now }
    {
        self.items.as_slice()
    }

    /// One unit more. Without memory nothing changes.
    pub fn push(&mut self, unit: u16) -> Result<(), AllocError>
        ensures ok { IfOk result (λ _. self.new ≡ self.old ++ unit ∷ []) }
        ensures err { OnErr result (self.new ≡ self.old) }
    {
        self.items.push(unit)?;
        Ok(())
    }

    /// How many units there are.
    pub fn len(&self) -> usize
        ensures { result ≡ length self.now }
    {
        self.items.len()
    }

    /// The unit at an index, None behind the last.
    pub fn get(&self, i: usize) -> Option<&u16>
        ensures { option_copied result ≡ slice_get self.now i }
    {
        self.items.get(i)
    }
}
