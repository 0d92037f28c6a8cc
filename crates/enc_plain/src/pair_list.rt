//! Pairs of numbers.
ghost use Rattle.std.specs.Prelude.{◌≡◌, ◌++◌, ◌∷◌, [], length, slice_get, option_map, IfOk, OnErr};

use std::alloc::{AllocError, Global};
use std::marker::Model;

/// Pairs of numbers below 2^32, in order.
#[derive(Drop)]
pub struct PairList {
    items: Vec<(u32, u32)>,
}

impl Model for PairList {
    ghost use Rattle.std.specs.Prelude.{ℕ, List};

    ghost Value = { List (ℕ × ℕ) };

    ghost view = { λ l. l.items.items };
}

impl PairList {
    /// No pairs, which take no memory.
    pub fn begin(alloc: Global) -> PairList
        ensures { result ≡ [] }
    {
        PairList {
            items: Vec::new(alloc),
        }
    }

    /// One pair more. Without memory nothing changes.
    pub fn push(&mut self, pair: (u32, u32)) -> Result<(), AllocError>
        ensures ok { IfOk result (λ _. self.new ≡ self.old ++ pair ∷ []) }
        ensures err { OnErr result (self.new ≡ self.old) }
    {
        self.items.push(pair)?;
        Ok(())
    }

    /// The number of pairs.
    pub fn len(&self) -> usize
        ensures { result ≡ length self.now }
    {
        self.items.len()
    }

    /// The pair at a place, from 0; None past the last.
    pub fn get(&self, i: usize) -> Option<&(u32, u32)>
        ensures { option_map (λ p. p.now) result ≡ slice_get self.now i }
    {
        self.items.get(i)
    }

    /// The pairs as a slice.
    pub fn as_slice(&self) -> &[(u32, u32)]
        ensures { result.now ≡ self.now }
    {
        self.items.as_slice()
    }
}
