//! Places of blobs that were once found to go together, so that rows that share two blobs cost what
//! one pair does.
ghost use Rattle.std.specs.Prelude.{◌≡◌, ℕ, ◌/◌, ◌%◌, ◌^◌, Bool, List, Option, Some, true, IsTrue, IfSome};
ghost use Rattle.enc_plain.specs.Places.{AreRelatedPlaces};
ghost use Rattle.enc_plain.specs.Rows.{AreStoredAt};

use std::alloc::Global;
use std::collections::BTreeSet;

/// Pairs of places, each by one number, whose blobs go together.
#[derive(Drop)]
pub struct Places {
    numbers: BTreeSet<u64>,
}

/// The number of a pair of places, None where one is none or past 32 bits.
fn number_of(a: Option<u64>, b: Option<u64>) -> Option<u64>
    ensures left { (stored : ℕ → Option (List ℕ)) (x : List ℕ) → AreStoredAt stored a x
        → IfSome result (λ n. stored (n / 2 ^ 32) ≡ Some x) }
    ensures right { (stored : ℕ → Option (List ℕ)) (y : List ℕ) → AreStoredAt stored b y
        → IfSome result (λ n. stored (n % 2 ^ 32) ≡ Some y) }
{
    let m = a?;
    let n = b?;
    if m >= 0x1_0000_0000 || n >= 0x1_0000_0000 {
        return None;
    }
    Some(m * 0x1_0000_0000 + n)
}

impl Places {
    /// None yet. It takes no memory.
    pub(crate) fn new(alloc: Global) -> Places
        ensures { (rel : List ℕ → List ℕ → Bool) (stored : ℕ → Option (List ℕ)) → AreRelatedPlaces rel stored result }
    {
        Places {
            numbers: BTreeSet::new(alloc),
        }
    }

    /// The blobs at two places are known to go together.
    pub(crate) fn has(&self, a: Option<u64>, b: Option<u64>) -> bool
        ensures { (rel : List ℕ → List ℕ → Bool) (stored : ℕ → Option (List ℕ)) (x y : List ℕ)
            → AreRelatedPlaces rel stored self.now → AreStoredAt stored a x → AreStoredAt stored b y → IsTrue result
            → rel x y ≡ true }
    {
        match number_of(a, b) {
            Some(n) => self.numbers.contains(&n),
            None => false,
        }
    }

    /// Remembers two places whose blobs go together. Without memory they aren't known afterwards.
    pub(crate) fn add(&mut self, a: Option<u64>, b: Option<u64>)
        ensures { (rel : List ℕ → List ℕ → Bool) (stored : ℕ → Option (List ℕ)) (x y : List ℕ)
            → AreRelatedPlaces rel stored self.old → AreStoredAt stored a x → AreStoredAt stored b y → rel x y ≡ true
            → AreRelatedPlaces rel stored self.new }
    {
        let Some(n) = number_of(a, b) else {
            return;
        };
        match self.numbers.insert(n) {
            Ok(_) => {}
            Err(_) => {}
        }
    }
}
