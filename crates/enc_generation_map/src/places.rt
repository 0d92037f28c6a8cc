//! Where tokens stood: the places of each of them, oldest first.
ghost use Rattle.std.specs.Prelude.{◌≡◌, ℕ, ◌+◌, ◌-◌, ◌<◌, ◌≤◌, ◌^◌, List, [], Some, None, IfOk, length, option_map, slice_get, if◌then◌else◌};
ghost use Rattle.enc_key_map.specs.declared.key.Key.{Key as TheKey};
ghost use Rattle.enc_key_map.specs.Key.{is_key};
ghost use Rattle.enc_key_map.specs.Index.{value_at, latest, either};
ghost use Rattle.enc_plain.specs.declared.place.RowPlace.{RowPlace as ThePlace};
ghost use Rattle.enc_generation_map.specs.Places.{place_key, places_kept, generation_kept, BeginWith};

use enc_base::Token;
use enc_key_map::{Index, Key, KeyEntry, push_entry};
use enc_plain::RowPlace;
use std::alloc::{AllocError, Global};

/// For each token its places by their numbers from 0, oldest first, and how many they are.
pub struct Places {
    places: Index<RowPlace>,
    counts: Index<u32>,
}

// Written by hand, so that whoever lets the places go makes one call here.
impl Drop for Places {
    fn drop(self) {
        let Places { places, counts } = self;
        drop(places);
        drop(counts);
    }
}

/// Places that one generation brings, with the room that they take.
#[derive(Drop)]
pub struct Listings {
    places: Vec<KeyEntry<RowPlace>>,
    counts: Vec<KeyEntry<u32>>,
}

/// The key of one of a token's places, by its number from 0.
fn place_key(token: Token, n: u32) -> Key
    ensures { result ≡ place_key token n }
{
    Key {
        table: token.table,
        row: token.row,
        place: n,
    }
}

impl Listings {
    /// No token has a place.
    pub fn new(alloc: Global) -> Listings
        ensures places { result.places.items ≡ [] }
        ensures counts { result.counts.items ≡ [] }
    {
        Listings {
            places: Vec::new(alloc),
            counts: Vec::new(alloc),
        }
    }

    /// Adds the place of a token that may have one, behind so many others.
    pub fn push(
        &mut self,
        alloc: Global,
        token: Token,
        others: u32,
        place: Option<RowPlace>,
    ) -> Result<(), AllocError>
        requires few { others + 1 < 2 ^ 32 }
        ensures counts { IfOk result (λ _. (q : TheKey) → latest self.new.counts.items q
            ≡ either (if is_key (place_key token 0) q then option_map (λ (p : ThePlace). others + 1) place else None)
            (latest self.old.counts.items q)) }
        ensures places { IfOk result (λ _. (q : TheKey) → latest self.new.places.items q
            ≡ either (if is_key (place_key token others) q then place else None) (latest self.old.places.items q)) }
    {
        let Some(place) = place else {
            return Ok(());
        };
        push_entry(&mut self.counts, alloc, place_key(token, 0), others + 1)?;
        push_entry(&mut self.places, alloc, place_key(token, others), place)?;
        Ok(())
    }
}

impl Places {
    /// No token has a place.
    pub fn new() -> Places
        ensures places { (q : TheKey) → value_at result.places q ≡ None }
        ensures counts { (q : TheKey) → value_at result.counts q ≡ None }
    {
        Places {
            places: Index::new(),
            counts: Index::new(),
        }
    }

    /// Puts in what a generation brings. It takes no memory.
    pub fn add(&mut self, listings: Listings)
        ensures places { (q : TheKey) →
            value_at self.new.places q ≡ either (latest listings.places.items q) (value_at self.old.places q) }
        ensures counts { (q : TheKey) →
            value_at self.new.counts q ≡ either (latest listings.counts.items q) (value_at self.old.counts q) }
    {
        self.places.put_all(listings.places);
        self.counts.put_all(listings.counts);
    }

    /// How many places of a token are kept.
    pub fn count(&self, token: Token) -> u32
        ensures { result ≡ places_kept self.now token }
    {
        match self.counts.get(place_key(token, 0)) {
            Some(count) => *count,
            None => 0,
        }
    }

    /// One of a token's places, by its number from 0.
    fn get(&self, token: Token, n: u32) -> Option<RowPlace>
        ensures { result ≡ value_at self.now.places (place_key token n) }
    {
        self.places.get(place_key(token, n)).copied()
    }

    /// The generation of one of a token's places, by its number from 0; 0 where there is none.
    fn generation(&self, token: Token, n: u32) -> u32
        ensures { result ≡ generation_kept (value_at self.now.places (place_key token n)) }
    {
        match self.get(token, n) {
            Some(place) => place.generation,
            None => 0,
        }
    }

    /// How many of a token's places are up to a generation: searched for by halves.
    fn count_upto(&self, token: Token, generation: usize) -> u32
        ensures { (first : List ThePlace) → BeginWith first generation (places_kept self.now token)
            (λ i. value_at self.now.places (place_key token i)) → result ≡ length first }
    {
        let mut low = 0;
        let mut high = self.count(token);
        while low < high {
            let middle = low + (high - low) / 2;
            if self.generation(token, middle) as usize <= generation {
                low = middle + 1;
            } else {
                high = middle;
            }
        }
        low
    }

    /// The last of a token's places up to a generation, None where there is none: of the first places
    /// that are kept of it, up to that generation, the last. It looks at no more of them than their number has binary
    /// digits.
    pub fn last_upto(&self, token: Token, generation: usize) -> Option<RowPlace>
        ensures { (first : List ThePlace) → BeginWith first generation (places_kept self.now token)
            (λ i. value_at self.now.places (place_key token i)) → result ≡ slice_get first (length first - 1) }
    {
        let Some(last) = self.count_upto(token, generation).checked_sub(1) else {
            return None;
        };
        self.get(token, last)
    }
}
