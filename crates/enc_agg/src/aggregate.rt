//! A base with the deltas that follow it.
ghost use Rattle.std.specs.Prelude.{◌≡◌, ◌+◌, ◌*◌, ◌<◌, ◌≤◌, ◌∷◌, [], ℕ, List, None, Some, IfOk, length, drop, ◌-◌, reverse, option_copied, option_map, slice_get, slice_index, if◌then◌else◌};
ghost use Rattle.enc_meta.specs.Heaps.{Counted, lengths_of};
ghost use Rattle.enc_meta.specs.Joined.{joined_user};
ghost use Rattle.enc_plain.specs.Module.{rows_in, has_row};
ghost use Rattle.enc_plain.specs.Sound.{IsSound};
ghost use Rattle.enc_rows.specs.Layout.{rows_of};
ghost use Rattle.enc_base.specs.Tables.{enc_map};
ghost use Rattle.enc_delta.specs.Delta.{listed};
ghost use Rattle.enc_delta.specs.Rules.{inserts};
ghost use Rattle.enc_delta.specs.Judged.{first_meta};
ghost use Rattle.enc_image.specs.Base.{cells_fault};
ghost use Rattle.enc_agg.specs.Extend.{extended, chain_with};
ghost use Rattle.enc_agg.specs.Follows.{AllFollow, Follows};
ghost use Rattle.enc_agg.specs.Place.{place_of, place_in_heaps, delta_at};
ghost use Rattle.enc_agg.specs.Seen.{chain_of_all, module_of_all, sources, AllAdded};
ghost use Rattle.enc_agg.specs.Prepared.{IsPrepared};
ghost use Rattle.enc_agg.specs.Next.{with_delta, history_of_next, chain_of_next};

use crate::added::{Added, all_follow, count_in, lengths_in};
use crate::after::After;
use crate::directory::{Directory, Entries, find};
use crate::entries::{Brought, brought_by};
use crate::heaps::{guid_place_in, heap_place_in};
use crate::place::HeapPlace;
use enc_base::{Counts, Steps, StreamName, Token};
use enc_delta::{Delta, enc_id_counted, inserts_of};
use enc_generation_map::{Listings, Places};
use enc_image::Image;
use enc_meta::{Heap, HeapLengths};
use enc_plain::{RowPlace, is_row};
use std::alloc::{AllocError, Global};
use std::marker::Model;
use std::sync::ledger::Ledger;

/// A base and the deltas that follow it, oldest first. All keep their files' bytes; a row is looked
/// for from the newest delta to the base.
#[derive(Drop)]
pub struct Aggregate {
    pub(crate) image: Image,
    pub(crate) added: Vec<Added>,
    pub(crate) directory: Directory,
    pub(crate) places: Places,
    alloc: Global,
}

impl Model for Aggregate {
    ghost use Rattle.std.specs.Prelude.{◌-◌, reverse, vec_len, vec_capacity};
    ghost use Rattle.enc_agg.specs.Seen.{History, sources};
    ghost use Rattle.enc_agg.specs.Prepared.{IsWhole};

    ghost Value = { History };

    ghost view = { λ a. record {
      base = a.image;
      deltas = sources (reverse a.added.items);
      room = vec_capacity a.added - vec_len a.added;
    } };

    ghost invariant = { λ a. IsWhole a.image (reverse a.added.items) a.directory a.places };
}

/// A delta that may be committed to the state that it was prepared from. What stands beside the
/// delta is the aggregate's own; callers know of it by `IsPrepared` alone.
#[derive(Drop)]
pub struct Ready {
    pub(crate) delta: Delta,
    pub(crate) before: HeapLengths,
    id: [u8; 16],
    pub(crate) counts: Counts,
    entries: Entries,
    pub(crate) own: Directory,
    listings: Listings,
}

/// How many rows a table has after a delta with these inserts.
fn count_after(image: &Image, added: &[Added], delta: &Delta, more: &[usize; 256], table: u8) -> u32
    requires sound { cells_fault image.now ≡ None }
    requires added { AllAdded image.now (reverse added.now) }
    requires follows { Follows (chain_with image.now (sources (reverse added.now))) delta.now }
    requires more { (t : ℕ) → t < 256
        → slice_index more.now t ≡ inserts (chain_with image.now (sources (reverse added.now))) (listed delta.now) t }
    ensures { result ≡ length (rows_in
        (extended (chain_with image.now (sources (reverse added.now))) delta.now).plain table) }
{
    let _ = delta;
    let before = count_in(image, added, table);
    let own = more[table as usize];
    if own == 0 {
        return before;
    }
    before + own as u32
}

/// How many rows each table has after it.
fn counts_after(image: &Image, added: &[Added], delta: &Delta, more: &[usize; 256]) -> Counts
    requires sound { cells_fault image.now ≡ None }
    requires added { AllAdded image.now (reverse added.now) }
    requires follows { Follows (chain_with image.now (sources (reverse added.now))) delta.now }
    requires more { (t : ℕ) → t < 256
        → slice_index more.now t ≡ inserts (chain_with image.now (sources (reverse added.now))) (listed delta.now) t }
    ensures { (t : ℕ) → t < 64 → slice_index result.rows t
        ≡ length (rows_in (extended (chain_with image.now (sources (reverse added.now))) delta.now).plain t) }
{
    let mut rows = [0; 64];
    for t in 0..64_u8 {
        rows[t as usize] = count_after(image, added, delta, more, t);
    }
    Counts { rows }
}

impl Aggregate {
    /// A base without deltas.
    pub fn begin(alloc: Global, image: Image) -> Result<Aggregate, AllocError>
        ensures base { IfOk result (λ a. a.base ≡ image) }
        ensures deltas { IfOk result (λ a. a.deltas ≡ []) }
    {
        image.sound();
        Ok(Aggregate {
            image,
            added: Vec::new(alloc),
            directory: Directory::new(),
            places: Places::new(),
            alloc,
        })
    }

    /// The module is sound, whatever deltas were added: a law, of which a caller makes use.
    pub fn sound(&self)
        ensures { IsSound (module_of_all self.now) }
    {
        let _ = &self.image;
    }

    /// The base is sound, and each delta was read from two files and follows those before it: a law, of
    /// which a caller makes use. It goes over the deltas once.
    pub fn follows(&self)
        ensures { AllFollow self.now.base self.now.deltas }
    {
        all_follow(&self.image, &self.added);
    }

    /// A delta that breaks no rule leaves it sound.
    fn stays_sound(&self, delta: &Delta)
        requires { first_meta (chain_of_all self.now) delta.now ≡ None }
        ensures { IsSound (extended (chain_of_all self.now) delta.now).plain }
    {
        self.sound();
        delta.was_read();
    }

    /// Makes a delta ready that breaks no rule, and room for it: all memory is taken here, and
    /// nothing else that is seen changes.
    #[tactic(auto, using(crate::proofs::Landing::follows_chain), unfolding(crate::specs::Prepared::IsPrepared))]
    pub fn prepare<L: Ledger>(
        &mut self,
        delta: Delta,
        steps: &mut Steps<L>,
    ) -> Result<Ready, AllocError>
        requires { first_meta (chain_of_all self.old) delta ≡ None }
        ensures base { self.new.base ≡ self.old.base }
        ensures deltas { self.new.deltas ≡ self.old.deltas }
        ensures room { IfOk result (λ r. 0 < self.new.room) }
        ensures kept { self.old.room ≤ self.new.room }
        ensures delta { IfOk result (λ r. r.delta ≡ delta) }
        ensures ready { IfOk result (IsPrepared self.old.base self.old.deltas) }
        ensures steps { steps.new ≤ steps.old + 3 + 2 * rows_of delta.layout enc_map }
    {
        self.stays_sound(&delta);
        let tokens = match delta.tokens_counted(self.alloc, steps) {
            Ok(tokens) => tokens,
            Err(error) => return Err(error),
        };
        let Brought {
            entries,
            own,
            listings,
        } = match brought_by(self.alloc, self, &delta, &tokens, steps) {
            Ok(brought) => brought,
            Err(error) => return Err(error),
        };
        let more = inserts_of(self, &tokens);
        let counts = counts_after(&self.image, &self.added, &delta, &more);
        let before = lengths_in(&self.image, &self.added);
        let id = enc_id_counted(self, &delta, steps);
        match self.added.reserve(1) {
            Ok(()) => {}
            Err(error) => return Err(error),
        }
        Ok(Ready {
            delta,
            before,
            id,
            counts,
            entries,
            own,
            listings,
        })
    }

    /// Adds the delta that was made ready from this state. It can't fail.
    #[tactic(auto, unfolding(crate::specs::Prepared::IsPrepared))]
    pub fn commit(&mut self, ready: Ready)
        requires ready { IsPrepared self.old.base self.old.deltas ready }
        requires room { 0 < self.old.room }
        ensures base { self.new.base ≡ self.old.base }
        ensures deltas { self.new.deltas ≡ ready.delta ∷ self.old.deltas }
        ensures room { self.new.room + 1 ≡ self.old.room }
        ensures texts { (offset : ℕ) (units : List ℕ) → joined_user (chain_of_all self.old).heaps offset ≡ Some units
            → joined_user (chain_of_all self.new).heaps offset ≡ Some units }
        ensures history { self.new ≡ with_delta self.old ready.delta }
        ensures chain { chain_of_all self.new ≡ extended (chain_of_all self.old) ready.delta }
    {
        let Ready {
            delta,
            before,
            id,
            counts,
            entries,
            own,
            listings,
        } = ready;
        drop(own);
        self.directory.add(entries);
        self.places.add(listings);
        self.added.push_reserved(Added {
            delta,
            before,
            id,
            counts,
        });
    }

    /// The plain module with a delta that was made ready from this state. It takes no memory, and the
    /// aggregate means this module once the delta is committed.
    #[tactic(auto, unfolding(crate::specs::Prepared::IsPrepared))]
    pub fn after<'a>(&'a self, ready: &'a Ready) -> After<'a>
        requires { IsPrepared self.now.base self.now.deltas ready.now }
        ensures before { result.before ≡ self.now }
        ensures delta { result.delta ≡ ready.now.delta }
        ensures chain { chain_of_next result ≡ extended (chain_of_all self.now) ready.now.delta }
        ensures history { history_of_next result ≡ with_delta self.now ready.now.delta }
    {
        self.has_owners();
        After {
            aggregate: self,
            ready,
        }
    }

    /// Where a row stands: in the newest generation whose map has its token, else in the base. None
    /// where the module lacks it.
    pub fn locate<L: Ledger>(&self, token: Token, steps: &mut Steps<L>) -> Option<RowPlace>
        ensures place { result ≡ (if has_row (module_of_all self.now) token then Some (place_of self.now.deltas token)
            else None) }
        ensures steps { steps.new ≡ steps.old }
    {
        let _ = steps;
        if !is_row(self, token) {
            return None;
        }
        Some(self.place(token))
    }

    /// Where a token stands: in the newest generation whose map has it, and else in the base, at its
    /// own row.
    pub fn place(&self, token: Token) -> RowPlace
        ensures { result ≡ place_of self.now.deltas token }
    {
        match find(&self.added, &self.directory, token) {
            Some(found) => RowPlace {
                generation: found.upto.len() as u32,
                row: found.row,
            },
            None => RowPlace {
                generation: 0,
                row: token.row,
            },
        }
    }

    /// The number of rows of a table up to a generation.
    pub fn count_at(&self, generation: u32, table: u8) -> u32
        requires { generation ≤ length self.now.deltas }
        ensures { result ≡ length (rows_in
            (chain_with self.now.base (drop (length self.now.deltas - generation) self.now.deltas)).plain table) }
    {
        count_in(&self.image, &self.added[..generation as usize], table)
    }

    /// The delta of a generation; None for the base and past the last.
    pub fn delta(&self, generation: u32) -> Option<&Delta>
        ensures { option_copied result ≡ delta_at self.now.deltas generation }
    {
        let n = generation.checked_sub(1)?;
        Some(&self.added.get(n as usize)?.delta)
    }

    /// How many bytes of `#Strings`, `#US` and `#Blob` count in a generation's own file, and how many
    /// whole entries its `#GUID` has.
    pub fn heap_lengths(&self, generation: u32) -> HeapLengths
        requires { generation ≤ length self.now.deltas }
        ensures { Some result ≡ option_map (λ (h : Counted). lengths_of h)
            (slice_get (chain_of_all self.now).heaps generation) }
    {
        match generation.checked_sub(1) {
            None => self.image.lengths(),
            Some(n) => self.added[n as usize].delta.lengths(),
        }
    }

    /// Where an offset of a joined heap stands: its generation, and the offset in that generation's
    /// heap. Of `#GUID` the offset is the entry's number, from 1. None where the offset is past the
    /// joined heap, where no generation has the entry, and for all other streams.
    pub fn locate_heap(&self, heap: StreamName, offset: u32) -> Option<HeapPlace>
        ensures { result ≡ place_in_heaps (chain_of_all self.now).heaps heap offset }
    {
        match heap {
            StreamName::Strings => heap_place_in(&self.image, &self.added, Heap::Strings, offset),
            StreamName::Users => heap_place_in(&self.image, &self.added, Heap::Users, offset),
            StreamName::Blobs => heap_place_in(&self.image, &self.added, Heap::Blobs, offset),
            StreamName::Guids => guid_place_in(&self.image, &self.added, offset),
            _ => None,
        }
    }
}
