//! The PDBs of a base and its deltas.
ghost use Rattle.std.specs.Prelude.{◌≡◌, ◌+◌, ◌*◌, ◌^◌, ◌<◌, ◌≤◌, [], ◌∷◌, length, IfOk, OnOk, option_copied, reverse, slice_get};
ghost use Rattle.enc_plain.specs.SoundDebug.{IsSoundPdb};
ghost use Rattle.enc_ppdb.specs.PdbChain.{base_row, delta_row, is_named_by, pdb_begun, pdb_with, points_at, documents_at, earlier_pdb};
ghost use Rattle.enc_ppdb.specs.Sound.{KeepsSound};
ghost use Rattle.enc_ppdb.specs.KnownAt.{known_at};
ghost use Rattle.enc_ppdb.specs.PlacedAt.{file_number};
ghost use Rattle.enc_ppdb.specs.Told.{every_told, AreToldBy};
ghost use Rattle.enc_generation_map.specs.Places.{KeepsPlaces};

use crate::debug_row::{DebugRow, document_at, points_at};
use crate::methods::MethodList;
use crate::pdb::{Pdb, PdbDelta};
use crate::told::told;
use enc_base::Token;
use enc_generation_map::{Listings, Places};
use enc_plain::{DocumentRef, PointSource};
use enc_seqpoints::Points;
use std::alloc::{AllocError, Global};
use std::marker::Model;

/// What a delta says: its PDB, where it has one, and the methods that have a new body in it.
#[derive(Drop)]
struct Said {
    pdb: Option<PdbDelta>,
    changed: MethodList,
}

impl Model for Said {
    ghost use Rattle.enc_ppdb.specs.PdbChain.{DebugDelta};

    ghost Value = { DebugDelta };

    ghost view = { λ d. record { pdb = d.pdb; changed = d.changed } };
}

/// The PDB of a base and what its deltas say, oldest first. A method is looked for from the newest
/// delta to the base (Portable PDB v1.0).
#[derive(Drop)]
pub struct PdbChain {
    base: Option<Pdb>,
    added: Vec<Said>,
    places: Places,
}

impl Model for PdbChain {
    ghost use Rattle.std.specs.Prelude.{◌<◌, ◌^◌, ◌+◌, reverse, length, vec_len, vec_capacity};
    ghost use Rattle.enc_ppdb.specs.PdbChain.{PdbHistory};
    ghost use Rattle.enc_ppdb.specs.PlacedAt.{room_for};
    ghost use Rattle.enc_ppdb.specs.Told.{IsPdbWhole};

    ghost Value = { PdbHistory };

    ghost view = { λ c. record {
      base = c.base;
      deltas = reverse c.added.items;
      room = room_for (vec_capacity c.added) (vec_len c.added);
    } };

    ghost invariant = { λ c. (length c.added.items + 1 < 2 ^ 32) × IsPdbWhole c.base (reverse c.added.items) c.places };
}

/// Where the PDB of a base has a method.
fn in_base(base: &Option<Pdb>, method: Token) -> Option<DebugRow<'_>>
    ensures { result ≡ base_row base.now method }
{
    base.as_ref()?.known(method)
}

impl Said {
    /// Where the PDB of the delta has a method.
    fn known(&self, method: Token) -> Option<DebugRow<'_>>
        ensures { result ≡ delta_row self.now.pdb method }
    {
        self.pdb.as_ref()?.known(method)
    }
}

/// What a delta says, counted back from the newest, from 0.
fn said_at(added: &[Said], back: usize) -> Option<&Said>
    ensures { option_copied result ≡ slice_get (reverse added.now) back }
{
    if back >= added.len() {
        return None;
    }
    added.get(added.len() - 1 - back)
}

/// Where the newest file that knows a method has it: the newest delta is looked for that tells of it.
fn known<'a>(
    base: &'a Option<Pdb>,
    added: &'a [Said],
    places: &Places,
    method: Token,
) -> Option<DebugRow<'a>>
    requires { KeepsPlaces (every_told (reverse added.now)) (length (reverse added.now)) places.now }
    ensures { result ≡ known_at base.now (reverse added.now) method }
{
    match places.last_upto(method, added.len()) {
        Some(place) => added[place.generation as usize - 1].known(method),
        None => in_base(base, method),
    }
}

/// The number of the newest file that knows a method: 0 for the base, from 1 for the deltas, and one
/// past the last where none knows it.
fn number_of(base: &Option<Pdb>, added: &[Said], places: &Places, method: Token) -> usize
    requires { KeepsPlaces (every_told (reverse added.now)) (length (reverse added.now)) places.now }
    ensures number { result ≡ file_number base.now (length added.now + 1) (reverse added.now) method }
    ensures few { result ≤ length added.now + 1 }
{
    let Some(place) = places.last_upto(method, added.len()) else {
        if in_base(base, method).is_some() {
            return 0;
        }
        return added.len() + 1;
    };
    let number = place.generation as usize;
    if added[number - 1].known(method).is_some() {
        number
    } else {
        added.len() + 1
    }
}

/// A place in a file.
fn place(file: u32, number: u32) -> u64
    ensures { result ≡ file * 2 ^ 32 + number }
{
    u64::from(file) * 0x1_0000_0000 + u64::from(number)
}

/// The most deltas that there may be, so that each has a number of four bytes.
const MOST: usize = 0xffff_fffe;

/// What the PDB of a base says is sound; where there is none, nothing is known.
fn base_is_sound(base: &Option<Pdb>)
    ensures { IsSoundPdb (pdb_begun base.now) }
{
    match base {
        Some(pdb) => pdb.sound(),
        None => {}
    }
}

/// With what a delta's PDB says, and with a delta without one, a sound plain PDB stays sound.
fn keeps_sound(delta: &Option<PdbDelta>)
    ensures { KeepsSound delta.now }
{
    match delta {
        Some(pdb) => pdb.keeps_sound(),
        None => {}
    }
}

impl PdbChain {
    /// The PDB of a base without deltas, None where it has none.
    pub fn begin(alloc: Global, pdb: Option<Pdb>) -> Result<PdbChain, AllocError>
        ensures base { IfOk result (λ c. c.base ≡ pdb) }
        ensures deltas { IfOk result (λ c. c.deltas ≡ []) }
    {
        base_is_sound(&pdb);
        Ok(PdbChain {
            base: pdb,
            added: Vec::new(alloc),
            places: Places::new(),
        })
    }

    /// Makes room for a delta. `AllocError` where there is no memory, or where there are 2^32 - 2
    /// deltas; nothing else that is seen changes.
    pub fn reserve(&mut self) -> Result<(), AllocError>
        ensures base { self.new.base ≡ self.old.base }
        ensures deltas { self.new.deltas ≡ self.old.deltas }
        ensures room { OnOk result (0 < self.new.room) }
        ensures kept { self.old.room ≤ self.new.room }
    {
        if self.added.len() >= MOST {
            return Err(AllocError);
        }
        self.added.reserve(1)
    }

    /// What is known of the methods is sound, whatever deltas were added: a law, of which a caller
    /// makes use.
    pub fn sound(&self)
        ensures { IsSoundPdb (pdb_with self.now.base self.now.deltas) }
    {
        let _ = &self.base;
    }

    /// Whether the PDB of a delta has a row for a method; of the newest delta where `back` is 0, of the one
    /// before it where it is 1, and so on. False where the delta has no PDB, or isn't there.
    #[tactic(auto, unfolding(crate::specs::PdbChain::is_named_by))]
    pub fn names(&self, back: usize, method: Token) -> bool
        ensures { result ≡ is_named_by (slice_get self.now.deltas back) method }
    {
        match said_at(&self.added, back) {
            Some(said) => said.known(method).is_some(),
            None => false,
        }
    }

    /// The methods of which a delta tells something, as they are to be kept of it: those that its PDB
    /// names, where it has one, and those that have a new body in it. `AllocError` where there is no
    /// memory.
    #[tactic(auto, unfolding(crate::specs::Told::AreToldBy))]
    pub fn told(
        &self,
        alloc: Global,
        pdb: &Option<PdbDelta>,
        changed: &MethodList,
    ) -> Result<Listings, AllocError>
        ensures { IfOk result (AreToldBy self.now.deltas (record { pdb = pdb.now; changed = changed.now })) }
    {
        let generation = self.added.len() as u32 + 1;
        let listings = told(alloc, &self.places, pdb, changed, generation)?;
        Ok(listings)
    }

    /// Adds what a delta says: its PDB, where it has one, and the methods that have a new body in it.
    /// It can't fail.
    pub fn add(&mut self, delta: Option<PdbDelta>, changed: MethodList, told: Listings)
        requires room { 0 < self.old.room }
        requires told { AreToldBy self.old.deltas (record { pdb = delta; changed = changed }) told }
        ensures base { self.new.base ≡ self.old.base }
        ensures deltas { self.new.deltas ≡ (record { pdb = delta; changed = changed }) ∷ self.old.deltas }
        ensures room { self.new.room + 1 ≡ self.old.room }
    {
        keeps_sound(&delta);
        self.places.add(told);
        self.added.push_reserved(Said {
            pdb: delta,
            changed,
        });
    }
}

/// The PDB of a base and what its first deltas say, whatever deltas were added since. It copies
/// nothing.
#[derive(Drop)]
pub struct EarlierPdb<'a> {
    base: &'a Option<Pdb>,
    added: &'a [Said],
    places: &'a Places,
}

impl<'a> Model for EarlierPdb<'a> {
    ghost use Rattle.std.specs.Prelude.{reverse};
    ghost use Rattle.enc_ppdb.specs.PdbChain.{PdbHistory};
    ghost use Rattle.enc_ppdb.specs.Told.{IsEarlierPdb};

    ghost Value = { PdbHistory };

    ghost view = { λ e. record { base = e.base.now; deltas = reverse e.added.now; room = 0 } };

    ghost invariant = { λ e. IsEarlierPdb e.base.now e.added.now e.places.now };
}

impl PdbChain {
    /// What is known of the methods after the first deltas.
    pub fn at(&self, generation: u32) -> EarlierPdb<'_>
        requires { generation ≤ length self.now.deltas }
        ensures { result ≡ earlier_pdb generation self.now }
    {
        EarlierPdb {
            base: &self.base,
            added: &self.added[..generation as usize],
            places: &self.places,
        }
    }
}

impl EarlierPdb<'_> {
    /// What is known of the methods is sound: a law, of which a caller makes use.
    pub fn sound(&self)
        ensures { IsSoundPdb (pdb_with self.now.base self.now.deltas) }
    {
        let _ = &self.base;
    }
}

impl PointSource for EarlierPdb<'_> {
    ghost use Rattle.enc_ppdb.specs.KnownAt.{knows as known_by};
    ghost use Rattle.enc_ppdb.specs.PlacedAt.{document_placed};

    ghost debug = { λ h. pdb_with h.base h.deltas };

    ghost said = { λ h method. points_at (known_at h.base h.deltas method) };

    ghost documents = { λ h method. documents_at (known_at h.base h.deltas method) };

    ghost placed = { λ h place. document_placed h.base h.deltas place };

    fn points(&self, alloc: Global, method: Token) -> Result<Points, AllocError> {
        points_at(alloc, known(self.base, self.added, self.places, method))
    }

    fn document(&self, method: Token, number: u32) -> Option<DocumentRef<'_>> {
        document_at(known(self.base, self.added, self.places, method), number)
    }

    fn document_place(&self, method: Token, number: u32) -> u64 {
        place(
            number_of(self.base, self.added, self.places, method) as u32,
            number,
        )
    }

    ghost knows = { λ h method. known_by h.base h.deltas method };
}

impl PointSource for PdbChain {
    ghost use Rattle.enc_ppdb.specs.KnownAt.{knows as known_by};
    ghost use Rattle.enc_ppdb.specs.PlacedAt.{document_placed};

    ghost debug = { λ h. pdb_with h.base h.deltas };

    ghost said = { λ h method. points_at (known_at h.base h.deltas method) };

    ghost documents = { λ h method. documents_at (known_at h.base h.deltas method) };

    ghost placed = { λ h place. document_placed h.base h.deltas place };

    fn points(&self, alloc: Global, method: Token) -> Result<Points, AllocError> {
        points_at(alloc, known(&self.base, &self.added, &self.places, method))
    }

    fn document(&self, method: Token, number: u32) -> Option<DocumentRef<'_>> {
        document_at(known(&self.base, &self.added, &self.places, method), number)
    }

    fn document_place(&self, method: Token, number: u32) -> u64 {
        place(
            number_of(&self.base, &self.added, &self.places, method) as u32,
            number,
        )
    }

    ghost knows = { λ h method. known_by h.base h.deltas method };
}
