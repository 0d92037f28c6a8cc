//! The methods of which a delta tells something, kept for look-ups.
ghost use Rattle.std.specs.Prelude.{◌≡◌, ℕ, ◌+◌, ◌<◌, ◌^◌, ◌++◌, List, IfOk, map};
ghost use Rattle.enc_base.specs.declared.token.Token.{Token as TheToken};
ghost use Rattle.enc_generation_map.specs.Places.{places_kept, AreOfThose};
ghost use Rattle.enc_ppdb.specs.Fault.{named_tokens};
ghost use Rattle.enc_ppdb.specs.Told.{method_named_by, told_methods, own_told};

use crate::methods::MethodList;
use crate::pdb::PdbDelta;
use enc_base::Token;
use enc_generation_map::{Listings, Places};
use enc_plain::RowPlace;
use std::alloc::{AllocError, Global};

/// That a generation tells of a method.
fn own_told(generation: u32, method: Token) -> Option<RowPlace>
    ensures { result ≡ own_told generation method }
{
    Some(RowPlace {
        generation,
        row: method.row,
    })
}

/// The methods that have a new body in a delta, each behind the deltas that tell of it.
fn list_changed(
    alloc: Global,
    places: &Places,
    changed: &MethodList,
    generation: u32,
) -> Result<Listings, AllocError>
    requires few { (u : TheToken) → places_kept places.now u + 1 < 2 ^ 32 }
    ensures { IfOk result (AreOfThose places.now changed.now (own_told generation)) }
{
    let mut listings = Listings::new(alloc);
    for k in 0..changed.len() {
        let method = changed.token(k);
        let place = own_told(generation, method);
        listings.push(alloc, method, places.count(method), place)?;
    }
    Ok(listings)
}

/// With those that its PDB names.
fn list_named(
    alloc: Global,
    places: &Places,
    pdb: &PdbDelta,
    generation: u32,
    listings: &mut Listings,
) -> Result<(), AllocError>
    requires few { (u : TheToken) → places_kept places.now u + 1 < 2 ^ 32 }
    ensures { IfOk result (λ _. (ts : List TheToken) → AreOfThose places.now ts (own_told generation) listings.old
        → AreOfThose places.now (ts ++ map method_named_by (named_tokens pdb.now)) (own_told generation) listings.new) }
{
    for k in 0..pdb.methods() {
        let method = pdb.method(k);
        let place = own_told(generation, method);
        listings.push(alloc, method, places.count(method), place)?;
    }
    Ok(())
}

/// The methods of which a delta tells something, each behind the deltas before that tell of it.
pub(crate) fn told(
    alloc: Global,
    places: &Places,
    pdb: &Option<PdbDelta>,
    changed: &MethodList,
    generation: u32,
) -> Result<Listings, AllocError>
    requires few { (u : TheToken) → places_kept places.now u + 1 < 2 ^ 32 }
    ensures { IfOk result (AreOfThose places.now (told_methods (record { pdb = pdb.now; changed = changed.now }))
        (own_told generation)) }
{
    let mut listings = list_changed(alloc, places, changed, generation)?;
    let Some(pdb) = pdb else {
        return Ok(listings);
    };
    list_named(alloc, places, pdb, generation, &mut listings)?;
    Ok(listings)
}
