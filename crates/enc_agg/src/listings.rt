//! The places of a delta's tokens, for look-ups of earlier generations.
ghost use Rattle.std.specs.Prelude.{◌≡◌, ℕ, ◌+◌, ◌<◌, ◌^◌, suc, IfOk, length};
ghost use Rattle.enc_base.specs.declared.token.Token.{Token as TheToken};
ghost use Rattle.enc_key_map.specs.Index.{value_at};
ghost use Rattle.enc_generation_map.specs.Places.{places_kept, AreListings, AreOfThose};
ghost use Rattle.enc_agg.specs.Directory.{row_key};
ghost use Rattle.enc_agg.specs.Places.{every_place, place_listed};

use crate::aggregate::Aggregate;
use crate::directory::row_key;
use enc_base::Token;
use enc_generation_map::{Listings, Places};
use enc_key_map::Index;
use enc_plain::RowPlace;
use std::alloc::{AllocError, Global};

/// The places of tokens, each behind those that are kept of it.
fn listings_behind(
    alloc: Global,
    places: &Places,
    tokens: &[Token],
    own: &Index<RowPlace>,
) -> Result<Listings, AllocError>
    requires few { (u : TheToken) → places_kept places.now u + 1 < 2 ^ 32 }
    ensures { IfOk result (AreOfThose places.now tokens.now (λ u. value_at own.now (row_key u))) }
{
    let mut listings = Listings::new(alloc);
    for k in 0..tokens.len() {
        let token = tokens[k];
        let place = own.get(row_key(token)).copied();
        listings.push(alloc, token, places.count(token), place)?;
    }
    Ok(listings)
}

impl Aggregate {
    /// The places of the tokens of a delta that follows, by those that they have in it.
    pub(crate) fn listings(
        &self,
        alloc: Global,
        tokens: &[Token],
        own: &Index<RowPlace>,
    ) -> Result<Listings, AllocError>
        requires { (u : TheToken) → value_at own.now (row_key u)
            ≡ place_listed (suc (length self.now.deltas)) tokens.now u }
        ensures { IfOk result (AreListings (every_place self.now.deltas)
            (place_listed (suc (length self.now.deltas)) tokens.now)) }
    {
        let listings = listings_behind(alloc, &self.places, tokens, own)?;
        Ok(listings)
    }
}
