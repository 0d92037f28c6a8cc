//! What a delta brings to the directory of an aggregate.
ghost use Rattle.std.specs.Prelude.{◌≡◌, ℕ, suc, ◌+◌, ◌<◌, ◌≤◌, ◌^◌, Some, None, IfOk, IsTrue, length, map, option_map, unwrap_or, if◌then◌else◌};
ghost use Rattle.enc_base.specs.declared.token.Token.{Token as TheToken};
ghost use Rattle.enc_key_map.specs.declared.key.Key.{Key as TheKey};
ghost use Rattle.enc_key_map.specs.Key.{is_key};
ghost use Rattle.enc_key_map.specs.Index.{value_at, latest, either};
ghost use Rattle.enc_schema.specs.Children.{is_child_table, owner_table};
ghost use Rattle.enc_plain.specs.Module.{kids_of};
ghost use Rattle.enc_delta.specs.Delta.{listed, log_in, place_in};
ghost use Rattle.enc_delta.specs.Lists.{AreEntries as AreLogged};
ghost use Rattle.enc_delta.specs.Members.{pair_seen};
ghost use Rattle.enc_delta.specs.Pairs.{attached_of};
ghost use Rattle.enc_agg.specs.Extend.{extended};
ghost use Rattle.enc_agg.specs.Follows.{Follows};
ghost use Rattle.enc_agg.specs.Seen.{chain_of_all, module_of_all};
ghost use Rattle.enc_agg.specs.Directory.{row_key, kids_key, AreOwned, AreHeld, AreBrought, IsSame, AreAsOwn, IsOwn};
ghost use Rattle.enc_generation_map.specs.Places.{AreListings};
ghost use Rattle.enc_agg.specs.Places.{every_place, place_listed};

use crate::aggregate::Aggregate;
use crate::directory::{Directory, Entries, kids_key, row_key};
use crate::kept::Kept;
use enc_base::{Steps, Token};
use enc_delta::{Delta, Pair, attached_of, log_of};
use enc_generation_map::Listings;
use enc_key_map::Index;
use enc_plain::{ChainView, RowPlace};
use std::alloc::{AllocError, Global};
use std::sync::ledger::Ledger;

/// Where the rows of a delta stand. A step for each token.
fn places_of<L: Ledger>(
    alloc: Global,
    delta: &Delta,
    tokens: &[Token],
    generation: u32,
    steps: &mut Steps<L>,
) -> Result<Kept<RowPlace>, AllocError>
    requires tokens { tokens.now ≡ listed delta.now }
    ensures same { IfOk result IsSame }
    ensures places { IfOk result (λ l. (u : TheToken) → latest l.entries.items (row_key u)
        ≡ option_map (λ (k : ℕ). record { generation = generation; row = k }) (place_in (listed delta.now) u)) }
    ensures steps { steps.new ≤ steps.old + length tokens.now }
{
    let mut places = Kept::new(alloc);
    for k in 0..tokens.len() {
        let token = tokens[k];
        let Some(row) = delta.place_of(token, steps) else {
            unreachable!()
        };
        let place = RowPlace { generation, row };
        places.push(alloc, row_key(token), place)?;
    }
    Ok(places)
}

/// What the Add entries of a delta bring.
#[derive(Drop)]
pub struct Gained {
    pub owners: Kept<Token>,
    pub counts: Kept<u32>,
    pub kids: Kept<u32>,
}

impl Gained {
    /// Adds a child, behind so many others.
    fn push(&mut self, alloc: Global, pair: Pair, others: u32) -> Result<(), AllocError>
        requires few { others + 1 < 2 ^ 32 }
        requires same { AreAsOwn self.old }
        ensures same { IfOk result (λ _. AreAsOwn self.new) }
        ensures owners { IfOk result (λ _. (q : TheKey) → latest self.new.owners.entries.items q
            ≡ either (if is_key (row_key pair.child) q then Some pair.owner else None)
            (latest self.old.owners.entries.items q)) }
        ensures counts { IfOk result (λ _. (q : TheKey) → latest self.new.counts.entries.items q
            ≡ either (if is_key (kids_key pair.child.table pair.owner 0) q then Some (others + 1) else None)
            (latest self.old.counts.entries.items q)) }
        ensures kids { IfOk result (λ _. (q : TheKey) → latest self.new.kids.entries.items q
            ≡ either (if is_key (kids_key pair.child.table pair.owner others) q then Some pair.child.row else None)
            (latest self.old.kids.entries.items q)) }
    {
        let count = kids_key(pair.child.table, pair.owner, 0);
        let kid = kids_key(pair.child.table, pair.owner, others);
        self.owners.push(alloc, row_key(pair.child), pair.owner)?;
        self.counts.push(alloc, count, others + 1)?;
        self.kids.push(alloc, kid, pair.child.row)?;
        Ok(())
    }
}

/// How many children a row has with those so far.
fn count_so_far(aggregate: &Aggregate, so_far: &Index<u32>, owner: Token, table: u8) -> u32
    requires row { 0 < owner.row }
    requires table { IsTrue (is_child_table table) }
    requires owners { owner.table ≡ owner_table table }
    ensures { result ≡ unwrap_or (value_at so_far.now (kids_key table owner 0))
        (length (kids_of (module_of_all aggregate.now) owner table)) }
{
    match so_far.get(kids_key(table, owner, 0)) {
        Some(count) => *count,
        None => aggregate.count_kids(owner, table),
    }
}

/// What the Add entries of a delta bring.
fn gained_by(
    alloc: Global,
    aggregate: &Aggregate,
    delta: &Delta,
    pairs: &[Pair],
) -> Result<Gained, AllocError>
    requires follows { Follows (chain_of_all aggregate.now) delta.now }
    requires pairs { map pair_seen pairs.now ≡ attached_of delta.now }
    ensures same { IfOk result AreAsOwn }
    ensures owners { IfOk result (λ g. AreOwned (chain_of_all aggregate.now)
        (extended (chain_of_all aggregate.now) delta.now) (λ u. latest g.owners.entries.items (row_key u))) }
    ensures kids { IfOk result (λ g. AreHeld (chain_of_all aggregate.now) (extended
        (chain_of_all aggregate.now) delta.now) (latest g.counts.entries.items) (latest g.kids.entries.items)) }
{
    let _ = delta;
    aggregate.has_owners();
    let mut gained = Gained {
        owners: Kept::new(alloc),
        counts: Kept::new(alloc),
        kids: Kept::new(alloc),
    };
    for k in 0..pairs.len() {
        let pair = pairs[k];
        let others = count_so_far(aggregate, &gained.counts.own, pair.owner, pair.child.table);
        gained.push(alloc, pair, others)?;
    }
    Ok(gained)
}

/// What a delta brings to a directory, a directory of it alone, and the places that it brings.
#[derive(Drop)]
pub struct Brought {
    pub entries: Entries,
    pub own: Directory,
    pub listings: Listings,
}

/// Entries, and a directory of the same values.
fn entries_with_own(
    places: Kept<RowPlace>,
    owners: Kept<Token>,
    counts: Kept<u32>,
    kids: Kept<u32>,
    listings: Listings,
) -> Brought
    ensures listings { result.listings ≡ listings }
    ensures entries { result.entries ≡ record {
      places = places.entries;
      owners = owners.entries;
      counts = counts.entries;
      kids = kids.entries;
    } }
    ensures own { result.own ≡ record {
      places = places.own;
      owners = owners.own;
      counts = counts.own;
      kids = kids.own;
    } }
{
    Brought {
        entries: Entries {
            places: places.entries,
            owners: owners.entries,
            counts: counts.entries,
            kids: kids.entries,
        },
        own: Directory {
            places: places.own,
            owners: owners.own,
            counts: counts.own,
            kids: kids.own,
        },
        listings,
    }
}

/// What a delta brings that follows an aggregate. A step for each of its tokens.
pub fn brought_by<L: Ledger>(
    alloc: Global,
    aggregate: &Aggregate,
    delta: &Delta,
    tokens: &[Token],
    steps: &mut Steps<L>,
) -> Result<Brought, AllocError>
    requires follows { Follows (chain_of_all aggregate.now) delta.now }
    requires tokens { tokens.now ≡ listed delta.now }
    ensures entries { IfOk result (λ b. AreBrought (chain_of_all aggregate.now) delta.now b.entries) }
    ensures own { IfOk result (λ b. IsOwn (chain_of_all aggregate.now) delta.now b.own) }
    ensures listings { IfOk result (λ b. AreListings (every_place aggregate.now.deltas)
        (place_listed (suc (length aggregate.now.deltas)) (listed delta.now)) b.listings) }
    ensures steps { steps.new ≤ steps.old + length tokens.now }
{
    let places = places_of(alloc, delta, tokens, aggregate.generations(), steps)?;
    let listings = aggregate.listings(alloc, tokens, &places.own)?;
    let log = log_of(delta, alloc)?;
    let pairs = attached_of(alloc, delta, &log)?;
    let gained = gained_by(alloc, aggregate, delta, &pairs)?;
    Ok(entries_with_own(places, gained.owners, gained.counts, gained.kids, listings))
}
