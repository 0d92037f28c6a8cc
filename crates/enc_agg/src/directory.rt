//! What the deltas list and attach, kept once for all look-ups: where a row stands last, who owns a
//! new child row, and which children a row gained.
ghost use Rattle.std.specs.Prelude.{◌≡◌, ◌≤◌, ◌++◌, IfOk, length, option_map, reverse, take};
ghost use Rattle.enc_key_map.specs.declared.key.Key.{Key as TheKey};
ghost use Rattle.enc_key_map.specs.Index.{value_at, latest, either};
ghost use Rattle.enc_agg.specs.Seen.{found_in, found_seen};
ghost use Rattle.enc_agg.specs.Directory.{row_key, kids_key, place_seen, HasPlaces, IsBare, kept_one, with_kept};

use crate::added::{Added, Found};
use enc_base::Token;
use enc_key_map::{Index, Key, KeyEntry};
use enc_plain::RowPlace;
use std::alloc::AllocError;

/// For each row that a delta lists its newest place; for each new child row its owner; for each row
/// that gained children how many it has, and those that it gained by their places among all.
pub struct Directory {
    pub places: Index<RowPlace>,
    pub owners: Index<Token>,
    pub counts: Index<u32>,
    pub kids: Index<u32>,
}

// Written by hand, so that whoever lets an aggregate go makes one call here.
impl Drop for Directory {
    fn drop(self) {
        let Directory {
            places,
            owners,
            counts,
            kids,
        } = self;
        drop(places);
        drop(owners);
        drop(counts);
        drop(kids);
    }
}

/// What a delta brings to a directory, with the room that it takes there.
#[derive(Drop)]
pub struct Entries {
    pub places: Vec<KeyEntry<RowPlace>>,
    pub owners: Vec<KeyEntry<Token>>,
    pub counts: Vec<KeyEntry<u32>>,
    pub kids: Vec<KeyEntry<u32>>,
}

/// Appends a row that may be kept.
fn push_kept(rows: &mut Vec<u32>, row: Option<u32>) -> Result<(), AllocError>
    ensures { IfOk result (λ _. rows.new.items ≡ rows.old.items ++ kept_one row) }
{
    match row {
        Some(row) => {
            rows.push(row)?;
            Ok(())
        }
        None => Ok(()),
    }
}

/// The key of a row.
pub fn row_key(row: Token) -> Key
    ensures { result ≡ row_key row }
{
    Key {
        table: row.table,
        row: row.row,
        place: 0,
    }
}

/// The key of one of a row's children in a child table, by its place from 0.
pub fn kids_key(table: u8, owner: Token, place: u32) -> Key
    ensures { result ≡ kids_key table owner place }
{
    Key {
        table,
        row: owner.row,
        place,
    }
}

impl Directory {
    /// Of a base alone: nothing is listed or attached.
    pub fn new() -> Directory
        ensures { IsBare result }
    {
        Directory {
            places: Index::new(),
            owners: Index::new(),
            counts: Index::new(),
            kids: Index::new(),
        }
    }

    /// Puts in what a delta brings. It takes no memory.
    pub fn add(&mut self, entries: Entries)
        ensures places { (q : TheKey) →
            value_at self.new.places q ≡ either (latest entries.places.items q) (value_at self.old.places q) }
        ensures owners { (q : TheKey) →
            value_at self.new.owners q ≡ either (latest entries.owners.items q) (value_at self.old.owners q) }
        ensures counts { (q : TheKey) →
            value_at self.new.counts q ≡ either (latest entries.counts.items q) (value_at self.old.counts q) }
        ensures kids { (q : TheKey) → value_at self.new.kids q
            ≡ either (latest entries.kids.items q) (value_at self.old.kids q) }
    {
        self.places.put_all(entries.places);
        self.owners.put_all(entries.owners);
        self.counts.put_all(entries.counts);
        self.kids.put_all(entries.kids);
    }

    /// The newest place of a row that one of the deltas lists.
    pub fn place(&self, row: Token) -> Option<RowPlace>
        ensures { result ≡ value_at self.now.places (row_key row) }
    {
        self.places.get(row_key(row)).copied()
    }

    /// The owner of a child row that a delta brought.
    pub fn owner(&self, child: Token) -> Option<Token>
        ensures { result ≡ value_at self.now.owners (row_key child) }
    {
        self.owners.get(row_key(child)).copied()
    }

    /// How many children in a child table a row has that gained some.
    pub fn count(&self, owner: Token, table: u8) -> Option<u32>
        ensures { result ≡ value_at self.now.counts (kids_key table owner 0) }
    {
        self.counts.get(kids_key(table, owner, 0)).copied()
    }

    /// A child that a row gained, by its place among all.
    pub fn kid(&self, owner: Token, table: u8, place: u32) -> Option<u32>
        ensures { result ≡ value_at self.now.kids (kids_key table owner place) }
    {
        self.kids.get(kids_key(table, owner, place)).copied()
    }

    /// Appends the children that a row gained to those that it had.
    pub fn push_kids(&self, rows: &mut Vec<u32>, owner: Token, table: u8) -> Result<(), AllocError>
        ensures { IfOk result (λ _. rows.new.items ≡ with_kept rows.old.items (value_at self.now.counts
            (kids_key table owner 0)) (λ i. value_at self.now.kids (kids_key table owner i))) }
    {
        let Some(count) = self.count(owner, table) else {
            return Ok(());
        };
        for i in rows.len()..count as usize {
            push_kept(rows, self.kid(owner, table, i as u32))?;
        }
        Ok(())
    }
}

/// The first deltas.
pub fn front(added: &[Added], n: u32) -> &[Added]
    requires { n ≤ length added.now }
    ensures { result.now ≡ take n added.now }
{
    &added[..n as usize]
}

/// The deltas up to the newest that lists a token, and the token's position there.
pub fn find<'a>(added: &'a [Added], directory: &Directory, token: Token) -> Option<Found<'a>>
    requires { HasPlaces (reverse added.now) directory.now }
    ensures { option_map found_seen result ≡ found_in (reverse added.now) token }
{
    match directory.place(token) {
        None => None,
        Some(place) => Some(Found {
            upto: front(added, place.generation),
            row: place.row,
        }),
    }
}
