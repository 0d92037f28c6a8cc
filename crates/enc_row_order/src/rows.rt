//! The rows of a table in a new order.
ghost use Rattle.std.specs.Prelude.{◌≡◌, ◌+◌, ◌<◌, ◌^◌, true, length, map, slice_get, IfOk};
ghost use Rattle.std.specs.List.{list_all};
ghost use Rattle.enc_row_order.specs.Orders.{place_in_order, old_row};
ghost use Rattle.enc_row_order.specs.Places.{is_row_within, ArePlacedFrom};
ghost use Rattle.enc_rows.specs.Sums.{below};

use std::alloc::{AllocError, Global};
use std::marker::Model;

/// The rows of a table in a new order, and beside them the new place of each row.
#[derive(Drop)]
pub(crate) struct Rows {
    old: Vec<u32>,
    new: Vec<u32>,
}

impl Model for Rows {
    ghost use Rattle.std.specs.Prelude.{ℕ, List};
    ghost use Rattle.enc_row_order.specs.Places.{AreNewPlaces};

    ghost Value = { List ℕ };

    ghost view = { λ r. r.old.items };

    ghost invariant = { λ r. AreNewPlaces r.old.items r.new.items };
}

/// The numbers from 1 on.
#[tactic(auto, using(crate::proofs::Rowed::none_upto, crate::proofs::Rowed::more_upto))]
pub(crate) fn rows_upto(alloc: Global, count: u32) -> Result<Vec<u32>, AllocError>
    ensures { IfOk result (λ v. v.items ≡ map (λ n. n + 1) (below count)) }
{
    let mut rows = Vec::with_capacity(alloc, count as usize)?;
    for n in 0..count {
        rows.push(n + 1)?;
    }
    Ok(rows)
}

/// What stands in a list at a place from 0.
fn number_at(list: &[u32], i: usize) -> Option<u32>
    ensures { result ≡ slice_get list.now i }
{
    list.get(i).copied()
}

/// For each row its place among these.
fn places_of(alloc: Global, old: &[u32]) -> Result<Vec<u32>, AllocError>
    requires few { length old.now < 2 ^ 24 }
    requires rows { list_all (is_row_within (length old.now)) old.now ≡ true }
    ensures { IfOk result (λ v. ArePlacedFrom 0 (length old.now) old.now v.items) }
{
    let mut new = rows_upto(alloc, old.len() as u32)?;
    let mut i = old.len();
    while i > 0 {
        i -= 1;
        let row = old[i];
        new[row as usize - 1] = i as u32 + 1;
    }
    Ok(new)
}

impl Rows {
    /// These rows, each of which is one of the table's.
    pub(crate) fn of(alloc: Global, old: Vec<u32>) -> Result<Rows, AllocError>
        requires few { length old.items < 2 ^ 24 }
        requires rows { list_all (is_row_within (length old.items)) old.items ≡ true }
        ensures { IfOk result (λ r. r ≡ old.items) }
    {
        let new = places_of(alloc, &old)?;
        Ok(Rows { old, new })
    }

    /// The same rows once more.
    pub(crate) fn copied(&self, alloc: Global) -> Result<Rows, AllocError>
        ensures { IfOk result (λ r. r ≡ self.now) }
    {
        Ok(Rows {
            old: Vec::from_slice(alloc, &self.old)?,
            new: Vec::from_slice(alloc, &self.new)?,
        })
    }

    /// The rows in their new order.
    pub(crate) fn as_slice(&self) -> &[u32]
        ensures rows { result.now ≡ self.now }
        ensures few { length result.now < 2 ^ 24 }
        ensures within { list_all (is_row_within (length result.now)) result.now ≡ true }
    {
        &self.old
    }

    /// Where a row goes; what is no row of the table stays.
    pub(crate) fn new_row(&self, row: u32) -> u32
        ensures moved { result ≡ place_in_order self.now row }
        ensures low { row < 2 ^ 24 → result < 2 ^ 24 }
        ensures none { row ≡ 0 → result ≡ 0 }
    {
        let places: &[u32] = &self.new;
        if row == 0 {
            return 0;
        }
        number_at(places, row as usize - 1).unwrap_or(row)
    }

    /// Which row comes to a place; past the last the place itself.
    pub(crate) fn old_row(&self, place: u32) -> u32
        ensures row { result ≡ old_row self.now place }
        ensures low { place < 2 ^ 24 → result < 2 ^ 24 }
    {
        let rows: &[u32] = &self.old;
        if place == 0 {
            return 0;
        }
        number_at(rows, place as usize - 1).unwrap_or(place)
    }
}
