//! Rows in the order of keys.
ghost use Rattle.std.specs.Prelude.{◌≡◌, map, IfOk};
ghost use Rattle.enc_row_order.specs.Keyed.{entry_row, sorted_key};
ghost use Rattle.enc_row_order.specs.Sorted.{sorted_by};

use std::alloc::{AllocError, Global};

/// A row with the number by which it goes.
#[derive(Clone, Copy, Debug, PartialEq, Eq)]
pub(crate) struct KeyedRow {
    pub(crate) key: u64,
    pub(crate) row: u32,
}

/// The entries in the order of their keys, ties as they stand.
#[tactic(auto, using(crate::proofs::OneOrder::sorted_is))]
fn sorted(mut entries: Vec<KeyedRow>) -> Result<Vec<KeyedRow>, AllocError>
    ensures { IfOk result (λ v. v.items ≡ sorted_by sorted_key entries.items) }
{
    entries.sort_by_key(|entry| entry.key)?;
    Ok(entries)
}

/// The rows of entries.
fn rows_of(alloc: Global, entries: &[KeyedRow]) -> Result<Vec<u32>, AllocError>
    ensures { IfOk result (λ v. v.items ≡ map entry_row entries.now) }
{
    let mut rows = Vec::with_capacity(alloc, entries.len())?;
    for i in 0..entries.len() {
        let entry = entries[i];
        rows.push(entry.row)?;
    }
    Ok(rows)
}

/// The rows of entries in the order of their keys, ties as they stand.
pub(crate) fn sorted_rows(alloc: Global, entries: Vec<KeyedRow>) -> Result<Vec<u32>, AllocError>
    ensures { IfOk result (λ v. v.items ≡ map entry_row (sorted_by sorted_key entries.items)) }
{
    let entries = sorted(entries)?;
    rows_of(alloc, &entries)
}
