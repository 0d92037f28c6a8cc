//! The members of the owners that children are added to.
ghost use Rattle.std.specs.Prelude.{◌≡◌, ◌++◌, ◌&&◌, Bool, map, filter, IfOk};
ghost use Rattle.std.specs.List.{list_any};
ghost use Rattle.enc_delta.specs.Members.{is_beside, beside_last, row_beside, old_rows, AreAdded, AreOld};

use crate::pairs::Pair;
use crate::twins::Members;
use enc_base::Token;
use enc_plain::{ChainView, ModuleView, is_row};
use enc_schema::{is_child_table, owner_table};
use std::alloc::{AllocError, Global};

/// Whether the children of two pairs have one owner and one table.
pub fn is_beside(pair: Pair, other: Pair) -> bool
    ensures { result ≡ is_beside pair other }
{
    other.owner == pair.owner && other.child.table == pair.child.table
}

/// The same of the last pair, where there is one.
fn is_beside_last(last: Option<Pair>, pair: Pair) -> bool
    ensures { result ≡ beside_last last pair }
{
    match last {
        Some(other) => is_beside(pair, other),
        None => false,
    }
}

/// The pairs whose children count.
fn counting<M: Members>(alloc: Global, members: &M, pairs: &[Pair]) -> Result<Vec<Pair>, AllocError>
    ensures { IfOk result (λ l. l.items ≡ filter (λ (k : Pair). (M.asked members.now).counts k.child) pairs.now) }
{
    let mut kept = Vec::new(alloc);
    for k in 0..pairs.len() {
        let pair = pairs[k];
        if members.counts(pair.child) {
            kept.push(pair)?;
        }
    }
    Ok(kept)
}

/// The pairs whose children count, those of one owner and one table in a row.
fn grouped<M: Members>(alloc: Global, members: &M, pairs: &[Pair]) -> Result<Vec<Pair>, AllocError>
    ensures { IfOk result (λ l. (f : Pair → Bool)
        → list_any f l.items ≡ list_any (λ (k : Pair). (M.asked members.now).counts k.child && f k) pairs.now) }
{
    let mut kept = counting(alloc, members, pairs)?;
    kept.sort_unstable_by_key(|pair| (pair.owner, pair.child.table));
    Ok(kept)
}

/// The rows of the old members beside a pair's child.
#[tactic(auto, unfolding(crate::specs::Members::old_rows, enc_plain::specs::Module::kids_of))]
fn old_rows<C: ChainView>(alloc: Global, chain: &C, pair: Pair) -> Result<Vec<u32>, AllocError>
    ensures { IfOk result (λ l. l.items ≡ old_rows (C.chain chain.now).plain pair) }
{
    let table = pair.child.table;
    if !is_child_table(table) {
        return Ok(Vec::new(alloc));
    }
    if pair.owner.table != owner_table(table) {
        return Ok(Vec::new(alloc));
    }
    if !is_row(chain, pair.owner) {
        return Ok(Vec::new(alloc));
    }
    chain.kid_rows(alloc, pair.owner, table)
}

/// Adds a pair beside another for each of some rows.
fn add_rows(all: &mut Vec<Pair>, pair: Pair, rows: &[u32]) -> Result<(), AllocError>
    ensures { IfOk result (λ _. all.new.items ≡ all.old.items ++ map (row_beside pair) rows.now) }
{
    for k in 0..rows.len() {
        let child = Token {
            table: pair.child.table,
            row: rows[k],
        };
        all.push(Pair {
            owner: pair.owner,
            child,
        })?;
    }
    Ok(())
}

/// Adds the old members beside a pair's child.
fn add_old<C: ChainView>(
    alloc: Global,
    chain: &C,
    all: &mut Vec<Pair>,
    pair: Pair,
) -> Result<(), AllocError>
    ensures { IfOk result (λ _. all.new.items
        ≡ all.old.items ++ map (row_beside pair) (old_rows (C.chain chain.now).plain pair)) }
{
    let rows = old_rows(alloc, chain, pair)?;
    add_rows(all, pair, &rows)
}

/// Adds the old members beside each of the pairs, once for those of one owner and one table in a
/// row.
fn add_all_old<C: ChainView>(
    alloc: Global,
    chain: &C,
    all: &mut Vec<Pair>,
    pairs: &[Pair],
) -> Result<(), AllocError>
    ensures { IfOk result (λ _. AreAdded (C.chain chain.now).plain all.old.items pairs.now all.new.items) }
{
    let mut last: Option<Pair> = None;
    for k in 0..pairs.len() {
        let pair = pairs[k];
        if !is_beside_last(last, pair) {
            add_old(alloc, chain, all, pair)?;
            last = Some(pair);
        }
    }
    Ok(())
}

/// The old members beside those of the pairs whose children count.
pub fn old_members<C: ChainView, M: Members>(
    alloc: Global,
    chain: &C,
    members: &M,
    pairs: &[Pair],
) -> Result<Vec<Pair>, AllocError>
    ensures { IfOk result (λ old. AreOld (M.asked members.now) (C.chain chain.now).plain pairs.now old.items) }
{
    let grouped = grouped(alloc, members, pairs)?;
    let mut old = Vec::new(alloc);
    add_all_old(alloc, chain, &mut old, &grouped)?;
    Ok(old)
}
