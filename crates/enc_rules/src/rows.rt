//! The rows that edits are about, and the children that they give to owners.
ghost use Rattle.std.specs.Prelude.{◌≡◌, ◌<◌, ◌^◌, ◌++◌, ℕ, map, take, length, false, option_map, slice_get, slice_index, IfOk, IsTrue, IfSome};
ghost use Rattle.std.specs.List.{list_all};
ghost use Rattle.enc_edit_list.specs.Form.{edit_fits, list_fits};
ghost use Rattle.enc_plain.specs.Sound.{IsSound};
ghost use Rattle.enc_delta.specs.Members.{ArePairs, pair_seen};
ghost use Rattle.enc_rules.specs.Edited.{row_edited, rows_edited, attached_by, attached_in};
ghost use Rattle.enc_rules.specs.First.{first_such};
ghost use Rattle.enc_rules.specs.Listed.{count_after};
ghost use Rattle.enc_rules.specs.Known.{key_of_row};
ghost use Rattle.enc_rules.specs.Rules.{there_are_too_many, row_is_edited_twice};

use crate::context::{Context, ListRows};
use enc_base::{Counts, Token};
use enc_delta::Pair;
use enc_edit_list::{Added, Edit, EditList};
use enc_plain::{ChainView, Viewed};
use enc_schema::is_child_table;
use std::alloc::{AllocError, Global};
use std::collections::BTreeSet;

/// The row that the edit at a place is about: the next of its table, or the method whose body it replaces.
fn row_at<C: ChainView>(chain: &C, added: &Added<'_>, k: usize) -> Token
    requires there { k < length added.now }
    requires few { (t : ℕ) → count_after (C.chain chain.now) added.now t < 2 ^ 24 }
    ensures { option_map (row_edited (C.chain chain.now).plain (take k added.now)) (slice_get added.now k)
        ≡ Some result }
{
    let edits = added.edits();
    let rank = added.rank_at(k);
    match &edits[k] {
        Edit::Add { table, .. } => Token {
            table: *table,
            row: chain.count(*table) + rank as u32 + 1,
        },
        Edit::Body { method, .. } => *method,
    }
}

/// The rows that the edits are about, in order.
#[tactic(auto, using(crate::proofs::RowsEdited::rows_none, crate::proofs::RowsEdited::rows_next))]
fn rows_of<C: ChainView>(
    alloc: Global,
    chain: &C,
    added: &Added<'_>,
) -> Result<Vec<Token>, AllocError>
    requires few { (t : ℕ) → count_after (C.chain chain.now) added.now t < 2 ^ 24 }
    ensures { IfOk result (λ rows. rows.items ≡ rows_edited (C.chain chain.now).plain added.now) }
{
    let mut rows = Vec::new(alloc);
    for k in 0..added.edits().len() {
        rows.push(row_at(chain, added, k))?;
    }
    Ok(rows)
}

/// Puts the child that an edit gives its owner, if it gives one, behind others.
fn push_pair(pairs: &mut Vec<Pair>, edit: &Edit, child: Token) -> Result<(), AllocError>
    ensures { IfOk result (λ _. map pair_seen pairs.new.items
        ≡ map pair_seen pairs.old.items ++ attached_by edit.now child) }
{
    let Edit::Add { table, owner, .. } = edit else {
        return Ok(());
    };
    if !is_child_table(*table) {
        return Ok(());
    }
    pairs.push(Pair {
        owner: *owner,
        child,
    })?;
    Ok(())
}

/// The children that edits give to their owners, in order; each edit with its row.
fn pairs_of<C: ChainView>(
    alloc: Global,
    chain: &C,
    edits: &[Edit],
    rows: &[Token],
) -> Result<Vec<Pair>, AllocError>
    requires form { IsTrue (list_all edit_fits edits.now) }
    requires rows { rows.now ≡ rows_edited (C.chain chain.now).plain edits.now }
    requires few { (t : ℕ) → count_after (C.chain chain.now) edits.now t < 2 ^ 24 }
    ensures pairs { IfOk result (λ p. map pair_seen p.items ≡ attached_in (C.chain chain.now).plain edits.now) }
    ensures few { IfOk result (λ p. ArePairs p.items) }
{
    let _ = chain;
    let mut pairs = Vec::new(alloc);
    for k in 0..edits.len() {
        push_pair(&mut pairs, &edits[k], rows[k])?;
    }
    Ok(pairs)
}

/// How many rows a table has after the list.
#[tactic(auto, unfolding(crate::specs::Listed::count_after))]
fn count_of<C: ChainView>(chain: &C, added: &Added<'_>, table: u8) -> u32
    requires few { count_after (C.chain chain.now) added.now table < 2 ^ 24 }
    ensures { result ≡ count_after (C.chain chain.now) added.now table }
{
    chain.count(table) + added.count(table) as u32
}

/// The same of each table.
fn counts_of<C: ChainView>(chain: &C, added: &Added<'_>) -> Counts
    requires few { (t : ℕ) → count_after (C.chain chain.now) added.now t < 2 ^ 24 }
    ensures { (t : ℕ) → t < 64 → slice_index result.rows t ≡ count_after (C.chain chain.now) added.now t }
{
    let mut counts = Counts { rows: [0; 64] };
    for table in 0..64u8 {
        counts.rows[table as usize] = count_of(chain, added, table);
    }
    counts
}

/// The list, to be judged after the chain.
pub fn context_of<'a, C: ChainView>(
    alloc: Global,
    chain: &'a C,
    list: &'a EditList,
    added: Added<'a>,
) -> Result<Context<'a, C>, AllocError>
    requires sound { IsSound (C.chain chain.now).plain }
    requires form { IsTrue (list_fits list.now) }
    requires edits { added ≡ list.now.edits }
    requires few { there_are_too_many (C.chain chain.now) list.now ≡ false }
    ensures { IfOk result (λ r. r ≡ record { chain = C.chain chain.now; list = list.now }) }
{
    let rows = rows_of(alloc, chain, &added)?;
    let pairs = pairs_of(alloc, chain, added.edits(), &rows)?;
    let counts = counts_of(chain, &added);
    Ok(Context {
        old: Viewed { view: chain },
        list,
        added,
        known: ListRows {
            rows,
            pairs,
            counts,
        },
    })
}

/// A number that no other token has.
fn key_of_row(row: Token) -> u64
    ensures key { result ≡ key_of_row row }
    ensures few { row.row < 2 ^ 32 }
{
    u64::from(row.table) * 0x1_0000_0000 + u64::from(row.row)
}

/// The first edit before which another is about the same row. It takes memory for each row.
pub fn row_is_edited_twice<C: ChainView>(
    alloc: Global,
    context: &Context<'_, C>,
) -> Result<Option<u32>, AllocError>
    ensures first { IfOk result (λ k. k ≡ first_such (row_is_edited_twice context.now.chain context.now.list)
        (length context.now.list.edits)) }
    ensures few { IfOk result (λ k. IfSome k (λ n. n < 2 ^ 24)) }
{
    let mut known = BTreeSet::new(alloc);
    let edits = context.edits();
    let rows = context.rows();
    for k in 0..edits.len() {
        let key = key_of_row(rows[k]);
        if known.contains(&key) {
            return Ok(Some(k as u32));
        }
        known.insert(key)?;
    }
    Ok(None)
}
