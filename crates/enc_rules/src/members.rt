//! New members, by the types that gain them and by their siblings.
ghost use Rattle.std.specs.Prelude.{◌≡◌, ◌==◌, ◌<◌, ◌^◌, map, filter, length, IfOk, IfSome};
ghost use Rattle.enc_delta.specs.Changes.{is_out_of_layout, has_no_slot};
ghost use Rattle.enc_delta.specs.Members.{ArePairs, pair_seen};
ghost use Rattle.enc_plain.specs.Apply.{Attached};
ghost use Rattle.enc_rules.specs.Edited.{attached_in};
ghost use Rattle.enc_rules.specs.First.{first_such};
ghost use Rattle.enc_rules.specs.Known.{listed_rows};
ghost use Rattle.enc_rules.specs.Rules.{of_child, field_is_out_of_layout, method_has_no_slot, member_has_twin};
ghost use Rattle.enc_rules.specs.Told.{adds_row, adds_child, has_twin_in, row_of_place, earlier};

use crate::context::Context;
use enc_base::tables::{EVENT, FIELD, METHOD_DEF, PROPERTY};
use enc_base::{Place, Token};
use enc_delta::{Pair, has_no_slot, is_out_of_layout, twin_among};
use enc_edit_list::Edit;
use enc_plain::ChainView;
use enc_schema::is_child_table;
use std::alloc::{AllocError, Global};

/// The edit adds a field to a type that was there and has no place for it.
#[tactic(auto, using(crate::proofs::Children::child_judged))]
fn field_breaks<C: ChainView>(context: &Context<'_, C>, edit: &Edit, row: Token) -> bool
    ensures { result ≡ of_child (is_out_of_layout context.now.chain (listed_rows context.now)) edit.now row }
{
    let Edit::Add { table, owner, .. } = edit else {
        return false;
    };
    let pair = Pair {
        owner: *owner,
        child: row,
    };
    is_child_table(*table) && is_out_of_layout(context.old.view, context, pair)
}

/// The first edit that adds a field to a type that was there and has no place for it.
#[tactic(auto, using(crate::proofs::EditAt::such_none))]
pub fn field_is_out_of_layout<C: ChainView>(context: &Context<'_, C>) -> Option<u32>
    ensures first { result ≡ first_such (field_is_out_of_layout context.now.chain context.now.list)
        (length context.now.list.edits) }
    ensures few { IfSome result (λ n. n < 2 ^ 24) }
{
    let edits = context.edits();
    let rows = context.rows();
    for k in 0..edits.len() {
        if field_breaks(context, &edits[k], rows[k]) {
            return Some(k as u32);
        }
    }
    None
}

/// The edit adds a method to a type that was there and has no place for it.
#[tactic(auto, using(crate::proofs::Children::child_judged))]
fn method_breaks<C: ChainView>(context: &Context<'_, C>, edit: &Edit, row: Token) -> bool
    ensures { result ≡ of_child (has_no_slot context.now.chain (listed_rows context.now)) edit.now row }
{
    let Edit::Add { table, owner, .. } = edit else {
        return false;
    };
    let pair = Pair {
        owner: *owner,
        child: row,
    };
    is_child_table(*table) && has_no_slot(context.old.view, context, pair)
}

/// The first edit that adds a method to a type that was there and has no place for it.
#[tactic(auto, using(crate::proofs::EditAt::such_none))]
pub fn method_has_no_slot<C: ChainView>(context: &Context<'_, C>) -> Option<u32>
    ensures first { result ≡ first_such (method_has_no_slot context.now.chain context.now.list)
        (length context.now.list.edits) }
    ensures few { IfSome result (λ n. n < 2 ^ 24) }
{
    let edits = context.edits();
    let rows = context.rows();
    for k in 0..edits.len() {
        if method_breaks(context, &edits[k], rows[k]) {
            return Some(k as u32);
        }
    }
    None
}

/// The edit adds this row.
fn adds_row(child: Token, edit: &Edit, row: Token) -> bool
    ensures { result ≡ adds_row child edit.now row }
{
    match edit {
        Edit::Add { .. } => row.table == child.table && row.row == child.row,
        Edit::Body { .. } => false,
    }
}

/// The first edit that adds this row.
#[tactic(auto, using(crate::proofs::EditAt::such_none))]
fn edit_of<C: ChainView>(context: &Context<'_, C>, child: Token) -> Option<u32>
    ensures first { result ≡ first_such (adds_child child context.now.chain context.now.list)
        (length context.now.list.edits) }
    ensures few { IfSome result (λ n. n < 2 ^ 24) }
{
    let edits = context.edits();
    let rows = context.rows();
    for k in 0..edits.len() {
        if adds_row(child, &edits[k], rows[k]) {
            return Some(k as u32);
        }
    }
    None
}

/// The row at a place.
fn row_of_place(place: Place) -> Token
    ensures { result ≡ row_of_place place }
{
    match place {
        Place::Row(token) => token,
        _ => Token { table: 0, row: 0 },
    }
}

/// The pairs with a child of a table.
fn pairs_in(alloc: Global, pairs: &[Pair], table: u8) -> Result<Vec<Pair>, AllocError>
    requires { ArePairs pairs.now }
    ensures pairs { IfOk result (λ p. map pair_seen p.items ≡ filter (λ (a : Attached). a.child.table == table)
        (map pair_seen pairs.now)) }
    ensures rows { IfOk result (λ p. ArePairs p.items) }
{
    let mut chosen = Vec::new(alloc);
    for k in 0..pairs.len() {
        let pair = pairs[k];
        if pair.child.table == table {
            chosen.push(pair)?;
        }
    }
    Ok(chosen)
}

/// The first edit that adds a member of a table with a sibling of equal name and, but for an event, alike
/// signature. The rows of a table rise with the edits, so it is the edit of the least of them.
fn first_in<C: ChainView>(
    alloc: Global,
    context: &Context<'_, C>,
    table: u8,
) -> Result<Option<u32>, AllocError>
    ensures first { IfOk result (λ k. k ≡ first_such (has_twin_in table context.now.chain context.now.list)
        (length context.now.list.edits)) }
    ensures few { IfOk result (λ k. IfSome k (λ n. n < 2 ^ 24)) }
{
    let pairs = pairs_in(alloc, context.pairs(), table)?;
    match twin_among(alloc, context.old.view, context, &pairs) {
        Err(error) => Err(error),
        Ok(Some(place)) => Ok(edit_of(context, row_of_place(place))),
        Ok(None) => Ok(None),
    }
}

/// The lesser of two places that may not be there.
fn earlier(a: Option<u32>, b: Option<u32>) -> Option<u32>
    requires a { IfSome a (λ n. n < 2 ^ 24) }
    requires b { IfSome b (λ n. n < 2 ^ 24) }
    ensures earlier { result ≡ earlier a b }
    ensures few { IfSome result (λ n. n < 2 ^ 24) }
{
    let Some(m) = a else {
        return b;
    };
    match b {
        None => Some(m),
        Some(n) => {
            if m <= n {
                return Some(m);
            }
            Some(n)
        }
    }
}

/// The first edit that adds a member with a sibling of equal name and, but for an event, alike signature.
/// It takes memory as `twin_among` does, for the members of one table at a time.
pub fn member_has_twin<C: ChainView>(
    alloc: Global,
    context: &Context<'_, C>,
) -> Result<Option<u32>, AllocError>
    ensures first { IfOk result (λ k. k ≡ first_such (member_has_twin context.now.chain context.now.list)
        (length context.now.list.edits)) }
    ensures few { IfOk result (λ k. IfSome k (λ n. n < 2 ^ 24)) }
{
    let fields = first_in(alloc, context, FIELD)?;
    let methods = first_in(alloc, context, METHOD_DEF)?;
    let properties = first_in(alloc, context, PROPERTY)?;
    let events = first_in(alloc, context, EVENT)?;
    Ok(earlier(earlier(fields, methods), earlier(properties, events)))
}
