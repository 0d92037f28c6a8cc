//! Judging the bodies of a delta's methods.
ghost use Rattle.std.specs.Prelude.{◌≡◌, ◌<◌, ◌^◌, Some, IfOk, OnOk, length, slice_get};
ghost use Rattle.enc_base.specs.Order.{first_below};
ghost use Rattle.enc_opcodes.specs.Body.{code_seen};
ghost use Rattle.enc_plain.specs.Bodies.{code_is_good, body_is_good};
ghost use Rattle.enc_plain.specs.Module.{cell_of};
ghost use Rattle.enc_delta.specs.Delta.{listed, of_table};
ghost use Rattle.enc_delta.specs.Rules.{rows_with, users_after, has_body, broken_body_at, broken_body, lost_body_at, lost_body};
ghost use Rattle.enc_delta.specs.Known.{is_delta_body, AreDeltaBodies};
ghost use Rattle.enc_base.specs.Tables.{method_def};

use crate::cells::next_of;
use crate::context::Context;
use crate::delta::nth_row;
use enc_base::tables::METHOD_DEF;
use enc_base::{Place, Token};
use enc_il::is_good_body;
use enc_opcodes::CodeRef;
use enc_plain::{ChainView, is_row};
use enc_schema::columns::{METHOD_DEF_IMPL_FLAGS, METHOD_DEF_RVA};
use std::alloc::{AllocError, Global};
use std::collections::BTreeSet;

/// The body is good by the rows after the delta, and the user texts that it names are there.
fn is_whole<C: ChainView>(
    alloc: Global,
    context: &Context<'_, C>,
    code: &CodeRef<'_>,
) -> Result<bool, AllocError>
    requires few { length code.now.code.now < 2 ^ 32 }
    ensures { IfOk result (λ good. good ≡ code_is_good (rows_with context.now.chain (listed context.now.delta))
        (users_after context.now.chain context.now.delta) (Some (code_seen code.now))) }
{
    is_good_body(alloc, code, context.counts(), context)
}

/// Whether a good body stands at a place of the delta's code.
fn is_body_at<C: ChainView>(
    alloc: Global,
    context: &Context<'_, C>,
    place: u32,
) -> Result<bool, AllocError>
    ensures { IfOk result (λ good. good ≡ is_delta_body context.now place) }
{
    match context.own_code(place) {
        Some(code) => is_whole(alloc, context, &code),
        None => Ok(false),
    }
}

/// The same. A body that is known isn't read again, so methods that share a body cost what one does.
#[tactic(auto, using(enc_base::proofs::Passed::one_passes))]
fn is_known_body<C: ChainView>(
    alloc: Global,
    context: &Context<'_, C>,
    place: u32,
    known: &mut BTreeSet<u32>,
) -> Result<bool, AllocError>
    requires known { AreDeltaBodies context.now known.old }
    ensures good { IfOk result (λ good. good ≡ is_delta_body context.now place) }
    ensures known { OnOk result (AreDeltaBodies context.now known.new) }
{
    if known.contains(&place) {
        return Ok(true);
    }
    if !is_body_at(alloc, context, place)? {
        return Ok(false);
    }
    known.insert(place)?;
    Ok(true)
}

/// The method with this place and these flags has no body, or a good one.
#[tactic(auto, unfolding(enc_plain::specs::Bodies::body_is_good))]
fn is_good<C: ChainView>(
    alloc: Global,
    context: &Context<'_, C>,
    place: u32,
    flags: u32,
    known: &mut BTreeSet<u32>,
) -> Result<bool, AllocError>
    requires known { AreDeltaBodies context.now known.old }
    ensures good { IfOk result (λ good. good ≡ body_is_good (rows_with context.now.chain (listed context.now.delta))
        (users_after context.now.chain context.now.delta) context.now.delta.loaded place flags) }
    ensures known { OnOk result (AreDeltaBodies context.now known.new) }
{
    if place == 0 {
        return Ok(true);
    }
    if flags % 4 != 0 {
        return Ok(false);
    }
    is_known_body(alloc, context, place, known)
}

/// What is wrong with the body of row r, from 0; its token is the r-th of the methods.
#[tactic(auto, unfolding(crate::specs::Rules::broken_body_at, crate::specs::Rules::body_stands))]
fn broken_body_at<C: ChainView>(
    alloc: Global,
    context: &Context<'_, C>,
    r: u32,
    token: Token,
    known: &mut BTreeSet<u32>,
) -> Result<Option<Place>, AllocError>
    requires few { r < 2 ^ 24 }
    requires token { slice_get (of_table method_def (listed context.now.delta)) r ≡ Some token }
    requires known { AreDeltaBodies context.now known.old }
    ensures place { IfOk result (λ p. p ≡ broken_body_at context.now.chain context.now.delta r) }
    ensures known { OnOk result (AreDeltaBodies context.now known.new) }
{
    let row = nth_row(METHOD_DEF, r);
    let place = context.delta.cell(row, METHOD_DEF_RVA);
    let flags = context.delta.cell(row, METHOD_DEF_IMPL_FLAGS);
    match is_good(alloc, context, place, flags, known) {
        Err(error) => Err(error),
        Ok(true) => Ok(None),
        Ok(false) => Ok(Some(Place::Row(token))),
    }
}

/// The first method whose body isn't good. It goes over the methods once and reads each body once,
/// whatever the number of methods that share it. It takes memory for a mark for each byte of one
/// body's code at a time, for its targets and texts, and for the places of the bodies.
#[tactic(auto, using(enc_base::proofs::First::first_steps), unfolding(crate::specs::Rules::broken_body))]
pub fn broken_body<C: ChainView>(
    alloc: Global,
    context: &Context<'_, C>,
) -> Result<Option<Place>, AllocError>
    ensures { IfOk result (λ p. p ≡ broken_body context.now.chain context.now.delta) }
{
    let mut known = BTreeSet::new(alloc);
    let mut rest = context.tokens();
    for r in 0..context.own_count(METHOD_DEF) {
        let [token, tail @ ..] = next_of(rest, METHOD_DEF) else {
            return Ok(None);
        };
        match broken_body_at(alloc, context, r, *token, &mut known) {
            Err(error) => return Err(error),
            Ok(Some(place)) => return Ok(Some(place)),
            Ok(None) => {}
        }
        rest = tail;
    }
    Ok(None)
}

/// The method has a body before the delta.
fn has_body<C: ChainView>(chain: &C, method: Token) -> bool
    requires table { method.table ≡ method_def }
    ensures { result ≡ has_body (cell_of (C.chain chain.now).plain method 0) }
{
    if !is_row(chain, method) {
        return false;
    }
    chain.code(method).is_some()
}

/// What is wrong with row r, from 0: it has no place for the body that its method had.
#[tactic(auto, unfolding(crate::specs::Rules::lost_body_at))]
fn lost_body_at<C: ChainView>(context: &Context<'_, C>, r: u32, token: Token) -> Option<Place>
    requires few { r < 2 ^ 24 }
    requires table { token.table ≡ method_def }
    requires token { slice_get (of_table method_def (listed context.now.delta)) r ≡ Some token }
    ensures { result ≡ lost_body_at context.now.chain context.now.delta r }
{
    if context.delta.cell(nth_row(METHOD_DEF, r), METHOD_DEF_RVA) == 0
        && has_body(context.old.view, token)
    {
        return Some(Place::Row(token));
    }
    None
}

/// The first method with no place for a body where it had one. It goes over the methods once.
#[tactic(auto, using(enc_base::proofs::First::first_steps), unfolding(crate::specs::Rules::lost_body))]
pub fn lost_body<C: ChainView>(context: &Context<'_, C>) -> Option<Place>
    ensures { result ≡ lost_body context.now.chain context.now.delta }
{
    let mut rest = context.tokens();
    for r in 0..context.own_count(METHOD_DEF) {
        let [token, tail @ ..] = next_of(rest, METHOD_DEF) else {
            return None;
        };
        match lost_body_at(context, r, *token) {
            Some(place) => return Some(place),
            None => {}
        }
        rest = tail;
    }
    None
}
