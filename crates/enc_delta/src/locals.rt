//! Judging the local signatures of a delta's methods.
ghost use Rattle.std.specs.Prelude.{◌≡◌, ◌&&◌, ◌==◌, Some, IfOk, OnOk, not};
ghost use Rattle.enc_base.specs.Order.{first_below};
ghost use Rattle.enc_base.specs.declared.refusal.Place.TheVariants.{Row};
ghost use Rattle.enc_opcodes.specs.Body.{code_seen, begins_locals};
ghost use Rattle.enc_delta.specs.Context.{joined_rows};
ghost use Rattle.enc_delta.specs.Delta.{listed};
ghost use Rattle.enc_delta.specs.Rules.{broken};
ghost use Rattle.enc_delta.specs.Changes.{of_nth, locals_begin, bad_locals_in, bad_locals};
ghost use Rattle.enc_delta.specs.Known.{has_locals_at, HaveLocals};

use crate::context::Context;
use enc_base::tables::{METHOD_DEF, STAND_ALONE_SIG};
use enc_base::{Place, Token};
use enc_opcodes::CodeRef;
use enc_plain::{CellView, ChainView};
use enc_schema::columns::{METHOD_DEF_RVA, STAND_ALONE_SIG_SIGNATURE};
use std::alloc::{AllocError, Global};
use std::collections::BTreeSet;

/// A local signature begins with the byte 07 (ECMA-335 II.23.2.6).
fn begins_locals(blob: &[u8]) -> bool
    ensures { result ≡ begins_locals blob.now }
{
    match blob {
        [first, ..] => *first == 0x07,
        [] => false,
    }
}

/// The body's local signature is nil, or begins as one of locals.
#[tactic(auto, using(enc_plain::proofs::ColumnKinds::alone_kind))]
fn locals_begin<C: ChainView>(context: &Context<'_, C>, code: &CodeRef<'_>) -> bool
    ensures { result ≡ locals_begin (joined_rows context.now) (Some (code_seen code.now)) }
{
    let locals = code.locals;
    locals.row == 0
        || locals.table == STAND_ALONE_SIG
            && begins_locals(context.blob(locals, STAND_ALONE_SIG_SIGNATURE))
}

/// Whether the local signature of the body at a place of the delta's code, if one is there, is one.
fn has_locals_at<C: ChainView>(context: &Context<'_, C>, place: u32) -> bool
    ensures { result ≡ has_locals_at context.now place }
{
    match context.own_code(place) {
        Some(code) => locals_begin(context, &code),
        None => true,
    }
}

/// The same. A body that is known isn't read again, so methods that share a body cost what one does.
#[tactic(auto, using(enc_base::proofs::Passed::one_passes))]
fn has_known_locals<C: ChainView>(
    context: &Context<'_, C>,
    place: u32,
    known: &mut BTreeSet<u32>,
) -> Result<bool, AllocError>
    requires known { HaveLocals context.now known.old }
    ensures good { IfOk result (λ good. good ≡ has_locals_at context.now place) }
    ensures known { OnOk result (HaveLocals context.now known.new) }
{
    if known.contains(&place) {
        return Ok(true);
    }
    if !has_locals_at(context, place) {
        return Ok(false);
    }
    known.insert(place)?;
    Ok(true)
}

/// What is wrong with the local signature of a method.
#[tactic(auto, unfolding(crate::specs::Changes::bad_locals_in))]
fn bad_locals_in<C: ChainView>(
    context: &Context<'_, C>,
    token: Token,
    known: &mut BTreeSet<u32>,
) -> Result<Option<Place>, AllocError>
    requires known { HaveLocals context.now known.old }
    ensures place { IfOk result (λ p. p ≡ bad_locals_in context.now.chain context.now.delta token) }
    ensures known { OnOk result (HaveLocals context.now known.new) }
{
    if token.table != METHOD_DEF {
        return Ok(None);
    }
    let row = Token {
        table: token.table,
        row: context.delta.place(token).unwrap_or(0),
    };
    let place = context.delta.cell(row, METHOD_DEF_RVA);
    match has_known_locals(context, place, known) {
        Err(error) => Err(error),
        Ok(true) => Ok(None),
        Ok(false) => Ok(Some(Place::Row(token))),
    }
}

/// The first method whose local signature isn't one of locals. It reads each body once, whatever the
/// number of methods that share it, and takes memory for the places of the bodies.
#[tactic(auto, using(enc_base::proofs::First::first_steps), unfolding(crate::specs::Changes::bad_locals))]
pub fn bad_locals<C: ChainView>(
    alloc: Global,
    context: &Context<'_, C>,
) -> Result<Option<Place>, AllocError>
    ensures { IfOk result (λ p. p ≡ bad_locals context.now.chain context.now.delta) }
{
    let mut known = BTreeSet::new(alloc);
    let tokens = context.tokens();
    for k in 0..tokens.len() {
        let token = tokens[k];
        match bad_locals_in(context, token, &mut known) {
            Err(error) => return Err(error),
            Ok(Some(place)) => return Ok(Some(place)),
            Ok(None) => {}
        }
    }
    Ok(None)
}
