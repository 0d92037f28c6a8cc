//! Judging the signatures of a delta's rows.
ghost use Rattle.std.specs.Prelude.{◌≡◌, true, IfOk, OnOk, Some, length};
ghost use Rattle.enc_base.specs.Order.{first_below};
ghost use Rattle.enc_plain.specs.Cell.{blobs, kind_in};
ghost use Rattle.enc_plain.specs.Rows.{bytes_at};
ghost use Rattle.enc_plain.specs.Signatures.{is_signature};
ghost use Rattle.enc_delta.specs.Context.{joined_rows};
ghost use Rattle.enc_delta.specs.Delta.{listed};
ghost use Rattle.enc_delta.specs.Rules.{rows_with};
ghost use Rattle.enc_delta.specs.Changes.{of_nth, bad_signature_in, bad_signature};
ghost use Rattle.enc_delta.specs.Known.{is_joined_signature, AreJoinedSignatures};

use crate::context::Context;
use enc_base::{Place, Token};
use enc_plain::{CellView, ChainView, is_signature, signature_column};
use std::alloc::{AllocError, Global};
use std::collections::BTreeSet;

/// The offsets at which signatures of a table stand, as far as is known. EncMap rises, so the rows of
/// a table are judged one behind the other.
#[derive(Drop)]
pub struct Signatures {
    pub table: u8,
    pub offsets: BTreeSet<u32>,
}

/// Whether a blob is a signature of the table.
#[tactic(auto, using(crate::proofs::SignaturesAfter::judged_alike))]
fn is_one<C: ChainView>(context: &Context<'_, C>, table: u8, blob: &[u8]) -> bool
    ensures { result ≡ is_signature (rows_with context.now.chain (listed context.now.delta)) table blob.now }
{
    is_signature(table, blob, context.counts())
}

/// Whether a signature of the known ones' table stands at an offset of the joined `#Blob`. One that is
/// known isn't read again, so rows that share a signature cost what one does.
#[tactic(auto, using(enc_base::proofs::Passed::one_passes))]
fn is_known_signature<C: ChainView>(
    context: &Context<'_, C>,
    offset: u32,
    known: &mut Signatures,
) -> Result<bool, AllocError>
    requires known { AreJoinedSignatures context.now known.old }
    ensures good { IfOk result (λ good. good ≡ is_joined_signature context.now known.old.table offset) }
    ensures known { OnOk result (AreJoinedSignatures context.now known.new) }
{
    if known.offsets.contains(&offset) {
        return Ok(true);
    }
    if !is_one(context, known.table, context.blob_or_none(offset)) {
        return Ok(false);
    }
    known.offsets.insert(offset)?;
    Ok(true)
}

/// Whether a signature of a table stands at an offset of the joined `#Blob`. Those of another table
/// are forgotten.
#[tactic(auto, using(enc_base::proofs::Passed::none_pass))]
fn is_signature_at<C: ChainView>(
    context: &Context<'_, C>,
    table: u8,
    offset: u32,
    known: &mut Signatures,
) -> Result<bool, AllocError>
    requires known { AreJoinedSignatures context.now known.old }
    ensures good { IfOk result (λ good. good ≡ is_joined_signature context.now table offset) }
    ensures known { OnOk result (AreJoinedSignatures context.now known.new) }
{
    if table == known.table {
        return is_known_signature(context, offset, known);
    }
    known.table = table;
    known.offsets.clear();
    is_known_signature(context, offset, known)
}

/// Whether a row's signature is one by the rows after the delta.
fn is_row_signature<C: ChainView>(
    context: &Context<'_, C>,
    token: Token,
    column: u8,
    known: &mut Signatures,
) -> Result<bool, AllocError>
    requires column { kind_in token.table column ≡ Some blobs }
    requires known { AreJoinedSignatures context.now known.old }
    ensures good { IfOk result (λ good. good ≡ is_signature (rows_with context.now.chain (listed context.now.delta))
        token.table (bytes_at (joined_rows context.now) token column)) }
    ensures known { OnOk result (AreJoinedSignatures context.now known.new) }
{
    match context.delta.place(token) {
        Some(place) => is_signature_at(
            context,
            token.table,
            context.own(token, place, column),
            known,
        ),
        None => Ok(is_one(context, token.table, context.blob(token, column))),
    }
}

/// The place of a row's signature that isn't one by the context after the delta.
#[tactic(auto, unfolding(crate::specs::Changes::bad_signature_in, crate::specs::Changes::bad_signature_at))]
fn bad_signature_in<C: ChainView>(
    context: &Context<'_, C>,
    token: Token,
    known: &mut Signatures,
) -> Result<Option<Place>, AllocError>
    requires known { AreJoinedSignatures context.now known.old }
    ensures place { IfOk result (λ p. p ≡ bad_signature_in context.now.chain context.now.delta token) }
    ensures known { OnOk result (AreJoinedSignatures context.now known.new) }
{
    let Some(column) = signature_column(token.table) else {
        return Ok(None);
    };
    match is_row_signature(context, token, column, known) {
        Err(error) => Err(error),
        Ok(true) => Ok(None),
        Ok(false) => Ok(Some(Place::Cell(token, column))),
    }
}

/// The first signature that isn't one. It reads each signature of a table once, whatever the number of
/// rows that share it, and takes memory for the offsets of one table's.
#[tactic(auto, using(enc_base::proofs::First::first_steps), unfolding(crate::specs::Changes::bad_signature))]
pub fn bad_signature<C: ChainView>(
    alloc: Global,
    context: &Context<'_, C>,
) -> Result<Option<Place>, AllocError>
    ensures { IfOk result (λ p. p ≡ bad_signature context.now.chain context.now.delta) }
{
    let mut known = Signatures {
        table: 0,
        offsets: BTreeSet::new(alloc),
    };
    let tokens = context.tokens();
    for k in 0..tokens.len() {
        let token = tokens[k];
        match bad_signature_in(context, token, &mut known) {
            Err(error) => return Err(error),
            Ok(Some(place)) => return Ok(Some(place)),
            Ok(None) => {}
        }
    }
    Ok(None)
}
