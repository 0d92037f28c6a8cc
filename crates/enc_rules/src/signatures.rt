//! The signatures of added rows, and the local signatures of bodies.
ghost use Rattle.std.specs.Prelude.{◌≡◌, ◌<◌, ◌^◌, length, IfSome, IsTrue, option_map};
ghost use Rattle.enc_opcodes.specs.Body.{begins_locals};
ghost use Rattle.enc_delta.specs.Changes.{are_locals};
ghost use Rattle.enc_rules.specs.First.{first_such};
ghost use Rattle.enc_rules.specs.Known.{listed_counts, listed_rows};
ghost use Rattle.enc_rules.specs.Listed.{body_given};
ghost use Rattle.enc_rules.specs.Rules.{new_signature_breaks, signature_is_bad, locals_break, locals_are_bad};
ghost use Rattle.enc_rules.specs.Told.{is_about};

use crate::context::Context;
use enc_base::Token;
use enc_base::tables::STAND_ALONE_SIG;
use enc_edit_list::{BodyValue, Edit};
use enc_plain::{CellView, ChainView, is_signature, signature_column};
use enc_schema::columns::STAND_ALONE_SIG_SIGNATURE;

/// The edit adds a row whose signature isn't one.
fn signature_breaks<C: ChainView>(context: &Context<'_, C>, edit: &Edit, row: Token) -> bool
    requires { IsTrue (is_about edit.now row) }
    ensures { result ≡ new_signature_breaks (listed_counts context.now) (listed_rows context.now) edit.now row }
{
    let Edit::Add { table, .. } = edit else {
        return false;
    };
    let Some(column) = signature_column(*table) else {
        return false;
    };
    !is_signature(row.table, context.blob(row, column), context.counts())
}

/// The first edit that adds a row whose signature isn't one.
#[tactic(auto, using(crate::proofs::EditAt::such_none))]
pub fn signature_is_bad<C: ChainView>(context: &Context<'_, C>) -> Option<u32>
    ensures first { result ≡ first_such (signature_is_bad context.now.chain context.now.list)
        (length context.now.list.edits) }
    ensures few { IfSome result (λ n. n < 2 ^ 24) }
{
    let edits = context.edits();
    let rows = context.rows();
    for k in 0..edits.len() {
        if signature_breaks(context, &edits[k], rows[k]) {
            return Some(k as u32);
        }
    }
    None
}

/// The body that an edit gives a method.
pub fn body_given(edit: &Edit) -> Option<&BodyValue>
    ensures { option_map (λ b. b.now) result ≡ body_given edit.now }
{
    match edit {
        Edit::Add { code, .. } => code.as_ref(),
        Edit::Body { code, .. } => Some(code),
    }
}

/// A local signature begins with the byte 07 (ECMA-335 II.23.2.6).
fn begins_locals(blob: &[u8]) -> bool
    ensures { result ≡ begins_locals blob.now }
{
    match blob {
        [first, ..] => *first == 0x07,
        [] => false,
    }
}

/// The local signature is nil, or begins as one of locals.
#[tactic(auto, using(crate::proofs::EditAt::alone_kind))]
fn are_locals<C: ChainView>(context: &Context<'_, C>, locals: Token) -> bool
    ensures { result ≡ are_locals (listed_rows context.now) locals }
{
    locals.row == 0
        || locals.table == STAND_ALONE_SIG
            && begins_locals(context.blob(locals, STAND_ALONE_SIG_SIGNATURE))
}

/// The edit's body has a local signature that isn't one of locals.
fn locals_break<C: ChainView>(context: &Context<'_, C>, edit: &Edit) -> bool
    ensures { result ≡ locals_break (listed_rows context.now) (body_given edit.now) }
{
    match body_given(edit) {
        Some(code) => !are_locals(context, code.locals),
        None => false,
    }
}

/// The first edit whose body has a local signature that isn't one of locals.
#[tactic(auto, using(crate::proofs::EditAt::such_none))]
pub fn locals_are_bad<C: ChainView>(context: &Context<'_, C>) -> Option<u32>
    ensures first { result ≡ first_such (locals_are_bad context.now.chain context.now.list)
        (length context.now.list.edits) }
    ensures few { IfSome result (λ n. n < 2 ^ 24) }
{
    let edits = context.edits();
    for k in 0..edits.len() {
        if locals_break(context, &edits[k]) {
            return Some(k as u32);
        }
    }
    None
}
