//! What the index keeps of each signature of local variables.
ghost use Rattle.std.specs.Prelude.{◌≡◌, ◌+◌, ◌<◌, ◌≤◌, ◌^◌, List, IfOk, length, option_and_then, slice_get};
ghost use Rattle.enc_base.specs.Tables.{stand_alone_sig};
ghost use Rattle.enc_objects.specs.declared.kind.Kind.{Kind as TheKind};
ghost use Rattle.enc_plain.specs.Sound.{row_count};
ghost use Rattle.enc_dispatch.specs.Growth.{EachLater};
ghost use Rattle.enc_dispatch.specs.Stored.{IsLocalsPart};

use crate::locals_part::LocalsPart;
use enc_base::Token;
use enc_base::tables::STAND_ALONE_SIG;
use enc_machine_types::{Kinds, local_kinds};
use enc_objects::Kind;
use enc_plain::ModuleView;
use std::alloc::{AllocError, Global};

/// The kind at a place, None where there are no kinds.
fn nth_kind(kinds: &Option<Kinds<'_>>, n: u32) -> Option<Kind>
    ensures { result ≡ option_and_then (λ (ks : List TheKind). slice_get ks n) kinds.now }
{
    match kinds {
        None => None,
        Some(kinds) => kinds.get(n),
    }
}

/// The part of the n-th signature, from 0 (ECMA-335 II.22.36).
fn locals_part<V: ModuleView>(view: &V, n: u32) -> LocalsPart
    requires { n < 2 ^ 24 }
    ensures { IsLocalsPart (V.meaning view.now) n result }
{
    let signature = Token {
        table: STAND_ALONE_SIG,
        row: n + 1,
    };
    let all = local_kinds(view, signature);
    LocalsPart {
        kinds: [
            nth_kind(&all, 0),
            nth_kind(&all, 1),
            nth_kind(&all, 2),
            nth_kind(&all, 3),
            nth_kind(&all, 4),
            nth_kind(&all, 5),
            nth_kind(&all, 6),
            nth_kind(&all, 7),
        ],
    }
}

/// The parts of all signatures behind the first so many. It takes memory for each.
#[tactic(auto, using(crate::proofs::Each::each_none))]
pub(crate) fn locals_of<V: ModuleView>(
    alloc: Global,
    view: &V,
    read: u32,
) -> Result<Vec<LocalsPart>, AllocError>
    requires { read ≤ row_count (V.meaning view.now) stand_alone_sig }
    ensures count { IfOk result (λ l. read + length l.items ≡ row_count (V.meaning view.now) stand_alone_sig) }
    ensures locals { IfOk result (λ l. EachLater (IsLocalsPart (V.meaning view.now)) read l.items) }
{
    let mut locals = Vec::new(alloc);
    for k in 0..view.count(STAND_ALONE_SIG) - read {
        locals.push(locals_part(view, read + k))?;
    }
    Ok(locals)
}
