//! The kinds of local variables of two bodies.
ghost use Rattle.std.specs.Prelude.{◌≡◌, [], unwrap_or};
ghost use Rattle.enc_machine_types.specs.Members.{local_kinds};
ghost use Rattle.enc_remap.specs.Remap.{kinds_behind, kind_number};

use enc_base::Token;
use enc_machine_types::{Kinds, local_kinds};
use enc_objects::Kind;
use enc_plain::ModuleView;

/// A number of each kind.
fn kind_number(kind: Kind) -> u8
    ensures { result ≡ kind_number kind }
{
    match kind {
        Kind::I1 => 0,
        Kind::U1 => 1,
        Kind::I2 => 2,
        Kind::U2 => 3,
        Kind::I4 => 4,
        Kind::U4 => 5,
        Kind::I8 => 6,
        Kind::U8 => 7,
        Kind::Ref => 8,
    }
}

/// The kinds behind others, where these are the first of them.
#[tactic(auto, unfolding(crate::specs::Remap::kinds_behind))]
pub(crate) fn kinds_behind<'a>(first: Kinds<'_>, kinds: Kinds<'a>) -> Option<Kinds<'a>>
    ensures { result ≡ kinds_behind first.entry kinds.entry }
{
    let mut left = first;
    let mut behind = kinds;
    while let Some((kind, rest)) = left.split_first() {
        let Some((other, more)) = behind.split_first() else {
            return None;
        };
        if kind_number(kind) != kind_number(other) {
            return None;
        }
        left = rest;
        behind = more;
    }
    Some(behind)
}

/// The kinds of a body's local variables, none where one of them has no kind (ECMA-335 II.25.4.4).
pub(crate) fn kinds_of<V: ModuleView>(view: &V, locals: Token) -> Kinds<'_>
    ensures { result ≡ unwrap_or (local_kinds (V.meaning view.now) locals) [] }
{
    match local_kinds(view, locals) {
        Some(kinds) => kinds,
        None => Kinds::none(),
    }
}
