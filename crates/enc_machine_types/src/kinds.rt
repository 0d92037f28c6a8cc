//! Kinds that stand one behind the other in a blob.
ghost use Rattle.std.specs.Prelude.{◌≡◌, List, [], ◌∷◌, length, slice_get, option_map};
ghost use Rattle.enc_sigs.specs.Grammar.{many};
ghost use Rattle.enc_machine_types.specs.Fronts.{kind_front, parameter_kinds, kinds_at, all_kinds, nth_of};

use crate::front::{kind_front, parameter_front, past_kinds, past_parameters};
use enc_objects::Kind;
use std::marker::Model;

/// The kinds of parameters, or of local variables, as they stand in a signature. No call takes memory.
#[derive(Drop)]
pub struct Kinds<'a> {
    count: u32,
    bytes: &'a [u8],
}

impl<'a> Model for Kinds<'a> {
    ghost use Rattle.std.specs.Prelude.{◌≡◌, List, length};
    ghost use Rattle.enc_objects.specs.declared.kind.Kind.{Kind as OneKind};

    ghost Value = { List OneKind };

    ghost use Rattle.enc_machine_types.specs.Fronts.{kinds_at};

    ghost view = { λ k. kinds_at k.count k.bytes.now };

    // each of the types has a kind
    ghost invariant = { λ k. length (kinds_at k.count k.bytes.now) ≡ k.count };
}

impl<'a> Kinds<'a> {
    /// No kinds.
    #[tactic(auto, unfolding(crate::specs::Fronts::kinds_at))]
    pub fn none() -> Kinds<'a>
        ensures { result ≡ [] }
    {
        Kinds {
            count: 0,
            bytes: &[],
        }
    }

    /// How many there are.
    pub fn len(&self) -> u32
        ensures { result ≡ length self.now }
    {
        self.count
    }

    /// The kind at a place, from 0. It goes over those before it.
    pub fn get(&self, i: u32) -> Option<Kind>
        ensures { result ≡ slice_get self.now i }
    {
        nth_kind(self.count, self.bytes, i)
    }

    /// The first kind and those behind it, None where there are none.
    pub fn split_first(&self) -> Option<(Kind, Kinds<'a>)>
        ensures { all_kinds result ≡ self.now }
    {
        if self.count == 0 {
            return None;
        }
        let Some((kind, rest)) = parameter_front(self.bytes) else {
            return None;
        };
        let others = Kinds {
            count: self.count - 1,
            bytes: rest,
        };
        Some((kind, others))
    }
}

/// The kind at a place of the kinds of so many types.
fn nth_kind(count: u32, bytes: &[u8], i: u32) -> Option<Kind>
    ensures { result ≡ slice_get (kinds_at count bytes.now) i }
{
    if i >= count {
        return None;
    }
    let mut rest = bytes;
    for k in 0..i {
        let Some((_, behind)) = parameter_front(rest) else {
            return None;
        };
        rest = behind;
    }
    let Some((kind, _)) = parameter_front(rest) else {
        return None;
    };
    Some(kind)
}

/// The kinds of so many types at the front, and what is behind them. None where one has no kind.
pub fn kinds_front(count: u32, bytes: &[u8]) -> Option<(Kinds<'_>, &[u8])>
    ensures { option_map (λ x. (x.0, x.1.now)) result ≡ many kind_front count bytes.now }
{
    let behind = past_kinds(count, bytes)?;
    Some((Kinds { count, bytes }, behind))
}

/// The kind at a place of the kinds of so many types at the front, and what is behind all of them. None where
/// there is no such place, and where one of them has no kind.
pub fn nth_front(count: u32, bytes: &[u8], n: u32) -> Option<(Kind, &[u8])>
    ensures { option_map (λ x. (x.0, x.1.now)) result ≡ nth_of n (many kind_front count bytes.now) }
{
    if n >= count {
        return None;
    }
    let Some(before) = past_kinds(n, bytes) else {
        return None;
    };
    let Some((kind, behind)) = kind_front(before) else {
        return None;
    };
    let Some(rest) = past_kinds(count - n - 1, behind) else {
        return None;
    };
    Some((kind, rest))
}

/// The kinds of so many parameters at the front, and what is behind them. None where one has no kind.
pub fn parameters_front(count: u32, bytes: &[u8]) -> Option<(Kinds<'_>, &[u8])>
    ensures { option_map (λ x. (x.0, x.1.now)) result ≡ parameter_kinds count bytes.now }
{
    let behind = past_parameters(count, bytes)?;
    Some((Kinds { count, bytes }, behind))
}
