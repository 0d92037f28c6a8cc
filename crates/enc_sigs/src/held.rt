//! What holds no types yet, or only those that were read (ECMA-335 II.23.2).
ghost use Rattle.std.specs.Prelude.{◌≡◌, ℕ, ◌++◌, [], ◌∷◌, drop, option_map, if◌then◌else◌, IfOk};
ghost use Rattle.enc_base.specs.Token.{nil};
ghost use Rattle.enc_sigs.specs.Grammar.{tree, named_in, numbered_in, numerals_in, numeral_in, begins, many, in_counts};
ghost use Rattle.enc_base.specs.Readers.{number_in};
ghost use Rattle.enc_sigs.specs.Reads.{Reads, AreRead};

use crate::elem::Elem;
use crate::kind::SigFault;
use crate::number::{numeral, token};
use crate::type_form::Numeral;
use enc_base::{Counts, Token, unsigned_front};
use std::alloc::{AllocError, Global};

/// The token of an element that has none.
pub const NIL: Token = Token { table: 0, row: 0 };

/// An element with nothing within.
pub fn leaf(alloc: Global, element: u8, token: Token, number: u32) -> Elem
    ensures { result ≡ tree element token number [] }
{
    Elem {
        element,
        token,
        number,
        kids: Vec::new(alloc),
    }
}

/// The kid behind the others.
pub fn added(mut kids: Vec<Elem>, kid: Elem) -> Result<Vec<Elem>, AllocError>
    ensures { IfOk result (λ more. more.items ≡ kids.items ++ kid ∷ []) }
{
    kids.push(kid)?;
    Ok(kids)
}

/// An element and a type within.
pub fn around(alloc: Global, element: u8, token: Token, kid: Elem) -> Result<Elem, AllocError>
    ensures { IfOk result (λ elem. elem ≡ tree element token 0 (kid ∷ [])) }
{
    let kids = added(Vec::new(alloc), kid)?;
    Ok(Elem {
        element,
        token,
        number: 0,
        kids,
    })
}

/// A size or a lower bound.
#[tactic(auto, unfolding(crate::specs::Grammar::numbered_in))]
fn numeral_elem(alloc: Global, kind: Numeral, bytes: &[u8]) -> Option<(Elem, &[u8])>
    ensures { option_map (λ x. (x.0, x.1.now)) result ≡ numbered_in 0 (numeral_in kind) bytes.now }
{
    let (value, rest) = numeral(kind, bytes)?;
    Some((leaf(alloc, 0, NIL, value), rest))
}

/// What is behind a sentinel, None where none stands at the front.
pub fn behind_sentinel(bytes: &[u8]) -> Option<&[u8]>
    ensures { option_map (λ x. x.now) result ≡ (if begins 0x41 bytes.now then Some (drop 1 bytes.now) else None) }
{
    match bytes {
        [0x41, rest @ ..] => Some(rest),
        _ => None,
    }
}

/// So many sizes or lower bounds.
fn numerals_many(
    alloc: Global,
    kind: Numeral,
    count: u32,
    bytes: &[u8],
) -> Result<(Vec<Elem>, &[u8]), SigFault>
    ensures { AreRead result (many (numbered_in 0 (numeral_in kind)) count bytes.now) }
{
    let mut kids = Vec::new(alloc);
    let mut rest = bytes;
    for i in 0..count {
        let Some((kid, behind)) = numeral_elem(alloc, kind, rest) else {
            return Err(SigFault::Grammar);
        };
        let Ok(more) = added(kids, kid) else {
            return Err(SigFault::Memory);
        };
        kids = more;
        rest = behind;
    }
    Ok((kids, rest))
}

/// A count and so many sizes or lower bounds.
#[tactic(auto, unfolding(crate::specs::Grammar::numerals_in, crate::specs::Grammar::list_in))]
pub fn numerals(alloc: Global, kind: Numeral, bytes: &[u8]) -> Result<(Elem, &[u8]), SigFault>
    ensures { Reads result (numerals_in kind bytes.now) }
{
    let Some((count, rest)) = unsigned_front(bytes) else {
        return Err(SigFault::Grammar);
    };
    let (kids, rest) = numerals_many(alloc, kind, count, rest)?;
    Ok((
        Elem {
            element: 0,
            token: NIL,
            number: 0,
            kids,
        },
        rest,
    ))
}

/// A token alone.
#[tactic(auto, unfolding(crate::specs::Grammar::named_in))]
pub fn named<'a>(
    alloc: Global,
    b: u8,
    bytes: &'a [u8],
    counts: &Counts,
) -> Result<(Elem, &'a [u8]), SigFault>
    ensures { Reads result (named_in (in_counts counts.now) b bytes.now) }
{
    let Some((token, rest)) = token(bytes, counts) else {
        return Err(SigFault::Grammar);
    };
    Ok((leaf(alloc, b, token, 0), rest))
}

/// A number alone.
#[tactic(auto, unfolding(crate::specs::Grammar::numbered_in))]
pub fn indexed(alloc: Global, b: u8, bytes: &[u8]) -> Result<(Elem, &[u8]), SigFault>
    ensures { Reads result (numbered_in b number_in bytes.now) }
{
    let Some((value, rest)) = unsigned_front(bytes) else {
        return Err(SigFault::Grammar);
    };
    Ok((leaf(alloc, b, NIL, value), rest))
}

/// The kids of an array.
pub fn three(alloc: Global, kid: Elem, sizes: Elem, bounds: Elem) -> Result<Vec<Elem>, AllocError>
    ensures { IfOk result (λ kids. kids.items ≡ kid ∷ sizes ∷ bounds ∷ []) }
{
    let kids = added(Vec::new(alloc), kid)?;
    let kids = added(kids, sizes)?;
    added(kids, bounds)
}
