//! Whether two signatures are equal but for their tokens.
ghost use Rattle.std.specs.Prelude.{◌≡◌, ℕ, Bool, ◌==◌, ◌||◌, option_map};
ghost use Rattle.enc_base.specs.declared.token.Token.{Token};
ghost use Rattle.enc_sigs.specs.Grammar.{byte_in};
ghost use Rattle.enc_sigs.specs.Agree.{sigs_agree};
ghost use Rattle.enc_sigs.specs.Walk.{alike_alone, counted_walk, accessed_walk, type_walk, front_walk, both_end, Tells};

use crate::kind::{DEPTH, SigKind};
use crate::walk::{count_of_both, elem_of_both, many_of_both, method_of_both};
use enc_base::Token;

/// What is behind this byte in both.
#[tactic(auto, unfolding(crate::specs::Walk::alike_alone, crate::specs::Grammar::byte_in))]
fn behind_byte<'a, 'b>(byte: u8, a: &'a [u8], b: &'b [u8]) -> Option<(&'a [u8], &'b [u8])>
    ensures { option_map (λ x. (x.0.now, x.1.now)) result ≡ alike_alone (byte_in (λ b. b == byte)) a.now b.now }
{
    let ([x, a @ ..], [y, b @ ..]) = (a, b) else {
        return None;
    };
    if *x != byte || *y != byte {
        return None;
    }
    Some((a, b))
}

/// What is behind the first byte of properties.
#[tactic(auto, unfolding(crate::specs::Walk::alike_alone, crate::specs::Grammar::byte_in))]
fn behind_property<'a, 'b>(a: &'a [u8], b: &'b [u8]) -> Option<(&'a [u8], &'b [u8])>
    ensures { option_map (λ x. (x.0.now, x.1.now)) result
        ≡ alike_alone (byte_in (λ b. b == 0x08 || b == 0x28)) a.now b.now }
{
    match (a, b) {
        ([0x08, a @ ..], [0x08, b @ ..]) => Some((a, b)),
        ([0x28, a @ ..], [0x28, b @ ..]) => Some((a, b)),
        _ => None,
    }
}

/// A count and so many types of both.
#[tactic(auto, unfolding(crate::specs::Walk::counted_walk, crate::specs::Walk::type_walk))]
fn counted_of_both<'a, 'b, F: Fn(Token, Token) -> bool>(
    a: &'a [u8],
    b: &'b [u8],
    same: &F,
) -> Option<(&'a [u8], &'b [u8])>
    requires { F.IsAlwaysCallable same.now }
    ensures { (rel : Token → Token → Bool) → Tells (F.post same.now) rel
        → option_map (λ x. (x.0.now, x.1.now)) result ≡ counted_walk (type_walk rel) a.now b.now }
{
    let (count, a, b) = count_of_both(a, b)?;
    many_of_both(count, DEPTH, a, b, same)
}

/// A count, a type and so many types more of both.
#[tactic(auto, unfolding(crate::specs::Walk::accessed_walk, crate::specs::Walk::type_walk))]
fn accessed_of_both<'a, 'b, F: Fn(Token, Token) -> bool>(
    a: &'a [u8],
    b: &'b [u8],
    same: &F,
) -> Option<(&'a [u8], &'b [u8])>
    requires { F.IsAlwaysCallable same.now }
    ensures { (rel : Token → Token → Bool) → Tells (F.post same.now) rel
        → option_map (λ x. (x.0.now, x.1.now)) result ≡ accessed_walk (type_walk rel) a.now b.now }
{
    let (count, a, b) = count_of_both(a, b)?;
    let (a, b) = elem_of_both(DEPTH, a, b, same)?;
    many_of_both(count, DEPTH, a, b, same)
}

/// Signatures of this kind at the front of both.
#[tactic(auto, unfolding(crate::specs::Walk::front_walk, crate::specs::Walk::type_walk))]
fn front_of_both<'a, 'b, F: Fn(Token, Token) -> bool>(
    kind: SigKind,
    a: &'a [u8],
    b: &'b [u8],
    same: &F,
) -> Option<(&'a [u8], &'b [u8])>
    requires { F.IsAlwaysCallable same.now }
    ensures { (rel : Token → Token → Bool) → Tells (F.post same.now) rel
        → option_map (λ x. (x.0.now, x.1.now)) result ≡ front_walk rel kind a.now b.now }
{
    match kind {
        SigKind::Method => method_of_both(DEPTH, a, b, same),
        SigKind::Field => {
            let (a, b) = behind_byte(0x06, a, b)?;
            elem_of_both(DEPTH, a, b, same)
        }
        SigKind::Locals => {
            let (a, b) = behind_byte(0x07, a, b)?;
            counted_of_both(a, b, same)
        }
        SigKind::Property => {
            let (a, b) = behind_property(a, b)?;
            accessed_of_both(a, b, same)
        }
        SigKind::TypeSpec => elem_of_both(DEPTH, a, b, same),
        SigKind::MethodSpec => {
            let (a, b) = behind_byte(0x0a, a, b)?;
            counted_of_both(a, b, same)
        }
    }
}

/// Whether nothing is left of both.
fn do_end(left: Option<(&[u8], &[u8])>) -> bool
    ensures { result ≡ both_end (option_map (λ x. (x.0.now, x.1.now)) left.entry) }
{
    match left {
        Some((a, b)) => a.is_empty() && b.is_empty(),
        None => false,
    }
}

/// Whether both blobs are signatures of this kind, the range of a token's row aside, and are equal
/// but for their tokens: two tokens count as equal where they are, or where `same` says so
/// (ECMA-335 II.23.2). It takes no memory.
pub fn sigs_agree<F: Fn(Token, Token) -> bool>(kind: SigKind, a: &[u8], b: &[u8], same: F) -> bool
    requires { F.IsAlwaysCallable same }
    ensures { (rel : Token → Token → Bool) → Tells (F.post same) rel → result ≡ sigs_agree rel kind a.now b.now }
{
    do_end(front_of_both(kind, a, b, &same))
}
