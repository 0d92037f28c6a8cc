//! Two signatures read in step, without memory.
ghost use Rattle.std.specs.Prelude.{◌≡◌, ℕ, suc, ◌<◌, ◌^◌, Bool, ◌==◌, ◌&&◌, ◌||◌, option_map, IfSome};
ghost use Rattle.enc_base.specs.declared.token.Token.{Token};
ghost use Rattle.enc_base.specs.Token.{is_token};
ghost use Rattle.enc_sigs.specs.Agree.{tokens_agree};
ghost use Rattle.enc_sigs.specs.Grammar.{byte_in, numeral_in};
ghost use Rattle.enc_base.specs.Readers.{number_in};
ghost use Rattle.enc_sigs.specs.Walk.{alike, alike_alone, token_walk, many_walk, counted_walk, numerals_walk, array_walk, modified_walk, instance_walk, marked_walk, params_walk, parts_walk, calling_walk, method_walk, formed_walk, elem_walk, Tells};

use crate::held::behind_sentinel;
use crate::number::{calling, coded_token, form_by, numeral};
use crate::type_form::{Numeral, TypeForm};
use enc_base::{Token, unsigned_front};

/// The number at the front of both.
#[tactic(auto, unfolding(crate::specs::Walk::alike))]
pub fn count_of_both<'a, 'b>(a: &'a [u8], b: &'b [u8]) -> Option<(u32, &'a [u8], &'b [u8])>
    ensures { option_map (λ x. (x.0, (x.1.now, x.2.now))) result ≡ alike number_in a.now b.now }
{
    let (n, a) = unsigned_front(a)?;
    let (m, b) = unsigned_front(b)?;
    if n != m {
        return None;
    }
    Some((n, a, b))
}

/// Both with no number in front, where it is the same.
#[tactic(auto, unfolding(crate::specs::Walk::alike_alone))]
fn numeral_of_both<'a, 'b>(kind: Numeral, a: &'a [u8], b: &'b [u8]) -> Option<(&'a [u8], &'b [u8])>
    ensures { option_map (λ x. (x.0.now, x.1.now)) result ≡ alike_alone (numeral_in kind) a.now b.now }
{
    let (n, a) = numeral(kind, a)?;
    let (m, b) = numeral(kind, b)?;
    if n != m {
        return None;
    }
    Some((a, b))
}

/// The same of the first bytes of methods and their counts of generic parameters.
#[tactic(auto, unfolding(crate::specs::Walk::calling_walk))]
pub fn calling_of_both<'a, 'b>(a: &'a [u8], b: &'b [u8]) -> Option<(&'a [u8], &'b [u8])>
    ensures { option_map (λ x. (x.0.now, x.1.now)) result ≡ calling_walk a.now b.now }
{
    let ((x, n), a) = calling(a)?;
    let ((y, m), b) = calling(b)?;
    if x != y || n != m {
        return None;
    }
    Some((a, b))
}

/// The same of the byte behind a generic instance's first.
#[tactic(auto, unfolding(crate::specs::Walk::alike_alone, crate::specs::Grammar::byte_in))]
fn class_of_both<'a, 'b>(a: &'a [u8], b: &'b [u8]) -> Option<(&'a [u8], &'b [u8])>
    ensures { option_map (λ x. (x.0.now, x.1.now)) result
        ≡ alike_alone (byte_in (λ c. c == 0x11 || c == 0x12)) a.now b.now }
{
    match (a, b) {
        ([0x11, a @ ..], [0x11, b @ ..]) => Some((a, b)),
        ([0x12, a @ ..], [0x12, b @ ..]) => Some((a, b)),
        _ => None,
    }
}

/// So many sizes or lower bounds of both.
fn many_numerals_of_both<'a, 'b>(
    kind: Numeral,
    count: u32,
    a: &'a [u8],
    b: &'b [u8],
) -> Option<(&'a [u8], &'b [u8])>
    ensures { option_map (λ x. (x.0.now, x.1.now)) result
        ≡ many_walk (alike_alone (numeral_in kind)) count a.now b.now }
{
    let mut a = a;
    let mut b = b;
    for i in 0..count {
        let Some((c, d)) = numeral_of_both(kind, a, b) else {
            return None;
        };
        a = c;
        b = d;
    }
    Some((a, b))
}

/// A count and so many sizes or lower bounds of both.
#[tactic(auto, unfolding(crate::specs::Walk::numerals_walk, crate::specs::Walk::counted_walk))]
fn numerals_of_both<'a, 'b>(kind: Numeral, a: &'a [u8], b: &'b [u8]) -> Option<(&'a [u8], &'b [u8])>
    ensures { option_map (λ x. (x.0.now, x.1.now)) result ≡ numerals_walk kind a.now b.now }
{
    let (count, a, b) = count_of_both(a, b)?;
    many_numerals_of_both(kind, count, a, b)
}

/// Tokens of both that agree.
#[tactic(auto, unfolding(crate::specs::Walk::token_walk))]
fn token_of_both<'a, 'b, F: Fn(Token, Token) -> bool>(
    a: &'a [u8],
    b: &'b [u8],
    same: &F,
) -> Option<(&'a [u8], &'b [u8])>
    requires { F.IsAlwaysCallable same.now }
    ensures { (rel : Token → Token → Bool) → Tells (F.post same.now) rel
        → option_map (λ x. (x.0.now, x.1.now)) result ≡ token_walk rel a.now b.now }
{
    let (t, a) = coded_token(a)?;
    let (u, b) = coded_token(b)?;
    if t == u || same(t, u) {
        return Some((a, b));
    }
    None
}

/// Types of both, where types stand in one another at most so deep.
#[cycle(walker)]
pub fn elem_of_both<'a, 'b, F: Fn(Token, Token) -> bool>(
    depth: u32,
    a: &'a [u8],
    b: &'b [u8],
    same: &F,
) -> Option<(&'a [u8], &'b [u8])>
    requires { F.IsAlwaysCallable same.now }
    ensures { (rel : Token → Token → Bool) → Tells (F.post same.now) rel
        → option_map (λ x. (x.0.now, x.1.now)) result ≡ elem_walk rel depth a.now b.now }
{
    if depth == 0 {
        return None;
    }
    opened_of_both(depth - 1, a, b, same)
}

/// Types of both, where those within them stand at most so deep.
#[cycle(walker)]
#[tactic(auto, unfolding(crate::specs::Walk::elem_walk))]
fn opened_of_both<'a, 'b, F: Fn(Token, Token) -> bool>(
    depth: u32,
    a: &'a [u8],
    b: &'b [u8],
    same: &F,
) -> Option<(&'a [u8], &'b [u8])>
    requires { F.IsAlwaysCallable same.now }
    ensures { (rel : Token → Token → Bool) → Tells (F.post same.now) rel
        → option_map (λ x. (x.0.now, x.1.now)) result ≡ elem_walk rel (suc depth) a.now b.now }
{
    let ([x, a @ ..], [y, b @ ..]) = (a, b) else {
        return None;
    };
    if *x != *y {
        return None;
    }
    let form = form_by(*x)?;
    formed_of_both(form, depth, a, b, same)
}

/// What stands behind the first byte of both.
#[cycle(walker)]
#[tactic(auto, unfolding(crate::specs::Walk::formed_walk))]
fn formed_of_both<'a, 'b, F: Fn(Token, Token) -> bool>(
    form: TypeForm,
    depth: u32,
    a: &'a [u8],
    b: &'b [u8],
    same: &F,
) -> Option<(&'a [u8], &'b [u8])>
    requires { F.IsAlwaysCallable same.now }
    ensures { (rel : Token → Token → Bool) → Tells (F.post same.now) rel
        → option_map (λ x. (x.0.now, x.1.now)) result ≡ formed_walk rel (elem_walk rel depth) form a.now b.now }
{
    match form {
        TypeForm::Bare => Some((a, b)),
        TypeForm::Wrapped => elem_of_both(depth, a, b, same),
        TypeForm::Named => token_of_both(a, b, same),
        TypeForm::Modified => modified_of_both(depth, a, b, same),
        TypeForm::Numbered => numeral_of_both(Numeral::Size, a, b),
        TypeForm::Array => array_of_both(depth, a, b, same),
        TypeForm::Instance => instance_of_both(depth, a, b, same),
        TypeForm::Pointer => method_of_both(depth, a, b, same),
    }
}

/// A token and a type of both.
#[cycle(walker)]
#[tactic(auto, unfolding(crate::specs::Walk::modified_walk))]
fn modified_of_both<'a, 'b, F: Fn(Token, Token) -> bool>(
    depth: u32,
    a: &'a [u8],
    b: &'b [u8],
    same: &F,
) -> Option<(&'a [u8], &'b [u8])>
    requires { F.IsAlwaysCallable same.now }
    ensures { (rel : Token → Token → Bool) → Tells (F.post same.now) rel
        → option_map (λ x. (x.0.now, x.1.now)) result ≡ modified_walk rel (elem_walk rel depth) a.now b.now }
{
    let (a, b) = token_of_both(a, b, same)?;
    elem_of_both(depth, a, b, same)
}

/// A type, a rank, sizes and lower bounds of both.
#[cycle(walker)]
#[tactic(auto, unfolding(crate::specs::Walk::array_walk))]
fn array_of_both<'a, 'b, F: Fn(Token, Token) -> bool>(
    depth: u32,
    a: &'a [u8],
    b: &'b [u8],
    same: &F,
) -> Option<(&'a [u8], &'b [u8])>
    requires { F.IsAlwaysCallable same.now }
    ensures { (rel : Token → Token → Bool) → Tells (F.post same.now) rel
        → option_map (λ x. (x.0.now, x.1.now)) result ≡ array_walk (elem_walk rel depth) a.now b.now }
{
    let (a, b) = elem_of_both(depth, a, b, same)?;
    let (a, b) = numeral_of_both(Numeral::Size, a, b)?;
    let (a, b) = numerals_of_both(Numeral::Size, a, b)?;
    numerals_of_both(Numeral::Bound, a, b)
}

/// So many types of both.
#[cycle(walker)]
pub fn many_of_both<'a, 'b, F: Fn(Token, Token) -> bool>(
    count: u32,
    depth: u32,
    a: &'a [u8],
    b: &'b [u8],
    same: &F,
) -> Option<(&'a [u8], &'b [u8])>
    requires { F.IsAlwaysCallable same.now }
    ensures { (rel : Token → Token → Bool) → Tells (F.post same.now) rel
        → option_map (λ x. (x.0.now, x.1.now)) result ≡ many_walk (elem_walk rel depth) count a.now b.now }
{
    let mut a = a;
    let mut b = b;
    for i in 0..count {
        let Some((c, d)) = elem_of_both(depth, a, b, same) else {
            return None;
        };
        a = c;
        b = d;
    }
    Some((a, b))
}

/// A generic instance of both: a class or a value type, and the arguments.
#[cycle(walker)]
#[tactic(auto, unfolding(crate::specs::Walk::instance_walk, crate::specs::Walk::counted_walk))]
fn instance_of_both<'a, 'b, F: Fn(Token, Token) -> bool>(
    depth: u32,
    a: &'a [u8],
    b: &'b [u8],
    same: &F,
) -> Option<(&'a [u8], &'b [u8])>
    requires { F.IsAlwaysCallable same.now }
    ensures { (rel : Token → Token → Bool) → Tells (F.post same.now) rel
        → option_map (λ x. (x.0.now, x.1.now)) result ≡ instance_walk rel (elem_walk rel depth) a.now b.now }
{
    let (a, b) = class_of_both(a, b)?;
    let (a, b) = token_of_both(a, b, same)?;
    let (count, a, b) = count_of_both(a, b)?;
    many_of_both(count, depth, a, b, same)
}

/// So many parameters of both, one of which may stand behind a sentinel.
#[cycle(walker)]
fn params_of_both<'a, 'b, F: Fn(Token, Token) -> bool>(
    count: u32,
    depth: u32,
    a: &'a [u8],
    b: &'b [u8],
    same: &F,
) -> Option<(&'a [u8], &'b [u8])>
    requires { F.IsAlwaysCallable same.now }
    ensures { (rel : Token → Token → Bool) → Tells (F.post same.now) rel
        → option_map (λ x. (x.0.now, x.1.now)) result ≡ params_walk (elem_walk rel depth) count a.now b.now }
{
    let mut a = a;
    let mut b = b;
    let mut left = count;
    while left > 0 {
        match behind_sentinel(a) {
            Some(marked) => return marked_of_both(left - 1, depth, marked, b, same),
            None => {}
        }
        let Some((c, d)) = elem_of_both(depth, a, b, same) else {
            return None;
        };
        a = c;
        b = d;
        left -= 1;
    }
    Some((a, b))
}

/// The parameter behind a sentinel, which is left out of the first, and so many more, of both.
#[cycle(walker)]
#[tactic(auto, unfolding(crate::specs::Walk::marked_walk))]
fn marked_of_both<'a, 'b, F: Fn(Token, Token) -> bool>(
    more: u32,
    depth: u32,
    a: &'a [u8],
    b: &'b [u8],
    same: &F,
) -> Option<(&'a [u8], &'b [u8])>
    requires { F.IsAlwaysCallable same.now }
    ensures { (rel : Token → Token → Bool) → Tells (F.post same.now) rel
        → option_map (λ x. (x.0.now, x.1.now)) result ≡ marked_walk (elem_walk rel depth) more a.now b.now }
{
    let b = behind_sentinel(b)?;
    let (a, b) = elem_of_both(depth, a, b, same)?;
    many_of_both(more, depth, a, b, same)
}

/// The count of parameters, the return type and the parameters of both.
#[cycle(walker)]
#[tactic(auto, unfolding(crate::specs::Walk::parts_walk))]
fn parts_of_both<'a, 'b, F: Fn(Token, Token) -> bool>(
    depth: u32,
    a: &'a [u8],
    b: &'b [u8],
    same: &F,
) -> Option<(&'a [u8], &'b [u8])>
    requires { F.IsAlwaysCallable same.now }
    ensures { (rel : Token → Token → Bool) → Tells (F.post same.now) rel
        → option_map (λ x. (x.0.now, x.1.now)) result ≡ parts_walk (elem_walk rel depth) a.now b.now }
{
    let (count, a, b) = count_of_both(a, b)?;
    let (a, b) = elem_of_both(depth, a, b, same)?;
    params_of_both(count, depth, a, b, same)
}

/// The signatures of methods of both.
#[cycle(walker)]
#[tactic(auto, unfolding(crate::specs::Walk::method_walk))]
pub fn method_of_both<'a, 'b, F: Fn(Token, Token) -> bool>(
    depth: u32,
    a: &'a [u8],
    b: &'b [u8],
    same: &F,
) -> Option<(&'a [u8], &'b [u8])>
    requires { F.IsAlwaysCallable same.now }
    ensures { (rel : Token → Token → Bool) → Tells (F.post same.now) rel
        → option_map (λ x. (x.0.now, x.1.now)) result ≡ method_walk (elem_walk rel depth) a.now b.now }
{
    let (a, b) = calling_of_both(a, b)?;
    parts_of_both(depth, a, b, same)
}
