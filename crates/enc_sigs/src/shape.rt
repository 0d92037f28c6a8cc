//! The shapes of signatures: what those have in common that are equal but for alike tokens.
ghost use Rattle.std.specs.Prelude.{◌≡◌, suc, ◌==◌, ◌||◌, option_map};
ghost use Rattle.enc_base.specs.declared.token.Token.{Token};
ghost use Rattle.enc_sigs.specs.Grammar.{byte_in, numeral_in};
ghost use Rattle.enc_sigs.specs.Mix.{mix_of};
ghost use Rattle.enc_sigs.specs.declared.mix.Mix.{Mix as TheMix};
ghost use Rattle.enc_sigs.specs.Shape.{number_shape, token_shape, many_shape, counted_shape, numerals_shape, array_shape, modified_shape, instance_shape, marked_shape, params_shape, parts_shape, calling_shape, method_shape, formed_shape, elem_shape, type_shape, accessed_shape, front_shape, raw_shape, mixed_of, sig_shape, GivesKeys, AlikeHaveOneShape};

use crate::held::behind_sentinel;
use crate::kind::SigKind;
use crate::mix::{Mix, mix_of, mixed, mixed_both, mixed_whole};
use crate::number::{calling, coded_token, form_by, numeral};
use crate::type_form::{Numeral, TypeForm};
use enc_base::{Token, unsigned_front};

/// How deep types may stand in one another.
const DEPTH: u32 = 100;

/// A number of this kind.
#[tactic(auto, unfolding(crate::specs::Shape::number_shape))]
fn numeral_shape(kind: Numeral, mix: Mix, bytes: &[u8]) -> Option<(Mix, &[u8])>
    ensures { option_map (λ x. (x.0, x.1.now)) result ≡ number_shape (numeral_in kind) mix bytes.now }
{
    let (number, rest) = numeral(kind, bytes)?;
    Some((mixed(mix, u64::from(number)), rest))
}

/// The first byte of a method and the count of its generic parameters.
#[tactic(auto, unfolding(crate::specs::Shape::calling_shape))]
fn calling_shape(mix: Mix, bytes: &[u8]) -> Option<(Mix, &[u8])>
    ensures { option_map (λ x. (x.0, x.1.now)) result ≡ calling_shape mix bytes.now }
{
    let ((first, generics), rest) = calling(bytes)?;
    Some((
        mixed(mixed(mix, u64::from(first)), u64::from(generics)),
        rest,
    ))
}

/// The byte behind a generic instance's first.
#[tactic(auto, unfolding(crate::specs::Shape::number_shape, crate::specs::Grammar::byte_in))]
fn class_shape(mix: Mix, bytes: &[u8]) -> Option<(Mix, &[u8])>
    ensures { option_map (λ x. (x.0, x.1.now)) result
        ≡ number_shape (byte_in (λ c. c == 0x11 || c == 0x12)) mix bytes.now }
{
    match bytes {
        [0x11, rest @ ..] => Some((mixed(mix, 0x11), rest)),
        [0x12, rest @ ..] => Some((mixed(mix, 0x12), rest)),
        _ => None,
    }
}

/// So many sizes or lower bounds.
fn many_numerals_shape(kind: Numeral, count: u32, mix: Mix, bytes: &[u8]) -> Option<(Mix, &[u8])>
    ensures { option_map (λ x. (x.0, x.1.now)) result
        ≡ many_shape (number_shape (numeral_in kind)) count mix bytes.now }
{
    let mut mix = mix;
    let mut rest = bytes;
    for i in 0..count {
        let Some((more, behind)) = numeral_shape(kind, mix, rest) else {
            return None;
        };
        mix = more;
        rest = behind;
    }
    Some((mix, rest))
}

/// A count and so many sizes or lower bounds.
#[tactic(auto, unfolding(crate::specs::Shape::numerals_shape, crate::specs::Shape::counted_shape))]
fn numerals_shape(kind: Numeral, mix: Mix, bytes: &[u8]) -> Option<(Mix, &[u8])>
    ensures { option_map (λ x. (x.0, x.1.now)) result ≡ numerals_shape kind mix bytes.now }
{
    let (count, rest) = unsigned_front(bytes)?;
    many_numerals_shape(kind, count, mixed(mix, u64::from(count)), rest)
}

/// A token, by its key.
#[tactic(auto, unfolding(crate::specs::Shape::token_shape))]
fn token_shape<'a, F: Fn(Token) -> Mix>(
    mix: Mix,
    bytes: &'a [u8],
    key: &F,
) -> Option<(Mix, &'a [u8])>
    requires { F.IsAlwaysCallable key.now }
    ensures { (keys : Token → TheMix) → GivesKeys (F.post key.now) keys
        → option_map (λ x. (x.0, x.1.now)) result ≡ token_shape keys mix bytes.now }
{
    let (token, rest) = coded_token(bytes)?;
    Some((mixed_both(mix, key(token)), rest))
}

/// A type, where types stand in one another at most so deep.
#[cycle(shaper)]
fn elem_shape<'a, F: Fn(Token) -> Mix>(
    depth: u32,
    mix: Mix,
    bytes: &'a [u8],
    key: &F,
) -> Option<(Mix, &'a [u8])>
    requires { F.IsAlwaysCallable key.now }
    ensures { (keys : Token → TheMix) → GivesKeys (F.post key.now) keys
        → option_map (λ x. (x.0, x.1.now)) result ≡ elem_shape keys depth mix bytes.now }
{
    if depth == 0 {
        return None;
    }
    opened_shape(depth - 1, mix, bytes, key)
}

/// A type, where those within it stand at most so deep.
#[cycle(shaper)]
#[tactic(auto, unfolding(crate::specs::Shape::elem_shape))]
fn opened_shape<'a, F: Fn(Token) -> Mix>(
    depth: u32,
    mix: Mix,
    bytes: &'a [u8],
    key: &F,
) -> Option<(Mix, &'a [u8])>
    requires { F.IsAlwaysCallable key.now }
    ensures { (keys : Token → TheMix) → GivesKeys (F.post key.now) keys
        → option_map (λ x. (x.0, x.1.now)) result ≡ elem_shape keys (suc depth) mix bytes.now }
{
    let [first, rest @ ..] = bytes else {
        return None;
    };
    let form = form_by(*first)?;
    formed_shape(form, depth, mixed(mix, u64::from(*first)), rest, key)
}

/// What stands behind a first byte.
#[cycle(shaper)]
#[tactic(auto, unfolding(crate::specs::Shape::formed_shape))]
fn formed_shape<'a, F: Fn(Token) -> Mix>(
    form: TypeForm,
    depth: u32,
    mix: Mix,
    bytes: &'a [u8],
    key: &F,
) -> Option<(Mix, &'a [u8])>
    requires { F.IsAlwaysCallable key.now }
    ensures { (keys : Token → TheMix) → GivesKeys (F.post key.now) keys
        → option_map (λ x. (x.0, x.1.now)) result ≡ formed_shape keys (elem_shape keys depth) form mix bytes.now }
{
    match form {
        TypeForm::Bare => Some((mix, bytes)),
        TypeForm::Wrapped => elem_shape(depth, mix, bytes, key),
        TypeForm::Named => token_shape(mix, bytes, key),
        TypeForm::Modified => modified_shape(depth, mix, bytes, key),
        TypeForm::Numbered => numeral_shape(Numeral::Size, mix, bytes),
        TypeForm::Array => array_shape(depth, mix, bytes, key),
        TypeForm::Instance => instance_shape(depth, mix, bytes, key),
        TypeForm::Pointer => method_shape(depth, mix, bytes, key),
    }
}

/// A token and a type.
#[cycle(shaper)]
#[tactic(auto, unfolding(crate::specs::Shape::modified_shape))]
fn modified_shape<'a, F: Fn(Token) -> Mix>(
    depth: u32,
    mix: Mix,
    bytes: &'a [u8],
    key: &F,
) -> Option<(Mix, &'a [u8])>
    requires { F.IsAlwaysCallable key.now }
    ensures { (keys : Token → TheMix) → GivesKeys (F.post key.now) keys
        → option_map (λ x. (x.0, x.1.now)) result ≡ modified_shape keys (elem_shape keys depth) mix bytes.now }
{
    let (mix, rest) = token_shape(mix, bytes, key)?;
    elem_shape(depth, mix, rest, key)
}

/// A type, a rank, sizes and lower bounds.
#[cycle(shaper)]
#[tactic(auto, unfolding(crate::specs::Shape::array_shape))]
fn array_shape<'a, F: Fn(Token) -> Mix>(
    depth: u32,
    mix: Mix,
    bytes: &'a [u8],
    key: &F,
) -> Option<(Mix, &'a [u8])>
    requires { F.IsAlwaysCallable key.now }
    ensures { (keys : Token → TheMix) → GivesKeys (F.post key.now) keys
        → option_map (λ x. (x.0, x.1.now)) result ≡ array_shape (elem_shape keys depth) mix bytes.now }
{
    let (mix, rest) = elem_shape(depth, mix, bytes, key)?;
    let (mix, rest) = numeral_shape(Numeral::Size, mix, rest)?;
    let (mix, rest) = numerals_shape(Numeral::Size, mix, rest)?;
    numerals_shape(Numeral::Bound, mix, rest)
}

/// So many types.
#[cycle(shaper)]
fn many_shape<'a, F: Fn(Token) -> Mix>(
    count: u32,
    depth: u32,
    mix: Mix,
    bytes: &'a [u8],
    key: &F,
) -> Option<(Mix, &'a [u8])>
    requires { F.IsAlwaysCallable key.now }
    ensures { (keys : Token → TheMix) → GivesKeys (F.post key.now) keys
        → option_map (λ x. (x.0, x.1.now)) result ≡ many_shape (elem_shape keys depth) count mix bytes.now }
{
    let mut mix = mix;
    let mut rest = bytes;
    for i in 0..count {
        let Some((more, behind)) = elem_shape(depth, mix, rest, key) else {
            return None;
        };
        mix = more;
        rest = behind;
    }
    Some((mix, rest))
}

/// A generic instance: a class or a value type, and the arguments.
#[cycle(shaper)]
#[tactic(auto, unfolding(crate::specs::Shape::instance_shape, crate::specs::Shape::counted_shape))]
fn instance_shape<'a, F: Fn(Token) -> Mix>(
    depth: u32,
    mix: Mix,
    bytes: &'a [u8],
    key: &F,
) -> Option<(Mix, &'a [u8])>
    requires { F.IsAlwaysCallable key.now }
    ensures { (keys : Token → TheMix) → GivesKeys (F.post key.now) keys
        → option_map (λ x. (x.0, x.1.now)) result ≡ instance_shape keys (elem_shape keys depth) mix bytes.now }
{
    let (mix, rest) = class_shape(mix, bytes)?;
    let (mix, rest) = token_shape(mix, rest, key)?;
    let (count, rest) = unsigned_front(rest)?;
    many_shape(count, depth, mixed(mix, u64::from(count)), rest, key)
}

/// So many parameters, one of which may stand behind a sentinel.
#[cycle(shaper)]
fn params_shape<'a, F: Fn(Token) -> Mix>(
    count: u32,
    depth: u32,
    mix: Mix,
    bytes: &'a [u8],
    key: &F,
) -> Option<(Mix, &'a [u8])>
    requires { F.IsAlwaysCallable key.now }
    ensures { (keys : Token → TheMix) → GivesKeys (F.post key.now) keys
        → option_map (λ x. (x.0, x.1.now)) result ≡ params_shape (elem_shape keys depth) count mix bytes.now }
{
    let mut mix = mix;
    let mut rest = bytes;
    let mut left = count;
    while left > 0 {
        match behind_sentinel(rest) {
            Some(marked) => return marked_shape(left - 1, depth, mix, marked, key),
            None => {}
        }
        let Some((more, behind)) = elem_shape(depth, mix, rest, key) else {
            return None;
        };
        mix = more;
        rest = behind;
        left -= 1;
    }
    Some((mix, rest))
}

/// A sentinel, the parameter behind it and so many more.
#[cycle(shaper)]
#[tactic(auto, unfolding(crate::specs::Shape::marked_shape))]
fn marked_shape<'a, F: Fn(Token) -> Mix>(
    more: u32,
    depth: u32,
    mix: Mix,
    bytes: &'a [u8],
    key: &F,
) -> Option<(Mix, &'a [u8])>
    requires { F.IsAlwaysCallable key.now }
    ensures { (keys : Token → TheMix) → GivesKeys (F.post key.now) keys
        → option_map (λ x. (x.0, x.1.now)) result ≡ marked_shape (elem_shape keys depth) more mix bytes.now }
{
    let (mix, rest) = elem_shape(depth, mixed(mix, 0x41), bytes, key)?;
    many_shape(more, depth, mix, rest, key)
}

/// The count of parameters, the return type and the parameters.
#[cycle(shaper)]
#[tactic(auto, unfolding(crate::specs::Shape::parts_shape))]
fn parts_shape<'a, F: Fn(Token) -> Mix>(
    depth: u32,
    mix: Mix,
    bytes: &'a [u8],
    key: &F,
) -> Option<(Mix, &'a [u8])>
    requires { F.IsAlwaysCallable key.now }
    ensures { (keys : Token → TheMix) → GivesKeys (F.post key.now) keys
        → option_map (λ x. (x.0, x.1.now)) result ≡ parts_shape (elem_shape keys depth) mix bytes.now }
{
    let (count, rest) = unsigned_front(bytes)?;
    let (mix, rest) = elem_shape(depth, mixed(mix, u64::from(count)), rest, key)?;
    params_shape(count, depth, mix, rest, key)
}

/// The signature of a method.
#[cycle(shaper)]
#[tactic(auto, unfolding(crate::specs::Shape::method_shape))]
fn method_shape<'a, F: Fn(Token) -> Mix>(
    depth: u32,
    mix: Mix,
    bytes: &'a [u8],
    key: &F,
) -> Option<(Mix, &'a [u8])>
    requires { F.IsAlwaysCallable key.now }
    ensures { (keys : Token → TheMix) → GivesKeys (F.post key.now) keys
        → option_map (λ x. (x.0, x.1.now)) result ≡ method_shape (elem_shape keys depth) mix bytes.now }
{
    let (mix, rest) = calling_shape(mix, bytes)?;
    parts_shape(depth, mix, rest, key)
}

/// The first byte of a field, of locals or of the arguments of a generic method.
#[tactic(auto, unfolding(crate::specs::Shape::number_shape, crate::specs::Grammar::byte_in))]
fn byte_shape(byte: u8, mix: Mix, bytes: &[u8]) -> Option<(Mix, &[u8])>
    ensures { option_map (λ x. (x.0, x.1.now)) result ≡ number_shape (byte_in (λ b. b == byte)) mix bytes.now }
{
    let [first, rest @ ..] = bytes else {
        return None;
    };
    if *first != byte {
        return None;
    }
    Some((mixed(mix, u64::from(*first)), rest))
}

/// The first byte of a property.
#[tactic(auto, unfolding(crate::specs::Shape::number_shape, crate::specs::Grammar::byte_in))]
fn property_shape(mix: Mix, bytes: &[u8]) -> Option<(Mix, &[u8])>
    ensures { option_map (λ x. (x.0, x.1.now)) result
        ≡ number_shape (byte_in (λ b. b == 0x08 || b == 0x28)) mix bytes.now }
{
    match bytes {
        [0x08, rest @ ..] => Some((mixed(mix, 0x08), rest)),
        [0x28, rest @ ..] => Some((mixed(mix, 0x28), rest)),
        _ => None,
    }
}

/// A count and so many types.
#[tactic(auto, unfolding(crate::specs::Shape::counted_shape, crate::specs::Shape::type_shape))]
fn counted_shape<'a, F: Fn(Token) -> Mix>(
    mix: Mix,
    bytes: &'a [u8],
    key: &F,
) -> Option<(Mix, &'a [u8])>
    requires { F.IsAlwaysCallable key.now }
    ensures { (keys : Token → TheMix) → GivesKeys (F.post key.now) keys
        → option_map (λ x. (x.0, x.1.now)) result ≡ counted_shape (type_shape keys) mix bytes.now }
{
    let (count, rest) = unsigned_front(bytes)?;
    many_shape(count, DEPTH, mixed(mix, u64::from(count)), rest, key)
}

/// A count, a type and so many types more.
#[tactic(auto, unfolding(crate::specs::Shape::accessed_shape, crate::specs::Shape::type_shape))]
fn accessed_shape<'a, F: Fn(Token) -> Mix>(
    mix: Mix,
    bytes: &'a [u8],
    key: &F,
) -> Option<(Mix, &'a [u8])>
    requires { F.IsAlwaysCallable key.now }
    ensures { (keys : Token → TheMix) → GivesKeys (F.post key.now) keys
        → option_map (λ x. (x.0, x.1.now)) result ≡ accessed_shape (type_shape keys) mix bytes.now }
{
    let (count, rest) = unsigned_front(bytes)?;
    let (mix, rest) = elem_shape(DEPTH, mixed(mix, u64::from(count)), rest, key)?;
    many_shape(count, DEPTH, mix, rest, key)
}

/// A signature of this kind at the front.
#[tactic(auto, unfolding(crate::specs::Shape::front_shape, crate::specs::Shape::type_shape))]
fn front_shape<'a, F: Fn(Token) -> Mix>(
    kind: SigKind,
    mix: Mix,
    bytes: &'a [u8],
    key: &F,
) -> Option<(Mix, &'a [u8])>
    requires { F.IsAlwaysCallable key.now }
    ensures { (keys : Token → TheMix) → GivesKeys (F.post key.now) keys
        → option_map (λ x. (x.0, x.1.now)) result ≡ front_shape keys kind mix bytes.now }
{
    match kind {
        SigKind::Method => method_shape(DEPTH, mix, bytes, key),
        SigKind::Field => {
            let (mix, rest) = byte_shape(0x06, mix, bytes)?;
            elem_shape(DEPTH, mix, rest, key)
        }
        SigKind::Locals => {
            let (mix, rest) = byte_shape(0x07, mix, bytes)?;
            counted_shape(mix, rest, key)
        }
        SigKind::Property => {
            let (mix, rest) = property_shape(mix, bytes)?;
            accessed_shape(mix, rest, key)
        }
        SigKind::TypeSpec => elem_shape(DEPTH, mix, bytes, key),
        SigKind::MethodSpec => {
            let (mix, rest) = byte_shape(0x0a, mix, bytes)?;
            counted_shape(mix, rest, key)
        }
    }
}

/// The shape of bytes that are no signature.
#[tactic(auto, unfolding(crate::specs::Shape::raw_shape))]
fn raw_shape(bytes: &[u8]) -> Mix
    ensures { result ≡ raw_shape bytes.now }
{
    mixed_whole(mix_of(1), bytes)
}

/// What was mixed, where all bytes were read.
fn mixed_of(bytes: &[u8], read: Option<(Mix, &[u8])>) -> Mix
    ensures { result ≡ mixed_of bytes.now (option_map (λ x. (x.0, x.1.now)) read.entry) }
{
    match read {
        Some((mix, rest)) => {
            if rest.is_empty() {
                return mix;
            }
            raw_shape(bytes)
        }
        None => raw_shape(bytes),
    }
}

/// The shape of a signature of this kind: a mix of its bytes, but of its tokens' keys in place of
/// its tokens. Signatures that are equal but for tokens of equal keys have one shape. The shape of
/// bytes that are no signature is a mix of them all. It takes no memory.
#[tactic(auto, unfolding(crate::specs::Shape::sig_shape))]
pub fn sig_shape<F: Fn(Token) -> Mix>(kind: SigKind, bytes: &[u8], key: F) -> Mix
    requires { F.IsAlwaysCallable key }
    ensures { (keys : Token → TheMix) → GivesKeys (F.post key) keys → result ≡ sig_shape keys kind bytes.now }
{
    mixed_of(bytes, front_shape(kind, mix_of(0), bytes, &key))
}

/// Signatures that are equal but for tokens of equal keys have one shape.
pub fn shape_law()
    ensures { AlikeHaveOneShape }
{}
