//! What the interpreter sees of signatures (ECMA-335 II.23.2).
ghost use Rattle.std.specs.Prelude.{◌≡◌, option_map, option_and_then, slice_get};
ghost use Rattle.enc_machine_types.specs.Elements.{call_shape_in, takes_nothing, field_kind_in, local_kinds_in};
ghost use Rattle.enc_machine_types.specs.Parts.{given_of_element, given_front, shape_behind, shape_front, behind_byte, nothing_front};

use crate::element::kind_of_element;
use crate::front::kind_front;
use crate::kinds::{Kinds, kinds_front, nth_front, parameters_front};
use crate::shape::MethodShape;
use enc_base::unsigned_front;
use enc_objects::Kind;
use enc_sigs::{calling, type_front};

/// What a method gives, by the first byte of its return type: nothing where it is void (ECMA-335
/// II.23.2.11). None where the type has no kind.
#[tactic(auto, unfolding(crate::specs::Parts::given_of_element))]
fn given_of_element(element: u8) -> Option<Option<Kind>>
    ensures { result ≡ given_of_element element }
{
    if element == 0x01 {
        return Some(None);
    }
    match kind_of_element(element) {
        Some(kind) => Some(Some(kind)),
        None => None,
    }
}

/// What a method gives, by the type at the front, and what is behind the type.
#[tactic(auto, unfolding(crate::specs::Parts::given_front))]
fn given_front(bytes: &[u8]) -> Option<(Option<Kind>, &[u8])>
    ensures { option_map (λ x. (x.0, x.1.now)) result ≡ given_front bytes.now }
{
    let (element, rest) = type_front(bytes)?;
    Some((given_of_element(element)?, rest))
}

/// How a method is called, by what is behind its first byte: the count of its parameters, its return type
/// and the parameters (ECMA-335 II.23.2.1).
#[tactic(auto, unfolding(crate::specs::Parts::shape_behind))]
fn shape_behind(this: bool, bytes: &[u8]) -> Option<MethodShape<'_>>
    ensures { result ≡ shape_behind this bytes.now }
{
    let Some((count, first)) = unsigned_front(bytes) else {
        return None;
    };
    let Some((gives, second)) = given_front(first) else {
        return None;
    };
    let Some((takes, behind)) = parameters_front(count, second) else {
        return None;
    };
    if !behind.is_empty() {
        return None;
    }
    Some(MethodShape::new(this, gives, takes))
}

/// How a method is called, by its blob: None where it isn't of the plain calling convention, where it is
/// generic, or where a type has no kind (ECMA-335 II.23.2.1).
#[tactic(auto, using(crate::proofs::PartsRead::shape_is), unfolding(crate::specs::Parts::shape_front))]
pub fn call_shape_in(blob: &[u8]) -> Option<MethodShape<'_>>
    ensures { result ≡ call_shape_in blob.now }
{
    let ((first, generics), rest) = calling(blob)?;
    if first % 0x10 != 0 || generics != 0 {
        return None;
    }
    shape_behind(first / 0x20 % 2 == 1, rest)
}

/// Whether a method is called without an object and without parameters, by its blob (ECMA-335
/// II.23.2.1).
#[tactic(auto, using(crate::proofs::PartsRead::nothing_is), unfolding(crate::specs::Parts::nothing_front))]
pub fn takes_nothing(blob: &[u8]) -> bool
    ensures { result ≡ takes_nothing blob.now }
{
    let Some(((first, _), rest)) = calling(blob) else {
        return false;
    };
    let Some((count, rest)) = unsigned_front(rest) else {
        return false;
    };
    if first / 0x20 % 2 == 1 || count != 0 {
        return false;
    }
    match type_front(rest) {
        Some((_, [])) => true,
        _ => false,
    }
}

/// What is behind the byte, None where it doesn't stand at the front.
#[tactic(auto, unfolding(crate::specs::Parts::behind_byte))]
fn behind_byte(b: u8, bytes: &[u8]) -> Option<&[u8]>
    ensures { option_map (λ x. x.now) result ≡ behind_byte b bytes.now }
{
    match bytes {
        [first, rest @ ..] if *first == b => Some(rest),
        _ => None,
    }
}

/// The kind of a field, by its blob: None where its type has none (ECMA-335 II.23.2.4).
pub fn field_kind_in(blob: &[u8]) -> Option<Kind>
    ensures { result ≡ field_kind_in blob.now }
{
    let Some(rest) = behind_byte(0x06, blob) else {
        return None;
    };
    let Some((kind, behind)) = kind_front(rest) else {
        return None;
    };
    if !behind.is_empty() {
        return None;
    }
    Some(kind)
}

/// The kinds of local variables, by the blob: None where one has none (ECMA-335 II.23.2.6).
pub fn local_kinds_in(blob: &[u8]) -> Option<Kinds<'_>>
    ensures { result ≡ local_kinds_in blob.now }
{
    let Some(first) = behind_byte(0x07, blob) else {
        return None;
    };
    let Some((count, second)) = unsigned_front(first) else {
        return None;
    };
    let Some((kinds, behind)) = kinds_front(count, second) else {
        return None;
    };
    if !behind.is_empty() {
        return None;
    }
    Some(kinds)
}

/// The kind of one of the local variables, by the blob and its number from 0: the n-th of `local_kinds_in`, so
/// None also where another one has none (ECMA-335 II.23.2.6).
pub fn local_kind_in(blob: &[u8], n: u32) -> Option<Kind>
    ensures { result ≡ option_and_then (λ ks. slice_get ks n) (local_kinds_in blob.now) }
{
    let Some(first) = behind_byte(0x07, blob) else {
        return None;
    };
    let Some((count, second)) = unsigned_front(first) else {
        return None;
    };
    let Some((kind, behind)) = nth_front(count, second, n) else {
        return None;
    };
    if !behind.is_empty() {
        return None;
    }
    Some(kind)
}
