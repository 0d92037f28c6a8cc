//! Kinds at the front of bytes (ECMA-335 II.23.2).
ghost use Rattle.std.specs.Prelude.{◌≡◌, option_map};
ghost use Rattle.enc_sigs.specs.Grammar.{many};
ghost use Rattle.enc_sigs.specs.Reads.{left_after};
ghost use Rattle.enc_machine_types.specs.Alone.{is_one_byte};
ghost use Rattle.enc_machine_types.specs.Fronts.{kind_front, parameter_front, parameter_kinds};

use crate::element::kind_of_element;
use enc_objects::Kind;
use enc_sigs::{behind_sentinel, type_front};

/// The kind of the type at the front, whichever it is, and what is behind the type.
#[tactic(auto, unfolding(crate::specs::Fronts::kind_front))]
fn any_front(bytes: &[u8]) -> Option<(Kind, &[u8])>
    ensures { option_map (λ x. (x.0, x.1.now)) result ≡ kind_front bytes.now }
{
    let (element, rest) = type_front(bytes)?;
    Some((kind_of_element(element)?, rest))
}

/// Whether a type is its first byte alone: a truth value, a character, a number, a text, an object
/// (ECMA-335 II.23.2.12).
fn is_one_byte(element: u8) -> bool
    ensures { result ≡ is_one_byte element }
{
    matches!(element, 0x02..=0x0b | 0x0e | 0x1c)
}

/// The kind of the type at the front, and what is behind the type (ECMA-335 II.23.2.12). Most types are one byte:
/// these aren't read further.
pub fn kind_front(bytes: &[u8]) -> Option<(Kind, &[u8])>
    ensures { option_map (λ x. (x.0, x.1.now)) result ≡ kind_front bytes.now }
{
    let [element, rest @ ..] = bytes else {
        return any_front(bytes);
    };
    if !is_one_byte(*element) {
        return any_front(bytes);
    }
    match kind_of_element(*element) {
        None => any_front(bytes),
        Some(kind) => Some((kind, rest)),
    }
}

/// The same of a type that may stand behind a sentinel (ECMA-335 II.23.2.2).
#[tactic(auto, unfolding(crate::specs::Fronts::parameter_front))]
pub fn parameter_front(bytes: &[u8]) -> Option<(Kind, &[u8])>
    ensures { option_map (λ x. (x.0, x.1.now)) result ≡ parameter_front bytes.now }
{
    match behind_sentinel(bytes) {
        Some(rest) => kind_front(rest),
        None => kind_front(bytes),
    }
}

/// What is behind so many types that all have kinds.
pub fn past_kinds(count: u32, bytes: &[u8]) -> Option<&[u8]>
    ensures { option_map (λ x. x.now) result ≡ left_after (many kind_front count bytes.now) }
{
    let mut rest = bytes;
    for i in 0..count {
        let Some((_, behind)) = kind_front(rest) else {
            return None;
        };
        rest = behind;
    }
    Some(rest)
}

/// What is behind so many parameters that all have kinds, of which one may stand behind a sentinel
/// (ECMA-335 II.23.2.2).
pub fn past_parameters(count: u32, bytes: &[u8]) -> Option<&[u8]>
    ensures { option_map (λ x. x.now) result ≡ left_after (parameter_kinds count bytes.now) }
{
    let mut rest = bytes;
    let mut left = count;
    while left > 0 {
        match behind_sentinel(rest) {
            Some(marked) => return past_kinds(left, marked),
            None => {}
        }
        let Some((_, behind)) = kind_front(rest) else {
            return None;
        };
        rest = behind;
        left -= 1;
    }
    Some(rest)
}
