//! The kinds of types by their first bytes (ECMA-335 II.23.1.16).
ghost use Rattle.std.specs.Prelude.{◌≡◌};
ghost use Rattle.enc_machine_types.specs.Elements.{kind_of_element};

use enc_objects::Kind;

/// The kind of a type by its first byte in a signature: of a truth value, a character, an integer, a text,
/// a class, an object or an array of one dimension; None of all others (ECMA-335 II.23.1.16).
#[tactic(auto, unfolding(crate::specs::Elements::kind_of_element))]
pub fn kind_of_element(e: u8) -> Option<Kind>
    ensures { result ≡ kind_of_element e }
{
    match e {
        0x02 | 0x05 => Some(Kind::U1),
        0x03 | 0x07 => Some(Kind::U2),
        0x04 => Some(Kind::I1),
        0x06 => Some(Kind::I2),
        0x08 => Some(Kind::I4),
        0x09 => Some(Kind::U4),
        0x0a => Some(Kind::I8),
        0x0b => Some(Kind::U8),
        0x0e | 0x12 | 0x1c | 0x1d => Some(Kind::Ref),
        _ => None,
    }
}
