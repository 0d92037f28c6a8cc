//! Compressed numbers at the front of bytes (ECMA-335 II.23.2).
ghost use Rattle.std.specs.Prelude.{◌≡◌, ◌<◌, ◌^◌, option_map, IfSome};
ghost use Rattle.enc_base.specs.Readers.{number_in, signed_in};

use crate::number::{read_signed, read_unsigned};

/// The compressed number at the front and what is behind it.
#[tactic(auto, unfolding(crate::specs::Readers::number_in))]
pub fn unsigned_front(bytes: &[u8]) -> Option<(u32, &[u8])>
    ensures read { option_map (λ x. (x.0, x.1.now)) result ≡ number_in bytes.now }
    ensures few { IfSome result (λ x. x.0 < 2 ^ 29) }
{
    let (value, end) = read_unsigned(bytes, 0)?;
    Some((value, bytes.get(end..)?))
}

/// The 32 bits of the compressed signed number at the front, from -2^28 to 2^28 - 1, and what is
/// behind it.
#[tactic(auto, unfolding(crate::specs::Readers::signed_in))]
pub fn signed_front(bytes: &[u8]) -> Option<(u32, &[u8])>
    ensures { option_map (λ x. (x.0, x.1.now)) result ≡ signed_in bytes.now }
{
    let (value, end) = read_signed(bytes, 0)?;
    let bits = value.cast_unsigned();
    if bits < 0x1000_0000 || 0xf000_0000 <= bits {
        return Some((bits, bytes.get(end..)?));
    }
    None
}
