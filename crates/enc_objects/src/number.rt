//! Integers as numbers: to the kinds and back.
ghost use Rattle.std.specs.Prelude.{◌≡◌};
ghost use Rattle.enc_objects.specs.Values.{modulo, cut as number_cut, held as held_as, is_of as is_of_kind, checked as checked_as, without_sign, signed_kind, unsigned_kind};

use crate::kind::Kind;
use crate::operation::Size;
use crate::trap::Trap;
use crate::value::Value;

/// The number modulo 2^8.
#[inline(always)]
fn modulo_8(n: i128) -> u8
    ensures { result ≡ modulo 8 n }
{
    n.rem_euclid(1 << 8) as u8
}

/// The number modulo 2^16.
#[inline(always)]
fn modulo_16(n: i128) -> u16
    ensures { result ≡ modulo 16 n }
{
    n.rem_euclid(1 << 16) as u16
}

/// The number modulo 2^32.
#[inline(always)]
fn modulo_32(n: i128) -> u32
    ensures { result ≡ modulo 32 n }
{
    n.rem_euclid(1 << 32) as u32
}

/// The number modulo 2^64.
#[inline(always)]
fn modulo_64(n: i128) -> u64
    ensures { result ≡ modulo 64 n }
{
    n.rem_euclid(1 << 64) as u64
}

/// The number of the kind that has the low bits of this one.
#[inline(always)]
#[tactic(auto, unfolding(crate::specs::Values::cut))]
pub(crate) fn cut(kind: Kind, n: i128) -> i128
    ensures { result ≡ number_cut kind n }
{
    match kind {
        Kind::I1 => i128::from(modulo_8(n).cast_signed()),
        Kind::U1 => i128::from(modulo_8(n)),
        Kind::I2 => i128::from(modulo_16(n).cast_signed()),
        Kind::U2 => i128::from(modulo_16(n)),
        Kind::I4 => i128::from(modulo_32(n).cast_signed()),
        Kind::U4 => i128::from(modulo_32(n)),
        Kind::I8 => i128::from(modulo_64(n).cast_signed()),
        Kind::U8 => i128::from(modulo_64(n)),
        Kind::Ref => n,
    }
}

/// The integer on the stack that has the bits of a kind's number.
#[inline(always)]
#[tactic(auto, unfolding(crate::specs::Values::held))]
pub(crate) fn held(kind: Kind, n: i128) -> Value
    ensures { result ≡ held_as kind n }
{
    match kind {
        Kind::I8 | Kind::U8 => Value::I8(modulo_64(n).cast_signed()),
        Kind::I1 | Kind::U1 | Kind::I2 | Kind::U2 | Kind::I4 | Kind::U4 | Kind::Ref => {
            Value::I4(modulo_32(n).cast_signed())
        }
    }
}

/// Whether the kind has the number.
#[tactic(auto, unfolding(crate::specs::Values::is_of))]
pub(crate) fn is_of(kind: Kind, n: i128) -> bool
    ensures { result ≡ is_of_kind kind n }
{
    match kind {
        Kind::I1 => -0x80 <= n && n <= 0x7F,
        Kind::U1 => 0 <= n && n <= 0xFF,
        Kind::I2 => -0x8000 <= n && n <= 0x7FFF,
        Kind::U2 => 0 <= n && n <= 0xFFFF,
        Kind::I4 => -0x8000_0000 <= n && n <= 0x7FFF_FFFF,
        Kind::U4 => 0 <= n && n <= 0xFFFF_FFFF,
        Kind::I8 => -0x8000_0000_0000_0000 <= n && n <= 0x7FFF_FFFF_FFFF_FFFF,
        Kind::U8 => 0 <= n && n <= 0xFFFF_FFFF_FFFF_FFFF,
        Kind::Ref => false,
    }
}

/// The number, where the kind has it.
pub(crate) fn checked(kind: Kind, n: i128) -> Result<Value, Trap>
    ensures { result ≡ checked_as kind n }
{
    if !is_of(kind, n) {
        return Err(Trap::X7);
    }
    Ok(held(kind, n))
}

impl Size {
    /// The kind of its integers with a sign.
    #[inline(always)]
    pub(crate) fn signed(self) -> Kind
        ensures { result ≡ signed_kind self }
    {
        match self {
            Size::Four => Kind::I4,
            Size::Eight => Kind::I8,
        }
    }

    /// The kind of its integers without a sign.
    #[inline(always)]
    pub(crate) fn unsigned(self) -> Kind
        ensures { result ≡ unsigned_kind self }
    {
        match self {
            Size::Four => Kind::U4,
            Size::Eight => Kind::U8,
        }
    }
}

/// The number that an integer is without its sign.
#[inline(always)]
pub(crate) fn bits_of(size: Size, n: i128) -> u64
    ensures { result ≡ without_sign size n }
{
    match size {
        Size::Four => u64::from(modulo_32(n)),
        Size::Eight => modulo_64(n),
    }
}
