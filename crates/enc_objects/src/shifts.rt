//! Integers whose bits are moved (ECMA-335 III.3.58 to III.3.60).
ghost use Rattle.std.specs.Prelude.{◌≡◌, ◌<◌, ◌*ℤ◌, ◌^◌, pos};
ghost use Rattle.enc_objects.specs.Values.{shifted as shifted_as, binary_of};
ghost use Rattle.enc_objects.specs.declared.operation.Binary.TheVariants.{Shifts};

use crate::number::{bits_of, held};
use crate::operation::{Shift, Size};
use crate::trap::Trap;
use crate::value::Value;

/// The number, doubled so many times.
fn doubled(x: i64, places: u32) -> i128
    requires { places < 64 }
    ensures { result ≡ x *ℤ pos (2 ^ places) }
{
    i128::from(x) * i128::from(1u64 << places)
}

/// What a shift gives for an integer of a size.
#[tactic(auto, unfolding(crate::specs::Values::shifted))]
fn shifted(o: Shift, size: Size, x: i64, places: u32) -> Value
    requires { places < 64 }
    ensures { result ≡ shifted_as o size x places }
{
    match o {
        Shift::Shl => held(size.signed(), doubled(x, places)),
        Shift::Shr => held(size.signed(), i128::from(x >> places)),
        Shift::ShrUn => held(
            size.unsigned(),
            i128::from(bits_of(size, i128::from(x)) >> places),
        ),
    }
}

/// What a shift gives for two values: an integer of either size, and one of 32 bits whose low 5 or 6 bits
/// say how many places.
#[tactic(auto, unfolding(crate::specs::Values::binary_of))]
pub(crate) fn shift(o: Shift, a: Value, b: Value) -> Result<Value, Trap>
    ensures { result ≡ binary_of (Shifts o) a b }
{
    match (a, b) {
        (Value::I4(x), Value::I4(n)) => Ok(shifted(
            o,
            Size::Four,
            i64::from(x),
            n.cast_unsigned() % 32,
        )),
        (Value::I8(x), Value::I4(n)) => Ok(shifted(o, Size::Eight, x, n.cast_unsigned() % 64)),
        _ => Err(Trap::X4),
    }
}
