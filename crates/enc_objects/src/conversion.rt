//! Negation, complement and conversions of an integer (ECMA-335 III.3.27 to III.3.29, III.3.50, III.3.52).
ghost use Rattle.std.specs.Prelude.{◌≡◌, pos, neg_ℤ, ◌-ℤ◌};
ghost use Rattle.enc_objects.specs.Values.{read_as as number_read_as, unary_on, unary_of};

use crate::kind::Kind;
use crate::number::{bits_of, checked, cut, held};
use crate::operation::{Size, Unary};
use crate::trap::Trap;
use crate::value::Value;

fn negated(x: i64) -> i128
    ensures { result ≡ neg_ℤ x }
{
    -i128::from(x)
}

/// The integer with all bits turned.
fn turned(x: i64) -> i128
    ensures { result ≡ neg_ℤ x -ℤ pos 1 }
{
    -i128::from(x) - 1
}

/// The integer as a kind's number: by its sign, or without one for a kind without one.
fn read_as(kind: Kind, size: Size, x: i64) -> i128
    ensures { result ≡ number_read_as kind size x }
{
    match kind {
        Kind::I1 | Kind::I2 | Kind::I4 | Kind::I8 | Kind::Ref => i128::from(x),
        Kind::U1 | Kind::U2 | Kind::U4 | Kind::U8 => i128::from(bits_of(size, i128::from(x))),
    }
}

/// What an operation gives for an integer of a size.
#[tactic(auto, unfolding(crate::specs::Values::unary_on))]
fn changed(o: Unary, size: Size, x: i64) -> Result<Value, Trap>
    ensures { result ≡ unary_on o size x }
{
    match o {
        Unary::Neg => Ok(held(size.signed(), negated(x))),
        Unary::Not => Ok(held(size.signed(), turned(x))),
        Unary::Conv(kind) => Ok(held(kind, cut(kind, read_as(kind, size, x)))),
        Unary::ConvOvf(kind) => checked(kind, i128::from(x)),
        Unary::ConvOvfUn(kind) => checked(kind, i128::from(bits_of(size, i128::from(x)))),
    }
}

/// What an operation gives for a value, which is an integer.
pub(crate) fn change(o: Unary, a: Value) -> Result<Value, Trap>
    ensures { result ≡ unary_of o a }
{
    match a {
        Value::I4(x) => changed(o, Size::Four, i64::from(x)),
        Value::I8(x) => changed(o, Size::Eight, x),
        Value::Null | Value::Obj(_) => Err(Trap::X4),
    }
}
