//! Comparisons of integers and of references (ECMA-335 III.3.21 to III.3.26).
ghost use Rattle.std.specs.Prelude.{◌≡◌};
ghost use Rattle.enc_objects.specs.Values.{compares as compares_as, truth as truth_of, compared_references, compared};

use crate::number::bits_of;
use crate::operation::{Comparison, Size};
use crate::trap::Trap;
use crate::value::Value;

/// 1 or 0.
#[inline(always)]
fn truth(holds: bool) -> Value
    ensures { result ≡ truth_of holds }
{
    if holds { Value::I4(1) } else { Value::I4(0) }
}

/// What a comparison says of two integers of a size.
#[inline(always)]
#[tactic(auto, unfolding(crate::specs::Values::compares))]
fn compares(o: Comparison, size: Size, x: i64, y: i64) -> bool
    ensures { result ≡ compares_as o size x y }
{
    let (a, b) = (bits_of(size, i128::from(x)), bits_of(size, i128::from(y)));
    match o {
        Comparison::Ceq => x == y,
        Comparison::Cgt => x > y,
        Comparison::CgtUn => a > b,
        Comparison::Clt => x < y,
        Comparison::CltUn => a < b,
    }
}

/// What a comparison says of two references, which are in order as these numbers are.
#[inline(always)]
#[tactic(auto, unfolding(crate::specs::Values::compared_references))]
fn compare_references(o: Comparison, m: u64, n: u64) -> Result<Value, Trap>
    ensures { result ≡ compared_references o m n }
{
    match o {
        Comparison::Ceq => Ok(truth(m == n)),
        Comparison::CgtUn => Ok(truth(m > n)),
        Comparison::Cgt | Comparison::Clt | Comparison::CltUn => Err(Trap::X4),
    }
}

/// What a comparison says of two values: 1 or 0.
#[inline(always)]
#[tactic(auto, unfolding(crate::specs::Values::compared))]
pub(crate) fn compare(o: Comparison, a: Value, b: Value) -> Result<Value, Trap>
    ensures { result ≡ compared o a b }
{
    match (a, b) {
        (Value::I4(x), Value::I4(y)) => {
            Ok(truth(compares(o, Size::Four, i64::from(x), i64::from(y))))
        }
        (Value::I8(x), Value::I8(y)) => Ok(truth(compares(o, Size::Eight, x, y))),
        (Value::Null, Value::Null) => compare_references(o, 0, 0),
        (Value::Null, Value::Obj(n)) => compare_references(o, 0, u64::from(n) + 1),
        (Value::Obj(m), Value::Null) => compare_references(o, u64::from(m) + 1, 0),
        (Value::Obj(m), Value::Obj(n)) => {
            compare_references(o, u64::from(m) + 1, u64::from(n) + 1)
        }
        _ => Err(Trap::X4),
    }
}
