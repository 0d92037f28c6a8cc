//! What instructions on values alone give.
ghost use Rattle.std.specs.Prelude.{◌≡◌, is_some};
ghost use Rattle.enc_objects.specs.Instructions.{on_two, on_one, binary_in as binary_of_op, unary_in as unary_of_op};

use crate::arithmetic::calculate;
use crate::comparisons::compare;
use crate::conversion::change;
use crate::operation::Binary;
use crate::shifts::shift;
use crate::table::{binary_in, unary_in};
use crate::trap::Trap;
use crate::value::Value;
use enc_opcodes::Op;

/// What an instruction gives for the two values that it takes from the stack, `b` the upper: arithmetic, shifts, and
/// the comparisons that aren't branches (ECMA-335 III.3). X2 where the instruction is none of these, X4 where it
/// doesn't take such values, X6 for a division by zero, X7 where the result doesn't fit.
#[inline(always)]
#[tactic(auto, unfolding(crate::specs::Values::binary_of, crate::specs::Instructions::on_two))]
pub fn binary(op: Op, a: Value, b: Value) -> Result<Value, Trap>
    ensures { result ≡ on_two op a b }
{
    match binary_in(op) {
        None => Err(Trap::X2),
        Some(Binary::Calculates(o)) => calculate(o, a, b),
        Some(Binary::Shifts(o)) => shift(o, a, b),
        Some(Binary::Compares(o)) => compare(o, a, b),
    }
}

/// Whether an instruction takes two values from the stack and gives one, as `binary` says.
#[inline(always)]
pub fn is_binary(op: Op) -> bool
    ensures { result ≡ is_some (binary_of_op op) }
{
    binary_in(op).is_some()
}

/// Whether an instruction takes one value from the stack and gives one, as `convert` says.
#[inline(always)]
pub fn is_unary(op: Op) -> bool
    ensures { result ≡ is_some (unary_of_op op) }
{
    unary_in(op).is_some()
}

/// What an instruction gives for the value that it takes from the stack: the conversions to integers of a size,
/// `neg` and `not` (ECMA-335 III.3). X2 where the instruction is none of these, X4 for a reference, X7 where a checked
/// conversion's kind doesn't have the number.
#[inline(always)]
#[tactic(auto, unfolding(crate::specs::Instructions::on_one))]
pub fn convert(op: Op, a: Value) -> Result<Value, Trap>
    ensures { result ≡ on_one op a }
{
    match unary_in(op) {
        None => Err(Trap::X2),
        Some(o) => change(o, a),
    }
}
