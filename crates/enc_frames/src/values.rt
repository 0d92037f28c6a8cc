//! Values as they are stored, asked and compared (ECMA-335 III.1.5, III.1.6).
ghost use Rattle.std.specs.Prelude.{◌≡◌, Result, Ok, Err};
ghost use Rattle.enc_frames.specs.Values.{fit, is_set, word_of_value, reference, is_integer_value, comparison, compare_says, fails, tested};

use crate::act::Test;
use enc_objects::{Kind, Trap, Value, binary};
use enc_opcodes::{Op, Operand};

/// A value as a place of a kind holds it.
#[inline(always)]
pub(crate) fn fit(kind: Kind, value: Value) -> Result<Value, Trap>
    ensures { result ≡ fit kind value }
{
    match kind.stored(value) {
        None => Err(Trap::X4),
        Some(value) => Ok(value),
    }
}

/// Whether a value isn't zero and isn't null.
#[inline(always)]
pub(crate) fn is_set(value: Value) -> bool
    ensures { result ≡ is_set value }
{
    match value {
        Value::I4(n) => n != 0,
        Value::I8(n) => n != 0,
        Value::Null => false,
        Value::Obj(_) => true,
    }
}

/// An integer of 32 bits.
pub(crate) fn word(value: Value) -> Result<i32, Trap>
    ensures { result ≡ word_of_value value }
{
    match value {
        Value::I4(n) => Ok(n),
        Value::I8(_) | Value::Null | Value::Obj(_) => Err(Trap::X4),
    }
}

/// The number of the object that a reference is of, None within of null.
#[inline(always)]
pub fn reference(value: Value) -> Result<Option<u32>, Trap>
    ensures { result ≡ reference value }
{
    match value {
        Value::Null => Ok(None),
        Value::Obj(id) => Ok(Some(id)),
        Value::I4(_) | Value::I8(_) => Err(Trap::X4),
    }
}

/// Whether a value is an integer.
#[inline(always)]
fn is_integer(value: Value) -> bool
    ensures { result ≡ is_integer_value value }
{
    match value {
        Value::I4(_) | Value::I8(_) => true,
        Value::Null | Value::Obj(_) => false,
    }
}

/// What the comparison with this code says of two values.
#[inline(always)]
fn holds(code: u16, a: Value, b: Value) -> Result<bool, Trap>
    ensures { result ≡ compare_says code a b }
{
    let op = Op {
        byte: code,
        operand: Operand::None,
    };
    let value = binary(op, a, b)?;
    Ok(is_set(value))
}

/// The contrary.
#[inline(always)]
fn fails(code: u16, a: Value, b: Value) -> Result<bool, Trap>
    ensures { result ≡ fails code a b }
{
    let held = holds(code, a, b)?;
    Ok(!held)
}

/// What a branch asks of two values (ECMA-335 III.3.5 to III.3.14).
#[inline(always)]
#[tactic(auto, unfolding(crate::specs::Values::tested))]
pub(crate) fn tested(test: Test, a: Value, b: Value) -> Result<bool, Trap>
    ensures { result ≡ tested test a b }
{
    match test {
        Test::Eq => holds(0xFE01, a, b),
        Test::Ge => fails(0xFE04, a, b),
        Test::Gt => holds(0xFE02, a, b),
        Test::Le => fails(0xFE02, a, b),
        Test::Lt => holds(0xFE04, a, b),
        Test::NeUn => fails(0xFE01, a, b),
        Test::GeUn => fails(0xFE05, a, b),
        Test::LtUn => holds(0xFE05, a, b),
        Test::GtUn => {
            if !is_integer(a) {
                return Err(Trap::X4);
            }
            holds(0xFE03, a, b)
        }
        Test::LeUn => {
            if !is_integer(a) {
                return Err(Trap::X4);
            }
            fails(0xFE03, a, b)
        }
    }
}
