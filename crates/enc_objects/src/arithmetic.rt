//! Sums, differences, products, quotients and bits of two integers (ECMA-335 III.3).
ghost use Rattle.std.specs.Prelude.{◌≡◌, ◌/◌, ◌%◌, ◌≢◌, pos, ◌+ℤ◌, ◌-ℤ◌, ◌*ℤ◌, int_div, int_rem};
ghost use Rattle.enc_objects.specs.Values.{unsigned_kind, divided as divided_as, divided_unsigned, checked as checked_as, calculated as calculated_as, binary_of};
ghost use Rattle.enc_objects.specs.declared.operation.Binary.TheVariants.{Calculates};

use crate::number::{bits_of, checked, held, is_of};
use crate::operation::{Arithmetic, Size};
use crate::trap::Trap;
use crate::value::Value;

#[inline(always)]
fn sum(x: i64, y: i64) -> i128
    ensures { result ≡ x +ℤ y }
{
    i128::from(x) + i128::from(y)
}

#[inline(always)]
fn difference(x: i64, y: i64) -> i128
    ensures { result ≡ x -ℤ y }
{
    i128::from(x) - i128::from(y)
}

#[inline(always)]
fn product(x: i64, y: i64) -> i128
    ensures { result ≡ x *ℤ y }
{
    i128::from(x) * i128::from(y)
}

/// The quotient, rounded towards zero. The least integer by -1 is here a number of 64 bits and one more.
fn quotient(x: i64, y: i64) -> i128
    requires { y ≢ pos 0 }
    ensures { result ≡ int_div x y }
{
    i128::from(x) / i128::from(y)
}

/// What is left of the first, with its sign.
fn remainder(x: i64, y: i64) -> i128
    requires { y ≢ pos 0 }
    ensures { result ≡ int_rem x y }
{
    i128::from(x) % i128::from(y)
}

fn sum_without_sign(x: u64, y: u64) -> i128
    ensures { result ≡ pos x +ℤ pos y }
{
    i128::from(x) + i128::from(y)
}

fn difference_without_sign(x: u64, y: u64) -> i128
    ensures { result ≡ pos x -ℤ pos y }
{
    i128::from(x) - i128::from(y)
}

/// The product where the size has it, else an overflow.
fn product_without_sign(size: Size, x: u64, y: u64) -> Result<Value, Trap>
    ensures { result ≡ checked_as (unsigned_kind size) (pos x *ℤ pos y) }
{
    match x.checked_mul(y) {
        None => Err(Trap::X7),
        Some(product) => checked(size.unsigned(), i128::from(product)),
    }
}

/// The quotient of two integers with a sign.
fn divided(size: Size, x: i64, y: i64) -> Result<Value, Trap>
    ensures { result ≡ divided_as size x y (int_div x y) }
{
    if y == 0 {
        return Err(Trap::X6);
    }
    checked(size.signed(), quotient(x, y))
}

/// What is left after a division with a sign. There is none where there is no quotient.
fn left(size: Size, x: i64, y: i64) -> Result<Value, Trap>
    ensures { result ≡ divided_as size x y (int_rem x y) }
{
    if y == 0 {
        return Err(Trap::X6);
    }
    if !is_of(size.signed(), quotient(x, y)) {
        return Err(Trap::X7);
    }
    Ok(held(size.signed(), remainder(x, y)))
}

/// The quotient of two integers without a sign.
fn divided_without_sign(size: Size, x: u64, y: u64) -> Result<Value, Trap>
    ensures { result ≡ divided_unsigned size y (x / y) }
{
    if y == 0 {
        return Err(Trap::X6);
    }
    Ok(held(size.unsigned(), i128::from(x / y)))
}

/// What is left after a division without a sign.
fn left_without_sign(size: Size, x: u64, y: u64) -> Result<Value, Trap>
    ensures { result ≡ divided_unsigned size y (x % y) }
{
    if y == 0 {
        return Err(Trap::X6);
    }
    Ok(held(size.unsigned(), i128::from(x % y)))
}

/// What an operation gives for two integers of a size.
#[inline(always)]
#[tactic(auto, unfolding(crate::specs::Values::calculated))]
fn calculated(o: Arithmetic, size: Size, x: i64, y: i64) -> Result<Value, Trap>
    ensures { result ≡ calculated_as o size x y }
{
    let signed = size.signed();
    let unsigned = size.unsigned();
    let (a, b) = (bits_of(size, i128::from(x)), bits_of(size, i128::from(y)));
    match o {
        Arithmetic::Add => Ok(held(signed, sum(x, y))),
        Arithmetic::Sub => Ok(held(signed, difference(x, y))),
        Arithmetic::Mul => Ok(held(signed, product(x, y))),
        Arithmetic::Div => divided(size, x, y),
        Arithmetic::DivUn => divided_without_sign(size, a, b),
        Arithmetic::Rem => left(size, x, y),
        Arithmetic::RemUn => left_without_sign(size, a, b),
        Arithmetic::And => Ok(held(unsigned, i128::from(a & b))),
        Arithmetic::Or => Ok(held(unsigned, i128::from(a | b))),
        Arithmetic::Xor => Ok(held(unsigned, i128::from(a ^ b))),
        Arithmetic::AddOvf => checked(signed, sum(x, y)),
        Arithmetic::AddOvfUn => checked(unsigned, sum_without_sign(a, b)),
        Arithmetic::MulOvf => checked(signed, product(x, y)),
        Arithmetic::MulOvfUn => product_without_sign(size, a, b),
        Arithmetic::SubOvf => checked(signed, difference(x, y)),
        Arithmetic::SubOvfUn => checked(unsigned, difference_without_sign(a, b)),
    }
}

/// The same for two values, which are integers of one size.
#[inline(always)]
#[tactic(auto, unfolding(crate::specs::Values::binary_of))]
pub(crate) fn calculate(o: Arithmetic, a: Value, b: Value) -> Result<Value, Trap>
    ensures { result ≡ binary_of (Calculates o) a b }
{
    match (a, b) {
        (Value::I4(x), Value::I4(y)) => calculated(o, Size::Four, i64::from(x), i64::from(y)),
        (Value::I8(x), Value::I8(y)) => calculated(o, Size::Eight, x, y),
        _ => Err(Trap::X4),
    }
}
