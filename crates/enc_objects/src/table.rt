//! The instructions on values alone, by their codes (ECMA-335 III.1.2.1).
ghost use Rattle.std.specs.Prelude.{◌≡◌};
ghost use Rattle.enc_objects.specs.Instructions.{in_run as held_in_run, binary_at, unary_at, stands_alone as has_no_operand, binary_in as binary_of_op, unary_in as unary_of_op};

use crate::kind::Kind;
use crate::operation::Arithmetic::{
    Add, AddOvf, AddOvfUn, And, Div, DivUn, Mul, MulOvf, MulOvfUn, Or, Rem, RemUn, Sub, SubOvf,
    SubOvfUn, Xor,
};
use crate::operation::Binary::{self, Calculates, Compares, Shifts};
use crate::operation::Comparison::{Ceq, Cgt, CgtUn, Clt, CltUn};
use crate::operation::Shift::{Shl, Shr, ShrUn};
use crate::operation::Unary::{self, Conv, ConvOvf, ConvOvfUn, Neg, Not};
use enc_opcodes::{Op, Operand};

/// From `add` on.
static FROM_ADD: [Binary; 13] = [
    Calculates(Add),
    Calculates(Sub),
    Calculates(Mul),
    Calculates(Div),
    Calculates(DivUn),
    Calculates(Rem),
    Calculates(RemUn),
    Calculates(And),
    Calculates(Or),
    Calculates(Xor),
    Shifts(Shl),
    Shifts(Shr),
    Shifts(ShrUn),
];

/// From `add.ovf` on.
static FROM_ADD_OVF: [Binary; 6] = [
    Calculates(AddOvf),
    Calculates(AddOvfUn),
    Calculates(MulOvf),
    Calculates(MulOvfUn),
    Calculates(SubOvf),
    Calculates(SubOvfUn),
];

/// From `ceq` on.
static FROM_CEQ: [Binary; 5] = [
    Compares(Ceq),
    Compares(Cgt),
    Compares(CgtUn),
    Compares(Clt),
    Compares(CltUn),
];

/// From `neg` to `conv.i8`.
static FROM_NEG: [Unary; 6] = [
    Neg,
    Not,
    Conv(Kind::I1),
    Conv(Kind::I2),
    Conv(Kind::I4),
    Conv(Kind::I8),
];

/// `conv.u4` and `conv.u8`.
static FROM_CONV_U4: [Unary; 2] = [Conv(Kind::U4), Conv(Kind::U8)];

/// From `conv.ovf.i1.un` to `conv.ovf.u8.un`.
static FROM_CONV_OVF_I1_UN: [Unary; 8] = [
    ConvOvfUn(Kind::I1),
    ConvOvfUn(Kind::I2),
    ConvOvfUn(Kind::I4),
    ConvOvfUn(Kind::I8),
    ConvOvfUn(Kind::U1),
    ConvOvfUn(Kind::U2),
    ConvOvfUn(Kind::U4),
    ConvOvfUn(Kind::U8),
];

/// From `conv.ovf.i1` to `conv.ovf.u8`.
static FROM_CONV_OVF_I1: [Unary; 8] = [
    ConvOvf(Kind::I1),
    ConvOvf(Kind::U1),
    ConvOvf(Kind::I2),
    ConvOvf(Kind::U2),
    ConvOvf(Kind::I4),
    ConvOvf(Kind::U4),
    ConvOvf(Kind::I8),
    ConvOvf(Kind::U8),
];

/// `conv.u2` and `conv.u1`.
static FROM_CONV_U2: [Unary; 2] = [Conv(Kind::U2), Conv(Kind::U1)];

/// What stands at a code in a run of instructions on two values, whose first has this code.
#[inline(always)]
#[tactic(auto, unfolding(crate::specs::Instructions::in_run))]
fn in_binary_run(first: u16, run: &[Binary], code: u16) -> Option<Binary>
    ensures { result ≡ held_in_run first run.now code }
{
    if code < first {
        return None;
    }
    run.get((code - first) as usize).copied()
}

/// The same of instructions on one value.
#[inline(always)]
#[tactic(auto, unfolding(crate::specs::Instructions::in_run))]
fn in_unary_run(first: u16, run: &[Unary], code: u16) -> Option<Unary>
    ensures { result ≡ held_in_run first run.now code }
{
    if code < first {
        return None;
    }
    run.get((code - first) as usize).copied()
}

/// The operation on two values with this code.
#[inline(always)]
#[tactic(auto, unfolding(crate::specs::Instructions::binary_at))]
fn binary_with(code: u16) -> Option<Binary>
    ensures { result ≡ binary_at code }
{
    if let Some(o) = in_binary_run(0x58, &FROM_ADD, code) {
        return Some(o);
    }
    if let Some(o) = in_binary_run(0xD6, &FROM_ADD_OVF, code) {
        return Some(o);
    }
    in_binary_run(0xFE01, &FROM_CEQ, code)
}

/// The operation on one value with this code.
#[inline(always)]
#[tactic(auto, unfolding(crate::specs::Instructions::unary_at))]
fn unary_with(code: u16) -> Option<Unary>
    ensures { result ≡ unary_at code }
{
    if let Some(o) = in_unary_run(0x65, &FROM_NEG, code) {
        return Some(o);
    }
    if let Some(o) = in_unary_run(0x6D, &FROM_CONV_U4, code) {
        return Some(o);
    }
    if let Some(o) = in_unary_run(0x82, &FROM_CONV_OVF_I1_UN, code) {
        return Some(o);
    }
    if let Some(o) = in_unary_run(0xB3, &FROM_CONV_OVF_I1, code) {
        return Some(o);
    }
    in_unary_run(0xD1, &FROM_CONV_U2, code)
}

/// Whether nothing stands behind the instruction's code.
#[inline(always)]
fn stands_alone(operand: Operand) -> bool
    ensures { result ≡ has_no_operand operand }
{
    matches!(operand, Operand::None)
}

/// What an instruction does with two values. None where it isn't one on two values.
#[inline(always)]
pub(crate) fn binary_in(op: Op) -> Option<Binary>
    ensures { result ≡ binary_of_op op }
{
    if !stands_alone(op.operand) {
        return None;
    }
    binary_with(op.byte)
}

/// What an instruction does with one value. None where it isn't one on one value.
#[inline(always)]
pub(crate) fn unary_in(op: Op) -> Option<Unary>
    ensures { result ≡ unary_of_op op }
{
    if !stands_alone(op.operand) {
        return None;
    }
    unary_with(op.byte)
}
