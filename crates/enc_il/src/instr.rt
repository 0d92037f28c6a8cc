//! The instruction at an offset of a method's code (ECMA-335 III.1.2, III.1.9).
ghost use Rattle.std.specs.Prelude.{◌≡◌, ◌+◌, ◌<◌, ◌≤◌, ◌^◌, Some, length, option_map, IfSome, IsTrue};
ghost use Rattle.enc_opcodes.specs.Instruction.{nothing, instr_in, op_in};
ghost use Rattle.enc_opcodes.specs.Opcodes.{is_op};
ghost use Rattle.enc_il.specs.Seen.{instr_seen};

use crate::arg::arg_at;
use enc_base::u8_at;
use enc_opcodes::{Arg, CodeRef, Instr, Op, Operand, op_from};

/// The instruction's code at a place, of one byte or of two, and the place behind it. None where
/// no instruction has such a code.
#[tactic(auto, unfolding(enc_opcodes::specs::Instruction::op_in))]
fn op_at(code: &[u8], at: usize) -> Option<(Op, usize)>
    ensures op { result ≡ op_in code.now at }
    ensures known { IfSome result (λ x. IsTrue (is_op x.0)) }
    ensures within { IfSome result (λ x. x.1 ≤ length code.now) }
{
    let first = u8_at(code, at)?;
    if first == 0xFE {
        let second = u8_at(code, at + 1)?;
        return Some((op_from(first, second)?, at + 2));
    }
    Some((op_from(first, 0)?, at + 1))
}

/// The instruction at an offset, whatever its code and its operand, and the offset behind it.
#[inline(always)]
#[tactic(auto, unfolding(enc_opcodes::specs::Instruction::instr_in))]
fn any_at(code: &[u8], offset: u32) -> Option<(Instr<'_>, u32)>
    requires few { length code.now < 2 ^ 32 }
    ensures instr { option_map instr_seen result ≡ instr_in code.now offset }
    ensures known { IfSome result (λ x. IsTrue (is_op x.0.op)) }
{
    let (op, begin) = op_at(code, offset as usize)?;
    let (arg, end) = arg_at(op.operand, code, begin)?;
    Some((Instr { op, arg }, end as u32))
}

/// The instruction at an offset, where its code is one byte and no operand follows. None where
/// another stands there, or none.
#[tactic(auto, unfolding(enc_opcodes::specs::Instruction::instr_in, // an instruction at an offset:
enc_opcodes::specs::Instruction::op_in, // its opcode
enc_opcodes::specs::Instruction::arg_in // and its operand
))]
fn bare_at(code: &[u8], offset: u32) -> Option<Op>
    ensures bare { IfSome result (λ op. instr_in code.now offset ≡ Some (
      record { op = op; arg = nothing },
      offset + 1,
    )) }
    ensures known { IfSome result (λ op. IsTrue (is_op op)) }
    ensures within { IfSome result (λ op. offset < length code.now) }
{
    let first = u8_at(code, offset as usize)?;
    if first == 0xFE {
        return None;
    }
    let op = op_from(first, 0)?;
    match op.operand {
        Operand::None => Some(op),
        _ => None,
    }
}

/// The instruction at an offset of the code, and the offset behind it, in bytes. None where no
/// instruction stands whole there.
#[inline(always)]
pub fn instr_at<'a>(code: &CodeRef<'a>, offset: u32) -> Option<(Instr<'a>, u32)>
    requires few { length code.now.code.now < 2 ^ 32 }
    ensures instr { option_map instr_seen result ≡ instr_in code.now.code.now offset }
    ensures known { IfSome result (λ x. IsTrue (is_op x.0.op)) }
{
    match bare_at(code.code, offset) {
        Some(op) => Some((Instr { op, arg: Arg::None }, offset + 1)),
        None => any_at(code.code, offset),
    }
}
