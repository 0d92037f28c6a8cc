//! The bytes of an instruction.
ghost use Rattle.std.specs.Prelude.{◌≡◌, ◌<◌, ◌≤◌, ◌^◌, ◌++◌, ◌∷◌, [], ◌%◌, ◌+◌, ℕ, List, true, length, flat_map, take, OnOk, IfOk, IsTrue};
ghost use Rattle.std.specs.Int.{w8, w16, w32, w64, to_le_bytes, cast_unsigned};
ghost use Rattle.enc_base.specs.Token.{number_of};
ghost use Rattle.enc_opcodes.specs.Opcodes.{is_op};
ghost use Rattle.enc_meta.specs.Built.{is_kept, unit_bytes, user_offset};
ghost use Rattle.enc_opcodes.specs.Sound.{operand_size, instruction_size};
ghost use Rattle.enc_edit_list.specs.Form.{arg_fits, instr_fits};
ghost use Rattle.enc_edit_list.specs.Sizes.{arg_meant, instr_meant};
ghost use Rattle.enc_edit_list.specs.declared.body.ArgValue.TheVariants.{Num, Target};
ghost use Rattle.enc_assembly.specs.Assembly.{op_bytes, distance, switch_bytes, arg_bytes, instr_bytes, token_is_small, arg_is_small, text_is_kept};

use enc_base::{Token, Units, push_word};
use enc_edit_list::{ArgValue, InstrValue};
use enc_meta::{BuildFault, HeapBuilder};
use enc_opcodes::{Op, Operand};
use std::alloc::AllocError;

/// Appends an instruction's code.
#[tactic(auto, using(crate::proofs::Codes::one_byte, crate::proofs::Codes::two_bytes))]
fn push_op(op: Op, out: &mut Vec<u8>) -> Result<(), AllocError>
    requires { IsTrue (is_op op) }
    ensures { OnOk result (out.new.items ≡ out.old.items ++ op_bytes op) }
{
    if 0xFE00 <= op.byte {
        return out.extend_from_slice(&[0xFE, (op.byte - 0xFE00) as u8]);
    }
    out.extend_from_slice(&[op.byte as u8])
}

/// The signed distance from the end of an instruction to a target.
fn distance(end: u32, target: u32) -> u32
    ensures { result ≡ distance end target }
{
    target.wrapping_sub(end)
}

/// Appends the distances to the targets of a `switch`, behind their count.
fn push_switch(targets: &[u32], end: u32, out: &mut Vec<u8>) -> Result<(), AllocError>
    requires { length targets.now < 2 ^ 32 }
    ensures { OnOk result (out.new.items ≡ out.old.items ++ switch_bytes end targets.now) }
{
    push_word(targets.len() as u32, out)?;
    for k in 0..targets.len() {
        push_word(distance(end, targets[k]), out)?;
    }
    Ok(())
}

/// Appends a number in the bytes of its operand.
#[tactic(auto, unfolding(crate::specs::Assembly::arg_bytes))]
fn push_number(operand: Operand, number: i64, out: &mut Vec<u8>) -> Result<(), AllocError>
    requires { IsTrue (arg_fits operand (Num number)) }
    ensures { OnOk result (out.new.items ≡ out.old.items ++ arg_bytes (λ units. 0) 0 operand (Num number)) }
{
    match operand {
        Operand::I8 => out.extend_from_slice(&[(number as i8).cast_unsigned()]),
        Operand::U8 => out.extend_from_slice(&[number as u8]),
        Operand::U16 => out.extend_from_slice(&(number as u16).to_le_bytes()),
        Operand::I32 => push_word((number as i32).cast_unsigned(), out),
        _ => out.extend_from_slice(&number.cast_unsigned().to_le_bytes()),
    }
}

/// Appends a token.
fn push_token(token: Token, out: &mut Vec<u8>) -> Result<(), AllocError>
    requires { IsTrue (token_is_small token) }
    ensures { OnOk result (out.new.items ≡ out.old.items ++ to_le_bytes w32 (number_of token)) }
{
    push_word(token.number(), out)
}

/// The offset of a user text that a heap has.
#[tactic(auto)]
fn user_offset(heaps: &mut HeapBuilder, units: &[u16]) -> Result<u32, AllocError>
    requires { is_kept heaps.old.users (unit_bytes units.now) ≡ true }
    ensures offset { IfOk result (λ x. x ≡ user_offset heaps.old (unit_bytes units.now)) }
    ensures same { heaps.new ≡ heaps.old }
{
    match heaps.add_user(units) {
        Ok(offset) => Ok(offset),
        Err(BuildFault::Memory) => Err(AllocError),
        Err(BuildFault::TooLarge(_)) => unreachable!(),
    }
}

/// Appends the token of a user text that a heap has.
fn push_user(heaps: &mut HeapBuilder, units: &Units, out: &mut Vec<u8>) -> Result<(), AllocError>
    requires kept { is_kept heaps.old.users (unit_bytes units.now) ≡ true }
    requires low { user_offset heaps.old (unit_bytes units.now) < 2 ^ 24 }
    ensures bytes { OnOk result (out.new.items
        ≡ out.old.items ++ to_le_bytes w32 (0x70000000 + user_offset heaps.old (unit_bytes units.now))) }
    ensures same { heaps.new ≡ heaps.old }
{
    let offset = user_offset(heaps, units.as_slice())?;
    push_word(0x7000_0000 + offset, out)
}

/// Appends the target of a branch, from the end of its instruction.
#[tactic(auto, unfolding(crate::specs::Assembly::arg_bytes))]
fn push_target(operand: Operand, end: u32, target: u32, out: &mut Vec<u8>) -> Result<(), AllocError>
    requires { IsTrue (arg_fits operand (Target target)) }
    ensures { OnOk result (out.new.items ≡ out.old.items ++ arg_bytes (λ units. 0) end operand (Target target)) }
{
    let distance = distance(end, target);
    if operand == Operand::Branch8 {
        return out.extend_from_slice(&[(distance % 0x100) as u8]);
    }
    push_word(distance, out)
}

/// Appends the operand of an instruction that ends at a place.
#[tactic(auto, unfolding(crate::specs::Assembly::arg_bytes))]
fn push_arg(
    instr: &InstrValue,
    end: u32,
    heaps: &mut HeapBuilder,
    out: &mut Vec<u8>,
) -> Result<(), AllocError>
    requires fits { IsTrue (arg_fits instr.now.op.operand instr.now.arg) }
    requires size { operand_size instr.now.op.operand (arg_meant instr.now.arg) < 2 ^ 32 }
    requires small { IsTrue (arg_is_small (user_offset heaps.old) instr.now.arg) }
    requires kept { IsTrue (text_is_kept heaps.old instr.now.arg) }
    ensures bytes { OnOk result (out.new.items
        ≡ out.old.items ++ arg_bytes (user_offset heaps.old) end instr.now.op.operand instr.now.arg) }
    ensures same { heaps.new ≡ heaps.old }
{
    match &instr.arg {
        ArgValue::None => Ok(()),
        ArgValue::Num(number) => push_number(instr.op.operand, *number, out),
        ArgValue::Target(target) => push_target(instr.op.operand, end, *target, out),
        ArgValue::Targets(targets) => push_switch(targets.as_slice(), end, out),
        ArgValue::Token(token) => push_token(*token, out),
        ArgValue::User(units) => push_user(heaps, units, out),
        ArgValue::Raw(bytes) => out.extend_from_slice(bytes.as_slice()),
    }
}

/// Appends an instruction that ends at a place.
#[tactic(auto, unfolding(crate::specs::Assembly::instr_bytes, enc_opcodes::specs::Sound::instruction_size))]
pub fn push_instr(
    instr: &InstrValue,
    end: u32,
    heaps: &mut HeapBuilder,
    out: &mut Vec<u8>,
) -> Result<(), AllocError>
    requires fits { IsTrue (instr_fits instr.now) }
    requires size { instruction_size (instr_meant instr.now) < 2 ^ 32 }
    requires small { IsTrue (arg_is_small (user_offset heaps.old) instr.now.arg) }
    requires kept { IsTrue (text_is_kept heaps.old instr.now.arg) }
    ensures bytes { OnOk result (out.new.items ≡ out.old.items ++ instr_bytes (user_offset heaps.old) end instr.now) }
    ensures same { heaps.new ≡ heaps.old }
{
    push_op(instr.op, out)?;
    push_arg(instr, end, heaps, out)
}
