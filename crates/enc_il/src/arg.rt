//! What stands behind an instruction's code (ECMA-335 III.1.9).
ghost use Rattle.std.specs.Prelude.{◌≡◌, ◌<◌, ◌≤◌, ◌^◌, option_map, length, IfSome};
ghost use Rattle.enc_opcodes.specs.declared.op.Operand.TheVariants as operand;
ghost use Rattle.enc_opcodes.specs.Instruction.{arg_in, switch_in, widened as widened_byte, target_at as target_from, are_reached as all_are_reached};
ghost use Rattle.enc_il.specs.Seen.{operand_seen};

use crate::bytes::range_at;
use enc_base::{Token, u8_at, u16_at, u32_at, u32_of, u64_at};
use enc_opcodes::{Arg, Operand};

/// A signed number of one byte.
#[tactic(auto, unfolding(enc_opcodes::specs::Instruction::arg_in))]
fn i8_arg(code: &[u8], at: usize) -> Option<(Arg<'_>, usize)>
    ensures arg { option_map operand_seen result ≡ arg_in operand.I8 code.now at }
    ensures within { IfSome result (λ x. x.1 ≤ length code.now) }
{
    let number = u8_at(code, at)?.cast_signed();
    Some((Arg::Num(i64::from(number)), at + 1))
}

/// An unsigned number of one byte.
#[tactic(auto, unfolding(enc_opcodes::specs::Instruction::arg_in))]
fn u8_arg(code: &[u8], at: usize) -> Option<(Arg<'_>, usize)>
    ensures arg { option_map operand_seen result ≡ arg_in operand.U8 code.now at }
    ensures within { IfSome result (λ x. x.1 ≤ length code.now) }
{
    let number = u8_at(code, at)?;
    Some((Arg::Num(i64::from(number)), at + 1))
}

/// An unsigned number of two bytes.
#[tactic(auto, unfolding(enc_opcodes::specs::Instruction::arg_in))]
fn u16_arg(code: &[u8], at: usize) -> Option<(Arg<'_>, usize)>
    ensures arg { option_map operand_seen result ≡ arg_in operand.U16 code.now at }
    ensures within { IfSome result (λ x. x.1 ≤ length code.now) }
{
    let number = u16_at(code, at)?;
    Some((Arg::Num(i64::from(number)), at + 2))
}

/// A signed number of four bytes.
#[tactic(auto, unfolding(enc_opcodes::specs::Instruction::arg_in))]
fn i32_arg(code: &[u8], at: usize) -> Option<(Arg<'_>, usize)>
    ensures arg { option_map operand_seen result ≡ arg_in operand.I32 code.now at }
    ensures within { IfSome result (λ x. x.1 ≤ length code.now) }
{
    let number = u32_at(code, at)?.cast_signed();
    Some((Arg::Num(i64::from(number)), at + 4))
}

/// A signed number of eight bytes.
#[tactic(auto, unfolding(enc_opcodes::specs::Instruction::arg_in))]
fn i64_arg(code: &[u8], at: usize) -> Option<(Arg<'_>, usize)>
    ensures arg { option_map operand_seen result ≡ arg_in operand.I64 code.now at }
    ensures within { IfSome result (λ x. x.1 ≤ length code.now) }
{
    let number = u64_at(code, at)?.cast_signed();
    Some((Arg::Num(number), at + 8))
}

/// The bytes of a float of four.
#[tactic(auto, unfolding(enc_opcodes::specs::Instruction::arg_in, enc_opcodes::specs::Instruction::range_at))]
fn r4_arg(code: &[u8], at: usize) -> Option<(Arg<'_>, usize)>
    ensures arg { option_map operand_seen result ≡ arg_in operand.R4 code.now at }
    ensures within { IfSome result (λ x. x.1 ≤ length code.now) }
{
    let bytes = range_at(code, at, 4)?;
    Some((Arg::Raw(bytes), at + 4))
}

/// The bytes of a float of eight.
#[tactic(auto, unfolding(enc_opcodes::specs::Instruction::arg_in, enc_opcodes::specs::Instruction::range_at))]
fn r8_arg(code: &[u8], at: usize) -> Option<(Arg<'_>, usize)>
    ensures arg { option_map operand_seen result ≡ arg_in operand.R8 code.now at }
    ensures within { IfSome result (λ x. x.1 ≤ length code.now) }
{
    let bytes = range_at(code, at, 8)?;
    Some((Arg::Raw(bytes), at + 8))
}

/// A signed byte as the distance of four bytes that is equal to it.
fn widened(distance: u8) -> u32
    ensures { result ≡ widened_byte distance }
{
    if distance < 0x80 {
        u32::from(distance)
    } else {
        u32::from(distance) + 0xffff_ff00
    }
}

/// The offset at a signed distance from the end of an instruction, None where the sum isn't one.
fn target_at(end: u32, distance: u32) -> Option<u32>
    ensures { result ≡ target_from end distance }
{
    if distance < 0x8000_0000 {
        return end.checked_add(distance);
    }
    end.checked_sub(0xffff_ffff - distance + 1)
}

/// The target at a signed distance of one byte.
#[tactic(auto, unfolding(enc_opcodes::specs::Instruction::arg_in))]
fn branch8_arg(code: &[u8], at: usize) -> Option<(Arg<'_>, usize)>
    requires few { length code.now < 2 ^ 32 }
    ensures arg { option_map operand_seen result ≡ arg_in operand.Branch8 code.now at }
    ensures within { IfSome result (λ x. x.1 ≤ length code.now) }
{
    let distance = u8_at(code, at)?;
    let end = at + 1;
    let target = target_at(end as u32, widened(distance))?;
    Some((Arg::Target(target), end))
}

/// The target at a signed distance of four bytes.
#[tactic(auto, unfolding(enc_opcodes::specs::Instruction::arg_in))]
fn branch32_arg(code: &[u8], at: usize) -> Option<(Arg<'_>, usize)>
    requires few { length code.now < 2 ^ 32 }
    ensures arg { option_map operand_seen result ≡ arg_in operand.Branch32 code.now at }
    ensures within { IfSome result (λ x. x.1 ≤ length code.now) }
{
    let distance = u32_at(code, at)?;
    let end = at + 4;
    let target = target_at(end as u32, distance)?;
    Some((Arg::Target(target), end))
}

/// Whether a `switch` that ends there has a target at each of these distances of four bytes.
#[tactic(auto, unfolding(enc_opcodes::specs::Instruction::are_reached))]
fn are_reached(end: u32, distances: &[u8]) -> bool
    ensures { result ≡ all_are_reached end distances.now }
{
    let mut rest = distances;
    while let [a, b, c, d, tail @ ..] = rest {
        if target_at(end, u32_of([*a, *b, *c, *d])).is_none() {
            return false;
        }
        rest = tail;
    }
    true
}

/// The distances of a `switch`, each with a target.
#[tactic(auto, unfolding(enc_opcodes::specs::Instruction::switch_in, enc_opcodes::specs::Instruction::range_at))]
fn switch_arg(code: &[u8], at: usize) -> Option<(Arg<'_>, usize)>
    requires few { length code.now < 2 ^ 32 }
    ensures arg { option_map operand_seen result ≡ switch_in code.now at }
    ensures within { IfSome result (λ x. x.1 ≤ length code.now) }
{
    let size = 4 * u32_at(code, at)? as usize;
    let distances = range_at(code, at + 4, size)?;
    let end = at + 4 + size;
    if !are_reached(end as u32, distances) {
        return None;
    }
    Some((Arg::Targets(distances), end))
}

/// A metadata token.
#[tactic(auto, unfolding(enc_opcodes::specs::Instruction::arg_in))]
fn token_arg(code: &[u8], at: usize) -> Option<(Arg<'_>, usize)>
    ensures arg { option_map operand_seen result ≡ arg_in operand.Token code.now at }
    ensures within { IfSome result (λ x. x.1 ≤ length code.now) }
{
    let number = u32_at(code, at)?;
    Some((Arg::Token(Token::of(number)), at + 4))
}

/// The token of a user string, which is of table 70. Another token is what it is.
#[tactic(auto, unfolding(enc_opcodes::specs::Instruction::arg_in))]
fn user_arg(code: &[u8], at: usize) -> Option<(Arg<'_>, usize)>
    ensures arg { option_map operand_seen result ≡ arg_in operand.User code.now at }
    ensures within { IfSome result (λ x. x.1 ≤ length code.now) }
{
    let number = u32_at(code, at)?;
    if number / 0x100_0000 == 0x70 {
        return Some((Arg::User(number % 0x100_0000), at + 4));
    }
    Some((Arg::Token(Token::of(number)), at + 4))
}

/// The operand at a place, and the place behind it. None where it doesn't stand whole there.
#[inline(always)]
#[tactic(auto, unfolding(enc_opcodes::specs::Instruction::arg_in))]
pub fn arg_at(operand: Operand, code: &[u8], at: usize) -> Option<(Arg<'_>, usize)>
    requires few { length code.now < 2 ^ 32 }
    requires within { at ≤ length code.now }
    ensures arg { option_map operand_seen result ≡ arg_in operand code.now at }
    ensures within { IfSome result (λ x. x.1 ≤ length code.now) }
{
    match operand {
        Operand::None => Some((Arg::None, at)),
        Operand::I8 => i8_arg(code, at),
        Operand::U8 => u8_arg(code, at),
        Operand::U16 => u16_arg(code, at),
        Operand::I32 => i32_arg(code, at),
        Operand::I64 => i64_arg(code, at),
        Operand::R4 => r4_arg(code, at),
        Operand::R8 => r8_arg(code, at),
        Operand::Branch8 => branch8_arg(code, at),
        Operand::Branch32 => branch32_arg(code, at),
        Operand::Switch => switch_arg(code, at),
        Operand::Token => token_arg(code, at),
        Operand::User => user_arg(code, at),
    }
}
