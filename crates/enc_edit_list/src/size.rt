//! How many bytes a stated instruction takes.
ghost use Rattle.std.specs.Prelude.{◌≡◌, ◌<◌, ◌≤◌, ◌+◌, ◌^◌};
ghost use Rattle.enc_opcodes.specs.Sound.{target_count, operand_size as bytes_of_operand, instruction_size};
ghost use Rattle.enc_edit_list.specs.Sizes.{arg_meant, instr_meant};

use crate::body::{ArgValue, InstrValue};
use enc_opcodes::Operand;

/// How many targets a `switch` has.
fn target_count(arg: &ArgValue) -> usize
    ensures count { result ≡ target_count (arg_meant arg.now) }
    ensures few { result < 2 ^ 61 }
{
    match arg {
        ArgValue::Targets(targets) => targets.as_slice().len(),
        _ => 0,
    }
}

/// The bytes of an operand.
fn operand_size(kind: Operand, arg: &ArgValue) -> u128
    ensures size { result ≡ bytes_of_operand kind (arg_meant arg.now) }
    ensures few { result ≤ 2 ^ 63 }
{
    match kind {
        Operand::None => 0,
        Operand::I8 | Operand::U8 | Operand::Branch8 => 1,
        Operand::U16 => 2,
        Operand::I32 | Operand::R4 | Operand::Branch32 | Operand::Token | Operand::User => 4,
        Operand::I64 | Operand::R8 => 8,
        Operand::Switch => 4 + 4 * target_count(arg) as u128,
    }
}

/// How many bytes an instruction takes: its code one or two, and its operand (ECMA-335 III.1.2).
#[tactic(auto, unfolding(enc_opcodes::specs::Sound::instruction_size))]
pub fn instruction_size(instr: &InstrValue) -> u128
    ensures size { result ≡ instruction_size (instr_meant instr.now) }
    ensures some { 1 ≤ result }
    ensures few { result ≤ 2 ^ 63 + 2 }
{
    let code = if instr.op.byte >= 0xFE00 { 2 } else { 1 };
    code + operand_size(instr.op.operand, &instr.arg)
}
