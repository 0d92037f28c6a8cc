//! How long stated instructions are, and where they begin (ECMA-335 III.1.2).
ghost use Rattle.std.specs.Prelude.{◌≡◌, ℕ, ◌≤◌, ◌<◌, ◌^◌, ◌+◌, min, if◌then◌else◌, nat_le, IfOk};
ghost use Rattle.std.specs.List.{list_all};
ghost use Rattle.enc_opcodes.specs.Sound.{instruction_size, begins_at};
ghost use Rattle.enc_edit_list.specs.Sizes.{instr_meant, length_of_code, placed};
ghost use Rattle.enc_edit_list.specs.Reach.{lies_close, lies_in_reach, argument_reaches, branches_reach};
ghost use Rattle.enc_edit_list.specs.declared.body.ArgValue.TheVariants.{Target, Targets};
ghost use Rattle.enc_rules.specs.Marked.{is_marked};
ghost use Rattle.enc_rules.specs.Sums.{most_room};

use crate::sums::capped;
use enc_edit_list::{ArgValue, InstrValue, instruction_size};
use enc_opcodes::Operand;
use std::alloc::{AllocError, Global};

/// The bytes of an instruction.
fn size_of(instr: &InstrValue) -> u64
    ensures size { result ≡ instruction_size (instr_meant instr.now) }
    ensures some { 1 ≤ result }
    ensures few { result ≤ 2 ^ 63 + 2 }
{
    instruction_size(instr) as u64
}

/// The bytes of instructions, up to the limit of sums.
pub fn length_of_code(code: &[InstrValue]) -> u64
    ensures length { result ≡ min most_room (length_of_code code.now) }
    ensures few { result ≤ most_room }
{
    let mut sum = 0;
    let mut rest = code;
    while let [instr, tail @ ..] = rest {
        sum = capped(sum + size_of(instr));
        rest = tail;
    }
    sum
}

/// For each byte of the code, whether an instruction begins there.
pub fn marks_of(alloc: Global, code: &[InstrValue], size: usize) -> Result<Vec<bool>, AllocError>
    requires size { length_of_code code.now ≡ size }
    requires few { size < 2 ^ 32 }
    ensures { IfOk result (λ marks. (t : ℕ) → is_marked marks.items t ≡ begins_at (placed 0 code.now) t) }
{
    let mut marks = vec![in alloc; false; size]?;
    let mut at: usize = 0;
    let mut rest = code;
    while let [instr, tail @ ..] = rest {
        let size = size_of(instr) as usize;
        marks[at] = true;
        at += size;
        rest = tail;
    }
    Ok(marks)
}

/// A short branch reaches its target from the end of its instruction.
fn lies_close(end: u64, target: u32) -> bool
    requires { end < 2 ^ 32 }
    ensures { result ≡ lies_close end target }
{
    end <= u64::from(target) + 128 && u64::from(target) <= end + 127
}

/// A long branch reaches its target from the end of its instruction.
fn lies_in_reach(end: u64, target: u32) -> bool
    requires { end < 2 ^ 32 }
    ensures { result ≡ lies_in_reach end target }
{
    end <= u64::from(target) + 0x8000_0000 && u64::from(target) < end + 0x8000_0000
}

/// A branch of this operand reaches its target.
fn target_reaches(end: u64, operand: Operand, target: u32) -> bool
    requires { end < 2 ^ 32 }
    ensures { result ≡ argument_reaches end operand (Target target) }
{
    match operand {
        Operand::Branch8 => lies_close(end, target),
        Operand::Branch32 => lies_in_reach(end, target),
        _ => true,
    }
}

/// A `switch` reaches all its targets.
fn lie_in_reach(end: u64, targets: &[u32]) -> bool
    requires { end < 2 ^ 32 }
    ensures { result ≡ list_all (lies_in_reach end) targets.now }
{
    let mut rest = targets;
    while let [target, tail @ ..] = rest {
        if !lies_in_reach(end, *target) {
            return false;
        }
        rest = tail;
    }
    true
}

/// An instruction of this operand reaches all its targets.
fn targets_reach(end: u64, operand: Operand, targets: &[u32]) -> bool
    requires { end < 2 ^ 32 }
    ensures { result ≡ argument_reaches end operand (Targets targets.now) }
{
    match operand {
        Operand::Switch => lie_in_reach(end, targets),
        _ => true,
    }
}

/// The instruction that ends there reaches its targets.
fn argument_reaches(end: u64, instr: &InstrValue) -> bool
    requires { end < 2 ^ 32 }
    ensures { result ≡ argument_reaches end instr.now.op.operand instr.now.arg }
{
    match &instr.arg {
        ArgValue::Target(target) => target_reaches(end, instr.op.operand, *target),
        ArgValue::Targets(targets) => targets_reach(end, instr.op.operand, targets.as_slice()),
        _ => true,
    }
}

/// All branches reach their targets.
pub fn branches_reach(code: &[InstrValue]) -> bool
    requires { length_of_code code.now < 2 ^ 32 }
    ensures { result ≡ branches_reach 0 code.now }
{
    let mut at: u64 = 0;
    let mut rest = code;
    while let [instr, tail @ ..] = rest {
        at += size_of(instr);
        if !argument_reaches(at, instr) {
            return false;
        }
        rest = tail;
    }
    true
}
