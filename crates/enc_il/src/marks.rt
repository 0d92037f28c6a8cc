//! Where the instructions of a code begin.
ghost use Rattle.std.specs.Prelude.{◌≡◌, ℕ, ◌<◌, ◌^◌, length, IfOk};
ghost use Rattle.enc_opcodes.specs.Instruction.{instructions_of};
ghost use Rattle.enc_opcodes.specs.Body.{is_instruction_start};
ghost use Rattle.enc_il.specs.Judged.{mark_at};

use crate::instr::instr_at;
use enc_opcodes::CodeRef;
use std::alloc::{AllocError, Global};

/// Whether an instruction begins at an offset, by the marks that `starts_of` makes.
pub fn is_start(marks: &[bool], offset: u32) -> bool
    ensures { result ≡ mark_at marks.now offset }
{
    match marks.get(offset as usize) {
        Some(mark) => *mark,
        None => false,
    }
}

/// For each byte of a code, whether an instruction begins there (ECMA-335 III.1.2): one pass over the
/// code, and a byte of memory for each of its bytes.
pub fn starts_of(alloc: Global, code: &CodeRef<'_>) -> Result<Vec<bool>, AllocError>
    requires { length code.now.code.now < 2 ^ 32 }
    ensures { IfOk result (λ marks. (t : ℕ)
        → mark_at marks.items t ≡ is_instruction_start (instructions_of code.now.code.now) t) }
{
    let mut marks = vec![in alloc; false; code.code.len()]?;
    let mut at = 0;
    while let Some((_, end)) = instr_at(code, at) {
        marks[at as usize] = true;
        at = end;
    }
    Ok(marks)
}
