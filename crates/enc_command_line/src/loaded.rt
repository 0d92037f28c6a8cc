//! The sum of the numbers that the methods of a module load.
ghost use Rattle.std.specs.Prelude.{◌≡◌, ◌<◌, ◌^◌, ◌%◌, ℕ, List, length, sum_by, IsTrue};
ghost use Rattle.enc_base.specs.Tables.{method_def};
ghost use Rattle.enc_opcodes.specs.Instruction.{Instruction, instructions_of};
ghost use Rattle.enc_il.specs.Seen.{instr_seen};
ghost use Rattle.enc_plain.specs.Module.{has_row, cell_of};
ghost use Rattle.enc_command_line.specs.Case.{loaded_by, loaded_in_body, sum_loaded as sum_of_loaded};

use enc_base::Token;
use enc_base::tables::METHOD_DEF;
use enc_il::instr_at;
use enc_opcodes::{Arg, CodeRef, Instr};
use enc_plain::ModuleView;

/// What an instruction loads, if it is `ldc.i4` with an operand, as a number of 64 bits.
fn loaded(instr: &Instr<'_>, end: u32) -> u64
    ensures { result ≡ loaded_by (instr_seen (instr.now, end)).0 }
{
    if instr.op.byte != 0x20 {
        return 0;
    }
    match instr.arg {
        Arg::Num(n) => n.cast_unsigned(),
        _ => 0,
    }
}

/// What all instructions of a body load, modulo 2^64.
fn loaded_in(code: &CodeRef<'_>) -> u64
    requires few { length code.now.code.now < 2 ^ 32 }
    ensures { result ≡ sum_by (λ (x : ℕ × Instruction ℕ). loaded_by x.1) (instructions_of code.now.code.now) % 2 ^ 64 }
{
    let mut sum: u64 = 0;
    let mut at = 0;
    while let Some((instr, end)) = instr_at(code, at) {
        sum = sum.wrapping_add(loaded(&instr, end));
        at = end;
    }
    sum
}

/// What the instructions of a method load, modulo 2^64.
fn loaded_in_method<V: ModuleView>(view: &V, method: Token) -> u64
    requires row { IsTrue (has_row (V.meaning view.now) method) }
    requires table { method.table ≡ method_def }
    ensures { result ≡ loaded_in_body (cell_of (V.meaning view.now) method 0) % 2 ^ 64 }
{
    match view.code(method) {
        Some(code) => loaded_in(&code),
        None => 0,
    }
}

/// What the instructions of all methods load, modulo 2^64.
pub fn sum_loaded<V: ModuleView>(view: &V) -> u64
    ensures { result ≡ sum_of_loaded (V.meaning view.now) }
{
    let mut sum: u64 = 0;
    for n in 0..view.count(METHOD_DEF) {
        let method = Token {
            table: METHOD_DEF,
            row: n + 1,
        };
        sum = sum.wrapping_add(loaded_in_method(view, method));
    }
    sum
}
