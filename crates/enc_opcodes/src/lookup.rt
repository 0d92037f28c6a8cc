//! The instruction of a code and that of a name, and an instruction's name (ECMA-335 III.1.2.1).
ghost use Rattle.std.specs.Prelude.{◌≡◌, ◌+◌, ◌≤◌, ◌^◌, map, option_map, length, IfSome, IsTrue};
ghost use Rattle.enc_opcodes.specs.Table.{entry_held, one_byte_opcodes, two_byte_opcodes};
ghost use Rattle.enc_opcodes.specs.Opcodes.{code_of as code_of_bytes, op_with as op_with_code, op_at, name_of, is_op, first_named, op_named};

use crate::op::{Op, Operand};
use crate::table::{ONE_BYTE, TWO_BYTES, entry_of};

/// The code that these two bytes begin with.
fn code_of(b0: u8, b1: u8) -> u16
    ensures { result ≡ code_of_bytes b0 b1 }
{
    if b0 == 0xFE {
        0xFE00 + u16::from(b1)
    } else {
        u16::from(b0)
    }
}

/// The instruction with this code. None where there is no such instruction.
#[tactic(auto, unfolding(crate::specs::Opcodes::is_op))]
fn op_with(byte: u16) -> Option<Op>
    ensures op { result ≡ op_with_code byte }
    ensures known { IfSome result (λ o. IsTrue (is_op o)) }
{
    match entry_of(byte) {
        None => None,
        Some((_, operand)) => Some(Op { byte, operand }),
    }
}

/// The instruction that these two bytes begin with. The second is of the code only where the first
/// is 0xFE. None where no instruction has such a code.
#[tactic(auto, unfolding(crate::specs::Opcodes::op_at))]
pub fn op_from(b0: u8, b1: u8) -> Option<Op>
    ensures op { result ≡ op_at b0 b1 }
    ensures known { IfSome result (λ o. IsTrue (is_op o)) }
{
    op_with(code_of(b0, b1))
}

/// The name of an instruction in the spelling of the standard, of 14 characters at most.
#[tactic(auto, unfolding(crate::specs::Opcodes::name_of, crate::specs::Opcodes::is_op))]
pub fn op_name(op: Op) -> &'static str
    requires { IsTrue (is_op op) }
    ensures name { result.now ≡ name_of op.byte }
    ensures few { length result.now ≤ 14 }
{
    match entry_of(op.byte) {
        None => unreachable!(),
        Some((name, _)) => name,
    }
}

/// The first instruction of this name in a table, whose first place has this code.
#[tactic(auto, unfolding(crate::specs::Opcodes::first_named))]
fn named_in(name: &str, first: u16, table: &[Option<(&'static str, Operand)>]) -> Option<Op>
    requires { first + length table.now ≤ 2 ^ 16 }
    ensures { result ≡ first_named name.now first (map (option_map entry_held) table.now) }
{
    for (i, entry) in table.iter().enumerate() {
        match *entry {
            Some((known, operand)) if known == name => {
                return Some(Op {
                    byte: first + i as u16,
                    operand,
                });
            }
            _ => {}
        }
    }
    None
}

/// The instruction of this name whose code is one byte.
fn one_byte_named(name: &str) -> Option<Op>
    ensures op { result ≡ first_named name.now 0 one_byte_opcodes }
    ensures known { IfSome result (λ o. IsTrue (is_op o)) }
{
    named_in(name, 0, &ONE_BYTE)
}

/// The instruction of this name whose code is two bytes.
fn two_bytes_named(name: &str) -> Option<Op>
    ensures op { result ≡ first_named name.now 0xFE00 two_byte_opcodes }
    ensures known { IfSome result (λ o. IsTrue (is_op o)) }
{
    named_in(name, 0xFE00, &TWO_BYTES)
}

/// The instruction of this name in the spelling of the standard. None where no instruction has it.
#[tactic(auto, unfolding(crate::specs::Opcodes::op_named))]
pub fn op_of(name: &str) -> Option<Op>
    ensures op { result ≡ op_named name.now }
    ensures known { IfSome result (λ o. IsTrue (is_op o)) }
{
    match one_byte_named(name) {
        Some(op) => Some(op),
        None => two_bytes_named(name),
    }
}
