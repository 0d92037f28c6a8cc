//! The instructions of `enc_opcodes` by their codes and by their names (ECMA-335 III.1.2.1).

use crate::lines::{Args, Fault, told};
use enc_opcodes::{Op, op_from, op_name, op_of};
use std::alloc::Global;

/// An instruction by its code, its name and its operand.
fn told_op(alloc: Global, op: Op, name: &str) -> Result<String, Fault> {
    let (code, operand) = (op.byte, op.operand);
    Ok(format!(in alloc; "{code:02x} {name} {operand:?}")?)
}

/// The instruction that the two bytes of `op_from BYTE BYTE` begin with.
fn from(alloc: Global, args: &mut Args<'_>) -> Result<String, Fault> {
    let first = args.hex_byte()?;
    let second = args.hex_byte()?;
    match op_from(first, second) {
        Some(op) => told_op(alloc, op, op_name(op)),
        None => told::word(alloc, "none"),
    }
}

/// The instruction of the name in `op_of "NAME"`.
fn of(alloc: Global, args: &mut Args<'_>) -> Result<String, Fault> {
    match op_of(args.quoted()?) {
        Some(op) => told_op(alloc, op, op_name(op)),
        None => told::word(alloc, "none"),
    }
}

/// The answer to a call of this file, None where the call is another.
pub fn answer(alloc: Global, call: &str, args: &mut Args<'_>) -> Result<Option<String>, Fault> {
    Ok(Some(match call {
        "op_from" => from(alloc, args)?,
        "op_of" => of(alloc, args)?,
        _ => return Ok(None),
    }))
}
