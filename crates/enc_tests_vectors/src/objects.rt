//! The interpreter's values, and what instructions on values alone give (ECMA-335 III.1.1, III.3).

use crate::lines::{Args, Fault};
use enc_objects::{Kind, Trap, Value, binary, convert, is_binary, is_unary};
use enc_opcodes::{Op, Operand, op_of};
use std::alloc::Global;

/// A kind by its name: `I1`, `U1`, `I2`, `U2`, `I4`, `U4`, `I8`, `U8` or `Ref`.
pub fn kind(args: &mut Args<'_>) -> Result<Kind, Fault> {
    match args.word()? {
        "I1" => Ok(Kind::I1),
        "U1" => Ok(Kind::U1),
        "I2" => Ok(Kind::I2),
        "U2" => Ok(Kind::U2),
        "I4" => Ok(Kind::I4),
        "U4" => Ok(Kind::U4),
        "I8" => Ok(Kind::I8),
        "U8" => Ok(Kind::U8),
        "Ref" => Ok(Kind::Ref),
        _ => Err(Fault::Form),
    }
}

/// An integer of 32 bits.
fn int32(word: &str) -> Result<Value, Fault> {
    match word.parse::<i32>() {
        Ok(number) => Ok(Value::I4(number)),
        Err(_) => Err(Fault::Form),
    }
}

/// An integer of 64 bits.
fn int64(word: &str) -> Result<Value, Fault> {
    match word.parse::<i64>() {
        Ok(number) => Ok(Value::I8(number)),
        Err(_) => Err(Fault::Form),
    }
}

/// A reference to the object of a number.
fn object(word: &str) -> Result<Value, Fault> {
    match word.parse::<u32>() {
        Ok(number) => Ok(Value::Obj(number)),
        Err(_) => Err(Fault::Form),
    }
}

/// A value: `5` of 32 bits, `5L` of 64, `null`, or `#3`, which refers to object 3.
pub fn value(args: &mut Args<'_>) -> Result<Value, Fault> {
    let word = args.word()?;
    if word == "null" {
        return Ok(Value::Null);
    }
    if let Some(number) = word.strip_prefix('#') {
        return object(number);
    }
    match word.strip_suffix('L') {
        Some(number) => int64(number),
        None => int32(word),
    }
}

/// A value, spelled as `value` reads it.
pub fn spelled(alloc: Global, value: Value) -> Result<String, Fault> {
    Ok(match value {
        Value::I4(number) => format!(in alloc; "{number}")?,
        Value::I8(number) => format!(in alloc; "{number}L")?,
        Value::Null => String::from_str(alloc, "null")?,
        Value::Obj(number) => format!(in alloc; "#{number}")?,
    })
}

/// The instruction of a name.
fn instruction(args: &mut Args<'_>) -> Result<Op, Fault> {
    op_of(args.word()?).ok_or(Fault::Form)
}

/// A value, or the trap by its code.
fn outcome(alloc: Global, outcome: Result<Value, Trap>) -> Result<String, Fault> {
    match outcome {
        Ok(value) => spelled(alloc, value),
        Err(trap) => Ok(format!(in alloc; "{trap:?}")?),
    }
}

/// What `binary INSTRUCTION VALUE VALUE` gives, the second value the upper on the stack.
fn on_two(alloc: Global, op: Op, args: &mut Args<'_>) -> Result<String, Fault> {
    let a = value(args)?;
    let b = value(args)?;
    outcome(alloc, binary(op, a, b))
}

/// The same for the instruction's code with a token behind it, which is no instruction.
fn on_two_with_token(alloc: Global, op: Op, args: &mut Args<'_>) -> Result<String, Fault> {
    let op = Op {
        byte: op.byte,
        operand: Operand::Token,
    };
    on_two(alloc, op, args)
}

/// What `convert INSTRUCTION VALUE` gives.
fn on_one(alloc: Global, op: Op, args: &mut Args<'_>) -> Result<String, Fault> {
    let a = value(args)?;
    outcome(alloc, convert(op, a))
}

/// How many values an instruction on values alone takes from the stack, 0 where it is another.
fn taken(alloc: Global, op: Op) -> Result<String, Fault> {
    let count = match (is_binary(op), is_unary(op)) {
        (true, false) => "2",
        (false, true) => "1",
        (false, false) => "0",
        (true, true) => "both",
    };
    Ok(String::from_str(alloc, count)?)
}

/// The answer to `default KIND`: what a place of the kind holds at first.
fn default(alloc: Global, args: &mut Args<'_>) -> Result<String, Fault> {
    let kind = kind(args)?;
    spelled(alloc, kind.default_value())
}

/// The answer to `stored KIND VALUE`: the value as a place of the kind holds it, `none` for a wrong one.
fn stored(alloc: Global, args: &mut Args<'_>) -> Result<String, Fault> {
    let kind = kind(args)?;
    match kind.stored(value(args)?) {
        Some(value) => spelled(alloc, value),
        None => Ok(String::from_str(alloc, "none")?),
    }
}

/// The answer to a call of this file, None where the call is another: a value, or the code of a trap.
///
/// - `binary INSTRUCTION VALUE VALUE`, `binary_with_token ..`, `convert INSTRUCTION VALUE`
/// - `takes INSTRUCTION`: how many values it takes
/// - `default KIND`, `stored KIND VALUE`
pub fn answer(alloc: Global, call: &str, args: &mut Args<'_>) -> Result<Option<String>, Fault> {
    Ok(Some(match call {
        "binary" => on_two(alloc, instruction(args)?, args)?,
        "binary_with_token" => on_two_with_token(alloc, instruction(args)?, args)?,
        "convert" => on_one(alloc, instruction(args)?, args)?,
        "takes" => taken(alloc, instruction(args)?)?,
        "default" => default(alloc, args)?,
        "stored" => stored(alloc, args)?,
        _ => return Ok(None),
    }))
}
