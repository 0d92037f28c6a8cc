//! The instructions of a stated body, their targets by their indices.
ghost use Rattle.std.specs.Prelude.{◌≡◌, ◌++◌, map, option_map, option_and_then, flat_map, IfOk, OnOk};
ghost use Rattle.std.specs.Str.{chars};
ghost use Rattle.std.specs.Char.Escape.{encode_utf16};
ghost use Rattle.std.specs.Result.{result_map_both};
ghost use Rattle.serde_json.specs.View.{view};
ghost use Rattle.enc_edit_list.specs.Form.{lies_in};
ghost use Rattle.enc_edit_list.specs.declared.body.ArgValue.TheVariants.{Num, Targets};
ghost use Rattle.enc_jobs.specs.Outcome.{ReadsAs};
ghost use Rattle.enc_jobs.specs.Json.{elements_of, word_said};
ghost use Rattle.enc_jobs.specs.Lists.{every};
ghost use Rattle.enc_jobs.specs.Instr.{whole_said, units_said, operand_said, argument_said, named_said, instr_said};

use crate::fault::Refused;
use crate::value::{elements, exact_bytes, text, token, word};
use enc_base::Units;
use enc_edit_list::{ArgValue, InstrValue, TargetList};
use enc_opcodes::{Operand, op_of};
use serde_json::Value;
use std::alloc::{AllocError, Global};

/// Whether a number lies at most so far below zero and so far above.
fn lies_in(number: i64, below: u64, above: u64) -> bool
    ensures { result ≡ lies_in number below above }
{
    if number < 0 {
        number.unsigned_abs() <= below
    } else {
        number.unsigned_abs() <= above
    }
}

/// A whole number, at most so far below zero and so far above.
#[tactic(auto, unfolding(crate::specs::Instr::whole_said))]
fn whole(below: u64, above: u64, value: &Value) -> Result<ArgValue, Refused>
    ensures { ReadsAs result (whole_said below above (view value.now)) }
{
    match value.as_i64() {
        Some(number) if lies_in(number, below, above) => Ok(ArgValue::Num(number)),
        _ => Err(Refused::Form),
    }
}

/// Appends the one or two UTF-16 units of a character.
fn push_units(c: char, units: &mut Units) -> Result<(), AllocError>
    ensures { OnOk result (units.new ≡ units.old ++ encode_utf16 c) }
{
    let code = u32::from(c);
    if code < 0x1_0000 {
        return units.push(code as u16);
    }
    units.push((0xD800 + (code - 0x1_0000) / 0x400) as u16)?;
    units.push((0xDC00 + (code - 0x1_0000) % 0x400) as u16)
}

/// The UTF-16 units of a text.
fn units_of(alloc: Global, text: &str) -> Result<Units, AllocError>
    ensures { IfOk result (λ units. units ≡ flat_map encode_utf16 (chars text.now)) }
{
    let mut units = Units::begin(alloc);
    for c in text.chars() {
        push_units(c, &mut units)?;
    }
    Ok(units)
}

/// A user text.
#[tactic(auto, unfolding(crate::specs::Instr::units_said))]
fn units(alloc: Global, value: &Value) -> Result<Units, Refused>
    ensures { ReadsAs result (units_said (view value.now)) }
{
    let text = text(value)?;
    Ok(units_of(alloc, text)?)
}

/// The indices of the targets of a `switch`.
#[tactic(auto, using(crate::proofs::Loops::every_steps))]
fn indices(alloc: Global, items: &[Value]) -> Result<TargetList, Refused>
    ensures { ReadsAs result (every word_said (map view items.now)) }
{
    let mut list = TargetList::begin(alloc);
    for value in items {
        list.push(word(value)?)?;
    }
    Ok(list)
}

/// The targets of a `switch`, by their indices.
fn targets(alloc: Global, value: &Value) -> Result<ArgValue, Refused>
    ensures { ReadsAs result (option_map Targets (option_and_then (every word_said) (elements_of (view value.now)))) }
{
    let items = elements(value)?;
    Ok(ArgValue::Targets(indices(alloc, items)?))
}

/// What an operand says; a branch names its target by the index of an instruction, from 0.
#[tactic(auto, unfolding(crate::specs::Instr::operand_said))]
fn operand(alloc: Global, kind: Operand, value: &Value) -> Result<ArgValue, Refused>
    ensures { ReadsAs result (operand_said kind (view value.now)) }
{
    match kind {
        Operand::None => Err(Refused::Form),
        Operand::I8 => whole(0x80, 0x7F, value),
        Operand::U8 => whole(0, 0xFF, value),
        Operand::U16 => whole(0, 0xFFFF, value),
        Operand::I32 => whole(0x8000_0000, 0x7FFF_FFFF, value),
        Operand::I64 => whole(0x8000_0000_0000_0000, 0x7FFF_FFFF_FFFF_FFFF, value),
        Operand::R4 => Ok(ArgValue::Raw(exact_bytes(alloc, 4, value)?)),
        Operand::R8 => Ok(ArgValue::Raw(exact_bytes(alloc, 8, value)?)),
        Operand::Branch8 | Operand::Branch32 => Ok(ArgValue::Target(word(value)?)),
        Operand::Switch => targets(alloc, value),
        Operand::Token => Ok(ArgValue::Token(token(value)?)),
        Operand::User => Ok(ArgValue::User(units(alloc, value)?)),
    }
}

/// What stands behind an instruction's name: its operand, or nothing.
#[tactic(auto, unfolding(crate::specs::Instr::argument_said))]
fn argument(alloc: Global, kind: Operand, rest: &[Value]) -> Result<ArgValue, Refused>
    ensures { ReadsAs result (argument_said kind (map view rest.now)) }
{
    match rest {
        [] if kind == Operand::None => Ok(ArgValue::None),
        [value] => operand(alloc, kind, value),
        _ => Err(Refused::Form),
    }
}

/// The instruction of an array's elements.
fn named(alloc: Global, items: &[Value]) -> Result<InstrValue, Refused>
    ensures { ReadsAs result (named_said (map view items.now)) }
{
    let [name, rest @ ..] = items else {
        return Err(Refused::Form);
    };
    let name = text(name)?;
    let Some(op) = op_of(name) else {
        return Err(Refused::Form);
    };
    let arg = argument(alloc, op.operand, rest)?;
    Ok(InstrValue { op, arg })
}

/// An instruction, its targets by their indices.
#[tactic(auto, unfolding(crate::specs::Instr::instr_said))]
fn instr(alloc: Global, value: &Value) -> Result<InstrValue, Refused>
    ensures { ReadsAs result (instr_said (view value.now)) }
{
    let items = elements(value)?;
    named(alloc, items)
}

/// Instructions, their targets by their indices.
#[tactic(auto, using(crate::proofs::Loops::every_steps))]
pub fn instrs(alloc: Global, items: &[Value]) -> Result<Vec<InstrValue>, Refused>
    ensures { ReadsAs (result_map_both (λ v. v.items) (λ e. e) result) (every instr_said (map view items.now)) }
{
    let mut list = Vec::new(alloc);
    for value in items {
        list.push(instr(alloc, value)?)?;
    }
    Ok(list)
}
