//! The code of a stated body: its instructions, and where each of them begins.
ghost use Rattle.std.specs.Prelude.{◌≡◌, ◌+◌, ◌<◌, ◌^◌, nat_lt, Some, None, map, slice_get, if◌then◌else◌};
ghost use Rattle.std.specs.Result.{result_map_both};
ghost use Rattle.serde_json.specs.View.{view};
ghost use Rattle.enc_opcodes.specs.Sound.{instruction_size};
ghost use Rattle.enc_edit_list.specs.Sizes.{instr_meant, length_of_code, placed};
ghost use Rattle.enc_jobs.specs.Outcome.{ReadsAs};
ghost use Rattle.enc_jobs.specs.Lists.{every};
ghost use Rattle.enc_jobs.specs.Code.{within_word, offsets_of, arg_placed, instr_placed, code_said};

use crate::fault::Refused;
use crate::instr::instrs;
use crate::value::elements;
use enc_edit_list::{ArgValue, InstrList, InstrValue, TargetList, instruction_size};
use serde_json::Value;
use std::alloc::Global;

/// Where the instructions of a body begin, and where the last ends.
#[derive(Drop)]
pub struct Offsets {
    pub starts: TargetList,
    pub size: u32,
}

/// The instructions of a body, and where they stand.
#[derive(Drop)]
pub struct InstrCode {
    pub offsets: Offsets,
    pub instrs: InstrList,
}

/// The offset behind an instruction at an offset.
fn offset_behind(offset: u32, instr: &InstrValue) -> Result<u32, Refused>
    ensures { ReadsAs result (within_word (offset + instruction_size (instr_meant instr.now))) }
{
    let end = u128::from(offset) + instruction_size(instr);
    if end < 0x1_0000_0000 {
        return Ok(end as u32);
    }
    Err(Refused::Form)
}

/// Where instructions begin, and where the last ends.
#[tactic(auto, using(crate::proofs::Places::offset_steps))]
fn offsets_in(alloc: Global, code: &[InstrValue]) -> Result<Offsets, Refused>
    ensures { ReadsAs result (offsets_of code.now) }
{
    let mut starts = TargetList::begin(alloc);
    let mut size = 0;
    for instr in code {
        starts.push(size)?;
        size = offset_behind(size, instr)?;
    }
    Ok(Offsets { starts, size })
}

/// The offset of the instruction with an index.
pub fn start_at(starts: &TargetList, index: u32) -> Result<u32, Refused>
    ensures { ReadsAs result (slice_get starts.now index) }
{
    match starts.get(index as usize) {
        Some(offset) => Ok(*offset),
        None => Err(Refused::Form),
    }
}

/// The offsets of the instructions with these indices.
fn starts_at(alloc: Global, starts: &TargetList, indices: &[u32]) -> Result<TargetList, Refused>
    ensures { ReadsAs result (every (slice_get starts.now) indices.now) }
{
    let mut list = TargetList::begin(alloc);
    for index in indices {
        list.push(start_at(starts, *index)?)?;
    }
    Ok(list)
}

/// An argument with the offsets of its targets for their indices.
#[tactic(auto, unfolding(crate::specs::Code::arg_placed))]
fn place_arg(alloc: Global, starts: &TargetList, arg: ArgValue) -> Result<ArgValue, Refused>
    ensures { ReadsAs result (arg_placed starts.now arg) }
{
    match arg {
        ArgValue::Target(index) => Ok(ArgValue::Target(start_at(starts, index)?)),
        ArgValue::Targets(indices) => Ok(ArgValue::Targets(starts_at(
            alloc,
            starts,
            indices.as_slice(),
        )?)),
        arg => Ok(arg),
    }
}

/// An instruction with the offsets of its targets for their indices.
#[tactic(auto, unfolding(crate::specs::Code::instr_placed))]
fn place_instr(alloc: Global, starts: &TargetList, instr: InstrValue) -> Result<InstrValue, Refused>
    ensures { ReadsAs result (instr_placed starts.now instr) }
{
    let arg = place_arg(alloc, starts, instr.arg)?;
    Ok(InstrValue { op: instr.op, arg })
}

/// Instructions with the offsets of their targets for their indices.
fn place(alloc: Global, starts: &TargetList, code: Vec<InstrValue>) -> Result<InstrList, Refused>
    ensures { ReadsAs result (every (instr_placed starts.now) code.items) }
{
    let mut list = InstrList::begin(alloc);
    for instr in code {
        list.push(place_instr(alloc, starts, instr)?)?;
    }
    Ok(list)
}

/// The instructions of a body with the offsets of their targets.
#[tactic(auto, unfolding(crate::specs::Code::code_said))]
pub fn code_in(alloc: Global, value: &Value) -> Result<InstrCode, Refused>
    ensures { ReadsAs result (code_said (view value.now)) }
{
    let items = elements(value)?;
    let stated = instrs(alloc, items)?;
    let offsets = offsets_in(alloc, stated.as_slice())?;
    let instrs = place(alloc, &offsets.starts, stated)?;
    Ok(InstrCode { offsets, instrs })
}
