//! Answers calls of the crates below the rules, a line each, so that what they answer stands as data beside
//! answers from outside. docs/testing.md has the form.
#![tactic(auto)]

mod constants;
mod dispatch;
mod emit;
mod il;
mod lines;
mod meta;
mod numbers;
mod objects;
mod opcodes;
mod pe;
mod rows;
mod schema;
mod seqpoints;
mod sigs;

use crate::lines::{Args, Fault, is_remark, line_with};
use std::alloc::{AllocError, Global};
use std::io::{self, BufRead, BufReader};

/// What a call on metadata answers, as a text; None where it is no such call.
fn of_metadata(alloc: Global, call: &str, args: &mut Args<'_>) -> Result<Option<String>, Fault> {
    if let Some(answer) = numbers::answer(alloc, call, args)? {
        return Ok(Some(answer));
    }
    if let Some(answer) = sigs::answer(alloc, call, args)? {
        return Ok(Some(answer));
    }
    if let Some(answer) = schema::answer(alloc, call, args)? {
        return Ok(Some(answer));
    }
    if let Some(answer) = constants::answer(alloc, call, args)? {
        return Ok(Some(answer));
    }
    if let Some(answer) = opcodes::answer(alloc, call, args)? {
        return Ok(Some(answer));
    }
    if let Some(answer) = rows::answer(alloc, call, args)? {
        return Ok(Some(answer));
    }
    if let Some(answer) = meta::answer(alloc, call, args)? {
        return Ok(Some(answer));
    }
    Ok(None)
}

/// What a call on code and images answers; None where it is no such call.
fn of_code(alloc: Global, call: &str, args: &mut Args<'_>) -> Result<Option<String>, Fault> {
    if let Some(answer) = emit::answer(alloc, call, args)? {
        return Ok(Some(answer));
    }
    if let Some(answer) = il::answer(alloc, call, args)? {
        return Ok(Some(answer));
    }
    if let Some(answer) = pe::answer(alloc, call, args)? {
        return Ok(Some(answer));
    }
    if let Some(answer) = seqpoints::answer(alloc, call, args)? {
        return Ok(Some(answer));
    }
    Ok(None)
}

/// What a call on the interpreter's parts answers; None where it is no such call.
fn of_machine(alloc: Global, call: &str, args: &mut Args<'_>) -> Result<Option<String>, Fault> {
    if let Some(answer) = objects::answer(alloc, call, args)? {
        return Ok(Some(answer));
    }
    if let Some(answer) = dispatch::answer(alloc, call, args)? {
        return Ok(Some(answer));
    }
    Ok(None)
}

/// What a call answers, as a text.
fn answer_of(alloc: Global, call: &str, args: &mut Args<'_>) -> Result<String, Fault> {
    if let Some(answer) = of_metadata(alloc, call, args)? {
        return Ok(answer);
    }
    if let Some(answer) = of_code(alloc, call, args)? {
        return Ok(answer);
    }
    match of_machine(alloc, call, args)? {
        Some(answer) => Ok(answer),
        None => Err(Fault::Form),
    }
}

/// The line with what it comes to: a call with its answer behind it, a remark or an empty line as it stands.
fn answered(alloc: Global, line: &str) -> Result<String, AllocError> {
    if is_remark(line) {
        return String::from_str(alloc, line);
    }
    let (call, mut args) = Args::of(line);
    line_with(alloc, line, answer_of(alloc, call, &mut args))
}

fn main(rt: HostRuntime) -> io::Result<()> {
    let alloc = rt.alloc();
    for line in BufReader::new(alloc, rt.reader())?.lines(alloc) {
        let line = line?;
        let line = answered(alloc, line.as_str())?;
        println!(rt; "{line}")?;
    }
    Ok(())
}
