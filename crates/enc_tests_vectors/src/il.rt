//! Bodies of methods by `enc_il` (ECMA-335 II.25.4): their headers, instructions and clauses, read, judged and
//! written.
ghost use Rattle.std.specs.Prelude.{ℕ, Option, Some, None, List, [], ◌==◌, if◌then◌else◌};

use crate::lines::{Args, Fault, parts};
use enc_base::{Counts, Token};
use enc_il::{
    UserTexts, clause, first_bad, instr_at, read_body, section_front, texts_are_there, write_body,
};
use enc_opcodes::{Arg, Clause, CodeRef, op_name};
use std::alloc::Global;

const NIL: Token = Token { table: 0, row: 0 };

fn text(alloc: Global, text: &str) -> Result<String, Fault> {
    Ok(String::from_str(alloc, text)?)
}

/// A token in eight hexadecimal digits.
fn token_text(alloc: Global, token: Token) -> Result<String, Fault> {
    Ok(format!(in alloc; "{:02x}{:06x}", token.table, token.row)?)
}

/// The parts of `read_body BYTES OFFSET RVA`: `none` where no body stands there.
fn read(alloc: Global, args: &mut Args<'_>) -> Result<String, Fault> {
    let bytes = parts::bytes(alloc, args)?;
    let at = parts::offset(args)?;
    let rva = args.number()?;
    let Ok(body) = read_body(&bytes, at, rva) else {
        return text(alloc, "none");
    };
    let (max, init) = (body.max, body.init);
    let locals = token_text(alloc, body.locals)?;
    let code = parts::told(alloc, body.code)?;
    let sections = parts::told(alloc, body.sections)?;
    Ok(format!(in alloc;
        "maxstack {max} init {init} locals {locals} code {code} sections {sections}"
    )?)
}

/// The name of a clause's kind, by its number.
fn kind_name(kind: u32) -> &'static str {
    match kind {
        0 => "catch",
        1 => "filter",
        2 => "finally",
        4 => "fault",
        _ => "unknown",
    }
}

/// The kind of a clause, the ends of its ranges, and its class or its filter in eight hexadecimal digits.
fn clause_text(alloc: Global, clause: &Clause) -> Result<String, Fault> {
    let kind = kind_name(clause.kind);
    let (from, to) = clause.tries;
    let (begin, end) = clause.handler;
    Ok(format!(in alloc; "{kind} {from} {to} {begin} {end} {:08x}", clause.extra)?)
}

/// A clause of the sections of `clause SECTIONS INDEX`, `none` where there are no more.
fn nth_clause(alloc: Global, args: &mut Args<'_>) -> Result<String, Fault> {
    let sections = parts::bytes(alloc, args)?;
    let body = CodeRef {
        max: 8,
        init: false,
        locals: NIL,
        code: &[],
        sections: &sections,
    };
    match clause(&body, args.number()?) {
        Some(clause) => clause_text(alloc, &clause),
        None => text(alloc, "none"),
    }
}

/// The first of the sections of `section SECTIONS`, and what is behind it.
fn section(alloc: Global, args: &mut Args<'_>) -> Result<String, Fault> {
    let sections = parts::bytes(alloc, args)?;
    let Some((section, behind)) = section_front(&sections) else {
        return text(alloc, "none");
    };
    let (fat, more, count) = (section.fat, section.more, section.count);
    let clauses = parts::told(alloc, section.clauses)?;
    let behind = parts::told(alloc, behind)?;
    Ok(format!(in alloc; "fat {fat} more {more} count {count} clauses {clauses} behind {behind}")?)
}

/// An operand with a space before it, nothing where there is none.
fn operand_text(alloc: Global, arg: &Arg<'_>) -> Result<String, Fault> {
    match *arg {
        Arg::None => text(alloc, ""),
        Arg::Num(number) => Ok(format!(in alloc; " {number}")?),
        Arg::Target(offset) => Ok(format!(in alloc; " to {offset}")?),
        Arg::Targets(bytes) => Ok(format!(in alloc; " by {}", parts::told(alloc, bytes)?)?),
        Arg::Token(token) => Ok(format!(in alloc; " {}", token_text(alloc, token)?)?),
        Arg::User(offset) => Ok(format!(in alloc; " text {offset}")?),
        Arg::Raw(bytes) => Ok(format!(in alloc; " float {}", parts::told(alloc, bytes)?)?),
    }
}

/// The instruction of `instr_at CODE OFFSET` and the offset behind it, `none` where none stands whole there.
fn instruction(alloc: Global, args: &mut Args<'_>) -> Result<String, Fault> {
    let code = parts::bytes(alloc, args)?;
    let offset = args.number()?;
    if code.len() >= 0x1_0000_0000 {
        return Err(Fault::Form);
    }
    let body = CodeRef {
        max: 8,
        init: false,
        locals: NIL,
        code: &code,
        sections: &[],
    };
    let Some((instr, end)) = instr_at(&body, offset) else {
        return text(alloc, "none");
    };
    let name = op_name(instr.op);
    let operand = operand_text(alloc, &instr.arg)?;
    Ok(format!(in alloc; "{name}{operand}, next {end}")?)
}

/// The answer to a call that reads, None where the call is another.
fn reads(alloc: Global, call: &str, args: &mut Args<'_>) -> Result<Option<String>, Fault> {
    Ok(Some(match call {
        "read_body" => read(alloc, args)?,
        "clause" => nth_clause(alloc, args)?,
        "section" => section(alloc, args)?,
        "instr_at" => instruction(alloc, args)?,
        _ => return Ok(None),
    }))
}

/// As many rows of each table as the tokens of the last rows say, to the end of the line.
fn counts(args: &mut Args<'_>) -> Result<Counts, Fault> {
    let mut rows = [0; 64];
    for _ in 0..64 {
        if !args.has_more() {
            return Ok(Counts { rows });
        }
        let last = args.token()?;
        if last.table >= 64 {
            return Err(Fault::Form);
        }
        rows[usize::from(last.table)] = last.row;
    }
    Err(Fault::Form)
}

/// Whether the body of `judge LOCALS CODE SECTIONS LAST..` is `good` or `bad`, in a module whose tables have their
/// last rows at these tokens.
fn judge(alloc: Global, args: &mut Args<'_>) -> Result<String, Fault> {
    let locals = args.token()?;
    let code = parts::bytes(alloc, args)?;
    let sections = parts::bytes(alloc, args)?;
    let counts = counts(args)?;
    if code.len() >= 0x1_0000_0000 {
        return Err(Fault::Form);
    }
    let body = CodeRef {
        max: 8,
        init: false,
        locals,
        code: &code,
        sections: &sections,
    };
    if first_bad(alloc, &body, &counts)? {
        return text(alloc, "bad");
    }
    text(alloc, "good")
}

/// User texts of which only that at one offset is there.
#[derive(Drop)]
struct Only(u32);

impl UserTexts for Only {
    ghost texts = { λ t offset. if offset == t.0 then Some [] else None };

    fn has_user(&self, offset: u32) -> bool {
        offset == self.0
    }
}

/// Whether all texts that the code of `texts OFFSET CODE` names are `there`, or some `missing`, where the only text
/// is the one at the offset.
fn texts(alloc: Global, args: &mut Args<'_>) -> Result<String, Fault> {
    let only = Only(args.number()?);
    let code = parts::bytes(alloc, args)?;
    if code.len() >= 0x1_0000_0000 {
        return Err(Fault::Form);
    }
    let body = CodeRef {
        max: 8,
        init: false,
        locals: NIL,
        code: &code,
        sections: &[],
    };
    if texts_are_there(&only, &body) {
        return text(alloc, "there");
    }
    text(alloc, "missing")
}

/// The number of a clause's kind.
fn kind_of(name: &str) -> Result<u32, Fault> {
    match name {
        "catch" => Ok(0),
        "filter" => Ok(1),
        "finally" => Ok(2),
        "fault" => Ok(4),
        _ => Err(Fault::Form),
    }
}

/// A clause as it is told: its kind, the ends of its ranges, and its class or its filter.
fn clause_of(args: &mut Args<'_>) -> Result<Clause, Fault> {
    let kind = kind_of(args.word()?)?;
    let tries = (args.number()?, args.number()?);
    let handler = (args.number()?, args.number()?);
    let extra = parts::hexadecimal(args)?;
    Ok(Clause {
        kind,
        tries,
        handler,
        extra,
    })
}

/// The clauses to the end of the line.
fn clauses(alloc: Global, args: &mut Args<'_>) -> Result<Vec<Clause>, Fault> {
    let mut clauses = Vec::new(alloc);
    for _ in 0..100 {
        if !args.has_more() {
            return Ok(clauses);
        }
        if clauses.push(clause_of(args)?).is_err() {
            return Err(Fault::Memory);
        }
    }
    Err(Fault::Form)
}

/// `true` or `false`.
fn truth(args: &mut Args<'_>) -> Result<bool, Fault> {
    match args.word()? {
        "true" => Ok(true),
        "false" => Ok(false),
        _ => Err(Fault::Form),
    }
}

/// A body behind some bytes, and where it begins.
fn written(
    alloc: Global,
    mut out: Vec<u8>,
    body: &CodeRef<'_>,
    clauses: &[Clause],
) -> Result<String, Fault> {
    let size = out.len() / 2 + body.code.len() / 2;
    if size >= 0x4000_0000 || clauses.len() > 1000 || body.locals.row >= 0x100_0000 {
        return Err(Fault::Form);
    }
    let place = write_body(alloc, body, clauses, &mut out)?;
    Ok(format!(in alloc; "{place} {}", parts::told(alloc, &out)?)?)
}

/// The bytes of `write_body BEFORE MAXSTACK INIT LOCALS CODE CLAUSE..` behind those before, and where the body begins.
fn write(alloc: Global, args: &mut Args<'_>) -> Result<String, Fault> {
    let before = parts::bytes(alloc, args)?;
    let Ok(max) = args.word()?.parse::<u16>() else {
        return Err(Fault::Form);
    };
    let init = truth(args)?;
    let locals = args.token()?;
    let code = parts::bytes(alloc, args)?;
    let clauses = clauses(alloc, args)?;
    let body = CodeRef {
        max,
        init,
        locals,
        code: &code,
        sections: &[],
    };
    written(alloc, before, &body, &clauses)
}

/// The answer to a call of this file, None where the call is another.
pub fn answer(alloc: Global, call: &str, args: &mut Args<'_>) -> Result<Option<String>, Fault> {
    Ok(Some(match call {
        "judge" => judge(alloc, args)?,
        "texts" => texts(alloc, args)?,
        "write_body" => write(alloc, args)?,
        _ => return reads(alloc, call, args),
    }))
}
