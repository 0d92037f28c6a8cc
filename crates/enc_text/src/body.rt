//! The printed body of a method: its header, its instructions and its exception clauses (ECMA-335
//! II.25.4, III.1.2).
ghost use Rattle.std.specs.Prelude.{◌≡◌, ◌<◌, ◌^◌, ◌++◌, ◌∷◌, length, map, flat_map, is_some, OnOk, IsTrue};
ghost use Rattle.enc_opcodes.specs.Opcodes.{is_op};
ghost use Rattle.enc_opcodes.specs.Instruction.{instructions_of};
ghost use Rattle.enc_opcodes.specs.Clause.{clauses_in, clauses_of};
ghost use Rattle.enc_opcodes.specs.Body.{code_seen, instruction_told, kind_meant, handler_meant, body_of};
ghost use Rattle.enc_il.specs.Seen.{all_sections, instr_seen};
ghost use Rattle.enc_text.specs.BodyText.{instruction_text, range_text, kind_text, extra_text, handler_text, stack_text, init_text, locals_text, header_text, body_text};

use crate::operand::{push_argument, push_label, push_named, push_target};
use crate::text::{push_decimal, push_str, push_token};
use enc_base::Token;
use enc_il::{
    SectionRef, behind_sections, clause_front, clause_size, instr_at, rest_at, section_front,
};
use enc_opcodes::{Clause, CodeRef, Instr, op_name};
use enc_plain::ModuleView;
use std::alloc::{AllocError, Global};

/// Appends the line of an instruction at an offset, which ends at another.
#[tactic(auto, unfolding(crate::specs::BodyText::instruction_text))]
fn push_instruction<V: ModuleView>(
    alloc: Global,
    view: &V,
    at: u32,
    instr: &Instr<'_>,
    end: u32,
    out: &mut Vec<u8>,
) -> Result<(), AllocError>
    requires { IsTrue (is_op instr.now.op) }
    ensures { OnOk result (out.new.items ≡ out.old.items ++ instruction_text
        (instruction_told (V.users view.now) (at, (instr_seen (instr.now, end)).0))) }
{
    push_str(out, "  ")?;
    push_label(at, out)?;
    push_str(out, " ")?;
    push_str(out, op_name(instr.op))?;
    push_argument(alloc, view, end, &instr.arg, out)?;
    push_str(out, "\n")
}

/// Appends the lines of all instructions.
fn push_instructions<V: ModuleView>(
    alloc: Global,
    view: &V,
    code: &CodeRef<'_>,
    out: &mut Vec<u8>,
) -> Result<(), AllocError>
    requires few { length code.now.code.now < 2 ^ 32 }
    ensures { OnOk result (out.new.items ≡ out.old.items ++ flat_map instruction_text
        (map (instruction_told (V.users view.now)) (instructions_of code.now.code.now))) }
{
    let mut at = 0;
    while let Some((instr, end)) = instr_at(code, at) {
        push_instruction(alloc, view, at, &instr, end, out)?;
        at = end;
    }
    Ok(())
}

/// Appends a space and a range: its first byte and the one past its last.
#[tactic(auto, unfolding(crate::specs::BodyText::range_text))]
fn push_range(range: (u32, u32), out: &mut Vec<u8>) -> Result<(), AllocError>
    ensures { OnOk result (out.new.items ≡ out.old.items ++ 0x20 ∷ range_text range) }
{
    push_target(range.0, out)?;
    push_str(out, "-")?;
    push_label(range.1, out)
}

/// What a clause is called.
fn kind_name(clause: Clause) -> &'static str
    ensures { result.now ≡ kind_text (kind_meant clause.kind clause.extra) }
{
    match clause.kind {
        4 => "fault",
        2 => "finally",
        1 => "filter",
        _ => "catch",
    }
}

/// Appends a space and the class or the filter of a clause, where it has one.
fn push_extra(clause: Clause, out: &mut Vec<u8>) -> Result<(), AllocError>
    ensures { OnOk result (out.new.items ≡ out.old.items ++ extra_text (kind_meant clause.kind clause.extra)) }
{
    match clause.kind {
        2 | 4 => Ok(()),
        1 => push_target(clause.extra, out),
        _ => push_named(Token::of(clause.extra), out),
    }
}

/// Appends the line of a clause.
#[tactic(auto, unfolding(crate::specs::BodyText::handler_text))]
fn push_clause(clause: Clause, out: &mut Vec<u8>) -> Result<(), AllocError>
    ensures { OnOk result (out.new.items ≡ out.old.items ++ handler_text (handler_meant clause)) }
{
    push_str(out, "  ")?;
    push_str(out, kind_name(clause))?;
    push_range(clause.tries, out)?;
    push_range(clause.handler, out)?;
    push_extra(clause, out)?;
    push_str(out, "\n")
}

/// Appends the lines of a section's clauses.
fn push_section(section: &SectionRef<'_>, out: &mut Vec<u8>) -> Result<(), AllocError>
    ensures { OnOk result (out.new.items ≡ out.old.items ++ flat_map handler_text
        (map handler_meant (clauses_in section.now.fat section.now.count section.now.clauses.now))) }
{
    let mut rest = section.clauses;
    for i in 0..section.count {
        push_clause(clause_front(section.fat, rest), out)?;
        rest = rest_at(rest, clause_size(section.fat));
    }
    Ok(())
}

/// Appends the lines of all clauses of these sections, which stand whole.
fn push_sections(sections: &[u8], out: &mut Vec<u8>) -> Result<(), AllocError>
    requires { IsTrue (is_some (all_sections sections.now)) }
    ensures { OnOk result (out.new.items
        ≡ out.old.items ++ flat_map handler_text (map handler_meant (clauses_of sections.now))) }
{
    let mut rest = sections;
    while let Some((section, behind)) = section_front(rest) {
        push_section(&section, out)?;
        if !section.more {
            return Ok(());
        }
        rest = behind;
    }
    Ok(())
}

/// Appends the lines of all clauses of a body. Sections of which one isn't whole have none.
fn push_clauses(sections: &[u8], out: &mut Vec<u8>) -> Result<(), AllocError>
    ensures { OnOk result (out.new.items
        ≡ out.old.items ++ flat_map handler_text (map handler_meant (clauses_of sections.now))) }
{
    match behind_sections(sections) {
        None => Ok(()),
        Some(_) => push_sections(sections, out),
    }
}

/// Appends the most values on the stack.
#[tactic(auto, unfolding(crate::specs::BodyText::stack_text))]
fn push_stack(alloc: Global, max: u16, out: &mut Vec<u8>) -> Result<(), AllocError>
    ensures { OnOk result (out.new.items ≡ out.old.items ++ stack_text max) }
{
    push_str(out, "  body stack=")?;
    push_decimal(alloc, out, u32::from(max))
}

/// Appends whether locals begin as zeros.
#[tactic(auto, unfolding(crate::specs::BodyText::init_text))]
fn push_init(init: bool, out: &mut Vec<u8>) -> Result<(), AllocError>
    ensures { OnOk result (out.new.items ≡ out.old.items ++ init_text init) }
{
    if init {
        return push_str(out, " init=1");
    }
    push_str(out, " init=0")
}

/// Appends the local signature, and ends the line.
#[tactic(auto, unfolding(crate::specs::BodyText::locals_text))]
fn push_locals(locals: Token, out: &mut Vec<u8>) -> Result<(), AllocError>
    ensures { OnOk result (out.new.items ≡ out.old.items ++ locals_text locals) }
{
    push_str(out, " locals=")?;
    push_token(out, locals)?;
    push_str(out, "\n")
}

/// Appends the line of a body's header.
#[tactic(auto, unfolding(crate::specs::BodyText::header_text))]
fn push_header(
    alloc: Global,
    max: u16,
    init: bool,
    locals: Token,
    out: &mut Vec<u8>,
) -> Result<(), AllocError>
    ensures { OnOk result (out.new.items ≡ out.old.items ++ header_text max init locals) }
{
    push_stack(alloc, max, out)?;
    push_init(init, out)?;
    push_locals(locals, out)
}

/// Appends the lines of a body: its header, its instructions and its clauses. After want of memory
/// what stands behind the old bytes is free.
#[tactic(auto, unfolding(crate::specs::BodyText::body_text, enc_opcodes::specs::Body::body_of))]
pub fn push_body<V: ModuleView>(
    alloc: Global,
    view: &V,
    code: &CodeRef<'_>,
    out: &mut Vec<u8>,
) -> Result<(), AllocError>
    requires few { length code.now.code.now < 2 ^ 32 }
    ensures { OnOk result (out.new.items
        ≡ out.old.items ++ body_text (body_of (V.users view.now) (code_seen code.now))) }
{
    push_header(alloc, code.max, code.init, code.locals, out)?;
    push_instructions(alloc, view, code, out)?;
    push_clauses(code.sections, out)
}
