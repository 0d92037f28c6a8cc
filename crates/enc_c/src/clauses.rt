//! The exception clauses of a method's body by numbers, over any view of a module (ECMA-335 II.25.4.6).
ghost use Rattle.std.specs.Prelude.{◌≡◌, ◌++◌, ◌∷◌, [], IfOk, IsTrue, is_some, map};
ghost use Rattle.enc_opcodes.specs.Body.{handler_meant};
ghost use Rattle.enc_opcodes.specs.Clause.{clauses_in, clauses_of};
ghost use Rattle.enc_il.specs.Seen.{all_sections};
ghost use Rattle.enc_c.specs.Clauses.{asked_clauses, clause_numbers};
ghost use Rattle.enc_c.specs.Family.{OrMemory, items_listed};

use crate::code::code;
use crate::status::Status;
use enc_base::Token;
use enc_il::{SectionRef, behind_sections, clause_front, clause_size, rest_at, section_front};
use enc_opcodes::Clause;
use enc_plain::ModuleView;
use std::alloc::{AllocError, Global};

/// An exception clause. Its code goes from the first offset to one past the last byte.
#[repr(C)]
#[derive(Clone, Copy)]
pub struct ClauseNumbers {
    /// 0 for exceptions of a class, 1 for those that a filter takes, 2 finally, 4 fault.
    pub kind: u32,
    pub try_begin: u32,
    pub try_end: u32,
    pub handler_begin: u32,
    pub handler_end: u32,
    /// The token of the class, or the offset of the filter; 0 of the others.
    pub extra: u32,
}

/// The kind of a clause.
fn kind_number(clause: Clause) -> u32
    ensures { result ≡ (clause_numbers (handler_meant clause)).kind }
{
    match clause.kind {
        4 => 4,
        2 => 2,
        1 => 1,
        _ => 0,
    }
}

/// What a clause has besides.
fn extra_number(clause: Clause) -> u32
    ensures { result ≡ (clause_numbers (handler_meant clause)).extra }
{
    match clause.kind {
        4 => 0,
        2 => 0,
        1 => clause.extra,
        _ => Token::of(clause.extra).number(),
    }
}

/// The numbers of a clause.
fn numbers_of(clause: Clause) -> ClauseNumbers
    ensures { result ≡ clause_numbers (handler_meant clause) }
{
    ClauseNumbers {
        kind: kind_number(clause),
        try_begin: clause.tries.0,
        try_end: clause.tries.1,
        handler_begin: clause.handler.0,
        handler_end: clause.handler.1,
        extra: extra_number(clause),
    }
}

/// Appends the clauses of a section.
fn push_section(section: &SectionRef<'_>, out: &mut Vec<ClauseNumbers>) -> Result<(), AllocError>
    ensures { IfOk result (λ _. out.new.items ≡ out.old.items ++ map clause_numbers
        (map handler_meant (clauses_in section.now.fat section.now.count section.now.clauses.now))) }
{
    let mut rest = section.clauses;
    for i in 0..section.count {
        out.push(numbers_of(clause_front(section.fat, rest)))?;
        rest = rest_at(rest, clause_size(section.fat));
    }
    Ok(())
}

/// Appends the clauses of these sections, which stand whole.
fn push_sections(sections: &[u8], out: &mut Vec<ClauseNumbers>) -> Result<(), AllocError>
    requires { IsTrue (is_some (all_sections sections.now)) }
    ensures { IfOk result (λ _. out.new.items
        ≡ out.old.items ++ map clause_numbers (map handler_meant (clauses_of sections.now))) }
{
    let mut rest = sections;
    while let Some((section, behind)) = section_front(rest) {
        push_section(&section, out)?;
        if !section.more {
            return Ok(());
        }
        rest = behind;
    }
    Ok(())
}

/// The clauses of a body. Sections of which one isn't whole have none.
fn clauses_in_sections(alloc: Global, sections: &[u8]) -> Result<Vec<ClauseNumbers>, AllocError>
    ensures { IfOk result (λ c. c.items ≡ map clause_numbers (map handler_meant (clauses_of sections.now))) }
{
    let mut all = Vec::new(alloc);
    match behind_sections(sections) {
        None => Ok(all),
        Some(_) => {
            push_sections(sections, &mut all)?;
            Ok(all)
        }
    }
}

/// The clauses of a method's body, in their order.
#[tactic(auto, unfolding(crate::specs::Clauses::asked_clauses))]
pub fn clauses<V: ModuleView>(
    alloc: Global,
    view: &V,
    method: Token,
) -> Result<Vec<ClauseNumbers>, Status>
    ensures { OrMemory (items_listed result) (asked_clauses (V.meaning view.now) method) }
{
    match code(view, method) {
        Ok(code) => match clauses_in_sections(alloc, code.sections) {
            Ok(all) => Ok(all),
            Err(AllocError) => Err(Status::Memory),
        },
        Err(status) => Err(status),
    }
}
