//! The data sections of a body with the classes of their clauses moved (ECMA-335 II.25.4.5,
//! II.25.4.6).
ghost use Rattle.std.specs.Prelude.{◌≡◌, ◌*◌, ◌≤◌, ◌++◌, length, take, IfOk, OnOk};
ghost use Rattle.enc_token_map.specs.Copied.{extra_moved, clause_moved, clauses_moved, AreMoved};
ghost use Rattle.enc_opcodes.specs.Clause.{clause_size as size_of_clause};

use crate::code::bytes_law;
use crate::moves::Moves;
use enc_base::{Token, push_word};
use enc_il::{SectionRef, clause_front, clause_size, rest_at, section_front};
use enc_opcodes::Clause;
use std::alloc::{AllocError, Global};

/// The last four bytes of a clause as a number: its class moved, or the offset of its filter.
fn moved_extra<M: Moves>(clause: &Clause, moves: &M) -> u32
    ensures { result ≡ extra_moved (M.to moves.now) clause.now }
{
    if clause.kind == 1 || clause.kind == 2 || clause.kind == 4 {
        return clause.extra;
    }
    moves.moved(Token::of(clause.extra)).number()
}

/// Appends the clause at the front.
#[tactic(auto, unfolding(crate::specs::Copied::clause_moved))]
fn push_clause<M: Moves>(
    fat: bool,
    bytes: &[u8],
    moves: &M,
    out: &mut Vec<u8>,
) -> Result<(), AllocError>
    requires { size_of_clause fat ≤ length bytes.now }
    ensures { OnOk result (out.new.items ≡ out.old.items ++ clause_moved (M.to moves.now) fat bytes.now) }
{
    let clause = clause_front(fat, bytes);
    out.extend_from_slice(&bytes[..clause_size(fat) - 4])?;
    push_word(moved_extra(&clause, moves), out)
}

/// Appends a section's clauses.
fn push_clauses<M: Moves>(
    section: &SectionRef<'_>,
    moves: &M,
    out: &mut Vec<u8>,
) -> Result<(), AllocError>
    requires { length section.now.clauses.now ≡ size_of_clause section.now.fat * section.now.count }
    ensures { OnOk result (out.new.items ≡ out.old.items
        ++ clauses_moved (M.to moves.now) section.now.fat section.now.count section.now.clauses.now) }
{
    let mut rest = section.clauses;
    for i in 0..section.count {
        match push_clause(section.fat, rest, moves, out) {
            Ok(()) => {}
            Err(fault) => return Err(fault),
        }
        rest = rest_at(rest, clause_size(section.fat));
    }
    Ok(())
}

/// Appends the section at the front, whose kind and size stand in its first four bytes.
fn push_section<M: Moves>(
    bytes: &[u8],
    section: &SectionRef<'_>,
    moves: &M,
    out: &mut Vec<u8>,
) -> Result<(), AllocError>
    requires head { 4 ≤ length bytes.now }
    requires whole { length section.now.clauses.now ≡ size_of_clause section.now.fat * section.now.count }
    ensures { OnOk result (out.new.items ≡ (out.old.items ++ take 4 bytes.now)
        ++ clauses_moved (M.to moves.now) section.now.fat section.now.count section.now.clauses.now) }
{
    out.extend_from_slice(&bytes[..4])?;
    push_clauses(section, moves, out)
}

/// Bytes with others behind them.
fn with_rest(mut out: Vec<u8>, rest: &[u8]) -> Result<Vec<u8>, AllocError>
    ensures { IfOk result (λ v. v.items ≡ out.items ++ rest.now) }
{
    match out.extend_from_slice(rest) {
        Ok(()) => Ok(out),
        Err(fault) => Err(fault),
    }
}

/// The sections with the classes of their clauses moved. What stands behind the last whole one stays
/// as it is.
pub(crate) fn moved_sections<M: Moves>(
    alloc: Global,
    sections: &[u8],
    moves: &M,
) -> Result<Vec<u8>, AllocError>
    ensures moved { IfOk result (λ v. AreMoved (M.to moves.now) sections.now v.items) }
    ensures size { IfOk result (λ v. length v.items ≡ length sections.now) }
{
    bytes_law(sections);
    let mut out = Vec::new(alloc);
    let mut rest = sections;
    while let Some((section, behind)) = section_front(rest) {
        match push_section(rest, &section, moves, &mut out) {
            Ok(()) => {}
            Err(fault) => return Err(fault),
        }
        if !section.more {
            return with_rest(out, behind);
        }
        rest = behind;
    }
    with_rest(out, rest)
}
