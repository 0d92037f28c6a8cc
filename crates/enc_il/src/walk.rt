//! One pass over the instructions of a code: where they begin, where they lead, and whether each of their tokens is
//! a row.
ghost use Rattle.std.specs.Prelude.{◌≡◌, ℕ, ◌<◌, ◌^◌, ◌++◌, ◌&&◌, Bool, List, Option, length, slice_index, IfOk, OnOk};
ghost use Rattle.std.specs.List.{list_all};
ghost use Rattle.enc_opcodes.specs.Instruction.{all_reached, instructions_of, end_of};
ghost use Rattle.enc_opcodes.specs.Body.{is_named as is_row, is_user as is_user_operand, is_instruction_start, instruction_is_good, texts_are_there as are_texts_there};
ghost use Rattle.enc_il.specs.Judged.{mark_at, targets_of, named_texts, are_texts, names_a_row as names_good_row};
ghost use Rattle.enc_il.specs.Seen.{arg_seen};

use crate::instr::instr_at;
use enc_base::tables::{
    FIELD, MEMBER_REF, METHOD_DEF, METHOD_SPEC, STAND_ALONE_SIG, TYPE_DEF, TYPE_REF, TYPE_SPEC,
};
use enc_base::{Counts, Token, u32_of};
use enc_opcodes::{Arg, CodeRef, Operand};
use std::alloc::{AllocError, Global};

/// What one pass over a code finds.
#[derive(Drop)]
pub(crate) struct Walk {
    /// For each byte of the code, whether an instruction begins there.
    pub(crate) marks: Vec<bool>,
    /// The offsets to which branches lead.
    pub(crate) targets: Vec<u32>,
    /// The offsets of the user texts that instructions name.
    pub(crate) users: Vec<u32>,
    /// Whether each token is a row of a table that an instruction may name.
    pub(crate) rows: bool,
    /// The offset behind the last instruction.
    pub(crate) end: u32,
}

/// Whether a token is a row of a table that an instruction may name.
#[tactic(auto, unfolding(enc_opcodes::specs::Body::is_named))]
pub(crate) fn is_named(counts: &Counts, token: Token) -> bool
    ensures { result ≡ is_row (slice_index counts.now.rows) token }
{
    match token.table {
        TYPE_REF
        | TYPE_DEF
        | FIELD
        | METHOD_DEF
        | MEMBER_REF
        | STAND_ALONE_SIG
        | TYPE_SPEC
        | METHOD_SPEC => { 1 <= token.row && token.row <= counts.rows[usize::from(token.table)] }
        _ => false,
    }
}

/// Whether the operand is one of a user text.
fn is_user(operand: Operand) -> bool
    ensures { result ≡ is_user_operand operand }
{
    matches!(operand, Operand::User)
}

/// Whether an argument that is a token is a row, and not in the place of a user text.
fn names_a_row(counts: &Counts, operand: Operand, arg: &Arg<'_>) -> bool
    ensures { (end : ℕ) → result ≡ names_good_row (slice_index counts.now.rows) operand (arg_seen end arg.now) }
{
    match *arg {
        Arg::Token(token) => !is_user(operand) && is_named(counts, token),
        _ => true,
    }
}

/// Puts the targets of a `switch` that ends there behind others.
#[tactic(auto, unfolding(enc_opcodes::specs::Instruction::all_reached))]
fn push_all(targets: &mut Vec<u32>, end: u32, distances: &[u8]) -> Result<(), AllocError>
    ensures { OnOk result (targets.new.items ≡ targets.old.items ++ all_reached end distances.now) }
{
    let mut rest = distances;
    while let [a, b, c, d, tail @ ..] = rest {
        let distance = u32_of([*a, *b, *c, *d]);
        targets.push(end.wrapping_add(distance))?;
        rest = tail;
    }
    Ok(())
}

/// Puts the targets of an argument, in an instruction that ends there, behind others, and so the user
/// text that it names.
fn push_arg(
    targets: &mut Vec<u32>,
    users: &mut Vec<u32>,
    end: u32,
    arg: &Arg<'_>,
) -> Result<(), AllocError>
    ensures targets { OnOk result (targets.new.items ≡ targets.old.items ++ targets_of (arg_seen end arg.now)) }
    ensures users { OnOk result (users.new.items ≡ users.old.items ++ named_texts (arg_seen end arg.now)) }
{
    match *arg {
        Arg::Target(offset) => {
            targets.push(offset)?;
            Ok(())
        }
        Arg::Targets(distances) => push_all(targets, end, distances),
        Arg::User(offset) => {
            users.push(offset)?;
            Ok(())
        }
        _ => Ok(()),
    }
}

/// One pass over a code: its instructions are good where each token is a row and each target an
/// instruction's beginning. It takes memory for a mark for each byte, for the targets and for the
/// offsets of texts.
pub(crate) fn walk_of(
    alloc: Global,
    code: &CodeRef<'_>,
    counts: &Counts,
) -> Result<Walk, AllocError>
    requires few { length code.now.code.now < 2 ^ 32 }
    ensures marks { IfOk result (λ w. (t : ℕ)
        → mark_at w.marks.items t ≡ is_instruction_start (instructions_of code.now.code.now) t) }
    ensures end { IfOk result (λ w. w.end ≡ end_of code.now.code.now 0) }
    ensures good { IfOk result (λ w. (starts : ℕ → Bool) → list_all (instruction_is_good
        (slice_index counts.now.rows) starts) (instructions_of code.now.code.now)
        ≡ (w.rows && list_all starts w.targets.items)) }
    ensures users { IfOk result (λ w. (texts : ℕ → Option (List ℕ))
        → are_texts_there texts code.now.code.now ≡ are_texts texts w.users.items) }
{
    let mut marks = vec![in alloc; false; code.code.len()]?;
    let mut targets = Vec::new(alloc);
    let mut users = Vec::new(alloc);
    let mut rows = true;
    let mut at = 0;
    while let Some((instr, end)) = instr_at(code, at) {
        marks[at as usize] = true;
        rows = rows && names_a_row(counts, instr.op.operand, &instr.arg);
        push_arg(&mut targets, &mut users, end, &instr.arg)?;
        at = end;
    }
    Ok(Walk {
        marks,
        targets,
        users,
        rows,
        end: at,
    })
}
