//! The bodies that edits give to methods.
ghost use Rattle.std.specs.Prelude.{◌≡◌, ◌≤◌, ◌<◌, ◌^◌, ◌&&◌, min, length, IfOk, IfSome};
ghost use Rattle.std.specs.List.{list_all};
ghost use Rattle.enc_opcodes.specs.Body.{is_named, is_user, range_is_good, kind_meant, nil_or, locals_are_good};
ghost use Rattle.enc_opcodes.specs.Sound.{handler_kind_is_sound};
ghost use Rattle.enc_edit_list.specs.Sizes.{length_of_code};
ghost use Rattle.enc_rules.specs.First.{first_such};
ghost use Rattle.enc_rules.specs.Known.{listed_counts, listed_rows};
ghost use Rattle.enc_rules.specs.Marked.{is_marked, value_is_sound, clause_is_sound, body_breaks};
ghost use Rattle.enc_edit_list.specs.Reach.{branches_reach};
ghost use Rattle.enc_rules.specs.Rules.{room_of_edit, is_il, given_stands, body_is_broken};
ghost use Rattle.enc_rules.specs.Sums.{most_room};

use crate::context::Context;
use crate::instructions::{branches_reach, length_of_code, marks_of};
use crate::signatures::body_given;
use crate::sums::capped;
use enc_base::Token;
use enc_base::tables::{
    FIELD, MEMBER_REF, METHOD_DEF, METHOD_SPEC, STAND_ALONE_SIG, TYPE_DEF, TYPE_REF, TYPE_SPEC,
};
use enc_edit_list::{ArgValue, BodyValue, Edit, InstrValue};
use enc_opcodes::{Clause, Operand};
use enc_plain::{CellView, ChainView};
use enc_schema::columns::METHOD_DEF_IMPL_FLAGS;
use std::alloc::{AllocError, Global};

/// An instruction begins at the offset.
fn is_start(marks: &[bool], offset: u32) -> bool
    ensures { result ≡ is_marked marks.now offset }
{
    match marks.get(offset as usize) {
        Some(mark) => *mark,
        None => false,
    }
}

/// The token is a row of a table that an instruction may name.
#[tactic(auto, unfolding(enc_opcodes::specs::Body::is_named))]
fn is_named<C: ChainView>(context: &Context<'_, C>, token: Token) -> bool
    ensures { result ≡ is_named (listed_counts context.now) token }
{
    match token.table {
        TYPE_REF
        | TYPE_DEF
        | FIELD
        | METHOD_DEF
        | MEMBER_REF
        | STAND_ALONE_SIG
        | TYPE_SPEC
        | METHOD_SPEC => 1 <= token.row && context.is_within(token.table, token.row),
        _ => false,
    }
}

/// The operand is one of a user text.
fn is_user(operand: Operand) -> bool
    ensures { result ≡ is_user operand }
{
    matches!(operand, Operand::User)
}

/// An instruction begins at each of the offsets.
fn are_starts(marks: &[bool], offsets: &[u32]) -> bool
    ensures { result ≡ list_all (is_marked marks.now) offsets.now }
{
    let mut rest = offsets;
    while let [offset, tail @ ..] = rest {
        if !is_start(marks, *offset) {
            return false;
        }
        rest = tail;
    }
    true
}

/// The targets of the instruction are instructions, and its token is a row.
fn value_is_sound<C: ChainView>(
    context: &Context<'_, C>,
    marks: &[bool],
    instr: &InstrValue,
) -> bool
    ensures { result ≡ value_is_sound (listed_counts context.now) (is_marked marks.now) instr.now }
{
    match &instr.arg {
        ArgValue::Target(offset) => is_start(marks, *offset),
        ArgValue::Targets(offsets) => are_starts(marks, offsets.as_slice()),
        ArgValue::Token(token) => !is_user(instr.op.operand) && is_named(context, *token),
        _ => true,
    }
}

/// The same of all instructions.
fn are_values_sound<C: ChainView>(
    context: &Context<'_, C>,
    marks: &[bool],
    code: &[InstrValue],
) -> bool
    ensures { result ≡ list_all (value_is_sound (listed_counts context.now) (is_marked marks.now)) code.now }
{
    let mut rest = code;
    while let [instr, tail @ ..] = rest {
        if !value_is_sound(context, marks, instr) {
            return false;
        }
        rest = tail;
    }
    true
}

/// A range begins at an instruction, and ends at one or with the code, and not before it begins.
fn range_is_good(marks: &[bool], size: u64, range: (u32, u32)) -> bool
    ensures { result ≡ range_is_good (is_marked marks.now) size range }
{
    is_start(marks, range.0)
        && range.0 <= range.1
        && (is_start(marks, range.1) || u64::from(range.1) == size)
}

/// The class of a catch is a row, and a filter begins at an instruction.
fn kind_is_sound<C: ChainView>(
    context: &Context<'_, C>,
    marks: &[bool],
    kind: u32,
    extra: u32,
) -> bool
    ensures { result ≡ handler_kind_is_sound (listed_counts context.now) (is_marked marks.now) (kind_meant kind extra) }
{
    match kind {
        4 | 2 => true,
        1 => is_start(marks, extra),
        _ => is_named(context, Token::of(extra)),
    }
}

/// The clause is good.
#[tactic(auto, unfolding(enc_opcodes::specs::Sound::handler_is_sound))]
fn clause_is_sound<C: ChainView>(
    context: &Context<'_, C>,
    marks: &[bool],
    size: u64,
    clause: Clause,
) -> bool
    ensures { result ≡ clause_is_sound (listed_counts context.now) (is_marked marks.now) size clause }
{
    range_is_good(marks, size, clause.tries)
        && range_is_good(marks, size, clause.handler)
        && kind_is_sound(context, marks, clause.kind, clause.extra)
}

/// The same of all clauses.
fn are_clauses_sound<C: ChainView>(
    context: &Context<'_, C>,
    marks: &[bool],
    size: u64,
    clauses: &[Clause],
) -> bool
    ensures { result ≡ list_all (clause_is_sound (listed_counts context.now) (is_marked marks.now) size) clauses.now }
{
    let mut rest = clauses;
    while let [clause, tail @ ..] = rest {
        if !clause_is_sound(context, marks, size, *clause) {
            return false;
        }
        rest = tail;
    }
    true
}

/// The local signature is nil or a row of StandAloneSig (ECMA-335 II.25.4.3).
#[tactic(auto, unfolding(enc_opcodes::specs::Body::locals_are_good))]
fn locals_are_good<C: ChainView>(context: &Context<'_, C>, locals: Token) -> bool
    ensures { result ≡ locals_are_good (listed_counts context.now) (nil_or locals) }
{
    locals.row == 0
        || locals.table == STAND_ALONE_SIG && context.is_within(STAND_ALONE_SIG, locals.row)
}

/// The parts of a body are good by the marks of where its instructions begin, and its branches reach.
fn are_parts_sound<C: ChainView>(
    context: &Context<'_, C>,
    marks: &[bool],
    size: u64,
    body: &BodyValue,
) -> bool
    requires { length_of_code body.now.code < 2 ^ 32 }
    ensures { result ≡ (list_all (value_is_sound (listed_counts context.now) (is_marked marks.now)) body.now.code
        && list_all (clause_is_sound (listed_counts context.now) (is_marked marks.now) size) body.now.clauses
        && locals_are_good (listed_counts context.now) (nil_or body.now.locals)
        && branches_reach 0 body.now.code) }
{
    are_values_sound(context, marks, body.code.as_slice())
        && are_clauses_sound(context, marks, size, body.clauses.as_slice())
        && locals_are_good(context, body.locals)
        && branches_reach(body.code.as_slice())
}

/// The body is good by the rows after the list, and its branches reach. It takes memory for a mark for
/// each byte of its code.
fn given_stands<C: ChainView>(
    alloc: Global,
    context: &Context<'_, C>,
    body: &BodyValue,
    size: u64,
) -> Result<bool, AllocError>
    requires size { length_of_code body.now.code ≡ size }
    requires few { size < 2 ^ 32 }
    ensures { IfOk result (λ good. good ≡ given_stands (listed_counts context.now) body.now) }
{
    let marks = marks_of(alloc, body.code.as_slice(), size as usize)?;
    Ok(are_parts_sound(context, &marks, size, body))
}

/// The row is a method of IL code (ECMA-335 II.23.1.11).
#[tactic(auto, using(crate::proofs::BodiesAt::flags_kind))]
fn is_il<C: ChainView>(context: &Context<'_, C>, row: Token) -> bool
    ensures { result ≡ is_il (listed_rows context.now) row }
{
    row.table == METHOD_DEF && context.number(row, METHOD_DEF_IMPL_FLAGS) % 4 == 0
}

/// The bytes that a body takes in the delta's code at most, up to the limit of sums; 0 where there is none.
fn room_of_edit(edit: &Edit) -> u64
    ensures room { result ≡ min most_room (room_of_edit edit.now) }
    ensures few { result ≤ most_room }
{
    match body_given(edit) {
        Some(body) => capped(
            length_of_code(body.code.as_slice()) + 64 + 28 * capped(body.clauses.len() as u64),
        ),
        None => 0,
    }
}

/// The edit gives a body to what isn't a method of IL code, or one that isn't good, or with which the code
/// takes so much room.
fn body_breaks<C: ChainView>(
    alloc: Global,
    context: &Context<'_, C>,
    edit: &Edit,
    row: Token,
    room: u64,
) -> Result<bool, AllocError>
    requires { min most_room (room_of_edit edit.now) ≤ room }
    ensures { IfOk result (λ bad. bad
        ≡ body_breaks (listed_counts context.now) (listed_rows context.now) room edit.now row) }
{
    let Some(body) = body_given(edit) else {
        return Ok(false);
    };
    if !is_il(context, row) || room >= 0x1_0000_0000 {
        return Ok(true);
    }
    let size = length_of_code(body.code.as_slice());
    Ok(!given_stands(alloc, context, body, size)?)
}

/// The first edit whose body isn't good, or whose method isn't IL, or with which the delta's code gets too long. It
/// takes
/// memory for a mark for each byte of one body's code at a time.
#[tactic(auto, using(crate::proofs::EditAt::such_none))]
pub fn body_is_broken<C: ChainView>(
    alloc: Global,
    context: &Context<'_, C>,
) -> Result<Option<u32>, AllocError>
    ensures first { IfOk result (λ k. k ≡ first_such (body_is_broken context.now.chain context.now.list)
        (length context.now.list.edits)) }
    ensures few { IfOk result (λ k. IfSome k (λ n. n < 2 ^ 24)) }
{
    let edits = context.edits();
    let rows = context.rows();
    let mut sum = 0;
    for k in 0..edits.len() {
        let edit = &edits[k];
        sum = capped(sum + room_of_edit(edit));
        match body_breaks(alloc, context, edit, rows[k], sum) {
            Err(error) => return Err(error),
            Ok(true) => return Ok(Some(k as u32)),
            Ok(false) => {}
        }
    }
    Ok(None)
}
