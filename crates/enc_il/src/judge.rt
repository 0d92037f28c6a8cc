//! Whether a body is good (ECMA-335 III.1.7).
ghost use Rattle.std.specs.Prelude.{◌≡◌, ℕ, ◌<◌, ◌^◌, ◌&&◌, List, Option, length, drop, not, is_some, IfOk, IfSome, IsTrue, slice_index};
ghost use Rattle.std.specs.List.{list_all};
ghost use Rattle.enc_opcodes.specs.Body.{code_seen, range_is_good as is_good_range, extra_is_good as is_good_extra, clause_is_good as is_good_clause, locals_are_good as are_good_locals, is_good, texts_are_there as are_texts_there};
ghost use Rattle.enc_opcodes.specs.Clause.{clauses_in, clauses_of};
ghost use Rattle.enc_il.specs.Judged.{mark_at, are_texts};
ghost use Rattle.enc_il.specs.Seen.{all_sections};

use crate::clauses::clause_front;
use crate::marks::is_start;
use crate::section::{SectionRef, behind_sections, clause_size, section_front};
use crate::texts::UserTexts;
use crate::walk::{is_named, walk_of};
use enc_base::tables::STAND_ALONE_SIG;
use enc_base::{Counts, Token};
use enc_opcodes::{Clause, CodeRef};
use std::alloc::{AllocError, Global};

/// Whether an instruction begins at each of these offsets.
fn are_starts(marks: &[bool], offsets: &[u32]) -> bool
    ensures { result ≡ list_all (mark_at marks.now) offsets.now }
{
    for offset in offsets {
        if !is_start(marks, *offset) {
            return false;
        }
    }
    true
}

/// Whether the local signature is nil or a row of StandAloneSig (ECMA-335 II.25.4.3).
#[tactic(auto, unfolding(enc_opcodes::specs::Body::locals_are_good))]
fn locals_are_good(counts: &Counts, locals: Token) -> bool
    ensures { result ≡ are_good_locals (slice_index counts.now.rows) locals }
{
    locals.row == 0
        || locals.table == STAND_ALONE_SIG && locals.row <= counts.rows[STAND_ALONE_SIG as usize]
}

/// Whether a range begins at an instruction, and ends at one or with the code, and not before it
/// begins.
fn range_is_good(marks: &[bool], size: usize, range: (u32, u32)) -> bool
    ensures { result ≡ is_good_range (mark_at marks.now) size range }
{
    is_start(marks, range.0)
        && range.0 <= range.1
        && (is_start(marks, range.1) || range.1 as usize == size)
}

/// Whether a clause's kind is one of the four, and the class of a catch a row, and a filter an
/// instruction.
fn extra_is_good(counts: &Counts, marks: &[bool], kind: u32, extra: u32) -> bool
    ensures { result ≡ is_good_extra (slice_index counts.now.rows) (mark_at marks.now) kind extra }
{
    match kind {
        0 => is_named(counts, Token::of(extra)),
        1 => is_start(marks, extra),
        _ => kind == 2 || kind == 4,
    }
}

/// Whether a clause is good.
#[tactic(auto, unfolding(enc_opcodes::specs::Body::clause_is_good))]
fn clause_is_good(counts: &Counts, marks: &[bool], size: usize, clause: Clause) -> bool
    ensures { result ≡ is_good_clause (slice_index counts.now.rows) (mark_at marks.now) size clause }
{
    range_is_good(marks, size, clause.tries)
        && range_is_good(marks, size, clause.handler)
        && extra_is_good(counts, marks, clause.kind, clause.extra)
}

/// The bytes behind the first n, none where there are no more than n.
#[tactic(auto, using(std::proofs::lemmas::List::drop_all))]
fn bytes_behind(bytes: &[u8], n: usize) -> &[u8]
    ensures { result.now ≡ drop n bytes.now }
{
    match bytes.get(n..) {
        Some(rest) => rest,
        None => &[],
    }
}

/// Whether all clauses of a section are good.
fn are_good_in(counts: &Counts, marks: &[bool], size: usize, section: &SectionRef<'_>) -> bool
    ensures { result ≡ list_all (is_good_clause (slice_index counts.now.rows) (mark_at marks.now) size)
        (clauses_in section.now.fat section.now.count section.now.clauses.now) }
{
    let mut rest = section.clauses;
    for i in 0..section.count {
        if !clause_is_good(counts, marks, size, clause_front(section.fat, rest)) {
            return false;
        }
        rest = bytes_behind(rest, clause_size(section.fat));
    }
    true
}

/// Whether all clauses of these sections are good, which stand whole.
fn are_good_in_sections(counts: &Counts, marks: &[bool], size: usize, sections: &[u8]) -> bool
    requires { IsTrue (is_some (all_sections sections.now)) }
    ensures { result ≡ list_all (is_good_clause (slice_index counts.now.rows) (mark_at marks.now) size)
        (clauses_of sections.now) }
{
    let mut rest = sections;
    while let Some((section, behind)) = section_front(rest) {
        if !are_good_in(counts, marks, size, &section) {
            return false;
        }
        if !section.more {
            return true;
        }
        rest = behind;
    }
    true
}

/// Whether all clauses of a body are good. Sections of which one isn't whole have none.
fn are_clauses_good(code: &CodeRef<'_>, counts: &Counts, marks: &[bool]) -> bool
    ensures { result ≡ list_all (is_good_clause (slice_index counts.now.rows) (mark_at marks.now)
        (length code.now.code.now)) (clauses_of code.now.sections.now) }
{
    match behind_sections(code.sections) {
        None => true,
        Some(_) => are_good_in_sections(counts, marks, code.code.len(), code.sections),
    }
}

/// Whether targets, clauses and the local signature of a body are good, by the marks of where
/// instructions begin.
fn are_parts_good(code: &CodeRef<'_>, counts: &Counts, marks: &[bool], targets: &[u32]) -> bool
    ensures { result ≡ (list_all (mark_at marks.now) targets.now
        && list_all (is_good_clause (slice_index counts.now.rows) (mark_at marks.now) (length code.now.code.now))
        (clauses_of code.now.sections.now)
        && are_good_locals (slice_index counts.now.rows) code.now.locals) }
{
    are_starts(marks, targets)
        && are_clauses_good(code, counts, marks)
        && locals_are_good(counts, code.locals)
}

/// The user texts that the code of a good body names, by their offsets; None where the body is not
/// good.
fn users_of_good(
    alloc: Global,
    code: &CodeRef<'_>,
    counts: &Counts,
) -> Result<Option<Vec<u32>>, AllocError>
    requires few { length code.now.code.now < 2 ^ 32 }
    ensures good { IfOk result (λ o. is_some o ≡ is_good (slice_index counts.now.rows) (code_seen code.now)) }
    ensures users { IfOk result (λ o. IfSome o (λ users. (texts : ℕ → Option (List ℕ))
        → are_texts_there texts code.now.code.now ≡ are_texts texts users.items)) }
{
    let walk = walk_of(alloc, code, counts)?;
    if walk.end as usize != code.code.len() {
        return Ok(None);
    }
    if !walk.rows {
        return Ok(None);
    }
    if !are_parts_good(code, counts, walk.marks.as_slice(), walk.targets.as_slice()) {
        return Ok(None);
    }
    Ok(Some(walk.users))
}

/// Whether the body is not good, where each table has so many rows: its code isn't whole
/// instructions, or a target, a token, a clause or the local signature isn't what it must be
/// (ECMA-335 II.25.4.6, III.1.7, III.1.9). The user texts that it names are looked at apart. It goes
/// over the code once, and fails where memory for a mark for each byte of the code and for targets and
/// texts can't be had.
pub fn first_bad(alloc: Global, code: &CodeRef<'_>, counts: &Counts) -> Result<bool, AllocError>
    requires few { length code.now.code.now < 2 ^ 32 }
    ensures { IfOk result (λ bad. bad ≡ not (is_good (slice_index counts.now.rows) (code_seen code.now))) }
{
    match users_of_good(alloc, code, counts)? {
        Some(_) => Ok(false),
        None => Ok(true),
    }
}

/// Whether a user text stands at each of these offsets.
fn are_texts<T: UserTexts>(texts: &T, offsets: &[u32]) -> bool
    ensures { result ≡ are_texts (T.texts texts.now) offsets.now }
{
    for offset in offsets {
        if !texts.has_user(*offset) {
            return false;
        }
    }
    true
}

/// Whether the body is good, as `first_bad` says, and each user text that it names is there. Like
/// `first_bad` it goes over the code once.
pub fn is_good_body<T: UserTexts>(
    alloc: Global,
    code: &CodeRef<'_>,
    counts: &Counts,
    texts: &T,
) -> Result<bool, AllocError>
    requires few { length code.now.code.now < 2 ^ 32 }
    ensures { IfOk result (λ good. good ≡ (is_good (slice_index counts.now.rows) (code_seen code.now)
        && are_texts_there (T.texts texts.now) code.now.code.now)) }
{
    match users_of_good(alloc, code, counts)? {
        Some(users) => Ok(are_texts(texts, users.as_slice())),
        None => Ok(false),
    }
}
