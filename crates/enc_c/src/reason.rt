//! Why something is refused, by numbers, as C sees it, and its words.
ghost use Rattle.std.specs.Prelude.{◌≡◌, [], drop, IfOk};
ghost use Rattle.enc_c.specs.Reasons.{numbers_with, numbers_of_reason, json_by, limit_by, deep_by, reason_by, line_of_reason, words_of_reason, words_by, is_rule, is_edit_rule, tells_any_token, is_place, is_reason};
ghost use Rattle.enc_c.specs.Family.{OrMemory, items_listed};

use crate::refusal::{RefusalNumbers, number_of_stream, numbers_of, refusal_by, stream_by};
use crate::status::Status;
use enc_base::tables::{TYPE_REF, TYPE_SPEC};
use enc_base::{Code, Place, Refusal, StreamName, Token};
use enc_command_line::{Limit, broken_line, deep_line, limit_line, unlisted_line};
use enc_jobs::JobFault;
use enc_schema::{columns_of, is_child_table};
use enc_text::refused_line;
use std::alloc::{AllocError, Global};

/// Why something is refused.
#[derive(Clone, Copy)]
pub enum Reason {
    /// A file breaks a rule.
    File(Refusal),
    /// A text is no JSON.
    Json,
    /// The edit with this number, from 1, isn't of the form, or with 0 the whole list.
    Element(u32),
    /// The edit with this number, from 1, or with 0 the list as a whole, breaks the rule with the number.
    Edit(u8, u32),
    /// A heap or a PDB would pass its limit.
    Heap(StreamName),
    /// An image would pass its limit.
    Image,
    /// A TypeRef or a TypeSpec lies too deep in others.
    Deep(Token),
}

/// The numbers of what isn't a rule of a file.
fn numbers_with(letter: u8, rule: u8, place: u8, entry: u32) -> RefusalNumbers
    ensures { result ≡ numbers_with letter rule place 0 0 0 entry }
{
    RefusalNumbers {
        letter,
        rule,
        place,
        stream: 0,
        table: 0,
        column: 0,
        row: 0,
        entry,
    }
}

/// The numbers of a reason.
#[tactic(auto, unfolding(crate::specs::Reasons::numbers_of_reason))]
pub fn numbers_of_reason(reason: Reason) -> RefusalNumbers
    ensures { result ≡ numbers_of_reason reason }
{
    match reason {
        Reason::File(refusal) => numbers_of(refusal),
        Reason::Json => numbers_with(b'J', 1, 13, 0),
        Reason::Element(number) => numbers_with(b'J', 2, 14, number),
        Reason::Edit(rule, number) => numbers_with(b'E', rule, 14, number),
        Reason::Heap(name) => RefusalNumbers {
            stream: number_of_stream(name),
            ..numbers_with(b'L', 4, 1, 0)
        },
        Reason::Image => numbers_with(b'L', 4, 15, 0),
        Reason::Deep(token) => RefusalNumbers {
            table: token.table,
            row: token.row,
            ..numbers_with(b'G', 1, 9, 0)
        },
    }
}

/// Why a text is no edit list.
fn json_by(numbers: RefusalNumbers) -> Option<Reason>
    ensures { result ≡ json_by numbers }
{
    if numbers.rule == 1 && numbers.place == 13 {
        return Some(Reason::Json);
    }
    if numbers.rule == 2 && numbers.place == 14 {
        return Some(Reason::Element(numbers.entry));
    }
    None
}

/// A limit that would be passed.
fn limit_by(numbers: RefusalNumbers) -> Option<Reason>
    ensures { result ≡ limit_by numbers }
{
    if numbers.rule == 4 && numbers.place == 1 {
        return Some(Reason::Heap(stream_by(u32::from(numbers.stream))?));
    }
    if numbers.rule == 4 && numbers.place == 15 {
        return Some(Reason::Image);
    }
    None
}

/// A reference that lies too deep in others.
fn deep_by(numbers: RefusalNumbers) -> Option<Reason>
    ensures { result ≡ deep_by numbers }
{
    if numbers.rule != 1 || numbers.place != 9 {
        return None;
    }
    Some(Reason::Deep(Token {
        table: numbers.table,
        row: numbers.row,
    }))
}

/// The reason that numbers say; None where they say none.
#[tactic(auto, unfolding(crate::specs::Reasons::reason_by))]
pub fn reason_by(numbers: RefusalNumbers) -> Option<Reason>
    ensures { result ≡ reason_by numbers }
{
    match numbers.letter {
        b'J' => json_by(numbers),
        b'L' => limit_by(numbers),
        b'G' => deep_by(numbers),
        b'E' if numbers.place == 14 => Some(Reason::Edit(numbers.rule, numbers.entry)),
        _ => Some(Reason::File(refusal_by(numbers)?)),
    }
}

/// Whether there is a rule of files with this letter and number.
fn is_rule(code: Code) -> bool
    ensures { result ≡ is_rule code }
{
    match code {
        Code::F(number) => 1 <= number && number <= 12,
        Code::E(number) => 1 <= number && number <= 24,
    }
}

/// Whether there is a rule of edits with this number.
fn is_edit_rule(number: u8) -> bool
    ensures { result ≡ is_edit_rule number }
{
    if 18 <= number {
        return number <= 24;
    }
    number == 4
        || number == 5
        || number == 6
        || number == 10
        || number == 12
        || number == 13
        || number == 16
}

/// Whether a rule tells a token as EncMap or EncLog has it, also of a table that there isn't.
fn tells_any_token(code: Code) -> bool
    ensures { result ≡ tells_any_token code }
{
    match code {
        Code::F(_) => false,
        Code::E(number) => number == 6 || number == 7 || number == 9,
    }
}

/// Whether a rule's place is one that the tables of the schema have.
fn is_place(code: Code, place: Place) -> bool
    ensures { result ≡ is_place code place }
{
    match place {
        Place::Row(token) => columns_of(token.table).len() != 0 || tells_any_token(code),
        Place::Cell(token, column) => (column as usize) < columns_of(token.table).len(),
        Place::Owner(token) => is_child_table(token.table),
        _ => true,
    }
}

/// Whether there is such a reason: a rule, and a place of the schema.
fn is_reason(reason: Reason) -> bool
    ensures { result ≡ is_reason reason }
{
    match reason {
        Reason::File(refusal) => is_rule(refusal.code) && is_place(refusal.code, refusal.place),
        Reason::Edit(rule, _) => is_edit_rule(rule),
        Reason::Deep(token) => token.table == TYPE_REF || token.table == TYPE_SPEC,
        _ => true,
    }
}

/// The line that the program prints of a reason, where the file's name is empty.
fn line(alloc: Global, reason: Reason) -> Result<Vec<u8>, AllocError>
    ensures { IfOk result (λ l. l.items ≡ line_of_reason [] reason) }
{
    match reason {
        Reason::File(refusal) => refused_line(alloc, "", refusal),
        Reason::Json => unlisted_line(alloc, "", JobFault::J1),
        Reason::Element(number) => unlisted_line(alloc, "", JobFault::J2(number)),
        Reason::Edit(rule, number) => broken_line(alloc, "", rule, number),
        Reason::Heap(name) => limit_line(alloc, "", Limit::Heap(name)),
        Reason::Image => limit_line(alloc, "", Limit::Image),
        Reason::Deep(token) => deep_line(alloc, "", token),
    }
}

/// What stands behind the nine bytes of `refused` and two spaces.
fn behind(alloc: Global, line: &[u8]) -> Result<Vec<u8>, AllocError>
    ensures { IfOk result (λ w. w.items ≡ drop 9 line.now) }
{
    match line.get(9..) {
        Some(words) => Vec::from_slice(alloc, words),
        None => Ok(Vec::new(alloc)),
    }
}

/// The words of a reason: its rule and its place, with the end of a line.
#[tactic(auto, using(crate::proofs::ReasonNumbers::words_in_line))]
fn words(alloc: Global, reason: Reason) -> Result<Vec<u8>, AllocError>
    ensures { IfOk result (λ w. w.items ≡ words_of_reason reason) }
{
    let line = line(alloc, reason)?;
    behind(alloc, &line)
}

/// The words of the reason that numbers say; `Unlike` where there is no such reason.
pub fn words_by(alloc: Global, numbers: RefusalNumbers) -> Result<Vec<u8>, Status>
    ensures { OrMemory (items_listed result) (words_by numbers) }
{
    let Some(reason) = reason_by(numbers) else {
        return Err(Status::Unlike);
    };
    if !is_reason(reason) {
        return Err(Status::Unlike);
    }
    match words(alloc, reason) {
        Ok(words) => Ok(words),
        Err(AllocError) => Err(Status::Memory),
    }
}
