//! The exception clauses of a stated body (ECMA-335 II.25.4.6).
ghost use Rattle.std.specs.Prelude.{◌≡◌, ◌∷◌, [], ◌++◌, map, option_and_then, slice_get};
ghost use Rattle.serde_json.specs.View.{view};
ghost use Rattle.enc_jobs.specs.Outcome.{ReadsAs};
ghost use Rattle.enc_jobs.specs.Lists.{every};
ghost use Rattle.enc_jobs.specs.Clause.{start_said, end_said, range_in, range_said, clause_with};
ghost use Rattle.enc_jobs.specs.Clause.{catch_said, filter_said, plain_said, clause_of_kind, clause_said, clauses_said};

use crate::code::{Offsets, start_at};
use crate::fault::Refused;
use crate::value::{at_key, elements, has_only, text, token_number, word};
use enc_edit_list::ClauseList;
use enc_opcodes::Clause;
use serde_json::Value;
use std::alloc::Global;

/// The offset of the instruction with an index.
#[tactic(auto, unfolding(crate::specs::Clause::start_said))]
fn start(offsets: &Offsets, value: &Value) -> Result<u32, Refused>
    ensures { ReadsAs result (start_said offsets.now (view value.now)) }
{
    let index = word(value)?;
    start_at(&offsets.starts, index)
}

/// The offset with an index among those of the instructions and the end of the last.
fn end_at(offsets: &Offsets, index: u32) -> Result<u32, Refused>
    ensures { ReadsAs result (slice_get (offsets.now.starts ++ offsets.now.size ∷ []) index) }
{
    if index as usize == offsets.starts.len() {
        return Ok(offsets.size);
    }
    start_at(&offsets.starts, index)
}

/// The offset of one past the last, by its index: that of an instruction, or the code's size.
#[tactic(auto, unfolding(crate::specs::Clause::end_said))]
fn end(offsets: &Offsets, value: &Value) -> Result<u32, Refused>
    ensures { ReadsAs result (end_said offsets.now (view value.now)) }
{
    let index = word(value)?;
    end_at(offsets, index)
}

/// The offsets of the first and of one past the last.
fn range_of(offsets: &Offsets, items: &[Value]) -> Result<(u32, u32), Refused>
    ensures { ReadsAs result (range_in offsets.now (map view items.now)) }
{
    match items {
        [first, past] => {
            let first = start(offsets, first)?;
            let past = end(offsets, past)?;
            Ok((first, past))
        }
        _ => Err(Refused::Form),
    }
}

/// The offsets of the first and of one past the last, by an array of their indices.
#[tactic(auto, unfolding(crate::specs::Clause::range_said))]
fn range(offsets: &Offsets, value: &Value) -> Result<(u32, u32), Refused>
    ensures { ReadsAs result (range_said offsets.now (view value.now)) }
{
    let items = elements(value)?;
    range_of(offsets, items)
}

/// A clause with what its kind adds.
#[tactic(auto, unfolding(crate::specs::Clause::clause_with))]
fn with_extra(offsets: &Offsets, value: &Value, kind: u32, extra: u32) -> Result<Clause, Refused>
    ensures { ReadsAs result (clause_with offsets.now (view value.now) kind extra) }
{
    let tries = range(offsets, at_key(value, "try")?)?;
    let handler = range(offsets, at_key(value, "handler")?)?;
    Ok(Clause {
        kind,
        tries,
        handler,
        extra,
    })
}

/// A clause that catches a class.
#[tactic(auto, unfolding(crate::specs::Clause::catch_said))]
fn catch(offsets: &Offsets, value: &Value) -> Result<Clause, Refused>
    ensures { ReadsAs result (catch_said offsets.now (view value.now)) }
{
    if !has_only(value, &["kind", "try", "handler", "class"]) {
        return Err(Refused::Form);
    }
    let class = token_number(at_key(value, "class")?)?;
    with_extra(offsets, value, 0, class)
}

/// A clause with a filter.
#[tactic(auto, unfolding(crate::specs::Clause::filter_said))]
fn filter(offsets: &Offsets, value: &Value) -> Result<Clause, Refused>
    ensures { ReadsAs result (filter_said offsets.now (view value.now)) }
{
    if !has_only(value, &["kind", "try", "handler", "filter"]) {
        return Err(Refused::Form);
    }
    let first = start(offsets, at_key(value, "filter")?)?;
    with_extra(offsets, value, 1, first)
}

/// A clause with neither a class nor a filter.
#[tactic(auto, unfolding(crate::specs::Clause::plain_said))]
fn plain(offsets: &Offsets, kind: u32, value: &Value) -> Result<Clause, Refused>
    ensures { ReadsAs result (plain_said offsets.now kind (view value.now)) }
{
    if !has_only(value, &["kind", "try", "handler"]) {
        return Err(Refused::Form);
    }
    with_extra(offsets, value, kind, 0)
}

/// A clause of the kind with this name.
fn of_kind(offsets: &Offsets, value: &Value, kind: &str) -> Result<Clause, Refused>
    ensures { ReadsAs result (clause_of_kind offsets.now (view value.now) kind.now) }
{
    if kind == "catch" {
        return catch(offsets, value);
    }
    if kind == "filter" {
        return filter(offsets, value);
    }
    if kind == "finally" {
        return plain(offsets, 2, value);
    }
    if kind == "fault" {
        return plain(offsets, 4, value);
    }
    Err(Refused::Form)
}

/// A clause.
#[tactic(auto, unfolding(crate::specs::Clause::clause_said))]
fn one_clause(offsets: &Offsets, value: &Value) -> Result<Clause, Refused>
    ensures { ReadsAs result (clause_said offsets.now (view value.now)) }
{
    let kind = text(at_key(value, "kind")?)?;
    of_kind(offsets, value, kind)
}

/// Clauses.
#[tactic(auto, using(crate::proofs::Loops::every_steps))]
fn clauses_of(alloc: Global, offsets: &Offsets, items: &[Value]) -> Result<ClauseList, Refused>
    ensures { ReadsAs result (every (clause_said offsets.now) (map view items.now)) }
{
    let mut list = ClauseList::begin(alloc);
    for value in items {
        list.push(one_clause(offsets, value)?)?;
    }
    Ok(list)
}

/// The clauses of a body.
#[tactic(auto, unfolding(crate::specs::Clause::clauses_said))]
pub fn clauses(alloc: Global, offsets: &Offsets, value: &Value) -> Result<ClauseList, Refused>
    ensures { ReadsAs result (clauses_said offsets.now (view value.now)) }
{
    let items = elements(value)?;
    clauses_of(alloc, offsets, items)
}
