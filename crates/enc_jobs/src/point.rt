//! The sequence points of a stated body.
ghost use Rattle.std.specs.Prelude.{◌≡◌, is_some, map, codes, option_map};
ghost use Rattle.std.specs.Borrow.{Bor};
ghost use Rattle.serde_json.specs.Find.{get};
ghost use Rattle.serde_json.specs.View.{view};
ghost use Rattle.serde_json.specs.declared.value.Value.{Value as TheValue};
ghost use Rattle.enc_jobs.specs.Outcome.{ReadsAs};
ghost use Rattle.enc_jobs.specs.Points.{at_said, hidden_said, shown_said, point_said, points_from, points_said};

use crate::code::start_at;
use crate::fault::Refused;
use crate::value::{at_key, elements, has_only, pair, word};
use enc_edit_list::{PointList, TargetList};
use enc_seqpoints::Point;
use serde_json::Value;
use std::alloc::Global;

/// The offset of the instruction with the index at the key `at`.
#[tactic(auto, unfolding(crate::specs::Points::at_said))]
fn offset(starts: &TargetList, value: &Value) -> Result<u32, Refused>
    ensures { ReadsAs result (at_said starts.now (view value.now)) }
{
    let index = word(at_key(value, "at")?)?;
    start_at(starts, index)
}

/// A hidden point of this document.
#[tactic(auto, unfolding(crate::specs::Points::hidden_said))]
fn hidden(starts: &TargetList, document: u32, value: &Value) -> Result<Point, Refused>
    ensures { ReadsAs result (hidden_said starts.now document (view value.now)) }
{
    if !has_only(value, &["at", "hidden"]) {
        return Err(Refused::Form);
    }
    let offset = offset(starts, value)?;
    match at_key(value, "hidden")?.as_bool() {
        Some(true) => Ok(Point {
            offset,
            document,
            lines: None,
        }),
        _ => Err(Refused::Form),
    }
}

/// A point with its document and lines.
#[tactic(auto, unfolding(crate::specs::Points::shown_said))]
fn shown(starts: &TargetList, value: &Value) -> Result<Point, Refused>
    ensures { ReadsAs result (shown_said starts.now (view value.now)) }
{
    if !has_only(value, &["at", "document", "from", "to"]) {
        return Err(Refused::Form);
    }
    let offset = offset(starts, value)?;
    let document = word(at_key(value, "document")?)?;
    let (line, column) = pair(at_key(value, "from")?)?;
    let (end_line, end_column) = pair(at_key(value, "to")?)?;
    Ok(Point {
        offset,
        document,
        lines: Some((line, column, end_line, end_column)),
    })
}

/// A point behind one of this document.
#[tactic(auto, unfolding(crate::specs::Points::point_said))]
fn one_point(starts: &TargetList, document: u32, value: &Value) -> Result<Point, Refused>
    ensures { ReadsAs result (point_said starts.now document (view value.now)) }
{
    if value.get("hidden").is_some() {
        return hidden(starts, document, value);
    }
    shown(starts, value)
}

/// The points behind one of this document.
#[tactic(auto, using(crate::proofs::Pointed::point_steps))]
fn points_of(
    alloc: Global,
    starts: &TargetList,
    document: u32,
    items: &[Value],
) -> Result<PointList, Refused>
    ensures { ReadsAs result (points_from starts.now document (map view items.now)) }
{
    let mut list = PointList::begin(alloc);
    let mut document = document;
    for value in items {
        let point = one_point(starts, document, value)?;
        document = point.document;
        list.push(point)?;
    }
    Ok(list)
}

/// The points of a method whose instructions begin here, none where no value states them.
#[tactic(auto, unfolding(crate::specs::Points::points_said))]
pub fn points(
    alloc: Global,
    starts: &TargetList,
    value: Option<&Value>,
) -> Result<PointList, Refused>
    ensures { ReadsAs result (points_said starts.now (option_map (λ (v : Bor TheValue). view v.now) value.entry)) }
{
    match value {
        None => Ok(PointList::begin(alloc)),
        Some(value) => {
            let items = elements(value)?;
            points_of(alloc, starts, 1, items)
        }
    }
}
