//! The remap of a script.
ghost use Rattle.std.specs.Prelude.{◌≡◌, map};
ghost use Rattle.serde_json.specs.View.{view};
ghost use Rattle.enc_jobs.specs.Json.{pair_said};
ghost use Rattle.enc_jobs.specs.Lists.{every};
ghost use Rattle.enc_jobs.specs.Outcome.{ReadsAs};
ghost use Rattle.enc_jobs.specs.Scripts.{map_said, pairs_of_items, remap_said};

use crate::command::Command;
use crate::fault::Refused;
use crate::value::{at_key, elements, has_only, pair, word};
use enc_plain::PairList;
use serde_json::Value;
use std::alloc::Global;

/// As many pairs as a map has.
const MOST_PAIRS: usize = 65_536;

/// Pairs of offsets.
#[tactic(auto, using(crate::proofs::Loops::every_steps))]
fn every_pair(alloc: Global, items: &[Value]) -> Result<PairList, Refused>
    ensures { ReadsAs result (every pair_said (map view items.now)) }
{
    let mut list = PairList::begin(alloc);
    for value in items {
        list.push(pair(value)?)?;
    }
    Ok(list)
}

/// Pairs of offsets, of which there may not be too many.
fn pairs_of(alloc: Global, items: &[Value]) -> Result<PairList, Refused>
    ensures { ReadsAs result (pairs_of_items (map view items.now)) }
{
    if items.len() > MOST_PAIRS {
        return Err(Refused::Form);
    }
    every_pair(alloc, items)
}

/// A map from offsets to offsets.
#[tactic(auto, unfolding(crate::specs::Scripts::map_said))]
fn map_of(alloc: Global, value: &Value) -> Result<PairList, Refused>
    ensures { ReadsAs result (map_said (view value.now)) }
{
    let items = elements(value)?;
    pairs_of(alloc, items)
}

/// The innermost frame of a task goes on in the newest body of its method.
#[tactic(auto, unfolding(crate::specs::Scripts::remap_said))]
pub fn remap(alloc: Global, value: &Value) -> Result<Command, Refused>
    ensures { ReadsAs result (remap_said (view value.now)) }
{
    if !has_only(value, &["do", "task", "map"]) {
        return Err(Refused::Form);
    }
    let task = word(at_key(value, "task")?)?;
    let pairs = map_of(alloc, at_key(value, "map")?)?;
    Ok(Command::Remap(task, pairs))
}
