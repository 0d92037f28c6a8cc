//! Stated bodies, with the points of their methods.
ghost use Rattle.std.specs.Prelude.{◌≡◌, [], false, option_map, codes};
ghost use Rattle.std.specs.Borrow.{Bor};
ghost use Rattle.std.specs.Result.{result_map_both};
ghost use Rattle.serde_json.specs.Find.{get, as_bool};
ghost use Rattle.serde_json.specs.View.{view};
ghost use Rattle.serde_json.specs.declared.value.Value.{Value as TheValue};
ghost use Rattle.enc_base.specs.Token.{nil};
ghost use Rattle.enc_jobs.specs.Outcome.{ReadsAs};
ghost use Rattle.enc_jobs.specs.Json.{at_key_or, token_said};
ghost use Rattle.enc_jobs.specs.Clause.{clauses_said};
ghost use Rattle.enc_jobs.specs.Body.{body_said, method_said, method_said_if};

use crate::clause::clauses;
use crate::code::{Offsets, code_in};
use crate::fault::Refused;
use crate::point::points;
use crate::value::{at_key, has_only, number, token};
use enc_base::Token;
use enc_edit_list::{BodyValue, ClauseList, PointList, TargetList};
use serde_json::Value;
use std::alloc::Global;

/// A body, and where its instructions begin.
#[derive(Drop)]
pub struct Placed {
    pub body: BodyValue,
    pub starts: TargetList,
}

/// A body, and the points of its method.
#[derive(Drop)]
pub struct Method {
    pub body: BodyValue,
    pub points: PointList,
}

/// Whether locals begin as zeros: not, where nothing is said.
fn init_of(value: &Value) -> Result<bool, Refused>
    ensures { ReadsAs result (at_key_or false as_bool (get (codes "init") (view value.now))) }
{
    match value.get("init") {
        None => Ok(false),
        Some(said) => match said.as_bool() {
            Some(init) => Ok(init),
            None => Err(Refused::Form),
        },
    }
}

/// The signature of the locals: nil, where nothing is said.
fn locals_of(value: &Value) -> Result<Token, Refused>
    ensures { ReadsAs result (at_key_or nil token_said (get (codes "locals") (view value.now))) }
{
    match value.get("locals") {
        None => Ok(Token { table: 0, row: 0 }),
        Some(said) => token(said),
    }
}

/// The clauses of a body: none, where nothing is said.
fn clauses_of(alloc: Global, offsets: &Offsets, value: &Value) -> Result<ClauseList, Refused>
    ensures { ReadsAs result (at_key_or [] (clauses_said offsets.now) (get (codes "clauses") (view value.now))) }
{
    match value.get("clauses") {
        None => Ok(ClauseList::begin(alloc)),
        Some(said) => clauses(alloc, offsets, said),
    }
}

/// A body, and where its instructions begin.
#[tactic(auto, unfolding(crate::specs::Body::body_said))]
fn placed_body(alloc: Global, value: &Value) -> Result<Placed, Refused>
    ensures { ReadsAs result (body_said (view value.now)) }
{
    if !has_only(value, &["max", "code", "init", "locals", "clauses"]) {
        return Err(Refused::Form);
    }
    let max = number(0xFFFF, at_key(value, "max")?)?;
    let init = init_of(value)?;
    let locals = locals_of(value)?;
    let code = code_in(alloc, at_key(value, "code")?)?;
    let clauses = clauses_of(alloc, &code.offsets, value)?;
    Ok(Placed {
        body: BodyValue {
            max: max as u16,
            init,
            locals,
            code: code.instrs,
            clauses,
        },
        starts: code.offsets.starts,
    })
}

/// A body and the points of its method.
#[tactic(auto, unfolding(crate::specs::Body::method_said))]
pub fn one_method(alloc: Global, code: &Value, said: Option<&Value>) -> Result<Method, Refused>
    ensures { ReadsAs result (method_said (view code.now) (option_map (λ (v : Bor TheValue). view v.now) said.entry)) }
{
    let placed = placed_body(alloc, code)?;
    let points = points(alloc, &placed.starts, said)?;
    Ok(Method {
        body: placed.body,
        points,
    })
}

/// A body, if there is one, and the points of its method, of which there are none without a body.
#[tactic(auto, unfolding(crate::specs::Body::method_said_if))]
pub fn method_if(
    alloc: Global,
    code: Option<&Value>,
    said: Option<&Value>,
) -> Result<(Option<BodyValue>, PointList), Refused>
    ensures { ReadsAs result (method_said_if (option_map (λ (v : Bor TheValue). view v.now) code.entry)
        (option_map (λ (v : Bor TheValue). view v.now) said.entry)) }
{
    match code {
        None => {
            let points = points(alloc, &TargetList::begin(alloc), said)?;
            Ok((None, points))
        }
        Some(code) => {
            let method = one_method(alloc, code, said)?;
            Ok((Some(method.body), method.points))
        }
    }
}
