//! The arguments of a call (ECMA-335 III.3.19).
ghost use Rattle.std.specs.Prelude.{◌≡◌, ◌++◌, ◌∷◌, [], ◌<◌, map, Result, Ok, Err, IfOk};
ghost use Rattle.enc_objects.specs.Values.{default_of};
ghost use Rattle.enc_frames.specs.ArgumentsSeen.{GivesItems, fitting};
ghost use Rattle.enc_frames.specs.Straight.{argument_kinds};
ghost use Rattle.enc_frames.specs.Values.{fit_all};

use crate::stack::Stack;
use crate::stop::Stop;
use crate::values::fit;
use enc_machine_types::{Kinds, MethodShape};
use enc_objects::{Kind, Trap, Value};
use std::alloc::{AllocError, Global};

/// Adds kinds to others.
fn add_kinds(kinds: &mut Vec<Kind>, more: &Kinds<'_>) -> Result<(), AllocError>
    ensures { IfOk result (λ _. kinds.new.items ≡ kinds.old.items ++ more.now) }
{
    let mut next = more.split_first();
    while let Some((kind, rest)) = next {
        kinds.push(kind)?;
        next = rest.split_first();
    }
    Ok(())
}

/// The kinds of what a method is called with: the object first, where it has one.
pub fn called_kinds(alloc: Global, shape: &MethodShape<'_>) -> Result<Vec<Kind>, AllocError>
    ensures { IfOk result (λ l. l.items ≡ argument_kinds shape.now) }
{
    let mut kinds = Vec::new(alloc);
    if shape.has_this() {
        kinds.push(Kind::Ref)?;
    }
    add_kinds(&mut kinds, shape.takes())?;
    Ok(kinds)
}

/// The kinds of what it takes beside the object.
pub fn taken_kinds(alloc: Global, shape: &MethodShape<'_>) -> Result<Vec<Kind>, AllocError>
    ensures { IfOk result (λ l. l.items ≡ shape.now.takes) }
{
    let mut kinds = Vec::new(alloc);
    add_kinds(&mut kinds, shape.takes())?;
    Ok(kinds)
}

/// A list with one value more.
fn with_value(mut values: Vec<Value>, value: Value) -> Result<Vec<Value>, AllocError>
    ensures { IfOk result (λ l. l.items ≡ values.items ++ value ∷ []) }
{
    values.push(value)?;
    Ok(values)
}

/// Values as places of these kinds hold them, one for each. X3 where there are fewer, X4 at the first of a
/// wrong kind.
#[tactic(auto, using(crate::proofs::Fitted::fitted_steps), unfolding(crate::specs::Values::fit_all))]
fn fit_all(alloc: Global, kinds: &[Kind], values: &[Value]) -> Result<Vec<Value>, Stop>
    ensures { GivesItems result (fit_all kinds.now values.now) }
{
    let mut fitted = Vec::new(alloc);
    let mut left = kinds;
    let mut rest = values;
    while let [kind, kinds @ ..] = left {
        let [value, values @ ..] = rest else {
            return Err(Stop::Trap(Trap::X3));
        };
        let value = fit(*kind, *value)?;
        fitted = with_value(fitted, value)?;
        left = kinds;
        rest = values;
    }
    Ok(fitted)
}

/// As many values from the top of a stack as there are kinds, in the order in which they were put there, each
/// as a place of its kind holds it. X3 where there are fewer, X4 at the first of a wrong kind.
pub fn fitting(alloc: Global, stack: &Stack, kinds: &[Kind]) -> Result<Vec<Value>, Stop>
    ensures { GivesItems result (fitting kinds.now stack.now) }
{
    match stack.taken(kinds.len()) {
        Err(trap) => Err(Stop::Trap(trap)),
        Ok(values) => fit_all(alloc, kinds, values),
    }
}

/// The defaults of kinds.
pub fn defaults(alloc: Global, kinds: &Kinds<'_>) -> Result<Vec<Value>, AllocError>
    ensures { IfOk result (λ l. l.items ≡ map default_of kinds.now) }
{
    let mut values = Vec::new(alloc);
    let mut next = kinds.split_first();
    while let Some((kind, rest)) = next {
        values.push(kind.default_value())?;
        next = rest.split_first();
    }
    Ok(values)
}
