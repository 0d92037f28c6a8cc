//! Where a frame is to go on, or the first rule that the move breaks.
ghost use Rattle.std.specs.Prelude.{◌≡◌, Some, length, option_map, is_some, IfOk, IfErr, IfSome};
ghost use Rattle.enc_machine_types.specs.Members.{method_body, run_body};
ghost use Rattle.enc_opcodes.specs.Body.{body_of, code_seen};
ghost use Rattle.enc_remap.specs.Remap.{first_broken, led_from, move_of, move_rules};
ghost use Rattle.enc_remap.specs.Seen.{IsGoal, frame_rules, version_codes};
ghost use Rattle.enc_base.specs.Tables.{method_def};
ghost use Rattle.enc_versions.specs.Version.{newest_of};
ghost use Rattle.enc_vm.specs.CallsSeen.{AreBodiesOf};

use crate::kinds::{kinds_behind, kinds_of};
use enc_base::Token;
use enc_machine_types::{Kinds, method_shape, runs_body};
use enc_opcodes::CodeRef;
use enc_plain::{ModuleView, PairList};
use enc_unwind::is_handled;
use enc_versions::{Code, Versions};
use enc_vm::FrameRef;
use std::rc::Rc;

/// Where a frame is to go on: in this code, at this offset, with local variables of these kinds behind its own.
#[derive(Drop)]
pub(crate) struct Goal<'a> {
    /// The newest code of its method.
    pub(crate) code: &'a Rc<Code>,
    /// The offset.
    pub(crate) to: u32,
    /// The kinds of the new local variables.
    pub(crate) kinds: Kinds<'a>,
}

/// Where a map leads from an offset: by the first pair from there.
#[tactic(auto, unfolding(crate::specs::Remap::led_from))]
pub(crate) fn led_from(offset: u32, pairs: &[(u32, u32)]) -> Option<u32>
    ensures { result ≡ led_from offset pairs.now }
{
    for pair in pairs {
        if pair.0 == offset {
            return Some(pair.1);
        }
    }
    None
}

/// Whether the interpreter runs a body of a method: the method's types have kinds, and so have the body's local
/// variables, and no clause asks a filter (ECMA-335 II.25.4).
#[tactic(auto, using(crate::proofs::Rules::body_runs))]
pub(crate) fn runs_code<V: ModuleView>(view: &V, method: Token, code: &CodeRef<'_>) -> bool
    requires table { method.table ≡ method_def }
    requires body { method_body (V.meaning view.now) method ≡ Some (body_of (V.users view.now) (code_seen code.now)) }
    ensures { result ≡ is_some (run_body (V.meaning view.now) method) }
{
    method_shape(view, method).is_some() && runs_body(view, code)
}

/// Whether it runs the newest body of a method.
fn runs<V: ModuleView>(view: &V, method: Token, code: &Code) -> bool
    requires table { method.table ≡ method_def }
    requires body { method_body (V.meaning view.now) method ≡ Some (body_of (V.users view.now) code.now.code) }
    ensures { result ≡ is_some (run_body (V.meaning view.now) method) }
{
    runs_code(view, method, &code.body())
}

/// The newest code of a method, which means its body.
#[tactic(auto, using(crate::proofs::Newest::body_of_newest))]
fn newest<'a, V: ModuleView>(
    view: &V,
    versions: &'a Versions,
    method: Token,
) -> Option<&'a Rc<Code>>
    requires versions { AreBodiesOf (V.users view.now) (V.meaning view.now) versions.now.methods }
    requires table { method.table ≡ method_def }
    ensures newest { option_map (λ c. c.now.value) result ≡ newest_of versions.now.methods method }
    ensures body { IfSome result (λ c. method_body (V.meaning view.now) method
        ≡ Some (body_of (V.users view.now) c.now.value.code)) }
{
    versions.newest(method)
}

/// Where a frame is to go on, or the number of the first of Q3 to Q7 that its method, its offset and the map break.
fn goal_of<'a, V: ModuleView>(
    view: &'a V,
    versions: &'a Versions,
    frame: &FrameRef<'_>,
    pairs: &[(u32, u32)],
) -> Result<Goal<'a>, u8>
    requires { AreBodiesOf (V.users view.now) (V.meaning view.now) versions.now.methods }
    ensures ok { IfOk result (λ g. IsGoal (move_of (version_codes (V.users view.now) versions.now.methods)
        (V.meaning view.now) pairs.now frame.now)
        (newest_of versions.now.methods frame.now.method) g.code.now.value g.to g.kinds) }
    ensures err { IfErr result (λ n. first_broken (move_rules (move_of
        (version_codes (V.users view.now) versions.now.methods) (V.meaning view.now) pairs.now frame.now)) ≡ Some n) }
{
    let old = frame.code().as_ref();
    if !old.is_at_point(frame.offset()) {
        return Err(3);
    }
    let Some(to) = led_from(frame.offset(), pairs) else {
        return Err(4);
    };
    let Some(code) = newest(view, versions, frame.method()) else {
        return Err(5);
    };
    if !code.as_ref().is_stop(to) {
        return Err(5);
    }
    if !runs(view, frame.method(), code.as_ref()) {
        return Err(6);
    }
    let first = kinds_of(view, old.body().locals);
    let Some(kinds) = kinds_behind(first, kinds_of(view, code.as_ref().body().locals)) else {
        return Err(6);
    };
    if is_handled(&code.as_ref().body(), to) {
        return Err(7);
    }
    Ok(Goal { code, to, kinds })
}

/// The same for a frame with its stack and its handlers, by Q2 first.
pub(crate) fn frame_goal<'a, V: ModuleView>(
    view: &'a V,
    versions: &'a Versions,
    frame: &FrameRef<'_>,
    pairs: &[(u32, u32)],
) -> Result<Goal<'a>, u8>
    requires { AreBodiesOf (V.users view.now) (V.meaning view.now) versions.now.methods }
    ensures ok { IfOk result (λ g. IsGoal (move_of (version_codes (V.users view.now) versions.now.methods)
        (V.meaning view.now) pairs.now frame.now)
        (newest_of versions.now.methods frame.now.method) g.code.now.value g.to g.kinds) }
    ensures stack { IfOk result (λ _. length frame.now.stack ≡ 0) }
    ensures running { IfOk result (λ _. length frame.now.running ≡ 0) }
    ensures err { IfErr result (λ n. first_broken (frame_rules frame.now (move_of
        (version_codes (V.users view.now) versions.now.methods) (V.meaning view.now) pairs.now frame.now)) ≡ Some n) }
{
    if !frame.stack().is_empty() {
        return Err(2);
    }
    let goal = match goal_of(view, versions, frame, pairs) {
        Err(number) => return Err(number),
        Ok(goal) => goal,
    };
    if frame.is_handling() {
        return Err(7);
    }
    Ok(goal)
}
