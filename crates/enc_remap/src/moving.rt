//! The remap of a task's innermost frame.
ghost use Rattle.std.specs.Prelude.{◌≡◌, map, IsTrue, IfOk, IfErr};
ghost use Rattle.enc_objects.specs.Values.{default_of};
ghost use Rattle.enc_plain.specs.Sound.{IsSound};
ghost use Rattle.enc_vm.specs.CallsSeen.{AreBodiesOf};
ghost use Rattle.enc_vm.specs.Moves.{IsBeginIn, is_idle, moved_top};
ghost use Rattle.enc_vm.specs.Step.{task_at};
ghost use Rattle.enc_vm.specs.Texts.{machine_texts, version_texts};
ghost use Rattle.enc_remap.specs.Remap.{moved, refused, remap_with};
ghost use Rattle.enc_remap.specs.Seen.{IsPlainRemap, IsRemap, goes_on as is_going_on, version_codes};

use crate::goal::{Goal, frame_goal};
use crate::remapped::Remapped;
use enc_base::Token;
use enc_frames::defaults;
use enc_plain::{ModuleView, PairList};
use enc_versions::Versions;
use enc_vm::{Machine, TaskState};
use std::alloc::{AllocError, Global};

/// A frame's method and offset, and where it is to go on.
#[derive(Drop)]
struct Plan<'a> {
    method: Token,
    from: u32,
    goal: Goal<'a>,
}

/// Whether a task goes on, and no object is on its way in it.
fn goes_on(machine: &Machine, task: u32) -> bool
    ensures { result ≡ is_going_on (task_at machine.now task) }
{
    match machine.status(task) {
        Some(TaskState::Running) => !machine.in_flight(task),
        _ => false,
    }
}

/// Where a task's innermost frame is to go on, or the number of the first rule that the remap breaks.
fn planned_move<'a, V: ModuleView>(
    machine: &Machine,
    view: &'a V,
    versions: &'a Versions,
    task: u32,
    pairs: &[(u32, u32)],
) -> Result<Plan<'a>, u8>
    requires sound { IsSound (V.meaning view.now) }
    requires versions { AreBodiesOf (V.users view.now) (V.meaning view.now) versions.now.methods }
    ensures moved { IfOk result (λ p. remap_with (version_codes (V.users view.now) versions.now.methods)
        (V.meaning view.now) task pairs.now machine.now ≡ moved p.method p.from p.goal.to
        (moved_top task p.goal.code.now.value p.goal.to (map default_of p.goal.kinds) machine.now)) }
    ensures idle { IfOk result (λ p. IsTrue (is_idle (task_at machine.now task))) }
    ensures begins { IfOk result (λ p. IsBeginIn p.goal.code.now.value p.goal.to) }
    ensures texts { IfOk result (λ p. IsTrue (version_texts (V.users view.now) p.goal.code.now.value)) }
    ensures refused { IfErr result (λ n. remap_with (version_codes (V.users view.now) versions.now.methods)
        (V.meaning view.now) task pairs.now machine.now ≡ refused n) }
{
    if !goes_on(machine, task) {
        return Err(1);
    }
    let Some(frame) = machine.innermost(task) else {
        return Err(1);
    };
    match frame_goal(view, versions, &frame, pairs) {
        Err(number) => Err(number),
        Ok(goal) => Ok(Plan {
            method: frame.method(),
            from: frame.offset(),
            goal,
        }),
    }
}

/// The remap of a machine whose frames hold versions of their methods.
fn remap_version<V: ModuleView>(
    alloc: Global,
    machine: &mut Machine,
    view: &V,
    versions: &Versions,
    task: u32,
    pairs: &[(u32, u32)],
) -> Result<Remapped, AllocError>
    requires sound { IsSound (V.meaning view.now) }
    requires versions { AreBodiesOf (V.users view.now) (V.meaning view.now) versions.now.methods }
    ensures remap { IsRemap result machine.new machine.old (remap_with
        (version_codes (V.users view.now) versions.now.methods) (V.meaning view.now) task pairs.now machine.old) }
    ensures texts { IsTrue (machine_texts (V.users view.now) machine.old)
        → IsTrue (machine_texts (V.users view.now) machine.new) }
{
    let plan = match planned_move(machine, view, versions, task, pairs) {
        Err(number) => return Ok(Remapped::Refused(number)),
        Ok(plan) => plan,
    };
    let more = defaults(alloc, &plan.goal.kinds)?;
    let code = plan.goal.code.clone()?;
    machine.move_top(task, code, plan.goal.to, more.as_slice())?;
    Ok(Remapped::Moved {
        method: plan.method,
        from: plan.from,
        to: plan.goal.to,
    })
}

/// The innermost frame of a task goes on in the newest body of its method, at the offset to which a map leads from the
/// frame's: by its first pair from there. Its arguments and local variables stay, and the defaults of the new local
/// variables follow. The remap is refused by the first of these, and then nothing changes:
///
/// 1. no task has the number, or it has ended or trapped, or an object is on its way in it;
/// 2. something is on the frame's stack;
/// 3. no sequence point of the frame's own that isn't hidden stands at its offset;
/// 4. no pair leads from this offset;
/// 5. no instruction of the newest body begins at the offset to which it leads, or no sequence point of it that isn't
///    hidden stands there;
/// 6. the interpreter doesn't run the newest body, or the kinds of the local variables of the frame's body aren't the
///    first of those of the newest;
/// 7. a handler runs in the frame, or one of the newest body has that offset.
///
/// So it is of the machine whose frames hold versions, and of the plain machine of each PDB for which the versions
/// stand,
/// of which `some_pdb_law` says that there is one. Its time is logarithmic in the number of points, and linear in the
/// map, in the clauses and in the local variables. Without memory nothing changes.
#[tactic(auto, using(crate::proofs::Meant::plain_remap))]
pub fn remap<V: ModuleView>(
    alloc: Global,
    machine: &mut Machine,
    view: &V,
    versions: &Versions,
    task: u32,
    map: &PairList,
) -> Result<Remapped, AllocError>
    requires sound { IsSound (V.meaning view.now) }
    requires versions { AreBodiesOf (V.users view.now) (V.meaning view.now) versions.now.methods }
    ensures remap { IsRemap result machine.new machine.old (remap_with
        (version_codes (V.users view.now) versions.now.methods) (V.meaning view.now) task map.now machine.old) }
    ensures plain { IsPlainRemap (V.users view.now)
        (V.meaning view.now) versions.now.methods task map.now result machine.new machine.old }
    ensures texts { IsTrue (machine_texts (V.users view.now) machine.old)
        → IsTrue (machine_texts (V.users view.now) machine.new) }
{
    remap_version(alloc, machine, view, versions, task, map.as_slice())
}
