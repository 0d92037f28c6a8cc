//! New tasks (ECMA-335 I.12.3.2).
ghost use Rattle.std.specs.Prelude.{◌≡◌, is_some, IfOk, IsTrue};
ghost use Rattle.enc_machine_types.specs.Members.{run_body, type_constructor};
ghost use Rattle.enc_objects.specs.Objects.{Store};
ghost use Rattle.enc_plain.specs.Module.{has_row};
ghost use Rattle.enc_base.specs.Tables.{method_def, type_def};
ghost use Rattle.enc_vm.specs.CallsSeen.{AreBodiesOf};
ghost use Rattle.enc_frames.specs.FramesSeen.{shared_by};
ghost use Rattle.enc_frames.specs.Machine.{version_world};
ghost use Rattle.enc_vm.specs.Step.{constructor_frame, constructor_runs, first_thread, frame_now, may_spawn};

use crate::declaring::declaring;
use crate::enter::code_now;
use crate::thread::Thread;
use crate::touched::Touched;
use enc_base::Token;
use enc_base::tables::METHOD_DEF;
use enc_frames::{Callers, Frame, new_frame};
use enc_machine_types::{find_type_constructor, is_called_with_nothing, is_static_method};
use enc_plain::{ModuleView, is_row};
use enc_versions::Versions;
use std::alloc::{AllocError, Global};

/// Whether the interpreter runs a method.
#[tactic(auto, using(crate::proofs::Spawned::run_is))]
fn runs<V: ModuleView>(view: &V, versions: &Versions, method: Token) -> bool
    requires table { method.table ≡ method_def }
    requires versions { AreBodiesOf (V.users view.now) (V.meaning view.now) versions.now.methods }
    ensures { result ≡ is_some (run_body (V.meaning view.now) method) }
{
    code_now(view, versions, method).is_some()
}

/// Whether the interpreter runs a type's constructor, where it has one.
#[tactic(auto, using(crate::proofs::Spawned::constructor_table))]
fn constructor_runs<V: ModuleView>(
    alloc: Global,
    view: &V,
    versions: &Versions,
    owner: Token,
) -> bool
    requires row { IsTrue (has_row (V.meaning view.now) owner) }
    requires table { owner.table ≡ type_def }
    requires versions { AreBodiesOf (V.users view.now) (V.meaning view.now) versions.now.methods }
    ensures { result ≡ constructor_runs (V.meaning view.now) (type_constructor (V.meaning view.now) owner) }
{
    match find_type_constructor(alloc, view, owner) {
        None => true,
        Some(constructor) => runs(view, versions, constructor),
    }
}

/// Whether a task can begin with a method: with a static one without parameters, of a kind that the
/// interpreter runs, and so its type's constructor.
#[tactic(auto, unfolding(crate::specs::Step::may_spawn))]
pub(crate) fn may_spawn<V: ModuleView>(
    alloc: Global,
    view: &V,
    versions: &Versions,
    method: Token,
) -> bool
    requires { AreBodiesOf (V.users view.now) (V.meaning view.now) versions.now.methods }
    ensures may { result ≡ may_spawn (V.meaning view.now) method }
    ensures row { IsTrue result → IsTrue (has_row (V.meaning view.now) method) }
    ensures table { IsTrue result → method.table ≡ method_def }
{
    method.table == METHOD_DEF
        && is_row(view, method)
        && is_static_method(view, method)
        && is_called_with_nothing(view, method)
        && runs(view, versions, method)
        && constructor_runs(alloc, view, versions, declaring(view, method))
}

/// The frame of a method that is called without arguments, None where the interpreter doesn't run it.
#[tactic(auto, using(crate::proofs::Spawned::none_begun, crate::proofs::Spawned::frame_begun))]
pub(crate) fn frame_now<V: ModuleView>(
    alloc: Global,
    view: &V,
    versions: &Versions,
    method: Token,
) -> Result<Option<Frame>, AllocError>
    requires { AreBodiesOf (V.users view.now) (V.meaning view.now) versions.now.methods }
    ensures { IfOk result (λ f. f ≡ frame_now
        (version_world (V.users view.now) (V.meaning view.now) versions.now.methods) method) }
{
    let Some(code) = code_now(view, versions, method) else {
        return Ok(None);
    };
    let frame = new_frame(alloc, view, method, code.clone()?, Vec::new(alloc))?;
    Ok(Some(frame))
}

/// The frame of a type's constructor, None where the type was touched, and where it has none that the
/// interpreter runs.
pub(crate) fn constructor_frame<V: ModuleView>(
    alloc: Global,
    view: &V,
    versions: &Versions,
    touched: &Touched,
    owner: Token,
) -> Result<Option<Frame>, AllocError>
    requires row { IsTrue (has_row (V.meaning view.now) owner) }
    requires table { owner.table ≡ type_def }
    requires versions { AreBodiesOf (V.users view.now) (V.meaning view.now) versions.now.methods }
    ensures { (s : Store) → IfOk result (λ f. f ≡ constructor_frame
        (version_world (V.users view.now) (V.meaning view.now) versions.now.methods) (shared_by s touched.now) owner) }
{
    if touched.has(owner) {
        return Ok(None);
    }
    match find_type_constructor(alloc, view, owner) {
        None => Ok(None),
        Some(constructor) => frame_now(alloc, view, versions, constructor),
    }
}

/// The frames of a new task: its method's, and over it that of its type's constructor, if any.
pub(crate) fn first_thread(
    alloc: Global,
    frame: Frame,
    constructor: Option<Frame>,
) -> Result<Thread, AllocError>
    ensures { IfOk result (λ t. t ≡ first_thread frame constructor) }
{
    let mut below = Callers::begin(alloc);
    let mut top = frame;
    if let Some(constructor) = constructor {
        below.enter(&mut top, constructor)?;
    }
    Ok(Thread {
        top,
        below,
        flight: None,
    })
}
