//! Frames at their method's first instruction (ECMA-335 I.12.3.2).
ghost use Rattle.std.specs.Prelude.{◌≡◌, ◌<◌, drop, option_map, IfSome};
ghost use Rattle.enc_base.specs.Tables.{method_def};
ghost use Rattle.enc_vm.specs.Calls.{enter};
ghost use Rattle.enc_vm.specs.CallsSeen.{AreBodiesOf};
ghost use Rattle.enc_frames.specs.Does.{Does};
ghost use Rattle.enc_frames.specs.Machine.{version_world};
ghost use Rattle.enc_frames.specs.Straight.{moved_on};
ghost use Rattle.enc_vm.specs.World.{world_in};

use crate::thread::Thread;
use crate::world::World;
use enc_base::Token;
use enc_base::tables::METHOD_DEF;
use enc_frames::{Stop, new_frame};
use enc_machine_types::{method_shape, runs_body};
use enc_objects::{Trap, Value};
use enc_plain::{ModuleView, is_row};
use enc_versions::{Code, Versions};
use std::rc::Rc;

/// As many frames as a task can have.
pub(crate) const MOST_FRAMES: usize = 1024;

/// The code that a method has now, where the interpreter runs it: its types have kinds, and so have its
/// body's local variables, and no clause asks a filter (ECMA-335 II.25.4).
pub(crate) fn code_now<'a, V: ModuleView>(
    view: &V,
    versions: &'a Versions,
    method: Token,
) -> Option<&'a Rc<Code>>
    requires versions { AreBodiesOf (V.users view.now) (V.meaning view.now) versions.now.methods }
    ensures code { option_map (λ c. c.now.value) result
        ≡ (version_world (V.users view.now) (V.meaning view.now) versions.now.methods).now method }
    ensures table { IfSome result (λ c. method.table ≡ method_def) }
{
    if method.table != METHOD_DEF {
        return None;
    }
    if !is_row(view, method) {
        return None;
    }
    let Some(code) = versions.newest(method) else {
        return None;
    };
    let Some(_) = method_shape(view, method) else {
        return None;
    };
    if !runs_body(view, &code.as_ref().body()) {
        return None;
    }
    Some(code)
}

/// Where a frame calls: the offset at which it goes on later, and how many values go from its stack.
#[derive(Clone, Copy, Debug, PartialEq, Eq)]
pub(crate) struct CallSite {
    pub next: u32,
    pub taken: usize,
}

impl Thread {
    /// A method is entered over the innermost frame, which goes on later as the call site says. X10 where the
    /// interpreter doesn't run the method, X11 where there would be more than 1,024 frames (ECMA-335 III.3.19).
    #[tactic(auto, using(crate::proofs::Entered::frame_is), unfolding(crate::specs::Calls::enter))]
    pub(crate) fn enter<V: ModuleView>(
        &mut self,
        world: &World<'_, V>,
        method: Token,
        args: Vec<Value>,
        site: CallSite,
    ) -> Result<(), Stop>
        ensures { Does result self.new self.old (enter (world_in V.users V.meaning world.now) self.old
            (moved_on site.next (drop site.taken self.old.top.stack) self.old.top) method args.items) }
    {
        let Some(code) = code_now(world.view, world.versions, method) else {
            return Err(Stop::Trap(Trap::X10));
        };
        if self.below.len() >= MOST_FRAMES - 1 {
            return Err(Stop::Trap(Trap::X11));
        }
        let frame = new_frame(world.alloc, world.view, method, code.clone()?, args)?;
        self.below
            .enter_call(&mut self.top, frame, site.next, site.taken)?;
        self.flight = None;
        Ok(())
    }
}
