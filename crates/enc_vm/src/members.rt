//! Instructions that name a method or a static field: of the module, or outside (ECMA-335 III.3.19, III.4).
ghost use Rattle.std.specs.Prelude.{List, Option, Result};
ghost use Rattle.enc_base.specs.declared.token.Token.{Token as TheToken};
ghost use Rattle.enc_versions.specs.Version.{Version};
ghost use Rattle.enc_frames.specs.FramesSeen.{shared_by};
ghost use Rattle.enc_frames.specs.Console.{call_outside, new_outside};
ghost use Rattle.enc_vm.specs.EffectsSeen.{Performs};
ghost use Rattle.enc_objects.specs.Objects.{Store};
ghost use Rattle.enc_objects.specs.declared.trap.Trap.{Trap};
ghost use Rattle.enc_frames.specs.ConsoleSeen.{MakesWriting};
ghost use Rattle.enc_frames.specs.Machine.{Frame as TheFrame, Thread as TheThread, version_world};
ghost use Rattle.enc_frames.specs.Results.{Made};
ghost use Rattle.enc_vm.specs.SharedSeen.{shared_in};
ghost use Rattle.enc_vm.specs.Step.{act_on};
ghost use Rattle.enc_vm.specs.World.{world_in};
ghost use Rattle.enc_frames.specs.declared.act.Act.TheVariants as TheAct;

use crate::effect::Effect;
use crate::returns::FrameChange;
use crate::shared::Shared;
use crate::thread::Thread;
use crate::world::World;
use enc_base::Token;
use enc_base::tables::METHOD_DEF;
use enc_frames::{Stop, Written, call_outside, new_outside};
use enc_objects::Objects;
use enc_plain::ModuleView;

/// What an instruction makes of a task that changes objects and the innermost frame, and may write.
fn effect_of(written: Written) -> Result<Effect, Stop>
    ensures { (new old : Store) (f : TheFrame Version) (touched : List TheToken) (t : TheThread Version)
        (said : Result (Made Version) Trap) → MakesWriting written new old f touched t said
        → Performs result (shared_by new touched) (shared_by old touched) (record t { top = f }) t said }
{
    match written {
        Err(stop) => Err(stop),
        Ok(None) => Ok(Effect::Frames(FrameChange::Stays)),
        Ok(Some(units)) => Ok(Effect::Wrote(units)),
    }
}

/// A call of a member outside: whether the object may not be null, and where the next instruction begins.
#[derive(Clone, Copy, Debug, PartialEq, Eq)]
struct OutsideCall {
    null_check: bool,
    member: Token,
    next: u32,
}

impl Thread {
    /// A call of a member outside.
    fn call_out<V: ModuleView>(
        &mut self,
        world: &World<'_, V>,
        objects: &mut Objects,
        call: OutsideCall,
    ) -> Result<Effect, Stop>
        ensures { (methods : List (Option Version)) (touched : List TheToken) → Performs result
            (shared_by objects.new touched) (shared_by objects.old touched) self.new self.old
            (call_outside (version_world (V.users world.now.view) (V.meaning world.now.view) methods)
            call.null_check call.next call.member (shared_by objects.old touched) self.old) }
    {
        let OutsideCall {
            null_check,
            member,
            next,
        } = call;
        let (alloc, view) = (world.alloc, world.view);
        let written = call_outside(
            alloc,
            view,
            objects,
            &mut self.top,
            null_check,
            next,
            member,
        );
        effect_of(written)
    }

    /// `newobj` of a constructor outside.
    fn new_out<V: ModuleView>(
        &mut self,
        view: &V,
        objects: &mut Objects,
        next: u32,
        member: Token,
    ) -> Result<Effect, Stop>
        ensures { (methods : List (Option Version)) (touched : List TheToken) → Performs result
            (shared_by objects.new touched) (shared_by objects.old touched) self.new self.old
            (new_outside (version_world (V.users view.now) (V.meaning view.now) methods) next member
            (shared_by objects.old touched) self.old) }
    {
        let written = new_outside(view, objects, &mut self.top, next, member);
        effect_of(written)
    }

    /// `call` (ECMA-335 III.3.19).
    #[tactic(auto, unfolding(crate::specs::Step::act_on))]
    pub(crate) fn call_any<V: ModuleView>(
        &mut self,
        world: &World<'_, V>,
        shared: &mut Shared,
        next: u32,
        method: Token,
    ) -> Result<Effect, Stop>
        ensures { Performs result (shared_in shared.new) (shared_in shared.old) self.new self.old
            (act_on (world_in V.users V.meaning world.now) next (TheAct.Call method) (shared_in shared.old)
            self.old) }
    {
        if method.table != METHOD_DEF {
            let call = OutsideCall {
                null_check: false,
                member: method,
                next,
            };
            return self.call_out(world, &mut shared.objects, call);
        }
        match self.call(world, shared, next, method) {
            Err(stop) => Err(stop),
            Ok(change) => Ok(Effect::Frames(change)),
        }
    }

    /// `callvirt` (ECMA-335 III.4.2).
    #[tactic(auto, unfolding(crate::specs::Step::act_on))]
    pub(crate) fn call_any_virtual<V: ModuleView>(
        &mut self,
        world: &World<'_, V>,
        shared: &mut Shared,
        next: u32,
        method: Token,
    ) -> Result<Effect, Stop>
        ensures { Performs result (shared_in shared.new) (shared_in shared.old) self.new self.old
            (act_on (world_in V.users V.meaning world.now) next (TheAct.CallVirtual method) (shared_in shared.old)
            self.old) }
    {
        if method.table != METHOD_DEF {
            let call = OutsideCall {
                null_check: true,
                member: method,
                next,
            };
            return self.call_out(world, &mut shared.objects, call);
        }
        match self.call_virtual(world, shared, next, method) {
            Err(stop) => Err(stop),
            Ok(change) => Ok(Effect::Frames(change)),
        }
    }
}

impl Thread {
    /// `newobj` (ECMA-335 III.4.21).
    #[tactic(auto, unfolding(crate::specs::Step::act_on))]
    pub(crate) fn new_any<V: ModuleView>(
        &mut self,
        world: &World<'_, V>,
        shared: &mut Shared,
        next: u32,
        method: Token,
    ) -> Result<Effect, Stop>
        ensures { Performs result (shared_in shared.new) (shared_in shared.old) self.new self.old
            (act_on (world_in V.users V.meaning world.now) next (TheAct.NewObject method) (shared_in shared.old)
            self.old) }
    {
        if method.table != METHOD_DEF {
            return self.new_out(world.view, &mut shared.objects, next, method);
        }
        match self.new_object(world, shared, next, method) {
            Err(stop) => Err(stop),
            Ok(change) => Ok(Effect::Frames(change)),
        }
    }

    /// `ldsfld` (ECMA-335 III.4.14).
    pub(crate) fn load_one_static<V: ModuleView>(
        &mut self,
        world: &World<'_, V>,
        shared: &mut Shared,
        next: u32,
        field: Token,
    ) -> Result<Effect, Stop>
        ensures { Performs result (shared_in shared.new) (shared_in shared.old) self.new self.old
            (act_on (world_in V.users V.meaning world.now) next (TheAct.LoadStatic field) (shared_in shared.old)
            self.old) }
    {
        match self.load_static(world, shared, next, field) {
            Err(stop) => Err(stop),
            Ok(change) => Ok(Effect::Frames(change)),
        }
    }

    /// `stsfld` (ECMA-335 III.4.30).
    pub(crate) fn store_one_static<V: ModuleView>(
        &mut self,
        world: &World<'_, V>,
        shared: &mut Shared,
        next: u32,
        field: Token,
    ) -> Result<Effect, Stop>
        ensures { Performs result (shared_in shared.new) (shared_in shared.old) self.new self.old
            (act_on (world_in V.users V.meaning world.now) next (TheAct.StoreStatic field) (shared_in shared.old)
            self.old) }
    {
        match self.store_static(world, shared, next, field) {
            Err(stop) => Err(stop),
            Ok(change) => Ok(Effect::Frames(change)),
        }
    }
}
