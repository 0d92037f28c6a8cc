//! What instructions make of a task, by what they change.
ghost use Rattle.std.specs.Prelude.{ℕ, List, Option};
ghost use Rattle.enc_base.specs.declared.token.Token.{Token as TheToken};
ghost use Rattle.enc_versions.specs.Version.{Version};
ghost use Rattle.enc_vm.specs.Calls.{return_from};
ghost use Rattle.enc_frames.specs.FramesSeen.{shared_by};
ghost use Rattle.enc_vm.specs.EffectsSeen.{Performs};
ghost use Rattle.enc_frames.specs.Handlers.{end_finally, throw_object};
ghost use Rattle.enc_frames.specs.Machine.{Shared, version_world};
ghost use Rattle.enc_frames.specs.FrameActs.{frame_act, object_act};
ghost use Rattle.enc_vm.specs.Step.{framed, stored, threaded};
ghost use Rattle.enc_frames.specs.Straight.{on_upper_two, on_top};

use crate::effect::Effect;
use crate::returns::FrameChange;
use crate::thread::Thread;
use crate::world::World;
use enc_frames::{FrameAct, IndexedModule, ObjectAct, Stop, act_on_objects};
use enc_objects::Objects;
use enc_opcodes::Op;
use enc_plain::ModuleView;
use std::alloc::Global;

impl Thread {
    /// What an instruction does to its frame alone.
    #[inline(always)]
    pub(crate) fn act_on_frame<V: ModuleView>(
        &mut self,
        world: &World<'_, V>,
        next: u32,
        act: FrameAct,
    ) -> Result<Effect, Stop>
        ensures { (users : ℕ → Option (List ℕ)) (methods : List (Option Version)) (s : Shared)
            → Performs result s s self.new self.old (framed s self.old
            (frame_act (version_world users (V.meaning world.now.view) methods) next act self.old.top)) }
    {
        let module = IndexedModule::new(world.view, world.dispatch);
        match self.top.act(world.alloc, &module, next, act) {
            Err(stop) => Err(stop),
            Ok(()) => Ok(Effect::Frames(FrameChange::Stays)),
        }
    }

    /// What an instruction does to objects and its frame.
    pub(crate) fn act_on_objects<V: ModuleView>(
        &mut self,
        world: &World<'_, V>,
        objects: &mut Objects,
        next: u32,
        act: ObjectAct,
    ) -> Result<Effect, Stop>
        ensures { (users : ℕ → Option (List ℕ)) (methods : List (Option Version)) (touched : List TheToken) → Performs
            result (shared_by objects.new touched) (shared_by objects.old touched) self.new self.old
            (stored (shared_by objects.old touched) self.old
            (object_act (version_world users (V.meaning world.now.view) methods) next act objects.old
            self.old.top)) }
    {
        match act_on_objects(
            world.view,
            world.dispatch,
            objects,
            &mut self.top,
            next,
            act,
        ) {
            Err(stop) => Err(stop),
            Ok(()) => Ok(Effect::Frames(FrameChange::Stays)),
        }
    }

    /// `ret`.
    pub(crate) fn return_one<V: ModuleView>(&mut self, view: &V) -> Result<Effect, Stop>
        ensures { (users : ℕ → Option (List ℕ)) (methods : List (Option Version)) (s : Shared)
            → Performs result s s self.new self.old
            (return_from (version_world users (V.meaning view.now) methods) s self.old) }
    {
        match self.leave_method(view) {
            Err(stop) => Err(stop),
            Ok(change) => Ok(Effect::Frames(change)),
        }
    }

    /// `throw`.
    pub(crate) fn throw_one<V: ModuleView>(
        &mut self,
        view: &V,
        objects: &Objects,
    ) -> Result<Effect, Stop>
        ensures { (users : ℕ → Option (List ℕ)) (methods : List (Option Version)) (touched : List TheToken)
            → Performs result (shared_by objects.now touched) (shared_by objects.now touched) self.new self.old
            (threaded (shared_by objects.now touched)
            (throw_object (version_world users (V.meaning view.now) methods) objects.now self.old)) }
    {
        match self.throw_object(view, objects) {
            Err(stop) => Err(stop),
            Ok(()) => Ok(Effect::Frames(FrameChange::Stays)),
        }
    }

    /// `endfinally`.
    #[tactic(auto, unfolding(enc_frames::specs::Machine::version_world, enc_opcodes::specs::Body::body_of))]
    pub(crate) fn end_handler<V: ModuleView>(
        &mut self,
        alloc: Global,
        view: &V,
    ) -> Result<Effect, Stop>
        ensures { (users : ℕ → Option (List ℕ)) (methods : List (Option Version)) (s : Shared)
            → Performs result s s self.new self.old (threaded s (end_finally
            (((version_world users (V.meaning view.now) methods).body self.old.top.code).handlers) self.old)) }
    {
        match self.end_finally(alloc) {
            Err(stop) => Err(stop),
            Ok(()) => Ok(Effect::Frames(FrameChange::Stays)),
        }
    }
}

impl Thread {
    /// An instruction on two values.
    #[inline(always)]
    pub(crate) fn on_two(&mut self, op: Op, next: u32) -> Result<Effect, Stop>
        ensures { (s : Shared) → Performs result s s self.new self.old
            (framed s self.old (on_upper_two op next self.old.top)) }
    {
        match self.top.on_upper_two(op, next) {
            Err(stop) => Err(stop),
            Ok(()) => Ok(Effect::Frames(FrameChange::Stays)),
        }
    }

    /// An instruction on one value.
    #[inline(always)]
    pub(crate) fn on_one(&mut self, op: Op, next: u32) -> Result<Effect, Stop>
        ensures { (s : Shared) → Performs result s s self.new self.old
            (framed s self.old (on_top op next self.old.top)) }
    {
        match self.top.on_top(op, next) {
            Err(stop) => Err(stop),
            Ok(()) => Ok(Effect::Frames(FrameChange::Stays)),
        }
    }
}
