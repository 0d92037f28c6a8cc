//! Instructions, by their codes and arguments (ECMA-335 III.1.2).
ghost use Rattle.std.specs.Prelude.{[], List, Option, unwrap_or};
ghost use Rattle.enc_base.specs.Units.{units_of};
ghost use Rattle.enc_base.specs.declared.token.Token.{Token as TheToken};
ghost use Rattle.enc_il.specs.Seen.{arg_seen};
ghost use Rattle.enc_opcodes.specs.Body.{told};
ghost use Rattle.enc_opcodes.specs.Instruction.{all_reached};
ghost use Rattle.enc_versions.specs.Version.{Version};
ghost use Rattle.enc_frames.specs.FramesSeen.{shared_by};
ghost use Rattle.enc_vm.specs.EffectsSeen.{Performs};
ghost use Rattle.enc_frames.specs.Machine.{Shared as TheShared};
ghost use Rattle.enc_vm.specs.SharedSeen.{shared_in};
ghost use Rattle.enc_vm.specs.World.{world_in};
ghost use Rattle.enc_frames.specs.Memory.{load_text};
ghost use Rattle.enc_vm.specs.Step.{framed, stored, act_on, act_or_trap, bare_on, perform};
ghost use Rattle.enc_frames.specs.Straight.{switch_to};

use crate::effect::Effect;
use crate::returns::FrameChange;
use crate::shared::Shared;
use crate::thread::Thread;
use crate::world::World;
use enc_frames::{Act, Stop, bare_act, branch_act, load_text, numbered_act, token_act, units_told};
use enc_objects::{Objects, Trap, is_binary, is_unary};
use enc_opcodes::{Arg, Instr, Op};
use enc_plain::ModuleView;

impl Thread {
    /// What an instruction does that is for something; behind it the frame goes on at an offset.
    #[inline(always)]
    #[tactic(auto, unfolding(crate::specs::Step::act_on))]
    fn act<V: ModuleView>(
        &mut self,
        world: &World<'_, V>,
        shared: &mut Shared,
        next: u32,
        act: Act,
    ) -> Result<Effect, Stop>
        ensures { Performs result (shared_in shared.new) (shared_in shared.old) self.new self.old
            (act_on (world_in V.users V.meaning world.now) next act (shared_in shared.old) self.old) }
    {
        match act {
            Act::Frame(act) => self.act_on_frame(world, next, act),
            Act::Object(act) => self.act_on_objects(world, &mut shared.objects, next, act),
            Act::Return => self.return_one(world.view),
            Act::Call(method) => self.call_any(world, shared, next, method),
            Act::CallVirtual(method) => self.call_any_virtual(world, shared, next, method),
            Act::NewObject(method) => self.new_any(world, shared, next, method),
            Act::LoadStatic(field) => self.load_one_static(world, shared, next, field),
            Act::StoreStatic(field) => self.store_one_static(world, shared, next, field),
            Act::Throw => self.throw_one(world.view, &shared.objects),
            Act::EndFinally => self.end_handler(world.alloc, world.view),
        }
    }

    /// What an instruction does. X2 where it is for nothing.
    #[inline(always)]
    fn act_if_any<V: ModuleView>(
        &mut self,
        world: &World<'_, V>,
        shared: &mut Shared,
        next: u32,
        act: Option<Act>,
    ) -> Result<Effect, Stop>
        ensures { Performs result (shared_in shared.new) (shared_in shared.old) self.new self.old
            (act_or_trap (world_in V.users V.meaning world.now) next act (shared_in shared.old) self.old) }
    {
        match act {
            None => Err(Stop::Trap(Trap::X2)),
            Some(act) => self.act(world, shared, next, act),
        }
    }
}

impl Thread {
    /// An instruction that stands alone.
    #[inline(always)]
    fn perform_bare<V: ModuleView>(
        &mut self,
        world: &World<'_, V>,
        shared: &mut Shared,
        next: u32,
        op: Op,
    ) -> Result<Effect, Stop>
        ensures { Performs result (shared_in shared.new) (shared_in shared.old) self.new self.old
            (bare_on (world_in V.users V.meaning world.now) next op (shared_in shared.old) self.old) }
    {
        if is_binary(op) {
            return self.on_two(op, next);
        }
        if is_unary(op) {
            return self.on_one(op, next);
        }
        self.act_if_any(world, shared, next, bare_act(op.byte))
    }
}

impl Thread {
    /// `switch`, whose distances count from its end.
    fn switch(&mut self, distances: &[u8], next: u32) -> Result<Effect, Stop>
        ensures { (s : TheShared) → Performs result s s self.new self.old
            (framed s self.old (switch_to (all_reached next distances.now) next self.old.top)) }
    {
        match self.top.switch_to(distances, next, next) {
            Err(stop) => Err(stop),
            Ok(()) => Ok(Effect::Frames(FrameChange::Stays)),
        }
    }

    /// `ldstr` of the user text at an offset of the heap.
    fn load_user<V: ModuleView>(
        &mut self,
        world: &World<'_, V>,
        objects: &mut Objects,
        next: u32,
        offset: u32,
    ) -> Result<Effect, Stop>
        ensures { (methods : List (Option Version)) (touched : List TheToken) → Performs result
            (shared_by objects.new touched) (shared_by objects.old touched) self.new self.old
            (stored (shared_by objects.old touched) self.old
            (load_text self.old.top.code.code.max next
            (units_of (unwrap_or (V.users world.now.view offset) [])) objects.old self.old.top)) }
    {
        let units = units_told(world.alloc, world.view, offset)?;
        match load_text(objects, &mut self.top, next, units.as_slice()) {
            Err(stop) => Err(stop),
            Ok(()) => Ok(Effect::Frames(FrameChange::Stays)),
        }
    }

    /// An instruction, whose end is where the next one begins.
    #[inline(always)]
    #[tactic(auto, unfolding(crate::specs::Step::perform))]
    pub(crate) fn perform<V: ModuleView>(
        &mut self,
        world: &World<'_, V>,
        shared: &mut Shared,
        next: u32,
        instr: Instr<'_>,
    ) -> Result<Effect, Stop>
        ensures { Performs result (shared_in shared.new) (shared_in shared.old) self.new self.old
            (perform (world_in V.users V.meaning world.now) next instr.entry.op
            (told (V.users world.now.view) (arg_seen next instr.entry.arg)) (shared_in shared.old) self.old) }
    {
        let op = instr.op;
        match instr.arg {
            Arg::None => self.perform_bare(world, shared, next, op),
            Arg::Num(n) => self.act_if_any(world, shared, next, numbered_act(op.byte, n)),
            Arg::Target(goal) => self.act_if_any(world, shared, next, branch_act(op.byte, goal)),
            Arg::Token(token) => self.act_if_any(world, shared, next, token_act(op.byte, token)),
            Arg::Targets(distances) => self.switch(distances, next),
            Arg::User(offset) => self.load_user(world, &mut shared.objects, next, offset),
            Arg::Raw(_) => Err(Stop::Trap(Trap::X2)),
        }
    }
}
