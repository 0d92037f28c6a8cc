//! What instructions do to their frame alone (ECMA-335 III.3).
ghost use Rattle.std.specs.Prelude.{ℕ, List, Option, Ok};
ghost use Rattle.enc_versions.specs.Version.{Version};
ghost use Rattle.enc_frames.specs.Does.{Does};
ghost use Rattle.enc_frames.specs.Machine.{version_world};
ghost use Rattle.enc_frames.specs.FrameActs.{frame_act};
ghost use Rattle.enc_frames.specs.Straight.{moved_on};

use crate::act::FrameAct;
use crate::frame::Frame;
use crate::indexed_module::IndexedModule;
use crate::stop::Stop;
use enc_plain::ModuleView;
use std::alloc::Global;

impl Frame {
    /// It goes on at an offset.
    #[inline(always)]
    fn go_on(&mut self, next: u32) -> Result<(), Stop>
        ensures { Does result self.new self.old (Ok (moved_on next self.old.stack self.old)) }
    {
        self.offset = next;
        Ok(())
    }

    #[tactic(auto, unfolding(crate::specs::FrameActs::frame_act, // what an act does to its frame
    crate::specs::Machine::version_world, // what the frames see
    enc_opcodes::specs::Body::body_of // what a body's parts mean
    ))]
    /// What an instruction does to its frame alone; behind it the frame goes on at an offset.
    #[inline(always)]
    pub fn act<V: ModuleView>(
        &mut self,
        alloc: Global,
        module: &IndexedModule<'_, V>,
        next: u32,
        act: FrameAct,
    ) -> Result<(), Stop>
        ensures { (users : ℕ → Option (List ℕ)) (methods : List (Option Version))
            → Does result self.new self.old
            (frame_act (version_world users (V.meaning module.now) methods) next act self.old) }
    {
        match act {
            FrameAct::Nothing => self.go_on(next),
            FrameAct::LoadArg(n) => self.load_argument(next, n),
            FrameAct::StoreArg(n) => self.store_argument(
                self.argument_kind(module.view(), n),
                next,
                n,
            ),
            FrameAct::LoadLocal(n) => self.load_local(next, n),
            FrameAct::StoreLocal(n) => self.store_local(self.local_kind(module, n), next, n),
            FrameAct::Constant(value) => self.load(next, value),
            FrameAct::Duplicate => self.duplicate(next),
            FrameAct::Discard => self.discard(next),
            FrameAct::Branch(goal) => self.go_on(goal),
            FrameAct::BranchIf(wanted, goal) => self.branch_if(wanted, goal, next),
            FrameAct::BranchBy(test, goal) => self.branch_by(test, goal, next),
            FrameAct::Leave(goal) => self.leave(alloc, goal),
        }
    }
}
