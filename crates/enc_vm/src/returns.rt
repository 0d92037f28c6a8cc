//! Returns from methods (ECMA-335 III.3.57).
ghost use Rattle.std.specs.Prelude.{ℕ, List, Option};
ghost use Rattle.enc_versions.specs.Version.{Version};
ghost use Rattle.enc_vm.specs.Calls.{return_from as returned_from};
ghost use Rattle.enc_vm.specs.CallsSeen.{Makes, left_with};
ghost use Rattle.enc_frames.specs.Machine.{Shared, version_world};

use crate::thread::Thread;
use enc_base::Token;
use enc_frames::Stop;
use enc_machine_types::method_shape;
use enc_objects::{Trap, Value};
use enc_plain::ModuleView;

/// What an instruction made of a task's frames.
#[derive(Clone, Copy, Debug, PartialEq, Eq)]
pub(crate) enum FrameChange {
    /// The innermost frame goes on.
    Stays,
    /// A method was entered.
    Entered(Token),
    /// The innermost frame was left, which was of this method.
    Left(Token),
    /// So was the last one, and the task ends.
    LeftLast(Token),
}

impl Thread {
    /// The innermost frame is left, and its value goes to the nearest below; the task ends with its last one.
    fn leave(&mut self, value: Option<Value>) -> Result<FrameChange, Stop>
        ensures { (s : Shared) → Makes result s s self.new self.old
            (left_with s self.old.top.method value self.old.below) }
    {
        let method = self.top.method();
        self.below.hand(value)?;
        let Some(frame) = self.below.leave() else {
            return Ok(FrameChange::LeftLast(method));
        };
        self.top = frame;
        self.flight = None;
        Ok(FrameChange::Left(method))
    }

    /// `ret`: X2 where the method's types have no kinds (ECMA-335 III.3.57).
    #[tactic(auto, using(crate::proofs::Handed::return_is))]
    pub(crate) fn leave_method<V: ModuleView>(&mut self, view: &V) -> Result<FrameChange, Stop>
        ensures { (users : ℕ → Option (List ℕ)) (methods : List (Option Version)) (s : Shared)
            → Makes result s s self.new self.old
            (returned_from (version_world users (V.meaning view.now) methods) s self.old) }
    {
        let Some(shape) = method_shape(view, self.top.method()) else {
            return Err(Stop::Trap(Trap::X2));
        };
        match self.top.given(shape.gives()) {
            Err(trap) => Err(Stop::Trap(trap)),
            Ok(value) => self.leave(value),
        }
    }
}
