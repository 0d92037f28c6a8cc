//! A frame goes on in another code.
ghost use Rattle.std.specs.Prelude.{◌≡◌, ◌==◌, false, length, not, is_some, option_map, IsTrue, OnOk, OnErr};
ghost use Rattle.std.specs.Option.{option_map_or};
ghost use Rattle.enc_frames.specs.Machine.{Frame as TheFrame};
ghost use Rattle.enc_vm.specs.Looks.{flight_in, innermost_in};
ghost use Rattle.enc_vm.specs.Moves.{IsBeginIn, MovesMean, is_idle, moved_top, task_moved};
ghost use Rattle.enc_vm.specs.Step.{task_at};

use crate::ends::TaskState;
use crate::machine::Machine;
use crate::task::Task;
use enc_objects::Value;
use enc_versions::Code;
use std::alloc::AllocError;
use std::rc::Rc;

impl Task {
    /// The innermost frame goes on in another code, where the task goes on. Without memory nothing changes.
    fn move_top(&mut self, code: Rc<Code>, offset: u32, more: &[Value]) -> Result<(), AllocError>
        ensures ok { OnOk result (self.new ≡ task_moved code.value offset more.now self.old) }
        ensures err { OnErr result (self.new ≡ self.old) }
    {
        match self.state {
            TaskState::Ended => Ok(()),
            TaskState::Trapped(_) => Ok(()),
            TaskState::Running => self.thread.top.move_to(code, offset, more),
        }
    }
}

impl Machine {
    /// The code that the innermost frame of a task keeps. None exactly where no task has the number, or where it
    /// has no frame.
    pub fn top_code(&self, task: u32) -> Option<&Rc<Code>>
        ensures { option_map (λ c. c.now.value) result
            ≡ option_map (λ (f : TheFrame _). f.code) (innermost_in self.now task) }
    {
        match self.innermost(task) {
            None => None,
            Some(frame) => Some(frame.code()),
        }
    }

    /// Whether an object is on its way in a task (ECMA-335 I.12.4.2).
    pub fn in_flight(&self, task: u32) -> bool
        ensures { result ≡ is_some (flight_in self.now task) }
    {
        self.flight_object(task).is_some()
    }

    /// Whether the innermost frame of a task runs a handler, false where it has no frame.
    pub fn handling(&self, task: u32) -> bool
        ensures { result ≡ option_map_or (λ (f : TheFrame _). not (length f.running == 0))
            (innermost_in self.now task) false }
    {
        match self.innermost(task) {
            None => false,
            Some(frame) => frame.is_handling(),
        }
    }

    /// The innermost frame of a task goes on in another code, at an offset of it, with more local variables behind
    /// its own; all else stays. The task goes on, no object is on its way in it, its frame has nothing on its stack
    /// and runs no handler, and the code is sound and has an instruction at the offset. Without memory nothing
    /// changes.
    pub fn move_top(
        &mut self,
        task: u32,
        code: Rc<Code>,
        offset: u32,
        more: &[Value],
    ) -> Result<(), AllocError>
        requires idle { IsTrue (is_idle (task_at self.old task)) }
        requires begins { IsBeginIn code.value offset }
        ensures ok { OnOk result (self.new ≡ moved_top task code.value offset more.now self.old) }
        ensures err { OnErr result (self.new ≡ self.old) }
    {
        let Some(i) = task.checked_sub(1) else {
            return Ok(());
        };
        let Some(task) = self.tasks.get_mut(i as usize) else {
            return Ok(());
        };
        task.move_top(code, offset, more)
    }
}

/// A move of frames that hold versions means the move of the frames that they mean.
#[tactic(auto, using(crate::proofs::Moved::moves_mean))]
pub fn move_law()
    ensures { MovesMean }
{}
