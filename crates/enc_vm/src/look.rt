//! What a machine shows of itself. None of this takes memory.
ghost use Rattle.std.specs.Prelude.{◌≡◌, ◌∷◌, ◌≤◌, length, reverse, slice_get, option_map};
ghost use Rattle.enc_vm.specs.Looks.{flight_in, frame_from, frame_in, frames_in, frames_of, innermost_in, innermost_of, object_on_its_way, state_in};
ghost use Rattle.enc_vm.specs.Looks.{FlightsLookAlike, FramesLookAlike, StatesLookAlike};
ghost use Rattle.enc_vm.specs.Step.{task_at};

use crate::ends::TaskState;
use crate::machine::Machine;
use crate::task::Task;
use crate::thread::Thread;
use enc_base::Token;
use enc_frames::FrameRef;
use enc_objects::Objects;

impl Thread {
    /// The i-th of its frames, from 0 for the outermost, None where it has no such frame.
    fn frame(&self, i: u32) -> Option<FrameRef<'_>>
        ensures { result ≡ slice_get (reverse (self.now.top ∷ self.now.below)) i }
    {
        let below = self.below.as_slice();
        match below.get(i as usize) {
            Some(frame) => Some(frame.shown()),
            None if i as usize == below.len() => Some(self.top.shown()),
            None => None,
        }
    }
}

impl Task {
    /// The i-th of its frames, from 0 for the outermost. None exactly where it has no such frame.
    #[tactic(auto, unfolding(crate::specs::Looks::frame_from))]
    fn frame(&self, i: u32) -> Option<FrameRef<'_>>
        ensures { result ≡ frame_from self.now i }
    {
        match self.state {
            TaskState::Ended => None,
            TaskState::Running | TaskState::Trapped(_) => self.thread.frame(i),
        }
    }

    /// The innermost of its frames, None where it has none.
    fn innermost(&self) -> Option<FrameRef<'_>>
        ensures { result ≡ innermost_of self.now }
    {
        match self.state {
            TaskState::Ended => None,
            TaskState::Running | TaskState::Trapped(_) => Some(self.thread.top.shown()),
        }
    }

    /// How many frames it has.
    fn depth(&self) -> u32
        ensures depth { result ≡ length (frames_of self.now) }
        ensures few { result ≤ 1024 }
    {
        match self.state {
            TaskState::Ended => 0,
            TaskState::Running | TaskState::Trapped(_) => self.thread.below.len() as u32 + 1,
        }
    }

    /// The object that is on its way.
    fn flight_object(&self) -> Option<u32>
        ensures { result ≡ object_on_its_way self.now }
    {
        match self.state {
            TaskState::Ended => None,
            TaskState::Trapped(_) => None,
            TaskState::Running => match self.thread.flight {
                None => None,
                Some(flight) => Some(flight.object),
            },
        }
    }
}

impl Machine {
    /// The task with a number, from 1.
    fn task(&self, task: u32) -> Option<&Task>
        ensures { option_map (λ t. t.now) result ≡ task_at self.now task }
    {
        let i = task.checked_sub(1)?;
        self.tasks.get(i as usize)
    }

    /// The objects, with the values of fields and statics.
    pub fn objects(&self) -> &Objects
        ensures { result.now ≡ self.now.shared.store }
    {
        &self.shared.objects
    }

    /// How many tasks there are.
    pub fn tasks(&self) -> u32
        ensures tasks { result ≡ length self.now.tasks }
        ensures few { result ≤ 64 }
    {
        self.tasks.len() as u32
    }

    /// How it stands with a task. None exactly where no task has the number.
    pub fn status(&self, task: u32) -> Option<TaskState>
        ensures { result ≡ state_in self.now task }
    {
        match self.task(task) {
            None => None,
            Some(task) => Some(task.state),
        }
    }

    /// The i-th frame of a task, from 0 for the outermost. None exactly where the task has no such frame.
    pub fn frame(&self, task: u32, i: u32) -> Option<FrameRef<'_>>
        ensures { result ≡ frame_in self.now task i }
    {
        match self.task(task) {
            None => None,
            Some(task) => task.frame(i),
        }
    }

    /// How many frames a task has, none where no task has the number.
    pub fn depth(&self, task: u32) -> u32
        ensures depth { result ≡ length (frames_in self.now task) }
        ensures few { result ≤ 1024 }
    {
        match self.task(task) {
            None => 0,
            Some(task) => task.depth(),
        }
    }

    /// The innermost frame of a task. None exactly where no task has the number, or where it has ended.
    pub fn innermost(&self, task: u32) -> Option<FrameRef<'_>>
        ensures { result ≡ innermost_in self.now task }
    {
        match self.task(task) {
            None => None,
            Some(task) => task.innermost(),
        }
    }

    /// The object that is on its way to a handler in a task. None exactly where there is no such task, or none
    /// is on its way.
    pub fn flight_object(&self, task: u32) -> Option<u32>
        ensures { result ≡ flight_in self.now task }
    {
        match self.task(task) {
            None => None,
            Some(task) => task.flight_object(),
        }
    }

    /// The types that were touched, in the order of tokens.
    pub fn touched(&self) -> &[Token]
        ensures { result.now ≡ self.now.shared.touched }
    {
        self.shared.touched.as_slice()
    }

    /// The i-th type that was touched, from 0 in the order of tokens. None exactly past the last.
    pub fn touched_at(&self, i: u32) -> Option<Token>
        ensures { result ≡ slice_get self.now.shared.touched i }
    {
        self.shared.touched.at(i)
    }
}

/// What the plain machine shows, whose frames hold bodies and points, is what the program's machine shows.
pub fn look_laws()
    ensures states { StatesLookAlike }
    ensures flights { FlightsLookAlike }
    ensures frames { FramesLookAlike }
{}
