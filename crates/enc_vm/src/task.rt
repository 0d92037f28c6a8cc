//! Tasks, and a step of each (ECMA-335 I.12.3.2).
ghost use Rattle.std.specs.Prelude.{◌≡◌, ℕ, List, Option, None};
ghost use Rattle.enc_plain.specs.Module.{Module};
ghost use Rattle.enc_versions.specs.Version.{Version};
ghost use Rattle.enc_vm.specs.SharedSeen.{shared_in};
ghost use Rattle.enc_vm.specs.EffectsSeen.{effect_made, effect_of_flight, step_end_of, stepped_as, Steps, Turns};
ghost use Rattle.enc_frames.specs.Handlers.{fly};
ghost use Rattle.enc_frames.specs.HandlersSeen.{own_clauses};
ghost use Rattle.enc_frames.specs.Machine.{Shared as TheShared, Thread as TheThread, version_world};
ghost use Rattle.enc_vm.specs.World.{world_in};
ghost use Rattle.enc_vm.specs.Placed.{IsFramePlaced, IsTaskPlaced};
ghost use Rattle.enc_vm.specs.Step.{advance, flight_made, line_of, step_task, stepped, stepped_by, stepped_with, trapped_in};
ghost use Rattle.enc_vm.specs.Turns.{KeepsSeen};

use crate::effect::Effect;
use crate::ends::{StepEnd, TaskState};
use crate::flights::FlightEnd;
use crate::returns::FrameChange;
use crate::seen::Seen;
use crate::shared::Shared;
use crate::thread::Thread;
use crate::world::World;
use enc_frames::{Flight, Stop};
use enc_objects::Trap;
use enc_plain::ModuleView;
use std::alloc::{AllocError, Global};
use std::marker::Model;

/// A task: how it stands with it, and its frames; those of one that has ended are of no use.
#[derive(Drop)]
pub(crate) struct Task {
    pub(crate) state: TaskState,
    pub(crate) thread: Thread,
}

impl Model for Task {
    ghost use Rattle.enc_versions.specs.Version.{Version as TheVersion};
    ghost use Rattle.enc_vm.specs.EffectsSeen.{task_by as seen_by};
    ghost use Rattle.enc_frames.specs.Machine.{Task as TheTask};

    ghost Value = { TheTask TheVersion };

    ghost view = { λ t. seen_by t.state t.thread };
}

/// How it stands with a task behind a step, and what the step shows.
#[derive(Drop)]
struct Outcome {
    state: TaskState,
    seen: Seen,
}

/// What a step came to that made this of its task.
#[inline(always)]
fn came_to(line: Option<u32>, effect: Effect) -> Outcome
    ensures { (s : TheShared) (t : TheThread Version) →
        stepped line (effect_made effect s t) ≡ stepped_as result.state result.seen s t }
{
    let nothing = Seen {
        line,
        ..Seen::nothing()
    };
    match effect {
        Effect::Frames(FrameChange::Stays) => Outcome {
            state: TaskState::Running,
            seen: nothing,
        },
        Effect::Frames(FrameChange::Entered(method)) => Outcome {
            state: TaskState::Running,
            seen: Seen {
                entered: Some(method),
                ..nothing
            },
        },
        Effect::Frames(FrameChange::Left(method)) => Outcome {
            state: TaskState::Running,
            seen: Seen {
                left: Some(method),
                ..nothing
            },
        },
        Effect::Frames(FrameChange::LeftLast(method)) => Outcome {
            state: TaskState::Ended,
            seen: Seen {
                left: Some(method),
                ..nothing
            },
        },
        Effect::Wrote(units) => Outcome {
            state: TaskState::Running,
            seen: Seen {
                wrote: Some(units),
                ..nothing
            },
        },
    }
}

/// What a flight's step made of the frames, as an instruction makes it.
#[inline(always)]
fn effect_of_flight(end: FlightEnd) -> Effect
    ensures { result ≡ effect_of_flight end }
{
    match end {
        FlightEnd::Stays => Effect::Frames(FrameChange::Stays),
        FlightEnd::Left(method) => Effect::Frames(FrameChange::Left(method)),
        FlightEnd::LeftLast(method) => Effect::Frames(FrameChange::LeftLast(method)),
    }
}

/// What a step came to that trapped.
#[inline(always)]
fn trapped_at(line: Option<u32>, trap: Trap) -> Outcome
    ensures { (s : TheShared) (t : TheThread Version) →
        trapped_in line s t trap ≡ stepped_as result.state result.seen s t }
{
    Outcome {
        state: TaskState::Trapped(trap),
        seen: Seen {
            line,
            ..Seen::nothing()
        },
    }
}

/// What a step came to, by how it stands with the task behind it.
#[inline(always)]
fn step_end_of(state: TaskState) -> StepEnd
    ensures { result ≡ step_end_of state }
{
    match state {
        TaskState::Running => StepEnd::Ran,
        TaskState::Ended => StepEnd::Ended,
        TaskState::Trapped(trap) => StepEnd::Trapped(trap),
    }
}

impl Thread {
    /// The start line of the sequence point at which the innermost frame stands.
    #[inline(always)]
    #[tactic(auto, unfolding(enc_frames::specs::Machine::version_world))]
    fn line(&self) -> Option<u32>
        ensures { (users : ℕ → Option (List ℕ)) (m : Module) (methods : List (Option Version))
            → result ≡ line_of (version_world users m methods) self.now.top }
    {
        self.top.line()
    }

    /// A step by the object that is on its way.
    #[tactic(auto, using(crate::proofs::FlightTurns::flight_turn))]
    fn step_flight(&mut self, alloc: Global, flight: Flight) -> Result<Outcome, AllocError>
        ensures { (s : TheShared) →
            Turns result s s self.new self.old
            (stepped None (flight_made s (fly (own_clauses self.old.top) self.old flight))) }
    {
        match self.fly(alloc, flight) {
            Err(_) => Err(AllocError),
            Ok(end) => Ok(came_to(None, effect_of_flight(end))),
        }
    }

    /// A step by the instruction.
    #[inline(always)]
    fn step_instruction<V: ModuleView>(
        &mut self,
        world: &World<'_, V>,
        shared: &mut Shared,
    ) -> Result<Outcome, AllocError>
        requires placed { IsFramePlaced (world_in V.users V.meaning world.now) self.old.top }
        ensures { Turns result (shared_in shared.new) (shared_in shared.old) self.new self.old
            (stepped_by (line_of (world_in V.users V.meaning world.now) self.old.top) (shared_in shared.old)
            self.old (advance (world_in V.users V.meaning world.now) (shared_in shared.old) self.old)) }
    {
        let line = self.line();
        match self.advance(world, shared) {
            Ok(effect) => Ok(came_to(line, effect)),
            Err(Stop::Memory) => Err(AllocError),
            Err(Stop::Trap(trap)) => Ok(trapped_at(line, trap)),
        }
    }

    /// A step.
    fn step<V: ModuleView>(
        &mut self,
        world: &World<'_, V>,
        shared: &mut Shared,
    ) -> Result<Outcome, AllocError>
        requires placed { IsFramePlaced (world_in V.users V.meaning world.now) self.old.top }
        ensures { Turns result (shared_in shared.new) (shared_in shared.old) self.new self.old
            (stepped_with (world_in V.users V.meaning world.now) (shared_in shared.old) self.old self.old.flight) }
    {
        match self.flight {
            Some(flight) => self.step_flight(world.alloc, flight),
            None => self.step_instruction(world, shared),
        }
    }
}

impl Task {
    /// A step, where it goes on. Without memory nothing changes.
    #[tactic(auto, using(crate::proofs::StepTurns::went_shown))]
    pub(crate) fn step<V: ModuleView>(
        &mut self,
        world: &World<'_, V>,
        shared: &mut Shared,
        seen: &mut Seen,
    ) -> Result<StepEnd, AllocError>
        requires placed { IsTaskPlaced (world_in V.users V.meaning world.now) self.old }
        ensures steps { Steps result seen.new (shared_in shared.new) (shared_in shared.old) self.new self.old
            (step_task (world_in V.users V.meaning world.now) (shared_in shared.old) self.old) }
        ensures seen { KeepsSeen result seen.new seen.old }
    {
        match self.state {
            TaskState::Ended => Ok(StepEnd::Idle),
            TaskState::Trapped(_) => Ok(StepEnd::Idle),
            TaskState::Running => {
                let outcome = self.thread.step(world, shared)?;
                *seen = outcome.seen;
                self.state = outcome.state;
                Ok(step_end_of(outcome.state))
            }
        }
    }
}
