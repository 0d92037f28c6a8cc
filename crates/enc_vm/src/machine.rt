//! The machine: tasks and the objects that they share (ECMA-335 I.12.3).
ghost use Rattle.std.specs.Prelude.{◌≡◌, ℕ, List, Option, length, Some, IsTrue};
ghost use Rattle.enc_dispatch.specs.Index.{StandsForModule};
ghost use Rattle.enc_plain.specs.Sound.{IsSound};
ghost use Rattle.enc_vm.specs.CallsSeen.{AreBodiesOf};
ghost use Rattle.enc_frames.specs.Machine.{at_rest, version_world};
ghost use Rattle.enc_vm.specs.Step.{spawn_in};
ghost use Rattle.enc_vm.specs.Texts.{machine_texts};
ghost use Rattle.enc_vm.specs.World.{world_in};
ghost use Rattle.enc_vm.specs.Turns.{IsPlainSpawn, IsPlainTurn, IsSpawn, IsTurn, KeepsSeen, machine_turn};

use crate::declaring::declaring;
use crate::ends::{SpawnEnd, StepEnd, TaskState};
use crate::seen::Seen;
use crate::shared::Shared;
use crate::spawn::{constructor_frame, first_thread, frame_now, may_spawn};
use crate::task::Task;
use crate::touched::Touched;
use crate::world::World;
use enc_base::Token;
use enc_dispatch::Dispatch;
use enc_objects::Objects;
use enc_plain::ModuleView;
use enc_versions::Versions;
use std::alloc::{AllocError, Global};
use std::marker::Model;

/// As many tasks as there can be.
const MOST_TASKS: usize = 64;

/// Tasks, numbered from 1, the objects and statics that they share, and the types that they touched. Each
/// frame keeps the code that it began with, or that of its last move.
#[derive(Drop)]
pub struct Machine {
    pub(crate) shared: Shared,
    pub(crate) tasks: Vec<Task>,
    alloc: Global,
}

impl Model for Machine {
    ghost use Rattle.std.specs.Prelude.{◌≤◌, length};
    ghost use Rattle.enc_versions.specs.Version.{Version};
    ghost use Rattle.enc_vm.specs.Anywhere.{ArePlacedAnywhere};
    ghost use Rattle.enc_vm.specs.SharedSeen.{shared_in};
    ghost use Rattle.enc_frames.specs.Machine.{MachineState};

    ghost Value = { MachineState Version };

    ghost view = { λ m. record { shared = shared_in m.shared; tasks = m.tasks.items } };

    ghost invariant = { λ m. (length m.tasks.items ≤ 64) × ArePlacedAnywhere m.tasks.items };
}

impl Machine {
    /// No tasks, no objects. It takes no memory.
    pub fn begin(alloc: Global) -> Machine
        ensures rest { result ≡ at_rest }
        ensures texts { (users : ℕ → Option (List ℕ)) → IsTrue (machine_texts users result) }
    {
        Machine {
            shared: Shared {
                objects: Objects::begin(alloc),
                touched: Touched::begin(alloc),
            },
            tasks: Vec::new(alloc),
            alloc,
        }
    }

    /// A new task, whose frames hold versions of their methods.
    fn spawn_version<V: ModuleView>(
        &mut self,
        view: &V,
        versions: &Versions,
        method: Token,
    ) -> Result<SpawnEnd, AllocError>
        requires sound { IsSound (V.meaning view.now) }
        requires versions { AreBodiesOf (V.users view.now) (V.meaning view.now) versions.now.methods }
        ensures { IsSpawn result self.new self.old
            (spawn_in (version_world (V.users view.now) (V.meaning view.now) versions.now.methods) method self.old) }
    {
        if self.tasks.len() >= MOST_TASKS {
            return Ok(SpawnEnd::Limit);
        }
        if !may_spawn(self.alloc, view, versions, method) {
            return Ok(SpawnEnd::Method);
        }
        let Some(frame) = frame_now(self.alloc, view, versions, method)? else {
            return Ok(SpawnEnd::Method);
        };
        let owner = declaring(view, method);
        let constructor = constructor_frame(
            self.alloc,
            view,
            versions,
            &self.shared.touched,
            owner,
        )?;
        let thread = first_thread(self.alloc, frame, constructor)?;
        let touched = self.shared.touched.with(self.alloc, owner)?;
        self.tasks.push(Task {
            state: TaskState::Running,
            thread,
        })?;
        self.shared.touched = touched;
        Ok(SpawnEnd::Task(self.tasks.len() as u32))
    }

    /// A step of a task, whose frames hold versions of their methods.
    #[inline(always)]
    fn step_version<V: ModuleView>(
        &mut self,
        world: &World<'_, V>,
        task: u32,
        seen: &mut Seen,
    ) -> Result<StepEnd, AllocError>
        requires sound { IsSound (V.meaning world.now.view) }
        ensures turn { IsTurn result seen.new self.new self.old
            (machine_turn (world_in V.users V.meaning world.now) task self.old) }
        ensures seen { KeepsSeen result seen.new seen.old }
    {
        world.bodies_law();
        let Some(i) = task.checked_sub(1) else {
            return Ok(StepEnd::Absent);
        };
        match self.tasks.get_mut(i as usize) {
            None => Ok(StepEnd::Absent),
            Some(task) => task.step(world, &mut self.shared, seen),
        }
    }

    /// A new task that begins with a method: its number, or why there is none. `Limit` where there are 64
    /// tasks, and else `Method` where the method is no static one without parameters, or where the interpreter
    /// doesn't run it or the constructor of its type. The type is touched (ECMA-335 II.10.5.3). Without memory
    /// nothing changes.
    #[tactic(auto, using(crate::proofs::PlainTurns::plain_spawn, crate::proofs::TextsKept::spawn_texts))]
    pub fn spawn<V: ModuleView>(
        &mut self,
        view: &V,
        versions: &Versions,
        method: Token,
    ) -> Result<SpawnEnd, AllocError>
        requires sound { IsSound (V.meaning view.now) }
        requires versions { AreBodiesOf (V.users view.now) (V.meaning view.now) versions.now.methods }
        ensures plain { IsPlainSpawn (V.users view.now)
            (V.meaning view.now) versions.now.methods method result self.new self.old }
        ensures kept { IsSpawn result self.new self.old
            (spawn_in (version_world (V.users view.now) (V.meaning view.now) versions.now.methods) method self.old) }
        ensures texts { IsTrue (machine_texts (V.users view.now) self.old)
            → IsTrue (machine_texts (V.users view.now) self.new) }
    {
        self.spawn_version(view, versions, method)
    }

    /// A step of a task: `Absent` where no task has the number, `Idle` where it has ended or trapped, and else
    /// one instruction, or what comes next on the way of a thrown object (ECMA-335 I.12.3, III). What it shows is
    /// put into `seen`, which stays as it is where there is no step. Without memory nothing changes.
    #[tactic(auto, using(crate::proofs::PlainTurns::plain_turn, crate::proofs::TextsKept::turn_texts))]
    pub fn step<V: ModuleView>(
        &mut self,
        view: &V,
        versions: &Versions,
        dispatch: &Dispatch,
        task: u32,
        seen: &mut Seen,
    ) -> Result<StepEnd, AllocError>
        requires sound { IsSound (V.meaning view.now) }
        requires versions { AreBodiesOf (V.users view.now) (V.meaning view.now) versions.now.methods }
        requires stands { StandsForModule dispatch.now (V.meaning view.now) }
        ensures plain { IsPlainTurn (V.users view.now)
            (V.meaning view.now) versions.now.methods task result seen.new self.new self.old }
        ensures kept { IsTurn result seen.new self.new self.old
            (machine_turn (version_world (V.users view.now) (V.meaning view.now) versions.now.methods) task self.old) }
        ensures texts { IsTrue (machine_texts (V.users view.now) self.old)
            → IsTrue (machine_texts (V.users view.now) self.new) }
        ensures seen { KeepsSeen result seen.new seen.old }
    {
        let world = World {
            alloc: self.alloc,
            view,
            versions,
            dispatch,
        };
        self.step_version(&world, task, seen)
    }
}
