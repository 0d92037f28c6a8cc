//! A session: tasks over a base, deltas between their steps, and the watchers that hear of all.
ghost use Rattle.std.specs.Prelude.{◌≡◌, ◌+◌, ◌*◌, ◌<◌, ◌≤◌, ◌^◌, ◌++◌, [], IfOk, IfErr, OnOk, OnErr, length, option_map, unwrap_or, vec_len, vec_capacity};
ghost use Rattle.enc_vm.specs.Looks.{state_in};
ghost use Rattle.enc_frames.specs.Machine.{at_rest};
ghost use Rattle.enc_vm.specs.Step.{spawn_in};
ghost use Rattle.enc_vm.specs.Turns.{IsSpawn, machine_turn, shown_in};
ghost use Rattle.enc_watch.specs.Audience.{Seat, attached, fault_room, reports, seat_at, without};
ghost use Rattle.enc_session.specs.Seen.{ending_told};
ghost use Rattle.enc_session.specs.Session.{HasPassed, applied_as, apply_passed, files_in, judged_after, remap_of, remap_passed, remapped_as, spawn_passed, step_lines, step_passed, turn_end, with_seated, world_of};
ghost use Rattle.enc_session.specs.States.{state_text};

use crate::applied::Applied;
use crate::engine::Engine;
use crate::events::{applied_event, begun_events, step_events};
use crate::lines::{push_ended, push_trapped, push_written};
use enc_base::Token;
use enc_checker::Files;
use enc_image::Image;
use enc_plain::PairList;
use enc_ppdb::Pdb;
use enc_remap::Remapped;
use enc_vm::{Seen, SpawnEnd, StepEnd, TaskState};
use enc_watch::{Audience, Watcher};
use std::alloc::{AllocError, Global};
use std::marker::Model;

/// The room that a step's lines take beside what it writes.
pub(crate) const STEP_ROOM: usize = 66;

/// Tasks over a base with the deltas that follow it, and watchers. Each call is one event of a machine whose module is
/// edited directly: a call enters the newest body of its method, and a frame that is under way goes on in the body, the
/// texts and the sequence points with which it began, or those of its last remap.
///
/// What a call appends to `out` are the lines of that event, and those of watchers that didn't hear it: such a watcher
/// is gone, and the event stands all the same. Without memory the session, its watchers and `out` stay as they are.
#[derive(Drop)]
pub struct Session<W: Watcher> {
    engine: Engine,
    audience: Audience<W>,
}

impl<W: Watcher> Model for Session<W> {
    ghost use Rattle.enc_session.specs.Session.{PlainSession};

    ghost Value = { PlainSession };

    ghost view = { λ s. record { followed = s.engine.followed; machine = s.engine.machine; seated = s.audience } };
}

/// Appends the lines of a step: what it writes, and that the task ended or trapped.
#[tactic(auto, unfolding(crate::specs::Session::step_lines))]
pub(crate) fn push_step_lines(
    engine: &Engine,
    task: u32,
    seen: &Seen,
    end: StepEnd,
    out: &mut Vec<u8>,
)
    requires { vec_len out.old + (12 * length (unwrap_or seen.now.wrote []) + 66) ≤ vec_capacity out.old }
    ensures text { out.new.items ≡ out.old.items ++ step_lines task (ending_told end) engine.now.machine
        (shown_in seen.now) }
    ensures len { vec_len out.new ≤ vec_len out.old + (12 * length (unwrap_or seen.now.wrote []) + 66) }
    ensures capacity { vec_capacity out.old ≤ vec_capacity out.new }
{
    push_written(task, seen, out);
    match end {
        StepEnd::Ran | StepEnd::Idle | StepEnd::Absent => {}
        StepEnd::Ended => push_ended(task, out),
        StepEnd::Trapped(trap) => match engine.offset(task) {
            None => {}
            Some(offset) => push_trapped(task, trap, offset, out),
        },
    }
}

impl<W: Watcher> Session<W> {
    /// A base and its PDB, where it has one: no task, no watcher.
    pub fn begin(alloc: Global, image: Image, pdb: Option<Pdb>) -> Result<Session<W>, AllocError>
        ensures { IfOk result (λ s. s ≡ record {
          followed = record {
            base = image;
            deltas = [];
            debug = pdb;
            debugs = [];
          };
          machine = at_rest;
          seated = record { seats = []; given = 0 };
        }) }
    {
        Ok(Session {
            engine: Engine::begin(alloc, image, pdb)?,
            audience: Audience::begin(alloc),
        })
    }

    /// Attaches a watcher, which gets the next number, from 1. Without memory it is handed back, and nothing changes.
    pub fn attach(&mut self, watcher: W) -> Result<u32, W>
        requires { self.old.seated.given + 1 < 2 ^ 32 }
        ensures number { IfOk result (λ number. number ≡ self.old.seated.given + 1) }
        ensures ok { OnOk result (self.new ≡ with_seated (attached (W.watching watcher) self.old.seated) self.old) }
        ensures back { IfErr result (λ back. back ≡ watcher) }
        ensures err { OnErr result (self.new ≡ self.old) }
    {
        self.audience.attach(watcher)
    }

    /// Detaches the watcher with a number and hands it back; None exactly where none has it. It hears nothing more.
    pub fn detach(&mut self, number: u32) -> Option<W>
        ensures taken { option_map W.watching result
            ≡ option_map (λ (s : Seat). s.watching) (seat_at number self.old.seated.seats) }
        ensures left { self.new ≡ with_seated
            (record { seats = without number self.old.seated.seats; given = self.old.seated.given }) self.old }
    {
        self.audience.detach(number)
    }

    /// How many numbers were given to watchers.
    pub fn given(&self) -> u32
        ensures { result ≡ self.now.seated.given }
    {
        self.audience.given()
    }

    /// Room for so many bytes, and for the lines that all watchers are gone, and how many bytes those are: none exactly
    /// where no watcher is attached. Nothing else that is seen changes.
    fn make_room(&self, own: usize, out: &mut Vec<u8>) -> Result<usize, AllocError>
        ensures faults { IfOk result (λ faults. faults ≡ fault_room self.now.seated.seats) }
        ensures room { OnOk result (vec_len out.new + own + fault_room self.now.seated.seats ≤ vec_capacity out.new) }
        ensures same { out.new.items ≡ out.old.items }
    {
        let Some(faults) = self.audience.fault_room() else {
            return Err(AllocError);
        };
        let Some(room) = own.checked_add(faults) else {
            return Err(AllocError);
        };
        out.reserve(room)?;
        Ok(faults)
    }

    /// A new task that begins with a method: its number, or why there is none. `Limit` where there are 64 tasks, and
    /// else `Method` where the method is no static one without parameters, or where the interpreter doesn't run it or
    /// the constructor of its type.
    pub fn spawn(&mut self, method: Token, out: &mut Vec<u8>) -> Result<SpawnEnd, AllocError>
        ensures spawned { IsSpawn result self.new.machine self.old.machine
            (spawn_in (world_of self.old.followed) method self.old.machine) }
        ensures passed { OnOk result (HasPassed (spawn_passed method) self.new self.old out.new.items out.old.items) }
        ensures given { self.new.seated.given ≡ self.old.seated.given }
        ensures err { OnErr result (self.new ≡ self.old) }
        ensures kept { OnErr result (out.new.items ≡ out.old.items) }
    {
        self.make_room(0, out)?;
        let end = self.engine.spawn(method)?;
        if let SpawnEnd::Task(task) = end {
            let events = begun_events(&self.engine, method, task);
            self.audience.tell(events.as_slice(), out);
        }
        Ok(end)
    }

    /// A step of a task: `Absent` where no task has the number, `Idle` where it has ended or trapped.
    pub fn step(&mut self, task: u32, out: &mut Vec<u8>) -> Result<StepEnd, AllocError>
        ensures end { IfOk result (λ end. end
            ≡ turn_end (machine_turn (world_of self.old.followed) task self.old.machine)) }
        ensures passed { OnOk result (HasPassed (step_passed task) self.new self.old out.new.items out.old.items) }
        ensures given { self.new.seated.given ≡ self.old.seated.given }
        ensures err { OnErr result (self.new ≡ self.old) }
        ensures kept { OnErr result (out.new.items ≡ out.old.items) }
    {
        let units = self.engine.write_units(task);
        let method = self.engine.method(task);
        let faults = self.make_room(12 * units as usize + STEP_ROOM, out)?;
        let mut seen = Seen::nothing();
        let end = self.engine.step(task, &mut seen)?;
        push_step_lines(&self.engine, task, &seen, end, out);
        if faults == 0 {
            return Ok(end);
        }
        let events = step_events(task, method, &seen, end);
        self.audience.tell(events.as_slice(), out);
        Ok(end)
    }

    /// The files of a delta: they are applied where they break no rule after the deltas before them, and make the next
    /// generation; else they are refused by the first rule that they break, and but for the watchers, who hear of it,
    /// nothing changes.
    pub fn apply(&mut self, files: Files, out: &mut Vec<u8>) -> Result<Applied, AllocError>
        ensures applied { IfOk result (λ a. a
            ≡ applied_as (judged_after self.old.followed (files_in files)) self.old.followed) }
        ensures passed { OnOk result (HasPassed
            (apply_passed (files_in files)) self.new self.old out.new.items out.old.items) }
        ensures given { self.new.seated.given ≡ self.old.seated.given }
        ensures err { OnErr result (self.new ≡ self.old) }
        ensures kept { OnErr result (out.new.items ≡ out.old.items) }
    {
        self.make_room(0, out)?;
        let applied = self.engine.apply(files)?;
        self.audience.tell(&[applied_event(applied)], out);
        Ok(applied)
    }

    /// The innermost frame of a task goes on in the newest body of its method, at the offset to which a map leads from
    /// the frame's; or it is refused by the first of Q1 to Q7 that it breaks, and then nothing changes (`enc_remap`
    /// says what each asks). No watcher hears of it, and nothing is appended.
    #[tactic(auto, using(crate::proofs::Remapping::remap_has_passed, crate::proofs::Remapping::remap_answers))]
    pub fn remap(
        &mut self,
        task: u32,
        map: &PairList,
        out: &mut Vec<u8>,
    ) -> Result<Remapped, AllocError>
        ensures remapped { IfOk result (λ r. r ≡ remapped_as (remap_of task map.now self.old)) }
        ensures passed { OnOk result (HasPassed
            (remap_passed task map.now) self.new self.old out.new.items out.old.items) }
        ensures given { self.new.seated.given ≡ self.old.seated.given }
        ensures err { OnErr result (self.new ≡ self.old) }
        ensures kept { out.new.items ≡ out.old.items }
    {
        let _ = out;
        self.engine.remap(task, map)
    }

    /// How it stands with a task. None exactly where no task has the number.
    pub fn status(&self, task: u32) -> Option<TaskState>
        ensures { result ≡ state_in self.now.machine task }
    {
        self.engine.status(task)
    }

    /// Appends the state of the machine.
    pub fn state(&self, out: &mut Vec<u8>) -> Result<(), AllocError>
        ensures text { OnOk result (out.new.items ≡ out.old.items ++ state_text self.now.machine) }
        ensures err { OnErr result (out.new.items ≡ out.old.items) }
    {
        self.engine.push_state(out)
    }

    /// Appends the reports of all watchers, in order of number, each behind a line that says whose it is.
    pub fn push_reports(&self, out: &mut Vec<u8>) -> Result<(), AllocError>
        ensures { OnOk result (out.new.items ≡ out.old.items ++ reports self.now.seated.seats) }
    {
        self.audience.push_reports(out)
    }
}
