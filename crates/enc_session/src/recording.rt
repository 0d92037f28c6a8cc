//! A session that is recorded: tasks over a base, deltas between their steps, and all events until they are taken.
ghost use Rattle.std.specs.Prelude.{◌≡◌, ◌+◌, ◌-◌, ◌*◌, ◌≤◌, ◌++◌, [], Ok, Err, IfOk, OnOk, OnErr, get_or, length, nat_le, option_map, reverse, slice_set, vec_len, vec_capacity};
ghost use Rattle.enc_agg.specs.Extend.{chain_with};
ghost use Rattle.enc_checker.specs.Check.{accepted};
ghost use Rattle.enc_vm.specs.Looks.{frames_in, state_in};
ghost use Rattle.enc_vm.specs.Step.{spawn_in};
ghost use Rattle.enc_vm.specs.Turns.{IsSpawn, machine_turn};
ghost use Rattle.enc_chain.specs.Kept.{IsAcceptedAfter};
ghost use Rattle.enc_session.specs.Recording.{HaveGenerations, HasStepped, apply_recorded, generations_of, facts_in, judged_recorded, recorded_base, generations_now, remap_recorded, remapped_in, spawn_recorded, step_recorded, values_in, with_first_generation};
ghost use Rattle.enc_session.specs.RecordingSeen.{generation_at, is_made};
ghost use Rattle.enc_session.specs.declared.applied.Applied.TheVariants.{Generation, Refused};
ghost use Rattle.enc_session.specs.Session.{applied_as, files_in, judged_after, remapped_as, turn_end, world_of};
ghost use Rattle.enc_session.specs.States.{state_text};

use crate::applied::Applied;
use crate::engine::Engine;
use crate::events::{applied_event, begun_events, step_events};
use crate::frame_generations::FrameGenerations;
use crate::looks::{FrameFacts, FramePart};
use crate::newest::Newest;
use crate::session::{STEP_ROOM, push_step_lines};
use enc_base::{ReadFault, Refusal, Token};
use enc_checker::{Checked, Files, new_bodies};
use enc_image::Image;
use enc_objects::Value;
use enc_plain::PairList;
use enc_ppdb::Pdb;
use enc_remap::Remapped;
use enc_vm::{Seen, SpawnEnd, StepEnd, TaskState};
use enc_watch::Event;
use std::alloc::{AllocError, Global};
use std::marker::Model;

/// Tasks over a base with the deltas that follow it, as a `Session`'s, with all events and all lines that nobody has
/// taken yet: none is lost. Memory for the events is taken at the begin, and a call that may tell more asks that there
/// is room for them. Without memory nothing changes.
#[derive(Drop)]
pub struct Recording {
    engine: Engine,
    events: Vec<Event>,
    text: Vec<u8>,
    generations: Vec<FrameGenerations>,
    newest: Newest,
    limit: u32,
    alloc: Global,
}

impl Model for Recording {
    ghost use Rattle.enc_session.specs.Recording.{HaveGenerations, Recorded};
    ghost use Rattle.enc_session.specs.RecordingSeen.{AreGenerationsOf, HaveRoomTo};

    ghost Value = { Recorded };

    ghost view = { λ r. record {
      followed = r.engine.followed;
      machine = r.engine.machine;
      events = r.events.items;
      text = r.text.items;
      generations = r.generations.items;
      limit = r.limit;
    } };

    ghost invariant = { λ r. HaveRoomTo r.limit r.events × AreGenerationsOf r.engine.followed.deltas r.newest
        × HaveGenerations r.engine.machine r.generations.items };
}

/// How many steps ran, and how the last one ended.
#[derive(Drop)]
pub struct Stepped {
    /// How many ran, as a script counts: one that trapped isn't counted, and one with which the task ended is.
    pub ran: u32,
    /// What the last step came to, `Ran` where none was made; or that there was no memory for one more.
    pub end: Result<StepEnd, AllocError>,
}

/// Adds events, within room that is there.
fn push_events(events: &[Event], all: &mut Vec<Event>)
    requires { vec_len all.old + length events.now ≤ vec_capacity all.old }
    ensures events { all.new.items ≡ all.old.items ++ events.now }
    ensures capacity { vec_capacity all.old ≤ vec_capacity all.new }
{
    let Ok(()) = all.extend_from_slice(events) else {
        unreachable!()
    };
}

/// The generations of a task's frames as they are now.
fn settle(generations: &mut Vec<FrameGenerations>, engine: &Engine, newest: &Newest, task: u32)
    ensures { generations.new.items ≡ slice_set generations.old.items (task - 1)
        (generations_now (generation_at newest.now) (frames_in engine.now.machine task)
        (generations_of generations.old.items task)) }
{
    let i = (task as usize).saturating_sub(1);
    if let Some(generations) = generations.get_mut(i) {
        generations.settle(engine, newest, task);
    }
}

/// The innermost frame of a task has another generation.
fn move_generation(generations: &mut Vec<FrameGenerations>, task: u32, generation: u32)
    ensures { generations.new.items ≡ slice_set generations.old.items (task - 1)
        (with_first_generation generation (generations_of generations.old.items task)) }
{
    let i = (task as usize).saturating_sub(1);
    if let Some(generations) = generations.get_mut(i) {
        generations.move_first(generation);
    }
}

/// Whether a step was made.
fn is_made(end: StepEnd) -> bool
    ensures { result ≡ is_made end }
{
    match end {
        StepEnd::Absent | StepEnd::Idle => false,
        StepEnd::Ran | StepEnd::Ended | StepEnd::Trapped(_) => true,
    }
}

impl Recording {
    /// A base and its PDB, where it has one: no task, and nothing recorded. `limit` is how many events there can be
    /// that nobody has taken.
    pub fn begin(
        alloc: Global,
        image: Image,
        pdb: Option<Pdb>,
        limit: u32,
    ) -> Result<Recording, AllocError>
        ensures { IfOk result (λ r. r ≡ recorded_base image pdb limit) }
    {
        let engine = Engine::begin(alloc, image, pdb)?;
        let mut events = Vec::new(alloc);
        events.reserve(limit as usize)?;
        Ok(Recording {
            engine,
            events,
            text: Vec::new(alloc),
            generations: Vec::new(alloc),
            newest: Newest::begin(alloc),
            limit,
            alloc,
        })
    }

    /// Whether there is room for so many more events.
    pub fn has_room(&self, more: u32) -> bool
        ensures { result ≡ nat_le (length self.now.events + more) self.now.limit }
    {
        self.events.len() + more as usize <= self.limit as usize
    }

    /// Whether there is room for the events of so many steps.
    pub fn has_room_for_steps(&self, count: u32) -> bool
        ensures { result ≡ nat_le (length self.now.events + 4 * count) self.now.limit }
    {
        self.events.len() as u64 + 4 * u64::from(count) <= u64::from(self.limit)
    }

    /// Whether there would be room for the events of so many steps, were all events taken.
    pub fn may_hold_steps(&self, count: u32) -> bool
        ensures { result ≡ nat_le (4 * count) self.now.limit }
    {
        4 * u64::from(count) <= u64::from(self.limit)
    }

    /// A new task, as a `Session`'s; its events are at most 3.
    pub fn spawn(&mut self, method: Token) -> Result<SpawnEnd, AllocError>
        requires { length self.old.events + 3 ≤ self.old.limit }
        ensures spawned { IsSpawn result self.new.machine self.old.machine
            (spawn_in (world_of self.old.followed) method self.old.machine) }
        ensures recorded { OnOk result (self.new ≡ spawn_recorded method self.old) }
        ensures few { length self.new.events ≤ length self.old.events + 3 }
        ensures err { OnErr result (self.new ≡ self.old) }
    {
        let mut generations = FrameGenerations::begin(self.alloc)?;
        self.generations.reserve(1)?;
        let end = self.engine.spawn(method)?;
        let SpawnEnd::Task(task) = end else {
            return Ok(end);
        };
        let events = begun_events(&self.engine, method, task);
        push_events(events.as_slice(), &mut self.events);
        generations.settle(&self.engine, &self.newest, task);
        self.generations.push_reserved(generations);
        Ok(end)
    }

    /// A step of a task, as a `Session`'s; its events are at most 4.
    pub fn step(&mut self, task: u32) -> Result<StepEnd, AllocError>
        requires { length self.old.events + 4 ≤ self.old.limit }
        ensures end { IfOk result (λ end. end
            ≡ turn_end (machine_turn (world_of self.old.followed) task self.old.machine)) }
        ensures recorded { OnOk result (self.new ≡ step_recorded task self.old) }
        ensures few { length self.new.events ≤ length self.old.events + 4 }
        ensures limit { self.new.limit ≡ self.old.limit }
        ensures err { OnErr result (self.new ≡ self.old) }
    {
        let units = self.engine.write_units(task);
        self.text.reserve(12 * units as usize + STEP_ROOM)?;
        let method = self.engine.method(task);
        let mut seen = Seen::nothing();
        let end = self.engine.step(task, &mut seen)?;
        if !is_made(end) {
            return Ok(end);
        }
        push_step_lines(&self.engine, task, &seen, end, &mut self.text);
        let events = step_events(task, method, &seen, end);
        push_events(events.as_slice(), &mut self.events);
        settle(&mut self.generations, &self.engine, &self.newest, task);
        Ok(end)
    }

    /// At most so many steps of a task, until one doesn't run; their events are at most 4 each. Without memory those
    /// that were made stand.
    pub fn steps(&mut self, task: u32, count: u32) -> Stepped
        requires { length self.old.events + 4 * count ≤ self.old.limit }
        ensures stepped { HasStepped result.end result.ran task count self.old self.new }
        ensures few { length self.new.events ≤ length self.old.events + 4 * count }
    {
        let mut ran = 0;
        while ran < count {
            let Ok(end) = self.step(task) else {
                return Stepped {
                    ran,
                    end: Err(AllocError),
                };
            };
            match end {
                StepEnd::Ran => ran += 1,
                StepEnd::Ended => return Stepped {
                    ran: ran + 1,
                    end: Ok(StepEnd::Ended),
                },
                _ => return Stepped { ran, end: Ok(end) },
            }
        }
        Stepped {
            ran,
            end: Ok(StepEnd::Ran),
        }
    }

    /// Files are refused: that is an event.
    fn refuse(&mut self, refusal: Refusal) -> Applied
        requires { length self.old.events + 1 ≤ self.old.limit }
        ensures applied { result ≡ Refused refusal }
        ensures recorded { self.new ≡ judged_recorded (Err refusal) self.old }
    {
        let applied = Applied::Refused(refusal);
        push_events(&[applied_event(applied)], &mut self.events);
        applied
    }

    /// A delta that breaks no rule is applied.
    fn follow(&mut self, checked: Checked) -> Result<Applied, AllocError>
        requires room { length self.old.events + 1 ≤ self.old.limit }
        requires follows { IsAcceptedAfter
            (chain_with self.old.followed.base self.old.followed.deltas) checked.delta checked.pdb }
        ensures applied { IfOk result (λ a. a ≡ Generation (length self.old.followed.deltas + 1)) }
        ensures recorded { OnOk result (self.new ≡ judged_recorded (Ok (accepted checked.delta checked.pdb)) self.old) }
        ensures err { OnErr result (self.new ≡ self.old) }
    {
        let methods = new_bodies(self.alloc, &checked.delta)?;
        self.newest.make_room(&methods)?;
        let generation = self.engine.generations();
        self.engine.follow(checked)?;
        self.newest.bring(&methods, generation);
        let applied = Applied::Generation(generation);
        push_events(&[applied_event(applied)], &mut self.events);
        Ok(applied)
    }

    /// The files of a delta, as a `Session`'s; that they are applied or refused is 1 event.
    pub fn apply(&mut self, files: Files) -> Result<Applied, AllocError>
        requires { length self.old.events + 1 ≤ self.old.limit }
        ensures applied { IfOk result (λ a. a
            ≡ applied_as (judged_after self.old.followed (files_in files)) self.old.followed) }
        ensures recorded { OnOk result (self.new ≡ apply_recorded (files_in files) self.old) }
        ensures err { OnErr result (self.new ≡ self.old) }
    {
        match self.engine.judge(files) {
            Err(ReadFault::Memory) => Err(AllocError),
            Err(ReadFault::Refused(refusal)) => Ok(self.refuse(refusal)),
            Ok(checked) => self.follow(checked),
        }
    }

    /// The innermost frame of a task goes on in the newest body of its method, as in a `Session`; its generation is
    /// that of this body. It isn't an event.
    pub fn remap(&mut self, task: u32, map: &PairList) -> Result<Remapped, AllocError>
        ensures remapped { IfOk result (λ r. r ≡ remapped_as (remapped_in task map.now self.old)) }
        ensures recorded { OnOk result (self.new ≡ remap_recorded task map.now self.old) }
        ensures err { OnErr result (self.new ≡ self.old) }
    {
        match self.engine.remap(task, map)? {
            Remapped::Moved { method, from, to } => {
                move_generation(&mut self.generations, task, self.newest.at(method));
                Ok(Remapped::Moved { method, from, to })
            }
            Remapped::Refused(number) => Ok(Remapped::Refused(number)),
        }
    }

    /// How it stands with a task. None exactly where no task has the number.
    pub fn status(&self, task: u32) -> Option<TaskState>
        ensures { result ≡ state_in self.now.machine task }
    {
        self.engine.status(task)
    }

    /// How many frames a task has, none where no task has the number.
    pub fn frames(&self, task: u32) -> u32
        ensures frames { result ≡ length (frames_in self.now.machine task) }
        ensures few { result ≤ 1024 }
        ensures generations { HaveGenerations self.now.machine self.now.generations }
    {
        self.engine.depth(task)
    }

    /// The generation of the i-th frame of a task, from 0 for the outermost; 0 where there is none.
    fn generation(&self, task: u32, i: u32) -> u32
        ensures { result ≡ get_or (reverse (generations_of self.now.generations task)) i 0 }
    {
        match self.generations.get((task as usize).saturating_sub(1)) {
            None => 0,
            Some(generations) => generations.at(i),
        }
    }

    /// The i-th frame of a task, from 0 for the outermost. None exactly where the task has no such frame. Its time is
    /// linear in the number of points of its body.
    #[tactic(auto, unfolding(crate::specs::Recording::facts_in))]
    pub fn frame(&self, task: u32, i: u32) -> Option<FrameFacts>
        ensures { result ≡ facts_in self.now task i }
    {
        self.engine.frame(task, i, self.generation(task, i))
    }

    /// What the i-th frame of a task holds, from 0 for the outermost. None exactly where the task has no such frame.
    pub fn values(&self, task: u32, i: u32, part: FramePart) -> Option<&[Value]>
        ensures { option_map (λ b. b.now) result ≡ values_in self.now.machine task i part }
    {
        self.engine.values(task, i, part)
    }

    /// Appends the state of the machine.
    pub fn state(&self, out: &mut Vec<u8>) -> Result<(), AllocError>
        ensures text { OnOk result (out.new.items ≡ out.old.items ++ state_text self.now.machine) }
        ensures err { OnErr result (out.new.items ≡ out.old.items) }
    {
        self.engine.push_state(out)
    }

    /// All events that nobody has taken, in order.
    pub fn events(&self) -> &[Event]
        ensures { result.now ≡ self.now.events }
    {
        &self.events
    }

    /// All events are taken.
    pub fn clear_events(&mut self)
        ensures { self.new ≡ record self.old { events = [] } }
    {
        self.events.clear();
    }

    /// All lines that nobody has taken: what steps wrote, and that tasks ended or trapped.
    pub fn text(&self) -> &[u8]
        ensures { result.now ≡ self.now.text }
    {
        &self.text
    }

    /// All lines are taken.
    pub fn clear_text(&mut self)
        ensures { self.new ≡ record self.old { text = [] } }
    {
        self.text.clear();
    }
}
