//! A session but for its watchers.
ghost use Rattle.std.specs.Prelude.{◌≡◌, ◌+◌, ◌++◌, [], IfOk, OnOk, OnErr, length, option_map};
ghost use Rattle.enc_agg.specs.Extend.{chain_with};
ghost use Rattle.enc_checker.specs.Followed.{debug_after, followed_by, plain_of};
ghost use Rattle.enc_checker.specs.Check.{accepted};
ghost use Rattle.enc_checker.specs.Seen.{Answers};
ghost use Rattle.enc_vm.specs.Looks.{frame_in, innermost_in, state_in};
ghost use Rattle.enc_frames.specs.Machine.{at_rest};
ghost use Rattle.enc_vm.specs.Room.{WritesAtMost};
ghost use Rattle.enc_vm.specs.Step.{spawn_in};
ghost use Rattle.enc_vm.specs.Turns.{IsSpawn, IsTurn, KeepsSeen, machine_turn};
ghost use Rattle.enc_remap.specs.Remap.{remap_in};
ghost use Rattle.enc_remap.specs.Seen.{IsRemap};
ghost use Rattle.enc_chain.specs.Kept.{IsAcceptedAfter};
ghost use Rattle.enc_session.specs.Session.{applied_as, files_in, followed_after, judged_after, innermost_method, world_of};
ghost use Rattle.enc_session.specs.States.{state_text};

use crate::applied::Applied;
use crate::parts::Parts;
use crate::room::write_units;
use crate::states::push_state;
use enc_base::{ReadFault, Token};
use enc_checker::{Checked, Files, check};
use enc_image::Image;
use enc_plain::{ChainView, PairList};
use enc_ppdb::Pdb;
use enc_remap::{Remapped, remap};
use enc_vm::{Machine, Seen, SpawnEnd, StepEnd, TaskState, look_laws, meaning_laws, text_law};
use std::alloc::{AllocError, Global};
use std::marker::Model;

/// A base with the deltas that follow it, and a machine over it. Each frame keeps the body with which it began, or that
/// of its last remap.
#[derive(Drop)]
pub(crate) struct Engine {
    pub(crate) parts: Parts,
    pub(crate) machine: Machine,
    alloc: Global,
}

impl Model for Engine {
    ghost use Rattle.enc_session.specs.Engine.{IsEngine, PlainEngine, followed_in, machine_in};

    ghost Value = { PlainEngine };

    ghost view = { λ c. record { followed = followed_in c.parts; machine = machine_in c.parts c.machine } };

    ghost invariant = { λ c. IsEngine c.parts c.machine };
}

impl Engine {
    /// A base and its PDB, where it has one, and a machine at rest.
    pub(crate) fn begin(alloc: Global, image: Image, pdb: Option<Pdb>) -> Result<Engine, AllocError>
        ensures { IfOk result (λ c. c ≡ record {
          followed = record {
            base = image;
            deltas = [];
            debug = pdb;
            debugs = [];
          };
          machine = at_rest;
        }) }
    {
        let parts = Parts::begin(alloc, image, pdb)?;
        Ok(Engine {
            parts,
            machine: Machine::begin(alloc),
            alloc,
        })
    }

    /// A new task that begins with the newest body of a method, as the plain machine's does.
    pub(crate) fn spawn(&mut self, method: Token) -> Result<SpawnEnd, AllocError>
        ensures spawned { IsSpawn result self.new.machine self.old.machine
            (spawn_in (world_of self.old.followed) method self.old.machine) }
        ensures followed { self.new.followed ≡ self.old.followed }
    {
        self.parts.joined.rows().sound();
        self.machine
            .spawn(self.parts.joined.rows(), &self.parts.versions, method)
    }

    /// A step of a task, as the plain machine's.
    pub(crate) fn step(&mut self, task: u32, seen: &mut Seen) -> Result<StepEnd, AllocError>
        ensures turn { IsTurn result seen.new self.new.machine self.old.machine
            (machine_turn (world_of self.old.followed) task self.old.machine) }
        ensures seen { KeepsSeen result seen.new seen.old }
        ensures followed { self.new.followed ≡ self.old.followed }
    {
        self.parts.joined.rows().sound();
        self.machine.step(
            self.parts.joined.rows(),
            &self.parts.versions,
            &self.parts.dispatch,
            task,
            seen,
        )
    }

    /// A task's innermost frame goes on in the newest body of its method, as the plain machine's.
    pub(crate) fn remap(&mut self, task: u32, map: &PairList) -> Result<Remapped, AllocError>
        ensures remapped { IsRemap result self.new.machine self.old.machine
            (remap_in (plain_of self.old.followed) (debug_after self.old.followed) task map.now self.old.machine) }
        ensures followed { self.new.followed ≡ self.old.followed }
    {
        self.parts.joined.rows().sound();
        remap(
            self.alloc,
            &mut self.machine,
            self.parts.joined.rows(),
            &self.parts.versions,
            task,
            map,
        )
    }

    /// A number that isn't less than that of the UTF-16 units that a task's next step writes.
    pub(crate) fn write_units(&self, task: u32) -> u32
        ensures { WritesAtMost result (machine_turn (world_of self.now.followed) task self.now.machine) }
    {
        meaning_laws();
        self.parts.joined.rows().sound();
        write_units(&self.machine, self.parts.joined.rows(), task)
    }

    /// How it stands with a task.
    pub(crate) fn status(&self, task: u32) -> Option<TaskState>
        ensures { result ≡ state_in self.now.machine task }
    {
        look_laws();
        self.machine.status(task)
    }

    /// The method of a task's innermost frame, None where it has none.
    pub(crate) fn method(&self, task: u32) -> Option<Token>
        ensures { result ≡ innermost_method self.now.machine task }
    {
        match self.machine.innermost(task) {
            None => None,
            Some(frame) => Some(frame.method()),
        }
    }

    /// Where a task's innermost frame stands, None where it has none.
    pub(crate) fn offset(&self, task: u32) -> Option<u32>
        ensures { result ≡ option_map (λ f. f.offset) (innermost_in self.now.machine task) }
    {
        match self.machine.innermost(task) {
            None => None,
            Some(frame) => Some(frame.offset()),
        }
    }

    /// The method of the i-th frame of a task, from the outermost, None where it has none.
    pub(crate) fn method_at(&self, task: u32, i: u32) -> Option<Token>
        ensures { result ≡ option_map (λ f. f.method) (frame_in self.now.machine task i) }
    {
        look_laws();
        match self.machine.frame(task, i) {
            None => None,
            Some(frame) => Some(frame.method()),
        }
    }

    /// Appends the state of the machine. Without memory nothing is appended.
    pub(crate) fn push_state(&self, out: &mut Vec<u8>) -> Result<(), AllocError>
        ensures text { OnOk result (out.new.items ≡ out.old.items ++ state_text self.now.machine) }
        ensures err { OnErr result (out.new.items ≡ out.old.items) }
    {
        let mut text = Vec::new(self.alloc);
        push_state(self.alloc, &self.machine, &mut text)?;
        out.extend_from_slice(&text)
    }

    /// Adds a delta that breaks no rule.
    pub(crate) fn follow(&mut self, checked: Checked) -> Result<(), AllocError>
        requires { IsAcceptedAfter (chain_with self.old.followed.base self.old.followed.deltas) checked.delta
            checked.pdb }
        ensures ok { OnOk result (self.new ≡ record {
          followed = followed_by self.old.followed
              (accepted checked.delta checked.pdb);
          machine = self.old.machine;
        }) }
        ensures err { OnErr result (self.new ≡ self.old) }
    {
        text_law();
        let prepared = self.parts.prepare(self.alloc, checked)?;
        self.parts.commit(prepared);
        Ok(())
    }

    /// How many generations there are, the base among them: the number of the next.
    pub(crate) fn generations(&self) -> u32
        ensures { result ≡ length self.now.followed.deltas + 1 }
    {
        self.parts.joined.rows().generations()
    }

    /// Judges the files of a delta after the deltas before them.
    pub(crate) fn judge(&self, files: Files) -> Result<Checked, ReadFault>
        ensures answer { Answers result (judged_after self.now.followed (files_in files)) }
        ensures follows { IfOk result (λ c. IsAcceptedAfter
            (chain_with self.now.followed.base self.now.followed.deltas) c.delta c.pdb) }
    {
        self.parts.joined.check(self.alloc, files)
    }

    /// The files of a delta: they are applied where they break no rule after the deltas before them, and else
    /// refused. Refused files and want of memory change nothing.
    pub(crate) fn apply(&mut self, files: Files) -> Result<Applied, AllocError>
        ensures applied { IfOk result (λ a. a
            ≡ applied_as (judged_after self.old.followed (files_in files)) self.old.followed) }
        ensures ok { OnOk result (self.new ≡ record {
          followed = followed_after
              (judged_after self.old.followed (files_in files)) self.old.followed;
          machine = self.old.machine;
        }) }
        ensures err { OnErr result (self.new ≡ self.old) }
    {
        match self.judge(files) {
            Err(ReadFault::Memory) => Err(AllocError),
            Err(ReadFault::Refused(refusal)) => Ok(Applied::Refused(refusal)),
            Ok(checked) => {
                let generation = self.generations();
                self.follow(checked)?;
                Ok(Applied::Generation(generation))
            }
        }
    }
}
