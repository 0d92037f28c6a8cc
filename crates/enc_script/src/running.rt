//! A run on its way, command by command.
ghost use Rattle.std.specs.Prelude.{◌≡◌, ◌≤◌, ◌<◌, ◌+◌, ◌^◌, ◌++◌, [], Some, IfOk, OnOk, map};
ghost use Rattle.enc_script.specs.Ran.{HasRan};
ghost use Rattle.enc_script.specs.Run.{apply_ran, attach_ran, begun_with, command_ran, detach_ran, files_of, named_delta, remap_ran, spawn_ran, steps_of, steps_ran};
ghost use Rattle.enc_session.specs.Session.{world_of};
ghost use Rattle.enc_vm.specs.Turns.{machine_turn};
ghost use Rattle.enc_watch.specs.Audience.{first_of_kind, reports, seat_at};

use crate::files::{NamedDelta, copied_files, files_of};
use crate::lines::{
    push_attached, push_none, push_outcome, push_ran, push_remap, push_said, push_spawn,
};
use crate::steps::make_steps;
use enc_base::Token;
use enc_image::Image;
use enc_jobs::Command;
use enc_plain::PairList;
use enc_ppdb::Pdb;
use enc_session::{Session, push_word};
use enc_vm::TaskState;
use enc_watch::{Handed, WatchKind, Watcher};
use std::alloc::{AllocError, Global};
use std::marker::Model;

/// A session, and the watchers that were handed in and not yet attached.
#[derive(Drop)]
pub(crate) struct Running<W: Watcher> {
    session: Session<W>,
    handed: Handed<W>,
    alloc: Global,
}

impl<W: Watcher> Model for Running<W> {
    ghost use Rattle.enc_script.specs.Run.{PlainRun};

    ghost Value = { PlainRun };

    ghost view = { λ r. record { session = r.session; handed = r.handed } };
}

impl<W: Watcher> Running<W> {
    /// A base and its PDB, where it has one: no task, and no watcher attached.
    pub(crate) fn begin(
        alloc: Global,
        image: Image,
        pdb: Option<Pdb>,
        watchers: Vec<W>,
    ) -> Result<Running<W>, AllocError>
        ensures { IfOk result (λ r. r ≡ begun_with (record { base = image; deltas = []; debug = pdb; debugs = [] })
            (map W.watching watchers.items)) }
    {
        Ok(Running {
            session: Session::begin(alloc, image, pdb)?,
            handed: Handed::from_vec(watchers),
            alloc,
        })
    }

    /// A spawn: its line, and then those of watchers that are gone.
    fn spawn(&mut self, method: Token, out: &mut Vec<u8>) -> Result<(), AllocError>
        ensures ran { OnOk result (HasRan (spawn_ran method) self.new self.old out.new.items out.old.items) }
        ensures given { OnOk result (self.new.session.seated.given ≡ self.old.session.seated.given) }
    {
        let mut gone = Vec::new(self.alloc);
        let end = self.session.spawn(method, &mut gone)?;
        push_spawn(self.alloc, method, end, out)?;
        out.extend_from_slice(&gone)
    }

    /// Steps of a task, and how many were made.
    fn steps(&mut self, task: u32, count: u32, out: &mut Vec<u8>) -> Result<(), AllocError>
        ensures ran { OnOk result (HasRan (λ deaf r. steps_ran task (machine_turn
            (world_of r.session.followed) task r.session.machine) (steps_of task count deaf r.session) deaf r) self.new
            self.old out.new.items out.old.items) }
        ensures given { OnOk result (self.new.session.seated.given ≡ self.old.session.seated.given) }
    {
        match self.session.status(task) {
            None => push_word(self.alloc, task, "absent", out),
            Some(TaskState::Ended) => push_word(self.alloc, task, "idle", out),
            Some(TaskState::Trapped(_)) => push_word(self.alloc, task, "idle", out),
            Some(TaskState::Running) => {
                let made = make_steps(&mut self.session, task, count, out)?;
                push_ran(self.alloc, task, made, out)
            }
        }
    }

    /// A delta that is there: its line, and then those of watchers that are gone.
    fn apply_files(
        &mut self,
        name: &[u8],
        delta: &NamedDelta,
        out: &mut Vec<u8>,
    ) -> Result<(), AllocError>
        ensures ran { OnOk result (HasRan
            (apply_ran name.now (Some (named_delta delta.now))) self.new self.old out.new.items out.old.items) }
        ensures given { OnOk result (self.new.session.seated.given ≡ self.old.session.seated.given) }
    {
        let mut gone = Vec::new(self.alloc);
        let files = copied_files(self.alloc, &delta.files)?;
        let applied = self.session.apply(files, &mut gone)?;
        push_outcome(self.alloc, name, delta, applied, out)?;
        out.extend_from_slice(&gone)
    }

    /// A delta by its name.
    fn apply(
        &mut self,
        deltas: &[NamedDelta],
        name: &[u8],
        out: &mut Vec<u8>,
    ) -> Result<(), AllocError>
        ensures ran { OnOk result (HasRan (apply_ran name.now (files_of name.now (map named_delta deltas.now))) self.new
            self.old out.new.items out.old.items) }
        ensures given { OnOk result (self.new.session.seated.given ≡ self.old.session.seated.given) }
    {
        match files_of(self.alloc, deltas, name)? {
            None => Ok(()),
            Some(delta) => self.apply_files(name, delta, out),
        }
    }

    /// Attaches the first watcher that was handed in of a kind.
    fn attach(&mut self, kind: WatchKind, out: &mut Vec<u8>) -> Result<(), AllocError>
        requires { self.old.session.seated.given + 1 < 2 ^ 32 }
        ensures ran { OnOk result (HasRan (λ deaf r. attach_ran kind (first_of_kind kind r.handed) deaf r) self.new
            self.old out.new.items out.old.items) }
        ensures given { OnOk result (self.new.session.seated.given ≤ self.old.session.seated.given + 1) }
    {
        let Some(watcher) = self.handed.take(kind) else {
            return push_none(kind, out);
        };
        let Ok(number) = self.session.attach(watcher) else {
            return Err(AllocError);
        };
        push_attached(self.alloc, number, kind, out)
    }

    /// Detaches the watcher with a number, and prints its report.
    fn detach(&mut self, number: u32, out: &mut Vec<u8>) -> Result<(), AllocError>
        ensures ran { OnOk result (HasRan (λ deaf r. detach_ran number (seat_at number r.session.seated.seats) deaf r)
            self.new self.old out.new.items out.old.items) }
        ensures given { OnOk result (self.new.session.seated.given ≡ self.old.session.seated.given) }
    {
        let Some(watcher) = self.session.detach(number) else {
            return push_said(self.alloc, number, "absent", out);
        };
        push_said(self.alloc, number, "detached", out)?;
        push_said(self.alloc, number, "report", out)?;
        watcher.report(out)
    }

    /// A remap: its line.
    fn remap(&mut self, task: u32, map: &PairList, out: &mut Vec<u8>) -> Result<(), AllocError>
        ensures ran { OnOk result (HasRan (remap_ran task map.now) self.new self.old out.new.items out.old.items) }
        ensures given { OnOk result (self.new.session.seated.given ≡ self.old.session.seated.given) }
    {
        let mut gone = Vec::new(self.alloc);
        let remapped = self.session.remap(task, map, &mut gone)?;
        push_remap(self.alloc, task, remapped, out)?;
        out.extend_from_slice(&gone)
    }

    /// A command, and the lines that it prints.
    #[tactic(auto, unfolding(crate::specs::Run::command_ran))]
    pub(crate) fn command(
        &mut self,
        deltas: &[NamedDelta],
        command: &Command,
        out: &mut Vec<u8>,
    ) -> Result<(), AllocError>
        requires { self.old.session.seated.given + 1 < 2 ^ 32 }
        ensures ran { OnOk result (HasRan
            (command_ran (map named_delta deltas.now) command.now) self.new self.old out.new.items out.old.items) }
        ensures given { OnOk result (self.new.session.seated.given ≤ self.old.session.seated.given + 1) }
    {
        match command {
            Command::Spawn(method) => self.spawn(*method, out),
            Command::Step(task, count) => self.steps(*task, *count, out),
            Command::Apply(name) => self.apply(deltas, name.as_slice(), out),
            Command::Attach(kind) => self.attach(*kind, out),
            Command::Detach(number) => self.detach(*number, out),
            Command::Remap(task, map) => self.remap(*task, map, out),
            Command::State => self.session.state(out),
        }
    }

    /// The reports of the watchers that are attached.
    pub(crate) fn push_reports(&self, out: &mut Vec<u8>) -> Result<(), AllocError>
        ensures { OnOk result (out.new.items ≡ out.old.items ++ reports self.now.session.seated.seats) }
    {
        self.session.push_reports(out)
    }
}
