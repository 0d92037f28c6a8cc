//! Commands of a script.
use enc_base::{Bytes, Token};
use enc_plain::PairList;
use enc_watch::WatchKind;
use std::alloc::{AllocError, AllocFailed, Global};
use std::marker::Model;

/// A command of a script.
#[derive(Drop)]
pub enum Command {
    /// A task begins with the method of this token.
    Spawn(Token),
    /// A task makes so many steps, 1 to 1,000,000: its number, and how many.
    Step(u32, u32),
    /// A delta is applied: the bytes of its name, 1 to 200, each an ASCII letter, a digit or one of `_ - . /`.
    Apply(Bytes),
    /// A watcher of this kind begins to hear.
    Attach(WatchKind),
    /// The watcher with this number hears no more.
    Detach(u32),
    /// The innermost frame of a task goes on in the newest body of its method: the task's number, and the map from
    /// offsets of its own body to offsets of that one, of at most 65,536 pairs.
    Remap(u32, PairList),
    /// The state of the machine is shown.
    State,
}

/// A script: commands, in order.
#[derive(Drop)]
pub struct Script {
    commands: Vec<Command>,
}

impl Model for Script {
    ghost use Rattle.std.specs.Prelude.{List};
    ghost use Rattle.enc_jobs.specs.declared.command.Command.{Command as TheCommand};

    ghost Value = { List TheCommand };

    ghost view = { λ s. s.commands.items };
}

impl Script {
    ghost use Rattle.std.specs.Prelude.{◌≡◌, ◌++◌, ◌∷◌, [], length, slice_get, option_map, OnOk, OnErr};

    /// No commands. It takes no memory.
    pub fn begin(alloc: Global) -> Script
        ensures { result ≡ [] }
    {
        Script {
            commands: Vec::new(alloc),
        }
    }

    /// One command more, behind the others. Without memory nothing changes.
    pub fn push(&mut self, command: Command) -> Result<(), AllocError>
        ensures ok { OnOk result (self.new ≡ self.old ++ command ∷ []) }
        ensures err { OnErr result (self.new ≡ self.old) }
    {
        self.commands.push(command)?;
        Ok(())
    }

    /// How many there are.
    pub fn len(&self) -> usize
        ensures { result ≡ length self.now }
    {
        self.commands.len()
    }

    /// The command at an index from 0, None exactly past the last.
    pub fn get(&self, i: usize) -> Option<&Command>
        ensures { option_map (λ c. c.now) result ≡ slice_get self.now i }
    {
        self.commands.get(i)
    }

    /// All, in order.
    pub fn as_slice(&self) -> &[Command]
        ensures { result.now ≡ self.now }
    {
        self.commands.as_slice()
    }
}
