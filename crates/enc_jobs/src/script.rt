//! Scripts.
ghost use Rattle.std.specs.Prelude.{◌≡◌, Some, map};
ghost use Rattle.serde_json.specs.View.{view};
ghost use Rattle.enc_jobs.specs.Lists.{read_in_turn};
ghost use Rattle.enc_jobs.specs.Outcome.{ReadsAs, GivesList};
ghost use Rattle.enc_jobs.specs.Scripts.{spawn_said, step_said, name_said, apply_said, watcher_named, watcher_said, attach_said, detach_said, state_said};
ghost use Rattle.enc_jobs.specs.Scripts.{command_of_kind, command_said, commands_of_items, commands_of_value, script_said};

use crate::command::{Command, Script};
use crate::fault::{JobFault, Refused};
use crate::list::{at_number, parsed};
use crate::name::is_name;
use crate::remap::remap;
use crate::value::{at_key, bytes_of, elements, has_only, number, text, token, word};
use enc_base::Bytes;
use enc_watch::WatchKind;
use serde_json::Value;
use std::alloc::Global;

/// As many commands as a script has.
const MOST_COMMANDS: usize = 100_000;

/// As many steps as one command makes.
const MOST_STEPS: u64 = 1_000_000;

/// A task begins with a method.
#[tactic(auto, unfolding(crate::specs::Scripts::spawn_said))]
fn spawn(value: &Value) -> Result<Command, Refused>
    ensures { ReadsAs result (spawn_said (view value.now)) }
{
    if !has_only(value, &["do", "method"]) {
        return Err(Refused::Form);
    }
    let method = token(at_key(value, "method")?)?;
    Ok(Command::Spawn(method))
}

/// So many steps of a task.
#[tactic(auto, unfolding(crate::specs::Scripts::step_said))]
fn step(value: &Value) -> Result<Command, Refused>
    ensures { ReadsAs result (step_said (view value.now)) }
{
    if !has_only(value, &["do", "task", "count"]) {
        return Err(Refused::Form);
    }
    let task = word(at_key(value, "task")?)?;
    let count = number(MOST_STEPS, at_key(value, "count")?)?;
    if count < 1 {
        return Err(Refused::Form);
    }
    Ok(Command::Step(task, count as u32))
}

/// The bytes of a name.
#[tactic(auto, unfolding(crate::specs::Scripts::name_said))]
fn name(alloc: Global, value: &Value) -> Result<Bytes, Refused>
    ensures { ReadsAs result (name_said (view value.now)) }
{
    let text = text(value)?;
    if !is_name(text) {
        return Err(Refused::Form);
    }
    Ok(bytes_of(alloc, text)?)
}

/// A delta is applied.
#[tactic(auto, unfolding(crate::specs::Scripts::apply_said))]
fn apply(alloc: Global, value: &Value) -> Result<Command, Refused>
    ensures { ReadsAs result (apply_said (view value.now)) }
{
    if !has_only(value, &["do", "delta"]) {
        return Err(Refused::Form);
    }
    let delta = name(alloc, at_key(value, "delta")?)?;
    Ok(Command::Apply(delta))
}

/// The kind of watcher with this name.
fn watcher_named(name: &str) -> Result<WatchKind, Refused>
    ensures { ReadsAs result (watcher_named name.now) }
{
    if name == "trace" {
        return Ok(WatchKind::Trace);
    }
    if name == "cover" {
        return Ok(WatchKind::Cover);
    }
    if name == "failing" {
        return Ok(WatchKind::Failing);
    }
    Err(Refused::Form)
}

/// A kind of watcher, by its name.
#[tactic(auto, unfolding(crate::specs::Scripts::watcher_said))]
fn watcher(value: &Value) -> Result<WatchKind, Refused>
    ensures { ReadsAs result (watcher_said (view value.now)) }
{
    let name = text(value)?;
    watcher_named(name)
}

/// A watcher begins to hear.
#[tactic(auto, unfolding(crate::specs::Scripts::attach_said))]
fn attach(value: &Value) -> Result<Command, Refused>
    ensures { ReadsAs result (attach_said (view value.now)) }
{
    if !has_only(value, &["do", "watcher"]) {
        return Err(Refused::Form);
    }
    let kind = watcher(at_key(value, "watcher")?)?;
    Ok(Command::Attach(kind))
}

/// A watcher hears no more.
#[tactic(auto, unfolding(crate::specs::Scripts::detach_said))]
fn detach(value: &Value) -> Result<Command, Refused>
    ensures { ReadsAs result (detach_said (view value.now)) }
{
    if !has_only(value, &["do", "number"]) {
        return Err(Refused::Form);
    }
    let number = word(at_key(value, "number")?)?;
    Ok(Command::Detach(number))
}

/// The state is shown.
#[tactic(auto, unfolding(crate::specs::Scripts::state_said))]
fn state(value: &Value) -> Result<Command, Refused>
    ensures { ReadsAs result (state_said (view value.now)) }
{
    if !has_only(value, &["do"]) {
        return Err(Refused::Form);
    }
    Ok(Command::State)
}

/// A command of the kind with this name.
fn of_kind(alloc: Global, value: &Value, kind: &str) -> Result<Command, Refused>
    ensures { ReadsAs result (command_of_kind (view value.now) kind.now) }
{
    if kind == "spawn" {
        return spawn(value);
    }
    if kind == "step" {
        return step(value);
    }
    if kind == "apply" {
        return apply(alloc, value);
    }
    if kind == "attach" {
        return attach(value);
    }
    if kind == "detach" {
        return detach(value);
    }
    if kind == "remap" {
        return remap(alloc, value);
    }
    if kind == "state" {
        return state(value);
    }
    Err(Refused::Form)
}

/// A command.
#[tactic(auto, unfolding(crate::specs::Scripts::command_said))]
fn one_command(alloc: Global, value: &Value) -> Result<Command, Refused>
    ensures { ReadsAs result (command_said (view value.now)) }
{
    let kind = text(at_key(value, "do")?)?;
    of_kind(alloc, value, kind)
}

/// Commands, the first with number 1.
#[tactic(auto, using(crate::proofs::Numbered::numbered_steps))]
fn commands(alloc: Global, items: &[Value]) -> Result<Script, JobFault>
    ensures { GivesList result (read_in_turn command_said 1 (map view items.now)) }
{
    let mut script = Script::begin(alloc);
    let mut number: u32 = 1;
    for value in items {
        let command = match one_command(alloc, value) {
            Ok(command) => command,
            Err(refused) => return Err(at_number(number, refused)),
        };
        script.push(command)?;
        number = number.saturating_add(1);
    }
    Ok(script)
}

/// The script of a value.
fn script_of(alloc: Global, value: &Value) -> Result<Script, JobFault>
    ensures { GivesList result (commands_of_value (Some (view value.now))) }
{
    let items = match elements(value) {
        Ok(items) => items,
        Err(refused) => return Err(at_number(0, refused)),
    };
    if items.len() > MOST_COMMANDS {
        return Err(JobFault::L3);
    }
    commands(alloc, items)
}

/// The script that a text says, as JSON: `J1` where the text is no JSON, `J2` with 0 where the whole is no array,
/// `L3` where it has more than 100,000 commands, `J2` with the number, from 1, of the first command that isn't of
/// the form, and `Memory` where there is none.
#[tactic(auto, unfolding(crate::specs::Scripts::script_said))]
pub fn read_script(alloc: Global, text: &[u8]) -> Result<Script, JobFault>
    ensures { GivesList result (script_said text.now) }
{
    let value = parsed(alloc, text)?;
    script_of(alloc, &value)
}
