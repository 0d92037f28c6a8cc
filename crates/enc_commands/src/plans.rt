//! Plans that save nothing, and the stops of commands that do nothing.
ghost use Rattle.std.specs.Prelude.{◌≡◌, ◌≢◌, [], Err};
ghost use Rattle.enc_commands.specs.Verdict.{no_command, absent_file, refused_file, past_limit, no_list, broken_list, deep_chain};
ghost use Rattle.enc_commands.specs.Plans.{IsPlanOf};
ghost use Rattle.enc_commands.specs.Stops.{OnPlan, IsQuiet, IsUnread, IsUnlisted};

use crate::halt::Halt;
use crate::plan::{Outcome, Plan};
use enc_base::{ReadFault, Refusal, Token};
use enc_command_line::{
    Limit, broken_line, deep_line, limit_line, missing_line, unlisted_line, usage_line,
};
use enc_jobs::JobFault;
use enc_text::refused_line;
use std::alloc::Global;

/// A plan that saves nothing.
pub fn saving_nothing(alloc: Global, outcome: Outcome, output: Vec<u8>) -> Plan
    ensures outcome { result.outcome ≡ outcome }
    ensures output { result.output.items ≡ output.items }
    ensures saves { result.saves.items ≡ [] }
{
    Plan {
        outcome,
        saves: Vec::new(alloc),
        output,
    }
}

/// The stop at a file that is refused.
fn refused(alloc: Global, name: &str, refusal: Refusal) -> Halt
    ensures plan { OnPlan result (IsPlanOf (Err (refused_file name.now refusal))) }
    ensures quiet { OnPlan result IsQuiet }
    ensures no_fault { result ≢ Halt.Failed }
{
    match refused_line(alloc, name, refusal) {
        Ok(line) => Halt::Plan(saving_nothing(alloc, Outcome::Refused, line)),
        Err(_) => Halt::Memory,
    }
}

/// The stop at a file that isn't read.
pub fn unread(alloc: Global, name: &str, fault: ReadFault) -> Halt
    ensures plan { IsUnread name.now fault result }
    ensures quiet { OnPlan result IsQuiet }
    ensures no_fault { result ≢ Halt.Failed }
{
    match fault {
        ReadFault::Memory => Halt::Memory,
        ReadFault::Refused(refusal) => refused(alloc, name, refusal),
    }
}

/// The stop at a file that is too long, or with which all are.
pub fn too_long(alloc: Global, name: &str, limit: Limit) -> Halt
    ensures plan { OnPlan result (IsPlanOf (Err (past_limit name.now limit))) }
    ensures quiet { OnPlan result IsQuiet }
    ensures no_fault { result ≢ Halt.Failed }
{
    match limit_line(alloc, name, limit) {
        Ok(line) => Halt::Plan(saving_nothing(alloc, Outcome::Refused, line)),
        Err(_) => Halt::Memory,
    }
}

/// The stop at a file that isn't there.
pub fn missing(alloc: Global, name: &str) -> Halt
    ensures plan { OnPlan result (IsPlanOf (Err (absent_file name.now))) }
    ensures quiet { OnPlan result IsQuiet }
    ensures no_fault { result ≢ Halt.Failed }
{
    match missing_line(alloc, name) {
        Ok(line) => Halt::Plan(saving_nothing(alloc, Outcome::Missing, line)),
        Err(_) => Halt::Memory,
    }
}

/// The stop at a file whose text is no edit list.
fn refused_text(alloc: Global, name: &str, fault: JobFault) -> Halt
    ensures plan { OnPlan result (IsPlanOf (Err (no_list name.now fault))) }
    ensures quiet { OnPlan result IsQuiet }
    ensures no_fault { result ≢ Halt.Failed }
{
    match unlisted_line(alloc, name, fault) {
        Ok(line) => Halt::Plan(saving_nothing(alloc, Outcome::Refused, line)),
        Err(_) => Halt::Memory,
    }
}

/// The stop at a file that isn't read as an edit list.
pub fn unlisted(alloc: Global, name: &str, fault: JobFault) -> Halt
    ensures plan { IsUnlisted name.now fault result }
    ensures quiet { OnPlan result IsQuiet }
    ensures no_fault { result ≢ Halt.Failed }
{
    match fault {
        JobFault::Memory => Halt::Memory,
        fault => refused_text(alloc, name, fault),
    }
}

/// The stop at an edit list that breaks a rule.
pub fn broken(alloc: Global, name: &str, rule: u8, edit: u32) -> Halt
    ensures plan { OnPlan result (IsPlanOf (Err (broken_list name.now rule edit))) }
    ensures quiet { OnPlan result IsQuiet }
    ensures no_fault { result ≢ Halt.Failed }
{
    match broken_line(alloc, name, rule, edit) {
        Ok(line) => Halt::Plan(saving_nothing(alloc, Outcome::Refused, line)),
        Err(_) => Halt::Memory,
    }
}

/// The stop at two deltas that aren't merged, as a reference lies too deep in others.
pub fn too_deep(alloc: Global, name: &str, token: Token) -> Halt
    ensures plan { OnPlan result (IsPlanOf (Err (deep_chain name.now token))) }
    ensures quiet { OnPlan result IsQuiet }
    ensures no_fault { result ≢ Halt.Failed }
{
    match deep_line(alloc, name, token) {
        Ok(line) => Halt::Plan(saving_nothing(alloc, Outcome::Refused, line)),
        Err(_) => Halt::Memory,
    }
}

/// The stop at words that are no command.
pub fn unknown(alloc: Global) -> Halt
    ensures plan { OnPlan result (IsPlanOf (Err no_command)) }
    ensures saves { OnPlan result (λ plan. plan.saves.items ≡ []) }
    ensures no_fault { result ≢ Halt.Failed }
{
    match usage_line(alloc) {
        Ok(line) => Halt::Plan(saving_nothing(alloc, Outcome::Usage, line)),
        Err(_) => Halt::Memory,
    }
}
