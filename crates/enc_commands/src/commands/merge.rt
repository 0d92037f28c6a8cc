//! The command `merge`: the last two deltas as one.
ghost use Rattle.std.specs.Prelude.{◌≡◌, ◌≢◌, ◌⊎◌, ◌≤◌, [], length, Err, IfSome, IsErrOf};
ghost use Rattle.enc_outside.specs.Outside.{HasCause};
ghost use Rattle.enc_merge.specs.Merges.{AllShort};
ghost use Rattle.enc_command_line.specs.Words.{texts};
ghost use Rattle.enc_commands.specs.Verdict.{deep_chain, last_word, merge_on, merged_on, meta, past_limit, pdb};
ghost use Rattle.enc_commands.specs.Plans.{IsPlanOf};
ghost use Rattle.enc_commands.specs.Stops.{IfPlan, IsQuiet, OnPlan};
ghost use Rattle.enc_commands.specs.Loads.{followed};

use crate::commands::accept::accept;
use crate::commands::write::saving;
use crate::halt::Halt;
use crate::plan::{Outcome, Plan};
use crate::plans::{too_deep, too_long};
use enc_base::{StreamName, Token};
use enc_chain::Chain;
use enc_command_line::Limit;
use enc_merge::{MergeFault, merge_last};
use enc_outside::Store;
use enc_saves::name_of;
use std::alloc::Global;

/// The stop at a reference that lies too deep, in the last delta's metadata.
fn deep(alloc: Global, deltas: &[String], token: Token) -> Halt
    ensures plan { OnPlan result (IsPlanOf (Err (deep_chain (meta (last_word (texts deltas.now))) token))) }
    ensures quiet { OnPlan result IsQuiet }
    ensures no_fault { result ≢ Halt.Failed }
{
    let [.., last] = deltas else {
        return Halt::Memory;
    };
    match name_of(alloc, last.as_str(), ".meta") {
        Ok(name) => too_deep(alloc, name.as_str(), token),
        Err(_) => Halt::Memory,
    }
}

/// The stop at a PDB that would pass its limit.
fn too_large(alloc: Global, out: &str) -> Halt
    ensures plan { OnPlan result (IsPlanOf (Err (past_limit (pdb out.now) (Limit.Heap StreamName.Pdb)))) }
    ensures quiet { OnPlan result IsQuiet }
    ensures no_fault { result ≢ Halt.Failed }
{
    match name_of(alloc, out, ".pdb") {
        Ok(name) => too_long(alloc, name.as_str(), Limit::Heap(StreamName::Pdb)),
        Err(_) => Halt::Memory,
    }
}

/// The plan of the last two deltas of an accepted chain, merged.
fn merged(alloc: Global, out: &str, deltas: &[String], judged: &Chain) -> Result<Plan, Halt>
    requires two { 2 ≤ length judged.now.rows.deltas }
    requires short { AllShort judged.now.rows.deltas }
    ensures plan { IfPlan result (IsPlanOf
        (merged_on (meta (last_word (texts deltas.now))) out.now (followed judged.now))) }
    ensures told { IfPlan result (λ plan. plan.outcome ≢ Outcome.Usage) }
    ensures kept { IfPlan result (λ plan. (plan.outcome ≡ Outcome.Accepted) ⊎ (plan.saves.items ≡ [])) }
    ensures no_fault { ¬ (IsErrOf result Halt.Failed) }
{
    judged.holds();
    match merge_last(alloc, judged.rows(), judged.points()) {
        Ok(files) => Ok(saving(alloc, out, files)?),
        Err(MergeFault::Memory) => Err(Halt::Memory),
        Err(MergeFault::TooLarge) => Err(too_large(alloc, out)),
        Err(MergeFault::Deep(token)) => Err(deep(alloc, deltas, token)),
    }
}

/// The plan of `merge`. Nothing is saved before the delta is whole.
pub fn merge<S: Store>(
    alloc: Global,
    base: &str,
    out: &str,
    deltas: &[String],
    store: &mut S,
) -> Result<Plan, Halt>
    requires two { 2 ≤ length deltas.now }
    ensures cause { HasCause Halt.Failed (S.faults store.old) (S.faults store.new) result }
    ensures stays { S.told store.new ≡ S.told store.old }
    ensures plan { IfSome (S.told store.old)
        (λ files. IfPlan result (IsPlanOf (merge_on files base.now out.now (texts deltas.now)))) }
    ensures told { IfPlan result (λ plan. plan.outcome ≢ Outcome.Usage) }
    ensures kept { IfPlan result (λ plan. (plan.outcome ≡ Outcome.Accepted) ⊎ (plan.saves.items ≡ [])) }
{
    let judged = accept(alloc, base, deltas, store)?;
    merged(alloc, out, deltas, &judged)
}
