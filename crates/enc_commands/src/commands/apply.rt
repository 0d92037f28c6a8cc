//! The command `apply`: the one module that has all edits, written from scratch with its PDB.
ghost use Rattle.std.specs.Prelude.{◌≡◌, ◌≢◌, ◌⊎◌, ◌∷◌, [], Err, IfSome, IfOk, IsErrOf, string_bytes};
ghost use Rattle.enc_outside.specs.Outside.{HasCause};
ghost use Rattle.enc_command_line.specs.Lines.{saved_line as line_of_saved};
ghost use Rattle.enc_command_line.specs.Words.{texts};
ghost use Rattle.enc_commands.specs.Verdict.{dll, pdb, past_limit, file_past as file_of_limit, rewrite_on, apply_on};
ghost use Rattle.enc_commands.specs.Plans.{IsPlanOf, saves_of};
ghost use Rattle.enc_commands.specs.Stops.{OnPlan, IfPlan, IsQuiet, IsUnwritten};
ghost use Rattle.enc_commands.specs.Loads.{followed};

use crate::commands::accept::accept;
use crate::halt::Halt;
use crate::plan::{Outcome, Plan};
use crate::plans::too_long;
use enc_base::StreamName;
use enc_chain::Chain;
use enc_command_line::{Limit, saved_line};
use enc_outside::Store;
use enc_rewriter::{RewriteFault, Rewritten, rewrite};
use enc_saves::{Save, name_of};
use std::alloc::{AllocError, Global};

/// The name of the file that would pass a limit: that of the PDB, or of the module.
fn file_past(alloc: Global, out: &str, limit: Limit) -> Result<String, AllocError>
    ensures { IfOk result (λ name. string_bytes name ≡ file_of_limit out.now limit) }
{
    match limit {
        Limit::Heap(StreamName::Pdb) => name_of(alloc, out, ".pdb"),
        _ => name_of(alloc, out, ".dll"),
    }
}

/// The stop at a limit that would be passed.
fn past(alloc: Global, out: &str, limit: Limit) -> Halt
    ensures plan { OnPlan result (IsPlanOf (Err (past_limit (file_of_limit out.now limit) limit))) }
    ensures quiet { OnPlan result IsQuiet }
    ensures no_fault { result ≢ Halt.Failed }
{
    match file_past(alloc, out, limit) {
        Ok(name) => too_long(alloc, name.as_str(), limit),
        Err(_) => Halt::Memory,
    }
}

/// The stop at a module that isn't written.
pub fn unwritten(alloc: Global, out: &str, fault: RewriteFault) -> Halt
    ensures plan { IsUnwritten out.now fault result }
    ensures quiet { OnPlan result IsQuiet }
    ensures no_fault { result ≢ Halt.Failed }
{
    match fault {
        RewriteFault::Memory => Halt::Memory,
        RewriteFault::TooLarge(heap) => past(alloc, out, Limit::Heap(heap)),
        RewriteFault::Image => past(alloc, out, Limit::Image),
    }
}

/// The plan that saves what was written: the module, then its PDB.
pub fn saving(alloc: Global, out: &str, written: Rewritten) -> Result<Plan, AllocError>
    ensures outcome { IfOk result (λ plan. plan.outcome ≡ Outcome.Accepted) }
    ensures output { IfOk result (λ plan. plan.output.items ≡ line_of_saved (dll out.now ∷ pdb out.now ∷ [])) }
    ensures saves { IfOk result (λ plan. saves_of plan.saves.items ≡ (dll out.now, written.image) ∷ (
      pdb out.now,
      written.pdb,
    ) ∷ []) }
{
    let dll = name_of(alloc, out, ".dll")?;
    let pdb = name_of(alloc, out, ".pdb")?;
    let output = saved_line(alloc, &[dll.as_str(), pdb.as_str()])?;
    let mut saves = Vec::new(alloc);
    saves.push(Save {
        name: dll,
        bytes: written.image.into_vec(),
    })?;
    saves.push(Save {
        name: pdb,
        bytes: written.pdb.into_vec(),
    })?;
    Ok(Plan {
        outcome: Outcome::Accepted,
        saves,
        output,
    })
}

/// The plan of what is written of an accepted chain.
fn rewritten(alloc: Global, out: &str, judged: &Chain) -> Result<Plan, Halt>
    ensures plan { IfPlan result (IsPlanOf (rewrite_on out.now (followed judged.now))) }
    ensures told { IfPlan result (λ plan. plan.outcome ≢ Outcome.Usage) }
    ensures kept { IfPlan result (λ plan. (plan.outcome ≡ Outcome.Accepted) ⊎ (plan.saves.items ≡ [])) }
    ensures no_fault { ¬ (IsErrOf result Halt.Failed) }
{
    judged.holds();
    judged.rows().sound();
    judged.points().sound();
    match rewrite(alloc, judged.rows(), judged.points()) {
        Ok(written) => Ok(saving(alloc, out, written)?),
        Err(fault) => Err(unwritten(alloc, out, fault)),
    }
}

/// The plan of `apply`. Nothing is saved before all is known to fit.
pub fn apply<S: Store>(
    alloc: Global,
    base: &str,
    out: &str,
    deltas: &[String],
    store: &mut S,
) -> Result<Plan, Halt>
    ensures cause { HasCause Halt.Failed (S.faults store.old) (S.faults store.new) result }
    ensures stays { S.told store.new ≡ S.told store.old }
    ensures plan { IfSome (S.told store.old)
        (λ files. IfPlan result (IsPlanOf (apply_on files base.now out.now (texts deltas.now)))) }
    ensures told { IfPlan result (λ plan. plan.outcome ≢ Outcome.Usage) }
    ensures kept { IfPlan result (λ plan. (plan.outcome ≡ Outcome.Accepted) ⊎ (plan.saves.items ≡ [])) }
{
    let judged = accept(alloc, base, deltas, store)?;
    rewritten(alloc, out, &judged)
}
