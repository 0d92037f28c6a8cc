//! The command `compact`: the one module that has all edits, with its rows in the order of an ordinary one.
ghost use Rattle.std.specs.Prelude.{◌≡◌, ◌≢◌, ◌⊎◌, ◌∷◌, ◌++◌, [], IfSome, IfOk, IsErrOf};
ghost use Rattle.enc_compact.specs.Moved.{moves_listed};
ghost use Rattle.enc_row_order.specs.Orders.{new_order};
ghost use Rattle.enc_outside.specs.Outside.{HasCause};
ghost use Rattle.enc_schema.specs.Schema.{list_at};
ghost use Rattle.enc_command_line.specs.Lines.{saved_line as line_of_saved, moved_lines};
ghost use Rattle.enc_command_line.specs.Words.{texts};
ghost use Rattle.enc_commands.specs.Verdict.{dll, pdb, plain_of, compacted_on, compact_on};
ghost use Rattle.enc_commands.specs.Plans.{IsPlanOf, saves_of};
ghost use Rattle.enc_commands.specs.Stops.{IfPlan};
ghost use Rattle.enc_commands.specs.Loads.{followed};

use crate::commands::accept::accept;
use crate::commands::apply::{saving, unwritten};
use crate::halt::Halt;
use crate::plan::{Outcome, Plan};
use enc_chain::Chain;
use enc_command_line::push_moves;
use enc_compact::{Order, compact as compacted, compact_laws, moved_rows};
use enc_outside::Store;
use enc_rewriter::{Rewritten, rewrite};
use std::alloc::{AllocError, Global};

/// The plan that saves what was written of a chain in the order of an ordinary module, and tells the rows
/// that moved.
fn saving_moved(
    alloc: Global,
    out: &str,
    written: Rewritten,
    judged: &Chain,
    order: &Order,
) -> Result<Plan, AllocError>
    requires { list_at order.now ≡ new_order (plain_of (followed judged.now)) }
    ensures outcome { IfOk result (λ plan. plan.outcome ≡ Outcome.Accepted) }
    ensures output { IfOk result (λ plan. plan.output.items ≡ line_of_saved (dll out.now ∷ pdb out.now ∷ [])
        ++ moved_lines (moves_listed (plain_of (followed judged.now)))) }
    ensures saves { IfOk result (λ plan. saves_of plan.saves.items ≡ (dll out.now, written.image) ∷ (
      pdb out.now,
      written.pdb,
    ) ∷ []) }
{
    let mut plan = saving(alloc, out, written)?;
    let moves = moved_rows(alloc, judged.rows(), order)?;
    push_moves(&mut plan.output, &moves)?;
    Ok(plan)
}

/// The plan of what is written of an accepted chain in the order of an ordinary module.
fn rewritten(alloc: Global, out: &str, judged: &Chain) -> Result<Plan, Halt>
    ensures plan { IfPlan result (IsPlanOf (compacted_on out.now (followed judged.now))) }
    ensures told { IfPlan result (λ plan. plan.outcome ≢ Outcome.Usage) }
    ensures kept { IfPlan result (λ plan. (plan.outcome ≡ Outcome.Accepted) ⊎ (plan.saves.items ≡ [])) }
    ensures no_fault { ¬ (IsErrOf result Halt.Failed) }
{
    judged.holds();
    judged.rows().sound();
    judged.points().sound();
    compact_laws();
    let Ok(ordinary) = compacted(alloc, judged.rows(), judged.points()) else {
        return Err(Halt::Memory);
    };
    match rewrite(alloc, &ordinary.module, &ordinary.points) {
        Ok(written) => Ok(saving_moved(alloc, out, written, judged, &ordinary.order)?),
        Err(fault) => Err(unwritten(alloc, out, fault)),
    }
}

/// The plan of `compact`. Nothing is saved before all is known to fit.
pub fn compact<S: Store>(
    alloc: Global,
    base: &str,
    out: &str,
    deltas: &[String],
    store: &mut S,
) -> Result<Plan, Halt>
    ensures cause { HasCause Halt.Failed (S.faults store.old) (S.faults store.new) result }
    ensures stays { S.told store.new ≡ S.told store.old }
    ensures plan { IfSome (S.told store.old)
        (λ files. IfPlan result (IsPlanOf (compact_on files base.now out.now (texts deltas.now)))) }
    ensures told { IfPlan result (λ plan. plan.outcome ≢ Outcome.Usage) }
    ensures kept { IfPlan result (λ plan. (plan.outcome ≡ Outcome.Accepted) ⊎ (plan.saves.items ≡ [])) }
{
    let judged = accept(alloc, base, deltas, store)?;
    rewritten(alloc, out, &judged)
}
