//! The command `list`: the generations of a base and its deltas.
ghost use Rattle.std.specs.Prelude.{◌≡◌, Ok, IfSome, IfOk};
ghost use Rattle.enc_outside.specs.Outside.{HasCause};
ghost use Rattle.enc_command_line.specs.Words.{texts};
ghost use Rattle.enc_commands.specs.Verdict.{lists, list_on};
ghost use Rattle.enc_commands.specs.Done.{listed_as};
ghost use Rattle.enc_commands.specs.Plans.{IsPlanOf};
ghost use Rattle.enc_commands.specs.Stops.{IfPlan, IsQuiet};
ghost use Rattle.enc_commands.specs.Loads.{followed};

use crate::commands::accept::accept;
use crate::halt::Halt;
use crate::plan::{Outcome, Plan};
use crate::plans::saving_nothing;
use enc_chain::Chain;
use enc_command_line::listing;
use enc_outside::Store;
use std::alloc::{AllocError, Global};

/// The listing of an aggregate.
#[tactic(auto, unfolding(crate::specs::Done::listed_as))]
fn lines(alloc: Global, judged: &Chain) -> Result<Plan, AllocError>
    ensures plan { IfOk result (IsPlanOf (Ok (lists (followed judged.now)))) }
    ensures quiet { IfOk result IsQuiet }
{
    let mut output = Vec::new(alloc);
    listing(alloc, judged.rows(), &mut output)?;
    Ok(saving_nothing(alloc, Outcome::Accepted, output))
}

/// The plan of `list`.
pub fn list<S: Store>(
    alloc: Global,
    base: &str,
    deltas: &[String],
    store: &mut S,
) -> Result<Plan, Halt>
    ensures cause { HasCause Halt.Failed (S.faults store.old) (S.faults store.new) result }
    ensures stays { S.told store.new ≡ S.told store.old }
    ensures plan { IfSome (S.told store.old)
        (λ files. IfPlan result (IsPlanOf (list_on files base.now (texts deltas.now)))) }
    ensures quiet { IfPlan result IsQuiet }
{
    let judged = accept(alloc, base, deltas, store)?;
    Ok(lines(alloc, &judged)?)
}
