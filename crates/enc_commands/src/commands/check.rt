//! The command `check`: whether a base and its deltas are accepted.
ghost use Rattle.std.specs.Prelude.{◌≡◌, Ok, length, IfSome, IfOk};
ghost use Rattle.enc_outside.specs.Outside.{HasCause};
ghost use Rattle.enc_command_line.specs.Words.{texts};
ghost use Rattle.enc_commands.specs.Verdict.{counts, check_on};
ghost use Rattle.enc_commands.specs.Done.{counted_as};
ghost use Rattle.enc_commands.specs.Plans.{IsPlanOf};
ghost use Rattle.enc_commands.specs.Stops.{IfPlan, IsQuiet};
ghost use Rattle.enc_commands.specs.Loads.{followed};

use crate::commands::accept::accept;
use crate::halt::Halt;
use crate::plan::{Outcome, Plan};
use crate::plans::saving_nothing;
use enc_agg::Aggregate;
use enc_chain::Chain;
use enc_command_line::push_accepted;
use enc_outside::Store;
use enc_plain::ChainView;
use std::alloc::{AllocError, Global};

/// How many deltas an aggregate has.
fn delta_count(agg: &Aggregate) -> u32
    ensures { result ≡ length agg.now.deltas }
{
    agg.generations() - 1
}

/// That so many deltas are accepted: all.
#[tactic(auto, unfolding(crate::specs::Done::counted_as))]
fn count(alloc: Global, judged: &Chain) -> Result<Plan, AllocError>
    ensures plan { IfOk result (IsPlanOf (Ok (counts (followed judged.now)))) }
    ensures quiet { IfOk result IsQuiet }
{
    let mut output = Vec::new(alloc);
    push_accepted(alloc, &mut output, delta_count(judged.rows()))?;
    Ok(saving_nothing(alloc, Outcome::Accepted, output))
}

/// The plan of `check`.
pub fn check<S: Store>(
    alloc: Global,
    base: &str,
    deltas: &[String],
    store: &mut S,
) -> Result<Plan, Halt>
    ensures cause { HasCause Halt.Failed (S.faults store.old) (S.faults store.new) result }
    ensures stays { S.told store.new ≡ S.told store.old }
    ensures plan { IfSome (S.told store.old)
        (λ files. IfPlan result (IsPlanOf (check_on files base.now (texts deltas.now)))) }
    ensures quiet { IfPlan result IsQuiet }
{
    let judged = accept(alloc, base, deltas, store)?;
    Ok(count(alloc, &judged)?)
}
