//! The command `show`: a token's row after all deltas.
ghost use Rattle.std.specs.Prelude.{◌≡◌, ◌<◌, Ok, Some, None, IfSome, IfOk, if◌then◌else◌};
ghost use Rattle.enc_plain.specs.Module.{has_row};
ghost use Rattle.enc_agg.specs.Place.{place_of};
ghost use Rattle.enc_agg.specs.Seen.{module_of_all};
ghost use Rattle.enc_outside.specs.Outside.{HasCause};
ghost use Rattle.enc_command_line.specs.Words.{texts};
ghost use Rattle.enc_commands.specs.Verdict.{shows, show_on};
ghost use Rattle.enc_commands.specs.Done.{row_or_absent, shown};
ghost use Rattle.enc_commands.specs.Plans.{IsPlanOf};
ghost use Rattle.enc_commands.specs.Stops.{IfPlan, IsQuiet};
ghost use Rattle.enc_commands.specs.Loads.{followed};

use crate::commands::accept::accept;
use crate::halt::Halt;
use crate::plan::{Outcome, Plan};
use crate::plans::saving_nothing;
use enc_agg::{Aggregate, RowPlace};
use enc_base::{Steps, Token};
use enc_chain::Chain;
use enc_command_line::push_absent;
use enc_outside::Store;
use enc_text::row_text;
use std::alloc::{AllocError, Global};
use std::marker::Brand;
use std::sync::ledger::{Blank, Ledger};

/// Where a row stands; the steps are counted in a ledger of their own.
fn located<L: Ledger>(agg: &Aggregate, token: Token, blank: Blank) -> Option<RowPlace>
    requires name { blank.name ≡ L.name }
    requires parts { blank.parts ≡ L.parts }
    requires some { 0 < L.parts }
    ensures { result ≡ (if has_row (module_of_all agg.now) token then Some (place_of agg.now.deltas token) else None) }
{
    let mut steps = Steps::<L>::begin(blank);
    agg.locate(token, &mut steps)
}

/// The row of a token, or that there is none.
#[tactic(auto, unfolding(crate::specs::Done::shown, crate::specs::Done::row_or_absent))]
fn row(alloc: Global, judged: &Chain, token: Token) -> Result<Plan, AllocError>
    ensures plan { IfOk result (IsPlanOf (Ok (shows token (followed judged.now)))) }
    ensures quiet { IfOk result IsQuiet }
{
    let mut output = Vec::new(alloc);
    match located::<Brand>(judged.rows(), token, Blank::new(1)) {
        Some(place) => row_text(
            alloc,
            judged.rows(),
            judged.points(),
            place,
            token,
            &mut output,
        )?,
        None => push_absent(&mut output, token)?,
    }
    Ok(saving_nothing(alloc, Outcome::Accepted, output))
}

/// The plan of `show`.
pub fn show<S: Store>(
    alloc: Global,
    base: &str,
    token: Token,
    deltas: &[String],
    store: &mut S,
) -> Result<Plan, Halt>
    ensures cause { HasCause Halt.Failed (S.faults store.old) (S.faults store.new) result }
    ensures stays { S.told store.new ≡ S.told store.old }
    ensures plan { IfSome (S.told store.old)
        (λ files. IfPlan result (IsPlanOf (show_on files base.now token (texts deltas.now)))) }
    ensures quiet { IfPlan result IsQuiet }
{
    let judged = accept(alloc, base, deltas, store)?;
    Ok(row(alloc, &judged, token)?)
}
