//! From words to a plan: which command they are, and what it comes to.
ghost use Rattle.std.specs.Prelude.{◌≡◌, ◌⊎◌, [], None, Err, IfSome, IsErrOf, IsSome, map};
ghost use Rattle.enc_outside.specs.Outside.{HasCause};
ghost use Rattle.enc_command_line.specs.Words.{job_of, texts};
ghost use Rattle.enc_commands.specs.Verdict.{no_command, verdict_of};
ghost use Rattle.enc_commands.specs.Plans.{IsPlanOf};
ghost use Rattle.enc_commands.specs.Stops.{IfPlan};

mod accept;
mod apply;
mod check;
mod compact;
mod generate;
mod list;
mod merge;
mod named;
mod run;
mod show;
mod write;

use crate::halt::Halt;
use crate::plan::{Outcome, Plan};
use crate::plans::unknown;
use apply::apply;
use check::check;
use compact::compact;
use enc_command_line::{Command, command_of};
use enc_outside::Store;
use enc_watch::Watcher;
use generate::generate;
use list::list;
use merge::merge;
use run::run;
use show::show;
use std::alloc::Global;
use write::write;

/// The plan of the words over the store's files, with the watchers that are handed in, or the stop at which they end.
pub fn plan_of<S: Store, W: Watcher>(
    alloc: Global,
    words: &[String],
    store: &mut S,
    watchers: Vec<W>,
) -> Result<Plan, Halt>
    ensures cause { HasCause Halt.Failed (S.faults store.old) (S.faults store.new) result }
    ensures stays { S.told store.new ≡ S.told store.old }
    ensures plan { IfSome (S.told store.old) (λ files. IfPlan result (IsPlanOf
        (verdict_of (map W.watching watchers.items)
        (texts words.now) files))) }
    ensures usage { job_of (texts words.now) ≡ None → IfPlan result (IsPlanOf (Err no_command)) }
    ensures words { IfPlan result (λ plan. plan.outcome ≡ Outcome.Usage → job_of (texts words.now) ≡ None) }
    ensures asked { IsErrOf result Halt.Failed → IsSome (job_of (texts words.now)) }
    ensures kept { IfPlan result (λ plan. (plan.outcome ≡ Outcome.Accepted) ⊎ (plan.saves.items ≡ [])) }
{
    match command_of(words) {
        None => Err(unknown(alloc)),
        Some(
            Command::Show {
                base,
                token,
                deltas,
            },
        ) => show(alloc, base, token, deltas, store),
        Some(Command::List { base, deltas }) => list(alloc, base, deltas, store),
        Some(Command::Check { base, deltas }) => check(alloc, base, deltas, store),
        Some(Command::Apply { base, out, deltas }) => apply(alloc, base, out, deltas, store),
        Some(Command::Compact { base, out, deltas }) => compact(alloc, base, out, deltas, store),
        Some(Command::Merge { base, out, deltas }) => merge(alloc, base, out, deltas, store),
        Some(
            Command::Write {
                base,
                edits,
                out,
                deltas,
            },
        ) => write(alloc, base, edits, out, deltas, store),
        Some(Command::Run { base, script }) => run(alloc, base, script, store, watchers),
        Some(Command::Gen { start, count, out }) => generate(alloc, start, count, out),
    }
}
