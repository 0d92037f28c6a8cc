//! The command `run`: what a script prints over a base, with the deltas that it names and the watchers it is given.
ghost use Rattle.std.specs.Prelude.{◌≡◌, ◌≢◌, ◌⊎◌, ◌<◌, ◌^◌, [], List, Ok, true, IfOk, IfSome, IsErrOf, length, map};
ghost use Rattle.std.specs.List.{list_all};
ghost use Rattle.enc_outside.specs.Outside.{HasCause};
ghost use Rattle.enc_jobs.specs.Laws.{names_a_delta};
ghost use Rattle.enc_jobs.specs.Scripts.{script_said};
ghost use Rattle.enc_jobs.specs.declared.command.Command.{Command as OneCommand};
ghost use Rattle.enc_script.specs.Run.{named_delta};
ghost use Rattle.enc_commands.specs.Verdict.{list_in_file, load_named as named_from, as_named, run_on, runs};
ghost use Rattle.enc_commands.specs.Plans.{IsPlanOf};
ghost use Rattle.enc_commands.specs.Loads.{base_followed, file_seen};
ghost use Rattle.enc_commands.specs.Stops.{Comes, IfPlan, StopsQuietly};

use super::named::delta_names;
use crate::halt::Halt;
use crate::judge::{JudgedBase, judge_first};
use crate::load::{DeltaFile, Loaded, load_base, load_deltas};
use crate::plan::{Outcome, Plan};
use crate::plans::{saving_nothing, unlisted};
use enc_checker::Files;
use enc_jobs::{Script, read_script, script_laws};
use enc_outside::Store;
use enc_script::{NamedDelta, run as run_script};
use enc_watch::Watcher;
use std::alloc::{AllocError, Global};

/// The script that a file says.
fn read_commands(alloc: Global, name: &str, text: &[u8]) -> Result<Script, Halt>
    ensures step { Comes (λ (l : List OneCommand). l) result (list_in_file name.now (script_said text.now)) }
    ensures few { IfOk result (λ (l : List OneCommand). length l < 2 ^ 32) }
    ensures names { IfOk result (λ (l : List OneCommand). list_all names_a_delta l ≡ true) }
    ensures quiet { StopsQuietly result }
    ensures no_fault { ¬ (IsErrOf result Halt.Failed) }
{
    script_laws();
    match read_script(alloc, text) {
        Ok(script) => Ok(script),
        Err(fault) => Err(unlisted(alloc, name, fault)),
    }
}

/// A delta's files, as a run finds them.
fn named_of(file: DeltaFile) -> NamedDelta
    ensures { named_delta result ≡ as_named (file_seen file) }
{
    NamedDelta {
        metadata_name: file.name,
        debug_name: file.debug_name,
        files: Files {
            meta: file.metadata,
            il: file.code,
            pdb: file.debug,
        },
    }
}

/// The files of all deltas, as a run finds them.
fn all_named(alloc: Global, files: Vec<DeltaFile>) -> Result<Vec<NamedDelta>, AllocError>
    ensures { IfOk result (λ deltas. map named_delta deltas.items ≡ map as_named (map file_seen files.items)) }
{
    let mut deltas = Vec::new(alloc);
    for file in files {
        deltas.push(named_of(file))?;
    }
    Ok(deltas)
}

/// The deltas that a script names, each loaded once.
#[tactic(auto, unfolding(crate::specs::Verdict::load_named))]
fn load_named<S: Store>(
    alloc: Global,
    script: &Script,
    loaded: &mut Loaded,
    store: &mut S,
) -> Result<Vec<NamedDelta>, Halt>
    requires { list_all names_a_delta script.now ≡ true }
    ensures cause { HasCause Halt.Failed (S.faults store.old) (S.faults store.new) result }
    ensures stays { S.told store.new ≡ S.told store.old }
    ensures step { IfSome (S.told store.old)
        (λ files. Comes (λ ds. map named_delta ds.items) result (named_from files script.now loaded.old)) }
    ensures quiet { StopsQuietly result }
{
    let names = delta_names(alloc, script.as_slice())?;
    let files = load_deltas(alloc, &names, loaded, store)?;
    Ok(all_named(alloc, files)?)
}

/// The plan that prints what a script does over an accepted base.
fn ran<W: Watcher>(
    alloc: Global,
    base: JudgedBase,
    watchers: Vec<W>,
    deltas: &[NamedDelta],
    script: &Script,
) -> Result<Plan, AllocError>
    requires { length script.now < 2 ^ 32 }
    ensures plan { IfOk result (λ plan. IsPlanOf
        (Ok (runs (map W.watching watchers.items)
        (base_followed base) (map named_delta deltas.now) script.now)) plan) }
{
    let mut text = Vec::new(alloc);
    let JudgedBase { image, pdb } = base;
    run_script(
        alloc,
        image,
        pdb,
        watchers,
        deltas,
        script.as_slice(),
        &mut text,
    )?;
    Ok(saving_nothing(alloc, Outcome::Accepted, text))
}

/// The plan of `run`: the base and the script are judged before a delta is loaded.
#[tactic(auto, unfolding(crate::specs::Verdict::run_on))]
pub fn run<S: Store, W: Watcher>(
    alloc: Global,
    base: &str,
    script: &str,
    store: &mut S,
    watchers: Vec<W>,
) -> Result<Plan, Halt>
    ensures cause { HasCause Halt.Failed (S.faults store.old) (S.faults store.new) result }
    ensures stays { S.told store.new ≡ S.told store.old }
    ensures plan { IfSome (S.told store.old) (λ files. IfPlan result (IsPlanOf
        (run_on (map W.watching watchers.items) files
        base.now script.now))) }
    ensures told { IfPlan result (λ plan. plan.outcome ≢ Outcome.Usage) }
    ensures kept { IfPlan result (λ plan. (plan.outcome ≡ Outcome.Accepted) ⊎ (plan.saves.items ≡ [])) }
{
    let mut loaded = Loaded::nothing();
    let file = load_base(alloc, base, &mut loaded, store)?;
    let text = loaded.load(alloc, script, store)?;
    let judged = judge_first(alloc, base, file)?;
    let commands = read_commands(alloc, script, &text)?;
    let deltas = load_named(alloc, &commands, &mut loaded, store)?;
    Ok(ran(alloc, judged, watchers, &deltas, &commands)?)
}
