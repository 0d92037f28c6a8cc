//! The command `gen`: a generated base, the deltas of generated edit lists, and the module after all.
ghost use Rattle.std.specs.Prelude.{◌≡◌, ◌≤◌, ◌+◌, ◌++◌, ◌∷◌, [], Ok, Some, None, take, IsTrue, IfOk, OnOk, IsErrOf, string_bytes, map};
ghost use Rattle.enc_base.specs.Tables.{method_def};
ghost use Rattle.enc_plain.specs.Sound.{row_count};
ghost use Rattle.enc_ppdb.specs.Written.{MeansPdb};
ghost use Rattle.enc_rewriter.specs.Limits.{IsFault};
ghost use Rattle.enc_rewriter.specs.Rewritten.{MeansModule, RewritesTo};
ghost use Rattle.enc_generator.specs.Generated.{generated_base, generated_lists, edited_by};
ghost use Rattle.enc_commands.specs.Verdict.{meta, pdb, generates, plain_of, debug_after};
ghost use Rattle.enc_commands.specs.Generating.{no_points, delta_name, last_name};
ghost use Rattle.enc_command_line.specs.Case.{case_line as line_of_case};
ghost use Rattle.enc_commands.specs.Series.{AreDrawn, IsAt, IsSeries, StandAt, NothingSaid};
ghost use Rattle.enc_command_line.specs.Commands.{numeral_seen};
ghost use Rattle.enc_commands.specs.Plans.{IsPlanOf};
ghost use Rattle.enc_commands.specs.Stops.{IfPlan};
ghost use Rattle.enc_commands.specs.Loads.{base_seen, file_seen, followed};

use crate::halt::Halt;
use crate::judge::{judge_all, judge_delta};
use crate::load::{BaseFile, DeltaFile};
use crate::plan::{Outcome, Plan};
use enc_chain::Chain;
use enc_checker::within_law;
use enc_command_line::{Number, case_line};
use enc_emit::DeltaBytes;
use enc_generator::{EditLists, case_laws, generated_laws, make_case};
use enc_memory_module::PlainModule;
use enc_ppdb::PdbChain;
use enc_rewriter::{RewriteFault, Rewritten, rewrite};
use enc_saves::{Save, name_of, push_delta, push_module};
use enc_writer::{EditFault, write_delta};
use std::alloc::{AllocError, Global};

/// What was made so far: the base with its deltas, and the files to be saved.
#[derive(Drop)]
pub struct Series {
    pub held: Chain,
    pub saves: Vec<Save>,
}

/// The files of a module and its PDB, as they are loaded.
fn base_file(alloc: Global, written: &Rewritten) -> Result<BaseFile, AllocError>
    ensures { IfOk result (λ f. base_seen f ≡ record { bytes = written.now.image; debug = Some written.now.pdb }) }
{
    let bytes = Vec::from_slice(alloc, written.image.as_slice())?;
    let debug = Some(Vec::from_slice(alloc, written.pdb.as_slice())?);
    Ok(BaseFile { bytes, debug })
}

/// The files of a delta, as they are loaded.
fn delta_file(alloc: Global, name: &str, files: &DeltaBytes) -> Result<DeltaFile, AllocError>
    ensures { IfOk result (λ f. file_seen f ≡ record {
      name = meta name.now;
      debug_name = pdb name.now;
      metadata = files.now.meta;
      code = files.now.il;
      debug = Some files.now.pdb;
    }) }
{
    Ok(DeltaFile {
        name: name_of(alloc, name, ".meta")?,
        debug_name: name_of(alloc, name, ".pdb")?,
        metadata: Vec::from_slice(alloc, files.meta.as_slice())?,
        code: Vec::from_slice(alloc, files.il.as_slice())?,
        debug: Some(Vec::from_slice(alloc, files.pdb.as_slice())?),
    })
}

/// The base that was written, with nothing behind it yet.
fn begun(alloc: Global, out: &str, written: Rewritten) -> Result<Series, Halt>
    requires { RewritesTo generated_base no_points written.image written.pdb }
    ensures series { IfOk result (λ s. IsSeries out.now [] s) }
    ensures said { NothingSaid result }
    ensures no_fault { ¬ (IsErrOf result Halt.Failed) }
{
    case_laws();
    let file = base_file(alloc, &written)?;
    let held = judge_all(alloc, out, file, Vec::new(alloc))?;
    let mut saves = Vec::new(alloc);
    push_module(alloc, out, written, &mut saves)?;
    Ok(Series { held, saves })
}

/// Why a module that passes no limit isn't written: there is no memory.
fn want_of_memory(fault: RewriteFault) -> Halt
    requires { IsFault fault None }
    ensures { result ≡ Halt.Memory }
{
    match fault {
        RewriteFault::Memory => Halt::Memory,
        RewriteFault::TooLarge(_) => unreachable!(),
        RewriteFault::Image => unreachable!(),
    }
}

/// The base, written with a PDB in which nothing is known. It passes no limit.
fn begin(alloc: Global, out: &str, base: &PlainModule) -> Result<Series, Halt>
    requires { base.now.plain ≡ generated_base }
    ensures series { IfOk result (λ s. IsSeries out.now [] s) }
    ensures said { NothingSaid result }
    ensures no_fault { ¬ (IsErrOf result Halt.Failed) }
{
    within_law();
    case_laws();
    let nothing = PdbChain::begin(alloc, None)?;
    base.sound();
    nothing.sound();
    match rewrite(alloc, base, &nothing) {
        Ok(written) => begun(alloc, out, written),
        Err(fault) => Err(want_of_memory(fault)),
    }
}

/// The name of the delta of a list with this number.
fn delta_name_of(alloc: Global, out: &str, number: u32) -> Result<String, AllocError>
    ensures { IfOk result (λ name. string_bytes name ≡ delta_name out.now number) }
{
    let mut name = name_of(alloc, out, "_")?;
    name.push_str(number.to_string(alloc)?.as_str())?;
    Ok(name)
}

/// Adds the delta of the list at a place to the base and those before it.
fn add_delta(
    alloc: Global,
    out: &str,
    lists: &EditLists,
    k: usize,
    files: DeltaBytes,
    series: &mut Series,
) -> Result<(), Halt>
    requires at { IsAt out.now lists.now k series.old }
    requires stand { StandAt lists.now k series.old files }
    ensures series { OnOk result (IsSeries out.now (take (k + 1) lists.now) series.new) }
    ensures said { NothingSaid result }
    ensures no_fault { ¬ (IsErrOf result Halt.Failed) }
{
    generated_laws();
    case_laws();
    let name = delta_name_of(alloc, out, k as u32 + 1)?;
    let file = delta_file(alloc, name.as_str(), &files)?;
    judge_delta(alloc, &mut series.held, file)?;
    push_delta(alloc, name.as_str(), files, &mut series.saves)?;
    Ok(())
}

/// Writes the delta of the list at a place, which breaks no rule, and adds it.
fn add_list(
    alloc: Global,
    out: &str,
    lists: &EditLists,
    k: usize,
    series: &mut Series,
) -> Result<(), Halt>
    requires at { IsAt out.now lists.now k series.old }
    ensures series { OnOk result (IsSeries out.now (take (k + 1) lists.now) series.new) }
    ensures said { NothingSaid result }
    ensures no_fault { ¬ (IsErrOf result Halt.Failed) }
{
    generated_laws();
    case_laws();
    let list = &lists.as_slice()[k];
    match write_delta(alloc, series.held.rows(), list) {
        Ok(files) => add_delta(alloc, out, lists, k, files, series),
        Err(EditFault::Memory) => Err(Halt::Memory),
        Err(EditFault::Broken(..)) => unreachable!(),
    }
}

/// Adds the deltas of all lists.
fn add_lists(alloc: Global, out: &str, lists: &EditLists, series: &mut Series) -> Result<(), Halt>
    requires drawn { AreDrawn lists.now }
    requires series { IsSeries out.now [] series.old }
    ensures series { OnOk result (IsSeries out.now lists.now series.new) }
    ensures said { NothingSaid result }
    ensures no_fault { ¬ (IsErrOf result Halt.Failed) }
{
    for k in 0..lists.len() {
        add_list(alloc, out, lists, k, series)?;
    }
    Ok(())
}

/// The plan that saves all that was made, with the module after all lists.
fn ended(
    alloc: Global,
    start: Number<'_>,
    count: Number<'_>,
    out: &str,
    series: Series,
    written: Rewritten,
) -> Result<Plan, AllocError>
    requires series { IsSeries out.now (generated_lists start.value count.value) series }
    requires last { MeansModule (plain_of (followed series.held)) written.image }
    requires debug { MeansPdb (debug_after (followed series.held))
        (row_count (plain_of (followed series.held)) method_def) written.pdb }
    ensures plan { IfOk result (IsPlanOf
        (Ok (generates (numeral_seen start.entry) (numeral_seen count.entry) out.now))) }
    ensures told { IfOk result (λ plan. plan.outcome ≡ Outcome.Accepted) }
{
    let Series { held, mut saves } = series;
    let output = case_line(alloc, start.digits, count.digits, held.rows())?;
    let name = name_of(alloc, out, "_all")?;
    push_module(alloc, name.as_str(), written, &mut saves)?;
    Ok(Plan {
        outcome: Outcome::Accepted,
        saves,
        output,
    })
}

/// Writes the module after all lists, which passes no limit, and ends.
fn end(
    alloc: Global,
    start: Number<'_>,
    count: Number<'_>,
    out: &str,
    series: Series,
) -> Result<Plan, Halt>
    requires few { count.value ≤ 64 }
    requires series { IsSeries out.now (generated_lists start.value count.value) series }
    ensures plan { IfPlan result (IsPlanOf
        (Ok (generates (numeral_seen start.entry) (numeral_seen count.entry) out.now))) }
    ensures told { IfPlan result (λ plan. plan.outcome ≡ Outcome.Accepted) }
    ensures no_fault { ¬ (IsErrOf result Halt.Failed) }
{
    case_laws();
    series.held.holds();
    series.held.rows().sound();
    series.held.points().sound();
    match rewrite(alloc, series.held.rows(), series.held.points()) {
        Ok(written) => Ok(ended(alloc, start, count, out, series, written)?),
        Err(fault) => Err(want_of_memory(fault)),
    }
}

/// The plan of `gen`: all is made before anything is saved.
pub fn generate(
    alloc: Global,
    start: Number<'_>,
    count: Number<'_>,
    out: &str,
) -> Result<Plan, Halt>
    requires few { count.value ≤ 64 }
    ensures plan { IfPlan result (IsPlanOf
        (Ok (generates (numeral_seen start.entry) (numeral_seen count.entry) out.now))) }
    ensures told { IfPlan result (λ plan. plan.outcome ≡ Outcome.Accepted) }
    ensures no_fault { ¬ (IsErrOf result Halt.Failed) }
{
    let case = make_case(alloc, start.value, count.value as u32)?;
    let mut series = begin(alloc, out, &case.base)?;
    add_lists(alloc, out, &case.lists, &mut series)?;
    end(alloc, start, count, out, series)
}
