//! The command `write`: the delta of an edit list, which follows a base with its deltas.
ghost use Rattle.std.specs.Prelude.{◌≡◌, ◌≢◌, ◌⊎◌, ◌∷◌, [], IsTrue, IfSome, IfOk, IsErrOf, string_bytes};
ghost use Rattle.std.specs.List.{list_all};
ghost use Rattle.enc_outside.specs.Outside.{HasCause};
ghost use Rattle.enc_edit_list.specs.declared.edit.EditList.{EditList};
ghost use Rattle.enc_edit_list.specs.Form.{list_fits};
ghost use Rattle.enc_pdb_writer.specs.Stated.{points_lie_within};
ghost use Rattle.enc_jobs.specs.Edits.{edits_said};
ghost use Rattle.enc_command_line.specs.Lines.{saved_line as line_of_saved};
ghost use Rattle.enc_command_line.specs.Words.{texts};
ghost use Rattle.enc_commands.specs.Verdict.{dll, meta, il, pdb, list_in_file, edits_on, text_on, write_on};
ghost use Rattle.enc_commands.specs.Plans.{IsPlanOf, saves_of};
ghost use Rattle.enc_commands.specs.Stops.{Comes, IfPlan, StopsQuietly};
ghost use Rattle.enc_commands.specs.Loads.{followed, texted as text_accepted};

use crate::commands::accept::{Texted, accept_text};
use crate::halt::Halt;
use crate::plan::{Outcome, Plan};
use crate::plans::{broken, unlisted};
use enc_chain::Chain;
use enc_command_line::saved_line;
use enc_edit_list::EditList;
use enc_emit::DeltaBytes;
use enc_jobs::read_edits;
use enc_outside::Store;
use enc_saves::{Save, name_of};
use enc_writer::{EditFault, write_delta};
use std::alloc::{AllocError, Global};

/// The edit list that a file says.
fn read_list(alloc: Global, name: &str, text: &[u8]) -> Result<EditList, Halt>
    ensures step { Comes (λ (l : EditList). l) result (list_in_file name.now (edits_said text.now)) }
    ensures form { IfOk result (λ l. IsTrue (list_fits l)) }
    ensures points { IfOk result (λ l. IsTrue (list_all points_lie_within l.edits)) }
    ensures quiet { StopsQuietly result }
    ensures no_fault { ¬ (IsErrOf result Halt.Failed) }
{
    match read_edits(alloc, text) {
        Ok(list) => Ok(list),
        Err(fault) => Err(unlisted(alloc, name, fault)),
    }
}

/// The saves of a delta's files, in the order of its names.
fn saves(
    alloc: Global,
    meta: String,
    il: String,
    pdb: String,
    files: DeltaBytes,
) -> Result<Vec<Save>, AllocError>
    ensures { IfOk result (λ saves. saves_of saves.items ≡ (string_bytes meta, files.meta) ∷ (
      string_bytes il,
      files.il,
    ) ∷ (string_bytes pdb, files.pdb) ∷ []) }
{
    let mut saves = Vec::new(alloc);
    saves.push(Save {
        name: meta,
        bytes: files.meta.into_vec(),
    })?;
    saves.push(Save {
        name: il,
        bytes: files.il.into_vec(),
    })?;
    saves.push(Save {
        name: pdb,
        bytes: files.pdb.into_vec(),
    })?;
    Ok(saves)
}

/// The plan that saves what was written: metadata, code and PDB.
pub fn saving(alloc: Global, out: &str, files: DeltaBytes) -> Result<Plan, AllocError>
    ensures outcome { IfOk result (λ plan. plan.outcome ≡ Outcome.Accepted) }
    ensures output { IfOk result (λ plan. plan.output.items
        ≡ line_of_saved (meta out.now ∷ il out.now ∷ pdb out.now ∷ [])) }
    ensures saves { IfOk result (λ plan. saves_of plan.saves.items ≡ (meta out.now, files.meta) ∷ (
      il out.now,
      files.il,
    ) ∷ (pdb out.now, files.pdb) ∷ []) }
{
    let meta = name_of(alloc, out, ".meta")?;
    let il = name_of(alloc, out, ".il")?;
    let pdb = name_of(alloc, out, ".pdb")?;
    let output = saved_line(alloc, &[meta.as_str(), il.as_str(), pdb.as_str()])?;
    Ok(Plan {
        outcome: Outcome::Accepted,
        saves: saves(alloc, meta, il, pdb, files)?,
        output,
    })
}

/// The plan of an edit list after a base with its deltas.
fn written(
    alloc: Global,
    name: &str,
    out: &str,
    judged: &Chain,
    list: &EditList,
) -> Result<Plan, Halt>
    requires form { IsTrue (list_fits list.now) }
    requires points { IsTrue (list_all points_lie_within list.now.edits) }
    ensures plan { IfPlan result (IsPlanOf
        (edits_on name.now out.now (record { followed = followed judged.now; list = list.now }))) }
    ensures told { IfPlan result (λ plan. plan.outcome ≢ Outcome.Usage) }
    ensures kept { IfPlan result (λ plan. (plan.outcome ≡ Outcome.Accepted) ⊎ (plan.saves.items ≡ [])) }
    ensures no_fault { ¬ (IsErrOf result Halt.Failed) }
{
    match write_delta(alloc, judged.rows(), list) {
        Ok(files) => Ok(saving(alloc, out, files)?),
        Err(EditFault::Memory) => Err(Halt::Memory),
        Err(EditFault::Broken(rule, edit)) => Err(broken(alloc, name, rule, edit)),
    }
}

/// The plan of the text of an edit list after a base with its deltas.
fn of_text(alloc: Global, name: &str, out: &str, texted: &Texted) -> Result<Plan, Halt>
    ensures plan { IfPlan result (IsPlanOf (text_on name.now out.now (text_accepted texted.now))) }
    ensures told { IfPlan result (λ plan. plan.outcome ≢ Outcome.Usage) }
    ensures kept { IfPlan result (λ plan. (plan.outcome ≡ Outcome.Accepted) ⊎ (plan.saves.items ≡ [])) }
    ensures no_fault { ¬ (IsErrOf result Halt.Failed) }
{
    let list = read_list(alloc, name, &texted.text)?;
    written(alloc, name, out, &texted.judged, &list)
}

/// The plan of `write`. Nothing is saved before the delta is whole.
pub fn write<S: Store>(
    alloc: Global,
    base: &str,
    edits: &str,
    out: &str,
    deltas: &[String],
    store: &mut S,
) -> Result<Plan, Halt>
    ensures cause { HasCause Halt.Failed (S.faults store.old) (S.faults store.new) result }
    ensures stays { S.told store.new ≡ S.told store.old }
    ensures plan { IfSome (S.told store.old)
        (λ files. IfPlan result (IsPlanOf (write_on files base.now edits.now out.now (texts deltas.now)))) }
    ensures told { IfPlan result (λ plan. plan.outcome ≢ Outcome.Usage) }
    ensures kept { IfPlan result (λ plan. (plan.outcome ≡ Outcome.Accepted) ⊎ (plan.saves.items ≡ [])) }
{
    let texted = accept_text(alloc, base, edits, deltas, store)?;
    of_text(alloc, edits, out, &texted)
}
