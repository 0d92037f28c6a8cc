//! Carrying out a plan: all saves in order, then the output.
ghost use Rattle.std.specs.Prelude.{◌≡◌, ◌⊎◌, ℕ, List, take, map, Ok, Err, IfSome, OnOk, IfErr, slice_get};
ghost use Rattle.enc_outside.specs.Outside.{with_file, with_piece, IsSavedInPart, GrowsInPart, IsTold, HasCause};
ghost use Rattle.enc_commands.specs.Ending.{after_saves, SavesAt, PrintsAt, IfWhole};
ghost use Rattle.enc_commands.specs.Plans.{saves_of, SavesStop};

use crate::ending::Ending;
use crate::plan::Plan;
use enc_outside::{PutError, SaveError, Sink, Store};
use enc_saves::Save;

/// Saves all, in order, up to the first that isn't saved.
fn save_all<S: Store>(saves: &[Save], store: &mut S) -> Result<(), SaveError>
    ensures cause { HasCause SaveError.Failed (S.faults store.old) (S.faults store.new) result }
    ensures saved { OnOk result (S.told store.new ≡ after_saves (saves_of saves.now) (S.told store.old)) }
    ensures stopped { IfErr result (λ e. SavesStop e (saves_of saves.now) (S.told store.old) (S.told store.new)) }
{
    for save in saves {
        store.save(save.name.as_str(), &save.bytes)?;
    }
    Ok(())
}

/// Prints the output of a plan whose saves are made.
fn print<K: Sink>(plan: &Plan, out: &mut K) -> Ending
    ensures sink { IsTold (result ≡ Ending.SinkFault) (K.faults out.old) (K.faults out.new) }
    ensures ending { (result ≡ Ending.Whole plan.now.outcome) ⊎
        ((result ≡ Ending.Memory) ⊎ (result ≡ Ending.SinkFault)) }
    ensures prints { PrintsAt result plan.now.output.items (K.told out.old) (K.told out.new) }
{
    match out.put(&plan.output) {
        Ok(()) => Ending::Whole(plan.outcome),
        Err(PutError::Memory) => Ending::Memory,
        Err(PutError::Failed) => Ending::SinkFault,
    }
}

/// Saves all, and then prints.
pub fn finish<S: Store, K: Sink>(plan: &Plan, store: &mut S, out: &mut K) -> Ending
    ensures store { IsTold (result ≡ Ending.StoreFault) (S.faults store.old) (S.faults store.new) }
    ensures sink { IsTold (result ≡ Ending.SinkFault) (K.faults out.old) (K.faults out.new) }
    ensures ending { IfWhole result (λ outcome. outcome ≡ plan.now.outcome) }
    ensures files { SavesAt result (saves_of plan.now.saves.items) (S.told store.old) (S.told store.new) }
    ensures prints { PrintsAt result plan.now.output.items (K.told out.old) (K.told out.new) }
{
    match save_all(&plan.saves, store) {
        Ok(()) => print(plan, out),
        Err(SaveError::Memory) => Ending::Memory,
        Err(SaveError::Failed) => Ending::StoreFault,
    }
}
