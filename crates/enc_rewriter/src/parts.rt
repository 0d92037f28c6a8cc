//! The parts of an image that hold a module.
ghost use Rattle.std.specs.Prelude.{◌≡◌, ◌+◌, ◌<◌, ◌≤◌, length, IfOk, if◌then◌else◌};
ghost use Rattle.enc_emit.specs.declared.root_form.RootForm.TheVariants as form;
ghost use Rattle.enc_plain.specs.Sound.{IsSound};
ghost use Rattle.enc_rewriter.specs.Limits.{image_limit, TellsLimit};
ghost use Rattle.enc_rewriter.specs.Rewritten.{HoldModule, root_form};
ghost use Rattle.enc_rewriter.specs.Standing.{MayPlaceCode};
ghost use Rattle.enc_rewriter.specs.Values.{no_starts, heaps_for, KeepValues};
ghost use Rattle.enc_rewriter.specs.Weight.{bodies_weight, fields_weight, module_weight as weight_of_module, most_weight};

use crate::fault::RewriteFault;
use crate::gathering::gather;
use crate::module_values::ModuleValues;
use crate::numbers::Numbering;
use crate::placed::{PlacedCode, placed_code};
use crate::rows::push_all;
use crate::runs::{all_runs, needs_jtd};
use crate::weight::{MOST, module_weight};
use enc_emit::RootForm;
use enc_meta::HeapBuilder;
use enc_plain::ModuleView;
use enc_rows::TableBuilder;
use std::alloc::{AllocError, Global};

/// The parts of an image: the heaps of its values, its code, the rows of its tables, and the form of
/// its root.
#[derive(Drop)]
pub(crate) struct ModuleParts {
    pub(crate) heaps: HeapBuilder,
    pub(crate) placed: PlacedCode,
    pub(crate) tables: TableBuilder,
    pub(crate) form: RootForm,
}

/// The form of the root of a module with a run that asks for wide indices, or with none.
fn form_with(wide: bool) -> RootForm
    ensures { result ≡ (if wide then form.WideModule else form.Module) }
{
    if wide {
        RootForm::WideModule
    } else {
        RootForm::Module
    }
}

/// The parts of a module whose values the heaps keep: the bodies and the initial bytes of fields in
/// the code, with user texts named anew, and the rows with every token as it was.
pub(crate) fn parts_with<V: ModuleView>(
    alloc: Global,
    view: &V,
    heaps: HeapBuilder,
) -> Result<ModuleParts, AllocError>
    requires { MayPlaceCode (V.meaning view.now) heaps }
    ensures held { IfOk result (λ p. HoldModule (V.meaning view.now) p.heaps p.placed p.tables) }
    ensures heaps { IfOk result (λ p. p.heaps ≡ heaps) }
    ensures code { IfOk result (λ p. length p.placed.code ≤ bodies_weight (V.meaning view.now) + fields_weight
        (V.meaning view.now) + 4096) }
    ensures form { IfOk result (λ p. p.form ≡ root_form (V.meaning view.now)) }
{
    let mut heaps = heaps;
    let placed = placed_code(alloc, view, &mut heaps)?;
    let runs = all_runs(alloc, view)?;
    let form = form_with(needs_jtd(view, &runs));
    let mut tables = TableBuilder::begin(alloc);
    let by = Numbering {
        view,
        runs: &runs,
        placed: &placed,
    };
    push_all(alloc, &by, &mut heaps, &mut tables)?;
    heaps.laws();
    tables.laws();
    Ok(ModuleParts {
        heaps,
        placed,
        tables,
        form,
    })
}

/// The values of a module, each once and none copied but its GUIDs. `TooLarge` exactly where a heap of them passes its
/// limit, with the first such heap, and else `Image` exactly where the module passes the weight. Memory is linear in
/// the number of values, however long they are.
#[tactic(auto, using(crate::proofs::Gathered::keep_all), unfolding(crate::specs::Values::no_heaps))]
pub(crate) fn values_within<V: ModuleView>(
    alloc: Global,
    view: &V,
) -> Result<ModuleValues<'_>, RewriteFault>
    requires sound { IsSound (V.meaning view.now) }
    ensures values { IfOk result (λ g. g ≡ heaps_for (V.meaning view.now)) }
    ensures kept { IfOk result (λ g. KeepValues (V.meaning view.now) g) }
    ensures light { IfOk result (λ g. weight_of_module (V.meaning view.now) g < most_weight) }
    ensures tells { TellsLimit result (image_limit (V.meaning view.now)) }
{
    let mut values = ModuleValues::begin(alloc)?;
    match gather(alloc, view, &mut values) {
        Ok(()) => {}
        Err(fault) => return Err(RewriteFault::from(fault)),
    }
    if module_weight(alloc, view, &values)? >= MOST {
        return Err(RewriteFault::Image);
    }
    Ok(values)
}
