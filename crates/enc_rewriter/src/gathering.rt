//! The heaps of a module, pass by pass.
ghost use Rattle.std.specs.Prelude.{◌≡◌, OnOk};
ghost use Rattle.enc_plain.specs.Sound.{IsSound};
ghost use Rattle.enc_rewriter.specs.Values.{no_starts, no_heaps, with_all, all_values, heaps_for, too_large_heap, PassEnds, TellsHeap};

use crate::module_values::ModuleValues;
use crate::pass::{Pass, add_values};
use enc_meta::BuildFault;
use enc_plain::ModuleView;
use std::alloc::Global;
use std::collections::BTreeSet;

/// Adds what all rows have for a heap. `TooLarge` exactly where the heap of distinct values passes
/// its limit.
#[tactic(auto, using(crate::proofs::Limits::limits_steps))]
fn add_pass<'a, V: ModuleView>(
    alloc: Global,
    view: &'a V,
    pass: Pass,
    heaps: &mut ModuleValues<'a>,
) -> Result<(), BuildFault>
    requires sound { IsSound (V.meaning view.now) }
    requires starts { heaps.old.starts ≡ no_starts }
    ensures added { OnOk result (heaps.new ≡ with_all pass heaps.old (all_values pass (V.meaning view.now))) }
    ensures ends { PassEnds result pass (with_all pass heaps.old (all_values pass (V.meaning view.now))) }
{
    let mut seen = BTreeSet::new(alloc);
    match add_values(view, pass, &mut seen, heaps) {
        Ok(()) => {}
        Err(fault) => return Err(fault),
    }
    heaps.laws();
    Ok(())
}

/// Gathers the values of a module where none is yet: each value once, in the order of tables, rows and
/// columns. `TooLarge` exactly where a heap of distinct values passes its limit, with the first such heap
/// of `#Strings`, `#US`, `#Blob` and `#GUID`.
pub(crate) fn gather<'a, V: ModuleView>(
    alloc: Global,
    view: &'a V,
    heaps: &mut ModuleValues<'a>,
) -> Result<(), BuildFault>
    requires sound { IsSound (V.meaning view.now) }
    requires none { heaps.old ≡ no_heaps }
    ensures gathered { OnOk result (heaps.new ≡ heaps_for (V.meaning view.now)) }
    ensures tells { TellsHeap result (too_large_heap (V.meaning view.now)) }
{
    match add_pass(alloc, view, Pass::Texts, heaps) {
        Ok(()) => {}
        Err(fault) => return Err(fault),
    }
    match add_pass(alloc, view, Pass::Users, heaps) {
        Ok(()) => {}
        Err(fault) => return Err(fault),
    }
    match add_pass(alloc, view, Pass::Blobs, heaps) {
        Ok(()) => {}
        Err(fault) => return Err(fault),
    }
    add_pass(alloc, view, Pass::Guids, heaps)
}
