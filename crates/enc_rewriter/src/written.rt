//! A module written from scratch.
ghost use Rattle.std.specs.Prelude.{◌≡◌, ◌<◌, ◌≤◌, ◌^◌, true, length, IfOk};
ghost use Rattle.enc_plain.specs.Sound.{IsSound};
ghost use Rattle.enc_plain.specs.Sound.{row_count};
ghost use Rattle.enc_plain.specs.SoundDebug.{IsSoundPdb, KnowsWithin};
ghost use Rattle.enc_ppdb.specs.Written.{WritesPdb};
ghost use Rattle.enc_rewriter.specs.Limits.{pdb_limit, rewrite_limit, TellsLimit};
ghost use Rattle.enc_base.specs.Tables.{method_def};
ghost use Rattle.enc_rewriter.specs.Values.{KeepValues};
ghost use Rattle.enc_rewriter.specs.Weight.{module_weight, most_weight};
ghost use Rattle.enc_rewriter.specs.Rewritten.{root_form, image_of_parts, FitsImage, HoldModule, IsPlainImage, MeansModule, RewritesTo, stands_in_order};

use crate::fault::RewriteFault;
use crate::parts::{ModuleParts, parts_with, values_within};
use enc_base::Bytes;
use enc_base::tables::METHOD_DEF;
use enc_emit::RootBuilder;
use enc_meta::HeapBuilder;
use enc_pe::{PeFault, write_pe};
use enc_plain::{ModuleView, PointSource};
use enc_ppdb::write_pdb;
use std::alloc::{AllocError, Global};

/// A number of four bytes is one.
fn word_law(n: u32)
    ensures { n < 2 ^ 32 }
{}

/// The image of parts.
#[tactic(auto, unfolding(crate::specs::Rewritten::image_of_parts))]
fn image_with<V: ModuleView>(
    alloc: Global,
    view: &V,
    parts: ModuleParts,
) -> Result<Vec<u8>, AllocError>
    requires sound { IsSound (V.meaning view.now) }
    requires held { HoldModule (V.meaning view.now) parts.heaps parts.placed parts.tables }
    requires fits { FitsImage (V.meaning view.now) parts.heaps parts.placed parts.tables }
    requires form { parts.form ≡ root_form (V.meaning view.now) }
    ensures { IfOk result (λ v. v.items ≡ image_of_parts (V.meaning view.now) parts.heaps parts.placed parts.tables) }
{
    let ModuleParts {
        heaps,
        placed,
        tables,
        form,
    } = parts;
    let root = RootBuilder::of(heaps, tables).finish(alloc, form)?;
    match write_pe(alloc, &root, placed.code(), view.resources(), view.entry()) {
        Ok(bytes) => Ok(bytes),
        Err(PeFault::Memory) => Err(AllocError),
        Err(PeFault::TooLarge) => unreachable!(),
    }
}

/// The image of a module whose values the heaps keep.
#[tactic(auto, using(crate::proofs::ImagesMean::images_mean))]
fn image_of<V: ModuleView>(
    alloc: Global,
    view: &V,
    heaps: HeapBuilder,
) -> Result<Vec<u8>, AllocError>
    requires sound { IsSound (V.meaning view.now) }
    requires kept { KeepValues (V.meaning view.now) heaps }
    requires light { module_weight (V.meaning view.now) heaps < most_weight }
    ensures means { IfOk result (λ v. MeansModule (V.meaning view.now) v.items) }
    ensures light { IfOk result (λ v. length v.items ≤ module_weight (V.meaning view.now) heaps) }
    ensures plain { IfOk result (λ v. stands_in_order (V.meaning view.now) ≡ true → IsPlainImage v.items) }
{
    word_law(view.entry());
    let parts = parts_with(alloc, view, heaps)?;
    let image = image_with(alloc, view, parts)?;
    Ok(image)
}

/// What is written of a module and its plain PDB.
#[derive(Drop)]
pub struct Rewritten {
    pub image: Bytes,
    pub pdb: Bytes,
}

/// The PDB of a module's methods, whose entry point is the module's.
fn pdb_of<V: ModuleView, P: PointSource>(
    alloc: Global,
    view: &V,
    points: &P,
) -> Result<Vec<u8>, RewriteFault>
    requires sound { IsSound (V.meaning view.now) }
    requires debug { IsSoundPdb (P.debug points.now) }
    requires within { KnowsWithin (P.debug points.now) (row_count (V.meaning view.now) method_def) }
    ensures written { IfOk result (λ v. WritesPdb (P.debug points.now) (row_count (V.meaning view.now) method_def)
        (V.meaning view.now).entry v.items) }
    ensures tells { TellsLimit result (pdb_limit (V.meaning view.now) (P.debug points.now)) }
{
    match write_pdb(alloc, points, view.count(METHOD_DEF), view.entry()) {
        Ok(bytes) => Ok(bytes),
        Err(fault) => Err(RewriteFault::from(fault)),
    }
}

/// A module and its plain PDB written from scratch: an image (PE32, one section) that isn't refused as
/// a base and whose module is the view's, with every token as it was; and a Portable PDB that isn't
/// refused for it and whose plain PDB is that of the points. The initial bytes of fields stand at multiples
/// of eight, `#Pdb` names the module's entry point, and neither file is longer than its weight. Where
/// the children of all owners, by owner and attachment, are the rows in order, the table stream is
/// `#~`, and no Ptr table has rows.
///
/// `TooLarge` exactly where a heap of distinct values passes its limit, with the first such heap of
/// `#Strings`, `#US`, `#Blob` and `#GUID`; else `Image` exactly where the weight of the module passes
/// 2^31 - 1; else `TooLarge` with `#Pdb` exactly where the weight of the plain PDB passes 2^29.
///
/// The weight of a module is the sum of 65,536; of each row's columns, 4 for an index, a run or a heap,
/// else the width with its padding; of 4 for each row of Field, MethodDef, Param, Event and Property;
/// of the lengths of the four heaps; of 32, the code and 24 for each clause of each body; of 8 and the
/// bytes of each row of FieldRVA; and of 8 and the resources. That of a plain PDB is the sum of 65,536;
/// of 64 for each method; of 32 for each point; and of 96, the name and the hash of each distinct
/// document.
pub fn rewrite<V: ModuleView, P: PointSource>(
    alloc: Global,
    view: &V,
    points: &P,
) -> Result<Rewritten, RewriteFault>
    requires sound { IsSound (V.meaning view.now) }
    requires debug { IsSoundPdb (P.debug points.now) }
    requires within { KnowsWithin (P.debug points.now) (row_count (V.meaning view.now) method_def) }
    ensures written { IfOk result (λ r. RewritesTo (V.meaning view.now) (P.debug points.now) r.image r.pdb) }
    ensures tells { TellsLimit result (rewrite_limit (V.meaning view.now) (P.debug points.now)) }
{
    let values = match values_within(alloc, view) {
        Ok(values) => values,
        Err(fault) => return Err(fault),
    };
    let pdb = match pdb_of(alloc, view, points) {
        Ok(pdb) => pdb,
        Err(fault) => return Err(fault),
    };
    let heaps = values.copy()?;
    let image = image_of(alloc, view, heaps)?;
    Ok(Rewritten {
        image: Bytes::from_vec(image),
        pdb: Bytes::from_vec(pdb),
    })
}
