//! The delta of an edit list.
ghost use Rattle.std.specs.Prelude.{◌≡◌, None, IfOk, IsTrue};
ghost use Rattle.std.specs.List.{list_all};
ghost use Rattle.enc_agg.specs.Seen.{chain_of_all};
ghost use Rattle.enc_edit_list.specs.Form.{list_fits};
ghost use Rattle.enc_pdb_writer.specs.Stated.{points_lie_within};
ghost use Rattle.enc_rules.specs.First.{first_edit};
ghost use Rattle.enc_list_delta.specs.Holds.{MayFollow};
ghost use Rattle.enc_writer.specs.Stands.{NamesGuids, IsWrittenFor, WritesEdits};
ghost use Rattle.enc_writer.specs.Files.{HoldFiles, FilesStand};

use crate::bodies::bodies_of;
use crate::fault::EditFault;
use crate::heaps::heaps_of_delta;
use crate::laws::{pdbs_follow_law, pdbs_mean_law, points_law};
use crate::tables::metadata_of;
use enc_agg::Aggregate;
use enc_base::Bytes;
use enc_edit_list::{Added, EditList};
use enc_emit::DeltaBytes;
use enc_list_delta::{deltas_are_read_law, deltas_follow_law, deltas_mean_law};
use enc_pdb_writer::write_pdb_delta;
use enc_plain::ChainView;
use enc_rules::{Context, context_of, first_broken};
use std::alloc::{AllocError, Global};

/// The files of a list that breaks no rule after its chain.
fn files_of<C: ChainView>(alloc: Global, context: &Context<'_, C>) -> Result<DeltaBytes, AllocError>
    requires may { MayFollow context.now.chain context.now.list }
    requires names { NamesGuids context.now.chain }
    ensures { IfOk result (λ d. HoldFiles context.now.chain context.now.list d) }
{
    let mut heaps = heaps_of_delta(alloc, context)?;
    let bodies = bodies_of(alloc, context, &mut heaps)?;
    let meta = metadata_of(alloc, context, heaps, &bodies)?;
    points_law();
    let pdb = write_pdb_delta(alloc, context.list, context.rows())?;
    Ok(DeltaBytes {
        meta: Bytes::from_vec(meta),
        il: Bytes::from_vec(bodies.il),
        pdb: Bytes::from_vec(pdb),
    })
}

/// The files of a list that breaks no rule are accepted, and stand for it.
fn stands_law()
    ensures { FilesStand }
{
    deltas_are_read_law();
    deltas_follow_law();
    deltas_mean_law();
    pdbs_follow_law();
    pdbs_mean_law();
}

/// The files, where the list breaks no rule.
fn written(alloc: Global, agg: &Aggregate, list: &EditList) -> Result<DeltaBytes, AllocError>
    requires form { IsTrue (list_fits list.now) }
    requires points { IsTrue (list_all points_lie_within list.now.edits) }
    requires rules { first_edit (chain_of_all agg.now) list.now ≡ None }
    ensures { IfOk result (λ d. IsWrittenFor (chain_of_all agg.now) list.now d) }
{
    agg.sound();
    let added = Added::of(alloc, &list.edits)?;
    let context = context_of(alloc, agg, list, added)?;
    let files = files_of(alloc, &context)?;
    stands_law();
    Ok(files)
}

/// The delta of an edit list after a chain: files that the checker accepts after it, and with which it has
/// the module and the plain PDB with all edits made directly. `Broken` with the first rule that the list
/// breaks, and its edit, where it breaks one. The time is linear in the list, and goes once over the rows of
/// MethodDef and the entries of `#GUID` of the chain.
pub fn write_delta(alloc: Global, agg: &Aggregate, list: &EditList) -> Result<DeltaBytes, EditFault>
    requires form { IsTrue (list_fits list.now) }
    requires points { IsTrue (list_all points_lie_within list.now.edits) }
    ensures { WritesEdits (chain_of_all agg.now) list.now result }
{
    agg.sound();
    if let Some((rule, edit)) = first_broken(alloc, agg, list)? {
        return Err(EditFault::Broken(rule, edit));
    }
    let files = written(alloc, agg, list)?;
    Ok(files)
}
