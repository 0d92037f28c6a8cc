//! The delta that stands for the last two deltas of a chain.
ghost use Rattle.std.specs.Prelude.{◌≡◌, ◌≤◌, false, length, nat_lt, IfOk};
ghost use Rattle.enc_agg.specs.Seen.{chain_of_all};
ghost use Rattle.enc_reference_depth.specs.Depth.{IsShallow};
ghost use Rattle.enc_ppdb.specs.PdbChain.{pdb_with};
ghost use Rattle.enc_ppdb.specs.Written.{most_pdb_weight};
ghost use Rattle.enc_chain.specs.Goes.{AllGo};
ghost use Rattle.enc_merge.specs.Merges.{MergesLast, ShortLast, methods_listed, weight_of_both};
ghost use Rattle.enc_merge.specs.Writing.{AreOfEither, FilesOfBothStand, IsFilesOfBoth, chain_of_both};

use crate::fault::MergeFault;
use crate::heaps::il_merged;
use crate::last::Last;
use crate::lists::numbers_of_either;
use crate::metadata::{metadata_is_read_law, metadata_merged};
use crate::methods::methods_of;
use crate::pdb::{pdb_merged, weigh};
use enc_agg::Aggregate;
use enc_base::{Bytes, Token};
use enc_emit::DeltaBytes;
use enc_merged_delta::{
    merged_follows_law, merged_is_named_law, merged_means_law, pairs_are_of_both_law,
};
use enc_ppdb::PdbChain;
use enc_reference_depth::first_deep;
use std::alloc::{AllocError, Global};

/// The files, where the module after both is shallow and the PDB isn't too heavy.
fn files_of(
    alloc: Global,
    last: &Last<'_>,
    points: &PdbChain,
    numbers: &[u32],
    methods: &[Token],
) -> Result<DeltaBytes, AllocError>
    requires numbers { AreOfEither last.now.first last.now.second numbers.now }
    requires methods { methods.now ≡ methods_listed last.now.chain last.now.first last.now.second }
    requires shallow { IsShallow (chain_of_both last.now).plain }
    requires light { nat_lt most_pdb_weight (weight_of_both last.now.chain last.now.first last.now.second
        (pdb_with points.now.base points.now.deltas)) ≡ false }
    ensures { IfOk result (λ d. IsFilesOfBoth last.now points.now d) }
{
    let meta = metadata_merged(alloc, last, numbers)?;
    let il = il_merged(alloc, last)?;
    let pdb = pdb_merged(alloc, last, points, methods)?;
    Ok(DeltaBytes {
        meta: Bytes::from_vec(meta),
        il: Bytes::from_vec(il),
        pdb: Bytes::from_vec(pdb),
    })
}

/// Such files stand for the two.
fn files_stand_law()
    ensures { FilesOfBothStand }
{
    metadata_is_read_law();
    merged_follows_law();
    merged_means_law();
    merged_is_named_law();
    pairs_are_of_both_law();
}

/// The delta that stands for the last two deltas of a chain: after the chain without them it is accepted, and
/// makes the same module and the same plain PDB. `TooLarge` where its PDB would pass its limit, by what is
/// known of the methods that one of the two lists; else `Deep` with the first reference that lies too deep in
/// others in the module after both. The time is linear in what the two say and in the references of the
/// module, but that tokens are sorted.
pub fn merge_last(
    alloc: Global,
    agg: &Aggregate,
    points: &PdbChain,
) -> Result<DeltaBytes, MergeFault>
    requires two { 2 ≤ length agg.now.deltas }
    requires short { ShortLast agg.now.deltas }
    requires go { AllGo agg.now.deltas points.now.deltas }
    ensures { MergesLast agg.now points.now result }
{
    agg.sound();
    let last = Last::of(agg);
    let numbers = numbers_of_either(alloc, last.first, last.second)?;
    let methods = methods_of(alloc, &last, &numbers)?;
    weigh(alloc, &last, points, &methods)?;
    if let Some(token) = first_deep(alloc, agg)? {
        return Err(MergeFault::Deep(token));
    }
    let files = files_of(alloc, &last, points, &numbers, &methods)?;
    files_stand_law();
    Ok(files)
}
