//! The Portable PDB of the delta that stands for two (Portable PDB v1.0).
ghost use Rattle.std.specs.Prelude.{◌≡◌, ◌≤◌, ◌<◌, ◌^◌, filter, false, length, map, nat_lt, IfOk};
ghost use Rattle.enc_base.specs.declared.token.Token.{Token as TheToken};
ghost use Rattle.enc_plain.specs.SoundDebug.{IsSoundPdb};
ghost use Rattle.enc_ppdb.specs.PdbChain.{pdb_with};
ghost use Rattle.enc_ppdb.specs.Written.{most_pdb_weight};
ghost use Rattle.enc_merge.specs.Merges.{methods_listed, weight_of_both};
ghost use Rattle.enc_merge.specs.Writing.{IsPdbOfBoth, TellsWeight, changes_debug};

use crate::fault::MergeFault;
use crate::last::Last;
use crate::methods::changed_methods;
use crate::points::SomePoints;
use enc_base::Token;
use enc_meta::BuildFault;
use enc_pdb_writer::write_methods;
use enc_ppdb::{PdbChain, pdb_parts};
use std::alloc::{AllocError, Global};

/// Tells whether the PDB of the delta that stands for two is too heavy, by what is known of all methods that
/// one of the two lists.
#[tactic(auto, unfolding(crate::specs::Merges::weight_of_both))]
pub(crate) fn weigh(
    alloc: Global,
    last: &Last<'_>,
    points: &PdbChain,
    methods: &[Token],
) -> Result<(), MergeFault>
    requires { methods.now ≡ methods_listed last.now.chain last.now.first last.now.second }
    ensures { TellsWeight result (weight_of_both last.now.chain last.now.first last.now.second
        (pdb_with points.now.base points.now.deltas)) }
{
    last.aggregate();
    points.sound();
    let source = SomePoints { points, methods };
    match pdb_parts(alloc, &source, methods.len() as u32) {
        Ok(_) => Ok(()),
        Err(BuildFault::Memory) => Err(MergeFault::Memory),
        Err(BuildFault::TooLarge(_)) => Err(MergeFault::TooLarge),
    }
}

/// The rows of methods.
fn rows_of(alloc: Global, methods: &[Token]) -> Result<Vec<u32>, AllocError>
    ensures { IfOk result (λ rows. rows.items ≡ map (λ (t : TheToken). t.row) methods.now) }
{
    let mut rows = Vec::new(alloc);
    for k in 0..methods.len() {
        let method = methods[k];
        rows.push(method.row)?;
    }
    Ok(rows)
}

/// The PDB: a row for each method of which one of the two changes what is known, with what is known after
/// both, in the order of their rows.
pub(crate) fn pdb_merged(
    alloc: Global,
    last: &Last<'_>,
    points: &PdbChain,
    methods: &[Token],
) -> Result<Vec<u8>, AllocError>
    requires methods { methods.now ≡ methods_listed last.now.chain last.now.first last.now.second }
    requires light { nat_lt most_pdb_weight (weight_of_both last.now.chain last.now.first last.now.second
        (pdb_with points.now.base points.now.deltas)) ≡ false }
    ensures { IfOk result (λ v. IsPdbOfBoth last.now points.now v.items) }
{
    last.aggregate();
    points.sound();
    let changed = changed_methods(alloc, last, points, methods)?;
    let rows = rows_of(alloc, &changed)?;
    let source = SomePoints {
        points,
        methods: &changed,
    };
    match write_methods(alloc, &source, &rows) {
        Ok(bytes) => Ok(bytes),
        Err(BuildFault::Memory) => Err(AllocError),
        Err(BuildFault::TooLarge(_)) => unreachable!(),
    }
}
