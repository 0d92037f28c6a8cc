//! The bytes of a Portable PDB that is written (Portable PDB v1.0).
ghost use Rattle.std.specs.Prelude.{◌≡◌, ◌^◌, ◌<◌, IfOk};
ghost use Rattle.enc_plain.specs.SoundDebug.{IsSoundPdb, KnowsWithin};
ghost use Rattle.enc_ppdb.specs.Written.{pdb_stream as stream_of, pdb_weight, TellsPdb, WritesPdb};

use crate::laws::pdb_means_law;
use crate::parts::pdb_parts;
use enc_emit::RootBuilder;
use enc_meta::BuildFault;
use enc_plain::PointSource;
use std::alloc::{AllocError, Global};

/// The stream `#Pdb`: an id of zeros, the token of the entry point, and no table of a module that is
/// referred to (Portable PDB v1.0, #Pdb Stream).
#[tactic(auto, unfolding(crate::specs::Written::pdb_stream))]
fn pdb_stream(alloc: Global, entry: u32) -> Result<Vec<u8>, AllocError>
    ensures { IfOk result (λ v. v.items ≡ stream_of entry) }
{
    let mut out = Vec::new(alloc);
    out.extend_from_slice(&[0; 20])?;
    out.extend_from_slice(&entry.to_le_bytes())?;
    out.extend_from_slice(&[0; 8])?;
    Ok(out)
}

/// The bytes of a Portable PDB of so many methods, of the parts that `pdb_parts` gives, with an id of
/// zeros; the entry point is a token's number, 0 for none. They read back as the same points and
/// documents of each method, and are no longer than the weight. `TooLarge(Pdb)` exactly where the weight
/// passes 2^29, as there.
pub fn write_pdb<P: PointSource>(
    alloc: Global,
    source: &P,
    methods: u32,
    entry: u32,
) -> Result<Vec<u8>, BuildFault>
    requires sound { IsSoundPdb (P.debug source.now) }
    requires few { methods < 2 ^ 24 }
    requires within { KnowsWithin (P.debug source.now) methods }
    ensures written { IfOk result (λ v. WritesPdb (P.debug source.now) methods entry v.items) }
    ensures tells { TellsPdb result (pdb_weight (P.debug source.now) methods) }
{
    let parts = match pdb_parts(alloc, source, methods) {
        Ok(parts) => parts,
        Err(fault) => return Err(fault),
    };
    parts.heaps.laws();
    parts.tables.laws();
    pdb_means_law();
    let stream = pdb_stream(alloc, entry)?;
    let root = RootBuilder::of(parts.heaps, parts.tables);
    let bytes = root.finish_pdb(alloc, &stream)?;
    Ok(bytes)
}
