//! The bytes of a delta's PDB with what is known of some methods (Portable PDB v1.0).
ghost use Rattle.std.specs.Prelude.{◌≡◌, ◌<◌, ◌^◌, false, true, length, map, nat_lt, IfOk, OnOk};
ghost use Rattle.std.specs.List.{list_all};
ghost use Rattle.enc_plain.specs.SoundDebug.{IsSoundPdb};
ghost use Rattle.enc_ppdb.specs.Written.{pdb_weight, TellsPdb};
ghost use Rattle.enc_rows.specs.Written.{count_at, IndicesFit};
ghost use Rattle.enc_base.specs.Tables.{document as document_table, enc_map};
ghost use Rattle.enc_pdb_writer.specs.Holding.{map_cells, MoreNamed, HoldPdbDelta};
ghost use Rattle.enc_pdb_writer.specs.Methods.{SaysMethods};

use enc_base::Token;
use enc_base::tables::{ENC_MAP, METHOD_DEBUG_INFORMATION};
use enc_emit::RootBuilder;
use enc_meta::BuildFault;
use enc_plain::PointSource;
use enc_ppdb::{PdbParts, pdb_parts};
use enc_rows::TableBuilder;
use std::alloc::{AllocError, Global};

/// Names the methods of rows in EncMap, in their order, by tokens of MethodDebugInformation.
fn name_methods(rows: &[u32], tables: &mut TableBuilder) -> Result<(), AllocError>
    requires none { count_at tables.old enc_map ≡ 0 }
    requires few { length rows.now < 2 ^ 24 }
    requires short { list_all (λ r. nat_lt r (2 ^ 24)) rows.now ≡ true }
    ensures { OnOk result (MoreNamed tables.old tables.new (map map_cells rows.now)) }
{
    for i in 0..rows.len() {
        let row = rows[i];
        let token = Token {
            table: METHOD_DEBUG_INFORMATION,
            row,
        };
        tables.push(ENC_MAP, &[token.number()])?;
    }
    Ok(())
}

/// The parts of the PDB: those of what is known of the methods, and the names of these.
fn named_parts<P: PointSource>(
    alloc: Global,
    source: &P,
    rows: &[u32],
) -> Result<PdbParts, BuildFault>
    requires sound { IsSoundPdb (P.debug source.now) }
    requires few { length rows.now < 2 ^ 24 }
    requires short { list_all (λ r. nat_lt r (2 ^ 24)) rows.now ≡ true }
    ensures held { IfOk result (λ r. HoldPdbDelta (P.debug source.now) rows.now r.heaps r.tables) }
    ensures fit { IfOk result (λ r. IndicesFit r.tables false) }
    ensures documents { IfOk result (λ r. count_at r.tables document_table < 2 ^ 23) }
    ensures tells { TellsPdb result (pdb_weight (P.debug source.now) (length rows.now)) }
{
    let parts = match pdb_parts(alloc, source, rows.len() as u32) {
        Ok(parts) => parts,
        Err(fault) => return Err(fault),
    };
    let PdbParts { heaps, mut tables } = parts;
    name_methods(rows, &mut tables)?;
    Ok(PdbParts { heaps, tables })
}

/// The Portable PDB of a delta with a row of MethodDebugInformation for each of these methods, in the
/// order of `rows`, their rows in MethodDef, which rise; EncMap names them. Row n of the source, from 1,
/// is what is known of the n-th of them. The documents that their points have are written once each, and
/// a method whose points are of several has Document nil. `TooLarge(Pdb)` exactly where the weight passes
/// 2^29. The time is linear in what is written.
pub fn write_methods<P: PointSource>(
    alloc: Global,
    source: &P,
    rows: &[u32],
) -> Result<Vec<u8>, BuildFault>
    requires sound { IsSoundPdb (P.debug source.now) }
    requires few { length rows.now < 2 ^ 24 }
    requires short { list_all (λ r. nat_lt r (2 ^ 24)) rows.now ≡ true }
    ensures says { IfOk result (λ v. SaysMethods (P.debug source.now) rows.now v.items) }
    ensures tells { TellsPdb result (pdb_weight (P.debug source.now) (length rows.now)) }
{
    let parts = match named_parts(alloc, source, rows) {
        Ok(parts) => parts,
        Err(fault) => return Err(fault),
    };
    parts.heaps.laws();
    parts.tables.laws();
    let root = RootBuilder::of(parts.heaps, parts.tables);
    let bytes = root.finish_pdb(alloc, &[0; 32])?;
    Ok(bytes)
}
