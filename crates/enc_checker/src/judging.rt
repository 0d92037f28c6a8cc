//! Judging the files of a delta.
ghost use Rattle.std.specs.Prelude.{◌≡◌, None, Ok, IfOk, option_map};
ghost use Rattle.enc_delta.specs.Delta.{delta_of};
ghost use Rattle.enc_agg.specs.Seen.{chain_of_all};
ghost use Rattle.enc_delta.specs.Judged.{first_meta};
ghost use Rattle.enc_base.specs.declared.refusal.ReadFault.TheVariants.{Refused};
ghost use Rattle.enc_checker.specs.Check.{refused_row, with_pdb, judged};
ghost use Rattle.enc_checker.specs.Seen.{Answers};

use crate::methods::code_sizes;
use enc_agg::Aggregate;
use enc_base::{Code, Place, ReadFault, Refusal, Token};
use enc_delta::Delta;
use enc_ppdb::PdbDelta;
use std::alloc::{AllocError, Global};

/// The files of a delta: its metadata, its IL, and its Portable PDB, where it has one.
#[derive(Debug, Drop)]
pub struct Files {
    pub meta: Vec<u8>,
    pub il: Vec<u8>,
    pub pdb: Option<Vec<u8>>,
}

/// What accepted files hold.
#[derive(Drop)]
pub struct Checked {
    pub delta: Delta,
    pub pdb: Option<PdbDelta>,
}

/// The refusal of a PDB whose token doesn't go with the delta's methods.
fn misplaced(token: Token) -> ReadFault
    ensures { result ≡ Refused (refused_row token) }
{
    ReadFault::Refused(Refusal {
        code: Code::E(22),
        place: Place::Row(token),
    })
}

/// The PDB of a delta that breaks no rule, read and judged.
#[tactic(auto, unfolding(crate::specs::Check::with_pdb))]
fn judge_pdb(alloc: Global, delta: Delta, pdb: Option<Vec<u8>>) -> Result<Checked, ReadFault>
    ensures answer { Answers result (with_pdb delta (option_map (λ b. b.items) pdb)) }
    ensures delta { IfOk result (λ c. c.delta ≡ delta) }
{
    let Some(bytes) = pdb else {
        return Ok(Checked { delta, pdb: None });
    };
    let pdb = PdbDelta::read(alloc, bytes)?;
    let sizes = code_sizes(alloc, &delta)?;
    match pdb.first_broken(&sizes) {
        Some(token) => Err(misplaced(token)),
        None => Ok(Checked {
            delta,
            pdb: Some(pdb),
        }),
    }
}

/// A delta that was read is judged, and then its PDB.
fn judge(
    alloc: Global,
    agg: &Aggregate,
    delta: Delta,
    pdb: Option<Vec<u8>>,
) -> Result<Checked, ReadFault>
    ensures answer { Answers result (judged (chain_of_all agg.now) (Ok delta) (option_map (λ b. b.items) pdb)) }
    ensures delta { IfOk result (λ c. c.delta ≡ delta) }
    ensures rules { IfOk result (λ c. first_meta (chain_of_all agg.now) c.delta ≡ None) }
{
    match delta.first_broken(alloc, agg) {
        Err(AllocError) => Err(ReadFault::Memory),
        Ok(Some(refusal)) => Err(ReadFault::Refused(refusal)),
        Ok(None) => judge_pdb(alloc, delta, pdb),
    }
}

/// Judges the files of a delta after a base and the deltas before them. The answer is the delta with
/// its PDB exactly where they break no rule of a delta; Refused names the first rule that they break,
/// and its place: F1, F2 or F6 of the metadata by itself, then E1 to E24 after the chain but E22,
/// then F12 of the PDB by itself, and E22 after the delta. A delta without a PDB breaks neither of
/// these two. The aggregate isn't changed.
pub fn check(alloc: Global, agg: &Aggregate, files: Files) -> Result<Checked, ReadFault>
    ensures answer { Answers result (judged (chain_of_all agg.now) (delta_of files.meta.items files.il.items)
        (option_map (λ b. b.items) files.pdb)) }
    ensures read { IfOk result (λ c. delta_of files.meta.items files.il.items ≡ Ok c.delta) }
    ensures rules { IfOk result (λ c. first_meta (chain_of_all agg.now) c.delta ≡ None) }
{
    let Files { meta, il, pdb } = files;
    let delta = Delta::read(meta, il)?;
    judge(alloc, agg, delta, pdb)
}
