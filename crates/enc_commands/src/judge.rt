//! Judging a base and its deltas, each after those before it, with their PDBs.
ghost use Rattle.std.specs.Prelude.{◌≡◌, ◌≢◌, Option, map, IsErrOf};
ghost use Rattle.enc_image.specs.Base.{base_of};
ghost use Rattle.enc_delta.specs.Delta.{delta_of};
ghost use Rattle.enc_agg.specs.Seen.{chain_of_all};
ghost use Rattle.enc_checker.specs.Check.{judged};
ghost use Rattle.enc_rows.specs.Source.{Source};
ghost use Rattle.enc_commands.specs.Verdict.{dll, pdb, in_file, in_delta, is_of_pdb, base_pdb, judge_deltas as deltas_judged, judge_all as all_judged, judge_base as base_judged};
ghost use Rattle.enc_commands.specs.Stops.{Comes, StopsQuietly, OnPlan, IsQuiet, IsUnaccepted};
ghost use Rattle.enc_commands.specs.Loads.{bytes_seen, base_followed, base_seen, file_seen, followed, Adds};

use crate::halt::Halt;
use crate::load::{BaseFile, DeltaFile};
use crate::plans::unread;
use enc_base::{Code, ReadFault};
use enc_chain::{Chain, read_pdb};
use enc_checker::{Files, within_law};
use enc_image::Image;
use enc_ppdb::Pdb;
use enc_saves::name_of;
use std::alloc::Global;

/// Whether a rule of this number is one of PDBs.
fn is_of_pdb(code: Code) -> bool
    ensures { result ≡ is_of_pdb code }
{
    match code {
        Code::F(n) => n == 12,
        Code::E(n) => n == 22,
    }
}

/// The stop at a delta that isn't accepted.
fn unaccepted(alloc: Global, name: &str, debug_name: &str, fault: ReadFault) -> Halt
    ensures plan { IsUnaccepted name.now debug_name.now fault result }
    ensures quiet { OnPlan result IsQuiet }
    ensures no_fault { result ≢ Halt.Failed }
{
    match fault {
        ReadFault::Memory => Halt::Memory,
        ReadFault::Refused(refusal) if is_of_pdb(refusal.code) => unread(alloc, debug_name, fault),
        ReadFault::Refused(_) => unread(alloc, name, fault),
    }
}

/// The files of a delta judged after the deltas before it, and added.
pub fn judge_delta(alloc: Global, chain: &mut Chain, file: DeltaFile) -> Result<(), Halt>
    ensures step { Adds chain.old chain.new result (in_delta (file_seen file)
        (judged (chain_of_all chain.old.rows) (delta_of file.metadata.items file.code.items) (bytes_seen file.debug))) }
    ensures quiet { StopsQuietly result }
    ensures no_fault { ¬ (IsErrOf result Halt.Failed) }
{
    let DeltaFile {
        name,
        debug_name,
        metadata,
        code,
        debug,
    } = file;
    let files = Files {
        meta: metadata,
        il: code,
        pdb: debug,
    };
    match chain.apply(alloc, files) {
        Ok(()) => Ok(()),
        Err(fault) => Err(unaccepted(alloc, name.as_str(), debug_name.as_str(), fault)),
    }
}

/// All deltas, in order.
fn judge_deltas(alloc: Global, chain: &mut Chain, files: Vec<DeltaFile>) -> Result<(), Halt>
    ensures step { Comes (λ u. followed chain.new) result
        (deltas_judged (followed chain.old) (map file_seen files.items)) }
    ensures quiet { StopsQuietly result }
    ensures no_fault { ¬ (IsErrOf result Halt.Failed) }
{
    for file in files {
        judge_delta(alloc, chain, file)?;
    }
    Ok(())
}

/// The base of a file's bytes.
fn judge_base(alloc: Global, base: &str, bytes: Vec<u8>) -> Result<Image, Halt>
    ensures step { Comes (λ (i : Source). i) result (in_file (dll base.now) (base_of bytes.items)) }
    ensures quiet { StopsQuietly result }
    ensures no_fault { ¬ (IsErrOf result Halt.Failed) }
{
    match Image::read(alloc, bytes) {
        Ok(image) => Ok(image),
        Err(ReadFault::Memory) => Err(Halt::Memory),
        Err(fault) => {
            let name = name_of(alloc, base, ".dll")?;
            Err(unread(alloc, name.as_str(), fault))
        }
    }
}

/// The PDB of a base, where it has one.
#[tactic(auto, unfolding(crate::specs::Verdict::base_pdb))]
fn judge_pdb(
    alloc: Global,
    base: &str,
    image: &Image,
    bytes: Option<Vec<u8>>,
) -> Result<Option<Pdb>, Halt>
    ensures step { Comes (λ (p : Option Source). p) result
        (in_file (pdb base.now) (base_pdb image.now (bytes_seen bytes))) }
    ensures quiet { StopsQuietly result }
    ensures no_fault { ¬ (IsErrOf result Halt.Failed) }
{
    let Some(bytes) = bytes else {
        return Ok(None);
    };
    match read_pdb(alloc, image, bytes) {
        Ok(pdb) => Ok(Some(pdb)),
        Err(ReadFault::Memory) => Err(Halt::Memory),
        Err(fault) => {
            let name = name_of(alloc, base, ".pdb")?;
            Err(unread(alloc, name.as_str(), fault))
        }
    }
}

/// A base and its deltas, judged in order.
#[tactic(auto, unfolding(crate::specs::Verdict::judge_all))]
pub fn judge_all(
    alloc: Global,
    base: &str,
    file: BaseFile,
    files: Vec<DeltaFile>,
) -> Result<Chain, Halt>
    ensures step { Comes followed result (all_judged base.now (base_seen file) (map file_seen files.items)) }
    ensures quiet { StopsQuietly result }
    ensures no_fault { ¬ (IsErrOf result Halt.Failed) }
{
    within_law();
    let BaseFile { bytes, debug } = file;
    let image = judge_base(alloc, base, bytes)?;
    let pdb = judge_pdb(alloc, base, &image, debug)?;
    let mut chain = Chain::begin(alloc, image, pdb)?;
    judge_deltas(alloc, &mut chain, files)?;
    Ok(chain)
}

/// A base and its PDB, where it has one.
#[derive(Drop)]
pub struct JudgedBase {
    pub image: Image,
    pub pdb: Option<Pdb>,
}

/// A base alone, judged.
#[tactic(auto, unfolding(crate::specs::Verdict::judge_base))]
pub fn judge_first(alloc: Global, base: &str, file: BaseFile) -> Result<JudgedBase, Halt>
    ensures step { Comes base_followed result (base_judged base.now (base_seen file)) }
    ensures quiet { StopsQuietly result }
    ensures no_fault { ¬ (IsErrOf result Halt.Failed) }
{
    let BaseFile { bytes, debug } = file;
    let image = judge_base(alloc, base, bytes)?;
    let pdb = judge_pdb(alloc, base, &image, debug)?;
    Ok(JudgedBase { image, pdb })
}
