//! A base with its PDB and the deltas that follow it.
ghost use Rattle.std.specs.Prelude.{◌≡◌, ◌≤◌, Ok, IfOk, length, option_map};
ghost use Rattle.enc_plain.specs.SoundDebug.{KnowsWithin};
ghost use Rattle.enc_image.specs.Base.{base_of, chain_of_base};
ghost use Rattle.enc_ppdb.specs.Fault.{pdb_of};
ghost use Rattle.enc_ppdb.specs.Seen.{ReadsPdb};
ghost use Rattle.enc_ppdb.specs.PdbChain.{earlier_pdb, pdb_begun};
ghost use Rattle.enc_delta.specs.Delta.{delta_of};
ghost use Rattle.enc_agg.specs.Earlier.{earlier_of};
ghost use Rattle.enc_agg.specs.Seen.{chain_of_all};
ghost use Rattle.enc_checker.specs.Check.{judged};
ghost use Rattle.enc_checker.specs.Seen.{Answers};
ghost use Rattle.enc_checker.specs.Within.{method_count};
ghost use Rattle.enc_chain.specs.Kept.{IsAppliedTo, IsAcceptedAfter, IsWholeChain, followed};
ghost use Rattle.enc_chain.specs.Opened.{OpensChain, OpensBase, OpensPdb, chain_begun, chain_opened, chain_opened_with};

use crate::joined::{Generation, Joined};
use enc_agg::Aggregate;
use enc_base::tables::METHOD_DEF;
use enc_base::{ReadFault, Refusal};
use enc_checker::{Checked, Files, within_law};
use enc_image::Image;
use enc_plain::ModuleView;
use enc_ppdb::{Pdb, PdbChain};
use std::alloc::{AllocError, Global};
use std::marker::Model;

/// Why a base and its PDB weren't opened.
#[derive(Clone, Copy, Debug, PartialEq, Eq)]
pub enum OpenFault {
    /// Memory ran out.
    Memory,
    /// The base breaks this rule.
    Base(Refusal),
    /// The base is good, and its PDB breaks this rule.
    Pdb(Refusal),
}

/// A base with its PDB, where it has one, which was read for it, and the deltas that were accepted after it.
#[derive(Drop)]
pub struct Chain {
    joined: Joined,
}

impl Model for Chain {
    ghost use Rattle.enc_chain.specs.Kept.{Kept, KnowsOwn};

    ghost Value = { Kept };

    ghost view = { λ c. c.joined };

    ghost invariant = { λ c. KnowsOwn c.joined };
}

impl From<AllocError> for OpenFault {
    ghost use Rattle.std.specs.Prelude.{◌≡◌};
    ghost use Rattle.enc_chain.specs.declared.chain.OpenFault.TheVariants.{Memory};

    ghost from_gives = { λ _ fault. fault ≡ Memory };

    fn from(_: AllocError) -> OpenFault {
        OpenFault::Memory
    }
}

/// The base of a file's bytes.
fn read_base(alloc: Global, bytes: Vec<u8>) -> Result<Image, OpenFault>
    ensures { OpensBase result (base_of bytes.items) }
{
    match Image::read(alloc, bytes) {
        Ok(image) => Ok(image),
        Err(ReadFault::Memory) => Err(OpenFault::Memory),
        Err(ReadFault::Refused(refusal)) => Err(OpenFault::Base(refusal)),
    }
}

/// The PDB of a base, read with as many methods as the base has: `Refused` names the first rule that it breaks.
pub fn read_pdb(alloc: Global, image: &Image, bytes: Vec<u8>) -> Result<Pdb, ReadFault>
    ensures { ReadsPdb result (pdb_of bytes.items (method_count (chain_of_base image.now))) }
{
    Pdb::read(alloc, bytes, image.count(METHOD_DEF))
}

/// The same, with the fault of one that opens a chain.
fn pdb_for(alloc: Global, image: &Image, bytes: Vec<u8>) -> Result<Pdb, OpenFault>
    ensures { OpensPdb result (pdb_of bytes.items (method_count (chain_of_base image.now))) }
{
    match read_pdb(alloc, image, bytes) {
        Ok(pdb) => Ok(pdb),
        Err(ReadFault::Memory) => Err(OpenFault::Memory),
        Err(ReadFault::Refused(refusal)) => Err(OpenFault::Pdb(refusal)),
    }
}

/// A base with its PDB, where it has one.
fn begin_with(alloc: Global, image: Image, pdb: Option<Vec<u8>>) -> Result<Chain, OpenFault>
    ensures { OpensChain result (chain_opened_with (Ok image) (option_map (λ b. b.items) pdb)) }
{
    within_law();
    let Some(bytes) = pdb else {
        return Ok(Chain::begin(alloc, image, None)?);
    };
    let pdb = pdb_for(alloc, &image, bytes)?;
    Ok(Chain::begin(alloc, image, Some(pdb))?)
}

impl Chain {
    /// A base without deltas, and its PDB, where it has one, which knows methods of the base alone.
    pub fn begin(alloc: Global, image: Image, pdb: Option<Pdb>) -> Result<Chain, AllocError>
        requires { KnowsWithin (pdb_begun pdb) (method_count (chain_of_base image)) }
        ensures { IfOk result (λ c. followed c ≡ chain_begun image pdb) }
    {
        let joined = Joined::begin(alloc, image, pdb)?;
        Ok(Chain { joined })
    }

    /// Judges a base and its PDB, where it has one. The fault names the first rule that the base breaks, or else the
    /// first that its PDB breaks.
    #[tactic(auto, unfolding(crate::specs::Opened::chain_opened))]
    pub fn open(alloc: Global, bytes: Vec<u8>, pdb: Option<Vec<u8>>) -> Result<Chain, OpenFault>
        ensures { OpensChain result (chain_opened bytes.items (option_map (λ b. b.items) pdb)) }
    {
        let image = read_base(alloc, bytes)?;
        begin_with(alloc, image, pdb)
    }

    /// The base and the deltas, joined: each row, text and body of the module.
    pub fn rows(&self) -> &Aggregate
        ensures { result.now ≡ self.now.rows }
    {
        self.joined.rows()
    }

    /// The PDB of the base and what the deltas say of sequence points, joined.
    pub fn points(&self) -> &PdbChain
        ensures { result.now ≡ self.now.points }
    {
        self.joined.points()
    }

    /// The module and its sequence points after the first so many deltas.
    pub fn at(&self, generation: u32) -> Generation<'_>
        requires { generation ≤ length self.now.rows.deltas }
        ensures rows { result.rows ≡ earlier_of generation self.now.rows }
        ensures points { result.points ≡ earlier_pdb generation self.now.points }
    {
        self.joined.at(generation)
    }

    /// What always holds of it, as a law: the PDBs know methods of the module alone, and what they say goes with the
    /// deltas.
    pub fn holds(&self)
        ensures { IsWholeChain self.now }
    {
        self.joined.go();
    }

    /// Judges the files of a delta after the deltas before it. `Refused` names the first rule that they break, as
    /// `enc_checker::check` does. Nothing changes.
    pub fn check(&self, alloc: Global, files: Files) -> Result<Checked, ReadFault>
        ensures answer { Answers result (judged (chain_of_all self.now.rows)
            (delta_of files.meta.items files.il.items) (option_map (λ b. b.items) files.pdb)) }
        ensures accepted { IfOk result (λ c. IsAcceptedAfter (chain_of_all self.now.rows) c.delta c.pdb) }
    {
        self.joined.check(alloc, files)
    }

    /// Judges the files of a delta after the deltas before it, and adds it where they break no rule. `Refused` names
    /// the first rule that they break; then, and where memory runs out, nothing changes.
    pub fn apply(&mut self, alloc: Global, files: Files) -> Result<(), ReadFault>
        ensures { IsAppliedTo (followed self.old) (followed self.new) result (judged (chain_of_all self.old.rows)
            (delta_of files.meta.items files.il.items) (option_map (λ b. b.items) files.pdb)) }
    {
        within_law();
        let checked = self.joined.check(alloc, files)?;
        let prepared = self.joined.prepare(alloc, checked)?;
        self.joined.commit(prepared);
        Ok(())
    }
}
