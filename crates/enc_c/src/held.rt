//! What an open handle holds.
ghost use Rattle.std.specs.Prelude.{◌≡◌, Ok};
ghost use Rattle.enc_plain.specs.SoundDebug.{KnowsWithin};
ghost use Rattle.enc_image.specs.Base.{chain_of_base};
ghost use Rattle.enc_ppdb.specs.PdbChain.{pdb_begun};
ghost use Rattle.enc_checker.specs.Within.{method_count};
ghost use Rattle.enc_c.specs.State.{begun_state, state_with_pdb, opened_state, applied_state, is_short_delta};
ghost use Rattle.enc_c.specs.Outcomes.{bytes_held, ReadsState, Becomes};

use enc_base::ReadFault;
use enc_chain::{Chain, read_pdb};
use enc_checker::{Files, within_law};
use enc_image::Image;
use enc_merge::short_law;
use enc_ppdb::Pdb;
use std::alloc::Global;
use std::marker::Model;

/// The most bytes of the metadata and of the code of a delta that may be merged.
const MOST_TO_MERGE: usize = 1 << 26;

/// A base with the deltas that follow it, and what their PDBs say.
#[derive(Drop)]
pub struct Held {
    pub(crate) chain: Chain,
    /// Whether all deltas are short enough to be merged.
    pub(crate) short: bool,
}

impl Model for Held {
    ghost use Rattle.enc_chain.specs.Kept.{followed};
    ghost use Rattle.enc_c.specs.State.{State};
    ghost use Rattle.enc_c.specs.Kept.{IsKept};

    ghost Value = { State };

    ghost view = { λ h. record { followed = followed h.chain; short = h.short } };

    ghost invariant = { λ h. IsKept (record { followed = followed h.chain; short = h.short }) };
}

/// A base without deltas.
fn begin(alloc: Global, image: Image, pdb: Option<Pdb>) -> Result<Held, ReadFault>
    requires { KnowsWithin (pdb_begun pdb) (method_count (chain_of_base image)) }
    ensures { ReadsState result (Ok (begun_state image pdb)) }
{
    let chain = Chain::begin(alloc, image, pdb)?;
    Ok(Held { chain, short: true })
}

/// A base with its PDB, where it has one.
fn begin_with(alloc: Global, image: Image, pdb: Option<Vec<u8>>) -> Result<Held, ReadFault>
    ensures { ReadsState result (state_with_pdb image (bytes_held pdb)) }
{
    within_law();
    let Some(bytes) = pdb else {
        return begin(alloc, image, None);
    };
    let pdb = read_pdb(alloc, &image, bytes)?;
    begin(alloc, image, Some(pdb))
}

/// Whether the files of a delta are short enough to be merged.
#[tactic(auto, unfolding(crate::specs::State::is_short_delta))]
fn is_short(files: &Files) -> bool
    ensures { result ≡ is_short_delta files.now.meta.items files.now.il.items }
{
    files.meta.len() <= MOST_TO_MERGE && files.il.len() <= MOST_TO_MERGE
}

impl Held {
    /// Judges a base and its PDB. `Refused` names the first rule that they break; a base may have no PDB.
    #[tactic(auto, unfolding(crate::specs::State::opened_state))]
    pub fn open(alloc: Global, bytes: Vec<u8>, pdb: Option<Vec<u8>>) -> Result<Held, ReadFault>
        ensures { ReadsState result (opened_state bytes.items (bytes_held pdb)) }
    {
        let image = Image::read(alloc, bytes)?;
        begin_with(alloc, image, pdb)
    }

    /// Judges the files of a delta after those before it, and adds it where they break no rule.
    /// `Refused` names the first rule that they break. Where it isn't added, nothing changes.
    #[tactic(auto, unfolding(crate::specs::State::applied_state))]
    pub fn apply(&mut self, alloc: Global, files: Files) -> Result<(), ReadFault>
        ensures { Becomes self.old self.new result
            (applied_state self.old files.meta.items files.il.items (bytes_held files.pdb)) }
    {
        short_law();
        let short = is_short(&files);
        self.chain.apply(alloc, files)?;
        self.short = self.short && short;
        Ok(())
    }
}
