//! A base and its PDB with the deltas that follow it, whatever the PDB is of.
ghost use Rattle.std.specs.Prelude.{◌≡◌, ◌≤◌, ◌<◌, None, IfOk, length, option_map};
ghost use Rattle.enc_ppdb.specs.PdbChain.{earlier_pdb};
ghost use Rattle.enc_opcodes.specs.Body.{KeepsTexts};
ghost use Rattle.enc_delta.specs.Delta.{delta_of};
ghost use Rattle.enc_delta.specs.Judged.{first_meta};
ghost use Rattle.enc_agg.specs.Earlier.{earlier_of};
ghost use Rattle.enc_agg.specs.Extend.{extended};
ghost use Rattle.enc_agg.specs.Next.{chain_of_next, history_of_next, with_delta};
ghost use Rattle.enc_agg.specs.Seen.{chain_of_all, users_of_all};
ghost use Rattle.enc_checker.specs.Check.{accepted, judged};
ghost use Rattle.enc_checker.specs.Followed.{followed_by};
ghost use Rattle.enc_checker.specs.Seen.{Answers};
ghost use Rattle.enc_chain.specs.Goes.{AllGo};
ghost use Rattle.enc_chain.specs.Opened.{chain_begun};
ghost use Rattle.enc_chain.specs.Kept.{IsAcceptedAfter, IsReadyFor, IsRowsReady, IsSameHistory, followed};

use crate::prepared::Prepared;
use enc_agg::{After, Aggregate, Earlier, Ready};
use enc_base::{ReadFault, Steps};
use enc_checker::{Checked, Files, check, new_bodies};
use enc_delta::Delta;
use enc_image::Image;
use enc_ppdb::{EarlierPdb, Pdb, PdbChain};
use std::alloc::{AllocError, Global};
use std::marker::{Brand, Model};
use std::sync::ledger::{Blank, Ledger};

/// A base and a PDB, where it has one, with the deltas that were accepted after the base. The PDB may be any: a
/// `Chain` is one whose PDB was read for its base.
#[derive(Drop)]
pub struct Joined {
    rows: Aggregate,
    points: PdbChain,
}

impl Model for Joined {
    ghost use Rattle.enc_chain.specs.Goes.{AllGo};
    ghost use Rattle.enc_chain.specs.Kept.{Kept};

    ghost Value = { Kept };

    ghost view = { λ c. record { rows = c.rows; points = c.points } };

    ghost invariant = { λ c. AllGo c.rows.deltas c.points.deltas };
}

/// The module and its sequence points after some of the deltas.
#[derive(Drop)]
pub struct Generation<'a> {
    /// The module.
    pub rows: Earlier<'a>,
    /// Its sequence points.
    pub points: EarlierPdb<'a>,
}

/// The rows of a delta made ready, the steps counted in a ledger of their own.
fn ready_of<L: Ledger>(
    rows: &mut Aggregate,
    delta: Delta,
    blank: Blank,
) -> Result<Ready, AllocError>
    requires name { blank.name ≡ L.name }
    requires parts { blank.parts ≡ L.parts }
    requires some { 0 < L.parts }
    requires rules { first_meta (chain_of_all rows.old) delta ≡ None }
    ensures same { IsSameHistory rows.new rows.old }
    ensures ready { IfOk result (IsRowsReady rows.new delta) }
{
    let mut steps = Steps::<L>::begin(blank);
    rows.prepare(delta, &mut steps)
}

impl Joined {
    /// A base without deltas.
    #[tactic(auto, unfolding(crate::specs::Goes::AllGo))]
    pub fn begin(alloc: Global, image: Image, pdb: Option<Pdb>) -> Result<Joined, AllocError>
        ensures { IfOk result (λ j. followed j ≡ chain_begun image pdb) }
    {
        let rows = Aggregate::begin(alloc, image)?;
        let points = PdbChain::begin(alloc, pdb)?;
        Ok(Joined { rows, points })
    }

    /// The base and the deltas, joined: each row, text and body of the module.
    pub fn rows(&self) -> &Aggregate
        ensures { result.now ≡ self.now.rows }
    {
        &self.rows
    }

    /// The PDB of the base and what the deltas say of sequence points, joined.
    pub fn points(&self) -> &PdbChain
        ensures { result.now ≡ self.now.points }
    {
        &self.points
    }

    /// The module and its sequence points after the first so many deltas.
    pub fn at(&self, generation: u32) -> Generation<'_>
        requires { generation ≤ length self.now.rows.deltas }
        ensures rows { result.rows ≡ earlier_of generation self.now.rows }
        ensures points { result.points ≡ earlier_pdb generation self.now.points }
    {
        Generation {
            rows: self.rows.at(generation),
            points: self.points.at(generation),
        }
    }

    /// What is said of sequence points goes with the deltas: a law, of which a caller makes use.
    pub fn go(&self)
        ensures { AllGo self.now.rows.deltas self.now.points.deltas }
    {
        let _ = &self.rows;
    }

    /// Judges the files of a delta after the deltas before it. `Refused` names the first rule that they break, as
    /// `enc_checker::check` does. Nothing changes.
    pub fn check(&self, alloc: Global, files: Files) -> Result<Checked, ReadFault>
        ensures answer { Answers result (judged (chain_of_all self.now.rows)
            (delta_of files.meta.items files.il.items) (option_map (λ b. b.items) files.pdb)) }
        ensures accepted { IfOk result (λ c. IsAcceptedAfter (chain_of_all self.now.rows) c.delta c.pdb) }
    {
        let checked = check(alloc, &self.rows, files)?;
        checked.delta.was_read();
        Ok(checked)
    }

    /// Takes all memory for an accepted delta. Nothing that is seen changes.
    pub fn prepare(&mut self, alloc: Global, checked: Checked) -> Result<Prepared, AllocError>
        requires { IsAcceptedAfter (chain_of_all self.old.rows) checked.delta checked.pdb }
        ensures same { followed self.new ≡ followed self.old }
        ensures ready { IfOk result (IsReadyFor self.new) }
        ensures delta { IfOk result (λ x. accepted x.rows.delta x.pdb ≡ accepted checked.delta checked.pdb) }
    {
        let Checked { delta, pdb } = checked;
        let changed = new_bodies(alloc, &delta)?;
        self.points.reserve()?;
        let told = self.points.told(alloc, &pdb, &changed)?;
        let rows = ready_of::<Brand>(&mut self.rows, delta, Blank::new(1))?;
        Ok(Prepared {
            rows,
            pdb,
            changed,
            told,
        })
    }

    /// The module with a delta that was made ready, before it is committed.
    pub fn after<'a>(&'a self, prepared: &'a Prepared) -> After<'a>
        requires { IsReadyFor self.now prepared.now }
        ensures history { history_of_next result ≡ with_delta self.now.rows prepared.now.rows.delta }
        ensures chain { chain_of_next result ≡ extended (chain_of_all self.now.rows) prepared.now.rows.delta }
    {
        self.rows.after(&prepared.rows)
    }

    /// Adds a delta that was made ready. It takes no memory and can't fail.
    pub fn commit(&mut self, prepared: Prepared)
        requires { IsReadyFor self.old prepared }
        ensures followed { followed self.new
            ≡ followed_by (followed self.old) (accepted prepared.rows.delta prepared.pdb) }
        ensures chain { chain_of_all self.new.rows
            ≡ extended (chain_of_all self.old.rows) prepared.rows.delta }
        ensures texts { KeepsTexts (users_of_all self.old.rows) (users_of_all self.new.rows) }
    {
        let Prepared {
            rows,
            pdb,
            changed,
            told,
        } = prepared;
        self.rows.commit(rows);
        self.points.add(pdb, changed, told);
    }
}
