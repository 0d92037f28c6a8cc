//! What stands for a base with the deltas that follow it, and what is made ready of one delta more.
ghost use Rattle.std.specs.Prelude.{◌≡◌, [], IfOk};
ghost use Rattle.enc_agg.specs.Extend.{extended};
ghost use Rattle.enc_agg.specs.Seen.{chain_of_all, module_of_all, users_of_all};
ghost use Rattle.enc_chain.specs.Kept.{IsAcceptedAfter, IsReadyFor};
ghost use Rattle.enc_checker.specs.Followed.{followed_by};
ghost use Rattle.enc_checker.specs.Check.{accepted};
ghost use Rattle.enc_dispatch.specs.Changed.{IsChangedBy};
ghost use Rattle.enc_dispatch.specs.Index.{StandsForModule};
ghost use Rattle.enc_dispatch.specs.Ready.{IsPreparedFor};
ghost use Rattle.enc_dispatch.specs.Stored.{with_room};
ghost use Rattle.enc_opcodes.specs.Body.{KeepsTexts};
ghost use Rattle.enc_session.specs.Engine.{AreParts, IsDeltaReady, SayTheSame, followed_in};

use crate::codes::new_codes;
use crate::laws::{changed_law, codes_law};
use enc_base::Token;
use enc_chain::{Joined, Prepared as ReadyDelta};
use enc_checker::Checked;
use enc_dispatch::{Dispatch, NewDispatch};
use enc_image::Image;
use enc_ppdb::Pdb;
use enc_versions::{NewVersions, Versions, commit_law};
use std::alloc::{AllocError, Global};

/// A base with the deltas that follow it: their files, their sequence points, the newest body of each method, and
/// the index of virtual methods.
#[derive(Drop)]
pub(crate) struct Parts {
    pub(crate) joined: Joined,
    pub(crate) versions: Versions,
    pub(crate) dispatch: Dispatch,
}

/// A delta for which all memory is taken.
#[derive(Drop)]
pub(crate) struct Prepared {
    pub(crate) delta: ReadyDelta,
    pub(crate) versions: NewVersions,
    pub(crate) dispatch: NewDispatch,
}

/// Makes the index ready for the module with a delta that was made ready.
fn index_ready(
    alloc: Global,
    joined: &Joined,
    delta: &ReadyDelta,
    dispatch: &mut Dispatch,
    changed: &[Token],
) -> Result<NewDispatch, AllocError>
    requires ready { IsReadyFor joined.now delta.now }
    requires stands { StandsForModule dispatch.old (module_of_all joined.now.rows) }
    requires changed { IsChangedBy (module_of_all joined.now.rows)
        (extended (chain_of_all joined.now.rows) delta.now.rows.delta).plain changed.now }
    ensures kept { dispatch.new ≡ with_room dispatch.new.room dispatch.old }
    ensures ready { IfOk result (λ n. IsPreparedFor dispatch.new n
        (extended (chain_of_all joined.now.rows) delta.now.rows.delta).plain) }
{
    let after = joined.after(delta);
    joined.rows().sound();
    after.sound();
    dispatch.prepare_changed(alloc, joined.rows(), &after, changed)
}

impl Parts {
    /// A base and its PDB, where it has one.
    pub(crate) fn begin(alloc: Global, image: Image, pdb: Option<Pdb>) -> Result<Parts, AllocError>
        ensures followed { IfOk result
            (λ p. followed_in p ≡ record { base = image; deltas = []; debug = pdb; debugs = [] }) }
        ensures parts { IfOk result AreParts }
    {
        let joined = Joined::begin(alloc, image, pdb)?;
        joined.rows().sound();
        let versions = Versions::begin(alloc, joined.rows(), joined.points())?;
        let dispatch = Dispatch::begin(alloc, joined.rows())?;
        Ok(Parts {
            joined,
            versions,
            dispatch,
        })
    }

    /// Takes all memory for an accepted delta. Nothing that is seen changes.
    pub(crate) fn prepare(
        &mut self,
        alloc: Global,
        checked: Checked,
    ) -> Result<Prepared, AllocError>
        requires parts { AreParts self.old }
        requires follows { IsAcceptedAfter (chain_of_all self.old.joined.rows) checked.delta checked.pdb }
        ensures same { SayTheSame self.new self.old }
        ensures ready { IfOk result (IsDeltaReady self.new checked.delta checked.pdb) }
    {
        changed_law();
        self.joined.rows().sound();
        let codes = new_codes(alloc, &checked.delta, &checked.pdb)?;
        let tokens = checked.delta.tokens(alloc)?;
        let versions = self.versions.prepare(codes)?;
        let delta = self.joined.prepare(alloc, checked)?;
        let dispatch = index_ready(alloc, &self.joined, &delta, &mut self.dispatch, &tokens)?;
        Ok(Prepared {
            delta,
            versions,
            dispatch,
        })
    }

    /// Adds a delta for which all memory is taken. It takes no more and can't fail.
    pub(crate) fn commit(&mut self, prepared: Prepared)
        requires parts { AreParts self.old }
        requires ready { IsDeltaReady self.old prepared.delta.rows.delta prepared.delta.pdb prepared }
        ensures followed { followed_in self.new
            ≡ followed_by (followed_in self.old) (accepted prepared.delta.rows.delta prepared.delta.pdb) }
        ensures parts { AreParts self.new }
        ensures texts { KeepsTexts (users_of_all self.old.joined.rows) (users_of_all self.new.joined.rows) }
    {
        codes_law();
        commit_law();
        self.joined.rows().sound();
        let Prepared {
            delta,
            versions,
            dispatch,
        } = prepared;
        self.joined.commit(delta);
        self.versions.commit(versions);
        self.dispatch.commit(dispatch);
    }
}
