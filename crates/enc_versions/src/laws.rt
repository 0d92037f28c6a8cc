//! What the definitions of this crate mean, as the contract of a function that does nothing.
ghost use Rattle.enc_versions.specs.Laws.{CommitStands};

/// Newest bodies that stand for a module and its PDB, after those were committed that a delta brings,
/// stand for the module and the PDB with the delta.
#[tactic(auto, using(crate::proofs::AfterCommit::commit_stands))]
pub fn commit_law()
    ensures { CommitStands }
{}
