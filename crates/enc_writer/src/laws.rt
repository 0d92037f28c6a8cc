//! What holds of a delta's PDB that says an edit list, as the contracts of functions that do nothing.
ghost use Rattle.enc_writer.specs.PdbFollows.{PointsCanBeWritten, PdbsFollow, PdbsOfListsMean};

/// The points of a list that breaks no rule can be written.
pub(crate) fn points_law()
    ensures { PointsCanBeWritten }
{}

/// The PDB goes with the delta.
pub(crate) fn pdbs_follow_law()
    ensures { PdbsFollow }
{}

/// With it a plain PDB is the one with all edits made directly.
pub(crate) fn pdbs_mean_law()
    ensures { PdbsOfListsMean }
{}
