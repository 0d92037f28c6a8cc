//! What the PDB of a delta that says an edit list means, as the contracts of functions that do nothing.
ghost use Rattle.enc_pdb_writer.specs.Laws.{NoneIsMisplaced, PdbsAreEdited};

/// With it the plain PDB is that of the edits made directly.
pub fn pdbs_are_edited_law()
    ensures { PdbsAreEdited }
{}

/// Its rows go with the methods that the edits give bodies.
pub fn none_is_misplaced_law()
    ensures { NoneIsMisplaced }
{}
