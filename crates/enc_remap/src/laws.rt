//! What the definitions of this crate mean, as the contract of a function that does nothing.
ghost use Rattle.enc_remap.specs.Laws.{NewestMayBeMovedTo, StandWithSomePdb};

/// The newest body of a method of a sound module is one to which a frame of that method may be moved, at each of its
/// instructions (ECMA-335 III.1.7.2): so the machine's frames stay placed, whatever is remapped.
pub fn newest_law()
    ensures { NewestMayBeMovedTo }
{}

/// Where the versions are bodies of a module, as `remap` asks, there is a PDB for which they stand with it: so what
/// `remap` says of each such PDB is said of one at least.
pub fn some_pdb_law()
    ensures { StandWithSomePdb }
{}
