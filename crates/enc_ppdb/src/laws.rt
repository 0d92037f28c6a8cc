//! What a PDB that is written means, as the contract of a function that does nothing.
ghost use Rattle.enc_ppdb.specs.PdbsMean.{PdbsMean};

/// A PDB that is written of a sound plain PDB's parts is read as that plain PDB: it isn't refused,
/// and each method has its local signature row and its points, each with its document.
pub fn pdb_means_law()
    ensures { PdbsMean }
{}
