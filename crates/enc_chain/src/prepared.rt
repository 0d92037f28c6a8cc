//! A delta for which all memory is taken.
use enc_agg::Ready;
use enc_ppdb::{Listings, MethodList, PdbDelta};

/// An accepted delta for which all memory is taken, so that `Joined::commit` can't fail.
#[derive(Drop)]
pub struct Prepared {
    /// Its rows, made ready for the aggregate.
    pub rows: Ready,
    /// Its PDB, where it has one.
    pub pdb: Option<PdbDelta>,
    /// The methods that have a new body in it.
    pub changed: MethodList,
    /// The methods of which it tells something, made ready for look-ups.
    pub told: Listings,
}
