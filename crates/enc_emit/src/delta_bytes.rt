//! The files of a delta.
use enc_base::Bytes;

/// The bytes of a delta's three files.
#[derive(Drop)]
pub struct DeltaBytes {
    /// Its metadata, a root with a table stream `#-` and `#JTD` (ECMA-335 II.24.2.1).
    pub meta: Bytes,
    /// Its code: the bodies, each at the place that its method's RVA tells (ECMA-335 II.25.4).
    pub il: Bytes,
    /// Its Portable PDB.
    pub pdb: Bytes,
}
