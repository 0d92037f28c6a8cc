//! How long files may be, and what is written.

use enc_base::StreamName;

/// A limit that was passed.
#[derive(Clone, Copy, Debug, PartialEq, Eq)]
pub enum Limit {
    /// L1: of one file.
    Length,
    /// L2: of all files that are loaded.
    Total,
    /// L4: of a heap of the module that would be written, or of its PDB.
    Heap(StreamName),
    /// L4: of the image that would be written.
    Image,
}

/// The most bytes of a file.
pub const FILE_LIMIT: usize = 67_108_864;

/// The most bytes of all files that are loaded.
pub const TOTAL_LIMIT: usize = 536_870_912;
