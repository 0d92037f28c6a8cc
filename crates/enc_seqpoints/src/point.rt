//! A sequence point, and why points aren't read or written.
use std::alloc::{AllocError, AllocFailed};

/// A sequence point (Portable PDB v1.0, Sequence Points Blob).
#[derive(Clone, Copy, Debug, PartialEq, Eq)]
pub struct Point {
    /// The offset of its instruction in the method's code, in bytes.
    pub offset: u32,
    /// The row of its document, from 1.
    pub document: u32,
    /// Start line, start column, end line and end column; None of a hidden point.
    pub lines: Option<(u32, u32, u32, u32)>,
}

/// Why points aren't read: there is no memory, or the blob is outside the grammar.
#[derive(Clone, Copy, Debug, PartialEq, Eq)]
pub enum PointFault {
    Memory,
    Grammar,
}

/// Why points aren't written: there is no memory, or the point at this index is the first that the
/// grammar can't spell behind those before it.
#[derive(Clone, Copy, Debug, PartialEq, Eq)]
pub enum WriteFault {
    Memory,
    NotWritable(usize),
}

impl<T: Drop> From<AllocFailed<T>> for PointFault {
    ghost use Rattle.std.specs.Prelude.{◌≡◌};
    ghost use Rattle.enc_seqpoints.specs.declared.point.PointFault.TheVariants.{Memory};

    ghost from_gives = { λ _ e. e ≡ Memory };

    fn from(_error: AllocFailed<T>) -> PointFault {
        PointFault::Memory
    }
}

impl From<AllocError> for WriteFault {
    ghost use Rattle.std.specs.Prelude.{◌≡◌};
    ghost use Rattle.enc_seqpoints.specs.declared.point.WriteFault.TheVariants.{Memory};

    ghost from_gives = { λ _ e. e ≡ Memory };

    fn from(_error: AllocError) -> WriteFault {
        WriteFault::Memory
    }
}
