use crate::token::Token;
use std::alloc::AllocError;

/// The number of the rule that a file breaks: F for a file by itself, E for a delta after its
/// chain.
#[derive(Clone, Copy, Debug, PartialEq, Eq)]
pub enum Code {
    F(u8),
    E(u8),
}

/// The streams of a metadata root that are known by name (ECMA-335 II.24.2.2, Portable PDB).
#[derive(Clone, Copy, Debug, PartialEq, Eq)]
pub enum StreamName {
    /// `#~`
    Compressed,
    /// `#-`
    Uncompressed,
    /// `#Strings`
    Strings,
    /// `#US`
    Users,
    /// `#Blob`
    Blobs,
    /// `#GUID`
    Guids,
    /// `#Pdb`
    Pdb,
    /// `#JTD`
    Jtd,
}

/// Where in a file a rule is broken.
#[derive(Clone, Copy, Debug, PartialEq, Eq)]
pub enum Place {
    Root,
    Stream(StreamName),
    Headers,
    Cli,
    Metadata,
    Resources,
    Debug,
    Tables,
    Pdb,
    Row(Token),
    /// A cell: its row and its column, from 0 in the order of the standard.
    Cell(Token, u8),
    /// A child row whose owner isn't one.
    Owner(Token),
    /// An entry of EncLog, from 1.
    Log(u32),
}

/// The first rule that a file breaks, and where.
#[derive(Clone, Copy, Debug, PartialEq, Eq)]
pub struct Refusal {
    pub code: Code,
    pub place: Place,
}

/// Why a file wasn't read: there is no memory, or the file is refused.
#[derive(Clone, Copy, Debug, PartialEq, Eq)]
pub enum ReadFault {
    Memory,
    Refused(Refusal),
}

impl From<AllocError> for ReadFault {
    ghost use Rattle.std.specs.Prelude.{◌≡◌};
    ghost use Rattle.enc_base.specs.declared.refusal.ReadFault.TheVariants.{Memory};

    ghost from_gives = { λ _ e. e ≡ Memory };

    fn from(_: AllocError) -> ReadFault {
        ReadFault::Memory
    }
}
