//! What the definitions of this crate mean, each as the contract of a function that does nothing.
ghost use Rattle.enc_session.specs.Codes.{AcceptedBodiesAreNew, AcceptedRowsAreChanged, OtherBodiesStay};

/// The bodies that an accepted delta brings, with the points of its PDB, are those by which newest bodies that stand
/// for a module and its PDB stand for both with the delta.
pub fn codes_law()
    ensures { AcceptedBodiesAreNew }
{}

/// The module with an accepted delta comes of the module before it by the rows that the delta lists: each other row
/// says what it said, and new children stand behind those that were there.
pub fn changed_law()
    ensures { AcceptedRowsAreChanged }
{}

/// An accepted delta that brings a method no body leaves its newest body and its points as they are: what the
/// generation of a frame of a `Recording` means.
pub fn generations_law()
    ensures { OtherBodiesStay }
{}
