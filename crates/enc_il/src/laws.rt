//! What the instructions of a code are, as the contract of a function that does nothing.
ghost use Rattle.enc_il.specs.Judged.{ReadIsChain, ChainIsRead};
ghost use Rattle.enc_il.specs.Written.{BodyIsRead, ClausesAreRead};

/// Code that is whole instructions is one list of them, one behind the other, and no other.
pub fn body_law()
    ensures read { ReadIsChain }
    ensures only { ChainIsRead }
{}

/// A body that was written is read back, whatever stands before and behind it.
pub fn written_body_law()
    ensures { BodyIsRead }
{}

/// The clauses of sections that were written are read back, as long as their numbers fit.
pub fn written_clauses_law()
    ensures { ClausesAreRead }
{}
