//! What a chain's plain PDB knows, as the contract of a function that does nothing.
ghost use Rattle.enc_checker.specs.Within.{BaseKnowsWithin, DeltaKnowsWithin};

/// The plain PDB of a base, and that of a base and its deltas, knows only methods of the module: of
/// any other token nothing is known.
pub fn within_law()
    ensures base { BaseKnowsWithin }
    ensures delta { DeltaKnowsWithin }
{}
