//! What the definitions of this crate mean, each as the contract of a function that does nothing.
ghost use Rattle.enc_c.specs.Asked.{PointsAreThePdbs};
ghost use Rattle.enc_c.specs.Reasons.{NumbersAreTheReasons, WordsStandInLines};

/// What the numbers of a refusal say is that refusal, of whatever kind.
pub fn numbers_law()
    ensures { NumbersAreTheReasons }
{}

/// The words of a refusal are what the program prints behind the file's name.
pub fn words_law()
    ensures { WordsStandInLines }
{}

/// The points and the documents that are told of a method are those of the plain PDB after all deltas.
pub fn points_law()
    ensures { PointsAreThePdbs }
{}
