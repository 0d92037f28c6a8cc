//! What every case has, each as the contract of a function that does nothing.
ghost use Rattle.enc_generator.specs.Laws.{GeneratedFits, GeneratedLie, GeneratedTellsNothing, GeneratedMayApply, BaseIsLittle, GeneratedObeys, GeneratedStaysLittle, GeneratedIsLight};

/// Each list of a case is of the form and has no points, and may be applied to the module that stands before it: the
/// base with the lists before it made directly, one after the other.
pub fn generated_laws()
    ensures fit { GeneratedFits }
    ensures points { GeneratedLie }
    ensures silent { GeneratedTellsNothing }
    ensures apply { GeneratedMayApply }
{}

/// A case is little: the base, whatever is drawn; and no list of it breaks a rule behind those before it, no heap of
/// its deltas comes near a limit, and the module with the first of its lists can be written.
pub fn case_laws()
    ensures base { BaseIsLittle }
    ensures obeys { GeneratedObeys }
    ensures little { GeneratedStaysLittle }
    ensures light { GeneratedIsLight }
{}
