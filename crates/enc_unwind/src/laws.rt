//! What the definitions of this crate mean, each as the contract of a function that does nothing.
ghost use Rattle.enc_unwind.specs.Example.{ExampleCatches, ExampleRuns};
ghost use Rattle.enc_unwind.specs.Laws.{FirstCatches, NoneCatchesUnheld, FirstRuns, FinallyRunsAtLeave, BasesCatch};

/// The clauses that the searches find are the first that catch or run, and a `leave` runs finally
/// clauses alone, and none that protects where it goes (ECMA-335 I.12.4.2.5, III.3.46).
pub fn search_laws()
    ensures catches { FirstCatches }
    ensures unheld { NoneCatchesUnheld }
    ensures runs { FirstRuns }
    ensures leave { FinallyRunsAtLeave }
{}

/// An object is caught by its class and by each class that this one extends (ECMA-335 III.4.31).
#[tactic(auto, using(crate::proofs::Bases::bases_catch))]
pub fn caught_law()
    ensures { BasesCatch }
{}

/// The searches over the example's clauses find what is written down: the definitions compute it.
#[tactic(auto, using(crate::proofs::Example::example_catches, crate::proofs::Example::example_runs))]
pub fn example_searches()
    ensures catches { ExampleCatches }
    ensures runs { ExampleRuns }
{}
