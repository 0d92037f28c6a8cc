//! What the report of a cover says as a whole, as the contract of a function that does nothing.
ghost use Rattle.enc_watch.specs.Laws.{HitsAreTimesHeard, HitsAreInOrder};

/// A cover tells each line of a method that was heard, and no other, with how often it was heard, each once, in the
/// order of token and line.
pub fn cover_laws()
    ensures times { HitsAreTimesHeard }
    ensures order { HitsAreInOrder }
{}
