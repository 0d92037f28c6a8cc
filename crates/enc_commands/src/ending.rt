//! How a call ended.
ghost use Rattle.std.specs.Prelude.{◌≡◌};
ghost use Rattle.enc_commands.specs.Ending.{number_of_outcome, number_of_ending};

use crate::plan::Outcome;

/// What a call came to.
#[derive(Clone, Copy, Debug, PartialEq, Eq)]
pub enum Ending {
    /// All was saved and printed.
    Whole(Outcome),
    /// Memory ran out.
    Memory,
    /// The store failed.
    StoreFault,
    /// The sink failed.
    SinkFault,
}

impl Outcome {
    fn number(self) -> u8
        ensures { result ≡ number_of_outcome self }
    {
        match self {
            Outcome::Accepted => 0,
            Outcome::Refused => 1,
            Outcome::Usage => 2,
            Outcome::Missing => 6,
        }
    }
}

impl Ending {
    /// The status.
    pub fn number(self) -> u8
        ensures { result ≡ number_of_ending self }
    {
        match self {
            Ending::Whole(outcome) => outcome.number(),
            Ending::Memory => 3,
            Ending::StoreFault => 4,
            Ending::SinkFault => 5,
        }
    }
}
