//! What a command will save and print, before anything has happened.

use enc_saves::Save;

/// Which line of the table of statuses applies.
#[derive(Clone, Copy, Debug, PartialEq, Eq)]
pub enum Outcome {
    /// All is accepted.
    Accepted,
    /// A file is refused.
    Refused,
    /// The words are no command.
    Usage,
    /// A file that must be there is absent.
    Missing,
}

/// A whole answer: what is saved, in order, and then printed. A refusal is a plan too.
#[derive(Debug, Drop)]
pub struct Plan {
    pub outcome: Outcome,
    pub saves: Vec<Save>,
    pub output: Vec<u8>,
}
