//! What a step shows.
ghost use Rattle.std.specs.Prelude.{◌≡◌, None};

use enc_base::{Token, Units};

/// What a step shows.
#[derive(Drop)]
pub struct Seen {
    /// The start line of the sequence point at which the step began, None where it began at none, or at a
    /// hidden one.
    pub line: Option<u32>,
    /// The method that was entered.
    pub entered: Option<Token>,
    /// The method whose frame was left.
    pub left: Option<Token>,
    /// The UTF-16 units that were written.
    pub wrote: Option<Units>,
}

impl Seen {
    /// Nothing.
    pub fn nothing() -> Seen
        ensures { result ≡ record { line = None; entered = None; left = None; wrote = None } }
    {
        Seen {
            line: None,
            entered: None,
            left: None,
            wrote: None,
        }
    }
}
