//! What a delta came to.
use enc_base::Refusal;

/// What a delta came to.
#[derive(Clone, Copy, Debug, PartialEq, Eq)]
pub enum Applied {
    /// It was applied, and made this generation.
    Generation(u32),
    /// It is refused: the first rule that it breaks, and where. Nothing has changed.
    Refused(Refusal),
}
