//! What the index keeps of each signature of local variables.
use enc_objects::Kind;

/// Of a signature the kinds of its first local variables, None where there is none (ECMA-335 II.23.2.6).
#[derive(Clone, Copy, Debug, PartialEq, Eq)]
pub struct LocalsPart {
    /// By the variables' numbers.
    pub kinds: [Option<Kind>; 8],
}
