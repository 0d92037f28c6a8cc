use enc_base::Token;

/// What came of a remap.
#[derive(Clone, Copy, Debug, PartialEq, Eq)]
pub enum Remapped {
    /// The innermost frame goes on in the newest body of its method.
    Moved {
        /// Its method.
        method: Token,
        /// The offset at which it stood.
        from: u32,
        /// The offset at which it goes on.
        to: u32,
    },
    /// The number of the first rule that is broken, Q1 to Q7; nothing changed.
    Refused(u8),
}
