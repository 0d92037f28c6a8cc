//! What a signature is of, and why one isn't read.

/// What a signature is of (ECMA-335 II.23.2).
#[derive(Clone, Copy, Debug, PartialEq, Eq)]
pub enum SigKind {
    /// A method: of MethodDef, MemberRef, or StandAloneSig for a `calli` (II.23.2.1 to II.23.2.3).
    Method,
    /// A field (II.23.2.4).
    Field,
    /// The local variables of a method's body (II.23.2.6).
    Locals,
    /// A property (II.23.2.5).
    Property,
    /// A type by itself (II.23.2.14).
    TypeSpec,
    /// The arguments of a generic method (II.23.2.15).
    MethodSpec,
}

/// How deep types may stand in one another.
pub(crate) const DEPTH: u32 = 100;

/// Why a signature isn't read: there is no memory, or the blob is outside the grammar.
#[derive(Clone, Copy, Debug, PartialEq, Eq)]
pub enum SigFault {
    Memory,
    Grammar,
}
