//! Handlers that run, and objects that are on their way to one (ECMA-335 I.12.4.2).

/// An object that was thrown and is on its way to the clause that takes it.
#[derive(Clone, Copy, Debug, PartialEq, Eq)]
pub struct Flight {
    /// The number of the object.
    pub object: u32,
    /// The frame whose clause takes it, counted from the outermost, which is 0.
    pub frame: usize,
    /// The number of the clause in that frame's body, from 0.
    pub clause: u32,
    /// The offset in the innermost frame's body that it comes from.
    pub origin: u32,
    /// The last clause of that body that was tried on the way.
    pub tried: Option<u32>,
}

/// Why a handler runs.
#[derive(Clone, Copy, Debug, PartialEq, Eq)]
pub enum Reason {
    /// Protected code was left by `leave` to an offset.
    Leave(u32),
    /// An object is on its way.
    Flight(Flight),
}

/// A handler that runs in a frame.
#[derive(Clone, Copy, Debug, PartialEq, Eq)]
pub struct Running {
    /// The number of the clause, from 0.
    pub clause: u32,
    /// The offset that was left, or from which the object came.
    pub origin: u32,
    pub reason: Reason,
}
