//! How far the way out of protected code goes.

/// How far the way out of protected code goes, which finally and fault clauses stand on.
#[derive(Clone, Copy, Debug, PartialEq, Eq)]
pub enum WayOut {
    /// To an offset of the same body, by `leave`: fault clauses don't run, nor do those that protect the
    /// offset.
    Leave(u32),
    /// Up to the clause with this number, which takes the thrown object.
    Before(u32),
    /// Out of the body.
    All,
}
