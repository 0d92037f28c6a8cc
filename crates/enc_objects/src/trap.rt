/// Why a task stops in front of an instruction. Where several hold, the first in this order is told.
#[derive(Clone, Copy, Debug, PartialEq, Eq)]
pub enum Trap {
    /// No instruction at the offset.
    X1,
    /// An instruction, or the type or signature of what it names, that the interpreter doesn't run, or a number of
    /// an argument or local that isn't there.
    X2,
    /// Too few values on the stack.
    X3,
    /// A value of a wrong kind.
    X4,
    /// A null reference.
    X5,
    /// A division by zero.
    X6,
    /// An overflow: a checked result that doesn't fit, the least integer divided by -1, an array of negative length.
    X7,
    /// An index past an array or a text.
    X8,
    /// An object that isn't of the class.
    X9,
    /// A method without a body, or with one that the interpreter doesn't run.
    X10,
    /// Too many frames.
    X11,
    /// No room for objects.
    X12,
    /// More values on the stack than the method says.
    X13,
    /// An object that was thrown.
    X14,
}
