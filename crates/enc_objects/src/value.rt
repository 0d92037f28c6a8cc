/// What stands on the evaluation stack, in an argument, a local, a field or an element (ECMA-335 III.1.1).
#[derive(Clone, Copy, Debug, PartialEq, Eq)]
pub enum Value {
    /// An integer of 32 bits.
    I4(i32),
    /// An integer of 64 bits.
    I8(i64),
    /// The null reference.
    Null,
    /// A reference to the object of this number, from 1.
    Obj(u32),
}
