//! What an instruction is for.
use enc_base::Token;
use enc_objects::{Kind, Value};

/// A comparison by which a branch goes (ECMA-335 III.3.5 to III.3.15).
#[derive(Clone, Copy, Debug, PartialEq, Eq)]
pub enum Test {
    Eq,
    Ge,
    Gt,
    Le,
    Lt,
    NeUn,
    GeUn,
    GtUn,
    LeUn,
    LtUn,
}

/// What an instruction does to its frame alone, apart from those on one or two values and from `switch`.
#[derive(Clone, Copy, Debug, PartialEq, Eq)]
pub enum FrameAct {
    /// `nop`, `break`.
    Nothing,
    /// `ldarg` of an argument, from 0.
    LoadArg(u32),
    /// `starg`.
    StoreArg(u32),
    /// `ldloc` of a local variable, from 0.
    LoadLocal(u32),
    /// `stloc`.
    StoreLocal(u32),
    /// `ldnull`, `ldc.i4`, `ldc.i8`.
    Constant(Value),
    /// `dup`.
    Duplicate,
    /// `pop`.
    Discard,
    /// `br` to an offset.
    Branch(u32),
    /// `brtrue`, `brfalse` to an offset.
    BranchIf(bool, u32),
    /// A branch by a comparison.
    BranchBy(Test, u32),
    /// `leave` to an offset.
    Leave(u32),
}

/// What an instruction does to objects and its frame, apart from `ldstr`.
#[derive(Clone, Copy, Debug, PartialEq, Eq)]
pub enum ObjectAct {
    /// `ldfld`.
    LoadField(Token),
    /// `stfld`.
    StoreField(Token),
    /// `newarr` of a type.
    NewArray(Token),
    /// `ldlen`.
    Length,
    /// `ldelem` of a kind, and of a type.
    LoadElement(Kind),
    LoadElementOf(Token),
    /// `stelem` of a kind, and of a type.
    StoreElement(Kind),
    StoreElementOf(Token),
    /// `castclass`.
    Cast(Token),
    /// `isinst`.
    IsInstance(Token),
}

/// What an instruction of the interpreter is for.
#[derive(Clone, Copy, Debug, PartialEq, Eq)]
pub enum Act {
    /// It changes its frame alone.
    Frame(FrameAct),
    /// It changes its frame and objects.
    Object(ObjectAct),
    /// `ret`.
    Return,
    /// `call`.
    Call(Token),
    /// `callvirt`.
    CallVirtual(Token),
    /// `newobj`.
    NewObject(Token),
    /// `ldsfld`.
    LoadStatic(Token),
    /// `stsfld`.
    StoreStatic(Token),
    /// `throw`.
    Throw,
    /// `endfinally`.
    EndFinally,
}
