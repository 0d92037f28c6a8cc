//! The members outside of the module that the interpreter knows.

/// A member of a type of the namespace System that the interpreter runs by itself.
#[derive(Clone, Copy, Debug, PartialEq, Eq)]
pub enum Outside {
    /// `Object..ctor()`.
    NewObject,
    /// `Exception..ctor()`.
    NewException,
    /// `Console.WriteLine()`.
    WriteLine,
    /// `Console.WriteLine(string)`.
    WriteLineText,
    /// `Console.WriteLine(int)`.
    WriteLineNumber,
    /// `Console.Write(string)`.
    WriteText,
    /// `String.Concat(string, string)`.
    ConcatTwo,
    /// `String.Concat(string, string, string)`.
    ConcatThree,
    /// `String.op_Equality(string, string)`.
    AreEqual,
    /// `String.get_Length()`.
    TextLength,
    /// `String.get_Chars(int)`.
    TextUnit,
}
