//! What the definitions of this crate mean, each as the contract of a function that does nothing.
ghost use Rattle.enc_plain.specs.AlikeLaws.{EachIsAlikeItself, NoneIsAlikeByAnother, AbsentIsAlikeItselfAlone};

/// Each token is alike itself; a TypeRef is alike none of another name or namespace (ECMA-335
/// II.22.38); and a token that names no row is alike itself alone.
pub fn likeness_laws()
    ensures itself { EachIsAlikeItself }
    ensures name { NoneIsAlikeByAnother 1 }
    ensures namespace { NoneIsAlikeByAnother 2 }
    ensures absent { AbsentIsAlikeItselfAlone }
{}
