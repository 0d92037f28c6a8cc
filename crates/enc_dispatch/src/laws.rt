//! What the definitions of this crate mean, each as the contract of a function that does nothing.
ghost use Rattle.enc_dispatch.specs.Laws.{SlotsTellMethods, EachClassExtendsItself};

/// Methods have one slot just where their names are equal and their signatures alike.
pub fn slot_law()
    ensures { SlotsTellMethods }
{}

/// Each class extends itself, in no step.
pub fn path_law()
    ensures { EachClassExtendsItself }
{}
