//! What lasts when a module is edited, as the contracts of functions that do nothing.
ghost use Rattle.enc_reference_depth.specs.Kept.{KeptTwice, LayoutsLast, SlotsLast, TwinsAreMutual, TwinsLast};

/// Rows that two edits keep, one after the other, are kept by both.
pub fn kept_by_both_law()
    ensures { KeptTwice }
{}

/// Members are twins after an edit where they were before.
pub fn twins_last_law()
    ensures { TwinsLast }
{}

/// Twins are twins of one another.
pub fn twins_are_mutual_law()
    ensures { TwinsAreMutual }
{}

/// A new field keeps its place in its type.
pub fn layouts_last_law()
    ensures { LayoutsLast }
{}

/// A new virtual method keeps its slot.
pub fn slots_last_law()
    ensures { SlotsLast }
{}
