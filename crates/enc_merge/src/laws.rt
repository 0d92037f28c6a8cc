//! How long deltas are, as the contract of a function that does nothing.
ghost use Rattle.enc_merge.specs.Merges.{ReadIsShort};

/// A delta that was read from files of at most 2^26 bytes is as short: so `merge_last` may be called where all were.
pub fn short_law()
    ensures { ReadIsShort }
{}
