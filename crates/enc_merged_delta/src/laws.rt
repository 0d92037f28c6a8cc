//! What holds of a delta that stands for two, as the contracts of functions that do nothing.
ghost use Rattle.enc_merged_delta.specs.Held.{NumbersAreHeld};
ghost use Rattle.enc_merged_delta.specs.Laws.{MergedFollows, MergedIsNamed, MergedMeans, PairsAreOfBoth, RowsAreOfBoth};

/// It breaks no rule of its metadata after the chain that the two follow.
pub fn merged_follows_law()
    ensures { MergedFollows }
{}

/// The rows after it are those after both.
pub fn rows_are_of_both_law()
    ensures { RowsAreOfBoth }
{}

/// It attaches the children that the first does, and then those that the second does.
pub fn pairs_are_of_both_law()
    ensures { PairsAreOfBoth }
{}

/// It makes the module that both make.
pub fn merged_means_law()
    ensures { MergedMeans }
{}

/// Its EncId is the second's.
pub fn merged_is_named_law()
    ensures { MergedIsNamed }
{}

/// The moved numbers of the newest row of each token say what it has after both.
pub fn numbers_are_held_law()
    ensures { NumbersAreHeld }
{}
