//! What holds of the delta of an edit list, as the contracts of functions that do nothing.
ghost use Rattle.enc_list_delta.specs.Laws.{DeltasAreRead, DeltasFollow, DeltasMean};

/// Parts that hold what a list states are read as a delta that says it.
pub fn deltas_are_read_law()
    ensures { DeltasAreRead }
{}

/// A delta that says what a list states breaks no rule of its metadata.
pub fn deltas_follow_law()
    ensures { DeltasFollow }
{}

/// And it makes the module with all edits made directly.
pub fn deltas_mean_law()
    ensures { DeltasMean }
{}
