//! What the definitions of this crate mean, each as the contract of a function that does
//! nothing.
ghost use Rattle.enc_agg.specs.Laws.{ChainsAreSound, DeltaKeepsSound, MembersAreTheModules, RowsAreTheModules};

/// The rows and members that a delta's rules speak of are those of the plain module after the delta:
/// where its lists, tables, indices and offsets break no rule, each token has the cells there by
/// which it is judged, and each owner the children among which siblings are looked for.
pub fn judged_rows_law()
    ensures rows { RowsAreTheModules }
    ensures members { MembersAreTheModules }
{}

/// A delta that breaks no rule after a chain whose plain module is sound leaves it sound.
pub fn delta_keeps_sound_law()
    ensures { DeltaKeepsSound }
{}

/// Deltas that follow one another leave it sound, each after those before it.
pub fn chains_are_sound_law()
    ensures { ChainsAreSound }
{}
