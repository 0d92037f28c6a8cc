//! What edits leave as it was, as the contract of a function that does nothing.
ghost use Rattle.enc_memory_module.specs.Kept.{ListsKeepSound};

/// A list that breaks no rule leaves a sound module sound.
pub fn lists_keep_sound_law()
    ensures { ListsKeepSound }
{}
