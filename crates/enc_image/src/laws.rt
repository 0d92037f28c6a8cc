//! What the definitions of this crate mean, as the contract of a function that does nothing.
ghost use Rattle.enc_image.specs.Laws.{BaseIsSound};

/// The plain module of a file that isn't refused is sound.
pub fn base_is_sound_law()
    ensures { BaseIsSound }
{}
