//! What a body keeps when its tokens are moved, as the contract of a function that does nothing.
ghost use Rattle.enc_token_map.specs.Laws.{MovedStaysSound, MovedKeepsTexts};

/// A sound body stays sound where tokens that are named go to such, and its user texts stay the same.
pub fn moved_body_law()
    ensures sound { MovedStaysSound }
    ensures texts { MovedKeepsTexts }
{}
