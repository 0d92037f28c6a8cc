//! The user texts that a code names.
ghost use Rattle.std.specs.Prelude.{◌≡◌, ℕ, ◌<◌, ◌^◌, List, Option, length, is_some};
ghost use Rattle.enc_opcodes.specs.Body.{text_is_there as is_text_there, texts_are_there as are_texts_there};
ghost use Rattle.enc_il.specs.Seen.{arg_seen};

use crate::instr::instr_at;
use enc_opcodes::{Arg, CodeRef};

/// User texts by their offsets.
pub trait UserTexts {
    // The bytes of the text at an offset, none where none stands there.
    ghost texts: { Self → ℕ → Option (List ℕ) };

    /// Whether a text stands at an offset.
    fn has_user(&self, offset: u32) -> bool
        ensures { result ≡ is_some (texts self.now offset) };
}

/// Whether the user text that an operand names is there.
fn text_is_there<T: UserTexts>(texts: &T, arg: &Arg<'_>) -> bool
    ensures { (end : ℕ) → result ≡ is_text_there (T.texts texts.now) (arg_seen end arg.now) }
{
    match *arg {
        Arg::User(offset) => texts.has_user(offset),
        _ => true,
    }
}

/// Whether each user text that the code names is there.
pub fn texts_are_there<T: UserTexts>(texts: &T, code: &CodeRef<'_>) -> bool
    requires few { length code.now.code.now < 2 ^ 32 }
    ensures { result ≡ are_texts_there (T.texts texts.now) code.now.code.now }
{
    let mut at = 0;
    while let Some((instr, end)) = instr_at(code, at) {
        if !text_is_there(texts, &instr.arg) {
            return false;
        }
        at = end;
    }
    true
}
