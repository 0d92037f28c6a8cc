//! Words at the end of other bytes.
ghost use Rattle.std.specs.Prelude.{◌≡◌, ◌++◌, flat_map, OnOk};
ghost use Rattle.enc_pe.specs.Written.{word};

use enc_base::push_word;
use std::alloc::AllocError;

/// Appends numbers of four bytes.
pub fn push_words(words: &[u32], out: &mut Vec<u8>) -> Result<(), AllocError>
    ensures { OnOk result (out.new.items ≡ out.old.items ++ flat_map word words.now) }
{
    for n in words {
        push_word(*n, out)?;
    }
    Ok(())
}
