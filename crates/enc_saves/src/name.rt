//! The names of files.
ghost use Rattle.std.specs.Prelude.{◌≡◌, ◌++◌, IfOk, string_bytes};

use std::alloc::{AllocError, Global};

/// The name of a file: a word and its ending.
pub fn name_of(alloc: Global, word: &str, ending: &str) -> Result<String, AllocError>
    ensures { IfOk result (λ name. string_bytes name ≡ word.now ++ ending.now) }
{
    let mut name = String::from_str(alloc, word)?;
    name.push_str(ending)?;
    Ok(name)
}
