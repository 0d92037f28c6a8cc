//! Names of files.
ghost use Rattle.std.specs.Prelude.{◌≡◌};
ghost use Rattle.std.specs.List.{list_all};
ghost use Rattle.enc_jobs.specs.Scripts.{is_name_byte, is_name};

/// Whether a byte may stand in a name.
fn is_name_byte(b: u8) -> bool
    ensures { result ≡ is_name_byte b }
{
    b.is_ascii_alphanumeric() || matches!(b, b'_' | b'-' | b'.' | b'/')
}

/// Whether each byte may stand in a name.
fn are_name_bytes(bytes: &[u8]) -> bool
    ensures { result ≡ list_all is_name_byte bytes.now }
{
    for b in bytes {
        if !is_name_byte(*b) {
            return false;
        }
    }
    true
}

/// Whether a text is a name: 1 to 200 bytes, each an ASCII letter, a digit or one of `_ - . /`.
#[tactic(auto, unfolding(crate::specs::Scripts::is_name))]
pub fn is_name(text: &str) -> bool
    ensures { result ≡ is_name text.now }
{
    1 <= text.len() && text.len() <= 200 && are_name_bytes(text.as_bytes())
}
