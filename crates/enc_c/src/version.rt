//! The call that tells the library's release.
ghost use Rattle.std.specs.Prelude.{◌≡◌};
ghost use Rattle.enc_c.specs.Version.{release_number};

/// Tells the release: its major number in the upper half, its minor one in the byte behind it, its patch in the lowest.
#[unsafe(no_mangle)]
pub extern "C" fn enc_version() -> u32
    ensures { result ≡ release_number 0 9 0 }
{
    0x0000_0900
}
