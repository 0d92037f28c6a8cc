ghost use Rattle.std.specs.Prelude.{◌≡◌, ◌≤◌, length, take};

/// Where something stands in a file: bytes from its beginning, and how many bytes.
#[derive(Clone, Copy, Debug, PartialEq, Eq)]
pub struct Span {
    pub start: usize,
    pub len: usize,
}

/// The first bytes, or all where there are fewer.
fn front_of(bytes: &[u8], len: usize) -> &[u8]
    ensures { result.now ≡ take len bytes.now }
{
    bytes.get(..len).unwrap_or(bytes)
}

impl Span {
    ghost use Rattle.enc_meta.specs.Heaps.{part};

    /// The bytes of the range, as far as they stand in the file.
    #[tactic(auto, unfolding(crate::specs::Heaps::part))]
    pub fn part(self, bytes: &[u8]) -> &[u8]
        ensures part { result.now ≡ part bytes.now self }
        ensures few { length result.now ≤ length bytes.now }
    {
        match bytes.get(self.start..) {
            Some(rest) => front_of(rest, self.len),
            None => &[],
        }
    }
}
