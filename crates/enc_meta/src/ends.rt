//! Where the texts of a `#Strings` end, found once for all questions whether a text stands at an
//! offset.
ghost use Rattle.std.specs.Prelude.{◌≡◌, ◌≤◌, length, Ok};
ghost use Rattle.enc_meta.specs.Root.{root_of};
ghost use Rattle.enc_meta.specs.Heaps.{filled, counted_strings, to_last_zero, text_ends, ends_of};

use crate::root::Root;

/// How many bytes of a `#Strings` count, and how many of these stand up to and with the last zero,
/// 0 where there is none. A text begins at an offset exactly where the offset is less than that.
#[derive(Clone, Copy, Debug, PartialEq, Eq)]
pub struct TextEnds {
    pub counted: usize,
    pub last: usize,
}

/// How many bytes stand up to the last that isn't zero.
#[tactic(auto, using(crate::proofs::Bytes::filled_less, crate::proofs::Bytes::filled_there))]
fn filled(heap: &[u8]) -> usize
    ensures { result ≡ filled heap.now }
{
    let mut len = heap.len();
    while len > 0 && heap[len - 1] == 0 {
        len -= 1;
    }
    len
}

/// How many bytes stand up to and with the last zero.
#[tactic(auto, using(crate::proofs::Texts::last_less, crate::proofs::Texts::last_there))]
fn to_last_zero(heap: &[u8]) -> usize
    ensures { result ≡ to_last_zero heap.now }
{
    let mut len = heap.len();
    while len > 0 && heap[len - 1] != 0 {
        len -= 1;
    }
    len
}

/// The ends of a `#Strings`.
#[tactic(auto, using(crate::proofs::Texts::ends_filled, crate::proofs::Texts::ends_open))]
fn text_ends(heap: &[u8]) -> TextEnds
    ensures { result ≡ text_ends heap.now }
{
    let len = filled(heap);
    if len < heap.len() {
        TextEnds {
            counted: len + 1,
            last: len + 1,
        }
    } else {
        TextEnds {
            counted: heap.len(),
            last: to_last_zero(heap),
        }
    }
}

/// The bytes of a `#Strings` that count: of the zeros at its end only the first.
#[tactic(auto, using(crate::proofs::Texts::counted_front))]
pub fn counted_strings(heap: &[u8], ends: TextEnds) -> &[u8]
    requires { ends ≡ text_ends heap.now }
    ensures counted { result.now ≡ counted_strings heap.now }
    ensures few { length result.now ≤ length heap.now }
    ensures last { ends.last ≡ to_last_zero result.now }
{
    &heap[..ends.counted]
}

impl TextEnds {
    /// The ends of the `#Strings` of the root that was read from these bytes. It goes over the heap
    /// from its end: over the zeros there, or where there are none over the bytes behind the last
    /// zero.
    #[tactic(auto, unfolding(crate::specs::Heaps::ends_of))]
    pub fn of(bytes: &[u8], root: &Root) -> TextEnds
        requires { root_of bytes.now ≡ Ok root.now }
        ensures { result ≡ ends_of bytes.now root.now }
    {
        text_ends(root.strings.part(bytes))
    }
}
