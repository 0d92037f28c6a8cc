//! The heaps whose entries go by offsets.
ghost use Rattle.std.specs.Prelude.{◌≡◌, ◌*◌, ◌/◌, length, take};
ghost use Rattle.std.specs.Option.{option_copied};
ghost use Rattle.enc_meta.specs.HeapKinds.{bytes_in, heap_entry, own_at, length_in, stream_counted};

use crate::heaps::{HeapLengths, Heaps};
use enc_base::StreamName;

/// A heap whose entries go by offsets (ECMA-335 II.24.2.3, II.24.2.4). Of `#GUID` the entries are
/// counted.
#[derive(Clone, Copy, Debug, PartialEq, Eq)]
pub enum Heap {
    /// `#Strings`
    Strings,
    /// `#US`
    Users,
    /// `#Blob`
    Blobs,
}

/// The bytes of the whole entries of a `#GUID`.
fn whole_entries(guids: &[u8]) -> &[u8]
    ensures { result.now ≡ take (length guids.now / 16 * 16) guids.now }
{
    &guids[..guids.len() / 16 * 16]
}

impl<'a> Heaps<'a> {
    /// The bytes of a stream that count: of `#Strings` up to the zero of its last text, of `#US` and
    /// `#Blob` all, of `#GUID` the whole entries, and of a stream that is no heap none.
    pub fn bytes(&self, stream: StreamName) -> &'a [u8]
        ensures { result.now ≡ stream_counted stream self.now }
    {
        match stream {
            StreamName::Strings => self.strings(),
            StreamName::Users => self.users(),
            StreamName::Blobs => self.blobs(),
            StreamName::Guids => whole_entries(self.guids()),
            _ => &[],
        }
    }

    /// The bytes of a heap that count.
    pub fn counted(&self, heap: Heap) -> &'a [u8]
        ensures { result.now ≡ bytes_in heap self.now }
    {
        match heap {
            Heap::Strings => self.strings(),
            Heap::Users => self.users(),
            Heap::Blobs => self.blobs(),
        }
    }

    /// The entry that begins at an offset of a heap, also at offset 0 as it stands there: a text
    /// without its zero, the bytes of a user text's units, or a blob's bytes. None where none stands
    /// whole there.
    pub fn entry(&self, heap: Heap, offset: u32) -> Option<&'a [u8]>
        ensures { option_copied result ≡ heap_entry heap (bytes_in heap self.now) offset }
    {
        match heap {
            Heap::Strings => self.text_entry(offset),
            Heap::Users => self.user_entry(offset),
            Heap::Blobs => self.blob_entry(offset),
        }
    }

    /// The entry at an offset of a heap: empty at offset 0, None where none stands whole there.
    pub fn at(&self, heap: Heap, offset: u32) -> Option<&'a [u8]>
        ensures { option_copied result ≡ own_at heap (bytes_in heap self.now) offset }
    {
        match heap {
            Heap::Strings => self.text(offset),
            Heap::Users => self.user(offset),
            Heap::Blobs => self.blob(offset),
        }
    }
}

impl HeapLengths {
    /// How many bytes a heap has.
    pub fn of(&self, heap: Heap) -> u32
        ensures { result ≡ length_in heap self.now }
    {
        match heap {
            Heap::Strings => self.strings,
            Heap::Users => self.users,
            Heap::Blobs => self.blobs,
        }
    }
}
