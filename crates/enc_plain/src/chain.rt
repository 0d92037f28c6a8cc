//! A view of a chain: the module after all deltas, and what their files' heaps hold together.
ghost use Rattle.std.specs.Prelude.{◌≡◌, ℕ, ◌+◌, ◌<◌, length, is_some, option_copied};
ghost use Rattle.enc_meta.specs.Joined.{joined_text, joined_blob, joined_user, joined_guid, joined_lengths};
ghost use Rattle.enc_meta.specs.HeapKinds.{joined_at};
ghost use Rattle.enc_plain.specs.Module.{Module};
ghost use Rattle.enc_plain.specs.Chain.{Chain, id_of};

use crate::view::ModuleView;
use enc_meta::{Heap, HeapLengths};

/// Whatever means one chain: a base and the deltas applied to it. As a view of a module it means the
/// plain module of that chain, and its user texts are those of the joined `#US`. Generations count
/// from 0, the base. None of these calls takes memory.
pub trait ChainView: ModuleView {
    // The chain that is meant.
    ghost chain: { Self → Chain };

    /// The number of generations, the base among them.
    fn generations(&self) -> u32
        ensures count { result ≡ length (chain self.now).ids + 1 }
        ensures heaps { result ≡ length (chain self.now).heaps };

    /// The EncId of a generation, sixteen zeros for the base.
    fn enc_id(&self, generation: u32) -> [u8; 16]
        requires { generation < length (chain self.now).heaps }
        ensures { result ≡ id_of (chain self.now) generation };

    /// How many bytes of `#Strings`, `#US` and `#Blob` the generations have together, and how many
    /// entries of `#GUID` can be read.
    fn lengths(&self) -> HeapLengths
        ensures { result ≡ joined_lengths (chain self.now).heaps };

    /// The entry at an offset of a joined heap, None where the offset isn't good.
    fn entry_at(&self, heap: Heap, offset: u32) -> Option<&[u8]>
        ensures { option_copied result ≡ joined_at heap (chain self.now).heaps offset };

    /// The text at an offset of the joined `#Strings`, None where the offset isn't good.
    fn text_at(&self, offset: u32) -> Option<&[u8]>
        ensures { option_copied result ≡ joined_text (chain self.now).heaps offset }
    {
        self.entry_at(Heap::Strings, offset)
    }

    /// The bytes at an offset of the joined `#Blob`, None where the offset isn't good.
    fn blob_at(&self, offset: u32) -> Option<&[u8]>
        ensures { option_copied result ≡ joined_blob (chain self.now).heaps offset }
    {
        self.entry_at(Heap::Blobs, offset)
    }

    /// Whether a text stands at an offset of the joined `#Strings`; asks no more than where heaps
    /// end.
    fn has_text(&self, offset: u32) -> bool
        ensures { result ≡ is_some (joined_text (chain self.now).heaps offset) };

    /// Entry k of the joined `#GUID`, from the first generation that has it; None where none has.
    fn guid_at(&self, k: u32) -> Option<[u8; 16]>
        ensures { result ≡ joined_guid (chain self.now).heaps k };

    // The module is that of the chain.
    ghost means: { (c : Self) → Self.meaning c ≡ (chain c).plain };

    // The user texts are those of the joined `#US`.
    ghost tells: { (c : Self) (offset : ℕ) → Self.users c offset ≡ joined_user (chain c).heaps offset };

    // The blobs are those of the joined `#Blob`, each at its offset.
    ghost joins: { (c : Self) (offset : ℕ) → Self.stored c offset ≡ joined_blob (chain c).heaps offset };
}
