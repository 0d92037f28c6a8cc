//! The joined heaps of a chain with the heaps of one file more behind them.
ghost use Rattle.std.specs.Prelude.{◌≡◌, [], ◌∷◌, ◌++◌, is_some, option_copied};
ghost use Rattle.enc_meta.specs.HeapKinds.{joined_at};
ghost use Rattle.enc_meta.specs.Joined.{joined_text, joined_guid, joined_lengths};

use enc_meta::{Heap, HeapLengths, Heaps};
use enc_plain::ChainView;

/// The entry at an offset of a joined heap with one heap more behind the chain's, None where the
/// offset isn't good. `before` has the lengths of the chain's joined heaps.
pub fn entry_after<'a, C: ChainView>(
    chain: &'a C,
    heaps: &Heaps<'a>,
    before: &HeapLengths,
    heap: Heap,
    offset: u32,
) -> Option<&'a [u8]>
    requires tied { before.now ≡ joined_lengths (C.chain chain.now).heaps }
    ensures { option_copied result ≡ joined_at heap ((C.chain chain.now).heaps ++ heaps.now ∷ []) offset }
{
    if offset == 0 {
        return Some(&[]);
    }
    let older = before.of(heap);
    if offset < older {
        return chain.entry_at(heap, offset);
    }
    heaps.entry(heap, offset - older)
}

/// Whether a text stands at an offset of the joined `#Strings` with one heap more behind the
/// chain's. It reads no text. `before` has the lengths of the chain's joined heaps.
pub fn has_text_after<C: ChainView>(
    chain: &C,
    heaps: &Heaps<'_>,
    before: &HeapLengths,
    offset: u32,
) -> bool
    requires tied { before.now ≡ joined_lengths (C.chain chain.now).heaps }
    ensures { result ≡ is_some (joined_text ((C.chain chain.now).heaps ++ heaps.now ∷ []) offset) }
{
    if offset == 0 {
        return true;
    }
    let strings = before.strings;
    if offset < strings {
        return chain.has_text(offset);
    }
    heaps.has_text_entry(offset - strings)
}

/// Entry k of the joined `#GUID` with one heap more: the chain's, or else that heap's.
#[tactic(auto, using(crate::proofs::OneHeapMore::guid_behind))]
pub fn guid_after<C: ChainView>(chain: &C, heaps: &Heaps<'_>, k: u32) -> Option<[u8; 16]>
    ensures { result ≡ joined_guid ((C.chain chain.now).heaps ++ heaps.now ∷ []) k }
{
    match chain.guid_at(k) {
        Some(guid) => Some(guid),
        None => heaps.guid(k),
    }
}
