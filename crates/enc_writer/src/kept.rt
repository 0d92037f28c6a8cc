//! The offsets of values that the heaps of a delta have already.
ghost use Rattle.std.specs.Prelude.{◌≡◌, ◌==◌, ◌<◌, ◌^◌, true, List, Some, not, IsTrue, IfOk};
ghost use Rattle.std.specs.List.{list_any};
ghost use Rattle.enc_meta.specs.Built.{is_kept};
ghost use Rattle.enc_meta.specs.BuiltLaws.{ArePast, heaps_joined};
ghost use Rattle.enc_meta.specs.Joined.{joined_text, joined_blob};
ghost use Rattle.enc_meta.specs.Heaps.{Counted};

use enc_meta::{BuildFault, HeapBuilder};
use std::alloc::AllocError;

/// The offset of a text that is there.
#[tactic(auto, using(enc_rewriter::proofs::KeptValues::text_kept, enc_meta::proofs::BuiltMeanings::texts_are_read))]
pub(crate) fn text_offset(heaps: &mut HeapBuilder, text: &[u8]) -> Result<u32, AllocError>
    requires clean { IsTrue (not (list_any (λ c. c == 0) text.now)) }
    requires kept { is_kept heaps.old.texts text.now ≡ true }
    ensures offset { IfOk result (λ x. (before : List Counted) → ArePast before heaps.old.starts
        → joined_text (heaps_joined before heaps.old) x ≡ Some text.now) }
    ensures low { IfOk result (λ x. x < 2 ^ 32) }
    ensures same { heaps.new ≡ heaps.old }
{
    heaps.laws();
    match heaps.add_text(text) {
        Ok(offset) => Ok(offset),
        Err(BuildFault::Memory) => Err(AllocError),
        Err(BuildFault::TooLarge(_)) => unreachable!(),
    }
}

/// The offset of a blob that is there.
#[tactic(auto, using(enc_rewriter::proofs::KeptValues::blob_kept, enc_meta::proofs::BuiltMeanings::blobs_are_read))]
pub(crate) fn blob_offset(heaps: &mut HeapBuilder, blob: &[u8]) -> Result<u32, AllocError>
    requires kept { is_kept heaps.old.blobs blob.now ≡ true }
    ensures offset { IfOk result (λ x. (before : List Counted) → ArePast before heaps.old.starts
        → joined_blob (heaps_joined before heaps.old) x ≡ Some blob.now) }
    ensures low { IfOk result (λ x. x < 2 ^ 32) }
    ensures same { heaps.new ≡ heaps.old }
{
    heaps.laws();
    match heaps.add_blob(blob) {
        Ok(offset) => Ok(offset),
        Err(BuildFault::Memory) => Err(AllocError),
        Err(BuildFault::TooLarge(_)) => unreachable!(),
    }
}
