//! The offsets of values that the heaps have already.
ghost use Rattle.std.specs.Prelude.{◌≡◌, ◌<◌, ◌^◌, ◌%◌, ◌==◌, true, Some, length, not, IsTrue, IfOk};
ghost use Rattle.std.specs.List.{list_any};
ghost use Rattle.enc_meta.specs.Built.{is_kept, is_guid_kept, heaps_built};
ghost use Rattle.enc_meta.specs.Heaps.{text_at, user_at, blob_at, guid_at};
ghost use Rattle.enc_rewriter.specs.Values.{no_starts};

use enc_meta::{BuildFault, HeapBuilder};
use std::alloc::AllocError;

/// The offset of a text that is there.
#[tactic(auto, using(crate::proofs::KeptValues::text_kept, crate::proofs::KeptValues::text_told))]
pub(crate) fn text_offset(heaps: &mut HeapBuilder, text: &[u8]) -> Result<u32, AllocError>
    requires starts { heaps.old.starts ≡ no_starts }
    requires clean { IsTrue (not (list_any (λ c. c == 0) text.now)) }
    requires kept { is_kept heaps.old.texts text.now ≡ true }
    ensures offset { IfOk result (λ x. text_at (heaps_built heaps.old).strings x ≡ Some text.now) }
    ensures same { heaps.new ≡ heaps.old }
{
    heaps.laws();
    match heaps.add_text(text) {
        Ok(offset) => Ok(offset),
        Err(BuildFault::Memory) => Err(AllocError),
        Err(BuildFault::TooLarge(_)) => unreachable!(),
    }
}

/// The offset of a user text that is there, by its units.
#[tactic(auto, using(crate::proofs::KeptValues::user_steps))]
pub(crate) fn user_offset(heaps: &mut HeapBuilder, units: &[u8]) -> Result<u32, AllocError>
    requires starts { heaps.old.starts ≡ no_starts }
    requires even { length units.now % 2 ≡ 0 }
    requires kept { is_kept heaps.old.users units.now ≡ true }
    ensures offset { IfOk result (λ x. user_at (heaps_built heaps.old).users x ≡ Some units.now) }
    ensures low { IfOk result (λ x. x < 2 ^ 24) }
    ensures same { heaps.new ≡ heaps.old }
{
    heaps.laws();
    match heaps.add_units(units) {
        Ok(offset) => Ok(offset),
        Err(BuildFault::Memory) => Err(AllocError),
        Err(BuildFault::TooLarge(_)) => unreachable!(),
    }
}

/// The offset of a blob that is there.
#[tactic(auto, using(crate::proofs::KeptValues::blob_kept, crate::proofs::KeptValues::blob_told))]
pub(crate) fn blob_offset(heaps: &mut HeapBuilder, blob: &[u8]) -> Result<u32, AllocError>
    requires starts { heaps.old.starts ≡ no_starts }
    requires kept { is_kept heaps.old.blobs blob.now ≡ true }
    ensures offset { IfOk result (λ x. blob_at (heaps_built heaps.old).blobs x ≡ Some blob.now) }
    ensures same { heaps.new ≡ heaps.old }
{
    heaps.laws();
    match heaps.add_blob(blob) {
        Ok(offset) => Ok(offset),
        Err(BuildFault::Memory) => Err(AllocError),
        Err(BuildFault::TooLarge(_)) => unreachable!(),
    }
}

/// The number of a GUID that is there.
#[tactic(auto, using(crate::proofs::KeptValues::guid_kept, crate::proofs::KeptValues::guid_told))]
pub(crate) fn guid_number(heaps: &mut HeapBuilder, guid: [u8; 16]) -> Result<u32, AllocError>
    requires starts { heaps.old.starts ≡ no_starts }
    requires kept { is_guid_kept heaps.old.guids guid ≡ true }
    ensures number { IfOk result (λ x. guid_at (heaps_built heaps.old).guids x ≡ Some guid) }
    ensures same { heaps.new ≡ heaps.old }
{
    heaps.laws();
    match heaps.add_guid(guid) {
        Ok(number) => Ok(number),
        Err(BuildFault::Memory) => Err(AllocError),
        Err(BuildFault::TooLarge(_)) => unreachable!(),
    }
}
