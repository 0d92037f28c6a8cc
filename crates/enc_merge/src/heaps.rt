//! The heaps and the code of the delta that stands for two.
ghost use Rattle.std.specs.Prelude.{◌≡◌, ◌++◌, IfOk};
ghost use Rattle.enc_meta.specs.BuiltSeen.{heap_bytes_seen};
ghost use Rattle.enc_meta.specs.HeapKinds.{stream_counted};
ghost use Rattle.enc_merged_delta.specs.Held.{il_merged as merged_il};
ghost use Rattle.enc_merged_delta.specs.Merged.{guids_joined};
ghost use Rattle.enc_merge.specs.Writing.{heaps_put};

use crate::last::{Last, in_fours};
use enc_base::{Bytes, StreamName, push_zeros};
use enc_meta::HeapBytes;
use enc_plain::ChainView;
use std::alloc::{AllocError, Global};

/// The bytes of a heap of both, one behind the other.
fn joined(alloc: Global, last: &Last<'_>, stream: StreamName) -> Result<Bytes, AllocError>
    ensures { IfOk result (λ b. b ≡ stream_counted stream last.now.first.heaps
        ++ stream_counted stream last.now.second.heaps) }
{
    let mut bytes = Vec::new(alloc);
    bytes.extend_from_slice(last.first_heap(stream))?;
    bytes.extend_from_slice(last.second_heap(stream))?;
    Ok(Bytes::from_vec(bytes))
}

/// Each entry of the joined `#GUID`, from the first generation that has it.
fn guids<C: ChainView>(alloc: Global, chain: &C) -> Result<Bytes, AllocError>
    ensures { IfOk result (λ b. b ≡ guids_joined (C.chain chain.now).heaps) }
{
    let mut bytes = Vec::new(alloc);
    for k in 0..chain.lengths().guids {
        match chain.guid_at(k + 1) {
            Some(guid) => bytes.extend_from_slice(&guid)?,
            None => unreachable!(),
        }
    }
    Ok(Bytes::from_vec(bytes))
}

/// The heaps.
#[tactic(auto, unfolding(crate::specs::Writing::heaps_put))]
pub(crate) fn heaps_merged(alloc: Global, last: &Last<'_>) -> Result<HeapBytes, AllocError>
    ensures { IfOk result (λ h. heap_bytes_seen h ≡ heaps_put last.now) }
{
    Ok(HeapBytes {
        strings: joined(alloc, last, StreamName::Strings)?,
        users: joined(alloc, last, StreamName::Users)?,
        blobs: joined(alloc, last, StreamName::Blobs)?,
        guids: guids(alloc, last.agg)?,
    })
}

/// The code of the first, and that of the second at the next multiple of four.
#[tactic(auto, unfolding(enc_merged_delta::specs::Held::il_merged))]
pub(crate) fn il_merged(alloc: Global, last: &Last<'_>) -> Result<Vec<u8>, AllocError>
    ensures { IfOk result (λ il. il.items ≡ merged_il last.now.first last.now.second) }
{
    let first = last.first.il();
    let mut il = Vec::new(alloc);
    il.extend_from_slice(first)?;
    push_zeros(in_fours(first.len()) - first.len(), &mut il)?;
    il.extend_from_slice(last.second.il())?;
    Ok(il)
}
