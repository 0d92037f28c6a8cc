//! The joined heaps after a delta stay within their limits.
ghost use Rattle.std.specs.Prelude.{◌≡◌, ◌+◌, ◌*◌, ◌^◌, ◌==◌, ◌||◌, not, nat_lt};
ghost use Rattle.enc_delta.specs.Rules.{last_byte, heap_fault, strings_break, users_break, blobs_break, guids_break};

use crate::context::Context;
use enc_base::{Place, StreamName};
use enc_plain::ChainView;

/// So many bytes and so many more pass a limit.
fn passes(limit: u64, before: u32, more: usize) -> bool
    ensures { result ≡ nat_lt limit (before + more) }
{
    let before = u64::from(before);
    before > limit || more as u64 > limit - before
}

/// The last byte isn't 0.
fn has_open_end(heap: &[u8]) -> bool
    ensures { result ≡ not (last_byte heap.now == 0) }
{
    match heap.last() {
        Some(byte) => *byte != 0,
        None => false,
    }
}

/// `#Strings` passes its limit after the delta, or the delta's doesn't end with a 0.
#[tactic(auto, using(crate::proofs::HeapLimits::strings_after))]
fn strings_break<C: ChainView>(context: &Context<'_, C>) -> bool
    ensures { result ≡ strings_break context.now.chain context.now.delta }
{
    let heap = context.delta.heaps().strings();
    passes(0x2000_0000, context.known.before.strings, heap.len()) || has_open_end(heap)
}

/// `#US` passes its limit after the delta.
#[tactic(auto, using(crate::proofs::HeapLimits::users_after))]
fn users_break<C: ChainView>(context: &Context<'_, C>) -> bool
    ensures { result ≡ users_break context.now.chain context.now.delta }
{
    passes(
        0x100_0000,
        context.known.before.users,
        context.delta.heaps().users().len(),
    )
}

/// `#Blob` passes its limit after the delta.
#[tactic(auto, using(crate::proofs::HeapLimits::blobs_after))]
fn blobs_break<C: ChainView>(context: &Context<'_, C>) -> bool
    ensures { result ≡ blobs_break context.now.chain context.now.delta }
{
    passes(
        0x2000_0000,
        context.known.before.blobs,
        context.delta.blobs().len(),
    )
}

/// These entries pass the limit, or are fewer than before.
fn guids_fault(before: u32, own: usize) -> bool
    ensures { result ≡ (nat_lt own before || nat_lt (2 ^ 29) (16 * own)) }
{
    own < before as usize || own > 0x200_0000
}

/// `#GUID` passes its limit after the delta, or the delta's has fewer entries than before.
#[tactic(auto, using(crate::proofs::HeapLimits::guids_after))]
fn guids_break<C: ChainView>(context: &Context<'_, C>) -> bool
    ensures { result ≡ guids_break context.now.chain context.now.delta }
{
    guids_fault(
        context.known.before.guids,
        context.delta.heaps().guids().len() / 16,
    )
}

/// A joined heap passes its limit, `#Strings` doesn't end with a 0, or `#GUID` has fewer
/// entries than before.
#[tactic(auto, unfolding(crate::specs::Rules::heap_fault))]
pub fn heap_fault<C: ChainView>(context: &Context<'_, C>) -> Option<Place>
    ensures { result ≡ heap_fault context.now.chain context.now.delta }
{
    if strings_break(context) {
        return Some(Place::Stream(StreamName::Strings));
    }
    if users_break(context) {
        return Some(Place::Stream(StreamName::Users));
    }
    if blobs_break(context) {
        return Some(Place::Stream(StreamName::Blobs));
    }
    if guids_break(context) {
        return Some(Place::Stream(StreamName::Guids));
    }
    None
}
