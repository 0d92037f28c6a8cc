//! The heaps of a delta (ECMA-335 II.24.2.3 to II.24.2.5).
ghost use Rattle.std.specs.Prelude.{◌≡◌, IfOk};
ghost use Rattle.enc_list_delta.specs.Holds.{MayFollow, heaps_written};

use enc_meta::{BuildFault, HeapBuilder};
use enc_plain::ChainView;
use enc_rules::{Context, heaps_of};
use std::alloc::{AllocError, Global};

/// What the edits bring for each heap, each value once, and the list's EncId: behind the chain's heaps, and
/// with room for all, as the list breaks no rule.
pub(crate) fn heaps_of_delta<C: ChainView>(
    alloc: Global,
    context: &Context<'_, C>,
) -> Result<HeapBuilder, AllocError>
    requires may { MayFollow context.now.chain context.now.list }
    ensures { IfOk result (λ h. h ≡ heaps_written context.now.chain context.now.list) }
{
    let mut heaps = heaps_of(alloc, context)?;
    match heaps.add_guid(context.list.enc_id) {
        Ok(_) => Ok(heaps),
        Err(BuildFault::Memory) => Err(AllocError),
        Err(BuildFault::TooLarge(_)) => unreachable!(),
    }
}
