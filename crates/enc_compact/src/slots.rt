//! The numbers that tell what is held of each row, and of each place.
ghost use Rattle.std.specs.Prelude.{◌≡◌};
ghost use Rattle.std.specs.BTreeMap.{get};
ghost use Rattle.std.specs.Ordering.{nat_cmp};
ghost use Rattle.enc_compact.specs.Held.{number_in_slots};

use std::collections::BTreeMap;

/// The number of a row, 0 where there is none.
pub(crate) fn slot_at(slots: &[u32], row: u32) -> u32
    ensures { result ≡ number_in_slots slots.now row }
{
    if row == 0 {
        return 0;
    }
    match slots.get(row as usize - 1) {
        Some(slot) => *slot,
        None => 0,
    }
}

/// The number that is known of a place.
pub(crate) fn known_at(known: &BTreeMap<u64, u32>, place: u64) -> Option<u32>
    ensures { result ≡ get nat_cmp known.now place }
{
    match known.get(&place) {
        Some(slot) => Some(*slot),
        None => None,
    }
}
