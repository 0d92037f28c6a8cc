//! GUIDs that a chain's files have, by their numbers in the joined `#GUID` (ECMA-335 II.24.2.5).
ghost use Rattle.std.specs.Prelude.{◌≡◌, ◌≤◌, ℕ, true, false, Some};
ghost use Rattle.enc_meta.specs.Joined.{joined_guid, guid_entries};

use enc_plain::ChainView;

/// Whether a GUID has this number.
fn is_guid_at<C: ChainView>(chain: &C, guid: [u8; 16], k: u32) -> bool
    ensures yes { result ≡ true → joined_guid (C.chain chain.now).heaps k ≡ Some guid }
    ensures no { joined_guid (C.chain chain.now).heaps k ≡ Some guid → result ≡ true }
{
    chain.guid_at(k) == Some(guid)
}

/// The least number of a GUID that some file of the chain has; 0 for nil. It goes over the entries of the
/// joined heap.
pub(crate) fn guid_number<C: ChainView>(chain: &C, guid: [u8; 16]) -> u32
    requires { (k : ℕ) × (joined_guid (C.chain chain.now).heaps k ≡ Some guid) }
    ensures number { joined_guid (C.chain chain.now).heaps result ≡ Some guid }
    ensures few { result ≤ guid_entries (C.chain chain.now).heaps }
{
    let entries = chain.lengths().guids;
    for k in 0..entries {
        if is_guid_at(chain, guid, k) {
            return k;
        }
    }
    entries
}
