//! The rules of an edit list as a whole.
ghost use Rattle.std.specs.Prelude.{◌≡◌, ◌+◌, ◌≤◌, length, filter, option_map, nat_lt, false, None};
ghost use Rattle.std.specs.List.{list_any};
ghost use Rattle.enc_rows.specs.Sums.{below};
ghost use Rattle.enc_rules.specs.First.{first_of_list, list_rules};
ghost use Rattle.enc_rules.specs.Listed.{count_after};
ghost use Rattle.enc_rules.specs.Rules.{id_is_taken, heaps_are_full, there_are_too_many, has_owner};

use enc_delta::is_used;
use enc_edit_list::{Added, Edit, EditList};
use enc_plain::ChainView;
use enc_schema::is_child_table;

/// The EncId is nil, or a delta has it.
#[tactic(auto, unfolding(crate::specs::Rules::id_is_taken, enc_meta::specs::Heaps::nil_guid))]
fn id_is_taken<C: ChainView>(chain: &C, list: &EditList) -> bool
    ensures { result ≡ id_is_taken (C.chain chain.now) list.now }
{
    let id = list.enc_id;
    id.as_slice() == [0; 16].as_slice() || is_used(chain, id.as_slice())
}

/// A heap of the chain has no room for the one byte that each delta has, or `#GUID` none for an entry.
#[tactic(auto, unfolding(crate::specs::Rules::heaps_are_full, // a heap that is full before any edit
crate::specs::Rules::passes_limits, // its limit
enc_meta::specs::Built::joined_end // where the joined heap ends
))]
fn heaps_are_full<C: ChainView>(chain: &C, list: &EditList) -> bool
    ensures { result ≡ heaps_are_full (C.chain chain.now) list.now }
{
    let _ = list;
    let lengths = chain.lengths();
    0x2000_0000 <= lengths.strings
        || 0x100_0000 <= lengths.users
        || 0x2000_0000 <= lengths.blobs
        || 0x200_0000 <= lengths.guids
}

/// The table has more than 2^24 - 1 rows after the list.
#[tactic(auto, unfolding(crate::specs::Listed::count_after))]
fn is_long<C: ChainView>(chain: &C, added: &Added<'_>, table: u8) -> bool
    ensures { result ≡ nat_lt 0xFFFFFF (count_after (C.chain chain.now) added.now table) }
{
    added.count(table) > (0xFF_FFFF - chain.count(table)) as usize
}

/// A table has more than 2^24 - 1 rows after the list.
#[tactic(auto, using(enc_rows::proofs::Below::any_steps))]
fn has_many_rows<C: ChainView>(chain: &C, added: &Added<'_>) -> bool
    ensures { result ≡ list_any (λ table. nat_lt 0xFFFFFF (count_after (C.chain chain.now) added.now table))
        (below 64) }
{
    for table in 0..64u8 {
        if is_long(chain, added, table) {
            return true;
        }
    }
    false
}

/// The edit adds a row that has an owner.
fn has_owner(edit: &Edit) -> bool
    ensures { result ≡ has_owner edit.now }
{
    match edit {
        Edit::Add { table, .. } => is_child_table(*table),
        Edit::Body { .. } => false,
    }
}

/// How many of the edits add a row that has an owner.
fn owned_rows(edits: &[Edit]) -> usize
    ensures owned { result ≡ length (filter has_owner edits.now) }
    ensures few { result ≤ length edits.now }
{
    let mut owned: usize = 0;
    for k in 0..edits.len() {
        if has_owner(&edits[k]) {
            owned += 1;
        }
    }
    owned
}

/// The delta's EncLog would have more than 2^24 - 2 entries.
fn has_long_log(edits: &[Edit]) -> bool
    ensures { result ≡ nat_lt 0xFFFFFE (length edits.now + length (filter has_owner edits.now)) }
{
    edits.len() > 0xFF_FFFE || edits.len() + owned_rows(edits) > 0xFF_FFFE
}

/// More deltas, rows or entries of EncLog than there may be.
#[tactic(auto, unfolding(crate::specs::Rules::there_are_too_many))]
fn there_are_too_many<C: ChainView>(chain: &C, list: &EditList, added: &Added<'_>) -> bool
    requires { added.now ≡ list.now.edits }
    ensures { result ≡ there_are_too_many (C.chain chain.now) list.now }
{
    chain.generations() > 65535
        || has_many_rows(chain, added)
        || has_long_log(list.edits.as_slice())
}

/// The first rule that the list as a whole breaks.
pub fn first_of_list<C: ChainView>(chain: &C, list: &EditList, added: &Added<'_>) -> Option<u8>
    requires { added.now ≡ list.now.edits }
    ensures broken { option_map (λ rule. (rule, 0)) result ≡ first_of_list list_rules (C.chain chain.now) list.now }
    ensures room { result ≡ None → heaps_are_full (C.chain chain.now) list.now ≡ false }
    ensures few { result ≡ None → there_are_too_many (C.chain chain.now) list.now ≡ false }
{
    if id_is_taken(chain, list) {
        return Some(4);
    }
    if heaps_are_full(chain, list) {
        return Some(5);
    }
    if there_are_too_many(chain, list, added) {
        return Some(24);
    }
    None
}
