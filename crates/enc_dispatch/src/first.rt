//! Values that wait to be put into an index, where the index has none.
ghost use Rattle.std.specs.Prelude.{◌≡◌, Some, None, IfOk, if◌then◌else◌};
ghost use Rattle.enc_base.specs.Order.{or_else};
ghost use Rattle.enc_dispatch.specs.Entries.{earliest, where_none};
ghost use Rattle.enc_key_map.specs.declared.key.Key.{Key as TheKey};
ghost use Rattle.enc_key_map.specs.Key.{is_key};
ghost use Rattle.enc_key_map.specs.Index.{value_at, either};

use enc_key_map::{Index, Key, KeyEntry};
use std::alloc::{AllocError, Global};

/// Appends a value, unless an index has one of its key.
#[tactic(auto, using(crate::proofs::Put::push_kept, crate::proofs::Put::push_new))]
pub(crate) fn push_first<P: Drop>(
    entries: &mut Vec<KeyEntry<P>>,
    alloc: Global,
    index: &Index<P>,
    key: Key,
    value: P,
) -> Result<(), AllocError>
    ensures { IfOk result (λ _. (q : TheKey) → earliest entries.new.items q
        ≡ or_else (earliest entries.old.items q)
        (where_none (value_at index.now q) (if is_key key q then Some value else None))) }
{
    if index.get(key).is_some() {
        return Ok(());
    }
    let entry = KeyEntry::new(alloc, key, value)?;
    entries.push(entry)?;
    Ok(())
}

/// Puts values in, from the last to the first, so that the first of each key counts.
pub(crate) fn put_from_behind<P: Drop>(index: &mut Index<P>, entries: Vec<KeyEntry<P>>)
    ensures { (q : TheKey) → value_at index.new q ≡ either (earliest entries.items q) (value_at index.old q) }
{
    let mut rest = entries;
    while let Some(entry) = rest.pop() {
        index.put(entry);
    }
}
