//! Values that a delta brings, for the index of all deltas and in one of its own.
ghost use Rattle.std.specs.Prelude.{◌≡◌, [], Some, None, IfOk, if◌then◌else◌};
ghost use Rattle.enc_key_map.specs.declared.key.Key.{Key as TheKey};
ghost use Rattle.enc_key_map.specs.Key.{is_key};
ghost use Rattle.enc_key_map.specs.Index.{latest, either};
ghost use Rattle.enc_agg.specs.Directory.{IsSame};

use enc_key_map::{Index, Key, KeyEntry, push_entry};
use std::alloc::{AllocError, Global};

/// The values of some keys, as entries with the room that they take in an index, and in an index.
#[derive(Drop)]
pub struct Kept<V> {
    pub entries: Vec<KeyEntry<V>>,
    pub own: Index<V>,
}

impl<V: Drop> Kept<V> {
    /// No key has a value.
    pub fn new(alloc: Global) -> Kept<V>
        ensures none { result.entries.items ≡ [] }
        ensures same { IsSame result }
    {
        Kept {
            entries: Vec::new(alloc),
            own: Index::new(),
        }
    }
}

impl<V: Copy + Drop> Kept<V> {
    /// Appends a value.
    pub fn push(&mut self, alloc: Global, key: Key, value: V) -> Result<(), AllocError>
        requires same { IsSame self.old }
        ensures same { IfOk result (λ _. IsSame self.new) }
        ensures entries { IfOk result (λ _. (q : TheKey) → latest self.new.entries.items q
            ≡ either (if is_key key q then Some value else None) (latest self.old.entries.items q)) }
    {
        let entry = KeyEntry::new(alloc, key, value)?;
        push_entry(&mut self.entries, alloc, key, value)?;
        self.own.put(entry);
        Ok(())
    }
}
