//! Values by their keys.
ghost use Rattle.std.specs.Prelude.{◌≡◌, Some, None, IfOk, option_copied, if◌then◌else◌};
ghost use Rattle.enc_key_map.specs.declared.key.Key.{Key as TheKey};
ghost use Rattle.enc_key_map.specs.Key.{is_key};
ghost use Rattle.enc_key_map.specs.Index.{value_at, entry_key, value_of, latest, latest_one, either};

use crate::key::Key;
use crate::tree::{Fork, Tree};
use std::alloc::{AllocError, Global};

/// Values by their keys.
#[derive(Drop)]
pub struct Index<V> {
    tree: Tree<V>,
}

/// The value of a key, with the room that it takes in an index.
#[derive(Drop)]
pub struct KeyEntry<V> {
    fork: Box<Fork<V>>,
}

impl<V: Drop> KeyEntry<V> {
    /// The value of a key.
    pub fn new(alloc: Global, key: Key, value: V) -> Result<KeyEntry<V>, AllocError>
        ensures key { IfOk result (λ e. entry_key e ≡ key) }
        ensures value { IfOk result (λ e. value_of e ≡ value) }
    {
        let fork = Fork {
            key,
            value,
            zeros: Tree::Empty,
            ones: Tree::Empty,
        };
        match Box::new(alloc, fork) {
            Ok(fork) => Ok(KeyEntry { fork }),
            Err(_) => Err(AllocError),
        }
    }
}

impl<V: Drop> Index<V> {
    /// No key has a value.
    pub fn new() -> Index<V>
        ensures { (q : TheKey) → value_at result q ≡ None }
    {
        Index { tree: Tree::Empty }
    }

    /// The value of a key.
    pub fn get(&self, key: Key) -> Option<&V>
        ensures { option_copied result ≡ value_at self.now key }
    {
        self.tree.at(key, key.digits())
    }

    /// Puts a value in, in place of the one that its key had.
    pub fn put(&mut self, entry: KeyEntry<V>)
        ensures { (q : TheKey) → value_at self.new q ≡ either (latest_one entry q) (value_at self.old q) }
    {
        let mut fork = entry.fork;
        fork.zeros = Tree::Empty;
        fork.ones = Tree::Empty;
        let digits = fork.key.digits();
        self.tree.put(fork, digits);
    }

    /// Puts values in, in order.
    #[tactic(auto, using(crate::proofs::Latest::latest_step))]
    pub fn put_all(&mut self, entries: Vec<KeyEntry<V>>)
        ensures { (q : TheKey) → value_at self.new q ≡ either (latest entries.items q) (value_at self.old q) }
    {
        for entry in entries {
            self.put(entry);
        }
    }
}

/// Appends an entry.
#[tactic(auto, using(crate::proofs::Latest::latest_push))]
pub fn push_entry<V: Drop>(
    entries: &mut Vec<KeyEntry<V>>,
    alloc: Global,
    key: Key,
    value: V,
) -> Result<(), AllocError>
    ensures { IfOk result (λ _. (q : TheKey) →
        latest entries.new.items q ≡ either (if is_key key q then Some value else None) (latest entries.old.items q)) }
{
    let entry = KeyEntry::new(alloc, key, value)?;
    entries.push(entry)?;
    Ok(())
}
