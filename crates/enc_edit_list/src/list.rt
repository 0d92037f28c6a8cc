//! Lists that grow at their end.
ghost use Rattle.std.specs.Prelude.{◌≡◌, ◌++◌, ◌∷◌, [], length, slice_get, option_map, IfOk, OnErr};

use std::alloc::{AllocError, Global};
use std::marker::Model;

/// A list that grows at its end.
#[derive(Drop)]
pub struct ListOf<T> {
    items: Vec<T>,
}

impl<T> Model for ListOf<T> {
    ghost use Rattle.std.specs.Prelude.{List};

    ghost Value = { List T };

    ghost view = { λ l. l.items.items };
}

impl<T: Drop> ListOf<T> {
    /// No items, which take no memory.
    pub fn begin(alloc: Global) -> ListOf<T>
        ensures { result ≡ [] }
    {
        ListOf {
            items: Vec::new(alloc),
        }
    }

    /// One item more. Without memory nothing changes.
    pub fn push(&mut self, item: T) -> Result<(), AllocError>
        ensures ok { IfOk result (λ _. self.new ≡ self.old ++ item ∷ []) }
        ensures err { OnErr result (self.new ≡ self.old) }
    {
        self.items.push(item)?;
        Ok(())
    }

    /// How many items there are.
    pub fn len(&self) -> usize
        ensures { result ≡ length self.now }
    {
        self.items.len()
    }

    /// The item at an index, None behind the last.
    pub fn get(&self, i: usize) -> Option<&T>
        ensures { option_map (λ r. r.now) result ≡ slice_get self.now i }
    {
        self.items.get(i)
    }

    /// The items as a slice.
    pub fn as_slice(&self) -> &[T]
        ensures { result.now ≡ self.now }
    {
        self.items.as_slice()
    }
}
