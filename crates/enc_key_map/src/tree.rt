//! A tree in which each fork has the value of one key, and the digits of a key tell the way.
ghost use Rattle.std.specs.Prelude.{◌≡◌, ◌%◌, ◌==◌, Some, false, option_copied};
ghost use Rattle.enc_key_map.specs.Key.{is_key};
ghost use Rattle.enc_key_map.specs.declared.key.Key.{Key as TheKey};
ghost use Rattle.enc_key_map.specs.declared.key.Digits.{Digits as TheDigits};
ghost use Rattle.enc_key_map.specs.Tree.{at, IsLeaf};

use crate::key::{Digits, Key};

/// The values of some keys. It is no deeper than keys have digits, and there are few keys with the
/// same ones.
#[cycle(tree)]
#[derive(Drop)]
pub(crate) enum Tree<V> {
    Empty,
    Fork(Box<Fork<V>>),
}

/// The value of a key; behind it those whose next digit is 0, and those whose next digit is 1.
#[cycle(tree)]
#[derive(Drop)]
pub(crate) struct Fork<V> {
    pub key: Key,
    pub value: V,
    pub zeros: Tree<V>,
    pub ones: Tree<V>,
}

impl<V> Tree<V> {
    /// The value of a key that has these digits left.
    pub(crate) fn at(&self, key: Key, digits: Digits) -> Option<&V>
        ensures { option_copied result ≡ at self.now key digits }
    {
        match self {
            Tree::Empty => None,
            Tree::Fork(fork) => {
                if fork.key.is(key) {
                    return Some(&fork.value);
                }
                if digits.first % 2 == 0 {
                    fork.zeros.at(key, digits.behind())
                } else {
                    fork.ones.at(key, digits.behind())
                }
            }
        }
    }
}

impl<V: Drop> Tree<V> {
    /// Puts a value where its key's digits that are left lead to, in place of the one that the key
    /// had.
    pub(crate) fn put(&mut self, leaf: Box<Fork<V>>, digits: Digits)
        requires { IsLeaf leaf.value }
        ensures own { at self.new leaf.value.key digits ≡ Some leaf.value.value }
        ensures others { (q : TheKey) (d : TheDigits) → is_key leaf.value.key q ≡ false
            → at self.new q d ≡ at self.old q d }
    {
        match self {
            Tree::Empty => *self = Tree::Fork(leaf),
            Tree::Fork(fork) => {
                if fork.key.is(leaf.key) {
                    fork.value = Box::into_inner(leaf).value;
                    return;
                }
                if digits.first % 2 == 0 {
                    fork.zeros.put(leaf, digits.behind());
                } else {
                    fork.ones.put(leaf, digits.behind());
                }
            }
        }
    }
}
