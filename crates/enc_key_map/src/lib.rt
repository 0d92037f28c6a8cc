//! Values by keys. All room is made with the entries; putting them in takes none.
#![tactic(auto)]

mod index;
mod key;
mod tree;

pub use index::{Index, KeyEntry, push_entry};
pub use key::Key;
