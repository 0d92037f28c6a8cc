//! A plain module that is held in memory and edited directly.
#![tactic(auto)]

mod apply;
mod change;
mod copy;
mod encode;
mod laws;
mod plain;

pub use apply::apply_edits;
pub use laws::lists_keep_sound_law;
pub use plain::{PlainCell, PlainModule};
