//! A base with the deltas that follow it: a view of the module that they mean together.
#![tactic(auto)]

mod added;
mod after;
mod aggregate;
mod code;
mod directory;
mod earlier;
mod entries;
mod heaps;
mod kept;
mod kids;
mod laws;
mod listings;
mod place;
mod view;

pub use after::After;
pub use aggregate::{Aggregate, Ready};
pub use earlier::Earlier;
pub use enc_plain::RowPlace;
pub use laws::{chains_are_sound_law, delta_keeps_sound_law, judged_rows_law};
pub use place::HeapPlace;
