//! Rows that go to other places of their tables, and bodies whose tokens go with them.
#![tactic(auto)]

mod code;
mod laws;
mod moved_body;
mod moves;
mod sections;

pub use laws::moved_body_law;
pub use moved_body::MovedBody;
pub use moves::Moves;
