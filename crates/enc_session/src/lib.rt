//! Sessions: tasks that make steps over a base, deltas applied between them, and watchers that hear of all.
#![tactic(auto)]

mod applied;
mod codes;
mod engine;
mod events;
mod frame_generations;
mod laws;
mod lines;
mod looks;
mod newest;
mod objects;
mod parts;
mod recording;
mod room;
mod session;
mod states;
mod values;

pub use applied::Applied;
pub use laws::{changed_law, codes_law, generations_law};
pub use lines::{push_task, push_word};
pub use looks::{FrameFacts, FramePart};
pub use recording::{Recording, Stepped};
pub use session::Session;
