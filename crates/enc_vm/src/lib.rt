//! The interpreter: tasks, their frames, and every step of each (ECMA-335 I.12.3, III).
#![tactic(auto)]

mod advance;
mod calls;
mod construct;
mod declaring;
mod effect;
mod effects;
mod ends;
mod enter;
mod flights;
mod laws;
mod look;
mod machine;
mod members;
mod moves;
mod perform;
mod returns;
mod room;
mod seen;
mod shared;
mod spawn;
mod statics;
mod task;
mod thread;
mod throwing;
mod touched;
mod world;

pub use enc_frames::FrameRef;
pub use ends::{SpawnEnd, StepEnd, TaskState};
pub use laws::{kept_place_laws, meaning_laws, place_laws, text_law};
pub use look::look_laws;
pub use machine::Machine;
pub use moves::move_law;
pub use seen::Seen;
