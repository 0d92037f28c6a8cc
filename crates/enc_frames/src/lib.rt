//! Frames: what an instruction does to one frame, its stack, its objects and its handlers (ECMA-335 I.12.3.2, III).
#![tactic(auto)]

mod act;
mod arguments;
mod callers;
mod casts;
mod catching;
mod cells;
mod console;
mod decode;
mod frame;
mod frame_act;
mod frame_ref;
mod fresh;
mod handing;
mod handler;
mod handlers;
mod heap;
mod indexed_module;
mod leaving;
mod line;
mod object_act;
mod places;
mod stack;
mod stop;
mod straight;
mod switch;
mod texts;
mod told;
mod values;

pub use act::{Act, FrameAct, ObjectAct, Test};
pub use arguments::{called_kinds, defaults, fitting, taken_kinds};
pub use callers::Callers;
pub use console::{Written, call_outside, new_outside};
pub use decode::{bare_act, branch_act, numbered_act, token_act};
pub use frame::Frame;
pub use frame_ref::FrameRef;
pub use fresh::new_frame;
pub use handler::{Flight, Reason, Running};
pub use heap::{load_static, load_text, store_static};
pub use indexed_module::IndexedModule;
pub use object_act::act_on_objects;
pub use places::{named_field, named_method};
pub use stack::Stack;
pub use stop::Stop;
pub use told::units_told;
pub use values::reference;
