//! The files of a delta judged after a base and the deltas before them: what they hold, or the first
//! rule that they break.
#![tactic(auto)]

mod judging;
mod laws;
mod methods;

pub use judging::{Checked, Files, check};
pub use laws::within_law;
pub use methods::{new_bodies, new_code};
