//! Words and lines: which command do words say, and which lines does a command print?
#![tactic(auto)]

mod command;
mod generations;
mod limits;
mod lines;
mod loaded;

pub use command::{Command, Number, command_of};
pub use generations::listing;
pub use limits::{FILE_LIMIT, Limit, TOTAL_LIMIT};
pub use lines::{
    broken_line, case_line, deep_line, limit_line, missing_line, push_absent, push_accepted,
    push_moves, saved_line, unlisted_line, usage_line,
};
