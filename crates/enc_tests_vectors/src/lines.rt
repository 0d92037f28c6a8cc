//! Lines that ask a call and what it answers: the words of a line, and how answers are spelled. docs/testing.md has
//! the form.

mod answer;
mod args;
pub mod parts;
pub mod told;

pub use answer::{is_remark, line_with};
pub use args::{Args, Fault, bytes_in, numbers_in, token_in, units_in};
