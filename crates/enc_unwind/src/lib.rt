//! Which clause of a body is next where an object is thrown or protected code is left (ECMA-335 I.12.4.2).
#![tactic(auto)]

mod catches;
mod handles;
mod kinds;
mod laws;
mod passing;
mod runs;
mod search;
mod thrown;
mod types;
mod walk;
mod way_out;

pub use laws::{caught_law, example_searches, search_laws};
pub use search::{catch_in, is_handled, next_handler};
pub use thrown::Thrown;
pub use way_out::WayOut;
