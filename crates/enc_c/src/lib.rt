//! The toolkit as a C library: modules behind handles, and what is asked of them.
#![tactic(auto)]

mod body_calls;
mod calls;
mod cells;
mod clauses;
mod code;
mod compacting;
mod copies;
mod copy;
mod deltas;
mod earlier;
mod earlier_calls;
mod family;
mod fill;
mod generation_calls;
mod handle;
mod held;
mod history;
mod judging;
mod kinds;
mod laws;
mod loose;
mod name_calls;
mod names;
mod newest_module;
mod open;
mod points;
mod reason;
mod refusal;
mod saving;
mod session_changes;
mod session_handle;
mod session_looks;
mod session_numbers;
mod session_open;
mod session_taken;
mod status;
mod version;

pub use laws::{numbers_law, points_law, words_law};
