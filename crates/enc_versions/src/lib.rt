//! The newest body of each method, with its sequence points, kept beside a module that deltas follow.
#![tactic(auto)]

mod code;
mod commit;
mod laws;
mod list;
mod shared;
mod stops;
mod versions;

pub use code::Code;
pub use commit::NewVersions;
pub use laws::commit_law;
pub use list::{CodeEntry, CodeList};
pub use versions::Versions;
