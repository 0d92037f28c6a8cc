//! Watchers of a session: what happens is told to each, and each reports what it heard; and those that are
//! attached, in order of their numbers.
#![tactic(auto)]

mod attached;
mod audience;
mod cover;
mod event;
mod failing;
mod handed;
mod hits;
mod laws;
mod lines;
mod method_line;
mod trace;
mod watcher;

pub use audience::Audience;
pub use cover::Cover;
pub use event::{Event, HearError, WatchKind};
pub use failing::Failing;
pub use handed::Handed;
pub use laws::cover_laws;
pub use lines::trap_code;
pub use trace::Trace;
pub use watcher::Watcher;
