//! A store of files and a sink of bytes: the outside of the program, in memory and over real files.
#![tactic(auto)]

mod calls;
mod count;
mod files;
mod memory;
mod output;
mod replace;
mod sink;
mod store;
mod sure;

pub use files::{FileFault, FileStore};
pub use memory::{MemSink, MemStore};
pub use output::OutSink;
pub use sink::{PutError, Sink};
pub use store::{LoadError, SaveError, Store};
pub use sure::{SureSink, SureStore};
