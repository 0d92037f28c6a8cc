//! What is built of a metadata file: its root, with its heaps and its tables; and the files of a delta.
#![tactic(auto)]

mod delta_bytes;
mod laws;
mod root;
mod root_form;
mod written;

pub use delta_bytes::DeltaBytes;
pub use laws::{counted_root_law, pdb_root_law, root_law};
pub use root::{RootBuilder, write_root};
pub use root_form::RootForm;
