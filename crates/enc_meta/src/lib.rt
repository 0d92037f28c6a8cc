//! The metadata root and its heaps: what stands at an offset.
#![tactic(auto)]

mod builder;
mod ends;
mod entry;
mod guids;
mod header;
mod heap;
mod heap_form;
mod heaps;
mod laws;
mod pool;
mod root;
mod span;
mod streams;

pub use builder::{BuildFault, HeapBuilder, HeapBytes};
pub use ends::TextEnds;
pub use entry::user_text_at;
pub use heap::Heap;
pub use heaps::{HeapLengths, Heaps};
pub use laws::{built_laws, example_root, offsets_law, offsets_stay_law, padded_law, text_law};
pub use root::{Root, read_root};
pub use span::Span;
