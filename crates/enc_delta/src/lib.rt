//! A delta: its log, its map, its rows, its bodies, and the first rule that it breaks after a chain.
#![tactic(auto)]

mod bodies;
mod cells;
mod code;
mod context;
mod copy;
mod delta;
mod heaps;
mod identity;
mod joined;
mod known;
mod lists;
mod locals;
mod log_entry;
mod members;
mod open;
pub mod operations;
mod pairs;
mod place;
mod rules;
mod shared;
mod siblings;
mod signatures;
mod starts;
mod tables;
mod twins;
mod updates;

pub use copy::log_of;
pub use delta::Delta;
pub use identity::{enc_id_counted, enc_id_of, is_used};
pub use joined::{entry_after, guid_after, has_text_after};
pub use known::{inserts_of, is_insert};
pub use log_entry::LogEntry;
pub use members::{has_no_slot, is_out_of_layout, twin_among};
pub use pairs::{Pair, attached_of};
pub use tables::may_change;
