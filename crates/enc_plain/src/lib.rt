//! The plain module and the chain, and the traits of whatever means them.
#![tactic(auto)]

mod cells;
mod chain;
mod document;
mod extent;
mod keys;
mod known;
mod laws;
mod likeness;
mod namesakes;
mod near;
mod pair_list;
mod pairs;
mod place;
mod places;
mod points;
mod ref_keys;
mod scope_keys;
mod signature;
mod system;
mod units;
mod value_type;
mod view;

pub use cells::{CellView, Viewed};
pub use chain::ChainView;
pub use document::{DocumentRef, NameRef};
pub use extent::{Extent, extent_in};
pub use known::{KnownAlike, PlacedBlob};
pub use laws::likeness_laws;
pub use likeness::{alike, signatures_alike, tokens_alike};
pub use pair_list::PairList;
pub use place::RowPlace;
pub use points::PointSource;
pub use ref_keys::RefKeys;
pub use signature::{is_signature, kind_in_table, signature_column};
pub use system::is_of_system;
pub use units::units_of;
pub use value_type::is_value_type;
pub use view::{ModuleView, index_token, is_row};
