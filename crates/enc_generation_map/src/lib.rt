//! In which generations a token has a place, kept so that the last one up to any generation is found
//! by halves. All room is made with the listings; putting them in takes none.
#![tactic(auto)]

mod places;

pub use places::{Listings, Places};
