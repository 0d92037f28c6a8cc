//! A module's file: accepted or refused, and then a view of its plain module.
#![tactic(auto)]

mod bodies;
mod chain;
mod code;
mod fields;
mod image;
mod judge;
mod laws;
mod open;
mod owner;
mod signatures;
mod view;

pub use image::Image;
pub use laws::base_is_sound_law;
