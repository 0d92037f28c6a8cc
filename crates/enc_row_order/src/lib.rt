//! The order in which the rows of an ordinary module stand (ECMA-335 II.22).
#![tactic(auto)]

mod depth;
mod key_columns;
mod keys;
mod kids;
mod order;
mod rows;
mod sorting;
mod stage;

pub use order::Order;
