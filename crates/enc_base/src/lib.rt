//! Tokens, tables, numbers, refusals and the counter of steps: what every other crate speaks of.
#![tactic(auto)]

mod bytes;
mod counts;
mod front;
mod laws;
mod number;
mod refusal;
mod steps;
pub mod tables;
mod token;
mod units;

pub use bytes::Bytes;
pub use counts::Counts;
pub use front::{signed_front, unsigned_front};
pub use laws::{compressed_laws, first_below_law, written_laws};
pub use number::{
    push_half, push_long, push_signed, push_unsigned, push_word, push_zeros, read_signed,
    read_unsigned, u8_at, u16_at, u16_of, u32_at, u32_of, u64_at,
};
pub use refusal::{Code, Place, ReadFault, Refusal, StreamName};
pub use steps::Steps;
pub use token::Token;
pub use units::Units;
