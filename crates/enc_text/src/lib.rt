//! Printed text: tokens, texts, refusals, bodies, and the row of any module.
#![tactic(auto)]

mod body;
mod operand;
mod points;
mod rows;
mod text;
mod within;

pub use operand::{push_label, push_signed, push_units};
pub use rows::row_text;
pub use text::{
    push_decimal, push_guid, push_long, push_str, push_token, refused_line, stream_name,
};
pub use within::{push_decimal_within, push_label_within, push_str_within, push_units_within};
