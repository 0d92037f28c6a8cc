//! What the interpreter sees of a module's types and members: the kinds of fields, parameters and local
//! variables, and the members outside that it knows (ECMA-335 II.23.2).
#![tactic(auto)]

mod element;
mod front;
mod kinds;
mod members;
mod members_outside;
mod outside;
mod runs;
mod shape;
mod signature;
mod types;

pub use element::kind_of_element;
pub use kinds::Kinds;
pub use members::{
    field_kind, find_type_constructor, is_called_with_nothing, is_constructor, is_static_method,
    local_kind_at, local_kinds, method_shape, type_constructor,
};
pub use members_outside::outside_of;
pub use outside::Outside;
pub use runs::runs_body;
pub use shape::MethodShape;
pub use types::type_kind;
