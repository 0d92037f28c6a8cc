//! Which method a virtual call reaches, kept as a sparse index beside a module (ECMA-335 I.8.10.4, II.12.2).
#![tactic(auto)]

mod class_part;
mod classes;
mod climb;
mod columns;
mod dispatch;
mod facts;
mod first;
mod free_path;
mod free_target;
mod free_walk;
mod grow;
mod growth;
mod impl_part;
mod impls;
mod interfaces;
mod keeps;
mod keys;
mod laws;
mod locals;
mod locals_part;
mod method_part;
mod methods;
mod names;
mod new_dispatch;
mod own;
mod own_method;
mod owners;
mod path;
mod ready;
mod rows_read;
mod slots;
mod walk;
mod wanted;

pub use dispatch::Dispatch;
pub use free_target::target;
pub use laws::{path_law, slot_law};
pub use new_dispatch::NewDispatch;
