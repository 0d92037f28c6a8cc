//! Signatures: what the bytes of a signature blob say, and whether two say the same (ECMA-335
//! II.23.2).
#![tactic(auto)]

mod agree;
mod elem;
mod held;
mod judge;
mod kind;
mod laws;
mod mix;
mod number;
mod read;
mod row_test;
mod shape;
mod sig;
mod sigs;
mod type_form;
mod walk;
mod write;

pub use agree::sigs_agree;
pub use elem::Elem;
pub use held::behind_sentinel;
pub use judge::{is_sig, type_front};
pub use kind::{SigFault, SigKind};
pub use laws::{depth_law, moved_laws, signature_laws};
pub use mix::{Mix, finished, mix_of, mixed, mixed_both, mixed_ends, mixed_whole};
pub use number::{calling, coded_token};
pub use shape::{shape_law, sig_shape};
pub use sig::Sig;
pub use sigs::{field_sig, locals_sig, method_sig, method_spec, property_sig, read_sig, type_spec};
pub use write::{write_moved, write_sig};
