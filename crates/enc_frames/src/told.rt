//! The units of user texts (ECMA-335 II.24.2.4).
ghost use Rattle.std.specs.Prelude.{◌≡◌, [], unwrap_or, IfOk};
ghost use Rattle.enc_base.specs.Units.{units_of};

use enc_plain::{ModuleView, units_of};
use std::alloc::{AllocError, Global};

/// The UTF-16 units of the user text at an offset, none where none stands there.
#[tactic(auto, unfolding(enc_base::specs::Units::units_of))]
pub fn units_told<V: ModuleView>(
    alloc: Global,
    view: &V,
    offset: u32,
) -> Result<Vec<u16>, AllocError>
    ensures { IfOk result (λ units. units.items ≡ units_of (unwrap_or (V.users view.now offset) [])) }
{
    match view.user_text(offset) {
        None => Ok(Vec::new(alloc)),
        Some(bytes) => units_of(alloc, bytes),
    }
}
