//! The units of user texts (ECMA-335 II.24.2.4).
ghost use Rattle.std.specs.Prelude.{◌≡◌, IfOk};
ghost use Rattle.enc_base.specs.Units.{units_of};

use std::alloc::{AllocError, Global};

/// The UTF-16 units that bytes spell, low byte first.
#[tactic(auto, unfolding(enc_base::specs::Units::units_of))]
pub fn units_of(alloc: Global, bytes: &[u8]) -> Result<Vec<u16>, AllocError>
    ensures { IfOk result (λ units. units.items ≡ units_of bytes.now) }
{
    let mut units = Vec::with_capacity(alloc, bytes.len() / 2)?;
    let mut rest = bytes;
    while let [low, high, tail @ ..] = rest {
        units.push(u16::from_le_bytes([*low, *high]))?;
        rest = tail;
    }
    Ok(units)
}
