//! `switch` (ECMA-335 III.3.66).
ghost use Rattle.std.specs.Prelude.{◌≡◌, slice_get, unwrap_or};
ghost use Rattle.enc_objects.specs.Values.{modulo};
ghost use Rattle.enc_opcodes.specs.Instruction.{all_reached};
ghost use Rattle.enc_frames.specs.Does.{Does};
ghost use Rattle.enc_frames.specs.Straight.{switch_to};

use crate::frame::Frame;
use crate::stop::Stop;
use crate::values::word;
use enc_base::u32_at;

/// An integer of 32 bits as a number without a sign.
fn without_sign(number: i32) -> u32
    ensures { result ≡ modulo 32 number }
{
    i64::from(number).rem_euclid(0x1_0000_0000).unsigned_abs() as u32
}

/// The target of a `switch` that ends there, by its number from 0. None past the last.
#[tactic(auto, using(crate::proofs::Reached::reached_at))]
fn target_at(distances: &[u8], end: u32, n: u32) -> Option<u32>
    ensures { result ≡ slice_get (all_reached end distances.now) n }
{
    let distance = u32_at(distances, 4 * n as usize)?;
    Some(end.wrapping_add(distance))
}

/// The target of a `switch` that ends there, by its number from 0. Past the last the offset behind it.
fn goal_of(distances: &[u8], end: u32, next: u32, n: u32) -> u32
    ensures { result ≡ unwrap_or (slice_get (all_reached end distances.now) n) next }
{
    match target_at(distances, end, n) {
        None => next,
        Some(target) => target,
    }
}

impl Frame {
    /// `switch`, by the distances of its targets from its end, of four bytes each.
    #[tactic(auto, unfolding(crate::specs::Straight::switch_to))]
    pub fn switch_to(&mut self, distances: &[u8], end: u32, next: u32) -> Result<(), Stop>
        ensures { Does result self.new self.old (switch_to (all_reached end distances.now) next self.old) }
    {
        let value = self.stack.upper()?;
        let number = word(value)?;
        self.offset = goal_of(distances, end, next, without_sign(number));
        self.stack.remove(1);
        Ok(())
    }
}
