//! Bytes at a place: so many, or all from there.
ghost use Rattle.std.specs.Prelude.{◌≡◌, ◌≤◌, length, drop, option_map, IfSome};
ghost use Rattle.enc_opcodes.specs.Instruction.{range_at};

/// So many bytes at the place, None where they don't stand whole there.
#[tactic(auto, unfolding(enc_opcodes::specs::Instruction::range_at))]
pub fn range_at(bytes: &[u8], at: usize, n: usize) -> Option<&[u8]>
    ensures range { option_map (λ x. x.now) result ≡ range_at bytes.now at n }
    ensures few { IfSome result (λ x. length x.now ≤ n) }
{
    bytes.get(at..)?.get(..n)
}

/// The bytes from the place on, none past the end.
pub fn rest_at(bytes: &[u8], at: usize) -> &[u8]
    ensures { result.now ≡ drop at bytes.now }
{
    bytes.get(at..).unwrap_or(&[])
}
