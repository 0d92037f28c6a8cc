//! Sums that stop at a limit, which is far past those that rules ask for.
ghost use Rattle.std.specs.Prelude.{◌≡◌, ◌≤◌, min};
ghost use Rattle.enc_rules.specs.Sums.{most_room};

/// The number that sums stop at.
pub const MOST: u64 = 0x100_0000_0000;

/// The number, or the limit where it is less.
pub fn capped(n: u64) -> u64
    ensures capped { result ≡ min most_room n }
    ensures most { result ≤ most_room }
{
    n.min(MOST)
}
