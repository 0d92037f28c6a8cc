//! A count that rises and stands still at its last value.
ghost use Rattle.std.specs.Prelude.{◌≡◌};
ghost use Rattle.enc_outside.specs.Outside.{risen};

/// One more, or the same at `u64::MAX`.
pub(crate) fn one_more(count: u64) -> u64
    ensures { result ≡ risen count }
{
    count.saturating_add(1)
}
