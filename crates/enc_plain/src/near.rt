//! Keys of tokens and of the scopes around them.
ghost use Rattle.std.specs.Prelude.{◌≡◌};
ghost use Rattle.enc_plain.specs.Keys.{scopes_joined};

use enc_base::Token;
use enc_sigs::{Mix, mixed_both};

/// The key of some scopes one in the other, and the scope behind them.
#[derive(Clone, Copy, Debug, PartialEq, Eq)]
pub struct Near {
    /// The key.
    pub mix: Mix,
    /// The scope.
    pub end: Token,
}

/// One key behind another, and where the second ends.
pub fn scopes_joined(first: Near, second: Near) -> Near
    ensures { result ≡ scopes_joined first second }
{
    Near {
        mix: mixed_both(first.mix, second.mix),
        end: second.end,
    }
}
