//! Where rows go.
ghost use Rattle.std.specs.Prelude.{◌≡◌, ◌<◌, ◌^◌};
ghost use Rattle.enc_base.specs.declared.token.Token.{Token as TheToken};

use enc_base::Token;

/// Where each row of a module goes. No call takes memory.
pub trait Moves {
    // Where each token goes.
    ghost to: { Self → TheToken → TheToken };

    /// Where a token goes, whether it is a row or not.
    fn moved(&self, token: Token) -> Token
        ensures { result ≡ to self.now token };

    // To a row of its own table.
    ghost stays: { (s : Self) (t : TheToken) → (Self.to s t).table ≡ t.table };

    // And to one that a number of three bytes can name.
    ghost low: { (s : Self) (t : TheToken) → t.row < 2 ^ 24 → (Self.to s t).row < 2 ^ 24 };
}
