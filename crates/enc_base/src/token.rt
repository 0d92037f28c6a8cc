ghost use Rattle.std.specs.Prelude.{◌≡◌, ℕ, ◌+◌, ◌*◌, ◌<◌, ◌^◌};

/// A metadata token: a table and a row from 1. Row 0 is nil (ECMA-335 II.22).
#[derive(Clone, Copy, Debug, PartialEq, Eq, PartialOrd, Ord, Hash)]
pub struct Token {
    pub table: u8,
    pub row: u32,
}

impl Token {
    ghost use Rattle.enc_base.specs.Token.{token_of, number_of};

    /// The token with this number: the table in its top byte, the row in the three below.
    pub fn of(number: u32) -> Token
        ensures token { result ≡ token_of number }
        ensures row { result.row < 2 ^ 24 }
    {
        Token {
            table: (number >> 24) as u8,
            row: number & 0xff_ffff,
        }
    }

    /// The token's number.
    pub fn number(&self) -> u32
        requires { self.now.row < 2 ^ 24 }
        ensures { result ≡ number_of self.now }
    {
        u32::from(self.table) * 0x100_0000 + self.row
    }
}
