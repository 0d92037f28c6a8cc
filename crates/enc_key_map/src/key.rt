//! What values are kept by.
ghost use Rattle.std.specs.Prelude.{◌≡◌};
ghost use Rattle.enc_key_map.specs.Key.{is_key, digits_of, next_digits};

/// A row of a table, and a place in it.
#[derive(Clone, Copy, Debug, PartialEq, Eq)]
pub struct Key {
    pub table: u8,
    pub row: u32,
    pub place: u32,
}

/// The binary digits that tell which way a key's value stands: the lowest first, those of the first
/// number and then those of the second.
#[derive(Clone, Copy, Debug, PartialEq, Eq)]
pub(crate) struct Digits {
    pub first: u32,
    pub second: u32,
}

impl Key {
    /// The keys are the same.
    pub(crate) fn is(self, other: Key) -> bool
        ensures { result ≡ is_key self other }
    {
        self.table == other.table && self.row == other.row && self.place == other.place
    }

    /// Its digits: keys of few tables have the same.
    pub(crate) fn digits(self) -> Digits
        ensures { result ≡ digits_of self }
    {
        Digits {
            first: self.row,
            second: self.place,
        }
    }
}

impl Digits {
    /// Those behind the first digit.
    pub(crate) fn behind(self) -> Digits
        ensures { result ≡ next_digits self }
    {
        if self.first == 0 {
            return Digits {
                first: self.second,
                second: 0,
            };
        }
        Digits {
            first: self.first / 2,
            second: self.second,
        }
    }
}
