ghost use Rattle.std.specs.Prelude.{◌≡◌};
ghost use Rattle.enc_objects.specs.Values.{default_of};

use crate::value::Value;

/// What an argument, a local, a field or an element can hold (ECMA-335 III.1.1.1): an integer of so many
/// bytes, with a sign or without, or a reference. `I8` and `U8` stand on the stack as `Value::I8`, the other
/// integers as `Value::I4`.
#[derive(Clone, Copy, Debug, PartialEq, Eq)]
pub enum Kind {
    I1,
    /// Booleans too.
    U1,
    I2,
    /// Characters too.
    U2,
    I4,
    U4,
    I8,
    U8,
    Ref,
}

impl Kind {
    /// What a place of the kind holds before anything is stored there.
    #[inline(always)]
    #[tactic(auto, unfolding(crate::specs::Values::default_of))]
    pub fn default_value(self) -> Value
        ensures { result ≡ default_of self }
    {
        match self {
            Kind::I1 | Kind::U1 | Kind::I2 | Kind::U2 | Kind::I4 | Kind::U4 => Value::I4(0),
            Kind::I8 | Kind::U8 => Value::I8(0),
            Kind::Ref => Value::Null,
        }
    }
}
