//! Values as they are stored.
ghost use Rattle.std.specs.Prelude.{◌≡◌};
ghost use Rattle.enc_objects.specs.Places.{is_long, is_reference_kind, stored_as};

use crate::kind::Kind;
use crate::number::{cut, held};
use crate::value::Value;

impl Kind {
    /// Whether its values are integers of 64 bits.
    #[inline(always)]
    fn is_long(self) -> bool
        ensures { result ≡ is_long self }
    {
        match self {
            Kind::I8 | Kind::U8 => true,
            Kind::I1 | Kind::U1 | Kind::I2 | Kind::U2 | Kind::I4 | Kind::U4 | Kind::Ref => false,
        }
    }

    /// Whether its values are references.
    #[inline(always)]
    fn is_reference(self) -> bool
        ensures { result ≡ is_reference_kind self }
    {
        match self {
            Kind::Ref => true,
            Kind::I1 | Kind::U1 | Kind::I2 | Kind::U2 | Kind::I4 | Kind::U4 | Kind::I8 | Kind::U8 =>
                { false }
        }
    }

    /// A value as a place of the kind holds it: an integer is cut to the kind's width and extended by its
    /// sign (ECMA-335 III.1.6). None where it is of a wrong kind.
    #[inline(always)]
    #[tactic(auto, unfolding(crate::specs::Places::stored_as))]
    pub fn stored(self, value: Value) -> Option<Value>
        ensures { result ≡ stored_as self value }
    {
        match value {
            Value::I4(n) => {
                if self.is_long() || self.is_reference() {
                    return None;
                }
                Some(held(self, cut(self, i128::from(n))))
            }
            Value::I8(n) => {
                if !self.is_long() {
                    return None;
                }
                Some(held(self, cut(self, i128::from(n))))
            }
            Value::Null | Value::Obj(_) => {
                if !self.is_reference() {
                    return None;
                }
                Some(value)
            }
        }
    }
}
