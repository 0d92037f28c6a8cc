//! How a method is called.
ghost use Rattle.std.specs.Prelude.{◌≡◌};

use crate::kinds::Kinds;
use enc_objects::Kind;
use std::marker::Model;

/// How a method is called, by its signature (ECMA-335 II.23.2.1).
#[derive(Drop)]
pub struct MethodShape<'a> {
    this: bool,
    gives: Option<Kind>,
    takes: Kinds<'a>,
}

impl<'a> Model for MethodShape<'a> {
    ghost use Rattle.enc_machine_types.specs.Elements.{CallShape};

    ghost Value = { CallShape };

    ghost view = { λ s. record { this = s.this; gives = s.gives; takes = s.takes } };
}

impl<'a> MethodShape<'a> {
    /// A method with these parts.
    pub(crate) fn new(this: bool, gives: Option<Kind>, takes: Kinds<'a>) -> MethodShape<'a>
        ensures { result ≡ record { this = this; gives = gives; takes = takes.entry } }
    {
        MethodShape { this, gives, takes }
    }

    /// Whether it is called on an object.
    pub fn has_this(&self) -> bool
        ensures { result ≡ self.now.this }
    {
        self.this
    }

    /// The kind of what it gives, None where it gives nothing.
    pub fn gives(&self) -> Option<Kind>
        ensures { result ≡ self.now.gives }
    {
        self.gives
    }

    /// The kinds of what it takes, without the object.
    pub fn takes(&self) -> &Kinds<'a>
        ensures { result.now ≡ self.now.takes }
    {
        &self.takes
    }
}
