ghost use Rattle.std.specs.Prelude.{◌≡◌, slice_get, length, option_map};

use crate::elem::Elem;
use crate::kind::SigKind;
use std::marker::Model;

/// What stands in a signature.
#[derive(Debug, Drop)]
pub(crate) struct Front {
    pub(crate) form: SigKind,
    pub(crate) kind: u8,
    pub(crate) generics: u32,
    pub(crate) parts: Vec<Elem>,
}

impl Model for Front {
    ghost use Rattle.std.specs.Prelude.{◌<◌, ◌^◌, length};
    ghost use Rattle.enc_sigs.specs.Tree.{SigTree, coded_sig};

    ghost Value = { SigTree };

    ghost coded = { coded_sig };

    ghost view = { λ a. record { form = a.form; kind = a.kind; generics = a.generics; parts = a.parts.items } };

    ghost invariant = { λ a. length a.parts.items < 2 ^ 32 };
}

impl Front {
    /// How many parts there are.
    fn count(&self) -> u32
        ensures { result ≡ length self.now.parts }
    {
        self.parts.len() as u32
    }

    /// The i-th part, from 0; None past the end.
    fn part(&self, i: u32) -> Option<&Elem>
        ensures { option_map (λ x. x.now) result ≡ slice_get self.now.parts i }
    {
        self.parts.get(i as usize)
    }
}

/// A signature that was read (ECMA-335 II.23.2).
#[derive(Debug, Drop)]
pub struct Sig {
    pub(crate) front: Front,
}

impl Model for Sig {
    ghost use Rattle.enc_sigs.specs.Spelling.{IsSpelled};
    ghost use Rattle.enc_sigs.specs.Tree.{SigTree, coded_sig};

    ghost Value = { SigTree };

    ghost coded = { coded_sig };

    ghost view = { λ a. a.front };

    ghost invariant = { λ a. IsSpelled a.front };
}

impl Sig {
    /// What it is of.
    pub fn form(&self) -> SigKind
        ensures { result ≡ self.now.form }
    {
        self.front.form
    }

    /// Its first byte as it stands, 0 of a type spec.
    pub fn kind(&self) -> u8
        ensures { result ≡ self.now.kind }
    {
        self.front.kind
    }

    /// The count of generic parameters behind flag 10, else 0.
    pub fn generics(&self) -> u32
        ensures { result ≡ self.now.generics }
    {
        self.front.generics
    }

    /// The number of parts: of a method or property 1 more than its parameters.
    pub fn count(&self) -> u32
        ensures { result ≡ length self.now.parts }
    {
        self.front.count()
    }

    /// The i-th part, from 0; None past the end. Part 0 of a method is its return type, of a
    /// property its type.
    pub fn part(&self, i: u32) -> Option<&Elem>
        ensures { option_map (λ x. x.now) result ≡ slice_get self.now.parts i }
    {
        self.front.part(i)
    }
}
