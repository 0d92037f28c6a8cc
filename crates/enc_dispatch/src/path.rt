//! The path of a class, climbed step by step (ECMA-335 II.22.37).
ghost use Rattle.std.specs.Prelude.{◌≡◌, ◌<◌, ◌+◌, ◌≤◌, Some, IfSome, length, option_map, slice_get};
ghost use Rattle.enc_base.specs.Token.{is_token};
ghost use Rattle.enc_dispatch.specs.Parts.{nth_part};
ghost use Rattle.enc_plain.specs.ClassPath.{is_on_path};
ghost use Rattle.enc_dispatch.specs.Walked.{class_part, left_in, path_in, path_with, is_interface_part, extends_in, has_interface_in, implements_in, from_interface_in, place_on};

use crate::class_part::ClassPart;
use crate::climb::Climb;
use crate::dispatch::Dispatch;
use crate::keys::interface_key;
use enc_base::Token;
use enc_base::tables::TYPE_DEF;

/// The n-th part from 1; there is none at 0.
pub(crate) fn nth_part<P: Copy>(parts: &[P], row: u32) -> Option<P>
    ensures { result ≡ nth_part parts.now row }
{
    if row == 0 {
        return None;
    }
    parts.get(row as usize - 1).copied()
}

/// The tokens are the same.
pub(crate) fn is_same(a: Token, b: Token) -> bool
    ensures { result ≡ is_token a b }
{
    a.table == b.table && a.row == b.row
}

impl Dispatch {
    /// The part of a class, None for any other token.
    #[tactic(auto, unfolding(crate::specs::Walked::class_part))]
    fn class(&self, token: Token) -> Option<ClassPart>
        ensures { result ≡ class_part self.now token }
    {
        if token.table != TYPE_DEF {
            return None;
        }
        nth_part(&self.classes, token.row)
    }

    /// The type is an interface (ECMA-335 II.23.1.15).
    pub(crate) fn is_interface(&self, token: Token) -> bool
        ensures { result ≡ is_interface_part (class_part self.now token) }
    {
        match self.class(token) {
            Some(part) => part.is_interface,
            None => false,
        }
    }

    /// The start of a class's path.
    pub(crate) fn path(&self, class: Token) -> Climb
        ensures path { left_in self.now result ≡ path_in self.now class }
        ensures left { result.left ≡ length self.now.classes }
    {
        Climb {
            class,
            left: self.classes.len() as u32,
        }
    }

    /// What is left behind the class where a climb stands, None where it has no class more.
    #[tactic(auto, using(crate::proofs::Climbs::climb_steps))]
    pub(crate) fn behind(&self, climb: Climb) -> Option<Climb>
        ensures path { left_in self.now climb ≡ path_with climb.class (option_map (left_in self.now) result) }
        ensures less { IfSome result (λ c. c.left < climb.left) }
    {
        if climb.left == 0 {
            return None;
        }
        let part = self.class(climb.class)?;
        Some(Climb {
            class: part.base,
            left: climb.left - 1,
        })
    }

    /// A class has an interface by a row of InterfaceImpl (ECMA-335 II.22.23).
    #[tactic(auto, unfolding(crate::specs::Walked::has_interface_in))]
    fn has_interface(&self, class: Token, interface: Token) -> bool
        ensures { result ≡ has_interface_in self.now class interface }
    {
        self.interfaces
            .get(interface_key(class.row, interface))
            .is_some()
    }

    /// The class is the base or extends it, in one step or more (ECMA-335 II.22.37). It takes no
    /// memory.
    pub(crate) fn has_on_path(&self, class: Token, base: Token) -> bool
        ensures { result ≡ extends_in self.now class base }
    {
        let mut climb = self.path(class);
        while let Some(rest) = self.behind(climb) {
            if is_same(climb.class, base) {
                return true;
            }
            climb = rest;
        }
        false
    }

    /// The climb where it first stands at a class that has the interface, or else at the end.
    pub(crate) fn from_interface(&self, class: Token, interface: Token) -> Climb
        ensures { left_in self.now result ≡ from_interface_in self.now interface (path_in self.now class) }
    {
        let mut climb = self.path(class);
        while let Some(rest) = self.behind(climb) {
            if self.has_interface(climb.class, interface) {
                return climb;
            }
            climb = rest;
        }
        climb
    }

    /// A class of the path has the interface.
    pub(crate) fn has_interface_on_path(&self, class: Token, interface: Token) -> bool
        ensures { result ≡ implements_in self.now class interface }
    {
        self.behind(self.from_interface(class, interface)).is_some()
    }

    /// The first place of a class on a path, from 0.
    #[tactic(auto, using(crate::proofs::Climbs::place_start))]
    pub(crate) fn place_on_path(&self, class: Token, base: Token) -> Option<u32>
        ensures { result ≡ place_on base (path_in self.now class) }
    {
        let mut climb = self.path(class);
        let mut place = 0;
        while let Some(rest) = self.behind(climb) {
            if is_same(climb.class, base) {
                return Some(place);
            }
            climb = rest;
            place += 1;
        }
        None
    }

    /// What a class extends; the token itself, where it is no class.
    fn base(&self, class: Token) -> Token
        ensures { IfSome (class_part self.now class) (λ p. result ≡ p.base) }
    {
        match self.class(class) {
            Some(part) => part.base,
            None => class,
        }
    }

    /// The n-th class of a path, from 0: it is climbed to anew.
    #[tactic(auto, using(crate::proofs::Climbs::nth_steps))]
    pub(crate) fn nth_class(&self, class: Token, n: u32) -> Token
        requires { n < length (path_in self.now class) }
        ensures { slice_get (path_in self.now class) n ≡ Some result }
    {
        let mut at = class;
        for _ in 0..n {
            at = self.base(at);
        }
        at
    }
}
