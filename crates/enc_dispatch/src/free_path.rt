//! The path of a class, climbed over a view of its module (ECMA-335 II.22.37).
ghost use Rattle.std.specs.Prelude.{◌≡◌, ◌<◌, ◌^◌, Some, IfSome, IsTrue, length, option_map, slice_get};
ghost use Rattle.enc_base.specs.Order.{first_below};
ghost use Rattle.enc_plain.specs.Sound.{row_count};
ghost use Rattle.enc_base.specs.Tables.{interface_impl, type_def};
ghost use Rattle.enc_dispatch.specs.Asked.{left_of};
ghost use Rattle.enc_plain.specs.ClassPath.{is_class, class_base, path_of};
ghost use Rattle.enc_dispatch.specs.Interfaces.{says_interface, has_interface};
ghost use Rattle.enc_dispatch.specs.Target.{from_interface};
ghost use Rattle.enc_dispatch.specs.Walked.{path_with, place_on};

use crate::climb::Climb;
use crate::columns::{INTERFACE_IMPL_CLASS, INTERFACE_IMPL_INTERFACE};
use crate::path::is_same;
use enc_base::Token;
use enc_base::tables::{INTERFACE_IMPL, TYPE_DEF};
use enc_plain::{CellView, ModuleView, Viewed, is_row};
use enc_schema::columns::TYPE_DEF_EXTENDS;

/// The token names a row of TypeDef.
pub(crate) fn is_class<V: ModuleView>(view: &V, token: Token) -> bool
    ensures { result ≡ is_class (V.meaning view.now) token }
{
    token.table == TYPE_DEF && is_row(view, token)
}

/// What a class extends; the token itself, where it is none of TypeDef.
#[tactic(auto, unfolding(enc_plain::specs::ClassPath::class_base, enc_schema::specs::Schema::columns_in))]
fn base<V: ModuleView>(view: &V, class: Token) -> Token
    ensures { class.table ≡ type_def → result ≡ class_base (V.meaning view.now) class }
{
    if class.table != TYPE_DEF {
        return class;
    }
    let rows = Viewed { view };
    rows.token(class, TYPE_DEF_EXTENDS)
}

/// The start of a class's path.
fn path<V: ModuleView>(view: &V, class: Token) -> Climb
    ensures path { left_of (V.meaning view.now) result ≡ path_of (V.meaning view.now) class }
    ensures few { result.left < 2 ^ 24 }
{
    Climb {
        class,
        left: view.count(TYPE_DEF),
    }
}

/// What is left behind the class where a climb stands, None where it has no class more.
#[tactic(auto, using(crate::proofs::PathSteps::left_steps))]
pub(crate) fn behind<V: ModuleView>(view: &V, climb: Climb) -> Option<Climb>
    ensures path { left_of (V.meaning view.now) climb
        ≡ path_with climb.class (option_map (left_of (V.meaning view.now)) result) }
    ensures less { IfSome result (λ c. c.left < climb.left) }
{
    if climb.left == 0 {
        return None;
    }
    if !is_class(view, climb.class) {
        return None;
    }
    Some(Climb {
        class: base(view, climb.class),
        left: climb.left - 1,
    })
}

/// The interface, where the n-th row of InterfaceImpl, from 0, says that a class has it.
#[tactic(auto, unfolding(crate::specs::Interfaces::says_interface, enc_schema::specs::Schema::columns_in))]
fn says_interface<V: ModuleView>(view: &V, class: Token, interface: Token, n: u32) -> Option<Token>
    requires { n < 2 ^ 24 }
    ensures { result ≡ says_interface (V.meaning view.now) class interface n }
{
    let rows = Viewed { view };
    let row = Token {
        table: INTERFACE_IMPL,
        row: n + 1,
    };
    if !is_same(rows.token(row, INTERFACE_IMPL_CLASS), class) {
        return None;
    }
    if !is_same(rows.token(row, INTERFACE_IMPL_INTERFACE), interface) {
        return None;
    }
    Some(interface)
}

/// The interface, where the first row of InterfaceImpl that says so is there.
#[tactic(auto, using(enc_base::proofs::First::first_steps))]
fn said_interface<V: ModuleView>(view: &V, class: Token, interface: Token) -> Option<Token>
    ensures { result ≡ first_below (says_interface (V.meaning view.now) class interface)
        (row_count (V.meaning view.now) interface_impl) }
{
    for n in 0..view.count(INTERFACE_IMPL) {
        match says_interface(view, class, interface, n) {
            Some(said) => return Some(said),
            None => {}
        }
    }
    None
}

/// A class has an interface by a row of InterfaceImpl (ECMA-335 II.22.23).
#[tactic(auto, unfolding(crate::specs::Interfaces::has_interface))]
fn has_interface<V: ModuleView>(view: &V, class: Token, interface: Token) -> bool
    ensures { result ≡ has_interface (V.meaning view.now) class interface }
{
    said_interface(view, class, interface).is_some()
}

/// The climb where it first stands at a class that has the interface, or else at the end.
pub(crate) fn from_interface<V: ModuleView>(view: &V, class: Token, interface: Token) -> Climb
    ensures { left_of (V.meaning view.now) result
        ≡ from_interface (V.meaning view.now) interface (path_of (V.meaning view.now) class) }
{
    let mut climb = path(view, class);
    while let Some(rest) = behind(view, climb) {
        if has_interface(view, climb.class, interface) {
            return climb;
        }
        climb = rest;
    }
    climb
}

/// The first place of a class on a path, from 0.
#[tactic(auto, using(crate::proofs::Climbs::place_start))]
pub(crate) fn place_on_path<V: ModuleView>(view: &V, class: Token, base: Token) -> Option<u32>
    ensures { result ≡ place_on base (path_of (V.meaning view.now) class) }
{
    let mut climb = path(view, class);
    let mut place = 0;
    while let Some(rest) = behind(view, climb) {
        if is_same(climb.class, base) {
            return Some(place);
        }
        climb = rest;
        place += 1;
    }
    None
}

/// The n-th class of a path, from 0: it is climbed to anew.
#[tactic(auto, using(crate::proofs::PathSteps::nth_steps))]
pub(crate) fn nth_class<V: ModuleView>(view: &V, class: Token, n: u32) -> Token
    requires { n < length (path_of (V.meaning view.now) class) }
    ensures { slice_get (path_of (V.meaning view.now) class) n ≡ Some result }
{
    let mut at = class;
    for _ in 0..n {
        at = base(view, at);
    }
    at
}
