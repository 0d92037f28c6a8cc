//! The walks over a path, asked of a view.
ghost use Rattle.std.specs.Prelude.{◌≡◌, ◌<◌, ◌≤◌, ◌^◌, length, reverse, take, IfSome};
ghost use Rattle.enc_base.specs.Tables.{method_def, type_def};
ghost use Rattle.enc_dispatch.specs.Asked.{left_of, is_wanted};
ghost use Rattle.enc_plain.specs.ClassPath.{path_of};
ghost use Rattle.enc_dispatch.specs.Target.{turn, walk_down, class_target, given_by, first_given, interface_target, is_interface, declared_target};
ghost use Rattle.enc_dispatch.specs.Walks.{impl_at, impl_of, same_slot, takes_slot, meets, first_method};

use crate::climb::Climb;
use crate::columns::{METHOD_IMPL_BODY, METHOD_IMPL_CLASS, METHOD_IMPL_DECLARATION};
use crate::free_path::{behind, from_interface, is_class, nth_class, place_on_path};
use crate::own::flags_of;
use crate::path::is_same;
use crate::wanted::Wanted;
use enc_base::Token;
use enc_base::tables::{METHOD_DEF, METHOD_IMPL};
use enc_plain::{CellView, ModuleView, Viewed, signatures_alike};
use enc_schema::columns::{METHOD_DEF_NAME, METHOD_DEF_SIGNATURE, TYPE_DEF_FLAGS};

/// What the n-th row of MethodImpl, from 0, gives a class for either of two methods.
#[tactic(auto, unfolding(crate::specs::Walks::impl_at, enc_schema::specs::Schema::columns_in))]
fn impl_at<V: ModuleView>(
    view: &V,
    class: Token,
    declared: Token,
    current: Token,
    n: u32,
) -> Option<Token>
    requires { n < 2 ^ 24 }
    ensures given { result ≡ impl_at (V.meaning view.now) class declared current n }
    ensures table { IfSome result (λ body. body.table ≡ method_def) }
{
    let rows = Viewed { view };
    let row = Token {
        table: METHOD_IMPL,
        row: n + 1,
    };
    let body = rows.token(row, METHOD_IMPL_BODY);
    if !is_same(rows.token(row, METHOD_IMPL_CLASS), class) || body.table != METHOD_DEF {
        return None;
    }
    let declaration = rows.token(row, METHOD_IMPL_DECLARATION);
    if is_same(declaration, declared) || is_same(declaration, current) {
        return Some(body);
    }
    None
}

/// What a class's rows of MethodImpl give for either of two methods (ECMA-335 II.22.27).
#[tactic(auto, using(enc_base::proofs::First::first_steps), unfolding(crate::specs::Walks::impl_of))]
fn impl_of<V: ModuleView>(view: &V, class: Token, declared: Token, current: Token) -> Option<Token>
    ensures given { result ≡ impl_of (V.meaning view.now) class declared current }
    ensures table { IfSome result (λ body. body.table ≡ method_def) }
{
    for n in 0..view.count(METHOD_IMPL) {
        match impl_at(view, class, declared, current, n) {
            Some(body) => return Some(body),
            None => {}
        }
    }
    None
}

/// Methods of equal names and alike signatures (ECMA-335 II.10.3).
#[tactic(auto, unfolding(crate::specs::Walks::same_slot, enc_schema::specs::Schema::columns_in))]
fn same_slot<V: ModuleView>(view: &V, a: Token, b: Token) -> bool
    requires a { a.table ≡ method_def }
    requires b { b.table ≡ method_def }
    ensures { result ≡ same_slot (V.meaning view.now) a b }
{
    let rows = Viewed { view };
    if rows.text(a, METHOD_DEF_NAME) != rows.text(b, METHOD_DEF_NAME) {
        return false;
    }
    let left = rows.blob(a, METHOD_DEF_SIGNATURE);
    let right = rows.blob(b, METHOD_DEF_SIGNATURE);
    signatures_alike(&rows, METHOD_DEF, left, right)
}

/// A virtual method that takes the declared one's place.
#[tactic(auto, unfolding(crate::specs::Walks::takes_slot), using(crate::proofs::WalkSteps::method_is))]
fn takes_slot<V: ModuleView>(view: &V, declared: Token, method: Token) -> bool
    requires declared { declared.table ≡ method_def }
    requires method { method.table ≡ method_def }
    ensures { result ≡ takes_slot (V.meaning view.now) declared method }
{
    flags_of(view, method.row) / 0x40 % 2 == 1 && same_slot(view, method, declared)
}

/// A public one (ECMA-335 II.12.2).
#[tactic(auto, unfolding(crate::specs::Walks::meets), using(crate::proofs::WalkSteps::method_is))]
fn meets<V: ModuleView>(view: &V, declared: Token, method: Token) -> bool
    requires declared { declared.table ≡ method_def }
    requires method { method.table ≡ method_def }
    ensures { result ≡ meets (V.meaning view.now) declared method }
{
    flags_of(view, method.row) % 8 == 6 && takes_slot(view, declared, method)
}

/// Whether a method is wanted in the place of a declared one.
fn is_wanted<V: ModuleView>(view: &V, wanted: Wanted, declared: Token, method: Token) -> bool
    requires declared { declared.table ≡ method_def }
    requires method { method.table ≡ method_def }
    ensures { result ≡ is_wanted (V.meaning view.now) wanted declared method }
{
    match wanted {
        Wanted::Virtual => takes_slot(view, declared, method),
        Wanted::Public => meets(view, declared, method),
    }
}

/// The first of a class's methods, in order of attachment, that is wanted in a declared one's place.
fn first_method<V: ModuleView>(
    view: &V,
    wanted: Wanted,
    declared: Token,
    class: Token,
) -> Option<Token>
    requires { declared.table ≡ method_def }
    ensures first { result ≡ first_method (V.meaning view.now) (is_wanted (V.meaning view.now) wanted declared) class }
    ensures table { IfSome result (λ method. method.table ≡ method_def) }
{
    if !is_class(view, class) {
        return None;
    }
    for i in 0..view.kids(class, METHOD_DEF) {
        let method = view.kid(class, METHOD_DEF, i);
        if is_wanted(view, wanted, declared, method) {
            return Some(method);
        }
    }
    None
}

/// The current method behind a class, None where the class ends the walk (ECMA-335 II.10.3).
#[tactic(auto, unfolding(crate::specs::Target::turn), using(crate::proofs::WalkSteps::method_is))]
fn turn<V: ModuleView>(view: &V, declared: Token, current: Token, class: Token) -> Option<Token>
    requires { declared.table ≡ method_def }
    ensures { result ≡ turn (V.meaning view.now) declared current class }
{
    if let Some(body) = impl_of(view, class, declared, current) {
        return Some(body);
    }
    let Some(method) = first_method(view, Wanted::Virtual, declared, class) else {
        return Some(current);
    };
    if flags_of(view, method.row) / 0x100 % 2 == 1 {
        return None;
    }
    Some(method)
}

/// The walk down over the first so many classes of a path, each climbed to anew, to the object's class.
fn walk_down<V: ModuleView>(view: &V, class: Token, count: u32, declared: Token) -> Token
    requires count { count ≤ length (path_of (V.meaning view.now) class) }
    requires declared { declared.table ≡ method_def }
    ensures { result ≡ walk_down (V.meaning view.now) declared
        (reverse (take count (path_of (V.meaning view.now) class))) declared }
{
    let mut current = declared;
    let mut left = count;
    while left > 0 {
        left -= 1;
        let at = nth_class(view, class, left);
        let Some(next) = turn(view, declared, current, at) else {
            return current;
        };
        current = next;
    }
    current
}

/// The class walk, None where the declaring class isn't on the path (ECMA-335 I.8.10.4).
#[tactic(auto, using(crate::proofs::WalkSteps::class_steps, crate::proofs::Climbs::place_within))]
fn class_target<V: ModuleView>(
    view: &V,
    class: Token,
    declaring: Token,
    declared: Token,
) -> Option<Token>
    requires { declared.table ≡ method_def }
    ensures { result ≡ class_target (V.meaning view.now) class declaring declared }
{
    let count = place_on_path(view, class, declaring)?;
    Some(walk_down(view, class, count, declared))
}

/// What a class gives for a method of an interface, by MethodImpl before its own methods (ECMA-335 II.12.2).
#[tactic(auto, unfolding(crate::specs::Target::given_by))]
fn given_by<V: ModuleView>(view: &V, declared: Token, class: Token) -> Option<Token>
    requires { declared.table ≡ method_def }
    ensures given { result ≡ given_by (V.meaning view.now) declared class }
    ensures table { IfSome result (λ method. method.table ≡ method_def) }
{
    if let Some(body) = impl_of(view, class, declared, declared) {
        return Some(body);
    }
    first_method(view, Wanted::Public, declared, class)
}

/// The first class of a climb that gives a method, with what it gives.
fn first_given<V: ModuleView>(view: &V, declared: Token, from: Climb) -> Option<(Token, Token)>
    requires { declared.table ≡ method_def }
    ensures given { result ≡ first_given (V.meaning view.now) declared (left_of (V.meaning view.now) from) }
    ensures table { IfSome result (λ g. g.1.table ≡ method_def) }
{
    let mut climb = from;
    while let Some(rest) = behind(view, climb) {
        if let Some(method) = given_by(view, declared, climb.class) {
            return Some((climb.class, method));
        }
        climb = rest;
    }
    None
}

/// The interface walk, from the first class that has the interface, and the class walk of what is given there.
#[tactic(auto, unfolding(crate::specs::Target::interface_target))]
fn interface_target<V: ModuleView>(
    view: &V,
    class: Token,
    interface: Token,
    declared: Token,
) -> Option<Token>
    requires { declared.table ≡ method_def }
    ensures { result ≡ interface_target (V.meaning view.now) class interface declared }
{
    let from = from_interface(view, class, interface);
    let (giving, method) = first_given(view, declared, from)?;
    class_target(view, class, giving, method)
}

/// The type is an interface (ECMA-335 II.23.1.15).
#[tactic(auto, unfolding(enc_schema::specs::Schema::columns_in))]
fn is_interface<V: ModuleView>(view: &V, token: Token) -> bool
    requires { token.table ≡ type_def }
    ensures { result ≡ is_interface (V.meaning view.now) token }
{
    let rows = Viewed { view };
    rows.number(token, TYPE_DEF_FLAGS) / 0x20 % 2 == 1
}

/// By the type that declares the method.
#[tactic(auto, unfolding(crate::specs::Target::declared_target))]
pub(crate) fn declared_target<V: ModuleView>(
    view: &V,
    class: Token,
    declared: Token,
    declaring: Token,
) -> Option<Token>
    requires declared { declared.table ≡ method_def }
    requires declaring { declaring.table ≡ type_def }
    ensures { result ≡ declared_target (V.meaning view.now) class declared declaring }
{
    if is_interface(view, declaring) {
        return interface_target(view, class, declaring, declared);
    }
    class_target(view, class, declaring, declared)
}
