//! The types of a thrown object.
ghost use Rattle.std.specs.Prelude.{◌≡◌, IsTrue};
ghost use Rattle.std.specs.List.{list_any};
ghost use Rattle.enc_base.specs.declared.token.Token.{Token as TheToken};
ghost use Rattle.enc_plain.specs.ClassPath.{is_class, class_base};
ghost use Rattle.enc_plain.specs.Alike.{tokens_alike};
ghost use Rattle.enc_plain.specs.Module.{cells_of};
ghost use Rattle.enc_base.specs.Tables.{type_def, type_ref};
ghost use Rattle.enc_unwind.specs.Thrown.{type_refs, types_of, is_of_type, is_caught_by};

use crate::thrown::Thrown;
use enc_base::Token;
use enc_base::tables::{TYPE_DEF, TYPE_REF};
use enc_plain::{CellView, ModuleView, Viewed, alike, is_of_system, is_row};
use enc_schema::columns::TYPE_DEF_EXTENDS;

/// Whether the token names a row of TypeDef.
fn is_class<V: ModuleView>(view: &V, token: Token) -> bool
    ensures class { result ≡ is_class (V.meaning view.now) token }
    ensures table { IsTrue result → token.table ≡ type_def }
{
    token.table == TYPE_DEF && is_row(view, token)
}

/// What a class extends, nil where it extends nothing (ECMA-335 II.22.37).
#[tactic(auto, unfolding(enc_plain::specs::ClassPath::class_base, enc_schema::specs::Schema::columns_in))]
fn class_base<V: ModuleView>(view: &V, class: Token) -> Token
    requires { class.table ≡ type_def }
    ensures { result ≡ class_base (V.meaning view.now) class }
{
    Viewed { view }.token(class, TYPE_DEF_EXTENDS)
}

/// Whether a token is a TypeRef that is alike another token.
fn is_type_ref_alike<V: ModuleView>(view: &V, token: Token, caught: Token) -> bool
    ensures { result ≡ list_any (λ (t : TheToken). tokens_alike (cells_of (V.meaning view.now)) t caught)
        (type_refs token) }
{
    token.table == TYPE_REF && alike(view, token, caught)
}

/// Whether an object of a class is of a type: a class of its path, or the TypeRef behind them, is alike
/// it. The path is climbed once, by as many steps as there are rows of TypeDef.
fn is_of_class<V: ModuleView>(view: &V, class: Token, caught: Token) -> bool
    ensures { result ≡ list_any (λ (t : TheToken). tokens_alike (cells_of (V.meaning view.now)) t caught)
        (types_of (V.meaning view.now) class) }
{
    let mut current = class;
    for _step in 0..view.count(TYPE_DEF) {
        if !is_class(view, current) {
            return is_type_ref_alike(view, current, caught);
        }
        if alike(view, current, caught) {
            return true;
        }
        current = class_base(view, current);
    }
    is_type_ref_alike(view, current, caught)
}

/// Whether a thrown object is of a type by what it is.
fn is_of_type<V: ModuleView>(view: &V, thrown: Thrown, caught: Token) -> bool
    ensures { result ≡ is_of_type (V.meaning view.now) thrown caught }
{
    match thrown {
        Thrown::Class(class) => is_of_class(view, class, caught),
        Thrown::Text => is_of_system(view, b"String", caught),
        Thrown::Array => false,
    }
}

/// Whether a catch clause of this class takes a thrown object: `System.Object` takes each, and another
/// class takes the objects that are of it (ECMA-335 III.4.31).
#[tactic(auto, unfolding(crate::specs::Thrown::is_caught_by))]
pub(crate) fn is_caught_by<V: ModuleView>(view: &V, thrown: Thrown, caught: Token) -> bool
    ensures { result ≡ is_caught_by (V.meaning view.now) thrown caught }
{
    is_of_system(view, b"Object", caught) || is_of_type(view, thrown, caught)
}
