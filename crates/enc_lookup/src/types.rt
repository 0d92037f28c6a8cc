//! Types by their names.
ghost use Rattle.std.specs.Prelude.{◌≡◌, ◌<◌, ◌^◌, IfSome, IsTrue};
ghost use Rattle.enc_base.specs.Order.{first_below};
ghost use Rattle.enc_lookup.specs.Types.{has_names, is_outermost, nested_at, outermost_at, type_named as the_type_named};
ghost use Rattle.enc_plain.specs.Module.{has_row};
ghost use Rattle.enc_plain.specs.Sound.{row_count};
ghost use Rattle.enc_base.specs.Tables.{nested_class, type_def};

use enc_base::Token;
use enc_base::tables::{NESTED_CLASS, TYPE_DEF};
use enc_plain::{CellView, ModuleView, Viewed, is_row};
use enc_schema::columns::{TYPE_DEF_FLAGS, TYPE_DEF_TYPE_NAME, TYPE_DEF_TYPE_NAMESPACE};

/// The type that a row of NestedClass says to be nested (ECMA-335 II.22.32).
const NESTED_CLASS_NESTED_CLASS: u8 = 0;
/// The type around it.
const NESTED_CLASS_ENCLOSING_CLASS: u8 = 1;

/// The low bits of a type's flags, which say who sees it, and whether it is nested (ECMA-335 II.23.1.15).
const VISIBILITY: u32 = 8;
/// From here on they say that it is nested.
const NESTED: u32 = 2;

/// A row of a module has a number below 2^24.
#[tactic(auto, unfolding(enc_plain::specs::Module::has_row))]
fn rows_are_few<V: ModuleView>(view: &V, token: Token)
    requires { IsTrue (has_row (V.meaning view.now) token) }
    ensures { token.row < 2 ^ 24 }
{
    let _ = view.count(token.table);
}

/// Whether a type of the module has these names.
#[tactic(auto, using(crate::proofs::NameColumns::type_steps), unfolding(crate::specs::Types::has_names))]
fn has_names<V: ModuleView>(view: &V, token: Token, namespace: &[u8], name: &[u8]) -> bool
    ensures names { result ≡ has_names (V.meaning view.now) namespace.now name.now token }
    ensures few { IsTrue result → token.row < 2 ^ 24 }
{
    if token.table != TYPE_DEF || !is_row(view, token) {
        return false;
    }
    rows_are_few(view, token);
    let rows = Viewed { view };
    rows.text(token, TYPE_DEF_TYPE_NAME) == name
        && rows.text(token, TYPE_DEF_TYPE_NAMESPACE) == namespace
}

/// Whether a type isn't nested, by its flags.
#[tactic(auto, using(crate::proofs::NameColumns::type_flags), unfolding(crate::specs::Types::is_outermost))]
fn is_outermost<V: ModuleView>(view: &V, token: Token) -> bool
    ensures { result ≡ is_outermost (V.meaning view.now) token }
{
    if token.table != TYPE_DEF {
        return false;
    }
    let rows = Viewed { view };
    rows.number(token, TYPE_DEF_FLAGS) % VISIBILITY < NESTED
}

/// The n-th type, n from 0, where it has these names and isn't nested.
#[tactic(auto, unfolding(crate::specs::Types::outermost_at))]
fn outermost_at<V: ModuleView>(view: &V, n: u32, namespace: &[u8], name: &[u8]) -> Option<Token>
    requires { n < 2 ^ 24 }
    ensures found { result ≡ outermost_at (V.meaning view.now) namespace.now name.now n }
    ensures few { IfSome result (λ t. t.row < 2 ^ 24) }
{
    let token = Token {
        table: TYPE_DEF,
        row: n + 1,
    };
    if has_names(view, token, namespace, name) && is_outermost(view, token) {
        Some(token)
    } else {
        None
    }
}

/// The type that the n-th row of NestedClass, n from 0, says to be nested in another, where it has these names.
#[tactic(auto, using(crate::proofs::NameColumns::class_cases), unfolding(crate::specs::Types::nested_at))]
fn nested_at<V: ModuleView>(
    view: &V,
    n: u32,
    enclosing: Token,
    namespace: &[u8],
    name: &[u8],
) -> Option<Token>
    requires { n < 2 ^ 24 }
    ensures found { result ≡ nested_at (V.meaning view.now) enclosing namespace.now name.now n }
    ensures few { IfSome result (λ t. t.row < 2 ^ 24) }
{
    let rows = Viewed { view };
    let row = Token {
        table: NESTED_CLASS,
        row: n + 1,
    };
    if rows.token(row, NESTED_CLASS_ENCLOSING_CLASS) != enclosing {
        return None;
    }
    let nested = rows.token(row, NESTED_CLASS_NESTED_CLASS);
    if has_names(view, nested, namespace, name) {
        Some(nested)
    } else {
        None
    }
}

/// The first type with these names that isn't nested.
#[tactic(auto, using(enc_base::proofs::First::first_steps))]
fn outermost<V: ModuleView>(view: &V, namespace: &[u8], name: &[u8]) -> Option<Token>
    ensures found { result ≡ first_below (outermost_at (V.meaning view.now) namespace.now name.now)
        (row_count (V.meaning view.now) type_def) }
    ensures few { IfSome result (λ t. t.row < 2 ^ 24) }
{
    for n in 0..view.count(TYPE_DEF) {
        let found = outermost_at(view, n, namespace, name);
        if found.is_some() {
            return found;
        }
    }
    None
}

/// The first type with these names that is nested in another.
#[tactic(auto, using(enc_base::proofs::First::first_steps))]
fn nested<V: ModuleView>(view: &V, enclosing: Token, namespace: &[u8], name: &[u8]) -> Option<Token>
    ensures found { result ≡ first_below (nested_at (V.meaning view.now) enclosing namespace.now name.now)
        (row_count (V.meaning view.now) nested_class) }
    ensures few { IfSome result (λ t. t.row < 2 ^ 24) }
{
    for n in 0..view.count(NESTED_CLASS) {
        let found = nested_at(view, n, enclosing, namespace, name);
        if found.is_some() {
            return found;
        }
    }
    None
}

/// The type with these names: nested in `enclosing`, or in none where this is nil. Of several it is the first, by the
/// order of TypeDef where none is around it, and else by that of NestedClass. None where there is none.
///
/// It takes no memory. It goes over the rows of TypeDef, or over those of NestedClass, up to the one that is found.
#[tactic(auto, unfolding(crate::specs::Types::type_named))]
pub fn type_named<V: ModuleView>(
    view: &V,
    enclosing: Token,
    namespace: &[u8],
    name: &[u8],
) -> Option<Token>
    ensures found { result ≡ the_type_named (V.meaning view.now) enclosing namespace.now name.now }
    ensures few { IfSome result (λ t. t.row < 2 ^ 24) }
{
    if enclosing.row == 0 {
        return outermost(view, namespace, name);
    }
    nested(view, enclosing, namespace, name)
}
