//! What the interpreter sees of fields and methods (ECMA-335 II.22.15, II.22.26).
ghost use Rattle.std.specs.Prelude.{◌≡◌, Some, IfSome, IsTrue, option_and_then, slice_get};
ghost use Rattle.enc_machine_types.specs.Elements.{takes_nothing};
ghost use Rattle.enc_schema.specs.Columns.{method_def_signature};
ghost use Rattle.enc_base.specs.Tables.{field, method_def, type_def};
ghost use Rattle.enc_plain.specs.Cell.{blobs, kind_in};
ghost use Rattle.enc_plain.specs.Module.{cells_of, has_row};
ghost use Rattle.enc_plain.specs.Rows.{bytes_at};
ghost use Rattle.enc_machine_types.specs.Members.{call_shape, field_kind, local_kinds, is_static_method, is_named_as, is_constructor, is_type_constructor, constructor_among, type_constructor};

use crate::kinds::Kinds;
use crate::shape::MethodShape;
use crate::signature::{
    call_shape_in, field_kind_in, local_kind_in, local_kinds_in, takes_nothing,
};
use enc_base::Token;
use enc_base::tables::{METHOD_DEF, STAND_ALONE_SIG};
use enc_objects::Kind;
use enc_plain::{CellView, ModuleView, Viewed, is_row};
use enc_schema::columns::{
    FIELD_SIGNATURE, METHOD_DEF_FLAGS, METHOD_DEF_NAME, METHOD_DEF_SIGNATURE,
    STAND_ALONE_SIG_SIGNATURE,
};
use std::alloc::Global;

/// The blob in a row's column, without bytes where there is no such row.
#[tactic(auto, using(enc_plain::proofs::CellsOf::blob_there, enc_plain::proofs::CellsOf::bytes_absent))]
fn blob_of<V: ModuleView>(view: &V, row: Token, column: u8) -> &[u8]
    requires { kind_in row.table column ≡ Some blobs }
    ensures { result.now ≡ bytes_at (cells_of (V.meaning view.now)) row column }
{
    if !is_row(view, row) {
        return &[];
    }
    view.blob(row, column)
}

/// How a method is called, None where it isn't of the plain calling convention, where it is generic, or
/// where a type has no kind (ECMA-335 II.22.26, II.23.2.1).
#[tactic(auto, using(enc_plain::proofs::ColumnKinds::method_signature, crate::proofs::Absent::no_shape))]
pub fn method_shape<V: ModuleView>(view: &V, method: Token) -> Option<MethodShape<'_>>
    requires { method.table ≡ method_def }
    ensures shape { result ≡ call_shape (V.meaning view.now) method }
    ensures row { IfSome result (λ _. IsTrue (has_row (V.meaning view.now) method)) }
{
    if !is_row(view, method) {
        return None;
    }
    call_shape_in(blob_of(view, method, METHOD_DEF_SIGNATURE))
}

/// The kind of a field, None where its type has none (ECMA-335 II.22.15, II.23.2.4).
#[tactic(auto, using(enc_plain::proofs::ColumnKinds::field_signature, crate::proofs::Absent::no_kind))]
pub fn field_kind<V: ModuleView>(view: &V, member: Token) -> Option<Kind>
    requires { member.table ≡ field }
    ensures kind { result ≡ field_kind (V.meaning view.now) member }
    ensures row { IfSome result (λ _. IsTrue (has_row (V.meaning view.now) member)) }
{
    if !is_row(view, member) {
        return None;
    }
    let rows = Viewed { view };
    field_kind_in(rows.blob(member, FIELD_SIGNATURE))
}

/// The kinds of a body's local variables, none where its token is nil; None where a type has no kind, and
/// where the token names no signature (ECMA-335 II.25.4.4, II.23.2.6).
#[tactic(auto, using(enc_plain::proofs::ColumnKinds::alone_kind), unfolding(crate::specs::Members::local_kinds))]
pub fn local_kinds<V: ModuleView>(view: &V, locals: Token) -> Option<Kinds<'_>>
    ensures { result ≡ local_kinds (V.meaning view.now) locals }
{
    if locals.row == 0 {
        return Some(Kinds::none());
    }
    if locals.table != STAND_ALONE_SIG {
        return None;
    }
    local_kinds_in(blob_of(view, locals, STAND_ALONE_SIG_SIGNATURE))
}

/// The kind of one of a body's local variables, by its number from 0: the same as `local_kinds`, and then its
/// n-th, in one pass over the signature (ECMA-335 II.25.4.4, II.23.2.6).
#[tactic(auto, using(enc_plain::proofs::ColumnKinds::alone_kind), unfolding(crate::specs::Members::local_kinds))]
pub fn local_kind_at<V: ModuleView>(view: &V, locals: Token, n: u32) -> Option<Kind>
    ensures { result ≡ option_and_then (λ ks. slice_get ks n) (local_kinds (V.meaning view.now) locals) }
{
    if locals.row == 0 {
        return None;
    }
    if locals.table != STAND_ALONE_SIG {
        return None;
    }
    local_kind_in(blob_of(view, locals, STAND_ALONE_SIG_SIGNATURE), n)
}

/// Whether a method is static (ECMA-335 II.23.1.10).
#[tactic(auto, using(enc_plain::proofs::ColumnKinds::method_flags))]
pub fn is_static_method<V: ModuleView>(view: &V, method: Token) -> bool
    requires { method.table ≡ method_def }
    ensures { result ≡ is_static_method (V.meaning view.now) method }
{
    let rows = Viewed { view };
    rows.number(method, METHOD_DEF_FLAGS) / 0x10 % 2 == 1
}

/// Whether a method has this name.
#[tactic(auto, using(enc_plain::proofs::ColumnKinds::method_name))]
fn is_named_as<V: ModuleView>(view: &V, name: &[u8], method: Token) -> bool
    requires { method.table ≡ method_def }
    ensures { result ≡ is_named_as (V.meaning view.now) name.now method }
{
    let rows = Viewed { view };
    rows.text(method, METHOD_DEF_NAME) == name
}

/// Whether a method is a constructor of objects, by its name (ECMA-335 II.10.5.1).
pub fn is_constructor<V: ModuleView>(view: &V, method: Token) -> bool
    requires { method.table ≡ method_def }
    ensures { result ≡ is_constructor (V.meaning view.now) method }
{
    is_named_as(view, b".ctor".as_slice(), method)
}

/// Whether a method is called without an object and without parameters (ECMA-335 II.23.2.1).
#[tactic(auto, using(enc_plain::proofs::ColumnKinds::method_signature))]
pub fn is_called_with_nothing<V: ModuleView>(view: &V, method: Token) -> bool
    requires { method.table ≡ method_def }
    ensures { result ≡ takes_nothing (bytes_at (cells_of (V.meaning view.now)) method method_def_signature) }
{
    let rows = Viewed { view };
    takes_nothing(rows.blob(method, METHOD_DEF_SIGNATURE))
}

/// Whether a method is the constructor of a type: static, without parameters, by its name (ECMA-335
/// II.10.5.3).
#[tactic(auto, unfolding(crate::specs::Members::is_type_constructor))]
fn is_type_constructor<V: ModuleView>(view: &V, method: Token) -> bool
    requires { method.table ≡ method_def }
    ensures { result ≡ is_type_constructor (V.meaning view.now) method }
{
    is_named_as(view, b".cctor".as_slice(), method)
        && is_static_method(view, method)
        && is_called_with_nothing(view, method)
}

/// The first constructor of a type among rows of its methods.
fn constructor_among<V: ModuleView>(view: &V, rows: &[u32]) -> Option<Token>
    ensures { result ≡ constructor_among (V.meaning view.now) rows.now }
{
    for row in rows {
        let method = Token {
            table: METHOD_DEF,
            row: *row,
        };
        if is_type_constructor(view, method) {
            return Some(method);
        }
    }
    None
}

/// The same as `type_constructor`, and it goes over the type's methods once, also where the module has
/// MethodPtr rows. For this it takes memory for their rows; without it, it asks for one after the
/// other.
#[tactic(auto, unfolding(crate::specs::Members::type_constructor))]
pub fn find_type_constructor<V: ModuleView>(alloc: Global, view: &V, owner: Token) -> Option<Token>
    requires row { IsTrue (has_row (V.meaning view.now) owner) }
    requires table { owner.table ≡ type_def }
    ensures { result ≡ type_constructor (V.meaning view.now) owner }
{
    match view.kid_rows(alloc, owner, METHOD_DEF) {
        Ok(rows) => constructor_among(view, rows.as_slice()),
        Err(_) => type_constructor(view, owner),
    }
}

/// The first constructor of a type in order of attachment, None where it has none (ECMA-335
/// II.10.5.3). Where the module has MethodPtr rows, each method costs the rows in front of it.
pub fn type_constructor<V: ModuleView>(view: &V, owner: Token) -> Option<Token>
    requires row { IsTrue (has_row (V.meaning view.now) owner) }
    requires table { owner.table ≡ type_def }
    ensures { result ≡ type_constructor (V.meaning view.now) owner }
{
    for i in 0..view.kids(owner, METHOD_DEF) {
        let method = view.kid(owner, METHOD_DEF, i);
        if is_type_constructor(view, method) {
            return Some(method);
        }
    }
    None
}
