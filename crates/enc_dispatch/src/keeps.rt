//! Whether the rows that a delta lists keep what the index reads of them.
ghost use Rattle.std.specs.Prelude.{◌≡◌};
ghost use Rattle.std.specs.List.{list_all};
ghost use Rattle.enc_plain.specs.Known.{AreKnownAlike};
ghost use Rattle.enc_plain.specs.Module.{cells_of};
ghost use Rattle.enc_base.specs.Tables.{method_def, type_def};
ghost use Rattle.enc_dispatch.specs.Keeps.{keeps_signature, keeps_method, keeps_class, is_read, keeps_row, keeps};

use crate::path::is_same;
use enc_base::Token;
use enc_base::tables::{
    ASSEMBLY_REF, INTERFACE_IMPL, METHOD_DEF, METHOD_IMPL, MODULE_REF, STAND_ALONE_SIG, TYPE_DEF,
    TYPE_REF, TYPE_SPEC,
};
use enc_plain::{CellView, KnownAlike, ModuleView, Viewed, is_row};
use enc_schema::columns::{
    METHOD_DEF_FLAGS, METHOD_DEF_NAME, METHOD_DEF_SIGNATURE, TYPE_DEF_EXTENDS, TYPE_DEF_FLAGS,
};
use std::alloc::Global;

/// The most bytes of a signature that is compared by what it names, and not by its bytes alone:
/// thousands of methods may share one huge signature, and each of them may be listed.
const MOST_COMPARED: usize = 0x400;

/// A method has the same signature, or in place of a short one another that is alike.
#[tactic(auto, unfolding(enc_schema::specs::Schema::columns_in, crate::specs::Keeps::keeps_signature))]
fn keeps_signature<V: ModuleView, W: ModuleView>(
    before: &V,
    after: &W,
    known: &mut KnownAlike,
    method: Token,
) -> bool
    requires method { method.table ≡ method_def }
    requires known { AreKnownAlike (cells_of (W.meaning after.now)) (W.stored after.now) known.old }
    ensures keeps { result ≡ keeps_signature (V.meaning before.now) (W.meaning after.now) method }
    ensures known { AreKnownAlike (cells_of (W.meaning after.now)) (W.stored after.now) known.new }
{
    let old_rows = Viewed { view: before };
    let new_rows = Viewed { view: after };
    let old = old_rows.blob(method, METHOD_DEF_SIGNATURE);
    let new = new_rows.blob(method, METHOD_DEF_SIGNATURE);
    if old == new {
        return true;
    }
    if old.len() > MOST_COMPARED {
        return false;
    }
    known.signatures_alike(&new_rows, METHOD_DEF, old, new)
}

/// A method keeps its flags, name and signature.
#[tactic(auto, unfolding(enc_schema::specs::Schema::columns_in, crate::specs::Keeps::keeps_method))]
fn keeps_method<V: ModuleView, W: ModuleView>(
    before: &V,
    after: &W,
    known: &mut KnownAlike,
    method: Token,
) -> bool
    requires method { method.table ≡ method_def }
    requires known { AreKnownAlike (cells_of (W.meaning after.now)) (W.stored after.now) known.old }
    ensures keeps { result ≡ keeps_method (V.meaning before.now) (W.meaning after.now) method }
    ensures known { AreKnownAlike (cells_of (W.meaning after.now)) (W.stored after.now) known.new }
{
    let old = Viewed { view: before };
    let new = Viewed { view: after };
    if old.number(method, METHOD_DEF_FLAGS) != new.number(method, METHOD_DEF_FLAGS) {
        return false;
    }
    if old.text(method, METHOD_DEF_NAME) != new.text(method, METHOD_DEF_NAME) {
        return false;
    }
    keeps_signature(before, after, known, method)
}

/// A class keeps its flags, and what it extends.
#[tactic(auto, unfolding(enc_schema::specs::Schema::columns_in, crate::specs::Keeps::keeps_class))]
fn keeps_class<V: ModuleView, W: ModuleView>(before: &V, after: &W, class: Token) -> bool
    requires { class.table ≡ type_def }
    ensures { result ≡ keeps_class (V.meaning before.now) (W.meaning after.now) class }
{
    let old = Viewed { view: before };
    let new = Viewed { view: after };
    old.number(class, TYPE_DEF_FLAGS) == new.number(class, TYPE_DEF_FLAGS)
        && is_same(
            old.token(class, TYPE_DEF_EXTENDS),
            new.token(class, TYPE_DEF_EXTENDS),
        )
}

/// The index reads rows of the table, which is neither TypeDef nor MethodDef.
fn is_read(table: u8) -> bool
    ensures { result ≡ is_read table }
{
    table == TYPE_REF
        || table == ASSEMBLY_REF
        || table == MODULE_REF
        || table == TYPE_SPEC
        || table == METHOD_IMPL
        || table == INTERFACE_IMPL
        || table == STAND_ALONE_SIG
}

/// A row that was there keeps what is read of it.
#[tactic(auto, unfolding(crate::specs::Keeps::keeps_row))]
fn keeps_row<V: ModuleView, W: ModuleView>(
    before: &V,
    after: &W,
    known: &mut KnownAlike,
    row: Token,
) -> bool
    requires { AreKnownAlike (cells_of (W.meaning after.now)) (W.stored after.now) known.old }
    ensures keeps { result ≡ keeps_row (V.meaning before.now) (W.meaning after.now) row }
    ensures known { AreKnownAlike (cells_of (W.meaning after.now)) (W.stored after.now) known.new }
{
    if row.table == METHOD_DEF {
        return keeps_method(before, after, known, row);
    }
    if row.table == TYPE_DEF {
        return keeps_class(before, after, row);
    }
    !is_read(row.table)
}

/// The row is new, or keeps what is read of it.
#[tactic(auto, unfolding(crate::specs::Keeps::keeps))]
fn keeps<V: ModuleView, W: ModuleView>(
    before: &V,
    after: &W,
    known: &mut KnownAlike,
    row: Token,
) -> bool
    requires { AreKnownAlike (cells_of (W.meaning after.now)) (W.stored after.now) known.old }
    ensures keeps { result ≡ keeps (V.meaning before.now) (W.meaning after.now) row }
    ensures known { AreKnownAlike (cells_of (W.meaning after.now)) (W.stored after.now) known.new }
{
    if !is_row(before, row) {
        return true;
    }
    keeps_row(before, after, known, row)
}

/// Each of some rows is so. It takes memory for what is known of likeness, and for the pairs of
/// tokens of one signature at a time; without it, they are judged again.
pub(crate) fn all_keep<V: ModuleView, W: ModuleView>(
    alloc: Global,
    before: &V,
    after: &W,
    listed: &[Token],
) -> bool
    ensures { result ≡ list_all (keeps (V.meaning before.now) (W.meaning after.now)) listed.now }
{
    let mut known = KnownAlike::new(alloc);
    for row in listed {
        if !keeps(before, after, &mut known, *row) {
            return false;
        }
    }
    true
}
