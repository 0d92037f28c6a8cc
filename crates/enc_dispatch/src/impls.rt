//! The rows of MethodImpl, by class and declaration (ECMA-335 II.22.27).
ghost use Rattle.std.specs.Prelude.{◌≡◌, ◌<◌, ◌^◌, ◌≤◌, ◌-◌, ◌&&◌, ◌==◌, ℕ, IfOk};
ghost use Rattle.enc_base.specs.Order.{or_else};
ghost use Rattle.enc_key_map.specs.Index.{value_at};
ghost use Rattle.enc_plain.specs.Sound.{row_count};
ghost use Rattle.enc_base.specs.Tables.{method_def, method_impl, type_def};
ghost use Rattle.enc_dispatch.specs.Entries.{earliest, where_none};
ghost use Rattle.enc_dispatch.specs.Growth.{later_answer};
ghost use Rattle.enc_dispatch.specs.Stored.{impl_key, impl_for};

use crate::columns::{METHOD_IMPL_BODY, METHOD_IMPL_CLASS, METHOD_IMPL_DECLARATION};
use crate::first::push_first;
use crate::impl_part::ImplPart;
use crate::keys::impl_key;
use enc_base::Token;
use enc_base::tables::{METHOD_DEF, METHOD_IMPL, TYPE_DEF};
use enc_key_map::{Index, KeyEntry};
use enc_plain::{CellView, ModuleView, Viewed};
use std::alloc::{AllocError, Global};

/// Whether a row of MethodImpl gives a class a MethodDef for another.
fn is_given(class: Token, body: Token, declaration: Token) -> bool
    ensures { result ≡ (class.table == type_def && body.table == method_def && declaration.table == method_def) }
{
    class.table == TYPE_DEF && body.table == METHOD_DEF && declaration.table == METHOD_DEF
}

/// Appends the n-th row of MethodImpl, from 0, where it gives a class a MethodDef for another, and the
/// index has none that does so.
#[tactic(auto, unfolding(enc_schema::specs::Schema::columns_in))]
fn push_impl<V: ModuleView>(
    alloc: Global,
    view: &V,
    n: u32,
    index: &Index<ImplPart>,
    impls: &mut Vec<KeyEntry<ImplPart>>,
) -> Result<(), AllocError>
    requires { n < 2 ^ 24 }
    ensures { IfOk result (λ _. (class declaration : ℕ) → earliest impls.new.items (impl_key class declaration)
        ≡ or_else (earliest impls.old.items (impl_key class declaration)) (where_none
        (value_at index.now (impl_key class declaration)) (impl_for (V.meaning view.now) class declaration n))) }
{
    let rows = Viewed { view };
    let row = Token {
        table: METHOD_IMPL,
        row: n + 1,
    };
    let class = rows.token(row, METHOD_IMPL_CLASS);
    let body = rows.token(row, METHOD_IMPL_BODY);
    let declaration = rows.token(row, METHOD_IMPL_DECLARATION);
    if !is_given(class, body, declaration) {
        return Ok(());
    }
    let part = ImplPart {
        number: n,
        body: body.row,
    };
    push_first(
        impls,
        alloc,
        index,
        impl_key(class.row, declaration.row),
        part,
    )
}

/// The rows of MethodImpl behind the first so many that give a class a MethodDef for another, where the
/// index has none. It takes memory for each.
#[tactic(auto, using(crate::proofs::Put::later_one_more))]
pub(crate) fn impls_of<V: ModuleView>(
    alloc: Global,
    view: &V,
    read: u32,
    index: &Index<ImplPart>,
) -> Result<Vec<KeyEntry<ImplPart>>, AllocError>
    requires { read ≤ row_count (V.meaning view.now) method_impl }
    ensures { IfOk result (λ impls. (class declaration : ℕ) → earliest impls.items (impl_key class declaration)
        ≡ where_none (value_at index.now (impl_key class declaration)) (later_answer
        (impl_for (V.meaning view.now) class declaration) read (row_count (V.meaning view.now) method_impl - read))) }
{
    let mut impls = Vec::new(alloc);
    for k in 0..view.count(METHOD_IMPL) - read {
        push_impl(alloc, view, read + k, index, &mut impls)?;
    }
    Ok(impls)
}
