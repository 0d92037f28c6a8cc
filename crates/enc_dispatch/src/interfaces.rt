//! The rows of InterfaceImpl, by class and interface (ECMA-335 II.22.23).
ghost use Rattle.std.specs.Prelude.{◌≡◌, ◌<◌, ◌^◌, ◌≤◌, ◌-◌, ℕ, IfOk};
ghost use Rattle.enc_base.specs.Order.{or_else};
ghost use Rattle.enc_base.specs.declared.token.Token.{Token as TheToken};
ghost use Rattle.enc_key_map.specs.Index.{value_at};
ghost use Rattle.enc_plain.specs.Sound.{row_count};
ghost use Rattle.enc_base.specs.Tables.{interface_impl};
ghost use Rattle.enc_dispatch.specs.Entries.{earliest, where_none};
ghost use Rattle.enc_dispatch.specs.Growth.{later_answer};
ghost use Rattle.enc_dispatch.specs.Stored.{class_at, interface_key};
ghost use Rattle.enc_dispatch.specs.Interfaces.{says_interface};

use crate::columns::{INTERFACE_IMPL_CLASS, INTERFACE_IMPL_INTERFACE};
use crate::first::push_first;
use crate::keys::interface_key;
use enc_base::Token;
use enc_base::tables::{INTERFACE_IMPL, TYPE_DEF};
use enc_key_map::{Index, KeyEntry};
use enc_plain::{CellView, ModuleView, Viewed};
use std::alloc::{AllocError, Global};

/// Appends the n-th row of InterfaceImpl, from 0, where the index has none of its class and interface.
#[tactic(auto, unfolding(enc_schema::specs::Schema::columns_in))]
fn push_interface<V: ModuleView>(
    alloc: Global,
    view: &V,
    n: u32,
    index: &Index<Token>,
    interfaces: &mut Vec<KeyEntry<Token>>,
) -> Result<(), AllocError>
    requires { n < 2 ^ 24 }
    ensures { IfOk result (λ _. (class : ℕ) (i : TheToken) → earliest interfaces.new.items (interface_key class i)
        ≡ or_else (earliest interfaces.old.items (interface_key class i)) (where_none
        (value_at index.now (interface_key class i)) (says_interface (V.meaning view.now) (class_at class) i n))) }
{
    let rows = Viewed { view };
    let row = Token {
        table: INTERFACE_IMPL,
        row: n + 1,
    };
    let class = rows.token(row, INTERFACE_IMPL_CLASS);
    let interface = rows.token(row, INTERFACE_IMPL_INTERFACE);
    if class.table != TYPE_DEF {
        return Ok(());
    }
    let key = interface_key(class.row, interface);
    push_first(interfaces, alloc, index, key, interface)
}

/// The rows of InterfaceImpl behind the first so many, where the index has none of their class and
/// interface. It takes memory for each.
#[tactic(auto, using(crate::proofs::Put::later_one_more))]
pub(crate) fn interfaces_of<V: ModuleView>(
    alloc: Global,
    view: &V,
    read: u32,
    index: &Index<Token>,
) -> Result<Vec<KeyEntry<Token>>, AllocError>
    requires { read ≤ row_count (V.meaning view.now) interface_impl }
    ensures { IfOk result (λ interfaces. (class : ℕ) (i : TheToken) → earliest interfaces.items (interface_key class i)
        ≡ where_none (value_at index.now (interface_key class i)) (later_answer
        (says_interface (V.meaning view.now) (class_at class) i) read
        (row_count (V.meaning view.now) interface_impl - read))) }
{
    let mut interfaces = Vec::new(alloc);
    for k in 0..view.count(INTERFACE_IMPL) - read {
        push_interface(alloc, view, read + k, index, &mut interfaces)?;
    }
    Ok(interfaces)
}
