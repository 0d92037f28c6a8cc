//! The types that declare methods, and the first touch of a type (ECMA-335 II.10.5.3).
ghost use Rattle.std.specs.Prelude.{◌≡◌, IsTrue, IfOk};
ghost use Rattle.enc_dispatch.specs.Target.{is_interface};
ghost use Rattle.enc_dispatch.specs.Walks.{is_virtual};
ghost use Rattle.enc_plain.specs.Module.{has_row};
ghost use Rattle.enc_base.specs.Tables.{method_def, type_def};
ghost use Rattle.enc_vm.specs.Calls.{call_touches, declaring};
ghost use Rattle.enc_vm.specs.TouchSeen.{first_touch};

use crate::touched::Touched;
use crate::world::World;
use enc_base::Token;
use enc_machine_types::{find_type_constructor, is_constructor, is_static_method};
use enc_plain::{CellView, ModuleView, Viewed};
use enc_schema::columns::{METHOD_DEF_FLAGS, TYPE_DEF_FLAGS};
use std::alloc::{AllocError, Global};

/// The type that declares a method (ECMA-335 II.22.37).
#[tactic(auto, using(crate::proofs::Declared::declared_steps))]
pub(crate) fn declaring<V: ModuleView>(view: &V, method: Token) -> Token
    requires row { IsTrue (has_row (V.meaning view.now) method) }
    requires table { method.table ≡ method_def }
    ensures owner { result ≡ declaring (V.meaning view.now) method }
    ensures table { result.table ≡ type_def }
    ensures row { IsTrue (has_row (V.meaning view.now) result) }
{
    view.owner(method)
}

/// The same of a method of the module on which a step stands: it is kept.
#[inline(always)]
#[tactic(auto, using(crate::proofs::Declared::declared_steps))]
pub(crate) fn declaring_in<V: ModuleView>(world: &World<'_, V>, method: Token) -> Token
    requires row { IsTrue (has_row (V.meaning world.now.view) method) }
    requires table { method.table ≡ method_def }
    ensures owner { result ≡ declaring (V.meaning world.now.view) method }
    ensures table { result.table ≡ type_def }
    ensures row { IsTrue (has_row (V.meaning world.now.view) result) }
{
    world.dispatch.owner(world.view, method)
}

/// Whether a type is an interface (ECMA-335 II.23.1.15).
#[tactic(auto, using(crate::proofs::Declared::type_flags))]
pub(crate) fn is_interface<V: ModuleView>(view: &V, token: Token) -> bool
    requires { token.table ≡ type_def }
    ensures { result ≡ is_interface (V.meaning view.now) token }
{
    let rows = Viewed { view };
    rows.number(token, TYPE_DEF_FLAGS) / 0x20 % 2 == 1
}

/// Whether a method is virtual (ECMA-335 II.23.1.10).
#[tactic(auto, using(enc_plain::proofs::ColumnKinds::method_flags))]
pub(crate) fn is_virtual<V: ModuleView>(view: &V, method: Token) -> bool
    requires { method.table ≡ method_def }
    ensures { result ≡ is_virtual (V.meaning view.now) method }
{
    let rows = Viewed { view };
    rows.number(method, METHOD_DEF_FLAGS) / 0x40 % 2 == 1
}

/// Whether a call of a method touches its type: where it is static or a constructor.
pub(crate) fn call_touches<V: ModuleView>(view: &V, method: Token) -> bool
    requires { method.table ≡ method_def }
    ensures { result ≡ call_touches (V.meaning view.now) method }
{
    is_static_method(view, method) || is_constructor(view, method)
}

/// The first touch of a type: the types that are touched then, and the type's constructor, where it has one.
#[derive(Drop)]
pub(crate) struct FirstTouch {
    pub touched: Touched,
    pub constructor: Option<Token>,
}

/// The touch of a type, None where it isn't its first.
pub(crate) fn first_touch<V: ModuleView>(
    alloc: Global,
    view: &V,
    touched: &Touched,
    token: Token,
) -> Result<Option<FirstTouch>, AllocError>
    requires row { IsTrue (has_row (V.meaning view.now) token) }
    requires table { token.table ≡ type_def }
    ensures { IfOk result (λ t. t ≡ first_touch (V.meaning view.now) token touched.now) }
{
    if touched.has(token) {
        return Ok(None);
    }
    let touched = touched.with(alloc, token)?;
    let constructor = find_type_constructor(alloc, view, token);
    Ok(Some(FirstTouch {
        touched,
        constructor,
    }))
}
