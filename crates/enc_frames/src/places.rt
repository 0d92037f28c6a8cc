//! The kinds of a frame's arguments and local variables, and of what instructions name.
ghost use Rattle.std.specs.Prelude.{◌≡◌, ◌<◌, slice_get, IsTrue, IfOk, Result, Ok, Err};
ghost use Rattle.enc_plain.specs.Module.{has_row};
ghost use Rattle.enc_base.specs.Tables.{field, method_def};
ghost use Rattle.enc_frames.specs.Straight.{named_method};
ghost use Rattle.enc_frames.specs.Memory.{named_field};
ghost use Rattle.enc_frames.specs.Straight.{argument_kinds, argument_kind, local_kind};

use crate::frame::Frame;
use crate::indexed_module::IndexedModule;
use enc_base::Token;
use enc_base::tables::{FIELD, METHOD_DEF};
use enc_machine_types::{MethodShape, field_kind, method_shape};
use enc_objects::{Kind, Trap};
use enc_plain::ModuleView;

/// The kind of what a method is called with, by its number: the object first, where it has one.
pub(crate) fn called_kind(shape: &MethodShape<'_>, n: u32) -> Option<Kind>
    ensures { result ≡ slice_get (argument_kinds shape.now) n }
{
    if !shape.has_this() {
        return shape.takes().get(n);
    }
    if n == 0 {
        return Some(Kind::Ref);
    }
    shape.takes().get(n - 1)
}

impl Frame {
    /// The kind of an argument, by the signature of the frame's method.
    #[tactic(auto, unfolding(crate::specs::Straight::argument_kind))]
    pub(crate) fn argument_kind<V: ModuleView>(&self, view: &V, n: u32) -> Option<Kind>
        ensures { result ≡ argument_kind (V.meaning view.now) self.now n }
    {
        if n as usize >= self.args.len() {
            return None;
        }
        let shape = method_shape(view, self.method)?;
        called_kind(&shape, n)
    }

    /// The kind of a local variable, by the signature that its code names.
    #[inline(always)]
    #[tactic(auto, unfolding(crate::specs::Straight::local_kind))]
    pub(crate) fn local_kind<V: ModuleView>(
        &self,
        module: &IndexedModule<'_, V>,
        n: u32,
    ) -> Option<Kind>
        ensures { result ≡ local_kind (V.meaning module.now) self.now.code.code.locals self.now n }
    {
        if n as usize >= self.locals.len() {
            return None;
        }
        module.local_kind(self.body().locals, n)
    }
}

/// The kind of a field that an instruction names.
#[tactic(auto, unfolding(crate::specs::Memory::named_field))]
pub fn named_field<V: ModuleView>(view: &V, token: Token) -> Result<Kind, Trap>
    ensures kind { result ≡ named_field (V.meaning view.now) token }
    ensures table { IfOk result (λ _. token.table ≡ field) }
    ensures row { IfOk result (λ _. IsTrue (has_row (V.meaning view.now) token)) }
{
    if token.table != FIELD {
        return Err(Trap::X2);
    }
    match field_kind(view, token) {
        None => Err(Trap::X2),
        Some(kind) => Ok(kind),
    }
}

/// How a method that an instruction names is called. X2 where there is no such row.
#[tactic(auto, unfolding(crate::specs::Straight::named_method))]
pub fn named_method<V: ModuleView>(view: &V, token: Token) -> Result<MethodShape<'_>, Trap>
    ensures shape { result ≡ named_method (V.meaning view.now) token }
    ensures table { IfOk result (λ _. token.table ≡ method_def) }
    ensures row { IfOk result (λ _. IsTrue (has_row (V.meaning view.now) token)) }
{
    if token.table != METHOD_DEF {
        return Err(Trap::X2);
    }
    match method_shape(view, token) {
        None => Err(Trap::X2),
        Some(shape) => Ok(shape),
    }
}
