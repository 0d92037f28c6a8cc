//! Casts (ECMA-335 III.4.3, III.4.6).
ghost use Rattle.std.specs.Prelude.{◌≡◌, ◌||◌, if◌then◌else◌, IsTrue};
ghost use Rattle.enc_dispatch.specs.Index.{StandsForModule};
ghost use Rattle.enc_plain.specs.ClassPath.{is_class, extends};
ghost use Rattle.enc_dispatch.specs.Interfaces.{implements};
ghost use Rattle.enc_objects.specs.declared.value.Value.TheVariants.{Null};
ghost use Rattle.enc_plain.specs.Module.{has_row};
ghost use Rattle.enc_frames.specs.Does.{Does};
ghost use Rattle.enc_frames.specs.Memory.{is_cast_type, is_instance_of, shape_is_of, is_null_or_of, cast_to, instance_or_null};

use crate::frame::Frame;
use crate::stop::Stop;
use crate::values::reference;
use enc_base::Token;
use enc_base::tables::TYPE_DEF;
use enc_dispatch::Dispatch;
use enc_objects::{Objects, Shape, Trap, Value};
use enc_plain::{ModuleView, is_of_system, is_row};

/// Whether a token names a row of TypeDef.
fn is_class<V: ModuleView>(view: &V, token: Token) -> bool
    ensures { result ≡ is_class (V.meaning view.now) token }
{
    token.table == TYPE_DEF && is_row(view, token)
}

/// Whether a cast can ask for a type: for a TypeDef, `System.Object` or `System.String`.
#[tactic(auto, using(crate::proofs::CastTypes::cast_row), unfolding(crate::specs::Memory::is_cast_type))]
fn is_cast_type<V: ModuleView>(view: &V, token: Token) -> bool
    ensures cast { result ≡ is_cast_type (V.meaning view.now) token }
    ensures row { IsTrue result → IsTrue (has_row (V.meaning view.now) token) }
{
    is_class(view, token)
        || is_of_system(view, b"Object", token)
        || is_of_system(view, b"String", token)
}

/// Whether a class is a type or extends it, or has it as an interface (ECMA-335 I.8.7.1).
fn is_of_class<V: ModuleView>(view: &V, dispatch: &Dispatch, class: Token, token: Token) -> bool
    requires row { IsTrue (has_row (V.meaning view.now) token) }
    requires stands { StandsForModule dispatch.now (V.meaning view.now) }
    ensures { result ≡ (extends (V.meaning view.now) class token || implements (V.meaning view.now) class token) }
{
    if !is_row(view, class) {
        return false;
    }
    dispatch.extends(class, token) || dispatch.implements(class, token)
}

/// Whether an object of a shape is of a type: each is of `System.Object`.
#[tactic(auto, unfolding(crate::specs::Memory::is_instance_of))]
fn is_instance_of<V: ModuleView>(view: &V, dispatch: &Dispatch, shape: Shape, token: Token) -> bool
    requires row { IsTrue (has_row (V.meaning view.now) token) }
    requires stands { StandsForModule dispatch.now (V.meaning view.now) }
    ensures { result ≡ is_instance_of (V.meaning view.now) token shape }
{
    if is_of_system(view, b"Object", token) {
        return true;
    }
    match shape {
        Shape::Object(class) => is_class(view, token) && is_of_class(view, dispatch, class, token),
        Shape::Text(_) => is_of_system(view, b"String", token),
        Shape::Array(_, _) => false,
    }
}

/// Whether an object is of a type; what isn't there is of none.
fn object_is_of<V: ModuleView>(
    view: &V,
    dispatch: &Dispatch,
    shape: Option<Shape>,
    token: Token,
) -> bool
    requires row { IsTrue (has_row (V.meaning view.now) token) }
    requires stands { StandsForModule dispatch.now (V.meaning view.now) }
    ensures { result ≡ shape_is_of (V.meaning view.now) token shape }
{
    match shape {
        None => false,
        Some(shape) => is_instance_of(view, dispatch, shape, token),
    }
}

/// Whether a reference is null or of a type.
fn is_null_or_of<V: ModuleView>(
    view: &V,
    dispatch: &Dispatch,
    objects: &Objects,
    object: Option<u32>,
    token: Token,
) -> bool
    requires row { IsTrue (has_row (V.meaning view.now) token) }
    requires stands { StandsForModule dispatch.now (V.meaning view.now) }
    ensures { result ≡ is_null_or_of (V.meaning view.now) token objects.now object }
{
    match object {
        None => true,
        Some(id) => object_is_of(view, dispatch, objects.shape(id), token),
    }
}

/// `castclass`: X2 where a cast can't ask for the type, X9 where the object isn't of it (ECMA-335 III.4.3).
#[tactic(auto, unfolding(crate::specs::Memory::cast_to))]
pub(crate) fn cast_to<V: ModuleView>(
    view: &V,
    dispatch: &Dispatch,
    objects: &Objects,
    frame: &mut Frame,
    next: u32,
    token: Token,
) -> Result<(), Stop>
    requires stands { StandsForModule dispatch.now (V.meaning view.now) }
    ensures { Does result (objects.now, frame.new) (
      objects.now,
      frame.old,
    ) (cast_to (V.meaning view.now) next token objects.now frame.old) }
{
    if !is_cast_type(view, token) {
        return Err(Stop::Trap(Trap::X2));
    }
    let value = frame.stack.upper()?;
    let object = reference(value)?;
    if !is_null_or_of(view, dispatch, objects, object, token) {
        return Err(Stop::Trap(Trap::X9));
    }
    frame.offset = next;
    Ok(())
}

/// What `isinst` leaves of a value that is a reference: itself, or null where its object isn't of the type.
fn kept_if(holds: bool, value: Value) -> Value
    ensures { result ≡ (if holds then value else Null) }
{
    if holds { value } else { Value::Null }
}

/// `isinst`: X2 where a cast can't ask for the type (ECMA-335 III.4.6).
#[tactic(auto, unfolding(crate::specs::Memory::instance_or_null))]
pub(crate) fn instance_or_null<V: ModuleView>(
    view: &V,
    dispatch: &Dispatch,
    objects: &Objects,
    frame: &mut Frame,
    next: u32,
    token: Token,
) -> Result<(), Stop>
    requires stands { StandsForModule dispatch.now (V.meaning view.now) }
    ensures { Does result (objects.now, frame.new) (
      objects.now,
      frame.old,
    ) (instance_or_null (V.meaning view.now) next token objects.now frame.old) }
{
    if !is_cast_type(view, token) {
        return Err(Stop::Trap(Trap::X2));
    }
    let value = frame.stack.upper()?;
    let object = reference(value)?;
    let holds = is_null_or_of(view, dispatch, objects, object, token);
    let kept = kept_if(holds, value);
    frame.stack.replace(1, kept);
    frame.offset = next;
    Ok(())
}
