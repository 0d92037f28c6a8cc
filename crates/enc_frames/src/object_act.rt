//! What instructions do to objects and their frame (ECMA-335 III.4).
ghost use Rattle.std.specs.Prelude.{◌≡◌, ℕ, List, Option};
ghost use Rattle.enc_dispatch.specs.Index.{StandsForModule};
ghost use Rattle.enc_machine_types.specs.Types.{type_kind};
ghost use Rattle.enc_objects.specs.declared.trap.Trap.TheVariants.{X2};
ghost use Rattle.enc_versions.specs.Version.{Version};
ghost use Rattle.enc_frames.specs.Does.{Does};
ghost use Rattle.enc_frames.specs.Machine.{version_world};
ghost use Rattle.enc_frames.specs.Results.{or_trap};
ghost use Rattle.enc_frames.specs.Memory.{load_field_of, store_field_of, new_array_of_kind, load_element as load_of, store_element as store_of};
ghost use Rattle.enc_frames.specs.ObjectsSeen.{by_field, by_type};
ghost use Rattle.enc_frames.specs.FrameActs.{object_act};

use crate::act::ObjectAct;
use crate::casts::{cast_to, instance_or_null};
use crate::frame::Frame;
use crate::heap::{array_length, load_element, load_field, new_array, store_element, store_field};
use crate::places::named_field;
use crate::stop::Stop;
use enc_base::Token;
use enc_dispatch::Dispatch;
use enc_machine_types::type_kind;
use enc_objects::{Kind, Objects, Trap};
use enc_plain::ModuleView;

/// The kind of a type that an instruction names. X2 where it has none.
fn named_kind<V: ModuleView>(view: &V, token: Token) -> Result<Kind, Trap>
    ensures { result ≡ or_trap X2 (type_kind (V.meaning view.now) token) }
{
    match type_kind(view, token) {
        None => Err(Trap::X2),
        Some(kind) => Ok(kind),
    }
}

/// `ldfld` (ECMA-335 III.4.10).
fn load_named<V: ModuleView>(
    view: &V,
    objects: &Objects,
    frame: &mut Frame,
    next: u32,
    field: Token,
) -> Result<(), Stop>
    ensures { Does result (objects.now, frame.new) (
      objects.now,
      frame.old,
    ) (by_field (V.meaning view.now) field (λ k. load_field_of k next field objects.now frame.old)) }
{
    match named_field(view, field) {
        Err(trap) => Err(Stop::Trap(trap)),
        Ok(kind) => load_field(objects, frame, kind, next, field),
    }
}

/// `stfld` (ECMA-335 III.4.28).
fn store_named<V: ModuleView>(
    view: &V,
    objects: &mut Objects,
    frame: &mut Frame,
    next: u32,
    field: Token,
) -> Result<(), Stop>
    ensures { Does result (objects.new, frame.new) (
      objects.old,
      frame.old,
    ) (by_field (V.meaning view.now) field (λ k. store_field_of k next field objects.old frame.old)) }
{
    match named_field(view, field) {
        Err(trap) => Err(Stop::Trap(trap)),
        Ok(kind) => store_field(objects, frame, kind, next, field),
    }
}

/// `newarr` (ECMA-335 III.4.20).
fn new_array_of<V: ModuleView>(
    view: &V,
    objects: &mut Objects,
    frame: &mut Frame,
    next: u32,
    element: Token,
) -> Result<(), Stop>
    ensures { Does result (objects.new, frame.new) (
      objects.old,
      frame.old,
    ) (by_type (V.meaning view.now) element (λ k. new_array_of_kind k next objects.old frame.old)) }
{
    match named_kind(view, element) {
        Err(trap) => Err(Stop::Trap(trap)),
        Ok(kind) => new_array(objects, frame, kind, next),
    }
}

/// `ldelem` of a type (ECMA-335 III.4.7).
fn load_element_of<V: ModuleView>(
    view: &V,
    objects: &Objects,
    frame: &mut Frame,
    next: u32,
    element: Token,
) -> Result<(), Stop>
    ensures { Does result (objects.now, frame.new) (
      objects.now,
      frame.old,
    ) (by_type (V.meaning view.now) element (λ k. load_of k next objects.now frame.old)) }
{
    match named_kind(view, element) {
        Err(trap) => Err(Stop::Trap(trap)),
        Ok(kind) => load_element(objects, frame, kind, next),
    }
}

/// `stelem` of a type (ECMA-335 III.4.25).
fn store_element_of<V: ModuleView>(
    view: &V,
    objects: &mut Objects,
    frame: &mut Frame,
    next: u32,
    element: Token,
) -> Result<(), Stop>
    ensures { Does result (objects.new, frame.new) (
      objects.old,
      frame.old,
    ) (by_type (V.meaning view.now) element (λ k. store_of k next objects.old frame.old)) }
{
    match named_kind(view, element) {
        Err(trap) => Err(Stop::Trap(trap)),
        Ok(kind) => store_element(objects, frame, kind, next),
    }
}

/// What an instruction does to objects and its frame; behind it the frame goes on at an offset.
#[tactic(auto, unfolding(crate::specs::FrameActs::object_act, crate::specs::Machine::version_world))]
pub fn act_on_objects<V: ModuleView>(
    view: &V,
    dispatch: &Dispatch,
    objects: &mut Objects,
    frame: &mut Frame,
    next: u32,
    act: ObjectAct,
) -> Result<(), Stop>
    requires stands { StandsForModule dispatch.now (V.meaning view.now) }
    ensures { (users : ℕ → Option (List ℕ)) (methods : List (Option Version))
        → Does result (objects.new, frame.new) (
          objects.old,
          frame.old,
        ) (object_act (version_world users (V.meaning view.now) methods) next act objects.old frame.old) }
{
    match act {
        ObjectAct::LoadField(field) => load_named(view, objects, frame, next, field),
        ObjectAct::StoreField(field) => store_named(view, objects, frame, next, field),
        ObjectAct::NewArray(element) => new_array_of(view, objects, frame, next, element),
        ObjectAct::Length => array_length(objects, frame, next),
        ObjectAct::LoadElement(kind) => load_element(objects, frame, kind, next),
        ObjectAct::LoadElementOf(element) => load_element_of(view, objects, frame, next, element),
        ObjectAct::StoreElement(kind) => store_element(objects, frame, kind, next),
        ObjectAct::StoreElementOf(element) => store_element_of(view, objects, frame, next, element),
        ObjectAct::Cast(class) => cast_to(view, dispatch, objects, frame, next, class),
        ObjectAct::IsInstance(class) => instance_or_null(
            view, dispatch, objects, frame, next, class,
        ),
    }
}
