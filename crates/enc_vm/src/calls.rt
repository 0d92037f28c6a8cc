//! Calls of methods of the module (ECMA-335 III.3.19, III.4.2).
ghost use Rattle.std.specs.Prelude.{◌≡◌, List, length, option_and_then, IfOk, IsTrue, ◌&&◌, if◌then◌else◌};
ghost use Rattle.enc_base.specs.declared.token.Token.{Token as TheToken};
ghost use Rattle.enc_dispatch.specs.Target.{target_of, is_interface};
ghost use Rattle.enc_dispatch.specs.Walks.{is_virtual};
ghost use Rattle.enc_objects.specs.declared.trap.Trap.TheVariants.{X9, X10};
ghost use Rattle.enc_plain.specs.Module.{has_row};
ghost use Rattle.enc_base.specs.Tables.{method_def};
ghost use Rattle.enc_frames.specs.ArgumentsSeen.{GivesItems, fitting};
ghost use Rattle.enc_vm.specs.Calls.{object_of, ask_object, class_of_object, reached_on, chosen, declaring, touch_if, call_touches, named_virtually, call, call_virtual};
ghost use Rattle.enc_vm.specs.CallMade.{called_by, call_made};
ghost use Rattle.enc_vm.specs.CallsSeen.{Makes};
ghost use Rattle.enc_frames.specs.FramesSeen.{shared_by};
ghost use Rattle.enc_vm.specs.SharedSeen.{shared_in};
ghost use Rattle.enc_vm.specs.World.{world_in};
ghost use Rattle.enc_frames.specs.Straight.{argument_kinds};
ghost use Rattle.enc_vm.specs.TouchSeen.{constructed_in, first_on};
ghost use Rattle.enc_frames.specs.Machine.{Shared as TheShared};

use crate::declaring::{
    FirstTouch, call_touches, declaring, declaring_in, first_touch, is_interface, is_virtual,
};
use crate::enter::CallSite;
use crate::returns::FrameChange;
use crate::shared::Shared;
use crate::thread::Thread;
use crate::world::World;
use enc_base::Token;
use enc_frames::{Stack, Stop, called_kinds, fitting, named_method, reference};
use enc_machine_types::MethodShape;
use enc_objects::{Objects, Shape, Trap, Value};
use enc_plain::{ModuleView, is_row};
use std::alloc::Global;

/// The object that is the first argument. X3 where there is none, X4 where it is no reference, X5 where it
/// is null.
fn object_of(args: &[Value]) -> Result<u32, Trap>
    ensures { result ≡ object_of args.now }
{
    let [first, ..] = args else {
        return Err(Trap::X3);
    };
    let object = reference(*first)?;
    match object {
        None => Err(Trap::X5),
        Some(id) => Ok(id),
    }
}

/// The first argument isn't null, where that is asked for.
fn ask_object(wanted: bool, args: &[Value]) -> Result<bool, Trap>
    ensures { result ≡ ask_object wanted args.now }
{
    if !wanted {
        return Ok(true);
    }
    let _ = object_of(args)?;
    Ok(true)
}

/// The class of an object, None of a text and of an array.
fn class_in(objects: &Objects, id: u32) -> Option<Token>
    ensures { result ≡ class_of_object objects.now id }
{
    match objects.shape(id) {
        Some(Shape::Object(class)) => Some(class),
        Some(Shape::Array(_, _)) | Some(Shape::Text(_)) | None => None,
    }
}

/// The method that a virtual call reaches on an object of a class, None where there is none (ECMA-335
/// I.8.10.4).
fn target_in<V: ModuleView>(
    world: &World<'_, V>,
    class: Option<Token>,
    method: Token,
) -> Option<Token>
    requires row { IsTrue (has_row (V.meaning world.now.view) method) }
    ensures { result ≡ option_and_then (λ (c : TheToken). target_of (V.meaning world.now.view) c method) class }
{
    let Some(class) = class else {
        return None;
    };
    if !is_row(world.view, class) {
        return None;
    }
    world.dispatch.target(class, method)
}

/// Why a virtual call reaches no method: X10 of a method of an interface, and else X9.
fn unreached<V: ModuleView>(view: &V, method: Token) -> Trap
    requires row { IsTrue (has_row (V.meaning view.now) method) }
    requires table { method.table ≡ method_def }
    ensures { result ≡ (if is_interface (V.meaning view.now) (declaring (V.meaning view.now) method) then X10 else X9) }
{
    let owner = declaring(view, method);
    if is_interface(view, owner) {
        return Trap::X10;
    }
    Trap::X9
}

/// The method that a virtual call reaches on an object (ECMA-335 III.4.2).
#[tactic(auto, unfolding(crate::specs::Calls::reached_on))]
fn reached_on<V: ModuleView>(
    world: &World<'_, V>,
    objects: &Objects,
    id: u32,
    method: Token,
) -> Result<Token, Trap>
    requires row { IsTrue (has_row (V.meaning world.now.view) method) }
    requires table { method.table ≡ method_def }
    ensures { result ≡ reached_on (V.meaning world.now.view) objects.now id method }
{
    let class = class_in(objects, id);
    match target_in(world, class, method) {
        None => Err(unreached(world.view, method)),
        Some(target) => Ok(target),
    }
}

/// Which method is entered: the named one, or the one that the object has for it.
fn chosen<V: ModuleView>(
    world: &World<'_, V>,
    objects: &Objects,
    is_virtual: bool,
    args: &[Value],
    method: Token,
) -> Result<Token, Trap>
    requires row { IsTrue (has_row (V.meaning world.now.view) method) }
    requires table { method.table ≡ method_def }
    ensures { result ≡ chosen is_virtual (V.meaning world.now.view) objects.now args.now method }
{
    if !is_virtual {
        return Ok(method);
    }
    match object_of(args) {
        Err(trap) => Err(trap),
        Ok(id) => reached_on(world, objects, id, method),
    }
}

/// How many values a method is called with.
fn called_count(shape: &MethodShape<'_>) -> usize
    ensures { result ≡ length (argument_kinds shape.now) }
{
    let count = shape.takes().len() as usize;
    if shape.has_this() {
        return count + 1;
    }
    count
}

/// The arguments of a call from the top of a stack, as places of their kinds hold them.
fn called_args(alloc: Global, stack: &Stack, shape: &MethodShape<'_>) -> Result<Vec<Value>, Stop>
    ensures { GivesItems result (fitting (argument_kinds shape.now) stack.now) }
{
    match called_kinds(alloc, shape) {
        Err(_) => Err(Stop::Memory),
        Ok(kinds) => fitting(alloc, stack, kinds.as_slice()),
    }
}

/// How a call goes: whether the object may not be null, and whether the object tells the method.
#[derive(Clone, Copy, Debug, PartialEq, Eq)]
pub(crate) struct CallKind {
    pub null_check: bool,
    pub is_virtual: bool,
}

/// A call of a method of the module: how it goes, the method, how that is called, and where the next instruction
/// begins.
#[derive(Drop)]
pub(crate) struct Call<'a> {
    pub kind: CallKind,
    pub method: Token,
    pub shape: MethodShape<'a>,
    pub next: u32,
}

impl Thread {
    /// A call with these arguments, which are as many values on the stack.
    fn call_on<V: ModuleView>(
        &mut self,
        world: &World<'_, V>,
        objects: &Objects,
        call: &Call<'_>,
        args: Vec<Value>,
    ) -> Result<FrameChange, Stop>
        requires row { IsTrue (has_row (V.meaning world.now.view) call.now.method) }
        requires table { call.now.method.table ≡ method_def }
        ensures { (touched : List TheToken) →
            Makes result (shared_by objects.now touched) (shared_by objects.now touched) self.new self.old
            (called_by (world_in V.users V.meaning world.now) (V.meaning world.now.view)
            call.now args.items self.old (shared_by objects.now touched)) }
    {
        let _ = ask_object(call.kind.null_check, args.as_slice())?;
        let target = chosen(
            world,
            objects,
            call.kind.is_virtual,
            args.as_slice(),
            call.method,
        )?;
        let site = CallSite {
            next: call.next,
            taken: called_count(&call.shape),
        };
        match self.enter(world, target, args, site) {
            Err(stop) => Err(stop),
            Ok(()) => Ok(FrameChange::Entered(target)),
        }
    }

    /// A call of a method with what stands on the stack (ECMA-335 III.3.19).
    #[tactic(auto, using(crate::proofs::Called::call_with_is))]
    fn call_with<V: ModuleView>(
        &mut self,
        world: &World<'_, V>,
        objects: &Objects,
        call: &Call<'_>,
    ) -> Result<FrameChange, Stop>
        requires row { IsTrue (has_row (V.meaning world.now.view) call.now.method) }
        requires table { call.now.method.table ≡ method_def }
        ensures { (touched : List TheToken) →
            Makes result (shared_by objects.now touched) (shared_by objects.now touched) self.new self.old
            (call_made (world_in V.users V.meaning world.now) call.now self.old
            (shared_by objects.now touched)) }
    {
        match called_args(world.alloc, self.top.stack(), &call.shape) {
            Err(stop) => Err(stop),
            Ok(args) => self.call_on(world, objects, call, args),
        }
    }
}

impl Thread {
    /// The constructor of a type is entered over the innermost frame, which goes on later where it stands
    /// (ECMA-335 II.10.5.3).
    pub(crate) fn enter_constructor<V: ModuleView>(
        &mut self,
        world: &World<'_, V>,
        constructor: Token,
    ) -> Result<FrameChange, Stop>
        ensures { (s : TheShared) → Makes result s s self.new self.old
            (constructed_in (world_in V.users V.meaning world.now) constructor self.old s) }
    {
        let site = CallSite {
            next: self.top.offset(),
            taken: 0,
        };
        match self.enter(world, constructor, Vec::new(world.alloc), site) {
            Err(stop) => Err(stop),
            Ok(()) => Ok(FrameChange::Entered(constructor)),
        }
    }
}

impl Thread {
    /// A call behind the first touch of its method's type: the type's constructor is entered, where it has
    /// one, and else the method.
    fn call_first<V: ModuleView>(
        &mut self,
        world: &World<'_, V>,
        shared: &mut Shared,
        first: FirstTouch,
        call: &Call<'_>,
    ) -> Result<FrameChange, Stop>
        requires row { IsTrue (has_row (V.meaning world.now.view) call.now.method) }
        requires table { call.now.method.table ≡ method_def }
        ensures { Makes result (shared_in shared.new) (shared_in shared.old) self.new self.old
            (first_on (world_in V.users V.meaning world.now) first
            (call_made (world_in V.users V.meaning world.now) call.now self.old) self.old shared.old.objects) }
    {
        let Some(constructor) = first.constructor else {
            let change = self.call_with(world, &shared.objects, call)?;
            shared.touched = first.touched;
            return Ok(change);
        };
        let change = self.enter_constructor(world, constructor)?;
        shared.touched = first.touched;
        Ok(change)
    }

    /// A call behind the touch of its method's type, where it touches that (ECMA-335 II.10.5.3).
    fn touch_and_call<V: ModuleView>(
        &mut self,
        world: &World<'_, V>,
        shared: &mut Shared,
        call: &Call<'_>,
    ) -> Result<FrameChange, Stop>
        requires row { IsTrue (has_row (V.meaning world.now.view) call.now.method) }
        requires table { call.now.method.table ≡ method_def }
        ensures { Makes result (shared_in shared.new) (shared_in shared.old) self.new self.old
            (touch_if (call_touches (V.meaning world.now.view) call.now.method)
            (world_in V.users V.meaning world.now) (shared_in shared.old) self.old
            (declaring (V.meaning world.now.view) call.now.method)
            (call_made (world_in V.users V.meaning world.now) call.now self.old)) }
    {
        if !call_touches(world.view, call.method) {
            return self.call_with(world, &shared.objects, call);
        }
        let owner = declaring_in(world, call.method);
        match first_touch(world.alloc, world.view, &shared.touched, owner) {
            Err(_) => Err(Stop::Memory),
            Ok(None) => self.call_with(world, &shared.objects, call),
            Ok(Some(first)) => self.call_first(world, shared, first, call),
        }
    }
}

/// How the method that a `callvirt` names is called. X2 also where it is virtual and its signature has no `this`
/// (ECMA-335 III.4.2).
#[tactic(auto, unfolding(crate::specs::Calls::named_virtually))]
fn named_virtually<V: ModuleView>(view: &V, token: Token) -> Result<MethodShape<'_>, Trap>
    ensures shape { result ≡ named_virtually (V.meaning view.now) token }
    ensures table { IfOk result (λ _. token.table ≡ method_def) }
    ensures row { IfOk result (λ _. IsTrue (has_row (V.meaning view.now) token)) }
{
    let shape = match named_method(view, token) {
        Ok(shape) => shape,
        Err(trap) => return Err(trap),
    };
    if shape.has_this() || !is_virtual(view, token) {
        return Ok(shape);
    }
    Err(Trap::X2)
}

/// Whether the object tells which method a virtual call reaches: where the method has one, and is virtual.
fn is_virtual_on<V: ModuleView>(view: &V, shape: &MethodShape<'_>, method: Token) -> bool
    requires { method.table ≡ method_def }
    ensures { result ≡ (shape.now.this && is_virtual (V.meaning view.now) method) }
{
    shape.has_this() && is_virtual(view, method)
}

impl Thread {
    /// `call` of a method of the module (ECMA-335 III.3.19).
    #[tactic(auto, using(crate::proofs::TouchedOn::call_is))]
    pub(crate) fn call<V: ModuleView>(
        &mut self,
        world: &World<'_, V>,
        shared: &mut Shared,
        next: u32,
        method: Token,
    ) -> Result<FrameChange, Stop>
        ensures { Makes result (shared_in shared.new) (shared_in shared.old) self.new self.old
            (call (world_in V.users V.meaning world.now) next method (shared_in shared.old) self.old) }
    {
        let shape = named_method(world.view, method)?;
        let kind = CallKind {
            null_check: false,
            is_virtual: false,
        };
        let call = Call {
            kind,
            method,
            shape,
            next,
        };
        self.touch_and_call(world, shared, &call)
    }

    /// `callvirt` of a method of the module (ECMA-335 III.4.2).
    #[tactic(auto, using(crate::proofs::TouchedOn::call_virtual_is))]
    pub(crate) fn call_virtual<V: ModuleView>(
        &mut self,
        world: &World<'_, V>,
        shared: &mut Shared,
        next: u32,
        method: Token,
    ) -> Result<FrameChange, Stop>
        ensures { Makes result (shared_in shared.new) (shared_in shared.old) self.new self.old
            (call_virtual (world_in V.users V.meaning world.now) next method (shared_in shared.old) self.old) }
    {
        let shape = named_virtually(world.view, method)?;
        let kind = CallKind {
            null_check: shape.has_this(),
            is_virtual: is_virtual_on(world.view, &shape, method),
        };
        let call = Call {
            kind,
            method,
            shape,
            next,
        };
        self.touch_and_call(world, shared, &call)
    }
}
