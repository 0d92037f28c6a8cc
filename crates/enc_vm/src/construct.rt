//! New objects, whose constructors are entered (ECMA-335 III.4.21).
ghost use Rattle.std.specs.Prelude.{◌≡◌, ◌∷◌, ◌<◌, ◌≤◌, length, List, not, ◌&&◌, IsTrue, IfOk, OnOk, OnErr};
ghost use Rattle.enc_base.specs.declared.token.Token.{Token as TheToken};
ghost use Rattle.enc_objects.specs.declared.value.Value.TheVariants.{Null};
ghost use Rattle.enc_plain.specs.Module.{has_row, cells_of};
ghost use Rattle.enc_plain.specs.ValueType.{is_value_type};
ghost use Rattle.enc_base.specs.Tables.{method_def};
ghost use Rattle.enc_frames.specs.ArgumentsSeen.{GivesItems};
ghost use Rattle.enc_vm.specs.Calls.{declaring, new_object, touch};
ghost use Rattle.enc_vm.specs.CallsSeen.{Makes};
ghost use Rattle.enc_frames.specs.FramesSeen.{shared_by};
ghost use Rattle.enc_vm.specs.ConstructSeen.{construct_made, made_ready, let_go, held_begun, object_entered, with_null, frame_made, constructed_on};
ghost use Rattle.enc_frames.specs.Does.{Does, GivesOrStops};
ghost use Rattle.enc_vm.specs.SharedSeen.{shared_in};
ghost use Rattle.enc_vm.specs.TouchSeen.{first_on};
ghost use Rattle.enc_vm.specs.World.{world_in};

use crate::declaring::{FirstTouch, declaring_in, first_touch};
use crate::enter::{MOST_FRAMES, code_now};
use crate::returns::FrameChange;
use crate::shared::Shared;
use crate::thread::Thread;
use crate::world::World;
use enc_base::Token;
use enc_frames::{Frame, Stack, Stop, fitting, named_method, new_frame, taken_kinds};
use enc_machine_types::MethodShape;
use enc_objects::{Objects, Trap, Value};
use enc_plain::{ModuleView, Viewed, is_value_type};
use std::alloc::{AllocError, Global};

impl Thread {
    /// A frame stands ready below the innermost one, and null on that one's stack. Without memory nothing
    /// changes.
    fn make_ready(&mut self, frame: Frame) -> Result<(), AllocError>
        requires { length self.old.below < 1023 }
        ensures ok { OnOk result (self.new ≡ made_ready frame self.old) }
        ensures err { OnErr result (self.new ≡ self.old) }
    {
        self.top.push_null()?;
        match self.below.hold(frame) {
            Ok(()) => Ok(()),
            Err(fault) => {
                self.top.pop();
                Err(fault)
            }
        }
    }

    /// What stood ready goes.
    fn let_go(&mut self)
        ensures { self.new ≡ let_go self.old }
    {
        let _ = self.below.leave();
        self.top.pop();
    }

    /// The frame that stood ready becomes the innermost one, with an object as its first argument, which
    /// stands in the place of so many values on the stack of its caller.
    fn begin_held(&mut self, next: u32, n: usize, value: Value)
        requires some { 0 < n }
        requires there { n ≤ length self.old.top.stack }
        ensures { self.new ≡ held_begun next n value self.old }
    {
        self.top.put(next, n, value);
        self.below.swap_nearest(&mut self.top);
        self.top.set_object(value);
        self.flight = None;
    }
}

/// A new object: its class, its constructor, and where the caller goes on, with how many values fewer on its stack.
#[derive(Clone, Copy, Debug, PartialEq, Eq)]
struct NewObject {
    class: Token,
    constructor: Token,
    next: u32,
    taken: u32,
}

impl Thread {
    /// An object of a class is made, and the frame of its constructor is entered, whose first argument it
    /// becomes; it stands on the caller's stack in the place of so many values. X12 where there can't be an
    /// object more, X13 where the stack can't hold it.
    #[tactic(auto, using(crate::proofs::Constructed::drop_more))]
    fn begin_object(
        &mut self,
        objects: &mut Objects,
        frame: Frame,
        new: NewObject,
    ) -> Result<(), Stop>
        requires there { new.taken ≤ length self.old.top.stack }
        requires room { length self.old.below < 1023 }
        ensures { Does result (objects.new, self.new) (objects.old, self.old)
            (object_entered new.class new.next new.taken frame objects.old self.old) }
    {
        if objects.is_full(0) {
            return Err(Stop::Trap(Trap::X12));
        }
        if !self.top.can_take(new.taken as usize) {
            return Err(Stop::Trap(Trap::X13));
        }
        self.make_ready(frame)?;
        match objects.new_object(new.class) {
            Err(fault) => {
                self.let_go();
                Err(Stop::from(fault))
            }
            Ok(id) => {
                self.begin_held(new.next, new.taken as usize + 1, Value::Obj(id));
                Ok(())
            }
        }
    }
}

/// A list with null before it.
fn null_first(alloc: Global, values: &[Value]) -> Result<Vec<Value>, AllocError>
    ensures { IfOk result (λ l. l.items ≡ Null ∷ values.now) }
{
    let mut all = Vec::new(alloc);
    all.push(Value::Null)?;
    all.extend_from_slice(values)?;
    Ok(all)
}

/// What a constructor is called with, from the top of a stack, with null in the place of its object. X3 where
/// there are fewer values, X4 at the first of a wrong kind.
#[tactic(auto, using(crate::proofs::Constructed::are_there))]
fn constructor_args(
    alloc: Global,
    stack: &Stack,
    shape: &MethodShape<'_>,
) -> Result<Vec<Value>, Stop>
    ensures args { GivesItems result (with_null shape.now.takes stack.now) }
    ensures there { OnOk result (length shape.now.takes ≤ length stack.now) }
{
    let kinds = taken_kinds(alloc, shape)?;
    let values = fitting(alloc, stack, kinds.as_slice())?;
    let args = null_first(alloc, values.as_slice())?;
    Ok(args)
}

/// A frame at a method's first instruction, with these arguments. X10 where the interpreter doesn't run it.
fn frame_now<V: ModuleView>(
    world: &World<'_, V>,
    method: Token,
    args: Vec<Value>,
) -> Result<Frame, Stop>
    ensures { GivesOrStops result
        (frame_made (world_in V.users V.meaning world.now) (V.meaning world.now.view) method args.items) }
{
    let Some(code) = code_now(world.view, world.versions, method) else {
        return Err(Stop::Trap(Trap::X10));
    };
    let frame = new_frame(world.alloc, world.view, method, code.clone()?, args)?;
    Ok(frame)
}

/// A constructor that is called on a new object: how it is called, and where the next instruction begins.
#[derive(Drop)]
struct Construction<'a> {
    method: Token,
    shape: MethodShape<'a>,
    next: u32,
}

impl Thread {
    /// A new object by these arguments of its constructor, which are so many values on the stack. X10 where
    /// the interpreter doesn't run the constructor, X11 where there would be more than 1,024 frames.
    fn construct_on<V: ModuleView>(
        &mut self,
        world: &World<'_, V>,
        objects: &mut Objects,
        new: NewObject,
        args: Vec<Value>,
    ) -> Result<FrameChange, Stop>
        requires there { new.taken ≤ length self.old.top.stack }
        ensures { (touched : List TheToken) →
            Makes result (shared_by objects.new touched) (shared_by objects.old touched) self.new self.old
            (constructed_on (world_in V.users V.meaning world.now) (V.meaning world.now.view)
            new.next new.taken new.class new.constructor args.items self.old
            (shared_by objects.old touched)) }
    {
        let frame = frame_now(world, new.constructor, args)?;
        if self.below.len() >= MOST_FRAMES - 1 {
            return Err(Stop::Trap(Trap::X11));
        }
        match self.begin_object(objects, frame, new) {
            Err(stop) => Err(stop),
            Ok(()) => Ok(FrameChange::Entered(new.constructor)),
        }
    }

    /// A new object by what stands on the stack, whose constructor is entered (ECMA-335 III.4.21).
    #[tactic(auto, using(crate::proofs::Constructed::construct_is))]
    fn construct<V: ModuleView>(
        &mut self,
        world: &World<'_, V>,
        objects: &mut Objects,
        construction: &Construction<'_>,
    ) -> Result<FrameChange, Stop>
        requires row { IsTrue (has_row (V.meaning world.now.view) construction.now.method) }
        requires table { construction.now.method.table ≡ method_def }
        ensures { (touched : List TheToken) →
            Makes result (shared_by objects.new touched) (shared_by objects.old touched) self.new self.old
            (construct_made (world_in V.users V.meaning world.now) construction.now self.old
            (shared_by objects.old touched)) }
    {
        let new = NewObject {
            class: declaring_in(world, construction.method),
            constructor: construction.method,
            next: construction.next,
            taken: construction.shape.takes().len(),
        };
        match constructor_args(world.alloc, self.top.stack(), &construction.shape) {
            Err(stop) => Err(stop),
            Ok(args) => self.construct_on(world, objects, new, args),
        }
    }
}

impl Thread {
    /// A new object behind the first touch of its class: the class's constructor is entered, where it has one,
    /// and else the object's.
    fn construct_first<V: ModuleView>(
        &mut self,
        world: &World<'_, V>,
        shared: &mut Shared,
        first: FirstTouch,
        construction: &Construction<'_>,
    ) -> Result<FrameChange, Stop>
        requires row { IsTrue (has_row (V.meaning world.now.view) construction.now.method) }
        requires table { construction.now.method.table ≡ method_def }
        ensures { Makes result (shared_in shared.new) (shared_in shared.old) self.new self.old
            (first_on (world_in V.users V.meaning world.now) first
            (construct_made (world_in V.users V.meaning world.now) construction.now self.old) self.old
            shared.old.objects) }
    {
        let Some(constructor) = first.constructor else {
            let change = self.construct(world, &mut shared.objects, construction)?;
            shared.touched = first.touched;
            return Ok(change);
        };
        let change = self.enter_constructor(world, constructor)?;
        shared.touched = first.touched;
        Ok(change)
    }

    /// A new object behind the touch of its class (ECMA-335 II.10.5.3).
    fn touch_and_construct<V: ModuleView>(
        &mut self,
        world: &World<'_, V>,
        shared: &mut Shared,
        construction: &Construction<'_>,
    ) -> Result<FrameChange, Stop>
        requires row { IsTrue (has_row (V.meaning world.now.view) construction.now.method) }
        requires table { construction.now.method.table ≡ method_def }
        ensures { Makes result (shared_in shared.new) (shared_in shared.old) self.new self.old
            (touch (world_in V.users V.meaning world.now) (shared_in shared.old) self.old
            (declaring (V.meaning world.now.view) construction.now.method)
            (construct_made (world_in V.users V.meaning world.now) construction.now self.old)) }
    {
        let owner = declaring_in(world, construction.method);
        match first_touch(world.alloc, world.view, &shared.touched, owner) {
            Err(_) => Err(Stop::Memory),
            Ok(None) => self.construct(world, &mut shared.objects, construction),
            Ok(Some(first)) => self.construct_first(world, shared, first, construction),
        }
    }
}

/// Whether a method can be called on a new object: it has one, and the class that declares it is no value type.
fn is_for_object<V: ModuleView>(
    world: &World<'_, V>,
    method: Token,
    shape: &MethodShape<'_>,
) -> bool
    requires row { IsTrue (has_row (V.meaning world.now.view) method) }
    requires table { method.table ≡ method_def }
    ensures { result ≡ (shape.now.this
        && not (is_value_type (cells_of (V.meaning world.now.view)) (declaring (V.meaning world.now.view) method))) }
{
    let class = declaring_in(world, method);
    shape.has_this() && !is_value_type(&Viewed { view: world.view }, class)
}

impl Thread {
    /// `newobj` of a constructor of the module: X2 of a method without an object, and of a value type's
    /// (ECMA-335 III.4.21).
    #[tactic(auto, using(crate::proofs::Constructed::new_object_is))]
    pub(crate) fn new_object<V: ModuleView>(
        &mut self,
        world: &World<'_, V>,
        shared: &mut Shared,
        next: u32,
        method: Token,
    ) -> Result<FrameChange, Stop>
        ensures { Makes result (shared_in shared.new) (shared_in shared.old) self.new self.old
            (new_object (world_in V.users V.meaning world.now) next method (shared_in shared.old) self.old) }
    {
        let shape = named_method(world.view, method)?;
        if !is_for_object(world, method, &shape) {
            return Err(Stop::Trap(Trap::X2));
        }
        let construction = Construction {
            method,
            shape,
            next,
        };
        self.touch_and_construct(world, shared, &construction)
    }
}
