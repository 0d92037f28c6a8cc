//! Static fields, whose types are touched before (ECMA-335 III.4.14, III.4.30).
ghost use Rattle.std.specs.Prelude.{◌≡◌, List, IsTrue};
ghost use Rattle.enc_base.specs.declared.token.Token.{Token as TheToken};
ghost use Rattle.enc_plain.specs.Module.{has_row};
ghost use Rattle.enc_base.specs.Tables.{field as fields, type_def};
ghost use Rattle.enc_vm.specs.Calls.{declaring, touch};
ghost use Rattle.enc_vm.specs.CallsSeen.{Makes};
ghost use Rattle.enc_frames.specs.FramesSeen.{shared_by};
ghost use Rattle.enc_frames.specs.Does.{Does};
ghost use Rattle.enc_vm.specs.SharedSeen.{shared_in};
ghost use Rattle.enc_vm.specs.StaticsSeen.{access_made, accessed, accessed_by};
ghost use Rattle.enc_vm.specs.Step.{act_on};
ghost use Rattle.enc_vm.specs.TouchSeen.{first_on};
ghost use Rattle.enc_vm.specs.World.{world_in};
ghost use Rattle.enc_frames.specs.declared.act.Act.TheVariants.{LoadStatic, StoreStatic};

use crate::declaring::{FirstTouch, first_touch};
use crate::returns::FrameChange;
use crate::shared::Shared;
use crate::thread::Thread;
use crate::world::World;
use enc_base::Token;
use enc_frames::{Frame, Stop, load_static, named_field, store_static};
use enc_objects::{Kind, Objects};
use enc_plain::ModuleView;

/// What an instruction does to a static field.
#[derive(Clone, Copy, Debug, PartialEq, Eq)]
pub(crate) enum StaticAccess {
    /// `ldsfld`.
    Load,
    /// `stsfld`.
    Store,
}

/// The type that declares a field (ECMA-335 II.22.37).
#[tactic(auto, using(crate::proofs::Declared::declaring_lemmas))]
fn declaring<V: ModuleView>(view: &V, field: Token) -> Token
    requires row { IsTrue (has_row (V.meaning view.now) field) }
    requires table { field.table ≡ fields }
    ensures owner { result ≡ declaring (V.meaning view.now) field }
    ensures table { result.table ≡ type_def }
    ensures row { IsTrue (has_row (V.meaning view.now) result) }
{
    view.owner(field)
}

/// What an instruction does to a static field, and where the next one begins.
#[derive(Clone, Copy, Debug, PartialEq, Eq)]
pub(crate) struct FieldAccess {
    pub how: StaticAccess,
    pub field: Token,
    pub next: u32,
}

/// The same of a field whose kind is known.
#[derive(Clone, Copy, Debug, PartialEq, Eq)]
pub(crate) struct KnownAccess {
    pub access: FieldAccess,
    pub kind: Kind,
}

/// A static field of a kind is loaded or stored.
fn access_in(objects: &mut Objects, frame: &mut Frame, known: KnownAccess) -> Result<(), Stop>
    ensures { Does result (objects.new, frame.new) (objects.old, frame.old)
        (accessed known.access.how known.kind known.access.next known.access.field objects.old frame.old) }
{
    let FieldAccess { how, field, next } = known.access;
    match how {
        StaticAccess::Load => load_static(objects, frame, known.kind, next, field),
        StaticAccess::Store => store_static(objects, frame, known.kind, next, field),
    }
}

impl Thread {
    /// A static field of a kind is loaded or stored, where its type was touched.
    fn access(&mut self, objects: &mut Objects, known: KnownAccess) -> Result<FrameChange, Stop>
        ensures { (touched : List TheToken) →
            Makes result (shared_by objects.new touched) (shared_by objects.old touched) self.new self.old
            (access_made known self.old (shared_by objects.old touched)) }
    {
        match access_in(objects, &mut self.top, known) {
            Err(stop) => Err(stop),
            Ok(()) => Ok(FrameChange::Stays),
        }
    }

    /// A static field behind the first touch of its type: the type's constructor is entered, where it has one.
    fn access_first<V: ModuleView>(
        &mut self,
        world: &World<'_, V>,
        shared: &mut Shared,
        first: FirstTouch,
        known: KnownAccess,
    ) -> Result<FrameChange, Stop>
        ensures { Makes result (shared_in shared.new) (shared_in shared.old) self.new self.old
            (first_on (world_in V.users V.meaning world.now) first (access_made known self.old)
            self.old shared.old.objects) }
    {
        let Some(constructor) = first.constructor else {
            let change = self.access(&mut shared.objects, known)?;
            shared.touched = first.touched;
            return Ok(change);
        };
        let change = self.enter_constructor(world, constructor)?;
        shared.touched = first.touched;
        Ok(change)
    }

    /// A static field behind the touch of its type (ECMA-335 II.10.5.3).
    fn touch_and_access<V: ModuleView>(
        &mut self,
        world: &World<'_, V>,
        shared: &mut Shared,
        known: KnownAccess,
    ) -> Result<FrameChange, Stop>
        requires row { IsTrue (has_row (V.meaning world.now.view) known.access.field) }
        requires table { known.access.field.table ≡ fields }
        ensures { Makes result (shared_in shared.new) (shared_in shared.old) self.new self.old
            (touch (world_in V.users V.meaning world.now) (shared_in shared.old) self.old
            (declaring (V.meaning world.now.view) known.access.field) (access_made known self.old)) }
    {
        let owner = declaring(world.view, known.access.field);
        match first_touch(world.alloc, world.view, &shared.touched, owner) {
            Err(_) => Err(Stop::Memory),
            Ok(None) => self.access(&mut shared.objects, known),
            Ok(Some(first)) => self.access_first(world, shared, first, known),
        }
    }

    /// A static field by its token: X2 where its type has no kind.
    fn on_static<V: ModuleView>(
        &mut self,
        world: &World<'_, V>,
        shared: &mut Shared,
        access: FieldAccess,
    ) -> Result<FrameChange, Stop>
        ensures { Makes result (shared_in shared.new) (shared_in shared.old) self.new self.old
            (accessed_by (world_in V.users V.meaning world.now) (V.meaning world.now.view)
            access.how access.next access.field (shared_in shared.old) self.old) }
    {
        let kind = named_field(world.view, access.field)?;
        self.touch_and_access(world, shared, KnownAccess { access, kind })
    }

    /// `ldsfld` (ECMA-335 III.4.14).
    #[tactic(auto, using(crate::proofs::Accessed::load_is))]
    pub(crate) fn load_static<V: ModuleView>(
        &mut self,
        world: &World<'_, V>,
        shared: &mut Shared,
        next: u32,
        field: Token,
    ) -> Result<FrameChange, Stop>
        ensures { Makes result (shared_in shared.new) (shared_in shared.old) self.new self.old
            (act_on (world_in V.users V.meaning world.now) next (LoadStatic field) (shared_in shared.old) self.old) }
    {
        let access = FieldAccess {
            how: StaticAccess::Load,
            field,
            next,
        };
        self.on_static(world, shared, access)
    }

    /// `stsfld` (ECMA-335 III.4.30).
    #[tactic(auto, using(crate::proofs::Accessed::store_is))]
    pub(crate) fn store_static<V: ModuleView>(
        &mut self,
        world: &World<'_, V>,
        shared: &mut Shared,
        next: u32,
        field: Token,
    ) -> Result<FrameChange, Stop>
        ensures { Makes result (shared_in shared.new) (shared_in shared.old) self.new self.old
            (act_on (world_in V.users V.meaning world.now) next (StoreStatic field) (shared_in shared.old) self.old) }
    {
        let access = FieldAccess {
            how: StaticAccess::Store,
            field,
            next,
        };
        self.on_static(world, shared, access)
    }
}
