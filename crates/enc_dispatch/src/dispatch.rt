//! Which method each virtual call reaches.
ghost use Rattle.std.specs.Prelude.{◌≡◌, IfOk, IsTrue};
ghost use Rattle.enc_plain.specs.Module.{Module, has_row};
ghost use Rattle.enc_plain.specs.Sound.{IsSound};
ghost use Rattle.enc_dispatch.specs.Growth.{IsEmpty};
ghost use Rattle.enc_dispatch.specs.Index.{StandsForModule};
ghost use Rattle.enc_plain.specs.ClassPath.{extends};
ghost use Rattle.enc_dispatch.specs.Interfaces.{implements};
ghost use Rattle.enc_dispatch.specs.Target.{target_of};

use crate::class_part::ClassPart;
use crate::impl_part::ImplPart;
use crate::locals_part::LocalsPart;
use crate::method_part::MethodPart;
use crate::own_method::OwnMethod;
use crate::rows_read::RowsRead;
use crate::slots::Slots;
use enc_base::Token;
use enc_key_map::Index;
use enc_plain::ModuleView;
use std::alloc::{AllocError, Global};
use std::marker::Model;

/// Which method each virtual call reaches, kept beside a module in memory that is linear in the
/// module's.
#[derive(Drop)]
pub struct Dispatch {
    pub(crate) classes: Vec<ClassPart>,
    pub(crate) methods: Vec<MethodPart>,
    pub(crate) own: Index<OwnMethod>,
    pub(crate) met: Index<OwnMethod>,
    pub(crate) impls: Index<ImplPart>,
    pub(crate) interfaces: Index<Token>,
    pub(crate) slots: Slots,
    pub(crate) locals: Vec<LocalsPart>,
}

impl Model for Dispatch {
    ghost use Rattle.enc_dispatch.specs.Stored.{DispatchParts};
    ghost use Rattle.enc_key_map.specs.contracts.tree.Tree as tree;
    ghost use Rattle.enc_dispatch.specs.contracts.own_method.OwnMethod as own_method;
    ghost use Rattle.enc_dispatch.specs.contracts.impl_part.ImplPart as impl_part;
    ghost use Rattle.enc_base.specs.contracts.token.Token as token;
    ghost use Rattle.std.specs.Coded.{codes};
    ghost use denote.Struct.Field.{u32-field};
    ghost use Rattle.std.specs.Prelude.{◌<◌, ◌^◌, length, vec_capacity};

    ghost Value = { DispatchParts };

    ghost coded = { Prim.hlevel (
      codes,
      (tree.the_row own_method.the_row).coded,
      (tree.the_row impl_part.the_row).coded,
      (tree.the_row token.the_row).coded,
      (tree.the_row u32-field.row).coded,
    ) };

    ghost view = { λ d. record {
      classes = d.classes.items;
      methods = d.methods.items;
      own = d.own;
      met = d.met;
      impls = d.impls;
      interfaces = d.interfaces;
      heads = d.slots.heads;
      links = d.slots.next.items;
      locals = d.locals.items;
      room =
          record {
            classes = vec_capacity d.classes;
            methods = vec_capacity d.methods;
            links = vec_capacity d.slots.next;
            locals = vec_capacity d.locals;
          };
    } };

    ghost invariant = { λ d. length d.classes.items < 2 ^ 24 };
}

impl Dispatch {
    /// The index of a module with no rows. It takes no memory.
    fn empty(alloc: Global) -> Dispatch
        ensures { IsEmpty result }
    {
        Dispatch {
            classes: Vec::new(alloc),
            methods: Vec::new(alloc),
            own: Index::new(),
            met: Index::new(),
            impls: Index::new(),
            interfaces: Index::new(),
            slots: Slots::new(alloc),
            locals: Vec::new(alloc),
        }
    }

    /// The index of a module. It keeps memory for each class, method, row of MethodImpl and row of
    /// InterfaceImpl, and takes some more meanwhile for what is known of the methods' signatures.
    pub fn begin<V: ModuleView>(alloc: Global, view: &V) -> Result<Dispatch, AllocError>
        requires { IsSound (V.meaning view.now) }
        ensures { IfOk result (λ d. StandsForModule d (V.meaning view.now)) }
    {
        let mut index = Dispatch::empty(alloc);
        let nothing = RowsRead {
            classes: 0,
            methods: 0,
            impls: 0,
            interfaces: 0,
            locals: 0,
        };
        let growth = index.growth(alloc, view, nothing)?;
        index.make_room(&growth)?;
        index.grow(growth);
        Ok(index)
    }

    /// The method that a virtual call of a method reaches on an object of a class, None where there
    /// is none (ECMA-335 I.8.10.4, II.12.2). A row of MethodImpl comes before a class's own methods.
    /// It takes no memory; a class walk takes time by the square of how far the class stands below
    /// the declaring one.
    #[tactic(auto, using(crate::proofs::Reached::target_is))]
    pub fn target(&self, class: Token, method: Token) -> Option<Token>
        ensures { (m : Module) → StandsForModule self.now m → IsTrue (has_row m class) → IsTrue (has_row m method)
            → result ≡ target_of m class method }
    {
        self.found_target(class, method)
    }

    /// Whether a class is a base or extends it, in one step or more, as a cast to a class asks
    /// (ECMA-335 II.22.37). It takes no memory.
    #[tactic(auto, using(crate::proofs::Meant::extends_is))]
    pub fn extends(&self, class: Token, base: Token) -> bool
        ensures { (m : Module) → StandsForModule self.now m → IsTrue (has_row m class) → result ≡ extends m class base }
    {
        self.has_on_path(class, base)
    }

    /// Whether a class or one that it extends has an interface by a row of InterfaceImpl, as a cast to
    /// an interface asks (ECMA-335 II.22.23). It takes no memory.
    #[tactic(auto, using(crate::proofs::Meant::implements_is))]
    pub fn implements(&self, class: Token, interface: Token) -> bool
        ensures { (m : Module) → StandsForModule self.now m → IsTrue (has_row m class) → IsTrue (has_row m interface)
            → result ≡ implements m class interface }
    {
        self.has_interface_on_path(class, interface)
    }
}
