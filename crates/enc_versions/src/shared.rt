//! Bodies by their places, so that methods that share a body share its bytes in memory.
ghost use Rattle.std.specs.Prelude.{◌≡◌, ℕ, List, Option, Some, option_map, IsTrue, IfOk, IfSome};
ghost use Rattle.enc_opcodes.specs.Body.{Body, body_of, texts_are_there};
ghost use Rattle.enc_plain.specs.Cell.{body};
ghost use Rattle.enc_plain.specs.Module.{has_row, cell_of};
ghost use Rattle.enc_base.specs.Tables.{method_def};
ghost use Rattle.enc_versions.specs.Shared.{AreShared};

use crate::code::Stored;
use enc_base::Token;
use enc_plain::ModuleView;
use std::alloc::{AllocError, Global};
use std::collections::BTreeMap;
use std::rc::Rc;

/// The bodies that were copied, by their places.
#[derive(Drop)]
pub(crate) struct Shared {
    bodies: BTreeMap<u64, Rc<Stored>>,
    alloc: Global,
}

impl Shared {
    /// None yet. It takes no memory.
    pub(crate) fn new(alloc: Global) -> Shared
        ensures { (users : ℕ → Option (List ℕ)) (places : ℕ → Option Body) → AreShared users places result }
    {
        Shared {
            bodies: BTreeMap::new(alloc),
            alloc,
        }
    }

    /// The body of a method, None where it has none. It is copied once for all methods with its place.
    pub(crate) fn body<V: ModuleView>(
        &mut self,
        view: &V,
        method: Token,
    ) -> Result<Option<Rc<Stored>>, AllocError>
        requires row { IsTrue (has_row (V.meaning view.now) method) }
        requires table { method.table ≡ method_def }
        requires shared { AreShared (V.users view.now) (V.places view.now) self.old }
        ensures shared { IfOk result (λ _. AreShared (V.users view.now) (V.places view.now) self.new) }
        ensures texts { IfOk result (λ b. IfSome b (λ s. IsTrue (texts_are_there (V.users view.now) s.value.code))) }
        ensures body { IfOk result (λ b. cell_of (V.meaning view.now) method 0
            ≡ Some (body (option_map (λ s. body_of (V.users view.now) s.value) b))) }
    {
        let place = view.code_place(method);
        match self.bodies.get(&place) {
            Some(known) => return Ok(Some(known.clone()?)),
            None => {}
        }
        let Some(code) = view.code(method) else {
            return Ok(None);
        };
        let stored = Rc::new(self.alloc, Stored::of(self.alloc, &code)?)?;
        self.bodies.insert(place, stored.clone()?)?;
        Ok(Some(stored))
    }
}
