//! Thrown objects (ECMA-335 III.4.31).
ghost use Rattle.std.specs.Prelude.{◌≡◌, ℕ, List, Option};
ghost use Rattle.enc_versions.specs.Version.{Version};
ghost use Rattle.enc_frames.specs.Does.{Does};
ghost use Rattle.enc_frames.specs.Handlers.{taker, thrown_of, throw_object};
ghost use Rattle.enc_frames.specs.Machine.{version_world};
ghost use Rattle.enc_vm.specs.ThrowSeen.{thrown_object};

use crate::thread::Thread;
use enc_frames::{Flight, Stop, reference};
use enc_objects::{Objects, Shape, Trap};
use enc_plain::ModuleView;
use enc_unwind::Thrown;

/// What a thrown object is.
fn thrown_of(shape: Option<Shape>) -> Thrown
    ensures { result ≡ thrown_of shape }
{
    match shape {
        Some(Shape::Object(class)) => Thrown::Class(class),
        Some(Shape::Text(_)) => Thrown::Text,
        Some(Shape::Array(_, _)) | None => Thrown::Array,
    }
}

impl Thread {
    /// The frame, counted from the outermost, and its clause that take an object thrown where the innermost
    /// frame stands (ECMA-335 I.12.4.2.5).
    #[tactic(auto, using(crate::proofs::Thrown::taker_is))]
    fn taker<V: ModuleView>(&self, view: &V, thrown: Thrown) -> Option<(usize, u32)>
        ensures { (users : ℕ → Option (List ℕ)) (methods : List (Option Version))
            → result ≡ taker (version_world users (V.meaning view.now) methods) thrown self.now.top self.now.below }
    {
        if let Some(clause) = self.top.catching(view, thrown, self.top.offset()) {
            return Some((self.below.len(), clause));
        }
        if self.top.ends_search(view) {
            return None;
        }
        self.below.taker(view, thrown)
    }

    /// The object that is thrown: the one on the top of the innermost frame's stack. X3 where none is there, X4
    /// where it is no reference, X5 where it is null.
    fn thrown(&self) -> Result<u32, Trap>
        ensures { result ≡ thrown_object self.now.top.stack }
    {
        let value = self.top.stack().upper()?;
        match reference(value)? {
            None => Err(Trap::X5),
            Some(id) => Ok(id),
        }
    }

    /// `throw`: X14 where no clause takes the object (ECMA-335 III.4.31).
    #[tactic(auto, using(crate::proofs::Thrown::throw_is))]
    pub(crate) fn throw_object<V: ModuleView>(
        &mut self,
        view: &V,
        objects: &Objects,
    ) -> Result<(), Stop>
        ensures { (users : ℕ → Option (List ℕ)) (methods : List (Option Version))
            → Does result self.new self.old
            (throw_object (version_world users (V.meaning view.now) methods) objects.now self.old) }
    {
        let object = self.thrown()?;
        let thrown = thrown_of(objects.shape(object));
        let Some((frame, clause)) = self.taker(view, thrown) else {
            return Err(Stop::Trap(Trap::X14));
        };
        let origin = self.top.offset();
        self.flight = Some(Flight {
            object,
            frame,
            clause,
            origin,
            tried: None,
        });
        Ok(())
    }
}
