//! The frame and the clause that take a thrown object (ECMA-335 I.12.4.2.5).
ghost use Rattle.std.specs.Prelude.{◌≡◌, ◌<◌, take, List, ℕ, Option};
ghost use Rattle.enc_unwind.specs.Search.{catch_among};
ghost use Rattle.enc_versions.specs.Version.{Version};
ghost use Rattle.enc_frames.specs.Handlers.{ends_search, outer_taker, taker};
ghost use Rattle.enc_frames.specs.HandlersSeen.{own_clauses};
ghost use Rattle.enc_frames.specs.Machine.{version_world};

use crate::callers::Callers;
use crate::frame::Frame;
use enc_plain::{CellView, ModuleView, Viewed};
use enc_schema::columns::METHOD_DEF_NAME;
use enc_unwind::{Thrown, catch_in};

impl Frame {
    /// The first of its clauses that takes an object thrown at an offset.
    pub fn catching<V: ModuleView>(&self, view: &V, thrown: Thrown, site: u32) -> Option<u32>
        ensures { result ≡ catch_among (V.meaning view.now) self.now.code.code.max (own_clauses self.now) site thrown }
    {
        catch_in(view, &self.body(), site, thrown)
    }

    /// Whether no frame below it takes an object: its method is named as the constructor of a type.
    #[tactic(auto, unfolding(enc_schema::specs::Schema::columns_in))]
    pub fn ends_search<V: ModuleView>(&self, view: &V) -> bool
        ensures { result ≡ ends_search (V.meaning view.now) self.now }
    {
        Viewed { view }.text(self.method, METHOD_DEF_NAME) == b".cctor".as_slice()
    }
}

impl Callers {
    /// The frame, counted from the outermost, and its clause that take an object thrown below the innermost.
    pub fn taker<V: ModuleView>(&self, view: &V, thrown: Thrown) -> Option<(usize, u32)>
        ensures { (users : ℕ → Option (List ℕ)) (methods : List (Option Version))
            → result ≡ outer_taker (version_world users (V.meaning view.now) methods) thrown self.now }
    {
        let mut left = self.items.len();
        while left > 0 {
            left -= 1;
            let frame = &self.items[left];
            let clause = frame.catching(view, thrown, frame.offset.saturating_sub(1));
            if let Some(clause) = clause {
                return Some((left, clause));
            }
            if frame.ends_search(view) {
                return None;
            }
        }
        None
    }
}
