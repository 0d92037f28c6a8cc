//! A module, with what an index keeps of its rows.
ghost use Rattle.std.specs.Prelude.{◌≡◌};
ghost use Rattle.enc_dispatch.specs.Index.{StandsForModule};
ghost use Rattle.enc_dispatch.specs.Stored.{kind_of_local};

use enc_base::Token;
use enc_dispatch::Dispatch;
use enc_objects::Kind;
use enc_plain::ModuleView;
use std::marker::Model;

/// The view of a module, and the index that stands for it.
#[derive(Drop)]
pub struct IndexedModule<'a, V: ModuleView> {
    view: &'a V,
    dispatch: &'a Dispatch,
}

impl<'a, V: ModuleView> Model for IndexedModule<'a, V> {
    ghost use Rattle.enc_dispatch.specs.Index.{StandsForModule};

    ghost Value = { V };

    ghost view = { λ m. m.view.now };

    // what the index keeps is the module's
    ghost invariant = { λ m. StandsForModule m.dispatch.now (V.meaning m.view.now) };
}

impl<'a, V: ModuleView> IndexedModule<'a, V> {
    /// A module with its index.
    #[inline(always)]
    pub fn new(view: &'a V, dispatch: &'a Dispatch) -> IndexedModule<'a, V>
        requires { StandsForModule dispatch.now (V.meaning view.now) }
        ensures { result ≡ view.now }
    {
        IndexedModule { view, dispatch }
    }

    /// The module's view.
    #[inline(always)]
    pub(crate) fn view(&self) -> &'a V
        ensures { result.now ≡ self.now }
    {
        self.view
    }

    /// The kind of a local variable, by the signature that its body names and its number from 0.
    #[inline(always)]
    pub(crate) fn local_kind(&self, locals: Token, n: u32) -> Option<Kind>
        ensures { result ≡ kind_of_local (V.meaning self.now) locals n }
    {
        self.dispatch.local_kind(self.view, locals, n)
    }
}
