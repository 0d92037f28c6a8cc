//! What a step stands on.
ghost use Rattle.enc_vm.specs.CallsSeen.{AreBodiesOf};

use enc_dispatch::Dispatch;
use enc_plain::ModuleView;
use enc_versions::Versions;
use std::alloc::Global;
use std::marker::Model;

/// What a step stands on: the view of a module, the newest bodies of its methods, the index of its virtual calls,
/// and where memory comes from.
#[derive(Drop)]
pub(crate) struct World<'a, V: ModuleView> {
    pub(crate) alloc: Global,
    pub(crate) view: &'a V,
    pub(crate) versions: &'a Versions,
    pub(crate) dispatch: &'a Dispatch,
}

impl<'a, V: ModuleView> Model for World<'a, V> {
    ghost use Rattle.enc_vm.specs.World.{Standing, IsStanding};

    ghost Value = { Standing V };

    ghost view = { λ w. record { view = w.view.now; methods = w.versions.now.methods } };

    ghost invariant = { λ w.
        IsStanding (V.users w.view.now) (V.meaning w.view.now) w.versions.now.methods w.dispatch.now };
}

impl<V: ModuleView> World<'_, V> {
    /// The newest bodies are those of the module.
    pub(crate) fn bodies_law(&self)
        ensures { AreBodiesOf (V.users self.now.view) (V.meaning self.now.view) self.now.methods }
    {
        let _view = self.view;
    }
}
