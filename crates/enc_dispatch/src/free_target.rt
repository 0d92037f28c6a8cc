//! The method that a virtual call reaches, asked of a view of a module.
ghost use Rattle.std.specs.Prelude.{◌≡◌};
ghost use Rattle.enc_plain.specs.Sound.{IsSound};
ghost use Rattle.enc_dispatch.specs.Target.{target_of};

use crate::free_walk::declared_target;
use enc_base::Token;
use enc_base::tables::METHOD_DEF;
use enc_plain::{ModuleView, is_row};

/// The method that a virtual call of a method reaches on an object of a class, None where there is none,
/// asked of a view (ECMA-335 I.8.10.4, II.12.2). It takes no memory, and time for each class of the path:
/// each that the walk comes to is climbed to anew, and goes over the rows of MethodImpl and the class's
/// methods; for a method of an interface each goes over the rows of InterfaceImpl too.
/// `Dispatch::target` answers the same from an index.
#[tactic(auto, unfolding(crate::specs::Target::target_of), using(crate::proofs::Declaring::declaring_steps))]
pub fn target<V: ModuleView>(view: &V, class: Token, method: Token) -> Option<Token>
    requires sound { IsSound (V.meaning view.now) }
    ensures { result ≡ target_of (V.meaning view.now) class method }
{
    if method.table != METHOD_DEF {
        return None;
    }
    if !is_row(view, method) {
        return None;
    }
    declared_target(view, class, method, view.owner(method))
}
