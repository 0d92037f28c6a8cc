//! The walks over a path, by which a virtual call is answered.
ghost use Rattle.std.specs.Prelude.{◌≡◌, ◌≤◌, length, reverse, take};
ghost use Rattle.enc_dispatch.specs.Walked.{left_in, path_in, slot_at, earlier_impl, impl_in, turn_in, walk_down_in, class_target_in, given_by_in, first_given_in, interface_target_in, declared_target_in, target_in, class_walk_in};

use crate::climb::Climb;
use crate::dispatch::Dispatch;
use crate::impl_part::ImplPart;
use crate::keys::{impl_key, own_key};
use crate::method_part::MethodPart;
use crate::path::nth_part;
use enc_base::Token;
use enc_base::tables::METHOD_DEF;

/// The one of two rows of MethodImpl that comes first.
fn earlier_impl(a: Option<ImplPart>, b: Option<ImplPart>) -> Option<ImplPart>
    ensures { result ≡ earlier_impl a b }
{
    let (Some(first), Some(second)) = (a, b) else {
        return a.or(b);
    };
    if first.number <= second.number {
        return Some(first);
    }
    Some(second)
}

impl Dispatch {
    /// What a class's rows of MethodImpl give for either of two methods (ECMA-335 II.22.27).
    #[tactic(auto, unfolding(crate::specs::Walked::impl_in))]
    fn impl_for(&self, class: Token, declared: u32, current: u32) -> Option<u32>
        ensures { result ≡ impl_in self.now class declared current }
    {
        let by_declared = self.impls.get(impl_key(class.row, declared)).copied();
        let by_current = self.impls.get(impl_key(class.row, current)).copied();
        let part = earlier_impl(by_declared, by_current)?;
        Some(part.body)
    }

    /// The current method behind a class, None where the class ends the walk. A row of MethodImpl
    /// comes before the class's own methods, and one in a slot of its own ends the walk (ECMA-335
    /// II.10.3).
    #[tactic(auto, unfolding(crate::specs::Walked::turn_in))]
    fn turn(&self, slot: u32, declared: u32, current: u32, class: Token) -> Option<u32>
        ensures { result ≡ turn_in self.now slot declared current class }
    {
        if let Some(body) = self.impl_for(class, declared, current) {
            return Some(body);
        }
        let Some(own) = self.own.get(own_key(class.row, slot)).copied() else {
            return Some(current);
        };
        if own.is_new_slot {
            return None;
        }
        Some(own.row)
    }

    /// The walk down over the first so many classes of a path, from the last of them to the object's
    /// class. Each is climbed to anew, so that the walk takes no memory.
    fn walk_down(&self, class: Token, count: u32, slot: u32, declared: u32) -> u32
        requires { count ≤ length (path_in self.now class) }
        ensures { result ≡ walk_down_in self.now slot declared
            (reverse (take count (path_in self.now class))) declared }
    {
        let mut current = declared;
        let mut left = count;
        while left > 0 {
            left -= 1;
            let at = self.nth_class(class, left);
            let Some(next) = self.turn(slot, declared, current, at) else {
                return current;
            };
            current = next;
        }
        current
    }

    /// The class walk (ECMA-335 I.8.10.4): over the classes of the path below the declaring class,
    /// None where that isn't on the path.
    #[tactic(auto, unfolding(crate::specs::Walked::class_target_in, crate::specs::Walked::class_walk_in))]
    fn class_target(&self, class: Token, declaring: Token, declared: u32) -> Option<u32>
        ensures { result ≡ class_target_in self.now class declaring declared }
    {
        let part = nth_part(&self.methods, declared)?;
        let count = self.place_on_path(class, declaring)?;
        Some(self.walk_down(class, count, part.slot, declared))
    }

    /// What a class gives for a method of an interface: by its first row of MethodImpl, else its
    /// first public virtual method of the slot (ECMA-335 II.12.2).
    #[tactic(auto, unfolding(crate::specs::Walked::given_by_in))]
    fn given_by(&self, slot: u32, declared: u32, class: Token) -> Option<u32>
        ensures { result ≡ given_by_in self.now slot declared class }
    {
        if let Some(body) = self.impl_for(class, declared, declared) {
            return Some(body);
        }
        let own = self.met.get(own_key(class.row, slot)).copied()?;
        Some(own.row)
    }

    /// The first class of a climb that gives a method, with what it gives.
    fn first_given(&self, slot: u32, declared: u32, from: Climb) -> Option<(Token, u32)>
        ensures { result ≡ first_given_in self.now slot declared (left_in self.now from) }
    {
        let mut climb = from;
        while let Some(rest) = self.behind(climb) {
            if let Some(row) = self.given_by(slot, declared, climb.class) {
                return Some((climb.class, row));
            }
            climb = rest;
        }
        None
    }

    /// The interface walk: upward from the first class that has the interface, and then the class
    /// walk of what is given there (ECMA-335 II.12.2).
    #[tactic(auto, unfolding(crate::specs::Walked::interface_target_in))]
    fn interface_target(
        &self,
        class: Token,
        interface: Token,
        declared: u32,
        slot: u32,
    ) -> Option<u32>
        ensures { result ≡ interface_target_in self.now class interface declared slot }
    {
        let from = self.from_interface(class, interface);
        let (giving, row) = self.first_given(slot, declared, from)?;
        self.class_target(class, giving, row)
    }

    /// By the type that declares the method.
    #[tactic(auto, unfolding(crate::specs::Walked::declared_target_in))]
    fn declared_target(&self, class: Token, declared: u32, part: MethodPart) -> Option<u32>
        ensures { result ≡ declared_target_in self.now class declared part }
    {
        if self.is_interface(part.owner) {
            return self.interface_target(class, part.owner, declared, part.slot);
        }
        self.class_target(class, part.owner, declared)
    }

    /// The method that a virtual call of a declared one reaches on an object of a class.
    #[tactic(auto, unfolding(crate::specs::Walked::target_in))]
    pub(crate) fn found_target(&self, class: Token, method: Token) -> Option<Token>
        ensures { result ≡ target_in self.now class method }
    {
        if method.table != METHOD_DEF {
            return None;
        }
        let part = nth_part(&self.methods, method.row)?;
        let row = self.declared_target(class, method.row, part)?;
        Some(Token {
            table: METHOD_DEF,
            row,
        })
    }
}
