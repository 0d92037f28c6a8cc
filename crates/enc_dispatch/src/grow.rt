//! An index grows with its module.
ghost use Rattle.std.specs.Prelude.{◌≡◌, ◌++◌, ◌+◌, ◌≤◌, ◌<◌, ◌^◌, IfOk, IsTrue, length, vec_len, vec_capacity};
ghost use Rattle.enc_plain.specs.Sound.{IsSound};
ghost use Rattle.enc_dispatch.specs.Growth.{StandsUpTo, HasSoMany, IsGrowth, HasGrown, has_room_for};
ghost use Rattle.enc_dispatch.specs.Stored.{with_room};

use crate::classes::classes_of;
use crate::dispatch::Dispatch;
use crate::first::put_from_behind;
use crate::growth::Growth;
use crate::impls::impls_of;
use crate::interfaces::interfaces_of;
use crate::locals::locals_of;
use crate::methods::methods_of;
use crate::own::{MethodParts, own_of};
use crate::owners::{in_order, owners_of};
use crate::rows_read::RowsRead;
use crate::slots::MoreSlots;
use crate::wanted::Wanted;
use enc_plain::ModuleView;
use std::alloc::{AllocError, Global};

/// How many classes an index may have.
const MOST_CLASSES: usize = 0x100_0000;

/// Moves items to the end of others, for which there is room.
fn append_within<T: Drop>(items: &mut Vec<T>, more: Vec<T>)
    requires { vec_len items.old + length more.items ≤ vec_capacity items.old }
    ensures { items.new.items ≡ items.old.items ++ more.items }
{
    let mut more = more;
    let Ok(()) = items.append(&mut more) else {
        unreachable!()
    };
}

impl Dispatch {
    /// What comes to the index with the rows behind those that it stands for. It takes memory for each
    /// of them, and some more meanwhile for what is known of the methods' signatures and for the methods
    /// of each class that gets some.
    pub(crate) fn growth<V: ModuleView>(
        &self,
        alloc: Global,
        view: &V,
        read: RowsRead,
    ) -> Result<Growth, AllocError>
        requires sound { IsSound (V.meaning view.now) }
        requires stands { StandsUpTo self.now (V.meaning view.now) read }
        requires read { HasSoMany (V.meaning view.now) read }
        ensures { IfOk result (λ g. IsGrowth self.now g (V.meaning view.now) read) }
    {
        let classes = classes_of(alloc, view, read.classes)?;
        let mut slots = MoreSlots::new(alloc);
        let owners = owners_of(alloc, view, read.methods)?;
        let methods = methods_of(alloc, view, &self.slots, read.methods, &owners, &mut slots)?;
        let owners = in_order(alloc, view, read.methods, &owners)?;
        let parts = MethodParts {
            first: &self.methods,
            more: &methods,
        };
        let n = read.methods;
        let own = own_of(alloc, view, &parts, Wanted::Virtual, &owners, n, &self.own)?;
        let met = own_of(alloc, view, &parts, Wanted::Public, &owners, n, &self.met)?;
        Ok(Growth {
            classes,
            methods,
            own,
            met,
            impls: impls_of(alloc, view, read.impls, &self.impls)?,
            interfaces: interfaces_of(alloc, view, read.interfaces, &self.interfaces)?,
            heads: slots.entries,
            links: slots.next,
            locals: locals_of(alloc, view, read.locals)?,
        })
    }

    /// Makes room for what comes. Nothing else that is seen changes.
    #[tactic(auto, unfolding(crate::specs::Growth::has_room_for))]
    pub(crate) fn make_room(&mut self, growth: &Growth) -> Result<(), AllocError>
        ensures kept { self.new ≡ with_room self.new.room self.old }
        ensures room { IfOk result (λ _. length self.old.classes + length growth.now.classes.items < 2 ^ 24
            → IsTrue (has_room_for self.new growth.now)) }
    {
        self.classes.reserve(growth.classes.len())?;
        self.methods.reserve(growth.methods.len())?;
        self.slots.next.reserve(growth.links.len())?;
        self.locals.reserve(growth.locals.len())?;
        Ok(())
    }

    /// There is room for what comes.
    #[tactic(auto, unfolding(crate::specs::Growth::has_room_for))]
    pub(crate) fn has_room_for(&self, growth: &Growth) -> bool
        ensures { result ≡ has_room_for self.now growth.now }
    {
        self.classes.len() + growth.classes.len() <= self.classes.capacity()
            && self.methods.len() + growth.methods.len() <= self.methods.capacity()
            && self.slots.next.len() + growth.links.len() <= self.slots.next.capacity()
            && self.locals.len() + growth.locals.len() <= self.locals.capacity()
            && self.classes.len() + growth.classes.len() < MOST_CLASSES
    }

    /// Grows by what came, for which there is room.
    #[tactic(auto, unfolding(crate::specs::Growth::has_room_for))]
    pub(crate) fn grow(&mut self, growth: Growth)
        requires { IsTrue (has_room_for self.old growth) }
        ensures { HasGrown self.old growth self.new }
    {
        append_within(&mut self.classes, growth.classes);
        append_within(&mut self.methods, growth.methods);
        put_from_behind(&mut self.own, growth.own);
        put_from_behind(&mut self.met, growth.met);
        put_from_behind(&mut self.impls, growth.impls);
        put_from_behind(&mut self.interfaces, growth.interfaces);
        self.slots.heads.put_all(growth.heads);
        append_within(&mut self.slots.next, growth.links);
        append_within(&mut self.locals, growth.locals);
    }
}
