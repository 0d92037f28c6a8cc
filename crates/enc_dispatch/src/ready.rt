//! An index follows its module: what comes is made ready before, and then put in place.
ghost use Rattle.std.specs.Prelude.{◌≡◌, IfOk};
ghost use Rattle.enc_plain.specs.Module.{Module};
ghost use Rattle.enc_plain.specs.Sound.{IsSound};
ghost use Rattle.enc_dispatch.specs.Changed.{IsChangedBy};
ghost use Rattle.enc_dispatch.specs.Growth.{AreCounts};
ghost use Rattle.enc_dispatch.specs.Index.{StandsForModule};
ghost use Rattle.enc_dispatch.specs.Ready.{IsPreparedFor};
ghost use Rattle.enc_dispatch.specs.Stored.{with_room};

use crate::dispatch::Dispatch;
use crate::keeps::all_keep;
use crate::new_dispatch::{Change, NewDispatch};
use crate::rows_read::RowsRead;
use enc_base::Token;
use enc_base::tables::{INTERFACE_IMPL, METHOD_DEF, METHOD_IMPL, STAND_ALONE_SIG, TYPE_DEF};
use enc_plain::ModuleView;
use std::alloc::{AllocError, Global};

/// How many rows a module has of the tables of which an index keeps something.
fn rows_of<V: ModuleView>(view: &V) -> RowsRead
    ensures { AreCounts (V.meaning view.now) result }
{
    RowsRead {
        classes: view.count(TYPE_DEF),
        methods: view.count(METHOD_DEF),
        impls: view.count(METHOD_IMPL),
        interfaces: view.count(INTERFACE_IMPL),
        locals: view.count(STAND_ALONE_SIG),
    }
}

impl Dispatch {
    /// Makes ready what stands for a module: the whole index anew. All memory is taken here, and
    /// nothing else that is seen changes.
    #[tactic(auto, unfolding(crate::specs::Ready::IsPreparedFor))]
    pub fn prepare<V: ModuleView>(
        &mut self,
        alloc: Global,
        after: &V,
    ) -> Result<NewDispatch, AllocError>
        requires { IsSound (V.meaning after.now) }
        ensures kept { self.new ≡ with_room self.new.room self.old }
        ensures ready { IfOk result (λ n. IsPreparedFor self.new n (V.meaning after.now)) }
    {
        let whole = Dispatch::begin(alloc, after)?;
        Ok(NewDispatch {
            change: Change::Whole(whole),
        })
    }

    /// Makes ready what stands for a module with a delta, where the index stands for the module before
    /// it, and the delta lists its rows, updated and new ones. All memory is taken here, and nothing
    /// else that is seen changes. Where the delta keeps of each row that was there what the index reads
    /// (flags, name and signature of a method, flags and base of a class, and each row that a signature
    /// may lead to), it takes as much memory and time as the delta lists rows, and the classes have methods
    /// that get some; a signature of at most 1,024 bytes may be written anew with one that is alike in the
    /// module with the delta, as where that has new rows of TypeRef for the same types. Else the whole
    /// index is made anew.
    #[tactic(auto, unfolding(crate::specs::Ready::IsPreparedFor))]
    pub fn prepare_changed<V: ModuleView, W: ModuleView>(
        &mut self,
        alloc: Global,
        before: &V,
        after: &W,
        changed: &[Token],
    ) -> Result<NewDispatch, AllocError>
        requires before { IsSound (V.meaning before.now) }
        requires after { IsSound (W.meaning after.now) }
        requires stands { StandsForModule self.old (V.meaning before.now) }
        requires changed { IsChangedBy (V.meaning before.now) (W.meaning after.now) changed.now }
        ensures kept { self.new ≡ with_room self.new.room self.old }
        ensures ready { IfOk result (λ n. IsPreparedFor self.new n (W.meaning after.now)) }
    {
        if !all_keep(alloc, before, after, changed) {
            return self.prepare(alloc, after);
        }
        let growth = self.growth(alloc, after, rows_of(before))?;
        self.make_room(&growth)?;
        Ok(NewDispatch {
            change: Change::More(growth),
        })
    }

    /// Puts in place what was made ready from this state. It takes no memory and can't fail.
    #[tactic(auto, unfolding(crate::specs::Ready::IsPreparedFor))]
    pub fn commit(&mut self, new: NewDispatch)
        ensures { (m : Module) → IsPreparedFor self.old new m → StandsForModule self.new m }
    {
        match new.change {
            Change::Whole(whole) => *self = whole,
            Change::More(growth) => {
                if self.has_room_for(&growth) {
                    self.grow(growth);
                }
            }
        }
    }
}
