//! The top call.
ghost use Rattle.std.specs.Prelude.{map};
ghost use Rattle.enc_command_line.specs.Words.{texts};
ghost use Rattle.enc_commands.specs.Served.{course, IsServed};

use crate::commands::plan_of;
use crate::ending::Ending;
use crate::finish::finish;
use crate::halt::Halt;
use enc_outside::{Sink, Store};
use enc_watch::Watcher;
use std::alloc::Global;

/// Plans, saves and prints, with watchers of any one type.
#[tactic(auto, unfolding(crate::specs::Served::IsServed))]
fn serve<S: Store, K: Sink, W: Watcher>(
    alloc: Global,
    words: &[String],
    store: &mut S,
    out: &mut K,
    watchers: Vec<W>,
) -> u8
    ensures { IsServed (texts words.now) (map W.watching watchers.items) result
        (course (S.told store.old) (S.told store.new) (S.faults store.old) (S.faults store.new))
        (course (K.told out.old) (K.told out.new) (K.faults out.old) (K.faults out.new)) }
{
    match plan_of(alloc, words, store, watchers) {
        Ok(plan) => finish(&plan, store, out).number(),
        Err(Halt::Plan(plan)) => finish(&plan, store, out).number(),
        Err(Halt::Memory) => Ending::Memory.number(),
        Err(Halt::Failed) => Ending::StoreFault.number(),
    }
}

/// Runs a command. `words` are those behind the program's name. The status is 0 where all is accepted, 1 where a file
/// is refused, 2 where the words are no command, 3 where memory ran out, 4 where the store failed, 5 where the sink
/// failed, and 6 where a file that must be there is absent. At 3 and 4 nothing is printed, and at 5 a first part of the
/// answer may be. A script may attach the `watchers`; those that none attaches hear nothing.
pub fn run_tool<S: Store, K: Sink>(
    alloc: Global,
    words: &[String],
    store: &mut S,
    out: &mut K,
    watchers: Vec<Box<dyn Watcher>>,
) -> u8
    ensures { IsServed (texts words.now) (map watching watchers.items) result
        (course (S.told store.old) (S.told store.new) (S.faults store.old) (S.faults store.new))
        (course (K.told out.old) (K.told out.new) (K.faults out.old) (K.faults out.new)) }
{
    serve(alloc, words, store, out, watchers)
}
