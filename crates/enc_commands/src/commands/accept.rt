//! What the commands share: the files are loaded, and then judged.
ghost use Rattle.std.specs.Prelude.{◌≡◌, length, IfSome, IfOk};
ghost use Rattle.enc_outside.specs.Outside.{HasCause};
ghost use Rattle.enc_command_line.specs.Words.{texts};
ghost use Rattle.enc_commands.specs.Verdict.{accept as accept_from, accept_text as text_from};
ghost use Rattle.enc_commands.specs.Stops.{Comes, StopsQuietly};
ghost use Rattle.enc_commands.specs.Loads.{followed, texted, HaveGone};

use crate::halt::Halt;
use crate::judge::judge_all;
use crate::load::{Loaded, load_base, load_deltas};
use enc_chain::Chain;
use enc_outside::Store;
use std::alloc::Global;

/// The base with its deltas, loaded and judged.
#[tactic(auto, unfolding(crate::specs::Verdict::accept))]
pub fn accept<S: Store>(
    alloc: Global,
    base: &str,
    deltas: &[String],
    store: &mut S,
) -> Result<Chain, Halt>
    ensures cause { HasCause Halt.Failed (S.faults store.old) (S.faults store.new) result }
    ensures stays { S.told store.new ≡ S.told store.old }
    ensures step { IfSome (S.told store.old)
        (λ files. Comes followed result (accept_from files base.now (texts deltas.now))) }
    ensures quiet { StopsQuietly result }
    ensures gone { IfOk result (λ j. HaveGone (length deltas.now) j) }
{
    let mut loaded = Loaded::nothing();
    let file = load_base(alloc, base, &mut loaded, store)?;
    let files = load_deltas(alloc, deltas, &mut loaded, store)?;
    judge_all(alloc, base, file, files)
}

/// A base with its deltas, and the text of an edit list to follow them.
#[derive(Drop)]
pub struct Texted {
    pub judged: Chain,
    pub text: Vec<u8>,
}

/// The base with its deltas and the text, loaded; the base and the deltas judged.
#[tactic(auto, unfolding(crate::specs::Verdict::accept_text))]
pub fn accept_text<S: Store>(
    alloc: Global,
    base: &str,
    edits: &str,
    deltas: &[String],
    store: &mut S,
) -> Result<Texted, Halt>
    ensures cause { HasCause Halt.Failed (S.faults store.old) (S.faults store.new) result }
    ensures stays { S.told store.new ≡ S.told store.old }
    ensures step { IfSome (S.told store.old)
        (λ files. Comes texted result (text_from files base.now edits.now (texts deltas.now))) }
    ensures quiet { StopsQuietly result }
{
    let mut loaded = Loaded::nothing();
    let file = load_base(alloc, base, &mut loaded, store)?;
    let text = loaded.load(alloc, edits, store)?;
    let files = load_deltas(alloc, deltas, &mut loaded, store)?;
    let judged = judge_all(alloc, base, file, files)?;
    Ok(Texted { judged, text })
}
