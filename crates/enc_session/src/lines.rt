//! The lines of a task.
ghost use Rattle.std.specs.Prelude.{◌≡◌, ◌≤◌, ◌+◌, ◌*◌, ◌++◌, ◌∷◌, [], codes, decimal, length, unwrap_or, OnOk, vec_len, vec_capacity};
ghost use Rattle.enc_session.specs.Lines.{task_line, trapped_line, written_line};
ghost use Rattle.enc_text.specs.BodyText.{utf8_of};
ghost use Rattle.enc_text.specs.Text.{quoted};

use enc_objects::Trap;
use enc_text::{
    push_decimal, push_decimal_within, push_label_within, push_str, push_str_within,
    push_units_within,
};
use enc_vm::Seen;
use enc_watch::trap_code;
use std::alloc::{AllocError, Global};

/// Appends how each line of a task begins.
pub fn push_task(alloc: Global, task: u32, out: &mut Vec<u8>) -> Result<(), AllocError>
    ensures { OnOk result (out.new.items ≡ out.old.items ++ codes "task " ++ decimal task ++ 0x20 ∷ []) }
{
    push_str(out, "task ")?;
    push_decimal(alloc, out, task)?;
    push_str(out, " ")
}

/// Appends the line of a task of which a word is said.
#[tactic(auto, unfolding(crate::specs::Lines::task_line))]
pub fn push_word(alloc: Global, task: u32, word: &str, out: &mut Vec<u8>) -> Result<(), AllocError>
    ensures { OnOk result (out.new.items ≡ out.old.items ++ task_line task word.now) }
{
    push_task(alloc, task, out)?;
    push_str(out, word)?;
    push_str(out, "\n")
}

/// Appends the line of a task in which an object is on its way to a handler.
#[tactic(auto, unfolding(crate::specs::Lines::task_line))]
pub(crate) fn push_unwinding(
    alloc: Global,
    task: u32,
    object: u32,
    out: &mut Vec<u8>,
) -> Result<(), AllocError>
    ensures { OnOk result (out.new.items ≡ out.old.items ++ task_line task (codes "unwinding #" ++ decimal object)) }
{
    push_task(alloc, task, out)?;
    push_str(out, "unwinding #")?;
    push_decimal(alloc, out, object)?;
    push_str(out, "\n")
}

/// Appends how each line of a task begins, within room that is there.
fn push_task_within(task: u32, out: &mut Vec<u8>)
    requires { vec_len out.old + 16 ≤ vec_capacity out.old }
    ensures text { out.new.items ≡ out.old.items ++ codes "task " ++ decimal task ++ 0x20 ∷ [] }
    ensures len { vec_len out.new ≤ vec_len out.old + 16 }
    ensures capacity { vec_capacity out.old ≤ vec_capacity out.new }
{
    push_str_within(out, "task ");
    push_decimal_within(task, out);
    push_str_within(out, " ")
}

/// Appends the line of a text that a task writes, within room that is there.
#[tactic(auto, unfolding(crate::specs::Lines::task_line))]
fn push_writes(task: u32, units: &[u16], out: &mut Vec<u8>)
    requires { vec_len out.old + (12 * length units.now + 26) ≤ vec_capacity out.old }
    ensures text { out.new.items ≡ out.old.items ++ task_line task (codes "writes " ++ quoted (utf8_of units.now)) }
    ensures len { vec_len out.new ≤ vec_len out.old + (12 * length units.now + 26) }
    ensures capacity { vec_capacity out.old ≤ vec_capacity out.new }
{
    push_task_within(task, out);
    push_str_within(out, "writes ");
    push_units_within(units, out);
    push_str_within(out, "\n")
}

/// Appends the line of what a step writes, nothing where it writes nothing, within room that is there.
pub(crate) fn push_written(task: u32, seen: &Seen, out: &mut Vec<u8>)
    requires { vec_len out.old + (12 * length (unwrap_or seen.now.wrote []) + 26) ≤ vec_capacity out.old }
    ensures text { out.new.items ≡ out.old.items ++ written_line task seen.now.wrote }
    ensures len { vec_len out.new ≤ vec_len out.old + (12 * length (unwrap_or seen.now.wrote []) + 26) }
    ensures capacity { vec_capacity out.old ≤ vec_capacity out.new }
{
    match &seen.wrote {
        None => {}
        Some(units) => push_writes(task, units.as_slice(), out),
    }
}

/// Appends the line of a trap, with the offset of the instruction that trapped, within room that is there.
#[tactic(auto, unfolding(crate::specs::Lines::task_line, crate::specs::Lines::trapped_line))]
pub(crate) fn push_trapped(task: u32, trap: Trap, offset: u32, out: &mut Vec<u8>)
    requires { vec_len out.old + 40 ≤ vec_capacity out.old }
    ensures text { out.new.items ≡ out.old.items ++ trapped_line task trap offset }
    ensures len { vec_len out.new ≤ vec_len out.old + 40 }
    ensures capacity { vec_capacity out.old ≤ vec_capacity out.new }
{
    push_task_within(task, out);
    push_str_within(out, "trapped ");
    push_str_within(out, trap_code(trap));
    push_str_within(out, " ");
    push_label_within(offset, out);
    push_str_within(out, "\n")
}

/// Appends the line of a task that ended, within room that is there.
#[tactic(auto, unfolding(crate::specs::Lines::task_line))]
pub(crate) fn push_ended(task: u32, out: &mut Vec<u8>)
    requires { vec_len out.old + 40 ≤ vec_capacity out.old }
    ensures text { out.new.items ≡ out.old.items ++ task_line task (codes "ended") }
    ensures len { vec_len out.new ≤ vec_len out.old + 40 }
    ensures capacity { vec_capacity out.old ≤ vec_capacity out.new }
{
    push_task_within(task, out);
    push_str_within(out, "ended\n")
}
