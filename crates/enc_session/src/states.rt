//! The state of a machine as it is shown.
ghost use Rattle.std.specs.Prelude.{◌≡◌, ◌++◌, ◌∷◌, codes, flat_map, reverse, OnOk};
ghost use Rattle.enc_session.specs.States.{bracketed_values, frame_line, state_text, tasks_text, touched_line};
ghost use Rattle.enc_session.specs.StatesSeen.{frame_line_at, standing_at, task_text_at};
ghost use Rattle.enc_text.specs.BodyText.{label};
ghost use Rattle.enc_text.specs.Text.{token_text};
ghost use Rattle.enc_vm.specs.Looks.{frames_in};

use crate::lines::{push_unwinding, push_word};
use crate::objects::{push_objects, push_statics};
use crate::values::push_bracketed;
use enc_base::Token;
use enc_text::{push_label, push_str, push_token};
use enc_vm::{FrameRef, Machine, TaskState};
use std::alloc::{AllocError, Global};

/// Appends the stack of a frame, from the bottom up.
fn push_stack(alloc: Global, frame: &FrameRef<'_>, out: &mut Vec<u8>) -> Result<(), AllocError>
    ensures { OnOk result (out.new.items ≡ out.old.items ++ bracketed_values (codes "stack")
        (reverse frame.now.stack)) }
{
    push_bracketed(alloc, "stack", frame.stack(), out)
}

/// Appends where a frame stands: its method, and the offset of its next instruction.
fn push_place(frame: &FrameRef<'_>, out: &mut Vec<u8>) -> Result<(), AllocError>
    ensures { OnOk result (out.new.items
        ≡ out.old.items ++ (codes "  frame " ++ token_text frame.now.method ++ 0x20 ∷ label frame.now.offset)) }
{
    push_str(out, "  frame ")?;
    push_token(out, frame.method())?;
    push_str(out, " ")?;
    push_label(frame.offset(), out)
}

/// Appends what a frame holds, a space before each: its arguments, its local variables and its stack.
fn push_held(alloc: Global, frame: &FrameRef<'_>, out: &mut Vec<u8>) -> Result<(), AllocError>
    ensures { OnOk result (out.new.items ≡ out.old.items ++ (0x20 ∷ bracketed_values (codes "args") frame.now.args
        ++ 0x20 ∷ bracketed_values (codes "locals") frame.now.locals ++ 0x20 ∷ bracketed_values (codes "stack")
        (reverse frame.now.stack))) }
{
    push_str(out, " ")?;
    push_bracketed(alloc, "args", frame.args(), out)?;
    push_str(out, " ")?;
    push_bracketed(alloc, "locals", frame.locals(), out)?;
    push_str(out, " ")?;
    push_stack(alloc, frame, out)
}

/// Appends the line of a frame.
#[tactic(auto, unfolding(crate::specs::States::frame_line))]
fn push_frame(alloc: Global, frame: &FrameRef<'_>, out: &mut Vec<u8>) -> Result<(), AllocError>
    ensures { OnOk result (out.new.items ≡ out.old.items ++ frame_line frame.now) }
{
    push_place(frame, out)?;
    push_held(alloc, frame, out)?;
    push_str(out, "\n")
}

/// Appends the line of the i-th frame of a task, nothing where there is none.
#[tactic(auto, unfolding(crate::specs::StatesSeen::frame_line_at))]
fn push_frame_at(
    alloc: Global,
    machine: &Machine,
    task: u32,
    i: u32,
    out: &mut Vec<u8>,
) -> Result<(), AllocError>
    ensures { OnOk result (out.new.items ≡ out.old.items ++ frame_line_at machine.now task i) }
{
    match machine.frame(task, i) {
        None => Ok(()),
        Some(frame) => push_frame(alloc, &frame, out),
    }
}

/// Appends the lines of a task's frames, from the outermost.
fn push_frames(
    alloc: Global,
    machine: &Machine,
    task: u32,
    out: &mut Vec<u8>,
) -> Result<(), AllocError>
    ensures { OnOk result (out.new.items
        ≡ out.old.items ++ flat_map frame_line (reverse (frames_in machine.now task))) }
{
    for i in 0..machine.depth(task) {
        push_frame_at(alloc, machine, task, i, out)?;
    }
    Ok(())
}

/// Appends the line of how it stands with a task, nothing where there is none.
fn push_standing(
    alloc: Global,
    machine: &Machine,
    task: u32,
    out: &mut Vec<u8>,
) -> Result<(), AllocError>
    ensures { OnOk result (out.new.items ≡ out.old.items ++ standing_at machine.now task) }
{
    match machine.status(task) {
        None => Ok(()),
        Some(TaskState::Ended) => push_word(alloc, task, "ended", out),
        Some(TaskState::Trapped(_)) => push_word(alloc, task, "trapped", out),
        Some(TaskState::Running) => match machine.flight_object(task) {
            None => push_word(alloc, task, "running", out),
            Some(object) => push_unwinding(alloc, task, object, out),
        },
    }
}

/// Appends a task and its frames, nothing where there is none.
fn push_task_text(
    alloc: Global,
    machine: &Machine,
    task: u32,
    out: &mut Vec<u8>,
) -> Result<(), AllocError>
    ensures { OnOk result (out.new.items ≡ out.old.items ++ task_text_at machine.now task) }
{
    push_standing(alloc, machine, task, out)?;
    push_frames(alloc, machine, task, out)
}

/// Appends all tasks.
fn push_tasks(alloc: Global, machine: &Machine, out: &mut Vec<u8>) -> Result<(), AllocError>
    ensures { OnOk result (out.new.items ≡ out.old.items ++ tasks_text 1 machine.now.tasks) }
{
    for i in 0..machine.tasks() {
        push_task_text(alloc, machine, i + 1, out)?;
    }
    Ok(())
}

/// Appends the line of a type that was touched.
#[tactic(auto, unfolding(crate::specs::States::touched_line))]
fn push_touch(token: Token, out: &mut Vec<u8>) -> Result<(), AllocError>
    ensures { OnOk result (out.new.items ≡ out.old.items ++ touched_line token) }
{
    push_str(out, "touched ")?;
    push_token(out, token)?;
    push_str(out, "\n")
}

/// Appends the lines of the types that were touched.
fn push_touched(types: &[Token], out: &mut Vec<u8>) -> Result<(), AllocError>
    ensures { OnOk result (out.new.items ≡ out.old.items ++ flat_map touched_line types.now) }
{
    for token in types {
        push_touch(*token, out)?;
    }
    Ok(())
}

/// Appends the state of a machine: its tasks with their frames, its objects, the statics that were set, and the
/// types that were touched.
#[tactic(auto, unfolding(crate::specs::States::state_text))]
pub(crate) fn push_state(
    alloc: Global,
    machine: &Machine,
    out: &mut Vec<u8>,
) -> Result<(), AllocError>
    ensures { OnOk result (out.new.items ≡ out.old.items ++ state_text machine.now) }
{
    push_str(out, "state\n")?;
    push_tasks(alloc, machine, out)?;
    push_objects(alloc, machine.objects(), out)?;
    let statics = machine.objects().statics()?;
    push_statics(alloc, statics.as_slice(), out)?;
    push_touched(machine.touched(), out)?;
    push_str(out, "end\n")
}
