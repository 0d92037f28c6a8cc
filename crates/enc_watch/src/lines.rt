//! The lines of a trace, by what was heard.
ghost use Rattle.std.specs.Prelude.{◌≡◌, ◌++◌, ◌∷◌, [], codes, decimal, OnOk, IfOk};
ghost use Rattle.enc_text.specs.Text.{token_text, refusal_code_text};
ghost use Rattle.enc_watch.specs.Watched.{trap_code_text, number_line, heard_line, stepped_line, event_line, trace_text};

use crate::event::Event;
use enc_base::{Code, Token};
use enc_objects::Trap;
use enc_text::{push_decimal, push_str, push_token};
use std::alloc::{AllocError, Global};

/// The code of a trap.
pub fn trap_code(trap: Trap) -> &'static str
    ensures { result.now ≡ trap_code_text trap }
{
    match trap {
        Trap::X1 => "X1",
        Trap::X2 => "X2",
        Trap::X3 => "X3",
        Trap::X4 => "X4",
        Trap::X5 => "X5",
        Trap::X6 => "X6",
        Trap::X7 => "X7",
        Trap::X8 => "X8",
        Trap::X9 => "X9",
        Trap::X10 => "X10",
        Trap::X11 => "X11",
        Trap::X12 => "X12",
        Trap::X13 => "X13",
        Trap::X14 => "X14",
    }
}

/// Appends a line of a word and a number.
#[tactic(auto, unfolding(crate::specs::Watched::number_line))]
fn push_number(alloc: Global, word: &str, number: u32, out: &mut Vec<u8>) -> Result<(), AllocError>
    ensures { OnOk result (out.new.items ≡ out.old.items ++ number_line word.now number) }
{
    push_str(out, word)?;
    push_str(out, " ")?;
    push_decimal(alloc, out, number)?;
    push_str(out, "\n")
}

/// Appends how a line of a task begins: a word and its number.
fn push_task(alloc: Global, word: &str, task: u32, out: &mut Vec<u8>) -> Result<(), AllocError>
    ensures { OnOk result (out.new.items ≡ out.old.items ++ (word.now ++ 0x20 ∷ decimal task ++ 0x20 ∷ [])) }
{
    push_str(out, word)?;
    push_str(out, " ")?;
    push_decimal(alloc, out, task)?;
    push_str(out, " ")
}

/// Appends a line of a word, a task and a method.
#[tactic(auto, unfolding(crate::specs::Watched::heard_line))]
fn push_method(
    alloc: Global,
    word: &str,
    task: u32,
    method: Token,
    out: &mut Vec<u8>,
) -> Result<(), AllocError>
    ensures { OnOk result (out.new.items ≡ out.old.items ++ heard_line word.now task (token_text method)) }
{
    push_task(alloc, word, task, out)?;
    push_token(out, method)?;
    push_str(out, "\n")
}

/// Appends a line of a task that came to a line of a method.
#[tactic(auto, unfolding(crate::specs::Watched::heard_line, crate::specs::Watched::stepped_line))]
fn push_stepped(
    alloc: Global,
    task: u32,
    method: Token,
    line: u32,
    out: &mut Vec<u8>,
) -> Result<(), AllocError>
    ensures { OnOk result (out.new.items ≡ out.old.items ++ stepped_line task method line) }
{
    push_task(alloc, "line", task, out)?;
    push_token(out, method)?;
    push_str(out, " ")?;
    push_decimal(alloc, out, line)?;
    push_str(out, "\n")
}

/// Appends a line of a task that trapped.
#[tactic(auto, unfolding(crate::specs::Watched::heard_line))]
fn push_trapped(alloc: Global, task: u32, trap: Trap, out: &mut Vec<u8>) -> Result<(), AllocError>
    ensures { OnOk result (out.new.items ≡ out.old.items ++ heard_line (codes "trapped") task (trap_code_text trap)) }
{
    push_task(alloc, "trapped", task, out)?;
    push_str(out, trap_code(trap))?;
    push_str(out, "\n")
}

/// Appends the letter and number of a rule.
fn push_code(alloc: Global, code: Code, out: &mut Vec<u8>) -> Result<(), AllocError>
    ensures { OnOk result (out.new.items ≡ out.old.items ++ refusal_code_text code) }
{
    let (letter, number) = match code {
        Code::F(number) => ("F", number),
        Code::E(number) => ("E", number),
    };
    push_str(out, letter)?;
    push_decimal(alloc, out, u32::from(number))
}

/// Appends the line of a delta that was refused.
fn push_refused(alloc: Global, code: Code, out: &mut Vec<u8>) -> Result<(), AllocError>
    ensures { OnOk result (out.new.items ≡ out.old.items ++ (codes "refused " ++ refusal_code_text code ++ 0x0a ∷ [])) }
{
    push_str(out, "refused ")?;
    push_code(alloc, code, out)?;
    push_str(out, "\n")
}

/// Appends the line of an event.
fn push_event(alloc: Global, event: Event, out: &mut Vec<u8>) -> Result<(), AllocError>
    ensures { OnOk result (out.new.items ≡ out.old.items ++ event_line event) }
{
    match event {
        Event::Spawned { task, method } => push_method(alloc, "spawned", task, method, out),
        Event::Entered { task, method } => push_method(alloc, "entered", task, method, out),
        Event::Left { task, method } => push_method(alloc, "left", task, method, out),
        Event::Line { task, method, line } => push_stepped(alloc, task, method, line, out),
        Event::Applied { generation } => push_number(alloc, "applied", generation, out),
        Event::Refused { code } => push_refused(alloc, code, out),
        Event::Trapped { task, trap } => push_trapped(alloc, task, trap, out),
        Event::Ended { task } => push_number(alloc, "ended", task, out),
    }
}

/// The report of a trace over these events.
#[tactic(auto, unfolding(crate::specs::Watched::trace_text))]
pub(crate) fn trace_report(alloc: Global, heard: &[Event]) -> Result<Vec<u8>, AllocError>
    ensures { IfOk result (λ text. text.items ≡ trace_text heard.now) }
{
    let mut text = Vec::new(alloc);
    for event in heard {
        push_event(alloc, *event, &mut text)?;
    }
    Ok(text)
}
