//! The lines of a command that isn't carried out, of a token that is absent and of deltas that are
//! accepted.
ghost use Rattle.std.specs.Prelude.{◌≡◌, ◌++◌, ◌∷◌, List, ℕ, OnOk, IfOk, decimal, map};
ghost use Rattle.enc_agg.specs.Seen.{module_of_all};
ghost use Rattle.enc_command_line.specs.Case.{case_line as line_of_case};
ghost use Rattle.std.specs.Borrow.{Bor};
ghost use Rattle.enc_command_line.specs.Lines.{limit_text, limit_line, missing_line, absent_line, accepted_line, spaced, saved_line, moved_line, moved_lines, fault_text, unlisted_line, broken_line, deep_line, usage_line};

use crate::limits::Limit;
use crate::loaded::sum_loaded;
use enc_agg::Aggregate;
use enc_base::Token;
use enc_base::tables::METHOD_DEF;
use enc_jobs::JobFault;
use enc_plain::ModuleView;
use enc_text::{push_decimal, push_long, push_str, push_token, stream_name};
use std::alloc::{AllocError, Global};

/// Appends the number and the place of a limit.
fn push_limit(out: &mut Vec<u8>, limit: Limit) -> Result<(), AllocError>
    ensures { OnOk result (out.new.items ≡ out.old.items ++ limit_text limit) }
{
    match limit {
        Limit::Length => push_str(out, "L1 length"),
        Limit::Total => push_str(out, "L2 total"),
        Limit::Heap(heap) => {
            push_str(out, "L4 ")?;
            push_str(out, stream_name(heap))
        }
        Limit::Image => push_str(out, "L4 image"),
    }
}

/// The line of a file that is too long, with which all are, or that would be.
#[tactic(auto, unfolding(crate::specs::Lines::limit_line))]
pub fn limit_line(alloc: Global, name: &str, limit: Limit) -> Result<Vec<u8>, AllocError>
    ensures { IfOk result (λ line. line.items ≡ limit_line name.now limit) }
{
    let mut line = Vec::new(alloc);
    push_str(&mut line, "refused ")?;
    push_str(&mut line, name)?;
    push_str(&mut line, " ")?;
    push_limit(&mut line, limit)?;
    push_str(&mut line, "\n")?;
    Ok(line)
}

/// The line of a file that isn't there.
#[tactic(auto, unfolding(crate::specs::Lines::missing_line))]
pub fn missing_line(alloc: Global, name: &str) -> Result<Vec<u8>, AllocError>
    ensures { IfOk result (λ line. line.items ≡ missing_line name.now) }
{
    let mut line = Vec::new(alloc);
    push_str(&mut line, "missing ")?;
    push_str(&mut line, name)?;
    push_str(&mut line, "\n")?;
    Ok(line)
}

/// Appends the line of a token that the module lacks.
#[tactic(auto, unfolding(crate::specs::Lines::absent_line))]
pub fn push_absent(out: &mut Vec<u8>, token: Token) -> Result<(), AllocError>
    ensures { OnOk result (out.new.items ≡ out.old.items ++ absent_line token) }
{
    push_str(out, "absent ")?;
    push_token(out, token)?;
    push_str(out, "\n")
}

/// Appends the line of so many deltas that are accepted.
#[tactic(auto, unfolding(crate::specs::Lines::accepted_line))]
pub fn push_accepted(alloc: Global, out: &mut Vec<u8>, count: u32) -> Result<(), AllocError>
    ensures { OnOk result (out.new.items ≡ out.old.items ++ accepted_line count) }
{
    push_str(out, "accepted ")?;
    push_decimal(alloc, out, count)?;
    push_str(out, "\n")
}

/// Appends names, each behind a space.
fn push_spaced(out: &mut Vec<u8>, names: &[&str]) -> Result<(), AllocError>
    ensures { OnOk result (out.new.items ≡ out.old.items ++ spaced (map (λ (s : Bor (List ℕ)). s.now) names.now)) }
{
    for name in names {
        push_str(out, " ")?;
        push_str(out, name)?;
    }
    Ok(())
}

/// The line of files that are saved.
#[tactic(auto, unfolding(crate::specs::Lines::saved_line))]
pub fn saved_line(alloc: Global, names: &[&str]) -> Result<Vec<u8>, AllocError>
    ensures { IfOk result (λ line. line.items ≡ saved_line (map (λ (s : Bor (List ℕ)). s.now) names.now)) }
{
    let mut line = Vec::new(alloc);
    push_str(&mut line, "saved")?;
    push_spaced(&mut line, names)?;
    push_str(&mut line, "\n")?;
    Ok(line)
}

/// Appends the line of a row that moves, with its new token.
#[tactic(auto, unfolding(crate::specs::Lines::moved_line))]
fn push_moved(out: &mut Vec<u8>, old: Token, new: Token) -> Result<(), AllocError>
    ensures { OnOk result (out.new.items ≡ out.old.items ++ moved_line (old, new)) }
{
    push_str(out, "moved ")?;
    push_token(out, old)?;
    push_str(out, " ")?;
    push_token(out, new)?;
    push_str(out, "\n")
}

/// Appends the lines of rows that move, each with its new token.
#[tactic(auto, unfolding(crate::specs::Lines::moved_lines))]
pub fn push_moves(out: &mut Vec<u8>, moves: &[(Token, Token)]) -> Result<(), AllocError>
    ensures { OnOk result (out.new.items ≡ out.old.items ++ moved_lines moves.now) }
{
    for i in 0..moves.len() {
        let (old, new) = moves[i];
        push_moved(out, old, new)?;
    }
    Ok(())
}

/// Appends the number and the place of what isn't an edit list.
fn push_fault(alloc: Global, out: &mut Vec<u8>, fault: JobFault) -> Result<(), AllocError>
    ensures { OnOk result (out.new.items ≡ out.old.items ++ fault_text fault) }
{
    match fault {
        JobFault::J1 => push_str(out, "J1 json"),
        JobFault::J2(number) => {
            push_str(out, "J2 ")?;
            push_decimal(alloc, out, number)
        }
        JobFault::L3 => push_str(out, "L3 commands"),
        JobFault::Memory => Ok(()),
    }
}

/// The line of a file that is no edit list.
#[tactic(auto, unfolding(crate::specs::Lines::unlisted_line))]
pub fn unlisted_line(alloc: Global, name: &str, fault: JobFault) -> Result<Vec<u8>, AllocError>
    ensures { IfOk result (λ line. line.items ≡ unlisted_line name.now fault) }
{
    let mut line = Vec::new(alloc);
    push_str(&mut line, "refused ")?;
    push_str(&mut line, name)?;
    push_str(&mut line, " ")?;
    push_fault(alloc, &mut line, fault)?;
    push_str(&mut line, "\n")?;
    Ok(line)
}

/// The line of an edit list that breaks a rule, with the number of its edit.
#[tactic(auto, unfolding(crate::specs::Lines::broken_line))]
pub fn broken_line(alloc: Global, name: &str, rule: u8, edit: u32) -> Result<Vec<u8>, AllocError>
    ensures { IfOk result (λ line. line.items ≡ broken_line name.now rule edit) }
{
    let mut line = Vec::new(alloc);
    push_str(&mut line, "refused ")?;
    push_str(&mut line, name)?;
    push_str(&mut line, " E")?;
    push_decimal(alloc, &mut line, u32::from(rule))?;
    push_str(&mut line, " ")?;
    push_decimal(alloc, &mut line, edit)?;
    push_str(&mut line, "\n")?;
    Ok(line)
}

/// The line of a generated case, with its words as they were given.
#[tactic(auto, unfolding(crate::specs::Case::case_line))]
pub fn case_line(
    alloc: Global,
    start: &str,
    count: &str,
    agg: &Aggregate,
) -> Result<Vec<u8>, AllocError>
    ensures { IfOk result (λ line. line.items ≡ line_of_case start.now count.now (module_of_all agg.now)) }
{
    let mut line = Vec::new(alloc);
    push_str(&mut line, "gen ")?;
    push_str(&mut line, start)?;
    push_str(&mut line, " ")?;
    push_str(&mut line, count)?;
    push_str(&mut line, " methods ")?;
    push_decimal(alloc, &mut line, agg.count(METHOD_DEF))?;
    push_str(&mut line, " sum ")?;
    push_long(alloc, &mut line, sum_loaded(agg))?;
    push_str(&mut line, "\n")?;
    Ok(line)
}

/// The line of two deltas that aren't merged, as a reference lies too deep in others.
#[tactic(auto, unfolding(crate::specs::Lines::deep_line))]
pub fn deep_line(alloc: Global, name: &str, token: Token) -> Result<Vec<u8>, AllocError>
    ensures { IfOk result (λ line. line.items ≡ deep_line name.now token) }
{
    let mut line = Vec::new(alloc);
    push_str(&mut line, "refused ")?;
    push_str(&mut line, name)?;
    push_str(&mut line, " G1 ")?;
    push_token(&mut line, token)?;
    push_str(&mut line, "\n")?;
    Ok(line)
}

/// The line of words that are no command.
#[tactic(auto, unfolding(crate::specs::Lines::usage_line))]
pub fn usage_line(alloc: Global) -> Result<Vec<u8>, AllocError>
    ensures { IfOk result (λ line. line.items ≡ usage_line) }
{
    let mut line = Vec::new(alloc);
    push_str(
        &mut line,
        "usage: enc show list check apply write run gen compact merge\n",
    )?;
    Ok(line)
}
