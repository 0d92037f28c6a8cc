//! The lines of a script's commands.
ghost use Rattle.std.specs.Prelude.{◌≡◌, ◌++◌, ◌∷◌, [], codes, decimal, OnOk};
ghost use Rattle.enc_text.specs.Text.{refused_line, token_text};
ghost use Rattle.enc_watch.specs.Audience.{line_front, watcher_line};
ghost use Rattle.enc_checker.specs.Followed.{is_of_pdb};
ghost use Rattle.enc_session.specs.Lines.{task_line};
ghost use Rattle.enc_script.specs.Lines.{number_absent_line, applied_line, attached_line, detached_line, watch_kind_text, none_line, ran_line, refused_spawn, remap_refused_line, remapped_line, rule_text, two_labels};
ghost use Rattle.enc_script.specs.Ran.{remapped_end_line, spawn_end_line};
ghost use Rattle.enc_script.specs.Run.{apply_line, named_delta, refused_file};

use crate::files::NamedDelta;
use enc_base::{Code, Refusal, Token};
use enc_remap::Remapped;
use enc_session::{Applied, push_task};
use enc_text::{push_decimal, push_label, push_str, push_token, refused_line};
use enc_vm::SpawnEnd;
use enc_watch::WatchKind;
use std::alloc::{AllocError, Global};

/// Appends the line of a task that began.
#[tactic(auto, unfolding(enc_session::specs::Lines::task_line))]
fn push_spawned(
    alloc: Global,
    task: u32,
    method: Token,
    out: &mut Vec<u8>,
) -> Result<(), AllocError>
    ensures { OnOk result (out.new.items ≡ out.old.items ++ task_line task (codes "spawned " ++ token_text method)) }
{
    push_task(alloc, task, out)?;
    push_str(out, "spawned ")?;
    push_token(out, method)?;
    push_str(out, "\n")
}

/// Appends the line of a spawn that is refused.
#[tactic(auto, unfolding(crate::specs::Lines::refused_spawn))]
fn push_refused(method: Token, why: &str, out: &mut Vec<u8>) -> Result<(), AllocError>
    ensures { OnOk result (out.new.items ≡ out.old.items ++ refused_spawn method why.now) }
{
    push_str(out, "spawn refused ")?;
    push_token(out, method)?;
    push_str(out, " ")?;
    push_str(out, why)?;
    push_str(out, "\n")
}

/// Appends the line of a spawn.
pub(crate) fn push_spawn(
    alloc: Global,
    method: Token,
    end: SpawnEnd,
    out: &mut Vec<u8>,
) -> Result<(), AllocError>
    ensures { OnOk result (out.new.items ≡ out.old.items ++ spawn_end_line method end) }
{
    match end {
        SpawnEnd::Task(task) => push_spawned(alloc, task, method, out),
        SpawnEnd::Limit => push_refused(method, "limit", out),
        SpawnEnd::Method => push_refused(method, "method", out),
    }
}

/// Appends the line of so many steps that were made.
#[tactic(auto, unfolding(enc_session::specs::Lines::task_line, crate::specs::Lines::ran_line))]
pub(crate) fn push_ran(
    alloc: Global,
    task: u32,
    count: u32,
    out: &mut Vec<u8>,
) -> Result<(), AllocError>
    ensures { OnOk result (out.new.items ≡ out.old.items ++ ran_line task count) }
{
    push_task(alloc, task, out)?;
    push_str(out, "ran ")?;
    push_decimal(alloc, out, count)?;
    push_str(out, "\n")
}

/// Appends two offsets, each behind a blank.
#[tactic(auto, unfolding(crate::specs::Lines::two_labels))]
fn push_labels(from: u32, to: u32, out: &mut Vec<u8>) -> Result<(), AllocError>
    ensures { OnOk result (out.new.items ≡ out.old.items ++ two_labels from to) }
{
    push_str(out, " ")?;
    push_label(from, out)?;
    push_str(out, " ")?;
    push_label(to, out)
}

/// Appends the line of a frame that goes on in the newest body of its method.
#[tactic(auto, unfolding(enc_session::specs::Lines::task_line, crate::specs::Lines::remapped_line))]
fn push_moved(
    alloc: Global,
    task: u32,
    method: Token,
    offsets: (u32, u32),
    out: &mut Vec<u8>,
) -> Result<(), AllocError>
    ensures { OnOk result (out.new.items ≡ out.old.items ++ remapped_line task method offsets.0 offsets.1) }
{
    push_task(alloc, task, out)?;
    push_str(out, "remapped ")?;
    push_token(out, method)?;
    push_labels(offsets.0, offsets.1, out)?;
    push_str(out, "\n")
}

/// Appends that a rule with a number refuses a remap.
#[tactic(auto, unfolding(crate::specs::Lines::rule_text))]
fn push_rule(alloc: Global, number: u32, out: &mut Vec<u8>) -> Result<(), AllocError>
    ensures { OnOk result (out.new.items ≡ out.old.items ++ rule_text number) }
{
    push_str(out, "refused Q")?;
    push_decimal(alloc, out, number)
}

/// Appends the line of a remap that is refused by the rule with a number.
#[tactic(auto, unfolding(enc_session::specs::Lines::task_line, crate::specs::Lines::remap_refused_line))]
fn push_unmoved(alloc: Global, task: u32, number: u32, out: &mut Vec<u8>) -> Result<(), AllocError>
    ensures { OnOk result (out.new.items ≡ out.old.items ++ remap_refused_line task number) }
{
    push_task(alloc, task, out)?;
    push_str(out, "remap ")?;
    push_rule(alloc, number, out)?;
    push_str(out, "\n")
}

/// Appends the line of a remap.
pub(crate) fn push_remap(
    alloc: Global,
    task: u32,
    remapped: Remapped,
    out: &mut Vec<u8>,
) -> Result<(), AllocError>
    ensures { OnOk result (out.new.items ≡ out.old.items ++ remapped_end_line task remapped) }
{
    match remapped {
        Remapped::Moved { method, from, to } => push_moved(alloc, task, method, (from, to), out),
        Remapped::Refused(number) => push_unmoved(alloc, task, u32::from(number), out),
    }
}

/// Appends the line of a delta that made a generation.
#[tactic(auto, unfolding(crate::specs::Lines::applied_line))]
fn push_applied(
    alloc: Global,
    name: &[u8],
    generation: u32,
    out: &mut Vec<u8>,
) -> Result<(), AllocError>
    ensures { OnOk result (out.new.items ≡ out.old.items ++ applied_line name.now generation) }
{
    push_str(out, "applied ")?;
    out.extend_from_slice(name)?;
    push_str(out, " generation ")?;
    push_decimal(alloc, out, generation)?;
    push_str(out, "\n")
}

/// Whether a rule of this number is one of PDBs.
fn is_of_pdb(code: Code) -> bool
    ensures { result ≡ is_of_pdb code }
{
    match code {
        Code::F(n) => n == 12,
        Code::E(n) => n == 22,
    }
}

/// Appends the line of a delta that is refused, with the file that is.
fn push_refusal(
    alloc: Global,
    delta: &NamedDelta,
    refusal: Refusal,
    out: &mut Vec<u8>,
) -> Result<(), AllocError>
    ensures { OnOk result (out.new.items
        ≡ out.old.items ++ refused_line (refused_file (named_delta delta.now) refusal) refusal) }
{
    let line = if is_of_pdb(refusal.code) {
        refused_line(alloc, delta.debug_name.as_str(), refusal)?
    } else {
        refused_line(alloc, delta.metadata_name.as_str(), refusal)?
    };
    out.extend_from_slice(&line)
}

/// Appends the line of a delta, by what it came to.
pub(crate) fn push_outcome(
    alloc: Global,
    name: &[u8],
    delta: &NamedDelta,
    applied: Applied,
    out: &mut Vec<u8>,
) -> Result<(), AllocError>
    ensures { OnOk result (out.new.items ≡ out.old.items ++ apply_line name.now (named_delta delta.now) applied) }
{
    match applied {
        Applied::Generation(generation) => push_applied(alloc, name, generation, out),
        Applied::Refused(refusal) => push_refusal(alloc, delta, refusal, out),
    }
}

/// Appends how each line of a watcher begins.
fn push_number(alloc: Global, number: u32, out: &mut Vec<u8>) -> Result<(), AllocError>
    ensures { OnOk result (out.new.items ≡ out.old.items ++ line_front number) }
{
    push_str(out, "watcher ")?;
    push_decimal(alloc, out, number)?;
    push_str(out, " ")
}

/// Appends the line of a watcher of which a word is said.
#[tactic(auto, unfolding(enc_watch::specs::Audience::watcher_line))]
pub(crate) fn push_said(
    alloc: Global,
    number: u32,
    word: &str,
    out: &mut Vec<u8>,
) -> Result<(), AllocError>
    ensures { OnOk result (out.new.items ≡ out.old.items ++ watcher_line number word.now) }
{
    push_number(alloc, number, out)?;
    push_str(out, word)?;
    push_str(out, "\n")
}

/// The name of a kind.
fn kind_name(kind: WatchKind) -> &'static str
    ensures { result.now ≡ watch_kind_text kind }
{
    match kind {
        WatchKind::Trace => "trace",
        WatchKind::Cover => "cover",
        WatchKind::Failing => "failing",
    }
}

/// Appends the line of a watcher that was attached.
#[tactic(auto, unfolding(enc_watch::specs::Audience::watcher_line, crate::specs::Lines::attached_line))]
pub(crate) fn push_attached(
    alloc: Global,
    number: u32,
    kind: WatchKind,
    out: &mut Vec<u8>,
) -> Result<(), AllocError>
    ensures { OnOk result (out.new.items ≡ out.old.items ++ attached_line number kind) }
{
    push_number(alloc, number, out)?;
    push_str(out, "attached ")?;
    push_str(out, kind_name(kind))?;
    push_str(out, "\n")
}

/// Appends the line that no watcher of a kind is left.
#[tactic(auto, unfolding(crate::specs::Lines::none_line))]
pub(crate) fn push_none(kind: WatchKind, out: &mut Vec<u8>) -> Result<(), AllocError>
    ensures { OnOk result (out.new.items ≡ out.old.items ++ none_line kind) }
{
    push_str(out, "watcher none ")?;
    push_str(out, kind_name(kind))?;
    push_str(out, "\n")
}
