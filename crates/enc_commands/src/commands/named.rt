//! The names of the deltas that a script applies.
ghost use Rattle.std.specs.Prelude.{◌≡◌, ◌∷◌, [], true, IfOk, OnOk, IsTrue, string_bytes};
ghost use Rattle.std.specs.List.{list_all};
ghost use Rattle.enc_rewriter.specs.Distinct.{borrowed};
ghost use Rattle.enc_jobs.specs.Laws.{names_a_delta};
ghost use Rattle.enc_jobs.specs.Scripts.{is_name};
ghost use Rattle.enc_command_line.specs.Words.{texts};
ghost use Rattle.enc_commands.specs.Verdict.{deltas_named, with_name};

use enc_jobs::Command;
use indexmap::IndexSet;
use std::alloc::{AllocError, Global};

/// Adds a name, where it isn't there yet.
fn add_name<'a>(names: &mut IndexSet<&'a [u8]>, name: &'a [u8]) -> Result<(), AllocError>
    ensures { OnOk result (borrowed names.new.keys ≡ with_name (borrowed names.old.keys) name.now) }
{
    names.insert(name)?;
    Ok(())
}

/// Adds the name of the delta that a command applies.
#[tactic(auto, unfolding(crate::specs::Verdict::deltas_named))]
fn add_named<'a>(names: &mut IndexSet<&'a [u8]>, command: &'a Command) -> Result<(), AllocError>
    ensures { OnOk result (borrowed names.new.keys ≡ deltas_named (borrowed names.old.keys) (command.now ∷ [])) }
{
    match command {
        Command::Apply(name) => add_name(names, name.as_slice()),
        Command::Spawn(_) => Ok(()),
        Command::Step(_, _) => Ok(()),
        Command::Attach(_) => Ok(()),
        Command::Detach(_) => Ok(()),
        Command::Remap(_, _) => Ok(()),
        Command::State => Ok(()),
    }
}

/// The names of the deltas that commands apply, each once, in the order in which they come first.
fn distinct_names(alloc: Global, script: &[Command]) -> Result<IndexSet<&[u8]>, AllocError>
    ensures { IfOk result (λ names. borrowed names.keys ≡ deltas_named [] script.now) }
{
    let mut names = IndexSet::new(alloc);
    for command in script {
        add_named(&mut names, command)?;
    }
    Ok(names)
}

/// A name as a text.
fn text_of(alloc: Global, name: &[u8]) -> Result<String, AllocError>
    requires { IsTrue (is_name name.now) }
    ensures { IfOk result (λ text. string_bytes text ≡ name.now) }
{
    match std::str::from_utf8(name) {
        Ok(text) => String::from_str(alloc, text),
        Err(_) => unreachable!(),
    }
}

/// Names as texts.
fn texts_of(alloc: Global, names: &[&[u8]]) -> Result<Vec<String>, AllocError>
    requires { list_all is_name (borrowed names.now) ≡ true }
    ensures { IfOk result (λ words. texts words.items ≡ borrowed names.now) }
{
    let mut words = Vec::new(alloc);
    for name in names {
        words.push(text_of(alloc, name)?)?;
    }
    Ok(words)
}

/// The names of the deltas that a script applies, each once, in the order in which they come first.
pub(crate) fn delta_names(alloc: Global, script: &[Command]) -> Result<Vec<String>, AllocError>
    requires { list_all names_a_delta script.now ≡ true }
    ensures { IfOk result (λ names. texts names.items ≡ deltas_named [] script.now) }
{
    let names = distinct_names(alloc, script)?;
    texts_of(alloc, names.as_slice())
}
