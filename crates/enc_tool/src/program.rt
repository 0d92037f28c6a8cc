//! From the words behind a program's name to its status.
ghost use Rattle.std.specs.Prelude.{◌≡◌, None, IfSome, map};
ghost use Rattle.enc_command_line.specs.Words.{texts};
ghost use Rattle.enc_commands.specs.Served.{course, IsServed};

use enc_commands::run_tool;
use enc_outside::{FileFault, FileStore, OutSink, Sink, Store};
use enc_watch::{Cover, Trace, Watcher};
use std::alloc::{AllocError, Global};
use std::env;
use std::io::ErrorKind;
use std::process::ExitCode;

/// The words behind the program's name. None where memory ran out or a word isn't UTF-8.
fn words_of(rt: &HostRuntime) -> Option<Vec<String>> {
    let mut args = env::args(rt).ok()?;
    let _program = args.next();
    args.collect(rt.alloc()).ok()
}

/// The status of the words, and 3 where they can't be had: then nothing is asked of the store or the sink.
fn status_of<S: Store, K: Sink>(
    alloc: Global,
    words: Option<Vec<String>>,
    store: &mut S,
    out: &mut K,
    watchers: Vec<Box<dyn Watcher>>,
) -> u8
    ensures no_words { words ≡ None → result ≡ 3 }
    ensures no_store { words ≡ None → store.new ≡ store.old }
    ensures no_sink { words ≡ None → out.new ≡ out.old }
    ensures served { IfSome words (λ w. IsServed (texts w.items) (map watching watchers.items) result
        (course (S.told store.old) (S.told store.new) (S.faults store.old) (S.faults store.new))
        (course (K.told out.old) (K.told out.new) (K.faults out.old) (K.faults out.new))) }
{
    match words {
        None => 3,
        Some(words) => run_tool(alloc, &words, store, out, watchers),
    }
}

/// The forms of all commands.
const FORMS: &str = "\
enc: these are the commands
  enc show BASE TOKEN DELTA..          a row of the module after the deltas
  enc list BASE DELTA..                the generations, and the rows that each inserts or updates
  enc check BASE DELTA..               whether the base and each delta keep the rules
  enc apply BASE OUT DELTA..           saves the one module with all edits, and its PDB
  enc write BASE EDITS OUT DELTA..     saves the delta of an edit list
  enc run BASE SCRIPT                  runs a script
  enc gen START COUNT OUT              saves a generated case
  enc compact BASE OUT DELTA..         saves the module as an ordinary one, and its PDB
  enc merge BASE OUT DELTA DELTA ..    saves one delta that stands for the last two
BASE is read from BASE.dll and BASE.pdb, DELTA from DELTA.meta, DELTA.il and DELTA.pdb; names are 1 to 200
ASCII letters, digits and _ - . /, and TOKEN is eight hexadecimal digits.
";

/// Tells what went wrong with a file, on standard error.
fn tell_file(rt: &HostRuntime, fault: &FileFault) {
    let _ = match &fault.name {
        Some(name) => eprintln!(rt; "enc: {}: {}", name, fault.cause),
        None => eprintln!(rt; "enc: {}", fault.cause),
    };
}

/// Tells which files were read before a save replaced them, on standard error: who meant another name learns it.
fn tell_replaced(rt: &HostRuntime, store: &FileStore<HostRuntime>) {
    for name in store.replaced() {
        let _ = eprintln!(rt;
            "enc: {}: replaced, and it was one of the files that were read",
            name
        );
    }
}

/// Tells people on standard error why it ends with a status of 2 or more, where more than the output is known: nothing
/// where the reader of a pipe has read enough. No clause speaks of it.
fn explain(
    rt: &HostRuntime,
    status: u8,
    store: &FileStore<HostRuntime>,
    out: &OutSink<HostRuntime>,
) {
    match status {
        2 => {
            let _ = eprint!(rt; "{}", FORMS);
        }
        3 => {
            let _ = eprintln!(rt; "enc: out of memory");
        }
        4 => {
            if let Some(fault) = store.last_fault() {
                tell_file(rt, fault);
            }
        }
        5 => {
            if let Some(cause) = out.last_fault()
                && cause.kind() != ErrorKind::BrokenPipe
            {
                let _ = eprintln!(rt; "enc: standard output: {}", cause);
            }
        }
        _ => {}
    }
}

/// The status of the words over the files and the standard output of the system, with a trace and a cover that a
/// script may attach.
fn status_here(rt: HostRuntime, words: Option<Vec<String>>) -> Result<u8, AllocError> {
    let alloc = rt.alloc();
    let trace: Box<dyn Watcher> = Box::new(alloc, Trace::begin(alloc))?;
    let cover: Box<dyn Watcher> = Box::new(alloc, Cover::begin(alloc))?;
    let mut watchers = Vec::new(alloc);
    watchers.push(trace)?;
    watchers.push(cover)?;
    let mut store = FileStore::begin(rt);
    let mut out = OutSink::begin(rt);
    let had_words = words.is_some();
    let status = status_of(alloc, words, &mut store, &mut out, watchers);
    tell_replaced(&rt, &store);
    if had_words {
        explain(&rt, status, &store, &out);
    }
    Ok(status)
}

/// Runs the words of this process over the files and the standard output of the system. The status is 3 where
/// there is no memory for the words or the watchers, and then nothing is printed.
pub(crate) fn run_program(rt: HostRuntime) -> ExitCode {
    let words = words_of(&rt);
    match status_here(rt, words) {
        Ok(status) => ExitCode::from(status),
        Err(_) => ExitCode::from(3),
    }
}
