//! Runs the cases of a case file: many runs of the top call over files in memory, and what each
//! printed. docs/testing.md has the form.
#![tactic(auto)]

mod call;
mod case;
mod every;
mod faults;
mod line;
mod store;

ghost use Rattle.std.specs.Prelude.{◌≡◌, OnOk};
ghost use Rattle.enc_outside.specs.Outside.{with_piece};

use case::Case;
use enc_outside::{OutSink, PutError, Sink};
use std::io::{self, BufRead, BufReader};

/// Prints bytes as they are.
fn print<K: Sink>(out: &mut K, bytes: &[u8]) -> io::Result<()>
    ensures { OnOk result (K.told out.new ≡ with_piece bytes.now (K.told out.old)) }
{
    match out.put(bytes) {
        Ok(()) => Ok(()),
        Err(PutError::Memory) => Err(io::Error::from(io::ErrorKind::OutOfMemory)),
        Err(PutError::Failed) => Err(io::Error::from(io::ErrorKind::Other)),
    }
}

fn main(rt: HostRuntime) -> io::Result<()> {
    let alloc = rt.alloc();
    let mut out = OutSink::begin(rt);
    let mut case = Case::begin(alloc);
    for (i, line) in BufReader::new(alloc, rt.reader())?.lines(alloc).enumerate() {
        let line = line?;
        let printed = case.take_line(line.as_str(), i as u64 + 1)?;
        print(&mut out, &printed)?;
    }
    Ok(())
}
