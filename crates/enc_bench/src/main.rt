//! Judges all indices of a bare metadata file: a program for the benchmark scripts.
#![tactic(auto)]

ghost use Rattle.std.specs.Prelude.{◌≡◌, IfOk, is_some, not};
ghost use Rattle.enc_meta.specs.Heaps.{part};
ghost use Rattle.enc_rows.specs.Layout.{IsWithin};
ghost use Rattle.enc_rows.specs.Runs.{table_stream};
ghost use Rattle.enc_rows.specs.Fault.{index_fault};

use enc_base::Counts;
use enc_meta::read_root;
use enc_outside::{FileStore, Store};
use enc_rows::{Form, Tables};
use std::alloc::{AllocError, Global};
use std::{env, io};

/// No index of the tables is bad.
fn are_good(tables: &Tables, alloc: Global, bytes: &[u8]) -> Result<bool, AllocError>
    requires bytes { IsWithin (part bytes.now tables.now.span) tables.now }
    ensures { IfOk result (λ good. good ≡ not (is_some (index_fault (table_stream bytes.now tables.now)))) }
{
    let place = tables.first_bad_index(alloc, bytes)?;
    Ok(place.is_none())
}

/// What judging a file's indices comes to.
fn judged(alloc: Global, bytes: &[u8]) -> &'static str {
    let Ok(root) = read_root(bytes) else {
        return "no root";
    };
    let none = Counts { rows: [0; 64] };
    let Ok(tables) = Tables::read(bytes, root.tables, Form::Base, root.jtd, &none) else {
        return "no tables";
    };
    match are_good(&tables, alloc, bytes) {
        Ok(true) => "every index is good",
        Ok(false) => "an index is bad",
        Err(_) => "out of memory",
    }
}

/// What judging the file of this name comes to.
fn answer(rt: HostRuntime, name: &str) -> &'static str {
    match FileStore::begin(rt).load(name) {
        Ok(Some(bytes)) => judged(rt.alloc(), &bytes),
        Ok(None) => "no such file",
        Err(_) => "not loaded",
    }
}

fn main(rt: HostRuntime) -> io::Result<()> {
    let mut args = env::args(&rt)?;
    let _program = args.next();
    for name in args {
        println!(rt; "{}", answer(rt, name.as_str()))?;
    }
    Ok(())
}
