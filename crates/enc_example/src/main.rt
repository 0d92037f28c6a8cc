//! The library in use, as a debugger, a hot reload host and a profiler begin: a module and its sequence points are
//! opened, two deltas are applied, and each time a method's place, its name and its first line are told.
#![tactic(auto)]

use enc_base::Token;
use enc_base::tables::METHOD_DEF;
use enc_chain::Chain;
use enc_checker::Files;
use enc_outside::{FileStore, Store};
use enc_plain::{ModuleView, PointSource, is_row};
use enc_schema::columns::METHOD_DEF_NAME;
use std::{io, str};

/// The bytes of a file; None where it can't be had.
fn load<S: Store>(store: &mut S, name: &str) -> Option<Vec<u8>> {
    store.load(name).ok()?
}

/// Tells where a method stands now, its name, and the line on which its code begins.
#[tactic(auto, unfolding(enc_schema::specs::Schema::columns_in))]
fn tell(rt: HostRuntime, chain: &Chain, row: u32) -> io::Result<()> {
    let method = Token {
        table: METHOD_DEF,
        row,
    };
    if !is_row(chain.rows(), method) {
        return println!(rt; "no such method");
    }
    let place = chain.rows().place(method);
    println!(rt; "generation {} row {}", place.generation, place.row)?;
    let Ok(name) = str::from_utf8(chain.rows().text(method, METHOD_DEF_NAME)) else {
        return println!(rt; "a name that isn't UTF-8");
    };
    println!(rt; "name {name}")?;
    let Ok(points) = chain.points().points(rt.alloc(), method) else {
        return println!(rt; "no memory");
    };
    if points.len() == 0 {
        return println!(rt; "no line");
    }
    match points.point(0).lines {
        Some((line, ..)) => println!(rt; "line {line}"),
        None => println!(rt; "hidden"),
    }
}

/// Applies a delta, its metadata, its IL and its PDB.
fn apply<S: Store>(
    rt: HostRuntime,
    store: &mut S,
    chain: &mut Chain,
    names: [&str; 3],
) -> io::Result<()> {
    let (Some(meta), Some(il)) = (load(store, names[0]), load(store, names[1])) else {
        return println!(rt; "no delta");
    };
    let pdb = load(store, names[2]);
    match chain.apply(rt.alloc(), Files { meta, il, pdb }) {
        Ok(()) => tell(rt, chain, 3),
        Err(_) => println!(rt; "refused"),
    }
}

fn main(rt: HostRuntime) -> io::Result<()> {
    let mut store = FileStore::begin(rt);
    let Some(base) = load(&mut store, "bank.dll") else {
        return println!(rt; "no base");
    };
    let pdb = load(&mut store, "bank.pdb");
    let Ok(mut chain) = Chain::open(rt.alloc(), base, pdb) else {
        return println!(rt; "refused");
    };
    tell(rt, &chain, 3)?;
    apply(
        rt,
        &mut store,
        &mut chain,
        ["bank1.meta", "bank1.il", "bank1.pdb"],
    )?;
    apply(
        rt,
        &mut store,
        &mut chain,
        ["bank2.meta", "bank2.il", "bank2.pdb"],
    )
}
