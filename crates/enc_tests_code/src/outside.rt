//! What no clause says: that calls succeed, and what the system answers.
ghost use Rattle.std.specs.Prelude.{◌≡◌, ◌++◌, OnOk, codes};
ghost use Rattle.enc_outside.specs.Outside.{with_file, with_piece};

use enc_outside::{
    FileStore, LoadError, MemSink, MemStore, OutSink, PutError, SaveError, Sink, Store, SureSink,
    SureStore,
};
use std::fmt::Display;
use std::process::Abort;
use std::test::Fail;
use std::{fs, io, process};

/// A caller through the bounds, which says what both traits say.
fn keep<S: Store, O: Sink>(store: &mut S, sink: &mut O, name: &str) -> Result<bool, Fail>
    ensures saved { OnOk result (S.told store.new ≡ with_file name.now (codes "short") (S.told store.old)) }
    ensures put { OnOk result (O.told sink.new ≡ with_piece (codes "kept") (O.told sink.old)) }
{
    store.save(name, b"short")?;
    let loaded = store.load(name)?;
    sink.put(b"kept")?;
    Ok(loaded.is_some_and(|bytes| bytes.as_slice() == b"short".as_slice()))
}

/// Keeps a file and a piece; the next two calls of the store are to fail then, and the next of the sink.
fn prepare(store: &mut MemStore, sink: &mut MemSink) -> Result<bool, Fail> {
    store.set_file("old", b"1234")?;
    let kept = keep(store, sink, "new")?;
    store.fail_at(3)?;
    store.fail_at(4)?;
    sink.fail_at(2)?;
    Ok(kept)
}

/// These calls fail.
fn expect_failures(rt: &impl Abort, store: &mut MemStore, sink: &mut MemSink) {
    assert_eq!(rt; store.load("new"), Err(LoadError::Failed));
    assert_eq!(rt; store.save("old", b"abcde"), Err(SaveError::Failed));
    assert_eq!(rt; sink.put(b"abcde"), Err(PutError::Failed));
}

/// They left halves, and were counted.
fn expect_halves(rt: &impl Abort, store: &MemStore, sink: &MemSink) {
    assert_eq!(rt; store.file("old"), Some(b"ab".as_slice()));
    assert_eq!(rt; store.file("none"), None);
    assert_eq!(rt; sink.bytes(), b"keptab".as_slice());
    assert_eq!(rt; (store.calls(), sink.calls()), (4, 2));
}

#[test]
fn memory_fails_at_given_calls(rt: HostRuntime) -> Result<(), Fail> {
    let (mut store, mut sink) = (MemStore::begin(rt.alloc()), MemSink::begin(rt.alloc()));
    assert!(rt; prepare(&mut store, &mut sink)?);
    expect_failures(&rt, &mut store, &mut sink);
    expect_halves(&rt, &store, &sink);
    assert!(rt; keep(&mut store, &mut sink, "old")?);
    Ok(())
}

#[test]
fn sure_keeps(rt: HostRuntime) -> Result<(), Fail> {
    let (mut store, mut sink) = (SureStore::begin(rt.alloc()), SureSink::begin(rt.alloc()));
    store.set_file("a", b"longer than short")?;
    assert!(rt; keep(&mut store, &mut sink, "a")?);
    assert!(rt; store.load("b")?.is_none());
    assert_eq!(rt; store.file("a"), Some(b"short".as_slice()));
    assert_eq!(rt; sink.bytes(), b"kept".as_slice());
    Ok(())
}

#[test]
fn files_of_the_system(rt: HostRuntime) -> Result<(), Fail> {
    let (mut store, mut sink) = (FileStore::begin(rt), OutSink::begin(rt));
    let path = format!(in rt.alloc(); "/tmp/enc_outside_{}", process::id(rt.process()))?;
    let path = path.as_str();
    assert!(rt; store.load(path)?.is_none());
    store.save(path, b"longer than short")?;
    let kept = keep(&mut store, &mut sink, path);
    let removed = fs::remove_file(&rt, path);
    assert!(rt; kept?);
    removed?;
    assert_eq!(rt; store.faults(), 0);
    Ok(())
}

#[test]
fn files_that_fail(rt: HostRuntime) {
    let mut store = FileStore::begin(rt);
    assert_eq!(rt; store.load("/tmp"), Err(LoadError::Failed));
    assert_eq!(rt;
        store.save("/proc/enc_outside", b"bytes"),
        Err(SaveError::Failed)
    );
    assert_eq!(rt; store.save("/dev/full", b"bytes"), Err(SaveError::Failed));
    assert_eq!(rt; store.faults(), 3);
}

/// An output that takes nothing.
#[derive(Drop)]
struct Full;

impl Print for Full {
    fn print<D: Display + Drop>(&self, _value: D) -> io::Result<()> {
        Err(io::ErrorKind::StorageFull.into())
    }

    fn println<D: Display + Drop>(&self, _value: D) -> io::Result<()> {
        Err(io::ErrorKind::StorageFull.into())
    }

    fn write_all(&self, _bytes: &[u8]) -> io::Result<()> {
        Err(io::ErrorKind::StorageFull.into())
    }
}

#[test]
fn full_output(rt: HostRuntime) {
    let mut sink = OutSink::begin(Full);
    assert_eq!(rt; sink.put(b"bytes"), Err(PutError::Failed));
    assert_eq!(rt; sink.faults(), 1);
}
