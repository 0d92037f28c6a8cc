//! A watcher of one's own, as docs/how-to-add.md shows it: a profiler.
ghost use Rattle.std.specs.Prelude.{◌≡◌, None};
ghost use Rattle.enc_watch.specs.declared.event.WatchKind.TheVariants as kind;

use enc_base::Token;
use enc_watch::{Event, HearError, Trace, WatchKind, Watcher};
use std::alloc::{AllocError, Global};
use std::collections::BTreeMap;
use std::test::Fail;

/// A row of MethodDef.
fn method(row: u32) -> Token {
    Token { table: 0x06, row }
}

/// That task 1 entered a method.
fn entered(row: u32) -> Event {
    let method = method(row);
    Event::Entered { task: 1, method }
}

/// Three calls of two methods.
fn three_calls() -> [Event; 6] {
    let (one, two) = (method(1), method(0x10));
    [
        Event::Spawned {
            task: 1,
            method: two,
        },
        entered(0x10),
        entered(1),
        Event::Left {
            task: 1,
            method: one,
        },
        entered(1),
        Event::Ended { task: 1 },
    ]
}

/// A trace that counts the calls of each method.
#[derive(Drop)]
struct Calls {
    trace: Trace,
    calls: BTreeMap<Token, u32>,
}

impl Calls {
    /// No calls, which take no memory.
    fn begin(alloc: Global) -> Calls {
        Calls {
            trace: Trace::begin(alloc),
            calls: BTreeMap::new(alloc),
        }
    }

    /// Counts a call of a method.
    fn count(&mut self, method: Token) -> Result<(), AllocError>
        ensures { self.new.trace ≡ self.old.trace }
    {
        let calls = self.calls.get(&method).copied().unwrap_or(0);
        match self.calls.insert(method, calls.saturating_add(1)) {
            Ok(_) => Ok(()),
            Err(_) => Err(AllocError),
        }
    }
}

impl Watcher for Calls {
    ghost watching = { λ c. record { kind = kind.Trace; limit = None; heard = c.trace } };

    fn kind(&self) -> WatchKind {
        WatchKind::Trace
    }

    fn hear(&mut self, event: Event) -> Result<(), HearError> {
        if let Event::Entered { method, .. } = event {
            self.count(method)?;
        }
        self.trace.hear(event)
    }

    fn report(&self, out: &mut Vec<u8>) -> Result<(), AllocError> {
        self.trace.report(out)
    }
}

#[test]
fn counts_calls(rt: HostRuntime) -> Result<(), Fail> {
    let mut profiler = Calls::begin(rt.alloc());
    for event in three_calls() {
        assert_eq!(rt; profiler.hear(event), Ok(()));
    }
    assert_eq!(rt; profiler.calls.get(&method(1)).copied(), Some(2));
    assert_eq!(rt; profiler.calls.get(&method(0x10)).copied(), Some(1));
    assert_eq!(rt; profiler.calls.get(&method(2)).copied(), None);
    Ok(())
}

#[test]
fn hears_through_a_box(rt: HostRuntime) -> Result<(), Fail> {
    let mut profiler: Box<dyn Watcher> = Box::new(rt.alloc(), Calls::begin(rt.alloc()))?;
    assert_eq!(rt; profiler.kind(), WatchKind::Trace);
    for event in three_calls() {
        assert_eq!(rt; profiler.hear(event), Ok(()));
    }
    let mut text = Vec::new(rt.alloc());
    text.push(b'#')?;
    profiler.report(&mut text)?;
    let report = b"#spawned 1 06000010
entered 1 06000010
entered 1 06000001
left 1 06000001
entered 1 06000001
ended 1
";
    assert_eq!(rt; text.as_slice(), report.as_slice());
    Ok(())
}
