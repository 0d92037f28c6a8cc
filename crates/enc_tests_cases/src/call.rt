//! One top call, which can be made over any files, and what it came to.

use crate::store::CaseStore;
use enc_commands::run_tool;
use enc_outside::MemSink;
use enc_watch::{Cover, Failing, Trace, Watcher};
use std::alloc::{AllocError, Global};

/// A watcher that is handed to a run.
#[derive(Clone, Copy, Debug)]
pub enum Kind {
    Trace,
    Cover,
    Failing(u32),
}

impl Kind {
    /// The watcher that a word tells: `trace`, `cover` or `failing:N`. None where the word is another.
    pub fn of(word: &str) -> Option<Kind> {
        match word {
            "trace" => return Some(Kind::Trace),
            "cover" => return Some(Kind::Cover),
            _ => {}
        }
        let limit = word.strip_prefix("failing:")?;
        match limit.parse::<u32>() {
            Ok(limit) => Some(Kind::Failing(limit)),
            Err(_) => None,
        }
    }
}

/// The words of a top call, and the watchers that it gets.
#[derive(Drop)]
pub struct Call {
    pub alloc: Global,
    pub words: Vec<String>,
    pub watchers: Vec<Kind>,
}

/// What a call came to: its status, and what it printed.
#[derive(Debug, Drop, PartialEq, Eq)]
pub struct Answer {
    pub status: u8,
    pub output: Vec<u8>,
}

impl Call {
    /// Makes the call, with new watchers. Its status.
    pub fn run(&self, store: &mut CaseStore, sink: &mut MemSink) -> Result<u8, AllocError> {
        let mut watchers = Vec::new(self.alloc);
        for kind in &self.watchers {
            let watcher: Box<dyn Watcher> = match *kind {
                Kind::Trace => Box::new(self.alloc, Trace::begin(self.alloc))?,
                Kind::Cover => Box::new(self.alloc, Cover::begin(self.alloc))?,
                Kind::Failing(limit) => Box::new(self.alloc, Failing::begin(self.alloc, limit))?,
            };
            watchers.push(watcher)?;
        }
        Ok(run_tool(self.alloc, &self.words, store, sink, watchers))
    }

    /// Makes the call with a sink that doesn't fail.
    pub fn answer(&self, store: &mut CaseStore) -> Result<Answer, AllocError> {
        let mut sink = MemSink::begin(self.alloc);
        let status = self.run(store, &mut sink)?;
        Ok(Answer {
            status,
            output: Vec::from_slice(self.alloc, sink.bytes())?,
        })
    }
}

impl Answer {
    /// Adds what was printed; where it doesn't end a line, the end of one.
    pub fn add_to(&self, printed: &mut Vec<u8>) -> Result<(), AllocError> {
        printed.extend_from_slice(&self.output)?;
        if self.output.last() != Some(&b'\n') {
            printed.push(b'\n')?;
        }
        Ok(())
    }
}
