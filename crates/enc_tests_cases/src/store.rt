//! The files of a case: a store in memory that knows its files' names, and under which of them a run saved.

ghost use Rattle.std.specs.Prelude.{Some};

use enc_outside::{LoadError, MemStore, SaveError, Store};
use std::alloc::{AllocError, Global};

/// A save: the number of its call, and the file's name.
#[derive(Drop)]
struct Saving {
    call: u64,
    name: String,
}

/// Files in memory, of which calls can be made to fail.
#[derive(Drop)]
pub struct CaseStore {
    alloc: Global,
    files: MemStore,
    names: Vec<String>,
    savings: Vec<Saving>,
}

impl CaseStore {
    /// A store with no file, of which no call fails.
    pub fn begin(alloc: Global) -> CaseStore {
        CaseStore {
            alloc,
            files: MemStore::begin(alloc),
            names: Vec::new(alloc),
            savings: Vec::new(alloc),
        }
    }

    /// The bytes of a file. This is no call.
    pub fn file(&self, name: &str) -> Option<&[u8]> {
        self.files.file(name)
    }

    /// Makes a file, or replaces its bytes. This is no call.
    pub fn set_file(&mut self, name: &str, bytes: &[u8]) -> Result<(), AllocError> {
        keep_name(self.alloc, &mut self.names, name)?;
        self.files.set_file(name, bytes)
    }

    /// The names of all files that are there, and of those whose save failed; each once.
    pub fn names(&self) -> &[String] {
        &self.names
    }

    /// The same files in another store, of which no call was made.
    pub fn copy(&self) -> Result<CaseStore, AllocError> {
        let mut copy = CaseStore::begin(self.alloc);
        for name in &self.names {
            if let Some(bytes) = self.file(name.as_str()) {
                copy.set_file(name.as_str(), bytes)?;
            }
        }
        Ok(copy)
    }

    /// Has the call of this number fail, where 1 is the first.
    pub fn fail_at(&mut self, call: u64) -> Result<(), AllocError> {
        self.files.fail_at(call)
    }

    /// How many loads and saves there were.
    pub fn calls(&self) -> u64 {
        self.files.calls()
    }

    /// The number of the call that saved the file of this name first. None where none did.
    pub fn call_of(&self, name: &str) -> Option<u64> {
        for saving in &self.savings {
            if saving.name.as_str() == name {
                return Some(saving.call);
            }
        }
        None
    }
}

impl Store for CaseStore {
    ghost told = { λ s. Some s.files.files };

    ghost faults = { λ s. s.files.counts.faults };

    fn load(&mut self, name: &str) -> Result<Option<Vec<u8>>, LoadError> {
        self.files.load(name)
    }

    fn save(&mut self, name: &str, bytes: &[u8]) -> Result<(), SaveError> {
        keep_name(self.alloc, &mut self.names, name)?;
        let saving = Saving {
            call: self.files.calls().saturating_add(1),
            name: String::from_str(self.alloc, name)?,
        };
        self.savings.push(saving)?;
        self.files.save(name, bytes)
    }
}

/// Keeps a name that isn't among the names yet.
fn keep_name(alloc: Global, names: &mut Vec<String>, name: &str) -> Result<(), AllocError> {
    for old in names.iter() {
        if old.as_str() == name {
            return Ok(());
        }
    }
    names.push(String::from_str(alloc, name)?)?;
    Ok(())
}
