//! A store and a sink in memory that fail at nothing but memory.
ghost use Rattle.std.specs.Prelude.{◌≡◌, ℕ, List, [], ◌++◌, Some, OnOk, OnErr, IfOk};
ghost use Rattle.std.specs.Option.{option_map};
ghost use Rattle.std.specs.FinMap.{empty, get, insert};

use crate::sink::{PutError, Sink};
use crate::store::{LoadError, SaveError, Store};
use std::alloc::{AllocError, Global};
use std::collections::VecDeque;
use std::marker::Model;

#[derive(Drop)]
struct Write {
    name: String,
    bytes: Vec<u8>,
}

/// Files in memory, as a log of writes with the newest first. Bytes that were replaced keep their memory.
#[derive(Drop)]
pub struct SureStore {
    log: VecDeque<Write>,
    alloc: Global,
}

impl Model for SureStore {
    ghost use Rattle.std.specs.FinMap.{from_entries};
    ghost use Rattle.enc_outside.specs.Outside.{Files, files_code};

    ghost Value = { Files };

    ghost coded = { files_code };

    ghost use Rattle.enc_outside.specs.Log.{entries_of};

    ghost view = { λ s. from_entries (entries_of s.log.items) };
}

impl SureStore {
    /// A store with no file.
    pub fn begin(alloc: Global) -> SureStore
        ensures { result ≡ empty }
    {
        SureStore {
            log: VecDeque::new(alloc),
            alloc,
        }
    }

    /// Makes the file of this name, or replaces all of its bytes.
    pub fn set_file(&mut self, name: &str, bytes: &[u8]) -> Result<(), AllocError>
        ensures ok { OnOk result (self.new ≡ insert self.old name.now bytes.now) }
        ensures err { OnErr result (self.new ≡ self.old) }
    {
        let name = String::from_str(self.alloc, name)?;
        let bytes = Vec::from_slice(self.alloc, bytes)?;
        self.log.push_front(Write { name, bytes })?;
        Ok(())
    }

    /// The bytes of the file of this name. The time grows with the number of writes so far.
    pub fn file(&self, name: &str) -> Option<&[u8]>
        ensures { option_map (λ b. b.now) result ≡ get self.now name.now }
    {
        for write in &self.log {
            if name == write.name.as_str() {
                return Some(write.bytes.as_slice());
            }
        }
        None
    }

    pub(crate) fn copied(&self, name: &str) -> Result<Option<Vec<u8>>, AllocError>
        ensures { IfOk result (λ copy. option_map (λ v. v.items) copy ≡ get self.now name.now) }
    {
        match self.file(name) {
            None => Ok(None),
            Some(bytes) => Ok(Some(Vec::from_slice(self.alloc, bytes)?)),
        }
    }
}

impl Store for SureStore {
    ghost told = { λ s. Some s };

    ghost faults = { λ _. 0 };

    fn load(&mut self, name: &str) -> Result<Option<Vec<u8>>, LoadError> {
        Ok(self.copied(name)?)
    }

    fn save(&mut self, name: &str, bytes: &[u8]) -> Result<(), SaveError> {
        self.set_file(name, bytes)?;
        Ok(())
    }
}

/// Bytes in memory.
#[derive(Drop)]
pub struct SureSink {
    bytes: Vec<u8>,
}

impl Model for SureSink {
    ghost use Rattle.std.specs.Prelude.{ℕ, List};

    ghost Value = { List ℕ };

    ghost view = { λ s. s.bytes.items };
}

impl SureSink {
    /// A sink with no byte.
    pub fn begin(alloc: Global) -> SureSink
        ensures { result ≡ [] }
    {
        SureSink {
            bytes: Vec::new(alloc),
        }
    }

    /// All that was put.
    pub fn bytes(&self) -> &[u8]
        ensures { result.now ≡ self.now }
    {
        self.bytes.as_slice()
    }
}

impl Sink for SureSink {
    ghost told = { λ s. Some s };

    ghost faults = { λ _. 0 };

    fn put(&mut self, bytes: &[u8]) -> Result<(), PutError> {
        self.bytes.extend_from_slice(bytes)?;
        Ok(())
    }
}
