//! A store and a sink in memory whose calls fail at given numbers.
ghost use Rattle.std.specs.Prelude.{◌≡◌, ◌⊎◌, ◌/◌, ◌∷◌, ◌++◌, [], ℕ, List, length, take, true, false, Some, IsTrue, IsErr, IsErrOf, OnOk, OnErr, IfSome, IfOk, ◌↔◌};
ghost use Rattle.std.specs.Option.{option_map};
ghost use Rattle.std.specs.FinMap.{empty, get, insert};
ghost use Rattle.enc_outside.specs.Outside.{with_file, IsSavedInPart, with_piece, GrowsInPart, HasCause};
ghost use Rattle.enc_outside.specs.Memory.{is_failing, called, after_call};

use crate::calls::Calls;
use crate::sink::{PutError, Sink};
use crate::store::{LoadError, SaveError, Store};
use crate::sure::SureStore;
use std::alloc::{AllocError, Global};
use std::marker::Model;

/// Files in memory. Each load and each save is a call, and calls can be made to fail.
#[derive(Drop)]
pub struct MemStore {
    files: SureStore,
    calls: Calls,
}

impl Model for MemStore {
    ghost use Rattle.enc_outside.specs.Memory.{FilesInMemory, memory_code};

    ghost Value = { FilesInMemory };

    ghost coded = { memory_code };

    ghost view = { λ s. record { files = s.files; counts = s.calls } };
}

impl MemStore {
    /// A store with no file, of which no call fails.
    pub fn begin(alloc: Global) -> MemStore
        ensures files { result.files ≡ empty }
        ensures counts { result.counts ≡ record { calls = 0; failing = []; faults = 0 } }
    {
        MemStore {
            files: SureStore::begin(alloc),
            calls: Calls::begin(alloc),
        }
    }

    /// Makes the file of this name, or replaces all of its bytes. This is no call, and does not fail as one.
    pub fn set_file(&mut self, name: &str, bytes: &[u8]) -> Result<(), AllocError>
        ensures ok { OnOk result (self.new ≡
            record self.old { files = insert self.old.files name.now bytes.now }) }
        ensures err { OnErr result (self.new ≡ self.old) }
    {
        self.files.set_file(name, bytes)
    }

    /// Has the call of this number fail, where 1 is the first call of this store.
    pub fn fail_at(&mut self, call: u64) -> Result<(), AllocError>
        ensures ok { OnOk result (self.new ≡ record self.old {
          counts = record self.old.counts { failing = self.old.counts.failing ++ call ∷ [] };
        }) }
        ensures err { OnErr result (self.new ≡ self.old) }
    {
        self.calls.fail_at(call)
    }

    /// The bytes of the file of this name. This is no call.
    pub fn file(&self, name: &str) -> Option<&[u8]>
        ensures { option_map (λ b. b.now) result ≡ get self.now.files name.now }
    {
        self.files.file(name)
    }

    /// How many loads and saves there were. It stands still at `u64::MAX`.
    pub fn calls(&self) -> u64
        ensures { result ≡ self.now.counts.calls }
    {
        self.calls.made()
    }
}

impl Store for MemStore {
    ghost told = { λ s. Some s.files };

    ghost faults = { λ s. s.counts.faults };

    /// `Failed` exactly at a call that is to fail.
    #[tactic(auto, unfolding(crate::specs::Memory::after_call))]
    fn load(&mut self, name: &str) -> Result<Option<Vec<u8>>, LoadError>
        ensures cause { HasCause LoadError.Failed self.old.counts.faults self.new.counts.faults result }
        ensures stays { self.new ≡ record self.old { counts = after_call self.old.counts } }
        ensures fails { IsErrOf result LoadError.Failed ↔ IsTrue (is_failing self.old.counts) }
        ensures found { IfOk result (λ loaded.
            option_map (λ v. v.items) loaded ≡ get self.old.files name.now) }
    {
        if self.calls.next_fails() {
            self.calls.fault();
            return Err(LoadError::Failed);
        }
        Ok(self.files.copied(name)?)
    }

    /// A call that is to fail leaves the first half of the bytes under the name. Without memory for them it answers
    /// `Memory`, and is no fault.
    #[tactic(auto, unfolding(crate::specs::Memory::after_call))]
    fn save(&mut self, name: &str, bytes: &[u8]) -> Result<(), SaveError>
        ensures cause { HasCause SaveError.Failed self.old.counts.faults self.new.counts.faults result }
        ensures counted { (self.new.counts ≡ after_call self.old.counts) ⊎ IsErrOf result SaveError.Memory }
        ensures want { IsErrOf result SaveError.Memory → self.new.counts ≡ called self.old.counts }
        ensures fails { IsTrue (is_failing self.old.counts) → IsErr result }
        ensures saved { OnOk result (self.new.files ≡ insert self.old.files name.now bytes.now) }
        ensures failed { IsErrOf result SaveError.Failed → IsTrue (is_failing self.old.counts) }
        ensures half { IsErrOf result SaveError.Failed → self.new.files ≡
            insert self.old.files name.now (take (length bytes.now / 2) bytes.now) }
        ensures memory { IsErrOf result SaveError.Memory → self.new.files ≡ self.old.files }
    {
        if self.calls.next_fails() {
            self.files.set_file(name, first_half(bytes))?;
            self.calls.fault();
            return Err(SaveError::Failed);
        }
        self.files.set_file(name, bytes)?;
        Ok(())
    }
}

/// Bytes in memory. Each put is a call, and calls can be made to fail.
#[derive(Drop)]
pub struct MemSink {
    bytes: Vec<u8>,
    calls: Calls,
}

impl Model for MemSink {
    ghost use Rattle.enc_outside.specs.Memory.{BytesInMemory};

    ghost Value = { BytesInMemory };

    ghost view = { λ s. record { bytes = s.bytes.items; counts = s.calls } };
}

impl MemSink {
    /// A sink with no byte, of which no call fails.
    pub fn begin(alloc: Global) -> MemSink
        ensures bytes { result.bytes ≡ [] }
        ensures counts { result.counts ≡ record { calls = 0; failing = []; faults = 0 } }
    {
        MemSink {
            bytes: Vec::new(alloc),
            calls: Calls::begin(alloc),
        }
    }

    /// Has the call of this number fail, where 1 is the first call of this sink.
    pub fn fail_at(&mut self, call: u64) -> Result<(), AllocError>
        ensures ok { OnOk result (self.new ≡ record self.old {
          counts = record self.old.counts { failing = self.old.counts.failing ++ call ∷ [] };
        }) }
        ensures err { OnErr result (self.new ≡ self.old) }
    {
        self.calls.fail_at(call)
    }

    /// All that was put. This is no call.
    pub fn bytes(&self) -> &[u8]
        ensures { result.now ≡ self.now.bytes }
    {
        self.bytes.as_slice()
    }

    /// How many puts there were. It stands still at `u64::MAX`.
    pub fn calls(&self) -> u64
        ensures { result ≡ self.now.counts.calls }
    {
        self.calls.made()
    }
}

impl Sink for MemSink {
    ghost told = { λ s. Some s.bytes };

    ghost faults = { λ s. s.counts.faults };

    /// A call that is to fail appends the first half of the piece. Without memory for it it answers `Memory`, and is no
    /// fault.
    #[tactic(auto, unfolding(crate::specs::Memory::after_call))]
    fn put(&mut self, bytes: &[u8]) -> Result<(), PutError>
        ensures cause { HasCause PutError.Failed self.old.counts.faults self.new.counts.faults result }
        ensures counted { (self.new.counts ≡ after_call self.old.counts) ⊎ IsErrOf result PutError.Memory }
        ensures want { IsErrOf result PutError.Memory → self.new.counts ≡ called self.old.counts }
        ensures fails { IsTrue (is_failing self.old.counts) → IsErr result }
        ensures grown { OnOk result (self.new.bytes ≡ self.old.bytes ++ bytes.now) }
        ensures failed { IsErrOf result PutError.Failed → IsTrue (is_failing self.old.counts) }
        ensures half { IsErrOf result PutError.Failed → self.new.bytes ≡
            self.old.bytes ++ take (length bytes.now / 2) bytes.now }
        ensures memory { IsErrOf result PutError.Memory → self.new.bytes ≡ self.old.bytes }
    {
        if self.calls.next_fails() {
            self.bytes.extend_from_slice(first_half(bytes))?;
            self.calls.fault();
            return Err(PutError::Failed);
        }
        self.bytes.extend_from_slice(bytes)?;
        Ok(())
    }
}

fn first_half(bytes: &[u8]) -> &[u8]
    ensures { result.now ≡ take (length bytes.now / 2) bytes.now }
{
    &bytes[..bytes.len() / 2]
}
