//! Loading the files of a base and its deltas: all are there, and none is too long, before one is judged.
ghost use Rattle.std.specs.Prelude.{◌≡◌, ◌≤◌, ◌+◌, ◌++◌, ℕ, List, length, map, option_map, Some, IfSome, IfOk, IsErrOf, string_bytes, codes};
ghost use Rattle.std.specs.FinMap.{get};
ghost use Rattle.enc_outside.specs.Outside.{HasCause};
ghost use Rattle.enc_command_line.specs.Words.{texts};
ghost use Rattle.enc_commands.specs.Verdict.{dll, meta, il, pdb, file_limit, kept_whole, taken as taken_from, kept_if_there, optional_size, base_size, files_size, load_one as one_of, load_optional as optional_of, load_base as base_from, load_delta as delta_from, load_deltas as deltas_from};
ghost use Rattle.enc_commands.specs.Stops.{Comes, StopsQuietly};
ghost use Rattle.enc_commands.specs.Loads.{bytes_seen, base_seen, file_seen, AreShort, IsShort};

use crate::halt::Halt;
use crate::plans::{missing, too_long};
use enc_command_line::{FILE_LIMIT, Limit, TOTAL_LIMIT};
use enc_outside::Store;
use enc_saves::name_of;
use std::alloc::{AllocError, Global};
use std::marker::Model;

/// The files of a base: its module, and its Portable PDB, where it has one.
#[derive(Drop)]
pub struct BaseFile {
    pub bytes: Vec<u8>,
    pub debug: Option<Vec<u8>>,
}

/// The files of a delta, with the names of its metadata's and its PDB's.
#[derive(Drop)]
pub struct DeltaFile {
    pub name: String,
    pub debug_name: String,
    pub metadata: Vec<u8>,
    pub code: Vec<u8>,
    pub debug: Option<Vec<u8>>,
}

/// How many bytes were loaded so far.
#[derive(Drop)]
pub struct Loaded {
    bytes: usize,
}

impl Model for Loaded {
    ghost use Rattle.std.specs.Prelude.{ℕ, ◌≤◌};

    ghost Value = { ℕ };

    ghost view = { λ l. l.bytes };

    ghost invariant = { λ l. l.bytes ≤ 536870912 };
}

impl Loaded {
    /// Nothing was loaded yet.
    pub fn nothing() -> Loaded
        ensures { result ≡ 0 }
    {
        Loaded { bytes: 0 }
    }

    /// The file isn't too long, with what was loaded before it.
    #[tactic(auto, unfolding(crate::specs::Verdict::kept_whole))]
    fn keep(&mut self, alloc: Global, name: &str, bytes: Vec<u8>) -> Result<Vec<u8>, Halt>
        ensures step { Comes (λ b. b.items) result (kept_whole name.now self.old bytes.items) }
        ensures quiet { StopsQuietly result }
        ensures no_fault { ¬ (IsErrOf result Halt.Failed) }
        ensures counted { IfOk result (λ b. self.new ≡ self.old + length b.items) }
        ensures short { IfOk result (λ b. length b.items ≤ file_limit) }
    {
        if bytes.len() > FILE_LIMIT {
            return Err(too_long(alloc, name, Limit::Length));
        }
        if bytes.len() > TOTAL_LIMIT - self.bytes {
            return Err(too_long(alloc, name, Limit::Total));
        }
        self.bytes += bytes.len();
        Ok(bytes)
    }

    /// What the store had of a file that must be there. One that may be absent has `keep` alone.
    fn take(&mut self, alloc: Global, name: &str, bytes: Option<Vec<u8>>) -> Result<Vec<u8>, Halt>
        ensures step { Comes (λ b. b.items) result (taken_from name.now self.old (option_map (λ b. b.items) bytes)) }
        ensures quiet { StopsQuietly result }
        ensures no_fault { ¬ (IsErrOf result Halt.Failed) }
        ensures counted { IfOk result (λ b. self.new ≡ self.old + length b.items) }
        ensures short { IfOk result (λ b. length b.items ≤ file_limit) }
    {
        match bytes {
            Some(bytes) => self.keep(alloc, name, bytes),
            None => Err(missing(alloc, name)),
        }
    }

    /// Loads a file that must be there.
    #[tactic(auto, unfolding(crate::specs::Verdict::load_one))]
    pub fn load<S: Store>(
        &mut self,
        alloc: Global,
        name: &str,
        store: &mut S,
    ) -> Result<Vec<u8>, Halt>
        ensures cause { HasCause Halt.Failed (S.faults store.old) (S.faults store.new) result }
        ensures stays { S.told store.new ≡ S.told store.old }
        ensures step { IfSome (S.told store.old)
            (λ files. Comes (λ b. b.items) result (one_of files name.now self.old)) }
        ensures quiet { StopsQuietly result }
        ensures counted { IfOk result (λ b. self.new ≡ self.old + length b.items) }
        ensures short { IfOk result (λ b. length b.items ≤ file_limit) }
    {
        let bytes = store.load(name)?;
        self.take(alloc, name, bytes)
    }

    /// What the store had of a file that may be absent.
    #[tactic(auto, using(crate::proofs::Loading::halts_then))]
    fn take_optional(
        &mut self,
        alloc: Global,
        name: &str,
        bytes: Option<Vec<u8>>,
    ) -> Result<Option<Vec<u8>>, Halt>
        ensures step { Comes bytes_seen result (kept_if_there name.now self.old (bytes_seen bytes)) }
        ensures quiet { StopsQuietly result }
        ensures no_fault { ¬ (IsErrOf result Halt.Failed) }
        ensures counted { IfOk result (λ b. self.new ≡ self.old + optional_size (bytes_seen b)) }
    {
        match bytes {
            Some(bytes) => match self.keep(alloc, name, bytes) {
                Ok(bytes) => Ok(Some(bytes)),
                Err(stop) => Err(stop),
            },
            None => Ok(None),
        }
    }

    /// Loads a file that may be absent.
    #[tactic(auto, unfolding(crate::specs::Verdict::load_optional))]
    pub fn load_optional<S: Store>(
        &mut self,
        alloc: Global,
        name: &str,
        store: &mut S,
    ) -> Result<Option<Vec<u8>>, Halt>
        ensures cause { HasCause Halt.Failed (S.faults store.old) (S.faults store.new) result }
        ensures stays { S.told store.new ≡ S.told store.old }
        ensures step { IfSome (S.told store.old)
            (λ files. Comes bytes_seen result (optional_of files name.now self.old)) }
        ensures quiet { StopsQuietly result }
        ensures counted { IfOk result (λ b. self.new ≡ self.old + optional_size (bytes_seen b)) }
    {
        let bytes = store.load(name)?;
        self.take_optional(alloc, name, bytes)
    }
}

/// Loads the files of a base.
#[tactic(auto, unfolding(crate::specs::Verdict::load_base))]
pub fn load_base<S: Store>(
    alloc: Global,
    base: &str,
    loaded: &mut Loaded,
    store: &mut S,
) -> Result<BaseFile, Halt>
    ensures cause { HasCause Halt.Failed (S.faults store.old) (S.faults store.new) result }
    ensures stays { S.told store.new ≡ S.told store.old }
    ensures step { IfSome (S.told store.old) (λ files. Comes base_seen result (base_from files base.now loaded.old)) }
    ensures quiet { StopsQuietly result }
    ensures counted { IfOk result (λ f. loaded.new ≡ loaded.old + base_size (base_seen f)) }
{
    let name = name_of(alloc, base, ".dll")?;
    let bytes = loaded.load(alloc, name.as_str(), store)?;
    let debug_name = name_of(alloc, base, ".pdb")?;
    let debug = loaded.load_optional(alloc, debug_name.as_str(), store)?;
    Ok(BaseFile { bytes, debug })
}

/// The names of a delta's files.
#[derive(Drop)]
struct DeltaNames {
    metadata: String,
    code: String,
    debug: String,
}

/// Those of the delta with a name.
fn names_of(alloc: Global, delta: &str) -> Result<DeltaNames, AllocError>
    ensures metadata { IfOk result (λ n. string_bytes n.metadata ≡ meta delta.now) }
    ensures code { IfOk result (λ n. string_bytes n.code ≡ il delta.now) }
    ensures debug { IfOk result (λ n. string_bytes n.debug ≡ pdb delta.now) }
{
    let metadata = name_of(alloc, delta, ".meta")?;
    let code = name_of(alloc, delta, ".il")?;
    let debug = name_of(alloc, delta, ".pdb")?;
    Ok(DeltaNames {
        metadata,
        code,
        debug,
    })
}

/// Loads the files of a delta.
#[tactic(auto, unfolding(crate::specs::Verdict::load_delta))]
fn load_delta<S: Store>(
    alloc: Global,
    delta: &str,
    loaded: &mut Loaded,
    store: &mut S,
) -> Result<DeltaFile, Halt>
    ensures cause { HasCause Halt.Failed (S.faults store.old) (S.faults store.new) result }
    ensures stays { S.told store.new ≡ S.told store.old }
    ensures step { IfSome (S.told store.old) (λ files. Comes file_seen result (delta_from files delta.now loaded.old)) }
    ensures quiet { StopsQuietly result }
    ensures counted { IfOk result (λ f. loaded.new ≡ loaded.old + files_size (file_seen f)) }
    ensures short { IfOk result (λ f. IsShort (file_seen f)) }
{
    let DeltaNames {
        metadata: name,
        code: code_name,
        debug: debug_name,
    } = names_of(alloc, delta)?;
    let metadata = loaded.load(alloc, name.as_str(), store)?;
    let code = loaded.load(alloc, code_name.as_str(), store)?;
    let debug = loaded.load_optional(alloc, debug_name.as_str(), store)?;
    Ok(DeltaFile {
        name,
        debug_name,
        metadata,
        code,
        debug,
    })
}

/// Loads the files of all deltas.
pub fn load_deltas<S: Store>(
    alloc: Global,
    deltas: &[String],
    loaded: &mut Loaded,
    store: &mut S,
) -> Result<Vec<DeltaFile>, Halt>
    ensures cause { HasCause Halt.Failed (S.faults store.old) (S.faults store.new) result }
    ensures stays { S.told store.new ≡ S.told store.old }
    ensures step { IfSome (S.told store.old)
        (λ files. Comes (λ fs. map file_seen fs.items) result (deltas_from files (texts deltas.now) loaded.old)) }
    ensures quiet { StopsQuietly result }
    ensures many { IfOk result (λ fs. length fs.items ≡ length deltas.now) }
    ensures short { IfOk result (λ fs. AreShort (map file_seen fs.items)) }
{
    let mut files = Vec::new(alloc);
    for delta in deltas {
        let file = load_delta(alloc, delta.as_str(), loaded, store)?;
        files.push(file)?;
    }
    Ok(files)
}
