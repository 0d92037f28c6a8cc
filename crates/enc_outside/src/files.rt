//! A store of real files.
ghost use Rattle.std.specs.Prelude.{◌≡◌, ◌+◌, ◌≤◌, ℕ, None, IfOk, OnOk, IfSome, IsErrOf, take};
ghost use Rattle.enc_outside.specs.Outside.{HasCause, Rose};

use crate::count::one_more;
use crate::replace::{FileId, Unwritten, write_file};
use crate::store::{LoadError, SaveError, Store};
use std::alloc::Global;
use std::fs::{File, OpenFile};
use std::io;
use std::io::{ErrorKind, Read};
use std::marker::Model;
use std::rt::Files;

/// The most bytes that a file may have. One byte more is read, so that a longer file shows.
const LIMIT: u64 = 67_108_864;

/// A fault of a store: the name of the file, None where there was no memory for it, and what the system said.
#[derive(Drop)]
pub struct FileFault {
    pub name: Option<String>,
    pub cause: io::Error,
}

/// The files of the system, with a count of faults. A name is a path, relative to the current directory.
#[derive(Drop)]
pub struct FileStore<R> {
    rt: R,
    faults: u64,
    last: Option<FileFault>,
    loaded: Vec<FileId>,
    replaced: Vec<String>,
}

impl<R> Model for FileStore<R> {
    ghost use Rattle.std.specs.Prelude.{ℕ};

    ghost Value = { ℕ };

    ghost view = { λ s. s.faults };
}

impl<R: Files + AllocGlobal> FileStore<R> {
    /// A store with no fault so far.
    pub fn begin(rt: R) -> FileStore<R>
        ensures { result ≡ 0 }
    {
        let alloc = rt.alloc();
        FileStore {
            rt,
            faults: 0,
            last: None,
            loaded: Vec::new(alloc),
            replaced: Vec::new(alloc),
        }
    }

    /// How many faults there were. The count stands still at `u64::MAX`.
    pub fn faults(&self) -> u64
        ensures { result ≡ self.now }
    {
        self.faults
    }

    /// The last fault, None where there was none: for people to read. No clause speaks of it.
    pub fn last_fault(&self) -> Option<&FileFault> {
        self.last.as_ref()
    }

    /// The names that were saved over files that this store had loaded, under whatever name: a file is known by its
    /// device and its number there. For people to read: no clause speaks of it, and what there was no memory for is
    /// left out.
    pub fn replaced(&self) -> &[String] {
        self.replaced.as_slice()
    }

    fn fault(&mut self, name: &str, cause: io::Error)
        ensures later { self.old ≤ self.new }
        ensures rose { Rose self.old self.new }
    {
        self.faults = one_more(self.faults);
        self.last = fault_of(self.rt.alloc(), name, cause);
    }

    fn remember_loaded(&mut self, file: Option<FileId>)
        ensures { self.new ≡ self.old }
    {
        if let Some(file) = file {
            let _ = self.loaded.push(file);
        }
    }

    fn remember_replaced(&mut self, name: &str, old: Option<FileId>)
        ensures { self.new ≡ self.old }
    {
        let Some(old) = old else {
            return;
        };
        if !self.loaded.contains(&old) {
            return;
        }
        if let Ok(name) = String::from_str(self.rt.alloc(), name) {
            let _ = self.replaced.push(name);
        }
    }
}

impl<R: Files + AllocGlobal> Store for FileStore<R> {
    ghost told = { λ _. None };

    ghost faults = { λ s. s };

    /// Reads at most 67,108,865 bytes of the file. A path that leads nowhere is no file. Any error but for memory is a
    /// fault, and so is a directory in the place of the file.
    fn load(&mut self, name: &str) -> Result<Option<Vec<u8>>, LoadError>
        ensures cause { HasCause LoadError.Failed self.old self.new result }
        ensures quiet { OnOk result (self.new ≡ self.old) }
        ensures memory { IsErrOf result LoadError.Memory → self.new ≡ self.old }
    {
        match read_file(&self.rt, name) {
            Ok(read) => {
                self.remember_loaded(read.file);
                Ok(Some(read.bytes))
            }
            Err(error) => match error.kind() {
                ErrorKind::NotFound => Ok(None),
                ErrorKind::OutOfMemory => Err(LoadError::Memory),
                _ => {
                    self.fault(name, error);
                    Err(LoadError::Failed)
                }
            },
        }
    }

    /// Writes a new file in the same folder, `.NAME.enc-0` or with the next number that is free, and gives it the name,
    /// so that neither a fault nor the end of the process leaves a part of the bytes under the name. At a fault the new
    /// file is removed; a process that is killed may leave it. A file that is replaced hands on its owner, its group
    /// and its permissions, but no access lists or other attributes; its other hard links keep the old bytes. A link
    /// stays, and the file that it leads to is replaced.
    ///
    /// Written in place, so that a fault may leave a part, is what is no regular file, as a device or a pipe, what a
    /// link leads to that leads nowhere, and a file that can be written but where no new file may take its name: in a
    /// folder without the right to write or with no room for so long a name, with an owner who can't be kept, or
    /// mounted by itself.
    ///
    /// `Memory` comes only before the file is touched.
    fn save(&mut self, name: &str, bytes: &[u8]) -> Result<(), SaveError>
        ensures cause { HasCause SaveError.Failed self.old self.new result }
        ensures quiet { OnOk result (self.new ≡ self.old) }
        ensures memory { IsErrOf result SaveError.Memory → self.new ≡ self.old }
    {
        match write_file(&self.rt, name, bytes) {
            Ok(old) => {
                self.remember_replaced(name, old);
                Ok(())
            }
            Err(Unwritten::Untouched(error)) if error.kind() == ErrorKind::OutOfMemory => {
                Err(SaveError::Memory)
            }
            Err(Unwritten::Untouched(error) | Unwritten::InPart(error)) => {
                self.fault(name, error);
                Err(SaveError::Failed)
            }
        }
    }
}

/// A fault with a copy of the file's name.
fn fault_of(alloc: Global, name: &str, cause: io::Error) -> Option<FileFault> {
    Some(FileFault {
        name: String::from_str(alloc, name).ok(),
        cause,
    })
}

/// The bytes of a file, and which file it is, None where the system doesn't tell.
#[derive(Drop)]
struct FileRead {
    bytes: Vec<u8>,
    file: Option<FileId>,
}

fn read_file<R: Files + AllocGlobal>(rt: &R, name: &str) -> io::Result<FileRead> {
    let opened = File::open(rt, name)?;
    let metadata = opened.metadata().ok();
    let size = metadata.as_ref().map_or(0, |metadata| metadata.len());
    let file = metadata.map(|metadata| FileId::of(&metadata));
    let bytes = read_front(rt.alloc(), opened, size)?;
    Ok(FileRead { bytes, file })
}

/// The reader's bytes, cut off one byte past the limit. There is room for as many as the system says before the first is
/// read; there may be more or fewer.
fn read_front<I: Read + Drop>(alloc: Global, reader: I, size: u64) -> io::Result<Vec<u8>>
    ensures { IfOk result (λ v. IfSome (I.remaining reader) (λ bytes. v.items ≡ take (LIMIT + 1) bytes)) }
{
    let mut bytes = Vec::new(alloc);
    bytes.reserve(size.min(LIMIT) as usize + 1)?;
    reader.take(LIMIT + 1).read_to_end(&mut bytes)?;
    Ok(bytes)
}
