//! Writing a file so that its name has the old bytes or the new ones, and never a part.
ghost use Rattle.std.specs.Prelude.{◌≡◌, [], IfOk};
ghost use Rattle.std.specs.Option.{unwrap_or};
ghost use Rattle.std.specs.Path.{path_buf_bytes, path_file_name, path_with_file_name};
ghost use Rattle.enc_outside.specs.Beside.{new_name};

use std::alloc::{AllocError, Global};
use std::fs::{File, Metadata, OpenFile, OpenOptions};
use std::io;
use std::io::{ErrorKind, Write};
use std::os::unix::fs::{MetadataExt, OpenOptionsExt};
use std::path::{Path, PathBuf};
use std::rt::Files;

/// How many names are tried for a new file. A name is taken where another run writes the same file, or was killed.
const TRIES: u32 = 1000;

/// Which file this is, whatever names lead to it.
#[derive(Clone, Copy, PartialEq, Eq)]
pub(crate) struct FileId {
    device: u64,
    inode: u64,
}

impl FileId {
    pub(crate) fn of(metadata: &Metadata) -> FileId {
        FileId {
            device: metadata.dev(),
            inode: metadata.ino(),
        }
    }
}

/// Why a file was not written, and what the system said.
#[derive(Clone, Copy)]
pub(crate) enum Unwritten {
    /// What stood under the name still stands there.
    Untouched(io::Error),
    /// The name may have a first part of the bytes.
    InPart(io::Error),
}

/// What stands under a name that is to be written.
#[derive(Drop)]
enum Target {
    Nothing,
    Regular(Metadata),
    /// A device, a pipe, a folder, a link that leads nowhere, or what the system doesn't tell.
    Other,
}

/// Whether a new file may take a name.
#[derive(Clone, Copy)]
enum Taking {
    Done,
    /// The system doesn't allow it here. What stood under the name still stands there.
    Forbidden,
}

/// A new file with no bytes.
#[derive(Drop)]
struct NewFile<F> {
    path: PathBuf,
    file: F,
}

/// Writes the file, and says which regular file stood under the name before.
pub(crate) fn write_file<R: Files + AllocGlobal>(
    rt: &R,
    name: &str,
    bytes: &[u8],
) -> Result<Option<FileId>, Unwritten> {
    match target_of(rt, name) {
        Target::Nothing => {
            let taking = take_name(rt, name, None, bytes);
            write_or_take(rt, name, bytes, taking)?;
            Ok(None)
        }
        Target::Regular(old) => {
            let taking = take_regular(rt, name, &old, bytes);
            write_or_take(rt, name, bytes, taking)?;
            Ok(Some(FileId::of(&old)))
        }
        Target::Other => {
            write_in_place(rt, name, bytes)?;
            Ok(None)
        }
    }
}

fn target_of<R: Files>(rt: &R, name: &str) -> Target {
    match rt.metadata(name) {
        Ok(metadata) if metadata.is_file() => Target::Regular(metadata),
        Err(error) if error.kind() == ErrorKind::NotFound => {
            if rt.symlink_metadata(name).is_ok() {
                Target::Other
            } else {
                Target::Nothing
            }
        }
        _ => Target::Other,
    }
}

/// Writes in place where a new file may not take the name.
fn write_or_take<R: Files>(
    rt: &R,
    name: &str,
    bytes: &[u8],
    taking: io::Result<Taking>,
) -> Result<(), Unwritten> {
    match taking {
        Ok(Taking::Done) => Ok(()),
        Ok(Taking::Forbidden) => write_in_place(rt, name, bytes),
        Err(error) => Err(Unwritten::Untouched(error)),
    }
}

/// Makes the file, or empties it and writes it anew.
fn write_in_place<R: Files>(rt: &R, name: &str, bytes: &[u8]) -> Result<(), Unwritten> {
    let mut file = File::create(rt, name).map_err(Unwritten::Untouched)?;
    file.write_all(bytes).map_err(Unwritten::InPart)
}

/// Has a new file take the name of a regular one, or of the one that a link leads to. Who may not write the old one
/// may not replace it.
fn take_regular<R: Files + AllocGlobal>(
    rt: &R,
    name: &str,
    old: &Metadata,
    bytes: &[u8],
) -> io::Result<Taking> {
    let _writable = OpenOptions::new().write(true).open(rt, name)?;
    if !rt.symlink_metadata(name)?.is_symlink() {
        return take_name(rt, name, Some(old), bytes);
    }
    match rt.canonicalize(rt.alloc(), name) {
        Ok(path) => take_name(rt, path.as_str(), Some(old), bytes),
        Err(error) if error.kind() == ErrorKind::OutOfMemory => Err(error),
        Err(_) => Ok(Taking::Forbidden),
    }
}

/// Writes a new file in the same folder, and gives it this name, which is no link. Where it fails, there is no new
/// file.
fn take_name<R: Files + AllocGlobal>(
    rt: &R,
    path: &str,
    old: Option<&Metadata>,
    bytes: &[u8],
) -> io::Result<Taking> {
    let mut new = match new_file(rt, path, old.is_some()) {
        Ok(new) => new,
        Err(error) => return forbidden(error),
    };
    let taking = fill_and_rename(rt, &mut new, path, old, bytes);
    if !matches!(&taking, Ok(Taking::Done)) {
        let _ = rt.remove_file(new.path.as_str());
    }
    taking
}

/// A new file in the folder of this path. One that is to replace another is nobody else's to read until it has the
/// other's permissions.
fn new_file<R: Files + AllocGlobal>(
    rt: &R,
    path: &str,
    is_private: bool,
) -> io::Result<NewFile<R::File>> {
    let mut options = OpenOptions::new();
    options.write(true).create_new(true);
    if is_private {
        options.mode(0o600);
    }
    for number in 0..TRIES {
        let path = beside(rt.alloc(), path, number)?;
        match options.open(rt, path.as_str()) {
            Ok(file) => return Ok(NewFile { path, file }),
            Err(error) if error.kind() == ErrorKind::AlreadyExists => {}
            Err(error) => return Err(error),
        }
    }
    Err(ErrorKind::AlreadyExists.into())
}

/// The path of a new file of this number in the same folder.
fn beside(alloc: Global, path: &str, number: u32) -> Result<PathBuf, AllocError>
    ensures { IfOk result (λ p. path_buf_bytes p ≡ path_with_file_name path.now
        (new_name (unwrap_or (path_file_name path.now) []) number)) }
{
    let name = file_name(path);
    let name = format!(in alloc; ".{name}.enc-{number}")?;
    Path::new(path).with_file_name(alloc, name.as_str())
}

/// The last part of a path, empty where that is no name.
fn file_name(path: &str) -> &str
    ensures { result.now ≡ unwrap_or (path_file_name path.now) [] }
{
    match Path::new(path).file_name() {
        Some(name) => name,
        None => "",
    }
}

fn fill_and_rename<R: Files>(
    rt: &R,
    new: &mut NewFile<R::File>,
    path: &str,
    old: Option<&Metadata>,
    bytes: &[u8],
) -> io::Result<Taking> {
    if let Some(old) = old
        && let Err(error) = keep_owner(rt, new, old)
    {
        return forbidden(error);
    }
    new.file.write_all(bytes)?;
    match rt.rename(new.path.as_str(), path) {
        Ok(()) => Ok(Taking::Done),
        Err(error) => forbidden(error),
    }
}

/// Gives the new file the owner, the group and the permissions of the old one.
fn keep_owner<R: Files>(rt: &R, new: &NewFile<R::File>, old: &Metadata) -> io::Result<()> {
    let made = new.file.metadata()?;
    if made.uid() != old.uid() || made.gid() != old.gid() {
        rt.chown(new.path.as_str(), Some(old.uid()), Some(old.gid()))?;
    }
    new.file.set_permissions(old.permissions())
}

/// Whether the system doesn't allow a new file here, where it may still allow to write the old one: the folder isn't
/// writable or takes no such name, the owner can't be kept, or the file is mounted by itself.
fn forbidden(error: io::Error) -> io::Result<Taking> {
    match error.kind() {
        ErrorKind::PermissionDenied
        | ErrorKind::ReadOnlyFilesystem
        | ErrorKind::ResourceBusy
        | ErrorKind::CrossesDevices
        | ErrorKind::InvalidFilename
        | ErrorKind::AlreadyExists
        | ErrorKind::Unsupported => Ok(Taking::Forbidden),
        _ => Err(error),
    }
}
