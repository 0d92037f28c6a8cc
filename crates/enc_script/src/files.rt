//! The deltas that a script names.
ghost use Rattle.std.specs.Prelude.{◌≡◌, ◌++◌, IfOk, codes, map, option_map};
ghost use Rattle.enc_session.specs.Session.{files_in};
ghost use Rattle.enc_script.specs.Run.{files_of, first_with_file, named_delta};

use enc_checker::Files;
use std::alloc::{AllocError, Global};

/// The files of a delta, with the names of its metadata's and its PDB's.
#[derive(Drop)]
pub struct NamedDelta {
    pub metadata_name: String,
    pub debug_name: String,
    pub files: Files,
}

/// The name of the file with a delta's metadata.
fn metadata_name(alloc: Global, name: &[u8]) -> Result<Vec<u8>, AllocError>
    ensures { IfOk result (λ n. n.items ≡ name.now ++ codes ".meta") }
{
    let mut file = Vec::new(alloc);
    file.extend_from_slice(name)?;
    file.extend_from_slice(b".meta")?;
    Ok(file)
}

/// The first delta whose metadata's file has this name.
#[tactic(auto, unfolding(crate::specs::Run::first_with_file))]
fn first_of<'a>(deltas: &'a [NamedDelta], file: &[u8]) -> Option<&'a NamedDelta>
    ensures { option_map (λ d. named_delta d.now) result ≡ first_with_file file.now (map named_delta deltas.now) }
{
    for delta in deltas {
        if delta.metadata_name.as_bytes() == file {
            return Some(delta);
        }
    }
    None
}

/// The delta of a name, None where there is none.
pub(crate) fn files_of<'a>(
    alloc: Global,
    deltas: &'a [NamedDelta],
    name: &[u8],
) -> Result<Option<&'a NamedDelta>, AllocError>
    ensures { IfOk result (λ d. option_map (λ x. named_delta x.now) d
        ≡ files_of name.now (map named_delta deltas.now)) }
{
    let file = metadata_name(alloc, name)?;
    Ok(first_of(deltas, &file))
}

/// A copy of bytes.
fn copied(alloc: Global, bytes: &[u8]) -> Result<Vec<u8>, AllocError>
    ensures { IfOk result (λ b. b.items ≡ bytes.now) }
{
    let mut copy = Vec::new(alloc);
    copy.extend_from_slice(bytes)?;
    Ok(copy)
}

/// A copy of bytes that may be absent.
fn copied_if(alloc: Global, bytes: &Option<Vec<u8>>) -> Result<Option<Vec<u8>>, AllocError>
    ensures { IfOk result (λ b. option_map (λ x. x.items) b ≡ option_map (λ x. x.items) bytes.now) }
{
    match bytes {
        None => Ok(None),
        Some(bytes) => Ok(Some(copied(alloc, bytes)?)),
    }
}

/// A copy of a delta's files: a session takes them, and a script may name them again.
pub(crate) fn copied_files(alloc: Global, files: &Files) -> Result<Files, AllocError>
    ensures { IfOk result (λ f. files_in f ≡ files_in files.now) }
{
    Ok(Files {
        meta: copied(alloc, &files.meta)?,
        il: copied(alloc, &files.il)?,
        pdb: copied_if(alloc, &files.pdb)?,
    })
}
