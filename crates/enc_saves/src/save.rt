//! What is saved of a module and of a delta.
ghost use Rattle.std.specs.Prelude.{◌≡◌, ◌++◌, ◌∷◌, [], OnOk, string_bytes};
ghost use Rattle.enc_saves.specs.Saves.{saves_of, module_saves, delta_saves};

use crate::name::name_of;
use enc_base::Bytes;
use enc_emit::DeltaBytes;
use enc_rewriter::Rewritten;
use std::alloc::{AllocError, Global};

/// A file to be saved.
#[derive(Debug, Drop)]
pub struct Save {
    pub name: String,
    pub bytes: Vec<u8>,
}

/// Appends a save.
fn push_save(name: String, bytes: Bytes, saves: &mut Vec<Save>) -> Result<(), AllocError>
    ensures { OnOk result (saves_of saves.new.items ≡ saves_of saves.old.items ++ (string_bytes name, bytes) ∷ []) }
{
    saves.push(Save {
        name,
        bytes: bytes.into_vec(),
    })?;
    Ok(())
}

/// Appends the saves of a module and its PDB: `NAME.dll`, then `NAME.pdb`.
pub fn push_module(
    alloc: Global,
    name: &str,
    written: Rewritten,
    saves: &mut Vec<Save>,
) -> Result<(), AllocError>
    ensures { OnOk result (saves_of saves.new.items
        ≡ saves_of saves.old.items ++ module_saves name.now written.image written.pdb) }
{
    push_save(name_of(alloc, name, ".dll")?, written.image, saves)?;
    push_save(name_of(alloc, name, ".pdb")?, written.pdb, saves)?;
    Ok(())
}

/// Appends the saves of a delta: `NAME.meta`, `NAME.il`, then `NAME.pdb`.
pub fn push_delta(
    alloc: Global,
    name: &str,
    files: DeltaBytes,
    saves: &mut Vec<Save>,
) -> Result<(), AllocError>
    ensures { OnOk result (saves_of saves.new.items ≡ saves_of saves.old.items ++ delta_saves name.now files) }
{
    push_save(name_of(alloc, name, ".meta")?, files.meta, saves)?;
    push_save(name_of(alloc, name, ".il")?, files.il, saves)?;
    push_save(name_of(alloc, name, ".pdb")?, files.pdb, saves)?;
    Ok(())
}
