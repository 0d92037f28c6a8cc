//! What written roots mean, as the contracts of functions that do nothing.
ghost use Rattle.enc_emit.specs.Written.{CountedRootIsRead, PdbRootIsRead, RootIsRead};

/// A root that was written is read back: its streams stand where its headers say.
pub fn root_law()
    ensures { RootIsRead }
{}

/// So is one whose texts end with zeros that don't count: its `#Strings` by the bytes that count.
pub fn counted_root_law()
    ensures { CountedRootIsRead }
{}

/// A root with `#Pdb` that was written is read back, with the bytes of that stream.
pub fn pdb_root_law()
    ensures { PdbRootIsRead }
{}
