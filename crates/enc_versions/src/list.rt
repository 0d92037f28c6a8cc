//! Bodies that a delta brings.
ghost use Rattle.std.specs.Prelude.{◌≡◌, ◌++◌, ◌∷◌, [], length, option_map, slice_get, IsTrue, IfOk, OnErr};
ghost use Rattle.std.specs.List.{list_all};
ghost use Rattle.enc_versions.specs.Commit.{is_entry};

use enc_base::{Bytes, Token};
use enc_seqpoints::Points;
use std::alloc::{AllocError, Global};
use std::marker::Model;

/// A body that becomes the newest of its method.
#[derive(Drop)]
pub struct CodeEntry {
    /// The method.
    pub method: Token,
    /// The most values on the stack.
    pub max: u16,
    /// Whether locals begin as zeros.
    pub init: bool,
    /// The StandAloneSig row of the locals, row 0 where there are none.
    pub locals: Token,
    /// The code, in bytes.
    pub code: Bytes,
    /// The data sections behind the code.
    pub sections: Bytes,
    /// The sequence points and the local signature row.
    pub points: Points,
}

/// Bodies that become the newest of their methods, in order. Each is of a MethodDef row, and its code is
/// shorter than 2^32 bytes.
#[derive(Drop)]
pub struct CodeList {
    items: Vec<CodeEntry>,
}

impl Model for CodeList {
    ghost use Rattle.std.specs.Prelude.{List, IsTrue};
    ghost use Rattle.std.specs.List.{list_all};
    ghost use Rattle.enc_versions.specs.Commit.{is_entry};
    ghost use Rattle.enc_versions.specs.declared.list.CodeEntry.{CodeEntry};

    ghost Value = { List CodeEntry };

    ghost view = { λ l. l.items.items };

    ghost invariant = { λ l. IsTrue (list_all is_entry l.items.items) };
}

impl CodeList {
    /// No bodies, which take no memory.
    pub fn begin(alloc: Global) -> CodeList
        ensures { result ≡ [] }
    {
        CodeList {
            items: Vec::new(alloc),
        }
    }

    /// One body more. Without memory nothing changes.
    #[tactic(auto, using(crate::proofs::Committed::entry_more))]
    pub fn push(&mut self, entry: CodeEntry) -> Result<(), AllocError>
        requires { IsTrue (is_entry entry) }
        ensures ok { IfOk result (λ _. self.new ≡ self.old ++ entry ∷ []) }
        ensures err { OnErr result (self.new ≡ self.old) }
    {
        self.items.push(entry)?;
        Ok(())
    }

    /// The number of bodies.
    pub fn len(&self) -> usize
        ensures { result ≡ length self.now }
    {
        self.items.len()
    }

    /// The body at a place, from 0; None past the last.
    pub fn get(&self, i: usize) -> Option<&CodeEntry>
        ensures { option_map (λ e. e.now) result ≡ slice_get self.now i }
    {
        self.items.get(i)
    }

    /// The bodies as a `Vec`.
    pub(crate) fn into_vec(self) -> Vec<CodeEntry>
        ensures items { result.items ≡ self }
        ensures each { IsTrue (list_all is_entry self) }
    {
        self.items
    }
}
