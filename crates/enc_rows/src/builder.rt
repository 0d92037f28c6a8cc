//! The rows of a table stream that is written, table by table.
ghost use Rattle.std.specs.Prelude.{◌≡◌, ℕ, ◌+◌, ◌-◌, ◌^◌, ◌<◌, ◌≤◌, [], ◌∷◌, ◌++◌, length, nat_lt, ◌==◌, if◌then◌else◌, IsTrue, IfOk, OnOk, OnErr};
ghost use Rattle.enc_schema.specs.Schema.{columns_in};
ghost use Rattle.enc_rows.specs.Written.{rows_at, count_at, stream_of, heap_bits, AreRows, AllFit};

use crate::row::TableRows;
use crate::wide::heap_bits;
use crate::written::{count_at, push_stream};
use std::alloc::{AllocError, Global};
use std::marker::Model;

/// Makes room for this table. The tables that are added have no rows.
fn grow(alloc: Global, tables: &mut Vec<TableRows>, table: u8) -> Result<(), AllocError>
    requires table { table < 64 }
    requires few { length tables.old.items ≤ 64 }
    ensures rows { (k : ℕ) → rows_at tables.new.items k ≡ rows_at tables.old.items k }
    ensures few { length tables.new.items ≤ 64 }
    ensures there { OnOk result (table < length tables.new.items) }
{
    while tables.len() <= table as usize {
        tables.push(TableRows::none(alloc))?;
    }
    Ok(())
}

/// The rows of a table stream that is written, each by the numbers in its columns.
#[derive(Drop)]
pub struct TableBuilder {
    alloc: Global,
    tables: Vec<TableRows>,
}

impl Model for TableBuilder {
    ghost use Rattle.std.specs.Prelude.{ℕ, List};
    ghost use Rattle.enc_rows.specs.Written.{AreRows};

    ghost Value = { List (List (List ℕ)) };

    ghost view = { λ b. b.tables.items };

    ghost invariant = { λ b. AreRows b.tables.items };
}

impl TableBuilder {
    /// A stream without rows. It takes no memory.
    pub fn begin(alloc: Global) -> TableBuilder
        ensures { result ≡ [] }
    {
        TableBuilder {
            alloc,
            tables: Vec::new(alloc),
        }
    }

    /// Adds a row behind the others of its table: the numbers in its columns, from the first one
    /// (ECMA-335 II.22). Without memory no row is added.
    pub fn push(&mut self, table: u8, cells: &[u32]) -> Result<(), AllocError>
        requires table { IsTrue (nat_lt 0 (length (columns_in table))) }
        requires cells { length cells.now ≡ length (columns_in table) }
        requires few { count_at self.old table < 2 ^ 24 - 1 }
        ensures pushed { OnOk result ((k : ℕ)
            → rows_at self.new k ≡ (if k == table then rows_at self.old k ++ cells.now ∷ [] else rows_at self.old k)) }
        ensures err { OnErr result ((k : ℕ) → rows_at self.new k ≡ rows_at self.old k) }
    {
        let alloc = self.alloc;
        grow(alloc, &mut self.tables, table)?;
        let rows = &mut self.tables[table as usize];
        rows.push(alloc, cells)?;
        Ok(())
    }

    /// The number of rows of a table.
    pub fn count(&self, table: u8) -> u32
        ensures { result ≡ count_at self.now table }
    {
        count_at(&self.tables, table) as u32
    }

    /// The heap bits by which all offsets fit: 1 where one of `#Strings` needs four bytes, 2 and 4
    /// the same of `#GUID` and `#Blob`.
    pub fn heap_bits(&self) -> u8
        ensures bits { result ≡ heap_bits self.now }
        ensures few { result < 8 }
    {
        heap_bits(&self.tables)
    }

    /// No table past the last has rows, each has fewer than 2^24, and each row has a number for
    /// each column.
    pub fn laws(&self)
        ensures { AreRows self.now }
    {
        let _ = &self.tables;
    }

    /// The bytes of the stream: its header, the numbers of rows, and the rows table by table
    /// (ECMA-335 II.24.2.6). `jtd` makes all indices wide. Of the heap bits 1, 2 and 4 make
    /// offsets in strings, GUIDs and blobs wide, and 40 adds four bytes behind the numbers of
    /// rows.
    pub fn finish(self, alloc: Global, jtd: bool, flags: u8) -> Result<Vec<u8>, AllocError>
        requires fit { AllFit self jtd flags }
        ensures bytes { IfOk result (λ v. v.items ≡ stream_of self jtd flags) }
        ensures rows { IfOk result (λ _. AreRows self) }
    {
        let mut out = Vec::new(alloc);
        push_stream(&self.tables, jtd, flags, &mut out)?;
        Ok(out)
    }
}
