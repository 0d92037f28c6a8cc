//! The bytes of a Portable PDB, and where its parts stand in them.
ghost use Rattle.std.specs.Prelude.{◌≡◌, ◌<◌, ◌^◌, IfSome, length};
ghost use Rattle.enc_meta.specs.Heaps.{part};
ghost use Rattle.enc_rows.specs.Layout.{IsWithin, rows_of};
ghost use Rattle.enc_rows.specs.Source.{raw_in};
ghost use Rattle.enc_ppdb.specs.Pdb.{pdb_layout, pdb_source_of};

use crate::outer::outer_of;
use enc_base::Token;
use enc_meta::{Heaps, Root, TextEnds, read_root};
use enc_rows::{Form, Tables};
use enc_schema::column_of;
use std::marker::Model;

/// The bytes of a Portable PDB, and where its parts stand in them.
#[derive(Drop)]
pub(crate) struct File {
    bytes: Vec<u8>,
    root: Root,
    ends: TextEnds,
    tables: Tables,
}

impl Model for File {
    ghost use Rattle.enc_rows.specs.Source.{Source};
    ghost use Rattle.enc_ppdb.specs.Pdb.{pdb_source};
    ghost use Rattle.enc_ppdb.specs.Seen.{IsPdbOpened};

    ghost Value = { Source };

    ghost view = { λ f. pdb_source f.bytes.items f.root f.tables };

    ghost invariant = { λ f. IsPdbOpened f.bytes.items f.root f.ends f.tables };
}

/// The tables of a root.
#[tactic(auto, unfolding(crate::specs::Pdb::pdb_layout))]
fn tables_in(bytes: &[u8], root: &Root) -> Option<Tables>
    ensures tables { result ≡ pdb_layout bytes.now root.now }
    ensures within { IfSome result (λ l. IsWithin (part bytes.now root.now.tables) l × (l.span ≡ root.now.tables)) }
{
    let outer = outer_of(bytes, root.pdb)?;
    match Tables::read(bytes, root.tables, Form::Pdb, root.jtd, &outer) {
        Ok(tables) => Some(tables),
        Err(_) => None,
    }
}

impl File {
    /// The parts of a PDB, where its root, its `#Pdb` and its table stream are good.
    #[tactic(auto, unfolding(crate::specs::Pdb::pdb_source_of))]
    pub(crate) fn open(bytes: Vec<u8>) -> Option<File>
        ensures { result ≡ pdb_source_of bytes.items }
    {
        let Ok(root) = read_root(&bytes) else {
            return None;
        };
        let ends = TextEnds::of(&bytes, &root);
        let tables = tables_in(&bytes, &root)?;
        Some(File {
            bytes,
            root,
            ends,
            tables,
        })
    }

    /// The number of rows of a table.
    pub(crate) fn count(&self, table: u8) -> u32
        ensures count { result ≡ rows_of self.now.layout table }
        ensures few { result < 2 ^ 24 }
    {
        self.tables.count(table)
    }

    /// The number that stands in a cell, 0 where there is no such row or column.
    #[tactic(auto, unfolding(enc_rows::specs::Layout::raw_cell))]
    pub(crate) fn cell(&self, row: Token, column: u8) -> u32
        ensures { result ≡ raw_in self.now row column }
    {
        if row.row == 0 || row.row > self.tables.count(row.table) {
            return 0;
        }
        match column_of(row.table, column) {
            Some(_) => self.tables.cell(&self.bytes, row, column),
            None => 0,
        }
    }

    /// The heaps.
    pub(crate) fn heaps(&self) -> Heaps<'_>
        ensures { result ≡ self.now.heaps }
    {
        Heaps::with(&self.bytes, &self.root, self.ends)
    }
}
