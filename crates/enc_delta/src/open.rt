//! Opening a delta's metadata: its root, the ends of its texts and its tables.
ghost use Rattle.std.specs.Prelude.{◌≡◌, ◌↔◌, ◌<◌, ◌^◌, IfOk, IsTrue};
ghost use Rattle.enc_base.specs.Tables.{enc_map};
ghost use Rattle.enc_base.specs.Token.{number_of};
ghost use Rattle.enc_meta.specs.Heaps.{part};
ghost use Rattle.enc_rows.specs.Layout.{IsWithin, rows_of};
ghost use Rattle.enc_delta.specs.Delta.{delta_layout, delta_of, delta_source, map_token};
ghost use Rattle.enc_delta.specs.Seen.{opened_delta, IsDeltaOpened, IsRising};

use crate::delta::nth_row;
use enc_base::tables::ENC_MAP;
use enc_base::{Counts, Refusal};
use enc_meta::{Root, TextEnds, read_root};
use enc_rows::{Form, Tables};
use enc_schema::columns::ENC_MAP_TOKEN;

/// A root, and the ends of the texts and the tables in it.
#[derive(Drop)]
pub struct Opened {
    pub root: Root,
    pub ends: TextEnds,
    pub tables: Tables,
}

/// The tables of a root.
#[tactic(auto, unfolding(crate::specs::Delta::delta_layout))]
fn tables_in(bytes: &[u8], root: &Root) -> Result<Tables, Refusal>
    ensures tables { result ≡ delta_layout bytes.now root.now }
    ensures within { IfOk result (λ l. IsWithin (part bytes.now root.now.tables) l × (l.span ≡ root.now.tables)) }
{
    let none = Counts { rows: [0; 64] };
    Tables::read(bytes, root.tables, Form::Delta, root.jtd, &none)
}

/// The root, the ends of the texts and the tables of a delta's metadata: F1, F2 or F6. Of the code
/// that goes with it nothing is read.
#[tactic(auto, unfolding(crate::specs::Delta::delta_of))]
pub fn open(bytes: &[u8], il: &[u8]) -> Result<Opened, Refusal>
    ensures source { opened_delta bytes.now il.now result ≡ delta_of bytes.now il.now }
    ensures opened { IfOk result (IsDeltaOpened bytes.now) }
{
    let _ = il;
    let root = match read_root(bytes) {
        Ok(root) => root,
        Err(refusal) => return Err(refusal),
    };
    let ends = TextEnds::of(bytes, &root);
    match tables_in(bytes, &root) {
        Ok(tables) => Ok(Opened { root, ends, tables }),
        Err(refusal) => Err(refusal),
    }
}

/// The number of a token of EncMap, from 0. Of the code nothing is read.
pub(crate) fn number_at(bytes: &[u8], il: &[u8], opened: &Opened, i: u32) -> u64
    requires opened { IsDeltaOpened bytes.now opened.now }
    requires there { i < rows_of opened.now.tables enc_map }
    requires few { i < 2 ^ 24 }
    ensures number { result ≡ number_of
        (map_token (delta_source bytes.now il.now opened.now.root opened.now.tables) i) }
    ensures few { result < 2 ^ 32 }
{
    let _ = il;
    let tables = &opened.tables;
    u64::from(tables.cell(bytes, nth_row(ENC_MAP, i), ENC_MAP_TOKEN))
}

/// Whether each token of EncMap has a greater number than those before it. Of the code nothing is
/// read.
pub fn is_rising(bytes: &[u8], il: &[u8], opened: &Opened) -> bool
    requires { IsDeltaOpened bytes.now opened.now }
    ensures { IsTrue result ↔ IsRising (delta_source bytes.now il.now opened.now.root opened.now.tables) }
{
    let mut least: u64 = 0;
    for i in 0..opened.tables.count(ENC_MAP) {
        let n = number_at(bytes, il, opened, i);
        if n < least {
            return false;
        }
        least = n + 1;
    }
    true
}
