//! A delta: the metadata and the IL that one edit gives.
ghost use Rattle.std.specs.Prelude.{◌≡◌, ◌≢◌, ◌↔◌, IfErr, ◌+◌, ◌<◌, ◌^◌, Ok, Some, IsTrue, IsSome, IfSome, length, option_map, slice_get};
ghost use Rattle.enc_meta.specs.Heaps.{lengths_of};
ghost use Rattle.enc_opcodes.specs.Body.{code_seen};
ghost use Rattle.enc_plain.specs.Bodies.{code_there, code_loaded};
ghost use Rattle.enc_schema.specs.Schema.{column_in};
ghost use Rattle.enc_rows.specs.Layout.{rows_of, stream_has_row};
ghost use Rattle.enc_rows.specs.Source.{raw_in};
ghost use Rattle.enc_base.specs.Token.{nth_row};
ghost use Rattle.enc_delta.specs.Delta.{delta_of, delta_source, entry_at, loaded_code, map_token, log_in, map_in};
ghost use Rattle.enc_base.specs.declared.refusal.ReadFault.TheVariants.{Memory};
ghost use Rattle.enc_delta.specs.Seen.{ReadsDelta, IsDeltaOpened, IsRising, WasRead};
ghost use Rattle.enc_delta.specs.Starts.{lesser_in, IsCutIn, IsTableRange};
ghost use Rattle.enc_base.specs.Tables.{enc_log, enc_map};

use crate::code::{body_from, code_at};
use crate::log_entry::LogEntry;
use crate::open::{Opened, is_rising, open};
use crate::starts::{MapRange, lesser_in, starts_of};
use enc_base::tables::{ENC_LOG, ENC_MAP};
use enc_base::{ReadFault, Steps, Token};
use enc_meta::{HeapLengths, Heaps};
use enc_opcodes::CodeRef;
use enc_schema::column_of;
use enc_schema::columns::{ENC_LOG_FUNC_CODE, ENC_LOG_TOKEN, ENC_MAP_TOKEN};
use std::marker::Model;
use std::sync::ledger::Ledger;

/// The bytes of a delta, and where the parts of its metadata stand in them. Its cells aren't
/// copied. `rises` says whether each token of EncMap has a greater number than those before it, and
/// then `starts` says where each table begins in it.
#[derive(Drop)]
pub struct Delta {
    meta: Vec<u8>,
    il: Vec<u8>,
    opened: Opened,
    rises: bool,
    starts: [u32; 65],
}

impl Model for Delta {
    ghost use Rattle.enc_rows.specs.Source.{Source};
    ghost use Rattle.enc_delta.specs.Delta.{delta_source};
    ghost use Rattle.enc_delta.specs.Seen.{IsRead};

    ghost Value = { Source };

    ghost view = { λ d. delta_source d.meta.items d.il.items d.opened.root d.opened.tables };

    ghost invariant = { λ d. IsRead d.meta.items d.il.items d.opened d.rises d.starts };
}

/// The delta whose parts were read from these bytes.
fn delta_from(meta: Vec<u8>, il: Vec<u8>, opened: Opened, rises: bool) -> Delta
    requires opened { IsDeltaOpened meta.items opened }
    requires read { delta_of meta.items il.items ≡ Ok (delta_source meta.items il.items opened.root opened.tables) }
    requires rising { IsTrue rises ↔ IsRising (delta_source meta.items il.items opened.root opened.tables) }
    ensures { result ≡ delta_source meta.items il.items opened.root opened.tables }
{
    let starts = starts_of(&meta, &il, &opened, rises);
    Delta {
        meta,
        il,
        opened,
        rises,
        starts,
    }
}

impl Delta {
    /// Reads a delta. Refused is the first of F1, F2, F6 of its metadata. It takes no memory, and goes
    /// over EncMap once; where it rises, it then finds each table in it by halves.
    pub fn read(meta: Vec<u8>, il: Vec<u8>) -> Result<Delta, ReadFault>
        ensures reads { ReadsDelta result (delta_of meta.items il.items) }
        ensures free { IfErr result (λ fault. fault ≢ Memory) }
    {
        match open(&meta, &il) {
            Ok(opened) => {
                let rises = is_rising(&meta, &il, &opened);
                Ok(delta_from(meta, il, opened, rises))
            }
            Err(refusal) => Err(ReadFault::Refused(refusal)),
        }
    }

    /// A delta was read from the bytes of two files: a law, of which a caller makes use.
    pub fn was_read(&self)
        ensures { WasRead self.now }
    {
        let _ = &self.il;
    }

    /// Whether each token of EncMap has a greater number than those before it. It was found when the
    /// delta was read.
    pub(crate) fn rises(&self) -> bool
        ensures { IsTrue result ↔ IsRising self.now }
    {
        self.rises
    }

    /// Where the tokens of a table stand in a map that rises. It was found when the delta was read.
    pub(crate) fn range(&self, table: u8) -> MapRange
        requires rising { IsRising self.now }
        requires table { table < 64 }
        ensures { IsTableRange self.now table result }
    {
        MapRange {
            start: self.starts[table as usize],
            end: self.starts[table as usize + 1],
        }
    }

    /// How many tokens of the map have a number less than this one, found by halves of a range that
    /// the answer lies in.
    pub(crate) fn below(&self, number: u64, range: MapRange) -> u32
        requires rising { IsRising self.now }
        requires range { IsCutIn self.now number range }
        ensures { result ≡ lesser_in self.now number }
    {
        lesser_in(&self.meta, &self.il, &self.opened, number, range)
    }

    /// The number of rows of a table.
    pub fn count(&self, table: u8) -> u32
        ensures count { result ≡ rows_of self.now.layout table }
        ensures few { result < 2 ^ 24 }
    {
        self.opened.tables.count(table)
    }

    /// The number that stands in a cell. One step.
    pub fn raw<L: Ledger>(&self, row: Token, column: u8, steps: &mut Steps<L>) -> u32
        requires row { IsTrue (stream_has_row self.now.layout row) }
        requires column { IsSome (column_in row.table column) }
        ensures raw { result ≡ raw_in self.now row column }
        ensures steps { steps.new ≡ steps.old + 1 }
    {
        self.opened.tables.raw(&self.meta, row, column, steps)
    }

    /// The number that stands in a cell, for a caller that counts nothing; 0 where there is no such
    /// row or column.
    #[tactic(auto, unfolding(enc_rows::specs::Layout::raw_cell))]
    pub fn cell(&self, row: Token, column: u8) -> u32
        ensures { result ≡ raw_in self.now row column }
    {
        if row.row == 0 || row.row > self.opened.tables.count(row.table) {
            return 0;
        }
        match column_of(row.table, column) {
            Some(_) => self.opened.tables.cell(&self.meta, row, column),
            None => 0,
        }
    }

    /// The bytes of the delta's code. It takes no memory.
    pub fn il(&self) -> &[u8]
        ensures { self.now.loaded ≡ loaded_code result.now }
    {
        &self.il
    }

    /// The parts of the body at an offset of the delta's code, None where none stands whole there
    /// (ECMA-335 II.25.4).
    pub fn body(&self, offset: u32) -> Option<CodeRef<'_>>
        ensures code { option_map code_seen result ≡ code_there self.now.loaded offset }
        ensures few { IfSome result (λ c. length c.code.now < 2 ^ 32) }
        ensures short { IfSome result (λ c. length c.sections.now < 2 ^ 32) }
    {
        body_from(&self.il, offset)
    }

    /// The parts of the body at a method's place in the delta's code, of which 0 is none.
    pub fn code(&self, place: u32) -> Option<CodeRef<'_>>
        ensures code { option_map code_seen result ≡ code_loaded self.now.loaded place }
        ensures few { IfSome result (λ c. length c.code.now < 2 ^ 32) }
        ensures short { IfSome result (λ c. length c.sections.now < 2 ^ 32) }
    {
        code_at(&self.il, place)
    }

    /// The heaps by the bytes that count.
    pub fn heaps(&self) -> Heaps<'_>
        ensures { result ≡ self.now.heaps }
    {
        Heaps::with(&self.meta, &self.opened.root, self.opened.ends)
    }

    /// The bytes of `#Blob`.
    pub(crate) fn blobs(&self) -> &[u8]
        ensures { result.now ≡ self.now.heaps.blobs }
    {
        self.heaps().blobs()
    }

    /// How many bytes of `#Strings`, `#US` and `#Blob` count, and how many whole entries `#GUID` has.
    pub fn lengths(&self) -> HeapLengths
        ensures { result ≡ lengths_of self.now.heaps }
    {
        self.heaps().lengths()
    }
}

/// A row of a table, from 0.
pub(crate) fn nth_row(table: u8, n: u32) -> Token
    requires { n < 2 ^ 24 }
    ensures { result ≡ nth_row table n }
{
    Token { table, row: n + 1 }
}

impl Delta {
    /// The number of entries of EncLog.
    pub fn log_len(&self) -> u32
        ensures count { result ≡ rows_of self.now.layout enc_log }
        ensures few { result < 2 ^ 24 }
    {
        self.count(ENC_LOG)
    }

    /// An entry of EncLog, from 0.
    #[tactic(auto, unfolding(crate::specs::Delta::entry_at))]
    pub fn log(&self, i: u32) -> LogEntry
        requires there { i < rows_of self.now.layout enc_log }
        requires few { i < 2 ^ 24 }
        ensures entry { slice_get (log_in self.now) i ≡ Some result }
        ensures at { result ≡ entry_at self.now i }
        ensures row { result.token.row < 2 ^ 24 }
    {
        let row = nth_row(ENC_LOG, i);
        LogEntry {
            token: Token::of(self.cell(row, ENC_LOG_TOKEN)),
            operation: self.cell(row, ENC_LOG_FUNC_CODE),
        }
    }

    /// The number of tokens of EncMap.
    pub fn map_len(&self) -> u32
        ensures count { result ≡ rows_of self.now.layout enc_map }
        ensures few { result < 2 ^ 24 }
    {
        self.count(ENC_MAP)
    }

    /// A token of EncMap, from 0, for a caller that counts nothing.
    #[tactic(auto, unfolding(crate::specs::Delta::map_token))]
    pub fn token(&self, i: u32) -> Token
        requires there { i < rows_of self.now.layout enc_map }
        requires few { i < 2 ^ 24 }
        ensures token { slice_get (map_in self.now) i ≡ Some result }
        ensures at { result ≡ map_token self.now i }
        ensures table { result.table < 2 ^ 8 }
        ensures row { result.row < 2 ^ 24 }
    {
        Token::of(self.cell(nth_row(ENC_MAP, i), ENC_MAP_TOKEN))
    }

    /// A token of EncMap, from 0. One step.
    pub fn map<L: Ledger>(&self, i: u32, steps: &mut Steps<L>) -> Token
        requires there { i < rows_of self.now.layout enc_map }
        requires few { i < 2 ^ 24 }
        ensures token { slice_get (map_in self.now) i ≡ Some result }
        ensures at { result ≡ map_token self.now i }
        ensures table { result.table < 2 ^ 8 }
        ensures row { result.row < 2 ^ 24 }
        ensures steps { steps.new ≡ steps.old + 1 }
    {
        steps.tick();
        self.token(i)
    }
}
