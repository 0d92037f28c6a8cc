//! A metadata root that is built: its heaps, its tables, and then its bytes (ECMA-335 II.24.2.1).
ghost use Rattle.std.specs.Prelude.{◌≡◌, ◌<◌, ◌^◌, ◌||◌, false, [], IfOk};
ghost use Rattle.enc_meta.specs.Built.{none_from};
ghost use Rattle.enc_meta.specs.BuiltSeen.{heap_bytes_seen};
ghost use Rattle.enc_rows.specs.Written.{IndicesFit};
ghost use Rattle.enc_emit.specs.Written.{has_ptr_rows as ptrs_have_rows, has_jtd as form_has_jtd, is_delta as form_is_delta, root_built, built_size, pdb_root_built, pdb_built_size, root_size, root_written};

use crate::root_form::{RootForm, has_jtd, is_delta};
use crate::written::{pdb_root_bytes, root_bytes};
use enc_base::tables::{EVENT_PTR, FIELD_PTR, METHOD_PTR, PARAM_PTR, PROPERTY_PTR};
use enc_meta::{HeapBuilder, HeapBytes, HeapLengths};
use enc_rows::{TableBuilder, heap_bits_law};
use std::alloc::{AllocError, Global};
use std::marker::Model;

/// A metadata root that is built.
#[derive(Drop)]
pub struct RootBuilder {
    heaps: HeapBuilder,
    tables: TableBuilder,
}

impl Model for RootBuilder {
    ghost use Rattle.enc_emit.specs.Written.{Parts};

    ghost Value = { Parts };

    ghost view = { λ b. record { heaps = b.heaps; rows = b.tables } };
}

/// Whether a Ptr table has rows.
#[tactic(auto, unfolding(crate::specs::Written::has_ptr_rows))]
fn has_ptr_rows(tables: &TableBuilder) -> bool
    ensures { result ≡ ptrs_have_rows tables.now }
{
    tables.count(FIELD_PTR) > 0
        || tables.count(METHOD_PTR) > 0
        || tables.count(PARAM_PTR) > 0
        || tables.count(EVENT_PTR) > 0
        || tables.count(PROPERTY_PTR) > 0
}

/// Whether the tables are in the uncompressed form.
fn is_uncompressed(form: RootForm, tables: &TableBuilder) -> bool
    ensures { result ≡ (form_is_delta form || ptrs_have_rows tables.now) }
{
    is_delta(form) || has_ptr_rows(tables)
}

/// The bytes of a root of a table stream and heaps as they are, where `delta` says that it is a delta's,
/// with `#JTD` and the uncompressed table stream `#-`, and not a module's with `#~`. `read_root` and
/// `Heaps` read them back, `#Strings` by the bytes that count.
pub fn write_root(
    alloc: Global,
    tables: &[u8],
    heaps: &HeapBytes,
    delta: bool,
) -> Result<Vec<u8>, AllocError>
    requires { root_size delta tables.now (heap_bytes_seen heaps.now) < 2 ^ 32 }
    ensures { IfOk result (λ v. v.items ≡ root_written delta delta tables.now (heap_bytes_seen heaps.now)) }
{
    root_bytes(alloc, delta, delta, tables, heaps)
}

impl RootBuilder {
    ghost use Rattle.std.specs.Borrow.{sem};
    ghost use Rattle.enc_emit.specs.Lending.{LendsHeaps, LendsTables};

    /// A root without values and rows, whose heaps begin at these offsets of the joined ones, all 0
    /// for a module.
    pub fn begin(alloc: Global, starts: HeapLengths) -> Result<RootBuilder, AllocError>
        ensures heaps { IfOk result (λ b. b.heaps ≡ none_from starts) }
        ensures rows { IfOk result (λ b. b.rows ≡ []) }
    {
        Ok(RootBuilder {
            heaps: HeapBuilder::begin(alloc, starts)?,
            tables: TableBuilder::begin(alloc),
        })
    }

    /// A root of heaps and tables that were built apart. It takes no memory.
    pub fn of(heaps: HeapBuilder, tables: TableBuilder) -> RootBuilder
        ensures { result ≡ record { heaps = heaps; rows = tables } }
    {
        RootBuilder { heaps, tables }
    }

    /// The heaps, to add values.
    pub fn heaps(&mut self) -> &mut HeapBuilder
        ensures* writes_back { sem 𝓛 (LendsHeaps self.entry result) }
        ensures value { result.now ≡ self.old.heaps }
    {
        &mut self.heaps
    }

    /// The tables, to add rows.
    pub fn tables(&mut self) -> &mut TableBuilder
        ensures* writes_back { sem 𝓛 (LendsTables self.entry result) }
        ensures value { result.now ≡ self.old.rows }
    {
        &mut self.tables
    }

    /// The bytes of the root. But in the form `Module` all indices take four bytes and a stream `#JTD`
    /// says so. Offsets take four bytes in the columns of a heap where one of them needs more than two.
    /// The table stream is `#-` in the form `Delta` or where a Ptr table has rows, and else `#~`.
    #[tactic(auto, unfolding(crate::specs::Written::root_built))]
    pub fn finish(self, alloc: Global, form: RootForm) -> Result<Vec<u8>, AllocError>
        requires fit { IndicesFit self.rows (form_has_jtd form) }
        requires size { built_size self (form_has_jtd form) < 2 ^ 32 }
        ensures { IfOk result (λ v. v.items ≡ root_built self form) }
    {
        self.tables.laws();
        heap_bits_law();
        let wide = has_jtd(form);
        let uncompressed = is_uncompressed(form, &self.tables);
        let flags = self.tables.heap_bits();
        let stream = self.tables.finish(alloc, wide, flags)?;
        let heaps = self.heaps.finish()?;
        root_bytes(alloc, wide, uncompressed, &stream, &heaps)
    }

    /// The bytes of the root of a Portable PDB, with these of its stream `#Pdb` (Portable PDB v1.0,
    /// #Pdb Stream). Offsets take four bytes as in `finish`, and indices only where the tables ask
    /// for it. The table stream is `#~`, as no PDB has rows in a Ptr table.
    #[tactic(auto, unfolding(crate::specs::Written::pdb_root_built))]
    pub fn finish_pdb(self, alloc: Global, pdb: &[u8]) -> Result<Vec<u8>, AllocError>
        requires fit { IndicesFit self.rows false }
        requires size { pdb_built_size self pdb.now < 2 ^ 32 }
        ensures { IfOk result (λ v. v.items ≡ pdb_root_built self pdb.now) }
    {
        self.tables.laws();
        heap_bits_law();
        let uncompressed = has_ptr_rows(&self.tables);
        let flags = self.tables.heap_bits();
        let stream = self.tables.finish(alloc, false, flags)?;
        let heaps = self.heaps.finish()?;
        pdb_root_bytes(alloc, pdb, uncompressed, &stream, &heaps)
    }
}
