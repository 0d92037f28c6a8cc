//! The signatures whose bytes change when tokens move (ECMA-335 II.23.2).
ghost use Rattle.std.specs.Prelude.{◌≡◌, ◌+◌, ◌<◌, ◌^◌, ◌++◌, ℕ, List, length, Some, slice_index, IfOk, IsTrue, OnOk};
ghost use Rattle.enc_compact.specs.Held.{number_in_slots, bytes_by, blob_seen, SlotSays};
ghost use Rattle.enc_compact.specs.Held.{AreSaidUpto, AreSignaturesHeld, AreAllHeld, AreSlotsKnown};
ghost use Rattle.enc_compact.specs.Moved.{holds_signatures, signature_moved};
ghost use Rattle.enc_row_order.specs.Orders.{moved_by};
ghost use Rattle.enc_plain.specs.Module.{has_row, cells_of};
ghost use Rattle.enc_plain.specs.Rows.{bytes_at};
ghost use Rattle.enc_plain.specs.Signatures.{is_signature, signature_column};
ghost use Rattle.enc_plain.specs.Sound.{IsSound, row_count};
ghost use Rattle.enc_schema.specs.Schema.{list_at};

use crate::slots::{known_at, slot_at};
use enc_base::tables::TABLE_COUNT;
use enc_base::{Bytes, Counts, Token};
use enc_plain::{ModuleView, kind_in_table, signature_column};
use enc_row_order::Order;
use enc_sigs::{SigFault, read_sig, write_moved};
use std::alloc::{AllocError, Global};
use std::collections::BTreeMap;
use std::marker::Model;

/// The signatures of a table whose bytes change, each once for its place, and for each row of the module
/// that is lent 0 where its bytes stay, else 1 and the place of its signature among these.
#[derive(Drop)]
pub(crate) struct HeldTable {
    held: Vec<Bytes>,
    slots: Vec<u32>,
}

impl Model for HeldTable {
    ghost use Rattle.enc_compact.specs.Held.{HeldOf};

    ghost Value = { HeldOf };

    ghost view = { λ t. record { held = t.held.items; slots = t.slots.items } };
}

/// The signatures of all tables whose bytes change.
#[derive(Drop)]
pub(crate) struct HeldSignatures {
    tables: Vec<HeldTable>,
}

impl Model for HeldSignatures {
    ghost use Rattle.std.specs.Prelude.{List};
    ghost use Rattle.enc_compact.specs.Held.{HeldOf};

    ghost Value = { List HeldOf };

    ghost view = { λ s. s.tables.items };
}

/// What moves the tokens of signatures: where they go, and how many rows each table has.
#[derive(Drop)]
struct Moving<'a> {
    alloc: Global,
    order: &'a Order,
    counts: &'a Counts,
}

/// Those of a table that are held so far, and the numbers of the places that were met.
#[derive(Drop)]
struct Blobs {
    held: Vec<Bytes>,
    known: BTreeMap<u64, u32>,
}

/// How many rows each table has.
fn counts_of<V: ModuleView>(view: &V) -> Counts
    ensures { (t : ℕ) → t < 64 → slice_index result.rows t ≡ row_count (V.meaning view.now) t }
{
    let mut counts = Counts { rows: [0; 64] };
    for table in 0..64_u8 {
        counts.rows[table as usize] = view.count(table);
    }
    counts
}

/// The shortest spelling of a table's signature with its tokens moved.
fn moved_signature(moving: &Moving<'_>, table: u8, blob: &[u8]) -> Result<Vec<u8>, AllocError>
    requires { IsTrue (is_signature (λ t. slice_index moving.now.counts.now.rows t) table blob.now) }
    ensures { IfOk result (λ v. v.items ≡ signature_moved (moved_by (list_at moving.now.order.now)) table blob.now) }
{
    let kind = kind_in_table(table, blob);
    let sig = match read_sig(moving.alloc, kind, blob, moving.counts) {
        Ok(sig) => sig,
        Err(SigFault::Memory) => return Err(AllocError),
        Err(SigFault::Grammar) => unreachable!(),
    };
    let mut bytes = Vec::new(moving.alloc);
    let order = moving.order;
    match write_moved(moving.alloc, &sig, |token| order.moved(token), &mut bytes) {
        Ok(()) => Ok(bytes),
        Err(fault) => Err(fault),
    }
}

/// Moves the tokens of a signature, and answers its number; it is held where its bytes change.
fn hold(
    moving: &Moving<'_>,
    table: u8,
    blob: &[u8],
    held: &mut Vec<Bytes>,
) -> Result<u32, AllocError>
    requires signature { IsTrue (is_signature (λ t. slice_index moving.now.counts.now.rows t) table blob.now) }
    requires few { length held.old.items < 2 ^ 24 }
    ensures says { IfOk result (SlotSays (moved_by (list_at moving.now.order.now)) table held.new.items blob.now) }
    ensures grows { (more : List (List ℕ)) × (held.new.items ≡ held.old.items ++ more) }
    ensures few { length held.new.items < length held.old.items + 2 }
{
    let bytes = moved_signature(moving, table, blob)?;
    if bytes.as_slice() == blob {
        return Ok(0);
    }
    held.push(Bytes::from_vec(bytes))?;
    Ok(held.len() as u32)
}

/// The number of a row's signature; one at a place that was met before isn't moved again.
fn slot_of<V: ModuleView>(
    view: &V,
    moving: &Moving<'_>,
    row: Token,
    column: u8,
    blobs: &mut Blobs,
) -> Result<u32, AllocError>
    requires sound { IsSound (V.meaning view.now) }
    requires row { IsTrue (has_row (V.meaning view.now) row) }
    requires column { signature_column row.table ≡ Some column }
    requires counts { (t : ℕ) → t < 64 → slice_index moving.now.counts.now.rows t ≡ row_count (V.meaning view.now) t }
    requires few { length blobs.old.held.items < 2 ^ 24 }
    requires known { AreSlotsKnown (V.stored view.now) (SlotSays (moved_by
        (list_at moving.now.order.now)) row.table blobs.old.held.items) blobs.old.known }
    ensures says { IfOk result (SlotSays (moved_by (list_at moving.now.order.now)) row.table blobs.new.held.items
        (bytes_at (cells_of (V.meaning view.now)) row column)) }
    ensures known { OnOk result (AreSlotsKnown (V.stored view.now) (SlotSays (moved_by
        (list_at moving.now.order.now)) row.table blobs.new.held.items) blobs.new.known) }
    ensures grows { OnOk result ((more : List (List ℕ)) × (blobs.new.held.items ≡ blobs.old.held.items ++ more)) }
    ensures few { OnOk result (length blobs.new.held.items < length blobs.old.held.items + 2) }
{
    let place = view.blob_place(row, column);
    if let Some(slot) = known_at(&blobs.known, place) {
        return Ok(slot);
    }
    let blob = view.blob(row, column);
    let slot = match hold(moving, row.table, blob, &mut blobs.held) {
        Ok(slot) => slot,
        Err(fault) => return Err(fault),
    };
    match blobs.known.insert(place, slot) {
        Ok(_) => Ok(slot),
        Err(_) => Err(AllocError),
    }
}

/// The signatures of a table's column.
fn held_table<V: ModuleView>(
    view: &V,
    moving: &Moving<'_>,
    table: u8,
    column: u8,
) -> Result<HeldTable, AllocError>
    requires sound { IsSound (V.meaning view.now) }
    requires column { signature_column table ≡ Some column }
    requires counts { (t : ℕ) → t < 64 → slice_index moving.now.counts.now.rows t ≡ row_count (V.meaning view.now) t }
    ensures { IfOk result (λ h. AreSaidUpto (V.meaning view.now) (moved_by
        (list_at moving.now.order.now)) table column h.held h.slots (row_count (V.meaning view.now) table)) }
{
    let mut blobs = Blobs {
        held: Vec::new(moving.alloc),
        known: BTreeMap::new(moving.alloc),
    };
    let mut slots = Vec::new(moving.alloc);
    for n in 0..view.count(table) {
        let row = Token { table, row: n + 1 };
        match slot_of(view, moving, row, column, &mut blobs) {
            Ok(slot) => slots.push(slot)?,
            Err(fault) => return Err(fault),
        }
    }
    Ok(HeldTable {
        held: blobs.held,
        slots,
    })
}

/// The signatures of a table, none where it has none.
fn held_or_none<V: ModuleView>(
    view: &V,
    moving: &Moving<'_>,
    table: u8,
) -> Result<HeldTable, AllocError>
    requires sound { IsSound (V.meaning view.now) }
    requires counts { (t : ℕ) → t < 64 → slice_index moving.now.counts.now.rows t ≡ row_count (V.meaning view.now) t }
    ensures { IfOk result (λ h. AreSignaturesHeld (V.meaning view.now) (moved_by
        (list_at moving.now.order.now)) table h.held h.slots) }
{
    match signature_column(table) {
        Some(column) => held_table(view, moving, table, column),
        None => Ok(HeldTable {
            held: Vec::new(moving.alloc),
            slots: Vec::new(moving.alloc),
        }),
    }
}

/// Whether a table's signatures stand in this column.
fn holds_signatures(table: u8, column: u8) -> bool
    ensures { result ≡ holds_signatures table column }
{
    match signature_column(table) {
        Some(own) => own == column,
        None => false,
    }
}

impl HeldTable {
    /// The signature of a row, by its row in the module that is lent: its own bytes where they stay.
    fn blob<'a>(&'a self, row: u32, blob: &'a [u8]) -> &'a [u8]
        ensures { result.now ≡ bytes_by self.now.held blob.now (number_in_slots self.now.slots row) }
    {
        let slot = slot_at(&self.slots, row);
        if slot == 0 {
            return blob;
        }
        match self.held.get(slot as usize - 1) {
            Some(bytes) => bytes.as_slice(),
            None => blob,
        }
    }
}

impl HeldSignatures {
    /// The signatures of a module whose bytes change by an order.
    pub(crate) fn of<V: ModuleView>(
        alloc: Global,
        view: &V,
        order: &Order,
    ) -> Result<HeldSignatures, AllocError>
        requires sound { IsSound (V.meaning view.now) }
        ensures { IfOk result (AreAllHeld (V.meaning view.now) (moved_by (list_at order.now))) }
    {
        let counts = counts_of(view);
        let moving = Moving {
            alloc,
            order,
            counts: &counts,
        };
        let mut tables = Vec::new(alloc);
        for table in 0..TABLE_COUNT {
            tables.push(held_or_none(view, &moving, table)?)?;
        }
        Ok(HeldSignatures { tables })
    }

    /// The blob in a column of a row, by its row in the module that is lent: a signature that changes is
    /// held.
    pub(crate) fn blob<'a>(&'a self, row: Token, column: u8, blob: &'a [u8]) -> &'a [u8]
        ensures { result.now ≡ blob_seen self.now row column blob.now }
    {
        if !holds_signatures(row.table, column) {
            return blob;
        }
        match self.tables.get(row.table as usize) {
            Some(table) => table.blob(row.row, blob),
            None => blob,
        }
    }
}
