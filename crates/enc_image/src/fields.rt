//! The initial bytes of fields, and judging them: F5 (ECMA-335 II.22.18).
ghost use Rattle.std.specs.Prelude.{◌≡◌, ℕ, ◌+◌, ◌<◌, ◌≤◌, ◌^◌, IfOk, IsTrue, None, Some, length, option_and_then, if◌then◌else◌, ◌==◌};
ghost use Rattle.std.specs.List.{slice_index_or};
ghost use Rattle.std.specs.Option.{option_copied};
ghost use Rattle.enc_base.specs.Order.{or_else, first_below};
ghost use Rattle.enc_base.specs.Token.{nth_row};
ghost use Rattle.enc_meta.specs.Heaps.{part};
ghost use Rattle.enc_meta.specs.Regions.{range_loaded};
ghost use Rattle.enc_rows.specs.Layout.{IsWithin, stream_has_row, rows_of};
ghost use Rattle.enc_rows.specs.Source.{raw_in};
ghost use Rattle.enc_image.specs.Base.{blob_or_none, data_extent, layout_size, size_of_class, extent_size, bytes_of_field, field_bytes, field_fault_at, field_fault};
ghost use Rattle.enc_image.specs.Seen.{source_seen};
ghost use Rattle.enc_base.specs.Tables.{field_rva, type_def};

use crate::judge::Cells;
use enc_base::tables::{CLASS_LAYOUT, FIELD, FIELD_RVA, TYPE_DEF};
use enc_base::{Place, Token};
use enc_plain::{Extent, extent_in};
use enc_schema::column_of;
use enc_schema::columns::{
    CLASS_LAYOUT_CLASS_SIZE, CLASS_LAYOUT_PARENT, FIELD_RVA_FIELD, FIELD_RVA_RVA, FIELD_SIGNATURE,
};
use std::alloc::{AllocError, Global};

/// The number in a cell, 0 where there is no such row or column.
#[tactic(auto, unfolding(enc_rows::specs::Layout::raw_cell))]
fn number_in(cells: &Cells<'_>, row: Token, column: u8) -> u32
    requires { IsWithin (part cells.now.bytes.now cells.now.tables.now.span) cells.now.tables.now }
    ensures { result ≡ raw_in (source_seen cells.now) row column }
{
    if row.row == 0 || row.row > cells.tables.count(row.table) {
        return 0;
    }
    match column_of(row.table, column) {
        Some(_) => cells.tables.cell(cells.bytes, row, column),
        None => 0,
    }
}

/// The bytes of a blob, none where its offset isn't good.
fn blob_or_none<'a>(cells: &Cells<'a>, offset: u32) -> &'a [u8]
    ensures { result.now ≡ blob_or_none (source_seen cells.now) offset }
{
    match cells.heaps.blob(offset) {
        Some(bytes) => bytes,
        None => &[],
    }
}

/// What tells the size of the field that a row of FieldRVA names.
#[tactic(auto, unfolding(crate::specs::Base::data_extent))]
fn extent_of(cells: &Cells<'_>, row: Token) -> Option<Extent>
    requires { IsWithin (part cells.now.bytes.now cells.now.tables.now.span) cells.now.tables.now }
    ensures { result ≡ data_extent (source_seen cells.now) row }
{
    let field = number_in(cells, row, FIELD_RVA_FIELD);
    if field == 0 {
        return None;
    }
    let named = Token {
        table: FIELD,
        row: field,
    };
    extent_in(blob_or_none(cells, number_in(cells, named, FIELD_SIGNATURE)))
}

/// The size that row r of ClassLayout, from 0, tells, where it is the type's (ECMA-335 II.22.8).
#[tactic(auto, unfolding(crate::specs::Base::layout_size))]
fn layout_size(cells: &Cells<'_>, owner: u32, r: u32) -> Option<u32>
    requires bytes { IsWithin (part cells.now.bytes.now cells.now.tables.now.span) cells.now.tables.now }
    requires few { r < 2 ^ 24 }
    ensures { result ≡ layout_size (source_seen cells.now) owner r }
{
    let layout = Token {
        table: CLASS_LAYOUT,
        row: r + 1,
    };
    if number_in(cells, layout, CLASS_LAYOUT_PARENT) == owner {
        return Some(number_in(cells, layout, CLASS_LAYOUT_CLASS_SIZE));
    }
    None
}

/// The size that the first row of ClassLayout with this row of TypeDef tells. It goes over them
/// all.
#[tactic(auto, using(enc_base::proofs::First::first_steps), unfolding(crate::specs::Base::size_of_class))]
fn size_of_class(cells: &Cells<'_>, owner: u32) -> Option<u32>
    requires { IsWithin (part cells.now.bytes.now cells.now.tables.now.span) cells.now.tables.now }
    ensures { result ≡ size_of_class (source_seen cells.now) owner }
{
    for r in 0..cells.tables.count(CLASS_LAYOUT) {
        match layout_size(cells, owner, r) {
            Some(size) => return Some(size),
            None => {}
        }
    }
    None
}

/// How many bytes a field has, None where nothing tells it.
fn size_of(cells: &Cells<'_>, extent: Option<Extent>) -> Option<u32>
    requires { IsWithin (part cells.now.bytes.now cells.now.tables.now.span) cells.now.tables.now }
    ensures { result ≡ extent_size (source_seen cells.now) extent }
{
    match extent {
        Some(Extent::Bytes(size)) => Some(size),
        Some(Extent::Class(owner)) => size_of_class(cells, owner),
        None => None,
    }
}

/// So many bytes at an RVA, None where they aren't loaded or their number isn't known.
fn loaded<'a>(cells: &Cells<'a>, rva: u32, size: Option<u32>) -> Option<&'a [u8]>
    ensures { option_copied result ≡ option_and_then (range_loaded (source_seen cells.now).loaded rva) size }
{
    match size {
        Some(size) => cells.loaded.range(rva, size),
        None => None,
    }
}

/// The initial bytes of a field by its row of FieldRVA, none where it has no RVA.
#[tactic(auto, unfolding(crate::specs::Base::field_bytes, crate::specs::Base::bytes_of_field))]
pub fn field_bytes<'a>(cells: &Cells<'a>, row: Token) -> &'a [u8]
    requires bytes { IsWithin (part cells.now.bytes.now cells.now.tables.now.span) cells.now.tables.now }
    ensures { result.now ≡ field_bytes (source_seen cells.now) row }
{
    let rva = number_in(cells, row, FIELD_RVA_RVA);
    if rva == 0 {
        return &[];
    }
    match loaded(cells, rva, size_of(cells, extent_of(cells, row))) {
        Some(bytes) => bytes,
        None => &[],
    }
}

/// The size at the place, where none stands there.
fn keep_first(sizes: &mut Vec<Option<u32>>, owner: u32, size: u32)
    ensures length { length sizes.new.items ≡ length sizes.old.items }
    ensures each { (t : ℕ) → t < length sizes.old.items → slice_index_or sizes.new.items t None
        ≡ or_else (slice_index_or sizes.old.items t None) (if owner == t then Some size else None) }
{
    let at = owner as usize;
    if at < sizes.len() && sizes[at].is_none() {
        sizes[at] = Some(size);
    }
}

/// The size that ClassLayout tells of each type, by its row of TypeDef; row 0 is none. It goes over
/// ClassLayout once.
fn class_sizes(alloc: Global, cells: &Cells<'_>) -> Result<Vec<Option<u32>>, AllocError>
    requires { IsWithin (part cells.now.bytes.now cells.now.tables.now.span) cells.now.tables.now }
    ensures length { IfOk result (λ sizes. length sizes.items ≡ rows_of cells.now.tables.now type_def + 1) }
    ensures each { IfOk result (λ sizes. (t : ℕ) → t < length sizes.items
        → slice_index_or sizes.items t None ≡ size_of_class (source_seen cells.now) t) }
{
    let mut sizes = vec![in alloc; None; cells.tables.count(TYPE_DEF) as usize + 1]?;
    for r in 0..cells.tables.count(CLASS_LAYOUT) {
        let layout = Token {
            table: CLASS_LAYOUT,
            row: r + 1,
        };
        keep_first(
            &mut sizes,
            number_in(cells, layout, CLASS_LAYOUT_PARENT),
            number_in(cells, layout, CLASS_LAYOUT_CLASS_SIZE),
        );
    }
    Ok(sizes)
}

/// The size of a type. One past the table is searched for.
fn class_size(cells: &Cells<'_>, sizes: &[Option<u32>], owner: u32) -> Option<u32>
    requires bytes { IsWithin (part cells.now.bytes.now cells.now.tables.now.span) cells.now.tables.now }
    requires sizes { (t : ℕ) → t < length sizes.now
        → slice_index_or sizes.now t None ≡ size_of_class (source_seen cells.now) t }
    ensures { result ≡ size_of_class (source_seen cells.now) owner }
{
    if (owner as usize) < sizes.len() {
        return sizes[owner as usize];
    }
    size_of_class(cells, owner)
}

/// How many bytes a field has, by the sizes of the types.
fn known_size(cells: &Cells<'_>, sizes: &[Option<u32>], extent: Option<Extent>) -> Option<u32>
    requires bytes { IsWithin (part cells.now.bytes.now cells.now.tables.now.span) cells.now.tables.now }
    requires sizes { (t : ℕ) → t < length sizes.now
        → slice_index_or sizes.now t None ≡ size_of_class (source_seen cells.now) t }
    ensures { result ≡ extent_size (source_seen cells.now) extent }
{
    match extent {
        Some(Extent::Bytes(size)) => Some(size),
        Some(Extent::Class(owner)) => class_size(cells, sizes, owner),
        None => None,
    }
}

/// The place of row r of FieldRVA, from 0, where it has an RVA, but no bytes of its field's size
/// there.
#[tactic(auto, unfolding(crate::specs::Base::field_fault_at, crate::specs::Base::bytes_of_field))]
fn field_fault_at(cells: &Cells<'_>, sizes: &[Option<u32>], r: u32) -> Option<Place>
    requires bytes { IsWithin (part cells.now.bytes.now cells.now.tables.now.span) cells.now.tables.now }
    requires sizes { (t : ℕ) → t < length sizes.now
        → slice_index_or sizes.now t None ≡ size_of_class (source_seen cells.now) t }
    requires few { r < 2 ^ 24 }
    ensures { result ≡ field_fault_at (source_seen cells.now) r }
{
    let row = Token {
        table: FIELD_RVA,
        row: r + 1,
    };
    let rva = number_in(cells, row, FIELD_RVA_RVA);
    if rva == 0 {
        return None;
    }
    match loaded(cells, rva, known_size(cells, sizes, extent_of(cells, row))) {
        Some(_) => None,
        None => Some(Place::Row(row)),
    }
}

/// The first such row, by the sizes of the types.
#[tactic(auto, using(enc_base::proofs::First::first_steps))]
fn first_fault(cells: &Cells<'_>, sizes: &[Option<u32>]) -> Option<Place>
    requires bytes { IsWithin (part cells.now.bytes.now cells.now.tables.now.span) cells.now.tables.now }
    requires sizes { (t : ℕ) → t < length sizes.now
        → slice_index_or sizes.now t None ≡ size_of_class (source_seen cells.now) t }
    ensures { result ≡ first_below (field_fault_at (source_seen cells.now)) (rows_of cells.now.tables.now field_rva) }
{
    for r in 0..cells.tables.count(FIELD_RVA) {
        match field_fault_at(cells, sizes, r) {
            Some(place) => return Some(place),
            None => {}
        }
    }
    None
}

/// F5: the first row of FieldRVA with an RVA, but no bytes of its field's size there. It isn't asked
/// of bare metadata. It goes over TypeDef, ClassLayout and FieldRVA once where no index is bad, and
/// takes memory only where FieldRVA has rows.
#[tactic(auto, using(enc_base::proofs::First::first_none), unfolding(crate::specs::Base::field_fault))]
pub fn field_fault(alloc: Global, cells: &Cells<'_>) -> Result<Option<Place>, AllocError>
    requires { IsWithin (part cells.now.bytes.now cells.now.tables.now.span) cells.now.tables.now }
    ensures { IfOk result (λ p. p ≡ field_fault (source_seen cells.now)) }
{
    if cells.container.bare || cells.tables.count(FIELD_RVA) == 0 {
        return Ok(None);
    }
    match class_sizes(alloc, cells) {
        Err(error) => Err(error),
        Ok(sizes) => Ok(first_fault(cells, &sizes)),
    }
}
