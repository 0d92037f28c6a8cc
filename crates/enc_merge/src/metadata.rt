//! The metadata of the delta that stands for two (ECMA-335 II.24.2).
ghost use Rattle.std.specs.Prelude.{true, IfOk};
ghost use Rattle.enc_reference_depth.specs.Depth.{IsShallow};
ghost use Rattle.enc_merge.specs.Writing.{AreOfEither, AreBothTables, IsMetadataOfBoth, MetadataIsRead, chain_of_both};

use crate::heaps::heaps_merged;
use crate::last::Last;
use crate::lists::{push_log, push_map};
use crate::module_row::push_module;
use crate::rows::push_rows;
use enc_emit::write_root;
use enc_rows::{TableBuilder, heap_bits_law};
use std::alloc::{AllocError, Global};

/// The rows of all tables.
fn tables_merged(
    alloc: Global,
    last: &Last<'_>,
    numbers: &[u32],
) -> Result<TableBuilder, AllocError>
    requires tokens { AreOfEither last.now.first last.now.second numbers.now }
    requires shallow { IsShallow (chain_of_both last.now).plain }
    ensures { IfOk result (λ t. AreBothTables last.now numbers.now t) }
{
    last.aggregate();
    let mut tables = TableBuilder::begin(alloc);
    push_rows(alloc, last, numbers, &mut tables)?;
    push_module(last, &mut tables)?;
    push_log(alloc, last.first, last.second, &mut tables)?;
    push_map(numbers, &mut tables)?;
    Ok(tables)
}

/// The metadata: the root of a delta, whose indices take four bytes.
pub(crate) fn metadata_merged(
    alloc: Global,
    last: &Last<'_>,
    numbers: &[u32],
) -> Result<Vec<u8>, AllocError>
    requires tokens { AreOfEither last.now.first last.now.second numbers.now }
    requires shallow { IsShallow (chain_of_both last.now).plain }
    ensures { IfOk result (λ v. IsMetadataOfBoth last.now v.items) }
{
    last.aggregate();
    heap_bits_law();
    let tables = tables_merged(alloc, last, numbers)?;
    tables.laws();
    let flags = tables.heap_bits();
    let stream = tables.finish(alloc, true, flags)?;
    let heaps = heaps_merged(alloc, last)?;
    let root = write_root(alloc, &stream, &heaps, true)?;
    Ok(root)
}

/// The metadata is read as a delta that says what the two say.
pub(crate) fn metadata_is_read_law()
    ensures { MetadataIsRead }
{}
