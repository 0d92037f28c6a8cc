//! All rows of a delta, and the metadata root that holds them (ECMA-335 II.24.2).
ghost use Rattle.std.specs.Prelude.{◌≡◌, IfOk};
ghost use Rattle.enc_meta.specs.BuiltLaws.{heaps_joined};
ghost use Rattle.enc_list_delta.specs.Holds.{MayFollow, heaps_written, HoldDelta};
ghost use Rattle.enc_list_delta.specs.Laws.{metadata_written};
ghost use Rattle.enc_writer.specs.Stands.{NamesGuids};
ghost use Rattle.enc_writer.specs.Writing.{AreRowsWritten, IsMetadata, MethodsPlaced};

use crate::bodies::Bodies;
use crate::log::push_log;
use crate::map::push_map;
use crate::module_row::push_module;
use crate::rows::push_tables;
use enc_emit::{RootBuilder, RootForm};
use enc_meta::HeapBuilder;
use enc_plain::ChainView;
use enc_rows::TableBuilder;
use enc_rules::Context;
use std::alloc::{AllocError, Global};

/// The rows of all tables.
fn tables_of<C: ChainView>(
    alloc: Global,
    context: &Context<'_, C>,
    heaps: &mut HeapBuilder,
    bodies: &Bodies,
) -> Result<TableBuilder, AllocError>
    requires may { MayFollow context.now.chain context.now.list }
    requires names { NamesGuids context.now.chain }
    requires heaps { heaps.old ≡ heaps_written context.now.chain context.now.list }
    requires bodies { MethodsPlaced context.now.chain context.now.list (heaps_joined context.now.chain.heaps
        (heaps_written context.now.chain context.now.list)) bodies.now.il.items bodies.now.methods }
    ensures written { IfOk result (λ t. AreRowsWritten context.now.chain context.now.list bodies.now.il.items t) }
    ensures same { heaps.new ≡ heaps.old }
{
    let mut tables = TableBuilder::begin(alloc);
    push_tables(alloc, context, heaps, bodies, &mut tables)?;
    push_module(context, heaps, &mut tables)?;
    push_log(context, &mut tables)?;
    push_map(context, bodies, &mut tables)?;
    Ok(tables)
}

/// The metadata: the root of a delta, whose indices take four bytes.
pub(crate) fn metadata_of<C: ChainView>(
    alloc: Global,
    context: &Context<'_, C>,
    heaps: HeapBuilder,
    bodies: &Bodies,
) -> Result<Vec<u8>, AllocError>
    requires may { MayFollow context.now.chain context.now.list }
    requires names { NamesGuids context.now.chain }
    requires heaps { heaps ≡ heaps_written context.now.chain context.now.list }
    requires bodies { MethodsPlaced context.now.chain context.now.list (heaps_joined context.now.chain.heaps
        (heaps_written context.now.chain context.now.list)) bodies.now.il.items bodies.now.methods }
    ensures { IfOk result (λ v. IsMetadata context.now.chain context.now.list bodies.now.il.items v.items) }
{
    let mut heaps = heaps;
    let tables = tables_of(alloc, context, &mut heaps, bodies)?;
    heaps.laws();
    tables.laws();
    let root = RootBuilder::of(heaps, tables);
    let bytes = root.finish(alloc, RootForm::Delta)?;
    Ok(bytes)
}
