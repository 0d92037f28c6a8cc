//! EncMap of a delta (System.Reflection.Metadata's EditAndContinueMapEntry).
ghost use Rattle.std.specs.Prelude.{◌≡◌, ◌+◌, ◌-◌, ◌^◌, ◌<◌, [], ◌∷◌, ◌++◌, map, OnOk};
ghost use Rattle.enc_rows.specs.Written.{rows_at, count_at};
ghost use Rattle.enc_rules.specs.Listed.{count_after};
ghost use Rattle.enc_base.specs.Tables.{enc_map};
ghost use Rattle.enc_list_delta.specs.Delta.{map_written};
ghost use Rattle.enc_list_delta.specs.Holds.{MayFollow, heaps_written, token_numbers};
ghost use Rattle.enc_writer.specs.Writing.{MethodsPlaced, OthersStay};
ghost use Rattle.enc_writer.specs.RowsWriting.{joined_with};
ghost use Rattle.enc_writer.specs.MapWriting.{TablesMapped, RowsMapped};
ghost use Rattle.enc_meta.specs.BuiltLaws.{heaps_joined};

use crate::bodies::Bodies;
use crate::rows::{first_row, is_edited_row};
use enc_base::Token;
use enc_base::tables::ENC_MAP;
use enc_plain::ChainView;
use enc_rows::TableBuilder;
use enc_rules::Context;
use std::alloc::AllocError;

/// Adds the token of a row.
#[tactic(auto, using(crate::proofs::MapSays::map_columns, crate::proofs::MapSays::map_width))]
fn push_token(row: Token, tables: &mut TableBuilder) -> Result<(), AllocError>
    requires row { row.row < 2 ^ 24 }
    requires few { count_at tables.old enc_map < 2 ^ 24 - 1 }
    ensures pushed { OnOk result (rows_at tables.new enc_map ≡ rows_at tables.old enc_map ++ token_numbers row ∷ []) }
    ensures others { OnOk result (OthersStay enc_map tables.old tables.new) }
{
    tables.push(ENC_MAP, &[row.number()])
}

/// Adds the token of the next row of a table, where edits are about it.
fn push_if_edited<C: ChainView>(
    context: &Context<'_, C>,
    bodies: &Bodies,
    table: u8,
    n: u32,
    tables: &mut TableBuilder,
) -> Result<(), AllocError>
    requires may { MayFollow context.now.chain context.now.list }
    requires bodies { MethodsPlaced context.now.chain context.now.list
        (joined_with context.now.chain context.now.list) bodies.now.il.items bodies.now.methods }
    requires there { n < count_after context.now.chain context.now.list.edits table }
    requires so_far { RowsMapped context.now.chain context.now.list table n (rows_at tables.old enc_map) }
    ensures says { OnOk result (RowsMapped context.now.chain context.now.list table (n + 1)
        (rows_at tables.new enc_map)) }
    ensures others { OnOk result (OthersStay enc_map tables.old tables.new) }
{
    let row = Token { table, row: n + 1 };
    if !is_edited_row(context, bodies, row) {
        return Ok(());
    }
    push_token(row, tables)?;
    Ok(())
}

/// Adds the tokens of the rows of a table that edits are about.
fn push_tokens<C: ChainView>(
    context: &Context<'_, C>,
    bodies: &Bodies,
    table: u8,
    tables: &mut TableBuilder,
) -> Result<(), AllocError>
    requires may { MayFollow context.now.chain context.now.list }
    requires bodies { MethodsPlaced context.now.chain context.now.list
        (joined_with context.now.chain context.now.list) bodies.now.il.items bodies.now.methods }
    requires table { table < 64 }
    requires so_far { TablesMapped context.now.chain context.now.list table (rows_at tables.old enc_map) }
    ensures says { OnOk result (TablesMapped context.now.chain context.now.list (table + 1)
        (rows_at tables.new enc_map)) }
    ensures others { OnOk result (OthersStay enc_map tables.old tables.new) }
{
    let count = context.counts().rows[table as usize];
    for n in first_row(context, table)..count {
        push_if_edited(context, bodies, table, n, tables)?;
    }
    Ok(())
}

/// Adds EncMap: the rows that the edits are about, by table and row.
pub(crate) fn push_map<C: ChainView>(
    context: &Context<'_, C>,
    bodies: &Bodies,
    tables: &mut TableBuilder,
) -> Result<(), AllocError>
    requires may { MayFollow context.now.chain context.now.list }
    requires bodies { MethodsPlaced context.now.chain context.now.list (heaps_joined context.now.chain.heaps
        (heaps_written context.now.chain context.now.list)) bodies.now.il.items bodies.now.methods }
    requires none { rows_at tables.old enc_map ≡ [] }
    ensures map { OnOk result (rows_at tables.new enc_map
        ≡ map token_numbers (map_written context.now.chain context.now.list.edits)) }
    ensures others { OnOk result (OthersStay enc_map tables.old tables.new) }
{
    for table in 0..64 {
        push_tokens(context, bodies, table, tables)?;
    }
    Ok(())
}
