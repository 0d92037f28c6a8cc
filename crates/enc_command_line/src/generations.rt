//! The listing: a line for each generation, and under a delta's a line for each token of its map.
ghost use Rattle.std.specs.Prelude.{◌≡◌, ◌++◌, ◌∷◌, ◌<◌, ◌≤◌, ◌+◌, ◌-◌, [], OnOk, OnErr, Some, length, drop, decimal, flat_map, codes};
ghost use Rattle.enc_plain.specs.Module.{rows_in};
ghost use Rattle.enc_image.specs.Base.{module_in};
ghost use Rattle.enc_delta.specs.Delta.{listed};
ghost use Rattle.enc_delta.specs.Rules.{is_insert, own_guid};
ghost use Rattle.enc_meta.specs.Heaps.{lengths_of};
ghost use Rattle.enc_agg.specs.Place.{delta_at};
ghost use Rattle.enc_agg.specs.Extend.{chain_with};
ghost use Rattle.enc_command_line.specs.Listing.{counts_text, all_rows, chain_before, base_text, at_text, change_text, token_line, head_text, delta_text, lines_upto, listing_of};

use enc_agg::Aggregate;
use enc_base::Token;
use enc_delta::Delta;
use enc_meta::HeapLengths;
use enc_plain::{ChainView, RowPlace};
use enc_text::{push_decimal, push_guid, push_long, push_str, push_token};
use std::alloc::{AllocError, Global};

/// Appends ` rows N strings A users B blobs C guids D`.
#[tactic(auto, unfolding(crate::specs::Listing::counts_text))]
fn push_counts(
    alloc: Global,
    rows: u64,
    lengths: HeapLengths,
    out: &mut Vec<u8>,
) -> Result<(), AllocError>
    ensures { OnOk result (out.new.items ≡ out.old.items ++ counts_text rows lengths) }
{
    push_str(out, " rows ")?;
    push_long(alloc, out, rows)?;
    push_str(out, " strings ")?;
    push_decimal(alloc, out, lengths.strings)?;
    push_str(out, " users ")?;
    push_decimal(alloc, out, lengths.users)?;
    push_str(out, " blobs ")?;
    push_decimal(alloc, out, lengths.blobs)?;
    push_str(out, " guids ")?;
    push_decimal(alloc, out, lengths.guids)?;
    push_str(out, "\n")
}

/// Appends `G.R`.
fn push_place(alloc: Global, place: RowPlace, out: &mut Vec<u8>) -> Result<(), AllocError>
    ensures { OnOk result (out.new.items ≡ out.old.items ++ at_text place) }
{
    push_decimal(alloc, out, place.generation)?;
    push_str(out, ".")?;
    push_decimal(alloc, out, place.row)
}

/// The word for a row that is new, and for one that was there before.
fn change_text(is_new: bool) -> &'static str
    ensures { result.now ≡ change_text is_new }
{
    if is_new { " insert " } else { " update " }
}

/// Whether a token of a generation's map was no row before.
#[tactic(auto, unfolding(enc_delta::specs::Rules::is_insert))]
fn is_new(agg: &Aggregate, generation: u32, token: Token) -> bool
    requires low { 0 < generation }
    requires high { generation ≤ length agg.now.deltas }
    ensures { result ≡ is_insert (chain_before agg.now generation) token }
{
    token.row == 0 || token.row > agg.count_at(generation - 1, token.table)
}

/// Appends the line of a token of a generation's map.
#[tactic(auto, unfolding(crate::specs::Listing::token_line))]
fn push_token_line(
    alloc: Global,
    agg: &Aggregate,
    generation: u32,
    delta: &Delta,
    token: Token,
    out: &mut Vec<u8>,
) -> Result<(), AllocError>
    requires low { 0 < generation }
    requires high { generation ≤ length agg.now.deltas }
    ensures { OnOk result (out.new.items
        ≡ out.old.items ++ token_line (chain_before agg.now generation) generation delta.now agg.now.deltas token) }
{
    push_str(out, "  ")?;
    push_token(out, token)?;
    push_str(out, change_text(is_new(agg, generation, token)))?;
    let row = delta.place(token).unwrap_or(0);
    push_place(alloc, RowPlace { generation, row }, out)?;
    push_str(out, " newest ")?;
    push_place(alloc, agg.place(token), out)?;
    push_str(out, "\n")
}

/// Appends the lines of tokens.
fn push_tokens(
    alloc: Global,
    agg: &Aggregate,
    generation: u32,
    delta: &Delta,
    tokens: &[Token],
    out: &mut Vec<u8>,
) -> Result<(), AllocError>
    requires low { 0 < generation }
    requires high { generation ≤ length agg.now.deltas }
    ensures { OnOk result (out.new.items ≡ out.old.items ++ flat_map
        (token_line (chain_before agg.now generation) generation delta.now agg.now.deltas) tokens.now) }
{
    for i in 0..tokens.len() {
        push_token_line(alloc, agg, generation, delta, tokens[i], out)?;
    }
    Ok(())
}

/// The EncId of a generation's delta.
fn id_of(agg: &Aggregate, generation: u32, delta: &Delta) -> [u8; 16]
    requires low { 0 < generation }
    requires delta { Some delta.now ≡ delta_at agg.now.deltas generation }
    ensures { result ≡ own_guid (chain_before agg.now generation) delta.now 3 }
{
    let _ = delta;
    agg.enc_id(generation)
}

/// The lengths of the base's heaps.
fn lengths_of_base(agg: &Aggregate) -> HeapLengths
    ensures { result ≡ lengths_of agg.now.base.heaps }
{
    agg.heap_lengths(0)
}

/// Appends the first line of a delta.
#[tactic(auto, unfolding(crate::specs::Listing::head_text))]
fn push_head(
    alloc: Global,
    generation: u32,
    id: [u8; 16],
    rows: u64,
    lengths: HeapLengths,
    out: &mut Vec<u8>,
) -> Result<(), AllocError>
    ensures { OnOk result (out.new.items ≡ out.old.items ++ head_text generation id rows lengths) }
{
    push_str(out, "generation ")?;
    push_decimal(alloc, out, generation)?;
    push_str(out, " ")?;
    push_guid(out, id)?;
    push_counts(alloc, rows, lengths, out)
}

/// Appends the lines of a delta with these tokens in its map.
fn push_listed(
    alloc: Global,
    agg: &Aggregate,
    generation: u32,
    delta: &Delta,
    tokens: &[Token],
    out: &mut Vec<u8>,
) -> Result<(), AllocError>
    requires low { 0 < generation }
    requires high { generation ≤ length agg.now.deltas }
    requires delta { Some delta.now ≡ delta_at agg.now.deltas generation }
    requires tokens { tokens.now ≡ listed delta.now }
    ensures { OnOk result (out.new.items
        ≡ out.old.items ++ delta_text (chain_before agg.now generation) generation delta.now agg.now.deltas) }
{
    let id = id_of(agg, generation, delta);
    let rows = tokens.len() as u64;
    push_head(alloc, generation, id, rows, delta.lengths(), out)?;
    push_tokens(alloc, agg, generation, delta, tokens, out)
}

/// Appends the lines of a delta.
fn push_delta(
    alloc: Global,
    agg: &Aggregate,
    generation: u32,
    delta: &Delta,
    out: &mut Vec<u8>,
) -> Result<(), AllocError>
    requires low { 0 < generation }
    requires high { generation ≤ length agg.now.deltas }
    requires delta { Some delta.now ≡ delta_at agg.now.deltas generation }
    ensures { OnOk result (out.new.items
        ≡ out.old.items ++ delta_text (chain_before agg.now generation) generation delta.now agg.now.deltas) }
{
    let tokens = delta.tokens(alloc)?;
    push_listed(alloc, agg, generation, delta, &tokens, out)
}

/// How many rows the base has in all tables.
fn rows_of_base(agg: &Aggregate) -> u64
    ensures { result ≡ all_rows (module_in agg.now.base) }
{
    let mut rows = 0;
    for table in 0..0x2d {
        rows += u64::from(agg.count_at(0, table));
    }
    rows
}

/// Appends the line of the base.
fn push_base(alloc: Global, agg: &Aggregate, out: &mut Vec<u8>) -> Result<(), AllocError>
    ensures { OnOk result (out.new.items ≡ out.old.items ++ base_text agg.now.base) }
{
    push_str(out, "generation 0")?;
    push_counts(alloc, rows_of_base(agg), lengths_of_base(agg), out)
}

/// The lines of all generations behind those of a text.
fn push_all(alloc: Global, agg: &Aggregate, out: &mut Vec<u8>) -> Result<(), AllocError>
    ensures { OnOk result (out.new.items ≡ out.old.items ++ listing_of agg.now.base agg.now.deltas) }
{
    push_base(alloc, agg, out)?;
    for g in 1..agg.generations() {
        match agg.delta(g) {
            Some(delta) => push_delta(alloc, agg, g, delta, out)?,
            None => unreachable!(),
        }
    }
    Ok(())
}

/// Appends the listing of an aggregate: a line for each generation, and under a delta's one for each token of its
/// EncMap. Where memory runs out, nothing is appended.
pub fn listing(alloc: Global, agg: &Aggregate, out: &mut Vec<u8>) -> Result<(), AllocError>
    ensures text { OnOk result (out.new.items ≡ out.old.items ++ listing_of agg.now.base agg.now.deltas) }
    ensures memory { OnErr result (out.new.items ≡ out.old.items) }
{
    let mut text = Vec::new(alloc);
    push_all(alloc, agg, &mut text)?;
    out.extend_from_slice(&text)
}
