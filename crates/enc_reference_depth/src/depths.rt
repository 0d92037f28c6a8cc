//! The depths of TypeRefs and TypeSpecs, by rounds over the tokens from which they count.
ghost use Rattle.std.specs.Prelude.{◌≡◌, ℕ, ◌<◌, ◌^◌, slice_index, IfOk};
ghost use Rattle.enc_base.specs.Order.{first_below};
ghost use Rattle.enc_reference_depth.specs.Depth.{most_depth};
ghost use Rattle.enc_reference_depth.specs.Edges.{AreDepths, AreLow, AreNext, IsRaised, deep_row, depth_in};
ghost use Rattle.enc_plain.specs.Sound.{IsSound};

use crate::edges::{Edge, all_edges};
use enc_base::Token;
use enc_base::tables::{TYPE_REF, TYPE_SPEC};
use enc_plain::ModuleView;
use std::alloc::{AllocError, Global};

/// A walk that has counted so many ends there.
const MOST_DEPTH: u8 = 100;

/// The depth at a place, 0 where there is none.
fn depth_at(depths: &[u8], place: usize) -> u8
    ensures { result ≡ slice_index depths.now place }
{
    match depths.get(place) {
        Some(depth) => *depth,
        None => 0,
    }
}

/// The depth of a token, where so many rows are of TypeRef.
#[tactic(auto, unfolding(crate::specs::Edges::depth_in))]
fn depth_in(refs: u32, depths: &[u8], token: Token) -> u8
    ensures { result ≡ depth_in refs depths.now token }
{
    if token.row == 0 {
        return 0;
    }
    match token.table {
        TYPE_REF => depth_at(depths, token.row as usize - 1),
        TYPE_SPEC => depth_at(depths, refs as usize + token.row as usize - 1),
        _ => 0,
    }
}

/// Writes a depth at a place where a smaller one stands.
fn raise(depths: &mut [u8], place: usize, depth: u8)
    ensures { IsRaised place depth depths.old depths.new }
{
    if place >= depths.len() {
        return;
    }
    if depths[place] < depth {
        depths[place] = depth;
    }
}

/// The depths by walks of one step more.
fn next_depths(
    alloc: Global,
    edges: &[Edge],
    refs: u32,
    depths: &[u8],
) -> Result<Vec<u8>, AllocError>
    requires low { AreLow depths.now }
    ensures { IfOk result (λ next. AreNext edges.now refs depths.now next.items) }
{
    let mut next = vec![in alloc; 1; depths.len()]?;
    for i in 0..edges.len() {
        let edge = edges[i];
        let depth = depth_in(refs, depths, edge.token);
        raise(&mut next, edge.place as usize, depth + 1);
    }
    Ok(next)
}

/// The depths of all TypeRefs and, behind them, of all TypeSpecs, by walks of at most 100 steps.
pub(crate) fn all_depths<V: ModuleView>(alloc: Global, view: &V) -> Result<Vec<u8>, AllocError>
    requires sound { IsSound (V.meaning view.now) }
    ensures { IfOk result (λ d. AreDepths (V.meaning view.now) most_depth d.items) }
{
    let refs = view.count(TYPE_REF);
    let edges = all_edges(alloc, view)?;
    let count = refs as usize + view.count(TYPE_SPEC) as usize;
    let mut depths = vec![in alloc; 0; count]?;
    for _step in 0..MOST_DEPTH {
        depths = next_depths(alloc, &edges, refs, &depths)?;
    }
    Ok(depths)
}

/// The first row of a table whose depth isn't below 100; its rows' depths begin at a place.
#[tactic(auto, unfolding(crate::specs::Edges::deep_row))]
pub(crate) fn first_deep_row(depths: &[u8], first: u32, table: u8, count: u32) -> Option<Token>
    requires few { count < 2 ^ 24 }
    ensures { result ≡ first_below (deep_row depths.now first table) count }
{
    for n in 0..count {
        if depth_at(depths, first as usize + n as usize) >= MOST_DEPTH {
            return Some(Token { table, row: n + 1 });
        }
    }
    None
}
