//! The tokens from which the depths of TypeRefs and TypeSpecs count.
ghost use Rattle.std.specs.Prelude.{◌≡◌, ℕ, ◌+◌, ◌++◌, ◌∷◌, [], ◌<◌, Some, slice_index, true, IfOk};
ghost use Rattle.enc_reference_depth.specs.Edges.{AreEdges, AreFew, deep_count, edge_of, edges_in, has_depth};
ghost use Rattle.enc_plain.specs.Module.{cells_of, has_row};
ghost use Rattle.enc_plain.specs.Rows.{bytes_at};
ghost use Rattle.enc_plain.specs.Sound.{IsSound, row_count};
ghost use Rattle.enc_base.specs.Tables.{type_ref, type_spec};
ghost use Rattle.enc_sigs.specs.Grammar.{is_coded, sig_in};
ghost use Rattle.enc_sigs.specs.Tree.{forest_of};
ghost use Rattle.enc_sigs.specs.declared.kind.SigKind.TheVariants.{TypeSpec};

use enc_base::tables::{TYPE_REF, TYPE_SPEC};
use enc_base::{Counts, Token};
use enc_plain::ModuleView;
use enc_schema::columns::{TYPE_REF_RESOLUTION_SCOPE, TYPE_SPEC_SIGNATURE};
use enc_sigs::{Elem, Sig, SigFault, SigKind, read_sig};
use std::alloc::{AllocError, Global};

/// A token from which the depth of a row counts: the row by its place among those of TypeRef and,
/// behind them, those of TypeSpec.
#[derive(Clone, Copy, Debug, PartialEq, Eq)]
pub(crate) struct Edge {
    pub(crate) place: u32,
    pub(crate) token: Token,
}

/// Whether the token has a depth.
fn has_depth(token: Token) -> bool
    ensures { result ≡ has_depth token }
{
    token.table == TYPE_REF || token.table == TYPE_SPEC
}

/// Adds a token from which a depth counts.
fn push_edge(place: u32, token: Token, edges: &mut Vec<Edge>) -> Result<(), AllocError>
    ensures { IfOk result (λ _. edges.new.items ≡ edges.old.items ++ edge_of place token) }
{
    if has_depth(token) {
        edges.push(Edge { place, token })?;
    }
    Ok(())
}

/// Adds the tokens of a type and of those in it.
fn push_type_edges(place: u32, elem: &Elem, edges: &mut Vec<Edge>) -> Result<(), AllocError>
    requires few { AreFew (forest_of (elem.now ∷ [])) }
    ensures { IfOk result (λ _. edges.new.items ≡ edges.old.items ++ edges_in place (forest_of (elem.now ∷ []))) }
{
    push_edge(place, elem.token, edges)?;
    let mut i = 0;
    while let Some(kid) = elem.kid(i) {
        push_type_edges(place, kid, edges)?;
        i += 1;
    }
    Ok(())
}

/// Adds the tokens of a signature.
fn push_signature_edges(place: u32, sig: &Sig, edges: &mut Vec<Edge>) -> Result<(), AllocError>
    requires few { AreFew (forest_of sig.now.parts) }
    ensures { IfOk result (λ _. edges.new.items ≡ edges.old.items ++ edges_in place (forest_of sig.now.parts)) }
{
    for i in 0..sig.count() {
        match sig.part(i) {
            Some(part) => push_type_edges(place, part, edges)?,
            None => unreachable!(),
        }
    }
    Ok(())
}

/// How many rows each table has.
fn counts_of<V: ModuleView>(view: &V) -> Counts
    ensures { (t : ℕ) → t < 64 → slice_index result.rows t ≡ row_count (V.meaning view.now) t }
{
    let mut counts = Counts { rows: [0; 64] };
    for table in 0..64_u8 {
        counts.rows[table as usize] = view.count(table);
    }
    counts
}

/// The signature of a TypeSpec.
fn spec_sig<V: ModuleView>(
    alloc: Global,
    view: &V,
    row: Token,
    counts: &Counts,
) -> Result<Sig, AllocError>
    requires sound { IsSound (V.meaning view.now) }
    requires row { has_row (V.meaning view.now) row ≡ true }
    requires table { row.table ≡ type_spec }
    requires counts { (t : ℕ) → t < 64 → slice_index counts.now.rows t ≡ row_count (V.meaning view.now) t }
    ensures read { IfOk result (λ s.
        sig_in is_coded TypeSpec (bytes_at (cells_of (V.meaning view.now)) row 0) ≡ Some s) }
    ensures few { IfOk result (λ s. AreFew (forest_of s.parts)) }
{
    let blob = view.blob(row, TYPE_SPEC_SIGNATURE);
    match read_sig(alloc, SigKind::TypeSpec, blob, counts) {
        Ok(sig) => Ok(sig),
        Err(SigFault::Memory) => Err(AllocError),
        Err(SigFault::Grammar) => unreachable!(),
    }
}

/// The scopes of TypeRefs that are TypeRefs themselves.
fn scope_edges<V: ModuleView>(alloc: Global, view: &V) -> Result<Vec<Edge>, AllocError>
    requires sound { IsSound (V.meaning view.now) }
    ensures { IfOk result (λ e. AreEdges (V.meaning view.now) (row_count (V.meaning view.now) type_ref) e.items) }
{
    let mut edges = Vec::new(alloc);
    for n in 0..view.count(TYPE_REF) {
        let row = Token {
            table: TYPE_REF,
            row: n + 1,
        };
        push_edge(n, view.refer(row, TYPE_REF_RESOLUTION_SCOPE), &mut edges)?;
    }
    Ok(edges)
}

/// All tokens from which depths count.
pub(crate) fn all_edges<V: ModuleView>(alloc: Global, view: &V) -> Result<Vec<Edge>, AllocError>
    requires sound { IsSound (V.meaning view.now) }
    ensures { IfOk result (λ e. AreEdges (V.meaning view.now) (deep_count (V.meaning view.now)) e.items) }
{
    let counts = counts_of(view);
    let refs = view.count(TYPE_REF);
    let mut edges = scope_edges(alloc, view)?;
    for n in 0..view.count(TYPE_SPEC) {
        let row = Token {
            table: TYPE_SPEC,
            row: n + 1,
        };
        let sig = spec_sig(alloc, view, row, &counts)?;
        push_signature_edges(refs + n, &sig, &mut edges)?;
    }
    Ok(edges)
}
