//! The weight of a module: a sum that what is written of it doesn't pass. Sums stop at the limit.
ghost use Rattle.std.specs.Prelude.{◌≡◌, ◌+◌, ◌<◌, ◌≤◌, ◌^◌, min, is_some, length, sum_by, IsTrue, IfOk, OnOk};
ghost use Rattle.enc_base.specs.Token.{nth_row};
ghost use Rattle.enc_il.specs.Seen.{all_sections};
ghost use Rattle.enc_opcodes.specs.Clause.{clauses_of};
ghost use Rattle.enc_plain.specs.Module.{cell_of};
ghost use Rattle.enc_plain.specs.Sound.{IsSound, row_count};
ghost use Rattle.enc_rewriter.specs.Standing.{bodies_before, fields_before, row_weights_before, AreWeighed};
ghost use Rattle.enc_rewriter.specs.Values.{no_starts};
ghost use Rattle.enc_rewriter.specs.Weight.{column_weight as weight_of_column, row_weight as weight_of_row, body_weight as weight_of_body, field_weight as weight_of_field, rows_weight as weight_of_rows, bodies_weight as weight_of_bodies, fields_weight as weight_of_fields, module_weight as weight_of_module, most_weight};
ghost use Rattle.enc_base.specs.Tables.{method_def, field_rva};

use crate::module_values::ModuleValues;
use enc_base::Token;
use enc_base::tables::{FIELD_RVA, METHOD_DEF};
use enc_il::{behind_sections, section_front};
use enc_plain::ModuleView;
use enc_schema::{Column, columns_of, is_child_table};
use std::alloc::{AllocError, Global};
use std::collections::BTreeMap;

/// The least weight that isn't written.
pub(crate) const MOST: u64 = 0x8000_0000;

/// The number, or the limit where it is less.
fn capped(n: u64) -> u64
    ensures capped { result ≡ min most_weight n }
    ensures most { result ≤ most_weight }
{
    n.min(MOST)
}

/// The weight of a column's number.
fn column_weight(column: Column) -> u64
    ensures weight { result ≡ weight_of_column column }
    ensures few { result ≤ 4 }
{
    match column {
        Column::Num8 | Column::Num16 => 2,
        _ => 4,
    }
}

/// The weight of columns.
fn columns_weight(columns: &[Column]) -> u64
    requires { length columns.now ≤ 9 }
    ensures weight { result ≡ sum_by weight_of_column columns.now }
    ensures few { result ≤ 36 }
{
    let mut sum = 0;
    for column in columns {
        sum += column_weight(*column);
    }
    sum
}

/// The weight of a table's row.
#[tactic(auto, unfolding(crate::specs::Weight::row_weight))]
fn row_weight(table: u8) -> u64
    ensures weight { result ≡ weight_of_row table }
    ensures few { result ≤ 40 }
{
    let columns = columns_weight(columns_of(table));
    if is_child_table(table) {
        return columns + 4;
    }
    columns
}

/// The weight of all rows.
#[tactic(auto, using(crate::proofs::Weights::rows_steps))]
fn rows_weight<V: ModuleView>(view: &V) -> u64
    requires { IsSound (V.meaning view.now) }
    ensures weight { result ≡ weight_of_rows (V.meaning view.now) }
    ensures few { result < 2 ^ 40 }
{
    let mut sum = 0;
    for table in 0..64 {
        sum += u64::from(view.count(table)) * row_weight(table);
    }
    sum
}

/// How many clauses sections have, which stand whole.
fn clauses_in_sections(sections: &[u8]) -> u64
    requires { IsTrue (is_some (all_sections sections.now)) }
    ensures { result ≡ min most_weight (length (clauses_of sections.now)) }
{
    let mut sum = 0;
    let mut rest = sections;
    while let Some((section, behind)) = section_front(rest) {
        sum = capped(sum + section.count as u64);
        if !section.more {
            return sum;
        }
        rest = behind;
    }
    sum
}

/// How many clauses a body has. Sections of which one isn't whole have none.
#[tactic(auto, using(enc_il::proofs::Sections::clauses_none, enc_il::proofs::Sections::behind_is))]
fn clauses_of_body(sections: &[u8]) -> u64
    ensures { result ≡ min most_weight (length (clauses_of sections.now)) }
{
    match behind_sections(sections) {
        None => 0,
        Some(_) => clauses_in_sections(sections),
    }
}

/// The weight of a method's body, 0 where it has none. Methods count from 0 here.
fn body_weight<V: ModuleView>(view: &V, n: u32) -> u64
    requires few { n < 2 ^ 24 }
    requires row { n < row_count (V.meaning view.now) method_def }
    ensures { result ≡ min most_weight (weight_of_body (cell_of (V.meaning view.now) (nth_row method_def n) 0)) }
{
    let method = Token {
        table: METHOD_DEF,
        row: n + 1,
    };
    match view.code(method) {
        Some(body) => capped(32 + body.code.len() as u64 + 24 * clauses_of_body(body.sections)),
        None => 0,
    }
}

/// The same. A place whose body is known isn't looked at again, so methods that share a body cost what
/// one does.
fn known_weight<V: ModuleView>(
    view: &V,
    n: u32,
    known: &mut BTreeMap<u64, u64>,
) -> Result<u64, AllocError>
    requires few { n < 2 ^ 24 }
    requires row { n < row_count (V.meaning view.now) method_def }
    requires known { AreWeighed (V.places view.now) known.old }
    ensures weight { IfOk result (λ w. w
        ≡ min most_weight (weight_of_body (cell_of (V.meaning view.now) (nth_row method_def n) 0))) }
    ensures known { OnOk result (AreWeighed (V.places view.now) known.new) }
{
    let place = view.code_place(Token {
        table: METHOD_DEF,
        row: n + 1,
    });
    if let Some(weight) = known.get(&place) {
        return Ok(*weight);
    }
    let weight = body_weight(view, n);
    match known.insert(place, weight) {
        Ok(_) => Ok(weight),
        Err(_) => Err(AllocError),
    }
}

/// The weight of all bodies.
#[tactic(auto, using(crate::proofs::Weights::bodies_steps))]
fn bodies_weight<V: ModuleView>(alloc: Global, view: &V) -> Result<u64, AllocError>
    requires { IsSound (V.meaning view.now) }
    ensures { IfOk result (λ w. w ≡ min most_weight (weight_of_bodies (V.meaning view.now))) }
{
    let mut known = BTreeMap::new(alloc);
    let mut sum = 0;
    for n in 0..view.count(METHOD_DEF) {
        sum = capped(sum + known_weight(view, n, &mut known)?);
    }
    Ok(sum)
}

/// The weight of a row of FieldRVA. Rows count from 0 here.
#[tactic(auto, using(crate::proofs::Weights::field_is))]
fn field_weight<V: ModuleView>(view: &V, n: u32) -> u64
    requires few { n < 2 ^ 24 }
    requires row { n < row_count (V.meaning view.now) field_rva }
    ensures { result ≡ min most_weight (weight_of_field (cell_of (V.meaning view.now) (nth_row field_rva n) 0)) }
{
    let bytes = view.field_bytes(Token {
        table: FIELD_RVA,
        row: n + 1,
    });
    capped(8 + bytes.len() as u64)
}

/// The weight of the initial bytes of all fields.
#[tactic(auto, using(crate::proofs::Weights::fields_steps))]
fn fields_weight<V: ModuleView>(view: &V) -> u64
    requires { IsSound (V.meaning view.now) }
    ensures { result ≡ min most_weight (weight_of_fields (V.meaning view.now)) }
{
    let mut sum = 0;
    for n in 0..view.count(FIELD_RVA) {
        sum = capped(sum + field_weight(view, n));
    }
    sum
}

/// The weight of a module whose values the heaps keep, or the limit where the weight isn't less. Time
/// is linear in the rows, and a body that methods share is looked at once.
#[tactic(auto, unfolding(crate::specs::Weight::module_weight))]
pub(crate) fn module_weight<V: ModuleView>(
    alloc: Global,
    view: &V,
    heaps: &ModuleValues<'_>,
) -> Result<u64, AllocError>
    requires sound { IsSound (V.meaning view.now) }
    requires starts { heaps.now.starts ≡ no_starts }
    ensures { IfOk result (λ w. w ≡ min most_weight (weight_of_module (V.meaning view.now) heaps.now)) }
{
    let bodies = bodies_weight(alloc, view)?;
    let fields = fields_weight(view);
    let rows = rows_weight(view);
    let resources = capped(view.resources().len() as u64);
    let heaps = capped(heaps.size());
    Ok(capped(65536 + rows + heaps + bodies + fields + (8 + resources)))
}
