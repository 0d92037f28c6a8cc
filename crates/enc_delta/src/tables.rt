//! The tables of a delta: their rows against their tokens, and which may have rows.
ghost use Rattle.std.specs.Prelude.{◌≡◌, ℕ, ◌<◌, length, slice_index};
ghost use Rattle.enc_delta.specs.Delta.{listed, of_table};
ghost use Rattle.enc_delta.specs.Rules.{rows_for, may_change, uneven_at, closed_at, uneven_table, closed_table};

use crate::context::Context;
use crate::delta::Delta;
use enc_base::tables::{
    ASSEMBLY_REF, ENC_LOG, ENC_MAP, EVENT, EVENT_MAP, FIELD, GENERIC_PARAM_CONSTRAINT, IMPL_MAP,
    METHOD_DEF, MODULE, NESTED_CLASS, PARAM, PROPERTY, PROPERTY_MAP, TYPE_DEF, TYPE_REF,
};
use enc_base::{Place, Token};
use enc_plain::ChainView;

/// How many of the tokens are of each table.
fn table_counts(tokens: &[Token]) -> [usize; 256]
    ensures { (t : ℕ) → t < 256 → slice_index result t ≡ length (of_table t tokens.now) }
{
    let mut counts = [0; 256];
    for i in 0..tokens.len() {
        let table = tokens[i].table as usize;
        counts[table] += 1;
    }
    counts
}

/// The rows of a table that tokens stand for.
fn rows_for(delta: &Delta, table: u8) -> u32
    ensures { result ≡ rows_for delta.now table }
{
    match table {
        MODULE | ENC_LOG | ENC_MAP => 0,
        _ => delta.count(table),
    }
}

/// What is wrong with a table: its rows and its tokens differ in number.
#[tactic(auto, unfolding(crate::specs::Rules::uneven_at))]
fn uneven_at(delta: &Delta, counts: &[usize; 256], table: u8) -> Option<Place>
    requires { (t : ℕ) → t < 256 → slice_index counts.now t ≡ length (of_table t (listed delta.now)) }
    ensures { result ≡ uneven_at delta.now table }
{
    if rows_for(delta, table) as usize == counts[table as usize] {
        None
    } else {
        Some(Place::Row(Token { table, row: 0 }))
    }
}

/// The first table whose rows and tokens differ in number.
#[tactic(auto, using(enc_base::proofs::First::first_steps), unfolding(crate::specs::Rules::uneven_table))]
fn first_uneven(delta: &Delta, tokens: &[Token]) -> Option<Place>
    requires { tokens.now ≡ listed delta.now }
    ensures { result ≡ uneven_table delta.now }
{
    let counts = table_counts(tokens);
    for table in 0..256_u16 {
        match uneven_at(delta, &counts, table as u8) {
            Some(place) => return Some(place),
            None => {}
        }
    }
    None
}

/// The first table whose rows and tokens differ in number.
pub fn uneven_table<C: ChainView>(context: &Context<'_, C>) -> Option<Place>
    ensures { result ≡ uneven_table context.now.delta }
{
    first_uneven(context.delta, context.tokens())
}

/// A delta may have rows in this table.
pub fn may_change(table: u8) -> bool
    ensures { result ≡ may_change table }
{
    matches!(
        table,
        MODULE | TYPE_REF
            | TYPE_DEF
            | FIELD
            | METHOD_DEF
            | PARAM..=EVENT_MAP
            | EVENT
            | PROPERTY_MAP
            | PROPERTY..=IMPL_MAP
            | ENC_LOG
            | ENC_MAP
            | ASSEMBLY_REF
            | NESTED_CLASS..=GENERIC_PARAM_CONSTRAINT
    )
}

/// What is wrong with a table: it has rows, and a delta may have none there.
#[tactic(auto, unfolding(crate::specs::Rules::closed_at))]
fn closed_at(delta: &Delta, table: u8) -> Option<Place>
    ensures { result ≡ closed_at delta.now table }
{
    if delta.count(table) == 0 || may_change(table) {
        None
    } else {
        Some(Place::Row(Token { table, row: 0 }))
    }
}

/// The first table with rows that a delta may not have.
#[tactic(auto, using(enc_base::proofs::First::first_steps), unfolding(crate::specs::Rules::closed_table))]
fn first_closed(delta: &Delta) -> Option<Place>
    ensures { result ≡ closed_table delta.now }
{
    for table in 0..256_u16 {
        match closed_at(delta, table as u8) {
            Some(place) => return Some(place),
            None => {}
        }
    }
    None
}

/// The first table with rows that a delta may not have.
pub fn closed_table<C: ChainView>(context: &Context<'_, C>) -> Option<Place>
    ensures { result ≡ closed_table context.now.delta }
{
    first_closed(context.delta)
}
