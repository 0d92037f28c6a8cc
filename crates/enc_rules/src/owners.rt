//! The owners of added rows, and the tables in which rows may be added.
ghost use Rattle.std.specs.Prelude.{◌≡◌, ◌<◌, ◌^◌, length, IfSome};
ghost use Rattle.enc_rules.specs.First.{first_such};
ghost use Rattle.enc_rules.specs.Known.{listed_counts};
ghost use Rattle.enc_rules.specs.Rules.{owner_breaks, owner_is_missing, table_breaks, table_is_closed};

use crate::context::Context;
use enc_base::tables::{ENC_LOG, ENC_MAP, MODULE};
use enc_delta::may_change;
use enc_edit_list::Edit;
use enc_plain::ChainView;
use enc_schema::{is_child_table, owner_table};

/// The edit adds a row whose owner isn't one of its owners' table.
fn owner_breaks<C: ChainView>(context: &Context<'_, C>, edit: &Edit) -> bool
    ensures { result ≡ owner_breaks (listed_counts context.now) edit.now }
{
    match edit {
        Edit::Add { table, owner, .. } => {
            is_child_table(*table) && !context.is_row_of(owner_table(*table), *owner)
        }
        Edit::Body { .. } => false,
    }
}

/// The first edit that adds a row whose owner isn't there.
#[tactic(auto, using(enc_base::proofs::First::first_steps))]
pub fn owner_is_missing<C: ChainView>(context: &Context<'_, C>) -> Option<u32>
    ensures first { result ≡ first_such (owner_is_missing context.now.chain context.now.list)
        (length context.now.list.edits) }
    ensures few { IfSome result (λ n. n < 2 ^ 24) }
{
    let edits = context.edits();
    for k in 0..edits.len() {
        if owner_breaks(context, &edits[k]) {
            return Some(k as u32);
        }
    }
    None
}

/// The edit adds a row to a table that a delta may not change, or to Module, EncLog or EncMap.
fn table_breaks(edit: &Edit) -> bool
    ensures { result ≡ table_breaks edit.now }
{
    match edit {
        Edit::Add { table, .. } => {
            !may_change(*table) || *table == MODULE || *table == ENC_LOG || *table == ENC_MAP
        }
        Edit::Body { .. } => false,
    }
}

/// The first edit that adds a row to a table that may not get one.
#[tactic(auto, using(enc_base::proofs::First::first_steps))]
pub fn table_is_closed<C: ChainView>(context: &Context<'_, C>) -> Option<u32>
    ensures first { result ≡ first_such (table_is_closed context.now.chain context.now.list)
        (length context.now.list.edits) }
    ensures few { IfSome result (λ n. n < 2 ^ 24) }
{
    let edits = context.edits();
    for k in 0..edits.len() {
        if table_breaks(&edits[k]) {
            return Some(k as u32);
        }
    }
    None
}
