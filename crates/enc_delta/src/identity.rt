//! The Module row of a delta: it belongs to the chain and is the next generation.
ghost use Rattle.std.specs.Prelude.{◌≡◌, ℕ, ◌+◌, ◌≤◌, List, bytes_eq};
ghost use Rattle.std.specs.List.{list_any};
ghost use Rattle.enc_plain.specs.Chain.{mvid_of};
ghost use Rattle.enc_rows.specs.Source.{raw_in};
ghost use Rattle.enc_delta.specs.Rules.{module_token, own_guid, other_module, not_next, other_base, id_taken};

use crate::context::Context;
use crate::delta::Delta;
use crate::joined::guid_after;
use enc_base::{Place, Steps, Token};
use enc_plain::ChainView;
use enc_schema::columns::{MODULE_ENC_BASE_ID, MODULE_ENC_ID, MODULE_GENERATION, MODULE_MVID};
use std::sync::ledger::Ledger;

const MODULE: Token = Token { table: 0, row: 1 };

/// A GUID of the delta's Module row; one that can't be read is nil.
#[tactic(auto, unfolding(crate::specs::Rules::own_guid, enc_meta::specs::Heaps::nil_guid))]
fn own_guid<C: ChainView>(chain: &C, delta: &Delta, column: u8) -> [u8; 16]
    ensures { result ≡ own_guid (C.chain chain.now) delta.now column }
{
    match guid_after(chain, &delta.heaps(), delta.cell(MODULE, column)) {
        Some(guid) => guid,
        None => [0; 16],
    }
}

/// The number of the EncId in the delta's Module row, 0 where it has none. One step at most.
#[tactic(auto, unfolding(enc_rows::specs::Layout::raw_cell, enc_schema::specs::Schema::columns_in))]
fn enc_id_number<L: Ledger>(delta: &Delta, steps: &mut Steps<L>) -> u32
    ensures number { result ≡ raw_in delta.now module_token 3 }
    ensures steps { steps.new ≤ steps.old + 1 }
{
    if delta.count(0) == 0 {
        return 0;
    }
    delta.raw(MODULE, MODULE_ENC_ID, steps)
}

/// The EncId of a delta after its chain, nil where it can't be read. One step at most.
#[tactic(auto, unfolding(crate::specs::Rules::own_guid, enc_meta::specs::Heaps::nil_guid))]
pub fn enc_id_counted<C: ChainView, L: Ledger>(
    chain: &C,
    delta: &Delta,
    steps: &mut Steps<L>,
) -> [u8; 16]
    ensures id { result ≡ own_guid (C.chain chain.now) delta.now 3 }
    ensures steps { steps.new ≤ steps.old + 1 }
{
    let number = enc_id_number(delta, steps);
    match guid_after(chain, &delta.heaps(), number) {
        Some(guid) => guid,
        None => [0; 16],
    }
}

/// The EncId of a delta after its chain; nil where it can't be read.
pub fn enc_id_of<C: ChainView>(chain: &C, delta: &Delta) -> [u8; 16]
    ensures { result ≡ own_guid (C.chain chain.now) delta.now 3 }
{
    own_guid(chain, delta, MODULE_ENC_ID)
}

/// The Mvid of the module before; nil where it has no Module row.
#[tactic(auto, unfolding(enc_meta::specs::Heaps::nil_guid, enc_plain::specs::Module::has_row))]
fn mvid_of<C: ChainView>(chain: &C) -> [u8; 16]
    ensures { result ≡ mvid_of (C.chain chain.now) }
{
    if chain.count(0) == 0 {
        return [0; 16];
    }
    chain.guid(MODULE, MODULE_MVID)
}

/// The delta is of another module.
#[tactic(auto, unfolding(crate::specs::Rules::other_module))]
pub fn other_module<C: ChainView>(context: &Context<'_, C>) -> Option<Place>
    ensures { result ≡ other_module context.now.chain context.now.delta }
{
    if own_guid(context.old.view, context.delta, MODULE_MVID).as_slice()
        == mvid_of(context.old.view).as_slice()
    {
        None
    } else {
        Some(Place::Row(MODULE))
    }
}

/// It isn't the next generation.
#[tactic(auto, unfolding(crate::specs::Rules::not_next))]
pub fn not_next<C: ChainView>(context: &Context<'_, C>) -> Option<Place>
    ensures { result ≡ not_next context.now.chain context.now.delta }
{
    if context.delta.cell(MODULE, MODULE_GENERATION) == context.generations() {
        None
    } else {
        Some(Place::Row(MODULE))
    }
}

/// Its EncBaseId isn't the last EncId.
#[tactic(auto, unfolding(crate::specs::Rules::other_base))]
pub fn other_base<C: ChainView>(context: &Context<'_, C>) -> Option<Place>
    ensures { result ≡ other_base context.now.chain context.now.delta }
{
    let chain = context.old.view;
    let last = chain.enc_id(chain.generations() - 1);
    if own_guid(chain, context.delta, MODULE_ENC_BASE_ID).as_slice() == last.as_slice() {
        None
    } else {
        Some(Place::Row(MODULE))
    }
}

/// An earlier delta has this EncId.
#[tactic(auto)]
pub fn is_used<C: ChainView>(chain: &C, id: &[u8]) -> bool
    ensures { result ≡ list_any (λ (x : List ℕ). bytes_eq x id.now) (C.chain chain.now).ids }
{
    for g in 0..chain.generations() - 1 {
        if chain.enc_id(g + 1).as_slice() == id {
            return true;
        }
    }
    false
}

/// Its EncId is nil or was used.
#[tactic(auto, unfolding(crate::specs::Rules::id_taken, enc_meta::specs::Heaps::nil_guid))]
pub fn id_taken<C: ChainView>(context: &Context<'_, C>) -> Option<Place>
    ensures { result ≡ id_taken context.now.chain context.now.delta }
{
    let id = own_guid(context.old.view, context.delta, MODULE_ENC_ID);
    if id.as_slice() == [0; 16].as_slice() || is_used(context.old.view, id.as_slice()) {
        Some(Place::Row(MODULE))
    } else {
        None
    }
}
