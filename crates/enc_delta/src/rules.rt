//! The first rule that a delta breaks after its chain: one list of rules, each with its number.
ghost use Rattle.std.specs.Prelude.{◌≡◌, None, Some, Ok, Err, IfOk};
ghost use Rattle.enc_delta.specs.Judged.{refused, first_meta};
ghost use Rattle.enc_delta.specs.Stops.{TellsFirst, first_identity, first_lists, first_cells, first_members, first_signatures};

use crate::bodies::{broken_body, lost_body};
use crate::cells::{bad_index, bad_offset, too_many};
use crate::context::Context;
use crate::delta::Delta;
use crate::heaps::heap_fault;
use crate::identity::{id_taken, not_next, other_base, other_module};
use crate::known::known_of;
use crate::lists::{bad_entry, late_token, skipped_row, unmatched_token, unowned_child};
use crate::locals::bad_locals;
use crate::members::{field_out_of_layout, method_without_slot, twin_member};
use crate::signatures::bad_signature;
use crate::tables::{closed_table, uneven_table};
use crate::updates::altered_cell;
use enc_base::{Code, Place, Refusal};
use enc_plain::{ChainView, Viewed};
use std::alloc::{AllocError, Global};

/// Why the rules behind aren't asked: there is no memory, or a rule is broken.
#[derive(Clone, Copy, Debug, PartialEq, Eq)]
enum RuleFault {
    Memory,
    Broken(Refusal),
}

impl From<AllocError> for RuleFault {
    ghost use Rattle.enc_delta.specs.declared.rules.RuleFault.TheVariants.{Memory};
    ghost use Rattle.std.specs.Prelude.{◌≡◌};

    ghost from_gives = { λ _ stop. stop ≡ Memory };

    fn from(_: AllocError) -> RuleFault {
        RuleFault::Memory
    }
}

/// What a rule of this number says: it is broken at a place, or it isn't.
fn rule(n: u8, place: Option<Place>) -> Result<(), RuleFault>
    ensures { TellsFirst result (refused n place) }
{
    match place {
        Some(place) => Err(RuleFault::Broken(Refusal {
            code: Code::E(n),
            place,
        })),
        None => Ok(()),
    }
}

/// Asks the rules of the Module row and of the heaps.
#[tactic(auto, unfolding(crate::specs::Stops::first_identity))]
fn ask_identity<C: ChainView>(context: &Context<'_, C>) -> Result<(), RuleFault>
    ensures { TellsFirst result (first_identity context.now.chain context.now.delta) }
{
    rule(1, other_module(context))?;
    rule(2, not_next(context))?;
    rule(3, other_base(context))?;
    rule(4, id_taken(context))?;
    rule(5, heap_fault(context))
}

/// Asks the rules of EncMap and EncLog.
#[tactic(auto, unfolding(crate::specs::Stops::first_lists))]
fn ask_lists<C: ChainView>(alloc: Global, context: &Context<'_, C>) -> Result<(), RuleFault>
    ensures { TellsFirst result (first_lists context.now.chain context.now.delta) }
{
    rule(6, late_token(context))?;
    rule(7, uneven_table(context))?;
    rule(8, skipped_row(context))?;
    rule(9, unmatched_token(alloc, context)?)?;
    rule(10, bad_entry(context))?;
    rule(11, unowned_child(context))
}

/// Asks the rules of the cells of rows.
#[tactic(auto, unfolding(crate::specs::Stops::first_cells))]
fn ask_cells<C: ChainView>(alloc: Global, context: &Context<'_, C>) -> Result<(), RuleFault>
    ensures { TellsFirst result (first_cells context.now.chain context.now.delta) }
{
    rule(12, closed_table(context))?;
    rule(13, bad_index(context))?;
    rule(14, bad_offset(context))?;
    rule(15, altered_cell(alloc, context))
}

/// Asks the rules of bodies and of new members.
#[tactic(auto, unfolding(crate::specs::Stops::first_members))]
fn ask_members<C: ChainView>(alloc: Global, context: &Context<'_, C>) -> Result<(), RuleFault>
    ensures { TellsFirst result (first_members context.now.chain context.now.delta) }
{
    rule(16, broken_body(alloc, context)?)?;
    rule(17, lost_body(context))?;
    rule(18, field_out_of_layout(context))?;
    rule(19, method_without_slot(context))?;
    rule(20, twin_member(alloc, context)?)
}

/// Asks the rules of signatures, and how many deltas and rows there may be. Rule 22 is one of PDBs.
#[tactic(auto, unfolding(crate::specs::Stops::first_signatures))]
fn ask_signatures<C: ChainView>(alloc: Global, context: &Context<'_, C>) -> Result<(), RuleFault>
    ensures { TellsFirst result (first_signatures context.now.chain context.now.delta) }
{
    rule(21, bad_signature(alloc, context)?)?;
    rule(23, bad_locals(alloc, context)?)?;
    rule(24, too_many(context))
}

/// Asks the rules, in the order of their numbers, up to the first that is broken.
#[tactic(auto, using(crate::proofs::Parts::first_parts))]
fn ask<C: ChainView>(alloc: Global, context: &Context<'_, C>) -> Result<(), RuleFault>
    ensures { TellsFirst result (first_meta context.now.chain context.now.delta) }
{
    ask_identity(context)?;
    ask_lists(alloc, context)?;
    ask_cells(alloc, context)?;
    ask_members(alloc, context)?;
    ask_signatures(alloc, context)
}

impl Delta {
    /// The first rule of E1 to E24 that the delta breaks after the chain, and its place; None where it
    /// breaks none. Rule 22 is one of PDBs. It takes memory for the delta's lists, for one body or
    /// signature at a time, and for the places of those that are good.
    pub fn first_broken<C: ChainView>(
        &self,
        alloc: Global,
        chain: &C,
    ) -> Result<Option<Refusal>, AllocError>
        ensures { IfOk result (λ r. r ≡ first_meta (C.chain chain.now) self.now) }
    {
        let known = known_of(alloc, chain, self)?;
        let context = Context {
            old: Viewed { view: chain },
            delta: self,
            known: &known,
        };
        match ask(alloc, &context) {
            Ok(()) => Ok(None),
            Err(RuleFault::Broken(refusal)) => Ok(Some(refusal)),
            Err(RuleFault::Memory) => Err(AllocError),
        }
    }
}
