//! The bodies whose bytes change when tokens move.
ghost use Rattle.std.specs.Prelude.{◌≡◌, ◌+◌, ◌<◌, ◌^◌, ◌++◌, List, length, IfOk, OnOk, IsTrue};
ghost use Rattle.enc_compact.specs.Held.{number_in_slots, held_by, SlotHolds, CellHolds, AreBodiesHeld, AreSlotsKnown};
ghost use Rattle.enc_row_order.specs.Orders.{moved_by, new_order};
ghost use Rattle.enc_token_map.specs.Held.{Held, held_code};
ghost use Rattle.enc_opcodes.specs.Body.{code_seen};
ghost use Rattle.enc_plain.specs.Module.{has_row, cell_of};
ghost use Rattle.enc_plain.specs.Sound.{IsSound};
ghost use Rattle.enc_schema.specs.Schema.{list_at};
ghost use Rattle.enc_base.specs.Tables.{method_def};

use crate::mover::Mover;
use crate::slots::{known_at, slot_at};
use enc_base::Token;
use enc_base::tables::METHOD_DEF;
use enc_opcodes::CodeRef;
use enc_plain::ModuleView;
use enc_row_order::Order;
use enc_token_map::MovedBody;
use std::alloc::{AllocError, Global};
use std::collections::BTreeMap;

/// The bodies whose bytes change, each once for its place, and for each method, by its row in the module
/// that is lent, 0 where its bytes stay, else 1 and the place of its body among these.
#[derive(Drop)]
pub(crate) struct HeldBodies {
    held: Vec<MovedBody>,
    slots: Vec<u32>,
}

/// Those that are held so far, and the numbers of the places that were met.
#[derive(Drop)]
struct Bodies {
    held: Vec<MovedBody>,
    known: BTreeMap<u64, u32>,
}

/// Moves the tokens of a method's body, and answers its number; it is held where its bytes change.
fn hold<V: ModuleView>(
    alloc: Global,
    view: &V,
    mover: &Mover<'_>,
    method: Token,
    held: &mut Vec<MovedBody>,
) -> Result<u32, AllocError>
    requires sound { IsSound (V.meaning view.now) }
    requires order { list_at mover.now.order.now ≡ new_order (V.meaning view.now) }
    requires row { IsTrue (has_row (V.meaning view.now) method) }
    requires table { method.table ≡ method_def }
    requires few { length held.old.items < 2 ^ 24 }
    ensures holds { IfOk result (CellHolds (moved_by (new_order (V.meaning view.now)))
        (V.users view.now) held.new.items (cell_of (V.meaning view.now) method 0)) }
    ensures grows { (more : List Held) × (held.new.items ≡ held.old.items ++ more) }
    ensures few { length held.new.items < length held.old.items + 2 }
{
    let Some(code) = view.code(method) else {
        return Ok(0);
    };
    match MovedBody::of(alloc, &code, mover)? {
        None => Ok(0),
        Some(body) => {
            held.push(body)?;
            Ok(held.len() as u32)
        }
    }
}

/// The number of a method's body; the body of a place that was met before isn't moved again.
fn slot_of<V: ModuleView>(
    alloc: Global,
    view: &V,
    mover: &Mover<'_>,
    method: Token,
    bodies: &mut Bodies,
) -> Result<u32, AllocError>
    requires sound { IsSound (V.meaning view.now) }
    requires order { list_at mover.now.order.now ≡ new_order (V.meaning view.now) }
    requires row { IsTrue (has_row (V.meaning view.now) method) }
    requires table { method.table ≡ method_def }
    requires few { length bodies.old.held.items < 2 ^ 24 }
    requires known { AreSlotsKnown (V.places view.now) (SlotHolds (moved_by (new_order (V.meaning view.now)))
        (V.users view.now) bodies.old.held.items) bodies.old.known }
    ensures holds { IfOk result (CellHolds (moved_by (new_order (V.meaning view.now)))
        (V.users view.now) bodies.new.held.items (cell_of (V.meaning view.now) method 0)) }
    ensures known { OnOk result (AreSlotsKnown (V.places view.now)
        (SlotHolds (moved_by (new_order (V.meaning view.now))) (V.users view.now) bodies.new.held.items)
        bodies.new.known) }
    ensures grows { OnOk result ((more : List Held) × (bodies.new.held.items ≡ bodies.old.held.items ++ more)) }
    ensures few { OnOk result (length bodies.new.held.items < length bodies.old.held.items + 2) }
{
    let place = view.code_place(method);
    if let Some(slot) = known_at(&bodies.known, place) {
        return Ok(slot);
    }
    let slot = match hold(alloc, view, mover, method, &mut bodies.held) {
        Ok(slot) => slot,
        Err(fault) => return Err(fault),
    };
    match bodies.known.insert(place, slot) {
        Ok(_) => Ok(slot),
        Err(_) => Err(AllocError),
    }
}

impl HeldBodies {
    /// The bodies of a module whose bytes change by the order of an ordinary one.
    pub(crate) fn of<V: ModuleView>(
        alloc: Global,
        view: &V,
        order: &Order,
    ) -> Result<HeldBodies, AllocError>
        requires sound { IsSound (V.meaning view.now) }
        requires order { list_at order.now ≡ new_order (V.meaning view.now) }
        ensures { IfOk result (λ b. AreBodiesHeld (V.meaning view.now) (moved_by (new_order (V.meaning view.now)))
            (V.users view.now) b.held.items b.slots.items) }
    {
        let mover = Mover { order };
        let mut bodies = Bodies {
            held: Vec::new(alloc),
            known: BTreeMap::new(alloc),
        };
        let mut slots = Vec::new(alloc);
        for n in 0..view.count(METHOD_DEF) {
            let method = Token {
                table: METHOD_DEF,
                row: n + 1,
            };
            match slot_of(alloc, view, &mover, method, &mut bodies) {
                Ok(slot) => slots.push(slot)?,
                Err(fault) => return Err(fault),
            }
        }
        Ok(HeldBodies {
            held: bodies.held,
            slots,
        })
    }

    /// The body of a method, by its row in the module that is lent, with its tokens moved: its own bytes
    /// where they stay.
    pub(crate) fn code<'a>(&'a self, row: u32, code: CodeRef<'a>, locals: Token) -> CodeRef<'a>
        requires few { length code.code.now < 2 ^ 32 }
        requires short { length code.sections.now < 2 ^ 32 }
        ensures code { code_seen result ≡ held_code
            (held_by self.now.held.items (number_in_slots self.now.slots.items row)) (code_seen code.entry) locals }
        ensures few { length result.code.now < 2 ^ 32 }
        ensures short { length result.sections.now < 2 ^ 32 }
    {
        let slot = slot_at(&self.slots, row);
        if slot == 0 {
            return CodeRef { locals, ..code };
        }
        match self.held.get(slot as usize - 1) {
            Some(body) => body.code(&code, locals),
            None => CodeRef { locals, ..code },
        }
    }
}
