//! The code of a delta: its bodies, one behind the other (ECMA-335 II.25.4).
ghost use Rattle.std.specs.BTreeMap.{get};
ghost use Rattle.std.specs.Ordering.{nat_cmp};
ghost use Rattle.std.specs.Prelude.{◌≡◌, ◌≤◌, ◌<◌, ◌+◌, ◌^◌, ◌++◌, ℕ, List, IfOk, IsTrue, OnOk, Some, option_map, length, slice_get};
ghost use Rattle.std.specs.List.{list_all};
ghost use Rattle.enc_il.specs.Written.{clause_fits};
ghost use Rattle.enc_meta.specs.BuiltLaws.{heaps_joined};
ghost use Rattle.enc_rules.specs.Edited.{rows_edited};
ghost use Rattle.enc_rules.specs.Listed.{body_given};
ghost use Rattle.enc_rules.specs.Rules.{room_of};
ghost use Rattle.enc_list_delta.specs.Holds.{MayFollow, heaps_written};
ghost use Rattle.enc_writer.specs.BodiesWriting.{CanBeWritten, HasRoom, HasWidths, PutsPlace, StandsOf, place_given, with_given};
ghost use Rattle.enc_writer.specs.Writing.{MethodsPlaced};

use crate::edit::{edit_at, row_at};
use enc_assembly::{assemble, assembled_law};
use enc_base::tables::METHOD_DEF;
use enc_base::{Token, push_zeros};
use enc_edit_list::{BodyValue, Edit};
use enc_il::write_body;
use enc_meta::HeapBuilder;
use enc_opcodes::{Clause, CodeRef};
use enc_plain::ChainView;
use enc_rules::{Context, body_given};
use std::alloc::{AllocError, Global};
use std::collections::BTreeMap;

/// The code of a delta, and the methods that its edits are about, by their rows, each with the place of its
/// body in the code, 0 where it has none.
#[derive(Drop)]
pub(crate) struct Bodies {
    pub(crate) il: Vec<u8>,
    pub(crate) methods: BTreeMap<u32, u32>,
}

impl Bodies {
    /// The place of the body of a method that edits are about.
    pub(crate) fn place_of(&self, row: u32) -> u32
        requires { (place : ℕ) × (get nat_cmp self.now.methods row ≡ Some place) }
        ensures { get nat_cmp self.now.methods row ≡ Some result }
    {
        match self.methods.get(&row) {
            Some(place) => *place,
            None => unreachable!(),
        }
    }
}

/// The numbers of a clause fit four bytes.
fn clause_law(clause: Clause)
    ensures { IsTrue (clause_fits clause) }
{
    let _kind = clause.kind;
}

/// The numbers of all clauses do.
fn clauses_law(clauses: &[Clause])
    ensures { IsTrue (list_all clause_fits clauses.now) }
{
    for clause in clauses {
        clause_law(*clause);
    }
}

/// The numbers of a body fit their bytes.
fn body_law(body: &BodyValue)
    ensures { HasWidths body.now }
{
    let _max = u32::from(body.max);
    let _table = u32::from(body.locals.table);
    clauses_law(body.clauses.as_slice());
}

/// Writes a body behind the code, its user texts named as the heaps have them, and answers its place.
fn push_body(
    alloc: Global,
    body: &BodyValue,
    heaps: &mut HeapBuilder,
    il: &mut Vec<u8>,
) -> Result<u32, AllocError>
    requires can { CanBeWritten heaps.old body.now }
    requires room { length il.old.items + room_of (Some body.now) < 2 ^ 32 + 32 }
    ensures written { OnOk result (il.new.items ≡ with_given heaps.old il.old.items body.now) }
    ensures place { IfOk result (λ place. place ≡ place_given heaps.old (length il.old.items) body.now) }
    ensures room { OnOk result (length il.new.items ≤ length il.old.items + room_of (Some body.now)) }
    ensures same { heaps.new ≡ heaps.old }
{
    let code = assemble(alloc, body.code.as_slice(), heaps)?;
    let parts = CodeRef {
        max: body.max,
        init: body.init,
        locals: body.locals,
        code: &code,
        sections: &[],
    };
    write_body(alloc, &parts, body.clauses.as_slice(), il)
}

/// Writes the body that the edit at a place gives, if it gives one, and answers the body's place, 0 where it
/// gives none.
fn push_given<C: ChainView>(
    alloc: Global,
    context: &Context<'_, C>,
    k: usize,
    heaps: &mut HeapBuilder,
    il: &mut Vec<u8>,
) -> Result<u32, AllocError>
    requires may { MayFollow context.now.chain context.now.list }
    requires heaps { heaps.old ≡ heaps_written context.now.chain context.now.list }
    requires there { k < length context.now.list.edits }
    requires room { HasRoom context.now.list k il.old.items }
    ensures stands { IfOk result (λ place. StandsOf context.now.chain context.now.list il.new.items place k) }
    ensures grows { OnOk result ((rest : List ℕ) × (il.new.items ≡ il.old.items ++ rest)) }
    ensures room { OnOk result (HasRoom context.now.list (k + 1) il.new.items) }
    ensures same { heaps.new ≡ heaps.old }
{
    heaps.laws();
    assembled_law();
    match body_given(edit_at(context, k)) {
        Some(body) => {
            body_law(body);
            push_body(alloc, body, heaps, il)
        }
        None => Ok(0),
    }
}

/// Puts down the place of the body of a row that is a method.
fn put_place(methods: &mut BTreeMap<u32, u32>, row: Token, place: u32) -> Result<(), AllocError>
    ensures { OnOk result (PutsPlace methods.old methods.new row place) }
{
    if row.table != METHOD_DEF {
        return Ok(());
    }
    methods.insert(row.row, place)?;
    Ok(())
}

/// The bodies that the edits give, in their order, behind four zeros, so that none is at place 0. Their user
/// texts are those of the heaps.
pub(crate) fn bodies_of<C: ChainView>(
    alloc: Global,
    context: &Context<'_, C>,
    heaps: &mut HeapBuilder,
) -> Result<Bodies, AllocError>
    requires may { MayFollow context.now.chain context.now.list }
    requires heaps { heaps.old ≡ heaps_written context.now.chain context.now.list }
    ensures placed { IfOk result (λ b. MethodsPlaced context.now.chain context.now.list
        (heaps_joined context.now.chain.heaps heaps.old) b.il.items b.methods) }
    ensures same { heaps.new ≡ heaps.old }
{
    let mut il = Vec::new(alloc);
    push_zeros(4, &mut il)?;
    let mut methods = BTreeMap::new(alloc);
    for k in 0..context.edits().len() {
        let place = push_given(alloc, context, k, heaps, &mut il)?;
        put_place(&mut methods, row_at(context, k), place)?;
    }
    Ok(Bodies { il, methods })
}
