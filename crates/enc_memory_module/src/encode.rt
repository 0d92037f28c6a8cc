//! The bodies of a module's methods, encoded with a `#US` of their own (ECMA-335 II.24.2.4, II.25.4).
ghost use Rattle.std.specs.Prelude.{◌≡◌, ◌+◌, ◌*◌, ◌<◌, ◌^◌, ℕ, true, false, nat_lt, Some, length, map, option_map, slice_get, flat_map, IfOk, IfSome, OnOk};
ghost use Rattle.std.specs.List.{list_all};
ghost use Rattle.enc_edit_list.specs.Sizes.{arg_meant, placed};
ghost use Rattle.enc_il.specs.Written.{code_again};
ghost use Rattle.enc_meta.specs.Heaps.{user_at};
ghost use Rattle.enc_opcodes.specs.Body.{body_of};
ghost use Rattle.enc_plain.specs.Module.{Row as TheRow};
ghost use Rattle.enc_rewriter.specs.Values.{with_all, text_named, texts_named, heap_size, no_starts, no_heaps, IsPast};
ghost use Rattle.enc_rewriter.specs.declared.pass.Pass.TheVariants.{Users};
ghost use Rattle.enc_rules.specs.Edited.{body_stated};
ghost use Rattle.enc_memory_module.specs.Encoded.{body_of_row, bodies_meant, code_for, users_of_row, users_of_rows, IsSoundIf, CanBeEncoded, CanBeEncodedIf, has_texts, texts_of};
ghost use Rattle.enc_memory_module.specs.Plain.{body_in_cell};
ghost use Rattle.enc_memory_module.specs.Standing.{Stands};

use crate::copy::held_law;
use crate::plain::{Held, HeldCode, PlainCell, PlainRow};
use enc_assembly::{assemble, assembled_law};
use enc_edit_list::{ArgValue, BodyValue, InstrValue};
use enc_il::{write_body, written_body_law, written_clauses_law};
use enc_meta::{BuildFault, HeapBuilder, HeapBytes, HeapLengths};
use enc_opcodes::CodeRef;
use std::alloc::{AllocError, Global};

/// Heaps that stand behind no others.
const NO_STARTS: HeapLengths = HeapLengths {
    strings: 0,
    users: 0,
    blobs: 0,
    guids: 0,
};

/// The bodies of a module's methods, in their order, and the `#US` in which they have their user texts.
#[derive(Drop)]
pub(crate) struct Encoded {
    pub(crate) users: Vec<u8>,
    pub(crate) codes: Vec<HeldCode>,
}

impl Held {
    /// The body that the cell has.
    fn body(&self) -> Option<&BodyValue>
        ensures body { option_map (λ b. body_stated b.now) result ≡ body_in_cell (Some self.now) }
        ensures stands { IfSome result (λ b. Stands b.now) }
    {
        match &self.cell {
            PlainCell::Body(Some(body)) => Some(body),
            _ => None,
        }
    }
}

impl PlainRow {
    /// The body of a method.
    fn body(&self) -> Option<&BodyValue>
        ensures body { option_map (λ b. body_stated b.now) result ≡ body_of_row self.now }
        ensures stands { IfSome result (λ b. Stands b.now) }
    {
        match self.cells.get(0) {
            Some(held) => held.body(),
            None => None,
        }
    }
}

/// Adds the user text of an argument, where it is one.
#[tactic(auto, using(enc_rewriter::proofs::Fills::user_past), unfolding(enc_rewriter::specs::Values::with_all))]
fn add_argument(argument: &ArgValue, heaps: &mut HeapBuilder) -> Result<(), BuildFault>
    ensures filled { OnOk result (heaps.new ≡ with_all Users heaps.old (text_named (arg_meant argument.now))) }
    ensures past { IsPast result Users (with_all Users heaps.old (text_named (arg_meant argument.now))) }
{
    match argument {
        ArgValue::User(units) => match heaps.add_user(units.as_slice()) {
            Ok(_) => Ok(()),
            Err(fault) => Err(fault),
        },
        _ => Ok(()),
    }
}

/// Adds the user texts of instructions, in their order.
fn add_code(code: &[InstrValue], heaps: &mut HeapBuilder) -> Result<(), BuildFault>
    ensures filled { OnOk result (heaps.new ≡ with_all Users heaps.old (texts_named (placed 0 code.now))) }
    ensures past { IsPast result Users (with_all Users heaps.old (texts_named (placed 0 code.now))) }
{
    for k in 0..code.len() {
        let instr = &code[k];
        match add_argument(&instr.arg, heaps) {
            Ok(()) => {}
            Err(fault) => return Err(fault),
        }
    }
    Ok(())
}

/// Adds the user texts of a method's body.
#[tactic(auto, unfolding(enc_rewriter::specs::Values::with_all, enc_rules::specs::Edited::body_stated))]
fn add_row(row: &PlainRow, heaps: &mut HeapBuilder) -> Result<(), BuildFault>
    ensures filled { OnOk result (heaps.new ≡ with_all Users heaps.old (users_of_row row.now)) }
    ensures past { IsPast result Users (with_all Users heaps.old (users_of_row row.now)) }
{
    match row.body() {
        Some(body) => add_code(body.code.as_slice(), heaps),
        None => Ok(()),
    }
}

/// Adds the user texts of methods' bodies, in their order.
fn add_rows(rows: &[PlainRow], heaps: &mut HeapBuilder) -> Result<(), BuildFault>
    ensures filled { OnOk result (heaps.new ≡ with_all Users heaps.old (users_of_rows rows.now)) }
    ensures past { IsPast result Users (with_all Users heaps.old (users_of_rows rows.now)) }
{
    for k in 0..rows.len() {
        let row = &rows[k];
        match add_row(row, heaps) {
            Ok(()) => {}
            Err(fault) => return Err(fault),
        }
    }
    Ok(())
}

/// A body with this code, written, and read from its bytes.
fn written(alloc: Global, body: &BodyValue, code: &[u8]) -> Result<HeldCode, AllocError>
    requires row { body.now.locals.row < 2 ^ 24 }
    requires size { length code.now + 28 * length body.now.clauses + 32 < 2 ^ 32 }
    ensures { IfOk result (λ h. h ≡ Some (code_again (code_for body.now code.now) body.now.clauses)) }
{
    held_law(body.locals, body.max);
    written_body_law();
    let parts = CodeRef {
        max: body.max,
        init: body.init,
        locals: body.locals,
        code,
        sections: &[],
    };
    let mut bytes = Vec::new(alloc);
    match write_body(alloc, &parts, body.clauses.as_slice(), &mut bytes) {
        Ok(_) => Ok(HeldCode { bytes: Some(bytes) }),
        Err(error) => Err(error),
    }
}

/// A body, encoded. Its user texts are in the heaps already.
fn encoded_body(
    alloc: Global,
    body: &BodyValue,
    heaps: &mut HeapBuilder,
) -> Result<HeldCode, AllocError>
    requires starts { heaps.old.starts ≡ no_starts }
    requires stands { Stands body.now }
    requires sound { CanBeEncoded heaps.old (body_stated body.now) }
    ensures means { IfOk result (λ h. option_map (body_of (texts_of heaps.old)) h ≡ Some (body_stated body.now)) }
    ensures texts { IfOk result (λ h. has_texts (texts_of heaps.old) h ≡ true) }
    ensures same { heaps.new ≡ heaps.old }
{
    heaps.laws();
    assembled_law();
    written_clauses_law();
    match assemble(alloc, body.code.as_slice(), heaps) {
        Ok(code) => written(alloc, body, &code),
        Err(error) => Err(error),
    }
}

/// The body of a method, encoded.
fn encoded_row(
    alloc: Global,
    row: &PlainRow,
    heaps: &mut HeapBuilder,
) -> Result<HeldCode, AllocError>
    requires starts { heaps.old.starts ≡ no_starts }
    requires sound { CanBeEncodedIf heaps.old (body_of_row row.now) }
    ensures means { IfOk result (λ h. option_map (body_of (texts_of heaps.old)) h ≡ body_of_row row.now) }
    ensures texts { IfOk result (λ h. has_texts (texts_of heaps.old) h ≡ true) }
    ensures same { heaps.new ≡ heaps.old }
{
    match row.body() {
        Some(body) => encoded_body(alloc, body, heaps),
        None => Ok(HeldCode { bytes: None }),
    }
}

/// The bodies of methods, encoded, in their order.
fn encoded_rows(
    alloc: Global,
    rows: &[PlainRow],
    heaps: &mut HeapBuilder,
) -> Result<Vec<HeldCode>, AllocError>
    requires starts { heaps.old.starts ≡ no_starts }
    requires sound { (n : ℕ) (r : TheRow) → slice_get rows.now n ≡ Some r → CanBeEncodedIf heaps.old (body_of_row r) }
    ensures means { IfOk result (λ codes. map (option_map (body_of (texts_of heaps.old))) codes.items
        ≡ map body_of_row rows.now) }
    ensures texts { IfOk result (λ codes. list_all (has_texts (texts_of heaps.old)) codes.items ≡ true) }
    ensures same { heaps.new ≡ heaps.old }
{
    let mut codes = Vec::new(alloc);
    for k in 0..rows.len() {
        let row = &rows[k];
        match encoded_row(alloc, row, heaps) {
            Ok(code) => codes.push(code)?,
            Err(error) => return Err(error),
        }
    }
    Ok(codes)
}

/// Adds the user texts of methods' bodies where no heap has any and all have room.
fn gather(alloc: Global, rows: &[PlainRow]) -> Result<HeapBuilder, AllocError>
    requires { nat_lt (2 ^ 24) (heap_size Users (with_all Users no_heaps (users_of_rows rows.now))) ≡ false }
    ensures { IfOk result (λ h. h ≡ with_all Users no_heaps (users_of_rows rows.now)) }
{
    let mut heaps = HeapBuilder::begin(alloc, NO_STARTS)?;
    match add_rows(rows, &mut heaps) {
        Ok(()) => Ok(heaps),
        Err(BuildFault::Memory) => Err(AllocError),
        Err(BuildFault::TooLarge(_)) => unreachable!(),
    }
}

/// The bodies of methods, encoded, with the `#US` of their user texts, each of them once.
pub(crate) fn encode(alloc: Global, rows: &[PlainRow]) -> Result<Encoded, AllocError>
    requires room { nat_lt (2 ^ 24) (heap_size Users (with_all Users no_heaps (users_of_rows rows.now))) ≡ false }
    requires sound { (n : ℕ) (r : TheRow) → slice_get rows.now n ≡ Some r → IsSoundIf (body_of_row r) }
    ensures bodies { IfOk result (λ e. bodies_meant e.users.items e.codes.items ≡ map body_of_row rows.now) }
    ensures texts { IfOk result (λ e. list_all (has_texts (user_at e.users.items)) e.codes.items ≡ true) }
{
    let mut heaps = gather(alloc, rows)?;
    let codes = encoded_rows(alloc, rows, &mut heaps)?;
    let HeapBytes { users, .. } = heaps.finish()?;
    Ok(Encoded {
        users: users.into_vec(),
        codes,
    })
}
