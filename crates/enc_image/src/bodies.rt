//! Judging the bodies of a module: F10.
ghost use Rattle.std.specs.Prelude.{◌≡◌, ℕ, ◌<◌, ◌^◌, ◌&&◌, not, IfOk, OnOk, IsTrue, None, Some, length, option_map, is_some};
ghost use Rattle.enc_base.specs.Order.{first_below};
ghost use Rattle.enc_base.specs.Token.{nth_row};
ghost use Rattle.enc_meta.specs.Heaps.{part, user_at};
ghost use Rattle.enc_opcodes.specs.Body.{code_seen, locals_are_good};
ghost use Rattle.enc_rows.specs.Layout.{IsWithin, stream_has_row, rows_of};
ghost use Rattle.enc_plain.specs.Bodies.{code_is_good, code_loaded, body_is_good};
ghost use Rattle.enc_image.specs.Base.{users_of, has_locals, body_fault_at, body_fault};
ghost use Rattle.enc_image.specs.Known.{is_body_at, AreBodies};
ghost use Rattle.enc_image.specs.Seen.{source_seen};
ghost use Rattle.enc_base.specs.Tables.{method_def};

use crate::code::code_at;
use crate::judge::Cells;
use enc_base::tables::METHOD_DEF;
use enc_base::{Place, Token};
use enc_il::{UserTexts, is_good_body};
use enc_meta::Heaps;
use enc_opcodes::CodeRef;
use enc_schema::columns::{METHOD_DEF_IMPL_FLAGS, METHOD_DEF_RVA, STAND_ALONE_SIG_SIGNATURE};
use std::alloc::{AllocError, Global};
use std::collections::BTreeSet;

/// The user texts of a file's `#US`.
#[derive(Drop)]
struct FileTexts<'a> {
    heaps: &'a Heaps<'a>,
}

impl UserTexts for FileTexts<'_> {
    ghost texts = { λ t. user_at t.heaps.now.users };

    fn has_user(&self, offset: u32) -> bool {
        self.heaps.user(offset).is_some()
    }
}

/// The body's local signature is nil or is one of locals.
fn has_locals(cells: &Cells<'_>, code: &CodeRef<'_>) -> bool
    requires bytes { IsWithin (part cells.now.bytes.now cells.now.tables.now.span) cells.now.tables.now }
    requires row { IsTrue (locals_are_good (rows_of cells.now.tables.now) code.now.locals) }
    ensures { result ≡ has_locals (source_seen cells.now) (Some (code_seen code.now)) }
{
    if code.locals.row == 0 {
        return true;
    }
    let offset = cells
        .tables
        .cell(cells.bytes, code.locals, STAND_ALONE_SIG_SIGNATURE);
    match cells.heaps.blob(offset) {
        Some([first, ..]) => *first == 0x07,
        _ => false,
    }
}

/// The body is good, and so are the user texts and the local signature that it names.
#[tactic(auto, using(crate::proofs::Locals::good_locals))]
fn is_whole(alloc: Global, cells: &Cells<'_>, code: &CodeRef<'_>) -> Result<bool, AllocError>
    requires bytes { IsWithin (part cells.now.bytes.now cells.now.tables.now.span) cells.now.tables.now }
    requires few { length code.now.code.now < 2 ^ 32 }
    ensures { IfOk result (λ good. good ≡ (code_is_good (rows_of cells.now.tables.now)
        (users_of (source_seen cells.now)) (Some (code_seen code.now))
        && has_locals (source_seen cells.now) (Some (code_seen code.now)))) }
{
    let texts = FileTexts {
        heaps: &cells.heaps,
    };
    if !is_good_body(alloc, code, cells.tables.counts(), &texts)? {
        return Ok(false);
    }
    Ok(has_locals(cells, code))
}

/// Whether a good body with a local signature that is one stands at an RVA.
fn is_body_at(alloc: Global, cells: &Cells<'_>, rva: u32) -> Result<bool, AllocError>
    requires { IsWithin (part cells.now.bytes.now cells.now.tables.now.span) cells.now.tables.now }
    ensures { IfOk result (λ good. good ≡ is_body_at (source_seen cells.now) rva) }
{
    match code_at(&cells.loaded, rva) {
        Some(code) => is_whole(alloc, cells, &code),
        None => Ok(false),
    }
}

/// The same. A body that is known isn't read again, so methods that share a body cost what one does.
#[tactic(auto, using(enc_base::proofs::Passed::one_passes))]
fn is_known_body(
    alloc: Global,
    cells: &Cells<'_>,
    rva: u32,
    known: &mut BTreeSet<u32>,
) -> Result<bool, AllocError>
    requires bytes { IsWithin (part cells.now.bytes.now cells.now.tables.now.span) cells.now.tables.now }
    requires known { AreBodies (source_seen cells.now) known.old }
    ensures good { IfOk result (λ good. good ≡ is_body_at (source_seen cells.now) rva) }
    ensures known { OnOk result (AreBodies (source_seen cells.now) known.new) }
{
    if known.contains(&rva) {
        return Ok(true);
    }
    if !is_body_at(alloc, cells, rva)? {
        return Ok(false);
    }
    known.insert(rva)?;
    Ok(true)
}

/// The method with this RVA and these flags has no body, or a good one.
#[tactic(auto, unfolding(enc_plain::specs::Bodies::body_is_good, enc_plain::specs::Bodies::code_loaded))]
fn is_good(
    alloc: Global,
    cells: &Cells<'_>,
    rva: u32,
    flags: u32,
    known: &mut BTreeSet<u32>,
) -> Result<bool, AllocError>
    requires bytes { IsWithin (part cells.now.bytes.now cells.now.tables.now.span) cells.now.tables.now }
    requires known { AreBodies (source_seen cells.now) known.old }
    ensures good { IfOk result (λ good. good ≡ (body_is_good (rows_of cells.now.tables.now)
        (users_of (source_seen cells.now)) (source_seen cells.now).loaded rva flags
        && has_locals (source_seen cells.now) (code_loaded (source_seen cells.now).loaded rva))) }
    ensures known { OnOk result (AreBodies (source_seen cells.now) known.new) }
{
    if rva == 0 {
        return Ok(true);
    }
    if flags % 4 != 0 {
        return Ok(false);
    }
    is_known_body(alloc, cells, rva, known)
}

/// The place of a method whose body isn't good.
#[tactic(auto, unfolding(crate::specs::Base::body_fault_at))]
fn body_fault_at(
    alloc: Global,
    cells: &Cells<'_>,
    r: u32,
    known: &mut BTreeSet<u32>,
) -> Result<Option<Place>, AllocError>
    requires bytes { IsWithin (part cells.now.bytes.now cells.now.tables.now.span) cells.now.tables.now }
    requires row { r < rows_of cells.now.tables.now method_def }
    requires few { r < 2 ^ 24 }
    requires known { AreBodies (source_seen cells.now) known.old }
    ensures place { IfOk result (λ p. p ≡ body_fault_at (source_seen cells.now) r) }
    ensures known { OnOk result (AreBodies (source_seen cells.now) known.new) }
{
    let method = Token {
        table: METHOD_DEF,
        row: r + 1,
    };
    let rva = cells.tables.cell(cells.bytes, method, METHOD_DEF_RVA);
    let flags = cells
        .tables
        .cell(cells.bytes, method, METHOD_DEF_IMPL_FLAGS);
    match is_good(alloc, cells, rva, flags, known) {
        Err(error) => Err(error),
        Ok(true) => Ok(None),
        Ok(false) => Ok(Some(Place::Row(method))),
    }
}

/// F10: the first method whose body isn't good. It reads each body once, whatever the number of
/// methods that share it, and takes memory for one body at a time and for the RVAs.
#[tactic(auto, using(enc_base::proofs::First::first_steps), unfolding(crate::specs::Base::body_fault))]
pub fn body_fault(alloc: Global, cells: &Cells<'_>) -> Result<Option<Place>, AllocError>
    requires { IsWithin (part cells.now.bytes.now cells.now.tables.now.span) cells.now.tables.now }
    ensures { IfOk result (λ p. p ≡ body_fault (source_seen cells.now)) }
{
    let mut known = BTreeSet::new(alloc);
    for r in 0..cells.tables.count(METHOD_DEF) {
        match body_fault_at(alloc, cells, r, &mut known) {
            Err(error) => return Err(error),
            Ok(Some(place)) => return Ok(Some(place)),
            Ok(None) => {}
        }
    }
    Ok(None)
}
