//! Bodies in the code of an image that is written (ECMA-335 II.25.4).
ghost use Rattle.std.specs.Prelude.{◌≡◌, ◌+◌, ◌*◌, ◌<◌, ◌≤◌, ◌++◌, [], ℕ, List, Some, length, map, is_some, IsTrue, IfOk, OnOk, if◌then◌else◌};
ghost use Rattle.std.specs.List.{list_all};
ghost use Rattle.enc_base.specs.Numbers.{AreBytes};
ghost use Rattle.enc_il.specs.Seen.{all_sections};
ghost use Rattle.enc_il.specs.Written.{clause_fits};
ghost use Rattle.enc_meta.specs.Built.{heaps_built};
ghost use Rattle.enc_meta.specs.Heaps.{user_at};
ghost use Rattle.enc_opcodes.specs.Body.{body_of, code_seen};
ghost use Rattle.enc_opcodes.specs.Clause.{clauses_in, clauses_of};
ghost use Rattle.enc_plain.specs.Sound.{row_count};
ghost use Rattle.enc_rewriter.specs.Standing.{StandsAt, Weighs, is_known, known_as, weight_of, bodies_before, AreBodiesPlaced, AreKnown, MayBeWritten, MayPlaceBodies, ComesNext, BodiesStand};
ghost use Rattle.enc_rewriter.specs.Placed.{IsBodyPlaced};
ghost use Rattle.enc_rewriter.specs.Weight.{bodies_weight};
ghost use Rattle.enc_base.specs.Tables.{method_def};

use crate::code::patched;
use enc_base::Token;
use enc_base::tables::METHOD_DEF;
use enc_il::{
    SectionRef, behind_sections, clause_front, clause_size, rest_at, section_front, write_body,
};
use enc_meta::HeapBuilder;
use enc_opcodes::{Clause, CodeRef};
use enc_pe::CODE_RVA;
use enc_plain::ModuleView;
use std::alloc::{AllocError, Global};
use std::collections::BTreeMap;

/// A clause's kind, that of a class where it is no known one.
fn known_kind(kind: u32) -> u32
    ensures { result ≡ (if is_known kind then kind else 0) }
{
    if kind == 0 || kind == 1 || kind == 2 || kind == 4 {
        kind
    } else {
        0
    }
}

/// The clause, as one of a class where its kind is no known one.
fn known(clause: Clause) -> Clause
    ensures known { result ≡ known_as clause }
    ensures fits { IsTrue (clause_fits result) }
{
    Clause {
        kind: known_kind(clause.kind),
        tries: clause.tries,
        handler: clause.handler,
        extra: clause.extra,
    }
}

/// Appends a section's clauses.
fn push_clauses(section: &SectionRef<'_>, all: &mut Vec<Clause>) -> Result<(), AllocError>
    requires fit { IsTrue (list_all clause_fits all.old.items) }
    ensures all { OnOk result (all.new.items
        ≡ all.old.items ++ map known_as (clauses_in section.now.fat section.now.count section.now.clauses.now)) }
    ensures fit { OnOk result (IsTrue (list_all clause_fits all.new.items)) }
{
    let mut rest = section.clauses;
    for i in 0..section.count {
        all.push(known(clause_front(section.fat, rest)))?;
        rest = rest_at(rest, clause_size(section.fat));
    }
    Ok(())
}

/// The clauses of sections, which stand whole.
fn clauses_in_sections(alloc: Global, sections: &[u8]) -> Result<Vec<Clause>, AllocError>
    requires { IsTrue (is_some (all_sections sections.now)) }
    ensures all { IfOk result (λ v. v.items ≡ map known_as (clauses_of sections.now)) }
    ensures fit { IfOk result (λ v. IsTrue (list_all clause_fits v.items)) }
{
    let mut all = Vec::new(alloc);
    let mut rest = sections;
    while let Some((section, behind)) = section_front(rest) {
        match push_clauses(&section, &mut all) {
            Ok(()) => {}
            Err(fault) => return Err(fault),
        }
        if !section.more {
            return Ok(all);
        }
        rest = behind;
    }
    Ok(all)
}

/// The clauses of a body, each of a known kind. Sections of which one isn't whole have none.
#[tactic(auto, using(enc_il::proofs::Sections::clauses_none, enc_il::proofs::Sections::behind_is))]
fn clauses_of_body(alloc: Global, sections: &[u8]) -> Result<Vec<Clause>, AllocError>
    ensures all { IfOk result (λ v. v.items ≡ map known_as (clauses_of sections.now)) }
    ensures fit { IfOk result (λ v. IsTrue (list_all clause_fits v.items)) }
{
    match behind_sections(sections) {
        None => Ok(Vec::new(alloc)),
        Some(_) => clauses_in_sections(alloc, sections),
    }
}

/// Each number in bytes is one of a byte.
#[tactic(auto, using(crate::proofs::CodeBytes::all_bytes))]
fn bytes_law(bytes: &[u8])
    ensures { AreBytes bytes.now }
{
    let _all = &bytes[..];
}

/// Writes a body behind the code, its user texts named in the new heap, and answers its RVA.
pub(crate) fn push_body<V: ModuleView>(
    alloc: Global,
    view: &V,
    body: &CodeRef<'_>,
    heaps: &mut HeapBuilder,
    out: &mut Vec<u8>,
) -> Result<u32, AllocError>
    requires { MayBeWritten (V.meaning view.now) (V.users view.now) heaps.old
        (code_seen body.now) (length out.old.items) }
    ensures stands { IfOk result (λ rva. StandsAt (row_count (V.meaning view.now))
        (user_at (heaps_built heaps.old).users) out.new.items rva (body_of (V.users view.now) (code_seen body.now))) }
    ensures grows { OnOk result ((rest : List ℕ) × (out.new.items ≡ out.old.items ++ rest)) }
    ensures size { OnOk result (4194300 * length out.new.items ≤ 4194300 * length out.old.items + 4194301 * weight_of
        (body_of (V.users view.now) (code_seen body.now))) }
    ensures same { heaps.new ≡ heaps.old }
{
    bytes_law(body.code);
    let code = match patched(alloc, view, body, heaps) {
        Ok(code) => code,
        Err(fault) => return Err(fault),
    };
    let clauses = match clauses_of_body(alloc, body.sections) {
        Ok(clauses) => clauses,
        Err(fault) => return Err(fault),
    };
    let bytes: &[u8] = &code;
    bytes_law(bytes);
    let again = CodeRef {
        max: body.max,
        init: body.init,
        locals: body.locals,
        code: bytes,
        sections: &[],
    };
    match write_body(alloc, &again, &clauses, out) {
        Ok(place) => Ok(CODE_RVA + place),
        Err(fault) => Err(fault),
    }
}

/// Bodies that are written: the code that has them, and the RVA of the body of each known place.
#[derive(Drop)]
struct BodyCode {
    code: Vec<u8>,
    known: BTreeMap<u64, u32>,
}

/// Writes the body of a method behind the code, and answers its RVA, 0 where it has none. Methods
/// count from 0 here.
fn push_method<V: ModuleView>(
    alloc: Global,
    view: &V,
    n: u32,
    heaps: &mut HeapBuilder,
    out: &mut Vec<u8>,
) -> Result<u32, AllocError>
    requires { ComesNext (V.meaning view.now) heaps.old n (length out.old.items) }
    ensures placed { IfOk result (λ rva. IsBodyPlaced (V.meaning view.now)
        (user_at (heaps_built heaps.old).users) out.new.items n rva) }
    ensures grows { OnOk result ((rest : List ℕ) × (out.new.items ≡ out.old.items ++ rest)) }
    ensures weighs { OnOk result (Weighs (bodies_before (V.meaning view.now) (n + 1)) (length out.new.items)) }
    ensures same { heaps.new ≡ heaps.old }
{
    let method = Token {
        table: METHOD_DEF,
        row: n + 1,
    };
    match view.code(method) {
        Some(body) => push_body(alloc, view, &body, heaps, out),
        None => Ok(0),
    }
}

/// The same. The body of a place that is known isn't written again, so methods that share a body cost
/// what one does.
fn place_method<V: ModuleView>(
    alloc: Global,
    view: &V,
    n: u32,
    heaps: &mut HeapBuilder,
    to: &mut BodyCode,
) -> Result<u32, AllocError>
    requires next { ComesNext (V.meaning view.now) heaps.old n (length to.old.code.items) }
    requires known { AreKnown (V.meaning view.now) (user_at (heaps_built heaps.old).users) (V.places view.now)
        to.old.code.items to.old.known }
    ensures placed { IfOk result (λ rva. IsBodyPlaced (V.meaning view.now) (user_at (heaps_built heaps.old).users)
        to.new.code.items n rva) }
    ensures grows { OnOk result ((rest : List ℕ) × (to.new.code.items ≡ to.old.code.items ++ rest)) }
    ensures stand { OnOk result (BodiesStand (V.meaning view.now) (user_at (heaps_built heaps.old).users)
        (V.places view.now) (n + 1) to.new.code.items to.new.known) }
    ensures same { heaps.new ≡ heaps.old }
{
    let place = view.code_place(Token {
        table: METHOD_DEF,
        row: n + 1,
    });
    if let Some(rva) = to.known.get(&place) {
        return Ok(*rva);
    }
    let rva = match push_method(alloc, view, n, heaps, &mut to.code) {
        Ok(rva) => rva,
        Err(fault) => return Err(fault),
    };
    match to.known.insert(place, rva) {
        Ok(_) => Ok(rva),
        Err(_) => Err(AllocError),
    }
}

/// The bodies of all methods: the code that has them, and the RVA of each method's, 0 for none.
#[derive(Drop)]
pub(crate) struct PlacedBodies {
    pub(crate) code: Vec<u8>,
    pub(crate) rvas: Vec<u32>,
}

/// Writes the bodies of all methods. Methods that share a body have it at one RVA.
pub(crate) fn place_bodies<V: ModuleView>(
    alloc: Global,
    view: &V,
    heaps: &mut HeapBuilder,
) -> Result<PlacedBodies, AllocError>
    requires { MayPlaceBodies (V.meaning view.now) heaps.old }
    ensures count { IfOk result (λ b. length b.rvas.items ≡ row_count (V.meaning view.now) method_def) }
    ensures placed { IfOk result (λ b. AreBodiesPlaced (V.meaning view.now) (user_at (heaps_built heaps.old).users)
        b.code.items b.rvas.items (row_count (V.meaning view.now) method_def)) }
    ensures weighs { IfOk result (λ b. Weighs (bodies_weight (V.meaning view.now)) (length b.code.items)) }
    ensures same { heaps.new ≡ heaps.old }
{
    let mut rvas = Vec::new(alloc);
    let mut to = BodyCode {
        code: Vec::new(alloc),
        known: BTreeMap::new(alloc),
    };
    for n in 0..view.count(METHOD_DEF) {
        match place_method(alloc, view, n, heaps, &mut to) {
            Ok(rva) => rvas.push(rva)?,
            Err(fault) => return Err(fault),
        }
    }
    Ok(PlacedBodies {
        code: to.code,
        rvas,
    })
}
