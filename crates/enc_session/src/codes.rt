//! The bodies that a delta brings.
ghost use Rattle.std.specs.Prelude.{◌≡◌, ◌<◌, ◌^◌, [], IfOk, IsTrue, is_some, length, map};
ghost use Rattle.std.specs.List.{list_all};
ghost use Rattle.enc_checker.specs.Check.{new_bodies, new_code};
ghost use Rattle.enc_opcodes.specs.Body.{code_seen};
ghost use Rattle.enc_ppdb.specs.PdbChain.{delta_row, points_at};
ghost use Rattle.enc_versions.specs.Commit.{is_method_token, version_in};
ghost use Rattle.enc_session.specs.Codes.{new_version, new_versions};

use enc_base::{Bytes, Token};
use enc_checker::{new_bodies, new_code};
use enc_delta::Delta;
use enc_opcodes::CodeRef;
use enc_ppdb::PdbDelta;
use enc_seqpoints::Points;
use enc_versions::{CodeEntry, CodeList};
use std::alloc::{AllocError, Global};

/// A copy of bytes.
fn copied(alloc: Global, bytes: &[u8]) -> Result<Bytes, AllocError>
    ensures { IfOk result (λ b. b ≡ bytes.now) }
{
    let mut copy = Vec::new(alloc);
    copy.extend_from_slice(bytes)?;
    Ok(Bytes::from_vec(copy))
}

/// The points that a delta brings a method, none where its PDB has no row for it.
#[tactic(auto, unfolding(enc_ppdb::specs::PdbChain::points_at, enc_ppdb::specs::Points::delta_points))]
fn points_of(alloc: Global, pdb: &Option<PdbDelta>, method: Token) -> Result<Points, AllocError>
    ensures { IfOk result (λ p. p ≡ points_at (delta_row pdb.now method)) }
{
    let Some(pdb) = pdb else {
        return Ok(Points::none(alloc));
    };
    match pdb.points(alloc, method)? {
        Some(points) => Ok(points),
        None => Ok(Points::none(alloc)),
    }
}

/// A method's body with its points, as they become the newest.
fn entry_of(
    alloc: Global,
    method: Token,
    code: &CodeRef<'_>,
    points: Points,
) -> Result<CodeEntry, AllocError>
    ensures version { IfOk result (λ e. version_in e ≡ record {
      method = method;
      version = record { code = code_seen code.now; points = points };
    }) }
    ensures len { IfOk result (λ e. length e.code ≡ length code.now.code.now) }
{
    Ok(CodeEntry {
        method,
        max: code.max,
        init: code.init,
        locals: code.locals,
        code: copied(alloc, code.code)?,
        sections: copied(alloc, code.sections)?,
        points,
    })
}

/// A method's new body with its points; a token that has none in the delta isn't asked for.
fn new_entry(
    alloc: Global,
    delta: &Delta,
    pdb: &Option<PdbDelta>,
    method: Token,
) -> Result<CodeEntry, AllocError>
    requires { IsTrue (is_some (new_code delta.now method)) }
    ensures version { IfOk result (λ e. version_in e ≡ new_version delta.now pdb.now method) }
    ensures few { IfOk result (λ e. length e.code < 2 ^ 32) }
{
    let Some(code) = new_code(delta, method) else {
        unreachable!()
    };
    let points = points_of(alloc, pdb, method)?;
    entry_of(alloc, method, &code, points)
}

/// The bodies that a delta and its PDB bring, each with its points.
#[tactic(auto, unfolding(crate::specs::Codes::new_versions))]
pub(crate) fn new_codes(
    alloc: Global,
    delta: &Delta,
    pdb: &Option<PdbDelta>,
) -> Result<CodeList, AllocError>
    requires { IsTrue (list_all is_method_token (new_bodies delta.now)) }
    ensures { IfOk result (λ codes. map version_in codes ≡ new_versions delta.now pdb.now) }
{
    let methods = new_bodies(alloc, delta)?;
    let mut codes = CodeList::begin(alloc);
    for i in 0..methods.len() {
        let Some(method) = methods.get(i) else {
            unreachable!()
        };
        codes.push(new_entry(alloc, delta, pdb, *method)?)?;
    }
    Ok(codes)
}
