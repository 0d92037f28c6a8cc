//! Whether a frame could go on in the newest body of its method, for a host that has frames of its own.
ghost use Rattle.std.specs.Prelude.{◌≡◌, ℕ, ◌<◌, ◌^◌, List, Option, Some, length, option_map, is_some, IfOk, IfSome, IsTrue};
ghost use Rattle.enc_frames.specs.Machine.{code_meant};
ghost use Rattle.enc_machine_types.specs.Members.{method_body};
ghost use Rattle.enc_opcodes.specs.Body.{body_of, code_seen};
ghost use Rattle.enc_remap.specs.Asked.{broken_of, may_remap as rule_of_remap, version_seen};
ghost use Rattle.enc_remap.specs.Remap.{newest_code};
ghost use Rattle.enc_base.specs.Tables.{method_def};
ghost use Rattle.enc_versions.specs.Stops.{is_at_point as is_point_in, is_stop_in};
ghost use Rattle.enc_versions.specs.StandFor.{lines_known, lines_read};

use crate::goal::{led_from, runs_code};
use crate::kinds::{kinds_behind, kinds_of};
use enc_base::Token;
use enc_il::{is_start, starts_of};
use enc_opcodes::CodeRef;
use enc_plain::{ModuleView, PointSource, is_row};
use enc_seqpoints::Points;
use enc_unwind::is_handled;
use std::alloc::{AllocError, Global};

/// A module with its sequence points.
pub struct Edition<'a, V: ModuleView, P: PointSource> {
    pub view: &'a V,
    pub points: &'a P,
}

/// Where a frame stands: its method, and the offset of its next instruction.
#[derive(Clone, Copy, Debug, PartialEq, Eq)]
pub struct Standing {
    pub method: Token,
    pub offset: u32,
}

/// A body with its sequence points.
#[derive(Drop)]
struct Stored<'a> {
    code: CodeRef<'a>,
    points: Points,
}

/// What is asked: where a frame stands, and in which body, and a map.
#[derive(Drop)]
struct Wish<'a> {
    at: Standing,
    old: Stored<'a>,
    pairs: &'a [(u32, u32)],
}

/// Whether a point that isn't hidden stands at an offset.
fn is_at_point(points: &Points, offset: u32) -> bool
    ensures { result ≡ is_point_in points.now.points offset }
{
    points.rising();
    match points.at(offset) {
        Some(point) => point.lines.is_some(),
        None => false,
    }
}

/// Whether an instruction begins there too.
fn is_stop(alloc: Global, stored: &Stored<'_>, offset: u32) -> Result<bool, AllocError>
    requires { length stored.now.code.code.now < 2 ^ 32 }
    ensures { IfOk result (λ b. b ≡ is_stop_in (code_seen stored.now.code) stored.now.points.points offset) }
{
    let marks = starts_of(alloc, &stored.code)?;
    Ok(is_start(&marks, offset) && is_at_point(&stored.points, offset))
}

/// The points of a method, of whose documents nothing is said.
#[tactic(auto, using(enc_versions::proofs::Lines::known_as_read))]
fn points_of<P: PointSource>(alloc: Global, points: &P, method: Token) -> Result<Points, AllocError>
    ensures { IfOk result (λ p. lines_read p ≡ lines_known (P.debug points.now method)) }
{
    points.points(alloc, method)
}

/// The body of a method with its points, None where it has none.
fn body_with_points<'a, V: ModuleView, P: PointSource>(
    alloc: Global,
    edition: &Edition<'a, V, P>,
    method: Token,
) -> Result<Option<Stored<'a>>, AllocError>
    requires { method.table ≡ method_def }
    ensures means { IfOk result (λ o. option_map (λ (s : _). code_meant (V.users edition.now.view.now) (version_seen s))
        o ≡ newest_code (V.meaning edition.now.view.now) (P.debug edition.now.points.now) method) }
    ensures few { IfOk result (λ o. IfSome o (λ (s : _). length s.code.code.now < 2 ^ 32)) }
    ensures short { IfOk result (λ o. IfSome o (λ (s : _). length s.code.sections.now < 2 ^ 32)) }
{
    if !is_row(edition.view, method) {
        return Ok(None);
    }
    let Some(code) = edition.view.code(method) else {
        return Ok(None);
    };
    let points = points_of(alloc, edition.points, method)?;
    Ok(Some(Stored { code, points }))
}

/// The number of the first of Q3 to Q7 that is broken.
fn first_broken_of<V: ModuleView>(
    alloc: Global,
    view: &V,
    wish: &Wish<'_>,
    newest: &Option<Stored<'_>>,
) -> Result<Option<u8>, AllocError>
    requires table { wish.now.at.method.table ≡ method_def }
    requires body { option_map (λ (s : _). body_of (V.users view.now) (code_seen s.code)) newest.now
        ≡ method_body (V.meaning view.now) wish.now.at.method }
    requires few { IfSome newest.now (λ (s : _). length s.code.code.now < 2 ^ 32) }
    requires short { IfSome newest.now (λ (s : _). length s.code.sections.now < 2 ^ 32) }
    ensures { (texts : ℕ → Option (List ℕ)) → IfOk result (λ n. n ≡ broken_of texts (V.users view.now)
        (V.meaning view.now) wish.now.at wish.now.pairs.now wish.now.old newest.now) }
{
    if !is_at_point(&wish.old.points, wish.at.offset) {
        return Ok(Some(3));
    }
    let Some(to) = led_from(wish.at.offset, wish.pairs) else {
        return Ok(Some(4));
    };
    let Some(new) = newest else {
        return Ok(Some(5));
    };
    if !is_stop(alloc, new, to)? {
        return Ok(Some(5));
    }
    if !runs_code(view, wish.at.method, &new.code) {
        return Ok(Some(6));
    }
    let first = kinds_of(view, wish.old.code.locals);
    let Some(_kinds) = kinds_behind(first, kinds_of(view, new.code.locals)) else {
        return Ok(Some(6));
    };
    if is_handled(&new.code, to) {
        return Ok(Some(7));
    }
    Ok(None)
}

/// Whether a frame of a method could go on in the method's newest body, where a map leads from its offset, if it
/// has the
/// body that the method has in an earlier module: the number of the first of these that is broken, None where it may.
/// Its stack and its handlers are the host's matter, and so is whether its task goes on (`remap` asks for all of
/// these).
///
/// 3. no sequence point of the earlier body that isn't hidden stands at its offset;
/// 4. no pair of the map leads from this offset;
/// 5. no instruction of the newest body begins at the offset to which it leads, or no sequence point of it that isn't
///    hidden stands there, or the method has no body now;
/// 6. the interpreter doesn't run the newest body, or the kinds of the local variables of the earlier body aren't the
///    first of those of the newest;
/// 7. a handler of the newest body has that offset.
///
/// Nothing is answered (None) where the method has no body in the earlier module. Its time is linear in the newest code
/// and in both bodies' points, and so is its memory.
#[tactic(auto, unfolding(crate::specs::Asked::may_remap))]
pub fn may_remap<O: ModuleView, Q: PointSource, V: ModuleView, P: PointSource>(
    alloc: Global,
    old: &Edition<'_, O, Q>,
    newest: &Edition<'_, V, P>,
    at: Standing,
    pairs: &[(u32, u32)],
) -> Result<Option<Option<u8>>, AllocError>
    requires { at.method.table ≡ method_def }
    ensures { IfOk result (λ r. r ≡ rule_of_remap (O.meaning old.now.view.now) (Q.debug old.now.points.now)
        (V.meaning newest.now.view.now) (P.debug newest.now.points.now) at pairs.now) }
{
    let Some(old) = body_with_points(alloc, old, at.method)? else {
        return Ok(None);
    };
    let new = body_with_points(alloc, newest, at.method)?;
    let wish = Wish { at, old, pairs };
    let broken = first_broken_of(alloc, newest.view, &wish, &new)?;
    Ok(Some(broken))
}
