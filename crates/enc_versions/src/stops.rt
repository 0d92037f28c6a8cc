//! The offsets at which a frame may stop.
ghost use Rattle.std.specs.Prelude.{◌≡◌, ℕ, ◌<◌, ◌^◌, ◌&&◌, length, is_some, IfOk, OnOk};
ghost use Rattle.std.specs.BTreeSet.{contains};
ghost use Rattle.std.specs.Ordering.{nat_cmp};
ghost use Rattle.enc_il.specs.Judged.{mark_at};
ghost use Rattle.enc_opcodes.specs.Body.{code_seen};
ghost use Rattle.enc_versions.specs.Stops.{AreStops, KeepsStop, is_at_point};

use enc_il::{is_start, starts_of};
use enc_opcodes::CodeRef;
use enc_seqpoints::{Point, Points};
use std::alloc::{AllocError, Global};
use std::collections::BTreeSet;

/// Whether a frame may stop at a point: the point isn't hidden, and an instruction begins there.
fn may_stop(marks: &[bool], point: Point) -> bool
    ensures { result ≡ (mark_at marks.now point.offset && is_some point.lines) }
{
    is_start(marks, point.offset) && point.lines.is_some()
}

/// Puts the offset of a point into a set, where a frame may stop there.
#[tactic(auto, using(crate::proofs::Stopped::stop_kept, crate::proofs::Stopped::no_stop))]
fn keep_stop(stops: &mut BTreeSet<u32>, marks: &[bool], point: Point) -> Result<(), AllocError>
    ensures { OnOk result (KeepsStop (mark_at marks.now) point stops.old stops.new) }
{
    if may_stop(marks, point) {
        stops.insert(point.offset)?;
    }
    Ok(())
}

/// The offsets of the points at which a frame may stop, by the marks of where instructions begin.
fn marked_stops(alloc: Global, marks: &[bool], points: &Points) -> Result<BTreeSet<u32>, AllocError>
    ensures { IfOk result (λ s. (offset : ℕ)
        → contains nat_cmp s offset ≡ (mark_at marks.now offset && is_at_point points.now.points offset)) }
{
    let mut stops = BTreeSet::new(alloc);
    for i in 0..points.len() {
        keep_stop(&mut stops, marks, points.point(i))?;
    }
    Ok(stops)
}

/// The offsets at which a frame may stop in a body with these points: one pass over the code, where there are
/// points.
#[tactic(auto, using(crate::proofs::Stopped::none_stop, crate::proofs::Stopped::marked_stop))]
pub(crate) fn stops_of(
    alloc: Global,
    code: &CodeRef<'_>,
    points: &Points,
) -> Result<BTreeSet<u32>, AllocError>
    requires { length code.now.code.now < 2 ^ 32 }
    ensures { IfOk result (λ s. AreStops (code_seen code.now) points.now.points s) }
{
    if points.len() == 0 {
        return Ok(BTreeSet::new(alloc));
    }
    let marks = starts_of(alloc, code)?;
    marked_stops(alloc, marks.as_slice(), points)
}
