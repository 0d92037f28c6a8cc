//! Where the points of a delta's rows end.
ghost use Rattle.std.specs.Prelude.{◌≡◌, ◌<◌, ◌^◌, IfOk};
ghost use Rattle.enc_seqpoints.specs.declared.point.Point.{Point as ThePoint};
ghost use Rattle.enc_ppdb.specs.Seen.{end_by, good_end, GivesEnds};

use crate::fault::{are_there, nth_row, points_of, refused};
use crate::file::File;
use enc_base::tables::{DOCUMENT, METHOD_DEBUG_INFORMATION};
use enc_base::{Place, ReadFault};
use enc_seqpoints::Points;
use std::alloc::{AllocError, Global};

/// One past the greatest offset of some points, 0 where there are none.
#[tactic(auto, using(crate::proofs::PointsEnd::end_steps))]
fn end_of(points: &Points) -> u64
    ensures { result ≡ end_by (λ (p : ThePoint). p.offset) points.now.points }
{
    let mut end: u64 = 0;
    for i in 0..points.len() {
        end = end.max(u64::from(points.point(i).offset) + 1);
    }
    end
}

/// One past the greatest offset of the points of a row of MethodDebugInformation, from 0; None where
/// the row isn't good.
#[tactic(auto, unfolding(crate::specs::Seen::good_end, crate::specs::Seen::row_end, crate::specs::Fault::is_method))]
fn good_end(alloc: Global, file: &File, n: u32) -> Result<Option<u64>, AllocError>
    requires { n < 2 ^ 24 }
    ensures { IfOk result (λ end. end ≡ good_end file.now n) }
{
    let Some(points) = points_of(alloc, file, nth_row(METHOD_DEBUG_INFORMATION, n))? else {
        return Ok(None);
    };
    if !are_there(file.count(DOCUMENT), &points) {
        return Ok(None);
    }
    Ok(Some(end_of(&points)))
}

/// One past the greatest offset of the points of each row of MethodDebugInformation. Refused at the
/// first row that isn't good.
pub(crate) fn ends_of(alloc: Global, file: &File) -> Result<Vec<u64>, ReadFault>
    ensures { GivesEnds file.now result }
{
    let rows = file.count(METHOD_DEBUG_INFORMATION);
    let mut ends = Vec::with_capacity(alloc, rows as usize)?;
    for n in 0..rows {
        match good_end(alloc, file, n)? {
            Some(end) => ends.push_reserved(end),
            None => {
                return Err(refused(Place::Row(nth_row(METHOD_DEBUG_INFORMATION, n))));
            }
        }
    }
    Ok(ends)
}
