//! The sequence points of a method by numbers, over any source of them.
ghost use Rattle.std.specs.Prelude.{◌≡◌, IfOk, map, take};
ghost use Rattle.enc_c.specs.Points.{numbers_in, point_numbers, points_numbers, name_told};
ghost use Rattle.enc_c.specs.Family.{OrMemory, items_listed};

use crate::status::Status;
use enc_base::Token;
use enc_plain::PointSource;
use enc_seqpoints::{Point, Points};
use std::alloc::{AllocError, Global};

/// A sequence point. A hidden one has lines and columns 0.
#[repr(C)]
#[derive(Clone, Copy)]
pub struct PointNumbers {
    /// The offset of its instruction, in bytes.
    pub offset: u32,
    /// The number of its document in the file that says the point, from 1.
    pub document: u32,
    /// 1 of a hidden point, and else 0.
    pub hidden: u32,
    pub start_line: u32,
    pub start_column: u32,
    pub end_line: u32,
    pub end_column: u32,
}

fn numbers_of(point: Point) -> PointNumbers
    ensures { result ≡ point_numbers point }
{
    let Some(lines) = point.lines else {
        return PointNumbers {
            offset: point.offset,
            document: point.document,
            hidden: 1,
            start_line: 0,
            start_column: 0,
            end_line: 0,
            end_column: 0,
        };
    };
    PointNumbers {
        offset: point.offset,
        document: point.document,
        hidden: 0,
        start_line: lines.0,
        start_column: lines.1,
        end_line: lines.2,
        end_column: lines.3,
    }
}

/// The numbers of points.
#[tactic(auto, unfolding(crate::specs::Points::points_numbers))]
fn numbers_of_all(alloc: Global, points: &Points) -> Result<Vec<PointNumbers>, AllocError>
    ensures { IfOk result (λ v. v.items ≡ points_numbers points.now) }
{
    let mut all = Vec::new(alloc);
    for i in 0..points.len() {
        all.push(numbers_of(points.point(i)))?;
    }
    Ok(all)
}

/// The points of a method; none where nothing is known of it.
pub fn points<P: PointSource>(
    alloc: Global,
    source: &P,
    method: Token,
) -> Result<Vec<PointNumbers>, AllocError>
    ensures { IfOk result (λ v. v.items ≡ points_numbers (P.said source.now method)) }
{
    let points = source.points(alloc, method)?;
    numbers_of_all(alloc, &points)
}

/// The name of the document that a number means at a method.
pub fn document_name<P: PointSource>(
    alloc: Global,
    source: &P,
    method: Token,
    number: u32,
) -> Result<Vec<u8>, Status>
    ensures { OrMemory (items_listed result) (name_told (P.documents source.now method number)) }
{
    let Some(document) = source.document(method, number) else {
        return Err(Status::Absent);
    };
    let mut name = Vec::new(alloc);
    match document.name.push_to(&mut name) {
        Ok(()) => Ok(name),
        Err(AllocError) => Err(Status::Memory),
    }
}
