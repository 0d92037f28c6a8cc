//! The printed sequence points of a method (Portable PDB v1.0).
ghost use Rattle.std.specs.Prelude.{◌≡◌, ◌++◌, OnOk, IfOk, flat_map, map};
ghost use Rattle.enc_plain.specs.Debug.{debug_of, plain_point};
ghost use Rattle.enc_text.specs.PointText.{printed_name, position_text, extent_text, point_text, points_text};

use crate::operand::push_label;
use crate::text::{push_decimal, push_quoted, push_str};
use enc_base::Token;
use enc_plain::PointSource;
use enc_seqpoints::{Point, Points};
use std::alloc::{AllocError, Global};

/// The bytes of the name of the document that a number means at a method; none where it means none.
fn name_of<P: PointSource>(
    alloc: Global,
    source: &P,
    method: Token,
    number: u32,
) -> Result<Vec<u8>, AllocError>
    ensures { IfOk result (λ name. name.items ≡ printed_name (P.documents source.now method number)) }
{
    let mut name = Vec::new(alloc);
    match source.document(method, number) {
        Some(document) => document.name.push_to(&mut name)?,
        None => {}
    }
    Ok(name)
}

/// Appends a line and a column.
#[tactic(auto, unfolding(crate::specs::PointText::position_text))]
fn push_position(alloc: Global, line: u32, column: u32, out: &mut Vec<u8>) -> Result<(), AllocError>
    ensures { OnOk result (out.new.items ≡ out.old.items ++ position_text line column) }
{
    push_decimal(alloc, out, line)?;
    push_str(out, ":")?;
    push_decimal(alloc, out, column)
}

/// Appends where a point's text begins, and where it ends.
#[tactic(auto, unfolding(crate::specs::PointText::extent_text))]
fn push_extent(
    alloc: Global,
    lines: (u32, u32, u32, u32),
    out: &mut Vec<u8>,
) -> Result<(), AllocError>
    ensures { OnOk result (out.new.items ≡ out.old.items ++ extent_text lines) }
{
    push_position(alloc, lines.0, lines.1, out)?;
    push_str(out, "-")?;
    push_position(alloc, lines.2, lines.3, out)
}

/// Appends the line of a point.
#[tactic(auto, unfolding(crate::specs::PointText::point_text))]
fn push_point<P: PointSource>(
    alloc: Global,
    source: &P,
    method: Token,
    point: Point,
    out: &mut Vec<u8>,
) -> Result<(), AllocError>
    ensures { OnOk result (out.new.items
        ≡ out.old.items ++ point_text (plain_point (P.documents source.now method) point)) }
{
    push_str(out, "  point ")?;
    push_label(point.offset, out)?;
    let Some(lines) = point.lines else {
        return push_str(out, " hidden\n");
    };
    push_str(out, " ")?;
    push_quoted(out, &name_of(alloc, source, method, point.document)?)?;
    push_str(out, " ")?;
    push_extent(alloc, lines, out)?;
    push_str(out, "\n")
}

/// Appends the lines of points.
#[tactic(auto, using(crate::proofs::PointLines::lines_done))]
fn push_each_point<P: PointSource>(
    alloc: Global,
    source: &P,
    method: Token,
    points: &Points,
    out: &mut Vec<u8>,
) -> Result<(), AllocError>
    ensures { OnOk result (out.new.items
        ≡ out.old.items ++ flat_map point_text (map (plain_point (P.documents source.now method)) points.now.points)) }
{
    for i in 0..points.len() {
        push_point(alloc, source, method, points.point(i), out)?;
    }
    Ok(())
}

/// Appends the lines of a method's points.
#[tactic(auto, unfolding(crate::specs::PointText::points_text, enc_plain::specs::Debug::debug_of))]
pub fn push_points<P: PointSource>(
    alloc: Global,
    source: &P,
    method: Token,
    out: &mut Vec<u8>,
) -> Result<(), AllocError>
    ensures { OnOk result (out.new.items ≡ out.old.items ++ points_text (P.debug source.now method)) }
{
    let points = source.points(alloc, method)?;
    push_each_point(alloc, source, method, &points, out)
}
