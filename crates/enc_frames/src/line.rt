//! The line at which a step begins.
ghost use Rattle.std.specs.Prelude.{◌≡◌};
ghost use Rattle.enc_versions.specs.StandFor.{lines_read};
ghost use Rattle.enc_frames.specs.Lines.{line_among};

use crate::frame::Frame;
use enc_seqpoints::Points;

/// The start line of the point at an offset, None where none stands there or a hidden one (Portable PDB v1.0,
/// sequence points). Its time is logarithmic in the number of points.
#[inline(always)]
fn line_in(points: &Points, offset: u32) -> Option<u32>
    ensures { result ≡ line_among offset (lines_read points.now).points }
{
    points.rising();
    match points.at(offset) {
        None => None,
        Some(point) => match point.lines {
            None => None,
            Some(lines) => Some(lines.0),
        },
    }
}

impl Frame {
    /// The start line of the sequence point at which it stands, None where it stands at none or at a hidden
    /// one.
    #[inline(always)]
    pub fn line(&self) -> Option<u32>
        ensures { result ≡ line_among self.now.offset (lines_read self.now.code.points).points }
    {
        line_in(self.code.as_ref().points(), self.offset)
    }
}
