//! What an instruction makes of a task.
use crate::returns::FrameChange;
use enc_base::Units;

/// What an instruction makes of a task, beside the values of its innermost frame.
#[derive(Drop)]
pub(crate) enum Effect {
    /// What it makes of the frames.
    Frames(FrameChange),
    /// Units were written.
    Wrote(Units),
}
