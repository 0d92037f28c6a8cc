//! What is told of a task's frames. None of this takes memory.
ghost use Rattle.std.specs.Prelude.{◌≡◌, ◌<◌, ◌≤◌, length, option_map, unwrap_or};
ghost use Rattle.enc_base.specs.Order.{or_else};
ghost use Rattle.enc_versions.specs.StandFor.{lines_read};
ghost use Rattle.enc_vm.specs.Looks.{frame_in, frames_in};
ghost use Rattle.enc_session.specs.Recording.{facts_with, held_in, line_before, line_of_point, values_in};

use crate::engine::Engine;
use enc_base::Token;
use enc_objects::Value;
use enc_seqpoints::{Point, Points};
use enc_vm::{FrameRef, look_laws};

/// A frame of a task (ECMA-335 I.12.3.2).
#[derive(Clone, Copy, Debug, PartialEq, Eq)]
pub struct FrameFacts {
    /// Its method.
    pub method: Token,
    /// The generation that brought the body with which it began, or that of its last remap; 0 for the base.
    pub generation: u32,
    /// The offset of its next instruction.
    pub offset: u32,
    /// The start line of the last point of its body that isn't hidden at or before the offset; 0 where there is none.
    pub line: u32,
    /// How many arguments it has.
    pub arguments: usize,
    /// How many local variables it has.
    pub locals: usize,
    /// How many values are on its stack.
    pub stack: usize,
}

/// What a frame holds.
#[derive(Clone, Copy, Debug, PartialEq, Eq)]
pub enum FramePart {
    /// Its arguments.
    Arguments,
    /// Its local variables.
    Locals,
    /// Its stack, from the bottom up.
    Stack,
}

/// The start line of a point, where it isn't hidden and stands at or before an offset.
fn line_of_point(offset: u32, point: Point) -> Option<u32>
    ensures { result ≡ line_of_point offset (point.offset, point.lines) }
{
    if point.offset > offset {
        return None;
    }
    match point.lines {
        None => None,
        Some(lines) => Some(lines.0),
    }
}

/// The later of two lines, where there is one.
fn later(line: Option<u32>, next: Option<u32>) -> Option<u32>
    ensures { result ≡ or_else next line }
{
    match next {
        Some(_) => next,
        None => line,
    }
}

/// The start line of the last point at or before an offset that isn't hidden.
fn line_before(points: &Points, offset: u32) -> Option<u32>
    ensures { result ≡ line_before offset (lines_read points.now).points }
{
    let mut line = None;
    for i in 0..points.len() {
        line = later(line, line_of_point(offset, points.point(i)));
    }
    line
}

/// A frame with a generation, as it is told.
fn facts_of(frame: &FrameRef<'_>, generation: u32) -> FrameFacts
    ensures { result ≡ facts_with generation (lines_read frame.now.code.points).points frame.now }
{
    let line = line_before(frame.code().as_ref().points(), frame.offset());
    FrameFacts {
        method: frame.method(),
        generation,
        offset: frame.offset(),
        line: line.unwrap_or(0),
        arguments: frame.args().len(),
        locals: frame.locals().len(),
        stack: frame.stack().len(),
    }
}

impl Engine {
    /// How many frames a task has, none where no task has the number.
    pub(crate) fn depth(&self, task: u32) -> u32
        ensures depth { result ≡ length (frames_in self.now.machine task) }
        ensures few { result ≤ 1024 }
    {
        self.machine.depth(task)
    }

    /// The i-th frame of a task, from 0 for the outermost, with a generation; None where it has no such frame.
    pub(crate) fn frame(&self, task: u32, i: u32, generation: u32) -> Option<FrameFacts>
        ensures { result ≡ option_map (λ f. facts_with generation f.code.points f) (frame_in self.now.machine task i) }
    {
        look_laws();
        match self.machine.frame(task, i) {
            None => None,
            Some(frame) => Some(facts_of(&frame, generation)),
        }
    }

    /// What the i-th frame of a task holds, from 0 for the outermost; None where it has no such frame.
    pub(crate) fn values(&self, task: u32, i: u32, part: FramePart) -> Option<&[Value]>
        ensures { option_map (λ b. b.now) result ≡ values_in self.now.machine task i part }
    {
        look_laws();
        match self.machine.frame(task, i) {
            None => None,
            Some(frame) => Some(held_in(&frame, part)),
        }
    }
}

/// What a frame holds.
fn held_in<'a>(frame: &FrameRef<'a>, part: FramePart) -> &'a [Value]
    ensures { result.now ≡ held_in part frame.now }
{
    match part {
        FramePart::Arguments => frame.args(),
        FramePart::Locals => frame.locals(),
        FramePart::Stack => frame.stack(),
    }
}
