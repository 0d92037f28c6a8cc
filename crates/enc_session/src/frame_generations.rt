//! Which generation brought the body of each frame of a task.
ghost use Rattle.std.specs.Prelude.{◌≡◌, ◌≤◌, ◌++◌, [], IfOk, get_or, length, option_map, reverse, unwrap_or, vec_capacity};
ghost use Rattle.enc_vm.specs.Looks.{frame_in, frames_in};
ghost use Rattle.enc_session.specs.Recording.{generations_now, with_first_generation};
ghost use Rattle.enc_session.specs.RecordingSeen.{generations_behind, generation_at};

use crate::engine::Engine;
use crate::newest::Newest;
use std::alloc::{AllocError, Global};
use std::marker::Model;

/// As many frames as a task can have.
const MOST_FRAMES: usize = 1024;

/// Of each frame of a task the generation that brought its body.
#[derive(Drop)]
pub(crate) struct FrameGenerations {
    // from the outermost, with room for all that there can be
    items: Vec<u32>,
}

impl Model for FrameGenerations {
    ghost use Rattle.std.specs.Prelude.{ℕ, ◌≤◌, List, reverse, vec_capacity};

    ghost Value = { List ℕ };

    ghost view = { λ g. reverse g.items.items };

    ghost invariant = { λ g. 1024 ≤ vec_capacity g.items };
}

impl FrameGenerations {
    /// None, and room for those of as many frames as a task can have.
    pub(crate) fn begin(alloc: Global) -> Result<FrameGenerations, AllocError>
        ensures { IfOk result (λ g. g ≡ []) }
    {
        let mut items = Vec::new(alloc);
        items.reserve(MOST_FRAMES)?;
        Ok(FrameGenerations { items })
    }

    /// That of the i-th frame, from 0 for the outermost; 0 where there is none.
    pub(crate) fn at(&self, i: u32) -> u32
        ensures { result ≡ get_or (reverse self.now) i 0 }
    {
        match self.items.get(i as usize) {
            None => 0,
            Some(generation) => *generation,
        }
    }

    /// Those of the frames that the task has now: a new frame has the generation of the newest body of its method. It
    /// takes no memory.
    pub(crate) fn settle(&mut self, engine: &Engine, newest: &Newest, task: u32)
        ensures { self.new ≡ generations_now (generation_at newest.now) (frames_in engine.now.machine task) self.old }
    {
        self.items.truncate(engine.depth(task) as usize);
        push_new(engine, newest, task, &mut self.items);
    }

    /// The innermost frame has another generation.
    pub(crate) fn move_first(&mut self, generation: u32)
        ensures { self.new ≡ with_first_generation generation self.old }
    {
        let count = self.items.len();
        if count > 0 {
            self.items[count - 1] = generation;
        }
    }
}

/// Appends the generations of the frames behind so many, from the outermost.
fn push_new(engine: &Engine, newest: &Newest, task: u32, items: &mut Vec<u32>)
    requires few { length items.old.items ≤ 1024 }
    requires room { 1024 ≤ vec_capacity items.old }
    ensures items { items.new.items ≡ items.old.items ++ generations_behind (generation_at newest.now)
        (frames_in engine.now.machine task) (length items.old.items) }
    ensures room { 1024 ≤ vec_capacity items.new }
{
    for i in items.len() as u32..engine.depth(task) {
        items.push_reserved(generation_of(engine, newest, task, i));
    }
}

/// The generation of the newest body of the method of the i-th frame of a task, from 0 for the outermost; 0 where it
/// has no such frame.
fn generation_of(engine: &Engine, newest: &Newest, task: u32, i: u32) -> u32
    ensures { result ≡ unwrap_or (option_map (λ f. generation_at newest.now f.method)
        (frame_in engine.now.machine task i)) 0 }
{
    match engine.method_at(task, i) {
        None => 0,
        Some(method) => newest.at(method),
    }
}
