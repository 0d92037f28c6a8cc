//! What is drawn for the lists of a case: turns, each of which adds a method or replaces a body.
ghost use Rattle.std.specs.Prelude.{◌≡◌, ◌<◌, ◌≤◌, ◌+◌, ◌*◌, ◌^◌, length, IfOk};
ghost use Rattle.enc_generator.specs.Generated.{next_state, drawn, turn_drawn, state_behind, turns_from, state_after, is_of_row, is_adding};
ghost use Rattle.enc_generator.specs.Drawn.{turn_of};

use enc_edit_list::ListOf;
use std::alloc::{AllocError, Global};
use std::marker::Model;

/// The numbers that methods return are below this one.
const RETURNED: u32 = 1_000_000;

/// What a turn does.
#[derive(Clone, Copy)]
pub enum Act {
    /// Adds a method that returns this number.
    Adds(u32),
    /// Has the method of a row return this number.
    Replaces { row: u32, number: u32 },
}

/// A turn.
#[derive(Drop)]
pub struct Turn {
    act: Act,
}

impl Model for Turn {
    ghost use Rattle.enc_generator.specs.Generated.{Turn};
    ghost use Rattle.enc_generator.specs.Drawn.{turn_of};

    ghost Value = { Turn };

    ghost view = { λ t. turn_of t.act };
}

impl Turn {
    /// What it does.
    pub fn act(&self) -> Act
        ensures { turn_of result ≡ self.now }
    {
        self.act
    }

    /// It is about the method of this row.
    pub fn is_of_row(&self, row: u32) -> bool
        ensures { result ≡ is_of_row row self.now }
    {
        match self.act {
            Act::Adds(_) => false,
            Act::Replaces { row: own, .. } => own == row,
        }
    }

    /// It adds a method.
    pub fn is_adding(&self) -> bool
        ensures { result ≡ is_adding self.now }
    {
        matches!(self.act, Act::Adds(_))
    }
}

/// Turns, in order.
pub type Turns = ListOf<Turn>;

/// The state of 64 bits behind a state.
fn next_state(state: u64) -> u64
    ensures { result ≡ next_state state }
{
    state
        .wrapping_mul(6_364_136_223_846_793_005)
        .wrapping_add(1_442_695_040_888_963_407)
}

/// What is drawn in a state, below a number.
fn drawn(below: u32, state: u64) -> u32
    requires { 0 < below }
    ensures drawn { result ≡ drawn below state }
    ensures few { result < below }
{
    ((state >> 33) % u64::from(below)) as u32
}

/// A turn, and the state behind it.
#[derive(Drop)]
struct OneTurn {
    turn: Turn,
    state: u64,
}

/// The turn that is drawn in a state where there are so many methods.
fn turn_drawn(methods: u32, state: u64) -> OneTurn
    requires some { 0 < methods }
    requires few { methods < 2 ^ 31 }
    ensures turn { result.turn ≡ turn_drawn methods state }
    ensures state { result.state ≡ state_behind state }
{
    let second = next_state(state);
    if drawn(4, state) == 3 {
        let number = drawn(RETURNED, second);
        return OneTurn {
            turn: Turn {
                act: Act::Adds(number),
            },
            state: second,
        };
    }
    let third = next_state(second);
    let row = drawn(methods, second) + 1;
    let number = drawn(RETURNED, third);
    OneTurn {
        turn: Turn {
            act: Act::Replaces { row, number },
        },
        state: third,
    }
}

/// Turns, and the state behind them.
#[derive(Drop)]
pub struct AllTurns {
    pub turns: Turns,
    pub state: u64,
}

/// So many turns behind a state, where there are so many methods.
#[tactic(auto, using(crate::proofs::Turning::turn_steps))]
pub fn turns_from(
    alloc: Global,
    methods: u32,
    count: u32,
    start: u64,
) -> Result<AllTurns, AllocError>
    requires some { 0 < methods }
    requires few { methods < 2 ^ 31 }
    ensures turns { IfOk result (λ d. d.turns ≡ turns_from methods count start) }
    ensures state { IfOk result (λ d. d.state ≡ state_after count start) }
    ensures short { IfOk result (λ d. length d.turns ≡ count) }
{
    let mut turns = Turns::begin(alloc);
    let mut state = start;
    for more in 0..count {
        let _ = more;
        let OneTurn {
            turn,
            state: behind,
        } = turn_drawn(methods, next_state(state));
        turns.push(turn)?;
        state = behind;
    }
    Ok(AllTurns { turns, state })
}
