//! How deep types are nested (ECMA-335 II.22.32).
ghost use Rattle.std.specs.Prelude.{◌≡◌, ℕ, ◌-◌, ◌<◌, ◌^◌, true, length, map, min, IfOk};
ghost use Rattle.std.specs.List.{list_all};
ghost use Rattle.enc_row_order.specs.Walks.{AreWalks, all_depths, doubled, ended, is_free, is_short, noted, walk_from};
ghost use Rattle.enc_row_order.specs.declared.depth.Walk.{Walk};
ghost use Rattle.enc_plain.specs.Sound.{IsSound};
ghost use Rattle.enc_rows.specs.Sums.{below};

use enc_base::Token;
use enc_base::tables::{NESTED_CLASS, TYPE_DEF};
use enc_plain::ModuleView;
use std::alloc::{AllocError, Global};

/// The columns of NestedClass.
const NESTED_CLASS_NESTED_CLASS: u8 = 0;

const NESTED_CLASS_ENCLOSING_CLASS: u8 = 1;

/// Where a walk from a type through the types around it has come to, None where it has ended, and how
/// many types it has met.
#[derive(Clone, Copy, Debug, PartialEq, Eq)]
pub(crate) struct Walk {
    pub(crate) around: Option<u32>,
    pub(crate) depth: u32,
}

/// Walks that have ended where they began, one for each type.
#[tactic(auto, using(crate::proofs::FirstWalks::none_ended, crate::proofs::FirstWalks::more_ended))]
fn ended_walks(alloc: Global, count: u32) -> Result<Vec<Walk>, AllocError>
    ensures { IfOk result (λ w. w.items ≡ map (λ (n : ℕ). ended) (below count)) }
{
    let mut walks = Vec::with_capacity(alloc, count as usize)?;
    for _n in 0..count {
        walks.push(Walk {
            around: None,
            depth: 0,
        })?;
    }
    Ok(walks)
}

/// Walks of one step: of each type the first row of NestedClass that has it tells the type around it.
fn first_walks<V: ModuleView>(alloc: Global, view: &V) -> Result<Vec<Walk>, AllocError>
    requires sound { IsSound (V.meaning view.now) }
    ensures { IfOk result (λ w. AreWalks (V.meaning view.now) 1 w.items) }
{
    let mut walks = ended_walks(alloc, view.count(TYPE_DEF))?;
    for k in 0..view.count(NESTED_CLASS) {
        let row = Token {
            table: NESTED_CLASS,
            row: k + 1,
        };
        let nested = view.refer(row, NESTED_CLASS_NESTED_CLASS);
        let enclosing = view.refer(row, NESTED_CLASS_ENCLOSING_CLASS);
        note_first(&mut walks, nested.row, enclosing.row);
    }
    Ok(walks)
}

/// Whether no type is noted around this one yet.
#[tactic(auto, unfolding(crate::specs::Walks::is_free))]
fn is_free(walks: &[Walk], type_row: u32) -> bool
    ensures free { result ≡ is_free walks.now type_row }
    ensures some { result ≡ true → 0 < type_row }
    ensures there { result ≡ true → type_row - 1 < length walks.now }
{
    if type_row == 0 {
        return false;
    }
    match walks.get(type_row as usize - 1) {
        None => false,
        Some(walk) => walk.around.is_none(),
    }
}

/// Notes the type around a nested one, where none is noted yet; row 0 is none.
#[tactic(auto, unfolding(crate::specs::Walks::noted))]
fn note_first(walks: &mut [Walk], nested: u32, enclosing: u32)
    ensures { walks.new ≡ noted nested enclosing walks.old }
{
    if is_free(walks, nested) {
        walks[nested as usize - 1] = Walk {
            around: Some(enclosing),
            depth: 1,
        };
    }
}

/// The walk from a type; from what is no type's row it has ended.
#[tactic(auto, unfolding(crate::specs::Walks::walk_from))]
fn walk_from(walks: &[Walk], type_row: u32) -> Walk
    requires short { list_all is_short walks.now ≡ true }
    ensures walk { result ≡ walk_from walks.now type_row }
    ensures short { result.depth < 2 ^ 31 }
{
    if type_row == 0 {
        return Walk {
            around: None,
            depth: 0,
        };
    }
    match walks.get(type_row as usize - 1) {
        None => Walk {
            around: None,
            depth: 0,
        },
        Some(walk) => *walk,
    }
}

/// A walk with as many steps more.
#[tactic(auto, unfolding(crate::specs::Walks::doubled))]
fn doubled(walks: &[Walk], walk: Walk) -> Walk
    requires short { list_all is_short walks.now ≡ true }
    requires few { walk.depth < 2 ^ 31 }
    ensures { result ≡ doubled walks.now walk }
{
    match walk.around {
        None => walk,
        Some(type_row) => {
            let behind = walk_from(walks, type_row);
            Walk {
                around: behind.around,
                depth: walk.depth + behind.depth,
            }
        }
    }
}

/// Walks of twice as many steps.
fn all_doubled(alloc: Global, walks: &[Walk]) -> Result<Vec<Walk>, AllocError>
    requires short { list_all is_short walks.now ≡ true }
    ensures { IfOk result (λ w. w.items ≡ map (doubled walks.now) walks.now) }
{
    let mut twice = Vec::with_capacity(alloc, walks.len())?;
    for i in 0..walks.len() {
        let walk = walks[i];
        twice.push(doubled(walks, walk))?;
    }
    Ok(twice)
}

/// The depth of each type, in the order of their rows, each at most the number of types. It takes as
/// many rounds over all types as their number has binary digits, so that a long chain of nested
/// types costs no more than others.
pub(crate) fn depths<V: ModuleView>(alloc: Global, view: &V) -> Result<Vec<u32>, AllocError>
    requires sound { IsSound (V.meaning view.now) }
    ensures { IfOk result (λ d. d.items ≡ all_depths (V.meaning view.now)) }
{
    let count = view.count(TYPE_DEF);
    let mut walks = first_walks(alloc, view)?;
    let mut steps: u32 = 1;
    while steps < count {
        walks = all_doubled(alloc, &walks)?;
        steps *= 2;
    }
    let depths = depths_of(alloc, &walks, count)?;
    Ok(depths)
}

/// The depths that walks have met, each at most so much.
fn depths_of(alloc: Global, walks: &[Walk], most: u32) -> Result<Vec<u32>, AllocError>
    ensures { IfOk result (λ d. d.items ≡ map (λ (w : Walk). min w.depth most) walks.now) }
{
    let mut depths = Vec::with_capacity(alloc, walks.len())?;
    for i in 0..walks.len() {
        let walk = walks[i];
        depths.push(walk.depth.min(most))?;
    }
    Ok(depths)
}
