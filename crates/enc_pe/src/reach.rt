//! Which ranges of RVAs some of many sections hold, found by a search by halves.
ghost use Rattle.std.specs.Prelude.{◌≡◌, ◌+◌, ◌<◌, ◌≤◌, ◌||◌, ◌∷◌, [], false, length, IfOk, OnOk, IsTrue};
ghost use Rattle.std.specs.List.{list_any};
ghost use Rattle.enc_pe.specs.Reach.{covers, corner_at, corner_of, BeginBy, EndBy, AreJoined};

use crate::section::Section;
use std::alloc::{AllocError, Global};
use std::marker::Model;

/// The RVAs from one to another, itself not among them.
#[derive(Clone, Copy)]
pub struct Corner {
    pub start: u64,
    pub end: u64,
}

/// Ranges of RVAs whose beginnings and ends rise: one that lies in another may be left out.
#[derive(Drop)]
pub struct Reach {
    corners: Vec<Corner>,
}

impl Model for Reach {
    ghost use Rattle.std.specs.Prelude.{List};
    ghost use Rattle.enc_pe.specs.declared.reach.Corner.{Corner as ACorner};
    ghost use Rattle.enc_pe.specs.Reach.{IsStair};

    ghost Value = { List ACorner };

    ghost view = { λ r. r.corners.items };

    ghost invariant = { λ r. IsStair r.corners.items };
}

/// The range of a section.
#[tactic(auto, unfolding(crate::specs::Reach::corner_of))]
pub fn corner_of(section: Section) -> Corner
    ensures { result ≡ corner_of section }
{
    let start = u64::from(section.rva);
    Corner {
        start,
        end: start + section.raw.len.min(0x4000_0000_0000_0000) as u64,
    }
}

impl Reach {
    /// No ranges, which take no memory.
    pub fn begin(alloc: Global) -> Reach
        ensures { result ≡ [] }
    {
        Reach {
            corners: Vec::new(alloc),
        }
    }

    /// One range.
    pub fn one(alloc: Global, corner: Corner) -> Result<Reach, AllocError>
        ensures { IfOk result (λ r. r ≡ corner ∷ []) }
    {
        let mut corners = Vec::new(alloc);
        corners.push(corner)?;
        Ok(Reach { corners })
    }

    /// Whether a range holds all RVAs from one to another.
    pub fn covers(&self, first: u64, behind: u64) -> bool
        ensures { result ≡ list_any (covers first behind) self.now }
    {
        let mut low = 0;
        let mut high = self.corners.len();
        while low < high {
            let middle = low + (high - low) / 2;
            if self.corners[middle].start <= first {
                low = middle + 1;
            } else {
                high = middle;
            }
        }
        low > 0 && behind <= self.corners[low - 1].end
    }

    /// One range more at the end.
    fn put(&mut self, corner: Corner) -> Result<(), AllocError>
        requires begin { BeginBy self.old corner.start }
        requires end { EndBy self.old corner.end }
        ensures more { OnOk result (AreJoined self.new self.old (corner ∷ [])) }
        ensures begin { OnOk result (BeginBy self.new corner.start) }
    {
        self.corners.push(corner)?;
        Ok(())
    }

    /// One range more, which begins behind the others or where one does. It is left out where it lies
    /// in the last.
    fn add(&mut self, corner: Corner) -> Result<(), AllocError>
        requires { BeginBy self.old corner.start }
        ensures more { OnOk result (AreJoined self.new self.old (corner ∷ [])) }
        ensures begin { OnOk result (BeginBy self.new corner.start) }
    {
        let count = self.corners.len();
        if count == 0 {
            return self.put(corner);
        }
        if corner.end <= self.corners[count - 1].end {
            return Ok(());
        }
        self.put(corner)
    }
}

/// Whether the next range is one of the first, which begins no later than the second's next.
fn is_left_next(xs: &Reach, ys: &Reach, i: usize, j: usize) -> bool
    requires left { i ≤ length xs.now }
    requires right { j ≤ length ys.now }
    requires some { i + j < length xs.now + length ys.now }
    ensures left { IsTrue result → i < length xs.now }
    ensures left_first { IsTrue result → j < length ys.now → (corner_at xs.now i).start ≤ (corner_at ys.now j).start }
    ensures right { result ≡ false → j < length ys.now }
    ensures right_first { result ≡ false → i < length xs.now → (corner_at ys.now j).start ≤ (corner_at xs.now i).start }
{
    if i >= xs.corners.len() {
        return false;
    }
    if j >= ys.corners.len() {
        return true;
    }
    xs.corners[i].start <= ys.corners[j].start
}

/// The ranges of two.
pub fn joined(alloc: Global, xs: &Reach, ys: &Reach) -> Result<Reach, AllocError>
    ensures { IfOk result (λ r. AreJoined r xs.now ys.now) }
{
    let mut out = Reach::begin(alloc);
    let mut i = 0;
    let mut j = 0;
    for k in 0..xs.corners.len() + ys.corners.len() {
        let _ = k;
        if is_left_next(xs, ys, i, j) {
            out.add(xs.corners[i])?;
            i += 1;
        } else {
            out.add(ys.corners[j])?;
            j += 1;
        }
    }
    Ok(out)
}
