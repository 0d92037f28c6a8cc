//! TypeRefs whose names were once seen to be equal, so that none are compared twice.
ghost use Rattle.std.specs.Prelude.{◌≡◌, ◌<◌, IfSome, Some};
ghost use Rattle.std.specs.BTreeMap.{get};
ghost use Rattle.std.specs.Ordering.{nat_cmp};
ghost use Rattle.enc_plain.specs.Namesakes.{names_of, AreNamesakes};
ghost use Rattle.enc_plain.specs.Rows.{Rows};

use std::alloc::Global;
use std::collections::BTreeMap;

/// Rows of TypeRefs, and to each a smaller one with the same name and namespace (ECMA-335 II.22.38).
/// Those that lead to one row in the end have the same.
#[derive(Drop)]
pub struct Namesakes {
    others: BTreeMap<u32, u32>,
}

impl Namesakes {
    /// None yet. It takes no memory.
    pub fn new(alloc: Global) -> Namesakes
        ensures { (rows : Rows) → AreNamesakes rows result }
    {
        Namesakes {
            others: BTreeMap::new(alloc),
        }
    }

    /// The smaller row that a row leads to.
    fn next(&self, row: u32) -> Option<u32>
        ensures next { IfSome result (λ n. get nat_cmp self.now.others row ≡ Some n) }
        ensures less { IfSome result (λ n. n < row) }
    {
        let next = *self.others.get(&row)?;
        if next >= row {
            return None;
        }
        Some(next)
    }

    /// Lets a row lead to one that has its names. Without memory it is left as it was.
    fn lead(&mut self, row: u32, next: u32)
        ensures { (rows : Rows) → AreNamesakes rows self.old → names_of rows row ≡ names_of rows next
            → AreNamesakes rows self.new }
    {
        match self.others.insert(row, next) {
            Ok(_) => {}
            Err(_) => {}
        }
    }

    /// The row that a row leads to in one step or two. It leads there in one from now on.
    fn step(&mut self, row: u32) -> Option<u32>
        ensures names { (rows : Rows) → AreNamesakes rows self.old
            → IfSome result (λ n. names_of rows row ≡ names_of rows n) }
        ensures known { (rows : Rows) → AreNamesakes rows self.old → AreNamesakes rows self.new }
        ensures less { IfSome result (λ n. n < row) }
    {
        let next = self.next(row)?;
        let Some(end) = self.next(next) else {
            return Some(next);
        };
        self.lead(row, end);
        Some(end)
    }

    /// The row that a row leads to in the end.
    pub(crate) fn end(&mut self, row: u32) -> u32
        ensures names { (rows : Rows) → AreNamesakes rows self.old → names_of rows row ≡ names_of rows result }
        ensures known { (rows : Rows) → AreNamesakes rows self.old → AreNamesakes rows self.new }
    {
        let mut end = row;
        while let Some(next) = self.step(end) {
            end = next;
        }
        end
    }

    /// Joins two rows that have the same names: the greater leads to the smaller one.
    pub(crate) fn join(&mut self, a: u32, b: u32)
        ensures { (rows : Rows) → AreNamesakes rows self.old → names_of rows a ≡ names_of rows b
            → AreNamesakes rows self.new }
    {
        if a < b {
            self.lead(b, a);
        } else {
            self.lead(a, b);
        }
    }
}
