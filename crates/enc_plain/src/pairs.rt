//! Pairs of TypeRefs and of TypeSpecs that were once found alike, so that a pair is judged once
//! however often signatures name it.
ghost use Rattle.std.specs.Prelude.{◌≡◌, ◌+◌, ◌*◌, ◌^◌, ◌<◌, true, IsTrue};
ghost use Rattle.enc_plain.specs.Alike.{alike_in_table};
ghost use Rattle.enc_plain.specs.Pairs.{AreAlikePairs};
ghost use Rattle.enc_plain.specs.Rows.{Rows};
ghost use Rattle.enc_base.specs.Tables.{type_ref, type_spec};

use enc_base::Token;
use enc_base::tables::{TYPE_REF, TYPE_SPEC};
use std::alloc::Global;
use std::collections::BTreeSet;

/// Pairs of TypeRefs and of TypeSpecs that are alike in the signatures of a table, each by one number.
#[derive(Drop)]
pub struct Pairs {
    table: u8,
    numbers: BTreeSet<u64>,
    specs: BTreeSet<u64>,
}

/// The number of a pair of rows.
fn number_of(a: u32, b: u32) -> u64
    ensures number { result ≡ a * 2 ^ 32 + b }
{
    u64::from(a) * 0x1_0000_0000 + u64::from(b)
}

impl Pairs {
    /// None yet. It takes no memory.
    pub fn new(alloc: Global, table: u8) -> Pairs
        ensures none { (rows : Rows) → AreAlikePairs rows result }
        ensures table { result.table ≡ table }
    {
        Pairs {
            table,
            numbers: BTreeSet::new(alloc),
            specs: BTreeSet::new(alloc),
        }
    }

    /// The table in whose signatures they are alike.
    pub(crate) fn table(&self) -> u8
        ensures { result ≡ self.now.table }
    {
        self.table
    }

    /// The tokens are a pair of TypeRefs that is known.
    fn has_refs(&self, a: Token, b: Token) -> bool
        ensures { (rows : Rows) → AreAlikePairs rows self.now → IsTrue result
            → alike_in_table rows self.now.table a b ≡ true }
    {
        a.table == TYPE_REF
            && b.table == TYPE_REF
            && self.numbers.contains(&number_of(a.row, b.row))
    }

    /// The tokens are a pair of TypeSpecs that is known.
    fn has_specs(&self, a: Token, b: Token) -> bool
        ensures { (rows : Rows) → AreAlikePairs rows self.now → IsTrue result
            → alike_in_table rows self.now.table a b ≡ true }
    {
        a.table == TYPE_SPEC
            && b.table == TYPE_SPEC
            && self.specs.contains(&number_of(a.row, b.row))
    }

    /// The tokens are a pair that is known.
    pub(crate) fn has(&self, a: Token, b: Token) -> bool
        ensures { (rows : Rows) → AreAlikePairs rows self.now → IsTrue result
            → alike_in_table rows self.now.table a b ≡ true }
    {
        self.has_refs(a, b) || self.has_specs(a, b)
    }

    /// Remembers a pair of TypeRefs that is alike. Without memory it isn't known afterwards.
    pub(crate) fn add(&mut self, a: Token, b: Token)
        requires a { a.table ≡ type_ref }
        requires b { b.table ≡ type_ref }
        ensures alike { (rows : Rows) → AreAlikePairs rows self.old → alike_in_table rows self.old.table a b ≡ true
            → AreAlikePairs rows self.new }
        ensures table { self.new.table ≡ self.old.table }
    {
        match self.numbers.insert(number_of(a.row, b.row)) {
            Ok(_) => {}
            Err(_) => {}
        }
    }

    /// Remembers a pair of TypeSpecs that is alike. Without memory it isn't known afterwards.
    pub(crate) fn add_specs(&mut self, a: Token, b: Token)
        requires a { a.table ≡ type_spec }
        requires b { b.table ≡ type_spec }
        ensures alike { (rows : Rows) → AreAlikePairs rows self.old → alike_in_table rows self.old.table a b ≡ true
            → AreAlikePairs rows self.new }
        ensures table { self.new.table ≡ self.old.table }
    {
        match self.specs.insert(number_of(a.row, b.row)) {
            Ok(_) => {}
            Err(_) => {}
        }
    }
}
