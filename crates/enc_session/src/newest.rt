//! The generation of each method's newest body.
ghost use Rattle.std.specs.Prelude.{◌≡◌, [], OnOk, OnErr, slice_set};
ghost use Rattle.enc_session.specs.RecordingSeen.{brought_in, generation_at, greatest_row, with_rows_to};

use enc_base::Token;
use enc_base::tables::METHOD_DEF;
use enc_ppdb::MethodList;
use std::alloc::{AllocError, Global};
use std::marker::Model;

/// The generation that brought the newest body of each method, by its row of MethodDef; 0 for the base.
#[derive(Drop)]
pub(crate) struct Newest {
    rows: Vec<u32>,
}

impl Model for Newest {
    ghost use Rattle.std.specs.Prelude.{ℕ, List};

    ghost Value = { List ℕ };

    ghost view = { λ n. n.rows.items };
}

/// The greatest row of methods, 0 where there are none.
#[tactic(auto, using(crate::proofs::Generations::greatest_step), unfolding(crate::specs::RecordingSeen::greatest_row))]
fn greatest_row(methods: &MethodList) -> u32
    ensures { result ≡ greatest_row methods.now }
{
    let mut greatest = 0;
    for i in 0..methods.len() {
        let Some(method) = methods.get(i) else {
            unreachable!()
        };
        greatest = greatest.max(method.row);
    }
    greatest
}

impl Newest {
    /// That of the base for all.
    pub(crate) fn begin(alloc: Global) -> Newest
        ensures { result ≡ [] }
    {
        Newest {
            rows: Vec::new(alloc),
        }
    }

    /// That of a method.
    pub(crate) fn at(&self, method: Token) -> u32
        ensures { result ≡ generation_at self.now method }
    {
        if method.table != METHOD_DEF {
            return 0;
        }
        match self.rows.get(method.row as usize) {
            None => 0,
            Some(generation) => *generation,
        }
    }

    /// Makes room for methods. Each keeps its generation.
    #[tactic(auto, unfolding(crate::specs::RecordingSeen::with_rows_to))]
    pub(crate) fn make_room(&mut self, methods: &MethodList) -> Result<(), AllocError>
        ensures ok { OnOk result (self.new ≡ with_rows_to (greatest_row methods.now) self.old) }
        ensures err { OnErr result (self.new ≡ self.old) }
    {
        let rows = greatest_row(methods) as usize + 1;
        if rows <= self.rows.len() {
            return Ok(());
        }
        self.rows.resize(rows, 0)
    }

    /// A method's body came in a generation; nothing where there is no room for the method.
    fn put(&mut self, method: Token, generation: u32)
        ensures { self.new ≡ slice_set self.old method.row generation }
    {
        let row = method.row as usize;
        if row < self.rows.len() {
            self.rows[row] = generation;
        }
    }

    /// The bodies of methods came in a generation.
    #[tactic(auto, using(crate::proofs::Generations::brought_step), unfolding(crate::specs::RecordingSeen::brought_in))]
    pub(crate) fn bring(&mut self, methods: &MethodList, generation: u32)
        ensures { self.new ≡ brought_in generation methods.now self.old }
    {
        for i in 0..methods.len() {
            let Some(method) = methods.get(i) else {
                unreachable!()
            };
            self.put(*method, generation);
        }
    }
}
