//! Where the runs of children begin (ECMA-335 II.22.37, II.22.26, II.22.12, II.22.35).
ghost use Rattle.std.specs.List.{list_any};
ghost use Rattle.std.specs.Prelude.{◌≡◌, nat_le, Some, ◌+◌, ◌<◌, ◌^◌, length, IsTrue, IfOk};
ghost use Rattle.enc_base.specs.Token.{nth_row};
ghost use Rattle.enc_plain.specs.Module.{has_row, kids_of};
ghost use Rattle.enc_plain.specs.Sound.{IsSound, row_count};
ghost use Rattle.enc_schema.specs.Children.{is_child_table, owner_table as table_of_owners};
ghost use Rattle.enc_schema.specs.Schema.{column_in};
ghost use Rattle.enc_schema.specs.declared.column.Column.TheVariants.{Run};
ghost use Rattle.enc_rewriter.specs.Numbers.{run_first, runs_begin, list_of_runs, AreRuns, has_wide_run as run_is_wide, needs_jtd as jtd_is_needed};

use enc_base::Token;
use enc_base::tables::{EVENT, FIELD, METHOD_DEF, PARAM, PROPERTY};
use enc_plain::ModuleView;
use enc_schema::owner_table;
use std::alloc::{AllocError, Global};
use std::marker::Model;

/// How many children a row has in a child table.
#[tactic(auto, using(crate::proofs::Gathers::row_there))]
fn kids_of<V: ModuleView>(view: &V, child: u8, n: u32) -> u32
    requires child { IsTrue (is_child_table child) }
    requires row { n < row_count (V.meaning view.now) (table_of_owners child) }
    requires few { n < 2 ^ 24 }
    ensures { result ≡ length (kids_of (V.meaning view.now) (nth_row (table_of_owners child) n) child) }
{
    let table = owner_table(child);
    view.kids(Token { table, row: n + 1 }, child)
}

/// Where the run of each owner's row begins in a child table.
#[tactic(auto, using(crate::proofs::RunStarts::run_starts_steps))]
pub(crate) fn run_starts<V: ModuleView>(
    alloc: Global,
    view: &V,
    child: u8,
) -> Result<Vec<u32>, AllocError>
    requires sound { IsSound (V.meaning view.now) }
    requires child { IsTrue (is_child_table child) }
    ensures { IfOk result (λ starts. starts.items
        ≡ runs_begin (V.meaning view.now) child (row_count (V.meaning view.now) (table_of_owners child))) }
{
    let mut starts = Vec::new(alloc);
    let mut first = 1;
    for n in 0..view.count(owner_table(child)) {
        starts.push(first)?;
        first += kids_of(view, child, n);
    }
    Ok(starts)
}

/// Where the runs of all owners begin, for each child table.
#[derive(Drop)]
pub(crate) struct Runs {
    pub(crate) fields: Vec<u32>,
    pub(crate) methods: Vec<u32>,
    pub(crate) params: Vec<u32>,
    pub(crate) events: Vec<u32>,
    pub(crate) properties: Vec<u32>,
}

impl Model for Runs {
    ghost use Rattle.enc_rewriter.specs.Numbers.{RunLists};

    ghost Value = { RunLists };

    ghost view = { λ r. record {
      fields = r.fields.items;
      methods = r.methods.items;
      params = r.params.items;
      events = r.events.items;
      properties = r.properties.items;
    } };
}

/// Where all runs of a module begin.
pub(crate) fn all_runs<V: ModuleView>(alloc: Global, view: &V) -> Result<Runs, AllocError>
    requires { IsSound (V.meaning view.now) }
    ensures { IfOk result (λ r. AreRuns (V.meaning view.now) r) }
{
    Ok(Runs {
        fields: run_starts(alloc, view, FIELD)?,
        methods: run_starts(alloc, view, METHOD_DEF)?,
        params: run_starts(alloc, view, PARAM)?,
        events: run_starts(alloc, view, EVENT)?,
        properties: run_starts(alloc, view, PROPERTY)?,
    })
}

impl Runs {
    /// Where the runs in a child table begin.
    fn of(&self, child: u8) -> &[u32]
        ensures { result.now ≡ list_of_runs self.now child }
    {
        match child {
            FIELD => &self.fields,
            METHOD_DEF => &self.methods,
            PARAM => &self.params,
            EVENT => &self.events,
            _ => &self.properties,
        }
    }
}

/// Whether a number doesn't fit two bytes.
fn any_wide(numbers: &[u32]) -> bool
    ensures { result ≡ list_any (λ n. nat_le 0x10000 n) numbers.now }
{
    numbers.iter().any(|n| *n >= 0x10000)
}

/// Whether a run begins behind the last of so many children that their table's indices take two bytes,
/// and its own number doesn't fit these.
#[tactic(auto, using(crate::proofs::RunStarts::wide_runs), unfolding(crate::specs::Numbers::has_wide_run))]
fn has_wide_run<V: ModuleView>(view: &V, runs: &Runs, child: u8) -> bool
    requires runs { AreRuns (V.meaning view.now) runs.now }
    requires child { IsTrue (is_child_table child) }
    ensures { result ≡ run_is_wide (V.meaning view.now) child }
{
    view.count(child) < 0x10000 && any_wide(runs.of(child))
}

/// Whether a run needs indices of four bytes.
#[tactic(auto, unfolding(crate::specs::Numbers::needs_jtd))]
pub(crate) fn needs_jtd<V: ModuleView>(view: &V, runs: &Runs) -> bool
    requires { AreRuns (V.meaning view.now) runs.now }
    ensures { result ≡ jtd_is_needed (V.meaning view.now) }
{
    has_wide_run(view, runs, FIELD)
        || has_wide_run(view, runs, METHOD_DEF)
        || has_wide_run(view, runs, PARAM)
        || has_wide_run(view, runs, EVENT)
        || has_wide_run(view, runs, PROPERTY)
}

/// Where the run of a row begins in a child table.
#[tactic(auto, using(crate::proofs::RunStarts::run_steps, enc_plain::proofs::KindsOf::row_bounds))]
pub(crate) fn run_number<V: ModuleView>(view: &V, runs: &Runs, row: Token, i: u8, child: u8) -> u32
    requires runs { AreRuns (V.meaning view.now) runs.now }
    requires row { IsTrue (has_row (V.meaning view.now) row) }
    requires column { column_in row.table i ≡ Some (Run child) }
    ensures { result ≡ run_first (V.meaning view.now) child row.row }
{
    runs.of(child)[row.row as usize - 1]
}
