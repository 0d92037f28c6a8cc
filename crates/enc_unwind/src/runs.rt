//! The clauses that run on the way out.
ghost use Rattle.std.specs.Prelude.{◌≡◌, ◌&&◌};
ghost use Rattle.enc_opcodes.specs.Body.{handler_meant};
ghost use Rattle.enc_unwind.specs.Search.{is_after, runs_on};

use crate::kinds::{is_finally, protects, runs_always};
use crate::passing::ClauseTest;
use crate::way_out::WayOut;
use enc_opcodes::Clause;

/// Passes clauses behind the last one tried that protect an offset and run on the way out.
#[derive(Clone, Copy)]
pub(crate) struct Runs {
    /// The number of the last clause that was tried, None before the first.
    pub past: Option<u32>,
    /// The offset that is left.
    pub offset: u32,
    /// How far the way goes.
    pub stop: WayOut,
}

/// Whether a clause stands behind the last one tried.
fn is_after(past: Option<u32>, k: u32) -> bool
    ensures { result ≡ is_after past k }
{
    match past {
        None => true,
        Some(last) => last < k,
    }
}

/// Whether a clause runs on the way out: at a `leave` a finally clause that doesn't protect the target,
/// and for a thrown object each finally and fault clause before the one that takes it (ECMA-335
/// I.12.4.2.5, III.3.46).
fn runs_on(stop: WayOut, k: u32, clause: Clause) -> bool
    ensures { result ≡ runs_on stop k (handler_meant clause) }
{
    match stop {
        WayOut::Leave(goal) => is_finally(clause) && !protects(clause, goal),
        WayOut::Before(last) => runs_always(clause) && k < last,
        WayOut::All => runs_always(clause),
    }
}

impl ClauseTest for Runs {
    ghost use Rattle.std.specs.Prelude.{◌&&◌};
    ghost use Rattle.enc_unwind.specs.Search.{is_after, protects, runs_on};

    ghost test = { λ t k clause. is_after t.past k && protects clause t.offset && runs_on t.stop k clause };

    fn passes(&self, k: u32, clause: Clause) -> bool {
        is_after(self.past, k) && protects(clause, self.offset) && runs_on(self.stop, k, clause)
    }
}
