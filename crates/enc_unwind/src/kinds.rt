//! What clauses are for, by their kinds (ECMA-335 II.25.4.6).
ghost use Rattle.std.specs.Prelude.{◌≡◌, ◌≤◌};
ghost use Rattle.enc_opcodes.specs.Body.{handler_meant};
ghost use Rattle.enc_unwind.specs.Search.{is_in_range, protects, is_finally, runs_always};

use enc_opcodes::Clause;

/// Whether a clause protects the instruction at an offset: its protected code has the offset.
pub(crate) fn protects(clause: Clause, offset: u32) -> bool
    ensures { result ≡ protects (handler_meant clause) offset }
{
    clause.tries.0 <= offset && offset < clause.tries.1
}

/// Whether a clause is a finally clause.
pub(crate) fn is_finally(clause: Clause) -> bool
    ensures { result ≡ is_finally (handler_meant clause).kind }
{
    clause.kind == 2
}

/// Whether a clause is a finally or a fault clause.
pub(crate) fn runs_always(clause: Clause) -> bool
    ensures { result ≡ runs_always (handler_meant clause).kind }
{
    matches!(clause.kind, 2 | 4)
}
