//! Tests of clauses.
ghost use Rattle.std.specs.Prelude.{◌≡◌, ℕ, Bool};
ghost use Rattle.enc_opcodes.specs.Body.{Handler, handler_meant};

use enc_opcodes::Clause;

/// A test that clauses pass or don't. It takes no memory.
pub(crate) trait ClauseTest {
    // Whether a clause passes, by its number from 0.
    ghost test: { Self → ℕ → Handler → Bool };

    /// Whether a clause passes, by its number from 0.
    fn passes(&self, k: u32, clause: Clause) -> bool
        ensures { result ≡ test self.now k (handler_meant clause) };
}
