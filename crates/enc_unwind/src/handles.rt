//! The clauses whose handlers have an offset.
ghost use Rattle.std.specs.Prelude.{◌≡◌};
ghost use Rattle.enc_opcodes.specs.Body.{handler_meant};
ghost use Rattle.enc_unwind.specs.Search.{is_in_handler};

use crate::passing::ClauseTest;
use enc_opcodes::Clause;

/// Passes clauses whose handler has an offset.
#[derive(Clone, Copy)]
pub(crate) struct Handles {
    /// The offset.
    pub offset: u32,
}

/// Whether the handler of a clause has the instruction at an offset.
fn is_in_handler(clause: Clause, offset: u32) -> bool
    ensures { result ≡ is_in_handler offset (handler_meant clause) }
{
    clause.handler.0 <= offset && offset < clause.handler.1
}

impl ClauseTest for Handles {
    ghost use Rattle.enc_unwind.specs.Search.{is_in_handler};

    ghost test = { λ t k clause. is_in_handler t.offset clause };

    fn passes(&self, k: u32, clause: Clause) -> bool {
        is_in_handler(clause, self.offset)
    }
}
