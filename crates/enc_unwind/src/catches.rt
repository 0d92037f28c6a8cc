//! The catch clauses that take a thrown object.
ghost use Rattle.std.specs.Prelude.{◌≡◌};
ghost use Rattle.enc_opcodes.specs.Body.{handler_meant};
ghost use Rattle.enc_unwind.specs.Search.{takes};

use crate::kinds::protects;
use crate::passing::ClauseTest;
use crate::thrown::Thrown;
use crate::types::is_caught_by;
use enc_base::Token;
use enc_opcodes::Clause;
use enc_plain::ModuleView;

/// Passes catch clauses that protect an offset and take a thrown object.
#[derive(Drop)]
pub(crate) struct Catches<'a, V: ModuleView> {
    /// The module of the classes.
    pub view: &'a V,
    /// The offset at which the object is thrown.
    pub offset: u32,
    /// The object.
    pub thrown: Thrown,
}

/// Whether a clause is a catch clause that takes a thrown object. Filters take none here.
fn takes<V: ModuleView>(view: &V, thrown: Thrown, clause: Clause) -> bool
    ensures { result ≡ takes (V.meaning view.now) thrown (handler_meant clause).kind }
{
    match clause.kind {
        1 | 2 | 4 => false,
        _ => is_caught_by(view, thrown, Token::of(clause.extra)),
    }
}

impl<V: ModuleView> ClauseTest for Catches<'_, V> {
    ghost use Rattle.std.specs.Prelude.{◌&&◌};
    ghost use Rattle.enc_unwind.specs.Search.{protects, takes};

    ghost test = { λ t k clause. protects clause t.offset && takes (V.meaning t.view.now) t.thrown clause.kind };

    fn passes(&self, _k: u32, clause: Clause) -> bool {
        protects(clause, self.offset) && takes(self.view, self.thrown, clause)
    }
}
