//! Types of the namespace System (ECMA-335 II.22.38).
ghost use Rattle.std.specs.Prelude.{◌≡◌};
ghost use Rattle.enc_plain.specs.System.{is_of_system};

use crate::cells::{CellView, Viewed};
use crate::view::ModuleView;
use enc_base::Token;
use enc_base::tables::TYPE_REF;
use enc_schema::columns::{TYPE_REF_TYPE_NAME, TYPE_REF_TYPE_NAMESPACE};

/// Whether the token is a TypeRef of the namespace System with this name, whatever its scope (ECMA-335
/// II.22.38).
#[tactic(auto, using(crate::proofs::ColumnKinds::reference_steps), unfolding(crate::specs::System::is_of_system))]
pub fn is_of_system<V: ModuleView>(view: &V, name: &[u8], token: Token) -> bool
    ensures { result ≡ is_of_system (V.meaning view.now) name.now token }
{
    if token.table != TYPE_REF {
        return false;
    }
    let rows = Viewed { view };
    rows.text(token, TYPE_REF_TYPE_NAMESPACE) == b"System".as_slice()
        && rows.text(token, TYPE_REF_TYPE_NAME) == name
}
