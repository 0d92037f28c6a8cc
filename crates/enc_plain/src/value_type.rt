//! Which types are value types (ECMA-335 II.10.1.3).
ghost use Rattle.std.specs.Prelude.{◌≡◌};
ghost use Rattle.enc_base.specs.Tables.{type_def};
ghost use Rattle.enc_plain.specs.ValueType.{is_value_type};

use crate::cells::CellView;
use enc_base::Token;
use enc_base::tables::TYPE_REF;
use enc_schema::columns::{TYPE_DEF_EXTENDS, TYPE_REF_TYPE_NAME, TYPE_REF_TYPE_NAMESPACE};

/// Whether the type extends System.ValueType or System.Enum, whatever its scope (ECMA-335
/// II.10.1.3).
#[tactic(auto, using(crate::proofs::ColumnKinds::base_steps), unfolding(crate::specs::ValueType::is_value_type))]
pub fn is_value_type<R: CellView>(rows: &R, owner: Token) -> bool
    requires { owner.table ≡ type_def }
    ensures { result ≡ is_value_type (R.rows rows.now) owner }
{
    let base = rows.token(owner, TYPE_DEF_EXTENDS);
    if base.table != TYPE_REF || rows.text(base, TYPE_REF_TYPE_NAMESPACE) != b"System".as_slice() {
        return false;
    }
    let name = rows.text(base, TYPE_REF_TYPE_NAME);
    name == b"ValueType".as_slice() || name == b"Enum".as_slice()
}
