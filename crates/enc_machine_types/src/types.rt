//! The kinds of types by their tokens (ECMA-335 I.8.2.2).
ghost use Rattle.std.specs.Prelude.{◌≡◌, List, map};
ghost use Rattle.enc_base.specs.Tables.{type_def, type_ref};
ghost use Rattle.enc_plain.specs.Module.{cells_of};
ghost use Rattle.enc_machine_types.specs.Types.{found, reference_kind, type_kind};
ghost use Rattle.enc_machine_types.specs.Seen.{system_kind_seen};

use enc_base::Token;
use enc_base::tables::{TYPE_DEF, TYPE_REF};
use enc_objects::Kind;
use enc_plain::{CellView, ModuleView, Viewed, is_value_type};
use enc_schema::columns::{TYPE_REF_TYPE_NAME, TYPE_REF_TYPE_NAMESPACE};

/// The name of a type of the namespace System, and its kind.
struct SystemKind(&'static str, Kind);

/// The kinds of the types that the namespace System has under these names.
static SYSTEM_KINDS: [SystemKind; 12] = [
    SystemKind("Boolean", Kind::U1),
    SystemKind("Char", Kind::U2),
    SystemKind("SByte", Kind::I1),
    SystemKind("Byte", Kind::U1),
    SystemKind("Int16", Kind::I2),
    SystemKind("UInt16", Kind::U2),
    SystemKind("Int32", Kind::I4),
    SystemKind("UInt32", Kind::U4),
    SystemKind("Int64", Kind::I8),
    SystemKind("UInt64", Kind::U8),
    SystemKind("String", Kind::Ref),
    SystemKind("Object", Kind::Ref),
];

/// The kind that the first row with this name has.
fn found(name: &[u8], rows: &[SystemKind]) -> Option<Kind>
    ensures { result ≡ found name.now (map system_kind_seen rows.now) }
{
    for row in rows {
        if name == row.0.as_bytes() {
            return Some(row.1);
        }
    }
    None
}

/// The kind of a TypeRef by its name, where it is of the namespace System, whatever its scope (ECMA-335
/// II.22.38).
#[tactic(auto, using(enc_plain::proofs::ColumnKinds::reference_steps), unfolding(crate::specs::Types::reference_kind))]
fn reference_kind<V: ModuleView>(view: &V, token: Token) -> Option<Kind>
    requires { token.table ≡ type_ref }
    ensures { result ≡ reference_kind (V.meaning view.now) token }
{
    let rows = Viewed { view };
    if rows.text(token, TYPE_REF_TYPE_NAMESPACE) != b"System".as_slice() {
        return None;
    }
    found(rows.text(token, TYPE_REF_TYPE_NAME), &SYSTEM_KINDS)
}

/// The kind of a type by its token: of a TypeRef by its name in the namespace System, a reference of a
/// TypeDef that is no value type, None of all others (ECMA-335 I.8.2.2).
#[tactic(auto, unfolding(crate::specs::Types::type_kind))]
pub fn type_kind<V: ModuleView>(view: &V, token: Token) -> Option<Kind>
    ensures { result ≡ type_kind (V.meaning view.now) token }
{
    match token.table {
        TYPE_REF => reference_kind(view, token),
        TYPE_DEF => {
            if is_value_type(&Viewed { view }, token) {
                return None;
            }
            Some(Kind::Ref)
        }
        _ => None,
    }
}
