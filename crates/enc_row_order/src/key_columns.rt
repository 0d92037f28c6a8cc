//! The columns by which tables are searched.
ghost use Rattle.std.specs.Prelude.{◌≡◌, ◌≤◌, length};
ghost use Rattle.enc_row_order.specs.Orders.{key_columns};

use enc_base::tables::{
    CLASS_LAYOUT, CONSTANT, CUSTOM_ATTRIBUTE, DECL_SECURITY, FIELD_LAYOUT, FIELD_MARSHAL,
    FIELD_RVA, GENERIC_PARAM, GENERIC_PARAM_CONSTRAINT, IMPL_MAP, INTERFACE_IMPL, METHOD_IMPL,
    METHOD_SEMANTICS, NESTED_CLASS,
};

/// The columns by whose numbers the rows of a table go, the first counting most; none where they don't
/// go by keys (ECMA-335 II.22).
#[tactic(auto, unfolding(crate::specs::Orders::key_columns))]
pub(crate) fn key_columns(table: u8) -> &'static [u8]
    ensures columns { result.now ≡ key_columns table }
    ensures few { length result.now ≤ 2 }
{
    match table {
        INTERFACE_IMPL => &[0, 1],
        CONSTANT => &[1],
        CUSTOM_ATTRIBUTE => &[0],
        FIELD_MARSHAL => &[0],
        DECL_SECURITY => &[1],
        CLASS_LAYOUT => &[2],
        FIELD_LAYOUT => &[1],
        METHOD_SEMANTICS => &[2],
        METHOD_IMPL => &[0],
        IMPL_MAP => &[1],
        FIELD_RVA => &[1],
        NESTED_CLASS => &[0],
        GENERIC_PARAM => &[2, 0],
        GENERIC_PARAM_CONSTRAINT => &[0],
        _ => &[],
    }
}
