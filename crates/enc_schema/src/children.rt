//! Which tables hold children, which tables own them, and by which columns (ECMA-335 II.22.37,
//! II.22.26, II.22.12, II.22.35).
ghost use Rattle.std.specs.Prelude.{◌≡◌, ◌<◌};
ghost use Rattle.enc_schema.specs.Children.{ptr_of, is_child_table as has_owners, owner_table as table_of_owners, run_column as column_of_runs, run_index as index_of_runs, runs_in};

use crate::columns::{
    EVENT_MAP_EVENT_LIST, METHOD_DEF_PARAM_LIST, PROPERTY_MAP_PROPERTY_LIST, TYPE_DEF_FIELD_LIST,
    TYPE_DEF_METHOD_LIST,
};
use enc_base::tables::{
    EVENT, EVENT_MAP, EVENT_PTR, FIELD, FIELD_PTR, METHOD_DEF, METHOD_PTR, PARAM, PARAM_PTR,
    PROPERTY, PROPERTY_MAP, PROPERTY_PTR, TYPE_DEF,
};

/// The Ptr table of a child table, 0 where it has none.
pub fn ptr_table(child: u8) -> u8
    ensures ptr { result ≡ ptr_of child }
    ensures few { result < 64 }
{
    match child {
        FIELD => FIELD_PTR,
        METHOD_DEF => METHOD_PTR,
        PARAM => PARAM_PTR,
        EVENT => EVENT_PTR,
        PROPERTY => PROPERTY_PTR,
        _ => 0,
    }
}

/// Whether the rows of a table have owners: Field, MethodDef, Param, Event and Property.
pub fn is_child_table(table: u8) -> bool
    ensures { result ≡ has_owners table }
{
    ptr_table(table) > 0
}

/// The table whose rows own the rows of a child table.
pub fn owner_table(child: u8) -> u8
    ensures { result ≡ table_of_owners child }
{
    match child {
        FIELD | METHOD_DEF => TYPE_DEF,
        PARAM => METHOD_DEF,
        EVENT => EVENT_MAP,
        _ => PROPERTY_MAP,
    }
}

/// The column of the owners' table that holds the runs of a child table.
pub fn run_column(child: u8) -> u8
    ensures { result ≡ column_of_runs child }
{
    match child {
        FIELD => TYPE_DEF_FIELD_LIST,
        METHOD_DEF => TYPE_DEF_METHOD_LIST,
        PARAM => METHOD_DEF_PARAM_LIST,
        EVENT => EVENT_MAP_EVENT_LIST,
        _ => PROPERTY_MAP_PROPERTY_LIST,
    }
}

/// The place of a child table's runs among those of its owners.
pub fn run_index(child: u8) -> u8
    ensures { result ≡ index_of_runs child }
{
    if child == METHOD_DEF { 1 } else { 0 }
}

/// The child tables of a table, in the order of its runs.
pub fn runs_of(table: u8) -> &'static [u8]
    ensures { result.now ≡ runs_in table }
{
    match table {
        TYPE_DEF => &[FIELD, METHOD_DEF],
        METHOD_DEF => &[PARAM],
        EVENT_MAP => &[EVENT],
        PROPERTY_MAP => &[PROPERTY],
        _ => &[],
    }
}
