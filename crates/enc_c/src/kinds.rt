//! Which kind of cell a column has.
ghost use Rattle.std.specs.Prelude.{◌≡◌, option_map};
ghost use Rattle.enc_plain.specs.Cell.{kind_of, kind_in};
ghost use Rattle.enc_c.specs.Kinds.{kind_seen};

use enc_base::tables::{FIELD_RVA, METHOD_DEF};
use enc_schema::columns::METHOD_DEF_RVA;
use enc_schema::{Column, column_of};

/// The kinds of cells.
#[derive(Clone, Copy)]
pub enum CellKind {
    Numbers,
    Texts,
    Blobs,
    Guids,
    References,
    Bodies,
    Fields,
}

/// The kind of a column's cells; a run has none.
fn kind_of(column: Column) -> Option<CellKind>
    ensures { option_map kind_seen result ≡ kind_of column }
{
    match column {
        Column::Num8 | Column::Num16 | Column::Num32 => Some(CellKind::Numbers),
        Column::Text => Some(CellKind::Texts),
        Column::Guid => Some(CellKind::Guids),
        Column::Blob => Some(CellKind::Blobs),
        Column::Index(_) | Column::Coded(_) => Some(CellKind::References),
        Column::Run(_) => None,
    }
}

/// The kind of the cells in a table's column.
pub fn kind_in(table: u8, i: u8) -> Option<CellKind>
    ensures { option_map kind_seen result ≡ kind_in table i }
{
    if table == METHOD_DEF && i == METHOD_DEF_RVA {
        return Some(CellKind::Bodies);
    }
    if table == FIELD_RVA && i == 0 {
        return Some(CellKind::Fields);
    }
    kind_of(column_of(table, i)?)
}
