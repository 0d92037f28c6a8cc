//! Members by their names.
ghost use Rattle.std.specs.Prelude.{◌≡◌, ◌<◌, ◌^◌, ◌++◌, filter, IfOk, IsTrue};
ghost use Rattle.enc_lookup.specs.Members.{is_called, kids_named, members_named as the_members_named, named_behind, named_upto, owned_by};
ghost use Rattle.enc_plain.specs.Sound.{row_count};
ghost use Rattle.enc_schema.specs.Children.{is_child_table, owner_table as table_of_owners};

use enc_base::Token;
use enc_base::tables::{EVENT, FIELD, METHOD_DEF, PARAM, PROPERTY, TYPE_DEF};
use enc_plain::{CellView, ModuleView, Viewed, is_row};
use enc_schema::columns::{EVENT_NAME, FIELD_NAME, METHOD_DEF_NAME, PARAM_NAME, PROPERTY_NAME};
use enc_schema::{is_child_table, owner_table};
use std::alloc::{AllocError, Global};

/// The column of EventMap and of PropertyMap that names a type (ECMA-335 II.22.12, II.22.35).
const MAP_PARENT: u8 = 0;

/// A row of a table.
fn row_in(table: u8, row: u32) -> Token
    ensures { result ≡ record { table = table; row = row } }
{
    Token { table, row }
}

/// What is looked for: a name among the rows of Field, MethodDef, Param, Event or Property.
#[derive(Clone, Copy)]
struct Wanted<'a> {
    table: u8,
    name: &'a [u8],
}

/// Whether a row has the name.
#[tactic(auto, using(crate::proofs::NameColumns::name_cases), unfolding(crate::specs::Members::is_called))]
fn is_called<V: ModuleView>(view: &V, wanted: Wanted<'_>, row: u32) -> bool
    requires { IsTrue (is_child_table wanted.table) }
    ensures { result ≡ is_called (V.meaning view.now) wanted.entry.table wanted.entry.name.now row }
{
    let rows = Viewed { view };
    let token = row_in(wanted.table, row);
    match wanted.table {
        FIELD => rows.text(token, FIELD_NAME) == wanted.name,
        METHOD_DEF => rows.text(token, METHOD_DEF_NAME) == wanted.name,
        PARAM => rows.text(token, PARAM_NAME) == wanted.name,
        EVENT => rows.text(token, EVENT_NAME) == wanted.name,
        PROPERTY => rows.text(token, PROPERTY_NAME) == wanted.name,
        _ => unreachable!(),
    }
}

/// Appends those of some rows that have the name.
fn push_named<V: ModuleView>(
    view: &V,
    wanted: Wanted<'_>,
    rows: &[u32],
    found: &mut Vec<u32>,
) -> Result<(), AllocError>
    requires { IsTrue (is_child_table wanted.table) }
    ensures { IfOk result (λ _. found.new.items ≡ found.old.items ++ filter
        (is_called (V.meaning view.now) wanted.entry.table wanted.entry.name.now) rows.now) }
{
    for row in rows {
        if is_called(view, wanted, *row) {
            found.push(*row)?;
        }
    }
    Ok(())
}

/// Appends the children of a row that have the name; a row that isn't there has none.
#[tactic(auto, using(crate::proofs::NoKids::none_named), unfolding(crate::specs::Members::kids_named))]
fn push_kids<V: ModuleView>(
    alloc: Global,
    view: &V,
    wanted: Wanted<'_>,
    owner: Token,
    found: &mut Vec<u32>,
) -> Result<(), AllocError>
    requires table { IsTrue (is_child_table wanted.table) }
    requires owner { owner.table ≡ table_of_owners wanted.table }
    ensures { IfOk result (λ _. found.new.items
        ≡ found.old.items ++ kids_named (V.meaning view.now) wanted.entry.table wanted.entry.name.now owner) }
{
    if !is_row(view, owner) {
        return Ok(());
    }
    let rows = view.kid_rows(alloc, owner, wanted.table)?;
    push_named(view, wanted, &rows, found)
}

/// Appends the events or properties of a type that have the name and stand behind the n-th row of their map, n from 0.
#[tactic(auto, using(crate::proofs::NameColumns::parent_cases), unfolding(crate::specs::Members::named_behind))]
fn push_behind<V: ModuleView>(
    alloc: Global,
    view: &V,
    wanted: Wanted<'_>,
    owned: Token,
    n: u32,
    found: &mut Vec<u32>,
) -> Result<(), AllocError>
    requires table { IsTrue (owned_by wanted.table) }
    requires few { n < 2 ^ 24 }
    ensures { IfOk result (λ _. found.new.items
        ≡ found.old.items ++ named_behind (V.meaning view.now) wanted.entry.table wanted.entry.name.now owned n) }
{
    let rows = Viewed { view };
    let row = Token {
        table: owner_table(wanted.table),
        row: n + 1,
    };
    if rows.token(row, MAP_PARENT) != owned {
        return Ok(());
    }
    push_kids(alloc, view, wanted, row, found)
}

/// The events or properties of a type that have the name.
#[tactic(auto, using(crate::proofs::Maps::none_yet, crate::proofs::Maps::one_more))]
fn mapped<V: ModuleView>(
    alloc: Global,
    view: &V,
    wanted: Wanted<'_>,
    owned: Token,
) -> Result<Vec<u32>, AllocError>
    requires { IsTrue (owned_by wanted.table) }
    ensures { IfOk result (λ f. f.items ≡ named_upto (V.meaning view.now) wanted.entry.table wanted.entry.name.now owned
        (row_count (V.meaning view.now) (table_of_owners wanted.entry.table))) }
{
    let mut found = Vec::new(alloc);
    for n in 0..view.count(owner_table(wanted.table)) {
        push_behind(alloc, view, wanted, owned, n, &mut found)?;
    }
    Ok(found)
}

/// The children of one row that have the name.
fn kids_named<V: ModuleView>(
    alloc: Global,
    view: &V,
    wanted: Wanted<'_>,
    owner: Token,
) -> Result<Vec<u32>, AllocError>
    requires table { IsTrue (is_child_table wanted.table) }
    requires owner { owner.table ≡ table_of_owners wanted.table }
    ensures { IfOk result (λ f. f.items
        ≡ kids_named (V.meaning view.now) wanted.entry.table wanted.entry.name.now owner) }
{
    let mut found = Vec::new(alloc);
    push_kids(alloc, view, wanted, owner, &mut found)?;
    Ok(found)
}

/// Whether a type has the rows of a table by way of a map: Event and Property.
fn owned_by(table: u8) -> bool
    ensures { result ≡ owned_by table }
{
    is_child_table(table) && owner_table(table) != METHOD_DEF && owner_table(table) != TYPE_DEF
}

/// The rows of Field, MethodDef, Param, Event or Property with a name that belong to a row: to a type, to a method, or
/// to a row of EventMap or PropertyMap. The events and properties of a type are those of all rows of their map that
/// name it. They come in order of attachment; a type that has none, a row that isn't there and another table give none.
///
/// It goes over the row's children in that table alone; for the events and properties of a type also over their map.
#[tactic(auto, unfolding(crate::specs::Members::members_named))]
pub fn members_named<V: ModuleView>(
    alloc: Global,
    view: &V,
    owner: Token,
    table: u8,
    name: &[u8],
) -> Result<Vec<u32>, AllocError>
    ensures { IfOk result (λ f. f.items ≡ the_members_named (V.meaning view.now) owner table name.now) }
{
    if !is_child_table(table) {
        return Ok(Vec::new(alloc));
    }
    let wanted = Wanted { table, name };
    if owner.table == owner_table(table) {
        return kids_named(alloc, view, wanted, owner);
    }
    if owned_by(table) && owner.table == TYPE_DEF {
        return mapped(alloc, view, wanted, owner);
    }
    Ok(Vec::new(alloc))
}
