//! The edits of a list.
ghost use Rattle.std.specs.Prelude.{◌≡◌, List, ℕ, ◌<◌, ◌≤◌, map, IfSome};
ghost use Rattle.std.specs.Borrow.{Bor};
ghost use Rattle.serde_json.specs.View.{view};
ghost use Rattle.enc_schema.specs.Names.{table_name_in};
ghost use Rattle.enc_jobs.specs.Outcome.{ReadsAs, GivesList};
ghost use Rattle.enc_jobs.specs.Edits.{has_this_name as has_name, table_named, add_keys, owner_said, add_to_said, add_said, replace_said, edit_of_kind, edit_said};

use crate::body::{method_if, one_method};
use crate::cell::cells;
use crate::fault::Refused;
use crate::value::{at_key, elements, has_only, text, token};
use enc_base::Token;
use enc_base::tables::METHOD_DEF;
use enc_edit_list::Edit;
use enc_schema::{is_child_table, table_name};
use serde_json::Value;
use std::alloc::Global;

/// How many numbers of tables there are names for.
const TABLES: u8 = 56;

/// Whether this is a table's name.
fn has_this_name(name: &str, table: u8) -> bool
    ensures { result ≡ has_name name.now (table_name_in table) }
{
    match table_name(table) {
        Some(known) => known == name,
        None => false,
    }
}

/// The table with a name.
#[tactic(auto, using(enc_base::proofs::First::first_steps), unfolding(crate::specs::Edits::table_named))]
fn table_of(name: &str) -> Option<u8>
    ensures { result ≡ table_named name.now }
{
    for table in 0..TABLES {
        if has_this_name(name, table) {
            return Some(table);
        }
    }
    None
}

/// The keys of an edit that adds a row to a table.
#[tactic(auto, unfolding(crate::specs::Edits::add_keys))]
fn add_keys(table: u8) -> &'static [&'static str]
    ensures { map (λ (s : Bor (List ℕ)). s.now) result.now ≡ add_keys table }
{
    if table == METHOD_DEF {
        return &["do", "table", "cells", "owner", "code", "points"];
    }
    if is_child_table(table) {
        return &["do", "table", "cells", "owner"];
    }
    &["do", "table", "cells"]
}

/// The owner of a row that is added to a table, nil where the table has none.
#[tactic(auto, unfolding(crate::specs::Edits::owner_said))]
fn owner(table: u8, value: &Value) -> Result<Token, Refused>
    ensures { ReadsAs result (owner_said table (view value.now)) }
{
    if is_child_table(table) {
        return token(at_key(value, "owner")?);
    }
    Ok(Token { table: 0, row: 0 })
}

/// An edit that adds a row to this table.
#[tactic(auto, unfolding(crate::specs::Edits::add_to_said))]
fn add_to(alloc: Global, value: &Value, table: u8) -> Result<Edit, Refused>
    ensures { ReadsAs result (add_to_said (view value.now) table) }
{
    if !has_only(value, add_keys(table)) {
        return Err(Refused::Form);
    }
    let owner = owner(table, value)?;
    let items = elements(at_key(value, "cells")?)?;
    let cells = cells(alloc, table, items)?;
    let (code, points) = method_if(alloc, value.get("code"), value.get("points"))?;
    Ok(Edit::Add {
        table,
        owner,
        cells,
        code,
        points,
    })
}

/// An edit that adds a row.
#[tactic(auto, unfolding(crate::specs::Edits::add_said))]
fn add(alloc: Global, value: &Value) -> Result<Edit, Refused>
    ensures { ReadsAs result (add_said (view value.now)) }
{
    let name = text(at_key(value, "table")?)?;
    let Some(table) = table_of(name) else {
        return Err(Refused::Form);
    };
    add_to(alloc, value, table)
}

/// An edit that replaces a body.
#[tactic(auto, unfolding(crate::specs::Edits::replace_said))]
fn replace(alloc: Global, value: &Value) -> Result<Edit, Refused>
    ensures { ReadsAs result (replace_said (view value.now)) }
{
    if !has_only(value, &["do", "method", "code", "points"]) {
        return Err(Refused::Form);
    }
    let method = token(at_key(value, "method")?)?;
    let code = at_key(value, "code")?;
    let said = one_method(alloc, code, value.get("points"))?;
    Ok(Edit::Body {
        method,
        code: said.body,
        points: said.points,
    })
}

/// An edit of the kind with this name.
fn of_kind(alloc: Global, value: &Value, kind: &str) -> Result<Edit, Refused>
    ensures { ReadsAs result (edit_of_kind (view value.now) kind.now) }
{
    if kind == "add" {
        return add(alloc, value);
    }
    if kind == "body" {
        return replace(alloc, value);
    }
    Err(Refused::Form)
}

/// An edit.
#[tactic(auto, unfolding(crate::specs::Edits::edit_said))]
pub fn one_edit(alloc: Global, value: &Value) -> Result<Edit, Refused>
    ensures { ReadsAs result (edit_said (view value.now)) }
{
    let kind = text(at_key(value, "do")?)?;
    of_kind(alloc, value, kind)
}
