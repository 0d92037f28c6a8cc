//! Likeness: whether tokens and signatures say the same though they are different.
ghost use Rattle.std.specs.Prelude.{◌≡◌, ◌&&◌, Some, IsTrue};
ghost use Rattle.enc_base.specs.Token.{is_token};
ghost use Rattle.enc_plain.specs.Alike.{are_rows, same_number, same_bytes, type_refs_alike, assembly_refs_alike, module_refs_alike, type_specs_alike, refs_alike, tokens_alike, signatures_alike, inner_alike, blobs_alike};
ghost use Rattle.enc_plain.specs.Cell.{kind_in, numbers, texts, blobs};
ghost use Rattle.enc_plain.specs.Module.{cells_of};
ghost use Rattle.enc_plain.specs.Namesakes.{AreNamesakes};
ghost use Rattle.enc_plain.specs.Rows.{bytes_at, token_at};
ghost use Rattle.enc_base.specs.Tables.{assembly_ref, type_ref, type_spec};

use crate::cells::{CellView, Viewed};
use crate::namesakes::Namesakes;
use crate::signature::kind_in_table;
use crate::view::ModuleView;
use enc_base::Token;
use enc_base::tables::{ASSEMBLY_REF, MODULE_REF, TYPE_REF, TYPE_SPEC};
use enc_schema::columns::{
    ASSEMBLY_REF_BUILD_NUMBER, ASSEMBLY_REF_CULTURE, ASSEMBLY_REF_FLAGS, ASSEMBLY_REF_HASH_VALUE,
    ASSEMBLY_REF_MAJOR_VERSION, ASSEMBLY_REF_MINOR_VERSION, ASSEMBLY_REF_NAME,
    ASSEMBLY_REF_PUBLIC_KEY_OR_TOKEN, ASSEMBLY_REF_REVISION_NUMBER, MODULE_REF_NAME,
    TYPE_REF_RESOLUTION_SCOPE, TYPE_REF_TYPE_NAME, TYPE_REF_TYPE_NAMESPACE, TYPE_SPEC_SIGNATURE,
};
use enc_sigs::sigs_agree;

/// The tokens are the same.
fn is_same(a: Token, b: Token) -> bool
    ensures { result ≡ is_token a b }
{
    a.table == b.table && a.row == b.row
}

/// Both are rows of a table.
#[tactic(auto, unfolding(crate::specs::Alike::are_rows))]
pub(crate) fn are_rows<R: CellView>(rows: &R, table: u8, a: Token, b: Token) -> bool
    ensures rows { result ≡ are_rows (R.rows rows.now) table a b }
    ensures a { IsTrue result → a.table ≡ table }
    ensures b { IsTrue result → b.table ≡ table }
{
    a.table == table && b.table == table && rows.has(a) && rows.has(b)
}

/// They have the same number in a column of their table.
fn same_number<R: CellView>(rows: &R, table: u8, a: Token, b: Token, column: u8) -> bool
    requires kind { kind_in table column ≡ Some numbers }
    requires a { a.table ≡ table }
    requires b { b.table ≡ table }
    ensures { result ≡ same_number (R.rows rows.now) a b column }
{
    rows.number(a, column) == rows.number(b, column)
}

/// They have the same text in a column of their table.
fn same_text<R: CellView>(rows: &R, table: u8, a: Token, b: Token, column: u8) -> bool
    requires kind { kind_in table column ≡ Some texts }
    requires a { a.table ≡ table }
    requires b { b.table ≡ table }
    ensures { result ≡ same_bytes (R.rows rows.now) a b column }
{
    rows.text(a, column) == rows.text(b, column)
}

/// They have the same blob in a column of their table.
fn same_blob<R: CellView>(rows: &R, table: u8, a: Token, b: Token, column: u8) -> bool
    requires kind { kind_in table column ≡ Some blobs }
    requires a { a.table ≡ table }
    requires b { b.table ≡ table }
    ensures { result ≡ same_bytes (R.rows rows.now) a b column }
{
    rows.blob(a, column) == rows.blob(b, column)
}

/// Rows of TypeRef with equal names and namespaces (ECMA-335 II.22.38).
#[tactic(auto, unfolding(enc_schema::specs::Schema::columns_in))]
fn same_names<R: CellView>(rows: &R, a: Token, b: Token) -> bool
    requires a { a.table ≡ type_ref }
    requires b { b.table ≡ type_ref }
    ensures { result ≡ (same_bytes (R.rows rows.now) a b 1 && same_bytes (R.rows rows.now) a b 2) }
{
    same_text(rows, TYPE_REF, a, b, TYPE_REF_TYPE_NAME)
        && same_text(rows, TYPE_REF, a, b, TYPE_REF_TYPE_NAMESPACE)
}

/// The same. Names that are known to be equal aren't compared again, so rows cost what their number
/// does, and not what that of the pairs does.
fn same_names_known<R: CellView>(rows: &R, known: &mut Namesakes, a: Token, b: Token) -> bool
    requires a { a.table ≡ type_ref }
    requires b { b.table ≡ type_ref }
    requires known { AreNamesakes (R.rows rows.now) known.old }
    ensures names { result ≡ (same_bytes (R.rows rows.now) a b 1 && same_bytes (R.rows rows.now) a b 2) }
    ensures known { AreNamesakes (R.rows rows.now) known.new }
{
    let first = known.end(a.row);
    let second = known.end(b.row);
    if first == second {
        return true;
    }
    if !same_names(rows, a, b) {
        return false;
    }
    known.join(first, second);
    true
}

/// TypeRefs with equal names and namespaces (ECMA-335 II.22.38).
fn are_namesakes<R: CellView>(rows: &R, a: Token, b: Token) -> bool
    ensures names { result ≡ (are_rows (R.rows rows.now) type_ref a b && same_bytes (R.rows rows.now) a b 1
        && same_bytes (R.rows rows.now) a b 2) }
    ensures a { IsTrue result → a.table ≡ type_ref }
    ensures b { IsTrue result → b.table ≡ type_ref }
{
    are_rows(rows, TYPE_REF, a, b) && same_names(rows, a, b)
}

/// The same, where equal names are remembered.
fn are_namesakes_known<R: CellView>(rows: &R, known: &mut Namesakes, a: Token, b: Token) -> bool
    requires known { AreNamesakes (R.rows rows.now) known.old }
    ensures names { result ≡ (are_rows (R.rows rows.now) type_ref a b && same_bytes (R.rows rows.now) a b 1
        && same_bytes (R.rows rows.now) a b 2) }
    ensures a { IsTrue result → a.table ≡ type_ref }
    ensures b { IsTrue result → b.table ≡ type_ref }
    ensures known { AreNamesakes (R.rows rows.now) known.new }
{
    if !are_rows(rows, TYPE_REF, a, b) {
        return false;
    }
    same_names_known(rows, known, a, b)
}

/// AssemblyRefs with the same version and flags (ECMA-335 II.22.5).
#[tactic(auto, unfolding(enc_schema::specs::Schema::columns_in))]
fn same_version<R: CellView>(rows: &R, a: Token, b: Token) -> bool
    requires a { a.table ≡ assembly_ref }
    requires b { b.table ≡ assembly_ref }
    ensures { result ≡ (same_number (R.rows rows.now) a b 0 && same_number (R.rows rows.now) a b 1
        && same_number (R.rows rows.now) a b 2 && same_number (R.rows rows.now) a b 3
        && same_number (R.rows rows.now) a b 4) }
{
    same_number(rows, ASSEMBLY_REF, a, b, ASSEMBLY_REF_MAJOR_VERSION)
        && same_number(rows, ASSEMBLY_REF, a, b, ASSEMBLY_REF_MINOR_VERSION)
        && same_number(rows, ASSEMBLY_REF, a, b, ASSEMBLY_REF_BUILD_NUMBER)
        && same_number(rows, ASSEMBLY_REF, a, b, ASSEMBLY_REF_REVISION_NUMBER)
        && same_number(rows, ASSEMBLY_REF, a, b, ASSEMBLY_REF_FLAGS)
}

/// AssemblyRefs that are equal in all columns (ECMA-335 II.22.5).
#[tactic(auto, unfolding(enc_schema::specs::Schema::columns_in, crate::specs::Alike::assembly_refs_alike))]
fn assembly_refs_alike<R: CellView>(rows: &R, a: Token, b: Token) -> bool
    ensures { result ≡ assembly_refs_alike (R.rows rows.now) a b }
{
    are_rows(rows, ASSEMBLY_REF, a, b)
        && same_version(rows, a, b)
        && same_blob(rows, ASSEMBLY_REF, a, b, ASSEMBLY_REF_PUBLIC_KEY_OR_TOKEN)
        && same_text(rows, ASSEMBLY_REF, a, b, ASSEMBLY_REF_NAME)
        && same_text(rows, ASSEMBLY_REF, a, b, ASSEMBLY_REF_CULTURE)
        && same_blob(rows, ASSEMBLY_REF, a, b, ASSEMBLY_REF_HASH_VALUE)
}

/// ModuleRefs with equal names (ECMA-335 II.22.31).
#[tactic(auto, unfolding(enc_schema::specs::Schema::columns_in, crate::specs::Alike::module_refs_alike))]
fn module_refs_alike<R: CellView>(rows: &R, a: Token, b: Token) -> bool
    ensures { result ≡ module_refs_alike (R.rows rows.now) a b }
{
    are_rows(rows, MODULE_REF, a, b) && same_text(rows, MODULE_REF, a, b, MODULE_REF_NAME)
}

/// The scope of a TypeRef.
#[tactic(auto, unfolding(enc_schema::specs::Schema::columns_in))]
fn scope_of<R: CellView>(rows: &R, token: Token) -> Token
    requires { token.table ≡ type_ref }
    ensures { result ≡ token_at (R.rows rows.now) token 0 }
{
    rows.token(token, TYPE_REF_RESOLUTION_SCOPE)
}

/// Whether tokens are equal, or references alike by at most so many scopes one in the other; past
/// that equal ones alone. Scopes are followed where the names are equal.
#[tactic(auto, using(crate::proofs::Scopes::steps))]
pub(crate) fn refs_alike<R: CellView>(rows: &R, depth: u8, a: Token, b: Token) -> bool
    ensures { result ≡ refs_alike (R.rows rows.now) depth a b }
{
    if is_same(a, b) {
        return true;
    }
    if depth == 0 {
        return false;
    }
    if are_namesakes(rows, a, b) {
        return refs_alike(rows, depth - 1, scope_of(rows, a), scope_of(rows, b));
    }
    assembly_refs_alike(rows, a, b) || module_refs_alike(rows, a, b)
}

/// The same, where equal names are remembered.
#[tactic(auto, using(crate::proofs::Scopes::steps))]
pub(crate) fn refs_alike_known<R: CellView>(
    rows: &R,
    known: &mut Namesakes,
    depth: u8,
    a: Token,
    b: Token,
) -> bool
    requires known { AreNamesakes (R.rows rows.now) known.old }
    ensures alike { result ≡ refs_alike (R.rows rows.now) depth a b }
    ensures known { AreNamesakes (R.rows rows.now) known.new }
{
    if is_same(a, b) {
        return true;
    }
    if depth == 0 {
        return false;
    }
    if are_namesakes_known(rows, known, a, b) {
        let a = scope_of(rows, a);
        let b = scope_of(rows, b);
        return refs_alike_known(rows, known, depth - 1, a, b);
    }
    assembly_refs_alike(rows, a, b) || module_refs_alike(rows, a, b)
}

/// TypeSpecs with alike signatures, within which a TypeSpec is alike itself alone (ECMA-335
/// II.22.39).
#[tactic(auto, unfolding(crate::specs::Alike::type_specs_alike))]
fn type_specs_alike<R: CellView>(rows: &R, a: Token, b: Token) -> bool
    ensures { result ≡ type_specs_alike (R.rows rows.now) a b }
{
    are_rows(rows, TYPE_SPEC, a, b) && specs_alike(rows, spec_of(rows, a), spec_of(rows, b))
}

/// The signature of a TypeSpec.
#[tactic(auto, unfolding(enc_schema::specs::Schema::columns_in))]
pub(crate) fn spec_of<R: CellView>(rows: &R, token: Token) -> &[u8]
    requires { token.table ≡ type_spec }
    ensures { result.now ≡ bytes_at (R.rows rows.now) token 0 }
{
    rows.blob(token, TYPE_SPEC_SIGNATURE)
}

/// Whether the signatures of TypeSpecs are alike.
fn specs_alike<R: CellView>(rows: &R, a: &[u8], b: &[u8]) -> bool
    ensures { result ≡ blobs_alike (inner_alike (R.rows rows.now)) type_spec a.now b.now }
{
    if a == b {
        return true;
    }
    sigs_agree(
        kind_in_table(TYPE_SPEC, a),
        a,
        b,
        |t, u| refs_alike(rows, 99, t, u),
    )
}

/// Whether tokens are alike: they are equal, or TypeRefs with equal names in alike scopes,
/// AssemblyRefs that are equal in all columns, ModuleRefs with equal names, or TypeSpecs with alike
/// signatures (ECMA-335 II.22.38, II.22.5, II.22.31, II.22.39). Likeness ends at a depth of 100,
/// where a scope, and a token in a TypeSpec, is one deeper; past it, equal tokens alone are alike.
#[tactic(auto, unfolding(crate::specs::Alike::tokens_alike))]
pub fn tokens_alike<R: CellView>(rows: &R, a: Token, b: Token) -> bool
    ensures { result ≡ tokens_alike (R.rows rows.now) a b }
{
    refs_alike(rows, 100, a, b) || type_specs_alike(rows, a, b)
}

/// Whether blobs of the signature column of a table's rows are alike: the same bytes, or signatures
/// that are equal but for alike tokens (ECMA-335 II.23.2). Within a TypeSpec, another TypeSpec is
/// alike itself alone.
#[tactic(auto, unfolding(crate::specs::Alike::signatures_alike))]
pub fn signatures_alike<R: CellView>(rows: &R, table: u8, a: &[u8], b: &[u8]) -> bool
    ensures { result ≡ signatures_alike (R.rows rows.now) table a.now b.now }
{
    if table == TYPE_SPEC {
        return specs_alike(rows, a, b);
    }
    if a == b {
        return true;
    }
    sigs_agree(
        kind_in_table(table, a),
        a,
        b,
        |t, u| tokens_alike(rows, t, u),
    )
}

/// Whether tokens of a module are alike, as `tokens_alike` has it.
pub fn alike<V: ModuleView>(view: &V, a: Token, b: Token) -> bool
    ensures { result ≡ tokens_alike (cells_of (V.meaning view.now)) a b }
{
    tokens_alike(&Viewed { view }, a, b)
}
