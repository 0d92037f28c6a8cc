//! Keys of tokens and signatures: mixes that alike ones have in common, by which those that may be
//! alike are found.
ghost use Rattle.std.specs.Prelude.{◌≡◌};
ghost use Rattle.enc_plain.specs.Keys.{token_key, name_mix, names_key, version_key, assembly_ref_key, module_ref_key, reference_key, single_key, scope_of};
ghost use Rattle.enc_plain.specs.Rows.{token_at, bytes_at};
ghost use Rattle.enc_base.specs.Tables.{assembly_ref, module_ref, type_ref, type_spec};

use crate::cells::CellView;
use enc_base::Token;
use enc_base::tables::{ASSEMBLY_REF, MODULE_REF, TYPE_REF};
use enc_schema::columns::{
    ASSEMBLY_REF_BUILD_NUMBER, ASSEMBLY_REF_CULTURE, ASSEMBLY_REF_FLAGS, ASSEMBLY_REF_HASH_VALUE,
    ASSEMBLY_REF_MAJOR_VERSION, ASSEMBLY_REF_MINOR_VERSION, ASSEMBLY_REF_NAME,
    ASSEMBLY_REF_PUBLIC_KEY_OR_TOKEN, ASSEMBLY_REF_REVISION_NUMBER, MODULE_REF_NAME,
    TYPE_REF_RESOLUTION_SCOPE, TYPE_REF_TYPE_NAME, TYPE_REF_TYPE_NAMESPACE, TYPE_SPEC_SIGNATURE,
};
use enc_sigs::{Mix, mix_of, mixed, mixed_both, mixed_ends};

/// How many bytes of a name count at either end.
const MOST: usize = 0x800;

/// The key of a token that is alike itself alone.
#[tactic(auto, unfolding(crate::specs::Keys::token_key))]
pub fn token_key(token: Token) -> Mix
    ensures { result ≡ token_key token }
{
    mixed(mix_of(u64::from(token.table)), u64::from(token.row))
}

/// The mix of a name by itself.
#[tactic(auto, unfolding(crate::specs::Keys::name_mix))]
fn name_mix(bytes: &[u8]) -> Mix
    ensures { result ≡ name_mix bytes.now }
{
    mixed_ends(MOST, mix_of(0), bytes)
}

/// The key of a TypeRef's two names.
#[tactic(auto, unfolding(enc_schema::specs::Schema::columns_in, crate::specs::Keys::names_key))]
fn names_key<R: CellView>(rows: &R, token: Token) -> Mix
    requires { token.table ≡ type_ref }
    ensures { result ≡ names_key (R.rows rows.now) token }
{
    let name = name_mix(rows.text(token, TYPE_REF_TYPE_NAME));
    mixed_both(name, name_mix(rows.text(token, TYPE_REF_TYPE_NAMESPACE)))
}

/// The key of an AssemblyRef's version and flags.
#[tactic(auto, unfolding(enc_schema::specs::Schema::columns_in, crate::specs::Keys::version_key))]
fn version_key<R: CellView>(rows: &R, token: Token) -> Mix
    requires { token.table ≡ assembly_ref }
    ensures { result ≡ version_key (R.rows rows.now) token }
{
    let mix = mix_of(u64::from(ASSEMBLY_REF));
    let mix = mixed(
        mix,
        u64::from(rows.number(token, ASSEMBLY_REF_MAJOR_VERSION)),
    );
    let mix = mixed(
        mix,
        u64::from(rows.number(token, ASSEMBLY_REF_MINOR_VERSION)),
    );
    let mix = mixed(
        mix,
        u64::from(rows.number(token, ASSEMBLY_REF_BUILD_NUMBER)),
    );
    let mix = mixed(
        mix,
        u64::from(rows.number(token, ASSEMBLY_REF_REVISION_NUMBER)),
    );
    mixed(mix, u64::from(rows.number(token, ASSEMBLY_REF_FLAGS)))
}

/// The key of an AssemblyRef: all its columns.
#[tactic(auto, unfolding(enc_schema::specs::Schema::columns_in, crate::specs::Keys::assembly_ref_key))]
fn assembly_ref_key<R: CellView>(rows: &R, token: Token) -> Mix
    requires { token.table ≡ assembly_ref }
    ensures { result ≡ assembly_ref_key (R.rows rows.now) token }
{
    let mix = version_key(rows, token);
    let mix = mixed_ends(
        MOST,
        mix,
        rows.blob(token, ASSEMBLY_REF_PUBLIC_KEY_OR_TOKEN),
    );
    let mix = mixed_ends(MOST, mix, rows.text(token, ASSEMBLY_REF_NAME));
    let mix = mixed_ends(MOST, mix, rows.text(token, ASSEMBLY_REF_CULTURE));
    mixed_ends(MOST, mix, rows.blob(token, ASSEMBLY_REF_HASH_VALUE))
}

/// The key of a ModuleRef: its name.
#[tactic(auto, unfolding(enc_schema::specs::Schema::columns_in, crate::specs::Keys::module_ref_key))]
fn module_ref_key<R: CellView>(rows: &R, token: Token) -> Mix
    requires { token.table ≡ module_ref }
    ensures { result ≡ module_ref_key (R.rows rows.now) token }
{
    mixed_ends(
        MOST,
        mix_of(u64::from(MODULE_REF)),
        rows.text(token, MODULE_REF_NAME),
    )
}

/// The key of a row by itself, without its scope.
#[tactic(auto, unfolding(crate::specs::Keys::reference_key))]
fn reference_key<R: CellView>(rows: &R, token: Token) -> Mix
    ensures { result ≡ reference_key (R.rows rows.now) token }
{
    if token.table == TYPE_REF {
        return names_key(rows, token);
    }
    if token.table == ASSEMBLY_REF {
        return assembly_ref_key(rows, token);
    }
    if token.table == MODULE_REF {
        return module_ref_key(rows, token);
    }
    token_key(token)
}

/// The key of a token by itself. One that names no row is alike itself alone.
#[tactic(auto, unfolding(crate::specs::Keys::single_key))]
pub fn single_key<R: CellView>(rows: &R, token: Token) -> Mix
    ensures { result ≡ single_key (R.rows rows.now) token }
{
    if rows.has(token) {
        return reference_key(rows, token);
    }
    token_key(token)
}

/// The scope of a TypeRef.
#[tactic(auto, unfolding(enc_schema::specs::Schema::columns_in))]
fn resolution_scope<R: CellView>(rows: &R, token: Token) -> Token
    requires { token.table ≡ type_ref }
    ensures { result ≡ token_at (R.rows rows.now) token 0 }
{
    rows.token(token, TYPE_REF_RESOLUTION_SCOPE)
}

/// The scope of a TypeRef; of any other token itself.
#[tactic(auto, unfolding(crate::specs::Keys::scope_of))]
pub fn scope_of<R: CellView>(rows: &R, token: Token) -> Token
    ensures { result ≡ scope_of (R.rows rows.now) token }
{
    if token.table == TYPE_REF {
        return resolution_scope(rows, token);
    }
    token
}

/// The signature of a TypeSpec.
#[tactic(auto, unfolding(enc_schema::specs::Schema::columns_in))]
pub fn spec_of<R: CellView>(rows: &R, token: Token) -> &[u8]
    requires { token.table ≡ type_spec }
    ensures { result.now ≡ bytes_at (R.rows rows.now) token 0 }
{
    rows.blob(token, TYPE_SPEC_SIGNATURE)
}
