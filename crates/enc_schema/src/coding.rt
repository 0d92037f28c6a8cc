//! Coded indices: a row of one of several tables, told by a tag in the low bits (ECMA-335 II.24.2.6).
ghost use Rattle.std.specs.Prelude.{◌≡◌, ℕ, ◌+◌, ◌*◌, ◌/◌, ◌%◌, ◌<◌, ◌≤◌, ◌^◌, ◌≢◌, true, length, slice_index_or, Option, option_and_then, slice_get, nat_lt, IfSome, IfNone, IsTrue};
ghost use Rattle.enc_schema.specs.Coding.{tables_of as tables_by_tag, each_table, tag_bits as bits_of_tag, table_with as table_by_tag, decoded, named};

use crate::column::Coding;
use enc_base::Token;
use enc_base::tables::{
    ASSEMBLY, ASSEMBLY_REF, DECL_SECURITY, DOCUMENT, EVENT, EXPORTED_TYPE, FIELD, FILE,
    GENERIC_PARAM, GENERIC_PARAM_CONSTRAINT, IMPORT_SCOPE, INTERFACE_IMPL, LOCAL_CONSTANT,
    LOCAL_SCOPE, LOCAL_VARIABLE, MANIFEST_RESOURCE, MEMBER_REF, METHOD_DEF, METHOD_SPEC, MODULE,
    MODULE_REF, PARAM, PROPERTY, STAND_ALONE_SIG, TYPE_DEF, TYPE_REF, TYPE_SPEC,
};

/// What can have custom debug information, by tag; the first 22 can have custom attributes.
static DEBUGGED: [Option<u8>; 27] = [
    Some(METHOD_DEF),
    Some(FIELD),
    Some(TYPE_REF),
    Some(TYPE_DEF),
    Some(PARAM),
    Some(INTERFACE_IMPL),
    Some(MEMBER_REF),
    Some(MODULE),
    Some(DECL_SECURITY),
    Some(PROPERTY),
    Some(EVENT),
    Some(STAND_ALONE_SIG),
    Some(MODULE_REF),
    Some(TYPE_SPEC),
    Some(ASSEMBLY),
    Some(ASSEMBLY_REF),
    Some(FILE),
    Some(EXPORTED_TYPE),
    Some(MANIFEST_RESOURCE),
    Some(GENERIC_PARAM),
    Some(GENERIC_PARAM_CONSTRAINT),
    Some(METHOD_SPEC),
    Some(DOCUMENT),
    Some(LOCAL_SCOPE),
    Some(LOCAL_VARIABLE),
    Some(LOCAL_CONSTANT),
    Some(IMPORT_SCOPE),
];

/// The tables of a coding by tag. A tag with none is of no table.
#[tactic(auto, unfolding(crate::specs::Coding::tables_of, crate::specs::Coding::tag_bits))]
pub(crate) fn tables_of(kind: Coding) -> &'static [Option<u8>]
    ensures tables { result.now ≡ tables_by_tag kind }
    ensures few { length result.now ≤ 2 ^ bits_of_tag kind }
    ensures known { IsTrue (each_table (λ (n : ℕ). nat_lt n 56) result.now) }
{
    match kind {
        Coding::TypeDefOrRef => &[Some(TYPE_DEF), Some(TYPE_REF), Some(TYPE_SPEC)],
        Coding::HasConstant => &[Some(FIELD), Some(PARAM), Some(PROPERTY)],
        Coding::HasCustomAttribute => &DEBUGGED[..22],
        Coding::HasFieldMarshal => &[Some(FIELD), Some(PARAM)],
        Coding::HasDeclSecurity => &[Some(TYPE_DEF), Some(METHOD_DEF), Some(ASSEMBLY)],
        Coding::MemberRefParent => &[
            Some(TYPE_DEF),
            Some(TYPE_REF),
            Some(MODULE_REF),
            Some(METHOD_DEF),
            Some(TYPE_SPEC),
        ],
        Coding::HasSemantics => &[Some(EVENT), Some(PROPERTY)],
        Coding::MethodDefOrRef => &[Some(METHOD_DEF), Some(MEMBER_REF)],
        Coding::MemberForwarded => &[Some(FIELD), Some(METHOD_DEF)],
        Coding::Implementation => &[Some(FILE), Some(ASSEMBLY_REF), Some(EXPORTED_TYPE)],
        Coding::CustomAttributeType => &[None, None, Some(METHOD_DEF), Some(MEMBER_REF)],
        Coding::ResolutionScope => &[
            Some(MODULE),
            Some(MODULE_REF),
            Some(ASSEMBLY_REF),
            Some(TYPE_REF),
        ],
        Coding::TypeOrMethodDef => &[Some(TYPE_DEF), Some(METHOD_DEF)],
        Coding::HasCustomDebugInformation => &DEBUGGED,
    }
}

/// How many low bits hold the tag.
#[tactic(auto, unfolding(crate::specs::Coding::tag_bits))]
pub(crate) fn tag_bits(kind: Coding) -> u32
    ensures bits { result ≡ bits_of_tag kind }
    ensures some { 0 < result }
    ensures few { result ≤ 5 }
{
    match kind {
        Coding::TypeDefOrRef => 2,
        Coding::HasConstant => 2,
        Coding::HasCustomAttribute => 5,
        Coding::HasFieldMarshal => 1,
        Coding::HasDeclSecurity => 2,
        Coding::MemberRefParent => 3,
        Coding::HasSemantics => 1,
        Coding::MethodDefOrRef => 1,
        Coding::MemberForwarded => 1,
        Coding::Implementation => 2,
        Coding::CustomAttributeType => 3,
        Coding::ResolutionScope => 2,
        Coding::TypeOrMethodDef => 1,
        Coding::HasCustomDebugInformation => 5,
    }
}

/// What stands at the place, and nothing where there is no such place.
fn entry(tables: &[Option<u8>], i: usize) -> Option<u8>
    requires { IsTrue (each_table (λ (n : ℕ). nat_lt n 56) tables.now) }
    ensures table { result ≡ option_and_then (λ (t : Option ℕ). t) (slice_get tables.now i) }
    ensures known { IfSome result (λ t. t < 56) }
{
    if i < tables.len() { tables[i] } else { None }
}

/// The table with this tag.
#[tactic(auto, unfolding(crate::specs::Coding::table_with))]
fn table_with(kind: Coding, tag: u32) -> Option<u8>
    ensures table { result ≡ table_by_tag kind tag }
    ensures known { IfSome result (λ t. t < 56) }
{
    entry(tables_of(kind), tag as usize)
}

/// The number above the tag.
#[tactic(auto, using(crate::proofs::Shift::halved))]
fn row_above(bits: u32, value: u32) -> u32
    requires some { 0 < bits }
    requires few { bits ≤ 5 }
    ensures row { result ≡ value / 2 ^ bits }
    ensures fits { result < 2 ^ 31 }
{
    value >> bits
}

/// The token that a coded index stands for. Row 0 is the nil token whatever the tag. None where the
/// tag is of no table.
#[tactic(auto, unfolding(crate::specs::Coding::decoded))]
pub fn decode_coded(kind: Coding, value: u32) -> Option<Token>
    ensures token { result ≡ decoded kind value }
    ensures row { IfSome result (λ t. t.row < 2 ^ 31) }
    ensures table { IfSome result (λ t. t.table < 56) }
{
    let bits = tag_bits(kind);
    let row = row_above(bits, value);
    if row == 0 {
        return Some(Token { table: 0, row: 0 });
    }
    match table_with(kind, value % (1 << bits)) {
        None => None,
        Some(table) => Some(Token { table, row }),
    }
}

/// The first tag that is of this table.
fn tag_in(tables: &[Option<u8>], table: u8) -> Option<usize>
    ensures some { IfSome result (λ tag. (tag < length tables.now)
        × (slice_index_or tables.now tag None ≡ Some table)) }
    ensures none { IfNone result ((tag : ℕ) → slice_index_or tables.now tag None ≢ Some table) }
{
    for (tag, of) in tables.iter().enumerate() {
        match *of {
            Some(known) if known == table => return Some(tag),
            _ => {}
        }
    }
    None
}

/// The number with this row above this tag.
#[tactic(auto, using(crate::proofs::Shift::shifted))]
fn above(bits: u32, row: u32, tag: u32) -> u32
    requires few { bits ≤ 5 }
    requires row { row < 2 ^ 24 }
    requires tag { tag < 2 ^ bits }
    ensures { result ≡ row * 2 ^ bits + tag }
{
    row * (1 << bits) + tag
}

/// The coded index that stands for this token, 0 where it has row 0, whatever its table. None where
/// there is none, as the token's table is none of the coding's.
pub fn encode_coded(kind: Coding, token: Token) -> Option<u32>
    requires { token.row < 2 ^ 24 }
    ensures some { IfSome result (λ v. decoded kind v ≡ Some (named token)) }
    ensures none { IfNone result ((v : ℕ) → decoded kind v ≢ Some (named token)) }
    ensures nil { token.row ≡ 0 → result ≡ Some 0 }
    ensures fits { IfSome result (λ v. v < (token.row + 1) * 2 ^ bits_of_tag kind) }
{
    if token.row == 0 {
        return Some(0);
    }
    match tag_in(tables_of(kind), token.table) {
        None => None,
        Some(tag) => Some(above(tag_bits(kind), token.row, tag as u32)),
    }
}
