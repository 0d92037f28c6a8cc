//! Which blobs are signatures, and of which kind (ECMA-335 II.22, II.23.2).
ghost use Rattle.std.specs.Prelude.{◌≡◌, Some, IfSome, slice_index};
ghost use Rattle.enc_plain.specs.Cell.{kind_in, blobs};
ghost use Rattle.enc_plain.specs.Signatures.{signature_column, member_kind, alone_kind, kind_in_table, is_signature};

use enc_base::Counts;
use enc_base::tables::{
    FIELD, MEMBER_REF, METHOD_DEF, METHOD_SPEC, PROPERTY, STAND_ALONE_SIG, TYPE_SPEC,
};
use enc_sigs::{SigKind, is_sig};

/// The column of a table that holds a signature: of Field, MethodDef, MemberRef, StandAloneSig,
/// Property, TypeSpec and MethodSpec (ECMA-335 II.22.15, II.22.26, II.22.25, II.22.36, II.22.34,
/// II.22.39, II.22.29).
#[tactic(auto, unfolding(crate::specs::Signatures::signature_column, enc_schema::specs::Schema::columns_in))]
pub fn signature_column(table: u8) -> Option<u8>
    ensures column { result ≡ signature_column table }
    ensures kind { IfSome result (λ column. kind_in table column ≡ Some blobs) }
{
    match table {
        FIELD | MEMBER_REF | PROPERTY => Some(2),
        METHOD_DEF => Some(4),
        STAND_ALONE_SIG | TYPE_SPEC => Some(0),
        METHOD_SPEC => Some(1),
        _ => None,
    }
}

/// The kind of a member's signature, which is a field's where it begins with 06 (ECMA-335
/// II.23.2.4).
fn member_kind(blob: &[u8]) -> SigKind
    ensures { result ≡ member_kind blob.now }
{
    match blob {
        [0x06, ..] => SigKind::Field,
        _ => SigKind::Method,
    }
}

/// The kind of a signature that stands alone, which is of locals where it begins with 07 (ECMA-335
/// II.23.2.6).
fn alone_kind(blob: &[u8]) -> SigKind
    ensures { result ≡ alone_kind blob.now }
{
    match blob {
        [0x07, ..] => SigKind::Locals,
        _ => member_kind(blob),
    }
}

/// The kind of a table's signature. The blobs of MemberRef and StandAloneSig tell it by their first
/// byte (ECMA-335 II.23.2).
#[tactic(auto, unfolding(crate::specs::Signatures::kind_in_table))]
pub fn kind_in_table(table: u8, blob: &[u8]) -> SigKind
    ensures { result ≡ kind_in_table table blob.now }
{
    match table {
        FIELD => SigKind::Field,
        METHOD_DEF => SigKind::Method,
        MEMBER_REF => member_kind(blob),
        STAND_ALONE_SIG => alone_kind(blob),
        PROPERTY => SigKind::Property,
        TYPE_SPEC => SigKind::TypeSpec,
        _ => SigKind::MethodSpec,
    }
}

/// Whether the blob is a signature of its table's kind whose tokens name rows, where each table has
/// so many (ECMA-335 II.23.2). It takes no memory.
#[tactic(auto, unfolding(crate::specs::Signatures::is_signature))]
pub fn is_signature(table: u8, blob: &[u8], counts: &Counts) -> bool
    ensures { result ≡ is_signature (slice_index counts.now.rows) table blob.now }
{
    is_sig(kind_in_table(table, blob), blob, counts)
}
