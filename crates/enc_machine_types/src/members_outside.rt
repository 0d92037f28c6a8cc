//! The members outside that a token names.
ghost use Rattle.std.specs.Prelude.{◌≡◌, map, IfSome};
ghost use Rattle.enc_base.specs.Tables.{member_ref};
ghost use Rattle.enc_machine_types.specs.Outside.{is_system_member, first_member, outside_of};
ghost use Rattle.enc_machine_types.specs.Seen.{member_seen};

use crate::outside::Outside::{
    self, AreEqual, ConcatThree, ConcatTwo, NewException, NewObject, TextLength, TextUnit,
    WriteLine, WriteLineNumber, WriteLineText, WriteText,
};
use enc_base::Token;
use enc_base::tables::MEMBER_REF;
use enc_plain::{CellView, ModuleView, Viewed, is_of_system};
use enc_schema::columns::{MEMBER_REF_CLASS, MEMBER_REF_NAME, MEMBER_REF_SIGNATURE};

/// A member of a type of the namespace System: the type's name, its own name, its signature, and which it
/// is.
struct MemberRow(&'static str, &'static str, &'static [u8], Outside);

/// The members that the interpreter knows (ECMA-335 II.23.2.2).
static MEMBERS: [MemberRow; 11] = [
    MemberRow("Object", ".ctor", &[0x20, 0, 1], NewObject),
    MemberRow("Exception", ".ctor", &[0x20, 0, 1], NewException),
    MemberRow("Console", "WriteLine", &[0, 0, 1], WriteLine),
    MemberRow("Console", "WriteLine", &[0, 1, 1, 0xe], WriteLineText),
    MemberRow("Console", "WriteLine", &[0, 1, 1, 8], WriteLineNumber),
    MemberRow("Console", "Write", &[0, 1, 1, 0xe], WriteText),
    MemberRow("String", "Concat", &[0, 2, 0xe, 0xe, 0xe], ConcatTwo),
    MemberRow("String", "Concat", &[0, 3, 0xe, 0xe, 0xe, 0xe], ConcatThree),
    MemberRow("String", "op_Equality", &[0, 2, 2, 0xe, 0xe], AreEqual),
    MemberRow("String", "get_Length", &[0x20, 0, 8], TextLength),
    MemberRow("String", "get_Chars", &[0x20, 1, 3, 8], TextUnit),
];

/// Whether a row of MemberRef is this member: by the names of its parent, its name and its signature
/// (ECMA-335 II.22.25).
#[tactic(auto, using(enc_plain::proofs::ColumnKinds::member_steps), unfolding(crate::specs::Outside::is_system_member))]
fn is_system_member<V: ModuleView>(view: &V, token: Token, row: &MemberRow) -> bool
    requires { token.table ≡ member_ref }
    ensures { result ≡ is_system_member (V.meaning view.now) token (member_seen row.now) }
{
    let MemberRow(owner, name, signature, _) = row;
    let rows = Viewed { view };
    is_of_system(view, owner.as_bytes(), rows.token(token, MEMBER_REF_CLASS))
        && rows.text(token, MEMBER_REF_NAME) == name.as_bytes()
        && rows.blob(token, MEMBER_REF_SIGNATURE) == *signature
}

/// The first of these members that a row of MemberRef is.
fn first_member<V: ModuleView>(view: &V, token: Token, rows: &[MemberRow]) -> Option<Outside>
    requires { token.table ≡ member_ref }
    ensures { result ≡ first_member (V.meaning view.now) token (map member_seen rows.now) }
{
    for row in rows {
        if is_system_member(view, token, row) {
            return Some(row.3);
        }
    }
    None
}

/// The member that a token names, where it is one that the interpreter knows: by the names and the
/// signature alone, whatever the assembly (ECMA-335 II.22.25).
#[tactic(auto, unfolding(crate::specs::Outside::outside_of))]
pub fn outside_of<V: ModuleView>(view: &V, token: Token) -> Option<Outside>
    ensures member { result ≡ outside_of (V.meaning view.now) token }
    ensures table { IfSome result (λ _. token.table ≡ member_ref) }
{
    if token.table != MEMBER_REF {
        return None;
    }
    first_member(view, token, &MEMBERS)
}
