//! What tells the size of a field's initial bytes: its signature (ECMA-335 II.22.18, II.23.2.4).
ghost use Rattle.std.specs.Prelude.{◌≡◌, slice_get};
ghost use Rattle.enc_plain.specs.Extent.{size_of_kind, class_of, class_in, extent_in};

use enc_base::tables::TYPE_DEF;
use enc_base::{Token, read_unsigned};
use enc_schema::{Coding, decode_coded};

/// What tells how many bytes a field has.
#[derive(Clone, Copy, Debug, PartialEq, Eq)]
pub enum Extent {
    /// Its kind is an integer or a float of so many bytes.
    Bytes(u32),
    /// It is a value of the type in this row of TypeDef, whose ClassLayout tells it.
    Class(u32),
}

/// How many bytes each kind takes, from boolean, which is 0x02, to R8.
static SIZES: [u32; 12] = [1, 2, 1, 1, 2, 2, 4, 4, 8, 8, 4, 8];

/// What stands at the place.
fn entry(sizes: &[u32], i: u8) -> Option<u32>
    ensures { result ≡ slice_get sizes.now i }
{
    sizes.get(i as usize).copied()
}

/// How many bytes a kind of integer or float takes (ECMA-335 II.23.1.16), None of any other kind.
#[tactic(auto, unfolding(crate::specs::Extent::size_of_kind))]
fn size_of_kind(kind: u8) -> Option<u32>
    ensures { result ≡ size_of_kind kind }
{
    if kind < 0x02 {
        return None;
    }
    entry(&SIZES, kind - 0x02)
}

/// The type, where it is one of this file's.
fn class_of(token: Token) -> Option<Extent>
    ensures { result ≡ class_of (Some token) }
{
    if token.table == TYPE_DEF {
        return Some(Extent::Class(token.row));
    }
    None
}

/// The type that a signature names, where it is one of this file's (ECMA-335 II.23.2.8).
#[tactic(auto, unfolding(crate::specs::Extent::class_in))]
fn class_in(bytes: &[u8]) -> Option<Extent>
    ensures { result ≡ class_in bytes.now }
{
    let Some((value, _)) = read_unsigned(bytes, 0) else {
        return None;
    };
    match decode_coded(Coding::TypeDefOrRef, value) {
        Some(token) => class_of(token),
        None => None,
    }
}

/// What tells the size of a field of this signature: its kind, or the type of its value. None where
/// nothing does, or where this isn't the signature of a field.
#[tactic(auto, unfolding(crate::specs::Extent::extent_in))]
pub fn extent_in(signature: &[u8]) -> Option<Extent>
    ensures { result ≡ extent_in signature.now }
{
    match signature {
        [0x06, 0x11, rest @ ..] => class_in(rest),
        [0x06, kind, ..] => match size_of_kind(*kind) {
            Some(size) => Some(Extent::Bytes(size)),
            None => None,
        },
        _ => None,
    }
}
