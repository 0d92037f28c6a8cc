//! What stands in a signature beside types: bytes, numbers and tokens.
ghost use Rattle.std.specs.Prelude.{◌≡◌, ◌<◌, ◌^◌, ◌/◌, ◌%◌, option_map, if◌then◌else◌, IfSome};
ghost use Rattle.enc_base.specs.Numbers.{has_flag};
ghost use Rattle.enc_base.specs.Readers.{number_in, signed_in};
ghost use Rattle.enc_sigs.specs.Grammar.{byte_in, numeral_in, token_in, table_of, token_named, is_coded, is_counted, in_counts, test_of, form_of, is_calling, calling_in};

use crate::row_test::RowTest;
use crate::type_form::{Numeral, TypeForm};
use enc_base::tables::{TYPE_DEF, TYPE_REF, TYPE_SPEC};
use enc_base::{Counts, Token, signed_front, unsigned_front};

/// A size or a lower bound at the front.
pub fn numeral(kind: Numeral, bytes: &[u8]) -> Option<(u32, &[u8])>
    ensures { option_map (λ x. (x.0, x.1.now)) result ≡ numeral_in kind bytes.now }
{
    match kind {
        Numeral::Size => unsigned_front(bytes),
        Numeral::Bound => signed_front(bytes),
    }
}

/// The table that a token's number names.
#[tactic(auto, unfolding(crate::specs::Grammar::is_coded))]
fn table_of(number: u32) -> Option<u8>
    ensures { result ≡ (if is_coded number then Some (table_of (number % 4)) else None) }
{
    match number % 4 {
        0 => Some(TYPE_DEF),
        1 => Some(TYPE_REF),
        2 => Some(TYPE_SPEC),
        _ => None,
    }
}

/// The token that a number names, the range of its row aside.
fn token_named(number: u32) -> Option<Token>
    ensures { result ≡ (if is_coded number then Some (token_named number) else None) }
{
    let table = table_of(number)?;
    Some(Token {
        table,
        row: number / 4,
    })
}

/// The token at the front, the range of its row aside (ECMA-335 II.23.2.8).
#[tactic(auto, unfolding(crate::specs::Grammar::token_in))]
pub fn coded_token(bytes: &[u8]) -> Option<(Token, &[u8])>
    ensures { option_map (λ x. (x.0, x.1.now)) result ≡ token_in is_coded bytes.now }
{
    let (number, rest) = unsigned_front(bytes)?;
    Some((token_named(number)?, rest))
}

/// Whether the number of a token names a row.
#[tactic(auto, unfolding(crate::specs::Grammar::is_coded, crate::specs::Grammar::is_counted))]
fn is_row(number: u32, counts: &Counts) -> bool
    ensures { result ≡ in_counts counts.now number }
{
    let row = number / 4;
    match table_of(number) {
        Some(table) => 1 <= row && row <= counts.rows[table as usize],
        None => false,
    }
}

/// The token of a row at the front (ECMA-335 II.23.2.8).
#[tactic(auto, unfolding(crate::specs::Grammar::token_in, crate::specs::Grammar::is_counted))]
pub fn token<'a>(bytes: &'a [u8], counts: &Counts) -> Option<(Token, &'a [u8])>
    ensures { option_map (λ x. (x.0, x.1.now)) result ≡ token_in (in_counts counts.now) bytes.now }
{
    let (number, rest) = unsigned_front(bytes)?;
    if !is_row(number, counts) {
        return None;
    }
    Some((token_named(number)?, rest))
}

/// The token of such a row at the front (ECMA-335 II.23.2.8).
pub fn tested_token<'a>(bytes: &'a [u8], rows: &RowTest<'_>) -> Option<(Token, &'a [u8])>
    ensures { option_map (λ x. (x.0, x.1.now)) result ≡ token_in (test_of rows.now) bytes.now }
{
    match rows {
        RowTest::Any => coded_token(bytes),
        RowTest::Within(counts) => token(bytes, counts),
    }
}

/// What follows a type's first byte, None where it begins no type.
#[tactic(auto, unfolding(crate::specs::Grammar::form_of))]
pub fn form_by(b: u8) -> Option<TypeForm>
    ensures { result ≡ form_of b }
{
    match b {
        0x01..=0x0e | 0x16 | 0x18 | 0x19 | 0x1c => Some(TypeForm::Bare),
        0x0f | 0x10 | 0x1d | 0x45 => Some(TypeForm::Wrapped),
        0x11 | 0x12 => Some(TypeForm::Named),
        0x1f | 0x20 => Some(TypeForm::Modified),
        0x13 | 0x1e => Some(TypeForm::Numbered),
        0x14 => Some(TypeForm::Array),
        0x15 => Some(TypeForm::Instance),
        0x1b => Some(TypeForm::Pointer),
        _ => None,
    }
}

/// Whether a method may begin with the byte.
#[tactic(auto, unfolding(crate::specs::Grammar::is_calling))]
fn is_calling(b: u8) -> bool
    ensures { result ≡ is_calling b }
{
    b < 0x80 && (b % 0x10 <= 5 || b % 0x10 == 9)
}

#[tactic(auto, unfolding(crate::specs::Grammar::calling_in, // how a method is called:
crate::specs::Grammar::byte_in, // its first byte
crate::specs::Grammar::generics_in // and its generic parameters
))]
/// The first byte of a method and the count of its generic parameters.
pub fn calling(bytes: &[u8]) -> Option<((u8, u32), &[u8])>
    ensures { option_map (λ x. ((x.0.0, x.0.1), x.1.now)) result ≡ calling_in bytes.now }
{
    let [b, rest @ ..] = bytes else {
        return None;
    };
    if !is_calling(*b) {
        return None;
    }
    if *b / 0x10 % 2 == 1 {
        let (generics, rest) = unsigned_front(rest)?;
        return Some(((*b, generics), rest));
    }
    Some(((*b, 0), rest))
}
