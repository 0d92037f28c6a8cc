//! Texts appended within room that is there. These calls take no memory, and can't fail.
ghost use Rattle.std.specs.Prelude.{◌≡◌, ◌+◌, ◌*◌, ◌<◌, ◌≤◌, ◌&&◌, ◌++◌, length, flat_map, decimal, unwrap_or, Some, None, if◌then◌else◌, encode_utf8, vec_len, vec_capacity};
ghost use Rattle.std.specs.Char.Utf16.{is_high_surrogate, is_low_surrogate, surrogate_pair_char, lone_unit_char};
ghost use Rattle.enc_text.specs.Text.{digits, escaped, quoted};
ghost use Rattle.enc_text.specs.BodyText.{label, utf8_of};

use crate::operand::label_digits;
use crate::text::{all_digits, stands_as_it_is};

fn push_bytes_within(out: &mut Vec<u8>, bytes: &[u8])
    requires { vec_len out.old + length bytes.now ≤ vec_capacity out.old }
    ensures text { out.new.items ≡ out.old.items ++ bytes.now }
    ensures len { vec_len out.new ≡ vec_len out.old + length bytes.now }
    ensures capacity { vec_capacity out.old ≤ vec_capacity out.new }
{
    let Ok(()) = out.extend_from_slice(bytes) else {
        unreachable!()
    };
}

/// Appends a literal or a name within room that is there: it takes no memory.
pub fn push_str_within(out: &mut Vec<u8>, text: &str)
    requires { vec_len out.old + length text.now ≤ vec_capacity out.old }
    ensures text { out.new.items ≡ out.old.items ++ text.now }
    ensures len { vec_len out.new ≡ vec_len out.old + length text.now }
    ensures capacity { vec_capacity out.old ≤ vec_capacity out.new }
{
    push_bytes_within(out, text.as_bytes())
}

/// Appends the last digits of a number within room that is there.
#[tactic(auto, unfolding(crate::specs::Text::digits))]
fn push_digits_within(out: &mut Vec<u8>, count: usize, number: u32)
    requires few { count ≤ 8 }
    requires room { vec_len out.old + count ≤ vec_capacity out.old }
    ensures text { out.new.items ≡ out.old.items ++ digits count number }
    ensures len { vec_len out.new ≡ vec_len out.old + count }
    ensures capacity { vec_capacity out.old ≤ vec_capacity out.new }
{
    let all = all_digits(number);
    push_bytes_within(out, &all[8 - count..])
}

/// Appends an offset in the code, as `push_label` does, within room that is there: it takes no
/// memory.
#[tactic(auto, unfolding(crate::specs::BodyText::label))]
pub fn push_label_within(offset: u32, out: &mut Vec<u8>)
    requires { vec_len out.old + 11 ≤ vec_capacity out.old }
    ensures text { out.new.items ≡ out.old.items ++ label offset }
    ensures len { vec_len out.new ≤ vec_len out.old + 11 }
    ensures capacity { vec_capacity out.old ≤ vec_capacity out.new }
{
    push_str_within(out, "IL_");
    push_digits_within(out, label_digits(offset), offset)
}

/// Appends a number in decimal digits, each behind those before it, within room for them.
#[tactic(auto, using(std::proofs::lemmas::Fmt::decimal_digit))]
fn push_each_digit(number: u32, out: &mut Vec<u8>)
    requires { vec_len out.old + length (decimal number) ≤ vec_capacity out.old }
    ensures text { out.new.items ≡ out.old.items ++ decimal number }
    ensures len { vec_len out.new ≡ vec_len out.old + length (decimal number) }
    ensures capacity { vec_capacity out.old ≤ vec_capacity out.new }
{
    if number < 10 {
        out.push_reserved(b'0' + number as u8);
        return;
    }
    push_each_digit(number / 10, out);
    out.push_reserved(b'0' + (number % 10) as u8);
}

/// Appends a number in decimal digits, as `push_decimal` does, within room that is there: it takes no
/// memory.
#[tactic(auto, using(crate::proofs::Digits::at_most_ten))]
pub fn push_decimal_within(number: u32, out: &mut Vec<u8>)
    requires { vec_len out.old + 10 ≤ vec_capacity out.old }
    ensures text { out.new.items ≡ out.old.items ++ decimal number }
    ensures len { vec_len out.new ≤ vec_len out.old + 10 }
    ensures capacity { vec_capacity out.old ≤ vec_capacity out.new }
{
    push_each_digit(number, out)
}

/// Appends a byte of a text within room that is there.
fn push_escaped_within(b: u8, out: &mut Vec<u8>)
    requires { vec_len out.old + 4 ≤ vec_capacity out.old }
    ensures text { out.new.items ≡ out.old.items ++ escaped b }
    ensures len { vec_len out.new ≤ vec_len out.old + 4 }
    ensures capacity { vec_capacity out.old ≤ vec_capacity out.new }
{
    if stands_as_it_is(b) {
        out.push_reserved(b);
        return;
    }
    push_str_within(out, "\\x");
    push_digits_within(out, 2, u32::from(b))
}

/// Appends the bytes of a text within room that is there.
fn push_all_escaped_within(bytes: &[u8], out: &mut Vec<u8>)
    requires { vec_len out.old + 4 * length bytes.now ≤ vec_capacity out.old }
    ensures text { out.new.items ≡ out.old.items ++ flat_map escaped bytes.now }
    ensures len { vec_len out.new ≤ vec_len out.old + 4 * length bytes.now }
    ensures capacity { vec_capacity out.old ≤ vec_capacity out.new }
{
    for b in bytes {
        push_escaped_within(*b, out);
    }
}

/// Appends a character of a text in UTF-8 within room that is there.
fn push_char_within(c: char, out: &mut Vec<u8>)
    requires { vec_len out.old + 4 * length (encode_utf8 c) ≤ vec_capacity out.old }
    ensures text { out.new.items ≡ out.old.items ++ flat_map escaped (encode_utf8 c) }
    ensures len { vec_len out.new ≤ vec_len out.old + 4 * length (encode_utf8 c) }
    ensures capacity { vec_capacity out.old ≤ vec_capacity out.new }
{
    let mut buffer = [0; 4];
    push_all_escaped_within(c.encode_utf8(&mut buffer).as_bytes(), out)
}

/// The character of a pair of surrogates, `None` where the units are none.
fn pair_char(high: u16, low: u16) -> Option<char>
    ensures { result ≡ (if is_high_surrogate high && is_low_surrogate low then Some (surrogate_pair_char high low)
        else None) }
{
    if 0xd800 <= high && high < 0xdc00 && 0xdc00 <= low && low < 0xe000 {
        return char::from_u32(
            0x1_0000 + (u32::from(high) - 0xd800) * 0x400 + (u32::from(low) - 0xdc00),
        );
    }
    None
}

/// The character of a unit that is in no pair, U+FFFD for a surrogate.
fn lone_char(unit: u16) -> char
    ensures char { result ≡ unwrap_or (lone_unit_char unit) 0xFFFD }
    ensures small { length (encode_utf8 result) ≤ 3 }
{
    match char::from_u32(u32::from(unit)) {
        Some(c) => c,
        None => '\u{FFFD}',
    }
}

/// The character with which UTF-16 units begin, U+FFFD for a surrogate that has no partner, and the
/// units behind it.
fn first_char(units: &[u16]) -> (char, &[u16])
    requires { 0 < length units.now }
    ensures text { utf8_of units.now ≡ encode_utf8 result.0 ++ utf8_of result.1.now }
    ensures room { length (encode_utf8 result.0) + 3 * length result.1.now ≤ 3 * length units.now }
    ensures shorter { length result.1.now < length units.now }
{
    match units {
        [high, low, rest @ ..] => match pair_char(*high, *low) {
            Some(c) => (c, rest),
            None => (lone_char(*high), &units[1..]),
        },
        [unit] => (lone_char(*unit), &[]),
        [] => unreachable!(),
    }
}

/// Appends the characters of a text in UTF-8, by its UTF-16 units, within room that is there.
fn push_chars_within(units: &[u16], out: &mut Vec<u8>)
    requires { vec_len out.old + 12 * length units.now ≤ vec_capacity out.old }
    ensures text { out.new.items ≡ out.old.items ++ flat_map escaped (utf8_of units.now) }
    ensures len { vec_len out.new ≤ vec_len out.old + 12 * length units.now }
    ensures capacity { vec_capacity out.old ≤ vec_capacity out.new }
{
    let mut rest = units;
    while !rest.is_empty() {
        let (c, tail) = first_char(rest);
        push_char_within(c, out);
        rest = tail;
    }
}

/// Appends a text in UTF-8 between `"` signs, by its UTF-16 units, as `push_units` does, within room
/// that is there: it takes no memory.
#[tactic(auto, unfolding(crate::specs::Text::quoted))]
pub fn push_units_within(units: &[u16], out: &mut Vec<u8>)
    requires { vec_len out.old + (12 * length units.now + 2) ≤ vec_capacity out.old }
    ensures text { out.new.items ≡ out.old.items ++ quoted (utf8_of units.now) }
    ensures len { vec_len out.new ≤ vec_len out.old + (12 * length units.now + 2) }
    ensures capacity { vec_capacity out.old ≤ vec_capacity out.new }
{
    push_str_within(out, "\"");
    push_chars_within(units, out);
    push_str_within(out, "\"")
}
