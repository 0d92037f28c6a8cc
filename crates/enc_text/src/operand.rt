//! What the instructions of a printed body say: offsets, targets, tokens, user texts and numbers.
ghost use Rattle.std.specs.Prelude.{◌≡◌, ◌≤◌, ◌++◌, ◌∷◌, OnOk, IfOk};
ghost use Rattle.std.specs.Fmt.{signed_decimal};
ghost use Rattle.std.specs.Int.{w32, from_le_bytes};
ghost use Rattle.hex.specs.Hex.{encode_lower};
ghost use Rattle.enc_opcodes.specs.Instruction.{all_reached, reached as reached_from};
ghost use Rattle.enc_opcodes.specs.Body.{told};
ghost use Rattle.enc_base.specs.Units.{units_of};
ghost use Rattle.enc_il.specs.Seen.{arg_seen};
ghost use Rattle.enc_text.specs.Text.{token_text, quoted};
ghost use Rattle.enc_text.specs.BodyText.{label_digits, label, more_labels, labels, utf8_of, argument_text};

use crate::text::{push_digits, push_quoted, push_str, push_token};
use enc_base::Token;
use enc_opcodes::Arg;
use enc_plain::{ModuleView, units_of};
use std::alloc::{AllocError, Global};

/// How many hexadecimal digits an offset is written with: four, or as many as it has.
pub fn label_digits(offset: u32) -> usize
    ensures digits { result ≡ label_digits offset }
    ensures few { result ≤ 8 }
{
    if offset < 0x1_0000 {
        4
    } else if offset < 0x10_0000 {
        5
    } else if offset < 0x100_0000 {
        6
    } else if offset < 0x1000_0000 {
        7
    } else {
        8
    }
}

/// Appends an offset in the code.
#[tactic(auto, unfolding(crate::specs::BodyText::label))]
pub fn push_label(offset: u32, out: &mut Vec<u8>) -> Result<(), AllocError>
    ensures { OnOk result (out.new.items ≡ out.old.items ++ label offset) }
{
    push_str(out, "IL_")?;
    push_digits(out, label_digits(offset), offset)
}

/// Appends a space and an offset in the code.
pub fn push_target(offset: u32, out: &mut Vec<u8>) -> Result<(), AllocError>
    ensures { OnOk result (out.new.items ≡ out.old.items ++ 0x20 ∷ label offset) }
{
    push_str(out, " ")?;
    push_label(offset, out)
}

/// Appends a space and a token.
pub fn push_named(token: Token, out: &mut Vec<u8>) -> Result<(), AllocError>
    ensures { OnOk result (out.new.items ≡ out.old.items ++ 0x20 ∷ token_text token) }
{
    push_str(out, " ")?;
    push_token(out, token)
}

/// The offset at a distance of four bytes from the end of a `switch`.
fn reached(end: u32, distance: [u8; 4]) -> u32
    ensures { result ≡ reached_from end (from_le_bytes w32 distance) }
{
    end.wrapping_add(u32::from_le_bytes(distance))
}

/// Appends the targets at these distances from the end of a `switch`, a comma before each.
#[tactic(auto, unfolding(enc_opcodes::specs::Instruction::all_reached))]
fn push_more_targets(end: u32, distances: &[u8], out: &mut Vec<u8>) -> Result<(), AllocError>
    ensures { OnOk result (out.new.items ≡ out.old.items ++ more_labels (all_reached end distances.now)) }
{
    let mut rest = distances;
    while let [a, b, c, d, tail @ ..] = rest {
        push_str(out, ",")?;
        push_label(reached(end, [*a, *b, *c, *d]), out)?;
        rest = tail;
    }
    Ok(())
}

/// Appends a space and the targets at these distances from the end of a `switch`, nothing where there
/// are none.
#[tactic(auto, unfolding(enc_opcodes::specs::Instruction::all_reached))]
fn push_targets(end: u32, distances: &[u8], out: &mut Vec<u8>) -> Result<(), AllocError>
    ensures { OnOk result (out.new.items ≡ out.old.items ++ labels (all_reached end distances.now)) }
{
    match distances {
        [a, b, c, d, rest @ ..] => {
            push_target(reached(end, [*a, *b, *c, *d]), out)?;
            push_more_targets(end, rest, out)
        }
        _ => Ok(()),
    }
}

/// Appends a text in UTF-8 between `"` signs, by its UTF-16 units; a surrogate without its partner is U+FFFD.
#[tactic(auto, unfolding(crate::specs::BodyText::utf8_of))]
pub fn push_units(alloc: Global, units: &[u16], out: &mut Vec<u8>) -> Result<(), AllocError>
    ensures { OnOk result (out.new.items ≡ out.old.items ++ quoted (utf8_of units.now)) }
{
    let text = String::from_utf16_lossy(alloc, units)?;
    push_quoted(out, text.as_bytes())
}

/// Appends a space and a user text in UTF-8, by the bytes of its UTF-16 units.
fn push_user_text(alloc: Global, bytes: &[u8], out: &mut Vec<u8>) -> Result<(), AllocError>
    ensures { OnOk result (out.new.items ≡ out.old.items ++ 0x20 ∷ quoted (utf8_of (units_of bytes.now))) }
{
    let units = units_of(alloc, bytes)?;
    push_str(out, " ")?;
    push_units(alloc, units.as_slice(), out)
}

/// Appends a number in decimal digits, with a sign where it is negative.
pub fn push_signed(alloc: Global, number: i64, out: &mut Vec<u8>) -> Result<(), AllocError>
    ensures { OnOk result (out.new.items ≡ out.old.items ++ signed_decimal number) }
{
    push_str(out, number.to_string(alloc)?.as_str())
}

/// Appends a space and a number in decimal digits.
fn push_number(alloc: Global, number: i64, out: &mut Vec<u8>) -> Result<(), AllocError>
    ensures { OnOk result (out.new.items ≡ out.old.items ++ 0x20 ∷ signed_decimal number) }
{
    push_str(out, " ")?;
    push_signed(alloc, number, out)
}

/// Appends a space and the digits of bytes.
fn push_raw(alloc: Global, bytes: &[u8], out: &mut Vec<u8>) -> Result<(), AllocError>
    ensures { OnOk result (out.new.items ≡ out.old.items ++ 0x20 ∷ encode_lower bytes.now) }
{
    push_str(out, " ")?;
    push_str(out, hex::encode(alloc, bytes)?.as_str())
}

/// Appends a space and the operand of an instruction that ends there, nothing where it has none. A
/// user text that isn't there is empty.
pub fn push_argument<V: ModuleView>(
    alloc: Global,
    view: &V,
    end: u32,
    arg: &Arg<'_>,
    out: &mut Vec<u8>,
) -> Result<(), AllocError>
    ensures { OnOk result (out.new.items
        ≡ out.old.items ++ argument_text (told (V.users view.now) (arg_seen end arg.now))) }
{
    match *arg {
        Arg::None => Ok(()),
        Arg::Num(number) => push_number(alloc, number, out),
        Arg::Target(offset) => push_target(offset, out),
        Arg::Targets(distances) => push_targets(end, distances, out),
        Arg::Token(token) => push_named(token, out),
        Arg::User(offset) => push_user_text(alloc, view.user_text(offset).unwrap_or(&[]), out),
        Arg::Raw(bytes) => push_raw(alloc, bytes, out),
    }
}
