//! Texts, and the units that members outside write (ECMA-335 II.24.2.4).
ghost use Rattle.std.specs.Prelude.{◌≡◌, ◌++◌, ◌%◌, ◌^◌, [], length, IfOk};
ghost use Rattle.std.specs.Option.{option_copied};
ghost use Rattle.enc_objects.specs.Values.{truth};
ghost use Rattle.enc_frames.specs.Console.{text, or_empty, digits_of_number, texts_equal, unit_at, line_end};
ghost use Rattle.enc_frames.specs.ConsoleSeen.{text_seen};

use enc_base::Units;
use enc_objects::{Objects, Trap, Value};
use std::alloc::{AllocError, Global};

/// The units of the text that a value is of, None of null. X4 where it is of no text.
pub(crate) fn text(objects: &Objects, value: Value) -> Result<Option<&[u16]>, Trap>
    ensures { text_seen result ≡ text objects.now value }
{
    match value {
        Value::I4(_) | Value::I8(_) => Err(Trap::X4),
        Value::Null => Ok(None),
        Value::Obj(id) => match objects.units(id) {
            None => Err(Trap::X4),
            Some(units) => Ok(Some(units)),
        },
    }
}

/// The units of a text; null has none.
pub(crate) fn or_empty(text: Option<&[u16]>) -> &[u16]
    ensures { result.now ≡ or_empty (option_copied text.entry) }
{
    match text {
        None => &[],
        Some(units) => units,
    }
}

/// Whether two texts are equal: both null, or of the same units.
pub(crate) fn texts_equal(a: Option<&[u16]>, b: Option<&[u16]>) -> bool
    ensures { result ≡ texts_equal (option_copied a.entry) (option_copied b.entry) }
{
    match a {
        None => b.is_none(),
        Some(first) => match b {
            None => false,
            Some(second) => first == second,
        },
    }
}

/// 1 or 0.
pub(crate) fn truth(holds: bool) -> Value
    ensures { result ≡ truth holds }
{
    if holds { Value::I4(1) } else { Value::I4(0) }
}

/// How many units there are, in four bytes.
pub(crate) fn count_of(units: &[u16]) -> u32
    ensures { result ≡ length units.now % 2 ^ 32 }
{
    (units.len() % 0x1_0000_0000) as u32
}

/// The unit at an index. X8 where there is none.
pub(crate) fn unit_at(units: &[u16], index: i32) -> Result<u16, Trap>
    ensures { result ≡ unit_at units.now index }
{
    if index < 0 {
        return Err(Trap::X8);
    }
    match units.get(index.unsigned_abs() as usize) {
        None => Err(Trap::X8),
        Some(unit) => Ok(*unit),
    }
}

/// The units of one text behind those of another.
pub(crate) fn joined(alloc: Global, a: &[u16], b: &[u16]) -> Result<Vec<u16>, AllocError>
    ensures { IfOk result (λ units. units.items ≡ a.now ++ b.now) }
{
    let mut units = Vec::from_slice(alloc, a)?;
    units.extend_from_slice(b)?;
    Ok(units)
}

/// A copy of units.
pub(crate) fn units_copied(alloc: Global, units: &[u16]) -> Result<Units, AllocError>
    ensures { IfOk result (λ copy. copy ≡ units.now) }
{
    let mut copy = Units::begin(alloc);
    let mut rest = units;
    while let [unit, tail @ ..] = rest {
        copy.push(*unit)?;
        rest = tail;
    }
    Ok(copy)
}

/// Units and the end of a line.
pub(crate) fn ended(mut units: Units) -> Result<Units, AllocError>
    ensures { IfOk result (λ line. line ≡ units ++ line_end) }
{
    units.push(0x0A)?;
    Ok(units)
}

/// Bytes as units.
fn widened(alloc: Global, bytes: &[u8]) -> Result<Units, AllocError>
    ensures { IfOk result (λ units. units ≡ bytes.now) }
{
    let mut units = Units::begin(alloc);
    let mut rest = bytes;
    while let [byte, tail @ ..] = rest {
        units.push(u16::from(*byte))?;
        rest = tail;
    }
    Ok(units)
}

/// The decimal digits of a number, with a sign where it is negative.
#[tactic(auto, using(crate::proofs::Signs::digits_are))]
pub(crate) fn digits(alloc: Global, number: i32) -> Result<Units, AllocError>
    ensures { IfOk result (λ units. units ≡ digits_of_number number) }
{
    let text = number.to_string(alloc)?;
    widened(alloc, text.as_bytes())
}
