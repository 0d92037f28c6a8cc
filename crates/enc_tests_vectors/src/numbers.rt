//! Numbers of `enc_base`: fixed ones, compressed ones (ECMA-335 II.23.2), and tokens; bytes and UTF-16
//! units that grow.

use crate::lines::{Args, Fault, told};
use enc_base::{
    Bytes, Token, Units, push_half, push_long, push_signed, push_unsigned, push_word, push_zeros,
    read_signed, read_unsigned, u8_at, u16_at, u32_at, u64_at,
};
use std::alloc::Global;
use std::fmt::Display;

/// The spelling of an unsigned number, for `push_unsigned NUMBER`.
fn unsigned(alloc: Global, args: &mut Args<'_>) -> Result<String, Fault> {
    let value = args.number()?;
    if value >= 0x2000_0000 {
        return Err(Fault::Form);
    }
    let mut out = Vec::new(alloc);
    push_unsigned(value, &mut out)?;
    told::bytes(alloc, &out)
}

/// The spelling of a signed number, for `push_signed NUMBER`.
fn signed(alloc: Global, args: &mut Args<'_>) -> Result<String, Fault> {
    let value = args.signed()?;
    if value < -0x1000_0000 || value >= 0x1000_0000 {
        return Err(Fault::Form);
    }
    let mut out = Vec::new(alloc);
    push_signed(value as i32, &mut out)?;
    told::bytes(alloc, &out)
}

/// So many zeros, for `push_zeros COUNT`.
fn zeros(alloc: Global, args: &mut Args<'_>) -> Result<String, Fault> {
    let count = args.byte()?;
    let mut out = Vec::new(alloc);
    push_zeros(count as usize, &mut out)?;
    told::bytes(alloc, &out)
}

/// The spelling of a number of two, four or eight bytes, for `push_half NUMBER` and the like.
fn spelled(alloc: Global, call: &str, args: &mut Args<'_>) -> Result<String, Fault> {
    let mut out = Vec::new(alloc);
    match call {
        "push_half" => push_half(args.half()?, &mut out)?,
        "push_word" => push_word(args.number()?, &mut out)?,
        _ => push_long(args.long()?, &mut out)?,
    }
    told::bytes(alloc, &out)
}

/// A number and the offset behind it, for `read_unsigned BYTES OFFSET` and the like: `none` where none stands there.
fn read<N: Display + Drop>(alloc: Global, read: Option<(N, usize)>) -> Result<String, Fault> {
    match read {
        Some((number, end)) => Ok(format!(in alloc; "{number} {end}")?),
        None => told::word(alloc, "none"),
    }
}

/// The table and the row of `token TOKEN`.
fn token(alloc: Global, args: &mut Args<'_>) -> Result<String, Fault> {
    let token = args.token()?;
    Ok(format!(in alloc; "table {:02x} row {}", token.table, token.row)?)
}

/// The token of `token_number TABLE ROW`.
fn token_number(alloc: Global, args: &mut Args<'_>) -> Result<String, Fault> {
    let table = args.table()?;
    let row = args.number()?;
    if row >= 0x100_0000 {
        return Err(Fault::Form);
    }
    let token = Token { table, row };
    told::token(alloc, token)
}

/// The number of bytes, the byte at an index and all of them, for `bytes BYTES INDEX MORE`: those of BYTES
/// one by one, and behind them those of MORE.
fn bytes(alloc: Global, args: &mut Args<'_>) -> Result<String, Fault> {
    let front = args.bytes(alloc)?;
    let index = args.number()? as usize;
    let more = args.bytes(alloc)?;
    let mut grown = Bytes::begin(alloc);
    for byte in &front {
        grown.push(*byte)?;
    }
    let mut grown = Bytes::from_vec(grown.into_vec());
    for byte in &more {
        grown.push(*byte)?;
    }
    let at = told::or_none(alloc, grown.get(index).copied())?;
    let all = told::bytes(alloc, grown.as_slice())?;
    Ok(format!(in alloc; "{} {at} {all}", grown.len())?)
}

/// The number of units, the unit at an index and all of them, for `units UNITS INDEX`.
fn units(alloc: Global, args: &mut Args<'_>) -> Result<String, Fault> {
    let units = args.units(alloc)?;
    let index = args.number()? as usize;
    let mut grown = Units::begin(alloc);
    for unit in &units {
        grown.push(*unit)?;
    }
    let at = told::or_none(alloc, grown.get(index).copied())?;
    let mut text = format!(in alloc; "{} {at}", grown.len())?;
    for unit in grown.as_slice() {
        text.push_str(format!(in alloc; " {unit:04x}")?.as_str())?;
    }
    Ok(text)
}

/// What a call reads from bytes at an offset, None where the call is another.
fn at(alloc: Global, call: &str, args: &mut Args<'_>) -> Result<Option<String>, Fault> {
    let bytes = args.bytes(alloc)?;
    let at = args.number()? as usize;
    Ok(Some(match call {
        "u8_at" => told::or_none(alloc, u8_at(&bytes, at))?,
        "u16_at" => told::or_none(alloc, u16_at(&bytes, at))?,
        "u32_at" => told::or_none(alloc, u32_at(&bytes, at))?,
        "u64_at" => told::or_none(alloc, u64_at(&bytes, at))?,
        "read_unsigned" => read(alloc, read_unsigned(&bytes, at))?,
        "read_signed" => read(alloc, read_signed(&bytes, at))?,
        _ => return Ok(None),
    }))
}

/// The answer to a call of this file, None where the call is another: numbers in decimal digits, bytes in
/// hexadecimal ones.
pub fn answer(alloc: Global, call: &str, args: &mut Args<'_>) -> Result<Option<String>, Fault> {
    Ok(Some(match call {
        "push_unsigned" => unsigned(alloc, args)?,
        "push_signed" => signed(alloc, args)?,
        "push_zeros" => zeros(alloc, args)?,
        "push_half" | "push_word" | "push_long" => spelled(alloc, call, args)?,
        "token" => token(alloc, args)?,
        "token_number" => token_number(alloc, args)?,
        "bytes" => bytes(alloc, args)?,
        "units" => units(alloc, args)?,
        "u8_at" | "u16_at" | "u32_at" | "u64_at" | "read_unsigned" | "read_signed" => {
            return at(alloc, call, args);
        }
        _ => return Ok(None),
    }))
}
