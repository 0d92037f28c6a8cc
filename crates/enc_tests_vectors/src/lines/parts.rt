//! Bytes that are spelled in parts: runs of equal bytes, and places that differ.

use crate::lines::args::{Args, Fault};
use std::alloc::Global;

/// The bytes of hexadecimal digits.
pub fn of_digits(alloc: Global, digits: &str) -> Result<Vec<u8>, Fault> {
    match hex::decode(alloc, digits) {
        Ok(bytes) => Ok(bytes),
        Err(_) => Err(Fault::Form),
    }
}

/// The number that decimal digits say.
fn number(digits: &str) -> Result<usize, Fault> {
    match digits.parse::<usize>() {
        Ok(number) => Ok(number),
        Err(_) => Err(Fault::Form),
    }
}

/// Puts bytes in the place of those at an offset, which have to be there.
fn put(out: &mut Vec<u8>, offset: usize, bytes: &[u8]) -> Result<(), Fault> {
    if offset > out.len() || bytes.len() > out.len() - offset {
        return Err(Fault::Form);
    }
    out[offset..offset + bytes.len()].copy_from_slice(bytes);
    Ok(())
}

/// Appends bytes so often.
fn repeat(out: &mut Vec<u8>, bytes: &[u8], times: usize) -> Result<(), Fault> {
    for _ in 0..times {
        out.extend_from_slice(bytes)?;
    }
    Ok(())
}

/// One part behind those before it.
fn push_part(alloc: Global, part: &str, out: &mut Vec<u8>) -> Result<(), Fault> {
    if let Some((offset, digits)) = part.split_once(':') {
        let bytes = of_digits(alloc, digits)?;
        return put(out, number(offset)?, &bytes);
    }
    if let Some((digits, times)) = part.split_once('*') {
        let bytes = of_digits(alloc, digits)?;
        return repeat(out, &bytes, number(times)?);
    }
    let bytes = of_digits(alloc, part)?;
    Ok(out.extend_from_slice(&bytes)?)
}

/// Bytes in parts with commas between them: `DIGITS` in hexadecimal, `DIGITS*TIMES` so often one behind the other,
/// `OFFSET:DIGITS` in the place of what the parts before it have there; `-` where there are no bytes.
pub fn bytes(alloc: Global, args: &mut Args<'_>) -> Result<Vec<u8>, Fault> {
    let mut out = Vec::new(alloc);
    let word = args.word()?;
    if word == "-" {
        return Ok(out);
    }
    for part in word.split(',') {
        push_part(alloc, part, &mut out)?;
    }
    Ok(out)
}

/// Bytes in hexadecimal digits, `-` where there are none, and their number alone where there are very many.
pub fn told(alloc: Global, bytes: &[u8]) -> Result<String, Fault> {
    if bytes.is_empty() {
        return Ok(String::from_str(alloc, "-")?);
    }
    if bytes.len() > 2000 {
        return Ok(format!(in alloc; "{}", bytes.len())?);
    }
    Ok(hex::encode(alloc, bytes)?)
}

/// A place among bytes, in decimal digits.
pub fn offset(args: &mut Args<'_>) -> Result<usize, Fault> {
    number(args.word()?)
}

/// A number in hexadecimal digits.
pub fn hexadecimal(args: &mut Args<'_>) -> Result<u32, Fault> {
    match u32::from_str_radix(args.word()?, 16) {
        Ok(number) => Ok(number),
        Err(_) => Err(Fault::Form),
    }
}
