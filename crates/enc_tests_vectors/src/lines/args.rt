//! The words of a line.

use enc_base::{Counts, Token};
use std::alloc::{AllocError, AllocFailed, Global};

/// Why a line has no answer: it isn't of the form, or memory ran out.
#[derive(Clone, Copy, Debug, PartialEq)]
pub enum Fault {
    Form,
    Memory,
}

impl From<AllocError> for Fault {
    fn from(_error: AllocError) -> Fault {
        Fault::Memory
    }
}

impl<T: Drop> From<AllocFailed<T>> for Fault {
    fn from(_error: AllocFailed<T>) -> Fault {
        Fault::Memory
    }
}

/// The number that a word says: in decimal digits, or in hexadecimal ones behind `0x`.
fn number_in(word: &str) -> Result<u64, Fault> {
    let read = match word.strip_prefix("0x") {
        Some(digits) => u64::from_str_radix(digits, 16),
        None => word.parse::<u64>(),
    };
    match read {
        Ok(number) => Ok(number),
        Err(_) => Err(Fault::Form),
    }
}

/// The token of eight hexadecimal digits.
pub fn token_in(word: &str) -> Result<Token, Fault> {
    match u32::from_str_radix(word, 16) {
        Ok(number) => Ok(Token::of(number)),
        Err(_) => Err(Fault::Form),
    }
}

/// A table and how many rows it has, of `TABLE:ROWS`.
fn rows_in(word: &str) -> Result<(u8, u32), Fault> {
    let Some((table, rows)) = word.split_once(':') else {
        return Err(Fault::Form);
    };
    match (
        u8::from_str_radix(table, 16),
        u32::try_from(number_in(rows)?),
    ) {
        (Ok(table), Ok(rows)) => Ok((table, rows)),
        _ => Err(Fault::Form),
    }
}

/// Adds the bytes of a part: those of a text behind its quote, or so many times as stands behind its `*`.
fn push_part(alloc: Global, part: &str, bytes: &mut Vec<u8>) -> Result<(), Fault> {
    if let Some(text) = part.strip_prefix('\'') {
        return Ok(bytes.extend_from_slice(text.as_bytes())?);
    }
    let (digits, times) = match part.split_once('*') {
        Some((digits, times)) => (digits, number_in(times)?),
        None => (part, 1),
    };
    let Ok(once) = hex::decode(alloc, digits) else {
        return Err(Fault::Form);
    };
    if times > 0x1_0000 {
        return Err(Fault::Form);
    }
    for _ in 0..times {
        bytes.extend_from_slice(&once)?;
    }
    Ok(())
}

/// Bytes, as `Args::bytes` has them.
pub fn bytes_in(alloc: Global, word: &str) -> Result<Vec<u8>, Fault> {
    let mut bytes = Vec::new(alloc);
    if word == "-" {
        return Ok(bytes);
    }
    for part in word.split(',') {
        push_part(alloc, part, &mut bytes)?;
    }
    Ok(bytes)
}

/// Numbers, as `Args::numbers` has them.
pub fn numbers_in(alloc: Global, word: &str) -> Result<Vec<u32>, Fault> {
    let mut numbers = Vec::new(alloc);
    if word == "-" {
        return Ok(numbers);
    }
    for part in word.split(',') {
        match u32::try_from(number_in(part)?) {
            Ok(number) => numbers.push(number)?,
            Err(_) => return Err(Fault::Form),
        }
    }
    Ok(numbers)
}

/// UTF-16 units, as `Args::units` has them.
pub fn units_in(alloc: Global, word: &str) -> Result<Vec<u16>, Fault> {
    let mut units = Vec::new(alloc);
    if word == "-" {
        return Ok(units);
    }
    for part in word.split(',') {
        match u16::from_str_radix(part, 16) {
            Ok(unit) => units.push(unit)?,
            Err(_) => return Err(Fault::Form),
        }
    }
    Ok(units)
}

/// What stands behind a call: words, separated by single spaces.
#[derive(Drop)]
pub struct Args<'a> {
    rest: Option<&'a str>,
}

impl<'a> Args<'a> {
    /// The call of a line, and its arguments.
    pub fn of(line: &'a str) -> (&'a str, Args<'a>) {
        match line.split_once(' ') {
            Some((call, rest)) => (call, Args { rest: Some(rest) }),
            None => (line, Args { rest: None }),
        }
    }

    /// The next word.
    pub fn word(&mut self) -> Result<&'a str, Fault> {
        let Some(rest) = self.rest else {
            return Err(Fault::Form);
        };
        match rest.split_once(' ') {
            Some((word, behind)) => {
                self.rest = Some(behind);
                Ok(word)
            }
            None => {
                self.rest = None;
                Ok(rest)
            }
        }
    }

    /// Whether another word follows.
    pub fn has_more(&self) -> bool {
        self.rest.is_some()
    }

    /// A number in decimal digits, or in hexadecimal ones behind `0x`.
    pub fn long(&mut self) -> Result<u64, Fault> {
        number_in(self.word()?)
    }

    /// Such a number below 2^32.
    pub fn number(&mut self) -> Result<u32, Fault> {
        match u32::try_from(self.long()?) {
            Ok(number) => Ok(number),
            Err(_) => Err(Fault::Form),
        }
    }

    /// Such a number below 2^16.
    pub fn half(&mut self) -> Result<u16, Fault> {
        match u16::try_from(self.long()?) {
            Ok(number) => Ok(number),
            Err(_) => Err(Fault::Form),
        }
    }

    /// Such a number below 2^8.
    pub fn byte(&mut self) -> Result<u8, Fault> {
        match u8::try_from(self.long()?) {
            Ok(number) => Ok(number),
            Err(_) => Err(Fault::Form),
        }
    }

    /// Such numbers below 2^32 with commas between them; `-` where there are none.
    pub fn numbers(&mut self, alloc: Global) -> Result<Vec<u32>, Fault> {
        numbers_in(alloc, self.word()?)
    }

    /// UTF-16 units, each in four hexadecimal digits, with commas between them; `-` where there are none.
    pub fn units(&mut self, alloc: Global) -> Result<Vec<u16>, Fault> {
        units_in(alloc, self.word()?)
    }

    /// A byte in two hexadecimal digits.
    pub fn hex_byte(&mut self) -> Result<u8, Fault> {
        match u8::from_str_radix(self.word()?, 16) {
            Ok(byte) => Ok(byte),
            Err(_) => Err(Fault::Form),
        }
    }

    /// A table by its number, in two hexadecimal digits, as at the front of a token.
    pub fn table(&mut self) -> Result<u8, Fault> {
        self.hex_byte()
    }

    /// What stands between quotes, which the line ends with.
    pub fn quoted(&mut self) -> Result<&'a str, Fault> {
        let Some(rest) = self.rest else {
            return Err(Fault::Form);
        };
        self.rest = None;
        match rest.strip_prefix("\"") {
            Some(text) => text.strip_suffix("\"").ok_or(Fault::Form),
            None => Err(Fault::Form),
        }
    }

    /// A number in decimal digits, with a sign before it where it is negative.
    pub fn signed(&mut self) -> Result<i64, Fault> {
        match self.word()?.parse::<i64>() {
            Ok(number) => Ok(number),
            Err(_) => Err(Fault::Form),
        }
    }

    /// A token, in eight hexadecimal digits.
    pub fn token(&mut self) -> Result<Token, Fault> {
        token_in(self.word()?)
    }

    /// How many rows there are of each table: `TABLE:ROWS` with commas between them; `-` where there are none.
    pub fn rows(&mut self) -> Result<Counts, Fault> {
        let mut counts = Counts { rows: [0; 64] };
        let word = self.word()?;
        if word == "-" {
            return Ok(counts);
        }
        for part in word.split(',') {
            let (table, rows) = rows_in(part)?;
            if table >= 64 {
                return Err(Fault::Form);
            }
            counts.rows[table as usize] = rows;
        }
        Ok(counts)
    }

    /// Bytes in hexadecimal digits; `-` where there are none. They may stand in parts with commas between
    /// them: a part so many times, as in `0f*99,08`, or the characters of a text, as in `'BSJB,0100`.
    pub fn bytes(&mut self, alloc: Global) -> Result<Vec<u8>, Fault> {
        bytes_in(alloc, self.word()?)
    }
}
