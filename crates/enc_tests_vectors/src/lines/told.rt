//! How answers are spelled.

use crate::lines::args::Fault;
use enc_base::{Code, Place, Refusal, StreamName, Token};
use enc_schema::column_name;
use std::alloc::Global;
use std::fmt::Display;

/// A word as an answer.
pub fn word(alloc: Global, word: &str) -> Result<String, Fault> {
    Ok(String::from_str(alloc, word)?)
}

/// `yes` or `no`.
pub fn yes_or_no(alloc: Global, is_so: bool) -> Result<String, Fault> {
    word(alloc, if is_so { "yes" } else { "no" })
}

/// What is there, and `none` where nothing is.
pub fn or_none<T: Display + Drop>(alloc: Global, there: Option<T>) -> Result<String, Fault> {
    match there {
        Some(there) => Ok(format!(in alloc; "{there}")?),
        None => word(alloc, "none"),
    }
}

/// Bytes in hexadecimal digits, `-` where there are none.
pub fn bytes(alloc: Global, bytes: &[u8]) -> Result<String, Fault> {
    if bytes.is_empty() {
        return word(alloc, "-");
    }
    Ok(hex::encode(alloc, bytes)?)
}

/// A token in eight hexadecimal digits; one whose row is too large for that as `TABLE row ROW`.
pub fn token(alloc: Global, token: Token) -> Result<String, Fault> {
    if token.row < 0x100_0000 {
        return Ok(format!(in alloc; "{:08x}", token.number())?);
    }
    Ok(format!(in alloc; "{:02x} row {}", token.table, token.row)?)
}

/// A stream's name (ECMA-335 II.24.2.2).
pub fn stream(name: StreamName) -> &'static str {
    match name {
        StreamName::Compressed => "#~",
        StreamName::Uncompressed => "#-",
        StreamName::Strings => "#Strings",
        StreamName::Users => "#US",
        StreamName::Blobs => "#Blob",
        StreamName::Guids => "#GUID",
        StreamName::Pdb => "#Pdb",
        StreamName::Jtd => "#JTD",
    }
}

/// A place in the words of docs/rules.md.
pub fn place(alloc: Global, place: Place) -> Result<String, Fault> {
    match place {
        Place::Root => word(alloc, "root"),
        Place::Stream(name) => word(alloc, stream(name)),
        Place::Headers => word(alloc, "headers"),
        Place::Cli => word(alloc, "cli"),
        Place::Metadata => word(alloc, "metadata"),
        Place::Resources => word(alloc, "resources"),
        Place::Debug => word(alloc, "debug"),
        Place::Tables => word(alloc, "tables"),
        Place::Pdb => word(alloc, "pdb"),
        Place::Row(of) => token(alloc, of),
        Place::Cell(of, column) => cell(alloc, of, column),
        Place::Owner(of) => Ok(format!(in alloc; "{}.owner", token(alloc, of)?)?),
        Place::Log(entry) => Ok(format!(in alloc; "log {entry}")?),
    }
}

/// A cell by its token and its column's name.
fn cell(alloc: Global, of: Token, column: u8) -> Result<String, Fault> {
    let name = column_name(of.table, column).unwrap_or("");
    Ok(format!(in alloc; "{}.{name}", token(alloc, of)?)?)
}

/// The code of a refusal and its place.
pub fn refusal(alloc: Global, refusal: Refusal) -> Result<String, Fault> {
    let at = place(alloc, refusal.place)?;
    match refusal.code {
        Code::F(number) => Ok(format!(in alloc; "F{number} {at}")?),
        Code::E(number) => Ok(format!(in alloc; "E{number} {at}")?),
    }
}
