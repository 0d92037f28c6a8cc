//! Tokens, texts, blobs, GUIDs and refusals as printed bytes. Each call appends, and after want of
//! memory what stands behind the old bytes is free: callers hand in a text of their own.
ghost use Rattle.std.specs.Prelude.{◌≡◌, ◌≤◌, ◌++◌, ◌∷◌, [], length, OnOk, IfOk, flat_map, decimal, codes};
ghost use Rattle.std.specs.Int.{w32, to_be_bytes};
ghost use Rattle.hex.specs.Hex.{encode_lower};
ghost use Rattle.enc_text.specs.Text.{digits, token_text, stands_as_it_is, escaped, quoted, bracketed, guid_text, refusal_code_text, stream_text, cell_place_text, place_text, refused_line};

use enc_base::{Code, Place, Refusal, StreamName, Token};
use enc_schema::column_name;
use std::alloc::{AllocError, Global};
use uuid::Uuid;

/// Appends a literal or a name.
pub fn push_str(out: &mut Vec<u8>, text: &str) -> Result<(), AllocError>
    ensures { OnOk result (out.new.items ≡ out.old.items ++ text.now) }
{
    out.extend_from_slice(text.as_bytes())
}

/// The eight lower case hexadecimal digits of a number.
pub fn all_digits(number: u32) -> [u8; 8]
    ensures { result ≡ encode_lower (to_be_bytes w32 number) }
{
    let mut all = [0; 8];
    let Ok(()) = hex::encode_to_slice(number.to_be_bytes().as_slice(), &mut all) else {
        unreachable!()
    };
    all
}

/// Appends the last digits of a number.
#[tactic(auto, unfolding(crate::specs::Text::digits))]
pub fn push_digits(out: &mut Vec<u8>, count: usize, number: u32) -> Result<(), AllocError>
    requires { count ≤ 8 }
    ensures { OnOk result (out.new.items ≡ out.old.items ++ digits count number) }
{
    let all = all_digits(number);
    out.extend_from_slice(&all[8 - count..])
}

/// Appends the eight digits of a token.
#[tactic(auto, unfolding(crate::specs::Text::token_text))]
pub fn push_token(out: &mut Vec<u8>, token: Token) -> Result<(), AllocError>
    ensures { OnOk result (out.new.items ≡ out.old.items ++ token_text token) }
{
    push_digits(out, 2, u32::from(token.table))?;
    push_digits(out, 6, token.row)
}

/// Appends a number in decimal digits.
pub fn push_long(alloc: Global, out: &mut Vec<u8>, number: u64) -> Result<(), AllocError>
    ensures { OnOk result (out.new.items ≡ out.old.items ++ decimal number) }
{
    push_str(out, number.to_string(alloc)?.as_str())
}

/// Appends a number in decimal digits.
pub fn push_decimal(alloc: Global, out: &mut Vec<u8>, number: u32) -> Result<(), AllocError>
    ensures { OnOk result (out.new.items ≡ out.old.items ++ decimal number) }
{
    push_str(out, number.to_string(alloc)?.as_str())
}

/// Whether a byte of a text stands as it is.
pub fn stands_as_it_is(b: u8) -> bool
    ensures { result ≡ stands_as_it_is b }
{
    0x20 <= b && b <= 0x7e && b != b'"' && b != b'\\'
}

fn push_escaped(out: &mut Vec<u8>, b: u8) -> Result<(), AllocError>
    ensures { OnOk result (out.new.items ≡ out.old.items ++ escaped b) }
{
    if stands_as_it_is(b) {
        out.push(b)?;
        return Ok(());
    }
    push_str(out, "\\x")?;
    push_digits(out, 2, u32::from(b))
}

fn push_all_escaped(out: &mut Vec<u8>, bytes: &[u8]) -> Result<(), AllocError>
    ensures { OnOk result (out.new.items ≡ out.old.items ++ flat_map escaped bytes.now) }
{
    for b in bytes {
        push_escaped(out, *b)?;
    }
    Ok(())
}

/// Appends a text between `"` signs.
#[tactic(auto, unfolding(crate::specs::Text::quoted))]
pub fn push_quoted(out: &mut Vec<u8>, bytes: &[u8]) -> Result<(), AllocError>
    ensures { OnOk result (out.new.items ≡ out.old.items ++ quoted bytes.now) }
{
    push_str(out, "\"")?;
    push_all_escaped(out, bytes)?;
    push_str(out, "\"")
}

/// Appends the digits of a blob in brackets.
#[tactic(auto, unfolding(crate::specs::Text::bracketed))]
pub fn push_blob(alloc: Global, out: &mut Vec<u8>, bytes: &[u8]) -> Result<(), AllocError>
    ensures { OnOk result (out.new.items ≡ out.old.items ++ bracketed bytes.now) }
{
    push_str(out, "[")?;
    push_str(out, hex::encode(alloc, bytes)?.as_str())?;
    push_str(out, "]")
}

/// Appends a GUID with hyphens.
pub fn push_guid(out: &mut Vec<u8>, bytes: [u8; 16]) -> Result<(), AllocError>
    ensures { OnOk result (out.new.items ≡ out.old.items ++ guid_text bytes) }
{
    let mut buffer = Uuid::encode_buffer();
    let guid = Uuid::from_bytes_le(bytes).hyphenated();
    push_str(out, guid.encode_lower(&mut buffer))
}

fn push_code(alloc: Global, out: &mut Vec<u8>, code: Code) -> Result<(), AllocError>
    ensures { OnOk result (out.new.items ≡ out.old.items ++ refusal_code_text code) }
{
    let (letter, number) = match code {
        Code::F(number) => ("F", number),
        Code::E(number) => ("E", number),
    };
    push_str(out, letter)?;
    push_decimal(alloc, out, u32::from(number))
}

/// The name of a stream (ECMA-335 II.24.2.2).
pub fn stream_name(name: StreamName) -> &'static str
    ensures { result.now ≡ stream_text name }
{
    match name {
        StreamName::Compressed => "#~",
        StreamName::Uncompressed => "#-",
        StreamName::Strings => "#Strings",
        StreamName::Users => "#US",
        StreamName::Blobs => "#Blob",
        StreamName::Guids => "#GUID",
        StreamName::Pdb => "#Pdb",
        StreamName::Jtd => "#JTD",
    }
}

#[tactic(auto, unfolding(crate::specs::Text::cell_place_text))]
fn push_cell_place(out: &mut Vec<u8>, token: Token, column: u8) -> Result<(), AllocError>
    ensures { OnOk result (out.new.items ≡ out.old.items ++ cell_place_text token column) }
{
    push_token(out, token)?;
    push_str(out, ".")?;
    push_str(out, column_name(token.table, column).unwrap_or(""))
}

fn push_owner_place(out: &mut Vec<u8>, token: Token) -> Result<(), AllocError>
    ensures { OnOk result (out.new.items ≡ out.old.items ++ (token_text token ++ codes ".owner")) }
{
    push_token(out, token)?;
    push_str(out, ".owner")
}

fn push_log_place(alloc: Global, out: &mut Vec<u8>, entry: u32) -> Result<(), AllocError>
    ensures { OnOk result (out.new.items ≡ out.old.items ++ (codes "log " ++ decimal entry)) }
{
    push_str(out, "log ")?;
    push_decimal(alloc, out, entry)
}

fn push_place(alloc: Global, out: &mut Vec<u8>, place: Place) -> Result<(), AllocError>
    ensures { OnOk result (out.new.items ≡ out.old.items ++ place_text place) }
{
    match place {
        Place::Root => push_str(out, "root"),
        Place::Stream(name) => push_str(out, stream_name(name)),
        Place::Headers => push_str(out, "headers"),
        Place::Cli => push_str(out, "cli"),
        Place::Metadata => push_str(out, "metadata"),
        Place::Resources => push_str(out, "resources"),
        Place::Debug => push_str(out, "debug"),
        Place::Tables => push_str(out, "tables"),
        Place::Pdb => push_str(out, "pdb"),
        Place::Row(token) => push_token(out, token),
        Place::Cell(token, column) => push_cell_place(out, token, column),
        Place::Owner(token) => push_owner_place(out, token),
        Place::Log(entry) => push_log_place(alloc, out, entry),
    }
}

/// The line of a refused file.
#[tactic(auto, unfolding(crate::specs::Text::refused_line))]
pub fn refused_line(alloc: Global, name: &str, refusal: Refusal) -> Result<Vec<u8>, AllocError>
    ensures { IfOk result (λ line. line.items ≡ refused_line name.now refusal) }
{
    let mut line = Vec::new(alloc);
    push_str(&mut line, "refused ")?;
    push_str(&mut line, name)?;
    push_str(&mut line, " ")?;
    push_code(alloc, &mut line, refusal.code)?;
    push_str(&mut line, " ")?;
    push_place(alloc, &mut line, refusal.place)?;
    push_str(&mut line, "\n")?;
    Ok(line)
}
