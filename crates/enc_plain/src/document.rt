//! The name of a document, and a document by its value (Portable PDB v1.0).
ghost use Rattle.std.specs.Prelude.{◌≡◌, ◌<◌, ◌≤◌, ◌++◌, true, OnOk, is_some, length, option_map, option_and_then, slice_get, slice_index};
ghost use Rattle.enc_meta.specs.Heaps.{blob_at};
ghost use Rattle.enc_plain.specs.DebugSeen.{parts_said};
ghost use Rattle.enc_plain.specs.DocumentName.{part_in, separator_bytes, name_parts_in, document_name_in};

use enc_base::read_unsigned;
use enc_meta::Heaps;
use std::alloc::AllocError;
use std::marker::Model;

/// The name of a document, put together from parts without memory: seen as the bytes of the name
/// (Portable PDB v1.0, Document Name Blob).
#[derive(Drop)]
pub struct NameRef<'a> {
    heaps: Heaps<'a>,
    blob: &'a [u8],
}

impl<'a> Model for NameRef<'a> {
    ghost use Rattle.std.specs.Prelude.{◌≡◌, ◌≤◌, ℕ, List, [], true, is_some, length, unwrap_or};
    ghost use Rattle.enc_plain.specs.DocumentName.{document_name_in};

    ghost Value = { List ℕ };

    ghost view = { λ n. unwrap_or (document_name_in n.heaps.blobs n.blob.now) [] };

    ghost invariant = { λ n. (is_some (document_name_in n.heaps.blobs n.blob.now) ≡ true)
        × (length n.blob.now ≤ length n.heaps.blobs) };
}

/// A document by its value: its name, the GUID of its hash algorithm, its hash, and the GUID of its
/// language.
#[derive(Drop)]
pub struct DocumentRef<'a> {
    pub name: NameRef<'a>,
    pub algorithm: [u8; 16],
    pub hash: &'a [u8],
    pub language: [u8; 16],
}

/// The part at the front and what is behind it.
#[tactic(auto, unfolding(crate::specs::DocumentName::part_in))]
fn part<'a, 'b>(heaps: &Heaps<'a>, bytes: &'b [u8]) -> Option<(&'a [u8], &'b [u8])>
    ensures { option_map (λ x. (x.0.now, x.1.now)) result ≡ part_in heaps.now.blobs bytes.now }
{
    let (offset, end) = read_unsigned(bytes, 0)?;
    let text = heaps.blob(offset)?;
    Some((text, bytes.get(end..)?))
}

/// Whether parts stand one behind the other to the end of the bytes.
fn are_parts(heaps: &Heaps<'_>, bytes: &[u8]) -> bool
    ensures { result ≡ is_some (name_parts_in heaps.now.blobs (length bytes.now) bytes.now) }
{
    let mut rest = bytes;
    for i in 0..bytes.len() {
        if rest.is_empty() {
            return true;
        }
        let Some((_, behind)) = part(heaps, rest) else {
            return false;
        };
        rest = behind;
    }
    rest.is_empty()
}

/// Whether the bytes are a document's name: a separator of one byte and parts.
#[tactic(auto, unfolding(crate::specs::DocumentName::document_name_in))]
fn is_name(heaps: &Heaps<'_>, bytes: &[u8]) -> bool
    ensures { result ≡ is_some (document_name_in heaps.now.blobs bytes.now) }
{
    match bytes {
        [_, rest @ ..] => are_parts(heaps, rest),
        [] => false,
    }
}

/// Appends a separator, of which 0 is none, and a part.
fn push_part(separator: u8, text: &[u8], out: &mut Vec<u8>) -> Result<(), AllocError>
    ensures { OnOk result (out.new.items ≡ out.old.items ++ (separator_bytes separator ++ text.now)) }
{
    if separator == 0 {
        return out.extend_from_slice(text);
    }
    out.extend_from_slice(&[separator])?;
    out.extend_from_slice(text)
}

/// Appends the parts to the end of the bytes, with the separator between them.
fn push_parts(
    heaps: &Heaps<'_>,
    separator: u8,
    bytes: &[u8],
    out: &mut Vec<u8>,
) -> Result<(), AllocError>
    requires { is_some (name_parts_in heaps.now.blobs (length bytes.now) bytes.now) ≡ true }
    ensures { OnOk result (out.new.items
        ≡ out.old.items ++ parts_said 0 separator (name_parts_in heaps.now.blobs (length bytes.now) bytes.now)) }
{
    let mut rest = bytes;
    let mut before = 0;
    for i in 0..bytes.len() {
        if rest.is_empty() {
            return Ok(());
        }
        let Some((text, behind)) = part(heaps, rest) else {
            unreachable!()
        };
        push_part(before, text, out)?;
        before = separator;
        rest = behind;
    }
    Ok(())
}

/// How many bytes a separator has, of which 0 is none.
fn separator_len(separator: u8) -> usize
    ensures len { result ≡ length (separator_bytes separator) }
    ensures few { result ≤ 1 }
{
    if separator == 0 { 0 } else { 1 }
}

/// How many bytes the parts to the end of the bytes say, with the separator between them. A part has
/// at most as many as `#Blob`.
fn parts_len(heaps: &Heaps<'_>, separator: u8, bytes: &[u8]) -> usize
    requires some { is_some (name_parts_in heaps.now.blobs (length bytes.now) bytes.now) ≡ true }
    requires few { length bytes.now ≤ length heaps.now.blobs }
    ensures { result ≡ length (parts_said 0 separator (name_parts_in heaps.now.blobs (length bytes.now) bytes.now)) }
{
    let most = heaps.lengths().blobs as usize;
    let mut rest = bytes;
    let mut before = 0;
    let mut len = 0;
    for i in 0..bytes.len() {
        if rest.is_empty() {
            return len;
        }
        let Some((text, behind)) = part(heaps, rest) else {
            unreachable!()
        };
        len += separator_len(before) + text.len().min(most);
        before = separator;
        rest = behind;
    }
    len
}

/// The byte at a place of a separator, of which 0 is none, and a part.
fn byte_of(separator: u8, text: &[u8], i: usize) -> Option<u8>
    ensures { result ≡ slice_get (separator_bytes separator ++ text.now) i }
{
    if separator == 0 {
        return text.get(i).copied();
    }
    if i == 0 {
        return Some(separator);
    }
    text.get(i - 1).copied()
}

/// The byte at a place of what the parts to the end of the bytes say.
fn parts_byte(heaps: &Heaps<'_>, separator: u8, bytes: &[u8], i: usize) -> Option<u8>
    requires { is_some (name_parts_in heaps.now.blobs (length bytes.now) bytes.now) ≡ true }
    ensures { result ≡ slice_get (parts_said 0 separator (name_parts_in heaps.now.blobs (length bytes.now) bytes.now))
        i }
{
    let mut rest = bytes;
    let mut before = 0;
    let mut left = i;
    for k in 0..bytes.len() {
        if rest.is_empty() {
            return None;
        }
        let Some((text, behind)) = part(heaps, rest) else {
            unreachable!()
        };
        if let Some(byte) = byte_of(before, text, left) {
            return Some(byte);
        }
        left -= separator_len(before) + text.len();
        before = separator;
        rest = behind;
    }
    None
}

impl<'a> NameRef<'a> {
    /// The name that the blob at an offset of a file's heaps says; None exactly where no blob stands
    /// there or it says none.
    pub fn at(heaps: Heaps<'a>, offset: u32) -> Option<NameRef<'a>>
        ensures { result ≡ option_and_then (document_name_in heaps.entry.blobs) (blob_at heaps.entry.blobs offset) }
    {
        let blob = heaps.blob(offset)?;
        if !is_name(&heaps, blob) {
            return None;
        }
        Some(NameRef { heaps, blob })
    }

    /// How many bytes the name has. It goes over the parts and takes no memory.
    pub fn len(&self) -> usize
        ensures { result ≡ length self.now }
    {
        match self.blob {
            [separator, rest @ ..] => parts_len(&self.heaps, *separator, rest),
            [] => unreachable!(),
        }
    }

    /// The byte at a place of the name, from 0. It goes over the parts before it and takes no memory.
    pub fn byte(&self, i: usize) -> u8
        requires { i < length self.now }
        ensures { result ≡ slice_index self.now i }
    {
        let [separator, rest @ ..] = self.blob else {
            unreachable!()
        };
        match parts_byte(&self.heaps, *separator, rest, i) {
            Some(byte) => byte,
            None => unreachable!(),
        }
    }

    /// Appends the bytes of the name.
    pub fn push_to(&self, out: &mut Vec<u8>) -> Result<(), AllocError>
        ensures { OnOk result (out.new.items ≡ out.old.items ++ self.now) }
    {
        match self.blob {
            [separator, rest @ ..] => push_parts(&self.heaps, *separator, rest, out),
            [] => unreachable!(),
        }
    }
}
