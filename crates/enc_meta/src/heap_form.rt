//! How a value is written in its heap.
ghost use Rattle.std.specs.Prelude.{◌≡◌, ◌+◌, ◌<◌, ◌^◌, ◌++◌, length, IsTrue, OnOk};
ghost use Rattle.enc_base.specs.Numbers.{spelled};
ghost use Rattle.enc_meta.specs.Built.{asks_mark, any_asks_mark, mark_of, text_bytes, user_bytes, blob_bytes};
ghost use Rattle.enc_meta.specs.Pools.{encoded, limit_of, stream_name_of, value_is_good};

use enc_base::{StreamName, push_unsigned};
use std::alloc::AllocError;

/// How the values of a heap are written.
#[derive(Clone, Copy, Debug, PartialEq, Eq)]
pub enum HeapForm {
    /// A text and a zero (ECMA-335 II.24.2.3).
    Text,
    /// UTF-16 units and the mark, behind their length (II.24.2.4).
    User,
    /// Bytes behind their length (II.24.2.4).
    Blob,
}

/// How many bytes spell a length.
fn spelled_len(len: usize) -> u64
    ensures { result ≡ length (spelled len) }
{
    if len < 0x80 {
        1
    } else if len < 0x4000 {
        2
    } else {
        4
    }
}

/// Whether a unit asks for the mark.
#[tactic(auto, unfolding(crate::specs::Built::asks_mark))]
fn asks_mark(low: u8, high: u8) -> bool
    ensures { result ≡ asks_mark low high }
{
    high != 0 || matches!(low, 0x01..=0x08 | 0x0e..=0x1f | 0x27 | 0x2d | 0x7f)
}

/// Whether a unit among these bytes asks for the mark.
fn any_asks_mark(units: &[u8]) -> bool
    ensures { result ≡ any_asks_mark units.now }
{
    let mut rest = units;
    while let [low, high, tail @ ..] = rest {
        if asks_mark(*low, *high) {
            return true;
        }
        rest = tail;
    }
    false
}

/// The byte behind units.
#[tactic(auto, unfolding(crate::specs::Built::mark_of))]
fn mark_of(units: &[u8]) -> u8
    ensures { result ≡ mark_of units.now }
{
    if any_asks_mark(units) { 1 } else { 0 }
}

/// Appends a text and its zero.
fn push_text(text: &[u8], out: &mut Vec<u8>) -> Result<(), AllocError>
    ensures { OnOk result (out.new.items ≡ out.old.items ++ text_bytes text.now) }
{
    out.extend_from_slice(text)?;
    out.extend_from_slice(&[0])
}

/// Appends bytes behind their length.
fn push_blob(bytes: &[u8], out: &mut Vec<u8>) -> Result<(), AllocError>
    requires { length bytes.now < 2 ^ 29 }
    ensures { OnOk result (out.new.items ≡ out.old.items ++ blob_bytes bytes.now) }
{
    push_unsigned(bytes.len() as u32, out)?;
    out.extend_from_slice(bytes)
}

/// Appends units and their mark behind their length.
fn push_user(units: &[u8], out: &mut Vec<u8>) -> Result<(), AllocError>
    requires { length units.now + 1 < 2 ^ 29 }
    ensures { OnOk result (out.new.items ≡ out.old.items ++ user_bytes units.now) }
{
    push_unsigned(units.len() as u32 + 1, out)?;
    out.extend_from_slice(units)?;
    out.extend_from_slice(&[mark_of(units)])
}

impl HeapForm {
    /// How many bytes the joined heap may have.
    pub fn limit(self) -> u64
        ensures { result ≡ limit_of self }
    {
        match self {
            HeapForm::Text => 0x2000_0000,
            HeapForm::User => 0x100_0000,
            HeapForm::Blob => 0x2000_0000,
        }
    }

    /// The stream that has the heap.
    pub fn stream(self) -> StreamName
        ensures { result ≡ stream_name_of self }
    {
        match self {
            HeapForm::Text => StreamName::Strings,
            HeapForm::User => StreamName::Users,
            HeapForm::Blob => StreamName::Blobs,
        }
    }

    /// How many bytes a value takes.
    pub fn size_of(self, value: &[u8]) -> u64
        ensures { result ≡ length (encoded self value.now) }
    {
        match self {
            HeapForm::Text => value.len() as u64 + 1,
            HeapForm::User => spelled_len(value.len() + 1) + value.len() as u64 + 1,
            HeapForm::Blob => spelled_len(value.len()) + value.len() as u64,
        }
    }

    /// Appends a value's bytes.
    pub fn push(self, value: &[u8], out: &mut Vec<u8>) -> Result<(), AllocError>
        requires { IsTrue (value_is_good self value.now) }
        ensures { OnOk result (out.new.items ≡ out.old.items ++ encoded self value.now) }
    {
        match self {
            HeapForm::Text => push_text(value, out),
            HeapForm::User => push_user(value, out),
            HeapForm::Blob => push_blob(value, out),
        }
    }
}
