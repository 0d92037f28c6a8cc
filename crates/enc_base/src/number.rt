//! Numbers at a place, and numbers appended: little-endian ones of fixed width, and compressed ones.
ghost use Rattle.std.specs.Prelude.{◌≡◌, ℕ, ◌+◌, ◌^◌, ◌<◌, ◌≤◌, ◌++◌, length, drop, is_ok, if◌then◌else◌, IfSome, IsTrue, OnOk, option_map, replicate};
ghost use Rattle.std.specs.Int.{w8, w16, w32, w64, cast_unsigned, from_le_bytes, to_le_bytes};
ghost use Rattle.enc_base.specs.Numbers.{little_endian_at, compressed, compressed_at, signed_of, half_of, signed_at, is_within, rotated, one_byte, two_bytes, four_bytes, spelled, spelled_signed};

use byteorder::{ByteOrder, LittleEndian};
use std::alloc::AllocError;

/// The byte at the place, None past the end.
pub fn u8_at(bytes: &[u8], at: usize) -> Option<u8>
    ensures { result ≡ little_endian_at w8 bytes.now at }
{
    Some(*bytes.get(at..)?.first()?)
}

/// The little-endian number in the two bytes at the place, None where they don't stand whole there.
pub fn u16_at(bytes: &[u8], at: usize) -> Option<u16>
    ensures { result ≡ little_endian_at w16 bytes.now at }
{
    Some(LittleEndian::read_u16(bytes.get(at..)?.get(..2)?))
}

/// The little-endian number in the four bytes at the place, None where they don't stand whole there.
pub fn u32_at(bytes: &[u8], at: usize) -> Option<u32>
    ensures { result ≡ little_endian_at w32 bytes.now at }
{
    Some(LittleEndian::read_u32(bytes.get(at..)?.get(..4)?))
}

/// The little-endian number in the eight bytes at the place, None where they don't stand whole there.
pub fn u64_at(bytes: &[u8], at: usize) -> Option<u64>
    ensures { result ≡ little_endian_at w64 bytes.now at }
{
    Some(LittleEndian::read_u64(bytes.get(at..)?.get(..8)?))
}

/// The little-endian number that two bytes spell.
pub fn u16_of(bytes: [u8; 2]) -> u16
    ensures { result ≡ from_le_bytes w16 bytes }
{
    LittleEndian::read_u16(&bytes)
}

/// The little-endian number that four bytes spell.
pub fn u32_of(bytes: [u8; 4]) -> u32
    ensures { result ≡ from_le_bytes w32 bytes }
{
    LittleEndian::read_u32(&bytes)
}

/// The compressed number at the front, and how many bytes spell it.
fn read_front(bytes: &[u8]) -> Option<(u32, usize)>
    ensures number { result ≡ compressed bytes.now }
    ensures within { IfSome result (λ x. x.1 ≤ length bytes.now) }
    ensures few { IfSome result (λ x. x.0 < 2 ^ 29) }
    ensures halves { IfSome result (λ x. x.0 < half_of x.1 + half_of x.1) }
    ensures more { IfSome result (λ x. 0 < x.1) }
{
    match bytes {
        [a, ..] if *a < 0x80 => Some((u32::from(*a), 1)),
        [a, b, ..] if *a < 0xc0 => Some(((u32::from(*a) - 0x80) * 256 + u32::from(*b), 2)),
        [a, b, c, d, ..] if 0xc0 <= *a && *a < 0xe0 => Some((
            (((u32::from(*a) - 0xc0) * 256 + u32::from(*b)) * 256 + u32::from(*c)) * 256
                + u32::from(*d),
            4,
        )),
        _ => None,
    }
}

/// The compressed unsigned number at the place (ECMA-335 II.23.2) and the place behind it. None
/// where no whole number stands there. Spellings longer than need be are read too.
pub fn read_unsigned(bytes: &[u8], at: usize) -> Option<(u32, usize)>
    ensures number { result ≡ compressed_at bytes.now at }
    ensures within { IfSome result (λ x. x.1 ≤ length bytes.now) }
    ensures few { IfSome result (λ x. x.0 < 2 ^ 29) }
    ensures more { IfSome result (λ x. at < x.1) }
{
    let (value, len) = read_front(bytes.get(at..)?)?;
    Some((value, at + len))
}

/// How many numbers that aren't negative so many bytes spell.
fn half_of(len: usize) -> u32
    ensures half { result ≡ half_of len }
    ensures few { result < 2 ^ 29 }
{
    match len {
        1 => 0x40,
        2 => 0x2000,
        _ => 0x1000_0000,
    }
}

/// The signed number whose value bits, rotated left by one, these are.
fn signed_of(half: u32, value: u32) -> i32
    requires half { half < 2 ^ 29 }
    requires few { value < half + half }
    ensures { result ≡ signed_of half value }
{
    if value % 2 == 0 {
        (value / 2).cast_signed()
    } else {
        (value / 2 + (0xffff_ffff - half + 1)).cast_signed()
    }
}

/// The compressed signed number at the place (ECMA-335 II.23.2) and the place behind it. None where
/// no whole number stands there. Spellings longer than need be are read too.
pub fn read_signed(bytes: &[u8], at: usize) -> Option<(i32, usize)>
    ensures number { result ≡ signed_at bytes.now at }
    ensures within { IfSome result (λ x. x.1 ≤ length bytes.now) }
    ensures more { IfSome result (λ x. at < x.1) }
{
    let (bits, len) = read_front(bytes.get(at..)?)?;
    Some((signed_of(half_of(len), bits), at + len))
}

/// Appends a number in two bytes, the lower first.
pub fn push_half(n: u16, out: &mut Vec<u8>) -> Result<(), AllocError>
    ensures { OnOk result (out.new.items ≡ out.old.items ++ to_le_bytes w16 n) }
{
    let mut bytes = [0; 2];
    LittleEndian::write_u16(&mut bytes, n);
    out.extend_from_slice(&bytes)
}

/// Appends a number in four bytes, the lowest first.
pub fn push_word(n: u32, out: &mut Vec<u8>) -> Result<(), AllocError>
    ensures { OnOk result (out.new.items ≡ out.old.items ++ to_le_bytes w32 n) }
{
    let mut bytes = [0; 4];
    LittleEndian::write_u32(&mut bytes, n);
    out.extend_from_slice(&bytes)
}

/// Appends a number in eight bytes, the lowest first.
pub fn push_long(n: u64, out: &mut Vec<u8>) -> Result<(), AllocError>
    ensures { OnOk result (out.new.items ≡ out.old.items ++ to_le_bytes w64 n) }
{
    let mut bytes = [0; 8];
    LittleEndian::write_u64(&mut bytes, n);
    out.extend_from_slice(&bytes)
}

/// Appends so many zeros.
pub fn push_zeros(n: usize, out: &mut Vec<u8>) -> Result<(), AllocError>
    requires { n < 2 ^ 32 }
    ensures { OnOk result (out.new.items ≡ out.old.items ++ replicate n 0) }
{
    let len = out.len();
    out.resize(len + n, 0)
}

/// Appends the number in one byte.
fn push_one(value: u32, out: &mut Vec<u8>) -> Result<(), AllocError>
    requires { value < 0x80 }
    ensures { out.new.items ≡ (if is_ok result then out.old.items ++ one_byte value else out.old.items) }
{
    out.extend_from_slice(&[value as u8])
}

/// Appends the number in two bytes.
fn push_two(value: u32, out: &mut Vec<u8>) -> Result<(), AllocError>
    requires { value < 0x4000 }
    ensures { out.new.items ≡ (if is_ok result then out.old.items ++ two_bytes value else out.old.items) }
{
    out.extend_from_slice(&[(value / 0x100 + 0x80) as u8, (value % 0x100) as u8])
}

/// Appends the number in four bytes.
fn push_four(value: u32, out: &mut Vec<u8>) -> Result<(), AllocError>
    requires { value < 2 ^ 29 }
    ensures { out.new.items ≡ (if is_ok result then out.old.items ++ four_bytes value else out.old.items) }
{
    out.extend_from_slice(&[
        (value / 0x100_0000 + 0xc0) as u8,
        (value / 0x1_0000 % 0x100) as u8,
        (value / 0x100 % 0x100) as u8,
        (value % 0x100) as u8,
    ])
}

/// Appends the shortest spelling of a compressed unsigned number below 2^29 (ECMA-335 II.23.2).
/// Without memory nothing is appended.
pub fn push_unsigned(value: u32, out: &mut Vec<u8>) -> Result<(), AllocError>
    requires { value < 2 ^ 29 }
    ensures { out.new.items ≡ (if is_ok result then out.old.items ++ spelled value else out.old.items) }
{
    if value < 0x80 {
        return push_one(value, out);
    }
    if value < 0x4000 {
        return push_two(value, out);
    }
    push_four(value, out)
}

/// The number whose bits these are lies from -half to half - 1.
fn is_within(half: u32, bits: u32) -> bool
    requires { half < 2 ^ 29 }
    ensures { result ≡ is_within half bits }
{
    bits < half || 0xffff_ffff - half < bits
}

/// The value bits of a number, rotated left by one.
fn rotated(half: u32, bits: u32) -> u32
    requires half { half < 2 ^ 29 }
    requires within { IsTrue (is_within half bits) }
    ensures value { result ≡ rotated half bits }
    ensures few { result < half + half }
{
    if bits < half {
        bits * 2
    } else {
        (bits - (0xffff_ffff - half) - 1) * 2 + 1
    }
}

/// Appends the shortest spelling of a compressed signed number from -2^28 to 2^28 - 1 (ECMA-335
/// II.23.2). Without memory nothing is appended.
pub fn push_signed(value: i32, out: &mut Vec<u8>) -> Result<(), AllocError>
    requires { IsTrue (is_within 0x10000000 (cast_unsigned w32 value)) }
    ensures { out.new.items ≡ (if is_ok result then out.old.items ++ spelled_signed (cast_unsigned w32 value)
        else out.old.items) }
{
    let bits = value.cast_unsigned();
    if is_within(0x40, bits) {
        return push_one(rotated(0x40, bits), out);
    }
    if is_within(0x2000, bits) {
        return push_two(rotated(0x2000, bits), out);
    }
    push_four(rotated(0x1000_0000, bits), out)
}
