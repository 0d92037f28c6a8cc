//! The bytes of a metadata root (ECMA-335 II.24.2.1, II.24.2.2).
ghost use Rattle.std.specs.Prelude.{◌≡◌, ◌+◌, ◌-◌, ◌<◌, ◌≤◌, ◌^◌, [], ◌∷◌, ◌++◌, length, replicate, OnOk, IfOk, if◌then◌else◌};
ghost use Rattle.std.specs.Int.{w32, to_le_bytes};
ghost use Rattle.enc_base.specs.Numbers.{padded as fours_of};
ghost use Rattle.enc_meta.specs.BuiltSeen.{heap_bytes_seen};
ghost use Rattle.enc_emit.specs.Written.{Further, in_fours, stream_header_written, front_written, table_name as name_of_tables, five_end as end_of_five, five_headers_written, five_written, root_with_further, size_with_further, root_written, root_size, pdb_root_written, pdb_root_size};

use enc_base::{push_half, push_word, push_zeros};
use enc_meta::HeapBytes;
use std::alloc::{AllocError, Global};

/// The least multiple of four that isn't less.
#[tactic(auto, unfolding(enc_base::specs::Numbers::padded))]
fn padded(n: usize) -> usize
    requires { n < 2 ^ 33 }
    ensures padded { result ≡ fours_of n }
    ensures least { n ≤ result }
    ensures near { result < n + 4 }
{
    (n + 3) / 4 * 4
}

/// Appends bytes with zeros up to a multiple of four.
fn push_in_fours(bytes: &[u8], out: &mut Vec<u8>) -> Result<(), AllocError>
    requires { length bytes.now < 2 ^ 32 }
    ensures { OnOk result (out.new.items ≡ out.old.items ++ in_fours bytes.now) }
{
    out.extend_from_slice(bytes)?;
    push_zeros(padded(bytes.len()) - bytes.len(), out)
}

/// Appends a stream's header: where it begins, its size and its name.
#[tactic(auto, unfolding(crate::specs::Written::stream_header_written))]
fn push_header(name: &[u8], start: usize, size: usize, out: &mut Vec<u8>) -> Result<(), AllocError>
    requires name { length name.now < 32 }
    requires start { start < 2 ^ 32 }
    requires size { size < 2 ^ 32 }
    ensures { OnOk result (out.new.items ≡ out.old.items ++ stream_header_written name.now start size) }
{
    push_word(start as u32, out)?;
    push_word(size as u32, out)?;
    out.extend_from_slice(name)?;
    push_zeros(padded(name.len() + 1) - name.len(), out)
}

/// Appends the root's header up to those of so many streams.
#[tactic(auto, unfolding(crate::specs::Written::front_written))]
fn push_front(count: u16, out: &mut Vec<u8>) -> Result<(), AllocError>
    ensures { OnOk result (out.new.items ≡ out.old.items ++ front_written count) }
{
    out.extend_from_slice("BSJB".as_bytes())?;
    out.extend_from_slice(&[1, 0, 1, 0, 0, 0, 0, 0, 12, 0, 0, 0])?;
    out.extend_from_slice("v4.0.30319".as_bytes())?;
    out.extend_from_slice(&[0, 0, 0, 0])?;
    push_half(count, out)
}

/// The name of the table stream.
fn table_name(uncompressed: bool) -> &'static [u8]
    ensures name { result.now ≡ name_of_tables uncompressed }
    ensures short { length result.now < 32 }
{
    if uncompressed {
        "#-".as_bytes()
    } else {
        "#~".as_bytes()
    }
}

/// Appends the headers of the five streams, which stand from this place on.
#[tactic(auto, unfolding(crate::specs::Written::five_headers_written, enc_base::specs::Numbers::padded))]
fn push_five_headers(
    start: usize,
    uncompressed: bool,
    stream: &[u8],
    heaps: &HeapBytes,
    out: &mut Vec<u8>,
) -> Result<(), AllocError>
    requires { end_of_five start stream.now (heap_bytes_seen heaps.now) < 2 ^ 32 }
    ensures { OnOk result (out.new.items ≡ out.old.items ++ five_headers_written start uncompressed stream.now
        (heap_bytes_seen heaps.now)) }
{
    let strings = start + padded(stream.len());
    let users = strings + padded(heaps.strings.len());
    let guids = users + padded(heaps.users.len());
    let blobs = guids + padded(heaps.guids.len());
    push_header(table_name(uncompressed), start, stream.len(), out)?;
    push_header("#Strings".as_bytes(), strings, heaps.strings.len(), out)?;
    push_header("#US".as_bytes(), users, heaps.users.len(), out)?;
    push_header("#GUID".as_bytes(), guids, heaps.guids.len(), out)?;
    push_header("#Blob".as_bytes(), blobs, heaps.blobs.len(), out)
}

/// Where the last of the five streams ends, where the first begins here.
#[tactic(auto, unfolding(enc_base::specs::Numbers::padded))]
fn five_end(start: usize, stream: &[u8], heaps: &HeapBytes) -> usize
    requires { end_of_five start stream.now (heap_bytes_seen heaps.now) < 2 ^ 32 }
    ensures { result ≡ end_of_five start stream.now (heap_bytes_seen heaps.now) }
{
    start
        + padded(stream.len())
        + padded(heaps.strings.len())
        + padded(heaps.users.len())
        + padded(heaps.guids.len())
        + padded(heaps.blobs.len())
}

/// Appends the bytes of the five streams.
#[tactic(auto, unfolding(crate::specs::Written::five_written, enc_base::specs::Numbers::padded))]
fn push_five(stream: &[u8], heaps: &HeapBytes, out: &mut Vec<u8>) -> Result<(), AllocError>
    requires { end_of_five 0 stream.now (heap_bytes_seen heaps.now) < 2 ^ 32 }
    ensures { OnOk result (out.new.items ≡ out.old.items ++ five_written stream.now (heap_bytes_seen heaps.now)) }
{
    push_in_fours(stream, out)?;
    push_in_fours(heaps.strings.as_slice(), out)?;
    push_in_fours(heaps.users.as_slice(), out)?;
    push_in_fours(heaps.guids.as_slice(), out)?;
    push_in_fours(heaps.blobs.as_slice(), out)
}

/// The bytes of a root with the five streams alone.
#[tactic(auto, unfolding(crate::specs::Written::root_with_further))]
fn root_of_five(
    alloc: Global,
    uncompressed: bool,
    stream: &[u8],
    heaps: &HeapBytes,
) -> Result<Vec<u8>, AllocError>
    requires { size_with_further [] stream.now (heap_bytes_seen heaps.now) < 2 ^ 32 }
    ensures { IfOk result (λ v. v.items ≡ root_with_further [] uncompressed stream.now (heap_bytes_seen heaps.now)) }
{
    let mut out = Vec::new(alloc);
    push_front(5, &mut out)?;
    push_five_headers(108, uncompressed, stream, heaps, &mut out)?;
    push_five(stream, heaps, &mut out)?;
    Ok(out)
}

/// The bytes of a root with one stream beside the five, of a name of four bytes.
#[tactic(auto, unfolding(crate::specs::Written::root_with_further, enc_base::specs::Numbers::padded))]
fn root_of_six(
    alloc: Global,
    name: &[u8],
    bytes: &[u8],
    uncompressed: bool,
    stream: &[u8],
    heaps: &HeapBytes,
) -> Result<Vec<u8>, AllocError>
    requires name { length name.now ≡ 4 }
    requires size { size_with_further (record { name = name.now; bytes = bytes.now } ∷ []) stream.now
        (heap_bytes_seen heaps.now) < 2 ^ 32 }
    ensures { IfOk result (λ v. v.items ≡ root_with_further
        (record { name = name.now; bytes = bytes.now } ∷ []) uncompressed stream.now (heap_bytes_seen heaps.now)) }
{
    let mut out = Vec::new(alloc);
    push_front(6, &mut out)?;
    push_five_headers(124, uncompressed, stream, heaps, &mut out)?;
    let start = five_end(124, stream, heaps);
    push_header(name, start, bytes.len(), &mut out)?;
    push_five(stream, heaps, &mut out)?;
    push_in_fours(bytes, &mut out)?;
    Ok(out)
}

/// The bytes of a root of a module or a delta, with `#JTD` or without.
#[tactic(auto, unfolding(crate::specs::Written::root_written))]
pub(crate) fn root_bytes(
    alloc: Global,
    jtd: bool,
    uncompressed: bool,
    stream: &[u8],
    heaps: &HeapBytes,
) -> Result<Vec<u8>, AllocError>
    requires { root_size jtd stream.now (heap_bytes_seen heaps.now) < 2 ^ 32 }
    ensures { IfOk result (λ v. v.items ≡ root_written jtd uncompressed stream.now (heap_bytes_seen heaps.now)) }
{
    if jtd {
        return root_of_six(alloc, "#JTD".as_bytes(), &[], uncompressed, stream, heaps);
    }
    root_of_five(alloc, uncompressed, stream, heaps)
}

/// The bytes of a root of a PDB, with these of `#Pdb`.
#[tactic(auto, unfolding(crate::specs::Written::pdb_root_written))]
pub(crate) fn pdb_root_bytes(
    alloc: Global,
    pdb: &[u8],
    uncompressed: bool,
    stream: &[u8],
    heaps: &HeapBytes,
) -> Result<Vec<u8>, AllocError>
    requires { pdb_root_size pdb.now stream.now (heap_bytes_seen heaps.now) < 2 ^ 32 }
    ensures { IfOk result (λ v. v.items ≡ pdb_root_written pdb.now uncompressed stream.now
        (heap_bytes_seen heaps.now)) }
{
    root_of_six(alloc, "#Pdb".as_bytes(), pdb, uncompressed, stream, heaps)
}
