//! Metadata roots and their heaps in `enc_meta` (ECMA-335 II.24.2.1 to II.24.2.5). A root is asked for by its
//! bytes. Heaps that are written are asked for as LENGTHS VALUES: how long the joined heaps are behind which
//! they stand, as STRINGS,USERS,BLOBS,GUIDS, and values with `;` between them: `text:BYTES`, `user:UNITS`,
//! `units:BYTES`, `blob:BYTES` and `guid:BYTES`.

use crate::lines::{Args, Fault, bytes_in, told, units_in};
use enc_meta::{
    BuildFault, HeapBuilder, HeapLengths, Heaps, Root, Span, TextEnds, read_root, user_text_at,
};
use std::alloc::Global;

/// Where a stream stands in its root.
fn told_span(alloc: Global, span: Span) -> Result<String, Fault> {
    Ok(format!(in alloc; "{}+{}", span.start, span.len)?)
}

/// Where the streams of a root stand.
fn told_root(alloc: Global, root: Root) -> Result<String, Fault> {
    let kind = if root.uncompressed { "#-" } else { "#~" };
    let tables = told_span(alloc, root.tables)?;
    let strings = told_span(alloc, root.strings)?;
    let users = told_span(alloc, root.users)?;
    let blobs = told_span(alloc, root.blobs)?;
    let guids = told_span(alloc, root.guids)?;
    let heaps = format!(in alloc; "#Strings {strings} #US {users} #Blob {blobs} #GUID {guids}")?;
    let jtd = if root.jtd { " #JTD" } else { "" };
    let Some(pdb) = root.pdb else {
        return Ok(format!(in alloc; "{kind} {tables} {heaps}{jtd}")?);
    };
    let pdb = told_span(alloc, pdb)?;
    Ok(format!(in alloc; "{kind} {tables} {heaps}{jtd} #Pdb {pdb}")?)
}

/// Where each stream of a root begins and how long it is, for `root BYTES`; or why it isn't one.
fn root(alloc: Global, args: &mut Args<'_>) -> Result<String, Fault> {
    let bytes = args.bytes(alloc)?;
    match read_root(&bytes) {
        Ok(root) => told_root(alloc, root),
        Err(refusal) => told::refusal(alloc, refusal),
    }
}

/// How many bytes of the heaps count and how many GUIDs there are, for `heap_lengths BYTES`.
fn lengths(alloc: Global, args: &mut Args<'_>) -> Result<String, Fault> {
    let bytes = args.bytes(alloc)?;
    let Ok(root) = read_root(&bytes) else {
        return Err(Fault::Form);
    };
    let lengths = Heaps::of(&bytes, &root).lengths();
    let (strings, users) = (lengths.strings, lengths.users);
    let (blobs, guids) = (lengths.blobs, lengths.guids);
    Ok(format!(in alloc; "strings {strings} users {users} blobs {blobs} guids {guids}")?)
}

/// How many bytes of `#Strings` count and where the last text ends, for `text_ends BYTES`.
fn ends(alloc: Global, args: &mut Args<'_>) -> Result<String, Fault> {
    let bytes = args.bytes(alloc)?;
    let Ok(root) = read_root(&bytes) else {
        return Err(Fault::Form);
    };
    let ends = TextEnds::of(&bytes, &root);
    Ok(format!(in alloc; "counted {} last {}", ends.counted, ends.last)?)
}

/// Whether a text is told to stand at an offset, whether one begins there as it stands, and what is read, for
/// `has_text BYTES OFFSET`.
fn has_text(alloc: Global, args: &mut Args<'_>) -> Result<String, Fault> {
    let bytes = args.bytes(alloc)?;
    let offset = args.number()?;
    let Ok(root) = read_root(&bytes) else {
        return Err(Fault::Form);
    };
    let heaps = Heaps::with(&bytes, &root, TextEnds::of(&bytes, &root));
    let there = told::yes_or_no(alloc, heaps.has_text(offset))?;
    let begins = told::yes_or_no(alloc, heaps.has_text_entry(offset))?;
    let read = told_entry(alloc, heaps.text(offset))?;
    Ok(format!(in alloc; "{there} {begins} {read}")?)
}

/// Bytes that stand in a heap, `none` where there are none.
fn told_entry(alloc: Global, entry: Option<&[u8]>) -> Result<String, Fault> {
    match entry {
        Some(bytes) => told::bytes(alloc, bytes),
        None => told::word(alloc, "none"),
    }
}

/// What stands in a heap, for `text BYTES OFFSET`, `blob`, `user` and `guid`, and as it stands at offset 0 too
/// for `text_entry`, `blob_entry` and `user_entry`.
fn entry(alloc: Global, call: &str, args: &mut Args<'_>) -> Result<String, Fault> {
    let bytes = args.bytes(alloc)?;
    let at = args.number()?;
    let Ok(root) = read_root(&bytes) else {
        return Err(Fault::Form);
    };
    let heaps = Heaps::of(&bytes, &root);
    match call {
        "text" => told_entry(alloc, heaps.text(at)),
        "text_entry" => told_entry(alloc, heaps.text_entry(at)),
        "blob" => told_entry(alloc, heaps.blob(at)),
        "blob_entry" => told_entry(alloc, heaps.blob_entry(at)),
        "user" => told_entry(alloc, heaps.user(at)),
        "user_entry" => told_entry(alloc, heaps.user_entry(at)),
        _ => match heaps.guid(at) {
            Some(guid) => told::bytes(alloc, &guid),
            None => told::word(alloc, "none"),
        },
    }
}

/// The units at an offset of the bytes of a `#US`, for `user_text_at BYTES OFFSET`.
fn user_text(alloc: Global, args: &mut Args<'_>) -> Result<String, Fault> {
    let heap = args.bytes(alloc)?;
    let offset = args.number()?;
    told_entry(alloc, user_text_at(&heap, offset))
}

/// Heaps behind joined ones of these lengths.
fn begun(alloc: Global, args: &mut Args<'_>) -> Result<HeapBuilder, Fault> {
    let lengths = args.numbers(alloc)?;
    let [strings, users, blobs, guids] = lengths.as_slice() else {
        return Err(Fault::Form);
    };
    let starts = HeapLengths {
        strings: *strings,
        users: *users,
        blobs: *blobs,
        guids: *guids,
    };
    Ok(HeapBuilder::begin(alloc, starts)?)
}

/// Where a value was added, or the stream that it would make too large.
fn told_place(alloc: Global, added: Result<u32, BuildFault>) -> Result<String, Fault> {
    match added {
        Ok(offset) => Ok(format!(in alloc; "{offset}")?),
        Err(BuildFault::TooLarge(stream)) => told::word(alloc, told::stream(stream)),
        Err(BuildFault::Memory) => Err(Fault::Memory),
    }
}

/// Adds a text.
fn add_text(alloc: Global, heaps: &mut HeapBuilder, text: &[u8]) -> Result<String, Fault> {
    if text.contains(&0) {
        return Err(Fault::Form);
    }
    told_place(alloc, heaps.add_text(text))
}

/// Adds a text of UTF-16 units by their bytes.
fn add_units(alloc: Global, heaps: &mut HeapBuilder, units: &[u8]) -> Result<String, Fault> {
    if units.len() % 2 != 0 {
        return Err(Fault::Form);
    }
    told_place(alloc, heaps.add_units(units))
}

/// Adds a GUID.
fn add_guid(alloc: Global, heaps: &mut HeapBuilder, guid: &[u8]) -> Result<String, Fault> {
    match guid.first_chunk::<16>() {
        Some(whole) if guid.len() == 16 => told_place(alloc, heaps.add_guid(*whole)),
        _ => Err(Fault::Form),
    }
}

/// Adds the value of a word: where it stands, or the stream that it would make too large.
fn add(alloc: Global, heaps: &mut HeapBuilder, word: &str) -> Result<String, Fault> {
    let Some((kind, value)) = word.split_once(':') else {
        return Err(Fault::Form);
    };
    if kind == "user" {
        let units = units_in(alloc, value)?;
        return told_place(alloc, heaps.add_user(&units));
    }
    let bytes = bytes_in(alloc, value)?;
    match kind {
        "text" => add_text(alloc, heaps, &bytes),
        "units" => add_units(alloc, heaps, &bytes),
        "blob" => told_place(alloc, heaps.add_blob(&bytes)),
        "guid" => add_guid(alloc, heaps, &bytes),
        _ => Err(Fault::Form),
    }
}

/// The offset of each value, or the number of a GUID, for `add_values LENGTHS VALUES`; the stream that would
/// be too large where one isn't added.
fn places(alloc: Global, args: &mut Args<'_>) -> Result<String, Fault> {
    let mut heaps = begun(alloc, args)?;
    let mut text = String::new(alloc);
    for word in args.word()?.split(';') {
        let place = add(alloc, &mut heaps, word)?;
        let space = if text.is_empty() { "" } else { " " };
        text.push_str(format!(in alloc; "{space}{place}")?.as_str())?;
    }
    Ok(text)
}

/// The bytes of the four heaps with the values, for `write_heaps LENGTHS VALUES`.
fn write(alloc: Global, args: &mut Args<'_>) -> Result<String, Fault> {
    let mut heaps = begun(alloc, args)?;
    for word in args.word()?.split(';') {
        let _ = add(alloc, &mut heaps, word)?;
    }
    let bytes = heaps.finish()?;
    let strings = told::bytes(alloc, bytes.strings.as_slice())?;
    let users = told::bytes(alloc, bytes.users.as_slice())?;
    let blobs = told::bytes(alloc, bytes.blobs.as_slice())?;
    let guids = told::bytes(alloc, bytes.guids.as_slice())?;
    Ok(format!(in alloc; "#Strings {strings} #US {users} #Blob {blobs} #GUID {guids}")?)
}

/// The answer to a call of this file, None where the call is another.
pub fn answer(alloc: Global, call: &str, args: &mut Args<'_>) -> Result<Option<String>, Fault> {
    Ok(Some(match call {
        "root" => root(alloc, args)?,
        "heap_lengths" => lengths(alloc, args)?,
        "text_ends" => ends(alloc, args)?,
        "has_text" => has_text(alloc, args)?,
        "text" | "text_entry" | "blob" | "blob_entry" | "user" | "user_entry" | "guid" => {
            entry(alloc, call, args)?
        }
        "user_text_at" => user_text(alloc, args)?,
        "add_values" => places(alloc, args)?,
        "write_heaps" => write(alloc, args)?,
        _ => return Ok(None),
    }))
}
