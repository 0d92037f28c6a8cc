//! Images by `enc_pe` (ECMA-335 II.25), read, asked for the bytes at an RVA, and written.

use crate::lines::{Args, Fault, parts};
use enc_base::{Code, Place, Refusal};
use enc_pe::{Container, LoadedFile, PeFault, Sections, at_rva, from_rva, read_pe, write_pe};
use std::alloc::Global;

/// The name of a place in an image.
fn place_name(place: Place) -> &'static str {
    match place {
        Place::Headers => "headers",
        Place::Cli => "cli",
        Place::Metadata => "metadata",
        Place::Resources => "resources",
        Place::Debug => "debug",
        _ => "elsewhere",
    }
}

/// The rule that an image breaks, and where.
fn refusal_text(alloc: Global, refusal: Refusal) -> Result<String, Fault> {
    let place = place_name(refusal.place);
    match refusal.code {
        Code::F(rule) => Ok(format!(in alloc; "refused F{rule} {place}")?),
        Code::E(rule) => Ok(format!(in alloc; "refused E{rule} {place}")?),
    }
}

/// Where the parts of a file stand in it: of each its offset and its size.
fn container_text(alloc: Global, container: &Container) -> Result<String, Fault> {
    let (metadata, resources) = (container.metadata, container.resources);
    let (sections, bare) = (container.sections, container.bare);
    let mut out = format!(in alloc; "metadata {} {}", metadata.start, metadata.len)?;
    let resources = format!(in alloc; " resources {} {}", resources.start, resources.len)?;
    out.push_str(resources.as_str())?;
    let headers = format!(in alloc; " sections {} {}", sections.start, sections.len)?;
    out.push_str(headers.as_str())?;
    let rest = format!(in alloc; " entry {:08x} bare {bare}", container.entry)?;
    out.push_str(rest.as_str())?;
    Ok(out)
}

/// What `read_pe FILE` says.
fn read(alloc: Global, args: &mut Args<'_>) -> Result<String, Fault> {
    let file = parts::bytes(alloc, args)?;
    match read_pe(&file) {
        Ok(container) => container_text(alloc, &container),
        Err(refusal) => refusal_text(alloc, refusal),
    }
}

/// Bytes that are there, or `none`.
fn found(alloc: Global, bytes: Option<&[u8]>) -> Result<String, Fault> {
    match bytes {
        Some(bytes) => parts::told(alloc, bytes),
        None => Ok(String::from_str(alloc, "none")?),
    }
}

/// An answer that was given twice, or both.
fn agreed(alloc: Global, first: String, second: String) -> Result<String, Fault> {
    if first.as_str() == second.as_str() {
        return Ok(first);
    }
    Ok(format!(in alloc; "{first} but kept {second}")?)
}

/// The bytes of `at_rva RVA SIZE FILE`, as the file and as its kept sections have them: once where both agree.
fn range(alloc: Global, args: &mut Args<'_>) -> Result<String, Fault> {
    let rva = args.number()?;
    let size = args.number()?;
    let file = parts::bytes(alloc, args)?;
    let Ok(container) = read_pe(&file) else {
        return Err(Fault::Form);
    };
    let sections = Sections::read(alloc, &file, &container)?;
    let loaded = LoadedFile::of(&file, &container, &sections);
    let first = found(alloc, at_rva(&file, &container, rva, size))?;
    let second = found(alloc, loaded.range(rva, size))?;
    agreed(alloc, first, second)
}

/// The bytes of `from_rva RVA FILE` up to the end of their section, as the file and as its kept sections have them.
fn rest(alloc: Global, args: &mut Args<'_>) -> Result<String, Fault> {
    let rva = args.number()?;
    let file = parts::bytes(alloc, args)?;
    let Ok(container) = read_pe(&file) else {
        return Err(Fault::Form);
    };
    let sections = Sections::read(alloc, &file, &container)?;
    let loaded = LoadedFile::of(&file, &container, &sections);
    let first = found(alloc, from_rva(&file, &container, rva))?;
    let second = found(alloc, loaded.rest(rva))?;
    agreed(alloc, first, second)
}

/// The image of `write_pe ROOT CODE RESOURCES ENTRY`.
fn write(alloc: Global, args: &mut Args<'_>) -> Result<String, Fault> {
    let root = parts::bytes(alloc, args)?;
    let code = parts::bytes(alloc, args)?;
    let resources = parts::bytes(alloc, args)?;
    let entry = parts::hexadecimal(args)?;
    match write_pe(alloc, &root, &code, &resources, entry) {
        Ok(image) => parts::told(alloc, &image),
        Err(PeFault::TooLarge) => Ok(String::from_str(alloc, "too large")?),
        Err(PeFault::Memory) => Err(Fault::Memory),
    }
}

/// The answer to a call of this file, None where the call is another.
pub fn answer(alloc: Global, call: &str, args: &mut Args<'_>) -> Result<Option<String>, Fault> {
    Ok(Some(match call {
        "read_pe" => read(alloc, args)?,
        "at_rva" => range(alloc, args)?,
        "from_rva" => rest(alloc, args)?,
        "write_pe" => write(alloc, args)?,
        _ => return Ok(None),
    }))
}
