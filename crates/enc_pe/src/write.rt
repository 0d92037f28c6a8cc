//! Images that are written: PE32 headers, and one section with the code, the CLI header, the managed
//! resources and the metadata (ECMA-335 II.25).
ghost use Rattle.std.specs.Prelude.{◌≡◌, ◌+◌, ◌<◌, ◌≤◌, ◌^◌, ◌++◌, length, nat_lt, IfOk, OnOk};
ghost use Rattle.enc_pe.specs.Written.{code_rva, rounded, cli_place as place_of_cli, resources_place as place_of_resources, root_place as place_of_root, resources_rva as rva_of_resources, section_size as size_of_section, raw_size as size_in_file, filled_to, cli_header, section_written, dos_header, coff_header, standard_fields, nt_fields, directories, section_header, headers_written, image_written, image_size, most_bytes, is_too_large};

use crate::pushes::push_words;
use enc_base::push_zeros;
use std::alloc::{AllocError, Global};

/// The RVA of the code in an image that is written.
pub const CODE_RVA: u32 = 8192;

/// The most bytes of an image that is written.
const MOST_BYTES: usize = 0x8000_0000;

/// How many bytes of the file the headers take, and the unit in which the file is aligned.
const HEADERS: usize = 512;

/// The flag of a CLI header that the image has no native code.
const ILONLY: u32 = 1;

/// Why an image was not written.
#[derive(Clone, Copy, Debug, PartialEq, Eq)]
pub enum PeFault {
    /// No memory was left.
    Memory,
    /// The image would have more than 2^31 bytes.
    TooLarge,
}

impl From<AllocError> for PeFault {
    ghost use Rattle.std.specs.Prelude.{◌≡◌};
    ghost use Rattle.enc_pe.specs.declared.write.PeFault.TheVariants.{Memory};

    ghost from_gives = { λ _ e. e ≡ Memory };

    fn from(_error: AllocError) -> PeFault {
        PeFault::Memory
    }
}

/// The next multiple of four.
fn fours(n: usize) -> usize
    requires { n < 2 ^ 32 }
    ensures { result ≡ rounded 4 n }
{
    (n + 3) / 4 * 4
}

/// The next multiple of 512, which is how the file is aligned.
fn file_aligned(n: usize) -> usize
    requires { n < 2 ^ 34 }
    ensures { result ≡ rounded 512 n }
{
    (n + 511) / 512 * 512
}

/// Where the CLI header begins in the section: behind the code.
fn cli_place(code: &[u8]) -> usize
    requires { length code.now ≤ 2 ^ 31 }
    ensures { result ≡ place_of_cli code.now }
{
    fours(code.len())
}

/// Where the metadata begins in the section: behind the CLI header of 72 bytes and the resources.
fn root_place(code: &[u8], resources: &[u8]) -> usize
    requires code { length code.now ≤ 2 ^ 31 }
    requires resources { length resources.now ≤ 2 ^ 31 }
    ensures { result ≡ place_of_root code.now resources.now }
{
    cli_place(code) + 72 + fours(resources.len())
}

/// The size of the section.
fn section_size(root: &[u8], code: &[u8], resources: &[u8]) -> usize
    requires root { length root.now ≤ 2 ^ 31 }
    requires code { length code.now ≤ 2 ^ 31 }
    requires resources { length resources.now ≤ 2 ^ 31 }
    ensures { result ≡ size_of_section root.now code.now resources.now }
{
    root_place(code, resources) + root.len()
}

/// The image would have more than 2^31 bytes.
fn is_large(root: &[u8], code: &[u8], resources: &[u8]) -> bool
    ensures { result ≡ nat_lt most_bytes (image_size root.now code.now resources.now) }
{
    let longest = root.len().max(code.len()).max(resources.len());
    if longest > MOST_BYTES {
        return true;
    }
    HEADERS + file_aligned(section_size(root, code, resources)) > MOST_BYTES
}

/// Appends the DOS header, and what stands between it and the PE headers (ECMA-335 II.25.2.1).
#[tactic(auto, unfolding(crate::specs::Written::dos_header))]
fn push_dos_header(out: &mut Vec<u8>) -> Result<(), AllocError>
    ensures { OnOk result (out.new.items ≡ out.old.items ++ dos_header) }
{
    push_words(&[0x5a4d], out)?;
    push_zeros(56, out)?;
    push_words(&[0x80], out)?;
    push_zeros(64, out)
}

/// Appends the COFF header behind its signature: i386, one section, an optional header of 224 bytes,
/// an executable image and a DLL (ECMA-335 II.25.2.2).
#[tactic(auto, unfolding(crate::specs::Written::coff_header))]
fn push_coff_header(out: &mut Vec<u8>) -> Result<(), AllocError>
    ensures { OnOk result (out.new.items ≡ out.old.items ++ coff_header) }
{
    push_words(&[0x4550, 0x0001_014c, 0, 0, 0, 0x2102_00e0], out)
}

/// Appends the standard fields of the optional header, by the size of the section in the file
/// (ECMA-335 II.25.2.3.1).
#[tactic(auto, unfolding(crate::specs::Written::standard_fields))]
fn push_standard_fields(raw: u32, out: &mut Vec<u8>) -> Result<(), AllocError>
    ensures { OnOk result (out.new.items ≡ out.old.items ++ standard_fields raw) }
{
    push_words(&[0x0008_010b, raw, 0, 0, 0, CODE_RVA, 0], out)
}

/// Appends the optional header's fields of NT, by the RVA at which the image ends
/// (ECMA-335 II.25.2.3.2).
#[tactic(auto, unfolding(crate::specs::Written::nt_fields))]
fn push_nt_fields(end: u32, out: &mut Vec<u8>) -> Result<(), AllocError>
    ensures { OnOk result (out.new.items ≡ out.old.items ++ nt_fields end) }
{
    push_words(
        &[
            0x0040_0000, // Image Base
            0x2000, // Section Alignment
            0x200, // File Alignment
            4, // OS Major, OS Minor
            0, // User Major, User Minor
            4, // SubSys Major, SubSys Minor
            0, // Reserved
            end, // Image Size
            512, // Header Size
            0, // File Checksum
            0x8540_0003, // SubSystem, DLL Flags
            0x0010_0000, // Stack Reserve Size
            0x1000, // Stack Commit Size
            0x0010_0000, // Heap Reserve Size
            0x1000, // Heap Commit Size
            0, // Loader Flags
            16, // Number of Data Directories
        ],
        out,
    )
}

/// Appends the sixteen directories, all absent but that of the CLI header at this RVA
/// (ECMA-335 II.25.2.3.3).
#[tactic(auto, unfolding(crate::specs::Written::directories))]
fn push_directories(cli: u32, out: &mut Vec<u8>) -> Result<(), AllocError>
    ensures { OnOk result (out.new.items ≡ out.old.items ++ directories cli) }
{
    push_zeros(8 * 14, out)?;
    push_words(&[cli, 72, 0, 0], out)
}

/// Appends the header of the section `.text`, by its size and that in the file (ECMA-335 II.25.3).
#[tactic(auto, unfolding(crate::specs::Written::section_header))]
fn push_section_header(size: u32, raw: u32, out: &mut Vec<u8>) -> Result<(), AllocError>
    ensures { OnOk result (out.new.items ≡ out.old.items ++ section_header size raw) }
{
    push_words(
        &[
            0x7865_742e, // Name
            0x0074,
            size, // VirtualSize
            CODE_RVA, // VirtualAddress
            raw, // SizeOfRawData
            512, // PointerToRawData
            0,
            0,
            0,
            0x6000_0020, // Characteristics
        ],
        out,
    )
}

/// Appends the headers, by the size of the section, that in the file, and the place of the CLI
/// header in it: 512 bytes.
#[tactic(auto, unfolding(crate::specs::Written::headers_written))]
fn push_headers(size: usize, raw: usize, cli: usize, out: &mut Vec<u8>) -> Result<(), AllocError>
    requires size { size ≤ 2 ^ 31 }
    requires raw { raw ≤ 2 ^ 31 }
    requires cli { cli ≤ 2 ^ 31 }
    ensures { OnOk result (out.new.items ≡ out.old.items ++ headers_written size raw cli) }
{
    let end = CODE_RVA + ((size + 0x1fff) / 0x2000 * 0x2000) as u32;
    push_dos_header(out)?;
    push_coff_header(out)?;
    push_standard_fields(raw as u32, out)?;
    push_nt_fields(end, out)?;
    push_directories(CODE_RVA + cli as u32, out)?;
    push_section_header(size as u32, raw as u32, out)?;
    push_zeros(96, out)
}

/// Appends a CLI header, by the RVAs and sizes of the metadata and the resources: version 2.5 of the
/// runtime, ILONLY (ECMA-335 II.25.3.3).
#[tactic(auto, unfolding(crate::specs::Written::cli_header))]
fn push_cli_header(
    metadata: (u32, u32),
    entry: u32,
    resources: (u32, u32),
    out: &mut Vec<u8>,
) -> Result<(), AllocError>
    ensures { OnOk result (out.new.items
        ≡ out.old.items ++ cli_header metadata.0 metadata.1 entry resources.0 resources.1) }
{
    let words = [
        72, // Cb
        0x0005_0002, // MajorRuntimeVersion, MinorRuntimeVersion
        metadata.0, // MetaData
        metadata.1,
        ILONLY, // Flags
        entry, // EntryPointToken
        resources.0, // Resources
        resources.1,
    ];
    push_words(&words, out)?;
    push_zeros(40, out)
}

/// Appends bytes, and zeros up to a multiple of four of them.
fn push_filled(bytes: &[u8], out: &mut Vec<u8>) -> Result<(), AllocError>
    requires { length bytes.now ≤ 2 ^ 31 }
    ensures { OnOk result (out.new.items ≡ out.old.items ++ filled_to 4 bytes.now) }
{
    out.extend_from_slice(bytes)?;
    push_zeros(fours(bytes.len()) - bytes.len(), out)
}

/// The RVA of the resources, 0 where there are none.
fn resources_rva(code: &[u8], resources: &[u8]) -> u32
    requires { length code.now ≤ 2 ^ 31 }
    ensures { result ≡ rva_of_resources code.now resources.now }
{
    if resources.is_empty() {
        return 0;
    }
    CODE_RVA + (cli_place(code) + 72) as u32
}

/// Appends the section.
#[tactic(auto, unfolding(crate::specs::Written::section_written))]
fn push_section(
    root: &[u8],
    code: &[u8],
    resources: &[u8],
    entry: u32,
    out: &mut Vec<u8>,
) -> Result<(), AllocError>
    requires { image_size root.now code.now resources.now ≤ most_bytes }
    ensures { OnOk result (out.new.items ≡ out.old.items ++ section_written root.now code.now resources.now entry) }
{
    let metadata = CODE_RVA + root_place(code, resources) as u32;
    let kept = resources_rva(code, resources);
    push_filled(code, out)?;
    push_cli_header(
        (metadata, root.len() as u32),
        entry,
        (kept, resources.len() as u32),
        out,
    )?;
    push_filled(resources, out)?;
    out.extend_from_slice(root)
}

/// The image.
#[tactic(auto, unfolding(crate::specs::Written::image_written))]
fn image(
    alloc: Global,
    root: &[u8],
    code: &[u8],
    resources: &[u8],
    entry: u32,
) -> Result<Vec<u8>, AllocError>
    requires { image_size root.now code.now resources.now ≤ most_bytes }
    ensures { IfOk result (λ v. v.items ≡ image_written root.now code.now resources.now entry) }
{
    let size = section_size(root, code, resources);
    let raw = file_aligned(size);
    let mut out = Vec::with_capacity(alloc, HEADERS + raw)?;
    push_headers(size, raw, cli_place(code), &mut out)?;
    push_section(root, code, resources, entry, &mut out)?;
    push_zeros(raw - size, &mut out)?;
    Ok(out)
}

/// The image (PE32) with this metadata root, this code at the RVA `CODE_RVA`, these managed
/// resources, none where they are no bytes, and this entry point, a token's number or 0
/// (ECMA-335 II.25). It is a DLL with one section. The time is linear in its size. An image of more
/// than 2^31 bytes is too large, and this is told before memory is asked for.
pub fn write_pe(
    alloc: Global,
    root: &[u8],
    code: &[u8],
    resources: &[u8],
    entry: u32,
) -> Result<Vec<u8>, PeFault>
    ensures written { IfOk result (λ v. v.items ≡ image_written root.now code.now resources.now entry) }
    ensures large { is_too_large result ≡ nat_lt most_bytes (image_size root.now code.now resources.now) }
{
    if is_large(root, code, resources) {
        return Err(PeFault::TooLarge);
    }
    let bytes = image(alloc, root, code, resources, entry)?;
    Ok(bytes)
}
