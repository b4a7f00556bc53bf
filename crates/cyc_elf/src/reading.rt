//! Reads images from the bytes of files.

ghost use Rattle.std.specs.Prelude.{◌≡◌, ◌+◌, ◌%◌, ◌≤◌, ◌&&◌, ◌==◌, All, IfOk, length};
ghost use Rattle.std.specs.List.{list_any};
ghost use Rattle.cyc_elf.specs.Image.{contents_of, IsWellFormed};
ghost use Rattle.cyc_elf.specs.Outline.{fields_of, outlined, Outlines};
ghost use Rattle.cyc_elf.specs.Reading.{covers, reading, Answers};

use crate::fault::ElfFault;
use crate::file_header::file_header;
use crate::image::Image;
use crate::outline::Outline;
use crate::program_header::ProgramHeader;
use crate::table::{are_apart, walk_table};
use std::alloc::Global;

/// Returns true if an address lies in one of the segments.
fn is_covered(loads: &[ProgramHeader], address: u32) -> bool
    ensures { result ≡ list_any (λ h. covers (fields_of h) address) loads.now }
{
    loads.iter().any(|h| h.covers(address))
}

/// Returns true if an address is that of a word in one of the segments.
fn is_entry(loads: &[ProgramHeader], address: u32) -> bool
    ensures { result ≡ (list_any (λ h. covers (fields_of h) address) loads.now && (address % 4 == 0)) }
{
    is_covered(loads, address) && address % 4 == 0
}

/// Reads the headers of a file without copying any byte of a segment.
///
/// The reader checks the whole table of program headers. Reading a file needs at most a small multiple of the file's length of memory,
/// no matter what its headers contain.
pub fn read_outline(alloc: Global, file: &[u8]) -> Result<Outline, ElfFault>
    // The result is the outline of the image that the file denotes, or the fault of the first violated rule.
    ensures exact { Outlines file.now result (reading file.now) }
    // An image that the reader returns is well-formed, and all of its bytes are in the file.
    ensures well_formed { IfOk result (λ outline. IsWellFormed (outlined file.now outline)) }
    ensures stored { IfOk result (λ outline. All (λ h. h.offset + h.file_size ≤ length file.now) outline.loads.items) }
{
    let header = file_header(file)?;
    let walk = walk_table(alloc, file, header.table, header.count)?;
    if !are_apart(alloc, &walk.loads)? {
        return Err(ElfFault::BadSegment);
    }
    if let Some(fault) = walk.fault {
        return Err(fault);
    }
    if !is_entry(&walk.loads, header.entry) {
        return Err(ElfFault::BadEntry);
    }
    Ok(Outline {
        entry: header.entry,
        loads: walk.loads,
        note: walk.note,
    })
}

/// Reads an image from the bytes of a file.
///
/// The reader checks the whole table of program headers before it copies any segment, and does not store the zeros past a segment's bytes.
/// A rejected file needs at most a small multiple of its own length of memory. An accepted file needs in addition the bytes that its
/// segments refer to, together at most 4 GiB, since segments are disjoint. A caller that accepts fewer images can check their outlines
/// first.
pub fn read_image(alloc: Global, file: &[u8]) -> Result<Image, ElfFault>
    // The result is the image that the file denotes, or the fault of the first violated rule.
    ensures exact { Answers result (reading file.now) }
    // An image that the reader returns is well-formed.
    ensures well_formed { IfOk result (λ image. IsWellFormed (contents_of image)) }
{
    let outline = read_outline(alloc, file)?;
    Ok(outline.image(alloc, file)?)
}
