//! Writes images as files.

ghost use Rattle.std.specs.Prelude.{◌≡◌, ◌+◌, ◌-◌, ◌^◌, ◌<◌, ◌≤◌, ◌++◌, length, map, All, Ok, OnOk, IfOk};
ghost use Rattle.std.specs.List.{flat_map};
ghost use Rattle.cyc_elf.specs.Image.{IsWellFormed, contents_of, segment_contents, padded};
ghost use Rattle.cyc_elf.specs.Layout.{halves, words, file_header, program_header, headers_of, stored, bytes_end, note_headers, note_bytes, notes};
ghost use Rattle.cyc_elf.specs.Layout.{note_count, layout, FitsFields};
ghost use Rattle.cyc_elf.specs.Outline.{fields_of};
ghost use Rattle.cyc_elf.specs.inside.Parts.{IsInWords};
ghost use Rattle.cyc_elf.specs.Reading.{reading};

use crate::file_header::{EXECUTABLE, FILE_HEADER_SIZE, IDENT, MIPS, PROGRAM_HEADER_SIZE, VERSION};
use crate::image::{Image, Segment};
use crate::note::{DESCRIPTION_SIZE, NAME, NAME_SIZE, NOTE_TYPE};
use crate::program_header::ProgramHeader;
use byteorder::{BigEndian, ByteOrder};
use std::alloc::{AllocError, Global};

/// The alignment of a segment, in the file and in memory.
const ALIGNMENT: u32 = 4;

/// The size of the file header in bytes, as a field of the file header.
const FILE_HEADER: u16 = 52;

/// The size of a program header in bytes, as a field of the file header.
const PROGRAM_HEADER: u16 = 32;

/// The file offset of the program headers, which come directly after the file header.
const TABLE_OFFSET: u32 = 52;

/// Appends numbers of two bytes each, most significant byte first.
fn put_halves(out: &mut Vec<u8>, numbers: &[u16]) -> Result<(), AllocError>
    ensures { OnOk result (out.new.items ≡ out.old.items ++ halves numbers.now) }
{
    for number in numbers {
        let mut bytes = [0; 2];
        BigEndian::write_u16(&mut bytes, *number);
        out.extend_from_slice(&bytes)?;
    }
    Ok(())
}

/// Appends numbers of four bytes each, most significant byte first.
fn put_words(out: &mut Vec<u8>, numbers: &[u32]) -> Result<(), AllocError>
    ensures { OnOk result (out.new.items ≡ out.old.items ++ words numbers.now) }
{
    for number in numbers {
        let mut bytes = [0; 4];
        BigEndian::write_u32(&mut bytes, *number);
        out.extend_from_slice(&bytes)?;
    }
    Ok(())
}

/// Appends the file header. The fields that point to sections are 0, since the file has no sections.
#[tactic(auto, unfolding(crate::specs::Layout::file_header))]
fn put_file_header(out: &mut Vec<u8>, entry: u32, count: u16) -> Result<(), AllocError>
    ensures bytes { OnOk result (out.new.items ≡ out.old.items ++ file_header entry count) }
    ensures word { entry < 2 ^ 32 }
{
    out.extend_from_slice(&IDENT)?;
    out.extend_from_slice(&[0; 9])?;
    put_halves(out, &[EXECUTABLE, MIPS])?;
    put_words(out, &[VERSION, entry, TABLE_OFFSET, 0, 0])?;
    put_halves(out, &[FILE_HEADER, PROGRAM_HEADER, count, 0, 0, 0])?;
    Ok(())
}

/// Appends a program header.
#[tactic(auto, unfolding(crate::specs::Layout::program_header))]
fn put_program_header(out: &mut Vec<u8>, header: ProgramHeader) -> Result<(), AllocError>
    ensures bytes { OnOk result (out.new.items ≡ out.old.items ++ program_header (fields_of header)) }
    ensures words { IsInWords (fields_of header) }
{
    put_words(
        out,
        &[
            header.kind,
            header.offset,
            header.vaddr,
            header.vaddr,
            header.file_size,
            header.memory_size,
            header.flags,
            ALIGNMENT,
        ],
    )
}

/// Returns the number of zeros that pad `len` bytes to whole words.
fn padding(len: usize) -> usize
    ensures { result ≡ padded len - len }
{
    (4 - len % 4) % 4
}

/// Appends a segment's bytes, padded with zeros to whole words.
fn put_bytes(out: &mut Vec<u8>, s: &Segment) -> Result<(), AllocError>
    ensures { OnOk result (out.new.items ≡ out.old.items ++ stored (segment_contents s.now)) }
{
    out.extend_from_slice(&s.bytes)?;
    let zeros = [0; 3];
    out.extend_from_slice(&zeros[..padding(s.bytes.len())])?;
    Ok(())
}

/// Appends the program headers of segments whose bytes begin at `start`, and returns the file offset just after the segments' bytes.
fn put_headers(out: &mut Vec<u8>, segments: &[Segment], start: usize) -> Result<usize, AllocError>
    requires each { All (λ s. length s.bytes.items ≤ s.size) segments.now }
    requires offsets { All (λ h. h.offset < 2 ^ 32) (headers_of start (map segment_contents segments.now)) }
    ensures bytes { OnOk result (out.new.items
        ≡ out.old.items ++ flat_map program_header (headers_of start (map segment_contents segments.now))) }
    ensures words { OnOk result (All IsInWords (headers_of start (map segment_contents segments.now))) }
    ensures end { IfOk result (λ end. end ≡ bytes_end start (map segment_contents segments.now)) }
{
    let mut offset = start;
    for s in segments {
        put_program_header(out, ProgramHeader::of(s, offset as u32))?;
        offset += s.bytes.len() + padding(s.bytes.len());
    }
    Ok(offset)
}

/// Returns the number of program headers for the limits of an image: 0 or 1.
fn note_count(note: Option<(u32, u32)>) -> usize
    ensures { result ≡ note_count note }
{
    match note {
        Some(_) => 1,
        None => 0,
    }
}

/// If the image limits its pages and calls, appends the ELF program header of the note with these limits, whose bytes begin at `offset`.
fn put_note_header(
    out: &mut Vec<u8>,
    note: Option<(u32, u32)>,
    offset: usize,
) -> Result<(), AllocError>
    requires { All (λ h. h.offset < 2 ^ 32) (note_headers offset note) }
    ensures bytes { OnOk result (out.new.items ≡ out.old.items ++ flat_map program_header (note_headers offset note)) }
    ensures words { OnOk result (All IsInWords (note_headers offset note)) }
{
    match note {
        Some(_) => put_program_header(out, ProgramHeader::of_note(offset as u32)),
        None => Ok(()),
    }
}

/// Appends the bytes of a note with limits on pages and calls.
#[tactic(auto, unfolding(crate::specs::Layout::note_bytes))]
fn put_note_bytes(out: &mut Vec<u8>, pages: u32, calls: u32) -> Result<(), AllocError>
    ensures bytes { OnOk result (out.new.items ≡ out.old.items ++ note_bytes (pages, calls)) }
{
    put_words(out, &[NAME_SIZE, DESCRIPTION_SIZE, NOTE_TYPE])?;
    out.extend_from_slice(&NAME)?;
    put_words(out, &[pages, calls])
}

/// Appends the bytes of the note with the limits on pages and calls, if the image has limits.
fn put_note(out: &mut Vec<u8>, note: Option<(u32, u32)>) -> Result<(), AllocError>
    ensures bytes { OnOk result (out.new.items ≡ out.old.items ++ notes note) }
{
    match note {
        Some((pages, calls)) => put_note_bytes(out, pages, calls),
        None => Ok(()),
    }
}

/// Appends the bytes of an image's segments, each padded to whole words.
fn put_all_bytes(out: &mut Vec<u8>, segments: &[Segment]) -> Result<(), AllocError>
    ensures { OnOk result (out.new.items ≡ out.old.items ++ flat_map stored (map segment_contents segments.now)) }
{
    for s in segments {
        put_bytes(out, s)?;
    }
    Ok(())
}

/// Writes an image as an ELF file: the file header, a program header for each segment, and the segments' bytes in order, padded with zeros
/// to words. If the image limits its pages and calls, the program header of the note with these limits follows the segments' headers. The
/// bytes of the note with the limits are the last bytes of the file. The written file has no section headers.
///
/// The written file has 52 bytes, 32 for each segment, and each segment's bytes rounded up to words; the zeros past a segment's bytes
/// are not written. Storing limits takes 60 bytes more.
pub fn write_image(alloc: Global, image: &Image) -> Result<Vec<u8>, AllocError>
    requires well_formed { IsWellFormed (contents_of image.now) }
    requires fits { FitsFields (contents_of image.now) }
    ensures exact { IfOk result (λ file. file.items ≡ layout (contents_of image.now)) }
    // If the reader reads the written file, it returns the image that was written.
    ensures read_again { IfOk result (λ file. reading file.items ≡ Ok (contents_of image.now)) }
{
    let mut file = Vec::new(alloc);
    let count = image.segments.len() + note_count(image.note);
    put_file_header(&mut file, image.entry, count as u16)?;
    let start = FILE_HEADER_SIZE + PROGRAM_HEADER_SIZE * count;
    let end = put_headers(&mut file, &image.segments, start)?;
    put_note_header(&mut file, image.note, end)?;
    put_all_bytes(&mut file, &image.segments)?;
    put_note(&mut file, image.note)?;
    Ok(file)
}
