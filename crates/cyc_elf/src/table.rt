//! Traverses the table of program headers, and checks that segments are disjoint.

ghost use Rattle.std.specs.Prelude.{◌≡◌, ◌+◌, ◌*◌, ◌≤◌, true, [], None, length, map, All, IfOk};
ghost use Rattle.std.specs.List.Sorted.{IsPermutation, IsNonDecreasingBy};
ghost use Rattle.cyc_elf.specs.Header.{program_header_size, headers_from};
ghost use Rattle.cyc_elf.specs.Image.{segment_contents};
ghost use Rattle.cyc_elf.specs.Note.{note_size, is_note};
ghost use Rattle.cyc_elf.specs.Outline.{fields_of};
ghost use Rattle.cyc_elf.specs.inside.Parts.{noted, walk, walk_of, in_order, are_apart};
ghost use Rattle.cyc_elf.specs.Reading.{segment_of};

use crate::fault::ElfFault;
use crate::file_header::PROGRAM_HEADER_SIZE;
use crate::image::Segment;
use crate::note::limits_at;
use crate::program_header::ProgramHeader;
use std::alloc::{AllocError, Global};

/// The result of traversing the program headers up to the first one that by itself violates a rule. The result has the loadable
/// headers and the note's limits found before this header, and the header's fault.
#[derive(Drop)]
pub struct Walk {
    pub loads: Vec<ProgramHeader>,
    pub note: Option<(u32, u32)>,
    pub fault: Option<ElfFault>,
}

/// Returns the limits on pages and calls that a valid program header states if it is a note with limits,
/// otherwise the limits that earlier headers stated.
fn noted(file: &[u8], header: ProgramHeader, known: Option<(u32, u32)>) -> Option<(u32, u32)>
    requires { is_note file.now (fields_of header) ≡ true → header.offset + note_size ≤ length file.now }
    ensures { result ≡ noted file.now known (fields_of header) }
{
    if header.is_note(file) {
        return Some(limits_at(file, header.offset as usize));
    }
    known
}

/// Traverses the `count` program headers from the offset `table` on.
pub fn walk_table(alloc: Global, file: &[u8], table: u32, count: u16) -> Result<Walk, AllocError>
    requires { table + program_header_size * count ≤ length file.now }
    ensures { IfOk result (λ w. walk_of w ≡ walk file.now None (headers_from file.now table count)) }
{
    let mut loads = Vec::new(alloc);
    let mut note = None;
    let mut place = table as usize;
    for _ in 0..count {
        let header = ProgramHeader::at(file, place);
        if let Some(fault) = header.own_fault(file, note.is_some()) {
            return Ok(Walk {
                loads,
                note,
                fault: Some(fault),
            });
        }
        if header.is_load() {
            loads.push(header)?;
        }
        note = noted(file, header, note);
        place += PROGRAM_HEADER_SIZE;
    }
    Ok(Walk {
        loads,
        note,
        fault: None,
    })
}

/// Returns the headers sorted by their addresses.
fn sorted_by_address(
    alloc: Global,
    loads: &[ProgramHeader],
) -> Result<Vec<ProgramHeader>, AllocError>
    ensures permutation { IfOk result (λ v. IsPermutation loads.now v.items) }
    ensures sorted { IfOk result (λ v. IsNonDecreasingBy (λ h. h.vaddr) v.items) }
{
    let mut sorted = Vec::from_slice(alloc, loads)?;
    sorted.sort_unstable_by_key(|h| h.vaddr);
    Ok(sorted)
}

/// Returns true if each header with memory begins at or after the end of the previous one.
fn in_order(sorted: &[ProgramHeader]) -> bool
    ensures { result ≡ in_order 0 (map fields_of sorted.now) }
{
    let mut high = 0;
    for h in sorted {
        if h.memory_size == 0 {
            continue;
        }
        if u64::from(h.vaddr) < high {
            return false;
        }
        high = h.end();
    }
    true
}

/// Returns true if no two of the segments that program headers describe share an address.
///
/// A table may have 65,535 program headers, so the function sorts them by address to find overlaps, instead of comparing all pairs.
pub fn are_apart(alloc: Global, loads: &[ProgramHeader]) -> Result<bool, AllocError>
    ensures { IfOk result (λ apart. apart ≡ are_apart [] (map fields_of loads.now)) }
{
    let sorted = sorted_by_address(alloc, loads)?;
    Ok(in_order(&sorted))
}

/// Returns the segment that a program header describes, with its bytes copied from the file.
fn segment_of(alloc: Global, file: &[u8], header: ProgramHeader) -> Result<Segment, AllocError>
    requires { header.offset + header.file_size ≤ length file.now }
    ensures { IfOk result (λ s. segment_contents s ≡ segment_of file.now (fields_of header)) }
{
    let start = header.offset as usize;
    let end = start + header.file_size as usize;
    Ok(Segment {
        vaddr: header.vaddr,
        flags: header.flags,
        bytes: Vec::from_slice(alloc, &file[start..end])?,
        size: header.memory_size,
    })
}

/// Returns the segments that loadable headers describe, in the order of the headers.
pub fn segments_of(
    alloc: Global,
    file: &[u8],
    loads: &[ProgramHeader],
) -> Result<Vec<Segment>, AllocError>
    requires { All (λ h. h.offset + h.file_size ≤ length file.now) loads.now }
    ensures { IfOk result (λ v. map segment_contents v.items ≡ map (segment_of file.now) (map fields_of loads.now)) }
{
    let mut segments = Vec::with_capacity(alloc, loads.len())?;
    for header in loads {
        segments.push(segment_of(alloc, file, *header)?)?;
    }
    Ok(segments)
}
