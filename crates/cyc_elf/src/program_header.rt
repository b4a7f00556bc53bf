//! The program headers, each of which may describe a segment.

ghost use Rattle.std.specs.Prelude.{◌≡◌, ◌+◌, ◌*◌, ◌≤◌, length, map, IfOk};
ghost use Rattle.cyc_elf.specs.Header.{program_header_size, program_header_at, headers_from};
ghost use Rattle.cyc_elf.specs.Image.{segment_contents};
ghost use Rattle.cyc_elf.specs.Layout.{header_of, note_header};
ghost use Rattle.cyc_elf.specs.Note.{is_note};
ghost use Rattle.cyc_elf.specs.Reading.{first_fault, own_rules, load_rules, is_load, covers};

use crate::fault::ElfFault;
use crate::fields::word_at;
use crate::image::Segment;
use crate::note::{NAMED_SIZE, NOTE_SIZE, is_named, keeps_rules};

/// The kinds of program headers that the reader distinguishes.
const LOAD: u32 = 1;

const INTERPRETER: u32 = 3;

const NOTE: u32 = 4;

/// The flag that marks a segment as readable.
const READ: u32 = 4;

/// The number of addresses of the 32-bit address space, which is the address just past it.
const ADDRESSES: u64 = 1 << 32;

/// The fields of a program header that the reader uses.
#[derive(Clone, Copy)]
pub struct ProgramHeader {
    pub kind: u32,
    pub offset: u32,
    pub vaddr: u32,
    pub file_size: u32,
    pub memory_size: u32,
    pub flags: u32,
}

impl ProgramHeader {
    ghost use Rattle.cyc_elf.specs.Outline.{fields_of};

    /// Returns the program header at an offset in the file.
    #[tactic(auto, unfolding(crate::specs::Header::program_header_at))]
    pub(crate) fn at(file: &[u8], place: usize) -> ProgramHeader
        requires { place + program_header_size ≤ length file.now }
        ensures { fields_of result ≡ program_header_at file.now place }
    {
        ProgramHeader {
            kind: word_at(file, place),
            offset: word_at(file, place + 4),
            vaddr: word_at(file, place + 8),
            file_size: word_at(file, place + 16),
            memory_size: word_at(file, place + 20),
            flags: word_at(file, place + 24),
        }
    }

    /// Returns the header of a segment whose bytes begin at an offset in the file.
    pub(crate) fn of(segment: &Segment, offset: u32) -> ProgramHeader
        requires { length segment.now.bytes.items ≤ segment.now.size }
        ensures { fields_of result ≡ header_of offset (segment_contents segment.now) }
    {
        // The code reads the segment's size before it builds the program header. This read makes a bound on the number of the segment's
        // bytes known to the proof.
        let _size = segment.size;
        ProgramHeader {
            kind: LOAD,
            offset,
            vaddr: segment.vaddr,
            file_size: segment.bytes.len() as u32,
            memory_size: segment.size,
            flags: segment.flags,
        }
    }

    /// Returns the ELF program header for the note whose bytes begin at `offset` in the file.
    pub(crate) fn of_note(offset: u32) -> ProgramHeader
        ensures { fields_of result ≡ note_header offset }
    {
        let size = NOTE_SIZE as u32;
        ProgramHeader {
            kind: NOTE,
            offset,
            vaddr: 0,
            file_size: size,
            memory_size: size,
            flags: READ,
        }
    }

    /// Returns true if the program header describes a loadable segment.
    pub(crate) fn is_load(&self) -> bool
        ensures { result ≡ is_load (fields_of self.now) }
    {
        self.kind == LOAD
    }

    /// Returns the address just after the segment that the program header describes.
    pub(crate) fn end(&self) -> u64
        ensures { result ≡ self.now.vaddr + self.now.memory_size }
    {
        u64::from(self.vaddr) + u64::from(self.memory_size)
    }

    /// Returns true if an address is in the header's segment.
    pub(crate) fn covers(&self, address: u32) -> bool
        ensures { result ≡ covers (fields_of self.now) address }
    {
        self.vaddr <= address && u64::from(address) < self.end()
    }

    /// Returns true if the program header describes an ELF note that limits heap pages and simultaneous calls. A note of another owner is
    /// not a note with such limits, nor is one whose bytes are not in the file.
    #[tactic(auto, unfolding(crate::specs::Note::is_note))]
    pub(crate) fn is_note(&self, file: &[u8]) -> bool
        ensures { result ≡ is_note file.now (fields_of self.now) }
    {
        let (start, size) = (self.offset as usize, self.file_size as usize);
        self.kind == NOTE
            && NAMED_SIZE <= size
            && start + size <= file.len()
            && is_named(file, start)
    }

    /// Returns the fault of the first rule that a single loadable header violates, in a file of `len` bytes.
    fn load_fault(&self, len: usize) -> Option<ElfFault>
        ensures { result ≡ first_fault (load_rules len (fields_of self.now)) }
    {
        if self.memory_size < self.file_size || self.end() > ADDRESSES || self.vaddr % 4 != 0 {
            return Some(ElfFault::BadSegment);
        }
        if len < self.offset as usize + self.file_size as usize {
            return Some(ElfFault::Truncated);
        }
        None
    }

    /// Returns the fault for the first rule that a single program header violates; `noted` tells whether a note with limits
    /// precedes this header.
    #[tactic(auto, unfolding(crate::specs::Reading::own_rules, crate::specs::Note::is_note))]
    pub(crate) fn own_fault(&self, file: &[u8], noted: bool) -> Option<ElfFault>
        ensures { result ≡ first_fault (own_rules file.now noted (fields_of self.now)) }
    {
        if self.kind == INTERPRETER {
            return Some(ElfFault::Interp);
        }
        if self.is_load() {
            return self.load_fault(file.len());
        }
        if self.is_note(file)
            && (noted || !keeps_rules(file, self.offset as usize, self.file_size as usize))
        {
            return Some(ElfFault::BadSegment);
        }
        None
    }
}
