//! Reads the file header, which stands at the start of the file.

ghost use Rattle.std.specs.Prelude.{◌≡◌, ◌+◌, ◌*◌, ◌≤◌, length, None, Some, IfOk, MatchResult};
ghost use Rattle.cyc_elf.specs.Header.{entry, table_offset, header_count, program_header_size};
ghost use Rattle.cyc_elf.specs.Reading.{first_fault, file_rules};

use crate::fault::ElfFault;
use crate::fields::{half_at, word_at};

/// The first bytes of an ELF file: the magic number, then 32-bit, most significant byte first, version 1.
pub const IDENT: [u8; 7] = [0x7f, b'E', b'L', b'F', 1, 2, 1];

/// The size of the file header in bytes.
pub const FILE_HEADER_SIZE: usize = 52;

/// The size of a program header in bytes.
pub const PROGRAM_HEADER_SIZE: usize = 32;

/// The number that marks an executable as the file's type.
pub const EXECUTABLE: u16 = 2;

/// The number that stands for MIPS in the file header's field for the machine.
pub const MIPS: u16 = 8;

/// The version of the ELF format.
pub const VERSION: u32 = 1;

/// The fields of the file header that the reader needs: the entry address, and the file offset of the table of
/// program headers and their number.
#[derive(Clone, Copy)]
pub struct FileHeader {
    pub entry: u32,
    pub table: u32,
    pub count: u16,
}

/// Reads the file header. The error is the first rule that the file header violates.
#[tactic(auto, unfolding(crate::specs::Reading::file_rules))]
pub fn file_header(file: &[u8]) -> Result<FileHeader, ElfFault>
    ensures faults { MatchResult result (λ _. first_fault (file_rules file.now) ≡ None)
        (λ fault. first_fault (file_rules file.now) ≡ Some fault) }
    ensures fields { IfOk result (λ h. record { entry = entry file.now; table = table_offset file.now; count = header_count file.now } ≡ h) }
    ensures within { IfOk result (λ h. h.table + program_header_size * h.count ≤ length file.now) }
{
    if file.len() < FILE_HEADER_SIZE {
        return Err(ElfFault::Truncated);
    }
    if !file.starts_with(&IDENT) {
        return Err(ElfFault::NotElf32Big);
    }
    let (kind, machine) = (half_at(file, 16), half_at(file, 18));
    let version = word_at(file, 20);
    if kind != EXECUTABLE || machine != MIPS || version != VERSION {
        return Err(ElfFault::NotMipsExec);
    }
    let header_size = half_at(file, 42);
    if header_size as usize != PROGRAM_HEADER_SIZE {
        return Err(ElfFault::BadSegment);
    }
    let header = FileHeader {
        entry: word_at(file, 24),
        table: word_at(file, 28),
        count: half_at(file, 44),
    };
    if header.table as usize + PROGRAM_HEADER_SIZE * header.count as usize > file.len() {
        return Err(ElfFault::Truncated);
    }
    Ok(header)
}
