//! The reasons why a file is not an image.

ghost use Rattle.std.specs.Prelude.{◌≡◌};
ghost use Rattle.cyc_elf.specs.declared.fault.ElfFault.TheVariants.{Memory};

use std::alloc::{AllocError, AllocFailed};
use thiserror::Error;

/// The reason why a file is not an image, or the fact that memory ran out.
#[derive(Clone, Copy, Debug, PartialEq, Eq, Error)]
pub enum ElfFault {
    /// The file ends before the end of its file header, of its table of program headers, or of a segment's bytes.
    #[error("the file is cut short")]
    Truncated,
    /// The file does not begin like a 32-bit, big-endian ELF file.
    #[error("not a 32-bit big-endian ELF file")]
    NotElf32Big,
    /// The file is not an executable, is not for MIPS, or has another version of the format.
    #[error("not an executable for MIPS")]
    NotMipsExec,
    /// The size of a program header, or a loadable segment, violates the rules of the format.
    #[error("a segment breaks the rules of the format")]
    BadSegment,
    /// The file requests a program interpreter, as dynamically linked programs do.
    #[error("the file asks for an interpreter")]
    Interp,
    /// The entry address lies in no segment, or is not a multiple of 4.
    #[error("the entry is not an instruction's address")]
    BadEntry,
    /// Memory ran out.
    #[error("out of memory")]
    Memory,
}

impl ElfFault {
    ghost use Rattle.cyc_elf.specs.Fault.{number_of};

    /// Returns the number of a file's fault in a program's messages, from 1 to 7.
    pub fn number(self) -> u32
        ensures { result ≡ number_of self }
    {
        match self {
            ElfFault::Truncated => 1,
            ElfFault::NotElf32Big => 2,
            ElfFault::NotMipsExec => 3,
            ElfFault::BadSegment => 4,
            ElfFault::Interp => 5,
            ElfFault::BadEntry => 6,
            ElfFault::Memory => 7,
        }
    }
}

impl From<AllocError> for ElfFault {
    ghost from_gives = { λ _ e. e ≡ Memory };

    fn from(_e: AllocError) -> ElfFault {
        ElfFault::Memory
    }
}

impl<T: Drop> From<AllocFailed<T>> for ElfFault {
    ghost from_gives = { λ _ e. e ≡ Memory };

    fn from(_e: AllocFailed<T>) -> ElfFault {
        ElfFault::Memory
    }
}
