//! The results of running an image or of listing it.

ghost use Rattle.std.specs.Prelude.{◌≡◌};

use cyc_elf::ElfFault;
use cyc_machine::{End, LoadFault};
use std::alloc::AllocError;
use thiserror::Error;

/// The way in which a run of an image stopped.
#[derive(Clone, Copy, Debug, PartialEq, Eq)]
pub enum Stop {
    /// The run ended.
    End(End),
    /// The budget of instructions was used up before the run ended.
    Spent,
}

/// The limit that a run reached when it ended with `Full`.
#[derive(Clone, Copy, Debug, PartialEq, Eq)]
pub enum Limit {
    /// The limit of calls: the stack had no space for one more call, so the program ended the run.
    Calls,
    /// The run reached its limit on heap pages: the store had too few pages for a request.
    Pages,
}

/// The peak use of resources in a run.
#[derive(Clone, Copy, Debug, PartialEq, Eq)]
pub struct Peaks {
    /// The most calls that were active at once.
    pub calls: u32,
    /// The most pages of the store that were in use at once.
    pub pages: u32,
}

/// The result of a run: how and where it stopped, the number of instructions, and the resources used.
#[derive(Clone, Copy, Debug, PartialEq, Eq)]
pub struct Report {
    pub stop: Stop,
    pub count: u64,
    /// The address of the instruction that ended the run, or of the next instruction if the run has not ended.
    pub counter: u32,
    /// The limit that was reached, if the run ended with `Full`.
    pub limit: Option<Limit>,
    /// The number of bytes that the run read from the input.
    pub read: u64,
    /// The number of bytes that the program printed.
    pub written: u64,
    /// The maximal numbers of active calls and of pages in use during the run, if they were counted.
    pub peaks: Option<Peaks>,
}

/// The reason why an image was not run until it stops, or why its instructions were not listed. Lack of memory is reported as `Memory`,
/// wherever it occurs. A listing of an image's instructions never fails with `Load` or `Read`.
#[derive(Clone, Copy, Debug, PartialEq, Eq, Error)]
pub enum RunFault {
    /// The bytes are not a valid image.
    #[error("{0}")]
    Elf(ElfFault),
    /// The image has a segment that lies outside the address ranges of the machine's memory.
    #[error("{0}")]
    Load(LoadFault),
    /// The reader failed.
    #[error("the input could not be read")]
    Read,
    /// The writer failed.
    #[error("the output could not be written")]
    Write,
    /// Memory ran out.
    #[error("out of memory")]
    Memory,
}

impl From<AllocError> for RunFault {
    ghost use Rattle.cyc_emulator.specs.declared.report.RunFault.TheVariants.{Memory};

    ghost from_gives = { λ _ e. e ≡ Memory };

    fn from(_e: AllocError) -> RunFault {
        RunFault::Memory
    }
}

impl From<ElfFault> for RunFault {
    ghost use Rattle.cyc_emulator.specs.Faults.{of_elf};

    ghost from_gives = { λ f e. e ≡ of_elf f };

    fn from(fault: ElfFault) -> RunFault {
        match fault {
            ElfFault::Memory => RunFault::Memory,
            fault => RunFault::Elf(fault),
        }
    }
}

impl From<LoadFault> for RunFault {
    ghost use Rattle.cyc_emulator.specs.Faults.{of_load};

    ghost from_gives = { λ f e. e ≡ of_load f };

    fn from(fault: LoadFault) -> RunFault {
        match fault {
            LoadFault::Memory => RunFault::Memory,
            LoadFault::Outside => RunFault::Load(LoadFault::Outside),
        }
    }
}
