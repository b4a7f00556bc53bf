//! The events of steps of the MIPS machine, and the ends of runs.

/// The cause of a trap: the reason for which the machine refused an instruction.
///
/// If an instruction has several causes to be refused, the machine reports the first in the order of this list. Errors in fetching an
/// instruction are reported before all causes of traps in this list.
#[derive(Clone, Copy, Debug, PartialEq, Eq)]
pub enum Cause {
    /// The word at the program counter encodes no instruction.
    ReservedInstruction,
    /// The architecture does not define the instruction's effect: a jump or branch in a delay slot, a division by 0, or a `jalr` with
    /// two equal registers. As this project chooses, the division of -2147483648 by -1 is also not defined.
    Unpredictable,
    /// An instruction is fetched, or a word is loaded or stored, at an address that is not a multiple of 4.
    Misaligned,
    /// The address is not mapped, or an instruction is fetched outside the text range.
    NoSuchAddress,
    /// The address is in the store's pages but in no live block.
    DeadCell,
    /// A store instruction writes to the text range.
    WriteToText,
    /// A `break` instruction.
    Break,
    /// A `syscall` whose number is that of no system call, or whose request the store refused for another reason than lack of pages.
    BadService,
}

/// The way in which a run of the machine ended.
#[derive(Clone, Copy, Debug, PartialEq, Eq)]
pub enum End {
    /// The program returned from `main` with this value.
    Returned(i32),
    /// An exception was not caught. The fields are the exception's number, and its value, or 0 if it has none.
    Uncaught(u32, i32),
    /// A request to the store failed because the store had no free pages, or a function call failed because the stack had no space for it.
    Full,
    /// The machine refused to execute an instruction.
    Trap(Cause),
}

/// The event of a machine's step, as observed from outside.
#[derive(Clone, Copy, Debug, PartialEq, Eq)]
pub enum Event {
    /// An instruction was executed, and no other event happened.
    Ran,
    /// The program requests a byte of input. The machine waits until the byte is supplied.
    WantsByte,
    /// The program printed this byte.
    Puts(u8),
    /// The run has ended in this way.
    Ended(End),
    /// The store lacks memory. The instruction was not executed, and the machine's state is unchanged.
    NoMemory,
}

/// The exchange of data between an instruction and the input and output devices.
#[derive(Clone, Copy, Debug, PartialEq, Eq)]
pub enum Exchange {
    /// The next instruction exchanges no data, or it has an event that only `step` reports. The instruction was not executed, and the
    /// machine's state is unchanged.
    Nothing,
    /// The program requests a byte of input. The machine waits until the byte is supplied.
    Wants,
    /// The program printed this byte.
    Puts(u8),
}

/// How many instructions were executed, and the event of the last one; all earlier instructions emitted `Ran`. The event is `Ran` only if
/// the requested number of instructions was reached. If the event is `NoMemory`, the instruction that lacked memory is not counted.
#[derive(Clone, Copy, Debug, PartialEq, Eq)]
pub struct Stretch {
    pub count: u64,
    pub event: Event,
}
