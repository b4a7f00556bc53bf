//! How a run stands between two calls, and what comes of a call.

use cyc_machine::End;

/// How a run stands between two calls.
#[derive(Clone, Copy, Debug, PartialEq, Eq)]
pub enum Standing {
    /// The next instruction of the run is not yet executed.
    Ready,
    /// The last instruction requested a byte that the run has not received yet. The instruction is counted when it receives the byte.
    Wants,
    /// The last instruction printed this byte, and no writer has taken it yet. The instruction is counted when a writer takes the byte.
    Prints(u8),
    /// The run has ended in this way.
    Ended(End),
}

/// The reason for which a call returned. After each reason but the first, a later call continues the same run.
#[derive(Clone, Copy, Debug, PartialEq, Eq)]
pub enum Pause {
    /// The run has ended in this way, in this call or in an earlier one.
    Ended(End),
    /// The call executed as many instructions as its budget allows.
    Spent,
    /// The reader failed when the run requested a byte.
    NoByte,
    /// The writer failed when the run printed a byte.
    NoRoom,
    /// The store lacks memory for the next instruction.
    NoMemory,
}

/// What comes of a call: the number of instructions that were executed, the numbers of bytes that these read and printed, and the reason
/// for which the call returned.
#[derive(Clone, Copy, Debug, PartialEq, Eq)]
pub struct Slice {
    pub count: u64,
    pub read: u64,
    pub written: u64,
    pub pause: Pause,
}
