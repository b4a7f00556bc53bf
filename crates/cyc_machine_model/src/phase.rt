//! The phase of the MIPS machine: running, waiting for input, or ended.

use crate::event::End;

/// The phase of the machine between two steps.
#[derive(Clone, Copy)]
pub enum Phase {
    /// The machine continues with the instruction at the program counter.
    Running,
    /// The machine waits for a byte of input, or for the end of input.
    Waiting,
    /// The run has ended.
    Over(End),
}
