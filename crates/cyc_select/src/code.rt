//! Labelled code is machine code before addresses are assigned: its branches name line numbers.
ghost use Rattle.std.specs.Prelude.{◌≡◌};
ghost use Rattle.cyc_select.specs.inside.Labelled.{IsCode};

use cyc_isa::{BranchOp, BranchZeroOp, Instr, Register};
use std::marker::Model;

/// The condition of a branch in labelled code.
#[derive(Clone, Copy, Debug, PartialEq, Eq)]
pub enum Condition {
    /// Holds if two registers are equal, or if they differ, as `op` says.
    Registers {
        op: BranchOp,
        left: Register,
        right: Register,
    },
    /// Compares a register's word with 0, that is, tests its sign.
    Sign {
        op: BranchZeroOp,
        source: Register,
    },
}

/// A line of labelled code. The number of a line serves as its label.
#[derive(Clone, Copy, Debug, PartialEq, Eq)]
pub enum Line {
    /// Executes an instruction that is neither a branch nor a jump.
    Ordinary { instruction: Instr },
    /// Branches to the line of the label if the condition holds.
    Branch { condition: Condition, label: usize },
    /// Jumps to the line of the label.
    Jump { label: usize },
    /// Calls a function: writes the address of the next line to register 31 and jumps to the line of the label.
    Call { label: usize },
    /// Returns from a function: jumps to the line whose address is in register 31.
    Return,
}

/// A program as labelled code, well-formed and small enough for the machine's memory. The code that constructs a `Code` proves that
/// it is well-formed and small enough, and every user may rely on this.
#[derive(Drop)]
pub struct Code {
    lines: Vec<Line>,
    globals: Vec<u32>,
}

impl Model for Code {
    ghost use Rattle.cyc_select.specs.inside.Labelled.{Labelled, IsCode};

    ghost Value = { Labelled };

    ghost view = { λ a. record { lines = a.lines.items; globals = a.globals.items } };

    ghost invariant = { λ a. IsCode (record { lines = a.lines.items; globals = a.globals.items }) };
}

impl Code {
    pub(crate) fn new(lines: Vec<Line>, globals: Vec<u32>) -> Code
        requires { IsCode (record { lines = lines.items; globals = globals.items }) }
        ensures { result ≡ record { lines = lines.items; globals = globals.items } }
    {
        Code { lines, globals }
    }

    /// Returns the MIPS lines of the program. Execution starts at the first line.
    pub fn lines(&self) -> &[Line]
        ensures value { result.now ≡ self.now.lines }
        ensures code { IsCode self.now }
    {
        &self.lines
    }

    /// Returns the words with which the machine's data range begins: the initial values of the globals.
    pub fn globals(&self) -> &[u32]
        ensures value { result.now ≡ self.now.globals }
        ensures code { IsCode self.now }
    {
        &self.globals
    }
}
