//! The tables of frames and of labelled-code line numbers from which the MIPS lines of a function are emitted.
ghost use Rattle.std.specs.Prelude.{◌≡◌, ◌+◌, ◌<◌, ◌≤◌, ◌==◌, length};
ghost use Rattle.cyc_plain.specs.inside.Program.{routine_at};
ghost use Rattle.cyc_frame.specs.inside.Layout.{frame_at};
ghost use Rattle.cyc_registers.specs.declared.home.TheConstants.{MOST_BOTH, MOST_SAVED};
ghost use Rattle.cyc_select.specs.inside.Operands.{reload_count};
ghost use Rattle.cyc_select.specs.inside.Counts.{function_line, instruction_line};
ghost use Rattle.cyc_select.specs.inside.Emission.{AreReached, IsKnown};

use crate::counting::{frame_in, results_of};
use cyc_frame::Frame;
use cyc_plain::{GREATEST_VALUE, MOST_FRAME_WORDS, Plain};

/// The line numbers in the labelled code at which a function and its instructions begin.
#[derive(Drop)]
pub struct FunctionLines {
    /// The line number in the labelled code at which the function begins.
    pub first: usize,
    /// The line number at which the code of each instruction begins. An instruction without lines has the number of the next line.
    pub lines: Vec<usize>,
}

/// A program with the frames of its functions and their line numbers in the labelled code.
#[derive(Clone, Copy)]
pub(crate) struct Ready<'a> {
    pub(crate) plain: &'a Plain,
    pub(crate) frames: &'a [Frame],
    pub(crate) functions: &'a [FunctionLines],
}

/// A function of a program, with the tables of frames and of labelled-code line numbers that are used to emit its lines.
#[derive(Clone, Copy)]
pub(crate) struct Tables<'a> {
    pub(crate) plain: &'a Plain,
    pub(crate) frames: &'a [Frame],
    /// The line numbers in the labelled code at which each function of the program and its instructions begin.
    pub(crate) functions: &'a [FunctionLines],
    /// The line number at which the code of each instruction of the current function begins.
    pub(crate) lines: &'a [usize],
    pub(crate) function: usize,
}

impl<'a> Tables<'a> {
    /// Returns the frame of a function.
    pub(crate) fn frame(&self, function: usize) -> &'a Frame
        requires known { IsKnown self.now }
        requires function { function < length self.now.plain.now.functions }
        ensures value { result.now ≡ frame_at self.now.frames.now function }
        ensures return_address { result.now.return_address < MOST_FRAME_WORDS }
        ensures homes { AreReached result.now 0 (length result.now.homes) }
        ensures few { reload_count result.now ≤ MOST_BOTH }
        ensures saved { result.now.saved ≤ MOST_SAVED }
        ensures first_saved { result.now.first_saved ≤ MOST_FRAME_WORDS }
        ensures slots { AreReached result.now 0 (routine_at self.now.plain.now function).slots }
    {
        frame_in(self.plain, self.frames, function)
    }

    /// Returns the line number in the labelled code at which a function begins.
    pub(crate) fn start(&self, function: usize) -> usize
        requires known { IsKnown self.now }
        requires function { function < length self.now.plain.now.functions }
        ensures { result ≡ function_line self.now.plain.now self.now.frames.now function }
    {
        self.functions[function].first
    }

    /// Returns the line number in the labelled code at which an instruction begins.
    pub(crate) fn line(&self, index: usize) -> usize
        requires known { IsKnown self.now }
        requires index { index < length (routine_at self.now.plain.now self.now.function).code }
        ensures { result ≡ instruction_line self.now.plain.now self.now.frames.now self.now.function index }
    {
        self.lines[index]
    }

    /// Returns the number of result words of a function.
    pub(crate) fn results(&self, function: usize) -> usize
        requires known { IsKnown self.now }
        requires function { function < length self.now.plain.now.functions }
        ensures value { result ≡ (routine_at self.now.plain.now function).results }
        ensures few { result ≤ GREATEST_VALUE }
    {
        results_of(self.plain, function)
    }

    /// Returns true if the function is `main`.
    pub(crate) fn is_main(&self) -> bool
        ensures { result ≡ (self.now.function == self.now.plain.now.main) }
    {
        self.function == self.plain.main()
    }
}
