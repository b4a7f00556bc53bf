//! Emits the labelled code of a plain program.
ghost use Rattle.std.specs.Prelude.{◌≡◌, ℕ, ◌+◌, ◌<◌, ◌≤◌, ◌++◌, length, sum_by, IfOk, IfErr, OnOk};
ghost use Rattle.cyc_plain.specs.inside.Program.{routine_at};
ghost use Rattle.cyc_plain.specs.inside.WellFormed.{IsPlain};
ghost use Rattle.cyc_frame.specs.inside.Layout.{AreFrames, frame_at};
ghost use Rattle.cyc_select.specs.declared.constants.TheConstants.{START_LINES};
ghost use Rattle.cyc_words.specs.Fault.{memory_fault};
ghost use Rattle.cyc_select.specs.inside.Selected.{IsCodeOf};
ghost use Rattle.cyc_select.specs.inside.Slots.{saving_count};
ghost use Rattle.cyc_select.specs.inside.Counts.{function_line};
ghost use Rattle.cyc_select.specs.inside.Selection.{routine_lines, start_code, code_lines, function_lines, select_of};
ghost use Rattle.cyc_select.specs.inside.Emission.{AddsLines, IsKnown, IsReady};

use crate::code::{Code, Line};
use crate::constants::{FRAME, FRAME_SHIFT, GLOBALS, GLOBALS_MIDDLE, LOWEST};
use crate::counting::{frame_in, number_lines};
use crate::emitter::Emitter;
use crate::instructions::{load_upper, or_lower, push_frame};
use crate::operators::{arithmetic, shift_by};
use crate::tables::{FunctionLines, Ready, Tables};
use cyc_frame::Frames;
use cyc_isa::{ArithmeticOp, ShiftOp};
use cyc_machine_model::constants::ARGUMENT;
use cyc_plain::{Instruction, Plain};
use cyc_words::Fault;
use std::alloc::{AllocError, Global};

impl Emitter {
    /// Emits the start code, which loads the base register of the globals and calls `main` at this label. The frame of `main` lies below
    /// the end of the stack; the stack has space for the frames of all allowed calls.
    fn start(&mut self, label: usize) -> Result<(), AllocError>
        ensures { AddsLines result self.old self.new (start_code label) }
    {
        self.ordinary(&[
            load_upper(GLOBALS, GLOBALS_MIDDLE),
            or_lower(GLOBALS, GLOBALS_MIDDLE),
            shift_by(ShiftOp::Left, LOWEST, ARGUMENT, FRAME_SHIFT),
            arithmetic(ArithmeticOp::SubtractUnsigned, LOWEST, FRAME, LOWEST),
            push_frame(),
        ])?;
        self.line(Line::Jump { label })
    }

    /// Emits the MIPS lines of all instructions of a function.
    fn code(&mut self, tables: &Tables, code: &[Instruction]) -> Result<(), AllocError>
        requires known { IsKnown tables.now }
        requires code { code.now ≡ (routine_at tables.now.plain.now tables.now.function).code }
        ensures { AddsLines result self.old self.new (code_lines tables.now.plain.now tables.now.frames.now tables.now.function 0
            (function_line tables.now.plain.now tables.now.frames.now tables.now.function + saving_count
            (frame_at tables.now.frames.now tables.now.function)) code.now) }
    {
        for index in 0..code.len() {
            self.instruction(tables, index, code[index])?;
        }
        Ok(())
    }

    /// Emits the MIPS lines of a function: those at its entry, then those of its instructions.
    fn function(&mut self, program: &Ready, function: usize) -> Result<(), AllocError>
        requires ready { IsReady program.now }
        requires function { function < length program.now.plain.now.functions }
        ensures { AddsLines result self.old self.new (routine_lines program.now.plain.now program.now.frames.now function
            (function_line program.now.plain.now program.now.frames.now function) (routine_at program.now.plain.now function)) }
    {
        let routine = program.plain.function(function);
        let code = &routine.code;
        let frame = frame_in(program.plain, program.frames, function);
        let tables = Tables {
            plain: program.plain,
            frames: program.frames,
            functions: program.functions,
            lines: &program.functions[function].lines,
            function,
        };
        self.saving(frame)?;
        self.code(&tables, code)
    }

    /// Emits the MIPS lines of all functions of the program.
    fn functions(&mut self, program: &Ready) -> Result<(), AllocError>
        requires { IsReady program.now }
        ensures { AddsLines result self.old self.new (function_lines program.now.plain.now program.now.frames.now 0 START_LINES
            program.now.plain.now.functions) }
    {
        let count = program.plain.functions().len();
        for function in 0..count {
            self.function(program, function)?;
        }
        Ok(())
    }
}

/// Returns, for each function of a plain program, the line numbers of its instructions in the labelled code that `select` returns.
pub fn lines_of(
    alloc: Global,
    plain: &Plain,
    frames: &Frames,
) -> Result<Vec<FunctionLines>, AllocError>
    requires { AreFrames plain.now frames.now }
    ensures { IfOk result (λ lines. length lines.items ≡ length plain.now.functions) }
{
    let numbered = number_lines(alloc, plain, frames.as_slice())?;
    Ok(numbered.functions)
}

/// Returns the labelled code of a plain program, or an error if memory runs out.
fn selected(alloc: Global, plain: &Plain, frames: &Frames) -> Result<Code, AllocError>
    requires { AreFrames plain.now frames.now }
    ensures code { IfOk result (λ code. code ≡ select_of plain.now frames.now) }
    ensures plain { IfOk result (λ _. IsPlain plain.now) }
{
    let frames = frames.as_slice();
    let numbered = number_lines(alloc, plain, frames)?;
    let globals = Vec::from_slice(alloc, plain.globals())?;
    let main = plain.main();
    let mut emitter = Emitter::new(alloc, numbered.following)?;
    emitter.start(numbered.functions[main].first)?;
    emitter.functions(&Ready {
        plain,
        frames,
        functions: &numbered.functions,
    })?;
    Ok(Code::new(emitter.lines, globals))
}

/// Returns the labelled code of a plain program whose functions have these frames, as `layout` returns them.
///
/// The only error that `select` returns is lack of memory.
pub fn select(alloc: Global, plain: &Plain, frames: &Frames) -> Result<Code, Fault>
    requires { AreFrames plain.now frames.now }
    // Each MIPS line of the selected code is a line of the start code, or is assigned to one instruction of the program. The selected
    // code behaves as the plain program does.
    ensures selected { IfOk result (λ code. IsCodeOf plain.now code) }
    // The data range of the selected code begins with the program's globals.
    ensures globals { IfOk result (λ code. code.globals ≡ plain.now.globals) }
    ensures refused { IfErr result (λ fault. fault ≡ memory_fault) }
{
    Ok(selected(alloc, plain, frames)?)
}
