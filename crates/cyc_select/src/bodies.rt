//! Emits the MIPS lines of each instruction of the plain program.
ghost use Rattle.std.specs.Prelude.{◌≡◌, ◌+◌, ◌<◌, ◌≤◌, ◌++◌, OnOk, length};
ghost use Rattle.cyc_plain.specs.inside.Program.{routine_at};
ghost use Rattle.cyc_plain.specs.inside.WellFormed.{IsInRange};
ghost use Rattle.cyc_select.specs.inside.Counts.{instruction_line};
ghost use Rattle.cyc_select.specs.inside.Selection.{body, following, place_lines};
ghost use Rattle.cyc_select.specs.inside.Emission.{AddsLines, IsKnown, most_lines};

use crate::code::Line;
use crate::counting::{code_of, is_idle, spills_count};
use crate::emitter::Emitter;
use crate::hoisting::hoisted;
use crate::operators::Parts;
use crate::plan::{test_of, unary_plan};
use crate::tables::Tables;
use cyc_isa::MemoryOp;
use cyc_plain::Instruction;
use std::alloc::AllocError;

impl Emitter {
    /// Emits the MIPS lines of a plain instruction, without those executed after a call returns; the first line has the line number `here`.
    fn body(
        &mut self,
        tables: &Tables,
        here: usize,
        instruction: Instruction,
    ) -> Result<(), AllocError>
        requires known { IsKnown tables.now }
        requires in_range { IsInRange tables.now.plain.now (routine_at tables.now.plain.now tables.now.function) instruction }
        requires fits { here ≤ most_lines }
        ensures { AddsLines result self.old self.new (body tables.now.plain.now tables.now.frames.now tables.now.function here instruction) }
    {
        let frame = tables.frame(tables.function);
        match instruction {
            Instruction::Move {
                destination,
                source,
            } => self.copy(frame, destination, source),
            Instruction::Unary {
                operator,
                destination,
                operand,
            } => self.plan(frame, unary_plan(operator, operand), destination),
            Instruction::Binary {
                operator,
                destination,
                left,
                right,
            } => self.binary(
                frame,
                here,
                operator,
                Parts {
                    destination,
                    left,
                    right,
                },
            ),
            Instruction::Jump { target } => self.line(Line::Jump {
                label: tables.line(target),
            }),
            Instruction::Branch {
                comparison,
                left,
                right,
                target,
            } => {
                let test = test_of(comparison, left, right);
                let code = code_of(tables.plain, tables.function);
                let first = hoisted(frame, code, test, target);
                self.branch_where(frame, test, first, tables.line(target))
            }
            Instruction::Call {
                function,
                arguments,
                count,
                ..
            } => {
                let callee = tables.frame(function);
                let label = tables.start(function);
                let spilled = here + spills_count(frame, callee, arguments, count);
                self.spills(frame, callee, arguments, count)?;
                self.call(frame, callee, spilled, label, arguments, count)
            }
            Instruction::Return { value } => {
                let results = tables.results(tables.function);
                self.returning(tables.is_main(), frame, here, value, results)
            }
            Instruction::ReadByte { destination } => self.read_byte(frame, destination),
            Instruction::WriteByte { source } => self.write_byte(frame, source),
            Instruction::LoadGlobal {
                destination,
                global,
            } => self.load_global(frame, destination, global),
            Instruction::StoreGlobal { global, source } => self.store_global(frame, global, source),
            Instruction::Ask { request } => self.ask(frame, request),
            Instruction::CountLexical { destination } => self.count_lexical(frame, destination),
            Instruction::Try { first, handler } => {
                self.open_handler(frame, here, first, tables.line(handler))
            }
            Instruction::Leave { first } => self.leave(frame, first),
            Instruction::Throw { tag, value } => self.throw(frame, here, tag, value),
            Instruction::Finish { value } => {
                let results = tables.results(tables.function);
                self.returning(tables.is_main(), frame, here, value, results)
            }
            Instruction::Uncaught { tag, value } => self.uncaught(frame, tag, value),
            Instruction::MoveWords {
                destination,
                source,
                count,
            } => self.move_words(frame, destination, source, count),
            Instruction::AddressOf {
                destination,
                slot,
                ..
            } => self.address_of(frame, destination, slot),
            Instruction::Load {
                destination,
                address,
                offset,
            } => self.load_at(frame, MemoryOp::LoadWord, destination, address, offset),
            Instruction::Store {
                address,
                offset,
                source,
            } => self.store_at(frame, MemoryOp::StoreWord, address, offset, source),
            Instruction::LoadByte {
                destination,
                address,
                offset,
            } => self.load_at(frame, MemoryOp::LoadByte, destination, address, offset),
            Instruction::StoreByte {
                address,
                offset,
                source,
            } => self.store_at(frame, MemoryOp::StoreByte, address, offset, source),
            Instruction::Enter { .. } => self.test_room(here),
        }
    }

    /// Emits the MIPS lines that follow a call and are executed after it returns.
    fn following(&mut self, tables: &Tables, instruction: Instruction) -> Result<(), AllocError>
        requires known { IsKnown tables.now }
        requires in_range { IsInRange tables.now.plain.now (routine_at tables.now.plain.now tables.now.function) instruction }
        ensures { AddsLines result self.old self.new (following tables.now.plain.now tables.now.frames.now tables.now.function instruction) }
    {
        let frame = tables.frame(tables.function);
        match instruction {
            Instruction::Call {
                function,
                result,
                ..
            } => self.returned(frame, result, tables.results(function)),
            _ => Ok(()),
        }
    }

    /// Emits all MIPS lines of the plain instruction at `index`, including those executed after a call returns.
    pub(crate) fn instruction(
        &mut self,
        tables: &Tables,
        index: usize,
        instruction: Instruction,
    ) -> Result<(), AllocError>
        requires known { IsKnown tables.now }
        requires in_range { IsInRange tables.now.plain.now (routine_at tables.now.plain.now tables.now.function) instruction }
        requires index { index < length (routine_at tables.now.plain.now tables.now.function).code }
        ensures { AddsLines result self.old self.new (place_lines tables.now.plain.now tables.now.frames.now tables.now.function index
            (instruction_line tables.now.plain.now tables.now.frames.now tables.now.function index) instruction
            ++ following tables.now.plain.now tables.now.frames.now tables.now.function instruction) }
    {
        if !is_idle(tables.frame(tables.function), index, instruction) {
            self.body(tables, tables.line(index), instruction)?;
        }
        self.following(tables, instruction)
    }
}
