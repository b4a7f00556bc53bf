//! Emits the MIPS lines of exception handlers and of thrown exceptions.
ghost use Rattle.std.specs.Prelude.{◌≡◌, suc, ◌+◌, ◌*◌, ◌<◌, ◌≤◌, [], ◌∷◌, length, OnOk};
ghost use Rattle.cyc_plain.specs.declared.limits.TheConstants.{RECORD_WORDS};
ghost use Rattle.cyc_registers.specs.declared.home.TheConstants.{MOST_BOTH};
ghost use Rattle.cyc_select.specs.inside.Instructions.{load, store_slot, slot_offset};
ghost use Rattle.cyc_select.specs.inside.Operands.{reload_count};
ghost use Rattle.cyc_select.specs.inside.Selection.{ordinary, load_record, recorded_code, caught_code, opened_code, try_code, unwound_code, throw_code};
ghost use Rattle.cyc_select.specs.inside.Emission.{AddsLines, IsFound, AreReached, most_lines};

use crate::code::Line;
use crate::constants::{FRAME, HANDLERS, ZERO};
use crate::emitter::Emitter;
use crate::instructions::{
    add_immediate, load_word, offset_of, register, small, store_slot, syscall,
};
use crate::operands::{load_count, reload_count};
use cyc_frame::Frame;
use cyc_isa::{BranchOp, Instr, MemoryOp};
use cyc_machine_model::constants::{
    ARGUMENT, END_UNCAUGHT, RETURN_ADDRESS, SECOND_ARGUMENT, SERVICE,
};
use cyc_plain::{Operand, RECORD_WORDS};
use std::alloc::AllocError;

/// Returns the instruction that loads a word of the newest handler's record into a register.
fn load_record(target: u8, offset: u16) -> Instr
    ensures { result ≡ load_record target offset }
{
    Instr::Memory {
        op: MemoryOp::LoadWord,
        target: register(target),
        base: register(HANDLERS),
        offset,
    }
}

impl Emitter {
    /// Emits the MIPS lines that fill the fields of a handler's record, except the line at which an exception arrives.
    fn recorded(&mut self, frame: &Frame, first: usize) -> Result<(), AllocError>
        requires { AreReached frame.now first RECORD_WORDS }
        ensures { AddsLines result self.old self.new (ordinary (recorded_code frame.now first)) }
    {
        self.ordinary(&[
            store_slot(frame, HANDLERS, first),
            store_slot(frame, FRAME, first + 1),
        ])
    }

    /// Emits the MIPS lines that store an exception's tag and value in the record of the handler that it reaches.
    fn landed(&mut self, frame: &Frame, first: usize) -> Result<(), AllocError>
        requires { AreReached frame.now first RECORD_WORDS }
        ensures { AddsLines result self.old self.new (ordinary (store_slot frame.now ARGUMENT first ∷ store_slot frame.now SECOND_ARGUMENT (suc first) ∷ [])) }
    {
        self.ordinary(&[
            store_slot(frame, ARGUMENT, first),
            store_slot(frame, SECOND_ARGUMENT, first + 1),
        ])
    }

    /// Emits the MIPS lines at which an exception arrives at a handler.
    fn caught(&mut self, frame: &Frame, first: usize) -> Result<(), AllocError>
        requires target { AreReached frame.now first RECORD_WORDS }
        requires homes { AreReached frame.now 0 (length frame.now.homes) }
        ensures { AddsLines result self.old self.new (ordinary (caught_code frame.now first)) }
    {
        self.landed(frame, first)?;
        self.reloads(frame)
    }

    /// Emits the MIPS lines that store in a handler's record the address at which an exception arrives, and make the record the newest one.
    fn opened(&mut self, frame: &Frame, first: usize) -> Result<(), AllocError>
        requires { AreReached frame.now first RECORD_WORDS }
        ensures { AddsLines result self.old self.new (ordinary (opened_code frame.now first)) }
    {
        self.ordinary(&[
            store_slot(frame, RETURN_ADDRESS, first + 2),
            add_immediate(HANDLERS, FRAME, offset_of(frame.first_slot + first)),
        ])
    }

    /// Emits the MIPS lines that open an exception handler; the label is the number of the handler's first line.
    pub(crate) fn open_handler(
        &mut self,
        frame: &Frame,
        here: usize,
        first: usize,
        label: usize,
    ) -> Result<(), AllocError>
        requires fits { here ≤ most_lines }
        requires target { AreReached frame.now first RECORD_WORDS }
        requires homes { AreReached frame.now 0 (length frame.now.homes) }
        requires few { reload_count frame.now ≤ MOST_BOTH }
        ensures { AddsLines result self.old self.new (try_code frame.now here first label) }
    {
        self.recorded(frame, first)?;
        self.line(Line::Call {
            label: here + 6 + reload_count(frame),
        })?;
        self.caught(frame, first)?;
        self.line(Line::Jump { label })?;
        self.opened(frame, first)
    }

    /// Emits the MIPS line that closes the handler with this record.
    pub(crate) fn leave(&mut self, frame: &Frame, first: usize) -> Result<(), AllocError>
        requires target { AreReached frame.now first RECORD_WORDS }
        ensures { AddsLines result self.old self.new (ordinary (load HANDLERS (slot_offset frame.now first) ∷ [])) }
    {
        self.ordinary(&[load_word(frame, HANDLERS, first)])
    }

    /// Emits the MIPS lines that restore the frame of the call whose handler is the newest.
    fn unwound(&mut self) -> Result<(), AllocError>
        ensures { AddsLines result self.old self.new (ordinary unwound_code) }
    {
        self.ordinary(&[
            load_record(RETURN_ADDRESS, 8),
            load_record(FRAME, 4),
            load_record(HANDLERS, 0),
        ])
    }

    /// Emits the MIPS lines that throw an exception.
    pub(crate) fn throw(
        &mut self,
        frame: &Frame,
        here: usize,
        tag: Operand,
        value: Operand,
    ) -> Result<(), AllocError>
        requires fits { here ≤ most_lines }
        requires tag { IsFound frame.now tag }
        requires value { IsFound frame.now value }
        ensures { AddsLines result self.old self.new (throw_code frame.now here tag value) }
    {
        self.load(frame, ARGUMENT, tag)?;
        self.load(frame, SECOND_ARGUMENT, value)?;
        let label = here + (load_count(tag) + load_count(value)) + 3;
        self.branch(BranchOp::NotEqual, HANDLERS, ZERO, label)?;
        self.ordinary(&[small(SERVICE, END_UNCAUGHT as u16), syscall()])?;
        self.unwound()?;
        self.line(Line::Return)
    }
}
