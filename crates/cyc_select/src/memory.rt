//! Emits the MIPS lines that load and store words of memory.
ghost use Rattle.std.specs.Prelude.{◌≡◌, ◌+◌, ◌≤◌, OnOk};
ghost use Rattle.cyc_select.specs.inside.Operands.{far_plan, address_code, address_register, near_half, at_address, address_count};
ghost use Rattle.cyc_select.specs.inside.Selection.{ordinary, address_of, load_at, store_at};
ghost use Rattle.cyc_select.specs.inside.Emission.{AddsLines, IsReached, IsFound};

use crate::constants::{FIRST, FRAME, SECOND};
use crate::emitter::Emitter;
use crate::instructions::{add_immediate, offset_of, register};
use crate::numbers::fits_signed;
use crate::operands::{made_in, operand_count, operand_register};
use crate::operators::count_of_operation;
use crate::plan::far_plan;
use cyc_frame::Frame;
use cyc_isa::{Instr, MemoryOp};
use cyc_plain::Operand;
use std::alloc::AllocError;

/// Returns the register to which the offset in a load or store instruction is added.
fn address_register(frame: &Frame, address: Operand, offset: u32) -> u8
    ensures { result ≡ address_register frame.now address offset }
{
    if fits_signed(offset) {
        operand_register(frame, FIRST, address)
    } else {
        FIRST
    }
}

/// Returns the 16-bit offset in a load or store instruction: the given offset, or 0 if the given offset is too large for the instruction.
fn near_half(offset: u32) -> u16
    ensures { result ≡ near_half offset }
{
    if fits_signed(offset) {
        (offset % 0x1_0000) as u16
    } else {
        0
    }
}

/// Returns the instruction that loads a word of memory into a register or stores one from a register.
fn at_address(frame: &Frame, op: MemoryOp, target: u8, address: Operand, offset: u32) -> Instr
    ensures { result ≡ at_address frame.now op target address offset }
{
    Instr::Memory {
        op,
        target: register(target),
        base: register(address_register(frame, address, offset)),
        offset: near_half(offset),
    }
}

/// Returns the number of MIPS lines that compute the address of a load or store.
pub(crate) fn address_count(frame: &Frame, address: Operand, offset: u32) -> usize
    ensures value { result ≡ address_count frame.now address offset }
    ensures few { result ≤ 6 }
{
    if fits_signed(offset) {
        operand_count(frame, address)
    } else {
        count_of_operation(frame, far_plan(address, offset))
    }
}

impl Emitter {
    /// Emits the MIPS lines that compute an address in a register. The lines that compute an address do not add an
    /// offset that fits the load or store instruction itself.
    fn address(&mut self, frame: &Frame, address: Operand, offset: u32) -> Result<(), AllocError>
        requires { IsFound frame.now address }
        ensures { AddsLines result self.old self.new (ordinary (address_code frame.now address offset)) }
    {
        if fits_signed(offset) {
            return self.operand(frame, FIRST, address);
        }
        self.operation_of(frame, FIRST, far_plan(address, offset))
    }

    /// Emits the MIPS lines that write the address of a slot to another slot.
    pub(crate) fn address_of(
        &mut self,
        frame: &Frame,
        destination: usize,
        slot: usize,
    ) -> Result<(), AllocError>
        requires target { IsReached frame.now destination }
        requires source { IsReached frame.now slot }
        ensures { AddsLines result self.old self.new (address_of frame.now destination slot) }
    {
        let target = made_in(frame, destination);
        let offset = offset_of(frame.first_slot + slot);
        self.ordinary(&[add_immediate(target, FRAME, offset)])?;
        self.keep(frame, destination)
    }

    /// Emits the MIPS lines that load a word or a byte of memory into a slot.
    pub(crate) fn load_at(
        &mut self,
        frame: &Frame,
        op: MemoryOp,
        destination: usize,
        address: Operand,
        offset: u32,
    ) -> Result<(), AllocError>
        requires target { IsReached frame.now destination }
        requires address { IsFound frame.now address }
        ensures { AddsLines result self.old self.new (load_at frame.now op destination address offset) }
    {
        let target = made_in(frame, destination);
        self.address(frame, address, offset)?;
        self.ordinary(&[at_address(frame, op, target, address, offset)])?;
        self.keep(frame, destination)
    }

    /// Emits the MIPS lines that store an operand to a word or a byte of memory.
    pub(crate) fn store_at(
        &mut self,
        frame: &Frame,
        op: MemoryOp,
        address: Operand,
        offset: u32,
        source: Operand,
    ) -> Result<(), AllocError>
        requires address { IsFound frame.now address }
        requires source { IsFound frame.now source }
        ensures { AddsLines result self.old self.new (store_at frame.now op address offset source) }
    {
        self.address(frame, address, offset)?;
        self.operand(frame, SECOND, source)?;
        let from = operand_register(frame, SECOND, source);
        self.ordinary(&[at_address(frame, op, from, address, offset)])
    }
}
