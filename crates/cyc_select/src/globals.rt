//! Access to globals. The first globals are reached from a base register; each other one needs the upper half of its address in a register.
ghost use Rattle.std.specs.Prelude.{◌≡◌, ◌<◌};
ghost use Rattle.cyc_select.specs.inside.Slots.{is_near, upper_of_global, reach_code, at_global};
ghost use Rattle.cyc_select.specs.inside.Operands.{reach_count};
ghost use Rattle.cyc_select.specs.inside.Selection.{ordinary, load_global, store_global};
ghost use Rattle.cyc_select.specs.inside.Emission.{AddsLines, IsReached, IsFound};

use crate::constants::{FIRST, GLOBALS, NEAR_GLOBALS, SECOND};
use crate::emitter::Emitter;
use crate::instructions::register;
use crate::operands::{made_in, operand_register};
use cyc_frame::Frame;
use cyc_isa::{Instr, MemoryOp};
use cyc_machine_model::constants::DATA_BASE;
use cyc_plain::{MOST_GLOBALS, Operand};
use std::alloc::AllocError;

/// Returns true if a global is reached from the base register.
fn is_near(global: usize) -> bool
    ensures { result ≡ is_near global }
{
    global < NEAR_GLOBALS
}

/// Returns the number of instructions that load the base address for a global: 0 if a register holds it.
pub(crate) fn reach_count(global: usize) -> usize
    ensures { result ≡ reach_count global }
{
    if is_near(global) { 0 } else { 1 }
}

/// Returns the instruction that loads the upper half of a global's address, to which a sign-extended offset is added.
fn upper_of_global(global: usize) -> Instr
    requires { global < MOST_GLOBALS }
    ensures { result ≡ upper_of_global global }
{
    let address = DATA_BASE + 4 * global as u32;
    Instr::LoadUpper {
        target: register(SECOND),
        immediate: ((address + 0x8000) / 0x1_0000) as u16,
    }
}

/// Returns the instruction that loads or stores a global whose base address is in a register.
fn at_global(op: MemoryOp, target: u8, global: usize) -> Instr
    requires { global < MOST_GLOBALS }
    ensures { result ≡ at_global op target global }
{
    let address = DATA_BASE + 4 * global as u32;
    let (base, from) = if is_near(global) {
        (GLOBALS, address + 0x8000)
    } else {
        (SECOND, address)
    };
    Instr::Memory {
        op,
        target: register(target),
        base: register(base),
        offset: (from % 0x1_0000) as u16,
    }
}

impl Emitter {
    /// Emits the load of the base address for a global, if no register holds this address.
    fn reach(&mut self, global: usize) -> Result<(), AllocError>
        requires { global < MOST_GLOBALS }
        ensures { AddsLines result self.old self.new (ordinary (reach_code global)) }
    {
        if is_near(global) {
            Ok(())
        } else {
            self.ordinary(&[upper_of_global(global)])
        }
    }

    /// Emits the MIPS lines that load a global into a slot.
    pub(crate) fn load_global(
        &mut self,
        frame: &Frame,
        destination: usize,
        global: usize,
    ) -> Result<(), AllocError>
        requires global { global < MOST_GLOBALS }
        requires target { IsReached frame.now destination }
        ensures { AddsLines result self.old self.new (load_global frame.now destination global) }
    {
        let target = made_in(frame, destination);
        self.reach(global)?;
        self.ordinary(&[at_global(MemoryOp::LoadWord, target, global)])?;
        self.keep(frame, destination)
    }

    /// Emits the MIPS lines that store an operand in a global.
    pub(crate) fn store_global(
        &mut self,
        frame: &Frame,
        global: usize,
        source: Operand,
    ) -> Result<(), AllocError>
        requires global { global < MOST_GLOBALS }
        requires source { IsFound frame.now source }
        ensures { AddsLines result self.old self.new (store_global frame.now global source) }
    {
        self.operand(frame, FIRST, source)?;
        self.reach(global)?;
        self.ordinary(&[at_global(
            MemoryOp::StoreWord,
            operand_register(frame, FIRST, source),
            global,
        )])
    }
}
