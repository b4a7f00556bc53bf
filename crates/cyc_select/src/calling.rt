//! Emits the MIPS lines of calls and returns, and of moves of several words.
ghost use Rattle.std.specs.Prelude.{◌≡◌, ◌+◌, ◌*◌, ◌<◌, ◌≤◌, [], ◌∷◌, ◌++◌, true, length, OnOk};
ghost use Rattle.cyc_select.specs.inside.Instructions.{load, store};
ghost use Rattle.cyc_select.specs.inside.Slots.{coming, load_all, load_words, store_all, saves, restores, way_code, saving_code, restoring_code};
ghost use Rattle.cyc_select.specs.inside.Passing.{pass, spill, spills, copies};
ghost use Rattle.cyc_select.specs.inside.Selection.{ordinary, moves, all_moved, move_words, calling_code, room_code, returned_code, ending_code};
ghost use Rattle.cyc_select.specs.inside.Selection.{returning_code};
ghost use Rattle.cyc_select.specs.inside.Emission.{AddsLines, IsReached, AreReached, most_lines};

use crate::code::Line;
use crate::constants::{FIRST_RESULT, FRAME, LOWEST, SECOND_RESULT, THIRD_RESULT, ZERO};
use crate::counting::way_count;
use crate::emitter::Emitter;
use crate::instructions::{
    load, load_slot, load_word, offset_of, pop_frame, push_frame, small, store, store_slot, syscall,
};
use crate::operands::{comes_by, is_kept, made_in, passed_from};
use cyc_frame::Frame;
use cyc_isa::{BranchOp, Instr};
use cyc_machine_model::constants::{ARGUMENT, END_FULL, END_RETURNED, RETURN_ADDRESS, SERVICE};
use cyc_plain::{GREATEST_VALUE, MOST_FRAME_WORDS, Operand};
use cyc_registers::{FIRST_PRESERVED, MOST_SAVED, is_crossing};
use std::alloc::AllocError;

/// The registers that hold the result words of a function or of a system call.
pub(crate) const RESULTS: [u8; 3] = [FIRST_RESULT, SECOND_RESULT, THIRD_RESULT];

/// Returns the instruction that saves the callee-saved register with this index among the callee-saved registers.
fn save(frame: &Frame, number: usize) -> Instr
    requires few { number < MOST_SAVED }
    requires inside { frame.now.first_saved ≤ MOST_FRAME_WORDS }
    ensures { result ≡ store (FIRST_PRESERVED + number) (4 * (frame.now.first_saved + number)) }
{
    store(
        FIRST_PRESERVED + number as u8,
        offset_of(frame.first_saved + number),
    )
}

/// Returns the instruction that restores the callee-saved register with this index among the callee-saved registers.
fn restore(frame: &Frame, number: usize) -> Instr
    requires few { number < MOST_SAVED }
    requires inside { frame.now.first_saved ≤ MOST_FRAME_WORDS }
    ensures { result ≡ load (FIRST_PRESERVED + number) (4 * (frame.now.first_saved + number)) }
{
    load(
        FIRST_PRESERVED + number as u8,
        offset_of(frame.first_saved + number),
    )
}

impl Emitter {
    /// Emits the MIPS lines that pass one argument from the caller's slot to the callee's, after the switch to the callee's frame. An
    /// argument passed from memory goes through the callee's register for it.
    fn argument(
        &mut self,
        caller: &Frame,
        callee: &Frame,
        source: usize,
        slot: usize,
    ) -> Result<(), AllocError>
        requires source { IsReached caller.now source }
        requires target { IsReached callee.now slot }
        ensures { AddsLines result self.old self.new (ordinary (pass caller.now (coming callee.now) source slot)) }
    {
        match passed_from(caller, callee, source, slot) {
            Some(register) => self.hand_coming(callee, register, slot),
            None => {
                let offset = offset_of(MOST_FRAME_WORDS) + offset_of(caller.first_slot + source);
                self.ordinary(&[load(comes_by(callee, slot), offset)])?;
                self.keep_coming(callee, slot)
            }
        }
    }

    /// If an argument is passed from memory and its slot is in a register only, emits the store of this slot in memory.
    fn spill(
        &mut self,
        caller: &Frame,
        callee: &Frame,
        source: usize,
        slot: usize,
    ) -> Result<(), AllocError>
        requires { IsReached caller.now source }
        ensures { AddsLines result self.old self.new (ordinary (spill caller.now (coming callee.now) source slot)) }
    {
        if let Some(_) = passed_from(caller, callee, source, slot) {
            return Ok(());
        }
        if is_kept(caller, source) {
            return Ok(());
        }
        self.ordinary(&[store_slot(caller, made_in(caller, source), source)])
    }

    /// Emits a store for each of `count` slots that is in a register only and is passed as an argument from memory.
    pub(crate) fn spills(
        &mut self,
        caller: &Frame,
        callee: &Frame,
        source: usize,
        count: usize,
    ) -> Result<(), AllocError>
        requires { AreReached caller.now source count }
        ensures { AddsLines result self.old self.new (ordinary (spills caller.now (coming callee.now) source 0 count)) }
    {
        for slot in 0..count {
            self.spill(caller, callee, source + slot, slot)?;
        }
        Ok(())
    }

    /// Emits the MIPS lines that pass the arguments from the caller's slots to the callee's first slots.
    fn arguments(
        &mut self,
        caller: &Frame,
        callee: &Frame,
        source: usize,
        count: usize,
    ) -> Result<(), AllocError>
        requires source { AreReached caller.now source count }
        requires target { AreReached callee.now 0 count }
        ensures { AddsLines result self.old self.new (ordinary (copies caller.now (coming callee.now) source 0 count)) }
    {
        for slot in 0..count {
            self.argument(caller, callee, source + slot, slot)?;
        }
        Ok(())
    }

    /// Emits the MIPS lines that end the run if the current frame is the lowest one allowed, so that no further call can be made.
    pub(crate) fn test_room(&mut self, here: usize) -> Result<(), AllocError>
        requires { here ≤ most_lines + MOST_FRAME_WORDS }
        ensures { AddsLines result self.old self.new (room_code here) }
    {
        self.branch(BranchOp::NotEqual, FRAME, LOWEST, here + 3)?;
        self.ordinary(&[small(SERVICE, END_FULL as u16), syscall()])
    }

    /// Emits the MIPS lines that call the function whose first line has this label.
    pub(crate) fn call(
        &mut self,
        caller: &Frame,
        callee: &Frame,
        here: usize,
        label: usize,
        arguments: usize,
        count: usize,
    ) -> Result<(), AllocError>
        requires fits { here ≤ most_lines + MOST_FRAME_WORDS }
        requires source { AreReached caller.now arguments count }
        requires target { AreReached callee.now 0 count }
        ensures { AddsLines result self.old self.new (calling_code caller.now (coming callee.now) here label arguments count) }
    {
        self.test_room(here)?;
        self.ordinary(&[push_frame()])?;
        self.arguments(caller, callee, arguments, count)?;
        self.line(Line::Call { label })
    }

    /// Emits the MIPS lines that write registers to the slots from `slot` on.
    fn store_all(&mut self, frame: &Frame, slot: usize, sources: &[u8]) -> Result<(), AllocError>
        requires { AreReached frame.now slot (length sources.now) }
        ensures { AddsLines result self.old self.new (ordinary (store_all frame.now slot sources.now)) }
    {
        let mut next = slot;
        for source in sources {
            self.ordinary(&[store_slot(frame, *source, next)])?;
            next += 1;
        }
        Ok(())
    }

    /// Emits the MIPS lines that load the slots from `slot` on into registers.
    fn load_all(&mut self, frame: &Frame, slot: usize, targets: &[u8]) -> Result<(), AllocError>
        requires { AreReached frame.now slot (length targets.now) }
        ensures { AddsLines result self.old self.new (ordinary (load_all frame.now slot targets.now)) }
    {
        let mut next = slot;
        for target in targets {
            self.ordinary(&[load_slot(frame, *target, next)])?;
            next += 1;
        }
        Ok(())
    }

    /// Emits the MIPS lines that load the slots from `slot` on, which are in memory only, into registers.
    fn load_words(&mut self, frame: &Frame, slot: usize, targets: &[u8]) -> Result<(), AllocError>
        requires { AreReached frame.now slot (length targets.now) }
        ensures { AddsLines result self.old self.new (ordinary (load_words frame.now slot targets.now)) }
    {
        let mut next = slot;
        for target in targets {
            self.ordinary(&[load_word(frame, *target, next)])?;
            next += 1;
        }
        Ok(())
    }

    /// Emits the MIPS lines that copy words from slots to slots, one by one.
    fn move_each(
        &mut self,
        frame: &Frame,
        destination: usize,
        source: usize,
        count: usize,
    ) -> Result<(), AllocError>
        requires source { AreReached frame.now source count }
        requires target { AreReached frame.now destination count }
        ensures { AddsLines result self.old self.new (ordinary (moves frame.now destination source count)) }
    {
        for word in 0..count {
            let from = Operand::Slot {
                number: source + word,
            };
            self.copy(frame, destination + word, from)?;
        }
        Ok(())
    }

    /// Emits the MIPS lines that copy words from slots to slots, loading all words before the first is written.
    fn move_all(
        &mut self,
        frame: &Frame,
        destination: usize,
        source: usize,
        count: usize,
    ) -> Result<(), AllocError>
        requires few { count ≤ GREATEST_VALUE }
        requires source { AreReached frame.now source count }
        requires target { AreReached frame.now destination count }
        ensures { AddsLines result self.old self.new (ordinary (all_moved frame.now destination source count)) }
    {
        self.load_words(frame, source, &RESULTS[..count])?;
        self.store_all(frame, destination, &RESULTS[..count])
    }

    /// Emits the MIPS lines that copy words from slots to slots.
    pub(crate) fn move_words(
        &mut self,
        frame: &Frame,
        destination: usize,
        source: usize,
        count: usize,
    ) -> Result<(), AllocError>
        requires few { count ≤ GREATEST_VALUE }
        requires source { AreReached frame.now source count }
        requires target { AreReached frame.now destination count }
        ensures { AddsLines result self.old self.new (move_words frame.now destination source count) }
    {
        if is_crossing(destination, source, count) {
            self.move_all(frame, destination, source, count)
        } else {
            self.move_each(frame, destination, source, count)
        }
    }

    /// Emits the MIPS lines that move the results of a call to the caller's slots.
    pub(crate) fn returned(
        &mut self,
        frame: &Frame,
        slot: usize,
        results: usize,
    ) -> Result<(), AllocError>
        requires few { results ≤ GREATEST_VALUE }
        requires target { AreReached frame.now slot results }
        requires homes { AreReached frame.now 0 (length frame.now.homes) }
        ensures { AddsLines result self.old self.new (returned_code frame.now slot results) }
    {
        self.bring_all(frame, true, slot, &RESULTS[..results])?;
        self.reloads(frame)
    }

    /// Emits the MIPS line that saves the return address in the frame, at the entry of a function that overwrites the return address
    /// register.
    fn keep_way(&mut self, frame: &Frame) -> Result<(), AllocError>
        requires { frame.now.return_address ≤ MOST_FRAME_WORDS }
        ensures { AddsLines result self.old self.new (ordinary (way_code frame.now)) }
    {
        if !frame.saves {
            return Ok(());
        }
        self.ordinary(&[store(RETURN_ADDRESS, offset_of(frame.return_address))])
    }

    /// Emits the MIPS lines that save in the frame the callee-saved registers that the function uses.
    fn saves(&mut self, frame: &Frame) -> Result<(), AllocError>
        requires few { frame.now.saved ≤ MOST_SAVED }
        requires inside { frame.now.first_saved ≤ MOST_FRAME_WORDS }
        ensures { AddsLines result self.old self.new (ordinary (saves frame.now)) }
    {
        for number in 0..frame.saved {
            self.ordinary(&[save(frame, number)])?;
        }
        Ok(())
    }

    /// Emits the MIPS lines that restore the callee-saved registers from the frame.
    fn restores(&mut self, frame: &Frame) -> Result<(), AllocError>
        requires few { frame.now.saved ≤ MOST_SAVED }
        requires inside { frame.now.first_saved ≤ MOST_FRAME_WORDS }
        ensures { AddsLines result self.old self.new (ordinary (restores frame.now)) }
    {
        for number in 0..frame.saved {
            self.ordinary(&[restore(frame, number)])?;
        }
        Ok(())
    }

    /// Emits the MIPS lines at a function's entry: they save registers, then load into registers the parameters that arrive in
    /// memory but have a callee-saved register.
    pub(crate) fn saving(&mut self, frame: &Frame) -> Result<(), AllocError>
        requires return_address { frame.now.return_address ≤ MOST_FRAME_WORDS }
        requires few { frame.now.saved ≤ MOST_SAVED }
        requires inside { frame.now.first_saved ≤ MOST_FRAME_WORDS }
        requires homes { AreReached frame.now 0 (length frame.now.homes) }
        ensures { AddsLines result self.old self.new (ordinary (saving_code frame.now)) }
    {
        self.keep_way(frame)?;
        self.saves(frame)?;
        self.arrivals(frame)
    }

    /// Emits the MIPS line that restores the return address from the frame when the function returns.
    fn restoring(&mut self, frame: &Frame) -> Result<(), AllocError>
        requires { frame.now.return_address ≤ MOST_FRAME_WORDS }
        ensures { AddsLines result self.old self.new (ordinary (restoring_code frame.now)) }
    {
        if !frame.saves {
            return Ok(());
        }
        self.ordinary(&[load(RETURN_ADDRESS, offset_of(frame.return_address))])
    }

    /// Emits the MIPS lines that end the run if the return is that of the first call of `main`.
    fn ending(
        &mut self,
        is_main: bool,
        frame: &Frame,
        here: usize,
        value: usize,
    ) -> Result<(), AllocError>
        requires fits { here ≤ most_lines + 1 }
        requires source { is_main ≡ true → IsReached frame.now value }
        ensures { AddsLines result self.old self.new (ending_code is_main frame.now here value) }
    {
        if !is_main {
            return Ok(());
        }
        self.branch(BranchOp::NotEqual, RETURN_ADDRESS, ZERO, here + 4)?;
        self.ordinary(&[
            load_slot(frame, ARGUMENT, value),
            small(SERVICE, END_RETURNED as u16),
            syscall(),
        ])
    }

    /// Emits a return.
    pub(crate) fn returning(
        &mut self,
        is_main: bool,
        frame: &Frame,
        here: usize,
        value: usize,
        results: usize,
    ) -> Result<(), AllocError>
        requires fits { here ≤ most_lines }
        requires return_address { frame.now.return_address ≤ MOST_FRAME_WORDS }
        requires few { results ≤ GREATEST_VALUE }
        requires saved { frame.now.saved ≤ MOST_SAVED }
        requires inside { frame.now.first_saved ≤ MOST_FRAME_WORDS }
        requires main { is_main ≡ true → IsReached frame.now value }
        requires source { AreReached frame.now value results }
        ensures { AddsLines result self.old self.new (returning_code is_main frame.now here value results) }
    {
        self.restoring(frame)?;
        self.ending(is_main, frame, here + way_count(frame), value)?;
        self.load_all(frame, value, &RESULTS[..results])?;
        self.restores(frame)?;
        self.ordinary(&[pop_frame()])?;
        self.line(Line::Return)
    }
}
