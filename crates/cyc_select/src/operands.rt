//! Emits the MIPS lines that load an operand into a register.
ghost use Rattle.std.specs.Prelude.{◌≡◌, ◌≤◌, length, OnOk};
ghost use Rattle.cyc_registers.specs.inside.Interference.{home_of, both_count, saved_count};
ghost use Rattle.cyc_registers.specs.declared.home.TheConstants.{MOST_BOTH, MOST_SAVED};
ghost use Rattle.cyc_select.specs.inside.Slots.{coming, coming_home, arriving_home, arriving, arrivals, value_register, is_kept, made_in, keep_code};
ghost use Rattle.cyc_select.specs.inside.Slots.{give_code, is_own, hand_code, bring_code, bring_all, reload, reloads, arrival_count};
ghost use Rattle.cyc_select.specs.inside.Operands.{keep_count, give_count, hand_count, move_count, reload_count, word_code, load_code, operand_code};
ghost use Rattle.cyc_select.specs.inside.Operands.{operand_register, word_count, load_count, operand_count};
ghost use Rattle.cyc_select.specs.inside.Passing.{is_taken, passed_from};
ghost use Rattle.cyc_select.specs.inside.Selection.{ordinary};
ghost use Rattle.cyc_select.specs.inside.Emission.{AddsLines, IsReached, AreReached, IsFound};

use crate::constants::{FIRST, ZERO};
use crate::emitter::Emitter;
use crate::instructions::{
    copy, load_slot, load_upper, load_word, or_immediate, or_lower, small, store_slot,
};
use crate::numbers::{fits_signed, is_zero_word};
use cyc_frame::Frame;
use cyc_plain::Operand;
use cyc_registers::{FIRST_PRESERVED, Home};
use std::alloc::AllocError;

/// Returns the home of a slot: a register, memory, or both.
fn home(frame: &Frame, slot: usize) -> Home
    ensures { result ≡ home_of frame.now.homes slot }
{
    match frame.homes.get(slot) {
        Some(home) => *home,
        None => Home::Memory,
    }
}

/// Returns the register of a slot, if it has one.
pub(crate) fn value_register(frame: &Frame, slot: usize) -> Option<u8>
    ensures { result ≡ value_register frame.now slot }
{
    match home(frame, slot) {
        Home::Memory => None,
        Home::Both { register } | Home::Register { register } => Some(register),
    }
}

/// Returns true if a slot's value is also in its word of the frame, so that its home includes memory.
pub(crate) fn is_kept(frame: &Frame, slot: usize) -> bool
    ensures { result ≡ is_kept frame.now slot }
{
    match home(frame, slot) {
        Home::Memory | Home::Both { .. } => true,
        Home::Register { .. } => false,
    }
}

/// Returns the register in which a slot's word is computed: the slot's own, or else a temporary.
pub(crate) fn made_in(frame: &Frame, slot: usize) -> u8
    ensures { result ≡ made_in frame.now slot }
{
    match value_register(frame, slot) {
        Some(register) => register,
        None => FIRST,
    }
}

/// Returns the home (register or memory) in which callers pass a parameter whose own home is `home`: memory if
/// the home's register is callee-saved.
fn coming_home(home: Home) -> Home
    ensures { result ≡ coming_home home }
{
    match home {
        Home::Both { register } | Home::Register { register } if register >= FIRST_PRESERVED => {
            Home::Memory
        }
        _ => home,
    }
}

/// Returns the home in which the parameter with this slot arrives: a register, memory, or both.
fn home_coming(callee: &Frame, slot: usize) -> Home
    ensures { result ≡ home_of (coming callee.now).homes slot }
{
    coming_home(home(callee, slot))
}

/// Returns the home with a parameter's register if the parameter arrives in memory and is loaded into this
/// register at the function's entry.
fn arriving_home(home: Home) -> Home
    ensures { result ≡ arriving_home home }
{
    match home {
        Home::Both { register } | Home::Register { register } if register >= FIRST_PRESERVED => {
            Home::Both { register }
        }
        _ => Home::Memory,
    }
}

/// Returns the home into which the slot is loaded at the function's entry, if the slot is a parameter.
fn home_arriving(frame: &Frame, slot: usize) -> Home
    ensures { result ≡ home_of (arriving frame.now) slot }
{
    if slot >= frame.parameters {
        return Home::Memory;
    }
    arriving_home(home(frame, slot))
}

/// Returns the register in which a parameter arrives, if it arrives in one.
fn register_coming(callee: &Frame, slot: usize) -> Option<u8>
    ensures { result ≡ value_register (coming callee.now) slot }
{
    match home_coming(callee, slot) {
        Home::Memory => None,
        Home::Both { register } | Home::Register { register } => Some(register),
    }
}

/// Returns true if a parameter arrives in memory, in addition to a register or not.
fn is_kept_coming(callee: &Frame, slot: usize) -> bool
    ensures { result ≡ is_kept (coming callee.now) slot }
{
    match home_coming(callee, slot) {
        Home::Memory | Home::Both { .. } => true,
        Home::Register { .. } => false,
    }
}

/// Returns the register through which an argument is passed: the one in which it arrives, or a temporary.
pub(crate) fn comes_by(callee: &Frame, slot: usize) -> u8
    ensures { result ≡ made_in (coming callee.now) slot }
{
    match register_coming(callee, slot) {
        Some(register) => register,
        None => FIRST,
    }
}

/// Returns true if one of the arguments before `slot` is passed through this register.
fn is_taken(callee: &Frame, slot: usize, register: u8) -> bool
    ensures { result ≡ is_taken (coming callee.now) slot register }
{
    let mut taken = false;
    for parameter in 0..slot {
        taken = taken || comes_by(callee, parameter) == register;
    }
    taken
}

/// Returns the register from which an argument is passed, or `None` if it is passed from memory.
pub(crate) fn passed_from(caller: &Frame, callee: &Frame, source: usize, slot: usize) -> Option<u8>
    ensures { result ≡ passed_from caller.now (coming callee.now) source slot }
{
    match value_register(caller, source) {
        Some(register) => {
            if is_taken(callee, slot, register) {
                None
            } else {
                Some(register)
            }
        }
        None => None,
    }
}

/// Returns the register of an operand: its slot's own, or `register` if the operand must be loaded.
pub(crate) fn operand_register(frame: &Frame, register: u8, operand: Operand) -> u8
    ensures { result ≡ operand_register frame.now register operand }
{
    match operand {
        Operand::Slot { number } => match value_register(frame, number) {
            Some(own) => own,
            None => register,
        },
        Operand::Word { .. } => {
            if is_zero_word(operand) {
                ZERO
            } else {
                register
            }
        }
    }
}

/// Returns the number of MIPS lines that store a slot's word in the frame.
pub(crate) fn keep_count(frame: &Frame, slot: usize) -> usize
    ensures value { result ≡ keep_count frame.now slot }
    ensures few { result ≤ 1 }
{
    if is_kept(frame, slot) { 1 } else { 0 }
}

/// Returns the number of MIPS lines that write a register to a slot.
pub(crate) fn give_count(frame: &Frame, slot: usize) -> usize
    ensures value { result ≡ give_count frame.now slot }
    ensures few { result ≤ 2 }
{
    match value_register(frame, slot) {
        Some(_) => keep_count(frame, slot) + 1,
        None => 1,
    }
}

/// Returns the number of MIPS lines that store an argument in the callee's frame: 0 if callers pass this argument in a register only.
pub(crate) fn keep_coming_count(callee: &Frame, slot: usize) -> usize
    ensures value { result ≡ keep_count (coming callee.now) slot }
    ensures few { result ≤ 1 }
{
    if is_kept_coming(callee, slot) { 1 } else { 0 }
}

fn is_own_coming(callee: &Frame, source: u8, slot: usize) -> bool
    ensures { result ≡ is_own (value_register (coming callee.now) slot) source }
{
    match register_coming(callee, slot) {
        Some(own) => own == source,
        None => false,
    }
}

/// Returns the number of MIPS lines that write a register to the callee's slot for an argument.
pub(crate) fn hand_coming_count(callee: &Frame, source: u8, slot: usize) -> usize
    ensures value { result ≡ hand_count (coming callee.now) source slot }
    ensures few { result ≤ 2 }
{
    if is_own_coming(callee, source, slot) {
        keep_coming_count(callee, slot)
    } else {
        give_coming_count(callee, slot)
    }
}

fn give_coming_count(callee: &Frame, slot: usize) -> usize
    ensures value { result ≡ give_count (coming callee.now) slot }
    ensures few { result ≤ 2 }
{
    match register_coming(callee, slot) {
        Some(_) => keep_coming_count(callee, slot) + 1,
        None => 1,
    }
}

fn both_count(home: Home) -> usize
    ensures value { result ≡ both_count home }
    ensures few { result ≤ 1 }
{
    match home {
        Home::Memory | Home::Register { .. } => 0,
        Home::Both { .. } => 1,
    }
}

fn saved_count(home: Home) -> usize
    ensures value { result ≡ saved_count home }
    ensures few { result ≤ 1 }
{
    match home {
        Home::Both { register } | Home::Register { register } if register >= FIRST_PRESERVED => 1,
        _ => 0,
    }
}

/// Returns the number of MIPS lines that load parameters into callee-saved registers.
pub(crate) fn arrival_count(frame: &Frame) -> usize
    requires { arrival_count frame.now ≤ MOST_SAVED }
    ensures { result ≡ arrival_count frame.now }
{
    let mut count = 0;
    for slot in 0..frame.parameters {
        count += saved_count(home(frame, slot));
    }
    count
}

/// Returns the number of MIPS lines that reload the registers of slots whose word is also in memory.
pub(crate) fn reload_count(frame: &Frame) -> usize
    requires { reload_count frame.now ≤ MOST_BOTH }
    ensures { result ≡ reload_count frame.now }
{
    let mut count = 0;
    for slot in 0..frame.homes.len() {
        count += both_count(home(frame, slot));
    }
    count
}

pub(crate) fn word_count(word: u32) -> usize
    ensures value { result ≡ word_count word }
    ensures few { result ≤ 2 }
{
    if fits_signed(word) || word < 0x1_0000 || word % 0x1_0000 == 0 {
        1
    } else {
        2
    }
}

/// Returns the number of MIPS lines that load an operand into a given register.
pub(crate) fn load_count(operand: Operand) -> usize
    ensures value { result ≡ load_count operand }
    ensures few { result ≤ 2 }
{
    match operand {
        Operand::Slot { .. } => 1,
        Operand::Word { word } => word_count(word),
    }
}

/// Returns the number of MIPS lines that make an operand available in a register.
pub(crate) fn operand_count(frame: &Frame, operand: Operand) -> usize
    ensures value { result ≡ operand_count frame.now operand }
    ensures few { result ≤ 2 }
{
    match operand {
        Operand::Slot { number } => match value_register(frame, number) {
            Some(_) => 0,
            None => 1,
        },
        Operand::Word { word } => {
            if is_zero_word(operand) {
                0
            } else {
                word_count(word)
            }
        }
    }
}

/// Returns the number of MIPS lines that copy an operand into a slot.
pub(crate) fn move_count(frame: &Frame, destination: usize, source: Operand) -> usize
    ensures value { result ≡ move_count frame.now destination source }
    ensures few { result ≤ 3 }
{
    match value_register(frame, destination) {
        Some(_) => load_count(source) + keep_count(frame, destination),
        None => operand_count(frame, source) + 1,
    }
}

impl Emitter {
    /// Emits the MIPS lines that load a constant word into a register.
    pub(crate) fn word(&mut self, target: u8, word: u32) -> Result<(), AllocError>
        ensures { AddsLines result self.old self.new (ordinary (word_code target word)) }
    {
        if fits_signed(word) {
            return self.ordinary(&[small(target, (word % 0x1_0000) as u16)]);
        }
        if word < 0x1_0000 {
            return self.ordinary(&[or_immediate(target, word as u16)]);
        }
        if word % 0x1_0000 == 0 {
            return self.ordinary(&[load_upper(target, word)]);
        }
        self.ordinary(&[load_upper(target, word), or_lower(target, word)])
    }

    /// Emits the MIPS lines that load an operand into a register.
    pub(crate) fn load(
        &mut self,
        frame: &Frame,
        target: u8,
        operand: Operand,
    ) -> Result<(), AllocError>
        requires { IsFound frame.now operand }
        ensures { AddsLines result self.old self.new (ordinary (load_code frame.now target operand)) }
    {
        match operand {
            Operand::Slot { number } => self.ordinary(&[load_slot(frame, target, number)]),
            Operand::Word { word } => self.word(target, word),
        }
    }

    /// Emits the MIPS lines that make an operand available in a register.
    pub(crate) fn operand(
        &mut self,
        frame: &Frame,
        register: u8,
        operand: Operand,
    ) -> Result<(), AllocError>
        requires { IsFound frame.now operand }
        ensures { AddsLines result self.old self.new (ordinary (operand_code frame.now register operand)) }
    {
        match operand {
            Operand::Slot { number } => {
                if let Some(_) = value_register(frame, number) {
                    return Ok(());
                }
                self.ordinary(&[load_word(frame, register, number)])
            }
            Operand::Word { word } => {
                if is_zero_word(operand) {
                    return Ok(());
                }
                self.word(register, word)
            }
        }
    }

    /// Emits the store of a slot's word in the frame, if the slot's home includes memory.
    pub(crate) fn keep(&mut self, frame: &Frame, slot: usize) -> Result<(), AllocError>
        requires { IsReached frame.now slot }
        ensures { AddsLines result self.old self.new (ordinary (keep_code frame.now slot)) }
    {
        if !is_kept(frame, slot) {
            return Ok(());
        }
        self.ordinary(&[store_slot(frame, made_in(frame, slot), slot)])
    }

    /// Emits the MIPS lines that write a register to a slot.
    pub(crate) fn give(&mut self, frame: &Frame, source: u8, slot: usize) -> Result<(), AllocError>
        requires { IsReached frame.now slot }
        ensures { AddsLines result self.old self.new (ordinary (give_code frame.now source slot)) }
    {
        match value_register(frame, slot) {
            Some(register) => {
                self.ordinary(&[copy(register, source)])?;
                self.keep(frame, slot)
            }
            None => self.ordinary(&[store_slot(frame, source, slot)]),
        }
    }

    /// Emits the MIPS lines that write a register to a slot. If all registers are reloaded after this write (`again`), a slot
    /// whose home is both a register and memory is written in memory only.
    fn bring(
        &mut self,
        frame: &Frame,
        again: bool,
        source: u8,
        slot: usize,
    ) -> Result<(), AllocError>
        requires { IsReached frame.now slot }
        ensures { AddsLines result self.old self.new (ordinary (bring_code again frame.now source slot)) }
    {
        if again && is_kept(frame, slot) {
            return self.ordinary(&[store_slot(frame, source, slot)]);
        }
        self.give(frame, source, slot)
    }

    /// Emits the MIPS lines that write registers to the slots from `slot` on.
    pub(crate) fn bring_all(
        &mut self,
        frame: &Frame,
        again: bool,
        slot: usize,
        sources: &[u8],
    ) -> Result<(), AllocError>
        requires { AreReached frame.now slot (length sources.now) }
        ensures { AddsLines result self.old self.new (ordinary (bring_all again frame.now slot sources.now)) }
    {
        let mut next = slot;
        for source in sources {
            self.bring(frame, again, *source, next)?;
            next += 1;
        }
        Ok(())
    }

    /// Emits the store of an argument in the callee's frame, if callers pass this argument in memory.
    pub(crate) fn keep_coming(&mut self, callee: &Frame, slot: usize) -> Result<(), AllocError>
        requires { IsReached callee.now slot }
        ensures { AddsLines result self.old self.new (ordinary (keep_code (coming callee.now) slot)) }
    {
        if !is_kept_coming(callee, slot) {
            return Ok(());
        }
        self.ordinary(&[store_slot(callee, comes_by(callee, slot), slot)])
    }

    /// Emits the MIPS lines that write a register to the callee's slot for an argument.
    fn give_coming(&mut self, callee: &Frame, source: u8, slot: usize) -> Result<(), AllocError>
        requires { IsReached callee.now slot }
        ensures { AddsLines result self.old self.new (ordinary (give_code (coming callee.now) source slot)) }
    {
        match register_coming(callee, slot) {
            Some(register) => {
                self.ordinary(&[copy(register, source)])?;
                self.keep_coming(callee, slot)
            }
            None => self.ordinary(&[store_slot(callee, source, slot)]),
        }
    }

    /// Emits the MIPS lines that write a register to the callee's slot for an argument. If the argument
    /// arrives in this register, no copy is needed.
    pub(crate) fn hand_coming(
        &mut self,
        callee: &Frame,
        source: u8,
        slot: usize,
    ) -> Result<(), AllocError>
        requires { IsReached callee.now slot }
        ensures { AddsLines result self.old self.new (ordinary (hand_code (coming callee.now) source slot)) }
    {
        if is_own_coming(callee, source, slot) {
            return self.keep_coming(callee, slot);
        }
        self.give_coming(callee, source, slot)
    }

    /// Emits the reload of a slot's register, if the slot's home also includes memory.
    fn reload(&mut self, frame: &Frame, home: Home, slot: usize) -> Result<(), AllocError>
        requires { IsReached frame.now slot }
        ensures { AddsLines result self.old self.new (ordinary (reload frame.now home slot)) }
    {
        match home {
            Home::Both { register } => self.ordinary(&[load_word(frame, register, slot)]),
            Home::Memory | Home::Register { .. } => Ok(()),
        }
    }

    /// Emits the reloads of the registers of all slots whose word is also in memory.
    pub(crate) fn reloads(&mut self, frame: &Frame) -> Result<(), AllocError>
        requires { AreReached frame.now 0 (length frame.now.homes) }
        ensures { AddsLines result self.old self.new (ordinary (reloads frame.now)) }
    {
        for slot in 0..frame.homes.len() {
            self.reload(frame, home(frame, slot), slot)?;
        }
        Ok(())
    }

    /// Emits the MIPS lines that load parameters that arrived in memory into their callee-saved registers.
    pub(crate) fn arrivals(&mut self, frame: &Frame) -> Result<(), AllocError>
        requires { AreReached frame.now 0 (length frame.now.homes) }
        ensures { AddsLines result self.old self.new (ordinary (arrivals frame.now)) }
    {
        for slot in 0..frame.homes.len() {
            self.reload(frame, home_arriving(frame, slot), slot)?;
        }
        Ok(())
    }
}
