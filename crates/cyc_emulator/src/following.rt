//! Replays a run up to its stop, to find the source position at which it stopped and the active calls.
//!
//! All runs of an image on the same input are equal. The machine runs at full speed until shortly before the stop, and then one
//! instruction at a time. The result of a replay is right for images made by this compiler: all frames have the same size, and the return
//! address of a call is in register 31 or in the frame's word where the function's entry stores it.

use crate::report::RunFault;
use cyc_elf::read_outline;
use cyc_image::{Source, Stretch, stretch_at};
use cyc_machine::constants::{RETURN_ADDRESS, STACK_END, STACK_POINTER, WORDS_PER_CALL};
use cyc_machine::{Event, Limits, Machine};
use cyc_pagestore::PageStore;
use cyc_store::Store;
use std::alloc::{AllocError, Global};

/// The greatest number of active calls that a report lists.
pub const MOST_REPORTED: usize = 32;

/// The number of instructions before the stop that the first attempt of a replay executes one at a time.
const FIRST_WINDOW: u64 = 10_000;

/// The factor by which the number of instructions replayed one at a time is increased, if the exception was first thrown before these
/// instructions.
const WIDER: u64 = 32;

/// The number of bytes of a stack frame.
const FRAME_BYTES: u32 = 4 * WORDS_PER_CALL as u32;

/// The machine word of `addiu $29, $29, -1024`, with which a call makes the callee's frame.
const PUSH_FRAME: u32 = 0x27bd_fc00;

/// The machine word of `addiu $29, $29, 1024`, with which a function removes its frame.
const POP_FRAME: u32 = 0x27bd_0400;

/// The machine word of `lw $31, 8($25)`, the first instruction of a throw to a handler. The first instruction of a throw
/// replaces the return address in register 31 by the address of the handler's code. The second instruction of a throw
/// replaces the stack pointer, register 29, by that of the call with the handler.
const THROW: u32 = 0x8f3f_0008;

/// The number of machine words of a throw to a handler: `lw $31, 8($25)`, `lw $29, 4($25)`, `jr $31` and `lw $25, 0($25)`.
const THROW_WORDS: u32 = 4;

/// The upper half of `sw $31, ..($29)`, with which a function saves its return address.
const SAVE: u32 = 0xafbf_0000;

/// The most words from a function's entry up to the instruction that saves its return address.
const MOST_ENTRY: u32 = 5;

/// The most machine words between the instruction of a call, a return or a throw that changes the stack frame, and its jump.
const MOST_BETWEEN: u32 = 1024;

/// The machine-code address at which a run stopped, with the addresses of the active calls.
#[derive(Drop)]
pub struct Trail {
    /// The address of the instruction that determines the reported source position: the one at the stop, or the test or the throw that
    /// caused it. For an exception that was passed on, or is on its way to a handler, this address is that of the first throw.
    pub address: u32,
    /// The addresses of the jumps that made the active calls, innermost first, except that of `main`; at most 32.
    pub calls: Vec<u32>,
    /// The number of active calls that are missing in the list `calls`, which has only the innermost ones.
    pub others: u32,
}

/// Returns the construct of the source program, or the code added by the compiler, for which the machine word at an address was made.
fn source_at(stretches: &[Stretch], address: u32) -> Option<Source> {
    Some(stretch_at(stretches, address)?.source)
}

/// Returns true if two optional function indices are equal, or both are `None`.
fn is_same_function(one: Option<usize>, other: Option<usize>) -> bool {
    match (one, other) {
        (Some(one), Some(other)) => one == other,
        (None, None) => true,
        _ => false,
    }
}

/// Returns, for each function, its first range of machine code (stretch) that has words, where the function is entered.
fn entries_of(alloc: Global, stretches: &[Stretch]) -> Result<Vec<Stretch>, AllocError> {
    let mut entries = Vec::new(alloc);
    let mut last = None;
    for stretch in stretches {
        let function = stretch.frame_function();
        if !is_same_function(last, function) {
            entries.push(*stretch)?;
        }
        last = function;
    }
    Ok(entries)
}

/// Returns true if a word is a branch or a jump, which a delay slot follows.
fn has_slot(word: u32) -> bool {
    match word / 0x0400_0000 {
        0 => matches!(word % 64, 8 | 9),
        1..=7 => true,
        _ => false,
    }
}

/// The last change of the stack frame before an instruction of a function.
#[derive(Clone, Copy, PartialEq, Eq)]
enum Change {
    Nothing,
    /// The frame of the callee was made.
    Made,
    /// The function has removed its own stack frame.
    Given,
}

/// Returns the change of the stack frame that the instruction encoded by this word makes, if it makes one.
fn change_by(word: u32) -> Option<Change> {
    match word {
        PUSH_FRAME => Some(Change::Made),
        POP_FRAME => Some(Change::Given),
        _ => None,
    }
}

/// Returns true if the instruction at an address is part of a throw, but is not its first one, so that the exception is on its way
/// to its handler.
fn is_leaving<S: Store + Drop>(machine: &Machine<S>, address: u32) -> bool {
    for back in 1..THROW_WORDS {
        if machine.word(address.wrapping_sub(4 * back)) == Ok(THROW) {
            return true;
        }
    }
    false
}

/// The data for a replay: the ranges of the machine code (stretches), each with the source construct for
/// which it was made, and the first range of each function.
#[derive(Clone, Copy)]
struct Map<'a> {
    stretches: &'a [Stretch],
    entries: &'a [Stretch],
}

impl Map<'_> {
    /// Returns the address of the entry of the function whose machine code contains an address.
    fn entry(&self, address: u32) -> Option<u32> {
        let begun = stretch_at(self.entries, address)?;
        begun.frame_function()?;
        Some(begun.address)
    }

    /// Returns the change of the stack frame between the previous branch or jump and the instruction at an address.
    fn change<S: Store + Drop>(&self, machine: &Machine<S>, address: u32) -> Change {
        let Some(entry) = self.entry(address) else {
            return Change::Nothing;
        };
        for back in 1..MOST_BETWEEN {
            let before = address.wrapping_sub(4 * back);
            if before < entry || before >= address {
                return Change::Nothing;
            }
            let word = machine.word(before).unwrap_or(0);
            if let Some(change) = change_by(word) {
                // A stack frame made in the delay slot of a jump was the frame of the function to which the jump went, which has returned.
                let is_in_slot = has_slot(machine.word(before.wrapping_sub(4)).unwrap_or(0));
                return if is_in_slot { Change::Nothing } else { change };
            }
            // The instruction in a delay slot is executed before its branch or jump takes effect.
            if has_slot(word) && back > 1 {
                return Change::Nothing;
            }
        }
        Change::Nothing
    }

    /// Returns how the function whose code contains an address saves its return address: the address of the saving instruction, and the
    /// offset in the frame.
    fn saving<S: Store + Drop>(&self, machine: &Machine<S>, address: u32) -> Option<(u32, u32)> {
        let entry = self.entry(address)?;
        for number in 0..MOST_ENTRY {
            let at = entry.wrapping_add(4 * number);
            let word = machine.word(at).unwrap_or(0);
            if word / 0x1_0000 == SAVE / 0x1_0000 {
                return Some((at, word % 0x1_0000));
            }
        }
        None
    }

    /// Returns the return address that a function saved in its frame, which begins at `frame`; the function is
    /// the one whose code contains the given address.
    fn kept<S: Store + Drop>(&self, machine: &Machine<S>, address: u32, frame: u32) -> Option<u32> {
        let (_, offset) = self.saving(machine, address)?;
        machine.word(frame.wrapping_add(offset)).ok()
    }

    /// Returns the address of the current function's frame, and its return address.
    fn current<S: Store + Drop>(&self, machine: &Machine<S>, address: u32) -> Option<(u32, u32)> {
        let frame = machine.reg(STACK_POINTER);
        let link = machine.reg(RETURN_ADDRESS);
        match self.change(machine, address) {
            Change::Given => Some((frame.wrapping_sub(FRAME_BYTES), link)),
            Change::Made => {
                let own = frame.wrapping_add(FRAME_BYTES);
                Some((own, self.kept(machine, address, own)?))
            }
            Change::Nothing => match self.saving(machine, address) {
                Some((at, offset)) if at < address => {
                    Some((frame, machine.word(frame.wrapping_add(offset)).ok()?))
                }
                _ => Some((frame, link)),
            },
        }
    }

    /// Returns the address at which the machine stopped, with the addresses of its active calls.
    fn trail<S: Store + Drop>(
        &self,
        alloc: Global,
        machine: &Machine<S>,
        address: u32,
    ) -> Result<Trail, AllocError> {
        let mut calls = Vec::new(alloc);
        let mut others = 0;
        if let Some((first, back)) = self.current(machine, machine.counter()) {
            let mut frame = first;
            let mut following = back;
            for _ in 0..MOST_REPORTED {
                if following == 0 {
                    break;
                }
                calls.push(following.wrapping_sub(8))?;
                frame = frame.wrapping_add(FRAME_BYTES);
                following = self.kept(machine, following, frame).unwrap_or(0);
            }
            if following != 0 {
                others = STACK_END.wrapping_sub(frame) / FRAME_BYTES;
                others = others.saturating_sub(1);
            }
        }
        Ok(Trail {
            address,
            calls,
            others,
        })
    }
}

/// The state of a replay that executes one instruction at a time.
#[derive(Drop)]
struct Watch {
    /// The address of the previous instruction, or 0 before the first one.
    last: u32,
    /// The address of the last branch or jump to code that raises a built-in exception.
    tested: u32,
    /// The address of the first throw of the last exception, with the active calls at that throw, if the throw was seen.
    thrown: Option<Trail>,
}

impl Watch {
    /// Returns the address that determines the source position of an instruction. If the instruction raises an exception for several
    /// tests, the address is that of the test that failed.
    fn reported(&self, map: Map<'_>, address: u32) -> u32 {
        match source_at(map.stretches, address) {
            Some(Source::Raise { .. }) => self.tested,
            _ => address,
        }
    }

    /// Records that the instruction at the program counter is executed next.
    fn note<S: Store + Drop>(
        &mut self,
        alloc: Global,
        map: Map<'_>,
        machine: &Machine<S>,
    ) -> Result<(), AllocError> {
        let counter = machine.counter();
        if self.last != 0 && counter != self.last.wrapping_add(4) {
            let jumped = self.last.wrapping_sub(4);
            let from = source_at(map.stretches, jumped);
            let to = source_at(map.stretches, counter);
            if matches!(to, Some(Source::Raise { .. })) && from != to {
                self.tested = jumped;
            }
        }
        self.last = counter;
        if machine.word(counter) == Ok(THROW) {
            self.throw(alloc, map, machine)?;
        }
        Ok(())
    }

    /// Records that an exception is thrown or passed on.
    fn throw<S: Store + Drop>(
        &mut self,
        alloc: Global,
        map: Map<'_>,
        machine: &Machine<S>,
    ) -> Result<(), AllocError> {
        let counter = machine.counter();
        if let Some(Source::PassOn { .. }) = source_at(map.stretches, counter) {
            return Ok(());
        }
        let address = self.reported(map, counter);
        self.thrown = Some(map.trail(alloc, machine, address)?);
        Ok(())
    }

    /// Returns the address at which the run stopped. If an exception is passed on or on its way to a handler, this address is that of
    /// the exception's first throw. Returns `None` if the exception's first throw was not seen.
    fn end<S: Store + Drop>(
        self,
        alloc: Global,
        map: Map<'_>,
        machine: &Machine<S>,
    ) -> Result<Option<Trail>, AllocError> {
        let counter = machine.counter();
        let address = self.reported(map, counter);
        match source_at(map.stretches, counter) {
            Some(Source::PassOn { .. }) => Ok(self.thrown),
            _ if is_leaving(machine, counter) => Ok(self.thrown),
            _ => Ok(Some(map.trail(alloc, machine, address)?)),
        }
    }
}

/// The input of the original run, for a replay.
#[derive(Drop)]
struct Input<'a> {
    bytes: &'a [u8],
    next: usize,
}

/// Handles the event that an instruction reports: supplies the next byte of the input if one is requested. A replay ignores output,
/// since the first run has printed it.
fn answer<S: Store + Drop>(machine: &mut Machine<S>, event: Event, input: &mut Input<'_>) {
    if let Event::WantsByte = event {
        let byte = input.bytes.get(input.next).copied();
        input.next = input.next.saturating_add(1);
        machine.give(byte);
    }
}

/// Runs a machine for `count` instructions at full speed.
fn skip<S: Store + Drop>(machine: &mut Machine<S>, count: u64, input: &mut Input<'_>) {
    let mut left = count;
    for _ in 0..count {
        if left == 0 {
            return;
        }
        let stretch = machine.go(left);
        left = left.saturating_sub(stretch.count);
        match stretch.event {
            Event::Ended(_) | Event::NoMemory => return,
            event => answer(machine, event, input),
        }
    }
}

/// Replays a run of this many instructions. The last `window` instructions of the run are executed one at a time.
fn follow_last<S: Store + Drop>(
    alloc: Global,
    map: Map<'_>,
    machine: Machine<S>,
    count: u64,
    window: u64,
    bytes: &[u8],
) -> Result<Option<Trail>, AllocError> {
    let mut machine = machine;
    let mut input = Input { bytes, next: 0 };
    let slow = window.min(count);
    skip(&mut machine, count - slow, &mut input);
    let mut watch = Watch {
        last: 0,
        tested: 0,
        thrown: None,
    };
    for _ in 0..slow {
        watch.note(alloc, map, &machine)?;
        let event = machine.step();
        answer(&mut machine, event, &mut input);
    }
    watch.end(alloc, map, &machine)
}

/// Replays a run of this many instructions, of an image with these code ranges (stretches), limits and input. Returns the address
/// at which the run stopped, with the active calls.
pub fn follow(
    alloc: Global,
    image: &[u8],
    stretches: &[Stretch],
    limits: Limits,
    count: u64,
    input: &[u8],
) -> Result<Option<Trail>, RunFault> {
    let outline = read_outline(alloc, image)?;
    let entries = entries_of(alloc, stretches)?;
    let map = Map {
        stretches,
        entries: &entries,
    };
    let mut window = FIRST_WINDOW;
    for _ in 0..16 {
        let store = PageStore::new(alloc, limits.pages())?;
        let machine = Machine::load(alloc, &outline, image, limits, store)?;
        let found = follow_last(alloc, map, machine, count, window, input)?;
        if found.is_some() || window >= count {
            return Ok(found);
        }
        window = window.saturating_mul(WIDER);
    }
    Ok(None)
}
