//! The slots of a function whose address is taken. A store instruction may change a slot whose address is taken, so no fact
//! about such a slot is recorded.
ghost use Rattle.std.specs.Prelude.{◌≡◌, IfOk};
ghost use Rattle.cyc_plain.specs.inside.Program.{routine_of};
ghost use Rattle.cyc_propagation.specs.inside.Facts as facts_of;
ghost use Rattle.cyc_propagation.specs.inside.Pins as pins;
ghost use Rattle.cyc_propagation.specs.inside.Pins.{AreRanges};
ghost use Rattle.cyc_propagation.specs.inside.Table.{ArePins};

use crate::changes::leaves_slot;
use crate::fact::{Fact, Written};
use crate::outcomes::suits;
use cyc_plain::{Function, Instruction, MOST_FRAME_WORDS, Operand, RECORD_WORDS};
use std::alloc::{AllocError, Global};

/// Returns true if a slot is one of the function's slots and its address is not taken.
pub(crate) fn is_free(pinned: &[bool], slot: usize) -> bool
    ensures { result ≡ facts_of.is_free pinned.now slot }
{
    match pinned.get(slot) {
        Some(is_pinned) => !*is_pinned,
        None => false,
    }
}

/// Returns true if the `count` slots from `first` on are free, that is, their address is not taken.
#[tactic(auto, using(crate::proofs::Ranges::free_more, crate::proofs::Ranges::not_all_free, crate::proofs::Ranges::free_within))]
pub(crate) fn are_free(pinned: &[bool], first: usize, count: usize) -> bool
    ensures { result ≡ facts_of.are_free pinned.now first count }
{
    for index in 0..count {
        if !is_free(pinned, first + index) {
            return false;
        }
    }
    true
}

pub(crate) fn suits_operand(pinned: &[bool], operand: Operand) -> bool
    ensures { result ≡ facts_of.suits_operand pinned.now operand }
{
    match operand {
        Operand::Slot { number } => is_free(pinned, number),
        Operand::Word { .. } => true,
    }
}

/// Returns true if all facts contain only slots whose address is not taken, and constants that fit a machine word.
pub(crate) fn are_suited(pinned: &[bool], facts: &[Fact]) -> bool
    ensures { result ≡ facts_of.are_suited pinned.now facts.now }
{
    for fact in facts {
        if !suits(pinned, fact) {
            return false;
        }
    }
    true
}

fn is_within(ranges: &[Written], slot: usize) -> bool
    ensures { result ≡ pins.is_within ranges.now slot }
{
    for range in ranges {
        if !leaves_slot(*range, slot) {
            return true;
        }
    }
    false
}

/// Returns the slots whose address an instruction takes. The slots of an exception handler's record count as slots whose address is
/// taken, since the record is in memory.
fn range_of(instruction: Instruction) -> Option<Written>
    ensures { result ≡ pins.range_of instruction }
{
    match instruction {
        Instruction::AddressOf { slot, count, .. } => Some(Written { first: slot, count }),
        Instruction::Try { first, .. } => Some(Written {
            first,
            count: RECORD_WORDS,
        }),
        _ => None,
    }
}

/// Returns the ranges of slots whose address the code takes.
#[tactic(auto, using(crate::proofs::Ranges::no_range_yet, crate::proofs::Ranges::are_ranges))]
fn ranges_of(alloc: Global, code: &[Instruction]) -> Result<Vec<Written>, AllocError>
    ensures { IfOk result (λ ranges. AreRanges code.now ranges.items) }
{
    let mut ranges = Vec::new(alloc);
    for index in 0..code.len() {
        if let Some(range) = range_of(code[index]) {
            ranges.push(range)?;
        }
    }
    Ok(ranges)
}

/// Returns, for each slot of a function, true if its address is taken. In a function whose frame is too large, which is rejected later,
/// the result is true for all slots.
#[tactic(auto, using(crate::proofs::Ranges::all_pinned, crate::proofs::Ranges::no_pins, crate::proofs::Ranges::more_pins, crate::proofs::Ranges::are_pins))]
pub(crate) fn pins_of(alloc: Global, function: &Function) -> Result<Vec<bool>, AllocError>
    ensures { IfOk result (λ pinned. ArePins (routine_of function.now) pinned.items) }
{
    if function.frame_count > MOST_FRAME_WORDS {
        return Ok(vec![in alloc; true; function.slots]?);
    }
    let ranges = ranges_of(alloc, &function.code)?;
    let mut pinned = Vec::with_capacity(alloc, function.slots)?;
    for slot in 0..function.slots {
        pinned.push(is_within(&ranges, slot))?;
    }
    Ok(pinned)
}
