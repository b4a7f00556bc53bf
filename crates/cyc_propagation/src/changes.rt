//! The slots that an instruction writes, the memory that it changes, and the facts that it preserves.
ghost use Rattle.std.specs.Prelude.{◌≡◌, true};
ghost use Rattle.cyc_plain.specs.inside.Program.{routine_at};
ghost use Rattle.cyc_plain.specs.inside.Requests as requests_of;
ghost use Rattle.cyc_propagation.specs.inside.Entries as keeping;
ghost use Rattle.cyc_propagation.specs.inside.Facts as facts_of;

use crate::fact::{Fact, Touched, Written};
use crate::known::{is_same_operand, is_slot};
use crate::pins::{are_free, is_free};
use cyc_plain::{GLOBALS_BASE, Instruction, MOST_GLOBALS, Operand, Plain, RECORD_WORDS, Request};

fn results_of(plain: &Plain, function: usize) -> usize
    ensures { result ≡ (routine_at plain.now function).results }
{
    if function < plain.functions().len() {
        plain.function(function).results
    } else {
        0
    }
}

fn written_by(request: Request) -> Written
    ensures first { result.first ≡ requests_of.destination_of request }
    ensures count { result.count ≡ requests_of.answer_count request }
{
    match request {
        Request::OpenLexical { destination } => Written {
            first: destination,
            count: 2,
        },
        Request::OpenDynamic { destination } => one(destination),
        Request::Allocate { destination, .. } => one(destination),
        Request::CloseTo { .. } | Request::CloseDynamic { .. } | Request::Free { .. } => nothing(),
    }
}

pub(crate) fn one(slot: usize) -> Written
    ensures { result ≡ record { first = slot; count = 1 } }
{
    Written {
        first: slot,
        count: 1,
    }
}

fn nothing() -> Written
    ensures { result ≡ record { first = 0; count = 0 } }
{
    Written { first: 0, count: 0 }
}

/// Returns the slots that an instruction writes before the next instruction of its call.
pub(crate) fn written(plain: &Plain, instruction: Instruction) -> Written
    ensures { result ≡ facts_of.written plain.now instruction }
{
    match instruction {
        Instruction::Move {
            destination,
            source,
        } => {
            if is_slot(source, destination) {
                Written {
                    first: destination,
                    count: 0,
                }
            } else {
                one(destination)
            }
        }
        Instruction::MoveWords {
            destination,
            count,
            ..
        } => Written {
            first: destination,
            count,
        },
        Instruction::Unary { destination, .. } => one(destination),
        Instruction::Binary { destination, .. } => one(destination),
        Instruction::Call {
            function,
            result,
            ..
        } => Written {
            first: result,
            count: results_of(plain, function),
        },
        Instruction::ReadByte { destination } => one(destination),
        Instruction::AddressOf { destination, .. } => one(destination),
        Instruction::LoadGlobal { destination, .. } => one(destination),
        Instruction::Load { destination, .. } => one(destination),
        Instruction::LoadByte { destination, .. } => one(destination),
        Instruction::Ask { request } => written_by(request),
        Instruction::CountLexical { destination } => one(destination),
        Instruction::Try { first, .. } => Written {
            first,
            count: RECORD_WORDS,
        },
        _ => nothing(),
    }
}

pub(crate) fn leaves_slot(slots: Written, slot: usize) -> bool
    ensures { result ≡ facts_of.leaves_slot slots slot }
{
    slot < slots.first || slot - slots.first >= slots.count
}

fn leaves_operand(slots: Written, operand: Operand) -> bool
    ensures { result ≡ facts_of.leaves_operand slots operand }
{
    match operand {
        Operand::Slot { number } => leaves_slot(slots, number),
        Operand::Word { .. } => true,
    }
}

/// Returns the part of memory that a write to this slot may change: nothing if the slot's address is not taken.
pub(crate) fn touched_by(pinned: &[bool], slot: usize) -> Touched
    ensures { result ≡ facts_of.touched_by pinned.now slot }
{
    if is_free(pinned, slot) {
        Touched::Nothing
    } else {
        Touched::All
    }
}

/// Returns the part of memory that writes to these slots may change: nothing if their address is not taken.
fn touched_by_words(pinned: &[bool], first: usize, count: usize) -> Touched
    ensures { result ≡ facts_of.touched_by_words pinned.now first count }
{
    if are_free(pinned, first, count) {
        Touched::Nothing
    } else {
        Touched::All
    }
}

/// Returns the distance in bytes of a global from the first one, if the index of the global is below the greatest number of globals.
pub(crate) fn global_offset(global: usize) -> Option<u32>
    ensures { result ≡ facts_of.global_offset global }
{
    if global < MOST_GLOBALS {
        Some(4 * global as u32)
    } else {
        None
    }
}

/// Returns the address of the first global.
pub(crate) fn first_global() -> Operand
    ensures { result ≡ facts_of.first_global }
{
    Operand::Word { word: GLOBALS_BASE }
}

/// Returns the part of memory that a store to a global changes.
fn touched_global(global: usize) -> Touched
    ensures { result ≡ facts_of.touched_global (facts_of.global_offset global) }
{
    match global_offset(global) {
        Some(offset) => Touched::Word {
            address: first_global(),
            offset,
        },
        None => Touched::All,
    }
}

/// Returns the part of memory that an instruction may change: nothing, one word, or all of it.
pub(crate) fn touched(pinned: &[bool], instruction: Instruction) -> Touched
    ensures { result ≡ facts_of.touched pinned.now instruction }
{
    match instruction {
        Instruction::Move { destination, .. } => touched_by(pinned, destination),
        Instruction::MoveWords {
            destination,
            count,
            ..
        } => touched_by_words(pinned, destination, count),
        Instruction::Unary { destination, .. } => touched_by(pinned, destination),
        Instruction::Binary { destination, .. } => touched_by(pinned, destination),
        Instruction::ReadByte { destination } => touched_by(pinned, destination),
        Instruction::AddressOf { destination, .. } => touched_by(pinned, destination),
        Instruction::LoadGlobal { destination, .. } => touched_by(pinned, destination),
        Instruction::Load { destination, .. } => touched_by(pinned, destination),
        Instruction::LoadByte { destination, .. } => touched_by(pinned, destination),
        Instruction::CountLexical { destination } => touched_by(pinned, destination),
        Instruction::Store {
            address,
            offset,
            ..
        } => Touched::Word { address, offset },
        Instruction::StoreGlobal { global, .. } => touched_global(global),
        Instruction::StoreByte { .. }
        | Instruction::Call { .. }
        | Instruction::Ask { .. }
        | Instruction::Try { .. } => Touched::All,
        _ => Touched::Nothing,
    }
}

fn are_apart(offset: u32, other: u32) -> bool
    ensures { result ≡ facts_of.are_apart offset other }
{
    offset != other
}

/// Returns true if the word at this address is unchanged. An equal address operand with a disjoint offset refers to another word.
fn is_untouched(touched: Touched, address: Operand, offset: u32) -> bool
    ensures { result ≡ facts_of.is_untouched touched address offset }
{
    match touched {
        Touched::Nothing => true,
        Touched::Word {
            address: other,
            offset: written,
        } => is_same_operand(other, address) && are_apart(written, offset),
        Touched::All => false,
    }
}

/// Returns true if an instruction preserves a fact: it writes no slot, and changes no word of memory, that occurs in the fact.
fn keeps(slots: Written, touched: Touched, fact: &Fact) -> bool
    ensures { result ≡ facts_of.keeps slots touched fact.now }
{
    match *fact {
        Fact::Equal { slot, operand } => {
            leaves_slot(slots, slot) && leaves_operand(slots, operand)
        }
        Fact::Computed {
            slot,
            left,
            right,
            ..
        } => {
            leaves_slot(slots, slot)
                && (leaves_operand(slots, left) && leaves_operand(slots, right))
        }
        Fact::Holds { left, right, .. } => {
            leaves_operand(slots, left) && leaves_operand(slots, right)
        }
        Fact::Held {
            address,
            offset,
            value,
        } => {
            leaves_operand(slots, address)
                && (leaves_operand(slots, value) && is_untouched(touched, address, offset))
        }
    }
}

/// Returns true if an instruction writes no slot and leaves memory unchanged.
pub(crate) fn changes_nothing(slots: Written, touched: Touched) -> bool
    ensures { result ≡ keeping.changes_nothing slots touched }
{
    match touched {
        Touched::Nothing => slots.count == 0,
        _ => false,
    }
}

/// Returns true if this slot does not occur in a fact.
fn leaves_out(slot: usize, fact: &Fact) -> bool
    ensures { result ≡ keeping.leaves_out slot fact.now }
{
    match *fact {
        Fact::Equal {
            slot: other,
            operand,
        } => other != slot && !is_slot(operand, slot),
        Fact::Computed {
            slot: other,
            left,
            right,
            ..
        } => other != slot && (!is_slot(left, slot) && !is_slot(right, slot)),
        Fact::Holds { left, right, .. } => !is_slot(left, slot) && !is_slot(right, slot),
        Fact::Held { address, value, .. } => !is_slot(address, slot) && !is_slot(value, slot),
    }
}

/// Returns true if an instruction writes one slot and leaves memory unchanged.
fn changes_one(slots: Written, touched: Touched) -> bool
    ensures { result ≡ keeping.changes_one slots touched }
{
    match touched {
        Touched::Nothing => slots.count == 1,
        _ => false,
    }
}

/// Returns true if a fact says nothing about the part of memory that an instruction may change.
fn leaves_memory(touched: Touched, fact: &Fact) -> bool
    ensures { result ≡ keeping.leaves_memory touched fact.now }
{
    match *fact {
        Fact::Held {
            address,
            offset,
            ..
        } => is_untouched(touched, address, offset),
        _ => true,
    }
}

/// Removes the facts about the written slot.
fn keep_others(facts: &mut Vec<Fact>, slots: Written, touched: Touched)
    requires { keeping.changes_one slots touched ≡ true }
    ensures { facts.new.items ≡ facts_of.kept slots touched facts.old.items }
{
    facts.retain(|fact| leaves_out(slots.first, fact));
}

/// Removes the facts about the part of memory that an instruction changes, if the instruction writes no slot.
fn keep_memory(facts: &mut Vec<Fact>, slots: Written, touched: Touched)
    requires { slots.count ≡ 0 }
    ensures { facts.new.items ≡ facts_of.kept slots touched facts.old.items }
{
    facts.retain(|fact| leaves_memory(touched, fact));
}

/// Removes the facts about written slots and about changed memory.
pub(crate) fn keep(facts: &mut Vec<Fact>, slots: Written, touched: Touched)
    ensures { facts.new.items ≡ facts_of.kept slots touched facts.old.items }
{
    if changes_one(slots, touched) {
        keep_others(facts, slots, touched);
    } else if slots.count == 0 {
        keep_memory(facts, slots, touched);
    } else {
        facts.retain(|fact| keeps(slots, touched, fact));
    }
}
