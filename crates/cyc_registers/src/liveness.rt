//! Liveness of the slots that may get registers: a table of the code positions where each may be live, and the check of this
//! table. The table is computed by backward passes over the code.
ghost use Rattle.std.specs.Prelude.{◌≡◌, ◌<◌, ◌≤◌, length, true, bit_and, bit_or, IfOk};
ghost use Rattle.cyc_plain.specs.inside.Program.{routine_of};
ghost use Rattle.cyc_registers.specs.inside.LivenessTable as checks;
ghost use Rattle.cyc_registers.specs.inside.Masks.{AreUses};

use crate::masks::mask_at;
use crate::uses::Uses;
use cyc_plain::{Function, Instruction, Plain};
use std::alloc::{AllocError, Global};

/// The maximal number of candidate slots of a function: a mask has 64 bits.
pub(crate) const MOST_CHOSEN: u32 = 64;

/// The bit mask that contains all slots that may get registers.
pub(crate) const ALL_NUMBERS: u64 = 0xffff_ffff_ffff_ffff;

/// The maximal number of passes over the liveness table after the first pass. Each level of nested loops takes one pass.
const ROUNDS: usize = 16;

/// Returns the slots that the liveness table lists as live at the successors of an instruction.
pub(crate) fn after_mask(instruction: Instruction, index: usize, live: &[u64]) -> u64
    requires { index < length live.now }
    ensures { result ≡ checks.after_mask instruction index live.now }
{
    match instruction {
        Instruction::Jump { target } => mask_at(live, target),
        Instruction::Branch { target, .. } => mask_at(live, index + 1) | mask_at(live, target),
        Instruction::Try { handler, .. } => mask_at(live, index + 1) | mask_at(live, handler),
        Instruction::Return { .. }
        | Instruction::Throw { .. }
        | Instruction::Finish { .. }
        | Instruction::Uncaught { .. } => 0,
        _ => mask_at(live, index + 1),
    }
}

/// Returns the bit mask of all slots that may get registers, except those that an instruction writes.
fn unwritten_mask(uses: Uses) -> u64
    ensures { result ≡ checks.unwritten_mask uses }
{
    ALL_NUMBERS ^ uses.writes
}

/// Returns the slots that the liveness table must contain at an instruction: those that the instruction reads, and those live after it
/// that it does not write.
fn needed_mask(uses: Uses, following: u64) -> u64
    ensures { result ≡ bit_or uses.reads (bit_and following (checks.unwritten_mask uses)) }
{
    uses.reads | following & unwritten_mask(uses)
}

/// Returns the slots that must survive a call: those live after the call, except the ones that the call returns.
fn call_mask(uses: Uses, instruction: Instruction, index: usize, live: &[u64]) -> u64
    requires { index < length live.now }
    ensures { result ≡ checks.call_mask uses instruction index live.now }
{
    match instruction {
        Instruction::Call { .. } => mask_at(live, index + 1) & unwritten_mask(uses),
        _ => 0,
    }
}

/// Returns the slots that must also be in memory: those live in the exception handler that an instruction opens.
fn clause_mask(instruction: Instruction, live: &[u64]) -> u64
    ensures { result ≡ checks.clause_mask instruction live.now }
{
    match instruction {
        Instruction::Try { handler, .. } => mask_at(live, handler),
        _ => 0,
    }
}

pub(crate) fn is_within(part: u64, whole: u64) -> bool
    ensures { result ≡ checks.is_within part whole }
{
    part | whole == whole
}

/// The code positions at which the slots of a function that may get registers are live.
#[derive(Drop)]
pub(crate) struct Lives {
    /// For each position in the code, the slots that may get registers and may be live there.
    pub(crate) live: Vec<u64>,
    /// The slots that are live after a call that does not return them.
    pub(crate) calls: u64,
    /// The slots that are live in an exception handler.
    pub(crate) clauses: u64,
    /// The slots that instructions exclude from registers.
    pub(crate) barred: u64,
}

/// The input of the check of slots' homes: a function of a program, the bit masks of its slots, the slots that its
/// instructions use, and the positions at which slots are live.
#[derive(Clone, Copy)]
pub(crate) struct Analysis<'a> {
    pub(crate) plain: &'a Plain,
    pub(crate) function: &'a Function,
    pub(crate) masks: &'a [u64],
    pub(crate) uses: &'a [Uses],
    pub(crate) lives: &'a Lives,
}

#[tactic(auto, unfolding(crate::specs::inside::LivenessTable::is_sound_at))]
fn is_sound_at(
    uses: Uses,
    instruction: Instruction,
    index: usize,
    following: u64,
    lives: &Lives,
) -> bool
    requires table { index < length lives.now.live.items }
    requires following { following ≡ checks.after_mask instruction index lives.now.live.items }
    ensures { result ≡ checks.is_sound_at uses instruction index lives.now.live.items lives.now.calls lives.now.clauses lives.now.barred }
{
    let live = &lives.live;
    is_within(needed_mask(uses, following), mask_at(live, index))
        && (is_within(call_mask(uses, instruction, index, live), lives.calls)
            && (is_within(clause_mask(instruction, live), lives.clauses)
                && is_within(uses.bars, lives.barred)))
}

/// Returns true if the liveness table misses no code position where a slot that gets a register is live. The check also ensures that three
/// sets miss no slot: the slots live after a call, the slots live in an exception handler, and the slots excluded from registers.
pub(crate) fn is_sound(
    plain: &Plain,
    function: &Function,
    masks: &[u64],
    uses: &[Uses],
    lives: &Lives,
) -> bool
    requires table { length lives.now.live.items ≡ length function.now.code.items }
    requires uses { AreUses plain.now (routine_of function.now) masks.now uses.now }
    requires all { length uses.now ≡ length function.now.code.items }
    ensures { result ≡ true → checks.IsSound plain.now (routine_of function.now) masks.now lives.now.live.items lives.now.calls lives.now.clauses
        lives.now.barred }
{
    for index in 0..function.code.len() {
        let instruction = function.code[index];
        let following = after_mask(instruction, index, &lives.live);
        if !is_sound_at(uses[index], instruction, index, following, lives) {
            return false;
        }
    }
    true
}

/// Makes one backward pass over the instructions before the position `end`. The pass is unverified: the resulting table is checked.
fn sweep(function: &Function, uses: &[Uses], end: usize, lives: &mut Lives)
    requires table { length lives.old.live.items ≡ length function.now.code.items }
    requires all { length uses.now ≡ length function.now.code.items }
    requires end { end ≤ length function.now.code.items }
    ensures { length lives.new.live.items ≡ length function.now.code.items }
{
    let mut next = mask_at(&lives.live, end);
    let mut calls = lives.calls;
    let mut clauses = lives.clauses;
    let mut barred = lives.barred;
    for index in (0..end).rev() {
        let used = uses[index];
        let following = match function.code[index] {
            Instruction::Jump { target } => mask_at(&lives.live, target),
            Instruction::Branch { target, .. } => next | mask_at(&lives.live, target),
            Instruction::Call { .. } => {
                calls = calls | next & unwritten_mask(used);
                next
            }
            Instruction::Try { handler, .. } => {
                clauses = clauses | mask_at(&lives.live, handler);
                next | mask_at(&lives.live, handler)
            }
            Instruction::Return { .. }
            | Instruction::Throw { .. }
            | Instruction::Finish { .. }
            | Instruction::Uncaught { .. } => 0,
            _ => next,
        };
        next = needed_mask(used, following);
        barred = barred | used.bars;
        lives.live[index] = next;
    }
    lives.calls = calls;
    lives.clauses = clauses;
    lives.barred = barred;
}

/// Returns true if the liveness table contains the slots live at the targets of backward jumps.
fn is_settled(function: &Function, backward: &[usize], live: &[u64]) -> bool
    requires { length live.now ≡ length function.now.code.items }
{
    for index in backward {
        if *index < function.code.len() {
            let following = after_mask(function.code[*index], *index, live);
            if !is_within(following, live[*index]) {
                return false;
            }
        }
    }
    true
}

/// Returns the code position after the last backward jump: from that position on, one pass is enough.
fn loops_end(function: &Function, backward: &[usize]) -> usize
    ensures { result ≤ length function.now.code.items }
{
    match backward.last() {
        Some(last) => {
            if *last < function.code.len() {
                *last + 1
            } else {
                function.code.len()
            }
        }
        None => 0,
    }
}

/// Returns for each code position the slots that may get registers and may be live there. `backward` lists the positions of backward
/// jumps in ascending order.
pub(crate) fn liveness_of(
    alloc: Global,
    function: &Function,
    uses: &[Uses],
    backward: &[usize],
) -> Result<Lives, AllocError>
    requires { length uses.now ≡ length function.now.code.items }
    ensures { IfOk result (λ lives. length lives.live.items ≡ length function.now.code.items) }
{
    let mut lives = Lives {
        live: vec![in alloc; 0; function.code.len()]?,
        calls: 0,
        clauses: 0,
        barred: 0,
    };
    sweep(function, uses, function.code.len(), &mut lives);
    for _ in 0..ROUNDS {
        if is_settled(function, backward, &lives.live) {
            break;
        }
        sweep(function, uses, loops_end(function, backward), &mut lives);
    }
    Ok(lives)
}

/// Returns true if a slot may have a register: it is a numbered candidate, no instruction excludes it, and at the function's entry it
/// is not live or is a parameter.
pub(crate) fn may_have(function: &Function, masks: &[u64], lives: &Lives, slot: usize) -> bool
    ensures { result ≡ checks.may_have masks.now lives.now.live.items lives.now.barred function.now.parameters slot }
{
    let mask = mask_at(masks, slot);
    0 < mask
        && (lives.barred & mask == 0
            && (slot < function.parameters || mask_at(&lives.live, 0) & mask == 0))
}
