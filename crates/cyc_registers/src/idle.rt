//! Finds the idle instructions, which need no machine code.
ghost use Rattle.std.specs.Prelude.{◌≡◌, ◌+◌, ◌<◌, true, length, not, if◌then◌else◌, slice_set, IfOk};
ghost use Rattle.cyc_plain.specs.inside.Program.{routine_of};
ghost use Rattle.cyc_plain.specs.inside.Uses.{is_slot};
ghost use Rattle.cyc_registers.specs.inside.Interference as right;
ghost use Rattle.cyc_registers.specs.inside.Idle.{AreIdle, always_has_result};
ghost use Rattle.cyc_registers.specs.inside.Idle as rules;
ghost use Rattle.cyc_registers.specs.inside.IdlePlaces as checks;
ghost use Rattle.cyc_registers.specs.inside.LivenessTable.{IsSound};
ghost use Rattle.cyc_registers.specs.inside.Masks.{AreMasks};

use crate::home::Home;
use crate::liveness::{Lives, MOST_CHOSEN};
use crate::masks::mask_at;
use cyc_plain::{BinaryOperator, Comparison, Function, Instruction, Operand, Plain};
use std::alloc::{AllocError, Global};

/// Returns true if an operator has a result for all operand words.
fn always_has_result(operator: BinaryOperator) -> bool
    ensures { result ≡ always_has_result operator }
{
    !matches!(operator, BinaryOperator::Divide | BinaryOperator::Remainder)
}

/// Returns true if a branch compares two equal constants for inequality. A branch whose comparison never holds is never taken.
fn never_holds(comparison: Comparison, left: Operand, right: Operand) -> bool
    ensures { result ≡ checks.never_holds comparison left right }
{
    match (comparison, left, right) {
        (Comparison::NotEqual, Operand::Word { word }, Operand::Word { word: other }) => word
            == other,
        _ => false,
    }
}

fn is_slot(operand: Operand, slot: usize) -> bool
    ensures { result ≡ is_slot operand slot }
{
    match operand {
        Operand::Slot { number } => number == slot,
        Operand::Word { .. } => false,
    }
}

/// Returns true if a slot is in a register only.
fn is_unkept(homes: &[Home], slot: usize) -> bool
    ensures { result ≡ not (right.is_kept (right.home_of homes.now slot)) }
{
    matches!(homes.get(slot), Some(Home::Register { .. }))
}

/// Returns true if a slot is in a register only and is not live after the instruction at `index`.
fn is_unused(masks: &[u64], live: &[u64], homes: &[Home], index: usize, slot: usize) -> bool
    requires { index < length live.now }
    ensures { result ≡ checks.is_unused masks.now live.now homes.now index slot }
{
    let mask = mask_at(masks, slot);
    0 < mask && (mask_at(live, index + 1) & mask == 0 && is_unkept(homes, slot))
}

/// Returns true if the slot at a given offset from a first slot is in a register only and not live after the instruction.
fn is_unused_after(
    masks: &[u64],
    live: &[u64],
    homes: &[Home],
    index: usize,
    first: usize,
    offset: usize,
) -> bool
    requires { index < length live.now }
    ensures { result ≡ checks.is_unused masks.now live.now homes.now index (first + offset) }
{
    if first > masks.len() || offset >= masks.len() - first {
        return false;
    }
    is_unused(masks, live, homes, index, first + offset)
}

/// Returns true if `count` slots from slot `first` on are in registers only and not live after the instruction.
fn are_unused(
    masks: &[u64],
    live: &[u64],
    homes: &[Home],
    index: usize,
    first: usize,
    count: usize,
) -> bool
    requires { index < length live.now }
    ensures { result ≡ checks.are_unused masks.now live.now homes.now index first count }
{
    let mut are = true;
    for offset in 0..count {
        are = are && is_unused_after(masks, live, homes, index, first, offset);
    }
    are
}

/// Returns true if the first home (register, memory or both) is a register only, and the second home has the same register.
fn shares_register(home: Home, other: Home) -> bool
    ensures { result ≡ checks.shares_register home other }
{
    match (home, other) {
        (Home::Register { register }, Home::Register { register: other }) => register == other,
        (Home::Register { register }, Home::Both { register: other }) => register == other,
        _ => false,
    }
}

fn home_at(homes: &[Home], slot: usize) -> Home
    ensures { result ≡ right.home_of homes.now slot }
{
    match homes.get(slot) {
        Some(home) => *home,
        None => Home::Memory,
    }
}

/// Returns true if the word that a move copies is already in the destination slot's register, and the destination slot has its
/// word only in this register, not also in memory.
fn is_there(homes: &[Home], slot: usize, source: Operand) -> bool
    ensures { result ≡ checks.is_there homes.now slot source }
{
    match source {
        Operand::Slot { number } => shares_register(home_at(homes, slot), home_at(homes, number)),
        Operand::Word { .. } => false,
    }
}

fn is_idle(
    masks: &[u64],
    live: &[u64],
    homes: &[Home],
    index: usize,
    instruction: Instruction,
) -> bool
    requires { index < length live.now }
    ensures { result ≡ checks.is_idle masks.now live.now homes.now index instruction }
{
    match instruction {
        Instruction::Move {
            destination,
            source,
        } => is_unused(masks, live, homes, index, destination)
            || (is_slot(source, destination) || is_there(homes, destination, source)),
        Instruction::MoveWords {
            destination,
            count,
            ..
        } => are_unused(masks, live, homes, index, destination, count),
        Instruction::Unary { destination, .. } => is_unused(masks, live, homes, index, destination),
        Instruction::Binary {
            operator,
            destination,
            ..
        } => is_unused(masks, live, homes, index, destination) && always_has_result(operator),
        Instruction::Jump { target } => target == index + 1,
        Instruction::Branch {
            comparison,
            left,
            right,
            target,
        } => target == index + 1 || never_holds(comparison, left, right),
        _ => false,
    }
}

/// Returns true if the instruction at `index` is marked as needing no machine code. An instruction
/// without an entry in the list is not marked as needing no machine code.
fn idle_at(idle: &[bool], index: usize) -> bool
    ensures { result ≡ rules.idle_at idle.now index }
{
    match idle.get(index) {
        Some(is_idle) => *is_idle,
        None => false,
    }
}

/// Returns true if the instructions from index `first` up to `end`, exclusive, are marked as needing no machine code.
fn are_idle(idle: &[bool], first: usize, end: usize) -> bool
    ensures { result ≡ true → rules.AreIdleFrom idle.now first end }
{
    for place in first..end {
        if !idle_at(idle, place) {
            return false;
        }
    }
    true
}

/// Returns true if an instruction jumps forward over instructions only that need no machine code.
fn leads_over(idle: &[bool], instruction: Instruction, index: usize) -> bool
    ensures { result ≡ true → rules.LeadsOver idle.now index instruction }
{
    match instruction {
        Instruction::Jump { target } => target > index && are_idle(idle, index + 1, target),
        _ => false,
    }
}

/// Returns the instructions of a function that need no machine code. The result does not contain jumps
/// that only skip instructions without machine code.
fn idle_alone(
    alloc: Global,
    plain: &Plain,
    function: &Function,
    masks: &[u64],
    lives: &Lives,
    homes: &[Home],
) -> Result<Vec<bool>, AllocError>
    requires numbered { AreMasks masks.now MOST_CHOSEN }
    requires sound { IsSound plain.now (routine_of function.now) masks.now lives.now.live.items lives.now.calls lives.now.clauses lives.now.barred }
    requires table { length lives.now.live.items ≡ length function.now.code.items }
    ensures idle { IfOk result (λ idle. AreIdle plain.now (routine_of function.now) homes.now idle.items) }
    ensures as_many { IfOk result (λ idle. length idle.items ≡ length function.now.code.items) }
{
    let mut idle = Vec::with_capacity(alloc, function.code.len())?;
    for index in 0..function.code.len() {
        idle.push(is_idle(masks, &lives.live, homes, index, function.code[index]))?;
    }
    Ok(idle)
}

/// Marks the instruction at `index` as needing no machine code, if it needs none.
fn say(idle: &mut Vec<bool>, index: usize, is_more: bool)
    requires { index < length idle.old.items }
    ensures { idle.new.items ≡ (if is_more then slice_set idle.old.items index true else idle.old.items) }
{
    if is_more {
        idle[index] = true;
    }
}

/// Returns the instructions of a function that need no machine code (are idle). A jump counts as idle if it skips only idle
/// instructions, not counting later jumps over idle instructions.
pub(crate) fn idle_places(
    alloc: Global,
    plain: &Plain,
    function: &Function,
    masks: &[u64],
    lives: &Lives,
    homes: &[Home],
) -> Result<Vec<bool>, AllocError>
    requires numbered { AreMasks masks.now MOST_CHOSEN }
    requires sound { IsSound plain.now (routine_of function.now) masks.now lives.now.live.items lives.now.calls lives.now.clauses lives.now.barred }
    requires table { length lives.now.live.items ≡ length function.now.code.items }
    ensures { IfOk result (λ idle. AreIdle plain.now (routine_of function.now) homes.now idle.items) }
{
    let mut idle = idle_alone(alloc, plain, function, masks, lives, homes)?;
    for index in 0..function.code.len() {
        let is_more = leads_over(&idle, function.code[index], index);
        say(&mut idle, index, is_more);
    }
    Ok(idle)
}
