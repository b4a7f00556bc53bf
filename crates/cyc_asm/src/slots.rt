//! Selects the instructions that fill delay slots, and finds unreachable lines.

ghost use Rattle.std.specs.Prelude.{◌≡◌, ◌<◌, length, Some, All, IfOk};
ghost use Rattle.cyc_select.specs.inside.Labelled.{IsFormedLine};
ghost use Rattle.cyc_asm.specs.inside.Slots.{is_movable, leaves, moves, label_of, goes_on, is_call, fills_after, is_unreached_after, filling, AreNamed};

use cyc_isa::{Instr, reads, writes};
use cyc_machine_model::constants::RETURN_ADDRESS;
use cyc_select::{Condition, Line};
use std::alloc::{AllocError, Global};

/// Returns true if an instruction may stand in a delay slot.
fn is_movable(instruction: Instr) -> bool
    ensures { result ≡ is_movable instruction }
{
    match instruction {
        Instr::Branch { .. }
        | Instr::BranchZero { .. }
        | Instr::Jump { .. }
        | Instr::JumpRegister { .. }
        | Instr::JumpRegisterLink { .. }
        | Instr::Exception { .. } => false,
        Instr::Immediate { .. }
        | Instr::LoadUpper { .. }
        | Instr::Memory { .. }
        | Instr::Shift { .. }
        | Instr::ShiftVariable { .. }
        | Instr::MoveFrom { .. }
        | Instr::MultiplyDivide { .. }
        | Instr::Arithmetic { .. } => true,
    }
}

/// Returns true if an instruction writes no register that the condition tests.
fn leaves(instruction: Instr, condition: Condition) -> bool
    ensures { result ≡ leaves instruction condition }
{
    match condition {
        Condition::Registers { left, right, .. } => {
            !writes(instruction, left.number) && !writes(instruction, right.number)
        }
        Condition::Sign { source, .. } => !writes(instruction, source.number),
    }
}

/// Returns true if an instruction may be executed after a line's branch or jump instead of before it. For most lines, which are neither
/// branches nor jumps, the function returns false at once.
#[inline]
pub(crate) fn moves(instruction: Instr, line: &Line) -> bool
    ensures { result ≡ moves instruction line.now }
{
    match line {
        Line::Ordinary { .. } => false,
        Line::Branch { .. } | Line::Jump { .. } | Line::Call { .. } | Line::Return => {
            moves_into_slot(instruction, line)
        }
    }
}

#[inline(never)]
fn moves_into_slot(instruction: Instr, line: &Line) -> bool
    ensures { result ≡ moves instruction line.now }
{
    match line {
        Line::Ordinary { .. } => false,
        Line::Branch { condition, .. } => is_movable(instruction)
            && leaves(instruction, *condition),
        Line::Jump { .. } => is_movable(instruction),
        Line::Call { .. } => {
            is_movable(instruction)
                && !reads(instruction, RETURN_ADDRESS)
                && !writes(instruction, RETURN_ADDRESS)
        }
        Line::Return => is_movable(instruction) && !writes(instruction, RETURN_ADDRESS),
    }
}

/// Returns the label to which a line jumps, if it has one.
fn label_of(line: &Line) -> Option<usize>
    ensures { result ≡ label_of line.now }
{
    match line {
        Line::Branch { label, .. } | Line::Jump { label } | Line::Call { label } => Some(*label),
        Line::Ordinary { .. } | Line::Return => None,
    }
}

/// Returns, for each line, true if some line jumps to it.
pub(crate) fn named_of_each(alloc: Global, lines: &[Line]) -> Result<Vec<bool>, AllocError>
    requires { All (IsFormedLine (length lines.now)) lines.now }
    ensures { IfOk result (λ named. AreNamed lines.now (length lines.now) named.items) }
{
    let mut named = vec![in alloc; false; lines.len()]?;
    for line in lines {
        if let Some(label) = label_of(line) {
            named[label] = true;
        }
    }
    Ok(named)
}

fn is_call(line: &Line) -> bool
    ensures { result ≡ is_call (Some line.now) }
{
    match line {
        Line::Call { .. } => true,
        Line::Ordinary { .. } | Line::Branch { .. } | Line::Jump { .. } | Line::Return => false,
    }
}

/// Returns true if the next line is a call whose delay slot this line may fill.
fn fills_after(lines: &[Line], named: &[bool], number: usize) -> bool
    requires within { number < length lines.now }
    requires named { AreNamed lines.now (length lines.now) named.now }
    ensures { result ≡ fills_after lines.now number }
{
    let following = number + 1;
    following < lines.len() && !named[following] && is_call(&lines[following])
}

/// Returns true if control may continue at the next line after this one.
fn goes_on(line: &Line) -> bool
    ensures { result ≡ goes_on (Some line.now) }
{
    match line {
        Line::Ordinary { .. } | Line::Branch { .. } | Line::Call { .. } => true,
        Line::Jump { .. } | Line::Return => false,
    }
}

/// Returns true if line `number` is unreachable, computed from the reachability of the line before it.
#[inline]
pub(crate) fn is_unreached_after(
    unreached: bool,
    lines: &[Line],
    named: &[bool],
    number: usize,
) -> bool
    requires within { number < length lines.now }
    requires named { AreNamed lines.now (length lines.now) named.now }
    ensures { result ≡ is_unreached_after unreached lines.now number }
{
    if number == 0 || named[number] || (!unreached && goes_on(&lines[number - 1])) {
        return false;
    }
    match lines[number] {
        Line::Ordinary { .. } => !fills_after(lines, named, number),
        Line::Call { .. } => false,
        Line::Branch { .. } | Line::Jump { .. } | Line::Return => true,
    }
}

/// Returns the instruction that fills the delay slot of line `number`, if one does.
pub(crate) fn filling(lines: &[Line], named: &[bool], number: usize) -> Option<Instr>
    requires named { AreNamed lines.now (length lines.now) named.now }
    ensures { result ≡ filling lines.now number }
{
    if number == 0 || number >= lines.len() || named[number] {
        return None;
    }
    match lines[number - 1] {
        Line::Ordinary { instruction } => {
            if moves(instruction, &lines[number]) {
                Some(instruction)
            } else {
                None
            }
        }
        Line::Branch { .. } | Line::Jump { .. } | Line::Call { .. } | Line::Return => None,
    }
}
