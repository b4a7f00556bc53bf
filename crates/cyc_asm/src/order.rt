//! Chooses the order of instructions in the text, to fill delay slots.

ghost use Rattle.std.specs.Prelude.{◌≡◌, ◌+◌, ◌<◌, length, Some, IfOk};
ghost use Rattle.std.specs.Option.{is_some};
ghost use Rattle.cyc_asm.specs.inside.Slots.{moved, filling, AreNamed};
ghost use Rattle.cyc_asm.specs.inside.Order.{is_apart, passes, passes_line, passes_at, passes_all, comes_down, sunk, tried, is_ordinary, settled, arranged};

use crate::slots::{filling, moves};
use cyc_isa::{Instr, Register, reads, writes};
use cyc_select::Line;
use std::alloc::{AllocError, Global};

/// Returns true if an instruction neither reads nor writes a register.
fn is_apart(instruction: Instr, register: Register) -> bool
    ensures { result ≡ is_apart instruction register }
{
    !reads(instruction, register.number) && !writes(instruction, register.number)
}

/// Returns true if the first of two instructions may be moved past the second.
fn passes(instruction: Instr, other: Instr) -> bool
    ensures { result ≡ passes instruction other }
{
    match other {
        Instr::Immediate { target, source, .. } => {
            is_apart(instruction, target) && !writes(instruction, source.number)
        }
        Instr::LoadUpper { target, .. } => is_apart(instruction, target),
        Instr::Shift {
            destination,
            source,
            ..
        } => is_apart(instruction, destination) && !writes(instruction, source.number),
        Instr::ShiftVariable {
            destination,
            source,
            by,
            ..
        } => {
            is_apart(instruction, destination)
                && !writes(instruction, source.number)
                && !writes(instruction, by.number)
        }
        Instr::Arithmetic {
            destination,
            left,
            right,
            ..
        } => {
            is_apart(instruction, destination)
                && !writes(instruction, left.number)
                && !writes(instruction, right.number)
        }
        Instr::Memory { .. }
        | Instr::Branch { .. }
        | Instr::BranchZero { .. }
        | Instr::Jump { .. }
        | Instr::JumpRegister { .. }
        | Instr::JumpRegisterLink { .. }
        | Instr::Exception { .. }
        | Instr::MoveFrom { .. }
        | Instr::MultiplyDivide { .. } => false,
    }
}

/// Returns true if the instruction of one line may be moved past that of the next.
fn passes_line(line: &Line, following: &Line) -> bool
    ensures { result ≡ passes_line (Some line.now) (Some following.now) }
{
    match line {
        Line::Ordinary { instruction } => match following {
            Line::Ordinary { instruction: other } => passes(*instruction, *other),
            Line::Branch { .. } | Line::Jump { .. } | Line::Call { .. } | Line::Return => false,
        },
        Line::Branch { .. } | Line::Jump { .. } | Line::Call { .. } | Line::Return => false,
    }
}

/// Returns true if the instruction of line `from` may be moved past that of line `number`, to which no line jumps.
fn passes_at(lines: &[Line], named: &[bool], from: usize, number: usize) -> bool
    requires within { (from < length lines.now) × (number < length lines.now) }
    requires named { AreNamed lines.now (length lines.now) named.now }
    ensures { result ≡ passes_at lines.now from number }
{
    !named[number] && passes_line(&lines[from], &lines[number])
}

/// Returns true if the instruction of line `from` may be moved past the next `count` lines, to which no line jumps.
fn passes_all(lines: &[Line], named: &[bool], from: usize, count: usize) -> bool
    requires within { from + count < length lines.now }
    requires named { AreNamed lines.now (length lines.now) named.now }
    ensures { result ≡ passes_all lines.now from count }
{
    let mut all = true;
    for passed in 0..count {
        let number = from + (passed + 1);
        all = all && passes_at(lines, named, from, number);
    }
    all
}

/// Returns true if the instruction of a line may fill the delay slot of another line.
fn moves_after(line: &Line, following: &Line) -> bool
    ensures { result ≡ is_some (moved (Some line.now) (Some following.now)) }
{
    match line {
        Line::Ordinary { instruction } => moves(*instruction, following),
        Line::Branch { .. } | Line::Jump { .. } | Line::Call { .. } | Line::Return => false,
    }
}

/// Returns true if the instruction of line `from` may be moved past the next `count` lines and fill the delay slot of the branch or
/// jump after them.
pub(crate) fn comes_down(lines: &[Line], named: &[bool], from: usize, count: usize) -> bool
    requires within { from + count + 1 < length lines.now }
    requires named { AreNamed lines.now (length lines.now) named.now }
    ensures { result ≡ comes_down lines.now from count }
{
    let number = from + (count + 1);
    passes_all(lines, named, from, count)
        && !named[number]
        && moves_after(&lines[from], &lines[number])
}

/// Moves the instruction of line `from` past the next `count` lines.
fn sink(lines: &mut [Line], from: usize, count: usize)
    requires within { from + count < length lines.old }
    ensures { lines.new ≡ sunk lines.old from count }
{
    for passed in 0..count {
        lines.swap(from + passed, from + (passed + 1));
    }
}

/// Returns true if the delay slot of line `number` is filled by the instruction before it.
fn is_filled(lines: &[Line], named: &[bool], number: usize) -> bool
    requires named { AreNamed lines.now (length lines.now) named.now }
    ensures { result ≡ is_some (filling lines.now number) }
{
    filling(lines, named, number).is_some()
}

/// Moves an instruction past the `count` lines just before line `number`, to the branch or jump at this line, if it then fills its empty
/// delay slot.
fn try_past(lines: &mut [Line], named: &[bool], number: usize, count: usize)
    requires within { number < length lines.old }
    requires named { AreNamed lines.old (length lines.old) named.now }
    ensures { lines.new ≡ tried lines.old number count }
{
    if number <= count || is_filled(lines, named, number) {
        return;
    }
    let from = number - (count + 1);
    if comes_down(lines, named, from, count) {
        sink(lines, from, count);
    }
}

/// Returns true if a line has no delay slot.
pub(crate) fn is_ordinary(line: &Line) -> bool
    ensures { result ≡ is_ordinary line.now }
{
    match line {
        Line::Ordinary { .. } => true,
        Line::Branch { .. } | Line::Jump { .. } | Line::Call { .. } | Line::Return => false,
    }
}

/// Moves an instruction past one or two lines to the branch or jump at line `number`, if the instruction then fills its empty
/// delay slot. Most lines need no delay slot or have a filled one, so the function returns at once for them.
pub(crate) fn settle(lines: &mut [Line], named: &[bool], number: usize)
    requires within { number < length lines.old }
    requires named { AreNamed lines.old (length lines.old) named.now }
    ensures { lines.new ≡ settled lines.old number }
{
    if is_ordinary(&lines[number]) {
        return;
    }
    if is_filled(lines, named, number) {
        return;
    }
    try_past(lines, named, number, 1);
    try_past(lines, named, number, 2);
}

/// Returns the lines in the order in which their instructions stand in the text.
pub(crate) fn arranged(
    alloc: Global,
    lines: &[Line],
    named: &[bool],
) -> Result<Vec<Line>, AllocError>
    requires { AreNamed lines.now (length lines.now) named.now }
    ensures { IfOk result (λ order. order.items ≡ arranged lines.now) }
{
    let mut arranged = Vec::from_slice(alloc, lines)?;
    for number in 0..lines.len() {
        settle(&mut arranged, named, number);
    }
    Ok(arranged)
}
