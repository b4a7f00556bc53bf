//! Emits the words of each line of labelled code.

ghost use Rattle.std.specs.Prelude.{◌≡◌, ◌++◌, ◌+◌, ◌<◌, ◌≤◌, length, Some, slice_get, All, OnOk, IfOk};
ghost use Rattle.cyc_isa.specs.Encoding.{word_of};
ghost use Rattle.cyc_isa.specs.Decoding.{jump_index_of};
ghost use Rattle.cyc_isa.specs.declared.instr.Instr.TheVariants.{Jump};
ghost use Rattle.cyc_select.specs.inside.Labelled.{Fits, IsFormedLine};
ghost use Rattle.cyc_asm.specs.inside.Layout.{most_of_each, position_of_each};
ghost use Rattle.cyc_asm.specs.inside.Text.{branch_of, inverse_of};
ghost use Rattle.cyc_select.specs.declared.code.Line.TheVariants.{Ordinary};
ghost use Rattle.cyc_asm.specs.inside.Slots.{is_unreached, filling, AreNamed};
ghost use Rattle.cyc_asm.specs.inside.Words.{offset_of, IsHeadPosition, head_in, tail_in, words_ordinary, filled_in, words_before, words_in, words_at};

use crate::constants::{FIRST_INDEX, MAX_REACH, ROUND_OFFSET};
use crate::layout::is_near;
use crate::slots::filling;
use cyc_isa::{BranchOp, BranchZeroOp, Instr, JumpIndex, JumpOp, Register, encode};
use cyc_machine_model::constants::{RETURN_ADDRESS, TEXT_WORDS};
use cyc_select::{Condition, Line};
use std::alloc::{AllocError, Global};

/// The word of an empty delay slot: an instruction without effect.
const EMPTY_SLOT: u32 = 0;

/// Returns the negation of a condition.
fn inverse(condition: Condition) -> Condition
    ensures { result ≡ inverse_of condition }
{
    match condition {
        Condition::Registers { op, left, right } => Condition::Registers {
            op: match op {
                BranchOp::Equal => BranchOp::NotEqual,
                BranchOp::NotEqual => BranchOp::Equal,
            },
            left,
            right,
        },
        Condition::Sign { op, source } => Condition::Sign {
            op: match op {
                BranchZeroOp::LessOrEqual => BranchZeroOp::Greater,
                BranchZeroOp::Greater => BranchZeroOp::LessOrEqual,
                BranchZeroOp::Less => BranchZeroOp::GreaterOrEqual,
                BranchZeroOp::GreaterOrEqual => BranchZeroOp::Less,
            },
            source,
        },
    }
}

/// Returns the branch instruction for a condition.
fn branch(condition: Condition, offset: u16) -> Instr
    ensures { result ≡ branch_of condition offset }
{
    match condition {
        Condition::Registers { op, left, right } => Instr::Branch {
            op,
            left,
            right,
            offset,
        },
        Condition::Sign { op, source } => Instr::BranchZero { op, source, offset },
    }
}

/// Returns the offset of a near branch that has `from` words before it, to a line that has `to` words before it, as 16-bit two's
/// complement.
fn offset(from: u32, to: u32) -> u16
    requires { (from ≤ to + MAX_REACH) × (to ≤ from + MAX_REACH) }
    ensures { result ≡ offset_of from to }
{
    if from < to {
        (to - (from + 1)) as u16
    } else {
        (65_535 - (from - to)) as u16
    }
}

/// Returns the jump to the line that has `to` words before it.
fn jump(op: JumpOp, to: u32) -> Instr
    requires { to ≤ TEXT_WORDS }
    ensures { word_of result ≡ word_of (Jump op (jump_index_of (FIRST_INDEX + to))) }
{
    let index = JumpIndex {
        index: FIRST_INDEX + to,
    };
    Instr::Jump { op, index }
}

/// Returns the branch or jump of line `number`, which has `from` words before it.
fn head(lines: &[Line], most: &[u32], positions: &[u32], from: u32, number: usize) -> Instr
    requires within { number < length lines.now }
    requires formed { All (IsFormedLine (length lines.now)) lines.now }
    requires fits { Fits lines.now }
    requires most { most.now ≡ most_of_each lines.now }
    requires positions { positions.now ≡ position_of_each lines.now }
    requires from { IsHeadPosition lines.now number from }
    ensures { word_of result ≡ word_of (head_in lines.now from number (slice_get lines.now number)) }
{
    match lines[number] {
        Line::Ordinary { instruction } => instruction,
        Line::Branch { condition, label } => {
            if is_near(most[number], most[label]) {
                let offset = offset(from, positions[label]);
                let near = branch(condition, offset);
                return near;
            }
            let far = branch(inverse(condition), ROUND_OFFSET);
            far
        }
        Line::Jump { label } => jump(JumpOp::Plain, positions[label]),
        Line::Call { label } => jump(JumpOp::AndLink, positions[label]),
        Line::Return => {
            let source = Register {
                number: RETURN_ADDRESS,
            };
            Instr::JumpRegister { source }
        }
    }
}

/// Appends the words after line `number`'s branch or jump: its delay slot, and for a far branch also the skipped jump with its delay slot.
fn push_tail(
    words: &mut Vec<u32>,
    lines: &[Line],
    most: &[u32],
    positions: &[u32],
    number: usize,
    slot: u32,
) -> Result<(), AllocError>
    requires within { number < length lines.now }
    requires formed { All (IsFormedLine (length lines.now)) lines.now }
    requires fits { Fits lines.now }
    requires most { most.now ≡ most_of_each lines.now }
    requires positions { positions.now ≡ position_of_each lines.now }
    ensures { OnOk result (words.new.items ≡ words.old.items ++ tail_in lines.now number (slice_get lines.now number) slot) }
{
    words.push(slot)?;
    match lines[number] {
        Line::Branch { label, .. } => {
            if is_near(most[number], most[label]) {
                return Ok(());
            }
            let round = jump(JumpOp::Plain, positions[label]);
            words.push(encode(round))?;
            words.push(EMPTY_SLOT)?;
            Ok(())
        }
        Line::Ordinary { .. } | Line::Jump { .. } | Line::Call { .. } | Line::Return => Ok(()),
    }
}

/// Appends the word of an ordinary instruction, or of the branch or jump after it if the instruction fills its delay slot.
fn push_ordinary(
    words: &mut Vec<u32>,
    lines: &[Line],
    named: &[bool],
    most: &[u32],
    positions: &[u32],
    number: usize,
    instruction: Instr,
) -> Result<(), AllocError>
    requires here { slice_get lines.now number ≡ Some (Ordinary instruction) }
    requires formed { All (IsFormedLine (length lines.now)) lines.now }
    requires fits { Fits lines.now }
    requires named { AreNamed lines.now (length lines.now) named.now }
    requires most { most.now ≡ most_of_each lines.now }
    requires positions { positions.now ≡ position_of_each lines.now }
    ensures { OnOk result (words.new.items ≡ words.old.items ++ words_ordinary (filling lines.now (number + 1)) lines.now number instruction) }
{
    match filling(lines, named, number + 1) {
        Some(_) => {
            let following = head(lines, most, positions, positions[number], number + 1);
            words.push(encode(following))?;
            Ok(())
        }
        None => {
            words.push(encode(instruction))?;
            Ok(())
        }
    }
}

/// Appends the words of the branch or jump of line `number`, with the instruction in its delay slot.
fn push_jump(
    words: &mut Vec<u32>,
    lines: &[Line],
    named: &[bool],
    most: &[u32],
    positions: &[u32],
    number: usize,
) -> Result<(), AllocError>
    requires within { number < length lines.now }
    requires formed { All (IsFormedLine (length lines.now)) lines.now }
    requires fits { Fits lines.now }
    requires named { AreNamed lines.now (length lines.now) named.now }
    requires most { most.now ≡ most_of_each lines.now }
    requires positions { positions.now ≡ position_of_each lines.now }
    ensures { OnOk result (words.new.items ≡ words.old.items ++ filled_in lines.now number (slice_get lines.now number)) }
{
    match filling(lines, named, number) {
        Some(slotted) => push_tail(words, lines, most, positions, number, encode(slotted)),
        None => {
            let first = head(lines, most, positions, positions[number], number);
            words.push(encode(first))?;
            push_tail(words, lines, most, positions, number, EMPTY_SLOT)
        }
    }
}

/// Appends the words of line `number`, which is reachable.
fn push_reached(
    words: &mut Vec<u32>,
    lines: &[Line],
    named: &[bool],
    most: &[u32],
    positions: &[u32],
    number: usize,
) -> Result<(), AllocError>
    requires within { number < length lines.now }
    requires formed { All (IsFormedLine (length lines.now)) lines.now }
    requires fits { Fits lines.now }
    requires named { AreNamed lines.now (length lines.now) named.now }
    requires most { most.now ≡ most_of_each lines.now }
    requires positions { positions.now ≡ position_of_each lines.now }
    ensures { OnOk result (words.new.items ≡ words.old.items ++ words_in lines.now number (slice_get lines.now number)) }
{
    match lines[number] {
        Line::Ordinary { instruction } => {
            push_ordinary(words, lines, named, most, positions, number, instruction)
        }
        Line::Branch { .. } | Line::Jump { .. } | Line::Call { .. } | Line::Return => {
            push_jump(words, lines, named, most, positions, number)
        }
    }
}

/// Appends the words of line `number`, if it is reachable.
fn push_line(
    words: &mut Vec<u32>,
    lines: &[Line],
    named: &[bool],
    most: &[u32],
    positions: &[u32],
    unreached: bool,
    number: usize,
) -> Result<(), AllocError>
    requires within { number < length lines.now }
    requires formed { All (IsFormedLine (length lines.now)) lines.now }
    requires fits { Fits lines.now }
    requires named { AreNamed lines.now (length lines.now) named.now }
    requires most { most.now ≡ most_of_each lines.now }
    requires positions { positions.now ≡ position_of_each lines.now }
    requires unreached { unreached ≡ is_unreached lines.now number }
    ensures { OnOk result (words.new.items ≡ words.old.items ++ words_at lines.now number) }
{
    if unreached {
        return Ok(());
    }
    push_reached(words, lines, named, most, positions, number)
}

/// Returns true if line `number` is unreachable and takes no word. Every reachable line takes at least one word.
fn is_left_out(lines: &[Line], positions: &[u32], number: usize) -> bool
    requires within { number < length lines.now }
    requires positions { positions.now ≡ position_of_each lines.now }
    ensures { result ≡ is_unreached lines.now number }
{
    positions[number] == positions[number + 1]
}

/// Returns the words of all lines of the code.
pub(crate) fn words_of_all(
    alloc: Global,
    lines: &[Line],
    named: &[bool],
    most: &[u32],
    positions: &[u32],
) -> Result<Vec<u32>, AllocError>
    requires formed { All (IsFormedLine (length lines.now)) lines.now }
    requires fits { Fits lines.now }
    requires named { AreNamed lines.now (length lines.now) named.now }
    requires most { most.now ≡ most_of_each lines.now }
    requires positions { positions.now ≡ position_of_each lines.now }
    ensures { IfOk result (λ words. words.items ≡ words_before lines.now (length lines.now)) }
{
    let mut words = Vec::with_capacity(alloc, positions[lines.len()] as usize)?;
    for number in 0..lines.len() {
        let unreached = is_left_out(lines, positions, number);
        push_line(&mut words, lines, named, most, positions, unreached, number)?;
    }
    Ok(words)
}
