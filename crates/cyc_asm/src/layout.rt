//! Computes the position of each line: the number of words before it.

ghost use Rattle.std.specs.Prelude.{◌≡◌, ◌+◌, ◌<◌, ◌≤◌, ◌&&◌, nat_le, length, slice_get, All, IfOk};
ghost use Rattle.cyc_select.specs.inside.Labelled.{Fits, IsFormedLine, words_of};
ghost use Rattle.cyc_asm.specs.inside.Slots.{is_unreached, filling, AreNamed};
ghost use Rattle.cyc_asm.specs.inside.Layout.{most_of_each, position_of_each, head_width, width_in, width_at};

use crate::constants::MAX_REACH;
use crate::slots;
use cyc_machine_model::constants::TEXT_WORDS;
use cyc_select::Line;
use std::alloc::{AllocError, Global};

/// Returns the most words that a line takes.
fn max_width(line: &Line) -> u32
    ensures { result ≡ words_of line.now }
{
    match line {
        Line::Ordinary { .. } => 1,
        Line::Branch { .. } => 4,
        Line::Jump { .. } | Line::Call { .. } | Line::Return => 2,
    }
}

/// Returns, for each line, the most words that the lines before it can take.
pub(crate) fn most_of_each(alloc: Global, lines: &[Line]) -> Result<Vec<u32>, AllocError>
    requires { Fits lines.now }
    ensures { IfOk result (λ most. most.items ≡ most_of_each lines.now) }
{
    let mut most = Vec::with_capacity(alloc, lines.len())?;
    let mut before: u32 = 0;
    for line in lines {
        most.push_reserved(before);
        before += max_width(line);
    }
    Ok(most)
}

/// Returns true if a branch with at most `from` words before it is near a label with at most `to` words before it.
pub(crate) fn is_near(from: u32, to: u32) -> bool
    requires { (from ≤ TEXT_WORDS) × (to ≤ TEXT_WORDS) }
    ensures { result ≡ (nat_le to (from + MAX_REACH) && nat_le from (to + MAX_REACH)) }
{
    to <= from + MAX_REACH && from <= to + MAX_REACH
}

/// Returns the number of words that a line's branch or jump takes at the line's own position, without its delay slot. The number of words
/// is 0 if an instruction fills the delay slot (the branch or jump is then emitted before that instruction), otherwise 1.
fn head_width(lines: &[Line], named: &[bool], number: usize) -> u32
    requires named { AreNamed lines.now (length lines.now) named.now }
    ensures { result ≡ head_width (filling lines.now number) }
{
    match slots::filling(lines, named, number) {
        Some(_) => 0,
        None => 1,
    }
}

/// Returns the number of words that line `number` takes, provided that it is reachable.
pub(crate) fn width_in(lines: &[Line], named: &[bool], most: &[u32], number: usize) -> u32
    requires within { number < length lines.now }
    requires formed { All (IsFormedLine (length lines.now)) lines.now }
    requires fits { Fits lines.now }
    requires named { AreNamed lines.now (length lines.now) named.now }
    requires most { most.now ≡ most_of_each lines.now }
    ensures { result ≡ width_in lines.now number (slice_get lines.now number) }
{
    match lines[number] {
        Line::Ordinary { .. } => 1,
        Line::Branch { label, .. } => {
            if is_near(most[number], most[label]) {
                head_width(lines, named, number) + 1
            } else {
                head_width(lines, named, number) + 3
            }
        }
        Line::Jump { .. } | Line::Call { .. } | Line::Return => {
            head_width(lines, named, number) + 1
        }
    }
}

/// Returns the number of words that line `number` takes; 0 if it is unreachable.
fn width_at(lines: &[Line], named: &[bool], most: &[u32], unreached: bool, number: usize) -> u32
    requires within { number < length lines.now }
    requires formed { All (IsFormedLine (length lines.now)) lines.now }
    requires fits { Fits lines.now }
    requires named { AreNamed lines.now (length lines.now) named.now }
    requires most { most.now ≡ most_of_each lines.now }
    requires unreached { unreached ≡ is_unreached lines.now number }
    ensures { result ≡ width_at lines.now number }
{
    if unreached {
        0
    } else {
        width_in(lines, named, most, number)
    }
}

/// Returns the number of words before each line, and the number of all words.
pub(crate) fn position_of_each(
    alloc: Global,
    lines: &[Line],
    named: &[bool],
    most: &[u32],
) -> Result<Vec<u32>, AllocError>
    requires formed { All (IsFormedLine (length lines.now)) lines.now }
    requires fits { Fits lines.now }
    requires named { AreNamed lines.now (length lines.now) named.now }
    requires most { most.now ≡ most_of_each lines.now }
    ensures { IfOk result (λ positions. positions.items ≡ position_of_each lines.now) }
{
    let mut positions = Vec::with_capacity(alloc, lines.len() + 1)?;
    let mut before: u32 = 0;
    let mut unreached = false;
    positions.push_reserved(before);
    for number in 0..lines.len() {
        unreached = slots::is_unreached_after(unreached, lines, named, number);
        before += width_at(lines, named, most, unreached, number);
        positions.push_reserved(before);
    }
    Ok(positions)
}
