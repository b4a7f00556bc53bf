//! For each assembled word, finds the line of labelled code from which it is made.

ghost use Rattle.std.specs.Prelude.{◌≡◌, ◌<◌, length, All};
ghost use Rattle.cyc_select.specs.inside.Labelled.{Fits, IsFormedLine};
ghost use Rattle.cyc_asm.specs.inside.Layout.{most_of_each};
ghost use Rattle.cyc_asm.specs.inside.Slots.{AreNamed};

use crate::layout::{most_of_each, width_in};
use crate::order::{arranged, comes_down, is_ordinary, settle};
use crate::slots::{filling, is_unreached_after, named_of_each};
use cyc_select::{Code, Line};
use cyc_words::Fault;
use std::alloc::{AllocError, Global};

/// Returns the number of lines past which an instruction is moved to fill the delay slot of line `number`, or 0 if none is moved.
fn passed(lines: &[Line], named: &[bool], number: usize) -> usize
    requires within { number < length lines.now }
    requires named { AreNamed lines.now (length lines.now) named.now }
{
    if is_ordinary(&lines[number]) || filling(lines, named, number).is_some() {
        return 0;
    }
    if number > 1 && comes_down(lines, named, number - 2, 1) {
        return 1;
    }
    if number > 2 && comes_down(lines, named, number - 3, 2) {
        return 2;
    }
    0
}

/// Moves an instruction's line index past the next `count` indices in the list, to just before line `number`.
fn sink_number(numbers: &mut [usize], number: usize, count: usize) {
    for left in 0..count {
        let following = number.saturating_sub(count - left);
        if following > 0 && following < numbers.len() {
            numbers.swap(following - 1, following);
        }
    }
}

/// Returns, for each line in the order of the text, its index in the labelled code.
fn numbers_in_order(alloc: Global, lines: &[Line], named: &[bool]) -> Result<Vec<usize>, AllocError>
    requires { AreNamed lines.now (length lines.now) named.now }
{
    let mut order = Vec::from_slice(alloc, lines)?;
    let mut numbers = Vec::new(alloc);
    for number in 0..lines.len() {
        numbers.push(number)?;
    }
    for number in 0..lines.len() {
        let count = passed(&order, named, number);
        sink_number(&mut numbers, number, count);
        settle(&mut order, named, number);
    }
    Ok(numbers)
}

/// Returns the index that a line in the new order has in the labelled code.
fn number_at(numbers: &[usize], number: usize) -> usize {
    numbers.get(number).copied().unwrap_or(0)
}

/// Appends, for each word of line `number` in the new order, which is reachable, the index of the line of
/// labelled code from which the word is made.
fn push_sources(
    sources: &mut Vec<usize>,
    numbers: &[usize],
    order: &[Line],
    named: &[bool],
    most: &[u32],
    number: usize,
) -> Result<(), AllocError>
    requires within { number < length order.now }
    requires formed { All (IsFormedLine (length order.now)) order.now }
    requires fits { Fits order.now }
    requires named { AreNamed order.now (length order.now) named.now }
    requires most { most.now ≡ most_of_each order.now }
{
    let own = number_at(numbers, number);
    if is_ordinary(&order[number]) {
        // An instruction that fills the delay slot of a branch or jump accounts for the word after that of the branch or jump.
        let first = match filling(order, named, number + 1) {
            Some(_) => number_at(numbers, number + 1),
            None => own,
        };
        sources.push(first)?;
        return Ok(());
    }
    let mut rest = width_in(order, named, most, number);
    if filling(order, named, number).is_some() {
        sources.push(number_at(numbers, number.saturating_sub(1)))?;
        rest = rest.saturating_sub(1);
    }
    for _ in 0..rest {
        sources.push(own)?;
    }
    Ok(())
}

/// Returns, for each assembled word, the index of the line of labelled code from which it is made.
/// The lines are given in the order of the text.
fn sources_in_order(
    alloc: Global,
    numbers: &[usize],
    order: &[Line],
    named: &[bool],
) -> Result<Vec<usize>, AllocError>
    requires formed { All (IsFormedLine (length order.now)) order.now }
    requires fits { Fits order.now }
    requires named { AreNamed order.now (length order.now) named.now }
{
    let most = most_of_each(alloc, order)?;
    let mut sources = Vec::new(alloc);
    let mut unreached = false;
    for number in 0..order.len() {
        unreached = is_unreached_after(unreached, order, named, number);
        if !unreached {
            push_sources(&mut sources, numbers, order, named, &most, number)?;
        }
    }
    Ok(sources)
}

fn sources_of(alloc: Global, lines: &[Line]) -> Result<Vec<usize>, AllocError>
    requires formed { All (IsFormedLine (length lines.now)) lines.now }
    requires fits { Fits lines.now }
{
    let named = named_of_each(alloc, lines)?;
    let arranged = arranged(alloc, lines, &named)?;
    let numbers = numbers_in_order(alloc, lines, &named)?;
    sources_in_order(alloc, &numbers, &arranged, &named)
}

/// Returns, for each word that `assemble` makes, the index of the line from which it comes. An empty delay slot, and the jump skipped
/// by a far branch, come from the line of the branch or jump.
///
/// The function `sources`, which finds the lines from which assembled words are made, returns no error except lack of memory.
pub fn sources(alloc: Global, code: &Code) -> Result<Vec<usize>, Fault> {
    Ok(sources_of(alloc, code.lines())?)
}
