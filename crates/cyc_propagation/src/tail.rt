//! The tail of code consists of the positions after the last one that a jump or a fall-through can reach. No instruction in the
//! tail is reachable.
ghost use Rattle.std.specs.Prelude.{◌≡◌, ◌+◌, ◌<◌, ◌^◌, IfOk};
ghost use Rattle.cyc_propagation.specs.inside.Room as rooms_of;
ghost use Rattle.cyc_propagation.specs.inside.Tail as tails;

use crate::jumps::{goes_on, target_of};
use crate::replacement::{may_vanish, place_after};
use cyc_plain::Instruction;
use std::alloc::{AllocError, Global};

fn greater(one: usize, other: usize) -> usize
    ensures { result ≡ rooms_of.greater one other }
{
    if one < other { other } else { one }
}

/// Returns the last position to which one of the instructions visited so far, including this one, jumps or falls through.
fn last_after(last: usize, instruction: Instruction, index: usize) -> usize
    requires { index + 1 < 2 ^ 64 }
    ensures { result ≡ tails.last_after last instruction index }
{
    let last = if goes_on(instruction) {
        greater(last, index + 1)
    } else {
        last
    };
    match target_of(instruction) {
        Some(target) => greater(last, target),
        None => last,
    }
}

/// Returns the last reachable position of the code.
fn last_place(code: &[Instruction]) -> usize
    ensures { tails.IsLast code.now result }
{
    let mut last = 0;
    for index in 0..code.len() {
        if index > last {
            return last;
        }
        last = last_after(last, code[index], index);
    }
    last
}

/// Returns the replacement of the instruction at position `index` of `count`: in the unreachable tail, a jump to the next position.
fn tailless_instruction(
    last: usize,
    index: usize,
    count: usize,
    instruction: Instruction,
) -> Instruction
    requires { index + 1 < 2 ^ 64 }
    ensures { result ≡ tails.tailless_instruction last index count instruction }
{
    if last < index && may_vanish(instruction) {
        Instruction::Jump {
            target: place_after(index, count),
        }
    } else {
        instruction
    }
}

/// Returns the code in which the instructions of the unreachable tail are replaced by jumps.
pub(crate) fn without_tail(
    alloc: Global,
    code: &[Instruction],
) -> Result<Vec<Instruction>, AllocError>
    ensures { IfOk result (λ made. tails.IsTailless code.now made.items) }
{
    let last = last_place(code);
    let mut made = Vec::with_capacity(alloc, code.len())?;
    for index in 0..code.len() {
        made.push(tailless_instruction(last, index, code.len(), code[index]))?;
    }
    Ok(made)
}
