//! Finds the functions that may be inlined: small functions that call no function.
ghost use Rattle.std.specs.Prelude.{◌≡◌, ◌<◌, ◌≤◌, true, length, IfOk};
ghost use Rattle.std.specs.List.{AllByRecursion};
ghost use Rattle.cyc_plain.specs.inside.Program.{routine_at, routine_of};
ghost use Rattle.cyc_plain.specs.inside.WellFormed.{leaves};
ghost use Rattle.cyc_inline.specs.inside.Emission.{AreLeafs, IsLeaf};
ghost use Rattle.cyc_inline.specs.inside.Emptied.{returns};
ghost use Rattle.cyc_inline.specs.inside.Opened.{is_of_leaf};

use crate::limits::MOST_LEAF_CODE;
use cyc_plain::{Function, Instruction, Plain};
use std::alloc::{AllocError, Global};

/// Returns true if a leaf function, which may be inlined, may contain the instruction. A backward jump is not allowed in a leaf function,
/// because a loop costs much more than the call.
fn is_of_leaf(instruction: Instruction, index: usize) -> bool
    ensures { result ≡ true → is_of_leaf instruction ≡ true }
{
    match instruction {
        Instruction::Call { .. }
        | Instruction::Enter { .. }
        | Instruction::AddressOf { .. }
        | Instruction::Ask { .. }
        | Instruction::Try { .. }
        | Instruction::Leave { .. }
        | Instruction::Uncaught { .. } => false,
        Instruction::Jump { target } => target > index,
        Instruction::Branch { target, .. } => target > index,
        _ => true,
    }
}

fn are_of_leaf(function: &Function) -> bool
    ensures { result ≡ true → AllByRecursion (λ i. is_of_leaf i ≡ true) function.now.code.items }
{
    for index in 0..function.code.len() {
        if !is_of_leaf(function.code[index], index) {
            return false;
        }
    }
    true
}

/// Returns true if control never falls through an instruction.
fn is_leaving(instruction: Instruction) -> bool
    ensures { result ≡ leaves instruction }
{
    match instruction {
        Instruction::Jump { .. }
        | Instruction::Return { .. }
        | Instruction::Throw { .. }
        | Instruction::Finish { .. }
        | Instruction::Uncaught { .. } => true,
        _ => false,
    }
}

/// Returns true if executing the instruction returns from its function.
pub(crate) fn returns(instruction: Instruction) -> bool
    ensures { result ≡ returns instruction }
{
    match instruction {
        Instruction::Return { .. } | Instruction::Finish { .. } => true,
        _ => false,
    }
}

fn is_target(code: &[Instruction], place: usize) -> bool {
    for instruction in code {
        match *instruction {
            Instruction::Jump { target } => {
                if target == place {
                    return true;
                }
            }
            Instruction::Branch { target, .. } => {
                if target == place {
                    return true;
                }
            }
            _ => (),
        }
    }
    false
}

/// Returns how many of a leaf function's instructions are placed at an inlined call: all up to the last reachable return. This last
/// return then falls through to the code after the call. Instructions that raise exceptions and unreachable instructions are placed
/// after the caller's code.
pub fn line_of(code: &[Instruction]) -> usize
    ensures { result ≤ length code.now }
{
    let mut line = code.len();
    for index in 0..code.len() {
        if returns(code[index]) {
            let is_dead = index > 0 && is_leaving(code[index - 1]) && !is_target(code, index);
            if !is_dead {
                line = index + 1;
            }
        }
    }
    line
}

/// Returns the number of the function's instructions that are placed at an inlined call if the function may be inlined, else 0.
fn leaf_line(function: &Function) -> usize
    ensures { 0 < result → IsLeaf (routine_of function.now) result }
{
    if function.code.len() > MOST_LEAF_CODE || !are_of_leaf(function) {
        return 0;
    }
    let line = line_of(&function.code);
    if line > 0 && is_leaving(function.code[line - 1]) {
        line
    } else {
        0
    }
}

/// Returns `leaf_line` of the function with index `number`. The function `main` never counts as a leaf function, which may be inlined.
fn line_at(plain: &Plain, number: usize) -> usize
    requires { number < length plain.now.functions }
    ensures { 0 < result → IsLeaf (routine_at plain.now number) result }
{
    if number == plain.main() {
        0
    } else {
        leaf_line(plain.function(number))
    }
}

/// Returns, for each function, the number of its instructions that are placed at an inlined call if the function may be inlined, else 0.
pub(crate) fn leafs_of(alloc: Global, plain: &Plain) -> Result<Vec<usize>, AllocError>
    ensures { IfOk result (λ lines. AreLeafs plain.now lines.items) }
{
    let count = plain.functions().len();
    let mut lines = Vec::with_capacity(alloc, count)?;
    for number in 0..count {
        lines.push(line_at(plain, number))?;
    }
    Ok(lines)
}
