//! Selects the functions that are worth simplifying. The selection is unverified, since any function may stay unchanged.
ghost use Rattle.std.specs.Prelude.{◌<◌, length};

use crate::jumps::is_end;
use crate::known::{
    are_same_operands, is_any_slot, is_same_comparison, is_same_operator, is_same_word,
};
use cyc_plain::{Comparison, Instruction, Operand, Request};

/// The range of slots to which words were copied since the last call.
#[derive(Clone, Copy)]
struct Copies {
    first: usize,
    last: usize,
}

fn no_copies() -> Copies {
    Copies { first: 1, last: 0 }
}

/// Returns the range with one more slot to which a word was copied. The slots of consecutive copies must be adjacent.
fn with_copy(copies: Copies, destination: usize) -> Copies {
    if destination > copies.last && copies.first <= copies.last {
        Copies {
            first: copies.first,
            last: destination,
        }
    } else {
        Copies {
            first: destination,
            last: destination,
        }
    }
}

/// Returns the range with several more consecutive slots to which words were copied.
fn with_copies(copies: Copies, destination: usize, count: usize) -> Copies {
    let copies = with_copy(copies, destination);
    if count > 1 && destination <= usize::MAX - count {
        with_copy(copies, destination + (count - 1))
    } else {
        copies
    }
}

/// The slots to which words were copied and the globals loaded or stored since the last call. Copies that
/// pass arguments are ignored, since the call needs them.
#[derive(Clone, Copy)]
struct Seen {
    copies: Copies,
    /// A bit mask of the globals whose words are known.
    globals: u64,
}

fn nothing_seen() -> Seen {
    Seen {
        copies: no_copies(),
        globals: 0,
    }
}

/// Returns the bit that represents a global in the mask; several globals may have the same bit.
fn bit_of(global: usize) -> u64 {
    1 << (global % 64)
}

fn see_copies(seen: Seen, copies: Copies) -> Seen {
    Seen {
        copies,
        globals: seen.globals,
    }
}

fn see_global(seen: Seen, global: usize) -> Seen {
    Seen {
        copies: seen.copies,
        globals: seen.globals | bit_of(global),
    }
}

/// Returns the record of slots that received copied words, and of globals loaded or stored so far, updated for one more instruction.
fn seen_after(seen: Seen, instruction: &Instruction) -> Seen {
    match *instruction {
        Instruction::Move {
            destination,
            source,
        } => {
            if is_any_slot(source) {
                see_copies(seen, with_copy(seen.copies, destination))
            } else {
                seen
            }
        }
        Instruction::MoveWords {
            destination,
            count,
            ..
        } => see_copies(seen, with_copies(seen.copies, destination, count)),
        Instruction::LoadGlobal { global, .. } => see_global(seen, global),
        Instruction::StoreGlobal { global, .. } => see_global(seen, global),
        Instruction::Call { .. } => nothing_seen(),
        _ => seen,
    }
}

fn is_copy(copies: Copies, operand: Operand) -> bool {
    match operand {
        Operand::Slot { number } => copies.first <= number && number <= copies.last,
        Operand::Word { .. } => false,
    }
}

/// Returns true if one of two operands is a slot that holds a copy of another slot, so that the other slot can be read instead.
fn has_copy(copies: Copies, left: Operand, right: Operand) -> bool {
    is_copy(copies, left) || is_copy(copies, right)
}

/// Returns true if a branch may be a check: it compares by unsigned `<`, as index checks do, or it tests a slot and
/// jumps to where the run ends or an exception leaves the function.
fn is_check(
    code: &[Instruction],
    comparison: Comparison,
    left: Operand,
    right: Operand,
    target: usize,
) -> bool {
    is_same_comparison(comparison, Comparison::LessUnsigned)
        || ((is_any_slot(left) || is_any_slot(right)) && is_end(code, target))
}

/// Returns true if two instructions compute or load the same value.
fn are_same(one: &Instruction, other: &Instruction) -> bool {
    match (*one, *other) {
        (
            Instruction::Binary {
                operator,
                left,
                right,
                ..
            },
            Instruction::Binary {
                operator: second,
                left: other_left,
                right: other_right,
                ..
            },
        ) => {
            is_same_operator(operator, second)
                && are_same_operands(left, right, other_left, other_right)
        }
        (
            Instruction::Load {
                address,
                offset,
                ..
            },
            Instruction::Load {
                address: second,
                offset: other_offset,
                ..
            },
        ) => is_same_word(address, offset, second, other_offset),
        _ => false,
    }
}

/// Returns true if the previous instruction computes or loads the same value as this one.
fn is_again(code: &[Instruction], index: usize) -> bool
    requires { index < length code.now }
{
    index > 0 && are_same(&code[index - 1], &code[index])
}

/// Returns true if an instruction may be simplified: it may be a check, read a copied slot, reload a global, repeat the previous
/// computation, or apply a unary operator to a constant.
fn may_gain(code: &[Instruction], seen: Seen, index: usize) -> bool
    requires { index < length code.now }
{
    let copies = seen.copies;
    match code[index] {
        Instruction::Move { source, .. } => is_copy(copies, source),
        Instruction::Unary { operand, .. } => !is_any_slot(operand) || is_copy(copies, operand),
        Instruction::Binary { left, right, .. } => {
            has_copy(copies, left, right) || is_again(code, index)
        }
        Instruction::Branch {
            comparison,
            left,
            right,
            target,
        } => has_copy(copies, left, right) || is_check(code, comparison, left, right, target),
        Instruction::Load { address, .. } => is_copy(copies, address) || is_again(code, index),
        Instruction::LoadByte { address, .. } => is_copy(copies, address),
        Instruction::Store {
            address,
            source,
            ..
        } => has_copy(copies, address, source),
        Instruction::StoreByte {
            address,
            source,
            ..
        } => has_copy(copies, address, source),
        Instruction::LoadGlobal { global, .. } => seen.globals & bit_of(global) != 0,
        Instruction::StoreGlobal { source, .. } => is_copy(copies, source),
        Instruction::Ask {
            request: Request::Allocate { handle, words, .. },
        } => has_copy(copies, handle, words),
        _ => false,
    }
}

/// Returns true if the code has an instruction that may be simplified, as `may_gain` judges.
pub(crate) fn is_candidate(code: &[Instruction]) -> bool {
    let mut seen = nothing_seen();
    for index in 0..code.len() {
        if may_gain(code, seen, index) {
            return true;
        }
        seen = seen_after(seen, &code[index]);
    }
    false
}
