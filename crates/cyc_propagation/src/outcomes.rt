//! The facts that are true after an instruction, whatever was true before.
ghost use Rattle.std.specs.Prelude.{◌≡◌, ◌+◌, ◌<◌, ◌^◌};
ghost use Rattle.cyc_propagation.specs.inside.Facts as facts_of;

use crate::changes::{first_global, global_offset};
use crate::fact::Fact;
use crate::known::{is_any_slot, is_slot};
use crate::pins::{are_free, is_free, suits_operand};
use cyc_plain::{BinaryOperator, Comparison, Instruction, Operand, UnaryOperator};

/// Returns the comparison that holds exactly if this comparison does not.
pub(crate) fn negated(comparison: Comparison) -> Comparison
    ensures { result ≡ facts_of.negated comparison }
{
    match comparison {
        Comparison::Equal => Comparison::NotEqual,
        Comparison::NotEqual => Comparison::Equal,
        Comparison::Less => Comparison::GreaterOrEqual,
        Comparison::LessOrEqual => Comparison::Greater,
        Comparison::Greater => Comparison::LessOrEqual,
        Comparison::GreaterOrEqual => Comparison::Less,
        Comparison::LessUnsigned => Comparison::GreaterOrEqualUnsigned,
        Comparison::GreaterOrEqualUnsigned => Comparison::LessUnsigned,
    }
}

/// Returns true if a fact contains only slots whose address is not taken, and constants that fit a machine word.
pub(crate) fn suits(pinned: &[bool], fact: &Fact) -> bool
    ensures { result ≡ facts_of.suits pinned.now fact.now }
{
    match *fact {
        Fact::Equal { slot, operand } => is_free(pinned, slot) && suits_operand(pinned, operand),
        Fact::Computed {
            slot,
            left,
            right,
            ..
        } => {
            is_free(pinned, slot) && (suits_operand(pinned, left) && suits_operand(pinned, right))
        }
        Fact::Holds { left, right, .. } => {
            suits_operand(pinned, left) && suits_operand(pinned, right)
        }
        Fact::Held { address, value, .. } => {
            suits_operand(pinned, address) && suits_operand(pinned, value)
        }
    }
}

pub(crate) fn suited(pinned: &[bool], fact: Fact) -> Option<Fact>
    ensures { result ≡ facts_of.suited pinned.now fact }
{
    if suits(pinned, &fact) {
        Some(fact)
    } else {
        None
    }
}

/// Returns the fact that a branch establishes if control continues at `next`.
fn shown(
    pinned: &[bool],
    comparison: Comparison,
    left: Operand,
    right: Operand,
    target: usize,
    index: usize,
    next: usize,
) -> Option<Fact>
    requires { index + 1 < 2 ^ 64 }
    ensures { result ≡ facts_of.shown pinned.now comparison left right target index next }
{
    if target == index + 1 || !(is_any_slot(left) || is_any_slot(right)) {
        return None;
    }
    let comparison = if next == target {
        comparison
    } else {
        negated(comparison)
    };
    suited(
        pinned,
        Fact::Holds {
            comparison,
            left,
            right,
        },
    )
}

/// Returns the fact that memory has this word at an address.
fn held(pinned: &[bool], address: Operand, offset: u32, value: Operand) -> Option<Fact>
    ensures { result ≡ facts_of.held pinned.now address offset value }
{
    suited(
        pinned,
        Fact::Held {
            address,
            offset,
            value,
        },
    )
}

/// Returns the fact that a load establishes, or `None` if its destination is the slot that contains the address.
fn loaded(pinned: &[bool], address: Operand, offset: u32, destination: usize) -> Option<Fact>
    ensures { result ≡ facts_of.loaded pinned.now address offset destination }
{
    if is_slot(address, destination) {
        return None;
    }
    held(
        pinned,
        address,
        offset,
        Operand::Slot {
            number: destination,
        },
    )
}

/// Returns the fact that a global contains this word.
fn held_global(pinned: &[bool], global: usize, value: Operand) -> Option<Fact>
    ensures { result ≡ facts_of.held_global pinned.now (facts_of.global_offset global) value }
{
    match global_offset(global) {
        Some(offset) => held(pinned, first_global(), offset, value),
        None => None,
    }
}

/// Returns the fact that a move establishes. A move from a slot to the same slot establishes no fact.
fn moved(pinned: &[bool], destination: usize, source: Operand) -> Option<Fact>
    ensures { result ≡ facts_of.moved pinned.now destination source }
{
    if is_slot(source, destination) {
        return None;
    }
    suited(
        pinned,
        Fact::Equal {
            slot: destination,
            operand: source,
        },
    )
}

/// Returns the fact that an operator establishes, or `None` if its destination is the slot of an operand.
fn computed(
    pinned: &[bool],
    operator: BinaryOperator,
    destination: usize,
    left: Operand,
    right: Operand,
) -> Option<Fact>
    ensures { result ≡ facts_of.computed pinned.now operator destination left right }
{
    if is_slot(left, destination) || is_slot(right, destination) {
        return None;
    }
    suited(
        pinned,
        Fact::Computed {
            slot: destination,
            operator,
            left,
            right,
        },
    )
}

/// Returns the fact that is true after the instruction at `index` if control continues at `next`, whatever was true before.
pub(crate) fn made(
    pinned: &[bool],
    instruction: Instruction,
    index: usize,
    next: usize,
) -> Option<Fact>
    requires { index + 1 < 2 ^ 64 }
    ensures { result ≡ facts_of.made pinned.now instruction index next }
{
    match instruction {
        Instruction::Move {
            destination,
            source,
        } => moved(pinned, destination, source),
        Instruction::Binary {
            operator,
            destination,
            left,
            right,
        } => computed(pinned, operator, destination, left, right),
        Instruction::Branch {
            comparison,
            left,
            right,
            target,
        } => shown(pinned, comparison, left, right, target, index, next),
        Instruction::LoadGlobal {
            destination,
            global,
        } => held_global(
            pinned,
            global,
            Operand::Slot {
                number: destination,
            },
        ),
        Instruction::StoreGlobal { global, source } => held_global(pinned, global, source),
        Instruction::Load {
            destination,
            address,
            offset,
        } => loaded(pinned, address, offset, destination),
        Instruction::Store {
            address,
            offset,
            source,
        } => held(pinned, address, offset, source),
        _ => None,
    }
}

/// Returns true if the result of an operator is a truth value, 1 or 0.
pub(crate) fn is_test(operator: BinaryOperator) -> bool
    ensures { result ≡ facts_of.is_test operator }
{
    match operator {
        BinaryOperator::Equal
        | BinaryOperator::NotEqual
        | BinaryOperator::Less
        | BinaryOperator::LessOrEqual
        | BinaryOperator::Greater
        | BinaryOperator::GreaterOrEqual => true,
        _ => false,
    }
}

pub(crate) fn is_not(operator: UnaryOperator) -> bool
    ensures { result ≡ facts_of.is_not operator }
{
    match operator {
        UnaryOperator::Not => true,
        _ => false,
    }
}

/// Returns the fact that a slot contains 1 or 0.
pub(crate) fn truth_in(slot: usize) -> Fact
    ensures { result ≡ facts_of.truth_in slot }
{
    Fact::Holds {
        comparison: Comparison::LessUnsigned,
        left: Operand::Slot { number: slot },
        right: Operand::Word { word: 2 },
    }
}

/// Returns the fact that a test's result is a truth value, which is true even if the test's destination is one of its operands.
pub(crate) fn tested(pinned: &[bool], instruction: Instruction) -> Option<Fact>
    ensures { result ≡ facts_of.tested pinned.now instruction }
{
    match instruction {
        Instruction::Unary {
            operator,
            destination,
            ..
        } => {
            if is_not(operator) {
                suited(pinned, truth_in(destination))
            } else {
                None
            }
        }
        Instruction::Binary {
            operator,
            destination,
            ..
        } => {
            if is_test(operator) {
                suited(pinned, truth_in(destination))
            } else {
                None
            }
        }
        _ => None,
    }
}

/// Returns true if two ranges of `count` slots are disjoint.
fn lie_apart(first: usize, other: usize, count: usize) -> bool
    ensures { result ≡ facts_of.lie_apart first other count }
{
    if first < other {
        other - first >= count
    } else {
        first - other >= count
    }
}

/// Returns true if moved words stay equal to their sources: the addresses of source and destination slots are not
/// taken, and no source is overwritten.
fn are_copied(pinned: &[bool], destination: usize, source: usize, count: usize) -> bool
    ensures { result ≡ facts_of.are_copied pinned.now destination source count }
{
    lie_apart(destination, source, count)
        && (are_free(pinned, destination, count) && are_free(pinned, source, count))
}

/// Returns the fact that the word at `index` among the words that a move copies equals its source word, if the move copies that many words.
#[tactic(auto, using(crate::proofs::Ranges::destination_within, crate::proofs::Ranges::source_within))]
pub(crate) fn copied(pinned: &[bool], instruction: Instruction, index: usize) -> Option<Fact>
    ensures { result ≡ facts_of.copied pinned.now instruction index }
{
    match instruction {
        Instruction::MoveWords {
            destination,
            source,
            count,
        } => {
            if index < count && are_copied(pinned, destination, source, count) {
                Some(Fact::Equal {
                    slot: destination + index,
                    operand: Operand::Slot {
                        number: source + index,
                    },
                })
            } else {
                None
            }
        }
        _ => None,
    }
}
