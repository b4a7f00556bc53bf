//! Replaces an instruction by a cheaper one with the same effect, under the known facts.
ghost use Rattle.std.specs.Prelude.{◌≡◌, ◌+◌, ◌<◌, ◌^◌};
ghost use Rattle.cyc_propagation.specs.inside.Replacement as replacement;
ghost use Rattle.cyc_propagation.specs.inside.Facts as facts_of;
ghost use Rattle.cyc_propagation.specs.declared.fact.Fact.TheVariants as facts_are;
ghost use Rattle.cyc_plain.specs.declared.instruction.Instruction.TheVariants as instructions;
ghost use Rattle.cyc_plain.specs.declared.instruction.Operand.TheVariants as operands;

use crate::changes::{first_global, global_offset};
use crate::fact::Fact;
use crate::facts::Facts;
use crate::folding::{folded_at, folded_unary, right_operand};
use crate::known::{
    are_same_operands, is_known_equal, is_same_comparison, is_same_operand, is_same_operator,
    is_same_word, is_slot, is_unreached,
};
use crate::outcomes::negated;
use cyc_plain::{BinaryOperator, Comparison, Instruction, Operand, Request, UnaryOperator};

/// Returns true if reading an operand costs no more than reading a slot. Loading a constant word into a register may need
/// instructions of its own.
pub(crate) fn is_cheap(operand: Operand) -> bool
    ensures { result ≡ replacement.is_cheap operand }
{
    match operand {
        Operand::Slot { .. } => true,
        Operand::Word { .. } => false,
    }
}

/// Returns the operand that a fact offers as a replacement of an operand, if it offers one.
fn instead(fact: Fact, operand: Operand) -> Option<Operand>
    ensures { result ≡ replacement.instead fact operand }
{
    match fact {
        Fact::Equal {
            slot,
            operand: other,
        } => {
            if is_slot(operand, slot) && is_cheap(other) {
                Some(other)
            } else {
                None
            }
        }
        _ => None,
    }
}

/// Returns an operand that equals this one by the known facts. A constant word is returned unchanged.
pub(crate) fn operand_in(facts: &[Fact], operand: Operand) -> Operand
    ensures { result ≡ replacement.simplified_operand facts.now operand }
{
    if let Operand::Word { .. } = operand {
        return operand;
    }
    for fact in facts {
        if let Some(other) = instead(*fact, operand) {
            return other;
        }
    }
    operand
}

/// Returns an operand that equals this one by the known facts. The bit masks show quickly that most operands have no replacement.
fn simplified_operand(facts: &Facts, operand: Operand) -> Operand
    ensures { result ≡ replacement.simplified_operand facts.now operand }
{
    if facts.may_be_copy(operand) {
        operand_in(facts.all(), operand)
    } else {
        operand
    }
}

/// Returns true if an operator compares a truth value with 0 by `!=`, so that its result is the truth value.
fn is_truth_test(
    comparison: Comparison,
    bound: Operand,
    operator: BinaryOperator,
    right: Operand,
) -> bool
    ensures { result ≡ replacement.is_truth_test comparison bound operator right }
{
    is_same_comparison(comparison, Comparison::LessUnsigned)
        && (is_same_operand(bound, Operand::Word { word: 2 })
            && (is_same_operator(operator, BinaryOperator::NotEqual)
                && is_same_operand(right, Operand::Word { word: 0 })))
}

fn own_slot(operand: Operand) -> Option<usize>
    ensures { result ≡ replacement.own_slot operand }
{
    match operand {
        Operand::Slot { number } => Some(number),
        Operand::Word { .. } => None,
    }
}

/// Returns the slot that already contains a result, if this fact states one.
fn holder(fact: Fact, operator: BinaryOperator, left: Operand, right: Operand) -> Option<usize>
    ensures { result ≡ replacement.holder fact operator left right }
{
    match fact {
        Fact::Computed {
            slot,
            operator: other,
            left: other_left,
            right: other_right,
        } => {
            if is_same_operator(other, operator)
                && are_same_operands(other_left, other_right, left, right)
            {
                Some(slot)
            } else {
                None
            }
        }
        Fact::Holds {
            comparison,
            left: other_left,
            right: bound,
        } => {
            if is_same_operand(other_left, left)
                && is_truth_test(comparison, bound, operator, right)
            {
                own_slot(other_left)
            } else {
                None
            }
        }
        _ => None,
    }
}

fn holder_in(
    facts: &[Fact],
    operator: BinaryOperator,
    left: Operand,
    right: Operand,
) -> Option<usize>
    ensures { result ≡ replacement.holder_in facts.now operator left right }
{
    for fact in facts {
        if let Some(slot) = holder(*fact, operator, left, right) {
            return Some(slot);
        }
    }
    None
}

/// Replaces an operator on two known words by its result, and an operator whose result a slot already contains by a move from this slot.
fn simplified_binary(
    facts: &[Fact],
    operator: BinaryOperator,
    destination: usize,
    left: Operand,
    right: Operand,
) -> Instruction
    ensures { result ≡ replacement.simplified_binary (replacement.folded_at facts.now operator destination left right)
        (replacement.holder_in facts.now operator left right) operator destination left right }
{
    if let Some(word) = folded_at(facts, operator, destination, left, right) {
        return Instruction::Move {
            destination,
            source: Operand::Word { word },
        };
    }
    match holder_in(facts, operator, left, right) {
        Some(slot) => Instruction::Move {
            destination,
            source: Operand::Slot { number: slot },
        },
        None => Instruction::Binary {
            operator,
            destination,
            left,
            right,
        },
    }
}

fn simplified_unary(
    facts: &[Fact],
    operator: UnaryOperator,
    destination: usize,
    operand: Operand,
) -> Instruction
    ensures { result ≡ replacement.simplified_unary (replacement.folded_unary facts.now operator operand) operator destination operand }
{
    match folded_unary(facts, operator, operand) {
        Some(word) => Instruction::Move {
            destination,
            source: Operand::Word { word },
        },
        None => Instruction::Unary {
            operator,
            destination,
            operand,
        },
    }
}

/// Returns a move from a slot to the same slot, which has no effect.
fn moved_to_itself(slot: usize) -> Instruction
    ensures { result ≡ instructions.Move slot (operands.Slot slot) }
{
    Instruction::Move {
        destination: slot,
        source: Operand::Slot { number: slot },
    }
}

/// Returns true if a slot is known to equal an operand. The bit masks rule out most slots quickly.
fn is_equal(facts: &Facts, slot: usize, operand: Operand) -> bool
    ensures { result ≡ facts_of.is_known facts.now (facts_are.Equal slot operand) }
{
    facts.may_be_about(slot) && is_known_equal(facts.all(), slot, operand)
}

fn simplified_move(facts: &Facts, destination: usize, source: Operand) -> Instruction
    ensures { result ≡ replacement.simplified_move (facts_of.is_known facts.now (facts_are.Equal destination source)) destination source }
{
    if is_equal(facts, destination, source) {
        moved_to_itself(destination)
    } else {
        Instruction::Move {
            destination,
            source,
        }
    }
}

/// Returns true if the comparison `known` implies the comparison `asked`, for all words.
fn implies(known: Comparison, asked: Comparison) -> bool
    ensures { result ≡ replacement.implies known asked }
{
    match known {
        Comparison::Equal => match asked {
            Comparison::LessOrEqual
            | Comparison::GreaterOrEqual
            | Comparison::GreaterOrEqualUnsigned => true,
            _ => is_same_comparison(known, asked),
        },
        Comparison::Less => match asked {
            Comparison::NotEqual | Comparison::LessOrEqual => true,
            _ => is_same_comparison(known, asked),
        },
        Comparison::Greater => match asked {
            Comparison::NotEqual | Comparison::GreaterOrEqual => true,
            _ => is_same_comparison(known, asked),
        },
        Comparison::LessUnsigned => match asked {
            Comparison::NotEqual => true,
            _ => is_same_comparison(known, asked),
        },
        _ => is_same_comparison(known, asked),
    }
}

/// Returns the outcome of the comparison `asked`, if the comparison `known` decides it.
fn verdict(known: Comparison, asked: Comparison) -> Option<bool>
    ensures { result ≡ replacement.verdict known asked }
{
    if implies(known, asked) {
        Some(true)
    } else if implies(known, negated(asked)) {
        Some(false)
    } else {
        None
    }
}

fn decision(fact: Fact, comparison: Comparison, left: Operand, right: Operand) -> Option<bool>
    ensures { result ≡ replacement.decision fact comparison left right }
{
    match fact {
        Fact::Holds {
            comparison: known,
            left: other_left,
            right: other_right,
        } => {
            if are_same_operands(other_left, other_right, left, right) {
                verdict(known, comparison)
            } else {
                None
            }
        }
        _ => None,
    }
}

fn decision_in(
    facts: &[Fact],
    comparison: Comparison,
    left: Operand,
    right: Operand,
) -> Option<bool>
    ensures { result ≡ replacement.decision_in facts.now comparison left right }
{
    for fact in facts {
        if let Some(holds) = decision(*fact, comparison, left, right) {
            return Some(holds);
        }
    }
    None
}

/// Returns the replacement of a branch that is never taken: if it has a slot operand, a move from this slot to itself.
fn passed_by(left: Operand, right: Operand, target: usize) -> Instruction
    ensures { result ≡ replacement.passed_by left right target }
{
    match left {
        Operand::Slot { number } => moved_to_itself(number),
        Operand::Word { .. } => match right {
            Operand::Slot { number } => moved_to_itself(number),
            Operand::Word { .. } => Instruction::Branch {
                comparison: Comparison::NotEqual,
                left: Operand::Word { word: 0 },
                right: Operand::Word { word: 0 },
                target,
            },
        },
    }
}

fn simplified_branch(
    facts: &[Fact],
    comparison: Comparison,
    left: Operand,
    right: Operand,
    target: usize,
) -> Instruction
    ensures { result ≡ replacement.simplified_branch (replacement.decision_in facts.now comparison left right) comparison left right target }
{
    match decision_in(facts, comparison, left, right) {
        Some(holds) => {
            if holds {
                Instruction::Jump { target }
            } else {
                passed_by(left, right, target)
            }
        }
        None => Instruction::Branch {
            comparison,
            left,
            right,
            target,
        },
    }
}

/// Returns the word that memory has at this address, if this fact states it.
fn value_by(fact: Fact, address: Operand, offset: u32) -> Option<Operand>
    ensures { result ≡ replacement.value_by fact address offset }
{
    match fact {
        Fact::Held {
            address: other,
            offset: other_offset,
            value,
        } => {
            if is_same_word(other, other_offset, address, offset) {
                Some(value)
            } else {
                None
            }
        }
        _ => None,
    }
}

fn value_in(facts: &[Fact], address: Operand, offset: u32) -> Option<Operand>
    ensures { result ≡ replacement.value_in facts.now address offset }
{
    for fact in facts {
        if let Some(value) = value_by(*fact, address, offset) {
            return Some(value);
        }
    }
    None
}

fn global_value(facts: &[Fact], global: usize) -> Option<Operand>
    ensures { result ≡ replacement.global_value facts.now (facts_of.global_offset global) }
{
    match global_offset(global) {
        Some(offset) => value_in(facts, first_global(), offset),
        None => None,
    }
}

/// Returns the replacement of a load: a move, if the loaded word is known.
fn simplified_load(facts: &[Fact], destination: usize, address: Operand, offset: u32) -> Instruction
    ensures { result ≡ replacement.simplified_load (replacement.value_in facts.now address offset) destination address offset }
{
    match value_in(facts, address, offset) {
        Some(value) => Instruction::Move {
            destination,
            source: value,
        },
        None => Instruction::Load {
            destination,
            address,
            offset,
        },
    }
}

/// Returns the replacement of a load of a global: a move, if the global's word is known.
fn simplified_global(facts: &[Fact], destination: usize, global: usize) -> Instruction
    ensures { result ≡ replacement.simplified_global (replacement.global_value facts.now (facts_of.global_offset global)) destination global }
{
    match global_value(facts, global) {
        Some(value) => Instruction::Move {
            destination,
            source: value,
        },
        None => Instruction::LoadGlobal {
            destination,
            global,
        },
    }
}

fn simplified_request(facts: &Facts, request: Request) -> Request
    ensures { result ≡ replacement.simplified_request facts.now request }
{
    match request {
        Request::CloseTo { mark } => Request::CloseTo {
            mark: simplified_operand(facts, mark),
        },
        Request::CloseDynamic { handle } => Request::CloseDynamic {
            handle: simplified_operand(facts, handle),
        },
        Request::Allocate {
            destination,
            handle,
            words,
        } => Request::Allocate {
            destination,
            handle: simplified_operand(facts, handle),
            words: simplified_operand(facts, words),
        },
        Request::Free { address } => Request::Free {
            address: simplified_operand(facts, address),
        },
        Request::OpenLexical { .. } | Request::OpenDynamic { .. } => request,
    }
}

/// Returns the replacement of a move, whose source is replaced by an equal operand.
fn moved_in(facts: &Facts, destination: usize, source: Operand) -> Instruction
    ensures { result ≡ replacement.simplified_instruction facts.now (instructions.Move destination source) }
{
    simplified_move(facts, destination, simplified_operand(facts, source))
}

/// Returns the replacement of an operator, whose operands are replaced by equal ones.
fn computed_in(
    facts: &Facts,
    operator: BinaryOperator,
    destination: usize,
    left: Operand,
    right: Operand,
) -> Instruction
    ensures { result ≡ replacement.simplified_instruction facts.now (instructions.Binary operator destination left right) }
{
    let left = simplified_operand(facts, left);
    let right = right_operand(facts.all(), operator, simplified_operand(facts, right));
    if !facts.may_tell_of(left) {
        return Instruction::Binary {
            operator,
            destination,
            left,
            right,
        };
    }
    simplified_binary(facts.all(), operator, destination, left, right)
}

/// Returns the replacement of a branch, whose operands are replaced by equal ones.
fn branched_in(
    facts: &Facts,
    comparison: Comparison,
    left: Operand,
    right: Operand,
    target: usize,
) -> Instruction
    ensures { result ≡ replacement.simplified_instruction facts.now (instructions.Branch comparison left right target) }
{
    let left = simplified_operand(facts, left);
    let right = simplified_operand(facts, right);
    simplified_branch(facts.all(), comparison, left, right, target)
}

/// Returns the replacement of a load, whose address is replaced by an equal operand.
fn loaded_in(facts: &Facts, destination: usize, address: Operand, offset: u32) -> Instruction
    ensures { result ≡ replacement.simplified_instruction facts.now (instructions.Load destination address offset) }
{
    let address = simplified_operand(facts, address);
    simplified_load(facts.all(), destination, address, offset)
}

/// Returns the replacement of a store, whose operands are replaced by equal ones.
fn stored_in(facts: &Facts, address: Operand, offset: u32, source: Operand) -> Instruction
    ensures { result ≡ replacement.simplified_instruction facts.now (instructions.Store address offset source) }
{
    Instruction::Store {
        address: simplified_operand(facts, address),
        offset,
        source: simplified_operand(facts, source),
    }
}

/// Returns the replacement of one of the less frequent kinds of instructions.
fn simplified_otherwise(facts: &Facts, instruction: Instruction) -> Instruction
    ensures { result ≡ replacement.simplified_otherwise facts.now instruction }
{
    match instruction {
        Instruction::Unary {
            operator,
            destination,
            operand,
        } => simplified_unary(
            facts.all(),
            operator,
            destination,
            simplified_operand(facts, operand),
        ),
        Instruction::WriteByte { source } => Instruction::WriteByte {
            source: simplified_operand(facts, source),
        },
        Instruction::LoadGlobal {
            destination,
            global,
        } => simplified_global(facts.all(), destination, global),
        Instruction::StoreGlobal { global, source } => Instruction::StoreGlobal {
            global,
            source: simplified_operand(facts, source),
        },
        Instruction::LoadByte {
            destination,
            address,
            offset,
        } => Instruction::LoadByte {
            destination,
            address: simplified_operand(facts, address),
            offset,
        },
        Instruction::StoreByte {
            address,
            offset,
            source,
        } => Instruction::StoreByte {
            address: simplified_operand(facts, address),
            offset,
            source: simplified_operand(facts, source),
        },
        Instruction::Ask { request } => Instruction::Ask {
            request: simplified_request(facts, request),
        },
        Instruction::Throw { tag, value } => Instruction::Throw {
            tag: simplified_operand(facts, tag),
            value: simplified_operand(facts, value),
        },
        Instruction::Uncaught { tag, value } => Instruction::Uncaught {
            tag,
            value: simplified_operand(facts, value),
        },
        _ => instruction,
    }
}

/// Returns an instruction that has exactly the effect of the original if the facts are true. If no fact is known, the returned
/// instruction is the original.
pub(crate) fn simplified_instruction(facts: &Facts, instruction: Instruction) -> Instruction
    ensures { result ≡ replacement.simplified_instruction facts.now instruction }
{
    if facts.all().is_empty() {
        return instruction;
    }
    match instruction {
        Instruction::Move {
            destination,
            source,
        } => moved_in(facts, destination, source),
        Instruction::Binary {
            operator,
            destination,
            left,
            right,
        } => computed_in(facts, operator, destination, left, right),
        Instruction::Branch {
            comparison,
            left,
            right,
            target,
        } => branched_in(facts, comparison, left, right, target),
        Instruction::Load {
            destination,
            address,
            offset,
        } => loaded_in(facts, destination, address, offset),
        Instruction::Store {
            address,
            offset,
            source,
        } => stored_in(facts, address, offset, source),
        Instruction::Jump { .. } => instruction,
        _ => simplified_otherwise(facts, instruction),
    }
}

/// Returns true if an instruction may be dropped when it is unreachable. An instruction that takes the address of slots is not
/// dropped, so that the set of slots whose address is taken is unchanged.
pub(crate) fn may_vanish(instruction: Instruction) -> bool
    ensures { result ≡ replacement.may_vanish instruction }
{
    match instruction {
        Instruction::AddressOf { .. } => false,
        _ => true,
    }
}

/// Returns the position after `index`, or `index` if it is the last one, so that control never leaves the code.
pub(crate) fn place_after(index: usize, count: usize) -> usize
    requires { index + 1 < 2 ^ 64 }
    ensures { result ≡ replacement.place_after index count }
{
    if index + 1 < count { index + 1 } else { index }
}

/// Returns the replacement of the instruction at position `index` of `count`. An unreachable instruction becomes a jump to the next
/// position, which needs no machine code except at the last position.
pub(crate) fn put_at(
    facts: &Facts,
    index: usize,
    count: usize,
    instruction: Instruction,
) -> Instruction
    requires { index + 1 < 2 ^ 64 }
    ensures { result ≡ replacement.put_at facts.now index count instruction }
{
    if is_unreached(facts.all()) && may_vanish(instruction) {
        Instruction::Jump {
            target: place_after(index, count),
        }
    } else {
        simplified_instruction(facts, instruction)
    }
}
