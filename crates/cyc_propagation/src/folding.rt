//! Constant folding: the words that slots are known to contain replace operands if the instruction becomes cheaper.
ghost use Rattle.std.specs.Prelude.{◌≡◌};
ghost use Rattle.cyc_plain.specs.inside.Operators as operators;
ghost use Rattle.cyc_propagation.specs.inside.Replacement as replacement;

use crate::fact::Fact;
use crate::known::is_slot;
use crate::replacement::is_cheap;
use cyc_plain::{BinaryOperator, Operand, UnaryOperator};
use cyc_words::{add, mul, sar, shl, sub};

/// Returns the word that an operand denotes, if this fact states it.
fn word_by(fact: Fact, operand: Operand) -> Option<u32>
    ensures { result ≡ replacement.word_by fact operand }
{
    match fact {
        Fact::Equal {
            slot,
            operand: Operand::Word { word },
        } => {
            if is_slot(operand, slot) {
                Some(word)
            } else {
                None
            }
        }
        _ => None,
    }
}

/// Returns the word that an operand is known to denote, if facts state one.
pub(crate) fn word_in(facts: &[Fact], operand: Operand) -> Option<u32>
    ensures { result ≡ replacement.word_in facts.now operand }
{
    for fact in facts {
        if let Some(word) = word_by(*fact, operand) {
            return Some(word);
        }
    }
    match operand {
        Operand::Slot { .. } => None,
        Operand::Word { word } => Some(word),
    }
}

/// Returns true if this operator's machine instruction can contain a small constant as its second operand, so that the constant needs no
/// extra instruction.
fn takes_word(operator: BinaryOperator) -> bool
    ensures { result ≡ replacement.takes_word operator }
{
    match operator {
        BinaryOperator::And
        | BinaryOperator::Or
        | BinaryOperator::Xor
        | BinaryOperator::ShiftLeft
        | BinaryOperator::ShiftRight => true,
        _ => false,
    }
}

/// Returns an operand that equals an operator's second operand and costs no more instructions.
pub(crate) fn right_operand(facts: &[Fact], operator: BinaryOperator, operand: Operand) -> Operand
    ensures { result ≡ replacement.right_operand facts.now operator operand }
{
    if !takes_word(operator) {
        return operand;
    }
    match word_in(facts, operand) {
        Some(word) => {
            if word < 32768 {
                Operand::Word { word }
            } else {
                operand
            }
        }
        None => operand,
    }
}

/// Returns the result of an operator on two words, or `None` if it has none.
fn folded(operator: BinaryOperator, left: u32, right: u32) -> Option<u32>
    ensures { result ≡ replacement.folded operator left right }
{
    match operator {
        BinaryOperator::Add => Some(add(left, right)),
        BinaryOperator::Subtract => Some(sub(left, right)),
        BinaryOperator::Multiply => Some(mul(left, right)),
        BinaryOperator::And => Some(left & right),
        BinaryOperator::Or => Some(left | right),
        BinaryOperator::Xor => Some(left ^ right),
        BinaryOperator::ShiftLeft => Some(shl(left, right)),
        BinaryOperator::ShiftRight => Some(sar(left, right)),
        _ => None,
    }
}

/// Returns the result of an operator on two operands, if both words are known.
fn folded_in(facts: &[Fact], operator: BinaryOperator, left: Operand, right: Operand) -> Option<u32>
    ensures { result ≡ replacement.folded_in facts.now operator left right }
{
    if facts.is_empty() {
        return None;
    }
    match word_in(facts, left) {
        Some(one) => match word_in(facts, right) {
            Some(other) => folded(operator, one, other),
            None => None,
        },
        None => None,
    }
}

/// Returns the result of a unary operator on a word.
fn unary_result(operator: UnaryOperator, word: u32) -> u32
    ensures { result ≡ operators.unary_result operator word }
{
    match operator {
        UnaryOperator::Negate => sub(0, word),
        UnaryOperator::Complement => !word,
        UnaryOperator::Not => { if word == 0 { 1 } else { 0 } }
    }
}

/// Returns the result of an operator on one operand, if the operand's word is known.
pub(crate) fn folded_unary(facts: &[Fact], operator: UnaryOperator, operand: Operand) -> Option<u32>
    ensures { result ≡ replacement.folded_unary facts.now operator operand }
{
    if facts.is_empty() {
        return None;
    }
    match word_in(facts, operand) {
        Some(word) => Some(unary_result(operator, word)),
        None => None,
    }
}

/// Returns true if constant folding of an operator loses no fact about how its result was computed: its left operand is constant, or
/// it overwrites an operand. An operator of any other form is not folded (replaced by its constant result), so that the fact about
/// how its result was computed is recorded. With such facts, a value that a loop recomputes from the same slots as the code before
/// the loop is known at the loop's header.
fn may_fold(destination: usize, left: Operand, right: Operand) -> bool
    ensures { result ≡ replacement.may_fold destination left right }
{
    !is_cheap(left) || (is_slot(left, destination) || is_slot(right, destination))
}

pub(crate) fn folded_at(
    facts: &[Fact],
    operator: BinaryOperator,
    destination: usize,
    left: Operand,
    right: Operand,
) -> Option<u32>
    ensures { result ≡ replacement.folded_at facts.now operator destination left right }
{
    if may_fold(destination, left, right) {
        folded_in(facts, operator, left, right)
    } else {
        None
    }
}
