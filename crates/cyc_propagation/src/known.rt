//! Compares facts, and decides if a list contains a fact or implies it.
ghost use Rattle.std.specs.Prelude.{◌≡◌, ◌<◌, ◌&&◌, ◌||◌, false, length, true};
ghost use Rattle.cyc_plain.specs.inside.Uses as uses;
ghost use Rattle.cyc_propagation.specs.declared.fact.Fact.TheVariants as facts_are;
ghost use Rattle.cyc_propagation.specs.inside.Facts as facts_of;
ghost use Rattle.cyc_propagation.specs.inside.Table as table;

use crate::fact::Fact;
use crate::folding::word_in;
use crate::replacement::operand_in;
use cyc_plain::{BinaryOperator, Comparison, Operand};

/// Returns true if an operand is this slot.
pub(crate) fn is_slot(operand: Operand, slot: usize) -> bool
    ensures { result ≡ uses.is_slot operand slot }
{
    match operand {
        Operand::Slot { number } => number == slot,
        Operand::Word { .. } => false,
    }
}

/// Returns true if an operand is any slot.
pub(crate) fn is_any_slot(operand: Operand) -> bool
    ensures { result ≡ facts_of.is_any_slot operand }
{
    match operand {
        Operand::Slot { .. } => true,
        Operand::Word { .. } => false,
    }
}

fn operator_number(operator: BinaryOperator) -> u8
    ensures { result ≡ facts_of.operator_number operator }
{
    match operator {
        BinaryOperator::Add => 0,
        BinaryOperator::Subtract => 1,
        BinaryOperator::Multiply => 2,
        BinaryOperator::Divide => 3,
        BinaryOperator::Remainder => 4,
        BinaryOperator::And => 5,
        BinaryOperator::Or => 6,
        BinaryOperator::Xor => 7,
        BinaryOperator::ShiftLeft => 8,
        BinaryOperator::ShiftRight => 9,
        BinaryOperator::Equal => 10,
        BinaryOperator::NotEqual => 11,
        BinaryOperator::Less => 12,
        BinaryOperator::LessOrEqual => 13,
        BinaryOperator::Greater => 14,
        BinaryOperator::GreaterOrEqual => 15,
    }
}

fn comparison_number(comparison: Comparison) -> u8
    ensures { result ≡ facts_of.comparison_number comparison }
{
    match comparison {
        Comparison::Equal => 0,
        Comparison::NotEqual => 1,
        Comparison::Less => 2,
        Comparison::LessOrEqual => 3,
        Comparison::Greater => 4,
        Comparison::GreaterOrEqual => 5,
        Comparison::LessUnsigned => 6,
        Comparison::GreaterOrEqualUnsigned => 7,
    }
}

pub(crate) fn is_same_operator(one: BinaryOperator, other: BinaryOperator) -> bool
    ensures { result ≡ facts_of.is_same_operator one other }
{
    operator_number(one) == operator_number(other)
}

pub(crate) fn is_same_comparison(one: Comparison, other: Comparison) -> bool
    ensures { result ≡ facts_of.is_same_comparison one other }
{
    comparison_number(one) == comparison_number(other)
}

pub(crate) fn is_same_operand(one: Operand, other: Operand) -> bool
    ensures { result ≡ facts_of.is_same_operand one other }
{
    match one {
        Operand::Slot { number } => match other {
            Operand::Slot { number: second } => number == second,
            Operand::Word { .. } => false,
        },
        Operand::Word { word } => match other {
            Operand::Slot { .. } => false,
            Operand::Word { word: second } => word == second,
        },
    }
}

/// Returns true if two pairs of operands are equal: the left operands are equal, and the right operands are equal.
pub(crate) fn are_same_operands(
    left: Operand,
    right: Operand,
    other_left: Operand,
    other_right: Operand,
) -> bool
    ensures { result ≡ (facts_of.is_same_operand left other_left && facts_of.is_same_operand right other_right) }
{
    is_same_operand(left, other_left) && is_same_operand(right, other_right)
}

/// Returns true if two references to memory have equal address operands and offsets, so that they refer to the same word.
pub(crate) fn is_same_word(
    address: Operand,
    offset: u32,
    other_address: Operand,
    other_offset: u32,
) -> bool
    ensures { result ≡ facts_of.is_same_word address offset other_address other_offset }
{
    is_same_operand(address, other_address) && offset == other_offset
}

/// Returns true if a fact states that this slot equals this operand.
fn says_equal(fact: &Fact, slot: usize, operand: Operand) -> bool
    ensures { result ≡ facts_of.is_same_fact fact.now (facts_are.Equal slot operand) }
{
    match *fact {
        Fact::Equal {
            slot: other,
            operand: other_operand,
        } => other == slot && is_same_operand(other_operand, operand),
        _ => false,
    }
}

/// Returns true if a fact states that this slot contains the result of this operator on these operands.
fn says_computed(
    fact: &Fact,
    slot: usize,
    operator: BinaryOperator,
    left: Operand,
    right: Operand,
) -> bool
    ensures { result ≡ facts_of.is_same_fact fact.now (facts_are.Computed slot operator left right) }
{
    match *fact {
        Fact::Computed {
            slot: other,
            operator: other_operator,
            left: other_left,
            right: other_right,
        } => {
            other == slot
                && (is_same_operator(other_operator, operator)
                    && are_same_operands(other_left, other_right, left, right))
        }
        _ => false,
    }
}

/// Returns true if a fact states that this comparison holds.
fn says_holds(fact: &Fact, comparison: Comparison, left: Operand, right: Operand) -> bool
    ensures { result ≡ facts_of.is_same_fact fact.now (facts_are.Holds comparison left right) }
{
    match *fact {
        Fact::Holds {
            comparison: other,
            left: other_left,
            right: other_right,
        } => {
            is_same_comparison(other, comparison)
                && are_same_operands(other_left, other_right, left, right)
        }
        _ => false,
    }
}

/// Returns true if a fact states that memory has this word at this address.
fn says_held(fact: &Fact, address: Operand, offset: u32, value: Operand) -> bool
    ensures { result ≡ facts_of.is_same_fact fact.now (facts_are.Held address offset value) }
{
    match *fact {
        Fact::Held {
            address: other,
            offset: other_offset,
            value: other_value,
        } => {
            is_same_word(other, other_offset, address, offset)
                && is_same_operand(other_value, value)
        }
        _ => false,
    }
}

fn is_same_fact(one: &Fact, other: &Fact) -> bool
    ensures { result ≡ facts_of.is_same_fact one.now other.now }
{
    match *other {
        Fact::Equal { slot, operand } => says_equal(one, slot, operand),
        Fact::Computed {
            slot,
            operator,
            left,
            right,
        } => says_computed(one, slot, operator, left, right),
        Fact::Holds {
            comparison,
            left,
            right,
        } => says_holds(one, comparison, left, right),
        Fact::Held {
            address,
            offset,
            value,
        } => says_held(one, address, offset, value),
    }
}

/// Returns the fact `never`, which is never true, so that every fact follows from it.
pub(crate) fn never() -> Fact
    ensures { result ≡ facts_of.never }
{
    Fact::Holds {
        comparison: Comparison::NotEqual,
        left: Operand::Word { word: 0 },
        right: Operand::Word { word: 0 },
    }
}

fn is_never(fact: &Fact) -> bool
    ensures { result ≡ facts_of.is_same_fact fact.now facts_of.never }
{
    match *fact {
        Fact::Holds {
            comparison,
            left,
            right,
        } => {
            is_same_comparison(comparison, Comparison::NotEqual)
                && (is_same_operand(left, Operand::Word { word: 0 })
                    && is_same_operand(right, Operand::Word { word: 0 }))
        }
        _ => false,
    }
}

/// Returns true if the first fact is `never`, so that the position is unreachable.
pub(crate) fn is_unreached(facts: &[Fact]) -> bool
    ensures { result ≡ facts_of.is_unreached facts.now }
{
    match facts.get(0) {
        Some(fact) => is_never(fact),
        None => false,
    }
}

/// Returns true if the list of facts states that this slot equals this operand.
pub(crate) fn is_known_equal(facts: &[Fact], slot: usize, operand: Operand) -> bool
    ensures { result ≡ facts_of.is_known facts.now (facts_are.Equal slot operand) }
{
    for other in facts {
        if says_equal(other, slot, operand) {
            return true;
        }
    }
    false
}

fn is_known_computed(
    facts: &[Fact],
    slot: usize,
    operator: BinaryOperator,
    left: Operand,
    right: Operand,
) -> bool
    ensures { result ≡ facts_of.is_known facts.now (facts_are.Computed slot operator left right) }
{
    for other in facts {
        if says_computed(other, slot, operator, left, right) {
            return true;
        }
    }
    false
}

fn is_known_holding(facts: &[Fact], comparison: Comparison, left: Operand, right: Operand) -> bool
    ensures { result ≡ facts_of.is_known facts.now (facts_are.Holds comparison left right) }
{
    for other in facts {
        if says_holds(other, comparison, left, right) {
            return true;
        }
    }
    false
}

fn is_known_held(facts: &[Fact], address: Operand, offset: u32, value: Operand) -> bool
    ensures { result ≡ facts_of.is_known facts.now (facts_are.Held address offset value) }
{
    for other in facts {
        if says_held(other, address, offset, value) {
            return true;
        }
    }
    false
}

/// Returns true if the list contains this fact.
fn is_known(facts: &[Fact], fact: Fact) -> bool
    ensures { result ≡ facts_of.is_known facts.now fact }
{
    match fact {
        Fact::Equal { slot, operand } => is_known_equal(facts, slot, operand),
        Fact::Computed {
            slot,
            operator,
            left,
            right,
        } => is_known_computed(facts, slot, operator, left, right),
        Fact::Holds {
            comparison,
            left,
            right,
        } => is_known_holding(facts, comparison, left, right),
        Fact::Held {
            address,
            offset,
            value,
        } => is_known_held(facts, address, offset, value),
    }
}

fn is_more(more: Option<Fact>, fact: Fact) -> bool
    ensures { result ≡ table.is_more more fact }
{
    match more {
        Some(other) => is_same_fact(&other, &fact),
        None => false,
    }
}

fn is_known_with(facts: &[Fact], more: Option<Fact>, fact: Fact) -> bool
    ensures { result ≡ table.is_known_with facts.now more fact }
{
    is_known(facts, fact) || is_more(more, fact)
}

/// Returns a fact whose operands are replaced by operands known to be equal.
fn resolved_fact(facts: &[Fact], fact: Fact) -> Fact
    ensures { result ≡ table.resolved_fact facts.now fact }
{
    match fact {
        Fact::Holds {
            comparison,
            left,
            right,
        } => Fact::Holds {
            comparison,
            left: operand_in(facts, left),
            right: operand_in(facts, right),
        },
        _ => fact,
    }
}

fn are_below(left: Option<u32>, right: Option<u32>) -> bool
    ensures { result ≡ table.are_below left right }
{
    match left {
        Some(one) => match right {
            Some(other) => one < other,
            None => false,
        },
        None => false,
    }
}

/// Returns true if a fact is a comparison `<` of two known words that holds.
fn is_below(facts: &[Fact], fact: Fact) -> bool
    ensures { result ≡ table.is_below facts.now fact }
{
    match fact {
        Fact::Holds {
            comparison,
            left,
            right,
        } => {
            is_same_comparison(comparison, Comparison::LessUnsigned)
                && are_below(word_in(facts, left), word_in(facts, right))
        }
        _ => false,
    }
}

/// Returns true if a fact follows when its operands are replaced by equal ones, or is a comparison of known words that holds.
fn follows_resolved(facts: &[Fact], more: Option<Fact>, fact: Fact) -> bool
    requires { table.is_known_with facts.now more fact ≡ false }
    ensures { result ≡ (table.is_known_with facts.now more (table.resolved_fact facts.now fact) || table.is_below facts.now fact) }
{
    match fact {
        Fact::Holds { .. } => {
            is_known_with(facts, more, resolved_fact(facts, fact)) || is_below(facts, fact)
        }
        _ => false,
    }
}

/// Returns true if a fact is known, equals the additional fact (from a branch), or follows when its operands are replaced by equal ones.
pub(crate) fn follows(facts: &[Fact], more: Option<Fact>, fact: Fact) -> bool
    ensures { result ≡ table.follows facts.now more fact }
{
    is_unreached(facts) || (is_known_with(facts, more, fact) || follows_resolved(facts, more, fact))
}

/// Returns the index of a fact in the list, searched from the index `place` on, or the length of the list if it is absent.
pub(crate) fn found_from(facts: &[Fact], place: usize, fact: &Fact) -> usize
    ensures { result < length facts.now → facts_of.is_known facts.now fact.now ≡ true }
{
    for index in place..facts.len() {
        if is_same_fact(&facts[index], fact) {
            return index;
        }
    }
    facts.len()
}

/// Returns true if a fact follows from the known facts. `place` is the index of the fact in the list of known facts, if the list contains
/// it. The additional fact, such as one that a branch establishes, is compared last.
#[tactic(auto, using(crate::proofs::Found::known_follows, crate::proofs::Found::more_follows))]
pub(crate) fn follows_found(facts: &[Fact], more: &Option<Fact>, fact: &Fact, place: usize) -> bool
    requires { place < length facts.now → facts_of.is_known facts.now fact.now ≡ true }
    ensures { result ≡ table.follows facts.now more.now fact.now }
{
    place < facts.len() || (is_more(*more, *fact) || follows(facts, *more, *fact))
}

/// Returns the index in the list of known facts at which the search for the next fact begins: after the fact that was found last.
pub(crate) fn next_place(facts: &[Fact], place: usize, next: usize) -> usize {
    if place < facts.len() { place + 1 } else { next }
}

/// Returns true if all required facts are known. Looking up the required facts among the known facts is fastest if both
/// lists have their facts in the same order.
pub(crate) fn are_known(asked: &[Fact], facts: &[Fact], more: Option<Fact>) -> bool
    ensures { result ≡ table.are_known asked.now facts.now more }
{
    let mut next = 0;
    for fact in asked {
        let place = found_from(facts, next, fact);
        if !follows_found(facts, &more, fact, place) {
            return false;
        }
        next = next_place(facts, place, next);
    }
    true
}
