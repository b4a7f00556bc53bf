//! Computes the facts known after an instruction.
ghost use Rattle.std.specs.Prelude.{◌≡◌, ◌+◌, ◌<◌, ◌^◌, OnOk, Some};
ghost use Rattle.cyc_propagation.specs.inside.Facts as facts_of;

use crate::changes::{one, touched, touched_by, written};
use crate::fact::{Fact, MOST_FACTS};
use crate::facts::Facts;
use crate::known::is_slot;
use crate::outcomes::{copied, is_not, is_test, made, suited, suits, tested, truth_in};
use cyc_plain::{BinaryOperator, Instruction, Operand, Plain};
use std::alloc::AllocError;

/// Adds a fact to a list. If the list of facts has its maximal length, the oldest fact is dropped.
pub(crate) fn remember(facts: &mut Vec<Fact>, fact: Fact) -> Result<(), AllocError>
    ensures { OnOk result (facts.new.items ≡ facts_of.remembered facts.old.items (Some fact)) }
{
    if facts.len() >= MOST_FACTS {
        facts.remove(0);
    }
    if facts.len() < facts.capacity() {
        facts.push_reserved(fact);
    } else {
        facts.push(fact)?;
    }
    Ok(())
}

/// Adds the facts about words that an instruction copies: at most three, the words of a pointer with its bounds.
fn remember_copies(
    pinned: &[bool],
    facts: &mut Facts,
    instruction: Instruction,
) -> Result<(), AllocError>
    ensures { OnOk result (facts.new ≡ facts_of.with_copies pinned.now instruction facts.old) }
{
    match instruction {
        Instruction::MoveWords { .. } => {
            facts.remember(copied(pinned, instruction, 0))?;
            facts.remember(copied(pinned, instruction, 1))?;
            facts.remember(copied(pinned, instruction, 2))
        }
        _ => Ok(()),
    }
}

/// Adds the fact that an instruction's result is 1 or 0, if the instruction is a test.
fn remember_test(
    pinned: &[bool],
    facts: &mut Facts,
    instruction: Instruction,
) -> Result<(), AllocError>
    ensures { OnOk result (facts.new ≡ facts_of.remembered facts.old (facts_of.tested pinned.now instruction)) }
{
    match instruction {
        Instruction::Unary { operator, .. } => {
            if is_not(operator) {
                facts.remember(tested(pinned, instruction))
            } else {
                Ok(())
            }
        }
        Instruction::Binary { operator, .. } => {
            if is_test(operator) {
                facts.remember(tested(pinned, instruction))
            } else {
                Ok(())
            }
        }
        _ => Ok(()),
    }
}

/// Adds the fact that states how an operator computed the value of its destination slot, if there is such a fact.
fn remember_result(
    pinned: &[bool],
    facts: &mut Facts,
    operator: BinaryOperator,
    destination: usize,
    left: Operand,
    right: Operand,
) -> Result<(), AllocError>
    ensures { OnOk result (facts.new ≡ facts_of.remembered facts.old (facts_of.computed pinned.now operator destination left right)) }
{
    let fact = Fact::Computed {
        slot: destination,
        operator,
        left,
        right,
    };
    if (is_slot(left, destination) || is_slot(right, destination)) || !suits(pinned, &fact) {
        return Ok(());
    }
    facts.add(fact)
}

/// Adds the fact that an operator's result is 1 or 0, if the operator is a test.
fn remember_truth(
    pinned: &[bool],
    facts: &mut Facts,
    operator: BinaryOperator,
    destination: usize,
) -> Result<(), AllocError>
    ensures { OnOk result (facts.new ≡ facts_of.remembered facts.old (facts_of.truth_of pinned.now operator destination)) }
{
    if is_test(operator) {
        facts.remember(suited(pinned, truth_in(destination)))
    } else {
        Ok(())
    }
}

/// Removes the facts about a slot that is written. Returns at once if no fact is known.
fn leave_others(pinned: &[bool], facts: &mut Facts, destination: usize)
    ensures { facts.new ≡ facts_of.kept (record { first = destination; count = 1 }) (facts_of.touched_by pinned.now destination) facts.old }
{
    if facts.all().is_empty() {
        return;
    }
    facts.keep(one(destination), touched_by(pinned, destination));
}

/// Removes the facts that an instruction invalidates. Returns at once if no fact is known.
fn leave(plain: &Plain, pinned: &[bool], facts: &mut Facts, instruction: Instruction)
    ensures { facts.new ≡ facts_of.kept (facts_of.written plain.now instruction) (facts_of.touched pinned.now instruction) facts.old }
{
    if facts.all().is_empty() {
        return;
    }
    facts.keep(written(plain, instruction), touched(pinned, instruction));
}

/// Updates the known facts after an operator.
fn compute(
    pinned: &[bool],
    facts: &mut Facts,
    operator: BinaryOperator,
    destination: usize,
    left: Operand,
    right: Operand,
) -> Result<(), AllocError>
    ensures { OnOk result (facts.new ≡ facts_of.facts_after_operator pinned.now facts.old operator destination left right) }
{
    leave_others(pinned, facts, destination);
    remember_truth(pinned, facts, operator, destination)?;
    remember_result(pinned, facts, operator, destination, left, right)
}

/// Updates the known facts after an instruction other than an operator.
fn go_on_otherwise(
    plain: &Plain,
    pinned: &[bool],
    facts: &mut Facts,
    instruction: Instruction,
    index: usize,
) -> Result<(), AllocError>
    requires { index + 1 < 2 ^ 64 }
    ensures { OnOk result (facts.new ≡ facts_of.facts_after plain.now pinned.now facts.old instruction index (index + 1)) }
{
    leave(plain, pinned, facts, instruction);
    remember_copies(pinned, facts, instruction)?;
    remember_test(pinned, facts, instruction)?;
    facts.remember(made(pinned, instruction, index, index + 1))
}

/// Updates the known facts after an instruction, so that they hold at the next position.
pub(crate) fn go_on(
    plain: &Plain,
    pinned: &[bool],
    facts: &mut Facts,
    instruction: Instruction,
    index: usize,
) -> Result<(), AllocError>
    requires { index + 1 < 2 ^ 64 }
    ensures { OnOk result (facts.new ≡ facts_of.facts_after plain.now pinned.now facts.old instruction index (index + 1)) }
{
    match instruction {
        Instruction::Binary {
            operator,
            destination,
            left,
            right,
        } => compute(pinned, facts, operator, destination, left, right),
        _ => go_on_otherwise(plain, pinned, facts, instruction, index),
    }
}
