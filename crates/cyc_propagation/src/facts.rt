//! The facts at a code position, with a bit mask of the slots known to equal other slots.
ghost use Rattle.std.specs.Prelude.{◌≡◌, ◌%◌};
ghost use Rattle.std.specs.Int.{bit_at};
ghost use Rattle.cyc_propagation.specs.declared.fact.Fact.{Fact};
ghost use Rattle.cyc_propagation.specs.declared.fact.Touched.TheVariants as touches;
ghost use Rattle.cyc_propagation.specs.inside.Copies.{IsMarked, AreMarked, IsAboutOperand, IsAbout, AreAbout};

use crate::changes::{changes_nothing, keep};
use crate::effects::remember;
use crate::fact::{Fact, Touched, Written};
use crate::known::is_unreached;
use cyc_plain::Operand;
use std::alloc::{AllocError, Global};
use std::marker::Model;

/// The bit mask of all slots, for the case that each slot may equal another one.
const ANY_SLOT: u64 = u64::MAX;

/// A list of facts, with bit masks that show quickly that an operand equals no other slot, or that it occurs in no fact.
#[derive(Drop)]
pub(crate) struct Facts {
    facts: Vec<Fact>,
    /// A bit mask of the slots known to equal other slots: slot n has bit n modulo 64. A slot that equals
    /// no other slot may have the same bit as one that does.
    copies: u64,
    /// A bit mask of all slots that occur in the facts: slot n has bit n modulo 64. A slot that occurs in
    /// no fact may have the same bit as one that does.
    slots: u64,
}

impl Model for Facts {
    ghost use Rattle.std.specs.Prelude.{List};
    ghost use Rattle.cyc_propagation.specs.declared.fact.Fact.{Fact};
    ghost use Rattle.cyc_propagation.specs.inside.Copies.{AreMarked, AreAbout};

    ghost Value = { List Fact };

    ghost view = { λ f. f.facts.items };

    ghost invariant = { λ f. AreMarked f.copies f.facts.items × AreAbout f.slots f.facts.items };
}

/// Returns the bit of a slot in the masks; several slots may share a bit.
fn bit_of(slot: usize) -> u64
    ensures { bit_at result (slot % 64) ≡ 1 }
{
    1 << (slot % 64)
}

/// Returns the mask with the bit of the slot that a fact equates with another one.
fn with_copy(copies: u64, fact: &Fact) -> u64
    ensures more { (other : Fact) → IsMarked copies other → IsMarked result other }
    ensures has { IsMarked result fact.now }
{
    match *fact {
        Fact::Equal { slot, operand } => match operand {
            Operand::Slot { .. } => copies | bit_of(slot),
            Operand::Word { .. } => copies,
        },
        _ => copies,
    }
}

fn copies_in(facts: &[Fact]) -> u64
    ensures { AreMarked result facts.now }
{
    let mut copies = 0;
    for fact in facts {
        copies = with_copy(copies, fact);
    }
    copies
}

/// Returns the bit of an operand that is a slot, or 0 for an operand that is a constant.
fn bits_of(operand: Operand) -> u64
    ensures { IsAboutOperand result operand }
{
    match operand {
        Operand::Slot { number } => bit_of(number),
        Operand::Word { .. } => 0,
    }
}

/// Returns the bits of the slots that occur in a fact.
fn slots_of(fact: &Fact) -> u64
    ensures { IsAbout result fact.now }
{
    match *fact {
        Fact::Equal { slot, operand } => bit_of(slot) | bits_of(operand),
        Fact::Computed {
            slot,
            left,
            right,
            ..
        } => bit_of(slot) | (bits_of(left) | bits_of(right)),
        Fact::Holds { left, right, .. } => bits_of(left) | bits_of(right),
        Fact::Held { address, value, .. } => bits_of(address) | bits_of(value),
    }
}

/// Returns the mask with the bits of the slots that occur in a fact.
fn with_slots(slots: u64, fact: &Fact) -> u64
    ensures more { (other : Fact) → IsAbout slots other → IsAbout result other }
    ensures has { IsAbout result fact.now }
{
    slots | slots_of(fact)
}

fn slots_in(facts: &[Fact]) -> u64
    ensures { AreAbout result facts.now }
{
    let mut slots = 0;
    for fact in facts {
        slots = with_slots(slots, fact);
    }
    slots
}

/// Returns the bit mask of the slots that occur in the facts known after an instruction, before which there were `count` facts. The bit
/// mask is recomputed only if one slot was written and a fact was dropped, since several slots share one bit.
fn slots_after(slots: u64, facts: &[Fact], written: Written, count: usize) -> u64
    ensures { AreAbout slots facts.now → AreAbout result facts.now }
{
    if written.count == 1 && facts.len() == count {
        slots_in(facts)
    } else {
        slots
    }
}

impl Facts {
    ghost use Rattle.std.specs.Prelude.{◌≡◌, ℕ, [], ◌∷◌, false, true, OnOk, Some};
    ghost use Rattle.cyc_plain.specs.declared.instruction.BinaryOperator.{BinaryOperator};
    ghost use Rattle.cyc_plain.specs.declared.instruction.Instruction.TheVariants as instructions;
    ghost use Rattle.cyc_plain.specs.declared.instruction.Operand.{Operand};
    ghost use Rattle.cyc_propagation.specs.declared.fact.Fact.TheVariants as facts_are;
    ghost use Rattle.cyc_propagation.specs.inside.Facts as facts_of;
    ghost use Rattle.cyc_propagation.specs.inside.Replacement as replacement;

    /// Returns true if the only known fact is that the position is unreachable.
    #[tactic(auto, using(crate::proofs::Straight::never_alone))]
    pub(crate) fn are_of_no_run(&self) -> bool
        ensures { result ≡ true → self.now ≡ facts_of.never ∷ [] }
    {
        self.facts.len() == 1 && is_unreached(&self.facts)
    }

    /// Returns no facts.
    pub(crate) fn new(alloc: Global) -> Facts
        ensures { result ≡ [] }
    {
        Facts {
            facts: Vec::new(alloc),
            copies: 0,
            slots: 0,
        }
    }

    pub(crate) fn all(&self) -> &[Fact]
        ensures { result.now ≡ self.now }
    {
        &self.facts
    }

    /// Returns true if some fact may state that this operand equals another one.
    pub(crate) fn may_be_copy(&self, operand: Operand) -> bool
        ensures { result ≡ false → replacement.simplified_operand self.now operand ≡ operand }
    {
        match operand {
            Operand::Slot { number } => self.copies & bit_of(number) != 0,
            Operand::Word { .. } => false,
        }
    }

    pub(crate) fn clear(&mut self)
        ensures { self.new ≡ [] }
    {
        self.facts.clear();
        self.copies = 0;
        self.slots = 0;
    }

    /// Replaces the known facts by the given facts.
    pub(crate) fn replace(&mut self, facts: &[Fact]) -> Result<(), AllocError>
        ensures { OnOk result (self.new ≡ facts.now) }
    {
        self.copies = ANY_SLOT;
        self.slots = ANY_SLOT;
        self.facts.clear();
        self.facts.extend_from_slice(facts)?;
        self.copies = copies_in(facts);
        self.slots = slots_in(facts);
        Ok(())
    }

    /// Returns true if this slot may occur in a known fact.
    pub(crate) fn may_be_about(&self, slot: usize) -> bool
        ensures kept { result ≡ false → facts_of.kept (record { first = slot; count = 1 }) touches.Nothing self.now ≡ self.now }
        ensures unknown { result ≡ false → (operand : Operand) → facts_of.is_known self.now (facts_are.Equal slot operand) ≡ false }
    {
        self.slots & bit_of(slot) != 0
    }

    /// Returns true if a fact may state the result of an operator on this operand. If a slot occurs in no fact, no slot is known
    /// to contain a result computed from it.
    pub(crate) fn may_tell_of(&self, operand: Operand) -> bool
        ensures { result ≡ false → (operator : BinaryOperator) (destination : ℕ) (right : Operand)
            → replacement.simplified_of self.now operator destination operand right ≡ instructions.Binary operator destination operand right }
    {
        match operand {
            Operand::Slot { number } => self.slots & bit_of(number) != 0,
            Operand::Word { .. } => true,
        }
    }

    /// Returns true if the bit masks show that nothing that an instruction writes or changes occurs in a fact. Most instructions write
    /// just one slot that occurs in no fact, so that all known facts stay true.
    fn leaves_all(&self, slots: Written, touched: Touched) -> bool
        ensures { result ≡ true → facts_of.kept slots touched self.now ≡ self.now }
    {
        match touched {
            Touched::Nothing => slots.count == 1 && !self.may_be_about(slots.first),
            _ => false,
        }
    }

    /// Removes the facts about written slots and about changed memory.
    pub(crate) fn keep(&mut self, slots: Written, touched: Touched)
        ensures { self.new ≡ facts_of.kept slots touched self.old }
    {
        if changes_nothing(slots, touched) {
            return;
        }
        if self.leaves_all(slots, touched) {
            return;
        }
        let count = self.facts.len();
        keep(&mut self.facts, slots, touched);
        self.slots = slots_after(self.slots, &self.facts, slots, count);
    }

    /// Adds a fact to the known facts. If the list of facts has its maximal length, the oldest fact is dropped.
    pub(crate) fn add(&mut self, fact: Fact) -> Result<(), AllocError>
        ensures { OnOk result (self.new ≡ facts_of.remembered self.old (Some fact)) }
    {
        let copies = with_copy(self.copies, &fact);
        let slots = with_slots(self.slots, &fact);
        self.copies = ANY_SLOT;
        self.slots = ANY_SLOT;
        remember(&mut self.facts, fact)?;
        self.copies = copies;
        self.slots = slots;
        Ok(())
    }

    /// Adds a fact, if one is given, to the known facts.
    pub(crate) fn remember(&mut self, made: Option<Fact>) -> Result<(), AllocError>
        ensures { OnOk result (self.new ≡ facts_of.remembered self.old made) }
    {
        match made {
            Some(fact) => self.add(fact),
            None => Ok(()),
        }
    }
}
