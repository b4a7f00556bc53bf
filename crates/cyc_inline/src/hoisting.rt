//! Chooses the loop-invariant expressions that are hoisted. The search for these expressions is not
//! verified; verified code checks each expression that the search chooses.
use crate::duplicating::may_follow_hoisted;
use crate::limits::MOST_HOISTED;
use crate::naming::Search;
use crate::shapes::{COMPARED, LOAD_GLOBAL, Value};
use cyc_plain::{Instruction, Operand};
use std::alloc::{AllocError, Global};

/// An expression considered for hoisting: the index of the expression, the instruction that computes it, and the instruction
/// before which it would be hoisted, if any.
#[derive(Clone, Copy)]
pub(crate) struct Candidate {
    pub(crate) number: usize,
    pub(crate) index: usize,
    pub(crate) front: Option<usize>,
}

/// Returns the index of the instruction before which a loop's invariant expressions are hoisted: the last one before the loop header,
/// or the one before that if the last one jumps.
fn front_of(code: &[Instruction], head: usize) -> Option<usize> {
    let last = head.checked_sub(1)?;
    if may_follow_hoisted(*code.get(last)?) {
        return Some(last);
    }
    let front = last.checked_sub(1)?;
    match *code.get(front)? {
        Instruction::Branch { target, .. } if target == head => Some(front),
        _ => None,
    }
}

/// The range of list indices, from `first` up to `end`, of expressions considered for hoisting. These expressions are invariant in the loop
/// whose end was just reached, and may also be hoisted out of the enclosing loop.
#[derive(Clone, Copy)]
struct Kept {
    first: usize,
    end: usize,
}

impl Search {
    /// Returns true if the expression with the given index is among those that may also be hoisted out of the enclosing loop.
    fn is_kept(&self, number: usize, kept: Kept) -> bool {
        for at in kept.first..kept.end {
            if let Some(candidate) = self.candidates.get(at) {
                if candidate.number == number {
                    return true;
                }
            }
        }
        false
    }

    /// Returns true if a value stays the same from instruction `front` to the end of the loop that follows.
    fn is_same_from(&self, value: Value, front: usize, kept: Kept) -> bool {
        match value {
            Value::Word { .. } => true,
            Value::Slot { number } => self.written(number) <= front,
            Value::Expression { number } => self.is_kept(number, kept),
        }
    }

    /// Returns true if an expression cannot fail and its operands do not change in the loop.
    fn stays_from(&self, number: usize, front: usize, kept: Kept) -> bool {
        match self.expressions.get(number) {
            Some(expression) => {
                let shape = expression.shape;
                if shape.kind == LOAD_GLOBAL {
                    return self.stored <= front;
                }
                shape.kind < COMPARED
                    && self.is_same_from(shape.left, front, kept)
                    && self.is_same_from(shape.right, front, kept)
            }
            None => false,
        }
    }

    /// Decides if an expression is hoisted. If the expression is invariant in some loop, it is hoisted before that loop.
    fn settle(&mut self, candidate: Candidate) -> Result<(), AllocError> {
        if candidate.front.is_some() {
            self.need(candidate.number);
            self.all_hoisted.push(candidate)?;
        }
        Ok(())
    }

    /// Handles the end of a loop, if the given backward jump is the last one of the loop: decides which expressions are hoisted before the
    /// loop.
    pub(crate) fn close(
        &mut self,
        code: &[Instruction],
        target: usize,
        index: usize,
    ) -> Result<(), AllocError> {
        if self.end_of(target) == index.wrapping_add(1) {
            self.close_loop(code, target)
        } else {
            Ok(())
        }
    }

    /// Decides on hoisting at the end of a loop. The expressions that are invariant in this loop stay in the list of expressions
    /// considered for hoisting, now out of the enclosing loop. All other expressions of the ended loop are removed from this list.
    fn close_loop(&mut self, code: &[Instruction], head: usize) -> Result<(), AllocError> {
        let front = front_of(code, head);
        let first = self.first_from(head);
        let mut kept = Kept { first, end: first };
        for at in first..self.candidates.len() {
            if let Some(candidate) = self.candidates.get(at).copied() {
                if let Some(held) = self.held_on(candidate, front, head, kept)? {
                    if let Some(place) = self.candidates.get_mut(kept.end) {
                        *place = held;
                    }
                    kept.end = kept.end.wrapping_add(1);
                }
            }
        }
        self.candidates.truncate(kept.end);
        Ok(())
    }

    /// Returns an expression that is invariant in a loop as one to be hoisted before this loop, and as a possible invariant of the
    /// enclosing loop, if hoisting is allowed there.
    fn held_on(
        &mut self,
        candidate: Candidate,
        front: Option<usize>,
        head: usize,
        kept: Kept,
    ) -> Result<Option<Candidate>, AllocError> {
        let first = match front {
            Some(first) => first,
            None => head,
        };
        if !self.stays_from(candidate.number, first, kept) {
            self.settle(candidate)?;
            return Ok(None);
        }
        if front.is_some() && self.is_kept(candidate.number, kept) {
            return Ok(None);
        }
        if kept.end.wrapping_sub(kept.first) >= MOST_HOISTED {
            self.settle(candidate)?;
            return Ok(None);
        }
        let mut candidate = candidate;
        if front.is_some() {
            candidate.front = front;
        }
        Ok(Some(candidate))
    }

    /// Returns the list index of the first expression considered for hoisting whose instruction is at or after `head`.
    fn first_from(&self, head: usize) -> usize {
        let count = self.candidates.len();
        for at in (0..count).rev() {
            if let Some(candidate) = self.candidates.get(at) {
                if candidate.index < head {
                    return at.wrapping_add(1);
                }
            }
        }
        0
    }

    /// Decides, after the last loop, about hoisting each expression that is still in the list of possible loop invariants.
    pub(crate) fn settle_all(&mut self) -> Result<(), AllocError> {
        for at in 0..self.candidates.len() {
            if let Some(candidate) = self.candidates.get(at) {
                let candidate = *candidate;
                self.settle(candidate)?;
            }
        }
        self.candidates.clear();
        Ok(())
    }

    /// Returns the operand (a constant word or a slot) that denotes a value of a hoisted expression.
    fn operand_of(&self, value: Value) -> Option<Operand> {
        match value {
            Value::Word { word } => Some(Operand::Word { word }),
            Value::Slot { number } => Some(Operand::Slot { number }),
            Value::Expression { number } => match self.expressions.get(number) {
                Some(expression) if expression.slot > 0 => Some(Operand::Slot {
                    number: expression.slot,
                }),
                _ => None,
            },
        }
    }

    /// Returns the instruction that computes an expression of the code into the expression's own slot.
    fn hoisted_of(&self, code: &[Instruction], number: usize) -> Option<Instruction> {
        let expression = self.expressions.get(number)?;
        let destination = expression.slot;
        if destination == 0 {
            return None;
        }
        match *code.get(expression.index)? {
            Instruction::Binary { operator, .. } => Some(Instruction::Binary {
                operator,
                destination,
                left: self.operand_of(expression.shape.left)?,
                right: self.operand_of(expression.shape.right)?,
            }),
            Instruction::LoadGlobal { global, .. } => Some(Instruction::LoadGlobal {
                destination,
                global,
            }),
            _ => None,
        }
    }

    fn push_hoisted(
        &self,
        code: &[Instruction],
        number: usize,
        all_hoisted: Option<&mut Vec<Instruction>>,
    ) -> Result<(), AllocError> {
        if let Some(hoisted) = self.hoisted_of(code, number) {
            if let Some(all_hoisted) = all_hoisted {
                all_hoisted.push(hoisted)?;
            }
        }
        Ok(())
    }

    /// Returns, for each instruction of a code, the instructions hoisted before it.
    pub(crate) fn preceded(
        &self,
        alloc: Global,
        code: &[Instruction],
    ) -> Result<Vec<Vec<Instruction>>, AllocError> {
        let mut all = Vec::with_capacity(alloc, code.len())?;
        for _ in 0..code.len() {
            all.push(Vec::new(alloc))?;
        }
        for candidate in &self.all_hoisted {
            if let Some(front) = candidate.front {
                self.push_hoisted(code, candidate.number, all.get_mut(front))?;
            }
        }
        Ok(all)
    }
}
