//! Decides which functions need extra slots for the values of expressions, and assigns these slots to the expressions.
use crate::naming::{Search, is_small};
use cyc_plain::{Function, Instruction, LAYOUT_WORDS, MOST_FRAME_WORDS, Plain};
use std::alloc::{AllocError, Global};

/// The number of a function's slots, including the extra slots for expressions. For each instruction, the struct also stores the slot
/// of its duplicate (or 0) and its hoisted instructions.
#[derive(Drop)]
pub(crate) struct Duplicates {
    pub(crate) slots: usize,
    pub(crate) wanted: Vec<usize>,
    pub(crate) all_hoisted: Vec<Vec<Instruction>>,
}

/// Returns true if the code contains a jump or branch back to an earlier or the same instruction.
fn has_loop(code: &[Instruction]) -> bool {
    for (index, instruction) in code.iter().enumerate() {
        match instruction {
            Instruction::Jump { target } | Instruction::Branch { target, .. } => {
                if *target <= index {
                    return true;
                }
            }
            _ => {}
        }
    }
    false
}

impl Search {
    /// Scans a function until no further expression can turn out to need an extra slot. Returns true if the function needs an extra slot
    /// for an expression.
    fn look_at(&mut self, plain: &Plain, function: &Function) -> Result<bool, AllocError> {
        if function.frame_count > MOST_FRAME_WORDS {
            return Ok(false);
        }
        if !is_small(function) && !has_loop(&function.code) {
            return Ok(false);
        }
        self.begin(function)?;
        for (index, instruction) in function.code.iter().enumerate() {
            if index == self.decided {
                self.settle_all()?;
                if !self.has_needed {
                    return Ok(false);
                }
            }
            self.look(plain, &function.code, instruction, index)?;
        }
        self.settle_all()?;
        Ok(self.has_needed)
    }

    /// Returns the index of the first function that needs an extra slot for an expression, or the number of functions if none does.
    /// What the search recorded about the returned function is not discarded.
    pub(crate) fn first_needing(&mut self, plain: &Plain) -> Result<usize, AllocError> {
        let functions = plain.functions();
        for (number, function) in functions.iter().enumerate() {
            if self.look_at(plain, function)? {
                self.reported = number.wrapping_add(1);
                return Ok(number);
            }
        }
        Ok(functions.len())
    }

    /// Assigns extra slots to the expressions that need them while the frame has space. Returns the function's number of slots after the
    /// assignment.
    fn give_slots(&mut self, slots: usize) -> usize {
        let mut next = slots;
        for number in 0..self.expressions.len() {
            if let Some(expression) = self.expressions.get_mut(number) {
                if expression.is_needed && next < MOST_FRAME_WORDS - LAYOUT_WORDS {
                    expression.slot = next;
                    next += 1;
                }
            }
        }
        next
    }

    /// Returns, for each instruction, the extra slot of its expression, or 0.
    fn wanted(&self, alloc: Global) -> Result<Vec<usize>, AllocError> {
        let mut wanted = Vec::with_capacity(alloc, self.places.len())?;
        for place in &self.places {
            let mut slot = 0;
            if place.seen > 0 {
                if let Some(expression) = self.expressions.get(place.seen - 1) {
                    slot = expression.slot;
                }
            }
            wanted.push(slot)?;
        }
        Ok(wanted)
    }
}

/// Returns the duplicates and hoisted instructions of a function, or `None` if it gets neither.
pub(crate) fn duplicates_of(
    alloc: Global,
    search: &mut Search,
    plain: &Plain,
    number: usize,
    function: &Function,
) -> Result<Option<Duplicates>, AllocError> {
    let is_reported = search.reported == number.wrapping_add(1);
    if !is_reported && !search.look_at(plain, function)? {
        return Ok(None);
    }
    let slots = search.give_slots(function.slots);
    if slots == function.slots {
        return Ok(None);
    }
    let wanted = search.wanted(alloc)?;
    let all_hoisted = search.preceded(alloc, &function.code)?;
    Ok(Some(Duplicates {
        slots,
        wanted,
        all_hoisted,
    }))
}
