//! Chooses the expressions of a function that get extra slots. An extra slot is given to an expression that is computed again after its
//! slot was overwritten, and to a loop invariant, which is also hoisted. The search for such expressions is not verified; verified code
//! checks each expression that the search chooses.
use crate::hoisting::Candidate;
use crate::shapes::{LOAD, LOAD_GLOBAL, Shape, Value, bucket_of, is_same_shape, is_slot, kind_of};
use crate::writing::{Slots, pinned_by, slots_from, stores, written_by};
use cyc_plain::{BinaryOperator, Function, Instruction, Operand, Plain};
use std::alloc::{AllocError, Global};

/// The maximum number of expressions in a hash bucket that are compared.
const MOST_COMPARED: usize = 8;

/// The maximum number of instructions of a small function. In a small function, expressions outside loops may also get an extra slot.
const MOST_SMALL: usize = 256;

#[derive(Clone, Copy)]
pub(crate) struct Expression {
    pub(crate) shape: Shape,
    /// The first instruction that computes the expression.
    pub(crate) index: usize,
    /// One more than the index of the previous expression in the same hash bucket, or 0 if there is none.
    before: usize,
    /// The time (instruction index plus 1) at which the expression was last computed, and the time since which the expression
    /// has had its present value.
    seen_at: usize,
    since: usize,
    /// The slot into which the expression was last computed.
    holder: usize,
    /// True if the expression was computed again after the slot that held it was overwritten, or is hoisted before a loop.
    pub(crate) is_needed: bool,
    /// The extra slot of the expression, or 0 if it has none.
    pub(crate) slot: usize,
}

/// The facts known at the current instruction about a slot: when it was last written, and its value.
#[derive(Clone, Copy)]
struct Held {
    /// The time (instruction index plus 1) of the last write to the slot, and the value that the slot has had since then.
    written: usize,
    value: Value,
    /// True if the slot's address is taken.
    is_pinned: bool,
}

/// The facts about a slot that no instruction has written yet.
const UNWRITTEN: Held = Held {
    written: 0,
    value: Value::Word { word: 0 },
    is_pinned: false,
};

/// The facts known about an instruction: the last jump back to it, and the expression that it computes.
#[derive(Clone, Copy)]
pub(crate) struct Place {
    /// One more than the index of the last instruction that jumps back to this instruction, or 0 if none does.
    end: usize,
    /// One more than the index of the expression that the instruction computes, or 0 if it computes none.
    pub(crate) seen: usize,
    /// One more than the index of the newest expression in the hash bucket with this index, or 0 if the bucket is empty. The
    /// hash table has as many buckets as the function has instructions.
    newest: usize,
}

/// The facts about an instruction that has not been visited yet.
const UNSEEN: Place = Place {
    end: 0,
    seen: 0,
    newest: 0,
};

/// The facts known about a function. The lists in this struct are reused for the next function, which saves allocations.
#[derive(Drop)]
pub(crate) struct Search {
    held: Vec<Held>,
    pub(crate) places: Vec<Place>,
    pub(crate) expressions: Vec<Expression>,
    /// The expressions considered for hoisting out of loops that have not ended yet, and the expressions chosen to be hoisted.
    pub(crate) candidates: Vec<Candidate>,
    pub(crate) all_hoisted: Vec<Candidate>,
    /// The time (instruction index plus 1) of the last change of memory, and the time since which the recorded values of slots are valid.
    pub(crate) stored: usize,
    begun: usize,
    /// The last instruction at which an expression may get an extra slot: the last instruction of the loops found so far, or of a
    /// small function.
    worth: usize,
    /// One more than the index of the last instruction of the loops found so far, or 0.
    looped: usize,
    /// The index of the first instruction from which on no expression can turn out to need an extra slot; it follows every loop and any
    /// small function.
    pub(crate) decided: usize,
    /// True if some expression needs an extra slot.
    pub(crate) has_needed: bool,
    /// One more than the index of the function that these facts describe, or 0 if they describe none.
    pub(crate) reported: usize,
}

pub(crate) fn is_small(function: &Function) -> bool {
    function.code.len() <= MOST_SMALL
}

impl Search {
    pub(crate) fn new(alloc: Global) -> Search {
        Search {
            held: Vec::new(alloc),
            places: Vec::new(alloc),
            expressions: Vec::new(alloc),
            candidates: Vec::new(alloc),
            all_hoisted: Vec::new(alloc),
            stored: 0,
            begun: 1,
            worth: 0,
            looped: 0,
            decided: 0,
            has_needed: false,
            reported: 0,
        }
    }

    // ---- the tables of a function

    /// Resets the tables of facts about slots, instructions and expressions, before another function is examined.
    pub(crate) fn begin(&mut self, function: &Function) -> Result<(), AllocError> {
        self.held.clear();
        self.held.resize(function.slots, UNWRITTEN)?;
        self.places.clear();
        self.places.resize(function.code.len(), UNSEEN)?;
        self.expressions.clear();
        self.candidates.clear();
        self.all_hoisted.clear();
        self.stored = 0;
        self.begun = 1;
        self.worth = if is_small(function) {
            function.code.len()
        } else {
            0
        };
        self.looped = 0;
        self.decided = self.worth;
        self.has_needed = false;
        self.note_ends(&function.code);
        Ok(())
    }

    /// Records where loops end, and which slots have their addresses taken.
    fn note_ends(&mut self, code: &[Instruction]) {
        for (index, instruction) in code.iter().enumerate() {
            match instruction {
                Instruction::Jump { target } | Instruction::Branch { target, .. } => {
                    if *target <= index {
                        self.end_at(*target, index.wrapping_add(1));
                    }
                }
                Instruction::AddressOf { .. } | Instruction::Try { .. } => {
                    self.pin(pinned_by(instruction));
                }
                _ => {}
            }
        }
    }

    /// Records that a loop begins at instruction `head` and ends before instruction `end`.
    fn end_at(&mut self, head: usize, end: usize) {
        if let Some(place) = self.places.get_mut(head) {
            place.end = end;
        }
        self.decided = later(self.decided, end);
    }

    fn pin(&mut self, slots: Slots) {
        for word in 0..slots.count {
            if let Some(held) = self.held.get_mut(slots.first.wrapping_add(word)) {
                held.is_pinned = true;
            }
        }
    }

    /// Returns one more than the index of the last instruction that jumps back to the given one, or 0 if none does.
    pub(crate) fn end_of(&self, index: usize) -> usize {
        match self.places.get(index) {
            Some(place) => place.end,
            None => 0,
        }
    }

    fn is_pinned(&self, slot: usize) -> bool {
        match self.held.get(slot) {
            Some(held) => held.is_pinned,
            None => true,
        }
    }

    /// Returns the time (instruction index plus 1) of the last write to a slot.
    pub(crate) fn written(&self, slot: usize) -> usize {
        match self.held.get(slot) {
            Some(held) => held.written,
            None => 0,
        }
    }

    // ---- values

    /// Returns the time (instruction index plus 1) at which the word that a value stands for last changed.
    fn changed(&self, value: Value) -> usize {
        match value {
            Value::Word { .. } => 0,
            Value::Slot { number } => self.written(number),
            Value::Expression { number } => match self.expressions.get(number) {
                Some(expression) => expression.since,
                None => 0,
            },
        }
    }

    /// Returns the value of a slot: the value written last, if it is still valid, or else the slot itself as an unknown value.
    fn value_by(&self, held: &Held, slot: usize) -> Value {
        if held.written >= self.begun && self.changed(held.value) <= held.written {
            held.value
        } else {
            Value::Slot { number: slot }
        }
    }

    /// Returns the value of a slot, or `None` if the slot's address is taken.
    fn free_in(&self, slot: usize) -> Option<Value> {
        let held = self.held.get(slot)?;
        if held.is_pinned {
            None
        } else {
            Some(self.value_by(held, slot))
        }
    }

    /// Returns the value of an operand, or `None` if it is a slot whose address is taken.
    fn free_of(&self, operand: Operand) -> Option<Value> {
        match operand {
            Operand::Word { word } => Some(Value::Word { word }),
            Operand::Slot { number } => self.free_in(number),
        }
    }

    /// Returns the value of an operand. The value of a slot whose address is taken is the slot itself.
    fn value_of(&self, operand: Operand) -> Value {
        match operand {
            Operand::Word { word } => Value::Word { word },
            Operand::Slot { number } => match self.free_in(number) {
                Some(value) => value,
                None => Value::Slot { number },
            },
        }
    }

    /// Returns the expression that an operator computes into a slot, if the slot's address is not taken.
    fn shape_of(
        &self,
        operator: BinaryOperator,
        destination: usize,
        left: Operand,
        right: Operand,
    ) -> Option<Shape> {
        let kind = kind_of(operator)?;
        let left = self.free_of(left)?;
        let right = self.free_of(right)?;
        if is_slot(left, destination) || is_slot(right, destination) {
            None
        } else {
            Some(Shape { kind, left, right })
        }
    }

    /// Returns the expression that a load from an address computes.
    fn loaded_from(&self, address: Operand, offset: u32) -> Shape {
        Shape {
            kind: LOAD,
            left: self.value_of(address),
            right: Value::Word { word: offset },
        }
    }

    /// Returns the time (instruction index plus 1) at which an operand of an expression last changed.
    fn made(&self, shape: Shape) -> usize {
        if shape.kind == LOAD_GLOBAL {
            return self.stored;
        }
        let operands = later(self.changed(shape.left), self.changed(shape.right));
        if shape.kind == LOAD {
            later(operands, self.stored)
        } else {
            operands
        }
    }

    // ---- computed expressions

    /// Returns one more than the index of the first recorded expression in a hash bucket with the given shape (operation and operands), or
    /// 0 if there is none.
    fn find(&self, shape: Shape, newest: usize) -> usize {
        let mut at = newest;
        for _ in 0..MOST_COMPARED {
            if at == 0 {
                return 0;
            }
            match self.expressions.get(at - 1) {
                Some(expression) => {
                    if is_same_shape(expression.shape, shape) {
                        return at;
                    }
                    at = expression.before;
                }
                None => {
                    return 0;
                }
            }
        }
        0
    }

    /// Records that an expression that was computed before is computed again into a slot.
    fn see_again(&mut self, number: usize, made: usize, slot: usize, time: usize) {
        let written = match self.expressions.get(number) {
            Some(expression) => self.written(expression.holder),
            None => 0,
        };
        let is_worth = time <= self.worth;
        let mut is_needed = false;
        if let Some(expression) = self.expressions.get_mut(number) {
            if expression.seen_at < made {
                expression.since = time;
            } else if is_worth && written > expression.seen_at {
                is_needed = true;
                expression.is_needed = true;
            }
            expression.seen_at = time;
            expression.holder = slot;
        }
        self.has_needed = self.has_needed || is_needed;
    }

    /// Records that an expression is computed into a slot. Returns one more than the expression's index.
    fn see(&mut self, shape: Shape, index: usize, slot: usize) -> Result<usize, AllocError> {
        let time = index.wrapping_add(1);
        let bucket = bucket_of(shape, self.places.len());
        let newest = match self.places.get(bucket) {
            Some(place) => place.newest,
            None => 0,
        };
        let at = self.find(shape, newest);
        if at > 0 {
            let made = self.made(shape);
            self.see_again(at - 1, made, slot, time);
            return Ok(at);
        }
        self.expressions.push(Expression {
            shape,
            index,
            before: newest,
            seen_at: time,
            since: time,
            holder: slot,
            is_needed: false,
            slot: 0,
        })?;
        let at = self.expressions.len();
        if let Some(place) = self.places.get_mut(bucket) {
            place.newest = at;
        }
        Ok(at)
    }

    /// Records that an instruction computes or loads an expression into a slot. Within a loop the expression is added to those
    /// considered for hoisting.
    fn compute(&mut self, shape: Shape, index: usize, slot: usize) -> Result<(), AllocError> {
        let time = index.wrapping_add(1);
        if self.is_pinned(slot) {
            self.stored = time;
            return Ok(());
        }
        let at = self.see(shape, index, slot)?;
        if let Some(place) = self.places.get_mut(index) {
            place.seen = at;
        }
        let number = at.wrapping_sub(1);
        if time <= self.looped {
            self.candidates.push(Candidate {
                number,
                index,
                front: None,
            })?;
        }
        self.write(slot, Value::Expression { number }, time);
        Ok(())
    }

    /// Marks the expression with the given index as one that needs an extra slot.
    pub(crate) fn need(&mut self, number: usize) {
        if let Some(expression) = self.expressions.get_mut(number) {
            expression.is_needed = true;
        }
        self.has_needed = true;
    }

    // ---- writes

    /// Records that a slot is written with the given value.
    fn write(&mut self, slot: usize, value: Value, time: usize) {
        let mut is_pinned = true;
        if let Some(held) = self.held.get_mut(slot) {
            is_pinned = held.is_pinned;
            if !is_pinned {
                held.written = time;
                held.value = value;
            }
        }
        if is_pinned {
            self.stored = time;
        }
    }

    /// Records that consecutive slots are copied to other slots.
    fn copy(&mut self, destination: usize, source: usize, count: usize, time: usize) {
        for word in 0..count {
            let slot = destination.wrapping_add(word);
            let value = match self.free_in(source.wrapping_add(word)) {
                Some(value) => value,
                None => Value::Slot { number: slot },
            };
            self.write(slot, value, time);
        }
    }

    /// Records that the values of the slots that an instruction writes are unknown from now on.
    fn renew(&mut self, slots: Slots, time: usize) {
        for word in 0..slots.count {
            let slot = slots.first.wrapping_add(word);
            self.write(slot, Value::Slot { number: slot }, time);
        }
    }

    /// Records that an operator computes a value into a slot.
    fn operate(
        &mut self,
        operator: BinaryOperator,
        destination: usize,
        left: Operand,
        right: Operand,
        index: usize,
    ) -> Result<(), AllocError> {
        match self.shape_of(operator, destination, left, right) {
            Some(shape) => self.compute(shape, index, destination),
            None => {
                self.renew(slots_from(destination, 1), index.wrapping_add(1));
                Ok(())
            }
        }
    }

    /// Records that a slot receives the word loaded from an address.
    fn load(
        &mut self,
        destination: usize,
        address: Operand,
        offset: u32,
        index: usize,
    ) -> Result<(), AllocError> {
        let shape = self.loaded_from(address, offset);
        self.compute(shape, index, destination)
    }

    /// Updates the facts before an instruction: if a loop begins there, the recorded values of all slots become invalid.
    fn come_to(&mut self, index: usize) {
        let end = self.end_of(index);
        if end > 0 {
            self.begun = index.wrapping_add(1);
            self.worth = later(self.worth, end);
            self.looped = later(self.looped, end);
        }
    }

    /// Updates the facts about slots, expressions and memory by the effect of one instruction.
    pub(crate) fn look(
        &mut self,
        plain: &Plain,
        code: &[Instruction],
        instruction: &Instruction,
        index: usize,
    ) -> Result<(), AllocError> {
        let time = index.wrapping_add(1);
        self.come_to(index);
        match *instruction {
            Instruction::Binary {
                operator,
                destination,
                left,
                right,
            } => self.operate(operator, destination, left, right, index)?,
            Instruction::Load {
                destination,
                address,
                offset,
            } => self.load(destination, address, offset, index)?,
            Instruction::LoadGlobal {
                destination,
                global,
            } => self.compute(loaded_global(global), index, destination)?,
            Instruction::Move {
                destination,
                source: Operand::Slot { number },
            } => self.copy(destination, number, 1, time),
            Instruction::MoveWords {
                destination,
                source,
                count,
            } => self.copy(destination, source, count, time),
            Instruction::Jump { target } | Instruction::Branch { target, .. } => {
                self.close(code, target, index)?;
            }
            _ => {
                self.renew(written_by(plain, instruction), time);
                if stores(instruction) {
                    self.stored = time;
                }
            }
        }
        Ok(())
    }
}

/// Returns the expression that a load of a global computes.
fn loaded_global(global: usize) -> Shape {
    Shape {
        kind: LOAD_GLOBAL,
        left: Value::Slot { number: global },
        right: Value::Word { word: 0 },
    }
}

fn later(one: usize, other: usize) -> usize {
    if one < other { other } else { one }
}
