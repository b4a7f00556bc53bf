//! Spill costs: the cost of keeping each slot in memory, used to select the slots that may get registers. The code is unverified: a
//! checker validates the chosen homes (registers or memory), no matter which slots are selected.
use crate::liveness::MOST_CHOSEN;
use cyc_plain::{Function, Instruction, Operand, Request};
use std::alloc::{AllocError, Global};

/// `GAIN_BITS` is the number of bits of a gain (the execution cost that a register saves), and `HIGHEST_GAIN_BIT` is its highest bit.
const GAIN_BITS: usize = 64;

const HIGHEST_GAIN_BIT: u64 = 1 << 63;

/// The estimated number of executed reads and writes of a slot.
#[derive(Clone, Copy)]
struct SpillCost {
    reads: u64,
    writes: u64,
    /// The index in an argument or parameter list at which the slot is passed most often.
    place: usize,
    /// The estimated number of times that the slot is passed at the index `place` of an argument or parameter list.
    handed: u64,
}

/// The execution cost that registers save for the slots of a function.
#[derive(Drop)]
pub(crate) struct SpillCosts {
    slots: Vec<SpillCost>,
    calls: u64,
    /// The code positions of backward jumps, in ascending order.
    pub(crate) backward: Vec<usize>,
}

/// The facts about loops and jumps at one position in the code.
#[derive(Clone, Copy)]
struct Place {
    /// The code position after the last backward jump that targets the current position, or 0 if no backward jump targets it.
    end: usize,
    /// The number of loops that end at the instruction just before this code position.
    closing: u64,
    /// True if a reachable jump from an earlier position targets the code position.
    is_reached: bool,
}

/// Returns the jump target of an instruction; an exception handler is not a jump target.
fn target_of(instruction: Instruction) -> Option<usize> {
    match instruction {
        Instruction::Jump { target } => Some(target),
        Instruction::Branch { target, .. } => Some(target),
        _ => None,
    }
}

/// Returns true if control may continue at the next instruction.
pub(crate) fn goes_on(instruction: Instruction) -> bool {
    match instruction {
        Instruction::Jump { .. }
        | Instruction::Return { .. }
        | Instruction::Throw { .. }
        | Instruction::Finish { .. }
        | Instruction::Uncaught { .. } => false,
        _ => true,
    }
}

fn weight_in(depth: u64) -> u64 {
    match depth {
        0 => 1,
        1 => 10,
        2 => 100,
        3 => 1_000,
        4 => 10_000,
        _ => 100_000,
    }
}

fn mark(places: &mut Vec<Place>, index: usize) {
    if let Some(place) = places.get_mut(index) {
        place.is_reached = true;
    }
}

fn close(places: &mut Vec<Place>, end: usize) {
    if let Some(place) = places.get_mut(end) {
        place.closing = place.closing.saturating_add(1);
    }
}

impl SpillCosts {
    fn read(&mut self, slot: usize, weight: u64) {
        if let Some(gain) = self.slots.get_mut(slot) {
            gain.reads = gain.reads.saturating_add(weight);
        }
    }

    fn read_operand(&mut self, operand: Operand, weight: u64) {
        if let Operand::Slot { number } = operand {
            self.read(number, weight);
        }
    }

    fn read_operands(&mut self, first: Operand, second: Operand, weight: u64) {
        self.read_operand(first, weight);
        self.read_operand(second, weight);
    }

    fn read_request(&mut self, request: Request, weight: u64) {
        match request {
            Request::CloseTo { mark } => self.read_operand(mark, weight),
            Request::CloseDynamic { handle } => self.read_operand(handle, weight),
            Request::Allocate { handle, words, .. } => self.read_operands(handle, words, weight),
            Request::Free { address } => self.read_operand(address, weight),
            _ => {}
        }
    }

    fn write(&mut self, slot: usize, weight: u64) {
        if let Some(gain) = self.slots.get_mut(slot) {
            gain.writes = gain.writes.saturating_add(weight);
        }
    }

    /// Counts a write of a slot whose new word is computed from an operand.
    fn change(&mut self, slot: usize, operand: Operand, weight: u64) {
        self.read_operand(operand, weight);
        self.write(slot, weight);
    }

    /// Counts that a slot is passed at the index `place` of an argument or parameter list.
    fn hand_over(&mut self, slot: usize, place: usize, weight: u64) {
        if let Some(cost) = self.slots.get_mut(slot) {
            if place == cost.place {
                cost.handed = cost.handed.saturating_add(weight);
            } else if weight > cost.handed {
                cost.place = place;
                cost.handed = weight;
            }
        }
    }

    fn hand_over_all(&mut self, first: usize, count: usize, weight: u64) {
        for place in 0..count {
            self.hand_over(first.saturating_add(place), place, weight);
        }
    }

    fn move_words(&mut self, destination: usize, source: usize, count: usize, weight: u64) {
        for word in 0..count {
            self.read(source.saturating_add(word), weight);
            self.write(destination.saturating_add(word), weight);
        }
    }

    /// Counts the reads that registers would make cheaper, the writes and the jump target of an instruction that is executed `weight`
    /// times. Returns true if control may continue at the next instruction.
    fn look_at(&mut self, places: &mut Vec<Place>, instruction: Instruction, weight: u64) -> bool {
        match instruction {
            Instruction::Move {
                destination,
                source,
            } => self.change(destination, source, weight),
            Instruction::Unary {
                destination,
                operand,
                ..
            } => self.change(destination, operand, weight),
            Instruction::Binary {
                destination,
                left,
                right,
                ..
            } => {
                self.read_operand(left, weight);
                self.change(destination, right, weight)
            }
            Instruction::Branch {
                left,
                right,
                target,
                ..
            } => {
                mark(places, target);
                self.read_operands(left, right, weight)
            }
            Instruction::Jump { target } => {
                mark(places, target);
                return false;
            }
            _ => return self.look_at_other(places, instruction, weight),
        }
        true
    }

    /// Counts the reads and writes of slots by an instruction that neither computes nor branches. Returns true if control may continue
    /// at the next instruction.
    fn look_at_other(
        &mut self,
        places: &mut Vec<Place>,
        instruction: Instruction,
        weight: u64,
    ) -> bool {
        match instruction {
            Instruction::Call {
                arguments,
                count,
                ..
            } => {
                self.calls = self.calls.saturating_add(weight);
                self.hand_over_all(arguments, count, weight);
            }
            Instruction::MoveWords {
                destination,
                source,
                count,
            } => self.move_words(destination, source, count, weight),
            Instruction::Try { handler, .. } => mark(places, handler),
            Instruction::Throw { tag, value } => {
                self.read_operands(tag, value, weight);
                return false;
            }
            Instruction::Return { value } | Instruction::Finish { value } => {
                self.read(value, weight);
                return false;
            }
            Instruction::Uncaught { value, .. } => {
                self.read_operand(value, weight);
                return false;
            }
            _ => self.look_at_memory(instruction, weight),
        }
        true
    }

    /// Counts the reads and writes of slots by an instruction that loads, stores, or makes a request to the page store.
    fn look_at_memory(&mut self, instruction: Instruction, weight: u64) {
        match instruction {
            Instruction::Load {
                destination,
                address,
                ..
            }
            | Instruction::LoadByte {
                destination,
                address,
                ..
            } => self.change(destination, address, weight),
            Instruction::Store {
                address,
                source,
                ..
            }
            | Instruction::StoreByte {
                address,
                source,
                ..
            } => self.read_operands(address, source, weight),
            Instruction::WriteByte { source } | Instruction::StoreGlobal { source, .. } => {
                self.read_operand(source, weight)
            }
            Instruction::ReadByte { destination }
            | Instruction::AddressOf { destination, .. }
            | Instruction::LoadGlobal { destination, .. }
            | Instruction::CountLexical { destination } => self.write(destination, weight),
            Instruction::Ask { request } => self.read_request(request, weight),
            _ => {}
        }
    }

    /// Returns, for each position of a function's code, the beginnings and ends of its loops.
    fn places(&mut self, alloc: Global, code: &[Instruction]) -> Result<Vec<Place>, AllocError> {
        let place = Place {
            end: 0,
            closing: 0,
            is_reached: false,
        };
        let mut places = vec![in alloc; place; code.len()]?;
        for index in 0..code.len() {
            if let Some(target) = target_of(code[index]) {
                if target <= index {
                    self.backward.push(index)?;
                    if let Some(place) = places.get_mut(target) {
                        place.end = index + 1;
                    }
                }
            }
        }
        Ok(places)
    }

    /// Computes the spill cost of each slot. Each enclosing loop multiplies an instruction's estimated number of executions by
    /// ten, and unreachable instructions count nothing. Targets of backward jumps count as reachable.
    fn weigh(&mut self, code: &[Instruction], places: &mut Vec<Place>) {
        let mut depth: u64 = 0;
        let mut weight = weight_in(depth);
        // True if control may fall through from the previous instruction.
        let mut goes = true;
        for index in 0..code.len() {
            let place = match places.get(index) {
                Some(place) => *place,
                None => return,
            };
            if place.closing > 0 || place.end > 0 {
                depth = depth.saturating_sub(place.closing);
                if place.end > 0 {
                    depth = depth.saturating_add(1);
                    close(places, place.end);
                    goes = true;
                }
                weight = weight_in(depth);
            }
            if goes || place.is_reached {
                goes = self.look_at(places, code[index], weight);
            }
        }
    }

    /// Returns the execution cost saved by giving the slot a register as its only home.
    pub(crate) fn most_at(&self, slot: usize) -> u64 {
        match self.slots.get(slot) {
            Some(gain) => gain.reads.saturating_add(gain.writes),
            None => 0,
        }
    }

    /// Returns the execution cost saved by giving the slot a register in addition to memory; the register is reloaded after each call.
    pub(crate) fn beside_at(&self, slot: usize) -> u64 {
        match self.slots.get(slot) {
            Some(gain) => gain.reads.saturating_sub(self.calls),
            None => 0,
        }
    }

    /// Returns the index in argument or parameter lists at which the slot is passed most often, if it is passed.
    pub(crate) fn place_at(&self, slot: usize) -> Option<usize> {
        match self.slots.get(slot) {
            Some(cost) if cost.handed > 0 => Some(cost.place),
            _ => None,
        }
    }

    /// Returns the number of slots in the table of spill costs.
    pub(crate) fn count(&self) -> usize {
        self.slots.len()
    }

    /// Returns, for each number n of leading zero bits, how many slots have savings (the cost that a register saves)
    /// with n leading zero bits.
    fn counts(&self, alloc: Global) -> Result<Vec<u32>, AllocError> {
        let mut counts: Vec<u32> = vec![in alloc; 0; GAIN_BITS]?;
        for slot in 0..self.slots.len() {
            if let Some(count) = counts.get_mut(self.most_at(slot).leading_zeros() as usize) {
                *count = count.saturating_add(1);
            }
        }
        Ok(counts)
    }

    /// Chooses the slots that may get registers: those for which a register saves most execution cost.
    pub(crate) fn choice(&self, alloc: Global) -> Result<Choice, AllocError> {
        let mut choice = Choice {
            least: 1,
            left: MOST_CHOSEN,
        };
        if self.slots.len() <= MOST_CHOSEN as usize {
            return Ok(choice);
        }
        let counts = self.counts(alloc)?;
        let mut least: u64 = HIGHEST_GAIN_BIT;
        for zeros in 0..counts.len() {
            if counts[zeros] > choice.left {
                choice.least = least.saturating_mul(2);
                break;
            }
            choice.left = choice.left - counts[zeros];
            least = least / 2;
        }
        Ok(choice)
    }
}

/// The choice of slots that may get registers: the slots whose savings are at least `least`, and up to `left` slots
/// whose savings are at least half of `least`.
#[derive(Clone, Copy)]
pub(crate) struct Choice {
    least: u64,
    left: u32,
}

impl Choice {
    /// Returns true if a slot becomes a candidate for registers when a register saves the given execution cost for it.
    pub(crate) fn takes(&mut self, gain: u64) -> bool {
        if gain >= self.least {
            return true;
        }
        if self.least == 1 || self.left == 0 || gain < self.least / 2 {
            return false;
        }
        self.left = self.left.saturating_sub(1);
        true
    }
}

/// Returns the execution cost that registers save for each slot of a function.
pub(crate) fn spill_costs_of(alloc: Global, function: &Function) -> Result<SpillCosts, AllocError> {
    let none = SpillCost {
        reads: 0,
        writes: 0,
        place: 0,
        handed: 0,
    };
    let mut costs = SpillCosts {
        slots: vec![in alloc; none; function.slots]?,
        calls: 0,
        backward: Vec::new(alloc),
    };
    costs.hand_over_all(0, function.parameters, 1);
    let mut places = costs.places(alloc, &function.code)?;
    costs.weigh(&function.code, &mut places);
    Ok(costs)
}
