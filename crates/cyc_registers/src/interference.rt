//! The interference graph of the slots that may get registers, and the move instructions between these slots. The graph is
//! unverified: a checker validates the chosen homes (registers or memory) of the slots.
ghost use Rattle.std.specs.Prelude.{◌≡◌, length};

use crate::liveness::{MOST_CHOSEN, after_mask};
use crate::masks::{mask_at, range_mask};
use crate::spill_costs::goes_on;
use crate::uses::Uses;
use cyc_plain::{Function, Instruction};

/// The number of rows of the interference graph: one for each slot that may get a register.
const ROWS: usize = MOST_CHOSEN as usize;

/// For each slot that may get a register, the slots that interfere with it and those connected with it by move instructions.
#[derive(Drop)]
pub(crate) struct Interference {
    /// For each slot that may get a register, the slots that are live simultaneously with it, so that they must not share a register.
    meets: [u64; ROWS],
    /// For each slot that may get a register, the slots that should share its register, so that the move between them needs no
    /// machine code.
    moves: [u64; ROWS],
    /// The slots whose rows of the interference graph may be non-empty.
    met: u64,
    /// True if control can fall through from the last visited instruction to the next.
    goes: bool,
}

/// Adds a set of slots to the neighbours, in the interference graph, of each slot in the set `to`.
fn add(rows: &mut [u64; ROWS], to: u64, slots: u64) {
    let mut left = to;
    for _ in 0..MOST_CHOSEN {
        if left == 0 {
            break;
        }
        if let Some(row) = rows.get_mut(left.trailing_zeros() as usize) {
            *row = *row | slots;
        }
        left = left & left.saturating_sub(1);
    }
}

/// Makes the first `count` rows of the interference graph symmetric. The rows after the first `count` are empty.
fn mirror(rows: &mut [u64; ROWS], count: usize) {
    let mut mask: u64 = 1;
    for number in 0..count {
        let row = mask_at(rows, number);
        add(rows, row, mask);
        mask = mask << 1;
    }
}

impl Interference {
    /// Returns the interference graph of a function before any instruction is visited. The parameters of a function interfere
    /// with each other.
    fn of_parameters(function: &Function, masks: &[u64]) -> Interference {
        let parameters = range_mask(masks, 0, function.parameters);
        let mut interference = Interference {
            meets: [0; ROWS],
            moves: [0; ROWS],
            met: parameters,
            goes: false,
        };
        add(&mut interference.meets, parameters, parameters);
        interference
    }

    /// Returns the interference graph of a function's code, given the slots that its instructions read and write, and those live at
    /// each instruction.
    pub(crate) fn of_code(
        function: &Function,
        masks: &[u64],
        uses: &[Uses],
        live: &[u64],
    ) -> Interference
        requires all { length uses.now ≡ length function.now.code.items }
        requires table { length live.now ≡ length function.now.code.items }
    {
        let mut interference = Interference::of_parameters(function, masks);
        for index in 0..function.code.len() {
            let instruction = function.code[index];
            let following = after_mask(instruction, index, live);
            interference.look_at(uses[index], instruction, live[index], following);
        }
        interference.complete();
        interference
    }

    /// Returns the slots that interfere with the slot that has a given one-bit mask.
    pub(crate) fn meets(&self, mask: u64) -> u64 {
        mask_at(&self.meets, mask.trailing_zeros() as usize)
    }

    /// Returns the slots connected by move instructions with the slot that has a given one-bit mask.
    pub(crate) fn moves(&self, mask: u64) -> u64 {
        mask_at(&self.moves, mask.trailing_zeros() as usize)
    }

    /// Adds the next instruction to the interference graph, with the slots live at the instruction and after it. Slots interfere if
    /// they are live at the entry or after an instruction that never falls through. A written slot interferes with the slots live
    /// after the write. A destination slot of a move of several words interferes with all source slots of this move.
    fn look_at(&mut self, uses: Uses, instruction: Instruction, live: u64, following: u64) {
        if !self.goes {
            add(&mut self.meets, live, live);
            self.met = self.met | live;
        }
        self.goes = goes_on(instruction);
        let written = uses.writes;
        if written == 0 {
            return;
        }
        self.met = self.met | written;
        add(&mut self.meets, written, following | written);
        match instruction {
            Instruction::Move { .. } => add(&mut self.moves, written, uses.reads),
            Instruction::MoveWords { .. } => add(&mut self.meets, written, uses.reads),
            _ => {}
        }
    }

    /// Makes the rows of the interference graph symmetric after all instructions have been visited.
    fn complete(&mut self) {
        let count = ROWS.saturating_sub(self.met.leading_zeros() as usize);
        mirror(&mut self.meets, count);
        mirror(&mut self.moves, count);
    }
}
