//! Chooses the slots that get registers, and their registers. The code of this choice is unverified: a checker
//! validates the chosen homes (a register, memory or both) of the slots.
ghost use Rattle.std.specs.Prelude.{◌≤◌, IfOk};

use crate::home::{FIRST_PRESERVED, FIRST_REGISTER, Home, MOST_BOTH, MOST_SAVED, REGISTERS_END};
use crate::interference::Interference;
use crate::liveness::{ALL_NUMBERS, Lives, MOST_CHOSEN, may_have};
use crate::masks::mask_at;
use crate::spill_costs::SpillCosts;
use cyc_plain::Function;
use std::alloc::{AllocError, Global};

/// The number of caller-saved registers that slots may have.
const MOST_LOST: usize = (FIRST_PRESERVED - FIRST_REGISTER) as usize;

/// The number of entries of tables that are indexed by register number.
const REGISTERS: usize = REGISTERS_END as usize;

const SLOTS: usize = MOST_CHOSEN as usize;

/// The cost of using a callee-saved register: each call of the function saves and restores the register, and a function that calls
/// this function may also have to save it.
const PRESERVED_PRICE: u64 = 4;

/// The extra cost of a callee-saved register for a parameter: callers pass this parameter in memory, and the function must load it from
/// memory.
const ARRIVAL_PRICE: u64 = 2;

/// The maximal number of times that a slot is considered for a register: once for each kind of register that it may get, and once more.
const MOST_LOOKS: u32 = 4;

/// Stands for the absence of a register in the tables with which registers are chosen.
const NO_REGISTER: u8 = 0;

/// A slot that is considered for a register, with the savings that each kind of register would bring.
#[derive(Clone, Copy)]
struct Candidate {
    slot: usize,
    mask: u64,
    /// The slots that interfere with this candidate for a register, so that they must not share its register.
    meets: u64,
    /// The slots that move instructions connect with this candidate for a register, and that do not interfere with it.
    moves: u64,
    /// The execution cost saved by giving this slot a caller-saved register.
    lost: u64,
    /// True if the slot would keep its word in memory in addition to a caller-saved register.
    is_both: bool,
    /// The execution cost saved by giving this slot a callee-saved register that is already saved for another slot.
    preserved: u64,
    /// True if this slot needs a caller-saved register and may find none that it can share with other slots.
    is_wide: bool,
    /// An upper bound of the execution cost that a register for this slot saves; it is 0 once the slot's home (register or memory) is
    /// chosen.
    gain: u64,
}

/// A possible home of a slot (a register, memory or both), with the execution cost that it saves.
#[derive(Clone, Copy)]
struct Offer {
    home: Home,
    register: u8,
    gain: u64,
}

/// The registers assigned to slots so far.
#[derive(Drop)]
struct Registers {
    /// The slots that have each register, indexed by register.
    slots: [u64; REGISTERS],
    /// The register of each slot that may get one, indexed by the number that identifies the slot as a candidate for registers.
    given: [u8; SLOTS],
    /// For each slot that may get a register, the register in which it is passed as an argument or parameter, to save a move.
    wanted: [u8; SLOTS],
    /// For each register, the slots that are passed in it as an argument or parameter.
    handed: [u64; REGISTERS],
    /// The number of caller-saved registers that no slot has.
    free: usize,
    /// The number of callee-saved registers assigned to slots; the assigned ones are the first of all callee-saved registers.
    saved: usize,
    /// The maximal number of callee-saved registers that may be assigned.
    most: usize,
    /// The number of slots that have a register in addition to memory.
    both: usize,
    /// The number of slots not yet considered that may find no register to share with other slots; free registers are reserved for them.
    wide: usize,
}

/// The chosen homes of slots (registers or memory), and the number of callee-saved registers to save for them.
#[derive(Drop)]
pub(crate) struct Chosen {
    pub(crate) homes: Vec<Home>,
    pub(crate) saved: usize,
}

const NO_OFFER: Offer = Offer {
    home: Home::Memory,
    register: 0,
    gain: 0,
};

/// Returns the register that a list, indexed by candidate number, contains for the lowest-numbered candidate of a set.
fn register_at(list: &[u8], slots: u64) -> u8 {
    match list.get(slots.trailing_zeros() as usize) {
        Some(register) => *register,
        None => NO_REGISTER,
    }
}

fn better(first: Offer, second: Offer) -> Offer {
    if second.gain > first.gain {
        second
    } else {
        first
    }
}

impl Candidate {
    fn of(
        costs: &SpillCosts,
        lives: &Lives,
        interference: &Interference,
        slot: usize,
        parameters: usize,
        mask: u64,
    ) -> Candidate {
        let most = costs.most_at(slot);
        let is_both = mask & (lives.calls | lives.clauses) != 0;
        let arrival = if slot < parameters { ARRIVAL_PRICE } else { 0 };
        let meets = interference.meets(mask) | mask;
        let lost = if is_both { costs.beside_at(slot) } else { most };
        let preserved = if mask & lives.clauses != 0 {
            0
        } else {
            most.saturating_sub(arrival)
        };
        Candidate {
            slot,
            mask,
            meets,
            moves: interference.moves(mask) & (ALL_NUMBERS ^ meets),
            lost,
            is_both,
            preserved,
            is_wide: if is_both {
                lost > preserved
            } else {
                meets.count_ones() > MOST_LOST as u32
            },
            gain: most,
        }
    }
}

impl Registers {
    /// Returns true if the register is caller-saved and is assigned to none of the slots in the set `others`.
    fn is_open(&self, register: u8, others: u64) -> bool {
        (FIRST_REGISTER..FIRST_PRESERVED).contains(&register)
            && mask_at(&self.slots, register as usize) & others == 0
    }

    /// Returns the first caller-saved register that a list contains for one of the slots in a set, and that no interfering slot has.
    fn first_open(&self, list: &[u8], slots: u64, others: u64) -> Option<u8> {
        let mut left = slots;
        for _ in 0..MOST_CHOSEN {
            if left == 0 {
                break;
            }
            let register = register_at(list, left);
            if self.is_open(register, others) {
                return Some(register);
            }
            left = left & left.saturating_sub(1);
        }
        None
    }

    /// Returns the first register of a range that a slot connected with the candidate by a move instruction has, and that no
    /// interfering slot has.
    fn moved(&self, first: u8, end: u8, candidate: &Candidate) -> Option<u8> {
        if candidate.moves == 0 {
            return None;
        }
        for register in first..end {
            let slots = mask_at(&self.slots, register as usize);
            if slots & candidate.moves != 0 && slots & candidate.meets == 0 {
                return Some(register);
            }
        }
        None
    }

    /// Returns a register that other slots have but no interfering one. Instructions that use the same register cannot be
    /// reordered. So the function prefers the register of a slot connected by a move, else the register with the fewest slots.
    fn shared(&self, first: u8, end: u8, candidate: &Candidate) -> Option<u8> {
        let mut found = self.moved(first, end, candidate);
        if found.is_some() {
            return found;
        }
        let mut least = MOST_CHOSEN;
        for register in first..end {
            let slots = mask_at(&self.slots, register as usize);
            let count = slots.count_ones();
            if slots != 0 && slots & candidate.meets == 0 && count < least {
                least = count;
                found = Some(register);
            }
        }
        found
    }

    /// Returns a caller-saved register that no slot has, if possible one in which no interfering slot is passed
    /// as an argument or parameter.
    fn free(&self, candidate: &Candidate) -> Option<u8> {
        let mut found = None;
        for register in FIRST_REGISTER..FIRST_PRESERVED {
            if mask_at(&self.slots, register as usize) == 0 {
                if mask_at(&self.handed, register as usize) & candidate.meets == 0 {
                    return Some(register);
                }
                found = Some(register);
            }
        }
        found
    }

    /// Returns a caller-saved register that none of the interfering slots has. The function first tries the register of a slot that a move
    /// connects with the candidate slot. If an interfering slot has that register, the function tries those in which the candidate slot or
    /// a slot connected by a move is passed. The function returns another free register only while more than the reserved ones are left.
    fn lost(&self, candidate: &Candidate, others: u64) -> Option<u8> {
        let moved = self.first_open(&self.given, candidate.moves, others);
        if moved.is_some() {
            return moved;
        }
        let wanted = self.first_open(&self.wanted, candidate.mask, others);
        if wanted.is_some() {
            return wanted;
        }
        let near = self.first_open(&self.wanted, candidate.moves, others);
        if near.is_some() {
            return near;
        }
        if candidate.is_both || self.free > self.wide {
            return self.free(candidate);
        }
        match self.shared(FIRST_REGISTER, FIRST_PRESERVED, candidate) {
            Some(register) => Some(register),
            None => self.free(candidate),
        }
    }

    /// Returns the best caller-saved register for a slot. If the slot is live after a call, its word is also stored in memory,
    /// and no other slot gets its register.
    fn lost_offer(&self, candidate: &Candidate) -> Offer {
        let is_both = candidate.is_both;
        if is_both && self.both >= MOST_BOTH {
            return NO_OFFER;
        }
        let others = if is_both {
            ALL_NUMBERS
        } else {
            candidate.meets
        };
        match self.lost(candidate, others) {
            Some(register) => Offer {
                home: if is_both {
                    Home::Both { register }
                } else {
                    Home::Register { register }
                },
                register,
                gain: candidate.lost,
            },
            None => NO_OFFER,
        }
    }

    /// Returns the next callee-saved register to assign; the callee-saved registers before it are already saved.
    fn next_preserved(&self) -> u8 {
        FIRST_PRESERVED + self.saved.min(MOST_SAVED) as u8
    }

    /// Returns a callee-saved register for a slot: one that is already saved for another slot, or the next one.
    fn preserved_offer(&self, candidate: &Candidate) -> Offer {
        let next = self.next_preserved();
        match self.shared(FIRST_PRESERVED, next, candidate) {
            Some(register) => Offer {
                home: Home::Register { register },
                register,
                gain: candidate.preserved,
            },
            None if self.saved < self.most => Offer {
                home: Home::Register { register: next },
                register: next,
                gain: candidate.preserved.saturating_sub(PRESERVED_PRICE),
            },
            None => NO_OFFER,
        }
    }

    fn take(&mut self, candidate: &Candidate, offer: Offer) {
        if let Some(slots) = self.slots.get_mut(offer.register as usize) {
            if *slots == 0 && offer.register >= FIRST_PRESERVED {
                self.saved = self.saved.saturating_add(1);
            } else if *slots == 0 {
                self.free = self.free.saturating_sub(1);
            }
            *slots = *slots | candidate.mask;
            if let Some(given) = self.given.get_mut(candidate.mask.trailing_zeros() as usize) {
                *given = offer.register;
            }
            if let Home::Both { .. } = offer.home {
                self.both = self.both.saturating_add(1);
                *slots = ALL_NUMBERS;
            }
        }
    }

    /// Returns true if a slot should take a callee-saved register without needing it: a slot connected by a move has one, and no
    /// connected slot has a caller-saved one.
    fn is_near_preserved(&self, candidate: &Candidate) -> bool {
        candidate.preserved >= candidate.gain
            && self
                .moved(FIRST_PRESERVED, self.next_preserved(), candidate)
                .is_some()
            && self
                .moved(FIRST_REGISTER, FIRST_PRESERVED, candidate)
                .is_none()
    }

    /// Returns, among the homes (a register, memory or both) that are still available for a slot, the one that saves most execution cost.
    fn offer(&self, candidate: &Candidate) -> Offer {
        if self.is_near_preserved(candidate) {
            return self.preserved_offer(candidate);
        }
        let lost = self.lost_offer(candidate);
        if lost.gain >= candidate.gain {
            return lost;
        }
        better(lost, self.preserved_offer(candidate))
    }

    /// Gives a slot the home (register, memory or both) that saves most among those still available, if it saves as much
    /// as was expected. Returns the execution cost that a register may still save for the slot, or 0.
    fn settle(&mut self, homes: &mut Vec<Home>, candidate: &Candidate) -> u64 {
        let offer = self.offer(candidate);
        if offer.gain < candidate.gain {
            return offer.gain;
        }
        self.take(candidate, offer);
        if candidate.is_wide {
            self.wide = self.wide.saturating_sub(1);
        }
        if let Some(home) = homes.get_mut(candidate.slot) {
            *home = offer.home;
        }
        0
    }
}

/// Returns the index of the slot for which a register is expected to save most.
fn next_of(candidates: &[Candidate]) -> usize {
    let mut next = 0;
    let mut gain = 0;
    for place in 0..candidates.len() {
        if candidates[place].gain > gain {
            gain = candidates[place].gain;
            next = place;
        }
    }
    next
}

impl Registers {
    /// Returns the table of the registers and their slots, in which no register is assigned to a slot.
    fn new(most: usize) -> Registers {
        Registers {
            slots: [0; REGISTERS],
            given: [NO_REGISTER; SLOTS],
            wanted: [NO_REGISTER; SLOTS],
            handed: [0; REGISTERS],
            free: MOST_LOST,
            saved: 0,
            most,
            both: 0,
            wide: 0,
        }
    }

    /// Records that the slots of a set should preferably get the register in which a call passes the argument or parameter with
    /// the given index.
    fn want(&mut self, mask: u64, place: Option<usize>) {
        match place {
            Some(place) if place < MOST_LOST => {
                let register = FIRST_REGISTER + place as u8;
                if let Some(wanted) = self.wanted.get_mut(mask.trailing_zeros() as usize) {
                    *wanted = register;
                }
                if let Some(handed) = self.handed.get_mut(register as usize) {
                    *handed = *handed | mask;
                }
            }
            _ => {}
        }
    }

    /// Returns the slots of a function that may have a register, and notes the preferred register of each.
    fn candidates(
        &mut self,
        alloc: Global,
        function: &Function,
        costs: &SpillCosts,
        masks: &[u64],
        lives: &Lives,
        interference: &Interference,
    ) -> Result<Vec<Candidate>, AllocError> {
        let mut candidates = Vec::with_capacity(alloc, SLOTS.min(masks.len()))?;
        for slot in 0..masks.len() {
            let mask = masks[slot];
            if mask != 0 {
                self.want(mask, costs.place_at(slot));
                if may_have(function, masks, lives, slot) {
                    let candidate = Candidate::of(
                        costs,
                        lives,
                        interference,
                        slot,
                        function.parameters,
                        mask,
                    );
                    if candidate.is_wide {
                        self.wide = self.wide.saturating_add(1);
                    }
                    candidates.push(candidate)?;
                }
            }
        }
        Ok(candidates)
    }
}

/// Returns homes (registers, memory or both) for the slots of a function that may save `most` callee-saved registers. Slots for
/// which a register saves most get registers first.
pub(crate) fn choose(
    alloc: Global,
    function: &Function,
    costs: &SpillCosts,
    masks: &[u64],
    lives: &Lives,
    interference: &Interference,
    most: usize,
) -> Result<Chosen, AllocError>
    ensures { IfOk result (λ chosen. chosen.saved ≤ most) }
{
    let mut registers = Registers::new(most);
    let mut candidates = registers.candidates(alloc, function, costs, masks, lives, interference)?;
    let mut homes = vec![in alloc; Home::Memory; function.slots]?;
    for _ in 0..MOST_CHOSEN * MOST_LOOKS {
        let next = next_of(&candidates);
        if next >= candidates.len() || candidates[next].gain == 0 {
            break;
        }
        let gain = registers.settle(&mut homes, &candidates[next]);
        candidates[next].gain = gain;
    }
    Ok(Chosen {
        homes,
        saved: registers.saved.min(most),
    })
}
