//! The stack frames of a program's functions.
ghost use Rattle.std.specs.Prelude.{◌≡◌};
ghost use Rattle.cyc_registers.specs.inside.Interference.{home_of};
ghost use Rattle.cyc_registers.specs.inside.Fills.{fills_at};
ghost use Rattle.cyc_registers.specs.inside.Idle.{idle_at};

use cyc_registers::Home;
use std::marker::Model;

/// The use of the words of a function's frame, and the home (register or memory) of each of its slots. Words are numbered from the
/// lowest address of the frame.
#[derive(Drop)]
pub struct Frame {
    /// The index of the frame's word that keeps the return address while the function calls another.
    pub return_address: usize,
    /// True if the function saves its return address in the frame at its entry. A function that does not save its return address never
    /// overwrites the return address register.
    pub saves: bool,
    /// The word of the frame for the first saved callee-saved register. The words for the other saved registers follow the word
    /// for the first one in order.
    pub first_saved: usize,
    /// The number of callee-saved registers that the function saves.
    pub saved: usize,
    /// The word of the frame for the function's slot 0. The words for the function's other slots follow the word for slot 0 in order.
    pub first_slot: usize,
    /// The number of parameters; the first slots of a function are its parameters.
    pub parameters: usize,
    /// The home of each slot, that is, its register or memory, indexed by the slot.
    pub homes: Vec<Home>,
    /// For each instruction of the function's code, true if it is idle: it needs no machine code.
    pub idle: Vec<bool>,
    /// For each instruction, true if its first machine word may be executed in the delay slots of the branches to it.
    pub fills: Vec<bool>,
}

impl Model for Frame {
    ghost use Rattle.cyc_frame.specs.inside.Frame.{Frame};

    ghost Value = { Frame };

    ghost view = { λ a. record {
      return_address = a.return_address;
      saves = a.saves;
      first_saved = a.first_saved;
      saved = a.saved;
      first_slot = a.first_slot;
      parameters = a.parameters;
      homes = a.homes.items;
      idle = a.idle.items;
      fills = a.fills.items;
    } };
}

impl Frame {
    /// Returns the home of a slot, which is a register or memory; it is memory if there is no such slot.
    pub fn home(&self, slot: usize) -> Home
        ensures { result ≡ home_of self.now.homes slot }
    {
        match self.homes.get(slot) {
            Some(home) => *home,
            None => Home::Memory,
        }
    }

    /// Returns true if the instruction at this index is idle: it needs no machine code.
    pub fn is_idle(&self, index: usize) -> bool
        ensures { result ≡ idle_at self.now.idle index }
    {
        match self.idle.get(index) {
            Some(is_idle) => *is_idle,
            None => false,
        }
    }

    /// Returns true if the first line of assembly code of the instruction at this index may fill delay slots.
    pub fn fills_slots(&self, index: usize) -> bool
        ensures { result ≡ fills_at self.now.fills index }
    {
        match self.fills.get(index) {
            Some(fills) => *fills,
            None => false,
        }
    }
}
