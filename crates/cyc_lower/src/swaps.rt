//! Emits the code of swaps. Each operand of a swap is a variable or a memory cell, and the address of a cell is in a slot.
ghost use Rattle.std.specs.Prelude.{◌≡◌, ◌+◌, ◌^◌, ◌<◌, ◌≤◌, length};
ghost use Rattle.cyc_types.specs.typing.Expressions.{type_of_side};
ghost use Rattle.cyc_types.specs.TypedTreeView.{view_side};
ghost use Rattle.cyc_meaning.specs.Values.{kind_of, words_of_kind};
ghost use Rattle.cyc_lower_proof.specs.inside.ValueCode.{word_by_word};
ghost use Rattle.cyc_lower_proof.specs.inside.ObjectCode.{right_slot, load_at};
ghost use Rattle.cyc_lower_proof.specs.inside.Lowering.{side_code, read_side, write_side, exchange_code, swap_code};
ghost use Rattle.cyc_lower.specs.inside.Emission.{Appends, most_locals, view_starts};

use crate::emitter::Emitter;
use crate::globals::global_of;
use crate::locals::slot_of;
use crate::operands::{kind_at, kind_of};
use crate::operators::{load_of, move_of};
use crate::starts::Starts;
use cyc_plain::Operand;
use cyc_sizes::words_of_kind;
use cyc_types::typed::{Kind, Lvalue, Side};
use std::alloc::AllocError;

/// Returns the representation kind of the value of one operand of a swap.
fn kind_of_side(side: &Side) -> Kind
    ensures { result ≡ kind_of (type_of_side (view_side side.now)) }
{
    match side {
        Side::Variable { of_type, .. } => kind_of(of_type),
        Side::Cell { place } => kind_at(place),
    }
}

impl Emitter {
    /// Emits the loads of the words of a cell of this representation kind into slots; the cell's address is in a slot.
    fn load_words(&mut self, kind: Kind, address: usize, slot: usize) -> Result<(), AllocError>
        requires { slot + words_of_kind kind < 2 ^ 64 }
        ensures { Appends result self.old self.new (word_by_word (load_at kind address) (words_of_kind kind) 0 slot) }
    {
        let words = words_of_kind(kind);
        for index in 0..words {
            self.emit(load_of(
                kind,
                slot + index,
                Operand::Slot { number: address },
                4 * index as u32,
            ))?;
        }
        Ok(())
    }

    /// Emits the loads of the words of one operand of a swap into consecutive slots.
    fn read_side(
        &mut self,
        starts: &Starts,
        side: &Side,
        kind: Kind,
        address: usize,
        slot: usize,
    ) -> Result<(), AllocError>
        requires { slot + words_of_kind kind < 2 ^ 64 }
        ensures { Appends result self.old self.new (read_side (view_starts starts.now) (view_side side.now) kind address slot) }
    {
        let words = words_of_kind(kind);
        match side {
            Side::Variable { place, .. } => match *place {
                Lvalue::Local { number, .. } => {
                    let source = Operand::Slot {
                        number: slot_of(starts, number),
                    };
                    self.emit(move_of(words, slot, source))
                }
                Lvalue::Global { number } => {
                    self.load_global(words, global_of(starts, number), slot)
                }
            },
            Side::Cell { .. } => self.load_words(kind, address, slot),
        }
    }

    /// Emits the stores of words in consecutive slots to one operand of a swap.
    fn write_side(
        &mut self,
        starts: &Starts,
        side: &Side,
        kind: Kind,
        address: usize,
        slot: usize,
    ) -> Result<(), AllocError>
        requires { slot + words_of_kind kind < 2 ^ 64 }
        ensures { Appends result self.old self.new (write_side (view_starts starts.now) (view_side side.now) kind address slot) }
    {
        let source = Operand::Slot { number: slot };
        let words = words_of_kind(kind);
        match side {
            Side::Variable { place, .. } => match *place {
                Lvalue::Local { number, .. } => {
                    self.emit(move_of(words, slot_of(starts, number), source))
                }
                Lvalue::Global { number } => {
                    self.store_global(words, global_of(starts, number), source)
                }
            },
            Side::Cell { .. } => self.store_cell(kind, address, 0, slot),
        }
    }

    /// Returns the slot for the address of the right operand of a swap, after that of the left operand.
    fn right_slot(&self, left: &Side, free: usize) -> usize
        requires { free ≤ most_locals + length self.now.code.items }
        ensures { result ≡ right_slot (view_side left.now) free }
    {
        match left {
            Side::Variable { .. } => free,
            Side::Cell { .. } => free + 1,
        }
    }

    /// Emits the move of the address of one operand of a swap, if it is a memory cell, to a slot. An operand of a swap that is a
    /// variable needs no code.
    fn lower_side(&mut self, starts: &Starts, side: &Side, free: usize) -> Result<(), AllocError>
        requires { free ≤ most_locals + length self.old.code.items }
        ensures { Appends result self.old self.new (side_code (view_starts starts.now) (view_side side.now) (length self.old.code.items) free) }
    {
        match side {
            Side::Variable { .. } => Ok(()),
            Side::Cell { place } => self.take_address(starts, place, free, free),
        }
    }

    /// Emits the exchange of the operands of a swap: both are read, the left one first, and then written.
    fn exchange(
        &mut self,
        starts: &Starts,
        left: &Side,
        right: &Side,
        free: usize,
    ) -> Result<(), AllocError>
        requires { free ≤ most_locals + length self.old.code.items }
        ensures { Appends result self.old self.new (exchange_code (view_starts starts.now) (kind_of (type_of_side (view_side left.now)))
            (view_side left.now) (view_side right.now) free) }
    {
        let kind = kind_of_side(left);
        let words = words_of_kind(kind);
        let following = self.right_slot(left, free);
        self.read_side(starts, left, kind, free, free + 2)?;
        self.read_side(starts, right, kind, following, free + 2 + words)?;
        self.write_side(starts, left, kind, free, free + 2 + words)?;
        self.write_side(starts, right, kind, following, free + 2)
    }

    /// Emits a swap: the addresses of both operands are computed before either operand is written.
    pub(crate) fn lower_swap(
        &mut self,
        starts: &Starts,
        left: &Side,
        right: &Side,
        free: usize,
    ) -> Result<(), AllocError>
        requires { free ≤ most_locals + length self.old.code.items }
        ensures { Appends result self.old self.new (swap_code (view_starts starts.now) (view_side left.now) (view_side right.now)
            (length self.old.code.items) free) }
    {
        let following = self.right_slot(left, free);
        self.lower_side(starts, left, free)?;
        self.lower_side(starts, right, following)?;
        self.exchange(starts, left, right, free)
    }
}
