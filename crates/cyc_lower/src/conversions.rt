//! Emits conversions of values in slots, and the code that moves words and addresses to slots.
ghost use Rattle.std.specs.Prelude.{[], ◌∷◌, length};
ghost use Rattle.cyc_types.specs.TypedTreeView.{view_expression};
ghost use Rattle.cyc_meaning.specs.Values.{words_of_kind};
ghost use Rattle.cyc_plain.specs.declared.instruction.Operand.TheVariants as operands;
ghost use Rattle.cyc_plain.specs.declared.instruction.Instruction.TheVariants as instructions;
ghost use Rattle.cyc_lower_proof.specs.inside.ValueCode.{conversion_code, copy_code, address_code, span_of};
ghost use Rattle.cyc_lower.specs.inside.Emission.{Appends, view_starts};

use crate::checks::NULL_EXCEPTION;
use crate::emitter::Emitter;
use crate::marks::place_of_value;
use crate::operands::{is_in, keeps_words, span_of};
use crate::operators::move_of;
use crate::starts::Starts;
use cyc_plain::{BinaryOperator, Instruction, Operand};
use cyc_sizes::words_of_kind;
use cyc_types::typed::{Converted, Kind};
use std::alloc::AllocError;

impl Emitter {
    /// Emits the conversion of a value in the slots where the value is. A value that must not be null is tested for null. A thin pointer
    /// that becomes fat gets two more words, its length and its index. A fat pointer that becomes thin becomes the address of its cell.
    pub(crate) fn convert(
        &mut self,
        starts: &Starts,
        conversion: &Converted,
        value: Operand,
    ) -> Result<(), AllocError>
        ensures { Appends result self.old self.new (conversion_code (view_starts starts.now) conversion.now.from conversion.now.to
            (span_of (view_expression conversion.now.value)) value (length self.old.code.items)) }
    {
        let outer = self.enter(place_of_value(&conversion.value));
        let made = self.change(starts, conversion, value);
        self.leave(outer);
        made
    }

    /// Emits the conversion of a value whose source position is already set.
    fn change(
        &mut self,
        starts: &Starts,
        conversion: &Converted,
        value: Operand,
    ) -> Result<(), AllocError>
        ensures { Appends result self.old self.new (conversion_code (view_starts starts.now) conversion.now.from conversion.now.to
            (span_of (view_expression conversion.now.value)) value (length self.old.code.items)) }
    {
        if keeps_words(conversion.from, conversion.to) {
            if matches!(conversion.to, Kind::NonNull) {
                return self.check(starts, NULL_EXCEPTION, value);
            }
            return Ok(());
        }
        if matches!(conversion.to, Kind::Fat) {
            return self.widen(value);
        }
        let span = span_of(&conversion.value);
        self.thin(starts, conversion.to, span, value)
    }

    /// Emits the move of a value to a slot, unless the value is in this slot already. The representation kind of the value gives
    /// its number of words.
    pub(crate) fn copy(
        &mut self,
        kind: Kind,
        source: Operand,
        slot: usize,
    ) -> Result<(), AllocError>
        ensures { Appends result self.old self.new (copy_code (words_of_kind kind) source slot) }
    {
        if is_in(source, slot) {
            return Ok(());
        }
        self.emit(move_of(words_of_kind(kind), slot, source))
    }

    /// Emits the move of an address to a slot. The address is the word of an operand plus a number of bytes.
    pub(crate) fn bring_address(
        &mut self,
        address: Operand,
        offset: u32,
        slot: usize,
    ) -> Result<(), AllocError>
        ensures { Appends result self.old self.new (address_code address offset slot) }
    {
        match offset {
            0 => self.copy(Kind::NonNull, address, slot),
            _ => self.emit(Instruction::Binary {
                operator: BinaryOperator::Add,
                destination: slot,
                left: address,
                right: Operand::Word { word: offset },
            }),
        }
    }

    /// Emits the move of a constant number to a slot.
    pub(crate) fn bring_word(&mut self, word: u32, slot: usize) -> Result<(), AllocError>
        ensures { Appends result self.old self.new (instructions.Move slot (operands.Word word) ∷ []) }
    {
        self.emit(Instruction::Move {
            destination: slot,
            source: Operand::Word { word },
        })
    }
}
