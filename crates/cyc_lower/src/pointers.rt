//! Emits accesses through pointers in operands: their cells are found, and read or written. A fat pointer has its address, its length and
//! its index in consecutive slots.
ghost use Rattle.std.specs.Prelude.{◌≡◌, ◌+◌, ◌≤◌, ◌∷◌, length};
ghost use Rattle.cyc_types.specs.TypedTreeView.{view_lvalue};
ghost use Rattle.cyc_meaning.specs.Values.{is_thin};
ghost use Rattle.cyc_lower_proof.specs.inside.ValueCode.{address_of_code, address_of_global, last_byte_code, bounded_code, count_code, past_bounded};
ghost use Rattle.cyc_lower_proof.specs.inside.ValueCode.{thinned_code, followed_code, followed_operand};
ghost use Rattle.cyc_lower_proof.specs.inside.ValueCode.{loaded_code, reached_code, reached_operand, scaled_code, stepped_code, summed_code};
ghost use Rattle.cyc_lower_proof.specs.inside.ValueCode.{bounds_code, widened_code, inside_code};
ghost use Rattle.cyc_lower_proof.specs.inside.ObjectCode.{saved_code};
ghost use Rattle.cyc_types.specs.declared.typed.Kind.TheVariants as kinds;
ghost use Rattle.cyc_plain.specs.declared.instruction.BinaryOperator.TheVariants as plain_binary;
ghost use Rattle.cyc_plain.specs.declared.instruction.Instruction.TheVariants as instructions;
ghost use Rattle.cyc_plain.specs.declared.instruction.Operand.TheVariants as operands;
ghost use Rattle.cyc_lower.specs.inside.Emission.{Appends, Gives, view_starts};

use crate::checks::{ARRAY_BOUNDS, NULL_EXCEPTION};
use crate::emitter::Emitter;
use crate::globals::global_of;
use crate::locals::slot_of;
use crate::operands::{is_thin, reached_operand, slot_after, variable_bytes};
use crate::operators::{jump_if_zero, load_of, scale_of, store_of};
use crate::starts::Starts;
use cyc_plain::{BinaryOperator, Comparison, GLOBALS_BASE, Instruction, Operand};
use cyc_sizes::words_of_kind;
use cyc_types::typed::{Kind, Lvalue};
use std::alloc::AllocError;

/// Returns the number of instructions that a jump must skip to leave out the comparison of an index and the
/// computation of its cell's address.
fn past_bounded(span: Option<usize>) -> usize
    ensures same { result ≡ past_bounded span }
    ensures few { result ≤ 4 }
{
    match span {
        None => 2,
        Some(_) => 4,
    }
}

/// Returns the address of a global of this representation kind whose first word has this index among the words of all globals.
fn address_of_global(kind: Kind, first: usize) -> u32
    ensures { result ≡ address_of_global kind first }
{
    let number = (first % 0x1_0000_0000) as u32;
    GLOBALS_BASE
        .wrapping_add(number.wrapping_mul(4))
        .wrapping_add(variable_bytes(kind))
}

impl Emitter {
    /// Emits the addition that turns the address of a variable's first word, in a slot, into the address of the variable. A char is the
    /// last byte of its word.
    fn reach_last_byte(&mut self, kind: Kind, slot: usize) -> Result<(), AllocError>
        ensures { Appends result self.old self.new (last_byte_code kind slot) }
    {
        match kind {
            Kind::Char => self.emit(Instruction::Binary {
                operator: BinaryOperator::Add,
                destination: slot,
                left: Operand::Slot { number: slot },
                right: Operand::Word { word: 3 },
            }),
            Kind::Int | Kind::Nullable | Kind::NonNull | Kind::Fat | Kind::Handle | Kind::Key => Ok(
                (),
            ),
        }
    }

    /// Emits the move of the address of a variable of this representation kind to a slot.
    pub(crate) fn address_variable(
        &mut self,
        starts: &Starts,
        place: Lvalue,
        kind: Kind,
        slot: usize,
    ) -> Result<(), AllocError>
        ensures { Appends result self.old self.new (address_of_code (view_starts starts.now) (view_lvalue place) kind slot) }
    {
        match place {
            Lvalue::Local { number, .. } => {
                self.emit(Instruction::AddressOf {
                    destination: slot,
                    slot: slot_of(starts, number),
                    count: words_of_kind(kind),
                })?;
                self.reach_last_byte(kind, slot)
            }
            Lvalue::Global { number } => self.emit(Instruction::Move {
                destination: slot,
                source: Operand::Word {
                    word: address_of_global(kind, global_of(starts, number)),
                },
            }),
        }
    }

    /// Emits the second and the third word of a thin pointer that becomes fat. The second word is the length 1, or 0 for a
    /// null pointer, and the third word is the index 0.
    pub(crate) fn widen(&mut self, pointer: Operand) -> Result<(), AllocError>
        ensures { Appends result self.old self.new (widened_code pointer) }
    {
        if let Operand::Slot { number } = pointer {
            let following = slot_after(number, Kind::Fat)?;
            let length = Instruction::Binary {
                operator: BinaryOperator::NotEqual,
                destination: following - 2,
                left: pointer,
                right: Operand::Word { word: 0 },
            };
            let index = Instruction::Move {
                destination: following - 1,
                source: Operand::Word { word: 0 },
            };
            return self.emit_both(length, index);
        }
        Ok(())
    }

    /// Emits the computation of the address of the cell at an index, for cells of this number of bytes.
    fn step(
        &mut self,
        span: Option<usize>,
        first: usize,
        index: usize,
        slot: usize,
    ) -> Result<(), AllocError>
        ensures { Appends result self.old self.new (stepped_code span first index slot) }
    {
        match span {
            None => Ok(()),
            Some(bytes) => {
                let distance = slot_after(slot, Kind::Fat)? - 1;
                let sum = Instruction::Binary {
                    operator: BinaryOperator::Add,
                    destination: slot,
                    left: Operand::Slot { number: first },
                    right: Operand::Slot { number: distance },
                };
                self.emit_both(scale_of(bytes, distance, index), sum)
            }
        }
    }

    /// Emits the comparison of an index with the length of a fat pointer.
    fn compare(&mut self, starts: &Starts, first: usize, index: usize) -> Result<(), AllocError>
        ensures { Appends result self.old self.new (bounds_code (view_starts starts.now) (operands.Slot index) (operands.Slot (first + 1))) }
    {
        let bound = slot_after(first, Kind::Fat)? - 2;
        self.guard(
            starts,
            ARRAY_BOUNDS,
            Comparison::GreaterOrEqualUnsigned,
            Operand::Slot { number: index },
            Operand::Slot { number: bound },
        )
    }

    /// Emits the comparison of an index with the length of a fat pointer, and the computation of the address of the cell at the index.
    fn reach_inside(
        &mut self,
        starts: &Starts,
        span: Option<usize>,
        first: usize,
        index: usize,
        slot: usize,
    ) -> Result<(), AllocError>
        ensures { Appends result self.old self.new (bounded_code (view_starts starts.now) span first index slot) }
    {
        self.compare(starts, first, index)?;
        self.step(span, first, index, slot)
    }

    /// Emits the scaling of an index to bytes in a slot, for cells of this number of bytes.
    fn scale(&mut self, span: Option<usize>, index: usize, slot: usize) -> Result<(), AllocError>
        ensures { Appends result self.old self.new (scaled_code span index slot) }
    {
        match span {
            None => Ok(()),
            Some(bytes) => self.emit(scale_of(bytes, slot, index)),
        }
    }

    /// Emits the computation of the address that is a number of bytes after the first cell.
    fn add_distance(
        &mut self,
        span: Option<usize>,
        first: usize,
        distance: usize,
        slot: usize,
    ) -> Result<(), AllocError>
        ensures { Appends result self.old self.new (summed_code span first distance slot) }
    {
        match span {
            None => Ok(()),
            Some(_) => self.emit(Instruction::Binary {
                operator: BinaryOperator::Add,
                destination: slot,
                left: Operand::Slot { number: first },
                right: Operand::Slot { number: distance },
            }),
        }
    }

    /// Emits the comparison of an index with the length of a fat pointer, which is 0 for null. If the index is within bounds, a jump skips
    /// the code that chooses which exception is raised.
    fn stay_inside(&mut self, starts: &Starts, first: usize, index: usize) -> Result<(), AllocError>
        ensures { Appends result self.old self.new (inside_code (view_starts starts.now) first index (length self.old.code.items)) }
    {
        let following = slot_after(first, Kind::Fat)?;
        let inside = self.place() + 3;
        let compare = Instruction::Branch {
            comparison: Comparison::LessUnsigned,
            left: Operand::Slot { number: index },
            right: Operand::Slot {
                number: following - 2,
            },
            target: inside,
        };
        let tell = Instruction::Binary {
            operator: BinaryOperator::NotEqual,
            destination: starts.tag_slot,
            left: Operand::Slot { number: first },
            right: Operand::Word { word: 0 },
        };
        let raise = Instruction::Jump {
            target: starts.raises + 1,
        };
        self.emit_three(compare, tell, raise)
    }

    /// Emits an access through a fat pointer: the pointer is checked, and the address of its cell is computed. The index is scaled to
    /// bytes before the comparison.
    fn reach(
        &mut self,
        starts: &Starts,
        span: Option<usize>,
        first: usize,
        index: usize,
        slot: usize,
    ) -> Result<(), AllocError>
        ensures { Appends result self.old self.new (reached_code (view_starts starts.now) span first index slot (length self.old.code.items)) }
    {
        let distance = slot_after(slot, Kind::Fat)?;
        self.scale(span, index, distance)?;
        self.stay_inside(starts, first, index)?;
        self.add_distance(span, first, distance, slot)
    }

    /// Emits an access to an element through a fat pointer, after adding an index to the pointer. Returns the operand of the address. Only
    /// the third word of the pointer changes, in a temporary.
    pub(crate) fn reach_element(
        &mut self,
        starts: &Starts,
        span: Option<usize>,
        first: usize,
        index: Operand,
        free: usize,
    ) -> Result<Operand, AllocError>
        ensures { Gives (reached_operand span first free) result self.old self.new
            (instructions.Binary plain_binary.Add (free + 2) (operands.Slot (first + 2)) index
            ∷ reached_code (view_starts starts.now) span first (free + 2) free (length self.old.code.items + 1)) }
    {
        let past = slot_after(first, Kind::Fat)?;
        let following = slot_after(free, Kind::Fat)?;
        self.emit(Instruction::Binary {
            operator: BinaryOperator::Add,
            destination: following - 1,
            left: Operand::Slot { number: past - 1 },
            right: index,
        })?;
        self.reach(starts, span, first, following - 1, free)?;
        Ok(reached_operand(span, first, free))
    }

    /// Emits the conversion in place of a fat pointer to a thin one that may be null. For null, no cell address is computed.
    fn thin_nullable(
        &mut self,
        starts: &Starts,
        span: Option<usize>,
        first: usize,
    ) -> Result<(), AllocError>
        ensures { Appends result self.old self.new (thinned_code (view_starts starts.now) kinds.Nullable span (operands.Slot first)
            (length self.old.code.items)) }
    {
        let index = slot_after(first, Kind::Fat)? - 1;
        let end = self.place() + past_bounded(span);
        self.emit(jump_if_zero(Operand::Slot { number: first }, end))?;
        self.reach_inside(starts, span, first, index, first)
    }

    /// Emits the conversion of a fat pointer in slots to a thin one: the first slot receives the address of the cell at the pointer's
    /// index.
    pub(crate) fn thin(
        &mut self,
        starts: &Starts,
        to: Kind,
        span: Option<usize>,
        pointer: Operand,
    ) -> Result<(), AllocError>
        ensures { Appends result self.old self.new (thinned_code (view_starts starts.now) to span pointer (length self.old.code.items)) }
    {
        if let Operand::Slot { number } = pointer {
            match to {
                Kind::NonNull => {
                    let index = slot_after(number, Kind::Fat)? - 1;
                    self.check(starts, NULL_EXCEPTION, pointer)?;
                    return self.reach_inside(starts, span, number, index, number);
                }
                Kind::Nullable => return self.thin_nullable(starts, span, number),
                Kind::Int | Kind::Char | Kind::Fat | Kind::Handle | Kind::Key => {}
            }
        }
        Ok(())
    }

    /// Emits an access through a thin or fat pointer in an operand. Returns the operand of the address.
    pub(crate) fn follow(
        &mut self,
        starts: &Starts,
        kind: Kind,
        span: Option<usize>,
        pointer: Operand,
        free: usize,
    ) -> Result<Operand, AllocError>
        ensures { Gives (followed_operand (is_thin kind) span pointer free) result self.old self.new
            (followed_code (view_starts starts.now) (is_thin kind) span pointer free (length self.old.code.items)) }
    {
        if !is_thin(kind) {
            if let Operand::Slot { number } = pointer {
                let index = slot_after(number, Kind::Fat)? - 1;
                self.reach(starts, span, number, index, free)?;
                return Ok(match span {
                    Some(_) => Operand::Slot { number: free },
                    None => pointer,
                });
            }
        }
        self.check(starts, NULL_EXCEPTION, pointer)?;
        Ok(pointer)
    }

    /// Emits the load of a cell of this representation kind into slots, from an address in an operand plus a number of bytes. If the cell
    /// has several words, its address is moved to the first free slot, not to a local, which may be the destination. The first word of a
    /// cell is loaded last, since its slot may contain the address.
    pub(crate) fn load_cell(
        &mut self,
        kind: Kind,
        address: Operand,
        offset: u32,
        slot: usize,
        free: usize,
    ) -> Result<(), AllocError>
        ensures { Appends result self.old self.new (loaded_code kind address offset slot free) }
    {
        if words_of_kind(kind) == 1 {
            return self.emit(load_of(kind, slot, address, offset));
        }
        let following = slot_after(slot, Kind::Fat)?;
        let first = Operand::Slot { number: free };
        self.bring_address(address, offset, free)?;
        let third = Instruction::Load {
            destination: following - 1,
            address: first,
            offset: 8,
        };
        let second = Instruction::Load {
            destination: following - 2,
            address: first,
            offset: 4,
        };
        let word = Instruction::Load {
            destination: slot,
            address: first,
            offset: 0,
        };
        self.emit_three(third, second, word)
    }

    /// Emits the store of a value of this representation kind in the cell whose address is in a slot. A constant operand has one word.
    pub(crate) fn save(
        &mut self,
        kind: Kind,
        address: usize,
        value: Operand,
    ) -> Result<(), AllocError>
        ensures { Appends result self.old self.new (saved_code kind address value) }
    {
        match value {
            Operand::Slot { number } => {
                slot_after(number, kind)?;
                self.store_cell(kind, address, 0, number)
            }
            Operand::Word { .. } => {
                self.emit(store_of(kind, Operand::Slot { number: address }, 0, value))
            }
        }
    }

    /// Emits the count of the elements of a fat pointer from its index on. The count is 0 if the index is not below the length, which is 0
    /// for null.
    pub(crate) fn count_elements(&mut self, pointer: Operand, slot: usize) -> Result<(), AllocError>
        ensures { Appends result self.old self.new (count_code pointer (length self.old.code.items) slot) }
    {
        if let Operand::Slot { number } = pointer {
            let following = slot_after(number, Kind::Fat)?;
            let length = Operand::Slot {
                number: following - 2,
            };
            let index = Operand::Slot {
                number: following - 1,
            };
            let none = self.place() + 3;
            let compare = Instruction::Branch {
                comparison: Comparison::LessUnsigned,
                left: length,
                right: index,
                target: none,
            };
            let subtract = Instruction::Binary {
                operator: BinaryOperator::Subtract,
                destination: slot,
                left: length,
                right: index,
            };
            self.emit_three(compare, subtract, Instruction::Jump { target: none + 1 })?;
        }
        self.emit(Instruction::Move {
            destination: slot,
            source: Operand::Word { word: 0 },
        })
    }
}
