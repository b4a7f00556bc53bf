//! Emits the code that allocates and frees objects, once their values are in slots. No object has more words than a block of the store.
ghost use Rattle.std.specs.Prelude.{◌≡◌, [], ◌∷◌, ◌+◌, ◌^◌, ◌<◌, ◌≤◌, length, IfOk};
ghost use Rattle.cyc_types.specs.TypedTreeView.{arguments_of};
ghost use Rattle.cyc_meaning.specs.Values.{words_of_kind, bytes_from};
ghost use Rattle.cyc_lower_proof.specs.inside.ValueCode.{kinds_passed};
ghost use Rattle.cyc_lower_proof.specs.inside.ObjectCode.{asked_code, begun_code, cells_code, free_code, last_element, measured_code, most_elements};
ghost use Rattle.cyc_lower_proof.specs.inside.ObjectCode.{object_code, restarted_code, sized_code, slots_of_kinds, stores_code, written_code};
ghost use Rattle.cyc_lower.specs.inside.Emission.{Appends, most_locals, view_starts};

use crate::checks::ARRAY_SIZE;
use crate::emitter::Emitter;
use crate::locals::begins_word;
use crate::operands::{bytes_of_kind, slot_after};
use crate::operators::{jump_if_zero, scale_of, store_of};
use crate::starts::Starts;
use cyc_lower_proof::Condition;
use cyc_plain::{BinaryOperator, Comparison, Instruction, Operand, Request, UnaryOperator};
use cyc_sizes::words_of_kind;
use cyc_store::MOST_BLOCK_WORDS;
use cyc_types::typed::{Converted, Kind};
use std::alloc::{AllocError, Global};

/// Returns the condition that fails if an index equals the length of an array.
pub(crate) fn last_element(words: usize, index: usize) -> Condition
    ensures { result ≡ last_element words index }
{
    Condition {
        failing: Comparison::Equal,
        left: Operand::Slot { number: index },
        right: Operand::Slot { number: words },
    }
}

/// Returns the most elements that an array may have if each has this number of bytes: as many as fit in a block of the store.
fn most_elements(bytes: usize) -> u32
    ensures most { result ≡ most_elements bytes }
    ensures few { result ≤ 4000 }
{
    if bytes == 4 {
        return MOST_BLOCK_WORDS;
    }
    if bytes == 1 {
        4 * MOST_BLOCK_WORDS
    } else {
        MOST_BLOCK_WORDS / 3
    }
}

/// Returns the representation kinds of the values that are passed for fields.
pub(crate) fn kinds_passed(alloc: Global, values: &[Converted]) -> Result<Vec<Kind>, AllocError>
    ensures { IfOk result (λ kinds. kinds.items ≡ kinds_passed (arguments_of values.now)) }
{
    let mut kinds = Vec::new(alloc);
    for value in values {
        kinds.push(value.to)?;
    }
    Ok(kinds)
}

/// Returns the number of bytes of an object with cells of these representation kinds (such as int), up to the end of the last cell.
fn bytes_of_kinds(kinds: &[Kind]) -> u32
    requires { bytes_from 0 kinds.now ≤ 4000 }
    ensures { result ≡ bytes_from 0 kinds.now }
{
    let mut bytes: u32 = 0;
    for kind in kinds {
        bytes = begins_word(*kind, bytes) + bytes_of_kind(*kind) as u32;
    }
    bytes
}

impl Emitter {
    /// Emits the allocation of an object with one cell, which receives a value of this representation kind from the slots from `free` on.
    pub(crate) fn make_cell(
        &mut self,
        handle: Operand,
        kind: Kind,
        slot: usize,
        free: usize,
    ) -> Result<(), AllocError>
        requires { free ≤ most_locals + length self.old.code.items }
        ensures { Appends result self.old self.new (object_code handle (kind ∷ []) slot free) }
    {
        self.make_object(handle, &[kind], words_of_kind(kind), slot, free)
    }

    /// Emits the allocation of a block in the region of a handle, with a cell for each of these representation kinds. The cells of the new
    /// block receive the values in the slots from `free` on, and the block's address is moved to a slot. No object has more words than a
    /// block.
    pub(crate) fn make_object(
        &mut self,
        handle: Operand,
        kinds: &[Kind],
        words: usize,
        slot: usize,
        free: usize,
    ) -> Result<(), AllocError>
        requires slots { words ≡ slots_of_kinds kinds.now }
        requires low { free ≤ most_locals + length self.old.code.items }
        ensures { Appends result self.old self.new (object_code handle kinds.now slot free) }
    {
        if words > MOST_BLOCK_WORDS as usize {
            return Err(AllocError);
        }
        let size = (bytes_of_kinds(kinds) + 3) / 4;
        let address = free + words;
        self.emit(Instruction::Ask {
            request: Request::Allocate {
                destination: address,
                handle,
                words: Operand::Word { word: size.max(1) },
            },
        })?;
        self.store_cells(kinds, address, free)?;
        self.emit(Instruction::Move {
            destination: slot,
            source: Operand::Slot { number: address },
        })
    }

    /// Emits the stores of values of these representation kinds, in consecutive slots, to the cells of the object at an address.
    fn store_cells(
        &mut self,
        kinds: &[Kind],
        address: usize,
        first: usize,
    ) -> Result<(), AllocError>
        requires few { bytes_from 0 kinds.now ≤ 4000 }
        requires low { first + slots_of_kinds kinds.now < 2 ^ 64 }
        ensures { Appends result self.old self.new (cells_code kinds.now address 0 first) }
    {
        let mut bytes: u32 = 0;
        let mut slot = first;
        for kind in kinds {
            let begin = begins_word(*kind, bytes);
            self.store_cell(*kind, address, begin, slot)?;
            bytes = begin + bytes_of_kind(*kind) as u32;
            slot += words_of_kind(*kind);
        }
        Ok(())
    }

    /// Emits the store of a value of this representation kind, with its words in consecutive slots, to memory at an address plus a
    /// byte offset.
    pub(crate) fn store_cell(
        &mut self,
        kind: Kind,
        address: usize,
        offset: u32,
        first: usize,
    ) -> Result<(), AllocError>
        requires few { offset ≤ 4000 }
        requires low { first + words_of_kind kind < 2 ^ 64 }
        ensures { Appends result self.old self.new (stores_code kind (words_of_kind kind) address offset first) }
    {
        let words = words_of_kind(kind);
        for index in 0..words {
            self.emit(store_of(
                kind,
                Operand::Slot { number: address },
                offset + 4 * index as u32,
                Operand::Slot {
                    number: first + index,
                },
            ))?;
        }
        Ok(())
    }

    /// Emits the move of the length of an array from the slot `free` to a second slot, and the move of the index 0 to a third slot.
    /// If the length is too large for elements of this representation kind, the emitted code raises an exception.
    fn measure_array(
        &mut self,
        starts: &Starts,
        kind: Kind,
        length: usize,
        index: usize,
        free: usize,
    ) -> Result<(), AllocError>
        ensures { Appends result self.old self.new (measured_code (view_starts starts.now) kind length index free) }
    {
        let count = Operand::Slot { number: free };
        let first = Operand::Word { word: 0 };
        let limit = Operand::Word {
            word: most_elements(bytes_of_kind(kind)) + 1,
        };
        self.guard(
            starts,
            ARRAY_SIZE,
            Comparison::GreaterOrEqualUnsigned,
            count,
            limit,
        )?;
        let counted = Instruction::Move {
            destination: length,
            source: count,
        };
        let begun = Instruction::Move {
            destination: index,
            source: first,
        };
        self.emit_both(counted, begun)
    }

    /// Emits the computation of the number of words of an array from its number of elements in the slot `free`. Four chars share one word.
    fn size_array(&mut self, kind: Kind, free: usize) -> Result<(), AllocError>
        ensures { Appends result self.old self.new (sized_code kind free) }
    {
        let count = Operand::Slot { number: free };
        match kind {
            Kind::Char => {
                let raised = Instruction::Binary {
                    operator: BinaryOperator::Add,
                    destination: free,
                    left: count,
                    right: Operand::Word { word: 3 },
                };
                let divided = Instruction::Binary {
                    operator: BinaryOperator::ShiftRight,
                    destination: free,
                    left: count,
                    right: Operand::Word { word: 2 },
                };
                self.emit_both(raised, divided)
            }
            Kind::Int | Kind::Nullable | Kind::NonNull | Kind::Fat | Kind::Handle | Kind::Key =>
                self.emit(Instruction::Binary {
                    operator: BinaryOperator::Multiply,
                    destination: free,
                    left: count,
                    right: Operand::Word {
                        word: words_of_kind(kind) as u32,
                    },
                }),
        }
    }

    /// Emits the allocation of a block for as many words as the slot `free` contains, or for one if it contains 0. The address
    /// of the new block replaces the number of words in the slot.
    fn ask_for_array(
        &mut self,
        handle: Operand,
        kind: Kind,
        size: usize,
        free: usize,
    ) -> Result<(), AllocError>
        ensures { Appends result self.old self.new (asked_code handle kind size free) }
    {
        let count = Operand::Slot { number: free };
        let words = Operand::Slot { number: size };
        self.size_array(kind, free)?;
        let is_none = Instruction::Unary {
            operator: UnaryOperator::Not,
            destination: size,
            operand: count,
        };
        let sum = Instruction::Binary {
            operator: BinaryOperator::Add,
            destination: size,
            left: words,
            right: count,
        };
        let ask = Instruction::Ask {
            request: Request::Allocate {
                destination: free,
                handle,
                words,
            },
        };
        self.emit_three(is_none, sum, ask)
    }

    /// Emits the beginning of a new array of elements of this representation kind, with its length in the slot `free`. The
    /// array's address is moved to `free`, and the length and the index to the slots after it.
    pub(crate) fn begin_array(
        &mut self,
        starts: &Starts,
        handle: Operand,
        kind: Kind,
        free: usize,
    ) -> Result<(), AllocError>
        ensures { Appends result self.old self.new (begun_code (view_starts starts.now) handle kind free) }
    {
        let following = slot_after(free, Kind::Fat)?;
        self.measure_array(starts, kind, following - 2, following - 1, free)?;
        self.ask_for_array(handle, kind, following, free)
    }

    /// Emits the store of an element in its cell of an array, and the increment of the index. The address of the cell is in the slot after
    /// the element.
    pub(crate) fn write_element(
        &mut self,
        kind: Kind,
        head: usize,
        index: usize,
        element: usize,
        free: usize,
    ) -> Result<(), AllocError>
        ensures { Appends result self.old self.new (written_code kind head index element (element + words_of_kind kind) free) }
    {
        let address = slot_after(element, kind)?;
        let number = Operand::Slot { number: index };
        let cell = Operand::Slot { number: address };
        let sum = Instruction::Binary {
            operator: BinaryOperator::Add,
            destination: address,
            left: Operand::Slot { number: free },
            right: cell,
        };
        let next = Instruction::Binary {
            operator: BinaryOperator::Add,
            destination: index,
            left: number,
            right: Operand::Word { word: 1 },
        };
        self.emit_both(scale_of(bytes_of_kind(kind), address, index), sum)?;
        self.store_cell(kind, address, 0, element)?;
        self.emit_both(next, Instruction::Jump { target: head })
    }

    /// Emits the end of the loop that fills an array: the index becomes 0, and the pointer is moved to its slot.
    pub(crate) fn end_array(
        &mut self,
        slot: usize,
        index: usize,
        free: usize,
    ) -> Result<(), AllocError>
        ensures { Appends result self.old self.new (restarted_code slot index free) }
    {
        self.emit(Instruction::Move {
            destination: index,
            source: Operand::Word { word: 0 },
        })?;
        self.copy(Kind::Fat, Operand::Slot { number: free }, slot)
    }

    /// Emits the freeing of the block at an address, to which the program has a unique pointer, unless the address is 0.
    pub(crate) fn free_block(&mut self, address: Operand) -> Result<(), AllocError>
        ensures { Appends result self.old self.new (free_code address (length self.old.code.items)) }
    {
        let following = self.place() + 2;
        let free = Instruction::Ask {
            request: Request::Free { address },
        };
        self.emit_both(jump_if_zero(address, following), free)
    }
}
