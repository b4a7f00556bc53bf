//! Emits the code of expressions. Each method appends its code to the existing code. The last instruction of an expression's code moves the
//! value to its slot. The instructions before the last one change no slots except those from `free` on and those of assigned locals.
ghost use Rattle.std.specs.Prelude.{◌≡◌, ◌+◌, ◌<◌, ◌≤◌, ◌++◌, None, length};
ghost use Rattle.cyc_types.specs.TypedTreeView.{view_dereference, view_initial, view_expression, view_converted, view_lvalue, operations_of};
ghost use Rattle.cyc_types.specs.TypedTrees.{Call};
ghost use Rattle.cyc_meaning.specs.Values.{words_of_kind};
ghost use Rattle.cyc_lower_proof.specs.inside.ValueCode.{operand_or, addressed_by, code_unless_slot};
ghost use Rattle.cyc_lower_proof.specs.inside.ObjectCode.{elements_code, last_element, saved_code};
ghost use Rattle.cyc_lower_proof.specs.inside.ExpressionCode.{operand_of, left_of, left_slot, value_operand, converted_operand, expression_code};
ghost use Rattle.cyc_lower_proof.specs.inside.ExpressionCode.{brought_code, converted_operand_code, initial_code, made_code, place_operand};
ghost use Rattle.cyc_lower_proof.specs.inside.ExpressionCode.{place_offset, place_code, pointer_of, pointer_slot};
ghost use Rattle.cyc_lower_proof.specs.inside.Lowering.{assignment_code, assigned_operand, discarded_code};
ghost use Rattle.cyc_lower_proof.specs.inside.Slots.{with_counter};
ghost use Rattle.cyc_lower.specs.inside.Emission.{Appends, Gives, most_locals, value_code, source_code, slot_code, converted_slot};
ghost use Rattle.cyc_lower.specs.inside.Emission.{converted_slot_code, left_code, view_starts};

use crate::checks::NULL_EXCEPTION;
use crate::emitter::Emitter;
use crate::globals::global_of;
use crate::locals::{counter_of, field_of, slot_of, with_counter};
use crate::marks::{place_of_access, place_of_value};
use crate::objects::{kinds_passed, last_element};
use crate::operands::{
    converts_there, keeps_words, kind_after, kind_at, masks, operand_of, pointer_of, slot_after,
    span_in, takes_operand, value_slot,
};
use crate::operators::{low_byte, move_of, unary_instruction};
use crate::starts::Starts;
use cyc_plain::{Instruction, Operand, UnaryOperator};
use cyc_sizes::{words_of, words_of_kind};
use cyc_store::{HEAP, UNIQUE};
use cyc_types::typed;
use cyc_types::typed::{Converted, Dereference, Expr, Initial, Kind, Lvalue, Operation, Placement};
use std::alloc::AllocError;

/// Returns the number of bytes that an access adds to the address.
fn place_offset(starts: &Starts, place: &Dereference) -> u32
    ensures { result ≡ place_offset (view_starts starts.now) (view_dereference place.now) }
{
    match place {
        Dereference::Member { number, field, .. } => field_of(starts, *number, *field),
        Dereference::Target { .. } | Dereference::Element { .. } => 0,
    }
}

impl Emitter {
    /// Emits an expression and moves its value to a slot.
    #[cycle(expression)]
    pub(crate) fn lower_expression(
        &mut self,
        starts: &Starts,
        value: &Expr,
        slot: usize,
        free: usize,
    ) -> Result<(), AllocError>
        requires { free ≤ most_locals + length self.old.code.items }
        ensures { Appends result self.old self.new (expression_code (view_starts starts.now) (view_expression value.now) (length self.old.code.items)
            slot free) }
    {
        let outer = self.enter(place_of_value(value));
        let made = self.lower_value(starts, value, slot, free);
        self.leave(outer);
        made
    }

    /// Emits an expression whose source position is already set, and moves its value to a slot.
    #[cycle(expression)]
    fn lower_value(
        &mut self,
        starts: &Starts,
        value: &Expr,
        slot: usize,
        free: usize,
    ) -> Result<(), AllocError>
        requires { free ≤ most_locals + length self.old.code.items }
        ensures { Appends result self.old self.new (expression_code (view_starts starts.now) (view_expression value.now) (length self.old.code.items)
            slot free) }
    {
        match value {
            Expr::Number { value } => self.bring_word(*value, slot),
            Expr::NullPointer => self.bring_word(0, slot),
            Expr::HeapRegion => self.bring_word(HEAP, slot),
            Expr::Copy { source, of_type } => {
                self.load(starts, words_of(of_type), *source, slot)
            }
            Expr::Call {
                callee,
                arguments,
                ..
            } => self.call(starts, *callee, arguments, slot, free),
            Expr::NumberOfElements { pointer } => {
                let pointer = self.lower_operand(starts, pointer, free)?;
                self.count_elements(pointer, slot)
            }
            Expr::Unary {
                operator: typed::UnaryOperator::Widen,
                operand,
            } => self.lower_expression(starts, operand, slot, free),
            Expr::Unary { operator, operand } => {
                let operand = self.lower_operand(starts, operand, free)?;
                self.emit(unary_instruction(*operator, slot, operand))
            }
            Expr::Binary { first, rest, .. } => {
                let left = self.lower_left(starts, first, rest, slot, free)?;
                self.lower_operations(starts, rest, left, slot, free)
            }
            Expr::Assign { target, value, .. } => {
                let assigned = self.lower_assignment(starts, *target, value, free)?;
                self.copy(value.to, assigned, slot)
            }
            Expr::Load { source } => {
                let address = self.locate(starts, source, free)?;
                self.load_cell(
                    kind_at(source),
                    address,
                    place_offset(starts, source),
                    slot,
                    free,
                )
            }
            Expr::AddressOf { place, of_type } => {
                self.address_variable(starts, *place, kind_after(of_type), slot)
            }
            Expr::AddressOfCell { place, .. } => self.take_address(starts, place, slot, free),
            Expr::Store { target, value, .. } => {
                self.take_address(starts, target, free, free)?;
                let stored = self.store(starts, value, free)?;
                self.copy(value.to, stored, slot)
            }
            Expr::FreeUnique { pointer } => {
                let address = self.lower_operand(starts, pointer, free)?;
                self.free_block(address)
            }
            Expr::FreeKey { key } => {
                let handle = self.lower_operand(starts, key, free)?;
                self.close_dynamic(handle)
            }
            Expr::New {
                placement,
                initial,
                ..
            } => match placement {
                Placement::OnHeap => {
                    self.lower_object(starts, initial, Operand::Word { word: HEAP }, slot, free)
                }
                Placement::AsUnique => {
                    self.lower_object(starts, initial, Operand::Word { word: UNIQUE }, slot, free)
                }
                // While the initial values of a new object are evaluated, the handle of its region stays in the first free slot.
                Placement::ByHandle { handle } => {
                    self.lower_expression(starts, handle, free, free)?;
                    let following = slot_after(free, Kind::Handle)?;
                    self.lower_object(
                        starts,
                        initial,
                        Operand::Slot { number: free },
                        slot,
                        following,
                    )
                }
            },
            Expr::Move {
                span,
                number,
                of_type,
            }
            | Expr::Peek {
                span,
                number,
                of_type,
            } => {
                let place = Lvalue::Local {
                    span: *span,
                    number: *number,
                };
                self.load(starts, words_of(of_type), place, slot)
            }
            Expr::Counter { level, .. } => self.emit(Instruction::Move {
                destination: slot,
                source: Operand::Slot {
                    number: counter_of(starts, *level),
                },
            }),
        }
    }

    /// Emits the code that computes and checks the address to which a pointer refers. Returns the operand of the address, without the
    /// bytes to add.
    #[cycle(expression)]
    fn locate(
        &mut self,
        starts: &Starts,
        place: &Dereference,
        free: usize,
    ) -> Result<Operand, AllocError>
        requires { free ≤ most_locals + length self.old.code.items }
        ensures { Gives (place_operand (view_starts starts.now) (view_dereference place.now) free) result self.old self.new
            (place_code (view_starts starts.now) (view_dereference place.now) (length self.old.code.items) free) }
    {
        let outer = self.enter(Some(place_of_access(place)));
        let address = self.lower_access(starts, place, free);
        self.leave(outer);
        address
    }

    /// Emits an expression whose source position is already set, and moves its value to a slot.
    #[cycle(expression)]
    fn lower_access(
        &mut self,
        starts: &Starts,
        place: &Dereference,
        free: usize,
    ) -> Result<Operand, AllocError>
        requires { free ≤ most_locals + length self.old.code.items }
        ensures { Gives (place_operand (view_starts starts.now) (view_dereference place.now) free) result self.old self.new
            (place_code (view_starts starts.now) (view_dereference place.now) (length self.old.code.items) free) }
    {
        match place {
            Dereference::Target {
                kind,
                pointer,
                of_type,
                ..
            } => {
                let address = self.lower_operand(starts, pointer, free)?;
                self.follow(starts, *kind, span_in(of_type), address, free)
            }
            Dereference::Member { pointer, .. } => {
                let address = self.lower_operand(starts, pointer, free)?;
                self.check(starts, NULL_EXCEPTION, address)?;
                Ok(address)
            }
            Dereference::Element {
                pointer,
                index,
                of_type,
                ..
            } => {
                let first = self.lower_pointer(starts, pointer, index, free)?;
                let following = slot_after(free, Kind::Fat)?;
                let moved = self.lower_operand(starts, index, following)?;
                self.reach_element(starts, span_in(of_type), first, moved, free)
            }
        }
    }

    /// Emits the code of a fat pointer before the code of the index that is added to it. The pointer stays in its local if
    /// evaluating the index has no side effect, otherwise it is moved to slots.
    #[cycle(expression)]
    fn lower_pointer(
        &mut self,
        starts: &Starts,
        pointer: &Expr,
        index: &Expr,
        free: usize,
    ) -> Result<usize, AllocError>
        requires { free ≤ most_locals + length self.old.code.items }
        ensures { Gives (pointer_slot (view_starts starts.now) (view_expression pointer.now) (view_expression index.now) free) result self.old
            self.new (code_unless_slot (pointer_of (view_starts starts.now) (view_expression pointer.now) (view_expression index.now))
            (expression_code (view_starts starts.now) (view_expression pointer.now) (length self.old.code.items) free free)) }
    {
        if let Some(Operand::Slot { number }) = pointer_of(starts, pointer, index) {
            return Ok(number);
        }
        self.lower_expression(starts, pointer, free, free)?;
        Ok(free)
    }

    /// Emits the move of the address of a dereferenced object to a slot.
    #[cycle(expression)]
    pub(crate) fn take_address(
        &mut self,
        starts: &Starts,
        place: &Dereference,
        slot: usize,
        free: usize,
    ) -> Result<(), AllocError>
        requires { free ≤ most_locals + length self.old.code.items }
        ensures { Appends result self.old self.new (addressed_by
            (place_code (view_starts starts.now) (view_dereference place.now) (length self.old.code.items) free)
            (place_operand (view_starts starts.now) (view_dereference place.now) free)
            (place_offset (view_starts starts.now) (view_dereference place.now)) slot) }
    {
        let address = self.locate(starts, place, free)?;
        self.bring_address(address, place_offset(starts, place), slot)
    }

    /// Emits the store of a value in the cell whose address is in the slot `free`. Returns the operand of the value.
    #[cycle(expression)]
    fn store(
        &mut self,
        starts: &Starts,
        value: &Converted,
        free: usize,
    ) -> Result<Operand, AllocError>
        requires { free < most_locals + length self.old.code.items }
        ensures { Gives (converted_operand (view_starts starts.now) (view_converted value.now) (free + 1)) result self.old self.new
            (converted_operand_code (view_starts starts.now) (view_converted value.now) (length self.old.code.items) (free + 1)
            ++ saved_code value.now.to free (converted_operand (view_starts starts.now) (view_converted value.now) (free + 1))) }
    {
        let source = self.lower_converted(starts, value, free + 1)?;
        self.save(value.to, free, source)?;
        Ok(source)
    }

    /// Emits the creation of an object in the region of a handle. The initial values are moved to slots, the object is allocated and
    /// filled, and its address is moved to a slot.
    #[cycle(expression)]
    fn lower_object(
        &mut self,
        starts: &Starts,
        initial: &Initial,
        handle: Operand,
        slot: usize,
        free: usize,
    ) -> Result<(), AllocError>
        requires { free ≤ most_locals + length self.old.code.items }
        ensures { Appends result self.old self.new (made_code (view_starts starts.now) (view_initial initial.now) handle (length self.old.code.items)
            slot free) }
    {
        match initial {
            Initial::Plain { kind, value } => {
                self.lower_expression(starts, value, free, free)?;
                self.make_cell(handle, *kind, slot, free)
            }
            Initial::Fields { values } => {
                let words = self.lower_arguments(starts, values, free)?;
                let kinds = kinds_passed(starts.alloc, values)?;
                self.make_object(handle, &kinds, words, slot, free)
            }
            Initial::Array {
                length,
                kind,
                element,
                ..
            } => {
                self.lower_expression(starts, length, free, free)?;
                self.begin_array(starts, handle, *kind, free)?;
                self.lower_elements(starts, *kind, element, slot, free)
            }
        }
    }

    /// Emits the loop that fills a new array. The pointer is in the first free slots, with the loop counter as its index, and is moved to a
    /// slot at the end.
    #[cycle(expression)]
    fn lower_elements(
        &mut self,
        starts: &Starts,
        kind: Kind,
        element: &Expr,
        slot: usize,
        free: usize,
    ) -> Result<(), AllocError>
        ensures { Appends result self.old self.new (elements_code kind
            (expression_code (with_counter (view_starts starts.now) (free + 2)) (view_expression element.now) (length self.old.code.items + 1)
            (free + 3) (free + 3)) (length self.old.code.items) slot free) }
    {
        let following = slot_after(free, Kind::Fat)?;
        let counters = with_counter(starts, following - 1)?;
        let inner = Starts {
            locals: starts.locals,
            tag_slot: starts.tag_slot,
            structs: starts.structs,
            raises: starts.raises,
            counters: &counters,
            globals: starts.globals,
            scopes: starts.scopes,
            alloc: starts.alloc,
        };
        let head = self.reserve()?;
        self.lower_expression(&inner, element, following, following)?;
        self.write_element(kind, head, following - 1, following, free)?;
        self.jump_here_if_failing(head, last_element(following - 2, following - 1));
        self.end_array(slot, following - 1, free)
    }

    /// Emits an expression as an operand. If the expression needs code, the code moves its value to a slot.
    #[cycle(expression)]
    pub(crate) fn lower_operand(
        &mut self,
        starts: &Starts,
        value: &Expr,
        free: usize,
    ) -> Result<Operand, AllocError>
        requires { operand_of (view_starts starts.now) (view_expression value.now) ≡ None → free ≤ most_locals + length self.old.code.items }
        ensures { Gives (value_operand (view_starts starts.now) (view_expression value.now) free) result self.old self.new
            (value_code (view_starts starts.now) (view_expression value.now) (length self.old.code.items) free) }
    {
        match operand_of(starts, value) {
            Some(known) => Ok(known),
            None => {
                let slot = value_slot(starts, value, free);
                self.lower_expression(starts, value, slot, free)?;
                Ok(Operand::Slot { number: slot })
            }
        }
    }

    /// Emits a value before its conversion, and moves it to a slot. For an int that becomes a char, only the low byte is moved.
    #[cycle(expression)]
    pub(crate) fn bring(
        &mut self,
        starts: &Starts,
        value: &Converted,
        slot: usize,
        free: usize,
    ) -> Result<(), AllocError>
        requires { free ≤ most_locals + length self.old.code.items }
        ensures { Appends result self.old self.new (brought_code (view_starts starts.now) (view_converted value.now) (length self.old.code.items) slot free) }
    {
        if masks(value.from, value.to) {
            let whole = self.lower_operand(starts, &value.value, free)?;
            return self.emit(low_byte(whole, slot));
        }
        self.lower_expression(starts, &value.value, slot, free)
    }

    /// Emits a value before its conversion: in its final slot, or in a temporary if the conversion changes its words.
    #[cycle(expression)]
    fn lower_source(
        &mut self,
        starts: &Starts,
        value: &Converted,
        free: usize,
    ) -> Result<Operand, AllocError>
        requires { free ≤ most_locals + length self.old.code.items }
        ensures { Gives (converted_operand (view_starts starts.now) (view_converted value.now) free) result self.old self.new
            (source_code (view_starts starts.now) (view_converted value.now) (length self.old.code.items) free) }
    {
        if keeps_words(value.from, value.to) {
            return self.lower_operand(starts, &value.value, free);
        }
        self.bring(starts, value, free, free)?;
        Ok(Operand::Slot { number: free })
    }

    /// Emits the code of a value, and its conversion in place.
    #[cycle(expression)]
    pub(crate) fn lower_converted(
        &mut self,
        starts: &Starts,
        value: &Converted,
        free: usize,
    ) -> Result<Operand, AllocError>
        requires { free ≤ most_locals + length self.old.code.items }
        ensures { Gives (converted_operand (view_starts starts.now) (view_converted value.now) free) result self.old self.new
            (converted_operand_code (view_starts starts.now) (view_converted value.now) (length self.old.code.items) free) }
    {
        let operand = self.lower_source(starts, value, free)?;
        self.convert(starts, value, operand)?;
        Ok(operand)
    }

    /// Emits a converted value, and moves it to a slot after all code that may raise an exception.
    #[cycle(expression)]
    pub(crate) fn lower_initial(
        &mut self,
        starts: &Starts,
        value: &Converted,
        slot: usize,
        free: usize,
    ) -> Result<(), AllocError>
        requires { free ≤ most_locals + length self.old.code.items }
        ensures { Appends result self.old self.new (initial_code (view_starts starts.now) (view_converted value.now) (length self.old.code.items) slot free) }
    {
        if converts_there(value.from, value.to) {
            return self.bring(starts, value, slot, free);
        }
        let source = self.lower_converted(starts, value, free)?;
        self.emit(move_of(words_of_kind(value.to), slot, source))
    }

    /// Emits an assignment. Returns the operand that contains the assigned value.
    #[cycle(expression)]
    fn lower_assignment(
        &mut self,
        starts: &Starts,
        target: Lvalue,
        value: &Converted,
        free: usize,
    ) -> Result<Operand, AllocError>
        requires { free ≤ most_locals + length self.old.code.items }
        ensures { Gives (assigned_operand (view_starts starts.now) (view_lvalue target) (view_converted value.now) free) result self.old self.new
            (assignment_code (view_starts starts.now) (view_lvalue target) (view_converted value.now) (length self.old.code.items) free) }
    {
        match target {
            Lvalue::Local { number, .. } => {
                let slot = slot_of(starts, number);
                self.lower_initial(starts, value, slot, free)?;
                Ok(Operand::Slot { number: slot })
            }
            Lvalue::Global { number } => {
                let source = self.lower_converted(starts, value, free)?;
                self.store_global(words_of_kind(value.to), global_of(starts, number), source)?;
                Ok(source)
            }
        }
    }

    /// Emits the left operand of a chain of operators, which may need no code if evaluating the right operand has no side effect.
    #[cycle(expression)]
    fn lower_left(
        &mut self,
        starts: &Starts,
        first: &Expr,
        rest: &[Operation],
        slot: usize,
        free: usize,
    ) -> Result<Operand, AllocError>
        requires { free ≤ most_locals + length self.old.code.items }
        ensures { Gives (operand_or (left_of (view_starts starts.now) (view_expression first.now) (operations_of rest.now))
            (left_slot (view_starts starts.now) (view_expression first.now) (operations_of rest.now) slot free)) result self.old self.new
            (left_code (view_starts starts.now) (view_expression first.now) (operations_of rest.now) (length self.old.code.items) slot free) }
    {
        if takes_operand(starts, rest) {
            return self.lower_operand(starts, first, free);
        }
        let to = if rest.is_empty() { slot } else { free };
        self.lower_expression(starts, first, to, free)?;
        Ok(Operand::Slot { number: to })
    }

    /// Emits an expression whose value is not used.
    pub(crate) fn discard(
        &mut self,
        starts: &Starts,
        value: &Expr,
        free: usize,
    ) -> Result<(), AllocError>
        requires { free ≤ most_locals + length self.old.code.items }
        ensures { Appends result self.old self.new (discarded_code (view_starts starts.now) (view_expression value.now) (length self.old.code.items) free) }
    {
        match value {
            Expr::Call {
                callee,
                arguments,
                ..
            } => self.discard_call(starts, *callee, arguments, free),
            Expr::Assign { target, value, .. } => {
                self.lower_assignment(starts, *target, value, free)?;
                Ok(())
            }
            Expr::Store { target, value, .. } => {
                self.take_address(starts, target, free, free)?;
                self.store(starts, value, free)?;
                Ok(())
            }
            _ => match operand_of(starts, value) {
                Some(_) => Ok(()),
                None => self.lower_expression(starts, value, free, free),
            },
        }
    }

    /// Emits a value that must be in a slot. The value of a local stays in the slot of the local if its conversion changes no
    /// words. A value that is not in a local's slot, or whose conversion changes its words, is moved to the slot `free`.
    pub(crate) fn lower_to_slot(
        &mut self,
        starts: &Starts,
        value: &Converted,
        free: usize,
    ) -> Result<usize, AllocError>
        requires { free ≤ most_locals + length self.old.code.items }
        ensures { Gives (converted_slot (view_starts starts.now) (view_converted value.now) free) result self.old self.new
            (slot_code (view_starts starts.now) (view_converted value.now) (length self.old.code.items) free) }
    {
        if keeps_words(value.from, value.to) {
            if let Some(Operand::Slot { number }) = operand_of(starts, &value.value) {
                return Ok(number);
            }
        }
        self.bring(starts, value, free, free)?;
        Ok(free)
    }

    /// Emits a returned value and its conversion. Returns the slot of the returned value.
    pub(crate) fn convert_to_slot(
        &mut self,
        starts: &Starts,
        value: &Converted,
        free: usize,
    ) -> Result<usize, AllocError>
        requires { free ≤ most_locals + length self.old.code.items }
        ensures { Gives (converted_slot (view_starts starts.now) (view_converted value.now) free) result self.old self.new
            (converted_slot_code (view_starts starts.now) (view_converted value.now) (length self.old.code.items) free) }
    {
        let slot = self.lower_to_slot(starts, value, free)?;
        self.convert(starts, value, Operand::Slot { number: slot })?;
        Ok(slot)
    }
}
