//! Emits chains of operators. Each operator is applied to the value of the chain before it and to its right operand.
ghost use Rattle.std.specs.Prelude.{◌+◌, ◌≤◌, length};
ghost use Rattle.cyc_types.specs.TypedTreeView.{view_expression, operations_of};
ghost use Rattle.cyc_plain.specs.declared.instruction.Operand.TheVariants as operands;
ghost use Rattle.cyc_lower_proof.specs.inside.ValueCode.{divisor_code, operator_code, truth_code, first_two, index_code, pointer_instructions};
ghost use Rattle.cyc_lower_proof.specs.inside.ExpressionCode.{operations_code};
ghost use Rattle.cyc_lower.specs.inside.Emission.{Appends, most_locals, operation_code, view_starts, pointer_operation_code};

use crate::checks::DIVISION_BY_ZERO;
use crate::emitter::Emitter;
use crate::marks::place_of_operation;
use crate::operands::{index_of, slot_after};
use crate::operators::{binary_operator, left_kind, pointer_operator, test_jump};
use crate::starts::Starts;
use cyc_plain::{BinaryOperator, Instruction, Operand};
use cyc_types::typed::{Expr, Kind, Operation, Operator, PointerOperator};
use std::alloc::AllocError;

impl Emitter {
    /// Emits the test that a divisor is not 0, unless the divisor is a constant other than 0.
    fn check_divisor(&mut self, starts: &Starts, value: Operand) -> Result<(), AllocError>
        ensures { Appends result self.old self.new (divisor_code (view_starts starts.now) value) }
    {
        match value {
            Operand::Word { word: 0 } | Operand::Slot { .. } => {
                self.check(starts, DIVISION_BY_ZERO, value)
            }
            Operand::Word { .. } => Ok(()),
        }
    }

    /// Emits the code of an operator on two operands, with the test of a divisor.
    fn lower_operator(
        &mut self,
        starts: &Starts,
        operator: Operator,
        left: Operand,
        right: Operand,
        slot: usize,
    ) -> Result<(), AllocError>
        ensures { Appends result self.old self.new (operator_code (view_starts starts.now) operator left right slot) }
    {
        if matches!(operator, Operator::Divide | Operator::Remainder) {
            self.check_divisor(starts, right)?;
        }
        self.emit(Instruction::Binary {
            operator: binary_operator(operator),
            destination: slot,
            left,
            right,
        })
    }

    /// Emits the conversion of the word in slot `free` to a truth value: 0 remains 0, and any other word becomes 1.
    fn make_truth(&mut self, free: usize, slot: usize) -> Result<(), AllocError>
        ensures { Appends result self.old self.new (truth_code free slot) }
    {
        self.emit(Instruction::Binary {
            operator: BinaryOperator::NotEqual,
            destination: slot,
            left: Operand::Slot { number: free },
            right: Operand::Word { word: 0 },
        })
    }

    /// Emits one operator of a chain with its right operand, and moves its result to a slot.
    #[cycle(expression)]
    fn lower_operation(
        &mut self,
        starts: &Starts,
        operation: &Operation,
        left: Operand,
        slot: usize,
        free: usize,
    ) -> Result<(), AllocError>
        requires { free ≤ most_locals + length self.old.code.items }
        ensures { Appends result self.old self.new (operation_code (view_starts starts.now) operation.now (length self.old.code.items) left slot free) }
    {
        let outer = self.enter(place_of_operation(operation));
        let made = self.apply(starts, operation, left, slot, free);
        self.leave(outer);
        made
    }

    /// Emits an operator of a chain whose source position is already set.
    #[cycle(expression)]
    fn apply(
        &mut self,
        starts: &Starts,
        operation: &Operation,
        left: Operand,
        slot: usize,
        free: usize,
    ) -> Result<(), AllocError>
        requires { free ≤ most_locals + length self.old.code.items }
        ensures { Appends result self.old self.new (operation_code (view_starts starts.now) operation.now (length self.old.code.items) left slot free) }
    {
        match operation {
            Operation::Compute {
                operator,
                operand,
                ..
            } => {
                let following = slot_after(free, Kind::Int)?;
                let right = self.lower_operand(starts, operand, following)?;
                self.lower_operator(starts, *operator, left, right, slot)
            }
            Operation::Test { operator, operand } => {
                let jump = self.place();
                self.emit(test_jump(*operator, free, 0))?;
                self.lower_expression(starts, operand, free, free)?;
                let following = self.place();
                self.patch(jump, test_jump(*operator, free, following));
                self.make_truth(free, slot)
            }
            Operation::Pointer { operator, operand } => self.lower_pointer_operation(
                starts, *operator, operand, left, slot, free,
            ),
            Operation::PointerPeek {
                operator,
                operand,
                ..
            } => self.lower_pointer_operation(starts, *operator, operand, left, slot, free),
        }
    }

    /// Emits an operator on pointers, whose left operand is in the first free slots, and its right operand.
    #[cycle(expression)]
    fn lower_pointer_operation(
        &mut self,
        starts: &Starts,
        operator: PointerOperator,
        operand: &Expr,
        left: Operand,
        slot: usize,
        free: usize,
    ) -> Result<(), AllocError>
        ensures { Appends result self.old self.new (pointer_operation_code (view_starts starts.now) operator (view_expression operand.now)
            (length self.old.code.items) left slot free) }
    {
        let following = slot_after(free, left_kind(operator))?;
        let right = self.lower_operand(starts, operand, following)?;
        self.apply_pointer(operator, left, right, slot)
    }

    /// Emits an operator on pointers. The emitted code compares pointers by their first words, or changes a fat pointer's index,
    /// moving its other words to the slots before the index.
    fn apply_pointer(
        &mut self,
        operator: PointerOperator,
        left: Operand,
        right: Operand,
        slot: usize,
    ) -> Result<(), AllocError>
        ensures { Appends result self.old self.new (pointer_instructions operator left right slot) }
    {
        if matches!(
            operator,
            PointerOperator::AddFat | PointerOperator::SubtractFat
        ) {
            return self.change_index(pointer_operator(operator), left, right, slot);
        }
        self.emit(Instruction::Binary {
            operator: pointer_operator(operator),
            destination: slot,
            left,
            right,
        })
    }

    /// Emits the change of a fat pointer's index. Emits also moves of a fat pointer's first two words to the slots before the
    /// index, unless the words are in these slots already.
    fn change_index(
        &mut self,
        operator: BinaryOperator,
        left: Operand,
        right: Operand,
        slot: usize,
    ) -> Result<(), AllocError>
        ensures { Appends result self.old self.new (index_code operator left right slot) }
    {
        let following = slot_after(slot, Kind::Fat)?;
        self.emit(Instruction::Binary {
            operator,
            destination: following - 1,
            left: index_of(left)?,
            right,
        })?;
        self.move_first_two(left, slot)
    }

    fn move_first_two(&mut self, pointer: Operand, slot: usize) -> Result<(), AllocError>
        ensures { Appends result self.old self.new (first_two pointer slot) }
    {
        match pointer {
            Operand::Slot { number } if number != slot => self.emit(Instruction::MoveWords {
                destination: slot,
                source: number,
                count: 2,
            }),
            Operand::Slot { .. } | Operand::Word { .. } => Ok(()),
        }
    }

    /// Emits a chain of operators from its first operator on, and moves the result of the last operator to a slot.
    #[cycle(expression)]
    pub(crate) fn lower_operations(
        &mut self,
        starts: &Starts,
        operations: &[Operation],
        first: Operand,
        slot: usize,
        free: usize,
    ) -> Result<(), AllocError>
        requires { free ≤ most_locals + length self.old.code.items }
        ensures { Appends result self.old self.new (operations_code (view_starts starts.now) (operations_of operations.now)
            (length self.old.code.items) first slot free) }
    {
        let mut left = first;
        let mut following = operations.len();
        for operation in operations {
            following -= 1;
            let to = if following == 0 { slot } else { free };
            self.lower_operation(starts, operation, left, to, free)?;
            left = Operand::Slot { number: to };
        }
        Ok(())
    }
}
