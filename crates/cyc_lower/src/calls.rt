//! Emits the code of calls and of their arguments.
ghost use Rattle.std.specs.Prelude.{◌+◌, ◌≤◌, length};
ghost use Rattle.cyc_types.specs.Types.{Void};
ghost use Rattle.cyc_types.specs.TypedTreeView.{arguments_of};
ghost use Rattle.cyc_types.specs.TypedTrees.{Call};
ghost use Rattle.cyc_plain.specs.declared.instruction.Operand.TheVariants as operands;
ghost use Rattle.cyc_lower_proof.specs.inside.ValueCode.{all_passed};
ghost use Rattle.cyc_lower_proof.specs.inside.ExpressionCode.{printed_operand, expression_code, arguments_code};
ghost use Rattle.cyc_lower_proof.specs.inside.Lowering.{discarded_code};
ghost use Rattle.cyc_lower.specs.inside.Emission.{Appends, Gives, most_locals, print_code, view_starts};

use crate::emitter::Emitter;
use crate::operands::slot_after;
use crate::operators::low_byte;
use crate::starts::Starts;
use cyc_plain::{Instruction, Operand};
use cyc_types::typed::{Callee, Converted};
use std::alloc::AllocError;

impl Emitter {
    /// Emits a call and moves its result to a slot.
    #[cycle(expression)]
    pub(crate) fn call(
        &mut self,
        starts: &Starts,
        callee: Callee,
        arguments: &[Converted],
        slot: usize,
        free: usize,
    ) -> Result<(), AllocError>
        requires { free ≤ most_locals + length self.old.code.items }
        ensures { Appends result self.old self.new (expression_code (view_starts starts.now) (Call callee (arguments_of arguments.now) Void)
            (length self.old.code.items) slot free) }
    {
        match callee {
            Callee::Putchar => {
                let byte = self.print(starts, arguments, free)?;
                self.emit(low_byte(byte, slot))
            }
            Callee::Getchar => {
                self.lower_arguments(starts, arguments, free)?;
                self.emit(Instruction::ReadByte { destination: slot })
            }
            Callee::Function { number } => {
                let count = self.lower_arguments(starts, arguments, free)?;
                self.emit(Instruction::Call {
                    function: number,
                    arguments: free,
                    count,
                    result: slot,
                })
            }
        }
    }

    /// Emits a call of `putchar` with its only argument.
    #[cycle(expression)]
    fn print(
        &mut self,
        starts: &Starts,
        arguments: &[Converted],
        free: usize,
    ) -> Result<Operand, AllocError>
        requires { free ≤ most_locals + length self.old.code.items }
        ensures { Gives (printed_operand (view_starts starts.now) (arguments_of arguments.now) (operands.Slot free) free) result self.old self.new
            (print_code (view_starts starts.now) (arguments_of arguments.now) (length self.old.code.items) free) }
    {
        let mut byte = Operand::Slot { number: free };
        for argument in arguments {
            byte = self.lower_converted(starts, argument, free)?;
        }
        self.emit(Instruction::WriteByte { source: byte })?;
        Ok(byte)
    }

    /// Emits the code of the arguments of a call, each in the slots after those of the previous one. Returns the number of words of the
    /// arguments.
    #[cycle(expression)]
    pub(crate) fn lower_arguments(
        &mut self,
        starts: &Starts,
        arguments: &[Converted],
        first: usize,
    ) -> Result<usize, AllocError>
        requires { first ≤ most_locals + length self.old.code.items }
        ensures { Gives (all_passed (arguments_of arguments.now)) result self.old self.new
            (arguments_code (view_starts starts.now) (arguments_of arguments.now) (length self.old.code.items) first) }
    {
        let mut slot = first;
        for argument in arguments {
            self.bring(starts, argument, slot, slot)?;
            self.convert(starts, argument, Operand::Slot { number: slot })?;
            slot = slot_after(slot, argument.to)?;
        }
        Ok(slot - first)
    }

    /// Emits a call whose value is not used.
    pub(crate) fn discard_call(
        &mut self,
        starts: &Starts,
        callee: Callee,
        arguments: &[Converted],
        free: usize,
    ) -> Result<(), AllocError>
        requires { free ≤ most_locals + length self.old.code.items }
        ensures { Appends result self.old self.new (discarded_code (view_starts starts.now) (Call callee (arguments_of arguments.now) Void)
            (length self.old.code.items) free) }
    {
        match callee {
            Callee::Putchar => {
                self.print(starts, arguments, free)?;
                Ok(())
            }
            Callee::Getchar => self.call(starts, callee, arguments, free, free),
            Callee::Function { .. } => self.call(starts, callee, arguments, free, free),
        }
    }
}
