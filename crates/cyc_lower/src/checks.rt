//! Emits checks, and the blocks that raise an exception if a check fails.
ghost use Rattle.std.specs.Prelude.{◌≡◌};
ghost use Rattle.cyc_lower_proof.specs.inside.ValueCode.{raising, telling, blocks, guard_code, check_code};
ghost use Rattle.cyc_lower.specs.inside.Emission.{Appends, view_starts};

use crate::emitter::Emitter;
use crate::starts::Starts;
use cyc_plain::{BinaryOperator, Comparison, Instruction, Operand};
use std::alloc::AllocError;

/// The tag of the exception for a null pointer, the first of the exceptions that the language raises.
pub(crate) const NULL_EXCEPTION: u32 = 1;

pub(crate) const ARRAY_BOUNDS: u32 = 2;

pub(crate) const ARRAY_SIZE: u32 = 3;

pub(crate) const DIVISION_BY_ZERO: u32 = 4;

/// Returns the instruction that raises an exception with the value 0.
fn raising(tag: u32) -> Instruction
    ensures { result ≡ raising tag }
{
    Instruction::Throw {
        tag: Operand::Word { word: tag },
        value: Operand::Word { word: 0 },
    }
}

impl Emitter {
    /// Emits the code that raises the exception of a failed access through a fat pointer. In the emitted code, `slot` contains
    /// 0 if the pointer is null, otherwise 1.
    fn lower_telling(&mut self, slot: usize) -> Result<(), AllocError>
        ensures { Appends result self.old self.new (telling slot) }
    {
        let number = Instruction::Binary {
            operator: BinaryOperator::Add,
            destination: slot,
            left: Operand::Slot { number: slot },
            right: Operand::Word {
                word: NULL_EXCEPTION,
            },
        };
        let throw = Instruction::Throw {
            tag: Operand::Slot { number: slot },
            value: Operand::Word { word: 0 },
        };
        self.emit_both(number, throw)
    }

    /// Emits the blocks after a function's body that raise exceptions. The first of the blocks that raise exceptions is for failed
    /// accesses through fat pointers and tests a slot that says if the pointer is null. After the block for fat pointers comes one
    /// block for each exception of the language, in the order of tags.
    pub(crate) fn lower_blocks(&mut self, slot: usize) -> Result<(), AllocError>
        ensures { Appends result self.old self.new (blocks slot) }
    {
        self.lower_telling(slot)?;
        self.emit_both(raising(NULL_EXCEPTION), raising(ARRAY_BOUNDS))?;
        self.emit_both(raising(ARRAY_SIZE), raising(DIVISION_BY_ZERO))
    }

    /// Emits a check that raises an exception if a comparison of two operands holds.
    pub(crate) fn guard(
        &mut self,
        starts: &Starts,
        tag: u32,
        failing: Comparison,
        left: Operand,
        right: Operand,
    ) -> Result<(), AllocError>
        ensures { Appends result self.old self.new (guard_code (view_starts starts.now) tag failing left right) }
    {
        self.emit(Instruction::Branch {
            comparison: failing,
            left,
            right,
            target: starts.raises + 2 + tag as usize,
        })
    }

    /// Emits a check that raises an exception if a word is 0.
    pub(crate) fn check(
        &mut self,
        starts: &Starts,
        tag: u32,
        value: Operand,
    ) -> Result<(), AllocError>
        ensures { Appends result self.old self.new (check_code (view_starts starts.now) tag value) }
    {
        let zero = Operand::Word { word: 0 };
        self.guard(starts, tag, Comparison::Equal, value, zero)
    }
}
