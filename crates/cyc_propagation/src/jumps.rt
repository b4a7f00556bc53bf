//! The jump targets of instructions.
ghost use Rattle.std.specs.Prelude.{◌≡◌};
ghost use Rattle.cyc_propagation.specs.inside.Table as table;
ghost use Rattle.cyc_propagation.specs.inside.Tail as tails;

use cyc_plain::Instruction;

/// Returns the jump target of an instruction, if it has one.
pub(crate) fn target_of(instruction: Instruction) -> Option<usize>
    ensures { result ≡ tails.target_of instruction }
{
    match instruction {
        Instruction::Jump { target } => Some(target),
        Instruction::Branch { target, .. } => Some(target),
        Instruction::Try { handler, .. } => Some(handler),
        _ => None,
    }
}

/// Returns true if control may continue at the next instruction.
pub(crate) fn goes_on(instruction: Instruction) -> bool
    ensures { result ≡ table.goes_on instruction }
{
    match instruction {
        Instruction::Jump { .. }
        | Instruction::Return { .. }
        | Instruction::Throw { .. }
        | Instruction::Finish { .. }
        | Instruction::Uncaught { .. } => false,
        _ => true,
    }
}

/// Returns true if execution ends at a code position, or leaves the function there by an exception, so that no facts are
/// needed at this position.
pub(crate) fn is_end(code: &[Instruction], index: usize) -> bool {
    match code.get(index) {
        Some(instruction) => matches!(
            *instruction,
            Instruction::Throw { .. } | Instruction::Uncaught { .. }
        ),
        None => true,
    }
}
