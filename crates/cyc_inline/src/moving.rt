//! Shifts the slots of instructions and moves their jump targets.
ghost use Rattle.std.specs.Prelude.{◌≡◌, ◌+◌, ◌<◌, ◌^◌};
ghost use Rattle.cyc_inline.specs.inside.Emission.{IsFit, IsFitOperand};
ghost use Rattle.cyc_inline.specs.inside.Opened as opened;
ghost use Rattle.cyc_inline.specs.inside.Sites as sites;

use crate::tables::place_in;
use cyc_plain::{Instruction, Operand};

fn shifted_operand(shift: usize, operand: Operand) -> Operand
    requires { IsFitOperand shift operand }
    ensures { result ≡ opened.shifted_operand shift operand }
{
    match operand {
        Operand::Slot { number } => Operand::Slot {
            number: shift + number,
        },
        Operand::Word { .. } => operand,
    }
}

/// Returns an instruction with its slots shifted and its jump targets moved.
pub(crate) fn moved(shift: usize, places: &[usize], instruction: Instruction) -> Instruction
    requires { IsFit shift instruction }
    ensures { result ≡ opened.moved shift (sites.place_in places.now) instruction }
{
    match instruction {
        Instruction::Move {
            destination,
            source,
        } => Instruction::Move {
            destination: shift + destination,
            source: shifted_operand(shift, source),
        },
        Instruction::MoveWords {
            destination,
            source,
            count,
        } => Instruction::MoveWords {
            destination: shift + destination,
            source: shift + source,
            count,
        },
        Instruction::Unary {
            operator,
            destination,
            operand,
        } => Instruction::Unary {
            operator,
            destination: shift + destination,
            operand: shifted_operand(shift, operand),
        },
        Instruction::Binary {
            operator,
            destination,
            left,
            right,
        } => Instruction::Binary {
            operator,
            destination: shift + destination,
            left: shifted_operand(shift, left),
            right: shifted_operand(shift, right),
        },
        Instruction::Jump { target } => Instruction::Jump {
            target: place_in(places, target),
        },
        Instruction::Branch {
            comparison,
            left,
            right,
            target,
        } => Instruction::Branch {
            comparison,
            left: shifted_operand(shift, left),
            right: shifted_operand(shift, right),
            target: place_in(places, target),
        },
        Instruction::ReadByte { destination } => Instruction::ReadByte {
            destination: shift + destination,
        },
        Instruction::WriteByte { source } => Instruction::WriteByte {
            source: shifted_operand(shift, source),
        },
        Instruction::LoadGlobal {
            destination,
            global,
        } => Instruction::LoadGlobal {
            destination: shift + destination,
            global,
        },
        Instruction::StoreGlobal { global, source } => Instruction::StoreGlobal {
            global,
            source: shifted_operand(shift, source),
        },
        Instruction::Load {
            destination,
            address,
            offset,
        } => Instruction::Load {
            destination: shift + destination,
            address: shifted_operand(shift, address),
            offset,
        },
        Instruction::Store {
            address,
            offset,
            source,
        } => Instruction::Store {
            address: shifted_operand(shift, address),
            offset,
            source: shifted_operand(shift, source),
        },
        Instruction::LoadByte {
            destination,
            address,
            offset,
        } => Instruction::LoadByte {
            destination: shift + destination,
            address: shifted_operand(shift, address),
            offset,
        },
        Instruction::StoreByte {
            address,
            offset,
            source,
        } => Instruction::StoreByte {
            address: shifted_operand(shift, address),
            offset,
            source: shifted_operand(shift, source),
        },
        Instruction::CountLexical { destination } => Instruction::CountLexical {
            destination: shift + destination,
        },
        Instruction::Throw { tag, value } => Instruction::Throw {
            tag: shifted_operand(shift, tag),
            value: shifted_operand(shift, value),
        },
        Instruction::Try { first, handler } => Instruction::Try {
            first,
            handler: place_in(places, handler),
        },
        _ => instruction,
    }
}
