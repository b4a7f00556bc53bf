//! The effects of instructions: the slots that an instruction writes, and memory, which contains the slots whose address is taken.
use cyc_plain::{Instruction, Plain, RECORD_WORDS, Request};

/// A range of consecutive slots: the first slot and the number of slots.
#[derive(Clone, Copy)]
pub(crate) struct Slots {
    pub(crate) first: usize,
    pub(crate) count: usize,
}

pub(crate) fn slots_from(first: usize, count: usize) -> Slots {
    Slots { first, count }
}

/// Returns the slots that receive the result of a heap request, such as an allocation.
fn answered(request: Request) -> Slots {
    match request {
        Request::OpenLexical { destination } => slots_from(destination, 2),
        Request::OpenDynamic { destination } => slots_from(destination, 1),
        Request::Allocate { destination, .. } => slots_from(destination, 1),
        Request::CloseTo { .. } | Request::CloseDynamic { .. } | Request::Free { .. } => slots_from(
            0, 0,
        ),
    }
}

/// Returns the slots that an instruction writes.
pub(crate) fn written_by(plain: &Plain, instruction: &Instruction) -> Slots {
    match *instruction {
        Instruction::Move { destination, .. }
        | Instruction::Unary { destination, .. }
        | Instruction::Binary { destination, .. }
        | Instruction::ReadByte { destination }
        | Instruction::AddressOf { destination, .. }
        | Instruction::LoadGlobal { destination, .. }
        | Instruction::Load { destination, .. }
        | Instruction::LoadByte { destination, .. }
        | Instruction::CountLexical { destination } => slots_from(destination, 1),
        Instruction::MoveWords {
            destination,
            count,
            ..
        } => slots_from(destination, count),
        Instruction::Call {
            function,
            result,
            ..
        } => match plain.functions().get(function) {
            Some(callee) => slots_from(result, callee.results),
            None => slots_from(result, 3),
        },
        Instruction::Try { first, .. } => slots_from(first, RECORD_WORDS),
        Instruction::Ask { request } => answered(request),
        _ => slots_from(0, 0),
    }
}

/// Returns true if an instruction may change memory.
pub(crate) fn stores(instruction: &Instruction) -> bool {
    match instruction {
        Instruction::Store { .. }
        | Instruction::StoreByte { .. }
        | Instruction::StoreGlobal { .. }
        | Instruction::Call { .. }
        | Instruction::Ask { .. }
        | Instruction::Try { .. } => true,
        _ => false,
    }
}

/// Returns the slots whose address an instruction takes.
pub(crate) fn pinned_by(instruction: &Instruction) -> Slots {
    match *instruction {
        Instruction::AddressOf { slot, count, .. } => slots_from(slot, count),
        Instruction::Try { first, .. } => slots_from(first, RECORD_WORDS),
        _ => slots_from(0, 0),
    }
}
