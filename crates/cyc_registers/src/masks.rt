//! The slots that an instruction reads and writes, among the candidates for registers, as bit masks. Bit j stands for candidate number j,
//! and `masks` maps each slot to its bit.
ghost use Rattle.std.specs.Prelude.{◌≡◌, ◌+◌};
ghost use Rattle.cyc_plain.specs.inside.Program.{routine_at};
ghost use Rattle.cyc_registers.specs.inside.Masks as masks_of;

use crate::moves::is_crossing;
use cyc_plain::{Instruction, Operand, Plain, RECORD_WORDS, Request};

/// Returns the bit mask that a list has at the index of a slot or of a code position, or 0 if the index is not below the list's length.
pub(crate) fn mask_at(masks: &[u64], place: usize) -> u64
    ensures { result ≡ masks_of.mask_at masks.now place }
{
    match masks.get(place) {
        Some(mask) => *mask,
        None => 0,
    }
}

fn operand_mask(masks: &[u64], operand: Operand) -> u64
    ensures { result ≡ masks_of.operand_mask masks.now operand }
{
    match operand {
        Operand::Slot { number } => mask_at(masks, number),
        Operand::Word { .. } => 0,
    }
}

/// Returns the bit mask of the slot at a given offset from a first slot.
fn mask_after(masks: &[u64], first: usize, offset: usize) -> u64
    ensures { result ≡ masks_of.mask_at masks.now (first + offset) }
{
    if first > masks.len() || offset >= masks.len() - first {
        return 0;
    }
    mask_at(masks, first + offset)
}

pub(crate) fn range_mask(masks: &[u64], first: usize, count: usize) -> u64
    ensures { result ≡ masks_of.range_mask masks.now first count }
{
    let mut mask = 0;
    for offset in 0..count {
        mask = mask | mask_after(masks, first, offset);
    }
    mask
}

/// Returns the number of words that a function returns.
fn results_of(plain: &Plain, function: usize) -> usize
    ensures { result ≡ (routine_at plain.now function).results }
{
    if function < plain.functions().len() {
        plain.function(function).results
    } else {
        0
    }
}

fn request_read_mask(masks: &[u64], request: Request) -> u64
    ensures { result ≡ masks_of.request_read_mask masks.now request }
{
    match request {
        Request::CloseTo { mark } => operand_mask(masks, mark),
        Request::CloseDynamic { handle } => operand_mask(masks, handle),
        Request::Allocate { handle, words, .. } => operand_mask(masks, handle)
            | operand_mask(masks, words),
        Request::Free { address } => operand_mask(masks, address),
        _ => 0,
    }
}

/// Returns the slots that an instruction reads, in a function with `results` result words.
pub(crate) fn read_mask(masks: &[u64], results: usize, instruction: Instruction) -> u64
    ensures { result ≡ masks_of.read_mask masks.now results instruction }
{
    match instruction {
        Instruction::Move { source, .. } => operand_mask(masks, source),
        Instruction::MoveWords { source, count, .. } => range_mask(masks, source, count),
        Instruction::Unary { operand, .. } => operand_mask(masks, operand),
        Instruction::Binary { left, right, .. } => operand_mask(masks, left)
            | operand_mask(masks, right),
        Instruction::Branch { left, right, .. } => operand_mask(masks, left)
            | operand_mask(masks, right),
        Instruction::Call {
            arguments,
            count,
            ..
        } => range_mask(masks, arguments, count),
        Instruction::Return { value } => range_mask(masks, value, results),
        Instruction::WriteByte { source } => operand_mask(masks, source),
        Instruction::StoreGlobal { source, .. } => operand_mask(masks, source),
        Instruction::Load { address, .. } => operand_mask(masks, address),
        Instruction::Store {
            address,
            source,
            ..
        } => operand_mask(masks, address) | operand_mask(masks, source),
        Instruction::LoadByte { address, .. } => operand_mask(masks, address),
        Instruction::StoreByte {
            address,
            source,
            ..
        } => operand_mask(masks, address) | operand_mask(masks, source),
        Instruction::Ask { request } => request_read_mask(masks, request),
        Instruction::Leave { first } => range_mask(masks, first, RECORD_WORDS),
        Instruction::Throw { tag, value } => operand_mask(masks, tag) | operand_mask(masks, value),
        Instruction::Finish { value } => range_mask(masks, value, results),
        Instruction::Uncaught { value, .. } => operand_mask(masks, value),
        _ => 0,
    }
}

fn request_write_mask(masks: &[u64], request: Request) -> u64
    ensures { result ≡ masks_of.request_write_mask masks.now request }
{
    match request {
        Request::OpenLexical { destination } => range_mask(masks, destination, 2),
        Request::OpenDynamic { destination } => mask_at(masks, destination),
        Request::Allocate { destination, .. } => mask_at(masks, destination),
        _ => 0,
    }
}

/// Returns the slots that an instruction writes and does not exclude from registers.
pub(crate) fn write_mask(masks: &[u64], plain: &Plain, instruction: Instruction) -> u64
    ensures { result ≡ masks_of.write_mask masks.now plain.now instruction }
{
    match instruction {
        Instruction::Move { destination, .. } => mask_at(masks, destination),
        Instruction::MoveWords {
            destination,
            count,
            ..
        } => range_mask(masks, destination, count),
        Instruction::Unary { destination, .. } => mask_at(masks, destination),
        Instruction::Binary { destination, .. } => mask_at(masks, destination),
        Instruction::Call {
            function,
            result,
            ..
        } => range_mask(masks, result, results_of(plain, function)),
        Instruction::ReadByte { destination } => mask_at(masks, destination),
        Instruction::AddressOf { destination, .. } => mask_at(masks, destination),
        Instruction::LoadGlobal { destination, .. } => mask_at(masks, destination),
        Instruction::Load { destination, .. } => mask_at(masks, destination),
        Instruction::LoadByte { destination, .. } => mask_at(masks, destination),
        Instruction::Ask { request } => request_write_mask(masks, request),
        Instruction::CountLexical { destination } => mask_at(masks, destination),
        _ => 0,
    }
}

/// Returns the slots that an instruction excludes from registers.
pub(crate) fn bar_mask(masks: &[u64], instruction: Instruction) -> u64
    ensures { result ≡ masks_of.bar_mask masks.now instruction }
{
    match instruction {
        Instruction::MoveWords {
            destination,
            source,
            count,
        } => {
            if is_crossing(destination, source, count) {
                range_mask(masks, destination, count) | range_mask(masks, source, count)
            } else {
                0
            }
        }
        Instruction::AddressOf { slot, count, .. } => range_mask(masks, slot, count),
        Instruction::Try { first, .. } | Instruction::Leave { first } => range_mask(
            masks,
            first,
            RECORD_WORDS,
        ),
        _ => 0,
    }
}
