//! Decides which instructions may be duplicated and which may be hoisted. An instruction may be duplicated into an extra slot
//! just before it. Hoisted instructions, which write extra slots, may be put before an instruction.
ghost use Rattle.std.specs.Prelude.{◌≡◌, ◌≤◌, length};
ghost use Rattle.cyc_inline.specs.declared.limits.TheConstants as limits;
ghost use Rattle.cyc_inline.specs.inside.Emission as emission;
ghost use Rattle.cyc_inline.specs.inside.Opened as opened;

use crate::limits::MOST_HOISTED;
use cyc_plain::{BinaryOperator, Instruction, Operand};

fn is_division(operator: BinaryOperator) -> bool
    ensures { result ≡ opened.is_division operator }
{
    matches!(operator, BinaryOperator::Divide | BinaryOperator::Remainder)
}

/// Returns true if an instruction may be duplicated: it computes or loads a word and cannot fail.
pub(crate) fn may_have_duplicate(instruction: Instruction) -> bool
    ensures { result ≡ opened.may_have_duplicate instruction }
{
    match instruction {
        Instruction::Binary { operator, .. } => !is_division(operator),
        Instruction::LoadGlobal { .. } | Instruction::Load { .. } => true,
        _ => false,
    }
}

/// Returns the slot of an instruction's duplicate: `wanted`, if the source function lacks this slot and the instruction may be duplicated.
pub(crate) fn duplicate_slot(
    given_slots: usize,
    slots: usize,
    instruction: Instruction,
    wanted: usize,
) -> Option<usize>
    ensures { result ≡ emission.duplicate_slot given_slots slots instruction wanted }
{
    if may_have_duplicate(instruction) {
        if given_slots <= wanted && wanted < slots {
            return Some(wanted);
        }
    }
    None
}

/// Returns true if hoisted instructions may precede an instruction: control can continue after it, and it is not an inlined call.
pub(crate) fn may_follow_hoisted(instruction: Instruction) -> bool
    ensures { result ≡ opened.may_follow_hoisted instruction }
{
    match instruction {
        Instruction::Move { .. }
        | Instruction::MoveWords { .. }
        | Instruction::Unary { .. }
        | Instruction::Binary { .. }
        | Instruction::Branch { .. }
        | Instruction::ReadByte { .. }
        | Instruction::WriteByte { .. }
        | Instruction::LoadGlobal { .. }
        | Instruction::StoreGlobal { .. }
        | Instruction::Load { .. }
        | Instruction::Store { .. }
        | Instruction::LoadByte { .. }
        | Instruction::StoreByte { .. } => true,
        _ => false,
    }
}

fn is_further(given_slots: usize, slots: usize, slot: usize) -> bool
    ensures { result ≡ emission.is_further given_slots slots slot }
{
    given_slots <= slot && slot < slots
}

fn fits_in(slots: usize, operand: Operand) -> bool
    ensures { result ≡ emission.fits_in slots operand }
{
    match operand {
        Operand::Slot { number } => number < slots,
        Operand::Word { .. } => true,
    }
}

/// Returns true if an instruction may be hoisted: it writes a slot that the source function lacks, and it cannot fail.
pub(crate) fn may_hoisted(
    globals: usize,
    given_slots: usize,
    slots: usize,
    hoisted: Instruction,
) -> bool
    ensures { result ≡ emission.may_hoisted globals given_slots slots hoisted }
{
    match hoisted {
        Instruction::Move {
            destination,
            source,
        } => is_further(given_slots, slots, destination) && fits_in(slots, source),
        Instruction::Binary {
            operator,
            destination,
            left,
            right,
        } => {
            !is_division(operator)
                && is_further(given_slots, slots, destination)
                && fits_in(slots, left)
                && fits_in(slots, right)
        }
        Instruction::LoadGlobal {
            destination,
            global,
        } => is_further(given_slots, slots, destination) && global < globals,
        _ => false,
    }
}

/// Returns how many of the instructions requested for hoisting may be hoisted before an instruction.
pub(crate) fn hoisted_count(
    globals: usize,
    given_slots: usize,
    slots: usize,
    instruction: Instruction,
    wanted: &[Instruction],
) -> usize
    ensures value { result ≡ length (emission.all_hoisted_of globals given_slots slots instruction wanted.now) }
    ensures few { result ≤ limits.MOST_HOISTED }
{
    if !may_follow_hoisted(instruction) || wanted.len() > MOST_HOISTED {
        return 0;
    }
    let mut count = 0;
    for hoisted in wanted {
        if may_hoisted(globals, given_slots, slots, *hoisted) {
            count += 1;
        }
    }
    count
}

/// Returns a copy of the instruction that writes its result to the slot `slot` instead of to the slot that the instruction itself writes.
pub(crate) fn duplicate(slot: usize, instruction: Instruction) -> Instruction
    ensures { result ≡ opened.duplicate slot instruction }
{
    match instruction {
        Instruction::Binary {
            operator,
            left,
            right,
            ..
        } => Instruction::Binary {
            operator,
            destination: slot,
            left,
            right,
        },
        Instruction::LoadGlobal { global, .. } => Instruction::LoadGlobal {
            destination: slot,
            global,
        },
        Instruction::Load {
            address,
            offset,
            ..
        } => Instruction::Load {
            destination: slot,
            address,
            offset,
        },
        _ => instruction,
    }
}
