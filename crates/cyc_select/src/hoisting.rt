//! Hoists the first line of a branch target before the branch, to fill the branch's delay slot.
ghost use Rattle.std.specs.Prelude.{◌≡◌, ◌+◌, ◌≤◌, slice_get};
ghost use Rattle.cyc_select.specs.inside.Slots.{value_register, is_own};
ghost use Rattle.cyc_select.specs.inside.Operands.{test_count};
ghost use Rattle.cyc_select.specs.inside.Hoisting.{word_first, slot_first, operand_first, operands_first, operation_first, plan_first, divided_first};
ghost use Rattle.cyc_select.specs.inside.Hoisting.{test_first, copy_first, load_first, move_first, first_line, given_register, own_register};
ghost use Rattle.cyc_select.specs.inside.Hoisting.{target_of, tests_register, is_spare, may_write, copied_if};
ghost use Rattle.cyc_select.specs.inside.Hoisting.{hoisted_at, hoisted, hoisted_count};

use crate::code::Condition;
use crate::constants::{FIRST, SECOND, THIRD, THIRD_RESULT, ZERO};
use crate::counting::is_idle;
use crate::instructions::{add_immediate, copy, load_upper, minus, or_immediate, small};
use crate::numbers::{fits_signed, is_zero_word};
use crate::operands::{made_in, operand_register, value_register};
use crate::operators::{
    arithmetic, condition_of, immediate, is_tested, shift, shift_by, test_count,
};
use crate::plan::{Operation, Plan, Test, binary_plan, test_of, unary_plan};
use cyc_frame::Frame;
use cyc_isa::Instr;
use cyc_machine_model::constants::{ARGUMENT, GET_BYTE, SERVICE};
use cyc_plain::{Instruction, Operand};

/// Returns the first line of the code that loads a constant word into a register.
fn word_first(target: u8, word: u32) -> Instr
    ensures { result ≡ word_first target word }
{
    if fits_signed(word) {
        small(target, (word % 0x1_0000) as u16)
    } else if word < 0x1_0000 {
        or_immediate(target, word as u16)
    } else {
        load_upper(target, word)
    }
}

/// Returns the first line that loads an operand into a register, or `following` if no line is needed. Returns `None`
/// if the line that loads the operand reads memory.
fn operand_first(
    frame: &Frame,
    register: u8,
    operand: Operand,
    following: Option<Instr>,
) -> Option<Instr>
    ensures { result ≡ operand_first frame.now register operand following }
{
    match operand {
        Operand::Slot { number } => match value_register(frame, number) {
            Some(_) => following,
            None => None,
        },
        Operand::Word { word } => {
            if is_zero_word(operand) {
                following
            } else {
                Some(word_first(register, word))
            }
        }
    }
}

/// Returns the first line that loads two operands, or `following` if no load is needed.
fn operands_first(
    frame: &Frame,
    left: Operand,
    right: Operand,
    following: Option<Instr>,
) -> Option<Instr>
    ensures { result ≡ operands_first frame.now left right following }
{
    operand_first(
        frame,
        FIRST,
        left,
        operand_first(frame, SECOND, right, following),
    )
}

/// Returns the machine instruction of an operation that takes only one machine instruction, otherwise `None`.
fn operation_first(operation: Operation, target: u8, left: u8, right: u8) -> Option<Instr>
    ensures { result ≡ operation_first operation target left right }
{
    match operation {
        Operation::Arithmetic { op } => Some(arithmetic(op, target, left, right)),
        Operation::Immediate { op, half } => Some(immediate(op, target, left, half)),
        Operation::Shift { op } => Some(shift(op, target, left, right)),
        Operation::ShiftBy { op, amount } => Some(shift_by(op, target, left, amount)),
        Operation::MultiplyDivide { .. } => None,
    }
}

/// Returns the first line of the code of a plan (a sequence of machine operations), whose result is computed in this register.
fn plan_first(frame: &Frame, target: u8, plan: Plan) -> Option<Instr>
    ensures { result ≡ plan_first frame.now target plan }
{
    let left = operand_register(frame, FIRST, plan.left);
    let right = operand_register(frame, SECOND, plan.right);
    let computed = operation_first(plan.operation, target, left, right);
    operands_first(frame, plan.left, plan.right, computed)
}

/// Returns the first line of the code of a division with a test of its divisor.
fn divided_first(frame: &Frame, left: Operand, right: Operand) -> Option<Instr>
    ensures { result ≡ divided_first frame.now left right }
{
    let following = add_immediate(THIRD, ZERO, minus(1));
    operands_first(frame, left, right, Some(following))
}

/// Returns the first line of the code that computes a branch's test.
fn test_first(frame: &Frame, test: Test) -> Option<Instr>
    ensures { result ≡ test_first frame.now test }
{
    match test {
        Test::Operands { left, right, .. } => operands_first(frame, left, right, None),
        Test::Sign { operand, .. } => operand_first(frame, FIRST, operand, None),
        Test::Computed { plan } => plan_first(frame, FIRST, plan),
    }
}

/// Returns the first line of the code that loads an operand into the register of a slot.
fn load_first(frame: &Frame, register: u8, operand: Operand) -> Option<Instr>
    ensures { result ≡ load_first frame.now register operand }
{
    match operand {
        Operand::Slot { number } => match value_register(frame, number) {
            Some(own) => Some(copy(register, own)),
            None => None,
        },
        Operand::Word { word } => Some(word_first(register, word)),
    }
}

/// Returns the first line of the code that copies an operand to a slot.
fn move_first(frame: &Frame, destination: usize, source: Operand) -> Option<Instr>
    ensures { result ≡ move_first (value_register frame.now destination) frame.now source }
{
    match value_register(frame, destination) {
        Some(register) => load_first(frame, register, source),
        None => operand_first(frame, FIRST, source, None),
    }
}

/// Returns the first line of an instruction if it may be hoisted: the line computes a register from registers, and more lines follow or
/// control passes only to the next instruction.
fn first_line(frame: &Frame, instruction: Instruction) -> Option<Instr>
    ensures { result ≡ first_line frame.now instruction }
{
    match instruction {
        Instruction::Move {
            destination,
            source,
        } => move_first(frame, destination, source),
        Instruction::Unary {
            operator,
            destination,
            operand,
        } => plan_first(
            frame,
            made_in(frame, destination),
            unary_plan(operator, operand),
        ),
        Instruction::Binary {
            operator,
            destination,
            left,
            right,
        } => {
            if is_tested(operator, right) {
                return divided_first(frame, left, right);
            }
            let plan = binary_plan(operator, left, right);
            plan_first(frame, made_in(frame, destination), plan)
        }
        Instruction::Branch {
            comparison,
            left,
            right,
            ..
        } => test_first(frame, test_of(comparison, left, right)),
        Instruction::ReadByte { .. } => Some(small(SERVICE, GET_BYTE as u16)),
        Instruction::WriteByte { source } => load_first(frame, ARGUMENT, source),
        Instruction::StoreGlobal { source, .. } => operand_first(frame, FIRST, source, None),
        _ => None,
    }
}

/// Returns the register of the slot to which an instruction writes its result, if the slot has one.
fn given_register(frame: &Frame, instruction: Instruction) -> Option<u8>
    ensures { result ≡ given_register frame.now instruction }
{
    match instruction {
        Instruction::Move { destination, .. }
        | Instruction::Unary { destination, .. }
        | Instruction::Binary { destination, .. } => value_register(frame, destination),
        _ => None,
    }
}

/// Returns the register of the slot to which an instruction writes its result, if the frame permits this instruction's first line to fill
/// delay slots.
fn own_register(frame: &Frame, target: usize, instruction: Instruction) -> Option<u8>
    ensures { result ≡ own_register frame.now target instruction }
{
    if frame.fills_slots(target) {
        given_register(frame, instruction)
    } else {
        None
    }
}

/// Returns the register that an instruction writes, if it reads registers only.
fn target_of(instruction: Instr) -> Option<u8>
    ensures { result ≡ target_of instruction }
{
    match instruction {
        Instr::Immediate { target, .. } | Instr::LoadUpper { target, .. } => Some(target.number),
        Instr::Shift { destination, .. }
        | Instr::ShiftVariable { destination, .. }
        | Instr::Arithmetic { destination, .. } => Some(destination.number),
        _ => None,
    }
}

fn tests_register(condition: Condition, register: u8) -> bool
    ensures { result ≡ tests_register condition register }
{
    match condition {
        Condition::Registers { left, right, .. } => {
            left.number == register || right.number == register
        }
        Condition::Sign { source, .. } => source.number == register,
    }
}

/// Returns true if a register is temporary: no slot has it, and its word is not used later.
fn is_spare(register: u8) -> bool
    ensures { result ≡ is_spare register }
{
    register == FIRST || (ZERO < register && register <= THIRD_RESULT)
}

fn is_own(own: Option<u8>, register: u8) -> bool
    ensures { result ≡ is_own own register }
{
    match own {
        Some(own) => own == register,
        None => false,
    }
}

/// Returns true if a line that writes the register `target` may stand before the branch: `target` is a temporary or `own`, and the
/// branch does not test `target`.
fn may_write(condition: Condition, own: Option<u8>, target: Option<u8>) -> bool
    ensures { result ≡ may_write condition own target }
{
    match target {
        Some(register) => {
            (is_spare(register) || is_own(own, register)) && !tests_register(condition, register)
        }
        None => false,
    }
}

/// Returns the first line of the branch target if this line may stand before the branch, otherwise `None`.
fn copied_if(condition: Condition, own: Option<u8>, first: Option<Instr>) -> Option<Instr>
    ensures { result ≡ copied_if condition own first }
{
    match first {
        Some(first) => {
            if may_write(condition, own, target_of(first)) {
                Some(first)
            } else {
                None
            }
        }
        None => None,
    }
}

/// Returns the MIPS line hoisted before a branch with this test: the first line of the target instruction, if it may stand before the
/// branch.
pub(crate) fn hoisted(
    frame: &Frame,
    code: &[Instruction],
    test: Test,
    target: usize,
) -> Option<Instr>
    ensures { result ≡ hoisted frame.now code.now test target }
{
    let condition = condition_of(frame, test);
    match code.get(target) {
        Some(instruction) => {
            if is_idle(frame, target, *instruction) {
                None
            } else {
                let own = own_register(frame, target, *instruction);
                copied_if(condition, own, first_line(frame, *instruction))
            }
        }
        None => None,
    }
}

/// Returns the number of MIPS lines of a branch, including its test and the hoisted line.
pub(crate) fn branch_count(frame: &Frame, code: &[Instruction], test: Test, target: usize) -> usize
    ensures { result ≡ test_count frame.now test + hoisted_count (hoisted frame.now code.now test target) + 1 }
{
    match hoisted(frame, code, test, target) {
        Some(_) => test_count(frame, test) + 1 + 1,
        None => test_count(frame, test) + 1,
    }
}
