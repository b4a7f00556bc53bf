//! Decodes machine words to instructions.

ghost use Rattle.std.specs.Prelude.{◌≡◌, ◌↔◌, IsSome, IfSome};
ghost use Rattle.cyc_isa.specs.Field.{Opcode, Rt, Function, Half, Sa, Target, Trap, field_of};
ghost use Rattle.cyc_isa.specs.Encoding.{word_of, IsInstruction};
ghost use Rattle.cyc_isa.specs.Decoding.{rs_of, rt_of, rd_of, shift_amount_of, jump_index_of, trap_code_of, immediate_in, load_upper_in, memory_in};
ghost use Rattle.cyc_isa.specs.Decoding.{branch_in, branch_zero_in, jump_in, shift_in, shift_variable_in};
ghost use Rattle.cyc_isa.specs.Decoding.{jump_register_in, jump_register_link_in, exception_in, move_from_in, multiply_divide_in, arithmetic_in};
ghost use Rattle.cyc_isa.specs.Decoding.{opcodes, sign_branches, functions, entry_at, selected_of, decode_of};

use crate::encoding::encode;
use crate::instr::{
    ArithmeticOp, BranchOp, BranchZeroOp, ExceptionOp, ImmediateOp, Instr, JumpOp, MemoryOp,
    MoveFromOp, MultiplyDivideOp, ShiftOp,
};
use crate::operand::{JumpIndex, Register, ShiftAmount, TrapCode};

// ---- the operands in a word

fn rs(word: u32) -> Register
    ensures { result ≡ rs_of word }
{
    Register {
        number: ((word >> 21) % 32) as u8,
    }
}

fn rt(word: u32) -> Register
    ensures { result ≡ rt_of word }
{
    Register {
        number: ((word >> 16) % 32) as u8,
    }
}

fn rd(word: u32) -> Register
    ensures { result ≡ rd_of word }
{
    Register {
        number: ((word >> 11) % 32) as u8,
    }
}

fn shift_amount(word: u32) -> ShiftAmount
    ensures { result ≡ shift_amount_of (field_of Sa word) }
{
    ShiftAmount {
        bits: ((word >> 6) % 32) as u8,
    }
}

fn half(word: u32) -> u16
    ensures { result ≡ field_of Half word }
{
    (word % 0x1_0000) as u16
}

fn jump_index(word: u32) -> JumpIndex
    ensures { result ≡ jump_index_of (field_of Target word) }
{
    JumpIndex {
        index: word % 0x400_0000,
    }
}

fn trap_code(word: u32) -> TrapCode
    ensures { result ≡ trap_code_of (field_of Trap word) }
{
    TrapCode {
        code: (word >> 6) % 0x10_0000,
    }
}

// ---- an operation with the operands from a word

fn immediate(op: ImmediateOp, word: u32) -> Instr
    ensures { result ≡ immediate_in op word }
{
    Instr::Immediate {
        op,
        target: rt(word),
        source: rs(word),
        immediate: half(word),
    }
}

fn load_upper(word: u32) -> Instr
    ensures { result ≡ load_upper_in word }
{
    Instr::LoadUpper {
        target: rt(word),
        immediate: half(word),
    }
}

fn memory(op: MemoryOp, word: u32) -> Instr
    ensures { result ≡ memory_in op word }
{
    Instr::Memory {
        op,
        target: rt(word),
        base: rs(word),
        offset: half(word),
    }
}

fn branch(op: BranchOp, word: u32) -> Instr
    ensures { result ≡ branch_in op word }
{
    Instr::Branch {
        op,
        left: rs(word),
        right: rt(word),
        offset: half(word),
    }
}

fn branch_zero(op: BranchZeroOp, word: u32) -> Instr
    ensures { result ≡ branch_zero_in op word }
{
    Instr::BranchZero {
        op,
        source: rs(word),
        offset: half(word),
    }
}

fn jump(op: JumpOp, word: u32) -> Instr
    ensures { result ≡ jump_in op word }
{
    Instr::Jump {
        op,
        index: jump_index(word),
    }
}

fn shift(op: ShiftOp, word: u32) -> Instr
    ensures { result ≡ shift_in op word }
{
    Instr::Shift {
        op,
        destination: rd(word),
        source: rt(word),
        amount: shift_amount(word),
    }
}

fn shift_variable(op: ShiftOp, word: u32) -> Instr
    ensures { result ≡ shift_variable_in op word }
{
    Instr::ShiftVariable {
        op,
        destination: rd(word),
        source: rt(word),
        by: rs(word),
    }
}

fn jump_register(word: u32) -> Instr
    ensures { result ≡ jump_register_in word }
{
    Instr::JumpRegister { source: rs(word) }
}

fn jump_register_link(word: u32) -> Instr
    ensures { result ≡ jump_register_link_in word }
{
    Instr::JumpRegisterLink {
        destination: rd(word),
        source: rs(word),
    }
}

fn exception(op: ExceptionOp, word: u32) -> Instr
    ensures { result ≡ exception_in op word }
{
    Instr::Exception {
        op,
        code: trap_code(word),
    }
}

fn move_from(op: MoveFromOp, word: u32) -> Instr
    ensures { result ≡ move_from_in op word }
{
    Instr::MoveFrom {
        op,
        destination: rd(word),
    }
}

fn multiply_divide(op: MultiplyDivideOp, word: u32) -> Instr
    ensures { result ≡ multiply_divide_in op word }
{
    Instr::MultiplyDivide {
        op,
        left: rs(word),
        right: rt(word),
    }
}

fn arithmetic(op: ArithmeticOp, word: u32) -> Instr
    ensures { result ≡ arithmetic_in op word }
{
    Instr::Arithmetic {
        op,
        destination: rd(word),
        left: rs(word),
        right: rt(word),
    }
}

// ---- the architecture's encoding tables

/// Returns the instruction that a word with opcode 0 encodes, selected by the function field.
fn by_function(word: u32) -> Option<Instr>
    ensures { result ≡ entry_at functions (field_of Function word) word }
{
    let instr = match word % 64 {
        0x00 => shift(ShiftOp::Left, word),
        0x02 => shift(ShiftOp::RightLogical, word),
        0x03 => shift(ShiftOp::RightArithmetic, word),
        0x04 => shift_variable(ShiftOp::Left, word),
        0x06 => shift_variable(ShiftOp::RightLogical, word),
        0x07 => shift_variable(ShiftOp::RightArithmetic, word),
        0x08 => jump_register(word),
        0x09 => jump_register_link(word),
        0x0c => exception(ExceptionOp::Syscall, word),
        0x0d => exception(ExceptionOp::Break, word),
        0x10 => move_from(MoveFromOp::High, word),
        0x12 => move_from(MoveFromOp::Low, word),
        0x18 => multiply_divide(MultiplyDivideOp::Multiply, word),
        0x1a => multiply_divide(MultiplyDivideOp::Divide, word),
        0x21 => arithmetic(ArithmeticOp::AddUnsigned, word),
        0x23 => arithmetic(ArithmeticOp::SubtractUnsigned, word),
        0x24 => arithmetic(ArithmeticOp::And, word),
        0x25 => arithmetic(ArithmeticOp::Or, word),
        0x26 => arithmetic(ArithmeticOp::Xor, word),
        0x27 => arithmetic(ArithmeticOp::Nor, word),
        0x2a => arithmetic(ArithmeticOp::SetLess, word),
        0x2b => arithmetic(ArithmeticOp::SetLessUnsigned, word),
        _ => return None,
    };
    Some(instr)
}

/// Returns the instruction that a word may encode. It is selected by the field `opcode` of the word. For opcode 0 it is
/// selected by the field `function`, and for opcode 1 by the field `rt`.
fn selected(word: u32) -> Option<Instr>
    ensures { result ≡ selected_of word }
{
    let instr = match word >> 26 {
        0x00 => return by_function(word),
        0x01 => match (word >> 16) % 32 {
            0 => branch_zero(BranchZeroOp::Less, word),
            1 => branch_zero(BranchZeroOp::GreaterOrEqual, word),
            _ => return None,
        },
        0x02 => jump(JumpOp::Plain, word),
        0x03 => jump(JumpOp::AndLink, word),
        0x04 => branch(BranchOp::Equal, word),
        0x05 => branch(BranchOp::NotEqual, word),
        0x06 => branch_zero(BranchZeroOp::LessOrEqual, word),
        0x07 => branch_zero(BranchZeroOp::Greater, word),
        0x09 => immediate(ImmediateOp::AddUnsigned, word),
        0x0a => immediate(ImmediateOp::SetLess, word),
        0x0b => immediate(ImmediateOp::SetLessUnsigned, word),
        0x0c => immediate(ImmediateOp::And, word),
        0x0d => immediate(ImmediateOp::Or, word),
        0x0e => immediate(ImmediateOp::Xor, word),
        0x0f => load_upper(word),
        0x23 => memory(MemoryOp::LoadWord, word),
        0x24 => memory(MemoryOp::LoadByte, word),
        0x28 => memory(MemoryOp::StoreByte, word),
        0x2b => memory(MemoryOp::StoreWord, word),
        _ => return None,
    };
    Some(instr)
}

/// Returns the instruction that a word encodes.
///
/// Returns `None` if the word is not an instance of a row of the instruction table: its operation does not exist, or an unused
/// field is not 0.
pub fn decode(word: u32) -> Option<Instr>
    ensures instruction { IsSome result ↔ IsInstruction word }
    ensures encodes { IfSome result (λ instr. word_of instr ≡ word) }
    ensures value { result ≡ decode_of word }
{
    let instr = selected(word)?;
    if encode(instr) == word {
        Some(instr)
    } else {
        None
    }
}
