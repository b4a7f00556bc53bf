//! Encodes instructions as machine words.

ghost use Rattle.std.specs.Prelude.{◌≡◌, ◌+◌, ◌*◌, ◌^◌, ◌<◌, Some};
ghost use Rattle.cyc_isa.specs.Encoding.{row_of, word_of, IsInstance};
ghost use Rattle.cyc_isa.specs.Decoding.{decode_of};

use crate::instr::Instr;
use crate::table;

/// Returns the word of an instruction in a format with a 16-bit immediate or offset.
fn half_word(opcode: u32, rs: u8, rt: u8, half: u16) -> u32
    requires { (opcode < 64) × (rs < 32) × (rt < 32) }
    ensures { result ≡ opcode * 2 ^ 26 + rs * 2 ^ 21 + rt * 2 ^ 16 + half }
{
    (opcode << 26) + (u32::from(rs) << 21) + (u32::from(rt) << 16) + u32::from(half)
}

/// Returns the word of an instruction in a format with a function field, under opcode 0.
fn function_word(rs: u8, rt: u8, rd: u8, sa: u8, function: u32) -> u32
    requires { (rs < 32) × (rt < 32) × (rd < 32) × (sa < 32) × (function < 64) }
    ensures { result ≡ rs * 2 ^ 21 + rt * 2 ^ 16 + rd * 2 ^ 11 + sa * 2 ^ 6 + function }
{
    (u32::from(rs) << 21)
        + (u32::from(rt) << 16)
        + (u32::from(rd) << 11)
        + (u32::from(sa) << 6)
        + function
}

fn word(instr: Instr) -> u32
    ensures { result ≡ word_of instr }
{
    match instr {
        Instr::Immediate {
            op,
            target,
            source,
            immediate,
        } => {
            half_word(
                table::immediate(op).number,
                source.number,
                target.number,
                immediate,
            )
        }
        Instr::LoadUpper { target, immediate } => half_word(0x0f, 0, target.number, immediate),
        Instr::Memory {
            op,
            target,
            base,
            offset,
        } => { half_word(table::memory(op).number, base.number, target.number, offset) }
        Instr::Branch {
            op,
            left,
            right,
            offset,
        } => { half_word(table::branch(op).number, left.number, right.number, offset) }
        Instr::BranchZero { op, source, offset } => {
            half_word(
                table::branch_zero(op).number,
                source.number,
                table::branch_zero_rt(op),
                offset,
            )
        }
        Instr::Jump { op, index } => (table::jump(op).number << 26) + index.index,
        Instr::Shift {
            op,
            destination,
            source,
            amount,
        } => {
            function_word(
                0,
                source.number,
                destination.number,
                amount.bits,
                table::shift(op).number,
            )
        }
        Instr::ShiftVariable {
            op,
            destination,
            source,
            by,
        } => {
            function_word(
                by.number,
                source.number,
                destination.number,
                0,
                table::shift_variable(op).number,
            )
        }
        Instr::JumpRegister { source } => function_word(source.number, 0, 0, 0, 0x08),
        Instr::JumpRegisterLink {
            destination,
            source,
        } => { function_word(source.number, 0, destination.number, 0, 0x09) }
        Instr::Exception { op, code } => (code.code << 6) + table::exception(op).number,
        Instr::MoveFrom { op, destination } => {
            function_word(0, 0, destination.number, 0, table::move_from(op).number)
        }
        Instr::MultiplyDivide { op, left, right } => {
            function_word(
                left.number,
                right.number,
                0,
                0,
                table::multiply_divide(op).number,
            )
        }
        Instr::Arithmetic {
            op,
            destination,
            left,
            right,
        } => {
            function_word(
                left.number,
                right.number,
                destination.number,
                0,
                table::arithmetic(op).number,
            )
        }
    }
}

/// Returns the word that encodes an instruction; `decode` maps the word back to the instruction.
pub fn encode(instr: Instr) -> u32
    ensures word { result ≡ word_of instr }
    ensures instance { IsInstance (row_of instr) result }
    ensures decodes { decode_of result ≡ Some instr }
{
    word(instr)
}
