//! Writes the text of an instruction.

ghost use Rattle.std.specs.Prelude.{◌≡◌, ◌<◌, [], ◌∷◌, ◌++◌, true, codes, is_err, IsTrue, IsErr, OnOk, OnErr};
ghost use Rattle.cyc_words.specs.Word.{sign_extended};
ghost use Rattle.cyc_words.specs.Device.{TakesText};
ghost use Rattle.cyc_isa.specs.Effect.{branch_target, jump_target};
ghost use Rattle.cyc_isa.specs.Text.{hex_digit_of, hex_digits_of, address_text, based_text, immediate_text, text_of, line};
ghost use Rattle.cyc_isa.specs.inside.Operand.{operand_text};

use crate::instr::{ImmediateOp, Instr};
use crate::operand::{JumpIndex, Register};
use crate::table;
use cyc_words::{ByteOut, Failed, add, shl};
use itoa::Buffer;

/// An operand of an instruction, for printing.
#[derive(Clone, Copy)]
enum Operand {
    General(Register),
    Unsigned(u32),
    Signed(u16),
    Based { offset: u16, base: Register },
    Address(u32),
}

fn sign_extend(half: u16) -> u32
    ensures { result ≡ sign_extended half }
{
    let word = u32::from(half);
    if half < 0x8000 {
        word
    } else {
        word + 0xffff_0000
    }
}

fn immediate_operand(op: ImmediateOp, immediate: u16) -> Operand
    ensures { operand_text result ≡ immediate_text op immediate }
{
    match op {
        ImmediateOp::AddUnsigned | ImmediateOp::SetLess | ImmediateOp::SetLessUnsigned =>
            Operand::Signed(immediate),
        ImmediateOp::And | ImmediateOp::Or | ImmediateOp::Xor => Operand::Unsigned(u32::from(
            immediate,
        )),
    }
}

fn branch_operand(addr: u32, offset: u16) -> Operand
    ensures { operand_text result ≡ address_text (branch_target addr offset) }
{
    Operand::Address(add(add(addr, 4), shl(sign_extend(offset), 2)))
}

fn jump_operand(addr: u32, index: JumpIndex) -> Operand
    ensures { operand_text result ≡ address_text (jump_target addr index.index) }
{
    Operand::Address((add(addr, 4) >> 28 << 28) + (index.index << 2))
}

fn hex_digit(digit: u32) -> u8
    requires { digit < 16 }
    ensures { result ≡ hex_digit_of digit }
{
    let digit = digit as u8;
    if digit < 10 {
        b'0' + digit
    } else {
        b'a' + (digit - 10)
    }
}

fn hex_digits(word: u32) -> [u8; 8]
    ensures { result ≡ hex_digits_of word }
{
    [
        hex_digit(word >> 28),
        hex_digit((word >> 24) % 16),
        hex_digit((word >> 20) % 16),
        hex_digit((word >> 16) % 16),
        hex_digit((word >> 12) % 16),
        hex_digit((word >> 8) % 16),
        hex_digit((word >> 4) % 16),
        hex_digit(word % 16),
    ]
}

// Each `put_` function below writes a text in order, up to the first failure. If the writing succeeds, an output
// device that had not failed before has not failed afterwards either.

fn put_two<W: ByteOut>(first: &[u8], second: &[u8], out: &mut W) -> Result<(), Failed>
    ensures bytes { TakesText (W.written out.old) (first.now ++ second.now) result (W.written out.new) }
    ensures works { OnOk result (W.failed out.new ≡ W.failed out.old) }
    ensures fails { OnErr result (W.failed out.new ≡ true) }
{
    out.put_all(first)?;
    out.put_all(second)
}

fn put_based<W: ByteOut>(offset: u16, base: Register, out: &mut W) -> Result<(), Failed>
    ensures bytes { TakesText (W.written out.old) (based_text offset base) result (W.written out.new) }
    ensures works { OnOk result (W.failed out.new ≡ W.failed out.old) }
    ensures fails { OnErr result (W.failed out.new ≡ true) }
{
    put_two(
        Buffer::new().format(offset.cast_signed()).as_bytes(),
        b"($",
        out,
    )?;
    put_two(Buffer::new().format(base.number).as_bytes(), b")", out)
}

fn put_operand<W: ByteOut>(operand: Operand, out: &mut W) -> Result<(), Failed>
    ensures bytes { TakesText (W.written out.old) (operand_text operand) result (W.written out.new) }
    ensures works { OnOk result (W.failed out.new ≡ W.failed out.old) }
    ensures fails { OnErr result (W.failed out.new ≡ true) }
{
    let mut buffer = Buffer::new();
    match operand {
        Operand::General(register) => put_two(b"$", buffer.format(register.number).as_bytes(), out),
        Operand::Unsigned(number) => out.put_all(buffer.format(number).as_bytes()),
        Operand::Signed(half) => out.put_all(buffer.format(half.cast_signed()).as_bytes()),
        Operand::Based { offset, base } => put_based(offset, base, out),
        Operand::Address(addr) => put_two(b"0x", &hex_digits(addr), out),
    }
}

/// Writes an instruction's name and the space after it.
fn put_name<W: ByteOut>(name: &str, out: &mut W) -> Result<(), Failed>
    ensures bytes { TakesText (W.written out.old) (name.now ++ codes " ") result (W.written out.new) }
    ensures fails { W.failed out.new ≡ is_err result }
    ensures stays { IsTrue (W.failed out.old) → IsErr result }
{
    out.put_all(name.as_bytes())?;
    out.put(b' ')
}

fn put_one<W: ByteOut>(name: &str, operand: Operand, out: &mut W) -> Result<(), Failed>
    ensures bytes { TakesText (W.written out.old) (line name.now (operand_text operand ∷ [])) result (W.written out.new) }
    ensures fails { W.failed out.new ≡ is_err result }
    ensures stays { IsTrue (W.failed out.old) → IsErr result }
{
    put_name(name, out)?;
    put_operand(operand, out)
}

/// Writes an operand after the first one, with the comma before it.
fn put_further<W: ByteOut>(operand: Operand, out: &mut W) -> Result<(), Failed>
    ensures bytes { TakesText (W.written out.old) (codes ", " ++ operand_text operand) result (W.written out.new) }
    ensures works { OnOk result (W.failed out.new ≡ W.failed out.old) }
    ensures fails { OnErr result (W.failed out.new ≡ true) }
{
    out.put_all(b", ")?;
    put_operand(operand, out)
}

fn put_pair<W: ByteOut>(
    name: &str,
    first: Operand,
    second: Operand,
    out: &mut W,
) -> Result<(), Failed>
    ensures bytes { TakesText (W.written out.old) (line name.now (operand_text first ∷ operand_text second ∷ [])) result
        (W.written out.new) }
    ensures fails { W.failed out.new ≡ is_err result }
    ensures stays { IsTrue (W.failed out.old) → IsErr result }
{
    put_one(name, first, out)?;
    put_further(second, out)
}

fn put_triple<W: ByteOut>(
    name: &str,
    first: Operand,
    second: Operand,
    third: Operand,
    out: &mut W,
) -> Result<(), Failed>
    ensures bytes { TakesText (W.written out.old)
        (line name.now (operand_text first ∷ operand_text second ∷ operand_text third ∷ [])) result
        (W.written out.new) }
    ensures fails { W.failed out.new ≡ is_err result }
    ensures stays { IsTrue (W.failed out.old) → IsErr result }
{
    put_pair(name, first, second, out)?;
    put_further(third, out)
}

/// Writes the text of an instruction at the given address.
///
/// The text of a branch or a jump contains its target, which depends on the instruction's address. After a failed write, the bytes
/// before the failure stay written.
pub fn write_text<W: ByteOut>(instr: Instr, addr: u32, out: &mut W) -> Result<(), Failed>
    ensures bytes { TakesText (W.written out.old) (text_of instr addr) result (W.written out.new) }
    ensures fails { W.failed out.new ≡ is_err result }
    ensures stays { IsTrue (W.failed out.old) → IsErr result }
{
    match instr {
        Instr::Immediate {
            op,
            target,
            source,
            immediate,
        } => put_triple(
            table::immediate(op).name,
            Operand::General(target),
            Operand::General(source),
            immediate_operand(op, immediate),
            out,
        ),
        Instr::LoadUpper { target, immediate } => {
            put_pair(
                "lui",
                Operand::General(target),
                Operand::Unsigned(u32::from(immediate)),
                out,
            )
        }
        Instr::Memory {
            op,
            target,
            base,
            offset,
        } => {
            put_pair(
                table::memory(op).name,
                Operand::General(target),
                Operand::Based { offset, base },
                out,
            )
        }
        Instr::Branch {
            op,
            left,
            right,
            offset,
        } => put_triple(
            table::branch(op).name,
            Operand::General(left),
            Operand::General(right),
            branch_operand(addr, offset),
            out,
        ),
        Instr::BranchZero { op, source, offset } => put_pair(
            table::branch_zero(op).name,
            Operand::General(source),
            branch_operand(addr, offset),
            out,
        ),
        Instr::Jump { op, index } => {
            put_one(table::jump(op).name, jump_operand(addr, index), out)
        }
        Instr::Shift {
            op,
            destination,
            source,
            amount,
        } => put_triple(
            table::shift(op).name,
            Operand::General(destination),
            Operand::General(source),
            Operand::Unsigned(u32::from(amount.bits)),
            out,
        ),
        Instr::ShiftVariable {
            op,
            destination,
            source,
            by,
        } => put_triple(
            table::shift_variable(op).name,
            Operand::General(destination),
            Operand::General(source),
            Operand::General(by),
            out,
        ),
        Instr::JumpRegister { source } => put_one("jr", Operand::General(source), out),
        Instr::JumpRegisterLink {
            destination,
            source,
        } => {
            put_pair(
                "jalr",
                Operand::General(destination),
                Operand::General(source),
                out,
            )
        }
        Instr::Exception { op, code } => put_one(
            table::exception(op).name,
            Operand::Unsigned(code.code),
            out,
        ),
        Instr::MoveFrom { op, destination } => {
            put_one(
                table::move_from(op).name,
                Operand::General(destination),
                out,
            )
        }
        Instr::MultiplyDivide { op, left, right } => {
            put_pair(
                table::multiply_divide(op).name,
                Operand::General(left),
                Operand::General(right),
                out,
            )
        }
        Instr::Arithmetic {
            op,
            destination,
            left,
            right,
        } => put_triple(
            table::arithmetic(op).name,
            Operand::General(destination),
            Operand::General(left),
            Operand::General(right),
            out,
        ),
    }
}
