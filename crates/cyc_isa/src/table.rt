//! The table of instructions: the name of each operation, and its number among the operations of its format.

ghost use Rattle.std.specs.Prelude.{◌≡◌, ◌<◌};
ghost use Rattle.cyc_isa.specs.Table.{immediate, memory, branch, branch_zero, jump, shift, shift_variable, exception, move_from, multiply_divide, arithmetic};

use crate::instr::{
    ArithmeticOp, BranchOp, BranchZeroOp, ExceptionOp, ImmediateOp, JumpOp, MemoryOp, MoveFromOp,
    MultiplyDivideOp, ShiftOp,
};

/// The name of an operation, and its number in the field that distinguishes the operations of its format.
#[derive(Clone, Copy)]
pub struct Code {
    pub name: &'static str,
    pub number: u32,
}

impl Code {
    fn new(name: &'static str, number: u32) -> Code
        ensures name { result.name.now ≡ name.now }
        ensures number { result.number ≡ number }
    {
        Code { name, number }
    }
}

/// Returns the name of an operation with an immediate operand, and its primary opcode.
pub fn immediate(op: ImmediateOp) -> Code
    ensures name { result.name.now ≡ (immediate op).name }
    ensures number { result.number ≡ (immediate op).number }
    ensures small { result.number < 64 }
{
    match op {
        ImmediateOp::AddUnsigned => Code::new("addiu", 0x09),
        ImmediateOp::SetLess => Code::new("slti", 0x0a),
        ImmediateOp::SetLessUnsigned => Code::new("sltiu", 0x0b),
        ImmediateOp::And => Code::new("andi", 0x0c),
        ImmediateOp::Or => Code::new("ori", 0x0d),
        ImmediateOp::Xor => Code::new("xori", 0x0e),
    }
}

/// Returns the name of a load or store, and its primary opcode.
pub fn memory(op: MemoryOp) -> Code
    ensures name { result.name.now ≡ (memory op).name }
    ensures number { result.number ≡ (memory op).number }
    ensures small { result.number < 64 }
{
    match op {
        MemoryOp::LoadWord => Code::new("lw", 0x23),
        MemoryOp::StoreWord => Code::new("sw", 0x2b),
        MemoryOp::LoadByte => Code::new("lbu", 0x24),
        MemoryOp::StoreByte => Code::new("sb", 0x28),
    }
}

/// Returns the name of a branch that compares two registers, and its primary opcode.
pub fn branch(op: BranchOp) -> Code
    ensures name { result.name.now ≡ (branch op).name }
    ensures number { result.number ≡ (branch op).number }
    ensures small { result.number < 64 }
{
    match op {
        BranchOp::Equal => Code::new("beq", 0x04),
        BranchOp::NotEqual => Code::new("bne", 0x05),
    }
}

/// Returns the name of a branch that compares a register with zero, and its primary opcode. Two of the branches that compare a
/// register with zero share one opcode.
pub fn branch_zero(op: BranchZeroOp) -> Code
    ensures name { result.name.now ≡ (branch_zero op).0.name }
    ensures number { result.number ≡ (branch_zero op).0.number }
    ensures small { result.number < 64 }
{
    match op {
        BranchZeroOp::LessOrEqual => Code::new("blez", 0x06),
        BranchZeroOp::Greater => Code::new("bgtz", 0x07),
        BranchZeroOp::Less => Code::new("bltz", 0x01),
        BranchZeroOp::GreaterOrEqual => Code::new("bgez", 0x01),
    }
}

/// Returns the name of a jump, and its primary opcode.
pub fn jump(op: JumpOp) -> Code
    ensures name { result.name.now ≡ (jump op).name }
    ensures number { result.number ≡ (jump op).number }
    ensures small { result.number < 64 }
{
    match op {
        JumpOp::Plain => Code::new("j", 0x02),
        JumpOp::AndLink => Code::new("jal", 0x03),
    }
}

/// Returns the name of a shift by a constant, and its function field.
pub fn shift(op: ShiftOp) -> Code
    ensures name { result.name.now ≡ (shift op).name }
    ensures number { result.number ≡ (shift op).number }
    ensures small { result.number < 64 }
{
    match op {
        ShiftOp::Left => Code::new("sll", 0x00),
        ShiftOp::RightLogical => Code::new("srl", 0x02),
        ShiftOp::RightArithmetic => Code::new("sra", 0x03),
    }
}

/// Returns the name of a shift by a register, and its function field.
pub fn shift_variable(op: ShiftOp) -> Code
    ensures name { result.name.now ≡ (shift_variable op).name }
    ensures number { result.number ≡ (shift_variable op).number }
    ensures small { result.number < 64 }
{
    match op {
        ShiftOp::Left => Code::new("sllv", 0x04),
        ShiftOp::RightLogical => Code::new("srlv", 0x06),
        ShiftOp::RightArithmetic => Code::new("srav", 0x07),
    }
}

/// Returns the name of an instruction that raises an exception, and its function field.
pub fn exception(op: ExceptionOp) -> Code
    ensures name { result.name.now ≡ (exception op).name }
    ensures number { result.number ≡ (exception op).number }
    ensures small { result.number < 64 }
{
    match op {
        ExceptionOp::Syscall => Code::new("syscall", 0x0c),
        ExceptionOp::Break => Code::new("break", 0x0d),
    }
}

/// Returns the name of a move from `hi` or `lo`, and its function field.
pub fn move_from(op: MoveFromOp) -> Code
    ensures name { result.name.now ≡ (move_from op).name }
    ensures number { result.number ≡ (move_from op).number }
    ensures small { result.number < 64 }
{
    match op {
        MoveFromOp::High => Code::new("mfhi", 0x10),
        MoveFromOp::Low => Code::new("mflo", 0x12),
    }
}

/// Returns the name of a multiplication or division, and its function field.
pub fn multiply_divide(op: MultiplyDivideOp) -> Code
    ensures name { result.name.now ≡ (multiply_divide op).name }
    ensures number { result.number ≡ (multiply_divide op).number }
    ensures small { result.number < 64 }
{
    match op {
        MultiplyDivideOp::Multiply => Code::new("mult", 0x18),
        MultiplyDivideOp::Divide => Code::new("div", 0x1a),
    }
}

/// Returns the name of an operation of three registers, and its function field.
pub fn arithmetic(op: ArithmeticOp) -> Code
    ensures name { result.name.now ≡ (arithmetic op).name }
    ensures number { result.number ≡ (arithmetic op).number }
    ensures small { result.number < 64 }
{
    match op {
        ArithmeticOp::AddUnsigned => Code::new("addu", 0x21),
        ArithmeticOp::SubtractUnsigned => Code::new("subu", 0x23),
        ArithmeticOp::And => Code::new("and", 0x24),
        ArithmeticOp::Or => Code::new("or", 0x25),
        ArithmeticOp::Xor => Code::new("xor", 0x26),
        ArithmeticOp::Nor => Code::new("nor", 0x27),
        ArithmeticOp::SetLess => Code::new("slt", 0x2a),
        ArithmeticOp::SetLessUnsigned => Code::new("sltu", 0x2b),
    }
}

/// Returns the number in the field `rt` of a branch that tests the sign of a register. The number distinguishes
/// such branches that have the same opcode.
pub fn branch_zero_rt(op: BranchZeroOp) -> u8
    ensures number { result ≡ (branch_zero op).1 }
    ensures small { result < 32 }
{
    match op {
        BranchZeroOp::LessOrEqual | BranchZeroOp::Greater | BranchZeroOp::Less => 0,
        BranchZeroOp::GreaterOrEqual => 1,
    }
}
