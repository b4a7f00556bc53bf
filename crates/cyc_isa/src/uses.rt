//! Computes the general registers that an instruction reads and writes.

ghost use Rattle.std.specs.Prelude.{◌≡◌, ◌<◌};
ghost use Rattle.cyc_isa.specs.Uses.{reads, names_result, writes};

use crate::instr::{ExceptionOp, Instr, JumpOp, MemoryOp};

/// The register in which `jal` stores its return address.
const RETURN_ADDRESS: u8 = 31;

/// Returns true if an instruction reads the general register with the given number, that is, if the register is a source.
///
/// `syscall` reads registers 2, 4 and 5. HI, LO, memory and the program counter do not count as registers.
pub fn reads(instr: Instr, register: u8) -> bool
    requires { register < 32 }
    ensures { result ≡ reads instr register }
{
    match instr {
        Instr::Immediate { source, .. } => source.number == register,
        Instr::LoadUpper { .. } => false,
        Instr::Memory {
            op,
            target,
            base,
            ..
        } => match op {
            MemoryOp::LoadWord | MemoryOp::LoadByte => base.number == register,
            MemoryOp::StoreWord | MemoryOp::StoreByte => {
                target.number == register || base.number == register
            }
        },
        Instr::Branch { left, right, .. } => left.number == register || right.number == register,
        Instr::BranchZero { source, .. } => source.number == register,
        Instr::Jump { .. } => false,
        Instr::Shift { source, .. } => source.number == register,
        Instr::ShiftVariable { source, by, .. } => {
            source.number == register || by.number == register
        }
        Instr::JumpRegister { source } => source.number == register,
        Instr::JumpRegisterLink { source, .. } => source.number == register,
        Instr::Exception { op, .. } => match op {
            ExceptionOp::Syscall => register == 2 || register == 4 || register == 5,
            ExceptionOp::Break => false,
        },
        Instr::MoveFrom { .. } => false,
        Instr::MultiplyDivide { left, right, .. } => {
            left.number == register || right.number == register
        }
        Instr::Arithmetic { left, right, .. } => {
            left.number == register || right.number == register
        }
    }
}

/// Returns true if the register with the given number is the destination of an instruction's result.
fn names_result(instr: Instr, register: u8) -> bool
    ensures { result ≡ names_result instr register }
{
    match instr {
        Instr::Immediate { target, .. } => target.number == register,
        Instr::LoadUpper { target, .. } => target.number == register,
        Instr::Memory { op, target, .. } => match op {
            MemoryOp::LoadWord | MemoryOp::LoadByte => target.number == register,
            MemoryOp::StoreWord | MemoryOp::StoreByte => false,
        },
        Instr::Branch { .. } | Instr::BranchZero { .. } => false,
        Instr::Jump { op, .. } => match op {
            JumpOp::Plain => false,
            JumpOp::AndLink => register == RETURN_ADDRESS,
        },
        Instr::Shift { destination, .. } => destination.number == register,
        Instr::ShiftVariable { destination, .. } => destination.number == register,
        Instr::JumpRegister { .. } => false,
        Instr::JumpRegisterLink { destination, .. } => destination.number == register,
        Instr::Exception { op, .. } => match op {
            ExceptionOp::Syscall => register == 2 || register == 3,
            ExceptionOp::Break => false,
        },
        Instr::MoveFrom { destination, .. } => destination.number == register,
        Instr::MultiplyDivide { .. } => false,
        Instr::Arithmetic { destination, .. } => destination.number == register,
    }
}

/// Returns true if an instruction writes the general register with the given number.
///
/// Register 0 is never written, `jal` writes register 31, and `syscall` writes registers 2 and 3.
pub fn writes(instr: Instr, register: u8) -> bool
    requires { register < 32 }
    ensures { result ≡ writes instr register }
{
    register != 0 && names_result(instr, register)
}
