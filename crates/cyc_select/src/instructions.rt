//! Single machine instructions, named by the use that emitted code makes of them.
ghost use Rattle.std.specs.Prelude.{◌≡◌, ◌+◌, ◌*◌, ◌<◌, ◌≤◌};
ghost use Rattle.cyc_isa.specs.Decoding.{register_of, shift_amount_of, trap_code_of};
ghost use Rattle.cyc_select.specs.inside.Instructions.{load, store, copy, slot_offset, store_slot, add_immediate, small, minus, is_zero, syscall};
ghost use Rattle.cyc_select.specs.inside.Instructions.{load_upper, or_lower};
ghost use Rattle.cyc_select.specs.inside.Slots.{load_slot, push_frame, pop_frame};
ghost use Rattle.cyc_select.specs.inside.Operands.{or_immediate};
ghost use Rattle.cyc_select.specs.inside.Emission.{IsReached};

use crate::constants::{FRAME, ZERO};
use crate::operands::value_register;
use cyc_frame::Frame;
use cyc_isa::{
    ArithmeticOp, ExceptionOp, ImmediateOp, Instr, MemoryOp, Register, ShiftAmount, TrapCode,
};
use cyc_plain::MOST_FRAME_WORDS;

/// Returns the register with this number, taken modulo 32.
pub(crate) fn register(number: u8) -> Register
    ensures { result ≡ register_of number }
{
    Register {
        number: number % 32,
    }
}

/// Returns the shift amount `number`, taken modulo 32.
pub(crate) fn shift_amount(number: u8) -> ShiftAmount
    ensures { result ≡ shift_amount_of number }
{
    ShiftAmount { bits: number % 32 }
}

/// Returns the offset of a word from the frame's lowest address, in bytes.
pub(crate) fn offset_of(word: usize) -> u16
    requires { word ≤ 2 * MOST_FRAME_WORDS }
    ensures { result ≡ 4 * word }
{
    (4 * word) as u16
}

/// Returns the 16-bit immediate of the negative of `number`.
pub(crate) fn minus(number: u16) -> u16
    requires { 0 < number }
    ensures { result ≡ minus number }
{
    u16::MAX - number + 1
}

/// Returns the instruction that loads the word at an offset from the frame pointer.
pub(crate) fn load(target: u8, offset: u16) -> Instr
    ensures { result ≡ load target offset }
{
    Instr::Memory {
        op: MemoryOp::LoadWord,
        target: register(target),
        base: register(FRAME),
        offset,
    }
}

/// Returns the instruction that stores a register to the word at an offset from the frame pointer.
pub(crate) fn store(source: u8, offset: u16) -> Instr
    ensures { result ≡ store source offset }
{
    Instr::Memory {
        op: MemoryOp::StoreWord,
        target: register(source),
        base: register(FRAME),
        offset,
    }
}

/// Returns the instruction that copies a register to another one.
pub(crate) fn copy(target: u8, source: u8) -> Instr
    ensures { result ≡ copy target source }
{
    Instr::Arithmetic {
        op: ArithmeticOp::AddUnsigned,
        destination: register(target),
        left: register(source),
        right: register(ZERO),
    }
}

/// Returns the instruction that loads a slot's word from the current frame into a register.
pub(crate) fn load_word(frame: &Frame, target: u8, slot: usize) -> Instr
    requires { IsReached frame.now slot }
    ensures { result ≡ load target (slot_offset frame.now slot) }
{
    load(target, offset_of(frame.first_slot + slot))
}

/// Returns the instruction that loads a slot's word into a register, from the slot's register or from the current frame.
pub(crate) fn load_slot(frame: &Frame, target: u8, slot: usize) -> Instr
    requires { IsReached frame.now slot }
    ensures { result ≡ load_slot frame.now target slot }
{
    match value_register(frame, slot) {
        Some(own) => copy(target, own),
        None => load_word(frame, target, slot),
    }
}

/// Returns the instruction that stores a register to a slot of the current frame.
pub(crate) fn store_slot(frame: &Frame, source: u8, slot: usize) -> Instr
    requires { IsReached frame.now slot }
    ensures { result ≡ store_slot frame.now source slot }
{
    store(source, offset_of(frame.first_slot + slot))
}

/// Returns the instruction that adds an immediate to a register.
pub(crate) fn add_immediate(target: u8, source: u8, half: u16) -> Instr
    ensures { result ≡ add_immediate target source half }
{
    Instr::Immediate {
        op: ImmediateOp::AddUnsigned,
        target: register(target),
        source: register(source),
        immediate: half,
    }
}

/// Returns the instruction that loads a small non-negative number into a register.
pub(crate) fn small(target: u8, number: u16) -> Instr
    ensures { result ≡ small target number }
{
    add_immediate(target, ZERO, number)
}

/// Returns the instruction that loads a zero-extended immediate into a register.
pub(crate) fn or_immediate(target: u8, half: u16) -> Instr
    ensures { result ≡ or_immediate target half }
{
    Instr::Immediate {
        op: ImmediateOp::Or,
        target: register(target),
        source: register(ZERO),
        immediate: half,
    }
}

/// Returns the instruction that sets a register to 1 if its word is 0, otherwise to 0.
pub(crate) fn is_zero(number: u8) -> Instr
    ensures { result ≡ is_zero number }
{
    Instr::Immediate {
        op: ImmediateOp::SetLessUnsigned,
        target: register(number),
        source: register(number),
        immediate: 1,
    }
}

/// Returns the `syscall` instruction.
pub(crate) fn syscall() -> Instr
    ensures { result ≡ syscall }
{
    Instr::Exception {
        op: ExceptionOp::Syscall,
        code: TrapCode { code: 0 },
    }
}

/// Returns the instruction that loads the upper half of a word into a register.
pub(crate) fn load_upper(target: u8, word: u32) -> Instr
    ensures { result ≡ load_upper target word }
{
    Instr::LoadUpper {
        target: register(target),
        immediate: (word / 0x1_0000) as u16,
    }
}

/// Returns the instruction that adds the lower half of a word to a register that holds the upper half.
pub(crate) fn or_lower(target: u8, word: u32) -> Instr
    ensures { result ≡ or_lower target word }
{
    Instr::Immediate {
        op: ImmediateOp::Or,
        target: register(target),
        source: register(target),
        immediate: (word % 0x1_0000) as u16,
    }
}

/// Returns the instruction that moves the frame pointer to the callee's frame, below the current one.
pub(crate) fn push_frame() -> Instr
    ensures { result ≡ push_frame }
{
    add_immediate(FRAME, FRAME, minus(offset_of(MOST_FRAME_WORDS)))
}

/// Returns the instruction that moves the frame pointer back to the caller's frame.
pub(crate) fn pop_frame() -> Instr
    ensures { result ≡ pop_frame }
{
    add_immediate(FRAME, FRAME, offset_of(MOST_FRAME_WORDS))
}
