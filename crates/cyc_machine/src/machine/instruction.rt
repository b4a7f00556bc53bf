//! The effects of instructions on the machine.

ghost use Rattle.std.specs.Prelude.{◌≡◌};
ghost use Rattle.cyc_machine.specs.Held.{state_of};
ghost use Rattle.cyc_machine_model.specs.Step.{ActsOver, action_of, executes};
ghost use Rattle.cyc_machine.specs.Exchanging.{ActsAs};

use super::Machine;
use crate::results::{sign_extend, word_of};
use crate::text::TextWord;
use cyc_isa::{ExceptionOp, Instr, MemoryOp, MultiplyDivideOp, Register};
use cyc_machine_model::{Cause, Event, Exchange};
use cyc_store::Store;
use cyc_words::{add, byte_in, with_byte};

impl<S: Store + Drop> Machine<S> {
    /// Fetches the next instruction and executes it.
    #[inline]
    pub(super) fn run(&mut self) -> Event
        ensures { ActsOver S.GROWS (action_of (state_of S.held self.old)) (state_of S.held self.old) result (state_of S.held self.new) }
    {
        let counter = self.core.counter();
        if counter % 4 != 0 {
            return self.refuse(Cause::Misaligned);
        }
        match self.memory.fetch(counter) {
            TextWord::Code(instr) => self.execute(instr),
            TextWord::Reserved(_) => self.refuse(Cause::ReservedInstruction),
            TextWord::Hole => self.refuse(Cause::NoSuchAddress),
        }
    }

    /// Executes an instruction.
    #[inline]
    fn execute(&mut self, instr: Instr) -> Event
        ensures { ActsOver S.GROWS (executes (state_of S.held self.old) instr) (state_of S.held self.old) result (state_of S.held self.new) }
    {
        match instr {
            Instr::Immediate {
                op,
                target,
                source,
                immediate,
            } => self.core.immediate(op, target, source, immediate),
            Instr::LoadUpper { target, immediate } => self.core.load_upper(target, immediate),
            Instr::Shift {
                op,
                destination,
                source,
                amount,
            } => self.core.shift(op, destination, source, amount),
            Instr::ShiftVariable {
                op,
                destination,
                source,
                by,
            } => self.core.shift_by(op, destination, source, by),
            Instr::MoveFrom { op, destination } => self.core.move_from(op, destination),
            Instr::Arithmetic {
                op,
                destination,
                left,
                right,
            } => self.core.arithmetic(op, destination, left, right),
            Instr::Memory {
                op: MemoryOp::LoadWord,
                target,
                base,
                offset,
            } => {
                self.keep(base, offset);
                return self.load_word(target, base, offset);
            }
            Instr::Memory {
                op: MemoryOp::StoreWord,
                target,
                base,
                offset,
            } => {
                return self.store_word(target, base, offset);
            }
            Instr::Memory {
                op: MemoryOp::LoadByte,
                target,
                base,
                offset,
            } => {
                self.keep(base, offset);
                return self.load_byte(target, base, offset);
            }
            Instr::Memory {
                op: MemoryOp::StoreByte,
                target,
                base,
                offset,
            } => {
                return self.store_byte(target, base, offset);
            }
            Instr::MultiplyDivide {
                op: MultiplyDivideOp::Multiply,
                left,
                right,
            } => self.core.multiply(left, right),
            Instr::MultiplyDivide {
                op: MultiplyDivideOp::Divide,
                left,
                right,
            } => {
                return self.divide(left, right);
            }
            Instr::Exception {
                op: ExceptionOp::Syscall,
                ..
            } => {
                return self.service();
            }
            Instr::Exception {
                op: ExceptionOp::Break,
                ..
            } => {
                return self.refuse(Cause::Break);
            }
            Instr::Branch {
                op,
                left,
                right,
                offset,
            } => {
                if self.core.in_slot() {
                    return self.refuse(Cause::Unpredictable);
                }
                self.core.branch(op, left, right, offset);
            }
            Instr::BranchZero { op, source, offset } => {
                if self.core.in_slot() {
                    return self.refuse(Cause::Unpredictable);
                }
                self.core.branch_by_sign(op, source, offset);
            }
            Instr::Jump { op, index } => {
                if self.core.in_slot() {
                    return self.refuse(Cause::Unpredictable);
                }
                self.core.jump_to(op, index);
            }
            Instr::JumpRegister { source } => {
                if self.core.in_slot() {
                    return self.refuse(Cause::Unpredictable);
                }
                self.core.jump_register(source);
            }
            Instr::JumpRegisterLink {
                destination,
                source,
            } => {
                if self.core.in_slot() || destination.number == source.number {
                    return self.refuse(Cause::Unpredictable);
                }
                self.core.jump_register_link(destination, source);
            }
        }
        Event::Ran
    }

    /// Extends the stored memory up to the word that a load accesses, if it is a word of the data range or the stack. The fast loop
    /// leaves to `step` only the first load of each such word, because the word is stored from then on.
    fn keep(&mut self, base: Register, offset: u16)
        ensures { self.new ≡ self.old }
    {
        let address = add(self.core.get(base), sign_extend(offset));
        self.memory.keep(address);
    }

    /// Loads a word.
    #[inline]
    fn load_word(&mut self, target: Register, base: Register, offset: u16) -> Event
        ensures { ActsOver S.GROWS (executes (state_of S.held self.old) (Instr.Memory MemoryOp.LoadWord target base offset))
            (state_of S.held self.old) result (state_of S.held self.new) }
    {
        let address = add(self.core.get(base), sign_extend(offset));
        if address % 4 != 0 {
            return self.refuse(Cause::Misaligned);
        }
        match self.memory.load(self.pages, &self.store, address) {
            Ok(word) => {
                self.core.set(target, word);
                self.core.advance();
                Event::Ran
            }
            Err(cause) => self.refuse(cause),
        }
    }

    /// Stores a word.
    #[inline]
    fn store_word(&mut self, source: Register, base: Register, offset: u16) -> Event
        ensures { ActsOver S.GROWS (executes (state_of S.held self.old) (Instr.Memory MemoryOp.StoreWord source base offset))
            (state_of S.held self.old) result (state_of S.held self.new) }
    {
        let address = add(self.core.get(base), sign_extend(offset));
        if address % 4 != 0 {
            return self.refuse(Cause::Misaligned);
        }
        let word = self.core.get(source);
        match self
            .memory
            .store(self.pages, &mut self.store, address, word)
        {
            Ok(()) => {
                self.core.advance();
                Event::Ran
            }
            Err(cause) => self.refuse(cause),
        }
    }

    /// Loads a byte.
    #[inline]
    fn load_byte(&mut self, target: Register, base: Register, offset: u16) -> Event
        ensures { ActsOver S.GROWS (executes (state_of S.held self.old) (Instr.Memory MemoryOp.LoadByte target base offset))
            (state_of S.held self.old) result (state_of S.held self.new) }
    {
        let address = add(self.core.get(base), sign_extend(offset));
        match self.memory.load(self.pages, &self.store, word_of(address)) {
            Ok(word) => {
                self.core.set(target, u32::from(byte_in(word, address % 4)));
                self.core.advance();
                Event::Ran
            }
            Err(cause) => self.refuse(cause),
        }
    }

    /// Stores a byte and leaves the other bytes of the byte's word unchanged.
    #[inline]
    fn store_byte(&mut self, source: Register, base: Register, offset: u16) -> Event
        ensures { ActsOver S.GROWS (executes (state_of S.held self.old) (Instr.Memory MemoryOp.StoreByte source base offset))
            (state_of S.held self.old) result (state_of S.held self.new) }
    {
        let address = add(self.core.get(base), sign_extend(offset));
        let place = word_of(address);
        let byte = (self.core.get(source) % 256) as u8;
        let old = match self.memory.load(self.pages, &self.store, place) {
            Ok(word) => word,
            Err(cause) => return self.refuse(cause),
        };
        let word = with_byte(old, address % 4, byte);
        match self.memory.store(self.pages, &mut self.store, place, word) {
            Ok(()) => {
                self.core.advance();
                Event::Ran
            }
            Err(cause) => self.refuse(cause),
        }
    }

    /// Divides two registers, unless the result is unpredictable.
    #[inline]
    fn divide(&mut self, left: Register, right: Register) -> Event
        ensures { ActsOver S.GROWS (executes (state_of S.held self.old) (Instr.MultiplyDivide MultiplyDivideOp.Divide left right))
            (state_of S.held self.old) result (state_of S.held self.new) }
    {
        let divisor = self.core.get(right);
        if divisor == 0 || self.core.get(left) == 0x8000_0000 && divisor == u32::MAX {
            return self.refuse(Cause::Unpredictable);
        }
        self.core.divide(left, right);
        Event::Ran
    }

    /// Fetches the next instruction, and executes it if it prints or requests a byte.
    #[inline(always)]
    pub(super) fn exchange_next(&mut self) -> Exchange
        ensures { ActsAs result (action_of (state_of S.held self.old)) (state_of S.held self.old) (state_of S.held self.new) }
    {
        let counter = self.core.counter();
        if counter % 4 != 0 {
            return Exchange::Nothing;
        }
        match self.memory.fetch(counter) {
            TextWord::Code(instr) => self.exchange_by(instr),
            TextWord::Reserved(_) | TextWord::Hole => Exchange::Nothing,
        }
    }

    /// Executes an instruction that prints or requests a byte.
    #[inline(always)]
    fn exchange_by(&mut self, instr: Instr) -> Exchange
        ensures { ActsAs result (executes (state_of S.held self.old) instr) (state_of S.held self.old) (state_of S.held self.new) }
    {
        match instr {
            Instr::Exception {
                op: ExceptionOp::Syscall,
                ..
            } => self.byte_service(),
            _ => Exchange::Nothing,
        }
    }
}
