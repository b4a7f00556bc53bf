//! The effects of the system calls that a `syscall` instruction requests.

ghost use Rattle.std.specs.Prelude.{◌≡◌};
ghost use Rattle.cyc_machine.specs.Held.{state_of};
ghost use Rattle.cyc_machine_model.specs.Step.{Calls, Asks, ActsOver, GoesOnWith, calls, asked, answered};
ghost use Rattle.cyc_machine.specs.Exchanging.{ActsAs};
ghost use Rattle.cyc_store.specs.Answers.{refused};
ghost use Rattle.cyc_store.specs.Services.{OpenLexical, CloseTo, OpenDynamic, CloseDynamic, Allocate, Free, Done, Allocated};

use super::Machine;
use cyc_isa::Register;
use cyc_machine_model::constants::{
    ALLOCATE, ARGUMENT, CLOSE_DYNAMIC, CLOSE_LEXICAL, END_FULL, END_RETURNED, END_UNCAUGHT, FREE,
    GET_BYTE, OPEN_DYNAMIC, OPEN_LEXICAL, PUT_BYTE, SECOND_ANSWER, SECOND_ARGUMENT, SERVICE,
};
use cyc_machine_model::{Cause, End, Event, Exchange, Phase};
use cyc_store::{No, Store};

impl<S: Store + Drop> Machine<S> {
    /// Executes the system call that a `syscall` instruction requests.
    pub(super) fn service(&mut self) -> Event
        ensures { ActsOver S.GROWS (calls (asked self.old.core) (state_of S.held self.old)) (state_of S.held self.old) result (state_of S.held self.new) }
    {
        let argument = self.core.get(Register { number: ARGUMENT });
        let second = self.core.get(Register {
            number: SECOND_ARGUMENT,
        });
        match self.core.get(Register { number: SERVICE }) {
            GET_BYTE => {
                self.phase = Phase::Waiting;
                Event::WantsByte
            }
            PUT_BYTE => {
                self.core.advance();
                Event::Puts((argument % 256) as u8)
            }
            END_RETURNED => self.end(End::Returned(argument.cast_signed())),
            END_UNCAUGHT => self.end(End::Uncaught(argument, second.cast_signed())),
            OPEN_LEXICAL => self.open_lexical(),
            CLOSE_LEXICAL => self.close_lexical(argument),
            OPEN_DYNAMIC => self.open_dynamic(),
            CLOSE_DYNAMIC => self.close_dynamic(argument),
            ALLOCATE => self.allocate(argument, second),
            FREE => self.free(argument),
            END_FULL => self.end(End::Full),
            _ => self.refuse(Cause::BadService),
        }
    }

    /// Executes the system call that a `syscall` instruction requests, if this call prints or requests a byte.
    #[inline(always)]
    pub(super) fn byte_service(&mut self) -> Exchange
        ensures { ActsAs result (calls (asked self.old.core) (state_of S.held self.old)) (state_of S.held self.old) (state_of S.held self.new) }
    {
        match self.core.get(Register { number: SERVICE }) {
            GET_BYTE => {
                self.phase = Phase::Waiting;
                Exchange::Wants
            }
            PUT_BYTE => {
                let byte = (self.core.get(Register { number: ARGUMENT }) % 256) as u8;
                self.core.advance();
                Exchange::Puts(byte)
            }
            _ => Exchange::Nothing,
        }
    }

    /// Advances to the next instruction.
    fn go_on(&mut self) -> Event
        ensures event { result ≡ Event.Ran }
        ensures state { state_of S.held self.new ≡ answered (state_of S.held self.old) Done }
    {
        self.core.advance();
        Event::Ran
    }

    /// Writes to the result register the word that the heap returned, and advances to the next instruction.
    fn give_word(&mut self, word: u32) -> Event
        ensures event { result ≡ Event.Ran }
        ensures state { state_of S.held self.new ≡ answered (state_of S.held self.old) (Allocated word) }
    {
        self.core.set(Register { number: SERVICE }, word);
        self.go_on()
    }

    /// Continues or ends the run after the heap refused to open a region or to allocate a block, depending on the reason.
    fn refuse_service(&mut self, why: No) -> Event
        ensures { GoesOnWith (refused why) (state_of S.held self.old) result (state_of S.held self.new) }
    {
        match why {
            No::Full => self.end(End::Full),
            No::BadHandle | No::BadSize => self.refuse(Cause::BadService),
            No::Memory => Event::NoMemory,
        }
    }

    /// Opens a lexical region.
    fn open_lexical(&mut self) -> Event
        ensures { ActsOver S.GROWS (Calls (Asks OpenLexical)) (state_of S.held self.old) result (state_of S.held self.new) }
    {
        match self.store.open_lexical() {
            Ok((handle, mark)) => {
                self.core.set(Register { number: SERVICE }, handle);
                self.core.set(
                    Register {
                        number: SECOND_ANSWER,
                    },
                    mark,
                );
                self.go_on()
            }
            Err(why) => self.refuse_service(why),
        }
    }

    /// Closes the newest lexical regions, so that only the `mark` oldest ones stay open.
    fn close_lexical(&mut self, mark: u32) -> Event
        ensures { ActsOver S.GROWS (Calls (Asks (CloseTo mark))) (state_of S.held self.old) result (state_of S.held self.new) }
    {
        match self.store.close_to(mark) {
            Ok(()) => self.go_on(),
            Err(_) => self.refuse(Cause::BadService),
        }
    }

    /// Opens a dynamic region.
    fn open_dynamic(&mut self) -> Event
        ensures { ActsOver S.GROWS (Calls (Asks OpenDynamic)) (state_of S.held self.old) result (state_of S.held self.new) }
    {
        match self.store.open_dynamic() {
            Ok(handle) => self.give_word(handle),
            Err(why) => self.refuse_service(why),
        }
    }

    /// Closes a dynamic region.
    fn close_dynamic(&mut self, handle: u32) -> Event
        ensures { ActsOver S.GROWS (Calls (Asks (CloseDynamic handle))) (state_of S.held self.old) result (state_of S.held self.new) }
    {
        match self.store.close_dynamic(handle) {
            Ok(()) => self.go_on(),
            Err(_) => self.refuse(Cause::BadService),
        }
    }

    /// Allocates a block of `words` words in a region.
    fn allocate(&mut self, handle: u32, words: u32) -> Event
        ensures { ActsOver S.GROWS (Calls (Asks (Allocate handle words))) (state_of S.held self.old) result (state_of S.held self.new) }
    {
        match self.store.alloc(handle, words) {
            Ok(address) => self.give_word(address),
            Err(why) => self.refuse_service(why),
        }
    }

    /// Frees a block of the unique region.
    fn free(&mut self, address: u32) -> Event
        ensures { ActsOver S.GROWS (Calls (Asks (Free address))) (state_of S.held self.old) result (state_of S.held self.new) }
    {
        match self.store.free(address) {
            Ok(()) => self.go_on(),
            Err(_) => self.refuse(Cause::BadService),
        }
    }
}
