//! Emits the MIPS lines of requests to the store (the heap of regions).
ghost use Rattle.std.specs.Prelude.{◌≡◌, ◌+◌, ◌≤◌, [], ◌∷◌, OnOk};
ghost use Rattle.cyc_plain.specs.inside.Requests.{first_operand, second_operand, answer_count, destination_of};
ghost use Rattle.cyc_select.specs.inside.Slots.{give_code};
ghost use Rattle.cyc_select.specs.inside.Counts.{ask_count};
ghost use Rattle.cyc_select.specs.inside.Selection.{ordinary, argument_code, service_number, regions_code, answer_code, ask_code};
ghost use Rattle.cyc_select.specs.inside.Emission.{AddsLines, IsReached, IsArgumentFound, AreReached, IsRequestFound};

use crate::calling::RESULTS;
use crate::constants::REGIONS;
use crate::emitter::Emitter;
use crate::instructions::{add_immediate, small, syscall};
use crate::operands::{give_count, load_count};
use cyc_frame::Frame;
use cyc_machine_model::constants::{
    ALLOCATE, ARGUMENT, CLOSE_DYNAMIC, CLOSE_LEXICAL, FREE, OPEN_DYNAMIC, OPEN_LEXICAL,
    SECOND_ANSWER, SECOND_ARGUMENT, SERVICE,
};
use cyc_plain::{MOST_FRAME_WORDS, Request};
use std::alloc::AllocError;

/// Returns the number of the system call that performs a request to the store (the heap of regions).
fn service_number(request: Request) -> u16
    ensures { result ≡ service_number request }
{
    match request {
        Request::OpenLexical { .. } => OPEN_LEXICAL as u16,
        Request::CloseTo { .. } => CLOSE_LEXICAL as u16,
        Request::OpenDynamic { .. } => OPEN_DYNAMIC as u16,
        Request::CloseDynamic { .. } => CLOSE_DYNAMIC as u16,
        Request::Allocate { .. } => ALLOCATE as u16,
        Request::Free { .. } => FREE as u16,
    }
}

/// Returns the number of MIPS lines emitted for a request to the store.
pub(crate) fn ask_count(frame: &Frame, request: Request) -> usize
    requires { destination_of request + answer_count request ≤ MOST_FRAME_WORDS }
    ensures value { result ≡ ask_count frame.now request }
    ensures few { result ≤ 8 }
{
    match request {
        Request::OpenLexical { destination } => {
            3 + (give_count(frame, destination) + give_count(frame, destination + 1))
        }
        Request::CloseTo { mark } => load_count(mark) + 3,
        Request::OpenDynamic { destination } => 2 + give_count(frame, destination),
        Request::CloseDynamic { handle } => load_count(handle) + 2,
        Request::Allocate {
            destination,
            handle,
            words,
        } => load_count(handle) + load_count(words) + 2 + give_count(frame, destination),
        Request::Free { address } => load_count(address) + 2,
    }
}

impl Emitter {
    /// Emits the MIPS lines that load the first operand of a request to the store, if the request has one.
    fn first_argument(&mut self, frame: &Frame, request: Request) -> Result<(), AllocError>
        requires { IsArgumentFound frame.now (first_operand request) }
        ensures { AddsLines result self.old self.new (ordinary (argument_code frame.now ARGUMENT (first_operand request))) }
    {
        match request {
            Request::OpenLexical { .. } => Ok(()),
            Request::CloseTo { mark } => self.load(frame, ARGUMENT, mark),
            Request::OpenDynamic { .. } => Ok(()),
            Request::CloseDynamic { handle } => self.load(frame, ARGUMENT, handle),
            Request::Allocate { handle, .. } => self.load(frame, ARGUMENT, handle),
            Request::Free { address } => self.load(frame, ARGUMENT, address),
        }
    }

    /// Emits the MIPS lines that load the second operand of a request to the store, if the request has one.
    fn second_argument(&mut self, frame: &Frame, request: Request) -> Result<(), AllocError>
        requires { IsArgumentFound frame.now (second_operand request) }
        ensures { AddsLines result self.old self.new (ordinary (argument_code frame.now SECOND_ARGUMENT (second_operand request))) }
    {
        match request {
            Request::Allocate { words, .. } => self.load(frame, SECOND_ARGUMENT, words),
            _ => Ok(()),
        }
    }

    /// Emits the update of the register that holds the number of open lexical regions.
    fn regions(&mut self, request: Request) -> Result<(), AllocError>
        ensures { AddsLines result self.old self.new (ordinary (regions_code request)) }
    {
        match request {
            Request::OpenLexical { .. } => {
                self.ordinary(&[add_immediate(REGIONS, SECOND_ANSWER, 1)])
            }
            Request::CloseTo { .. } => self.ordinary(&[add_immediate(REGIONS, ARGUMENT, 0)]),
            Request::OpenDynamic { .. } => Ok(()),
            Request::CloseDynamic { .. } => Ok(()),
            Request::Allocate { .. } => Ok(()),
            Request::Free { .. } => Ok(()),
        }
    }

    /// Emits the MIPS lines that copy to slots the result of a request made to the store (the heap of regions).
    fn answer(&mut self, frame: &Frame, request: Request) -> Result<(), AllocError>
        requires { AreReached frame.now (destination_of request) (answer_count request) }
        ensures { AddsLines result self.old self.new (ordinary (answer_code frame.now request)) }
    {
        match request {
            Request::OpenLexical { destination } => self.bring_all(
                frame,
                false,
                destination,
                &RESULTS[..2],
            ),
            Request::CloseTo { .. } => Ok(()),
            Request::OpenDynamic { destination } => self.bring_all(
                frame,
                false,
                destination,
                &RESULTS[..1],
            ),
            Request::CloseDynamic { .. } => Ok(()),
            Request::Allocate { destination, .. } => self.bring_all(
                frame,
                false,
                destination,
                &RESULTS[..1],
            ),
            Request::Free { .. } => Ok(()),
        }
    }

    /// Emits the MIPS lines that write the number of open lexical regions to a slot.
    pub(crate) fn count_lexical(
        &mut self,
        frame: &Frame,
        destination: usize,
    ) -> Result<(), AllocError>
        requires { IsReached frame.now destination }
        ensures { AddsLines result self.old self.new (ordinary (give_code frame.now REGIONS destination)) }
    {
        self.give(frame, REGIONS, destination)
    }

    /// Emits all MIPS lines of a request to the store: loading its arguments, the system call, and writing its result.
    pub(crate) fn ask(&mut self, frame: &Frame, request: Request) -> Result<(), AllocError>
        requires { IsRequestFound frame.now request }
        ensures { AddsLines result self.old self.new (ask_code frame.now request) }
    {
        self.first_argument(frame, request)?;
        self.second_argument(frame, request)?;
        self.ordinary(&[small(SERVICE, service_number(request)), syscall()])?;
        self.regions(request)?;
        self.answer(frame, request)
    }
}
