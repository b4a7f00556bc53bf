//! Drops checks for stack space that an earlier check makes redundant.
ghost use Rattle.std.specs.Prelude.{◌≡◌, ◌+◌, ◌<◌, ◌^◌, IfOk, IfSome};
ghost use Rattle.cyc_propagation.specs.inside.Room as rooms_of;

use crate::jumps::{goes_on, target_of};
use cyc_plain::{Instruction, Plain};
use std::alloc::{AllocError, Global};

/// More stack space than any call requires.
const MOST_ROOM: usize = usize::MAX;

/// The maximal number of passes over the code in the search for the stack space known at each position.
const ROUNDS: usize = 4;

/// Returns the stack space that a call of a function requires, represented by its number of slots plus one.
#[tactic(auto, using(crate::proofs::Sparing::slots_and_one_fit))]
fn room_for(plain: &Plain, function: usize) -> usize
    ensures { result ≡ rooms_of.slots_in plain.now function + 1 }
{
    if function < plain.functions().len() {
        let callee = plain.function(function);
        // A frame has more words than slots, and its number of words fits a machine word. Hence the number of a
        // function's slots plus one fits a machine word too.
        let _words = callee.frame_count;
        callee.slots + 1
    } else {
        1
    }
}

/// Returns the stack space that an instruction has proved to be available when control continues after it.
fn room_of(plain: &Plain, instruction: Instruction) -> usize
    ensures { result ≡ rooms_of.room_of (rooms_of.slots_in plain.now) instruction }
{
    match instruction {
        Instruction::Call { function, .. } => room_for(plain, function),
        Instruction::Enter { function } => room_for(plain, function),
        _ => 0,
    }
}

/// Returns the stack space known to be available after an instruction.
fn room_following(plain: &Plain, room: usize, instruction: Instruction) -> usize
    ensures { result ≡ rooms_of.room_following (rooms_of.slots_in plain.now) room instruction }
{
    let had = room_of(plain, instruction);
    if room < had { had } else { room }
}

/// Returns the stack space known to be available at a code position.
fn room_at(rooms: &[usize], place: usize) -> usize
    ensures { result ≡ rooms_of.room_at rooms.now place }
{
    match rooms.get(place) {
        Some(room) => *room,
        None => 0,
    }
}

/// Returns true if the stack space recorded for a code position is at most this much.
fn is_enough(rooms: &[usize], room: usize, place: usize) -> bool
    ensures { result ≡ rooms_of.is_enough rooms.now room place }
{
    room_at(rooms, place) <= room
}

/// Returns true if the stack space recorded for each successor of an instruction is at most this much.
fn leads_to_enough(rooms: &[usize], room: usize, instruction: Instruction, index: usize) -> bool
    requires { index + 1 < 2 ^ 64 }
    ensures { result ≡ rooms_of.leads_to_enough rooms.now room instruction index }
{
    match instruction {
        Instruction::Jump { target } => is_enough(rooms, room, target),
        Instruction::Branch { target, .. } => {
            is_enough(rooms, room, target) && is_enough(rooms, room, index + 1)
        }
        Instruction::Try { handler, .. } => {
            is_enough(rooms, room, handler) && is_enough(rooms, room, index + 1)
        }
        Instruction::Return { .. }
        | Instruction::Throw { .. }
        | Instruction::Finish { .. }
        | Instruction::Uncaught { .. } => true,
        _ => is_enough(rooms, room, index + 1),
    }
}

/// Returns the instruction unchanged, or a jump to the next position if the instruction is a redundant check for stack space.
fn spared_instruction(
    plain: &Plain,
    room: usize,
    index: usize,
    instruction: Instruction,
) -> Instruction
    requires { index + 1 < 2 ^ 64 }
    ensures { result ≡ rooms_of.spared_instruction (rooms_of.slots_in plain.now) room index instruction }
{
    match instruction {
        Instruction::Enter { function } => {
            if room < room_for(plain, function) {
                instruction
            } else {
                Instruction::Jump { target: index + 1 }
            }
        }
        _ => instruction,
    }
}

/// Lowers the stack space known at a code position to at most `room`. Returns true if the stack space known at this code
/// position was at most `room` before.
fn restrict(rooms: &mut Vec<usize>, place: usize, room: usize) -> bool {
    if let Some(known) = rooms.get_mut(place) {
        if room < *known {
            *known = room;
            return false;
        }
    }
    true
}

/// Makes one pass over the code, which lowers the stack space known at code positions. Returns true if the pass leaves the stack
/// space known at each target of a backward jump unchanged.
fn go_through(plain: &Plain, code: &[Instruction], rooms: &mut Vec<usize>) -> bool {
    let mut is_settled = true;
    for index in 0..code.len() {
        let instruction = code[index];
        let room = room_following(plain, room_at(rooms, index), instruction);
        if let Some(target) = target_of(instruction) {
            let is_still = restrict(rooms, target, room);
            is_settled = is_settled && (is_still || target > index);
        }
        if goes_on(instruction) {
            restrict(rooms, index + 1, room);
        }
    }
    is_settled
}

/// Finds the stack space known at each position of the code. The search for the known stack space is unverified: the table that it
/// returns is checked before use. A position that the search has not reached yet has the maximal stack space, so that it does not
/// limit its successors.
fn rooms_of(alloc: Global, plain: &Plain, code: &[Instruction]) -> Result<Vec<usize>, AllocError> {
    let mut rooms = vec![in alloc; MOST_ROOM; code.len()]?;
    restrict(&mut rooms, 0, 0);
    for _ in 0..ROUNDS {
        if go_through(plain, code, &mut rooms) {
            return Ok(rooms);
        }
    }
    Ok(rooms)
}

/// Returns true if the code contains a check for stack space (`Enter`).
fn asks_for_room(code: &[Instruction]) -> bool {
    for instruction in code {
        if let Instruction::Enter { .. } = *instruction {
            return true;
        }
    }
    false
}

/// Returns the code without redundant checks for stack space, if the table of known stack space passes the check.
fn sparing(
    alloc: Global,
    plain: &Plain,
    code: &[Instruction],
    rooms: &[usize],
) -> Result<Option<Vec<Instruction>>, AllocError>
    ensures { IfOk result (λ made. IfSome made (λ spared. rooms_of.IsSparedCode (rooms_of.slots_in plain.now) code.now spared.items)) }
{
    let mut spared = Vec::with_capacity(alloc, code.len())?;
    if room_at(rooms, 0) != 0 {
        return Ok(None);
    }
    for index in 0..code.len() {
        let instruction = code[index];
        let room = room_at(rooms, index);
        let following = room_following(plain, room, instruction);
        if !leads_to_enough(rooms, following, instruction, index) {
            return Ok(None);
        }
        spared.push(spared_instruction(plain, room, index, instruction))?;
    }
    Ok(Some(spared))
}

/// Returns the code without redundant checks for stack space.
pub(crate) fn spare(
    alloc: Global,
    plain: &Plain,
    code: Vec<Instruction>,
) -> Result<Vec<Instruction>, AllocError>
    ensures { IfOk result (λ spared. rooms_of.IsSparedCode (rooms_of.slots_in plain.now) code.items spared.items) }
{
    if asks_for_room(&code) {
        let rooms = rooms_of(alloc, plain, &code)?;
        if let Some(spared) = sparing(alloc, plain, &code, &rooms)? {
            return Ok(spared);
        }
    }
    Ok(code)
}
