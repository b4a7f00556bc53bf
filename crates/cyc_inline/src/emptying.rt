//! Removes the code of functions that no reachable code calls, except a return.
ghost use Rattle.std.specs.Prelude.{◌≡◌, ℕ, Some, true, IfOk, length, map, slice_get};
ghost use Rattle.std.specs.Vec.Iter.{into_iter_items, into_iter_len};
ghost use Rattle.cyc_plain.specs.declared.instruction.Instruction.{Instruction};
ghost use Rattle.cyc_plain.specs.inside.Program.{routine_of};
ghost use Rattle.cyc_plain.specs.inside.Straight.{At};
ghost use Rattle.cyc_inline.specs.inside.Changes.{first_of, note, notes_of, others};
ghost use Rattle.cyc_inline.specs.inside.Emptied.{AreReached, IsEmptied, LeadsBelow, LeadsTo, StayReached, first_flag, first_return, is_reached};
ghost use Rattle.cyc_inline.specs.inside.Emptied.{note_kept, note_with, notes_kept, other_flags, routine_kept, routine_with, routines_kept};

use crate::choice::instruction_at;
use crate::inlining::Inlined;
use crate::leaf::returns;
use crate::origin::Origin;
use crate::replacing::{Opened, Placed, Replaced};
use cyc_plain::{Function, Instruction, Plain};
use std::alloc::{AllocError, Global};
use std::vec::IntoIter;

/// Marks the function that an instruction calls as reached.
fn note_call(instruction: Instruction, reached: &mut Vec<bool>)
    requires { LeadsBelow (length reached.old.items) instruction }
    ensures stay { StayReached reached.old.items reached.new.items }
    ensures leads { LeadsTo reached.new.items instruction }
{
    if let Instruction::Call { function, .. } = instruction {
        reached[function] = true;
    }
}

/// Marks the functions that a function's code calls as reached.
fn note_calls(function: &Function, reached: &mut Vec<bool>)
    requires { (p : ℕ) (i : Instruction) → At (routine_of function.now).code p i → LeadsBelow (length reached.old.items) i }
    ensures stay { StayReached reached.old.items reached.new.items }
    ensures leads { (p : ℕ) (i : Instruction) → At (routine_of function.now).code p i → LeadsTo reached.new.items i }
{
    for index in 0..function.code.len() {
        let instruction = instruction_at(function, index);
        note_call(instruction, reached);
    }
}

/// Returns flags in which only `main` is marked as reached.
fn main_reached(alloc: Global, plain: &Plain) -> Result<Vec<bool>, AllocError>
    ensures many { IfOk result (λ reached. length reached.items ≡ length plain.now.functions) }
    ensures main { IfOk result (λ reached. is_reached reached.items plain.now.main ≡ true) }
{
    let mut reached = vec![in alloc; false; plain.functions().len()]?;
    reached[plain.main()] = true;
    Ok(reached)
}

/// Returns the flags of reached functions: `main` and each function that some code calls.
fn reached_in(alloc: Global, plain: &Plain) -> Result<Vec<bool>, AllocError>
    ensures { IfOk result (λ reached. AreReached plain.now reached.items) }
{
    let count = plain.functions().len();
    let mut reached = main_reached(alloc, plain)?;
    for number in 0..count {
        let function = plain.function(number);
        note_calls(function, &mut reached);
    }
    Ok(reached)
}

fn next_opened(opened: &mut IntoIter<Option<Opened>, Global>) -> Option<Opened>
    requires { into_iter_len opened.old ≡ length (into_iter_items opened.old) }
    ensures value { result ≡ first_of (into_iter_items opened.old) }
    ensures rest { into_iter_items opened.new ≡ others (into_iter_items opened.old) }
    ensures count { into_iter_len opened.new ≡ length (into_iter_items opened.new) }
{
    match opened.next() {
        Some(opened) => opened,
        None => None,
    }
}

fn next_flag(reached: &mut IntoIter<bool, Global>) -> bool
    requires { into_iter_len reached.old ≡ length (into_iter_items reached.old) }
    ensures value { result ≡ first_flag (into_iter_items reached.old) }
    ensures rest { into_iter_items reached.new ≡ other_flags (into_iter_items reached.old) }
    ensures count { into_iter_len reached.new ≡ length (into_iter_items reached.new) }
{
    match reached.next() {
        Some(is_called) => is_called,
        None => false,
    }
}

/// Returns the index of the first return in a code, or the code's length if it contains no return.
fn first_return(code: &[Instruction]) -> usize
    ensures { result ≡ first_return code.now }
{
    for index in 0..code.len() {
        if returns(code[index]) {
            return index;
        }
    }
    code.len()
}

/// Returns the instruction at an index of a code, if the index is below the code's length.
fn instruction_in(code: &[Instruction], place: usize) -> Option<Instruction>
    ensures { result ≡ slice_get code.now place }
{
    match code.get(place) {
        Some(instruction) => Some(*instruction),
        None => None,
    }
}

/// Returns the source instruction from which the instruction at an index of a function is made.
fn origin_of(opened: &Option<Opened>, number: usize, index: usize) -> Origin {
    if let Some(opened) = opened {
        if let Some(origin) = opened.origins.get(index) {
            return *origin;
        }
    }
    Origin {
        function: number,
        index,
    }
}

/// Returns a function reduced to one instruction, `stub`, with the source instruction from which it is made.
fn emptied(
    alloc: Global,
    function: Function,
    opened: Option<Opened>,
    stub: Instruction,
    origin: Origin,
) -> Result<Placed, AllocError>
    ensures function { IfOk result (λ it. routine_of it.function ≡ routine_with (Some stub) (routine_of function)) }
    ensures opened { IfOk result (λ it. note it.opened ≡ note_with (Some stub) (routine_of function) (note opened)) }
{
    let mut code = Vec::with_capacity(alloc, 1)?;
    code.push(stub)?;
    let mut origins = Vec::with_capacity(alloc, 1)?;
    origins.push(origin)?;
    let empty = Function {
        name: function.name,
        parameters: function.parameters,
        results: function.results,
        slots: function.slots,
        frame_count: function.frame_count,
        code,
    };
    let given = match opened {
        Some(opened) => opened.given,
        None => function,
    };
    Ok(Placed {
        function: empty,
        opened: Some(Opened { given, origins }),
    })
}

/// Returns the function with index `number`, reduced to a return if no code calls it. A function without a return keeps its code.
fn keep(
    alloc: Global,
    function: Function,
    opened: Option<Opened>,
    number: usize,
    is_called: bool,
) -> Result<Placed, AllocError>
    ensures function { IfOk result (λ it. routine_of it.function ≡ routine_kept is_called (routine_of function)) }
    ensures opened { IfOk result (λ it. note it.opened ≡ note_kept is_called (routine_of function) (note opened)) }
{
    if is_called {
        return Ok(Placed { function, opened });
    }
    let index = first_return(&function.code);
    match instruction_in(&function.code, index) {
        Some(stub) => {
            let origin = origin_of(&opened, number, index);
            emptied(alloc, function, opened, stub, origin)
        }
        None => Ok(Placed { function, opened }),
    }
}

/// Returns all functions; those that no code calls are reduced to a return.
fn keep_all(
    alloc: Global,
    given: Vec<Function>,
    opened: Vec<Option<Opened>>,
    reached: Vec<bool>,
) -> Result<Replaced, AllocError>
    ensures functions { IfOk result (λ kept. map routine_of kept.functions.items ≡ routines_kept (map routine_of given.items) reached.items) }
    ensures opened { IfOk result (λ kept. notes_of kept.opened.items ≡ notes_kept (map routine_of given.items) (notes_of opened.items) reached.items) }
{
    let mut functions = Vec::with_capacity(alloc, given.len())?;
    let mut kept = Vec::with_capacity(alloc, given.len())?;
    let mut opened = opened.into_iter();
    let mut reached = reached.into_iter();
    for function in given {
        let before = next_opened(&mut opened);
        let is_called = next_flag(&mut reached);
        let placed = keep(alloc, function, before, functions.len(), is_called)?;
        functions.push(placed.function)?;
        kept.push(placed.opened)?;
    }
    Ok(Replaced {
        functions,
        opened: kept,
    })
}

/// Returns the program in which functions that no code calls are reduced to a return.
pub(crate) fn empty(alloc: Global, inlined: Inlined) -> Result<Inlined, AllocError>
    ensures { IfOk result (IsEmptied inlined) }
{
    let reached = reached_in(alloc, &inlined.plain)?;
    let parts = inlined.plain.into_parts();
    let kept = keep_all(alloc, parts.functions, inlined.opened, reached)?;
    Ok(Inlined {
        plain: Plain::new(kept.functions, parts.globals, parts.main),
        opened: kept.opened,
    })
}
