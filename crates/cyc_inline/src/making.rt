//! Makes replacements of a program's functions, in which some calls are inlined or some instructions are duplicated.
ghost use Rattle.std.specs.Prelude.{◌+◌, ◌<◌, ◌≤◌, length, IfOk, IfSome};
ghost use Rattle.cyc_plain.specs.inside.Program.{routine_at, routine_of, size};
ghost use Rattle.cyc_plain.specs.inside.WellFormed.{IsPlain};
ghost use Rattle.cyc_inline.specs.inside.Emission.{AreChosen, AreLeafs, IsMade};
ghost use Rattle.cyc_inline.specs.inside.Changes.{IsChange};

use crate::caller::{Caller, opened_places};
use crate::choice::{Choice, choose, choose_duplicates, larger};
use crate::emission::Emission;
use crate::naming::Search;
use crate::needing::duplicates_of;
use crate::origin::Origin;
use crate::sizes::code_size;
use crate::tables::place_in;
use cyc_plain::{Function, Instruction, LAYOUT_WORDS, MOST_SIZE, Plain};
use std::alloc::{AllocError, Global};

/// A replacement of a function: the new function, the source instructions from which its instructions are made, and the number of words of
/// machine code by which later functions may grow.
#[derive(Drop)]
pub(crate) struct Made {
    pub(crate) function: Function,
    /// For each instruction of the replacement, the source instruction from which it is made.
    pub(crate) origins: Vec<Origin>,
    /// The number of words of machine code by which the functions after the replaced function may together grow.
    pub(crate) spare: usize,
}

/// Returns the function with the chosen calls inlined and the chosen instructions duplicated.
fn opened(
    alloc: Global,
    plain: &Plain,
    number: usize,
    choice: &Choice,
    spare: usize,
) -> Result<Made, AllocError>
    requires plain { IsPlain plain.now }
    requires number { number < length plain.now.functions }
    requires chosen { AreChosen plain.now (routine_at plain.now number) choice.now.chosen.items choice.now.slots }
    ensures { IfOk result (λ made. IsMade plain.now number (routine_of made.function) made.origins.items) }
{
    let slots = choice.slots;
    let table = opened_places(alloc, plain, number, choice, true, 0)?;
    let rest = opened_places(alloc, plain, number, choice, false, table.end)?;
    let caller = Caller {
        plain,
        number,
        choice,
        places: &table.places,
        rests: &rest.places,
    };
    let mut emission = Emission::new(alloc);
    emission.push_parts(alloc, &caller, true)?;
    emission.push_parts(alloc, &caller, false)?;
    let function = plain.function(number);
    Ok(Made {
        function: Function {
            name: function.name,
            parameters: function.parameters,
            results: function.results,
            slots,
            frame_count: larger(function.frame_count, slots + LAYOUT_WORDS),
            code: emission.code,
        },
        origins: emission.origins,
        spare,
    })
}

/// Returns the number of words of machine code by which the later functions of the program may together
/// grow. Returns `None` if the replacement `made` is larger than the function by more than `spare` words.
fn spare_after(given: &Function, made: &Function, spare: usize) -> Option<usize>
    ensures { IfSome result (λ left. size (routine_of made.now) + left ≤ size (routine_of given.now) + spare) }
{
    let before = code_size(&given.code, MOST_SIZE)?;
    if spare > MOST_SIZE - before {
        return None;
    }
    let most = before + spare;
    let following = code_size(&made.code, most)?;
    Some(most - following)
}

/// Returns a function with the chosen calls inlined and the chosen instructions duplicated, if its code fits the size limit.
fn opened_in(
    alloc: Global,
    plain: &Plain,
    number: usize,
    choice: &Choice,
    spare: usize,
) -> Result<Option<Made>, AllocError>
    requires plain { IsPlain plain.now }
    requires number { number < length plain.now.functions }
    requires chosen { AreChosen plain.now (routine_at plain.now number) choice.now.chosen.items choice.now.slots }
    ensures { IfOk result (IsChange plain.now number spare) }
{
    let mut made = opened(alloc, plain, number, choice, spare)?;
    if let Some(left) = spare_after(plain.function(number), &made.function, spare) {
        made.spare = left;
        return Ok(Some(made));
    }
    Ok(None)
}

/// Returns true if a function calls a function that may be inlined.
fn has_site(function: &Function, leafs: &[usize]) -> bool {
    for instruction in &function.code {
        if let Instruction::Call { function, .. } = *instruction {
            if place_in(leafs, function) > 0 {
                return true;
            }
        }
    }
    false
}

/// Returns a function with calls inlined, or `None` if none of its calls can be inlined or its code would be too large.
pub(crate) fn make(
    alloc: Global,
    plain: &Plain,
    leafs: &[usize],
    number: usize,
    spare: usize,
) -> Result<Option<Made>, AllocError>
    requires plain { IsPlain plain.now }
    requires leafs { AreLeafs plain.now leafs.now }
    requires number { number < length plain.now.functions }
    ensures { IfOk result (IsChange plain.now number spare) }
{
    let function = plain.function(number);
    if !has_site(function, leafs) {
        return Ok(None);
    }
    let choice = choose(alloc, plain, leafs, number)?;
    if choice.growth > 0 {
        opened_in(alloc, plain, number, &choice, spare)
    } else {
        Ok(None)
    }
}

/// Returns a function with instructions duplicated, or `None` if no instruction is duplicated or its code would be too large.
pub(crate) fn make_duplicates(
    alloc: Global,
    search: &mut Search,
    plain: &Plain,
    number: usize,
    spare: usize,
) -> Result<Option<Made>, AllocError>
    requires plain { IsPlain plain.now }
    requires number { number < length plain.now.functions }
    ensures { IfOk result (IsChange plain.now number spare) }
{
    if let Some(duplicates) = duplicates_of(alloc, search, plain, number, plain.function(number))? {
        if let Some(choice) = choose_duplicates(alloc, plain, number, duplicates) {
            return opened_in(alloc, plain, number, &choice, spare);
        }
    }
    Ok(None)
}
