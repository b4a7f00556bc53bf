//! Emits the code of a function in which some calls are inlined and some instructions are duplicated.
ghost use Rattle.std.specs.Prelude.{◌≡◌, ◌+◌, ◌*◌, ◌<◌, ◌≤◌, filter, length, replicate, IfOk, IfSome};
ghost use Rattle.cyc_plain.specs.inside.Program.{routine_at};
ghost use Rattle.cyc_plain.specs.inside.Straight.{At};
ghost use Rattle.cyc_plain.specs.inside.WellFormed.{IsPlain};
ghost use Rattle.cyc_plain.specs.declared.limits.TheConstants.{MOST_SIZE};
ghost use Rattle.cyc_inline.specs.declared.limits.TheConstants.{MOST_GROWTH, MOST_HOISTED};
ghost use Rattle.cyc_inline.specs.inside.Emission.{AddsCode, AddsOrigins, AreChosen, IsFit, IsKnown, IsSmallCall, front_by, all_hoisted_by};
ghost use Rattle.cyc_inline.specs.inside.Emission as emission;
ghost use Rattle.cyc_inline.specs.inside.Sites.{chosen_call, place_in};

use crate::choice::{Choice, call_size, instruction_at};
use crate::duplicating::{duplicate, may_follow_hoisted, may_hoisted};
use crate::emission::Emission;
use crate::limits::MOST_HOISTED;
use crate::moving::moved;
use crate::origin::Origin;
use crate::site::{Call, Site, chosen_call};
use crate::tables::place_in;
use cyc_plain::{Instruction, Plain};
use std::alloc::{AllocError, Global};

/// A function of a program, its inlined calls, and the code positions of the replacements of its instructions.
#[derive(Clone, Copy)]
pub(crate) struct Caller<'a> {
    pub(crate) plain: &'a Plain,
    /// The index of the function in the program.
    pub(crate) number: usize,
    pub(crate) choice: &'a Choice,
    /// The code position of each instruction's replacement, and the position after the last.
    pub(crate) places: &'a [usize],
    /// For each instruction, the code position of those instructions of its replacement that are placed after the
    /// caller's code, and then the position after the last of them.
    pub(crate) rests: &'a [usize],
}

/// A table that gives the code position of each instruction's replacement, and the first code position after them.
#[derive(Drop)]
pub(crate) struct Places {
    pub(crate) places: Vec<usize>,
    pub(crate) end: usize,
}

/// Returns the number of instructions in an instruction's replacement: of those placed where the instruction
/// was, or of those placed after the caller's code.
fn part_count(plain: &Plain, in_line: bool, call: Option<Call>, front: usize) -> usize
    requires plain { IsPlain plain.now }
    requires call { IfSome call (λ it. IsSmallCall plain.now it) }
    requires front { front ≤ MOST_HOISTED + 1 }
    ensures value { result ≡ emission.part_count plain.now in_line call front }
    ensures small { result ≤ 2 * MOST_GROWTH }
{
    match call {
        Some(call) => call_size(plain, in_line, call),
        None => { if in_line { front + 1 } else { 0 } }
    }
}

/// Returns the code positions of the replacements of all instructions, if the first is at `here`.
pub(crate) fn opened_places(
    alloc: Global,
    plain: &Plain,
    number: usize,
    choice: &Choice,
    in_line: bool,
    first: usize,
) -> Result<Places, AllocError>
    requires plain { IsPlain plain.now }
    requires number { number < length plain.now.functions }
    requires chosen { AreChosen plain.now (routine_at plain.now number) choice.now.chosen.items choice.now.slots }
    requires first { first ≤ MOST_SIZE * (2 * MOST_GROWTH) }
    ensures places { IfOk result (λ table. table.places.items
        ≡ emission.opened_places plain.now choice.now.chosen.items (front_by plain.now number choice.now) in_line 0 first
        (routine_at plain.now number).code) }
    ensures end { IfOk result (λ table. table.end ≡ emission.opened_end plain.now choice.now.chosen.items (front_by plain.now number choice.now)
        in_line 0 first (routine_at plain.now number).code) }
    ensures few { IfOk result (λ table. table.end ≤ first + MOST_SIZE * (2 * MOST_GROWTH)) }
{
    let function = plain.function(number);
    let mut places = Vec::new(alloc);
    let mut here = first;
    for index in 0..function.code.len() {
        let instruction = instruction_at(function, index);
        places.push(here)?;
        let call = chosen_call(instruction, place_in(&choice.chosen, index));
        let front = choice.front_at(plain, number, index, instruction);
        here += part_count(plain, in_line, call, front);
    }
    places.push(here)?;
    Ok(Places { places, end: here })
}

impl Emission {
    /// Appends those of the instructions requested for hoisting that may be hoisted before an instruction.
    fn push_all_hoisted(
        &mut self,
        globals: usize,
        given_slots: usize,
        slots: usize,
        wanted: &[Instruction],
        origin: Origin,
    ) -> Result<(), AllocError>
        ensures code { AddsCode result self.old self.new (filter (emission.may_hoisted globals given_slots slots) wanted.now) }
        ensures origins { AddsOrigins result self.old self.new
            (replicate (length (filter (emission.may_hoisted globals given_slots slots) wanted.now)) origin) }
    {
        for hoisted in wanted {
            if may_hoisted(globals, given_slots, slots, *hoisted) {
                self.push(*hoisted, origin)?;
            }
        }
        Ok(())
    }

    /// Appends the instructions hoisted before an instruction, unless hoisting is not allowed there or too many are requested.
    fn push_all_hoisted_of(
        &mut self,
        globals: usize,
        given_slots: usize,
        slots: usize,
        instruction: Instruction,
        wanted: &[Instruction],
        origin: Origin,
    ) -> Result<(), AllocError>
        ensures code { AddsCode result self.old self.new (emission.all_hoisted_of globals given_slots slots instruction wanted.now) }
        ensures origins { AddsOrigins result self.old self.new
            (replicate (length (emission.all_hoisted_of globals given_slots slots instruction wanted.now)) origin) }
    {
        if !may_follow_hoisted(instruction) || wanted.len() > MOST_HOISTED {
            return Ok(());
        }
        self.push_all_hoisted(globals, given_slots, slots, wanted, origin)
    }

    /// Appends the hoisted instructions that the search for loop invariants requested to be put before an instruction.
    fn push_wanted(
        &mut self,
        plain: &Plain,
        number: usize,
        choice: &Choice,
        index: usize,
        instruction: Instruction,
        origin: Origin,
    ) -> Result<(), AllocError>
        requires { number < length plain.now.functions }
        ensures code { AddsCode result self.old self.new (all_hoisted_by plain.now number choice.now index instruction) }
        ensures origins { AddsOrigins result self.old self.new (replicate (length (all_hoisted_by plain.now number choice.now index instruction)) origin) }
    {
        let globals = plain.globals().len();
        let given_slots = plain.function(number).slots;
        match choice.all_hoisted.get(index) {
            Some(wanted) => {
                self.push_all_hoisted_of(
                    globals,
                    given_slots,
                    choice.slots,
                    instruction,
                    wanted,
                    origin,
                )
            }
            None => Ok(()),
        }
    }

    /// Appends the duplicate of an instruction, if the instruction has one.
    fn push_duplicate(
        &mut self,
        instruction: Instruction,
        further: Option<usize>,
        origin: Origin,
    ) -> Result<(), AllocError>
        ensures code { AddsCode result self.old self.new (emission.duplicate_in instruction further) }
        ensures origins { AddsOrigins result self.old self.new (replicate (length (emission.duplicate_in instruction further)) origin) }
    {
        match further {
            Some(slot) => self.push(duplicate(slot, instruction), origin),
            None => Ok(()),
        }
    }

    /// Appends the replacement of an instruction that is not an inlined call: the instructions put before it, then the instruction with
    /// moved jump targets.
    fn push_itself(
        &mut self,
        caller: &Caller,
        index: usize,
        instruction: Instruction,
        origin: Origin,
    ) -> Result<(), AllocError>
        requires known { IsKnown caller.now }
        requires fits { IsFit 0 instruction }
        ensures code { AddsCode result self.old self.new (emission.own_part (place_in caller.now.places.now) instruction
            (front_by caller.now.plain.now caller.now.number caller.now.choice.now index instruction)) }
        ensures origins { AddsOrigins result self.old self.new
            (replicate (emission.own_count (length (front_by caller.now.plain.now caller.now.number caller.now.choice.now index instruction)))
            origin) }
    {
        self.push_wanted(
            caller.plain,
            caller.number,
            caller.choice,
            index,
            instruction,
            origin,
        )?;
        let further = caller
            .choice
            .duplicate_at(caller.plain, caller.number, index, instruction);
        self.push_duplicate(instruction, further, origin)?;
        self.push(moved(0, caller.places, instruction), origin)
    }

    /// Appends the replacement of an instruction: the code of an inlined call, or the instruction itself. If `in_line` is false, appends
    /// only the part of an inlined call's code that is placed after the caller's code.
    fn push_part(
        &mut self,
        alloc: Global,
        caller: &Caller,
        in_line: bool,
        index: usize,
        instruction: Instruction,
    ) -> Result<(), AllocError>
        requires known { IsKnown caller.now }
        requires at { At (routine_at caller.now.plain.now caller.now.number).code index instruction }
        ensures code { AddsCode result self.old self.new (emission.part caller.now.plain.now caller.now.number (place_in caller.now.places.now)
            (place_in caller.now.rests.now) in_line index instruction (chosen_call instruction (place_in caller.now.choice.now.chosen.items index))
            (front_by caller.now.plain.now caller.now.number caller.now.choice.now index instruction)) }
        ensures origins { AddsOrigins result self.old self.new
            (emission.part_origins caller.now.plain.now caller.now.number in_line index
            (chosen_call instruction (place_in caller.now.choice.now.chosen.items index))
            (length (front_by caller.now.plain.now caller.now.number caller.now.choice.now index instruction))) }
    {
        let function = caller.number;
        let origin = Origin { function, index };
        match chosen_call(instruction, place_in(&caller.choice.chosen, index)) {
            Some(call) => {
                let callee = caller.plain.function(call.callee);
                let site = Site {
                    call,
                    shift: caller.plain.function(function).slots,
                    results: callee.results,
                    following: place_in(caller.places, index + 1),
                    rest: place_in(caller.rests, index),
                };
                let here = place_in(caller.places, index);
                self.push_site(alloc, &site, in_line, here, &callee.code, origin)
            }
            None if in_line => self.push_itself(caller, index, instruction, origin),
            None => Ok(()),
        }
    }

    /// Appends the replacements of all instructions of a function: the code in their place, or the parts of
    /// inlined callees placed after that code.
    pub(crate) fn push_parts(
        &mut self,
        alloc: Global,
        caller: &Caller,
        in_line: bool,
    ) -> Result<(), AllocError>
        requires { IsKnown caller.now }
        ensures code { AddsCode result self.old self.new (emission.opened_code caller.now.plain.now caller.now.number
            caller.now.choice.now.chosen.items (front_by caller.now.plain.now caller.now.number caller.now.choice.now)
            (place_in caller.now.places.now) (place_in caller.now.rests.now) in_line 0 (routine_at caller.now.plain.now caller.now.number).code) }
        ensures origins { AddsOrigins result self.old self.new
            (emission.opened_origins caller.now.plain.now caller.now.number caller.now.choice.now.chosen.items
            (front_by caller.now.plain.now caller.now.number caller.now.choice.now) in_line 0
            (routine_at caller.now.plain.now caller.now.number).code) }
    {
        let function = caller.plain.function(caller.number);
        for index in 0..function.code.len() {
            let instruction = instruction_at(function, index);
            self.push_part(alloc, caller, in_line, index, instruction)?;
        }
        Ok(())
    }
}
