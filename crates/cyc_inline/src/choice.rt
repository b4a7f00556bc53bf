//! Chooses the calls of a function that are inlined, and the function's duplicated and hoisted instructions.
ghost use Rattle.std.specs.Prelude.{◌≡◌, ◌+◌, ◌*◌, ◌<◌, ◌≤◌, ◌⊎◌, Some, [], length, IfOk, IfSome, OnOk};
ghost use Rattle.cyc_plain.specs.inside.Program.{routine_at, routine_of};
ghost use Rattle.cyc_plain.specs.inside.Straight.{At};
ghost use Rattle.cyc_plain.specs.inside.WellFormed.{IsInRange, IsPlain};
ghost use Rattle.cyc_plain.specs.declared.limits.TheConstants as plain_limits;
ghost use Rattle.cyc_inline.specs.declared.limits.TheConstants as limits;
ghost use Rattle.cyc_inline.specs.declared.site.Call.{Call};
ghost use Rattle.cyc_inline.specs.inside.Sites.{chosen_call, place_in};
ghost use Rattle.cyc_inline.specs.inside.Emission.{AreChosen, AreLeafs, IsChosenBy, IsNeed, IsSmallCall, call_size, front_by, all_hoisted_by, duplicate_by};

use crate::duplicating::{duplicate_slot, hoisted_count};
use crate::limits::MOST_GROWTH;
use crate::needing::Duplicates;
use crate::site::{Call, chosen_call, inside_size};
use crate::tables::place_in;
use cyc_plain::{Function, Instruction, LAYOUT_WORDS, MOST_FRAME_WORDS, Plain};
use std::alloc::{AllocError, Global};

/// The requirements of inlining a call. They are the caller's number of slots afterwards, the number of instructions that replace the call,
/// and the number of callee instructions placed at the call.
#[derive(Clone, Copy)]
pub(crate) struct Need {
    /// The number of slots that the caller has after the call is inlined.
    pub(crate) slots: usize,
    /// The number of instructions that replace the inlined call.
    pub(crate) size: usize,
    /// The number of the callee's instructions that are placed at the call.
    pub(crate) line: usize,
}

/// The calls of a function that are inlined, and the function's duplicated and hoisted instructions.
#[derive(Drop)]
pub(crate) struct Choice {
    /// For each instruction, the number of the callee's instructions placed at the call if the instruction is an inlined call, else 0.
    pub(crate) chosen: Vec<usize>,
    /// For each instruction, the slot requested for its duplicate. A duplicate is made only if its slot is an extra slot and the
    /// instruction may be duplicated.
    pub(crate) duplicates: Vec<usize>,
    /// For each instruction, the instructions that should be hoisted before it.
    pub(crate) all_hoisted: Vec<Vec<Instruction>>,
    /// The number of the function's slots, including those of the inlined callees and of the duplicates.
    pub(crate) slots: usize,
    /// The number of instructions that replace the inlined calls of the function.
    pub(crate) growth: usize,
}

/// Returns the number of instructions that replace an inlined call: in the call's place, or after the caller's code.
pub(crate) fn call_size(plain: &Plain, in_line: bool, call: Call) -> usize
    requires plain { IsPlain plain.now }
    requires call { IsSmallCall plain.now call }
    ensures value { result ≡ call_size plain.now in_line call }
    ensures small { result ≤ 2 * limits.MOST_GROWTH }
{
    let callee = plain.function(call.callee);
    let size = inside_size(callee.results, call.line, in_line, &callee.code);
    if in_line { call.count + 1 + size } else { size }
}

/// Returns the number of the callee's instructions placed at the call if the instruction is a call of a leaf function, else 0.
fn line_of(leafs: &[usize], instruction: Instruction) -> usize
    ensures { (call : Call) → chosen_call instruction result ≡ Some call → result ≡ place_in leafs.now call.callee }
{
    match instruction {
        Instruction::Call { function, .. } => place_in(leafs, function),
        _ => 0,
    }
}

/// Returns the numbers of slots and instructions that a function needs to inline one of its calls, if the instruction
/// is a call that may be inlined.
fn need_of(plain: &Plain, leafs: &[usize], number: usize, instruction: Instruction) -> Option<Need>
    requires plain { IsPlain plain.now }
    requires leafs { AreLeafs plain.now leafs.now }
    requires number { number < length plain.now.functions }
    requires in_range { IsInRange plain.now (routine_at plain.now number) instruction }
    requires frame { (routine_at plain.now number).frame_count ≤ plain_limits.MOST_FRAME_WORDS }
    ensures { IfSome result (λ need. IsNeed plain.now (routine_at plain.now number) instruction need) }
{
    let line = line_of(leafs, instruction);
    match chosen_call(instruction, line) {
        Some(call) => {
            let callee = plain.function(call.callee);
            if callee.frame_count > MOST_FRAME_WORDS {
                return None;
            }
            let slots = plain.function(number).slots + callee.slots;
            if slots + LAYOUT_WORDS > MOST_FRAME_WORDS {
                return None;
            }
            let size = call_size(plain, true, call) + call_size(plain, false, call);
            Some(Need { slots, size, line })
        }
        None => None,
    }
}

impl Choice {
    /// Returns an empty record of decisions, for a function with `slots` slots: no call is inlined, and no instruction is duplicated or
    /// hoisted.
    fn new(alloc: Global, slots: usize) -> Choice
        ensures chosen { result.chosen.items ≡ [] }
        ensures slots { result.slots ≡ slots }
        ensures growth { result.growth ≡ 0 }
    {
        Choice {
            chosen: Vec::new(alloc),
            duplicates: Vec::new(alloc),
            all_hoisted: Vec::new(alloc),
            slots,
            growth: 0,
        }
    }

    /// Records whether the next instruction of a function is a call to be inlined. A call that may be inlined is chosen
    /// if the function does not grow too much.
    fn add(&mut self, need: Option<Need>) -> Result<(), AllocError>
        requires { self.now.growth ≤ limits.MOST_GROWTH }
        ensures { OnOk result (IsChosenBy self.old self.new need) }
    {
        if let Some(need) = need {
            if need.size <= MOST_GROWTH - self.growth {
                self.growth += need.size;
                self.slots = larger(self.slots, need.slots);
                self.chosen.push(need.line)?;
                return Ok(());
            }
        }
        self.chosen.push(0)?;
        Ok(())
    }

    /// Returns the slot of an instruction's duplicate, if the instruction has one.
    pub(crate) fn duplicate_at(
        &self,
        plain: &Plain,
        number: usize,
        index: usize,
        instruction: Instruction,
    ) -> Option<usize>
        requires { number < length plain.now.functions }
        ensures { result ≡ duplicate_by plain.now number self.now index instruction }
    {
        let given_slots = plain.function(number).slots;
        duplicate_slot(
            given_slots,
            self.slots,
            instruction,
            place_in(&self.duplicates, index),
        )
    }

    /// Returns the number of hoisted instructions before an instruction.
    fn all_hoisted_at(
        &self,
        plain: &Plain,
        number: usize,
        index: usize,
        instruction: Instruction,
    ) -> usize
        requires { number < length plain.now.functions }
        ensures value { result ≡ length (all_hoisted_by plain.now number self.now index instruction) }
        ensures few { result ≤ limits.MOST_HOISTED }
    {
        let globals = plain.globals().len();
        let given_slots = plain.function(number).slots;
        match self.all_hoisted.get(index) {
            Some(wanted) => hoisted_count(globals, given_slots, self.slots, instruction, wanted),
            None => 0,
        }
    }

    /// Returns the number of instructions put before an instruction.
    pub(crate) fn front_at(
        &self,
        plain: &Plain,
        number: usize,
        index: usize,
        instruction: Instruction,
    ) -> usize
        requires { number < length plain.now.functions }
        ensures value { result ≡ length (front_by plain.now number self.now index instruction) }
        ensures few { result ≤ limits.MOST_HOISTED + 1 }
    {
        let all_hoisted = self.all_hoisted_at(plain, number, index, instruction);
        match self.duplicate_at(plain, number, index, instruction) {
            Some(_) => all_hoisted + 1,
            None => all_hoisted,
        }
    }
}

/// Returns the larger of two numbers.
pub(crate) fn larger(left: usize, right: usize) -> usize
    ensures left { left ≤ result }
    ensures right { right ≤ result }
    ensures either { (result ≡ left) ⊎ (result ≡ right) }
{
    if left < right { right } else { left }
}

/// Returns the instruction of a function at the given index.
pub(crate) fn instruction_at(function: &Function, index: usize) -> Instruction
    requires { index < length function.now.code.items }
    ensures { At (routine_of function.now).code index result }
{
    function.code[index]
}

/// Chooses the calls of a function to inline.
pub(crate) fn choose(
    alloc: Global,
    plain: &Plain,
    leafs: &[usize],
    number: usize,
) -> Result<Choice, AllocError>
    requires plain { IsPlain plain.now }
    requires leafs { AreLeafs plain.now leafs.now }
    requires number { number < length plain.now.functions }
    ensures { IfOk result (λ choice. AreChosen plain.now (routine_at plain.now number) choice.chosen.items choice.slots) }
{
    let function = plain.function(number);
    let mut choice = Choice::new(alloc, function.slots);
    if function.frame_count <= MOST_FRAME_WORDS {
        for index in 0..function.code.len() {
            let instruction = instruction_at(function, index);
            choice.add(need_of(plain, leafs, number, instruction))?;
        }
    }
    Ok(choice)
}

/// Chooses instructions to duplicate and to hoist, but no call to inline; it chooses none if the extra slots would
/// make the frame too large.
pub(crate) fn choose_duplicates(
    alloc: Global,
    plain: &Plain,
    number: usize,
    duplicates: Duplicates,
) -> Option<Choice>
    requires { number < length plain.now.functions }
    ensures { IfSome result (λ choice. AreChosen plain.now (routine_at plain.now number) choice.chosen.items choice.slots) }
{
    let function = plain.function(number);
    let slots = duplicates.slots;
    if function.frame_count > MOST_FRAME_WORDS || slots < function.slots {
        return None;
    }
    if slots > MOST_FRAME_WORDS - LAYOUT_WORDS {
        return None;
    }
    Some(Choice {
        chosen: Vec::new(alloc),
        duplicates: duplicates.wanted,
        all_hoisted: duplicates.all_hoisted,
        slots,
        growth: 0,
    })
}
