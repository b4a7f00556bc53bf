//! Emits inlined calls: the callee's code replaces the call, and part of it is placed out of line after the caller's code.
ghost use Rattle.std.specs.Prelude.{◌≡◌, ◌+◌, ◌*◌, ◌<◌, ◌≤◌, ◌^◌, IfOk, length, replicate, nat_lt, if◌then◌else◌, [], true, false};
ghost use Rattle.cyc_plain.specs.declared.limits.TheConstants.{GREATEST_VALUE};
ghost use Rattle.cyc_inline.specs.declared.limits.TheConstants.{MOST_LEAF_CODE};
ghost use Rattle.cyc_inline.specs.inside.Emission.{AddsCode, AddsOrigins, IsFitInside, IsFitSite};
ghost use Rattle.cyc_inline.specs.inside.Opened as opened;
ghost use Rattle.cyc_inline.specs.inside.Opened.{is_end};
ghost use Rattle.cyc_inline.specs.inside.Sites as sites;

use crate::emission::Emission;
use crate::moving::moved;
use crate::origin::Origin;
use cyc_plain::Instruction;
use std::alloc::{AllocError, Global};

/// An inlined call, with the operands of its call instruction.
#[derive(Clone, Copy)]
pub(crate) struct Call {
    /// The index of the called function.
    pub(crate) callee: usize,
    /// The first of the caller's slots that hold the arguments.
    pub(crate) arguments: usize,
    /// The number of words passed as arguments.
    pub(crate) count: usize,
    /// The first of the caller's slots that receive the results.
    pub(crate) result: usize,
    /// The number of the callee's instructions that are placed at the call. The caller continues after the last of
    /// the callee's instructions that are placed at the call.
    pub(crate) line: usize,
}

/// An inlined call, with the slots and code positions that are needed to emit its code.
#[derive(Clone, Copy)]
pub(crate) struct Site {
    pub(crate) call: Call,
    /// The first of the caller's slots that the callee's code uses.
    pub(crate) shift: usize,
    /// The number of words that the callee returns.
    pub(crate) results: usize,
    /// The code position at which the caller continues after the call.
    pub(crate) following: usize,
    /// The code position of those instructions of the callee that are placed after the caller's code.
    pub(crate) rest: usize,
}

/// Returns the call that the instruction makes, if it is chosen for inlining with `line` of the callee's instructions placed at the call.
pub(crate) fn chosen_call(instruction: Instruction, line: usize) -> Option<Call>
    ensures { result ≡ sites.chosen_call instruction line }
{
    match instruction {
        Instruction::Call {
            function,
            arguments,
            count,
            result,
        } => {
            if line == 0 {
                None
            } else {
                Some(Call {
                    callee: function,
                    arguments,
                    count,
                    result,
                    line,
                })
            }
        }
        _ => None,
    }
}

/// Returns true if an instruction of the callee is placed at the call or, if the other case is requested, after the caller's code.
fn stands_in(in_line: bool, line: usize, index: usize) -> bool
    ensures { result ≡ sites.stands_in in_line line index }
{
    if in_line { index < line } else { line <= index }
}

/// Returns the first of the slots that a return reads, or `None` if the instruction is not a return.
fn end_of(instruction: Instruction) -> Option<usize>
    ensures { result ≡ is_end instruction }
{
    match instruction {
        Instruction::Return { value } => Some(value),
        Instruction::Finish { value } => Some(value),
        _ => None,
    }
}

/// Returns the number of instructions that replace one of the callee's instructions.
fn inside_count(results: usize, line: usize, index: usize, instruction: Instruction) -> usize
    requires index { index + 1 < 2 ^ 64 }
    requires results { results ≤ GREATEST_VALUE }
    ensures value { result ≡ sites.inside_count results line index (is_end instruction) }
    ensures few { result ≤ 4 }
{
    match end_of(instruction) {
        Some(_) => {
            if index + 1 == line {
                results
            } else {
                results + 1
            }
        }
        None => 1,
    }
}

/// Returns the number of instructions that a callee's instruction contributes to the part placed at the call, or to the part
/// after the caller's code.
fn count_in(
    results: usize,
    line: usize,
    in_line: bool,
    index: usize,
    instruction: Instruction,
) -> usize
    requires index { index + 1 < 2 ^ 64 }
    requires results { results ≤ GREATEST_VALUE }
    ensures value { result ≡ sites.count_in results line in_line index (is_end instruction) }
    ensures few { result ≤ 4 }
{
    if stands_in(in_line, line, index) {
        inside_count(results, line, index, instruction)
    } else {
        0
    }
}

/// Returns the number of instructions that replace the callee's code: at the call, or after the caller's code.
pub(crate) fn inside_size(results: usize, line: usize, in_line: bool, code: &[Instruction]) -> usize
    requires results { results ≤ GREATEST_VALUE }
    requires few { length code.now ≤ MOST_LEAF_CODE }
    ensures value { result ≡ sites.inside_size results line in_line 0 code.now }
    ensures few { result ≤ length code.now * 4 }
{
    let mut size = 0;
    for index in 0..code.len() {
        size += count_in(results, line, in_line, index, code[index]);
    }
    size
}

/// Returns the next code position for a callee's instruction: `here` if it is placed at the call, `there` if it is placed after
/// the caller's code.
fn next_place(line: usize, index: usize, here: usize, there: usize) -> usize
    ensures { result ≡ (if nat_lt index line then here else there) }
{
    if index < line { here } else { there }
}

/// Returns the code position of each callee instruction, given where the part at the call and the part after the caller's code begin.
fn inside_places(
    alloc: Global,
    site: &Site,
    first: usize,
    code: &[Instruction],
) -> Result<Vec<usize>, AllocError>
    requires results { site.now.results ≤ GREATEST_VALUE }
    requires room { first + sites.inside_size site.now.results site.now.call.line true 0 code.now < 2 ^ 64 }
    requires rest { site.now.rest + sites.inside_size site.now.results site.now.call.line false 0 code.now < 2 ^ 64 }
    ensures { IfOk result (λ places. places.items ≡ sites.inside_places site.now.results site.now.call.line 0 first site.now.rest code.now) }
{
    let line = site.call.line;
    let results = site.results;
    let mut places = Vec::new(alloc);
    let mut here = first;
    let mut there = site.rest;
    for index in 0..code.len() {
        places.push(next_place(line, index, here, there))?;
        here += count_in(results, line, true, index, code[index]);
        there += count_in(results, line, false, index, code[index]);
    }
    Ok(places)
}

impl Emission {
    /// Appends the replacement of one instruction of the callee.
    fn push_inside(
        &mut self,
        site: &Site,
        places: &[usize],
        index: usize,
        instruction: Instruction,
    ) -> Result<(), AllocError>
        requires index { index + 1 < 2 ^ 64 }
        requires fits { IsFitInside site.now instruction }
        requires result { site.now.call.result + site.now.results < 2 ^ 64 }
        ensures code { AddsCode result self.old self.new (sites.inside_part site.now (sites.place_in places.now) index instruction (is_end instruction)) }
        ensures origins { AddsOrigins result self.old self.new
            (replicate (sites.inside_count site.now.results site.now.call.line index (is_end instruction))
            (opened.origin_at site.now.call.callee index)) }
    {
        let origin = Origin {
            function: site.call.callee,
            index,
        };
        match end_of(instruction) {
            Some(value) => {
                self.push_passing(site.call.result, site.shift + value, site.results, origin)?;
                if index + 1 == site.call.line {
                    Ok(())
                } else {
                    let target = site.following;
                    self.push(Instruction::Jump { target }, origin)
                }
            }
            None => self.push(moved(site.shift, places, instruction), origin),
        }
    }

    /// Appends the replacement of a callee's instruction, if the instruction is placed where code is being emitted:
    /// at the call, or after the caller's code.
    fn push_inside_in(
        &mut self,
        site: &Site,
        places: &[usize],
        in_line: bool,
        index: usize,
        instruction: Instruction,
    ) -> Result<(), AllocError>
        requires index { index + 1 < 2 ^ 64 }
        requires fits { IsFitInside site.now instruction }
        requires result { site.now.call.result + site.now.results < 2 ^ 64 }
        ensures code { AddsCode result self.old self.new (if sites.stands_in in_line site.now.call.line index
            then sites.inside_part site.now (sites.place_in places.now) index instruction (is_end instruction) else []) }
        ensures origins { AddsOrigins result self.old self.new
            (replicate (sites.count_in site.now.results site.now.call.line in_line index (is_end instruction))
            (opened.origin_at site.now.call.callee index)) }
    {
        if stands_in(in_line, site.call.line, index) {
            self.push_inside(site, places, index, instruction)
        } else {
            Ok(())
        }
    }

    /// Appends the replacement of the callee's code: of the instructions placed at the call, or of those placed after the caller's code.
    fn push_body(
        &mut self,
        site: &Site,
        places: &[usize],
        in_line: bool,
        code: &[Instruction],
    ) -> Result<(), AllocError>
        requires { IsFitSite site.now code.now }
        ensures code { AddsCode result self.old self.new (sites.inside_code site.now (sites.place_in places.now) in_line 0 code.now) }
        ensures origins { AddsOrigins result self.old self.new
            (sites.inside_origins site.now.call.callee site.now.results site.now.call.line in_line 0 code.now) }
    {
        for index in 0..code.len() {
            self.push_inside_in(site, places, in_line, index, code[index])?;
        }
        Ok(())
    }

    /// Appends the replacement of an inlined call: moves of the arguments, the check of stack space, and the callee's instructions placed
    /// at the call. If `in_line` is false, appends the callee's instructions placed after the caller's code instead.
    pub(crate) fn push_site(
        &mut self,
        alloc: Global,
        site: &Site,
        in_line: bool,
        here: usize,
        code: &[Instruction],
        origin: Origin,
    ) -> Result<(), AllocError>
        requires fits { IsFitSite site.now code.now }
        requires room { here + sites.site_size site.now.call site.now.results true code.now < 2 ^ 64 }
        requires rest { site.now.rest + sites.site_size site.now.call site.now.results false code.now < 2 ^ 64 }
        ensures code { AddsCode result self.old self.new (sites.site_code site.now in_line here code.now) }
        ensures origins { AddsOrigins result self.old self.new (sites.site_origins site.now.call site.now.results in_line origin code.now) }
    {
        let call = site.call;
        let places = inside_places(alloc, site, here + call.count + 1, code)?;
        if in_line {
            self.push_passing(site.shift, call.arguments, call.count, origin)?;
            let function = call.callee;
            self.push(Instruction::Enter { function }, origin)?;
            self.push_body(site, &places, true, code)
        } else {
            self.push_body(site, &places, false, code)
        }
    }
}
