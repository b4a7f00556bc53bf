//! Searches for the facts at the positions of code regions with loops. The search for facts is unverified: a verified
//! check then accepts or rejects the facts that it finds.
ghost use Rattle.std.specs.Prelude.{◌<◌, length};

use crate::entry::{Entry, come_to, enter, no_entries};
use crate::fact::Fact;
use crate::facts::Facts;
use crate::jumps::{is_end, target_of};
use crate::known::is_unreached;
use crate::outcomes::made;
use crate::replacement::put_at;
use crate::walk::come_after;
use cyc_plain::{Function, Instruction, Plain};
use std::alloc::{AllocError, Global};

/// The greatest number of passes over a code region with loops.
const ROUNDS: usize = 4;

/// For a code position, says if it is a loop header or an exception handler, and from where code jumps back to it.
#[derive(Clone, Copy)]
struct Head {
    is_head: bool,
    /// The furthest position that jumps back to this one, or this position if none does.
    jumped_from: usize,
}

/// A code region: the range of code positions up to `end`. No jump enters or leaves a code region, except to positions where a run ends.
#[derive(Clone, Copy)]
pub(crate) struct Region {
    first: usize,
    pub(crate) end: usize,
    /// True if the code region contains a loop header, so that the unverified search must find the facts at its positions.
    pub(crate) is_searched: bool,
}

/// The state of the unverified search for the facts at the positions of a function's code.
#[derive(Drop)]
pub(crate) struct Search {
    heads: Vec<Head>,
    /// The guessed facts at each position; empty if the code has no loop header.
    pub(crate) guesses: Vec<Entry>,
    facts: Facts,
    /// The facts known at the beginning of the current code region.
    before: Vec<Fact>,
    /// The current region.
    pub(crate) region: Region,
    /// True if the search makes only one pass over a code region; after that pass the facts guessed for loop headers are right or dropped.
    is_short: bool,
}

/// Returns the furthest position to which the instruction at `index` jumps, or from which code jumps back to it.
fn furthest(heads: &[Head], code: &[Instruction], instruction: Instruction, index: usize) -> usize {
    let back = match heads.get(index) {
        Some(head) => head.jumped_from,
        None => index,
    };
    match target_of(instruction) {
        Some(target) => {
            if target > back && !is_end(code, target) {
                target
            } else {
                back
            }
        }
        None => back,
    }
}

fn is_head(heads: &[Head], place: usize) -> bool {
    match heads.get(place) {
        Some(head) => head.is_head,
        None => false,
    }
}

/// Returns the code region that begins at a position.
fn region_at(heads: &[Head], code: &[Instruction], first: usize) -> Region {
    let mut last = first;
    let mut has_head = false;
    for index in first..code.len() {
        let place = furthest(heads, code, code[index], index);
        if last < place {
            last = place;
        }
        has_head = has_head || is_head(heads, index);
        if last <= index {
            return Region {
                first,
                end: index + 1,
                is_searched: has_head,
            };
        }
    }
    Region {
        first,
        end: code.len(),
        is_searched: has_head,
    }
}

/// Marks a position as the target of a jump from a later one.
fn mark(heads: &mut Vec<Head>, place: usize, from: usize) {
    if let Some(head) = heads.get_mut(place) {
        head.is_head = true;
        head.jumped_from = from;
    }
}

/// Returns true if an instruction jumps back to a loop header or declares a handler.
fn has_head(instruction: Instruction, index: usize) -> bool {
    match instruction {
        Instruction::Jump { target } => target <= index,
        Instruction::Branch { target, .. } => target <= index,
        Instruction::Try { .. } => true,
        _ => false,
    }
}

/// Returns the number of positions up to the last instruction that jumps back to a loop header or declares a handler.
fn count_to_declarations(code: &[Instruction]) -> usize {
    let mut count = 0;
    for index in 0..code.len() {
        if has_head(code[index], index) {
            count = index + 1;
        }
    }
    count
}

/// Returns, for each position up to the last backward jump, if it is a loop header or an exception handler.
fn collected_program(alloc: Global, code: &[Instruction]) -> Result<Vec<Head>, AllocError> {
    let count = count_to_declarations(code);
    let mut heads = Vec::with_capacity(alloc, count)?;
    for index in 0..count.min(code.len()) {
        heads.push(Head {
            is_head: false,
            jumped_from: index,
        })?;
        if let Some(target) = target_of(code[index]) {
            if target <= index {
                mark(&mut heads, target, index);
            }
        }
        if let Instruction::Try { .. } = code[index] {
            if let Some(head) = heads.get_mut(index) {
                head.is_head = true;
            }
        }
    }
    Ok(heads)
}

/// Returns an upper bound of the number of positions up to the end of the last code region with a loop header.
fn count_to_end(heads: &[Head], code: &[Instruction]) -> usize {
    let mut count = heads.len();
    for index in 0..code.len() {
        if count <= index {
            return count;
        }
        let place = furthest(heads, code, code[index], index);
        if count <= place && place < code.len() {
            count = place + 1;
        }
    }
    count
}

/// Marks a position as an exception handler. No fact is known at an exception handler, since exceptions can reach it from many positions.
fn close(entries: &mut Vec<Entry>, place: usize) {
    if let Some(entry) = entries.get_mut(place) {
        entry.is_target = true;
    }
}

/// Returns records of the facts at `count` positions. The facts at a position are undetermined at first,
/// except at exception handlers, where no fact is known.
fn unknown(alloc: Global, code: &[Instruction], count: usize) -> Result<Vec<Entry>, AllocError> {
    let mut guesses = no_entries(alloc, count)?;
    for index in 0..count.min(code.len()) {
        if let Instruction::Try { .. } = code[index] {
            close(&mut guesses, index);
        }
    }
    Ok(guesses)
}

impl Search {
    pub(crate) fn new(
        alloc: Global,
        code: &[Instruction],
        is_short: bool,
    ) -> Result<Search, AllocError> {
        let heads = collected_program(alloc, code)?;
        let guesses = unknown(alloc, code, count_to_end(&heads, code))?;
        Ok(Search {
            heads,
            guesses,
            facts: Facts::new(alloc),
            before: Vec::new(alloc),
            region: Region {
                first: 0,
                end: 0,
                is_searched: false,
            },
            is_short,
        })
    }

    /// Returns true if control may reach a position from elsewhere than the previous instruction.
    fn is_joined(&self, place: usize) -> bool {
        match self.guesses.get(place) {
            Some(guess) => guess.is_target || is_head(&self.heads, place),
            None => false,
        }
    }

    /// Joins the facts after the previous instruction into those of a position, if control can fall through to it.
    fn come_next(&mut self, code: &[Instruction], place: usize) -> Result<(), AllocError> {
        if !self.is_joined(place) {
            return Ok(());
        }
        if is_unreached(self.facts.all()) {
            self.facts.clear();
        } else {
            come_to(&mut self.guesses, code, place, self.facts.all(), None)?;
        }
        enter(&self.guesses, place, &mut self.facts)
    }

    /// Processes one instruction, unless it is unreachable. Returns true if the facts required at the target of its backward jump are known
    /// at the jump.
    fn pass(
        &mut self,
        plain: &Plain,
        function: &Function,
        pinned: &[bool],
        index: usize,
    ) -> Result<bool, AllocError>
        requires { index < length function.now.code.items }
    {
        if is_unreached(self.facts.all()) {
            return Ok(true);
        }
        let count = function.code.len();
        let instruction = put_at(&self.facts, index, count, function.code[index]);
        let mut is_settled = true;
        if let Some(target) = target_of(instruction) {
            let more = made(pinned, instruction, index, target);
            let facts = self.facts.all();
            let is_still = come_to(&mut self.guesses, &function.code, target, facts, more)?;
            is_settled = is_still || target > index;
        }
        come_after(plain, pinned, &mut self.facts, instruction, index)?;
        Ok(is_settled)
    }

    /// Makes one pass over a code region. Returns true if the facts at each loop header were known at the backward jumps to it.
    fn go_through(
        &mut self,
        plain: &Plain,
        function: &Function,
        pinned: &[bool],
    ) -> Result<bool, AllocError> {
        let mut is_settled = true;
        for index in self.region.first..function.code.len() {
            if index >= self.region.end {
                return Ok(is_settled);
            }
            if index > self.region.first {
                self.come_next(&function.code, index)?;
            }
            let is_still = self.pass(plain, function, pinned, index)?;
            is_settled = is_settled && is_still;
        }
        Ok(is_settled)
    }

    /// Resets the facts of a code region, except at loop headers and at positions where a run ends, which jumps from elsewhere may reach.
    /// Returns true if every loop header of the code region is reachable.
    fn forget(&mut self, code: &[Instruction]) -> bool {
        let mut are_led_to = true;
        for index in self.region.first..self.region.end {
            let is_head = is_head(&self.heads, index);
            if let Some(guess) = self.guesses.get_mut(index) {
                are_led_to = are_led_to && (guess.is_target || !is_head);
                guess.is_target = guess.is_target && (is_head || is_end(code, index));
            }
        }
        are_led_to
    }

    /// Drops the facts at loop headers and resets those at other positions of the code region.
    fn forget_heads(&mut self, code: &[Instruction]) {
        for index in self.region.first..self.region.end {
            let is_head = is_head(&self.heads, index);
            if let Some(guess) = self.guesses.get_mut(index) {
                guess.is_target = is_head || (guess.is_target && is_end(code, index));
                guess.facts.clear();
            }
        }
    }

    /// Merges the facts at backward jumps into those at the beginning of a code region.
    fn come_again(&mut self) -> Result<(), AllocError> {
        self.facts.replace(&self.before)?;
        if self.region.first > 0 {
            enter(&self.guesses, self.region.first, &mut self.facts)?;
        }
        Ok(())
    }

    /// Finds the facts at each jump target of a code region. If a search limited to one pass changes facts at a loop header, only the facts
    /// at loop headers are retained. The traversal that checks the facts then finds those at jump targets other than loop headers.
    fn settle(
        &mut self,
        plain: &Plain,
        function: &Function,
        pinned: &[bool],
    ) -> Result<(), AllocError> {
        self.before.clear();
        self.before.extend_from_slice(self.facts.all())?;
        for _ in 0..ROUNDS {
            if self.go_through(plain, function, pinned)? {
                return Ok(());
            }
            if self.forget(&function.code) && self.is_short {
                self.region.is_searched = false;
                return Ok(());
            }
            self.come_again()?;
        }
        self.forget_heads(&function.code);
        self.come_again()?;
        self.go_through(plain, function, pinned)?;
        Ok(())
    }

    /// Returns true if a code region begins at a position. Code without a loop header needs no region.
    pub(crate) fn begins_at(&self, place: usize) -> bool {
        place >= self.region.end && !self.heads.is_empty()
    }

    /// Begins a code region at a position where the given facts are known. The code after the last loop header forms one region.
    pub(crate) fn begin(
        &mut self,
        plain: &Plain,
        function: &Function,
        pinned: &[bool],
        facts: &[Fact],
        first: usize,
    ) -> Result<(), AllocError> {
        if first >= self.guesses.len() {
            self.region = Region {
                first,
                end: function.code.len(),
                is_searched: false,
            };
            return Ok(());
        }
        self.region = region_at(&self.heads, &function.code, first);
        if !self.region.is_searched {
            return Ok(());
        }
        self.facts.replace(facts)?;
        if first > 0 {
            self.come_next(&function.code, first)?;
        }
        self.settle(plain, function, pinned)
    }
}
