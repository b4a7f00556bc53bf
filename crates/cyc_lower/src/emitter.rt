//! Code under construction.
ghost use Rattle.std.specs.Prelude.{◌≡◌, ◌<◌, ◌≤◌, [], ◌∷◌, ◌++◌, length, set, take, IfOk};
ghost use Rattle.cyc_types.specs.TypedTreeView.{view_lvalue};
ghost use Rattle.cyc_lower_proof.specs.inside.ControlCode.{failing_jump};
ghost use Rattle.cyc_lower_proof.specs.inside.ExpressionCode.{load_code};
ghost use Rattle.cyc_lower_proof.specs.inside.Lowering.{target_of, farthest, turned, IsTurned, AreTurned};
ghost use Rattle.cyc_lower.specs.inside.Emission.{Appends, view_starts};

use crate::globals::global_of;
use crate::locals::slot_of;
use crate::marks::Mark;
use crate::operators::{failing_jump, move_of};
use crate::starts::Starts;
use cyc_lower_proof::Condition;
use cyc_plain::{Instruction, Operand};
use cyc_types::typed::Lvalue;
use cyc_words::Span;
use std::alloc::{AllocError, Global};

/// Returns the jump target of an instruction, or 0 if it has none.
fn target_of(instruction: &Instruction) -> usize
    ensures { result ≡ target_of instruction.now }
{
    match instruction {
        Instruction::Jump { target } | Instruction::Branch { target, .. } => *target,
        Instruction::Try { handler, .. } => *handler,
        _ => 0,
    }
}

/// Returns the instruction with its jump target changed: a target at a distance after `far` is replaced by the one at this distance after
/// `near`.
fn turned(instruction: Instruction, far: usize, near: usize) -> Instruction
    requires { near ≤ far }
    ensures { result ≡ turned far near instruction }
{
    match instruction {
        Instruction::Jump { target } => Instruction::Jump {
            target: target.saturating_sub(far) + near,
        },
        Instruction::Branch {
            comparison,
            left,
            right,
            target,
        } => Instruction::Branch {
            comparison,
            left,
            right,
            target: target.saturating_sub(far) + near,
        },
        _ => instruction,
    }
}

/// Replaces the target of an instruction, if it is after `far`, by the one at the same distance after `near`.
fn turn(instruction: &mut Instruction, far: usize, near: usize)
    requires { near ≤ far }
    ensures { IsTurned far near instruction.old instruction.new }
{
    if target_of(instruction) > far {
        *instruction = turned(*instruction, far, near);
    }
}

/// The code of a function under construction, and the source position for which it is emitted.
#[derive(Drop)]
pub(crate) struct Emitter {
    pub(crate) code: Vec<Instruction>,
    pub(crate) marks: Vec<Mark>,
    /// The source position that is recorded for the instructions emitted next.
    here: Span,
    /// True if the emitter records the source positions of instructions.
    is_marked: bool,
}

impl Emitter {
    /// Returns an emitter without code, for a function whose name is at this source position. If `is_marked` is true, the emitter
    /// records the source positions of instructions.
    pub(crate) fn new(alloc: Global, name: Span, is_marked: bool) -> Emitter
        ensures { result.code.items ≡ [] }
    {
        Emitter {
            code: Vec::new(alloc),
            marks: Vec::new(alloc),
            here: name,
            is_marked,
        }
    }

    /// Sets the source position of the following instructions, if one is given. Returns the previous source position.
    pub(crate) fn enter(&mut self, place: Option<Span>) -> Span
        ensures { self.new.code.items ≡ self.old.code.items }
    {
        let outer = self.here;
        if let Some(place) = place {
            self.here = place;
        }
        outer
    }

    /// Sets the source position of the following instructions back to that of the enclosing construct.
    pub(crate) fn leave(&mut self, outer: Span)
        ensures { self.new.code.items ≡ self.old.code.items }
    {
        self.here = outer;
    }

    /// Records the source position of the next instruction if it differs from that of the previous one.
    fn mark(&mut self) -> Result<(), AllocError>
        ensures { self.new.code.items ≡ self.old.code.items }
    {
        if !self.is_marked {
            return Ok(());
        }
        match self.marks.last() {
            Some(mark) if mark.span == self.here => Ok(()),
            _ => {
                let mark = Mark {
                    first: self.code.len(),
                    span: self.here,
                };
                self.marks.push(mark)?;
                Ok(())
            }
        }
    }

    /// Returns the position of the next instruction in the code.
    pub(crate) fn place(&self) -> usize
        ensures { result ≡ length self.now.code.items }
    {
        self.code.len()
    }

    /// Returns the farthest jump target in the code.
    pub(crate) fn farthest(&self) -> usize
        ensures { result ≡ farthest self.now.code.items }
    {
        let mut place = 0;
        for instruction in &self.code {
            let target = target_of(instruction);
            if target > place {
                place = target;
            }
        }
        place
    }

    /// Replaces each target after `far` by the one at the same distance after `near`, which is nearer.
    pub(crate) fn settle(&mut self, far: usize, near: usize)
        requires { near ≤ far }
        ensures { AreTurned far near self.old.code.items self.new.code.items }
    {
        for instruction in self.code.iter_mut() {
            turn(instruction, far, near);
        }
    }

    /// Adds one instruction.
    pub(crate) fn emit(&mut self, instruction: Instruction) -> Result<(), AllocError>
        ensures { Appends result self.old self.new (instruction ∷ []) }
    {
        self.mark()?;
        self.code.push(instruction)?;
        Ok(())
    }

    /// Appends two instructions in one call, so that a caller handles lack of memory once instead of twice.
    pub(crate) fn emit_both(
        &mut self,
        first: Instruction,
        second: Instruction,
    ) -> Result<(), AllocError>
        ensures { Appends result self.old self.new (first ∷ second ∷ []) }
    {
        self.emit(first)?;
        self.emit(second)
    }

    /// Adds three instructions.
    pub(crate) fn emit_three(
        &mut self,
        first: Instruction,
        second: Instruction,
        third: Instruction,
    ) -> Result<(), AllocError>
        ensures { Appends result self.old self.new (first ∷ second ∷ third ∷ []) }
    {
        self.emit_both(first, second)?;
        self.emit(third)
    }

    /// Replaces the instruction at a position of the code.
    pub(crate) fn patch(&mut self, place: usize, instruction: Instruction)
        requires { place < length self.old.code.items }
        ensures { self.new.code.items ≡ set self.old.code.items place instruction }
    {
        self.code[place] = instruction;
    }

    /// Reserves the position of the next instruction for a jump whose target is not yet known.
    pub(crate) fn reserve(&mut self) -> Result<usize, AllocError>
        ensures { IfOk result (λ place. (place ≡ length self.old.code.items) × (self.new.code.items ≡ self.old.code.items ++ Instruction.Jump 0 ∷ [])) }
    {
        let place = self.place();
        self.emit(Instruction::Jump { target: 0 })?;
        Ok(place)
    }

    /// Removes the recorded source positions of instructions that no longer exist.
    fn drop_marks(&mut self, place: usize)
        ensures { self.new.code.items ≡ self.old.code.items }
    {
        for _ in 0..self.marks.len() {
            match self.marks.last() {
                Some(mark) if mark.first >= place => {
                    let _ = self.marks.pop();
                }
                _ => return,
            }
        }
    }

    /// Removes the code from a position on.
    pub(crate) fn take_back(&mut self, place: usize)
        ensures { self.new.code.items ≡ take place self.old.code.items }
    {
        self.code.truncate(place);
        self.drop_marks(place);
    }

    /// Puts a jump to the next instruction at a reserved position.
    pub(crate) fn jump_here(&mut self, place: usize)
        requires { place < length self.old.code.items }
        ensures { self.new.code.items ≡ set self.old.code.items place (Instruction.Jump (length self.old.code.items)) }
    {
        let target = self.place();
        self.patch(place, Instruction::Jump { target });
    }

    /// Puts a jump to the next instruction, taken if a condition fails, at a reserved position.
    pub(crate) fn jump_here_if_failing(&mut self, place: usize, condition: Condition)
        requires { place < length self.old.code.items }
        ensures { self.new.code.items ≡ set self.old.code.items place (failing_jump condition (length self.old.code.items)) }
    {
        let target = self.place();
        self.patch(place, failing_jump(condition, target));
    }

    /// Emits the load of a variable's or a cell's value, with this number of words, into slots.
    pub(crate) fn load(
        &mut self,
        starts: &Starts,
        words: usize,
        source: Lvalue,
        slot: usize,
    ) -> Result<(), AllocError>
        ensures { Appends result self.old self.new (load_code (view_starts starts.now) words (view_lvalue source) slot) }
    {
        match source {
            Lvalue::Local { number, .. } => self.emit(move_of(
                words,
                slot,
                Operand::Slot {
                    number: slot_of(starts, number),
                },
            )),
            Lvalue::Global { number } => self.load_global(words, global_of(starts, number), slot),
        }
    }
}
