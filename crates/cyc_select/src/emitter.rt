//! The emitter, which holds the MIPS lines emitted so far.
ghost use Rattle.std.specs.Prelude.{◌≡◌, [], ◌∷◌, IfOk, OnOk};
ghost use Rattle.cyc_isa.specs.Decoding.{register_of};
ghost use Rattle.cyc_select.specs.declared.code.Condition.TheVariants as conditions;
ghost use Rattle.cyc_select.specs.declared.code.Line.TheVariants as lines;
ghost use Rattle.cyc_select.specs.inside.Selection.{ordinary};
ghost use Rattle.cyc_select.specs.inside.Emission.{AddsLines};

use crate::code::{Condition, Line};
use crate::instructions::register;
use cyc_isa::{BranchOp, Instr};
use std::alloc::{AllocError, Global};

/// The MIPS lines of a program that have been emitted so far.
#[derive(Drop)]
pub(crate) struct Emitter {
    pub(crate) lines: Vec<Line>,
}

impl Emitter {
    /// Returns an emitter without lines, with capacity for `room` lines.
    pub(crate) fn new(alloc: Global, room: usize) -> Result<Emitter, AllocError>
        ensures { IfOk result (λ emitter. emitter.lines.items ≡ []) }
    {
        Ok(Emitter {
            lines: Vec::with_capacity(alloc, room)?,
        })
    }

    /// Appends one line.
    pub(crate) fn line(&mut self, line: Line) -> Result<(), AllocError>
        ensures { AddsLines result self.old self.new (line ∷ []) }
    {
        self.lines.push(line)?;
        Ok(())
    }

    /// Appends a branch to a label that compares two registers.
    pub(crate) fn branch(
        &mut self,
        op: BranchOp,
        left: u8,
        right: u8,
        label: usize,
    ) -> Result<(), AllocError>
        ensures { AddsLines result self.old self.new (lines.Branch (conditions.Registers op (register_of left) (register_of right)) label ∷ []) }
    {
        let condition = Condition::Registers {
            op,
            left: register(left),
            right: register(right),
        };
        self.line(Line::Branch { condition, label })
    }

    /// Appends one line for each of these instructions.
    pub(crate) fn ordinary(&mut self, instructions: &[Instr]) -> Result<(), AllocError>
        ensures { AddsLines result self.old self.new (ordinary instructions.now) }
    {
        for instruction in instructions {
            self.line(Line::Ordinary {
                instruction: *instruction,
            })?;
        }
        Ok(())
    }
}
