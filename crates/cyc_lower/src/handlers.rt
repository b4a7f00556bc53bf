//! Emits the code of exceptions: throws, and the catch clauses of a `try`. Each method of this file appends code to the existing code.
ghost use Rattle.std.specs.Prelude.{◌≡◌, ◌+◌, ◌≤◌, ◌<◌, [], ◌∷◌, ◌++◌, length, set, option_map, IfOk, OnOk};
ghost use Rattle.cyc_types.specs.TypedTrees.{NoClauses};
ghost use Rattle.cyc_types.specs.TypedTreeView.{view_expression, items_of, clauses_of, default_of};
ghost use Rattle.cyc_meaning.specs.FrameCount.{kept_by_items, kept_by_clauses};
ghost use Rattle.cyc_lower_proof.specs.inside.ControlCode.{other_jump, goes_on};
ghost use Rattle.cyc_lower_proof.specs.inside.Lowering.{clauses_code, caught_code};
ghost use Rattle.cyc_lower.specs.inside.Emission.{Appends, most_locals, throw_code, case_code, BeginClauses, view_starts};

use crate::emitter::Emitter;
use crate::locals::slot_of;
use crate::operators::{goes_on, other_jump, tag_operand};
use crate::starts::Starts;
use cyc_lower_proof::Exits;
use cyc_plain::{Instruction, Operand};
use cyc_types::typed::{Body, Clause, Expr};
use std::alloc::AllocError;

impl Emitter {
    /// Emits the throw of an exception with its value, or with 0 if the exception carries no int.
    pub(crate) fn lower_throw(
        &mut self,
        starts: &Starts,
        tag: usize,
        value: &Option<Expr>,
        free: usize,
    ) -> Result<(), AllocError>
        requires { free ≤ most_locals + length self.old.code.items }
        ensures { Appends result self.old self.new (throw_code (view_starts starts.now) tag (option_map view_expression value.now)
            (length self.old.code.items) free) }
    {
        let value = match value {
            Some(value) => self.lower_operand(starts, value, free)?,
            None => Operand::Word { word: 0 },
        };
        self.emit(Instruction::Throw {
            tag: tag_operand(tag),
            value,
        })
    }

    /// Emits the move of the value of an exception to the local of a catch clause.
    fn lower_caught(
        &mut self,
        starts: &Starts,
        number: Option<usize>,
        free: usize,
    ) -> Result<(), AllocError>
        requires { free ≤ most_locals }
        ensures { Appends result self.old self.new (caught_code (view_starts starts.now) number free) }
    {
        let Some(number) = number else {
            return Ok(());
        };
        self.emit(Instruction::Move {
            destination: slot_of(starts, number),
            source: Operand::Slot { number: free + 1 },
        })
    }

    /// Emits a catch clause. At the end of a catch clause, a jump goes to the instruction that jumps over all catch clauses of the `try`.
    #[cycle(statement)]
    fn lower_clause(
        &mut self,
        starts: &Starts,
        clause: &Clause,
        out: usize,
        exits: Exits,
        free: usize,
    ) -> Result<(), AllocError>
        requires slots { free + kept_by_items (items_of clause.now.items.items) ≤ most_locals }
        requires begun { exits.head ≤ length self.old.code.items }
        ensures { Appends result self.old self.new (case_code (view_starts starts.now) clause.now.tag clause.now.number
            (items_of clause.now.items.items) (length self.old.code.items) out exits free) }
    {
        let over = self.reserve()?;
        self.lower_caught(starts, clause.number, free)?;
        self.lower_items(starts, &clause.items, exits, free)?;
        self.emit(Instruction::Jump { target: out })?;
        let target = self.place();
        self.patch(over, other_jump(clause.tag, free, target));
        Ok(())
    }

    /// Emits the catch clauses of a `try` that precede its default clause.
    #[cycle(statement)]
    pub(crate) fn lower_clauses(
        &mut self,
        starts: &Starts,
        clauses: &[Clause],
        out: usize,
        exits: Exits,
        free: usize,
    ) -> Result<(), AllocError>
        requires slots { free + kept_by_clauses (clauses_of clauses.now NoClauses) ≤ most_locals }
        requires begun { exits.head ≤ length self.old.code.items }
        ensures { OnOk result (BeginClauses (view_starts starts.now) clauses.now out exits free self.old.code.items self.new.code.items) }
    {
        for clause in clauses {
            self.lower_clause(starts, clause, out, exits, free)?;
        }
        Ok(())
    }

    /// Emits the default clause of a `try`. Without a default clause, an exception that no catch clause of the `try`
    /// catches is thrown again.
    #[cycle(statement)]
    pub(crate) fn lower_default(
        &mut self,
        starts: &Starts,
        default: &Option<Body>,
        exits: Exits,
        free: usize,
    ) -> Result<(), AllocError>
        requires slots { free + kept_by_clauses (default_of default.now) ≤ most_locals }
        requires begun { exits.head ≤ length self.old.code.items }
        ensures { Appends result self.old self.new (clauses_code (view_starts starts.now) (default_of default.now) (length self.old.code.items) 0 exits free) }
    {
        match default {
            Some(body) => self.lower_items(starts, &body.items, exits, free),
            None => self.emit(goes_on(free)),
        }
    }

    /// Emits the end of the body of a `try`: it closes the handler and jumps over the catch clauses. Puts the instruction that opens the
    /// handler at the reserved position.
    pub(crate) fn end_body(&mut self, opening: usize, free: usize) -> Result<usize, AllocError>
        requires { opening < length self.old.code.items }
        ensures { IfOk result (λ out. (out ≡ length self.old.code.items + 1)
            × (self.new.code.items ≡ set (self.old.code.items ++ Instruction.Leave free ∷ Instruction.Jump 0 ∷ []) opening
            (Instruction.Try free (length self.old.code.items + 2)))) }
    {
        self.emit(Instruction::Leave { first: free })?;
        let out = self.reserve()?;
        let handler = self.place();
        self.patch(
            opening,
            Instruction::Try {
                first: free,
                handler,
            },
        );
        Ok(out)
    }
}
