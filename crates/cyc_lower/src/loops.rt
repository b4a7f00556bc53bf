//! Emits the code of loops. A light condition (simple enough to be emitted twice) is emitted before the body of its loop and again
//! after the body. No jump from before a loop with a light condition goes to the condition after the body.
ghost use Rattle.std.specs.Prelude.{◌≡◌, ◌≤◌, ◌<◌, ◌+◌, length};
ghost use Rattle.cyc_types.specs.TypedTreeView.{view_expression, view_statement};
ghost use Rattle.cyc_meaning.specs.FrameCount.{kept_by};
ghost use Rattle.cyc_lower_proof.specs.inside.Lowering.{goes_through};
ghost use Rattle.cyc_lower.specs.inside.Emission.{Appends, most_locals, view_starts, begun_loop, entered_loop, loop_code, through_loop};

use crate::breaks::breaks;
use crate::emitter::Emitter;
use crate::exits::nothing_opened;
use crate::operands::is_guard;
use crate::operators::holding_jump;
use crate::starts::Starts;
use cyc_lower_proof::Exits;
use cyc_plain::Instruction;
use cyc_types::typed::{Expr, LogicalOperator, Stmt};
use std::alloc::AllocError;

/// Returns true if a loop has a light condition (simple enough to be emitted twice) and no `break`.
pub(crate) fn goes_through(starts: &Starts, condition: &Expr, body: &Stmt) -> bool
    ensures { result ≡ goes_through (view_starts starts.now) (view_expression condition.now) (view_statement body.now) }
{
    is_guard(starts, condition) && !breaks(body)
}

impl Emitter {
    /// Emits the entry of a loop: its condition, and a jump over the next instruction if the condition holds. If the condition may have
    /// much code, the entry is a jump whose target is not yet known.
    fn begin_loop(
        &mut self,
        starts: &Starts,
        condition: &Expr,
        free: usize,
    ) -> Result<(), AllocError>
        requires { free ≤ most_locals + length self.old.code.items }
        ensures { Appends result self.old self.new (begun_loop (view_starts starts.now) (view_expression condition.now) (length self.old.code.items) free) }
    {
        if !is_guard(starts, condition) {
            return self.emit(Instruction::Jump { target: 0 });
        }
        let condition = self.lower_choice(starts, LogicalOperator::AndThen, condition, free)?;
        let body = self.place() + 2;
        self.emit(holding_jump(condition, body))
    }

    /// Sets the target of the entry of the loop that begins at position `head`: the loop's condition begins at the next instruction.
    fn enter_loop(&mut self, starts: &Starts, condition: &Expr, head: usize)
        requires { head < length self.old.code.items }
        ensures { self.new.code.items ≡ entered_loop (view_starts starts.now) (view_expression condition.now) self.old.code.items head }
    {
        if !is_guard(starts, condition) {
            self.jump_here(head);
        }
    }

    /// Emits a loop without a `break` whose condition is light (simple enough to be emitted twice). If the first copy of the
    /// condition fails, it jumps to the end of the loop.
    #[cycle(statement)]
    pub(crate) fn lower_through(
        &mut self,
        starts: &Starts,
        body: &Stmt,
        condition: &Expr,
        exits: Exits,
        free: usize,
    ) -> Result<(), AllocError>
        requires { free + kept_by (view_statement body.now) ≤ most_locals }
        ensures { Appends result self.old self.new (through_loop (view_starts starts.now) (view_expression condition.now) (view_statement body.now)
            (length self.old.code.items) exits free) }
    {
        let head = self.place();
        let first = self.lower_choice(starts, LogicalOperator::OrElse, condition, free)?;
        let over = self.reserve()?;
        let again = self.place();
        let inside = Exits {
            head,
            leaving: head,
            in_loop: nothing_opened(),
            in_function: exits.in_function,
        };
        self.lower_statement(starts, body, inside, free)?;
        let last = self.lower_choice(starts, LogicalOperator::AndThen, condition, free)?;
        self.emit(holding_jump(last, again))?;
        self.jump_here_if_failing(over, first);
        let end = self.place() + 1;
        self.emit(Instruction::Jump { target: end })
    }

    /// Emits a loop that has a `break`, or whose condition is not light (simple enough to be emitted twice). The jump to the loop's
    /// end is before its body, so the position of this jump is known before the body is emitted.
    #[cycle(statement)]
    pub(crate) fn lower_loop(
        &mut self,
        starts: &Starts,
        body: &Stmt,
        condition: &Expr,
        exits: Exits,
        free: usize,
    ) -> Result<(), AllocError>
        requires { free + kept_by (view_statement body.now) ≤ most_locals }
        ensures { Appends result self.old self.new (loop_code (view_starts starts.now) (view_expression condition.now) (view_statement body.now)
            (length self.old.code.items) exits free) }
    {
        let head = self.place();
        self.begin_loop(starts, condition, free)?;
        let leaving = self.reserve()?;
        let inside = Exits {
            head,
            leaving,
            in_loop: nothing_opened(),
            in_function: exits.in_function,
        };
        let again = self.place();
        self.lower_statement(starts, body, inside, free)?;
        self.enter_loop(starts, condition, head);
        let condition = self.lower_choice(starts, LogicalOperator::AndThen, condition, free)?;
        self.emit(holding_jump(condition, again))?;
        self.jump_here(leaving);
        Ok(())
    }
}
