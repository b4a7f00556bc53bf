//! Parts of which steps are made.
ghost use Rattle.std.specs.Prelude.{◌≡◌, ◌∷◌, OnOk};
ghost use Rattle.cyc_types.specs.TypedTreeView.{view_expression, view_statement};
ghost use Rattle.cyc_meaning.specs.State.{Running};
ghost use Rattle.cyc_meaning.specs.Parts.{wrong, dead, gives, computed};
ghost use Rattle.cyc_meaning.specs.Step.{tests, chosen, looped};
ghost use Rattle.cyc_interpret.specs.WorldView.{view_value, view_outcome};
ghost use Rattle.cyc_interpret.specs.View.{view_focus, stack_of, environment_of, world_of, state_of};

use crate::entry::{Entry, Focus, Over, Phase};
use crate::machine::Machine;
use crate::value::{Operand, Outcome, Value};
use cyc_types::typed::{Expr, Kind, Stmt};
use std::alloc::AllocError;

impl<'a> Machine<'a> {
    /// No case applies.
    pub(crate) fn fail(&mut self)
        ensures { state_of self.new ≡ wrong (world_of self.old) }
    {
        self.phase = Phase::Over { end: Over::Wrong };
    }

    /// What is touched is closed or freed.
    pub(crate) fn die(&mut self)
        ensures { state_of self.new ≡ dead (world_of self.old) }
    {
        self.phase = Phase::Over { end: Over::Dead };
    }

    /// This is done next.
    pub(crate) fn go(&mut self, focus: Focus<'a>)
        ensures { state_of self.new ≡ Running (view_focus focus.entry) (stack_of self.old) (environment_of self.old) (world_of self.old) }
    {
        self.phase = Phase::Running { focus };
    }

    /// A value is passed on.
    pub(crate) fn give(&mut self, kind: Kind, value: Value)
        ensures { state_of self.new ≡ gives kind (view_value value) (stack_of self.old) (environment_of self.old) (world_of self.old) }
    {
        self.go(Focus::Given {
            operand: Operand { kind, value },
        });
    }

    /// What was computed is passed on, or its exception is thrown.
    pub(crate) fn compute(&mut self, kind: Kind, outcome: Outcome)
        ensures { state_of self.new ≡ computed kind (view_outcome outcome) (stack_of self.old) (environment_of self.old) (world_of self.old) }
    {
        match outcome {
            Outcome::Gives { value } => self.give(kind, value),
            Outcome::Raises { tag } => self.go(Focus::Throwing { tag, value: 0 }),
            Outcome::Misfits => self.fail(),
        }
    }

    /// The condition of a loop is evaluated.
    pub(crate) fn test(&mut self, condition: &'a Expr, body: &'a Stmt) -> Result<(), AllocError>
        ensures { OnOk result (state_of self.new ≡ tests (view_expression condition.now) (view_statement body.now) (stack_of self.old) (environment_of self.old) (world_of self.old)) }
    {
        self.stack.push(Entry::Test { condition, body })?;
        self.go(Focus::Evaluating { value: condition });
        Ok(())
    }

    /// The first statement if a condition holds, and the second if it fails.
    pub(crate) fn choose(
        &mut self,
        fails: Option<bool>,
        first: &'a Stmt,
        second: &'a Stmt,
    ) -> Result<(), AllocError>
        ensures { OnOk result (state_of self.new ≡ chosen fails (view_statement first.now) (view_statement second.now) (stack_of self.old) (environment_of self.old) (world_of self.old)) }
    {
        match fails {
            None => self.fail(),
            Some(fails) => {
                self.stack.push(Entry::Join)?;
                self.go(Focus::Executing {
                    statement: if fails { second } else { first },
                });
            }
        }
        Ok(())
    }

    /// The body of a loop if its condition holds.
    pub(crate) fn repeat(
        &mut self,
        fails: Option<bool>,
        condition: &'a Expr,
        body: &'a Stmt,
    ) -> Result<(), AllocError>
        ensures { OnOk result (state_of self.new ≡ looped fails (view_expression condition.now) (view_statement body.now) (stack_of self.old) (environment_of self.old) (world_of self.old)) }
    {
        match fails {
            None => self.fail(),
            Some(true) => self.go(Focus::Proceeding),
            Some(false) => {
                self.stack.push(Entry::Loop { condition, body })?;
                self.go(Focus::Executing { statement: body });
            }
        }
        Ok(())
    }
}
