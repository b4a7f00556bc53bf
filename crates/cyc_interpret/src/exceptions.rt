//! Exceptions.

ghost use Rattle.std.specs.Prelude.{◌≡◌, OnOk, drop, option_map};
ghost use Rattle.cyc_types.specs.TypedTreeView.{view_expression, view_statement, items_of, clauses_of, default_of};
ghost use Rattle.cyc_meaning.specs.Exceptions.{throws, throws_value, tries, catches, step_catching};
ghost use Rattle.cyc_interpret.specs.WorldView.{view_value};
ghost use Rattle.cyc_interpret.specs.View.{stack_of, environment_of, world_of, state_of};

use crate::entry::{Entry, Focus};
use crate::machine::Machine;
use crate::value::{Operand, Value};
use cyc_types::typed::{Body, Clause, Expr, Item, Kind, Stmt};
use std::alloc::AllocError;

impl<'a> Machine<'a> {
    /// An exception without an int has 0.
    pub(crate) fn raise(&mut self, tag: usize, value: &'a Option<Expr>) -> Result<(), AllocError>
        ensures { OnOk result (state_of self.new ≡ throws tag (option_map view_expression value.now) (stack_of self.old) (environment_of self.old) (world_of self.old)) }
    {
        match value {
            None => self.go(Focus::Throwing { tag, value: 0 }),
            Some(value) => {
                self.stack.push(Entry::ThrowWith { tag })?;
                self.go(Focus::Evaluating { value });
            }
        }
        Ok(())
    }

    pub(crate) fn raise_with(&mut self, tag: usize, value: Value)
        ensures { state_of self.new ≡ throws_value tag (view_value value) (stack_of self.old) (environment_of self.old) (world_of self.old) }
    {
        match value {
            Value::Int { word } => self.go(Focus::Throwing { tag, value: word }),
            _ => self.fail(),
        }
    }

    pub(crate) fn attempt(
        &mut self,
        body: &'a Stmt,
        clauses: &'a Vec<Clause>,
        default: &'a Option<Body>,
    ) -> Result<(), AllocError>
        ensures { OnOk result (state_of self.new ≡ tries (view_statement body.now) (clauses_of clauses.now.items (default_of default.now)) (stack_of self.old) (environment_of self.old) (world_of self.old)) }
    {
        self.stack.push(Entry::Handler {
            clauses,
            from: 0,
            default,
        })?;
        self.go(Focus::Executing { statement: body });
        Ok(())
    }

    /// The items of a clause are a block. The local that gets the exception's int is in it.
    fn handle(
        &mut self,
        value: u32,
        number: Option<usize>,
        items: &'a Vec<Item>,
    ) -> Result<(), AllocError>
        ensures { OnOk result (state_of self.new ≡ catches value number (items_of items.now.items) (stack_of self.old) (environment_of self.old) (world_of self.old)) }
    {
        match number {
            None => self.enter_block(items)?,
            Some(number) => {
                self.open()?;
                self.go(Focus::Naming {
                    number,
                    operand: Operand {
                        kind: Kind::Int,
                        value: Value::Int { word: value },
                    },
                    items,
                    from: 0,
                });
            }
        }
        Ok(())
    }

    /// The clauses of a `try` are tried one by one, from this one on.
    pub(crate) fn catch(
        &mut self,
        tag: usize,
        value: u32,
        clauses: &'a Vec<Clause>,
        from: usize,
        default: &'a Option<Body>,
    ) -> Result<(), AllocError>
        ensures { OnOk result (state_of self.new ≡ step_catching tag value (clauses_of (drop from clauses.now.items) (default_of default.now)) (stack_of self.old) (environment_of self.old) (world_of self.old)) }
    {
        match clauses.get(from) {
            None => match default {
                None => self.go(Focus::Throwing { tag, value }),
                Some(body) => self.handle(value, None, &body.items)?,
            },
            Some(clause) => {
                if clause.tag == tag {
                    self.handle(value, clause.number, &clause.items)?;
                } else {
                    self.go(Focus::Catching {
                        tag,
                        value,
                        clauses,
                        from: from + 1,
                        default,
                    });
                }
            }
        }
        Ok(())
    }
}
