//! Unwinding: each step leaves one entry. And a step, by cases of the focus.
ghost use Rattle.std.specs.Prelude.{◌≡◌, ◌∷◌, OnOk, drop, map, option_map};
ghost use Rattle.cyc_types.specs.TypeView.{view_ty};
ghost use Rattle.cyc_types.specs.TypedTreeView.{view_program, items_of};
ghost use Rattle.cyc_meaning.specs.Step.{step_breaking, step_continuing, step_returning, step_throwing, step_binding, stepped, step};
ghost use Rattle.cyc_interpret.specs.WorldView.{operands_of, view_operand};
ghost use Rattle.cyc_interpret.specs.View.{view_focus, stack_of, environment_of, world_of, state_of};

use crate::entry::{Entry, Focus, Over, Phase};
use crate::machine::Machine;
use crate::operators::{is_kind, kind_of};
use crate::value::{Operand, Value};
use cyc_types::TypedTree;
use cyc_types::typed::Function;
use std::alloc::AllocError;
use std::mem;

impl<'a> Machine<'a> {
    /// A parameter is a local that holds its argument.
    pub(crate) fn bind(
        &mut self,
        number: usize,
        function: &'a Function,
        arguments: Vec<Operand>,
    ) -> Result<(), AllocError>
        ensures { OnOk result (state_of self.new ≡ step_binding number (map view_ty (drop number function.now.parameters.items)) (operands_of (drop number arguments.items)) (items_of function.now.body.items) (stack_of self.old) (environment_of self.old) (world_of self.old)) }
    {
        match function.parameters.get(number) {
            None => match arguments.get(number) {
                None => {
                    self.stack.push(Entry::Rest {
                        items: &function.body,
                        from: 0,
                    })?;
                    self.go(Focus::Proceeding);
                }
                Some(_argument) => self.fail(),
            },
            Some(of_type) => match arguments.get(number) {
                None => self.fail(),
                Some(argument) => {
                    let argument = *argument;
                    if is_kind(argument.kind, kind_of(of_type)) {
                        if self.declare(number, kind_of(of_type), Some(argument.value))? {
                            self.go(Focus::Binding {
                                number: number + 1,
                                function,
                                arguments,
                            });
                        }
                    } else {
                        self.fail();
                    }
                }
            },
        }
        Ok(())
    }

    pub(crate) fn break_off(&mut self)
        ensures { state_of self.new ≡ step_breaking (stack_of self.old) (environment_of self.old) (world_of self.old) }
    {
        match self.stack.pop() {
            None | Some(Entry::Main) => self.fail(),
            Some(
                Entry::Caller {
                    environment: _environment,
                    ..
                },
            ) => self.fail(),
            Some(Entry::Loop { .. }) => self.go(Focus::Proceeding),
            Some(Entry::CloseRegion { region, home }) => {
                if self.close(region, home) {
                    self.go(Focus::Breaking);
                }
            }
            Some(Entry::CloseLexical { region }) => {
                if self.close_lexical(region) {
                    self.go(Focus::Breaking);
                }
            }
            Some(_entry) => self.go(Focus::Breaking),
        }
    }

    pub(crate) fn continue_on(&mut self) -> Result<(), AllocError>
        ensures { OnOk result (state_of self.new ≡ step_continuing (stack_of self.old) (environment_of self.old) (world_of self.old)) }
    {
        match self.stack.pop() {
            None | Some(Entry::Main) => self.fail(),
            Some(
                Entry::Caller {
                    environment: _environment,
                    ..
                },
            ) => self.fail(),
            Some(Entry::Loop { condition, body }) => self.test(condition, body)?,
            Some(Entry::CloseRegion { region, home }) => {
                if self.close(region, home) {
                    self.go(Focus::Continuing);
                }
            }
            Some(Entry::CloseLexical { region }) => {
                if self.close_lexical(region) {
                    self.go(Focus::Continuing);
                }
            }
            Some(_entry) => self.go(Focus::Continuing),
        }
        Ok(())
    }

    pub(crate) fn hand_back(&mut self, value: Option<Operand>) -> Result<(), AllocError>
        ensures { OnOk result (state_of self.new ≡ step_returning (option_map view_operand value) (stack_of self.old) (environment_of self.old) (world_of self.old)) }
    {
        match self.stack.pop() {
            None => self.fail(),
            Some(Entry::Main) => match value {
                Some(
                    Operand {
                        value: Value::Int { word },
                        ..
                    },
                ) => {
                    self.phase = Phase::Over {
                        end: Over::Returned {
                            value: word.cast_signed(),
                        },
                    };
                }
                _ => self.fail(),
            },
            Some(Entry::Caller { environment, .. }) => {
                self.environment = environment;
                match value {
                    Some(operand) => self.go(Focus::Given { operand }),
                    None => self.go(Focus::Proceeding),
                }
            }
            Some(Entry::CloseRegion { region, home }) => {
                if self.close(region, home) {
                    self.go(Focus::Returning { value });
                }
            }
            Some(Entry::CloseLexical { region }) => {
                if self.close_lexical(region) {
                    self.go(Focus::Returning { value });
                }
            }
            Some(_entry) => self.go(Focus::Returning { value }),
        }
        Ok(())
    }

    pub(crate) fn throw(&mut self, tag: usize, value: u32) -> Result<(), AllocError>
        ensures { OnOk result (state_of self.new ≡ step_throwing tag value (stack_of self.old) (environment_of self.old) (world_of self.old)) }
    {
        match self.stack.pop() {
            None => {
                self.phase = Phase::Over {
                    end: Over::Uncaught {
                        tag,
                        value: value.cast_signed(),
                    },
                };
            }
            Some(Entry::Caller { environment, .. }) => {
                self.environment = environment;
                self.go(Focus::Throwing { tag, value });
            }
            Some(Entry::CloseRegion { region, home }) => {
                if self.close(region, home) {
                    self.go(Focus::Throwing { tag, value });
                }
            }
            Some(Entry::CloseLexical { region }) => {
                if self.close_lexical(region) {
                    self.go(Focus::Throwing { tag, value });
                }
            }
            Some(
                Entry::Handler {
                    clauses,
                    from,
                    default,
                },
            ) => self.go(Focus::Catching {
                tag,
                value,
                clauses,
                from,
                default,
            }),
            Some(_entry) => self.go(Focus::Throwing { tag, value }),
        }
        Ok(())
    }

    fn act(&mut self, program: &'a TypedTree, focus: Focus<'a>) -> Result<(), AllocError>
        ensures { OnOk result (state_of self.new ≡ stepped (view_program program.now) (view_focus focus.entry) (stack_of self.old) (environment_of self.old) (world_of self.old)) }
    {
        match focus {
            Focus::Evaluating { value } => self.evaluate(value),
            Focus::Locating { place } => self.locate(program, place),
            Focus::Given { operand } => self.supply(operand),
            Focus::GivenPlace { place } => self.give_place(place),
            Focus::Executing { statement } => self.execute(statement),
            Focus::Proceeding => self.proceed(),
            Focus::Calling {
                callee,
                at,
                arguments,
            } => self.call(program, callee, at, arguments),
            Focus::Entering {
                function,
                arguments,
            } => self.enter(function, arguments),
            Focus::Binding {
                number,
                function,
                arguments,
            } => self.bind(number, function, arguments),
            Focus::Breaking => {
                self.break_off();
                Ok(())
            }
            Focus::Continuing => self.continue_on(),
            Focus::Returning { value } => self.hand_back(value),
            Focus::Throwing { tag, value } => self.throw(tag, value),
            Focus::Catching {
                tag,
                value,
                clauses,
                from,
                default,
            } => self.catch(tag, value, clauses, from, default),
            Focus::Naming {
                number,
                operand,
                items,
                from,
            } => self.name(number, operand, items, from),
            Focus::Filling {
                object,
                values,
                from,
            } => {
                self.fill(object, values, from);
                Ok(())
            }
            Focus::Exchanging { first, second } => {
                self.write_first(first, second);
                Ok(())
            }
            Focus::Restoring { last } => {
                self.write_last(last);
                Ok(())
            }
            Focus::Exchanged => {
                self.go(Focus::Proceeding);
                Ok(())
            }
            Focus::Beginning {
                owner,
                count,
                level,
                kind,
                element,
            } => self.begin_array(owner, count, level, kind, element),
            Focus::Repeating {
                progress,
                kind,
                element,
            } => self.repeat_element(progress, kind, element),
            Focus::Swapping {
                kind,
                left,
                right,
                before,
            } => {
                self.exchange(kind, left, right, before);
                Ok(())
            }
        }
    }

    /// One step, without limits. A run that is over stays as it is.
    #[tactic(auto, using(crate::proofs::Seen::over_step_stays))]
    pub fn step(&mut self, program: &'a TypedTree) -> Result<(), AllocError>
        ensures { OnOk result (state_of self.new ≡ step (view_program program.now) (state_of self.old)) }
    {
        let phase = mem::replace(&mut self.phase, Phase::Over { end: Over::Wrong });
        match phase {
            Phase::Running { focus } => self.act(program, focus),
            Phase::Over { end } => {
                self.phase = Phase::Over { end };
                Ok(())
            }
        }
    }
}
