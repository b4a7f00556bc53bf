//! Calls.

ghost use Rattle.std.specs.Prelude.{◌≡◌, OnOk, drop, option_map, reverse, slice_get};
ghost use Rattle.cyc_types.specs.declared.typed.Callee.TheVariants as callees;
ghost use Rattle.cyc_types.specs.TypedTreeView.{view_function, view_program, arguments_of};
ghost use Rattle.cyc_meaning.specs.State.{no_locals};
ghost use Rattle.cyc_meaning.specs.Step.{called, values_of, prints, reads, step_calling, step_entering, passes};
ghost use Rattle.cyc_interpret.specs.WorldView.{operands_of};
ghost use Rattle.cyc_interpret.specs.View.{view_environment, stack_of, environment_of, world_of, state_of};

use crate::entry::{Entry, Environment, Focus};
use crate::machine::Machine;
use crate::value::{Operand, Value};
use cyc_types::TypedTree;
use cyc_types::typed::{Callee, Converted, Function, Kind};
use cyc_words::Span;
use std::alloc::{AllocError, Global};
use std::mem;

/// The function of a program that has this number.
pub(crate) fn function_at(program: &TypedTree, number: usize) -> Option<&Function>
    ensures { option_map (λ f. view_function f.now) result ≡ slice_get (view_program program.now).functions number }
{
    program.functions.get(number)
}

impl Environment {
    /// That of a call that has no region yet.
    pub(crate) fn new(alloc: Global) -> Environment
        ensures { view_environment result ≡ no_locals }
    {
        Environment {
            locals: Vec::new(alloc),
            home: 1,
            counters: Vec::new(alloc),
        }
    }
}

impl<'a> Machine<'a> {
    /// Arguments are evaluated and converted one by one, from this one on.
    pub(crate) fn pass(
        &mut self,
        callee: Callee,
        at: Span,
        before: Vec<Operand>,
        arguments: &'a Vec<Converted>,
        from: usize,
    ) -> Result<(), AllocError>
        ensures { OnOk result (state_of self.new ≡ passes callee (reverse (operands_of before.items)) (arguments_of (drop from arguments.now.items)) (stack_of self.old) (environment_of self.old) (world_of self.old)) }
    {
        match arguments.get(from) {
            None => self.go(Focus::Calling {
                callee,
                at,
                arguments: before,
            }),
            Some(argument) => {
                self.stack.push(Entry::Pass {
                    callee,
                    at,
                    before,
                    arguments,
                    from: from + 1,
                })?;
                self.await_converted(argument)?;
            }
        }
        Ok(())
    }

    /// The low 8 bits are printed, and are the answer.
    fn print(&mut self, arguments: &Vec<Operand>) -> Result<(), AllocError>
        ensures { OnOk result (state_of self.new ≡ prints (values_of (operands_of arguments.now.items)) (stack_of self.old) (environment_of self.old) (world_of self.old)) }
    {
        if arguments.len() == 1
            && let Value::Int { word } = arguments[0].value
        {
            self.world.print((word % 256) as u8)?;
            self.give(Kind::Int, Value::Int { word: word % 256 });
        } else {
            self.fail();
        }
        Ok(())
    }

    /// The next byte of the input, or -1 at its end.
    fn take(&mut self, arguments: &Vec<Operand>)
        ensures { state_of self.new ≡ reads (values_of (operands_of arguments.now.items)) (stack_of self.old) (environment_of self.old) (world_of self.old) }
    {
        if arguments.len() > 0 {
            self.fail();
            return;
        }
        let word = match self.world.take() {
            None => u32::MAX,
            Some(byte) => byte as u32,
        };
        self.give(Kind::Int, Value::Int { word });
    }

    /// The call is made.
    pub(crate) fn call(
        &mut self,
        program: &'a TypedTree,
        callee: Callee,
        at: Span,
        arguments: Vec<Operand>,
    ) -> Result<(), AllocError>
        ensures { OnOk result (state_of self.new ≡ step_calling (view_program program.now) callee (reverse (operands_of arguments.items)) (stack_of self.old) (environment_of self.old) (world_of self.old)) }
    {
        match callee {
            Callee::Putchar => self.print(&arguments)?,
            Callee::Getchar => self.take(&arguments),
            Callee::Function { number } => self.begin(program, number, at, arguments)?,
        }
        Ok(())
    }

    /// A function of the program is called.
    fn begin(
        &mut self,
        program: &'a TypedTree,
        number: usize,
        at: Span,
        arguments: Vec<Operand>,
    ) -> Result<(), AllocError>
        ensures { OnOk result (state_of self.new ≡ step_calling (view_program program.now) (callees.Function number) (reverse (operands_of arguments.items)) (stack_of self.old) (environment_of self.old) (world_of self.old)) }
    {
        let environment = mem::replace(&mut self.environment, Environment::new(self.alloc));
        self.stack.push(Entry::Caller {
            environment,
            number,
            at,
        })?;
        self.call_function(function_at(program, number), arguments);
        Ok(())
    }

    /// A function is called with as many arguments as it has parameters, in order. No local is there yet.
    pub(crate) fn call_function(&mut self, function: Option<&'a Function>, arguments: Vec<Operand>)
        requires { environment_of self.old ≡ no_locals }
        ensures { state_of self.new ≡ called (option_map (λ f. view_function f.now) function.entry) (operands_of arguments.items) (stack_of self.old) (world_of self.old) }
    {
        match function {
            None => self.fail(),
            Some(function) => {
                if arguments.len() == function.parameters.len() {
                    self.go(Focus::Entering {
                        function,
                        arguments,
                    });
                } else {
                    self.fail();
                }
            }
        }
    }

    /// The region of the function's parameters and of its body's own variables is opened.
    pub(crate) fn enter(
        &mut self,
        function: &'a Function,
        arguments: Vec<Operand>,
    ) -> Result<(), AllocError>
        ensures { OnOk result (state_of self.new ≡ step_entering (view_function function.now) (operands_of arguments.items) (stack_of self.old) (environment_of self.old) (world_of self.old)) }
    {
        self.open()?;
        self.go(Focus::Binding {
            number: 0,
            function,
            arguments,
        });
        Ok(())
    }
}
