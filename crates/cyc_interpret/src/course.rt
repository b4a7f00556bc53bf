//! A program under way that its caller steps, and what is seen of it.

ghost use Rattle.std.specs.Prelude.{◌≡◌, IfOk, OnOk, option_map, true};
ghost use Rattle.cyc_types.specs.TypedTreeView.{view_program};
ghost use Rattle.cyc_meaning.specs.State.{demand, depth, status_of};
ghost use Rattle.cyc_meaning.specs.Run.{start, is_within, limited_step};
ghost use Rattle.cyc_interpret.specs.View.{view_focus, view_stack, view_environment, view_world, stack_of, environment_of, world_of, state_of};
ghost use Rattle.cyc_interpret.specs.Run.{status_by, focus_by, is_over};

use crate::entry::{Entry, Environment, Focus, Over, Phase};
use crate::limits::Limits;
use crate::machine::Machine;
use crate::world::World;
use cyc_types::TypedTree;
use std::alloc::{AllocError, Global};

impl<'a> Machine<'a> {
    /// What is done next, or nothing where the run is over.
    pub fn focus(&self) -> Option<&Focus<'a>>
        ensures { option_map (λ f. view_focus f.now) result ≡ focus_by (state_of self.now) }
    {
        match &self.phase {
            Phase::Running { focus } => Some(focus),
            Phase::Over { .. } => None,
        }
    }

    /// The control stack: the newest entry is the last.
    pub fn stack(&self) -> &Vec<Entry<'a>>
        ensures { view_stack result.now.items ≡ stack_of self.now }
    {
        &self.stack
    }

    /// What the running call knows.
    pub fn environment(&self) -> &Environment
        ensures { view_environment result.now ≡ environment_of self.now }
    {
        &self.environment
    }

    /// Regions, objects and devices.
    pub fn world(&self) -> &World
        ensures { view_world result.now ≡ world_of self.now }
    {
        &self.world
    }
}

/// A program under way, with its limits. How many calls are under way is counted as it goes.
#[derive(Drop)]
pub struct Course<'a> {
    machine: Machine<'a>,
    program: &'a TypedTree,
    limits: Limits,
    calls: u128,
    ghost counted: { depth (state_of machine) ≡ calls },
    ghost within: { is_within limits.pages limits.calls (state_of machine) ≡ true },
}

impl<'a> Course<'a> {
    /// `main` is called, nothing is printed yet, and all of the input is still to be read.
    #[tactic(auto, using(cyc_meaning::proofs::RunLaws::start_calls, cyc_meaning::proofs::RunLaws::within_at_start))]
    pub fn start(
        alloc: Global,
        program: &'a TypedTree,
        limits: Limits,
        input: Vec<u8>,
    ) -> Result<Course<'a>, AllocError>
        ensures state { IfOk result (λ course. state_of course.machine ≡ start (view_program program.now) input.items) }
        ensures program { IfOk result (λ course. view_program course.program.now ≡ view_program program.now) }
        ensures limits { IfOk result (λ course. course.limits ≡ limits) }
    {
        let machine = Machine::start(alloc, program, input)?;
        let calls = machine.depth(1);
        Ok(Course {
            machine,
            program,
            limits,
            calls,
        })
    }

    /// One step with limits. A run that is over stays as it is.
    ///
    /// After a want of memory, or where more was made than the limits allow, nothing is known of the program.
    pub fn step_limited(&mut self) -> Result<(), AllocError>
        ensures state { OnOk result (state_of self.new.machine ≡ limited_step (view_program self.old.program.now) self.old.limits.pages self.old.limits.calls (state_of self.old.machine)) }
        ensures program { view_program self.new.program.now ≡ view_program self.old.program.now }
        ensures limits { self.new.limits ≡ self.old.limits }
    {
        if self.machine.world.made > self.limits.made {
            return Err(AllocError);
        }
        match self
            .machine
            .limited_step(self.program, self.limits, self.calls)
        {
            Ok(calls) => {
                self.calls = calls;
                Ok(())
            }
            Err(error) => {
                self.machine.fail();
                self.calls = 0;
                Err(error)
            }
        }
    }

    /// Returns true if the run is over.
    pub fn is_over(&self) -> bool
        ensures { result ≡ is_over (state_of self.now.machine) }
    {
        self.machine.is_over()
    }

    /// What the run came to, or nothing where it is under way.
    pub fn end(&self) -> Option<Over>
        ensures { status_of (state_of self.now.machine) ≡ status_by result }
    {
        self.machine.end()
    }

    /// The pages of the store that are asked for.
    pub fn demand(&self) -> u128
        ensures { result ≡ demand (state_of self.now.machine) }
    {
        self.machine.demand()
    }

    /// How many calls are under way, with that of `main`.
    pub fn depth(&self) -> u128
        ensures { result ≡ depth (state_of self.now.machine) }
    {
        self.calls
    }

    /// The state of the program.
    pub fn machine(&self) -> &Machine<'a>
        ensures { state_of result.now ≡ state_of self.now.machine }
    {
        &self.machine
    }
}
