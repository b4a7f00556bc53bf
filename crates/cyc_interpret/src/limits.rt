//! A run with limits: pages of the store, and calls under way. Demand and depth are counted as it goes.

ghost use Rattle.std.specs.Prelude.{◌≡◌, ◌≤◌, ◌<◌, ℕ, IfOk, OnOk, if◌then◌else◌, true};
ghost use Rattle.cyc_words.specs.Ending.{Full as EndsFull};
ghost use Rattle.cyc_types.specs.TypedTrees.{Program};
ghost use Rattle.cyc_types.specs.TypedTreeView.{view_program};
ghost use Rattle.cyc_meaning.specs.State as meaning;
ghost use Rattle.cyc_meaning.specs.State.{GoesOn, calls_in, demand, depth, status_of, output_of, input_of};
ghost use Rattle.cyc_meaning.specs.Step.{step};
ghost use Rattle.cyc_meaning.specs.Run.{is_within, limited_step, limited_steps};
ghost use Rattle.cyc_interpret.specs.View.{view_entry, view_focus, stack_of, state_of};
ghost use Rattle.cyc_interpret.specs.Run.{is_over, peak_of};
ghost use Rattle.cyc_interpret.specs.inside.Depth.{is_caller, is_main, ends_call, ends_main, change_of, calls_by};

use crate::entry::{Entry, Focus, Over, Phase};
use crate::machine::Machine;
use cyc_types::TypedTree;
use cyc_types::typed::Callee;
use std::alloc::AllocError;

/// The limits of a run: so many pages of the store, and so many calls under way, with that of `main`.
///
/// A run that makes more than `made` regions, objects and cells stops as it does without memory: what a program makes is kept to its end.
#[derive(Clone, Copy)]
pub struct Limits {
    pub pages: u32,
    pub calls: u32,
    pub made: u64,
    pub ghost some_pages: { 1 ≤ pages },
    pub ghost some_calls: { 1 ≤ calls },
}

/// How many steps a run took, and the greatest demand and depth of all its states.
#[derive(Clone, Copy)]
pub struct Counts {
    pub steps: u64,
    pub pages: u128,
    pub calls: u128,
}

/// How a step may change the number of calls under way.
#[derive(Clone, Copy)]
enum Change {
    Calls,
    /// It leaves the end of a call, if that is the newest entry.
    Ends,
    /// The same, also of the call of `main`.
    Throws,
    Stays,
}

impl<'a> Focus<'a> {
    fn change(&self) -> Change
        ensures { result ≡ change_of (view_focus self.now) }
    {
        match self {
            Focus::Calling {
                callee: Callee::Function { .. },
                ..
            } => Change::Calls,
            Focus::Proceeding => Change::Ends,
            Focus::Returning { .. } => Change::Ends,
            Focus::Throwing { .. } => Change::Throws,
            _ => Change::Stays,
        }
    }
}

impl<'a> Entry<'a> {
    fn is_caller(&self) -> bool
        ensures { result ≡ is_caller (view_entry self.now) }
    {
        match self {
            Entry::Caller { .. } => true,
            _ => false,
        }
    }

    fn is_main(&self) -> bool
        ensures { result ≡ is_main (view_entry self.now) }
    {
        match self {
            Entry::Main => true,
            _ => false,
        }
    }
}

impl<'a> Machine<'a> {
    /// Returns true if a run is over.
    pub(crate) fn is_over(&self) -> bool
        ensures { result ≡ is_over (state_of self.now) }
    {
        match &self.phase {
            Phase::Over { .. } => true,
            Phase::Running { .. } => false,
        }
    }

    /// How many calls are under way, given the number of those of a run that is not over.
    #[tactic(auto, using(crate::proofs::Seen::over_depth))]
    pub(crate) fn depth(&self, calls: u128) -> u128
        requires { status_of (state_of self.now) ≡ GoesOn → depth (state_of self.now) ≡ calls }
        ensures { result ≡ depth (state_of self.now) }
    {
        match &self.phase {
            Phase::Over { .. } => 0,
            Phase::Running { .. } => calls,
        }
    }

    /// The pages of the store that are asked for.
    #[tactic(auto, using(crate::proofs::Seen::over_demand))]
    pub(crate) fn demand(&self) -> u128
        ensures { result ≡ demand (state_of self.now) }
    {
        match &self.phase {
            Phase::Over { .. } => 0,
            Phase::Running { .. } => self.world.pages,
        }
    }

    /// Returns true if the newest entry is the end of a call.
    #[tactic(auto, using(crate::proofs::LimitLaws::top_of, crate::proofs::LimitLaws::bottom_of))]
    fn ends_call(&self) -> bool
        ensures { result ≡ ends_call (stack_of self.now) }
    {
        match self.stack.last() {
            Some(entry) => entry.is_caller(),
            None => false,
        }
    }

    /// Returns true if the newest entry is the end of the call of `main`.
    #[tactic(auto, using(crate::proofs::LimitLaws::top_of, crate::proofs::LimitLaws::bottom_of))]
    fn ends_main(&self) -> bool
        ensures { result ≡ ends_main (stack_of self.now) }
    {
        match self.stack.last() {
            Some(entry) => entry.is_main(),
            None => false,
        }
    }

    /// How many calls are under way after the next step, if it does not end the run.
    #[tactic(auto, using(crate::proofs::LimitLaws::calls_after_step, crate::proofs::Seen::over_calls_none))]
    fn calls_after(&self, calls: u128) -> u128
        requires { depth (state_of self.now) ≡ calls }
        ensures { (program : Program) → status_of (step program (state_of self.now)) ≡ GoesOn → depth (step program (state_of self.now)) ≡ result }
    {
        match &self.phase {
            Phase::Over { .. } => 0,
            Phase::Running { focus } => self.calls_by(focus.change(), calls),
        }
    }

    #[tactic(auto, using(crate::proofs::LimitLaws::calls_few, crate::proofs::LimitLaws::some_call, crate::proofs::LimitLaws::some_main))]
    fn calls_by(&self, change: Change, calls: u128) -> u128
        requires { calls_in (stack_of self.now) ≡ calls }
        ensures { result ≡ calls_by change (stack_of self.now) }
    {
        match change {
            Change::Calls => calls + 1,
            Change::Ends => { if self.ends_call() { calls - 1 } else { calls } }
            Change::Throws => {
                if self.ends_call() || self.ends_main() {
                    calls - 1
                } else {
                    calls
                }
            }
            Change::Stays => calls,
        }
    }

    /// Returns true if the state is within limits.
    fn is_within(&self, limits: Limits, calls: u128) -> bool
        requires { depth (state_of self.now) ≡ calls }
        ensures { result ≡ is_within limits.pages limits.calls (state_of self.now) }
    {
        self.demand() <= limits.pages as u128 && calls <= limits.calls as u128
    }

    /// Ends a run that went past a limit. Returns how many calls are under way.
    #[tactic(auto, using(crate::proofs::LimitLaws::over_is_within))]
    fn keep_within(&mut self, limits: Limits, calls: u128) -> u128
        requires { status_of (state_of self.old) ≡ GoesOn → depth (state_of self.old) ≡ calls }
        ensures state { state_of self.new ≡ (if is_within limits.pages limits.calls (state_of self.old) then state_of self.old else meaning.Ended EndsFull (output_of (state_of self.old)) (input_of (state_of self.old))) }
        ensures depth { depth (state_of self.new) ≡ result }
        ensures within { is_within limits.pages limits.calls (state_of self.new) ≡ true }
    {
        let calls = self.depth(calls);
        if self.is_within(limits, calls) {
            calls
        } else {
            self.end_full();
            0
        }
    }

    /// Ends a run as one that went past a limit.
    #[tactic(auto, using(crate::proofs::Seen::phase_output, crate::proofs::Seen::phase_input))]
    fn end_full(&mut self)
        ensures { state_of self.new ≡ meaning.Ended EndsFull (output_of (state_of self.old)) (input_of (state_of self.old)) }
    {
        self.phase = Phase::Over { end: Over::Full };
    }

    /// One step with limits. Returns how many calls are under way after it.
    pub(crate) fn limited_step(
        &mut self,
        program: &'a TypedTree,
        limits: Limits,
        calls: u128,
    ) -> Result<u128, AllocError>
        requires depth { depth (state_of self.old) ≡ calls }
        requires within { is_within limits.pages limits.calls (state_of self.old) ≡ true }
        ensures step { OnOk result (state_of self.new ≡ limited_step (view_program program.now) limits.pages limits.calls (state_of self.old)) }
        ensures depth { IfOk result (λ calls. depth (state_of self.new) ≡ calls) }
        ensures within { OnOk result (is_within limits.pages limits.calls (state_of self.new) ≡ true) }
    {
        let after = self.calls_after(calls);
        self.step(program)?;
        Ok(self.keep_within(limits, after))
    }

    /// So many steps with limits, or fewer if the run is over before.
    #[tactic(auto, using(crate::proofs::LimitLaws::steps_more, crate::proofs::LimitLaws::peak_more))]
    pub(crate) fn run(
        &mut self,
        program: &'a TypedTree,
        limits: Limits,
        calls: u128,
        budget: u64,
    ) -> Result<Counts, AllocError>
        requires depth { depth (state_of self.old) ≡ calls }
        requires within { is_within limits.pages limits.calls (state_of self.old) ≡ true }
        ensures state { IfOk result (λ counts. state_of self.new ≡ limited_steps (view_program program.now) limits.pages limits.calls counts.steps (state_of self.old)) }
        ensures budget { IfOk result (λ counts. counts.steps ≤ budget) }
        ensures before { IfOk result (λ counts. (n : ℕ) → n < counts.steps → status_of (limited_steps (view_program program.now) limits.pages limits.calls n (state_of self.old)) ≡ GoesOn) }
        ensures spent { IfOk result (λ counts. status_of (state_of self.new) ≡ GoesOn → counts.steps ≡ budget) }
        ensures pages { IfOk result (λ counts. counts.pages ≡ peak_of (λ (n : ℕ). demand (limited_steps (view_program program.now) limits.pages limits.calls n (state_of self.old))) counts.steps) }
        ensures calls { IfOk result (λ counts. counts.calls ≡ peak_of (λ (n : ℕ). depth (limited_steps (view_program program.now) limits.pages limits.calls n (state_of self.old))) counts.steps) }
    {
        let mut current = calls;
        let mut pages = self.demand();
        let mut most = calls;
        for steps in 0..budget {
            if self.is_over() {
                return Ok(Counts {
                    steps,
                    pages,
                    calls: most,
                });
            }
            if self.world.made > limits.made {
                return Err(AllocError);
            }
            current = self.limited_step(program, limits, current)?;
            pages = pages.max(self.demand());
            most = most.max(current);
        }
        Ok(Counts {
            steps: budget,
            pages,
            calls: most,
        })
    }
}
