//! Computes the bound on steps: the number of steps that a run costs.
ghost use Rattle.std.specs.Prelude.{IfOk};
ghost use Rattle.cyc_types.specs.TypedTreeView.{view_program};
ghost use Rattle.cyc_bound.specs.Costs.{IsStepAnswer};
ghost use Rattle.cyc_bound.specs.inside.Rounds.{IsFound};

use crate::costs::{Measure, TOO_MANY, known_cost, opening_cost, plus, step_cost};
use crate::function_costs::{costs_of, order_of};
use cyc_types::typed::TypedTree;
use std::alloc::{AllocError, Global};

/// The bound on the steps of a run of a program.
#[derive(Drop)]
pub enum StepBound {
    /// Each run has ended after `count` steps.
    Steps { count: u64 },
    /// The computed costs give no bound on steps below `TOO_MANY`.
    TooMany,
    /// The costs of functions still grow after the last round. Each cycle of calls makes the costs grow without end, because
    /// each call costs steps.
    Cycle,
}

/// Returns the cost of a run by the given measure, or `None` if the cost still grows after the last round.
pub(crate) fn run_cost(
    alloc: Global,
    tree: &TypedTree,
    order: &[usize],
    measure: Measure,
) -> Result<Option<u64>, AllocError>
    ensures { IfOk result (λ found. IsFound (view_program tree.now) measure found) }
{
    let Some(costs) = costs_of(alloc, tree, order, measure)? else {
        return Ok(None);
    };
    let called = plus(opening_cost(measure), known_cost(&costs, tree.main));
    Ok(Some(plus(step_cost(measure), called)))
}

/// Returns a bound on the steps of any run of a program, for all inputs.
///
/// Each loop and each cycle of calls costs something, and so prevents a bound on steps. If memory runs out, `steps_of` returns an error.
pub fn steps_of(alloc: Global, tree: &TypedTree) -> Result<StepBound, AllocError>
    ensures { IfOk result (λ bound. IsStepAnswer (view_program tree.now) bound) }
{
    let order = order_of(alloc, tree)?;
    let Some(count) = run_cost(alloc, tree, &order, Measure::Steps)? else {
        return Ok(StepBound::Cycle);
    };
    if count < TOO_MANY {
        Ok(StepBound::Steps { count })
    } else {
        Ok(StepBound::TooMany)
    }
}
