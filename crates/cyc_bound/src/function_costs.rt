//! Computes the costs of a program's functions: the least costs that suffice for the function bodies, found in rounds.
//!
//! A round of the search for costs visits functions after their callees, so one round suffices if the program has no cycle of calls.
//! If something is counted on a cycle of calls, each round raises the costs; the search ends after at most 16 rounds.
ghost use Rattle.std.specs.Prelude.{◌≡◌, true, false, max, get_or, set, vec_len, IfOk};
ghost use Rattle.cyc_types.specs.TypedTreeView.{view_program};
ghost use Rattle.cyc_bound.specs.Costs.{next_costs, IsClosed};
ghost use Rattle.cyc_bound.specs.inside.Rounds.{raised, AreRaised, AreFound, AreEnoughFound};

use crate::callees::callees_of;
use crate::costs::{Measure, TOO_MANY, known_cost};
use crate::tree_costs::function_cost;
use cyc_types::typed::TypedTree;
use std::alloc::{AllocError, Global};

/// The maximum number of rounds in the search for costs.
const MOST_ROUNDS: usize = 16;

/// The maximum recursion depth of the search that puts functions after their callees.
const MOST_DEEP: usize = 4095;

/// Appends a function to the order of visits, after its callees, unless the search has already visited the function.
fn add_in_order(
    alloc: Global,
    tree: &TypedTree,
    function: usize,
    left: usize,
    was_there: &mut Vec<bool>,
    order: &mut Vec<usize>,
) -> Result<(), AllocError> {
    if left == 0 || function >= was_there.len() || was_there[function] {
        return Ok(());
    }
    was_there[function] = true;
    let callees = callees_of(alloc, tree, function)?;
    for callee in &callees {
        add_in_order(alloc, tree, *callee, left - 1, was_there, order)?;
    }
    order.push(function)?;
    Ok(())
}

/// Returns the functions of a program, most of them after their callees.
///
/// The order of the functions determines how fast the costs settle, but not their values, so `order_of` has no contract.
pub(crate) fn order_of(alloc: Global, tree: &TypedTree) -> Result<Vec<usize>, AllocError> {
    let mut was_there = Vec::new(alloc);
    was_there.resize(tree.functions.len(), false)?;
    let mut order = Vec::new(alloc);
    for function in 0..tree.functions.len() {
        add_in_order(alloc, tree, function, MOST_DEEP, &mut was_there, &mut order)?;
    }
    Ok(order)
}

/// Returns the cost of a function's body, or 0 if the function does not exist.
fn next_cost(tree: &TypedTree, measure: Measure, costs: &[u64], function: usize) -> u64
    ensures { result ≡ get_or (next_costs (view_program tree.now) measure costs.now) function 0 }
{
    match tree.functions.get(function) {
        Some(function) => function_cost(measure, costs, function),
        None => 0,
    }
}

/// Raises the cost of a function to the cost of its body, if that is greater.
fn raise(tree: &TypedTree, measure: Measure, costs: &mut Vec<u64>, function: usize)
    ensures { costs.new.items ≡ raised (view_program tree.now) measure costs.old.items function }
{
    let cost = known_cost(costs, function).max(next_cost(tree, measure, costs, function));
    if function < costs.len() {
        costs[function] = cost;
    }
}

/// Raises the cost of each function: first of the functions in `order`, in this order, and then of all functions by ascending index.
fn raise_all(tree: &TypedTree, measure: Measure, order: &[usize], costs: &mut Vec<u64>)
    requires { vec_len costs.old ≡ vec_len tree.now.functions }
    ensures { AreRaised (view_program tree.now) measure costs.old.items costs.new.items }
{
    for function in order {
        raise(tree, measure, costs, *function);
    }
    for function in 0..tree.functions.len() {
        raise(tree, measure, costs, function);
    }
}

/// Returns true if the cost of each function is at least the cost of its body.
fn is_closed(tree: &TypedTree, measure: Measure, costs: &[u64]) -> bool
    ensures yes { result ≡ true → IsClosed (view_program tree.now) measure costs.now }
    ensures no { result ≡ false → IsClosed (view_program tree.now) measure costs.now → ⊥ }
{
    for function in 0..tree.functions.len() {
        if next_cost(tree, measure, costs, function) > known_cost(costs, function) {
            return false;
        }
    }
    true
}

/// Returns the costs of a program's functions, unless they still grow after the last round.
pub(crate) fn costs_of(
    alloc: Global,
    tree: &TypedTree,
    order: &[usize],
    measure: Measure,
) -> Result<Option<Vec<u64>>, AllocError>
    ensures { IfOk result (λ found. AreFound (view_program tree.now) measure found) }
{
    let mut costs = Vec::new(alloc);
    costs.resize(tree.functions.len(), 0)?;
    for _round in 0..MOST_ROUNDS {
        raise_all(tree, measure, order, &mut costs);
        if is_closed(tree, measure, &costs) {
            return Ok(Some(costs));
        }
    }
    Ok(None)
}

/// Sets the cost of each function whose cost is below that of its body to the greatest counted value.
fn give_up_all(tree: &TypedTree, measure: Measure, costs: &mut Vec<u64>) {
    for function in 0..tree.functions.len() {
        let next = next_cost(tree, measure, costs, function);
        if function < costs.len() && next > known_cost(costs, function) {
            costs[function] = TOO_MANY;
        }
    }
}

/// Returns sufficient costs for the functions of a program. The costs are the least sufficient ones. If the costs of functions still grow
/// after the last round, these functions and their callers get the greatest counted value.
pub(crate) fn enough_costs(
    alloc: Global,
    tree: &TypedTree,
    order: &[usize],
    measure: Measure,
) -> Result<Option<Vec<u64>>, AllocError>
    ensures { IfOk result (λ found. AreEnoughFound (view_program tree.now) measure found) }
{
    let found = costs_of(alloc, tree, order, measure)?;
    if found.is_some() {
        return Ok(found);
    }
    let mut costs = Vec::new(alloc);
    costs.resize(tree.functions.len(), 0)?;
    for _round in 0..MOST_ROUNDS {
        raise_all(tree, measure, order, &mut costs);
    }
    for _function in 0..=tree.functions.len() {
        if is_closed(tree, measure, &costs) {
            return Ok(Some(costs));
        }
        give_up_all(tree, measure, &mut costs);
    }
    Ok(None)
}
