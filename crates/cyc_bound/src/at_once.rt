//! The cost of lexical regions that are open at the same time, computed as the cost of a program's costliest outermost region.
ghost use Rattle.std.specs.Prelude.{◌≡◌, false, min, slice_get, IfOk};
ghost use Rattle.cyc_types.specs.TypedTrees.{NoClauses};
ghost use Rattle.cyc_types.specs.TypedTreeView.{view_statement, view_item, view_program, items_of, clauses_of, default_of};
ghost use Rattle.cyc_bound.specs.Costs.{too_many};
ghost use Rattle.cyc_bound.specs.AtOnce.{statement_at_once, items_at_once, clauses_at_once, at_once_of};
ghost use Rattle.cyc_bound.specs.inside.RegionCosts.{opens, item_at_once, IsAtOnceFound};

use crate::costs::{Measure, greater};
use crate::function_costs::enough_costs;
use crate::reached::reached;
use crate::tree_costs::items_cost;
use cyc_types::typed::{Body, Clause, Item, Stmt, TypedTree};
use std::alloc::{AllocError, Global};

/// Returns true if an element of a block declares a lexical region.
pub(crate) fn opens(item: &Item) -> bool
    ensures { result ≡ opens (view_item item.now) }
{
    matches!(item, Item::Region { .. })
}

#[cycle(at_once)]
fn statement_at_once(measure: Measure, costs: &[u64], statement: &Stmt) -> u64
    ensures { result ≡ min too_many (statement_at_once measure costs.now (view_statement statement.now)) }
{
    match statement {
        Stmt::Block { items, .. } => items_at_once(measure, costs, items),
        Stmt::If {
            then,
            otherwise,
            ..
        } => greater(
            statement_at_once(measure, costs, then),
            statement_at_once(measure, costs, otherwise),
        ),
        Stmt::While { body, .. } => statement_at_once(measure, costs, body),
        Stmt::Try {
            body,
            clauses,
            default,
            ..
        } => {
            let tried = statement_at_once(measure, costs, body);
            let caught = clauses_at_once(measure, costs, clauses);
            let last = default_at_once(measure, costs, default);
            greater(tried, greater(caught, last))
        }
        Stmt::Evaluate { .. }
        | Stmt::Swap { .. }
        | Stmt::Return { .. }
        | Stmt::Throw { .. }
        | Stmt::Empty
        | Stmt::Break
        | Stmt::Continue => 0,
    }
}

/// Returns the cost of the costliest outermost region inside an element of a block that declares no region itself.
#[cycle(at_once)]
fn item_at_once(measure: Measure, costs: &[u64], item: &Item) -> u64
    ensures { result ≡ min too_many (item_at_once measure costs.now (view_item item.now)) }
{
    match item {
        Item::Execute { statement } => statement_at_once(measure, costs, statement),
        Item::Local { .. }
        | Item::Region { .. }
        | Item::DynamicRegion { .. }
        | Item::Open { .. }
        | Item::Alias { .. } => 0,
    }
}

/// Returns the cost of the costliest outermost region among a block's declarations and statements; a region is open
/// to the end of its block.
#[cycle(at_once)]
fn items_at_once(measure: Measure, costs: &[u64], items: &[Item]) -> u64
    ensures { result ≡ min too_many (items_at_once measure costs.now (items_of items.now)) }
{
    let mut most = 0;
    let mut place = 0;
    for item in items {
        if opens(item) {
            return greater(most, items_cost(measure, costs, &items[place..]));
        }
        most = greater(most, item_at_once(measure, costs, item));
        place += 1;
    }
    most
}

#[cycle(at_once)]
fn clauses_at_once(measure: Measure, costs: &[u64], clauses: &[Clause]) -> u64
    ensures { result ≡ min too_many (clauses_at_once measure costs.now (clauses_of clauses.now NoClauses)) }
{
    let mut most = 0;
    for clause in clauses {
        most = greater(most, items_at_once(measure, costs, &clause.items));
    }
    most
}

#[cycle(at_once)]
fn default_at_once(measure: Measure, costs: &[u64], default: &Option<Body>) -> u64
    ensures { result ≡ min too_many (clauses_at_once measure costs.now (default_of default.now)) }
{
    match default {
        Some(body) => items_at_once(measure, costs, &body.items),
        None => 0,
    }
}

/// Returns the cost of the costliest outermost region of a function, or 0 if the function does not exist.
fn function_at_once(measure: Measure, costs: &[u64], tree: &TypedTree, function: usize) -> u64
    ensures { result ≡ min too_many (at_once_of measure costs.now (slice_get (view_program tree.now).functions function)) }
{
    match tree.functions.get(function) {
        Some(function) => items_at_once(measure, costs, &function.body),
        None => 0,
    }
}

/// Returns the cost of the costliest outermost region of all functions reachable from `main`. The result is `None` if the costs of
/// functions still grow and no sufficient costs were found.
pub(crate) fn cost_at_once(
    alloc: Global,
    tree: &TypedTree,
    order: &[usize],
    measure: Measure,
) -> Result<Option<u64>, AllocError>
    ensures { IfOk result (λ found. IsAtOnceFound (view_program tree.now) measure found) }
{
    let Some(costs) = enough_costs(alloc, tree, order, measure)? else {
        return Ok(None);
    };
    let functions = reached(alloc, tree)?;
    let mut most = 0;
    for function in &functions {
        most = greater(most, function_at_once(measure, &costs, tree, *function));
    }
    Ok(Some(most))
}
