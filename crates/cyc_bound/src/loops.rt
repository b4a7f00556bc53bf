//! Finds a loop that prevents a bound on steps or pages, for the diagnostic: a loop whose iterations cost something. If lexical
//! regions free their blocks, a loop prevents a bound on pages if it is inside a region, allocates on the heap, or allocates a
//! unique object. The search for the loop is not verified.
use crate::at_once::opens;
use crate::callees::add_items;
use crate::costs::{Measure, TOO_MANY, known_cost};
use crate::function_costs::{costs_of, enough_costs, order_of};
use crate::pages::gives_back;
use crate::reached::reached;
use crate::tree_costs::{items_cost, statement_cost};
use cyc_types::typed::{Body, Clause, Item, Stmt, TypedTree};
use cyc_words::Span;
use std::alloc::{AllocError, Global};

/// The number of size classes of unique blocks.
const CLASSES: u32 = 11;

// ---- loops

#[cycle(loops)]
fn statement_loop(measure: Measure, costs: &[u64], statement: &Stmt) -> Option<Span> {
    match statement {
        Stmt::Block { items, .. } => items_loop(measure, costs, items),
        Stmt::If {
            then,
            otherwise,
            ..
        } => statement_loop(measure, costs, then).or(statement_loop(measure, costs, otherwise)),
        Stmt::While { span, .. } => {
            if statement_cost(measure, costs, statement) == 0 {
                None
            } else {
                Some(*span)
            }
        }
        Stmt::Try {
            body,
            clauses,
            default,
            ..
        } => statement_loop(measure, costs, body)
            .or(clauses_loop(measure, costs, clauses))
            .or(default_loop(measure, costs, default)),
        _ => None,
    }
}

#[cycle(loops)]
fn items_loop(measure: Measure, costs: &[u64], items: &[Item]) -> Option<Span> {
    for item in items {
        if let Item::Execute { statement } = item {
            if let Some(span) = statement_loop(measure, costs, statement) {
                return Some(span);
            }
        }
    }
    None
}

#[cycle(loops)]
fn clauses_loop(measure: Measure, costs: &[u64], clauses: &[Clause]) -> Option<Span> {
    for clause in clauses {
        if let Some(span) = items_loop(measure, costs, &clause.items) {
            return Some(span);
        }
    }
    None
}

#[cycle(loops)]
fn default_loop(measure: Measure, costs: &[u64], default: &Option<Body>) -> Option<Span> {
    match default {
        Some(body) => items_loop(measure, costs, &body.items),
        None => None,
    }
}

/// Returns the first function that the declarations and statements `items` call and whose cost reaches the greatest counted value.
fn costly_callee(
    alloc: Global,
    costs: &[u64],
    items: &[Item],
) -> Result<Option<usize>, AllocError> {
    let mut callees = Vec::new(alloc);
    add_items(items, &mut callees)?;
    for callee in &callees {
        if known_cost(costs, *callee) >= TOO_MANY {
            return Ok(Some(*callee));
        }
    }
    Ok(None)
}

/// Returns the first loop that costs something in a function. If the function has no such loop, the
/// function's callees are searched for one, then the callees of these callees, and so on.
fn loop_from(
    alloc: Global,
    tree: &TypedTree,
    measure: Measure,
    costs: &[u64],
    function: usize,
) -> Result<Option<Span>, AllocError> {
    let mut number = function;
    for _ in 0..tree.functions.len() {
        let Some(function) = tree.functions.get(number) else {
            return Ok(None);
        };
        if let Some(span) = items_loop(measure, costs, &function.body) {
            return Ok(Some(span));
        }
        match costly_callee(alloc, costs, &function.body)? {
            Some(callee) => number = callee,
            None => return Ok(None),
        }
    }
    Ok(None)
}

/// Returns the first loop that costs something by the given measure, searching from `main`.
fn first_loop(
    alloc: Global,
    tree: &TypedTree,
    order: &[usize],
    measure: Measure,
) -> Result<Option<Span>, AllocError> {
    let Some(costs) = costs_of(alloc, tree, order, measure)? else {
        return Ok(None);
    };
    loop_from(alloc, tree, measure, &costs, tree.main)
}

// ---- loops inside regions

/// Returns the first loop inside an outermost region whose cost reaches the greatest counted value. The loop is in the statement, or in a
/// function that the statement calls, directly or indirectly.
#[cycle(inside)]
fn statement_inside(
    alloc: Global,
    tree: &TypedTree,
    measure: Measure,
    costs: &[u64],
    statement: &Stmt,
) -> Result<Option<Span>, AllocError> {
    match statement {
        Stmt::Block { items, .. } => items_inside(alloc, tree, measure, costs, items),
        Stmt::If {
            then,
            otherwise,
            ..
        } => {
            let first = statement_inside(alloc, tree, measure, costs, then)?;
            Ok(first.or(statement_inside(alloc, tree, measure, costs, otherwise)?))
        }
        Stmt::While { body, .. } => statement_inside(alloc, tree, measure, costs, body),
        Stmt::Try {
            body,
            clauses,
            default,
            ..
        } => {
            let tried = statement_inside(alloc, tree, measure, costs, body)?;
            let caught = clauses_inside(alloc, tree, measure, costs, clauses)?;
            let last = default_inside(alloc, tree, measure, costs, default)?;
            Ok(tried.or(caught).or(last))
        }
        _ => Ok(None),
    }
}

/// Returns the first loop that costs something among the declarations and statements of a block; a region is open to the end of its block.
fn loop_to_end(
    alloc: Global,
    tree: &TypedTree,
    measure: Measure,
    costs: &[u64],
    items: &[Item],
) -> Result<Option<Span>, AllocError> {
    if items_cost(measure, costs, items) < TOO_MANY {
        return Ok(None);
    }
    if let Some(span) = items_loop(measure, costs, items) {
        return Ok(Some(span));
    }
    match costly_callee(alloc, costs, items)? {
        Some(callee) => loop_from(alloc, tree, measure, costs, callee),
        None => Ok(None),
    }
}

#[cycle(inside)]
fn item_inside(
    alloc: Global,
    tree: &TypedTree,
    measure: Measure,
    costs: &[u64],
    item: &Item,
) -> Result<Option<Span>, AllocError> {
    match item {
        Item::Execute { statement } => statement_inside(alloc, tree, measure, costs, statement),
        _ => Ok(None),
    }
}

#[cycle(inside)]
fn items_inside(
    alloc: Global,
    tree: &TypedTree,
    measure: Measure,
    costs: &[u64],
    items: &[Item],
) -> Result<Option<Span>, AllocError> {
    let mut place = 0;
    for item in items {
        if opens(item) {
            return loop_to_end(alloc, tree, measure, costs, &items[place..]);
        }
        if let Some(span) = item_inside(alloc, tree, measure, costs, item)? {
            return Ok(Some(span));
        }
        place += 1;
    }
    Ok(None)
}

#[cycle(inside)]
fn clauses_inside(
    alloc: Global,
    tree: &TypedTree,
    measure: Measure,
    costs: &[u64],
    clauses: &[Clause],
) -> Result<Option<Span>, AllocError> {
    for clause in clauses {
        if let Some(span) = items_inside(alloc, tree, measure, costs, &clause.items)? {
            return Ok(Some(span));
        }
    }
    Ok(None)
}

#[cycle(inside)]
fn default_inside(
    alloc: Global,
    tree: &TypedTree,
    measure: Measure,
    costs: &[u64],
    default: &Option<Body>,
) -> Result<Option<Span>, AllocError> {
    match default {
        Some(body) => items_inside(alloc, tree, measure, costs, &body.items),
        None => Ok(None),
    }
}

/// Returns the first loop inside a region that costs something by the given measure, in the functions reachable from `main`.
fn first_loop_inside(
    alloc: Global,
    tree: &TypedTree,
    order: &[usize],
    measure: Measure,
) -> Result<Option<Span>, AllocError> {
    let Some(costs) = enough_costs(alloc, tree, order, measure)? else {
        return Ok(None);
    };
    let functions = reached(alloc, tree)?;
    for number in &functions {
        let Some(function) = tree.functions.get(*number) else {
            return Ok(None);
        };
        if let Some(span) = items_inside(alloc, tree, measure, &costs, &function.body)? {
            return Ok(Some(span));
        }
    }
    Ok(None)
}

// ---- the reported loops

/// Returns the source position of a loop that prevents a bound on steps, if there is one.
pub fn loop_of_steps(alloc: Global, tree: &TypedTree) -> Result<Option<Span>, AllocError> {
    let order = order_of(alloc, tree)?;
    first_loop(alloc, tree, &order, Measure::Steps)
}

/// Returns the source position of a loop that prevents a bound on the pages of regions, if there is one.
fn loop_of_regions(
    alloc: Global,
    tree: &TypedTree,
    order: &[usize],
) -> Result<Option<Span>, AllocError> {
    if gives_back(alloc, tree, order)? {
        for measure in [Measure::Openings, Measure::RegionBlocks] {
            if let Some(span) = first_loop_inside(alloc, tree, order, measure)? {
                return Ok(Some(span));
            }
        }
        return first_loop(alloc, tree, order, Measure::HeapBlocks);
    }
    let opening = first_loop(alloc, tree, order, Measure::Openings)?;
    Ok(opening.or(first_loop(alloc, tree, order, Measure::Blocks)?))
}

/// Returns the source position of a loop that prevents a bound on pages, if there is one. Each iteration of such a loop opens a
/// region or allocates an object that is not freed at the iteration's end.
pub fn loop_of_pages(alloc: Global, tree: &TypedTree) -> Result<Option<Span>, AllocError> {
    let order = order_of(alloc, tree)?;
    if let Some(span) = loop_of_regions(alloc, tree, &order)? {
        return Ok(Some(span));
    }
    for class in 0..CLASSES {
        if let Some(span) = first_loop(alloc, tree, &order, Measure::Uniques { class })? {
            return Ok(Some(span));
        }
    }
    Ok(None)
}
