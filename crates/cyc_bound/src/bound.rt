//! Computes the bound on the number of active calls by a search from `main` over the reachable functions; each function is visited once.
//!
//! The search recurses for each call on the path to a function, so its depth is at most the greatest reported bound.
ghost use Rattle.std.specs.Prelude.{◌≡◌, ◌+◌, ◌<◌, ◌≤◌, get_or, set, length, vec_len, slice_get, IfOk, IfSome};
ghost use Rattle.cyc_types.specs.TypedTreeView.{view_program};
ghost use Rattle.cyc_bound.specs.Bound.{Row, LeadTo, most_calls, IsAnswer};
ghost use Rattle.cyc_bound.specs.inside.Walk.{AreHeights, GoesOn};

use crate::callees::callees_of;
use cyc_types::typed::TypedTree;
use std::alloc::{AllocError, Global};

/// The greatest bound that is reported; the limit of a run allows at most one call more.
pub const MOST_CALLS: usize = 4095;

/// The bound on the active calls of a program.
#[derive(Drop)]
pub enum CallBound {
    /// At most `count` calls are active, including the call of `main`. The program text implies no smaller bound.
    Calls { count: usize },
    /// No bound on the active calls exists, because each of these functions calls the next, and the last one calls the first.
    Cycle { functions: Vec<usize> },
    /// No bound on the active calls is reported, because a chain of calls has more than `MOST_CALLS` functions.
    Deep,
}

/// Returns the height of a function (the length of its longest chain of calls), or 0 if the search has not found it yet.
fn known_height(heights: &[usize], function: usize) -> usize
    ensures { result ≡ get_or heights.now function 0 }
{
    match heights.get(function) {
        Some(height) => *height,
        None => 0,
    }
}

/// Stores the height of a function (the length of its longest chain of calls) in the table.
fn note_height(heights: &mut Vec<usize>, function: usize, height: usize)
    ensures { heights.new.items ≡ set heights.old.items function height }
{
    if function < heights.len() {
        heights[function] = height;
    }
}

/// Returns the index of a function on a path of calls, if the path contains it.
fn place_on(path: &[usize], function: usize) -> Option<usize>
    ensures { IfSome result (λ place. (place < length path.now) × (get_or path.now place 0 ≡ function)) }
{
    for place in 0..path.len() {
        if path[place] == function {
            return Some(place);
        }
    }
    None
}

/// Returns the length of the longest chain of calls from a function; `path` is a chain of calls from `main` to the function. The path is
/// restored if the length was found.
fn bound_from(
    alloc: Global,
    tree: &TypedTree,
    function: usize,
    left: usize,
    path: &mut Vec<usize>,
    heights: &mut Vec<usize>,
) -> Result<CallBound, AllocError>
    requires row { Row (view_program tree.now) tree.now.main function (vec_len path.old + 1) }
    requires path { LeadTo (view_program tree.now) path.old.items function }
    requires left { vec_len path.old + left ≡ most_calls }
    requires heights { AreHeights (view_program tree.now) heights.old.items }
    ensures answer { IfOk result (λ bound. IsAnswer (view_program tree.now) function bound) }
    ensures goes_on { IfOk result (λ bound. GoesOn (view_program tree.now) path.old.items path.new.items heights.new.items bound) }
{
    let known = known_height(heights, function);
    if known > 0 {
        return Ok(CallBound::Calls { count: known });
    }
    if let Some(place) = place_on(path, function) {
        let functions = Vec::from_slice(alloc, &path[place..])?;
        return Ok(CallBound::Cycle { functions });
    }
    if left == 0 {
        return Ok(CallBound::Deep);
    }
    let callees = callees_of(alloc, tree, function)?;
    path.push(function)?;
    let mut height = 1;
    for callee in &callees {
        match bound_from(alloc, tree, *callee, left - 1, path, heights)? {
            CallBound::Calls { count } => {
                if count >= MOST_CALLS {
                    return Ok(CallBound::Deep);
                }
                height = height.max(count + 1);
            }
            other => return Ok(other),
        }
    }
    path.pop();
    note_height(heights, function, height);
    Ok(CallBound::Calls { count: height })
}

/// Returns a bound on the active calls in any run of a program, for all inputs. Only the functions that are reachable from `main` count.
pub fn bound_of_calls(alloc: Global, tree: &TypedTree) -> Result<CallBound, AllocError>
    ensures { IfOk result (λ bound. IsAnswer (view_program tree.now) tree.now.main bound) }
{
    let mut heights = Vec::new(alloc);
    heights.resize(tree.functions.len(), 0)?;
    let mut path = Vec::new(alloc);
    bound_from(alloc, tree, tree.main, MOST_CALLS, &mut path, &mut heights)
}
