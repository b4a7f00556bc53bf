//! Finds the functions reachable from `main` by calls; `main` is the first.
ghost use Rattle.std.specs.Prelude.{◌≡◌, true, false, get_or, set, IfOk, OnOk};
ghost use Rattle.cyc_types.specs.TypedTreeView.{view_program};
ghost use Rattle.cyc_bound.specs.inside.Reached.{AreMarked, IsNoted, AreReached};

use crate::callees::callees_of;
use cyc_types::typed::TypedTree;
use std::alloc::{AllocError, Global};

/// Returns true if a function is marked as found.
fn is_marked(marks: &[bool], function: usize) -> bool
    ensures { result ≡ get_or marks.now function false }
{
    match marks.get(function) {
        Some(mark) => *mark,
        None => false,
    }
}

/// Marks a function.
fn mark(marks: &mut Vec<bool>, function: usize)
    ensures { marks.new.items ≡ set marks.old.items function true }
{
    if function < marks.len() {
        marks[function] = true;
    }
}

/// Adds a function to the list of functions found, unless the function is already marked as found.
fn note(function: usize, marks: &mut Vec<bool>, found: &mut Vec<usize>) -> Result<(), AllocError>
    requires { AreMarked marks.old.items found.old.items }
    ensures { OnOk result (IsNoted found.old.items function marks.new.items found.new.items) }
{
    if is_marked(marks, function) {
        return Ok(());
    }
    mark(marks, function);
    found.push(function)?;
    Ok(())
}

/// Returns the functions reachable from `main`, in the order of their discovery.
pub(crate) fn reached(alloc: Global, tree: &TypedTree) -> Result<Vec<usize>, AllocError>
    ensures { IfOk result (λ found. AreReached (view_program tree.now) found.items) }
{
    let mut marks = Vec::new(alloc);
    marks.resize(tree.functions.len(), false)?;
    let mut found = Vec::new(alloc);
    note(tree.main, &mut marks, &mut found)?;
    for place in 0..usize::MAX {
        if place >= found.len() {
            return Ok(found);
        }
        let function = found[place];
        let callees = callees_of(alloc, tree, function)?;
        for callee in &callees {
            note(*callee, &mut marks, &mut found)?;
        }
    }
    Ok(found)
}
