//! Finds the functions that a typed tree calls, by a traversal that adds the callees to a list in the order of the text.
ghost use Rattle.std.specs.Prelude.{◌≡◌, ◌++◌, option_map, slice_get, OnOk, IfOk};
ghost use Rattle.cyc_types.specs.TypedTrees.{NoClauses};
ghost use Rattle.cyc_types.specs.TypedTreeView.{view_expression, view_dereference, view_placement, view_initial, view_converted, view_side};
ghost use Rattle.cyc_types.specs.TypedTreeView.{view_statement, view_program, arguments_of, operations_of, items_of, clauses_of, default_of};
ghost use Rattle.cyc_bound.specs.Callees.{callee_of, expression_callees, dereference_callees, placement_callees, initial_callees, arguments_callees};
ghost use Rattle.cyc_bound.specs.Callees.{operations_callees, value_callees, thrown_callees, side_callees, statement_callees, items_callees};
ghost use Rattle.cyc_bound.specs.Callees.{clauses_callees};
ghost use Rattle.cyc_bound.specs.Bound.{callees_of};
ghost use Rattle.cyc_bound.specs.inside.Parts.{operation_callees, item_callees};

use cyc_types::typed::{
    Body, Callee, Clause, Converted, Dereference, Expr, Initial, Item, Operation, Placement, Side,
    Stmt, TypedTree,
};
use std::alloc::{AllocError, Global};

/// Adds the function that a call calls to the list, unless it is a built-in function.
fn add_callee(callee: Callee, found: &mut Vec<usize>) -> Result<(), AllocError>
    ensures { OnOk result (found.new.items ≡ found.old.items ++ callee_of callee) }
{
    if let Callee::Function { number } = callee {
        found.push(number)?;
    }
    Ok(())
}

#[cycle(expressions)]
fn add_expression(value: &Expr, found: &mut Vec<usize>) -> Result<(), AllocError>
    ensures { OnOk result (found.new.items ≡ found.old.items ++ expression_callees (view_expression value.now)) }
{
    match value {
        Expr::Load { source } => add_dereference(source, found),
        Expr::AddressOfCell { place, .. } => add_dereference(place, found),
        Expr::NumberOfElements { pointer } | Expr::FreeUnique { pointer } => {
            add_expression(pointer, found)
        }
        Expr::FreeKey { key } => add_expression(key, found),
        Expr::Call {
            callee,
            arguments,
            ..
        } => {
            add_arguments(arguments, found)?;
            add_callee(*callee, found)
        }
        Expr::Unary { operand, .. } => add_expression(operand, found),
        Expr::Binary { first, rest, .. } => {
            add_expression(first, found)?;
            add_operations(rest, found)
        }
        Expr::Assign { value, .. } => add_expression(&value.value, found),
        Expr::Store { target, value, .. } => {
            add_dereference(target, found)?;
            add_expression(&value.value, found)
        }
        Expr::New {
            placement,
            initial,
            ..
        } => {
            add_placement(placement, found)?;
            add_initial(initial, found)
        }
        Expr::Number { .. }
        | Expr::NullPointer
        | Expr::HeapRegion
        | Expr::Counter { .. }
        | Expr::Copy { .. }
        | Expr::Move { .. }
        | Expr::Peek { .. }
        | Expr::AddressOf { .. } => Ok(()),
    }
}

#[cycle(expressions)]
fn add_dereference(place: &Dereference, found: &mut Vec<usize>) -> Result<(), AllocError>
    ensures { OnOk result (found.new.items ≡ found.old.items ++ dereference_callees (view_dereference place.now)) }
{
    match place {
        Dereference::Target { pointer, .. } | Dereference::Member { pointer, .. } => {
            add_expression(pointer, found)
        }
        Dereference::Element { pointer, index, .. } => {
            add_expression(pointer, found)?;
            add_expression(index, found)
        }
    }
}

#[cycle(expressions)]
fn add_placement(placement: &Placement, found: &mut Vec<usize>) -> Result<(), AllocError>
    ensures { OnOk result (found.new.items ≡ found.old.items ++ placement_callees (view_placement placement.now)) }
{
    match placement {
        Placement::OnHeap | Placement::AsUnique => Ok(()),
        Placement::ByHandle { handle } => add_expression(handle, found),
    }
}

#[cycle(expressions)]
fn add_initial(initial: &Initial, found: &mut Vec<usize>) -> Result<(), AllocError>
    ensures { OnOk result (found.new.items ≡ found.old.items ++ initial_callees (view_initial initial.now)) }
{
    match initial {
        Initial::Plain { value, .. } => add_expression(value, found),
        Initial::Fields { values } => add_arguments(values, found),
        Initial::Array {
            length,
            element,
            ..
        } => {
            add_expression(length, found)?;
            add_expression(element, found)
        }
    }
}

#[cycle(expressions)]
fn add_arguments(arguments: &[Converted], found: &mut Vec<usize>) -> Result<(), AllocError>
    ensures { OnOk result (found.new.items ≡ found.old.items ++ arguments_callees (arguments_of arguments.now)) }
{
    for argument in arguments {
        add_expression(&argument.value, found)?;
    }
    Ok(())
}

#[cycle(expressions)]
fn add_operation(operation: &Operation, found: &mut Vec<usize>) -> Result<(), AllocError>
    ensures { OnOk result (found.new.items ≡ found.old.items ++ operation_callees operation.now) }
{
    match operation {
        Operation::Compute { operand, .. }
        | Operation::Test { operand, .. }
        | Operation::Pointer { operand, .. }
        | Operation::PointerPeek { operand, .. } => add_expression(operand, found),
    }
}

#[cycle(expressions)]
fn add_operations(operations: &[Operation], found: &mut Vec<usize>) -> Result<(), AllocError>
    ensures { OnOk result (found.new.items ≡ found.old.items ++ operations_callees (operations_of operations.now)) }
{
    for operation in operations {
        add_operation(operation, found)?;
    }
    Ok(())
}

fn add_value(value: &Option<Converted>, found: &mut Vec<usize>) -> Result<(), AllocError>
    ensures { OnOk result (found.new.items ≡ found.old.items ++ value_callees (option_map view_converted value.now)) }
{
    match value {
        Some(value) => add_expression(&value.value, found),
        None => Ok(()),
    }
}

fn add_thrown(value: &Option<Expr>, found: &mut Vec<usize>) -> Result<(), AllocError>
    ensures { OnOk result (found.new.items ≡ found.old.items ++ thrown_callees (option_map view_expression value.now)) }
{
    match value {
        Some(value) => add_expression(value, found),
        None => Ok(()),
    }
}

fn add_side(side: &Side, found: &mut Vec<usize>) -> Result<(), AllocError>
    ensures { OnOk result (found.new.items ≡ found.old.items ++ side_callees (view_side side.now)) }
{
    match side {
        Side::Variable { .. } => Ok(()),
        Side::Cell { place } => add_dereference(place, found),
    }
}

#[cycle(statements)]
fn add_statement(statement: &Stmt, found: &mut Vec<usize>) -> Result<(), AllocError>
    ensures { OnOk result (found.new.items ≡ found.old.items ++ statement_callees (view_statement statement.now)) }
{
    match statement {
        Stmt::Block { items, .. } => add_items(items, found),
        Stmt::Evaluate { value, .. } => add_expression(value, found),
        Stmt::Swap { left, right, .. } => {
            add_side(left, found)?;
            add_side(right, found)
        }
        Stmt::If {
            condition,
            then,
            otherwise,
            ..
        } => {
            add_expression(condition, found)?;
            add_statement(then, found)?;
            add_statement(otherwise, found)
        }
        Stmt::While {
            condition,
            body,
            ..
        } => {
            add_expression(condition, found)?;
            add_statement(body, found)
        }
        Stmt::Return { value, .. } => add_value(value, found),
        Stmt::Throw { value, .. } => add_thrown(value, found),
        Stmt::Try {
            body,
            clauses,
            default,
            ..
        } => {
            add_statement(body, found)?;
            add_clauses(clauses, found)?;
            add_default(default, found)
        }
        Stmt::Empty | Stmt::Break | Stmt::Continue => Ok(()),
    }
}

#[cycle(statements)]
fn add_item(item: &Item, found: &mut Vec<usize>) -> Result<(), AllocError>
    ensures { OnOk result (found.new.items ≡ found.old.items ++ item_callees item.now) }
{
    match item {
        Item::Execute { statement } => add_statement(statement, found),
        Item::Local { value, .. } => add_value(value, found),
        Item::Region { .. } | Item::Open { .. } | Item::Alias { .. } | Item::DynamicRegion { .. } =>
            Ok(()),
    }
}

#[cycle(statements)]
pub(crate) fn add_items(items: &[Item], found: &mut Vec<usize>) -> Result<(), AllocError>
    ensures { OnOk result (found.new.items ≡ found.old.items ++ items_callees (items_of items.now)) }
{
    for item in items {
        add_item(item, found)?;
    }
    Ok(())
}

#[cycle(statements)]
fn add_clauses(clauses: &[Clause], found: &mut Vec<usize>) -> Result<(), AllocError>
    ensures { OnOk result (found.new.items ≡ found.old.items ++ clauses_callees (clauses_of clauses.now NoClauses)) }
{
    for clause in clauses {
        add_items(&clause.items, found)?;
    }
    Ok(())
}

#[cycle(statements)]
fn add_default(default: &Option<Body>, found: &mut Vec<usize>) -> Result<(), AllocError>
    ensures { OnOk result (found.new.items ≡ found.old.items ++ clauses_callees (default_of default.now)) }
{
    match default {
        Some(body) => add_items(&body.items, found),
        None => Ok(()),
    }
}

/// Returns the callees of a function, with one entry for each call in the text.
pub(crate) fn callees_of(
    alloc: Global,
    tree: &TypedTree,
    function: usize,
) -> Result<Vec<usize>, AllocError>
    ensures { IfOk result (λ found. found.items ≡ callees_of (slice_get (view_program tree.now).functions function)) }
{
    let mut found = Vec::new(alloc);
    if let Some(function) = tree.functions.get(function) {
        add_items(&function.body, &mut found)?;
    }
    Ok(found)
}
