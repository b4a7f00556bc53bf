//! Computes the cost of a typed tree: a traversal adds up the costs of its subtrees, from the costs of functions.
ghost use Rattle.std.specs.Prelude.{◌≡◌, ◌≤◌, min, option_map};
ghost use Rattle.cyc_types.specs.TypedTreeView.{view_expression, view_dereference, view_placement, view_initial, view_converted, view_side};
ghost use Rattle.cyc_types.specs.TypedTreeView.{view_statement, view_item, view_function, arguments_of, operations_of, items_of, default_of};
ghost use Rattle.cyc_bound.specs.Costs.{too_many, callee_cost, expression_cost, place_cost, site_of, placement_cost, initial_cost, fields_cost};
ghost use Rattle.cyc_bound.specs.Costs.{converted_cost, arguments_cost};
ghost use Rattle.cyc_bound.specs.Costs.{operations_cost, written_length, value_cost, thrown_cost, side_cost, statement_cost, item_cost, items_cost};
ghost use Rattle.cyc_bound.specs.Costs.{clauses_cost, function_cost};
ghost use Rattle.cyc_bound.specs.inside.ItemCosts.{operation_cost, clauses_then};

use crate::costs::{
    Measure, Site, array_cost, bytes_after, caught_cost, fields_made_cost, greater, known_cost,
    lasting_cost, loop_cost, opening_cost, plain_cost, plus, with_steps,
};
use cyc_types::typed::{
    Body, Callee, Clause, Converted, Dereference, Expr, Function, Initial, Item, Operation,
    Placement, Side, Stmt,
};

/// Returns the cost of a call after the evaluation of its arguments.
fn callee_cost(measure: Measure, costs: &[u64], callee: Callee) -> u64
    ensures { result ≡ min too_many (callee_cost measure costs.now callee) }
{
    match callee {
        Callee::Putchar | Callee::Getchar => with_steps(measure, 2, 0),
        Callee::Function { number } => with_steps(measure, 2, known_cost(costs, number)),
    }
}

/// Returns the length of an array, if the program writes the length as a number.
fn written_length(length: &Expr) -> Option<u64>
    ensures { result ≡ written_length (view_expression length.now) }
{
    match length {
        Expr::Number { value } => Some(*value as u64),
        _ => None,
    }
}

#[cycle(expressions)]
fn expression_cost(measure: Measure, costs: &[u64], value: &Expr) -> u64
    ensures { result ≡ min too_many (expression_cost measure costs.now (view_expression value.now)) }
{
    match value {
        Expr::Load { source } => with_steps(measure, 2, place_cost(measure, costs, source)),
        Expr::AddressOfCell { place, .. } => {
            with_steps(measure, 2, place_cost(measure, costs, place))
        }
        Expr::NumberOfElements { pointer } | Expr::FreeUnique { pointer } => {
            with_steps(measure, 2, expression_cost(measure, costs, pointer))
        }
        Expr::FreeKey { key } => with_steps(measure, 2, expression_cost(measure, costs, key)),
        Expr::Call {
            callee,
            arguments,
            ..
        } => {
            let evaluated = arguments_cost(measure, costs, arguments);
            with_steps(
                measure,
                1,
                plus(evaluated, callee_cost(measure, costs, *callee)),
            )
        }
        Expr::Unary { operand, .. } => {
            with_steps(measure, 2, expression_cost(measure, costs, operand))
        }
        Expr::Binary { first, rest, .. } => {
            let evaluated = expression_cost(measure, costs, first);
            with_steps(
                measure,
                2,
                plus(evaluated, operations_cost(measure, costs, rest)),
            )
        }
        Expr::Assign { value, .. } => with_steps(measure, 2, converted_cost(measure, costs, value)),
        Expr::Store { target, value, .. } => {
            let found = place_cost(measure, costs, target);
            with_steps(
                measure,
                2,
                plus(found, converted_cost(measure, costs, value)),
            )
        }
        Expr::New {
            placement,
            initial,
            ..
        } => {
            let placed = placement_cost(measure, costs, placement);
            let made = initial_cost(measure, costs, site_of(placement), initial);
            with_steps(measure, 1, plus(placed, made))
        }
        Expr::HeapRegion => with_steps(measure, 2, lasting_cost(measure)),
        Expr::Number { .. }
        | Expr::NullPointer
        | Expr::Counter { .. }
        | Expr::Copy { .. }
        | Expr::Move { .. }
        | Expr::Peek { .. }
        | Expr::AddressOf { .. } => with_steps(measure, 2, 0),
    }
}

/// Returns the allocation site of a new object, as its `Placement` states: the heap, the region of
/// a handle, or no region for a unique object.
fn site_of(placement: &Placement) -> Site
    ensures { result ≡ site_of (view_placement placement.now) }
{
    match placement {
        Placement::OnHeap => Site::Heap,
        Placement::AsUnique => Site::Unique,
        Placement::ByHandle { .. } => Site::Region,
    }
}

#[cycle(expressions)]
fn placement_cost(measure: Measure, costs: &[u64], placement: &Placement) -> u64
    ensures { result ≡ min too_many (placement_cost measure costs.now (view_placement placement.now)) }
{
    match placement {
        Placement::OnHeap | Placement::AsUnique => 0,
        Placement::ByHandle { handle } => {
            with_steps(measure, 1, expression_cost(measure, costs, handle))
        }
    }
}

#[cycle(expressions)]
fn place_cost(measure: Measure, costs: &[u64], place: &Dereference) -> u64
    ensures { result ≡ min too_many (place_cost measure costs.now (view_dereference place.now)) }
{
    match place {
        Dereference::Target { pointer, .. } | Dereference::Member { pointer, .. } => {
            with_steps(measure, 2, expression_cost(measure, costs, pointer))
        }
        Dereference::Element { pointer, index, .. } => {
            let found = expression_cost(measure, costs, pointer);
            with_steps(
                measure,
                3,
                plus(found, expression_cost(measure, costs, index)),
            )
        }
    }
}

#[cycle(expressions)]
fn initial_cost(measure: Measure, costs: &[u64], site: Site, initial: &Initial) -> u64
    ensures { result ≡ min too_many (initial_cost measure costs.now site (view_initial initial.now)) }
{
    match initial {
        Initial::Plain { kind, value } => {
            let evaluated = expression_cost(measure, costs, value);
            plus(evaluated, plain_cost(measure, site, *kind))
        }
        Initial::Fields { values } => fields_cost(measure, costs, site, values),
        Initial::Array {
            length,
            kind,
            element,
            ..
        } => {
            let counted = expression_cost(measure, costs, length);
            let turn = expression_cost(measure, costs, element);
            plus(
                counted,
                array_cost(measure, site, *kind, turn, written_length(length)),
            )
        }
    }
}

#[cycle(expressions)]
fn fields_cost(measure: Measure, costs: &[u64], site: Site, values: &[Converted]) -> u64
    ensures { result ≡ min too_many (fields_cost measure costs.now site 0 0 (arguments_of values.now)) }
{
    let mut total = 0;
    let mut bytes = 0;
    for value in values {
        total = plus(total, converted_cost(measure, costs, value));
        bytes = bytes_after(value.to, bytes);
    }
    plus(total, fields_made_cost(measure, site, values.len(), bytes))
}

#[cycle(expressions)]
fn converted_cost(measure: Measure, costs: &[u64], value: &Converted) -> u64
    ensures { result ≡ min too_many (converted_cost measure costs.now (view_converted value.now)) }
{
    with_steps(measure, 1, expression_cost(measure, costs, &value.value))
}

#[cycle(expressions)]
fn arguments_cost(measure: Measure, costs: &[u64], arguments: &[Converted]) -> u64
    ensures { result ≡ min too_many (arguments_cost measure costs.now (arguments_of arguments.now)) }
{
    let mut total = 0;
    for argument in arguments {
        total = plus(total, converted_cost(measure, costs, argument));
    }
    total
}

#[cycle(expressions)]
fn operation_cost(measure: Measure, costs: &[u64], operation: &Operation) -> u64
    ensures { result ≡ min too_many (operation_cost measure costs.now operation.now) }
{
    match operation {
        Operation::Compute { operand, .. }
        | Operation::Test { operand, .. }
        | Operation::Pointer { operand, .. }
        | Operation::PointerPeek { operand, .. } => {
            with_steps(measure, 1, expression_cost(measure, costs, operand))
        }
    }
}

#[cycle(expressions)]
fn operations_cost(measure: Measure, costs: &[u64], operations: &[Operation]) -> u64
    ensures { result ≡ min too_many (operations_cost measure costs.now (operations_of operations.now)) }
{
    let mut total = 0;
    for operation in operations {
        total = plus(total, operation_cost(measure, costs, operation));
    }
    total
}

fn value_cost(measure: Measure, costs: &[u64], value: &Option<Converted>) -> u64
    ensures { result ≡ min too_many (value_cost measure costs.now (option_map view_converted value.now)) }
{
    match value {
        Some(value) => converted_cost(measure, costs, value),
        None => 0,
    }
}

fn thrown_cost(measure: Measure, costs: &[u64], value: &Option<Expr>) -> u64
    ensures { result ≡ min too_many (thrown_cost measure costs.now (option_map view_expression value.now)) }
{
    match value {
        Some(value) => expression_cost(measure, costs, value),
        None => 0,
    }
}

fn side_cost(measure: Measure, costs: &[u64], side: &Side) -> u64
    ensures { result ≡ min too_many (side_cost measure costs.now (view_side side.now)) }
{
    match side {
        Side::Variable { .. } => 0,
        Side::Cell { place } => place_cost(measure, costs, place),
    }
}

#[cycle(statements)]
pub(crate) fn statement_cost(measure: Measure, costs: &[u64], statement: &Stmt) -> u64
    ensures { result ≡ min too_many (statement_cost measure costs.now (view_statement statement.now)) }
{
    match statement {
        Stmt::Block { items, .. } => with_steps(measure, 3, items_cost(measure, costs, items)),
        Stmt::Evaluate { value, .. } => {
            with_steps(measure, 2, expression_cost(measure, costs, value))
        }
        Stmt::Swap { left, right, .. } => {
            let found = side_cost(measure, costs, left);
            with_steps(measure, 7, plus(found, side_cost(measure, costs, right)))
        }
        Stmt::If {
            condition,
            then,
            otherwise,
            ..
        } => {
            let tested = expression_cost(measure, costs, condition);
            let chosen = greater(
                statement_cost(measure, costs, then),
                statement_cost(measure, costs, otherwise),
            );
            with_steps(measure, 2, plus(tested, chosen))
        }
        Stmt::While {
            condition,
            body,
            ..
        } => {
            let tested = expression_cost(measure, costs, condition);
            let turn = plus(tested, statement_cost(measure, costs, body));
            loop_cost(with_steps(measure, 1, turn))
        }
        Stmt::Return { value, .. } => with_steps(measure, 2, value_cost(measure, costs, value)),
        Stmt::Throw { value, .. } => with_steps(measure, 2, thrown_cost(measure, costs, value)),
        Stmt::Try {
            body,
            clauses,
            default,
            ..
        } => {
            let tried = statement_cost(measure, costs, body);
            let last = default_cost(measure, costs, default);
            let caught = clauses_cost(measure, costs, clauses, last);
            with_steps(measure, 1, plus(tried, caught))
        }
        Stmt::Empty | Stmt::Break | Stmt::Continue => with_steps(measure, 2, 0),
    }
}

#[cycle(statements)]
fn item_cost(measure: Measure, costs: &[u64], item: &Item) -> u64
    ensures { result ≡ min too_many (item_cost measure costs.now (view_item item.now)) }
{
    match item {
        Item::Execute { statement } => statement_cost(measure, costs, statement),
        Item::Local { value, .. } => with_steps(measure, 1, value_cost(measure, costs, value)),
        Item::Region { .. } => with_steps(measure, 3, opening_cost(measure)),
        Item::DynamicRegion { .. } => {
            let opened = plus(opening_cost(measure), lasting_cost(measure));
            with_steps(measure, 2, opened)
        }
        Item::Open { .. } | Item::Alias { .. } => with_steps(measure, 4, 0),
    }
}

#[cycle(statements)]
pub(crate) fn items_cost(measure: Measure, costs: &[u64], items: &[Item]) -> u64
    ensures { result ≡ min too_many (items_cost measure costs.now (items_of items.now)) }
{
    let mut total = 0;
    for item in items {
        total = plus(total, item_cost(measure, costs, item));
    }
    with_steps(measure, 1, total)
}

/// Returns the cost of the clauses of a catch. Catch clauses are tried in order; then one clause is executed, or whatever follows the
/// last clause. The cost of the clauses is that of the costliest of these executions.
#[cycle(statements)]
fn clauses_cost(measure: Measure, costs: &[u64], clauses: &[Clause], last: u64) -> u64
    ensures { result ≡ min too_many (clauses_then measure costs.now clauses.now last) }
{
    let mut tried = 0;
    let mut most = 0;
    for clause in clauses {
        let items = items_cost(measure, costs, &clause.items);
        tried = with_steps(measure, 1, tried);
        most = greater(
            most,
            plus(tried, caught_cost(measure, clause.number, items)),
        );
    }
    greater(most, plus(tried, last))
}

#[cycle(statements)]
fn default_cost(measure: Measure, costs: &[u64], default: &Option<Body>) -> u64
    ensures { result ≡ min too_many (clauses_cost measure costs.now (default_of default.now)) }
{
    match default {
        Some(body) => with_steps(measure, 3, items_cost(measure, costs, &body.items)),
        None => with_steps(measure, 2, 0),
    }
}

/// Returns the cost of a call of a function, from the opening of the function's region on. The costs of its callees are given.
pub(crate) fn function_cost(measure: Measure, costs: &[u64], function: &Function) -> u64
    ensures { result ≡ min too_many (function_cost measure costs.now (view_function function.now)) }
{
    let body = with_steps(measure, 4, items_cost(measure, costs, &function.body));
    with_steps(measure, function.parameters.len() as u64, body)
}
