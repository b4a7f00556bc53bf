//! This file counts the least number of tokens that spell a program, on its typed tree only.
ghost use Rattle.std.specs.Prelude.{◌≡◌, ◌+◌, ◌≤◌, map, option_map};
ghost use Rattle.cyc_syntax.specs.TokenRule.{max_tokens};
ghost use Rattle.cyc_syntax.specs.Sums.{sum_of, optional_weight};
ghost use Rattle.cyc_types.specs.TypedTrees.{NoOperations, NoClauses};
ghost use Rattle.cyc_types.specs.TypedTreeView.{view_expression, view_dereference, view_placement, view_initial, view_converted, view_side};
ghost use Rattle.cyc_types.specs.TypedTreeView.{view_statement, view_item, view_constant};
ghost use Rattle.cyc_types.specs.TypedTreeView.{view_global, view_function, view_program, arguments_of, then_operation, operations_of, items_of};
ghost use Rattle.cyc_types.specs.TypedTreeView.{clauses_of, default_of};
ghost use Rattle.cyc_types.specs.Weight.{unary_weight, expression_weight, dereference_weight, placement_weight, initial_weight, converted_weight};
ghost use Rattle.cyc_types.specs.Weight.{arguments_weight, operations_weight, else_weight, side_weight};
ghost use Rattle.cyc_types.specs.Weight.{thrown_weight, caught_weight, statement_weight, items_weight, item_weight, clauses_weight, constant_weight};
ghost use Rattle.cyc_types.specs.Weight.{global_weight, function_weight, program_weight};

use cyc_types::TypedTree;
use cyc_types::typed::{
    Body, Clause, Constant, Converted, Dereference, Expr, Function, Global, Initial, Item,
    Operation, Placement, Side, Stmt, UnaryOperator,
};

/// Returns the number of tokens of a unary operator; the conversion of a char to an int is not written.
fn unary_weight(operator: UnaryOperator) -> usize
    ensures { result ≡ unary_weight operator }
{
    match operator {
        UnaryOperator::Widen => 0,
        UnaryOperator::Negate
        | UnaryOperator::Not
        | UnaryOperator::Complement
        | UnaryOperator::LowByte => 1,
    }
}

/// Returns the number of tokens of an expression. Parentheses that only group are not in the tree.
#[cycle(expressions)]
fn expression_weight(value: &Expr) -> usize
    requires { expression_weight (view_expression value.now) ≤ max_tokens }
    ensures { result ≡ expression_weight (view_expression value.now) }
{
    match value {
        Expr::Number { .. }
        | Expr::NullPointer
        | Expr::HeapRegion
        | Expr::Counter { .. }
        | Expr::Copy { .. }
        | Expr::Move { .. }
        | Expr::Peek { .. } => 1,
        Expr::AddressOf { .. } => 2,
        Expr::Load { source } => dereference_weight(source),
        Expr::AddressOfCell { place, .. } => 1 + dereference_weight(place),
        Expr::NumberOfElements { pointer } | Expr::FreeUnique { pointer } => {
            3 + expression_weight(pointer)
        }
        Expr::FreeKey { key } => 3 + expression_weight(key),
        Expr::Call { arguments, .. } => 3 + arguments_weight(arguments),
        Expr::Unary { operator, operand } => unary_weight(*operator) + expression_weight(operand),
        Expr::Binary { first, rest, .. } => expression_weight(first) + operations_weight(rest),
        Expr::Assign { value, .. } => 2 + expression_weight(&value.value),
        Expr::Store { target, value, .. } => {
            1 + dereference_weight(target) + expression_weight(&value.value)
        }
        Expr::New {
            placement,
            initial,
            ..
        } => placement_weight(placement) + initial_weight(initial),
    }
}

/// Returns the number of tokens of a memory access through a pointer.
#[cycle(expressions)]
fn dereference_weight(place: &Dereference) -> usize
    requires { dereference_weight (view_dereference place.now) ≤ max_tokens }
    ensures { result ≡ dereference_weight (view_dereference place.now) }
{
    match place {
        Dereference::Target { pointer, .. } => 1 + expression_weight(pointer),
        Dereference::Member { pointer, .. } => 2 + expression_weight(pointer),
        Dereference::Element { pointer, index, .. } => {
            2 + expression_weight(pointer) + expression_weight(index)
        }
    }
}

/// Returns the number of tokens of `new`, or of `rnew` with the handle in its parentheses.
#[cycle(expressions)]
fn placement_weight(placement: &Placement) -> usize
    requires { placement_weight (view_placement placement.now) ≤ max_tokens }
    ensures { result ≡ placement_weight (view_placement placement.now) }
{
    match placement {
        Placement::OnHeap => 1,
        Placement::AsUnique => 4,
        Placement::ByHandle { handle } => 3 + expression_weight(handle),
    }
}

/// Returns the number of tokens of the initial value or values of an object.
#[cycle(expressions)]
fn initial_weight(initial: &Initial) -> usize
    requires { initial_weight (view_initial initial.now) ≤ max_tokens }
    ensures { result ≡ initial_weight (view_initial initial.now) }
{
    match initial {
        Initial::Plain { value, .. } => expression_weight(value),
        Initial::Fields { values } => 3 + arguments_weight(values),
        Initial::Array {
            length,
            element,
            ..
        } => 6 + expression_weight(length) + expression_weight(element),
    }
}

/// Returns the number of tokens of operands, with a comma before each operand except the first.
#[cycle(expressions)]
fn arguments_weight(arguments: &[Converted]) -> usize
    requires { arguments_weight (arguments_of arguments.now) ≤ max_tokens }
    ensures { result ≡ arguments_weight (arguments_of arguments.now) }
{
    let mut weight = 0;
    for argument in arguments {
        weight += 1 + expression_weight(&argument.value);
    }
    // In the count of tokens, no comma is counted before the first operand of a list.
    weight.saturating_sub(1)
}

/// Returns the number of tokens of an operator of a chain with its right operand.
#[cycle(expressions)]
fn operation_weight(operation: &Operation) -> usize
    requires { operations_weight (then_operation operation.now NoOperations) ≤ max_tokens }
    ensures { result ≡ operations_weight (then_operation operation.now NoOperations) }
{
    match operation {
        Operation::Compute { operand, .. }
        | Operation::Test { operand, .. }
        | Operation::Pointer { operand, .. }
        | Operation::PointerPeek { operand, .. } => 1 + expression_weight(operand),
    }
}

/// Returns the number of tokens of a chain of binary operators without its first operand: the tokens of the operators and of their right
/// operands.
#[cycle(expressions)]
fn operations_weight(operations: &[Operation]) -> usize
    requires { operations_weight (operations_of operations.now) ≤ max_tokens }
    ensures { result ≡ operations_weight (operations_of operations.now) }
{
    let mut weight = 0;
    for operation in operations {
        weight += operation_weight(operation);
    }
    weight
}

/// Returns the number of tokens of `else` and its statement, given the statement's number of tokens; an empty statement adds nothing,
/// since neither it nor `else` need be written.
fn else_weight(otherwise: &Stmt, tokens: usize) -> usize
    requires { tokens ≤ max_tokens }
    ensures { result ≡ else_weight (view_statement otherwise.now) tokens }
{
    match otherwise {
        Stmt::Empty => 0,
        _ => 1 + tokens,
    }
}

fn side_weight(side: &Side) -> usize
    requires { side_weight (view_side side.now) ≤ max_tokens }
    ensures { result ≡ side_weight (view_side side.now) }
{
    match side {
        Side::Variable { .. } => 1,
        Side::Cell { place } => dereference_weight(place),
    }
}

/// Returns the number of tokens of the returned value, if there is one.
fn returned_weight(value: &Option<Converted>) -> usize
    requires { optional_weight converted_weight (option_map view_converted value.now) ≤ max_tokens }
    ensures { result ≡ optional_weight converted_weight (option_map view_converted value.now) }
{
    match value {
        Some(value) => expression_weight(&value.value),
        None => 0,
    }
}

/// Returns the number of tokens of a thrown exception's int, with its parentheses.
fn thrown_weight(value: &Option<Expr>) -> usize
    requires { thrown_weight (option_map view_expression value.now) ≤ max_tokens }
    ensures { result ≡ thrown_weight (option_map view_expression value.now) }
{
    match value {
        Some(value) => 2 + expression_weight(value),
        None => 0,
    }
}

/// Returns the number of tokens of the local for an exception's int in a catch clause, with its parentheses.
fn caught_weight(number: Option<usize>) -> usize
    ensures { result ≡ caught_weight number }
{
    match number {
        Some(_) => 3,
        None => 0,
    }
}

/// Returns the number of tokens of `=` and the initial value of a local, if there is one.
fn declared_weight(value: &Option<Converted>) -> usize
    requires { optional_weight (λ c. 1 + converted_weight c) (option_map view_converted value.now) ≤ max_tokens }
    ensures { result ≡ optional_weight (λ c. 1 + converted_weight c) (option_map view_converted value.now) }
{
    match value {
        Some(value) => 1 + expression_weight(&value.value),
        None => 0,
    }
}

/// Returns the number of tokens of a statement.
#[cycle(statements)]
fn statement_weight(statement: &Stmt) -> usize
    requires { statement_weight (view_statement statement.now) ≤ max_tokens }
    ensures { result ≡ statement_weight (view_statement statement.now) }
{
    match statement {
        Stmt::Block { items, .. } => 2 + items_weight(items),
        Stmt::Empty => 1,
        Stmt::Evaluate { value, .. } => 1 + expression_weight(value),
        Stmt::Swap { left, right, .. } => 2 + side_weight(left) + side_weight(right),
        Stmt::If {
            condition,
            then,
            otherwise,
            ..
        } => {
            let branches = statement_weight(then)
                + else_weight(otherwise, statement_weight(otherwise));
            3 + expression_weight(condition) + branches
        }
        Stmt::While {
            condition,
            body,
            ..
        } => 3 + expression_weight(condition) + statement_weight(body),
        Stmt::Return { value, .. } => 2 + returned_weight(value),
        Stmt::Break | Stmt::Continue => 2,
        Stmt::Throw { value, .. } => 4 + thrown_weight(value),
        Stmt::Try {
            body,
            clauses,
            default,
            ..
        } => {
            let caught = clauses_weight(clauses) + default_weight(default);
            4 + statement_weight(body) + caught
        }
    }
}

/// Returns the number of tokens of one declaration or statement of a block.
#[cycle(statements)]
fn item_weight(item: &Item) -> usize
    requires { item_weight (view_item item.now) ≤ max_tokens }
    ensures { result ≡ item_weight (view_item item.now) }
{
    match item {
        Item::Execute { statement } => statement_weight(statement),
        Item::Local { value, .. } => 3 + declared_weight(value),
        Item::Region { .. } => 6,
        Item::Open { .. } => 11,
        Item::Alias { .. } => 10,
        Item::DynamicRegion { .. } => 13,
    }
}

/// Returns the number of tokens of the declarations and statements of a block.
#[cycle(statements)]
fn items_weight(items: &[Item]) -> usize
    requires { items_weight (items_of items.now) ≤ max_tokens }
    ensures { result ≡ items_weight (items_of items.now) }
{
    let mut weight = 0;
    for item in items {
        weight += item_weight(item);
    }
    weight
}

/// Returns the number of tokens of catch clauses, each of which catches one exception.
#[cycle(statements)]
fn clauses_weight(clauses: &[Clause]) -> usize
    requires { clauses_weight (clauses_of clauses.now NoClauses) ≤ max_tokens }
    ensures { result ≡ clauses_weight (clauses_of clauses.now NoClauses) }
{
    let mut weight = 0;
    for clause in clauses {
        weight += 4 + caught_weight(clause.number) + items_weight(&clause.items);
    }
    weight
}

/// Returns the number of tokens of the `default` clause, if there is one.
#[cycle(statements)]
fn default_weight(default: &Option<Body>) -> usize
    requires { clauses_weight (default_of default.now) ≤ max_tokens }
    ensures { result ≡ clauses_weight (default_of default.now) }
{
    match default {
        Some(body) => 2 + items_weight(&body.items),
        None => 0,
    }
}

/// Returns the number of tokens of `=` and the initial value of a global, if the source must write that value.
fn constant_weight(value: Constant) -> usize
    ensures { result ≡ constant_weight (view_constant value) }
{
    match value {
        Constant::Word { value: 0 } | Constant::Null => 0,
        Constant::Word { .. } => 2,
    }
}

/// Returns the number of tokens of a list of globals.
fn globals_weight(globals: &[Global]) -> usize
    requires { sum_of global_weight (map view_global globals.now) ≤ max_tokens }
    ensures { result ≡ sum_of global_weight (map view_global globals.now) }
{
    let mut weight = 0;
    for global in globals {
        weight += 3 + constant_weight(global.value);
    }
    weight
}

/// Returns the number of tokens of a function. Each parameter is a type and a name, with a comma before each parameter except the first.
fn function_weight(function: &Function) -> usize
    requires { function_weight (view_function function.now) ≤ max_tokens }
    ensures { result ≡ function_weight (view_function function.now) }
{
    let parameters = (3 * function.parameters.len()).saturating_sub(1);
    6 + parameters + items_weight(&function.body)
}

/// Returns the number of tokens of a list of functions.
fn functions_weight(functions: &[Function]) -> usize
    requires { sum_of function_weight (map view_function functions.now) ≤ max_tokens }
    ensures { result ≡ sum_of function_weight (map view_function functions.now) }
{
    let mut weight = 0;
    for function in functions {
        weight += function_weight(function);
    }
    weight
}

/// Returns the weight of a program: the least number of tokens that spell it.
pub fn weight_of(tree: &TypedTree) -> usize
    requires { program_weight (view_program tree.now) ≤ max_tokens }
    ensures { result ≡ program_weight (view_program tree.now) }
{
    globals_weight(&tree.globals) + functions_weight(&tree.functions)
}
