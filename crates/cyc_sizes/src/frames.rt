//! This file counts the number of machine words that the stack frame of a function may need, on its typed tree only.
ghost use Rattle.std.specs.Prelude.{◌≡◌, ◌+◌, ◌≤◌, map, option_map};
ghost use Rattle.cyc_types.specs.Types.{words_of};
ghost use Rattle.cyc_types.specs.TypedTrees.{NoClauses, type_of_place, type_of};
ghost use Rattle.cyc_types.specs.TypeView.{view_ty, view_value_type};
ghost use Rattle.cyc_types.specs.TypedTreeView.{view_expression, view_dereference, view_placement, view_initial, view_converted, view_side};
ghost use Rattle.cyc_types.specs.TypedTreeView.{view_statement, view_function, arguments_of, operations_of, items_of, clauses_of, default_of};
ghost use Rattle.cyc_meaning.specs.Values.{words_of_kind};
ghost use Rattle.cyc_meaning.specs.FrameCount.{result_words, operand_words, converted_words, handle_words, expression_need, dereference_need};
ghost use Rattle.cyc_meaning.specs.FrameCount.{handle_need, initial_value_need, converted_need, operations_need};
ghost use Rattle.cyc_meaning.specs.FrameCount.{argument_words, initial_need, thrown_need, side_need, statement_need, items_need, clauses_need};
ghost use Rattle.cyc_meaning.specs.FrameCount.{kept_by, kept_by_items, kept_by_clauses, words_of_all, frame_count};
ghost use Rattle.cyc_sizes.specs.inside.Needs.{most_frame_count, operands_need, operation_need, item_need, kept_by_item};

use cyc_types::Ty;
use cyc_types::typed::{
    Body, Clause, Converted, Dereference, Expr, Function, Initial, Item, Kind, Operation,
    Placement, Side, Stmt, UnaryOperator, ValueType,
};

/// The number of frame words of an address: for the target of an assignment, for the operand of `&`, or for an operand of a swap.
const PLACE_WORDS: usize = 3;

/// The number of frame words that an array `for` occupies while its element is evaluated.
const ARRAY_WORDS: usize = 4;

/// The number of machine words that are reserved in each stack frame, whatever the function's code contains.
const KEPT_WORDS: usize = 24;

/// The number of machine words in the stack frame that are reserved for each `try` statement.
const HANDLER_WORDS: usize = 6;

/// Returns the number of machine words of a value of the given representation kind (int, char, pointer, ..).
pub fn words_of_kind(kind: Kind) -> usize
    ensures words { result ≡ words_of_kind kind }
    ensures few { result ≤ 3 }
{
    match kind {
        Kind::Fat => 3,
        Kind::Int | Kind::Char | Kind::Nullable | Kind::NonNull | Kind::Handle | Kind::Key => 1,
    }
}

/// Returns the number of machine words of a value of a type.
pub fn words_of(of_type: &Ty) -> usize
    ensures { result ≡ words_of (view_ty of_type.now) }
{
    of_type.words() as usize
}

/// Returns the number of machine words of an expression's value; 0 if the expression has no value.
fn result_words(of_type: &ValueType) -> usize
    ensures { result ≡ result_words (view_value_type of_type.now) }
{
    match of_type {
        ValueType::Void => 0,
        ValueType::Null => 1,
        ValueType::Value { of_type } => words_of(of_type),
    }
}

/// Returns the number of machine words of the memory cell to which a pointer points.
pub fn words_at(place: &Dereference) -> usize
    ensures { result ≡ words_of (type_of_place (view_dereference place.now)) }
{
    match place {
        Dereference::Target { of_type, .. }
        | Dereference::Member { of_type, .. }
        | Dereference::Element { of_type, .. } => words_of(of_type),
    }
}

/// Returns the number of machine words of an operand's value; an operand is an expression that always yields a value, unlike the call of a
/// function without a result.
fn operand_words(value: &Expr) -> usize
    ensures { result ≡ operand_words (type_of (view_expression value.now)) }
{
    match value {
        Expr::Copy { of_type, .. }
        | Expr::Move { of_type, .. }
        | Expr::Peek { of_type, .. }
        | Expr::AddressOf { of_type, .. }
        | Expr::AddressOfCell { of_type, .. }
        | Expr::Binary { of_type, .. }
        | Expr::New { of_type, .. } => words_of(of_type),
        Expr::Load { source } => words_at(source),
        Expr::Call { result, .. } | Expr::Assign { result, .. } | Expr::Store { result, .. } => {
            typed_words(result)
        }
        Expr::Number { .. }
        | Expr::NullPointer
        | Expr::HeapRegion
        | Expr::Counter { .. }
        | Expr::NumberOfElements { .. }
        | Expr::FreeUnique { .. }
        | Expr::FreeKey { .. }
        | Expr::Unary { .. } => 1,
    }
}

fn typed_words(of_type: &ValueType) -> usize
    ensures { result ≡ operand_words (view_value_type of_type.now) }
{
    match of_type {
        ValueType::Void | ValueType::Null => 1,
        ValueType::Value { of_type } => words_of(of_type),
    }
}

/// Returns the number of machine words of an operand's value before or after its conversion, whichever is larger.
fn converted_words(value: &Converted) -> usize
    ensures { result ≡ converted_words (view_converted value.now) }
{
    words_of_kind(value.from).max(words_of_kind(value.to))
}

/// Returns the number of frame words that the region handle of an `rnew` takes: 0 for the heap, 1 for
/// `unique_region`, and otherwise the words of the handle's expression.
fn handle_words(placement: &Placement) -> usize
    ensures { result ≡ handle_words (view_placement placement.now) }
{
    match placement {
        Placement::OnHeap => 0,
        Placement::AsUnique => 1,
        Placement::ByHandle { handle } => operand_words(handle),
    }
}

/// Returns the frame words that an expression needs. For each operand, the function adds the operand's need to the words that are
/// already in use when the operand is evaluated. The result is the maximum of the sums for the operands and of the words of the
/// complete expression.
#[cycle(need)]
fn expression_need(value: &Expr) -> usize
    requires { expression_need (view_expression value.now) ≤ most_frame_count }
    ensures { result ≡ expression_need (view_expression value.now) }
{
    match value {
        Expr::Number { .. } | Expr::NullPointer | Expr::HeapRegion | Expr::Counter { .. } => 1,
        Expr::Copy { of_type, .. } | Expr::Move { of_type, .. } | Expr::Peek { of_type, .. } => {
            words_of(of_type)
        }
        Expr::Load { source } => dereference_need(source, words_at(source)),
        Expr::AddressOf { of_type, .. } => PLACE_WORDS + words_of(of_type),
        Expr::AddressOfCell { place, of_type } => {
            (PLACE_WORDS + words_of(of_type)).max(dereference_need(place, PLACE_WORDS))
        }
        Expr::NumberOfElements { pointer } => {
            (operand_words(pointer) + 1).max(expression_need(pointer))
        }
        Expr::FreeUnique { pointer } => operand_words(pointer).max(expression_need(pointer)),
        Expr::FreeKey { key } => operand_words(key).max(expression_need(key)),
        Expr::Call {
            arguments,
            result,
            ..
        } => operands_need(arguments, 0, result_words(result)),
        Expr::Unary { operator, operand } => match operator {
            UnaryOperator::Widen => expression_need(operand),
            UnaryOperator::Negate
            | UnaryOperator::Not
            | UnaryOperator::Complement
            | UnaryOperator::LowByte => (operand_words(operand) + 1).max(expression_need(operand)),
        },
        Expr::Binary {
            first,
            rest,
            of_type,
        } => {
            let need = operations_need(rest, of_type, operand_words(first));
            expression_need(first).max(need)
        }
        Expr::Assign { value, result, .. } => {
            let words = PLACE_WORDS + converted_words(value) + result_words(result);
            words.max(PLACE_WORDS + expression_need(&value.value))
        }
        Expr::Store {
            target,
            value,
            result,
        } => {
            let words = PLACE_WORDS + converted_words(value) + result_words(result);
            let need = words.max(PLACE_WORDS + expression_need(&value.value));
            dereference_need(target, PLACE_WORDS).max(need)
        }
        Expr::New {
            placement,
            initial,
            of_type,
            ..
        } => {
            let need = initial_value_need(initial, handle_words(placement), words_of(of_type));
            handle_need(placement).max(need)
        }
    }
}

/// Returns the frame words that a memory access through a pointer needs, if the accessed value has `own` words.
#[cycle(need)]
fn dereference_need(place: &Dereference, own: usize) -> usize
    requires { dereference_need (view_dereference place.now) own ≤ most_frame_count }
    ensures { result ≡ dereference_need (view_dereference place.now) own }
{
    match place {
        Dereference::Target { pointer, .. } | Dereference::Member { pointer, .. } => {
            (operand_words(pointer) + own).max(expression_need(pointer))
        }
        Dereference::Element { pointer, index, .. } => {
            let before = operand_words(pointer);
            let words = before + operand_words(index) + own;
            words
                .max(expression_need(pointer))
                .max(before + expression_need(index))
        }
    }
}

#[cycle(need)]
fn handle_need(placement: &Placement) -> usize
    requires { handle_need (view_placement placement.now) ≤ most_frame_count }
    ensures { result ≡ handle_need (view_placement placement.now) }
{
    match placement {
        Placement::OnHeap => 0,
        Placement::AsUnique => 1,
        Placement::ByHandle { handle } => expression_need(handle),
    }
}

/// Returns the number of frame words that the evaluation of an initial value needs, after a region handle of `handle` words; the pointer
/// to the new object has `own` words.
#[cycle(need)]
fn initial_value_need(initial: &Initial, handle: usize, own: usize) -> usize
    requires { initial_value_need (view_initial initial.now) handle own ≤ most_frame_count }
    ensures { result ≡ initial_value_need (view_initial initial.now) handle own }
{
    match initial {
        Initial::Plain { kind, value } => {
            (handle + words_of_kind(*kind) + own).max(handle + expression_need(value))
        }
        Initial::Fields { values } => operands_need(values, handle, own),
        Initial::Array {
            length,
            kind,
            element,
            ..
        } => {
            let before = handle + ARRAY_WORDS;
            let made = (before + expression_need(element)).max(before + words_of_kind(*kind) + own);
            (handle + expression_need(length)).max(made)
        }
    }
}

/// Returns the frame words that operands and their result need: `first` words of the frame are occupied before all operands, and
/// the result has `own` words.
#[cycle(need)]
fn operands_need(operands: &[Converted], first: usize, own: usize) -> usize
    requires { operands_need (arguments_of operands.now) first own ≤ most_frame_count }
    ensures { result ≡ operands_need (arguments_of operands.now) first own }
{
    let mut need = 0;
    let mut before = first;
    for operand in operands {
        need = need.max(before + expression_need(&operand.value));
        before += converted_words(operand);
    }
    need.max(before + own)
}

/// Returns the frame words that an operator needs in a chain of binary operators of this type, if its left operand has `left` words.
#[cycle(need)]
fn operation_need(operation: &Operation, of_type: &Ty, left: usize) -> usize
    requires { operation_need operation.now (view_ty of_type.now) left ≤ most_frame_count }
    ensures { result ≡ operation_need operation.now (view_ty of_type.now) left }
{
    match operation {
        Operation::Compute { operand, .. }
        | Operation::Test { operand, .. }
        | Operation::Pointer { operand, .. }
        | Operation::PointerPeek { operand, .. } => {
            let words = left + operand_words(operand) + words_of(of_type);
            words.max(left + expression_need(operand))
        }
    }
}

/// Returns the frame words that the remaining operators of a chain of binary operators need. The chain before an operator is this
/// operator's left operand. The chain before an operator has the type of the whole chain, unless it consists of the first operand alone.
#[cycle(need)]
fn operations_need(operations: &[Operation], of_type: &Ty, first: usize) -> usize
    requires { operations_need (operations_of operations.now) (view_ty of_type.now) first ≤ most_frame_count }
    ensures { result ≡ operations_need (operations_of operations.now) (view_ty of_type.now) first }
{
    let mut need = 0;
    let mut left = first;
    for operation in operations {
        need = need.max(operation_need(operation, of_type, left));
        left = words_of(of_type);
    }
    need
}

/// Returns the frame words that the evaluation of an optional expression needs; none if the expression is absent.
fn initial_need(value: &Option<Converted>) -> usize
    requires { initial_need (option_map view_converted value.now) ≤ most_frame_count }
    ensures { result ≡ initial_need (option_map view_converted value.now) }
{
    match value {
        Some(value) => expression_need(&value.value),
        None => 0,
    }
}

fn thrown_need(value: &Option<Expr>) -> usize
    requires { thrown_need (option_map view_expression value.now) ≤ most_frame_count }
    ensures { result ≡ thrown_need (option_map view_expression value.now) }
{
    match value {
        Some(value) => expression_need(value),
        None => 0,
    }
}

fn side_need(side: &Side) -> usize
    requires { side_need (view_side side.now) ≤ most_frame_count }
    ensures { result ≡ side_need (view_side side.now) }
{
    match side {
        Side::Variable { .. } => PLACE_WORDS,
        Side::Cell { place } => dereference_need(place, PLACE_WORDS),
    }
}

/// Returns the frame words that a statement needs: the maximum over its expressions. A swap is counted like an expression without a value
/// whose operands are the swap's left and right operand.
#[cycle(greatest)]
fn statement_need(statement: &Stmt) -> usize
    requires { statement_need (view_statement statement.now) ≤ most_frame_count }
    ensures { result ≡ statement_need (view_statement statement.now) }
{
    match statement {
        Stmt::Block { items, .. } => items_need(items),
        Stmt::Evaluate { value, .. } => expression_need(value),
        Stmt::Swap { left, right, .. } => {
            let sides = side_need(left).max(PLACE_WORDS + side_need(right));
            (PLACE_WORDS + PLACE_WORDS).max(sides)
        }
        Stmt::If {
            condition,
            then,
            otherwise,
            ..
        } => {
            let branches = statement_need(then).max(statement_need(otherwise));
            expression_need(condition).max(branches)
        }
        Stmt::While {
            condition,
            body,
            ..
        } => expression_need(condition).max(statement_need(body)),
        Stmt::Return { value, .. } => initial_need(value),
        Stmt::Throw { value, .. } => thrown_need(value),
        Stmt::Try {
            body,
            clauses,
            default,
            ..
        } => {
            let caught = clauses_need(clauses).max(default_need(default));
            statement_need(body).max(caught)
        }
        Stmt::Empty | Stmt::Break | Stmt::Continue => 0,
    }
}

#[cycle(greatest)]
fn item_need(item: &Item) -> usize
    requires { item_need item.now ≤ most_frame_count }
    ensures { result ≡ item_need item.now }
{
    match item {
        Item::Execute { statement } => statement_need(statement),
        Item::Local { value, .. } => initial_need(value),
        _ => 0,
    }
}

/// Returns the greatest number of frame words that the evaluation of an expression in a block needs.
#[cycle(greatest)]
pub fn items_need(items: &[Item]) -> usize
    requires { items_need (items_of items.now) ≤ most_frame_count }
    ensures { result ≡ items_need (items_of items.now) }
{
    let mut need = 0;
    for item in items {
        need = need.max(item_need(item));
    }
    need
}

/// Returns the greatest number of frame words that the evaluation of an expression in catch clauses needs.
#[cycle(greatest)]
fn clauses_need(clauses: &[Clause]) -> usize
    requires { clauses_need (clauses_of clauses.now NoClauses) ≤ most_frame_count }
    ensures { result ≡ clauses_need (clauses_of clauses.now NoClauses) }
{
    let mut need = 0;
    for clause in clauses {
        need = need.max(items_need(&clause.items));
    }
    need
}

#[cycle(greatest)]
fn default_need(default: &Option<Body>) -> usize
    requires { clauses_need (default_of default.now) ≤ most_frame_count }
    ensures { result ≡ clauses_need (default_of default.now) }
{
    match default {
        Some(body) => items_need(&body.items),
        None => 0,
    }
}

/// Returns the number of frame words that a statement reserves in addition to those of its variables: some words
/// for each `try`, and one word for each lexical region.
#[cycle(kept)]
fn kept_by(statement: &Stmt) -> usize
    requires { kept_by (view_statement statement.now) ≤ most_frame_count }
    ensures { result ≡ kept_by (view_statement statement.now) }
{
    match statement {
        Stmt::Block { items, .. } => kept_by_items(items),
        Stmt::If {
            then,
            otherwise,
            ..
        } => kept_by(then) + kept_by(otherwise),
        Stmt::While { body, .. } => kept_by(body),
        Stmt::Try {
            body,
            clauses,
            default,
            ..
        } => {
            let caught = kept_by_clauses(clauses) + kept_by_default(default);
            HANDLER_WORDS + kept_by(body) + caught
        }
        _ => 0,
    }
}

#[cycle(kept)]
fn kept_by_item(item: &Item) -> usize
    requires { kept_by_item item.now ≤ most_frame_count }
    ensures { result ≡ kept_by_item item.now }
{
    match item {
        Item::Execute { statement } => kept_by(statement),
        Item::Region { .. } => 1,
        _ => 0,
    }
}

/// Returns the number of frame words that the declarations and statements of a block reserve in addition to those of their variables.
#[cycle(kept)]
pub fn kept_by_items(items: &[Item]) -> usize
    requires { kept_by_items (items_of items.now) ≤ most_frame_count }
    ensures { result ≡ kept_by_items (items_of items.now) }
{
    let mut words = 0;
    for item in items {
        words += kept_by_item(item);
    }
    words
}

#[cycle(kept)]
fn kept_by_clauses(clauses: &[Clause]) -> usize
    requires { kept_by_clauses (clauses_of clauses.now NoClauses) ≤ most_frame_count }
    ensures { result ≡ kept_by_clauses (clauses_of clauses.now NoClauses) }
{
    let mut words = 0;
    for clause in clauses {
        words += kept_by_items(&clause.items);
    }
    words
}

#[cycle(kept)]
fn kept_by_default(default: &Option<Body>) -> usize
    requires { kept_by_clauses (default_of default.now) ≤ most_frame_count }
    ensures { result ≡ kept_by_clauses (default_of default.now) }
{
    match default {
        Some(body) => kept_by_items(&body.items),
        None => 0,
    }
}

/// Returns the number of machine words that variables of these types occupy together.
pub fn words_of_all(types: &[Ty]) -> usize
    requires { words_of_all (map view_ty types.now) ≤ most_frame_count }
    ensures { result ≡ words_of_all (map view_ty types.now) }
{
    let mut words = 0;
    for of_type in types {
        words += words_of(of_type);
    }
    words
}

/// Returns the frame count of a function, that is, the number of machine words that its stack frame may need.
pub fn frame_count(function: &Function) -> usize
    requires { frame_count (view_function function.now) ≤ most_frame_count }
    ensures { result ≡ frame_count (view_function function.now) }
{
    KEPT_WORDS
        + words_of_all(&function.parameters)
        + words_of_all(&function.locals)
        + kept_by_items(&function.body)
        + items_need(&function.body)
}
