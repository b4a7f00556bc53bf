//! Checks expressions by a recursive traversal. The traversal checks the subexpressions of an expression in order of evaluation, and
//! then the requirements of the expression's own form (`cyc_calls`, `cyc_typing`). Each operand is checked once: as a value whose
//! unique pointer is moved, as a peek (a read that moves no unique pointer), or as an lvalue.
ghost use Rattle.std.specs.Prelude.{◌≡◌, ◌≢◌, [], ◌∷◌, map, option_map, Ok, OnOk, IfErr};
ghost use Rattle.cyc_words.specs.declared.fault.Code.TheVariants as codes;
ghost use Rattle.cyc_syntax.specs.inside.TreeView.{place_of_span, view_name, view_initial, view_expression, expressions_of, postfixes_of, operations_of};
ghost use Rattle.cyc_syntax.specs.Trees.{Call, Fields, Prefixed};
ghost use Rattle.cyc_types.specs.TypeView.{view_ty};
ghost use Rattle.cyc_types.specs.Rules.{fault_at, Own, Part, gives, run};
ghost use Rattle.cyc_types.specs.typing.Scopes.{with_counter};
ghost use Rattle.cyc_types.specs.typing.Tests as tests;
ghost use Rattle.cyc_types.specs.typing.Expressions.{value_wanted, rule_looked, operand, is_looking_first, pointed, loaded, reached, rule, rule_all};
ghost use Rattle.cyc_types.specs.typing.Expressions.{rule_chain, rule_place, rule_postfixed, rule_made, rule_placement};
ghost use Rattle.cyc_scope.specs.declared.stop.Stop.TheVariants as stops;
ghost use Rattle.cyc_scope.specs.inside.Code.{Gives};
ghost use Rattle.cyc_operands.specs.inside.Operands.{GivesOne, IsMade, view_given, view_boxed, view_found, value_in};
ghost use Rattle.cyc_typing.specs.inside.Forms.{Joins, IsReached, IsPlaced};
ghost use Rattle.cyc_expressions.specs.inside.Walks.{name_in, rule_no_place, rule_by_handle, one_postfix, one_operation, rule_rest, view_chain};
ghost use Rattle.cyc_expressions.specs.inside.Walks.{left_of, peeked_after};

use cyc_calls::{called, fields_made, push_value};
use cyc_operands::{
    Found, Given, Made, as_int, heap_region, is_looking, null_pointer, number, peeked_local,
    span_inside, span_of,
};
use cyc_scope::{Scope, Stop, refused};
use cyc_syntax::{Expr, Ident, Initial, Operation, Postfix, PrefixOperator};
use cyc_types::typed::UnaryOperator;
use cyc_types::{Region, Ty, typed};
use cyc_typing::{
    Left, Placed, Reached, addressed, array_made, as_place, as_unique, assigned, binary, by_handle,
    computed, created, freed, indexed, join, key_freed, loaded, looked, number_of_elements,
    on_heap, place_meant, plain_made, pointed, read, selected,
};
use cyc_words::{Code, Span};

/// Returns the variable name that an expression consists of, ignoring parentheses, or `None` for any other expression.
fn name_in(expression: &Expr) -> Option<Ident>
    ensures { option_map view_name result ≡ name_in (view_expression expression.now) }
{
    match expression {
        Expr::Variable { name } => Some(*name),
        Expr::Bracketed { inner, .. } => name_in(inner),
        _ => None,
    }
}

/// Returns true if the first operation of a chain only peeks at its left operand, as `==` does: it reads a unique pointer
/// without moving it.
fn is_looking_first(operations: &[Operation]) -> bool
    ensures { result ≡ is_looking_first (operations_of operations.now) }
{
    match operations.first() {
        Some(operation) => is_looking(operation.operator),
        None => false,
    }
}

/// Checks that an operand has at least one postfix (such as `[i]` or `->f`); `span` is the operand's source position.
fn has_postfixes(postfixes: &[Postfix], span: Span) -> Result<(), Stop>
    ensures ok { OnOk result (postfixes.now ≢ []) }
    ensures stops { IfErr result (λ e. e ≡ stops.Refused (fault_at codes.NotAPlace (place_of_span span)) × (postfixes.now ≡ [])) }
{
    if postfixes.is_empty() {
        return Err(refused(Code::NotAPlace, span));
    }
    Ok(())
}

/// The operations of a chain such as `a + b - c`, and the type of the complete chain.
#[derive(Drop)]
struct Chain {
    operations: Vec<typed::Operation>,
    of_type: Ty,
}

/// Returns the left operand of an operation in a chain: in `a + b - c`, the first operand or the result of the previous
/// operations. The result of an operation is not a peek (a read of a local that moves no unique pointer).
fn left_of<'a>(first: Left<'a>, of_type: &'a Option<Ty>) -> Left<'a>
    ensures span { result.span ≡ first.entry.span }
    ensures peeked { result.peeked ≡ peeked_after first.entry.peeked of_type.now }
    ensures given { view_given result.given ≡ left_of (view_given first.entry.given) of_type.now }
{
    match of_type {
        None => first,
        Some(of_type) => Left {
            span: first.span,
            peeked: None,
            given: Given::Value(of_type),
        },
    }
}

/// Returns the type of a chain such as `a + b - c`: the type of its last operation's result, or of its only operand. The chain begins
/// at position `span`.
fn whole_type(first: Given<'_>, of_type: Option<Ty>, span: Span) -> Result<Ty, Stop>
    ensures { Gives view_ty result (run (Own (value_wanted (left_of (view_given first.entry) of_type) (place_of_span span) ∷ [])
        (tests.value_of (left_of (view_given first.entry) of_type)))) }
{
    if let Some(of_type) = of_type {
        return Ok(of_type);
    }
    match first {
        Given::Void | Given::Null => Err(refused(Code::TypeMismatch, span)),
        Given::Int => Ok(Ty::Int),
        Given::Char => Ok(Ty::Char),
        Given::HeapHandle => Ok(Ty::Handle {
            region: Region::Heap,
        }),
        Given::Value(of_type) => Ok(of_type.share()?),
    }
}

/// Returns the target of a pointer as a value. The expression begins at `span`, and the pointer at `pointer_span`.
fn through(
    scope: &Scope<'_>,
    span: Span,
    pointer_span: Span,
    pointer: Box<typed::Expr>,
) -> Result<Box<typed::Expr>, Stop>
    ensures { Gives view_boxed result (run (loaded (place_of_span span) (pointed scope.now (place_of_span pointer_span) (view_boxed pointer)))) }
{
    let cell = pointed(scope, pointer_span, pointer)?;
    loaded(scope.alloc(), span, cell)
}

/// Returns the target of a pointer as an lvalue; the pointer is at position `pointer_span`.
fn place_through(
    scope: &Scope<'_>,
    pointer_span: Span,
    pointer: Box<typed::Expr>,
) -> Result<Box<Found>, Stop>
    ensures { Gives view_found result (run (reached (pointed scope.now (place_of_span pointer_span) (view_boxed pointer)))) }
{
    let cell = pointed(scope, pointer_span, pointer)?;
    as_place(scope.alloc(), cell)
}

/// Returns the typed tree of an expression, or the first fault by the typing rules.
#[cycle(expression)]
pub fn check_expression(scope: &mut Scope<'_>, expression: &Expr) -> Result<Box<typed::Expr>, Stop>
    ensures gives { Gives view_boxed result (run (rule scope.old (view_expression expression.now))) }
    ensures same { OnOk result (scope.new ≡ scope.old) }
{
    match expression {
        Expr::Number { value, .. } => number(scope.alloc(), *value),
        Expr::Character { value, .. } => number(scope.alloc(), u32::from(*value)),
        Expr::Null { .. } => null_pointer(scope.alloc()),
        Expr::HeapRegion { .. } => heap_region(scope.alloc()),
        Expr::UniqueRegion { span } => Err(refused(Code::RegionOrKeyMisused, *span)),
        Expr::Variable { name } => read(scope, *name),
        Expr::Call {
            function,
            arguments,
        } => check_call(scope, arguments, *function),
        Expr::Bracketed { inner, .. } => check_expression(scope, inner),
        Expr::NumberOfElements { pointer, .. } => {
            let value = check_looked(scope, pointer)?;
            number_of_elements(scope.alloc(), span_of(pointer), value)
        }
        Expr::LowByteOf { value, .. } => {
            let whole = check_expression(scope, value)?;
            computed(scope.alloc(), UnaryOperator::LowByte, span_of(value), whole)
        }
        Expr::FreeUnique { pointer, .. } => {
            let value = check_expression(scope, pointer)?;
            freed(scope.alloc(), span_of(pointer), value)
        }
        Expr::FreeKey { key, .. } => key_freed(scope, *key),
        Expr::Chained { base, postfixes } => {
            let span = span_of(base);
            has_postfixes(postfixes, span)?;
            let value = check_looked(scope, base)?;
            check_selection(scope, postfixes, span, value)
        }
        Expr::Prefixed {
            span,
            operator,
            operand,
        } => check_prefixed(scope, operand, *operator, *span),
        Expr::New { span, value } => {
            let made = check_made(scope, value)?;
            let placed = on_heap(scope.alloc())?;
            created(scope.alloc(), *span, placed, made)
        }
        Expr::RegionNew {
            span,
            region,
            value,
        } => {
            let placed = check_placement(scope, region, span_of(region))?;
            let made = check_made(scope, value)?;
            created(scope.alloc(), *span, placed, made)
        }
        Expr::Binary { first, rest } => {
            let left = check_operand(scope, first, is_looking_first(rest))?;
            check_chain(scope, rest, span_of(first), left)
        }
        Expr::Assign { target, value } => {
            let place = check_place(scope, target, span_of(target))?;
            let right = check_expression(scope, value)?;
            assigned(scope, place, span_of(value), right)
        }
    }
}

/// Checks an operand that is only peeked at: a unique pointer in it is read but not moved.
#[cycle(expression)]
pub fn check_looked(scope: &mut Scope<'_>, expression: &Expr) -> Result<Box<typed::Expr>, Stop>
    ensures gives { Gives view_boxed result (run (rule_looked scope.old (view_expression expression.now) (rule scope.old (view_expression expression.now)))) }
    ensures same { OnOk result (scope.new ≡ scope.old) }
{
    match name_in(expression) {
        Some(name) => looked(scope, name),
        None => check_expression(scope, expression),
    }
}

/// Checks an operand as a peek (a read that moves no unique pointer) if `is_looking` is true, otherwise as a value whose
/// unique pointer is moved.
#[cycle(expression)]
fn check_operand(
    scope: &mut Scope<'_>,
    expression: &Expr,
    is_looking: bool,
) -> Result<Box<typed::Expr>, Stop>
    ensures gives { Gives view_boxed result (run (operand is_looking (rule scope.old (view_expression expression.now))
        (rule_looked scope.old (view_expression expression.now) (rule scope.old (view_expression expression.now))))) }
    ensures same { OnOk result (scope.new ≡ scope.old) }
{
    if is_looking {
        check_looked(scope, expression)
    } else {
        check_expression(scope, expression)
    }
}

/// Checks a list of expressions, each as a value that is used: a unique pointer in a variable is moved out of the variable.
#[cycle(expression)]
fn check_values(scope: &mut Scope<'_>, expressions: &[Expr]) -> Result<Vec<typed::Converted>, Stop>
    ensures gives { Gives (λ v. map value_in v.items) result (run (rule_all scope.old (expressions_of expressions.now))) }
    ensures same { OnOk result (scope.new ≡ scope.old) }
{
    let mut values = Vec::with_capacity(scope.alloc(), expressions.len())?;
    for expression in expressions {
        let value = check_expression(scope, expression)?;
        push_value(&mut values, value)?;
    }
    Ok(values)
}

/// Checks the call of a named function.
#[cycle(expression)]
fn check_call(
    scope: &mut Scope<'_>,
    arguments: &[Expr],
    function: Ident,
) -> Result<Box<typed::Expr>, Stop>
    ensures gives { Gives view_boxed result (run (rule scope.old (Call (view_name function) (expressions_of arguments.now)))) }
    ensures same { OnOk result (scope.new ≡ scope.old) }
{
    let values = check_values(scope, arguments)?;
    called(scope, function, arguments, values)
}

#[cycle(expression)]
fn check_prefixed(
    scope: &mut Scope<'_>,
    operand: &Expr,
    operator: PrefixOperator,
    span: Span,
) -> Result<Box<typed::Expr>, Stop>
    ensures gives { Gives view_boxed result (run (rule scope.old (Prefixed (place_of_span span) operator (view_expression operand.now)))) }
    ensures same { OnOk result (scope.new ≡ scope.old) }
{
    match operator {
        PrefixOperator::Negate => {
            let value = check_expression(scope, operand)?;
            computed(
                scope.alloc(),
                UnaryOperator::Negate,
                span_of(operand),
                value,
            )
        }
        PrefixOperator::Complement => {
            let value = check_expression(scope, operand)?;
            computed(
                scope.alloc(),
                UnaryOperator::Complement,
                span_of(operand),
                value,
            )
        }
        PrefixOperator::Not => {
            let value = check_looked(scope, operand)?;
            computed(scope.alloc(), UnaryOperator::Not, span_of(operand), value)
        }
        PrefixOperator::Dereference => {
            let value = check_looked(scope, operand)?;
            through(scope, span, span_of(operand), value)
        }
        PrefixOperator::AddressOf => {
            let place = check_place(scope, operand, span_of(operand))?;
            addressed(scope.alloc(), span_inside(operand), place)
        }
    }
}

/// Checks an expression as an lvalue; the expression begins at position `span`.
#[cycle(expression)]
pub fn check_place(scope: &mut Scope<'_>, expression: &Expr, span: Span) -> Result<Box<Found>, Stop>
    ensures gives { Gives view_found result (run (rule_place scope.old (place_of_span span) (view_expression expression.now)
        (rule scope.old (view_expression expression.now)))) }
    ensures same { OnOk result (scope.new ≡ scope.old) }
{
    match expression {
        Expr::Variable { name } => place_meant(scope, *name, span),
        Expr::Bracketed { inner, .. } => check_place(scope, inner, span),
        Expr::Prefixed {
            operator,
            operand,
            ..
        } => match operator {
            PrefixOperator::Dereference => {
                let value = check_looked(scope, operand)?;
                place_through(scope, span_of(operand), value)
            }
            PrefixOperator::Negate
            | PrefixOperator::Not
            | PrefixOperator::Complement
            | PrefixOperator::AddressOf => check_no_place(scope, expression, span),
        },
        Expr::Chained { base, postfixes } => {
            let start = span_of(base);
            has_postfixes(postfixes, start)?;
            let value = check_looked(scope, base)?;
            check_cell(scope, postfixes, start, value)
        }
        Expr::Number { .. }
        | Expr::Character { .. }
        | Expr::Null { .. }
        | Expr::HeapRegion { .. }
        | Expr::UniqueRegion { .. }
        | Expr::Call { .. }
        | Expr::NumberOfElements { .. }
        | Expr::LowByteOf { .. }
        | Expr::FreeUnique { .. }
        | Expr::FreeKey { .. }
        | Expr::New { .. }
        | Expr::RegionNew { .. }
        | Expr::Binary { .. }
        | Expr::Assign { .. } => check_no_place(scope, expression, span),
    }
}

/// Checks the subexpressions of an expression that is used as an lvalue but is not one, and then rejects the expression.
#[cycle(expression)]
fn check_no_place(scope: &mut Scope<'_>, expression: &Expr, span: Span) -> Result<Box<Found>, Stop>
    ensures gives { Gives view_found result (run (rule_no_place scope.old (place_of_span span) (view_expression expression.now))) }
    ensures same { OnOk result (scope.new ≡ scope.old) }
{
    check_expression(scope, expression)?;
    Err(refused(Code::NotAPlace, span))
}

/// Checks one postfix after an operand; the operand begins at position `span`.
#[cycle(expression)]
fn check_postfix(
    scope: &mut Scope<'_>,
    postfix: &Postfix,
    span: Span,
    value: Box<typed::Expr>,
) -> Result<Box<Reached>, Stop>
    ensures gives { GivesOne IsReached result (one_postfix scope.old (place_of_span span) (view_boxed value) (postfix.now)) }
    ensures same { OnOk result (scope.new ≡ scope.old) }
{
    match postfix {
        Postfix::Index { index } => {
            let number = check_expression(scope, index)?;
            indexed(scope, span, value, span_of(index), number)
        }
        Postfix::Field { name } => selected(scope, span, value, *name),
    }
}

/// Returns the memory cell that an operand with postfixes denotes; the operand begins at position `span`.
#[cycle(expression)]
fn check_postfixes(
    scope: &mut Scope<'_>,
    postfixes: &[Postfix],
    span: Span,
    value: Box<typed::Expr>,
) -> Result<Box<Reached>, Stop>
    ensures gives { GivesOne IsReached result (run (rule_postfixed scope.old (place_of_span span) (gives (view_boxed value)) (postfixes_of postfixes.now))) }
    ensures same { OnOk result (scope.new ≡ scope.old) }
{
    if postfixes.is_empty() {
        return Err(refused(Code::NotAPlace, span));
    }
    let mut cell = check_postfix(scope, &postfixes[0], span, value)?;
    for i in 1..postfixes.len() {
        let value = loaded(scope.alloc(), span, cell)?;
        cell = check_postfix(scope, &postfixes[i], span, value)?;
    }
    Ok(cell)
}

/// Returns the value in the memory cell that an operand with postfixes denotes.
#[cycle(expression)]
fn check_selection(
    scope: &mut Scope<'_>,
    postfixes: &[Postfix],
    span: Span,
    value: Box<typed::Expr>,
) -> Result<Box<typed::Expr>, Stop>
    ensures gives { Gives view_boxed result (run (Part (rule_postfixed scope.old (place_of_span span) (gives (view_boxed value))
        (postfixes_of postfixes.now)) (λ w. loaded (place_of_span span) w))) }
    ensures same { OnOk result (scope.new ≡ scope.old) }
{
    let cell = check_postfixes(scope, postfixes, span, value)?;
    loaded(scope.alloc(), span, cell)
}

/// Returns the memory cell that an operand with postfixes denotes, as an lvalue.
#[cycle(expression)]
fn check_cell(
    scope: &mut Scope<'_>,
    postfixes: &[Postfix],
    span: Span,
    value: Box<typed::Expr>,
) -> Result<Box<Found>, Stop>
    ensures gives { Gives view_found result (run (Part (rule_postfixed scope.old (place_of_span span) (gives (view_boxed value))
        (postfixes_of postfixes.now)) (λ w. reached w))) }
    ensures same { OnOk result (scope.new ≡ scope.old) }
{
    let cell = check_postfixes(scope, postfixes, span, value)?;
    as_place(scope.alloc(), cell)
}

/// Checks one operation of a chain (such as `a + b - c`) after its left operand, and adds the operation to the previous ones. Returns the
/// type of the operation's result, which is the type of the next operation's left operand.
#[cycle(expression)]
fn check_operation(
    scope: &mut Scope<'_>,
    operation: &Operation,
    so_far: &mut Vec<typed::Operation>,
    left: Left<'_>,
) -> Result<Ty, Stop>
    ensures gives { Joins so_far.old.items so_far.new.items result
        (one_operation scope.old (place_of_span left.entry.span) left.entry.peeked (view_given left.entry.given) operation.now.operator
        (view_expression operation.now.operand)) }
    ensures same { OnOk result (scope.new ≡ scope.old) }
{
    let operand = check_operand(scope, &operation.operand, is_looking(operation.operator))?;
    let right = span_of(&operation.operand);
    join(scope, so_far, left, operation.operator, right, operand)
}

/// Returns the operations of a chain (such as `a + b - c`) after its first operand, and the type of the complete chain.
#[cycle(expression)]
fn check_operations(
    scope: &mut Scope<'_>,
    operations: &[Operation],
    first: Left<'_>,
) -> Result<Chain, Stop>
    ensures gives { Gives view_chain result (run (rule_chain scope.old (place_of_span first.entry.span) first.entry.peeked
        (view_given first.entry.given) (operations_of operations.now))) }
    ensures same { OnOk result (scope.new ≡ scope.old) }
{
    let mut rest = Vec::with_capacity(scope.alloc(), operations.len())?;
    let mut of_type: Option<Ty> = None;
    for operation in operations {
        let left = left_of(first, &of_type);
        of_type = Some(check_operation(scope, operation, &mut rest, left)?);
    }
    let of_type = whole_type(first.given, of_type, first.span)?;
    Ok(Chain {
        operations: rest,
        of_type,
    })
}

/// Checks a chain of operations such as `a + b - c`; its first operand begins at position `span`.
#[cycle(expression)]
fn check_chain(
    scope: &mut Scope<'_>,
    operations: &[Operation],
    span: Span,
    left: Box<typed::Expr>,
) -> Result<Box<typed::Expr>, Stop>
    ensures gives { Gives view_boxed result (run (rule_rest scope.old (place_of_span span) (view_boxed left) (operations_of operations.now))) }
    ensures same { OnOk result (scope.new ≡ scope.old) }
{
    let left = as_int(scope.alloc(), left)?;
    let first = Left {
        span,
        peeked: peeked_local(&left),
        given: Given::by(&left),
    };
    let chain = check_operations(scope, operations, first)?;
    binary(scope.alloc(), left, chain.operations, chain.of_type)
}

/// Checks and returns the initial value or values of a new object.
#[cycle(expression)]
fn check_made(scope: &mut Scope<'_>, initial: &Initial) -> Result<Box<Made>, Stop>
    ensures gives { GivesOne IsMade result (run (rule_made scope.old (view_initial initial.now))) }
    ensures same { OnOk result (scope.new ≡ scope.old) }
{
    match initial {
        Initial::Plain { value } => {
            let node = check_expression(scope, value)?;
            plain_made(scope.alloc(), span_of(value), node)
        }
        Initial::Fields {
            name,
            regions,
            values,
        } => check_fields(scope, values, *name, regions),
        Initial::Array {
            span,
            variable,
            length,
            element,
        } => {
            let count = check_expression(scope, length)?;
            let level = scope.counters();
            let one = check_element(scope, element, *variable)?;
            array_made(
                scope.alloc(),
                level,
                *span,
                span_of(length),
                count,
                span_of(element),
                one,
            )
        }
    }
}

/// Checks the field values of a new struct.
#[cycle(expression)]
fn check_fields(
    scope: &mut Scope<'_>,
    expressions: &[Expr],
    name: Ident,
    regions: &[Ident],
) -> Result<Box<Made>, Stop>
    ensures gives { GivesOne IsMade result (run (rule_made scope.old (Fields (view_name name) (map view_name regions.now) (expressions_of expressions.now)))) }
    ensures same { OnOk result (scope.new ≡ scope.old) }
{
    let values = check_values(scope, expressions)?;
    fields_made(scope, name, regions, expressions, values)
}

/// Checks the element expression of an array initializer `for` with the given loop variable.
#[cycle(expression)]
fn check_element(
    scope: &mut Scope<'_>,
    element: &Expr,
    variable: Ident,
) -> Result<Box<typed::Expr>, Stop>
    ensures gives { Gives view_boxed result (run (rule (with_counter (view_name variable) scope.old) (view_expression element.now))) }
    ensures same { OnOk result (scope.new ≡ scope.old) }
{
    let mark = scope.mark();
    scope.declare_counter(variable)?;
    let value = check_expression(scope, element)?;
    scope.leave(mark);
    Ok(value)
}

/// Returns where a new object is allocated (in the unique region or in the region of a handle), from the
/// argument of `rnew`; `span` is the argument's source position.
#[cycle(expression)]
fn check_placement(
    scope: &mut Scope<'_>,
    expression: &Expr,
    span: Span,
) -> Result<Box<Placed>, Stop>
    ensures gives { GivesOne IsPlaced result (run (rule_placement scope.old (place_of_span span) (view_expression expression.now)
        (rule scope.old (view_expression expression.now)))) }
    ensures same { OnOk result (scope.new ≡ scope.old) }
{
    match expression {
        Expr::UniqueRegion { .. } => as_unique(scope.alloc()),
        Expr::Bracketed { inner, .. } => check_placement(scope, inner, span),
        Expr::Number { .. }
        | Expr::Character { .. }
        | Expr::Null { .. }
        | Expr::HeapRegion { .. }
        | Expr::Variable { .. }
        | Expr::Call { .. }
        | Expr::NumberOfElements { .. }
        | Expr::LowByteOf { .. }
        | Expr::FreeUnique { .. }
        | Expr::FreeKey { .. }
        | Expr::Chained { .. }
        | Expr::Prefixed { .. }
        | Expr::New { .. }
        | Expr::RegionNew { .. }
        | Expr::Binary { .. }
        | Expr::Assign { .. } => check_by_handle(scope, expression, span),
    }
}

/// Checks the region handle of a new object and returns the placement in its region; `span` is the handle's source position.
#[cycle(expression)]
fn check_by_handle(
    scope: &mut Scope<'_>,
    expression: &Expr,
    span: Span,
) -> Result<Box<Placed>, Stop>
    ensures gives { GivesOne IsPlaced result (run (rule_by_handle scope.old (place_of_span span) (view_expression expression.now))) }
    ensures same { OnOk result (scope.new ≡ scope.old) }
{
    let handle = check_expression(scope, expression)?;
    by_handle(scope, span, handle)
}
