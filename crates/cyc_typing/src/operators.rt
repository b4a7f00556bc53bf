//! Binary operators.
ghost use Rattle.std.specs.Prelude.{◌≡◌, [], ◌∷◌, ◌++◌, ◌||◌, None, Ok, OnOk, IfErr};
ghost use Rattle.cyc_syntax.specs.inside.TreeView.{place_of_span};
ghost use Rattle.cyc_words.specs.declared.fault.Code.TheVariants as codes;
ghost use Rattle.cyc_types.specs.declared.typed.Operation.{Operation as OperationCode};
ghost use Rattle.cyc_types.specs.Types as types;
ghost use Rattle.cyc_types.specs.TypedTrees as nodes;
ghost use Rattle.cyc_types.specs.TypedTreeView as typed_view;
ghost use Rattle.cyc_types.specs.TypeView.{view_ty};
ghost use Rattle.cyc_types.specs.Rules.{demand, settled, run};
ghost use Rattle.cyc_types.specs.typing.Tests.{is_int, is_value};
ghost use Rattle.cyc_types.specs.typing.Expressions as rules;
ghost use Rattle.cyc_types.specs.typing.Expressions.{is_movable, then_pointer, then_added, ints_joined, tests_joined, sums_joined, equality_joined, joined};
ghost use Rattle.cyc_scope.specs.declared.stop.Stop.TheVariants as stops;
ghost use Rattle.cyc_scope.specs.inside.Code.{Ends, Gives};
ghost use Rattle.cyc_operands.specs.inside.Operands.{view_given, view_boxed};
ghost use Rattle.cyc_typing.specs.inside.Forms.{put_operation, Joins};
ghost use Rattle.cyc_typing.specs.inside.Comparisons.{then_comparison};

use crate::comparisons::{Comparison, compared, equality_wanted};
use cyc_operands::{Given, as_int, boxed};
use cyc_scope::{Scope, Settled, Stop};
use cyc_syntax::BinaryOperator;
use cyc_types::typed::{LogicalOperator, Operation, Operator, PointerOperator};
use cyc_types::{Ty, typed};
use cyc_words::{Code, Span};
use std::alloc::Global;

/// The left operand of an operator: the whole operator expression's source position, the local that the operand reads
/// without moving a unique pointer, and the operand's type.
#[derive(Clone, Copy)]
pub struct Left<'a> {
    pub span: Span,
    pub peeked: Option<usize>,
    pub given: Given<'a>,
}

/// Adds an operator with its right operand at the end of the list of an expression's operators.
fn push(operations: &mut Vec<Operation>, operation: Operation) -> Result<(), Stop>
    ensures pushed { OnOk result (operations.new.items ≡ operations.old.items ++ operation ∷ []) }
    ensures memory { IfErr result (λ e. e ≡ stops.Memory) }
{
    operations.push(operation)?;
    Ok(())
}

#[inline(never)]
fn push_compute(
    operations: &mut Vec<Operation>,
    operator: Operator,
    span: Span,
    operand: Box<typed::Expr>,
) -> Result<(), Stop>
    ensures pushed { OnOk result ((o : OperationCode) × (operations.new.items ≡ operations.old.items ++ o ∷ [])
        × (put_operation o ≡ nodes.ThenCompute operator (view_boxed operand))) }
    ensures memory { IfErr result (λ e. e ≡ stops.Memory) }
{
    let operand = Box::into_inner(operand);
    push(
        operations,
        Operation::Compute {
            span,
            operator,
            operand,
        },
    )
}

#[inline(never)]
fn push_test(
    operations: &mut Vec<Operation>,
    operator: LogicalOperator,
    operand: Box<typed::Expr>,
) -> Result<(), Stop>
    ensures pushed { OnOk result ((o : OperationCode) × (operations.new.items ≡ operations.old.items ++ o ∷ [])
        × (put_operation o ≡ nodes.ThenTest operator (view_boxed operand))) }
    ensures memory { IfErr result (λ e. e ≡ stops.Memory) }
{
    let operand = Box::into_inner(operand);
    push(operations, Operation::Test { operator, operand })
}

fn pointer_operation(
    peeked: Option<usize>,
    operator: PointerOperator,
    operand: typed::Expr,
) -> Operation
    ensures { put_operation result ≡ then_pointer peeked operator (typed_view.view_expression operand) }
{
    match peeked {
        Some(number) => Operation::PointerPeek {
            number,
            operator,
            operand,
        },
        None => Operation::Pointer { operator, operand },
    }
}

#[inline(never)]
fn push_pointer(
    operations: &mut Vec<Operation>,
    peeked: Option<usize>,
    operator: PointerOperator,
    operand: Box<typed::Expr>,
) -> Result<(), Stop>
    ensures pushed { OnOk result ((o : OperationCode) × (operations.new.items ≡ operations.old.items ++ o ∷ [])
        × (put_operation o ≡ then_pointer peeked operator (view_boxed operand))) }
    ensures memory { IfErr result (λ e. e ≡ stops.Memory) }
{
    let operation = pointer_operation(peeked, operator, Box::into_inner(operand));
    push(operations, operation)
}

/// Checks that both operands of an operator are ints.
fn ints_wanted(left: Given<'_>, span: Span, right: Given<'_>, right_span: Span) -> Result<(), Stop>
    ensures { Ends result (settled None (rules.int_wanted (view_given left.entry) (place_of_span span)
        ∷ rules.int_wanted (view_given right.entry) (place_of_span right_span) ∷ [])) }
{
    let mut settled = Settled::new();
    settled.demand(Code::TypeMismatch, span, left.is_int());
    settled.demand(Code::TypeMismatch, right_span, right.is_int());
    settled.end()
}

#[inline(never)]
fn join_ints(
    operations: &mut Vec<Operation>,
    left: Left<'_>,
    operator: Operator,
    span: Span,
    operand: Box<typed::Expr>,
) -> Result<Ty, Stop>
    ensures { Joins operations.old.items operations.new.items result
        (run (ints_joined (place_of_span left.entry.span) (view_given left.entry.given) operator (place_of_span span) (view_boxed operand))) }
{
    ints_wanted(left.given, left.span, Given::by(&operand), span)?;
    push_compute(operations, operator, span, operand)?;
    Ok(Ty::Int)
}

/// Checks that both operands of an operator can be tested against zero or null.
fn tests_wanted(left: Given<'_>, span: Span, right: Given<'_>, right_span: Span) -> Result<(), Stop>
    ensures { Ends result (settled None (rules.test_wanted (view_given left.entry) (place_of_span span)
        ∷ rules.test_wanted (view_given right.entry) (place_of_span right_span) ∷ [])) }
{
    let mut settled = Settled::new();
    settled.demand(Code::TypeMismatch, span, left.is_tested());
    settled.demand(Code::TypeMismatch, right_span, right.is_tested());
    settled.end()
}

#[inline(never)]
fn join_tests(
    operations: &mut Vec<Operation>,
    left: Left<'_>,
    operator: LogicalOperator,
    span: Span,
    operand: Box<typed::Expr>,
) -> Result<Ty, Stop>
    ensures { Joins operations.old.items operations.new.items result
        (run (tests_joined (place_of_span left.entry.span) (view_given left.entry.given) operator (place_of_span span) (view_boxed operand))) }
{
    tests_wanted(left.given, left.span, Given::by(&operand), span)?;
    push_test(operations, operator, operand)?;
    Ok(Ty::Int)
}

/// Checks the operands of a sum: the left operand is an int or a fat pointer that allows arithmetic, and the right operand is an int.
fn sum_wanted(left: Given<'_>, span: Span, right: Given<'_>, right_span: Span) -> Result<(), Stop>
    ensures { Ends result (settled None (demand codes.TypeMismatch (place_of_span span)
        (is_int (view_given left.entry) || is_value is_movable (view_given left.entry))
        ∷ rules.int_wanted (view_given right.entry) (place_of_span right_span) ∷ [])) }
{
    let mut settled = Settled::new();
    settled.demand(Code::TypeMismatch, span, left.is_int() || left.is_movable());
    settled.demand(Code::TypeMismatch, right_span, right.is_int());
    settled.end()
}

/// Adds a sum or difference whose left operand has the type `left` to the list of an expression's operators.
fn push_type_sum(
    operations: &mut Vec<Operation>,
    left: &Ty,
    operator: Operator,
    fat: PointerOperator,
    span: Span,
    operand: Box<typed::Expr>,
) -> Result<(), Stop>
    ensures pushed { OnOk result ((o : OperationCode) × (operations.new.items ≡ operations.old.items ++ o ∷ [])
        × (put_operation o ≡ then_added (types.Value (view_ty left.now)) operator fat (view_boxed operand))) }
    ensures memory { IfErr result (λ e. e ≡ stops.Memory) }
{
    match left {
        Ty::Int => push_compute(operations, operator, span, operand),
        Ty::Char | Ty::Pointer { .. } | Ty::Handle { .. } | Ty::Key { .. } | Ty::Struct { .. } =>
            push_pointer(operations, None, fat, operand),
    }
}

/// Adds a sum or difference, of ints or of a fat pointer and an int, to the list of an expression's operators.
#[inline(never)]
fn push_sum(
    operations: &mut Vec<Operation>,
    left: Given<'_>,
    operator: Operator,
    fat: PointerOperator,
    span: Span,
    operand: Box<typed::Expr>,
) -> Result<(), Stop>
    ensures pushed { OnOk result ((o : OperationCode) × (operations.new.items ≡ operations.old.items ++ o ∷ [])
        × (put_operation o ≡ then_added (view_given left.entry) operator fat (view_boxed operand))) }
    ensures memory { IfErr result (λ e. e ≡ stops.Memory) }
{
    match left {
        Given::Int => push_compute(operations, operator, span, operand),
        Given::Value(of_type) => push_type_sum(operations, of_type, operator, fat, span, operand),
        Given::Void | Given::Null | Given::Char | Given::HeapHandle => {
            push_pointer(operations, None, fat, operand)
        }
    }
}

#[inline(never)]
fn join_sum(
    operations: &mut Vec<Operation>,
    left: Left<'_>,
    operator: Operator,
    fat: PointerOperator,
    span: Span,
    operand: Box<typed::Expr>,
) -> Result<Ty, Stop>
    ensures { Joins operations.old.items operations.new.items result
        (run (sums_joined (place_of_span left.entry.span) (view_given left.entry.given) operator fat (place_of_span span) (view_boxed operand))) }
{
    sum_wanted(left.given, left.span, Given::by(&operand), span)?;
    let of_type = left.given.of_type()?;
    push_sum(operations, left.given, operator, fat, span, operand)?;
    Ok(of_type)
}

#[inline(never)]
fn push_comparison(
    operations: &mut Vec<Operation>,
    comparison: Comparison,
    span: Span,
    operand: Box<typed::Expr>,
) -> Result<(), Stop>
    ensures pushed { OnOk result ((o : OperationCode) × (operations.new.items ≡ operations.old.items ++ o ∷ [])
        × (put_operation o ≡ then_comparison comparison (view_boxed operand))) }
    ensures memory { IfErr result (λ e. e ≡ stops.Memory) }
{
    match comparison {
        Comparison::OfInts { operator } => push_compute(operations, operator, span, operand),
        Comparison::OfPointers { peeked, operator } => {
            push_pointer(operations, peeked, operator, operand)
        }
    }
}

/// Adds a comparison for equality or inequality to the list of an expression's operators.
#[inline(never)]
fn join_equality(
    scope: &Scope<'_>,
    operations: &mut Vec<Operation>,
    left: Left<'_>,
    negated: bool,
    span: Span,
    operand: Box<typed::Expr>,
) -> Result<Ty, Stop>
    ensures { Joins operations.old.items operations.new.items result
        (run (equality_joined scope.now (place_of_span left.entry.span) left.entry.peeked (view_given left.entry.given) negated (place_of_span span)
        (view_boxed operand))) }
{
    let right = Given::by(&operand);
    equality_wanted(scope, left.given, left.span, right, span)?;
    let meant = compared(left.peeked, negated, left.given, right);
    push_comparison(operations, meant, span, operand)?;
    Ok(Ty::Int)
}

/// Adds an operator with its right operand at the end of the list of an expression's operators. Returns the type of the operator's result.
#[inline(never)]
pub fn join(
    scope: &Scope<'_>,
    operations: &mut Vec<Operation>,
    left: Left<'_>,
    operator: BinaryOperator,
    span: Span,
    operand: Box<typed::Expr>,
) -> Result<Ty, Stop>
    ensures { Joins operations.old.items operations.new.items result
        (run (joined scope.now (place_of_span left.entry.span) left.entry.peeked (view_given left.entry.given) operator (place_of_span span)
        (rules.as_int (view_boxed operand)))) }
{
    let operand = as_int(scope.alloc(), operand)?;
    let os = operations;
    match operator {
        BinaryOperator::OrElse => join_tests(os, left, LogicalOperator::OrElse, span, operand),
        BinaryOperator::AndThen => join_tests(os, left, LogicalOperator::AndThen, span, operand),
        BinaryOperator::Or => join_ints(os, left, Operator::Or, span, operand),
        BinaryOperator::Xor => join_ints(os, left, Operator::Xor, span, operand),
        BinaryOperator::And => join_ints(os, left, Operator::And, span, operand),
        BinaryOperator::Equal => join_equality(scope, os, left, false, span, operand),
        BinaryOperator::NotEqual => join_equality(scope, os, left, true, span, operand),
        BinaryOperator::Less => join_ints(os, left, Operator::Less, span, operand),
        BinaryOperator::LessOrEqual => join_ints(os, left, Operator::LessOrEqual, span, operand),
        BinaryOperator::Greater => join_ints(os, left, Operator::Greater, span, operand),
        BinaryOperator::GreaterOrEqual => {
            join_ints(os, left, Operator::GreaterOrEqual, span, operand)
        }
        BinaryOperator::ShiftLeft => join_ints(os, left, Operator::ShiftLeft, span, operand),
        BinaryOperator::ShiftRight => join_ints(os, left, Operator::ShiftRight, span, operand),
        BinaryOperator::Add => join_sum(
            os,
            left,
            Operator::Add,
            PointerOperator::AddFat,
            span,
            operand,
        ),
        BinaryOperator::Subtract => join_sum(
            os,
            left,
            Operator::Subtract,
            PointerOperator::SubtractFat,
            span,
            operand,
        ),
        BinaryOperator::Multiply => join_ints(os, left, Operator::Multiply, span, operand),
        BinaryOperator::Divide => join_ints(os, left, Operator::Divide, span, operand),
        BinaryOperator::Remainder => join_ints(os, left, Operator::Remainder, span, operand),
    }
}

/// Returns the expression of operands joined by operators, with the type of the complete expression.
#[inline(never)]
pub fn binary(
    alloc: Global,
    first: Box<typed::Expr>,
    rest: Vec<Operation>,
    of_type: Ty,
) -> Result<Box<typed::Expr>, Stop>
    ensures { Gives view_boxed result (Ok (nodes.Binary (view_boxed first) (typed_view.operations_of rest.items) (view_ty of_type))) }
{
    boxed(
        alloc,
        typed::Expr::Binary {
            first,
            rest,
            of_type,
        },
    )
}
