//! Comparisons for equality: the values that may be compared, and the operation that compares them.
ghost use Rattle.std.specs.Prelude.{◌≡◌, None};
ghost use Rattle.cyc_syntax.specs.inside.TreeView.{place_of_span};
ghost use Rattle.cyc_types.specs.Types as types;
ghost use Rattle.cyc_types.specs.TypedTrees as nodes;
ghost use Rattle.cyc_types.specs.TypeView.{view_ty};
ghost use Rattle.cyc_types.specs.Rules.{settled};
ghost use Rattle.cyc_types.specs.typing.Expressions.{is_comparable, are_compared, is_compared_live, equality_demanded, null_test, null_tested};
ghost use Rattle.cyc_types.specs.typing.Expressions.{thin_test, int_test, then_compared};
ghost use Rattle.cyc_scope.specs.inside.Code.{Ends};
ghost use Rattle.cyc_operands.specs.inside.Operands.{view_given};
ghost use Rattle.cyc_typing.specs.inside.Comparisons.{then_comparison};

use cyc_operands::Given;
use cyc_operands::types::{is_int_type, is_pointer, is_thin_mark, same_type};
use cyc_scope::{Scope, Settled, Stop};
use cyc_types::Ty;
use cyc_types::typed::{Operator, PointerOperator};
use cyc_words::{Code, Span};

/// The operation that a comparison for equality performs: it compares ints or pointers.
#[derive(Clone, Copy)]
pub(crate) enum Comparison {
    OfInts {
        operator: Operator,
    },
    /// A comparison of pointers. If the left operand reads a local without moving its unique pointer, the local must not change while
    /// the right operand is evaluated.
    OfPointers {
        peeked: Option<usize>,
        operator: PointerOperator,
    },
}

fn is_comparable_type(of_type: &Ty) -> bool
    ensures { result ≡ is_comparable (types.Value (view_ty of_type.now)) }
{
    match of_type {
        Ty::Int | Ty::Pointer { .. } => true,
        Ty::Char | Ty::Handle { .. } | Ty::Key { .. } | Ty::Struct { .. } => false,
    }
}

fn is_comparable(value: Given<'_>) -> bool
    ensures { result ≡ is_comparable (view_given value.entry) }
{
    match value {
        Given::Void | Given::Char | Given::HeapHandle => false,
        Given::Null | Given::Int => true,
        Given::Value(of_type) => is_comparable_type(of_type),
    }
}

/// Returns true if values of two types may be compared: two ints, or two thin pointers with equal targets.
fn are_types_compared(left: &Ty, right: &Ty) -> bool
    ensures { result ≡ are_compared (types.Value (view_ty left.now)) (types.Value (view_ty right.now)) }
{
    match (left, right) {
        (Ty::Int, Ty::Int) => true,
        (
            Ty::Pointer { kind, target, .. },
            Ty::Pointer {
                kind: right_kind,
                target: right_target,
                ..
            },
        ) => is_thin_mark(*kind) && (is_thin_mark(*right_kind) && same_type(target, right_target)),
        _ => false,
    }
}

/// Returns true if two operands may be compared: two ints, two thin pointers with equal targets, or a pointer and `NULL`.
fn are_compared(left: Given<'_>, right: Given<'_>) -> bool
    ensures { result ≡ are_compared (view_given left.entry) (view_given right.entry) }
{
    match (left, right) {
        (Given::Int, Given::Int) => true,
        (Given::Int, Given::Value(of_type)) | (Given::Value(of_type), Given::Int) => {
            is_int_type(of_type)
        }
        (Given::Null, Given::Value(of_type)) | (Given::Value(of_type), Given::Null) => {
            is_pointer(of_type)
        }
        (Given::Value(left_type), Given::Value(right_type)) => {
            are_types_compared(left_type, right_type)
        }
        _ => false,
    }
}

/// Returns false if a comparison for equality is forbidden because it compares two pointers and the region of the left one is not live.
fn is_type_compared_live(scope: &Scope<'_>, of_type: &Ty, other: &Ty) -> bool
    ensures { result ≡ is_compared_live scope.now (types.Value (view_ty of_type.now)) (types.Value (view_ty other.now)) }
{
    match (of_type, other) {
        (Ty::Pointer { region, .. }, Ty::Pointer { .. }) => scope.is_live(*region),
        _ => true,
    }
}

fn is_compared_live(scope: &Scope<'_>, value: Given<'_>, other: Given<'_>) -> bool
    ensures { result ≡ is_compared_live scope.now (view_given value.entry) (view_given other.entry) }
{
    match (value, other) {
        (Given::Value(of_type), Given::Value(other_type)) => {
            is_type_compared_live(scope, of_type, other_type)
        }
        _ => true,
    }
}

/// Checks that two values can be compared for equality; the source positions are those of the values.
pub(crate) fn equality_wanted(
    scope: &Scope<'_>,
    left: Given<'_>,
    span: Span,
    right: Given<'_>,
    right_span: Span,
) -> Result<(), Stop>
    ensures { Ends result (settled None (equality_demanded scope.now (place_of_span span) (view_given left.entry) (place_of_span right_span)
        (view_given right.entry))) }
{
    let mut settled = Settled::new();
    settled.demand(Code::TypeMismatch, span, is_comparable(left));
    settled.demand(Code::TypeMismatch, right_span, is_comparable(right));
    settled.demand(Code::TypeMismatch, span, are_compared(left, right));
    settled.demand(
        Code::RegionNotLive,
        span,
        is_compared_live(scope, left, right),
    );
    settled.demand(
        Code::RegionNotLive,
        right_span,
        is_compared_live(scope, right, left),
    );
    settled.end()
}

fn null_test(negated: bool, is_thin: bool) -> PointerOperator
    ensures { result ≡ null_test negated is_thin }
{
    match (negated, is_thin) {
        (false, true) => PointerOperator::ThinIsNull,
        (false, false) => PointerOperator::FatIsNull,
        (true, true) => PointerOperator::ThinIsNotNull,
        (true, false) => PointerOperator::FatIsNotNull,
    }
}

fn null_tested(negated: bool) -> PointerOperator
    ensures { result ≡ null_tested negated }
{
    if negated {
        PointerOperator::NullIsNot
    } else {
        PointerOperator::NullIs
    }
}

fn thin_test(negated: bool) -> PointerOperator
    ensures { result ≡ thin_test negated }
{
    if negated {
        PointerOperator::NotEqualThin
    } else {
        PointerOperator::EqualThin
    }
}

fn of_ints(negated: bool) -> Comparison
    ensures { (a : nodes.Expression) → then_comparison result a ≡ nodes.ThenCompute (int_test negated) a }
{
    let operator = if negated {
        Operator::NotEqual
    } else {
        Operator::Equal
    };
    Comparison::OfInts { operator }
}

/// Returns the comparison whose left operand has the type `left`; the operand is the unmoved unique
/// pointer of the local `peeked`, if one is given.
fn type_comparison(peeked: Option<usize>, negated: bool, left: &Ty, right: Given<'_>) -> Comparison
    ensures { (a : nodes.Expression) → then_comparison result a ≡ then_compared peeked negated (types.Value (view_ty left.now)) (view_given right.entry) a }
{
    match left {
        Ty::Pointer { kind, .. } => match right {
            Given::Null => Comparison::OfPointers {
                peeked,
                operator: null_test(negated, is_thin_mark(*kind)),
            },
            Given::Int | Given::Char | Given::HeapHandle | Given::Value(_) => {
                Comparison::OfPointers {
                    peeked,
                    operator: thin_test(negated),
                }
            }
            Given::Void => of_ints(negated),
        },
        Ty::Int | Ty::Char | Ty::Handle { .. } | Ty::Key { .. } | Ty::Struct { .. } => {
            of_ints(negated)
        }
    }
}

pub(crate) fn compared(
    peeked: Option<usize>,
    negated: bool,
    left: Given<'_>,
    right: Given<'_>,
) -> Comparison
    ensures { (a : nodes.Expression) → then_comparison result a ≡ then_compared peeked negated (view_given left.entry) (view_given right.entry) a }
{
    match left {
        Given::Null => Comparison::OfPointers {
            peeked: None,
            operator: null_tested(negated),
        },
        Given::Value(of_type) => type_comparison(peeked, negated, of_type, right),
        Given::Void | Given::Int | Given::Char | Given::HeapHandle => of_ints(negated),
    }
}
