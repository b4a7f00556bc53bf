//! The source positions of operands, and the typing rules' requirements on operands.
ghost use Rattle.std.specs.Prelude.{◌≡◌, [], ◌∷◌, None, Option};
ghost use Rattle.cyc_syntax.specs.inside.TreeView.{place_of_span, view_expression};
ghost use Rattle.cyc_syntax.specs.Trees.{place_of};
ghost use Rattle.cyc_types.specs.TypedTreeView as typed_view;
ghost use Rattle.cyc_types.specs.Rules.{settled};
ghost use Rattle.cyc_types.specs.typing.Expressions.{int_wanted, test_wanted, value_wanted, place_inside, peeked_local, is_looking};
ghost use Rattle.cyc_scope.specs.inside.Code.{Ends};
ghost use Rattle.cyc_operands.specs.inside.Operands.{view_given};

use crate::given::Given;
use cyc_scope::{Settled, Stop};
use cyc_syntax::{BinaryOperator, Expr};
use cyc_types::typed;
use cyc_words::{Code, Span};

/// Returns the source position of the first token of an expression.
pub fn span_of(expression: &Expr) -> Span
    ensures { place_of_span result ≡ place_of (view_expression expression.now) }
{
    match expression {
        Expr::Number { span, .. }
        | Expr::Character { span, .. }
        | Expr::Null { span }
        | Expr::HeapRegion { span }
        | Expr::UniqueRegion { span }
        | Expr::Bracketed { span, .. }
        | Expr::NumberOfElements { span, .. }
        | Expr::LowByteOf { span, .. }
        | Expr::FreeUnique { span, .. }
        | Expr::FreeKey { span, .. }
        | Expr::Prefixed { span, .. }
        | Expr::New { span, .. }
        | Expr::RegionNew { span, .. } => *span,
        Expr::Variable { name } => name.span,
        Expr::Call { function, .. } => function.span,
        Expr::Chained { base, .. } => span_of(base),
        Expr::Binary { first, .. } => span_of(first),
        Expr::Assign { target, .. } => span_of(target),
    }
}

/// Returns the source position of the first token of an expression, ignoring parentheses.
pub fn span_inside(expression: &Expr) -> Span
    ensures { place_of_span result ≡ place_inside (view_expression expression.now) }
{
    match expression {
        Expr::Bracketed { inner, .. } => span_inside(inner),
        _ => span_of(expression),
    }
}

/// Returns the local variable that an operand only looks at without moving its value, if any.
pub fn peeked_local(value: &typed::Expr) -> Option<usize>
    ensures { result ≡ peeked_local (typed_view.view_expression value.now) }
{
    match value {
        typed::Expr::Peek { number, .. } => Some(*number),
        _ => None,
    }
}

/// Returns true if an operator only looks at its operands, so that it does not move their values.
pub fn is_looking(operator: BinaryOperator) -> bool
    ensures { result ≡ is_looking operator }
{
    matches!(
        operator,
        BinaryOperator::OrElse
            | BinaryOperator::AndThen
            | BinaryOperator::Equal
            | BinaryOperator::NotEqual
    )
}

/// Checks that a value is an int.
pub fn int_wanted(value: Given<'_>, span: Span) -> Result<(), Stop>
    ensures { Ends result (settled None (int_wanted (view_given value.entry) (place_of_span span) ∷ [])) }
{
    let mut settled = Settled::new();
    settled.demand(Code::TypeMismatch, span, value.is_int());
    settled.end()
}

/// Checks that a value can be tested against zero or null.
pub fn test_wanted(value: Given<'_>, span: Span) -> Result<(), Stop>
    ensures { Ends result (settled None (test_wanted (view_given value.entry) (place_of_span span) ∷ [])) }
{
    let mut settled = Settled::new();
    settled.demand(Code::TypeMismatch, span, value.is_tested());
    settled.end()
}

/// Checks that an expression has a value.
pub fn value_wanted(value: Given<'_>, span: Span) -> Result<(), Stop>
    ensures { Ends result (settled None (value_wanted (view_given value.entry) (place_of_span span) ∷ [])) }
{
    let mut settled = Settled::new();
    settled.demand(Code::TypeMismatch, span, value.is_value());
    settled.end()
}
