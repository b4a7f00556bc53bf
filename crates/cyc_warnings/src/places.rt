//! This file finds the source positions at which expressions, statements and declarations begin.
use cyc_syntax::{Expr, Item, PrefixOperator, Stmt};
use cyc_words::Span;

/// Returns the source position of an expression's first token.
pub(crate) fn span_of(expression: &Expr) -> Span {
    match expression {
        Expr::Number { span, .. }
        | Expr::Character { span, .. }
        | Expr::Null { span }
        | Expr::HeapRegion { span }
        | Expr::UniqueRegion { span }
        | Expr::Bracketed { span, .. }
        | Expr::NumberOfElements { span, .. }
        | Expr::LowByteOf { span, .. }
        | Expr::FreeUnique { span, .. }
        | Expr::FreeKey { span, .. }
        | Expr::Prefixed { span, .. }
        | Expr::New { span, .. }
        | Expr::RegionNew { span, .. } => *span,
        Expr::Variable { name } => name.span,
        Expr::Call { function, .. } => function.span,
        Expr::Chained { base, .. } => span_of(base),
        Expr::Binary { first, .. } => span_of(first),
        Expr::Assign { target, .. } => span_of(target),
    }
}

/// Returns the source position of a statement's first token.
pub(crate) fn span_of_statement(statement: &Stmt) -> Span {
    match statement {
        Stmt::Block { block } => block.span,
        Stmt::Labelled { label, .. } => label.span,
        Stmt::Expression { value } => span_of(value),
        Stmt::Swap { left, .. } => span_of(left),
        Stmt::Empty { span }
        | Stmt::If { span, .. }
        | Stmt::While { span, .. }
        | Stmt::Return { span, .. }
        | Stmt::Break { span }
        | Stmt::Continue { span }
        | Stmt::Throw { span, .. }
        | Stmt::Try { span, .. } => *span,
    }
}

/// Returns the source position of a declaration or statement in a block: its first token, or else its first name.
pub(crate) fn span_of_item(item: &Item) -> Span {
    match item {
        Item::Statement { statement } => span_of_statement(statement),
        Item::Local { of_type, .. } => of_type.span,
        Item::Region { region, .. }
        | Item::Alias { region, .. }
        | Item::DynamicRegion { region, .. } => region.span,
    }
}

/// Returns the source position of the token that shows how a declaration or statement leaves its block: the closing brace of an inner
/// block, or else its first token.
pub(crate) fn span_of_leaving(item: &Item) -> Span {
    match item {
        Item::Statement {
            statement: Stmt::Block { block } | Stmt::Labelled { block, .. },
        } => block.end,
        _ => span_of_item(item),
    }
}

/// Returns true if the second source position directly follows the first one on its line.
pub(crate) fn is_next(first: Span, second: Span) -> bool {
    first.line == second.line && first.column.saturating_add(1) == second.column
}

/// Returns the source position of the single minus sign with which an expression begins, if it does.
pub(crate) fn leading_minus(expression: &Expr) -> Option<Span> {
    match expression {
        Expr::Prefixed {
            span,
            operator: PrefixOperator::Negate,
            operand,
        } => match minus_of(operand) {
            Some(_) => None,
            None => Some(*span),
        },
        Expr::Binary { first, .. } => leading_minus(first),
        _ => None,
    }
}

/// Returns the source position of the minus sign that is the expression's operator.
pub(crate) fn minus_of(expression: &Expr) -> Option<Span> {
    match expression {
        Expr::Prefixed {
            span,
            operator: PrefixOperator::Negate,
            ..
        } => Some(*span),
        _ => None,
    }
}
