//! This file finds statements that are laid out or nested otherwise than they are read.
use crate::places::{span_of, span_of_statement};
use crate::sameness::{are_same, has_effect};
use cyc_syntax::{Expr, Stmt};
use cyc_words::Span;

/// Returns the source position of the inner `if` that has the only `else` of two nested `if`s, given the branch of the outer one.
pub(crate) fn dangling(then: &Stmt) -> Option<Span> {
    match then {
        Stmt::If {
            span,
            otherwise: Some(_),
            ..
        } => Some(*span),
        Stmt::While { body, .. } => dangling(body),
        _ => None,
    }
}

/// Returns true if a later statement begins in the same column as a body without braces, deeper than the `if` or `while` of that body, and
/// so seems to belong to it.
fn is_below(head: Span, body: &Stmt, next: Span) -> bool {
    if let Stmt::Block { .. } | Stmt::Labelled { .. } = body {
        return false;
    }
    let start = span_of_statement(body);
    head.column < start.column && start.column == next.column && start.line < next.line
}

/// Returns the source position of the `if` or `while` to which a later statement seems to belong, given the statement before it with its
/// source position, and the source position of the later one.
pub(crate) fn misleading(head: Span, statement: &Stmt, next: Span) -> Option<Span> {
    match statement {
        Stmt::While { body, .. }
        | Stmt::If {
            then: body,
            otherwise: None,
            ..
        } => {
            if is_below(head, body, next) {
                return Some(head);
            }
            misleading(span_of_statement(body), body, next)
        }
        Stmt::If {
            otherwise: Some(otherwise),
            ..
        } => {
            if let Stmt::If { .. } = &**otherwise {
                return misleading(head, otherwise, next);
            }
            if is_below(head, otherwise, next) {
                return Some(head);
            }
            misleading(span_of_statement(otherwise), otherwise, next)
        }
        _ => None,
    }
}

/// Returns the source position of a condition that is the same as this one, and is tested only after this one was false, with no effect
/// between the two.
pub(crate) fn repeated(condition: &Expr, otherwise: &Stmt) -> Option<Span> {
    match otherwise {
        Stmt::If {
            condition: second,
            otherwise,
            ..
        } => {
            if are_same(condition, second) {
                return Some(span_of(second));
            }
            match otherwise {
                Some(otherwise) if !has_effect(second) => repeated(condition, otherwise),
                _ => None,
            }
        }
        _ => None,
    }
}
