//! This file finds warnings in comparisons, in the operands of `&&` and `||`, and in the counts of shifts.
use crate::constants::{constant_of, is_more_than, is_shift_count};
use crate::expressions::{LARGEST_CHAR, is_truth};
use crate::finder::Finder;
use crate::intervals::are_never_both;
use crate::places::span_of;
use crate::sameness::are_same;
use crate::warning::Warning;
use cyc_syntax::{BinaryOperator, Expr, Operation, PrefixOperator};
use cyc_words::Span;

/// Returns true if the count of a shift is a sum without parentheses that begins with a constant, as if that were the count.
pub(crate) fn is_loose_count(count: &Expr) -> bool {
    match count {
        Expr::Binary { first, rest } => match rest.first() {
            Some(operation) => {
                operation.operator == BinaryOperator::Add
                    && is_shift_count(first)
                    && constant_of(count).is_none()
            }
            None => false,
        },
        _ => false,
    }
}

/// Returns true if an expression is `!` and its operand, without parentheses around them.
fn is_negation(expression: &Expr) -> bool {
    matches!(
        expression,
        Expr::Prefixed {
            operator: PrefixOperator::Not,
            ..
        }
    )
}

/// Returns true if an expression is a constant other than 0 and 1, and so hardly a truth value.
fn is_no_truth(expression: &Expr) -> bool {
    is_more_than(expression, 1)
}

/// Returns true if an expression may be compared with a truth value.
fn is_like_truth(expression: &Expr) -> bool {
    is_truth(expression)
        || match constant_of(expression) {
            Some(value) => value <= 1,
            None => false,
        }
}

impl Finder {
    /// Searches the right operand of `||` or `&&` for warnings. If the operator is the first of several consecutive `||` or `&&`,
    /// the left operand is searched for warnings as well.
    pub(crate) fn look_at_truths(&mut self, left: Option<&Expr>, operand: &Expr) {
        if let Some(left) = left {
            if is_no_truth(left) {
                self.warn(span_of(left), Warning::ConstantOperand);
            }
        }
        if is_no_truth(operand) {
            self.warn(span_of(operand), Warning::ConstantOperand);
        }
    }

    /// Searches the operands of `&&` or `||` for neighbours that are settled by each other.
    pub(crate) fn look_at_pairs(&mut self, first: &Expr, rest: &[Operation]) {
        let mut before = first;
        for operation in rest {
            let (span, operand) = (operation.span, &operation.operand);
            match operation.operator {
                BinaryOperator::AndThen if are_never_both(before, operand, true) => {
                    self.warn(span, Warning::NeverBoth);
                }
                BinaryOperator::OrElse if are_never_both(before, operand, false) => {
                    self.warn(span, Warning::AlwaysOne);
                }
                _ => {}
            }
            before = operand;
        }
    }

    /// Searches a comparison for warnings.
    pub(crate) fn look_at_comparison(&mut self, span: Span, left: &Expr, right: &Expr) {
        if self.is_settled(left, right) || self.is_settled(right, left) {
            self.warn(span, Warning::CharCompared);
        }
        if are_same(left, right) && constant_of(left).is_none() {
            self.warn(span, Warning::SelfCompared);
        }
        if is_negation(left) && !is_like_truth(right) {
            self.warn(span_of(left), Warning::NotCompared);
        }
    }

    /// Returns true if one operand of a comparison is a char and the other is a constant outside the range of chars, so that the result is
    /// known.
    fn is_settled(&self, one: &Expr, other: &Expr) -> bool {
        is_more_than(other, LARGEST_CHAR) && self.is_char(one)
    }
}
