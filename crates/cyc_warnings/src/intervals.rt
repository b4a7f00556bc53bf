//! This file finds pairs of comparisons with constants of which both can never be true, or one always is. The ints for which such a
//! comparison is true are an interval, or all ints outside of one.
use crate::constants::constant_of;
use crate::sameness::are_same;
use cyc_syntax::{BinaryOperator, Expr};

/// The sign bit of an int. Ints with the bit flipped are in the same order as words without a sign.
const SIGN: u32 = 1 << 31;

/// The bounds of an interval that contains the numbers of all ints: the least int has the number 1.
const LEAST: u64 = 1;

const MOST: u64 = 1 << 32;

/// The ints from `low` to `high`, by their numbers, or all other ints. The interval is empty if `low` is greater than `high`.
#[derive(Clone, Copy)]
struct Ints {
    low: u64,
    high: u64,
    is_outside: bool,
}

impl Ints {
    fn between(low: u64, high: u64) -> Ints {
        Ints {
            low,
            high,
            is_outside: false,
        }
    }

    /// Returns the ints for which a comparison with this constant is true.
    fn of(operator: BinaryOperator, constant: u32) -> Option<Ints> {
        let number = u64::from(constant ^ SIGN).saturating_add(LEAST);
        match operator {
            BinaryOperator::Equal => Some(Ints::between(number, number)),
            BinaryOperator::NotEqual => Some(Ints {
                low: number,
                high: number,
                is_outside: true,
            }),
            BinaryOperator::Less => Some(Ints::between(LEAST, number.saturating_sub(1))),
            BinaryOperator::LessOrEqual => Some(Ints::between(LEAST, number)),
            BinaryOperator::Greater => Some(Ints::between(number.saturating_add(1), MOST)),
            BinaryOperator::GreaterOrEqual => Some(Ints::between(number, MOST)),
            _ => None,
        }
    }

    /// Returns true if these ints, which are an interval, all are between the bounds of the others.
    fn is_within(self, others: Ints) -> bool {
        self.low > self.high || others.low <= self.low && self.high <= others.high
    }

    /// Returns true if no int is among both.
    fn excludes(self, others: Ints) -> bool {
        if self.is_outside {
            return !others.is_outside && others.is_within(self);
        }
        if others.is_outside {
            return self.is_within(others);
        }
        self.low.max(others.low) > self.high.min(others.high)
    }
}

/// Returns the operator whose result is the opposite of a comparison's.
fn negated(operator: BinaryOperator) -> BinaryOperator {
    match operator {
        BinaryOperator::Equal => BinaryOperator::NotEqual,
        BinaryOperator::NotEqual => BinaryOperator::Equal,
        BinaryOperator::Less => BinaryOperator::GreaterOrEqual,
        BinaryOperator::LessOrEqual => BinaryOperator::Greater,
        BinaryOperator::Greater => BinaryOperator::LessOrEqual,
        BinaryOperator::GreaterOrEqual => BinaryOperator::Less,
        _ => operator,
    }
}

/// Returns the comparison operator that has the same result with its operands exchanged.
fn turned(operator: BinaryOperator) -> BinaryOperator {
    match operator {
        BinaryOperator::Less => BinaryOperator::Greater,
        BinaryOperator::LessOrEqual => BinaryOperator::GreaterOrEqual,
        BinaryOperator::Greater => BinaryOperator::Less,
        BinaryOperator::GreaterOrEqual => BinaryOperator::LessOrEqual,
        _ => operator,
    }
}

/// A comparison of an expression with a constant, read with the constant on the right.
#[derive(Clone, Copy)]
struct Compared<'a> {
    operand: &'a Expr,
    operator: BinaryOperator,
    constant: u32,
}

impl Compared<'_> {
    /// Returns the ints for which the comparison has the given result.
    fn when(&self, is_true: bool) -> Option<Ints> {
        if is_true {
            Ints::of(self.operator, self.constant)
        } else {
            Ints::of(negated(self.operator), self.constant)
        }
    }
}

/// Returns the comparison with a constant that an expression is, possibly in parentheses.
fn comparison_in(expression: &Expr) -> Option<Compared<'_>> {
    match expression {
        Expr::Bracketed { inner, .. } => comparison_in(inner),
        Expr::Binary { first, rest } if rest.len() == 1 => match rest.first() {
            Some(operation) => with_constant(first, operation.operator, &operation.operand),
            None => None,
        },
        _ => None,
    }
}

fn with_constant<'a>(
    left: &'a Expr,
    operator: BinaryOperator,
    right: &'a Expr,
) -> Option<Compared<'a>> {
    match (constant_of(left), constant_of(right)) {
        (None, Some(constant)) => Some(Compared {
            operand: left,
            operator,
            constant,
        }),
        (Some(constant), None) => Some(Compared {
            operand: right,
            operator: turned(operator),
            constant,
        }),
        _ => None,
    }
}

/// Returns true if two expressions compare the same expression with constants, and never both have this result.
pub(crate) fn are_never_both(one: &Expr, other: &Expr, is_true: bool) -> bool {
    match (comparison_in(one), comparison_in(other)) {
        (Some(one), Some(other)) => match (one.when(is_true), other.when(is_true)) {
            (Some(ints), Some(others)) => {
                ints.excludes(others) && are_same(one.operand, other.operand)
            }
            _ => false,
        },
        _ => false,
    }
}
