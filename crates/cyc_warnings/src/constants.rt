//! This file computes the values of constant expressions of a program, for warnings about these values.
use cyc_syntax::{BinaryOperator, Expr, Operation, PrefixOperator};

/// The deepest nesting of constant expressions that are evaluated to find warnings. The subexpressions are evaluated again at each
/// nesting level, so without a limit the work would grow with the square of the depth.
const DEEPEST: u32 = 12;

/// Returns the value of a constant expression. Returns `None` if the expression is not constant, or if the sign of a value would
/// matter, as in a quotient of a negative number.
pub(crate) fn constant_of(expression: &Expr) -> Option<u32> {
    match expression {
        Expr::Number { value, .. } => Some(*value),
        Expr::Variable { .. } | Expr::Call { .. } | Expr::Assign { .. } => None,
        _ => constant_within(expression, DEEPEST),
    }
}

/// Returns the value of a constant expression nested at most `levels` deep.
fn constant_within(expression: &Expr, levels: u32) -> Option<u32> {
    if levels == 0 {
        return None;
    }
    match expression {
        Expr::Number { value, .. } => Some(*value),
        Expr::Character { value, .. } => Some(u32::from(*value)),
        Expr::Bracketed { inner, .. } => constant_within(inner, levels - 1),
        Expr::Prefixed {
            operator,
            operand,
            ..
        } => match constant_within(operand, levels - 1) {
            Some(value) => changed(*operator, value),
            None => None,
        },
        Expr::Binary { first, rest } => {
            if !are_worked_out(rest) {
                return None;
            }
            let mut value = constant_within(first, levels - 1);
            for operation in rest {
                if let Some(left) = value {
                    value = match constant_within(&operation.operand, levels - 1) {
                        Some(right) => computed(operation.operator, left, right),
                        None => None,
                    };
                }
            }
            value
        }
        _ => None,
    }
}

/// Returns true if the value of each of these operators can be computed by `computed`: none of them is a comparison or a logical operator.
fn are_worked_out(operations: &[Operation]) -> bool {
    for operation in operations {
        if is_condition(operation.operator) {
            return false;
        }
    }
    true
}

/// Returns true if an operator is a comparison or a logical operator.
fn is_condition(operator: BinaryOperator) -> bool {
    match operator {
        BinaryOperator::OrElse
        | BinaryOperator::AndThen
        | BinaryOperator::Equal
        | BinaryOperator::NotEqual
        | BinaryOperator::Less
        | BinaryOperator::LessOrEqual
        | BinaryOperator::Greater
        | BinaryOperator::GreaterOrEqual => true,
        _ => false,
    }
}

/// Applies a prefix operator to a value.
fn changed(operator: PrefixOperator, value: u32) -> Option<u32> {
    match operator {
        PrefixOperator::Negate => Some(value.wrapping_neg()),
        PrefixOperator::Complement => Some(!value),
        PrefixOperator::Not => Some(u32::from(value == 0)),
        PrefixOperator::Dereference | PrefixOperator::AddressOf => None,
    }
}

/// The smallest word that is negative when read as an int.
const SIGN: u32 = 1 << 31;

/// The number of bits of an int, modulo which shift counts are taken.
const WIDTH: u32 = 32;

/// Applies a binary operator to two values.
fn computed(operator: BinaryOperator, left: u32, right: u32) -> Option<u32> {
    match operator {
        BinaryOperator::Or => Some(left | right),
        BinaryOperator::Xor => Some(left ^ right),
        BinaryOperator::And => Some(left & right),
        BinaryOperator::Add => Some(left.wrapping_add(right)),
        BinaryOperator::Subtract => Some(left.wrapping_sub(right)),
        BinaryOperator::Multiply => Some(left.wrapping_mul(right)),
        BinaryOperator::ShiftLeft => Some(left.wrapping_shl(right)),
        BinaryOperator::ShiftRight if left < SIGN => Some(left >> (right % WIDTH)),
        BinaryOperator::Divide if left < SIGN && right < SIGN && right != 0 => Some(left / right),
        BinaryOperator::Remainder if left < SIGN && right < SIGN && right != 0 => Some(
            left % right,
        ),
        _ => None,
    }
}

/// Returns true if a shift count is a constant that is negative or not less than the width of an int.
pub(crate) fn is_past_width(expression: &Expr) -> bool {
    is_more_than(expression, WIDTH - 1)
}

/// Returns true if an expression is a constant that is at least 0 and less than the width of an int.
pub(crate) fn is_shift_count(expression: &Expr) -> bool {
    match constant_of(expression) {
        Some(value) => value < WIDTH,
        None => false,
    }
}

/// Returns true if an expression is a constant that is negative or greater than `most`.
pub(crate) fn is_more_than(expression: &Expr, most: u32) -> bool {
    match constant_of(expression) {
        Some(value) => value > most,
        None => false,
    }
}
