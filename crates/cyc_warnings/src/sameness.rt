//! This file compares expressions with one another, and tells if they have effects.
use cyc_syntax::{Expr, Operation, Postfix};

/// Returns the value of a number or character.
fn literal(expression: &Expr) -> Option<u32> {
    match expression {
        Expr::Number { value, .. } => Some(*value),
        Expr::Character { value, .. } => Some(u32::from(*value)),
        _ => None,
    }
}

/// Returns true if two expressions without subexpressions are the same.
fn are_same_leaves(one: &Expr, other: &Expr) -> bool {
    match one {
        Expr::Number { value, .. } => literal(other) == Some(*value),
        Expr::Character { value, .. } => literal(other) == Some(u32::from(*value)),
        Expr::Null { .. } => matches!(other, Expr::Null { .. }),
        Expr::Variable { name } => match other {
            Expr::Variable { name: second } => name.name.number == second.name.number,
            _ => false,
        },
        _ => false,
    }
}

/// Returns true if two expressions are written with the same tokens, and neither has an effect.
#[cycle(sameness)]
pub(crate) fn are_same(one: &Expr, other: &Expr) -> bool {
    match one {
        Expr::Bracketed { inner, .. } => match other {
            Expr::Bracketed { inner: second, .. } => are_same(inner, second),
            _ => false,
        },
        Expr::NumberOfElements { pointer, .. } => match other {
            Expr::NumberOfElements {
                pointer: second,
                ..
            } => are_same(pointer, second),
            _ => false,
        },
        Expr::LowByteOf { value, .. } => match other {
            Expr::LowByteOf { value: second, .. } => are_same(value, second),
            _ => false,
        },
        Expr::Prefixed {
            operator,
            operand,
            ..
        } => match other {
            Expr::Prefixed {
                operator: sign,
                operand: second,
                ..
            } => *operator == *sign && are_same(operand, second),
            _ => false,
        },
        Expr::Chained { base, postfixes } => match other {
            Expr::Chained {
                base: second,
                postfixes: others,
            } => are_same(base, second) && are_same_postfixes(postfixes, others),
            _ => false,
        },
        Expr::Binary { first, rest } => match other {
            Expr::Binary {
                first: second,
                rest: others,
            } => are_same(first, second) && are_same_operations(rest, others),
            _ => false,
        },
        _ => are_same_leaves(one, other),
    }
}

#[cycle(sameness)]
fn are_same_postfixes(ones: &[Postfix], others: &[Postfix]) -> bool {
    for (n, one) in ones.iter().enumerate() {
        let is_same = match others.get(n) {
            Some(other) => are_same_postfix(one, other),
            None => false,
        };
        if !is_same {
            return false;
        }
    }
    ones.len() == others.len()
}

#[cycle(sameness)]
fn are_same_postfix(one: &Postfix, other: &Postfix) -> bool {
    match one {
        Postfix::Index { index } => match other {
            Postfix::Index { index: second } => are_same(index, second),
            Postfix::Field { .. } => false,
        },
        Postfix::Field { name } => match other {
            Postfix::Field { name: second } => name.name.number == second.name.number,
            Postfix::Index { .. } => false,
        },
    }
}

#[cycle(sameness)]
fn are_same_operations(ones: &[Operation], others: &[Operation]) -> bool {
    for (n, one) in ones.iter().enumerate() {
        let is_same = match others.get(n) {
            Some(other) => {
                one.operator == other.operator && are_same(&one.operand, &other.operand)
            }
            None => false,
        };
        if !is_same {
            return false;
        }
    }
    ones.len() == others.len()
}

/// Returns true if an expression or a part of it is a call, an assignment, an allocation or a deallocation.
pub(crate) fn has_effect(expression: &Expr) -> bool {
    match expression {
        Expr::Number { .. }
        | Expr::Character { .. }
        | Expr::Null { .. }
        | Expr::HeapRegion { .. }
        | Expr::UniqueRegion { .. }
        | Expr::Variable { .. } => false,
        Expr::Bracketed { inner, .. } => has_effect(inner),
        Expr::NumberOfElements { pointer, .. } => has_effect(pointer),
        Expr::LowByteOf { value, .. } => has_effect(value),
        Expr::Prefixed { operand, .. } => has_effect(operand),
        Expr::Chained { base, postfixes } => {
            for postfix in postfixes {
                if let Postfix::Index { index } = postfix {
                    if has_effect(index) {
                        return true;
                    }
                }
            }
            has_effect(base)
        }
        Expr::Binary { first, rest } => {
            for operation in rest {
                if has_effect(&operation.operand) {
                    return true;
                }
            }
            has_effect(first)
        }
        Expr::Call { .. }
        | Expr::FreeUnique { .. }
        | Expr::FreeKey { .. }
        | Expr::New { .. }
        | Expr::RegionNew { .. }
        | Expr::Assign { .. } => true,
    }
}
