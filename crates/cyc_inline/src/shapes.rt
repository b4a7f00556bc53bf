//! The operation and operands of an instruction, by which expressions are compared.
use cyc_plain::BinaryOperator;

/// The number that identifies the first comparison operator among the kinds of expressions; loads have greater numbers than comparisons.
pub(crate) const COMPARED: usize = 10;

/// The number that identifies a load from an address among the kinds of expressions, after the numbers of the operators.
pub(crate) const LOAD: usize = 16;

/// The number that identifies a load of a global among the kinds of expressions.
pub(crate) const LOAD_GLOBAL: usize = 17;

/// The value that an operand is known to have: a constant word, the unknown word in a slot, or the result of an expression.
#[derive(Clone, Copy)]
pub(crate) enum Value {
    Word { word: u32 },
    Slot { number: usize },
    Expression { number: usize },
}

/// The operation of an instruction and the values that its operands are known to have.
#[derive(Clone, Copy)]
pub(crate) struct Shape {
    pub(crate) kind: usize,
    pub(crate) left: Value,
    pub(crate) right: Value,
}

fn is_same(one: Value, other: Value) -> bool {
    match one {
        Value::Word { word } => match other {
            Value::Word { word: second } => word == second,
            _ => false,
        },
        Value::Slot { number } => match other {
            Value::Slot { number: second } => number == second,
            _ => false,
        },
        Value::Expression { number } => match other {
            Value::Expression { number: second } => number == second,
            _ => false,
        },
    }
}

/// Returns true if two instructions with these operations and operand values compute the same value.
pub(crate) fn is_same_shape(one: Shape, other: Shape) -> bool {
    one.kind == other.kind && is_same(one.left, other.left) && is_same(one.right, other.right)
}

/// Returns true if a value is the unknown word in the given slot.
pub(crate) fn is_slot(value: Value, slot: usize) -> bool {
    match value {
        Value::Slot { number } => number == slot,
        _ => false,
    }
}

/// Returns a hash of a value.
fn sum_of(value: Value) -> usize {
    match value {
        Value::Word { word } => (word as usize).wrapping_mul(3),
        Value::Slot { number } => number.wrapping_mul(3).wrapping_add(1),
        Value::Expression { number } => number.wrapping_mul(3).wrapping_add(2),
    }
}

/// Returns the hash bucket, out of `count`, for an expression with the given shape (operation and operands).
pub(crate) fn bucket_of(shape: Shape, count: usize) -> usize {
    if count == 0 {
        return 0;
    }
    let left = sum_of(shape.left).wrapping_mul(961);
    let right = sum_of(shape.right).wrapping_mul(31);
    left.wrapping_add(right).wrapping_add(shape.kind) % count
}

/// Returns the number that identifies an operator among the kinds of expressions, or `None` if the operator may not be duplicated.
pub(crate) fn kind_of(operator: BinaryOperator) -> Option<usize> {
    match operator {
        BinaryOperator::Add => Some(0),
        BinaryOperator::Subtract => Some(1),
        BinaryOperator::Multiply => Some(2),
        BinaryOperator::Divide | BinaryOperator::Remainder => None,
        BinaryOperator::And => Some(5),
        BinaryOperator::Or => Some(6),
        BinaryOperator::Xor => Some(7),
        BinaryOperator::ShiftLeft => Some(8),
        BinaryOperator::ShiftRight => Some(9),
        BinaryOperator::Equal => Some(10),
        BinaryOperator::NotEqual => Some(11),
        BinaryOperator::Less => Some(12),
        BinaryOperator::LessOrEqual => Some(13),
        BinaryOperator::Greater => Some(14),
        BinaryOperator::GreaterOrEqual => Some(15),
    }
}
