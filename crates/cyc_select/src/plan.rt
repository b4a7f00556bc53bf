//! A plan consists of the machine operations and operands that compute an operator or a comparison.
ghost use Rattle.std.specs.Prelude.{◌≡◌};
ghost use Rattle.cyc_select.specs.inside.Operands.{far_plan};
ghost use Rattle.cyc_select.specs.inside.Plans.{arithmetic_plan, immediate_plan, immediate_or, shift_plan, multiply_divide_plan, product_plan};
ghost use Rattle.cyc_select.specs.inside.Plans.{mirrored, zero_plan, equal_plan, less_plan, less_unsigned_plan, at_most_plan};
ghost use Rattle.cyc_select.specs.inside.Plans.{compared_plan, is_mirrored, comparison_plan, unary_plan, sum_plan, difference_plan, bits_plan};
ghost use Rattle.cyc_select.specs.inside.Plans.{operator_plan, is_swapped, binary_plan, sign_of, sign_or, order_test, test_of};

use crate::numbers::{
    is_word, is_zero_word, low_half, negated_half, next_half, power_of, shift_amount, signed_half,
};
use cyc_isa::{
    ArithmeticOp, BranchOp, BranchZeroOp, ImmediateOp, MoveFromOp, MultiplyDivideOp, ShiftOp,
};
use cyc_plain::{BinaryOperator, Comparison, Operand, UnaryOperator};

/// A machine operation that computes a word from two registers, or from a register and a constant.
#[derive(Clone, Copy)]
pub(crate) enum Operation {
    Arithmetic {
        op: ArithmeticOp,
    },
    /// An operator on a register and an immediate, which is the right operand.
    Immediate {
        op: ImmediateOp,
        half: u16,
    },
    /// A shift of the left operand by the right one.
    Shift {
        op: ShiftOp,
    },
    /// A shift of the left operand by a constant amount.
    ShiftBy {
        op: ShiftOp,
        amount: u8,
    },
    /// A multiplication or division, whose result is read from HI or LO.
    MultiplyDivide {
        op: MultiplyDivideOp,
        from: MoveFromOp,
    },
}

/// The final step of a plan (a machine operation with its operands), which turns the computed word into the result.
#[derive(Clone, Copy)]
pub(crate) enum Outcome {
    AsItIs,
    /// Turns the computed word into 1 if it is 0, otherwise into 0.
    WhetherZero,
    /// Turns the computed word into 0 if it is 0, otherwise into 1.
    WhetherNotZero,
}

/// A plan is a computation from two operands. If a plan's instruction contains an immediate, the right operand is the word 0,
/// which needs no machine code.
#[derive(Clone, Copy)]
pub(crate) struct Plan {
    pub(crate) operation: Operation,
    pub(crate) left: Operand,
    pub(crate) right: Operand,
    pub(crate) outcome: Outcome,
}

/// The test that decides a branch.
#[derive(Clone, Copy)]
pub(crate) enum Test {
    /// Compares two operands.
    Operands {
        op: BranchOp,
        left: Operand,
        right: Operand,
    },
    /// Tests the sign of an operand's word.
    Sign {
        op: BranchZeroOp,
        operand: Operand,
    },
    /// Tests that the word that a plan (a computation from two operands) computes is not 0.
    Computed {
        plan: Plan,
    },
}

fn arithmetic_plan(op: ArithmeticOp, left: Operand, right: Operand, outcome: Outcome) -> Plan
    ensures { result ≡ arithmetic_plan op left right outcome }
{
    Plan {
        operation: Operation::Arithmetic { op },
        left,
        right,
        outcome,
    }
}

/// Returns the plan (machine operation and operands) that adds an offset to an address.
pub(crate) fn far_plan(address: Operand, offset: u32) -> Plan
    ensures { result ≡ far_plan address offset }
{
    let right = Operand::Word { word: offset };
    arithmetic_plan(ArithmeticOp::AddUnsigned, address, right, Outcome::AsItIs)
}

fn immediate_plan(op: ImmediateOp, left: Operand, half: u16, outcome: Outcome) -> Plan
    ensures { result ≡ immediate_plan op left half outcome }
{
    Plan {
        operation: Operation::Immediate { op, half },
        left,
        right: Operand::Word { word: 0 },
        outcome,
    }
}

/// Returns the plan (machine operation and operands) whose instruction has the given immediate, or the plan
/// `other` if no immediate is given.
fn immediate_or(
    half: Option<u16>,
    op: ImmediateOp,
    left: Operand,
    outcome: Outcome,
    other: Plan,
) -> Plan
    ensures { result ≡ immediate_or half op left outcome other }
{
    match half {
        Some(half) => immediate_plan(op, left, half, outcome),
        None => other,
    }
}

fn shift_plan(op: ShiftOp, left: Operand, right: Operand) -> Plan
    ensures { result ≡ shift_plan op left right }
{
    let (operation, right) = match shift_amount(right) {
        Some(amount) => (Operation::ShiftBy { op, amount }, Operand::Word { word: 0 }),
        None => (Operation::Shift { op }, right),
    };
    Plan {
        operation,
        left,
        right,
        outcome: Outcome::AsItIs,
    }
}

fn multiply_divide_plan(
    op: MultiplyDivideOp,
    from: MoveFromOp,
    left: Operand,
    right: Operand,
) -> Plan
    ensures { result ≡ multiply_divide_plan op from left right }
{
    Plan {
        operation: Operation::MultiplyDivide { op, from },
        left,
        right,
        outcome: Outcome::AsItIs,
    }
}

/// Returns the plan (machine operation and operands) of a product: a shift if one factor is a power of two, otherwise a multiplication.
fn product_plan(left: Operand, right: Operand) -> Plan
    ensures { result ≡ product_plan left right }
{
    match power_of(right) {
        Some(amount) => Plan {
            operation: Operation::ShiftBy {
                op: ShiftOp::Left,
                amount,
            },
            left,
            right: Operand::Word { word: 0 },
            outcome: Outcome::AsItIs,
        },
        None => multiply_divide_plan(MultiplyDivideOp::Multiply, MoveFromOp::Low, left, right),
    }
}

/// Returns the comparison that holds for the exchanged operands exactly if the given comparison holds for the operands in order.
fn mirrored(comparison: Comparison) -> Comparison
    ensures { result ≡ mirrored comparison }
{
    match comparison {
        Comparison::Less => Comparison::Greater,
        Comparison::LessOrEqual => Comparison::GreaterOrEqual,
        Comparison::Greater => Comparison::Less,
        Comparison::GreaterOrEqual => Comparison::LessOrEqual,
        _ => comparison,
    }
}

/// Returns the plan (machine operation and operands) that tests that a word is 0, or that it is not 0 if `holds` is false.
fn zero_plan(operand: Operand, holds: bool) -> Plan
    ensures { result ≡ zero_plan operand holds }
{
    if holds {
        immediate_plan(ImmediateOp::SetLessUnsigned, operand, 1, Outcome::AsItIs)
    } else {
        arithmetic_plan(
            ArithmeticOp::SetLessUnsigned,
            Operand::Word { word: 0 },
            operand,
            Outcome::AsItIs,
        )
    }
}

/// Returns the plan (machine operation and operands) that tests two words for equality, or for difference if `holds` is false,
/// by testing their difference for 0.
fn equal_plan(left: Operand, right: Operand, holds: bool) -> Plan
    ensures { result ≡ equal_plan left right holds }
{
    if is_zero_word(right) {
        return zero_plan(left, holds);
    }
    let outcome = if holds {
        Outcome::WhetherZero
    } else {
        Outcome::WhetherNotZero
    };
    let difference = arithmetic_plan(ArithmeticOp::SubtractUnsigned, left, right, outcome);
    immediate_or(
        negated_half(right),
        ImmediateOp::AddUnsigned,
        left,
        outcome,
        difference,
    )
}

/// Returns the plan (machine operation and operands) that tests if the left word is less than the right one, or if it is not less.
fn less_plan(left: Operand, right: Operand, outcome: Outcome) -> Plan
    ensures { result ≡ less_plan left right outcome }
{
    let of_registers = arithmetic_plan(ArithmeticOp::SetLess, left, right, outcome);
    immediate_or(
        signed_half(right),
        ImmediateOp::SetLess,
        left,
        outcome,
        of_registers,
    )
}

fn less_unsigned_plan(left: Operand, right: Operand, outcome: Outcome) -> Plan
    ensures { result ≡ less_unsigned_plan left right outcome }
{
    let of_registers = arithmetic_plan(ArithmeticOp::SetLessUnsigned, left, right, outcome);
    immediate_or(
        signed_half(right),
        ImmediateOp::SetLessUnsigned,
        left,
        outcome,
        of_registers,
    )
}

/// Returns the plan (machine operation and operands) that tests that the left word is at most the right one: it is less
/// than the right word's successor.
fn at_most_plan(left: Operand, right: Operand, holds: bool) -> Plan
    ensures { result ≡ at_most_plan left right holds }
{
    let (less, greater) = if holds {
        (Outcome::AsItIs, Outcome::WhetherZero)
    } else {
        (Outcome::WhetherZero, Outcome::AsItIs)
    };
    let of_registers = arithmetic_plan(ArithmeticOp::SetLess, right, left, greater);
    immediate_or(
        next_half(right),
        ImmediateOp::SetLess,
        left,
        less,
        of_registers,
    )
}

/// Returns the plan (machine operation and operands) of a comparison whose operands were exchanged, if possible, so
/// that the left one is no constant.
fn compared_plan(comparison: Comparison, left: Operand, right: Operand) -> Plan
    ensures { result ≡ compared_plan comparison left right }
{
    match comparison {
        Comparison::Equal => equal_plan(left, right, true),
        Comparison::NotEqual => equal_plan(left, right, false),
        Comparison::Less => less_plan(left, right, Outcome::AsItIs),
        Comparison::LessOrEqual => at_most_plan(left, right, true),
        Comparison::Greater => at_most_plan(left, right, false),
        Comparison::GreaterOrEqual => less_plan(left, right, Outcome::WhetherZero),
        Comparison::LessUnsigned => less_unsigned_plan(left, right, Outcome::AsItIs),
        Comparison::GreaterOrEqualUnsigned => {
            less_unsigned_plan(left, right, Outcome::WhetherZero)
        }
    }
}

/// Returns true if the operands of a comparison should be exchanged: the left one is a constant, and the comparison can be mirrored.
fn is_mirrored(comparison: Comparison, left: Operand) -> bool
    ensures { result ≡ is_mirrored comparison left }
{
    match comparison {
        Comparison::LessUnsigned | Comparison::GreaterOrEqualUnsigned => false,
        _ => is_word(left),
    }
}

/// Returns the plan (machine operation and operands) of a comparison's truth value, 1 or 0.
pub(crate) fn comparison_plan(comparison: Comparison, left: Operand, right: Operand) -> Plan
    ensures { result ≡ comparison_plan comparison left right }
{
    if is_mirrored(comparison, left) {
        compared_plan(mirrored(comparison), right, left)
    } else {
        compared_plan(comparison, left, right)
    }
}

pub(crate) fn unary_plan(operator: UnaryOperator, operand: Operand) -> Plan
    ensures { result ≡ unary_plan operator operand }
{
    let zero = Operand::Word { word: 0 };
    let difference = ArithmeticOp::SubtractUnsigned;
    match operator {
        UnaryOperator::Negate => arithmetic_plan(difference, zero, operand, Outcome::AsItIs),
        UnaryOperator::Complement => {
            arithmetic_plan(ArithmeticOp::Nor, zero, operand, Outcome::AsItIs)
        }
        UnaryOperator::Not => comparison_plan(Comparison::Equal, operand, zero),
    }
}

fn sum_plan(left: Operand, right: Operand) -> Plan
    ensures { result ≡ sum_plan left right }
{
    let of_registers = arithmetic_plan(ArithmeticOp::AddUnsigned, left, right, Outcome::AsItIs);
    immediate_or(
        signed_half(right),
        ImmediateOp::AddUnsigned,
        left,
        Outcome::AsItIs,
        of_registers,
    )
}

fn difference_plan(left: Operand, right: Operand) -> Plan
    ensures { result ≡ difference_plan left right }
{
    let op = ArithmeticOp::SubtractUnsigned;
    let of_registers = arithmetic_plan(op, left, right, Outcome::AsItIs);
    immediate_or(
        negated_half(right),
        ImmediateOp::AddUnsigned,
        left,
        Outcome::AsItIs,
        of_registers,
    )
}

/// Returns the plan (machine operation and operands) of a bitwise operation, on two registers or on a register and an immediate.
fn bits_plan(op: ArithmeticOp, number_op: ImmediateOp, left: Operand, right: Operand) -> Plan
    ensures { result ≡ bits_plan op number_op left right }
{
    let of_registers = arithmetic_plan(op, left, right, Outcome::AsItIs);
    immediate_or(
        low_half(right),
        number_op,
        left,
        Outcome::AsItIs,
        of_registers,
    )
}

/// Returns the plan (machine operation and operands) of an operator whose operands were exchanged, if possible, so that the left one is
/// no constant. (For a division, the machine must be able to divide every word by the divisor.)
fn operator_plan(operator: BinaryOperator, left: Operand, right: Operand) -> Plan
    ensures { result ≡ operator_plan operator left right }
{
    let quotient = MultiplyDivideOp::Divide;
    match operator {
        BinaryOperator::Add => sum_plan(left, right),
        BinaryOperator::Subtract => difference_plan(left, right),
        BinaryOperator::And => bits_plan(ArithmeticOp::And, ImmediateOp::And, left, right),
        BinaryOperator::Or => bits_plan(ArithmeticOp::Or, ImmediateOp::Or, left, right),
        BinaryOperator::Xor => bits_plan(ArithmeticOp::Xor, ImmediateOp::Xor, left, right),
        BinaryOperator::ShiftLeft => shift_plan(ShiftOp::Left, left, right),
        BinaryOperator::ShiftRight => shift_plan(ShiftOp::RightArithmetic, left, right),
        BinaryOperator::Equal => comparison_plan(Comparison::Equal, left, right),
        BinaryOperator::NotEqual => comparison_plan(Comparison::NotEqual, left, right),
        BinaryOperator::Less => comparison_plan(Comparison::Less, left, right),
        BinaryOperator::LessOrEqual => comparison_plan(Comparison::LessOrEqual, left, right),
        BinaryOperator::Greater => comparison_plan(Comparison::Greater, left, right),
        BinaryOperator::GreaterOrEqual => comparison_plan(Comparison::GreaterOrEqual, left, right),
        BinaryOperator::Multiply => product_plan(left, right),
        BinaryOperator::Divide => multiply_divide_plan(quotient, MoveFromOp::Low, left, right),
        BinaryOperator::Remainder => multiply_divide_plan(quotient, MoveFromOp::High, left, right),
    }
}

/// Returns true if the operands of an operator should be exchanged: the left one is a constant, and the operator commutes.
fn is_swapped(operator: BinaryOperator, left: Operand) -> bool
    ensures { result ≡ is_swapped operator left }
{
    match operator {
        BinaryOperator::Add
        | BinaryOperator::Multiply
        | BinaryOperator::And
        | BinaryOperator::Or
        | BinaryOperator::Xor => is_word(left),
        _ => false,
    }
}

/// Returns the plan (machine operation and operands) of an operator on two operands.
pub(crate) fn binary_plan(operator: BinaryOperator, left: Operand, right: Operand) -> Plan
    ensures { result ≡ binary_plan operator left right }
{
    if is_swapped(operator, left) {
        operator_plan(operator, right, left)
    } else {
        operator_plan(operator, left, right)
    }
}

/// Returns the MIPS branch on a word's sign that performs the given comparison of this word with 0,
/// or `None` if MIPS performs this comparison by no branch on the sign.
fn sign_of(comparison: Comparison) -> Option<BranchZeroOp>
    ensures { result ≡ sign_of comparison }
{
    match comparison {
        Comparison::Less => Some(BranchZeroOp::Less),
        Comparison::LessOrEqual => Some(BranchZeroOp::LessOrEqual),
        Comparison::Greater => Some(BranchZeroOp::Greater),
        Comparison::GreaterOrEqual => Some(BranchZeroOp::GreaterOrEqual),
        _ => None,
    }
}

/// Returns a test of the operand's sign if a branch on the sign is given, otherwise the test `other`.
fn sign_or(sign: Option<BranchZeroOp>, operand: Operand, other: Test) -> Test
    ensures { result ≡ sign_or sign operand other }
{
    match sign {
        Some(op) => Test::Sign { op, operand },
        None => other,
    }
}

/// Returns the test of an order comparison. A comparison with 0 tests the sign of the other operand.
fn order_test(comparison: Comparison, left: Operand, right: Operand) -> Test
    ensures { result ≡ order_test comparison left right }
{
    let computed = Test::Computed {
        plan: comparison_plan(comparison, left, right),
    };
    if is_zero_word(right) {
        sign_or(sign_of(comparison), left, computed)
    } else if is_zero_word(left) {
        sign_or(sign_of(mirrored(comparison)), right, computed)
    } else {
        computed
    }
}

/// Returns the test that a branch on a comparison performs.
pub(crate) fn test_of(comparison: Comparison, left: Operand, right: Operand) -> Test
    ensures { result ≡ test_of comparison left right }
{
    match comparison {
        Comparison::Equal => Test::Operands {
            op: BranchOp::Equal,
            left,
            right,
        },
        Comparison::NotEqual => Test::Operands {
            op: BranchOp::NotEqual,
            left,
            right,
        },
        _ => order_test(comparison, left, right),
    }
}
