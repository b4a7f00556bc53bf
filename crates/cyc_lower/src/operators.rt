//! Returns the instructions that perform operators.
ghost use Rattle.std.specs.Prelude.{◌≡◌, ◌≤◌};
ghost use Rattle.cyc_lower_proof.specs.inside.ValueCode.{low_byte, unary_instruction, binary_operator, left_kind, pointer_operator};
ghost use Rattle.cyc_lower_proof.specs.inside.ValueCode.{failing_comparison, move_of, jump_if_zero, jump_if_nonzero, test_jump, scale_of, load_of};
ghost use Rattle.cyc_lower_proof.specs.inside.ValueCode.{store_of};
ghost use Rattle.cyc_lower_proof.specs.inside.ControlCode.{opposite, negated_condition, failing_jump, holding_jump, deciding_condition};
ghost use Rattle.cyc_lower_proof.specs.inside.ControlCode.{deciding_jump, tag_operand, other_jump, goes_on, null_failing, null_compared};
ghost use Rattle.cyc_lower_proof.specs.inside.ControlCode.{pointers_failing};
ghost use Rattle.cyc_lower.specs.inside.Emission.{most_locals, null_operation, pair_operation, right_of};
ghost use Rattle.cyc_types.specs.TypedTreeView.{view_expression};

use cyc_lower_proof::Condition;
use cyc_plain::{BinaryOperator, Comparison, Instruction, Operand, UnaryOperator};
use cyc_types::typed;
use cyc_types::typed::Kind;

/// Returns the instruction that moves the low 8 bits of a word to a slot.
pub(crate) fn low_byte(operand: Operand, destination: usize) -> Instruction
    ensures { result ≡ low_byte operand destination }
{
    Instruction::Binary {
        operator: BinaryOperator::And,
        destination,
        left: operand,
        right: Operand::Word { word: 255 },
    }
}

/// Returns the instruction of a unary operator. For a char that is used as an int, the word is unchanged.
pub(crate) fn unary_instruction(
    operator: typed::UnaryOperator,
    destination: usize,
    operand: Operand,
) -> Instruction
    ensures { result ≡ unary_instruction operator destination operand }
{
    let operator = match operator {
        typed::UnaryOperator::Negate => UnaryOperator::Negate,
        typed::UnaryOperator::Not => UnaryOperator::Not,
        typed::UnaryOperator::Complement => UnaryOperator::Complement,
        typed::UnaryOperator::Widen => {
            return Instruction::Move {
                destination,
                source: operand,
            };
        }
        typed::UnaryOperator::LowByte => return low_byte(operand, destination),
    };
    Instruction::Unary {
        operator,
        destination,
        operand,
    }
}

pub(crate) fn binary_operator(operator: typed::Operator) -> BinaryOperator
    ensures { result ≡ binary_operator operator }
{
    match operator {
        typed::Operator::Or => BinaryOperator::Or,
        typed::Operator::Xor => BinaryOperator::Xor,
        typed::Operator::And => BinaryOperator::And,
        typed::Operator::Equal => BinaryOperator::Equal,
        typed::Operator::NotEqual => BinaryOperator::NotEqual,
        typed::Operator::Less => BinaryOperator::Less,
        typed::Operator::LessOrEqual => BinaryOperator::LessOrEqual,
        typed::Operator::Greater => BinaryOperator::Greater,
        typed::Operator::GreaterOrEqual => BinaryOperator::GreaterOrEqual,
        typed::Operator::ShiftLeft => BinaryOperator::ShiftLeft,
        typed::Operator::ShiftRight => BinaryOperator::ShiftRight,
        typed::Operator::Add => BinaryOperator::Add,
        typed::Operator::Subtract => BinaryOperator::Subtract,
        typed::Operator::Multiply => BinaryOperator::Multiply,
        typed::Operator::Divide => BinaryOperator::Divide,
        typed::Operator::Remainder => BinaryOperator::Remainder,
    }
}

/// Returns a representation kind with as many words as the left operand of an operator on pointers.
pub(crate) fn left_kind(operator: typed::PointerOperator) -> Kind
    ensures { result ≡ left_kind operator }
{
    match operator {
        typed::PointerOperator::AddFat
        | typed::PointerOperator::SubtractFat
        | typed::PointerOperator::FatIsNull
        | typed::PointerOperator::FatIsNotNull => Kind::Fat,
        typed::PointerOperator::ThinIsNull
        | typed::PointerOperator::ThinIsNotNull
        | typed::PointerOperator::NullIs
        | typed::PointerOperator::NullIsNot
        | typed::PointerOperator::EqualThin
        | typed::PointerOperator::NotEqualThin => Kind::Nullable,
    }
}

/// Returns the operator on words that performs an operator on pointers: it compares the first words of two pointers, or changes an index.
pub(crate) fn pointer_operator(operator: typed::PointerOperator) -> BinaryOperator
    ensures { result ≡ pointer_operator operator }
{
    match operator {
        typed::PointerOperator::AddFat => BinaryOperator::Add,
        typed::PointerOperator::SubtractFat => BinaryOperator::Subtract,
        typed::PointerOperator::ThinIsNull
        | typed::PointerOperator::FatIsNull
        | typed::PointerOperator::NullIs
        | typed::PointerOperator::EqualThin => BinaryOperator::Equal,
        typed::PointerOperator::ThinIsNotNull
        | typed::PointerOperator::FatIsNotNull
        | typed::PointerOperator::NullIsNot
        | typed::PointerOperator::NotEqualThin => BinaryOperator::NotEqual,
    }
}

/// Returns the comparison of a pointer's first word with 0 that holds if the comparison of the pointer with null fails.
fn null_failing(operator: typed::PointerOperator) -> Option<Comparison>
    ensures { result ≡ null_failing operator }
{
    match operator {
        typed::PointerOperator::ThinIsNull | typed::PointerOperator::FatIsNull => Some(
            Comparison::NotEqual,
        ),
        typed::PointerOperator::ThinIsNotNull | typed::PointerOperator::FatIsNotNull => Some(
            Comparison::Equal,
        ),
        typed::PointerOperator::AddFat
        | typed::PointerOperator::SubtractFat
        | typed::PointerOperator::NullIs
        | typed::PointerOperator::NullIsNot
        | typed::PointerOperator::EqualThin
        | typed::PointerOperator::NotEqualThin => None,
    }
}

/// Returns the comparison with 0 that holds if the comparison of a pointer with null fails, provided that the right operand is null.
fn null_compared(operator: typed::PointerOperator, right: &typed::Expr) -> Option<Comparison>
    ensures { result ≡ null_compared operator (view_expression right.now) }
{
    match right {
        typed::Expr::NullPointer => null_failing(operator),
        _ => None,
    }
}

/// Returns the comparison with 0 that holds if an operator of a chain compares with null and this comparison fails.
pub(crate) fn null_operation(operation: &typed::Operation) -> Option<Comparison>
    ensures { result ≡ null_operation operation.now }
{
    match operation {
        typed::Operation::Pointer { operator, operand } => null_compared(*operator, operand),
        typed::Operation::PointerPeek {
            operator,
            operand,
            ..
        } => null_compared(*operator, operand),
        _ => None,
    }
}

/// Returns the comparison that holds if the comparison that an operator performs fails, or `None` if the operator is no comparison.
pub(crate) fn failing_comparison(operator: typed::Operator) -> Option<Comparison>
    ensures { result ≡ failing_comparison operator }
{
    match operator {
        typed::Operator::Equal => Some(Comparison::NotEqual),
        typed::Operator::NotEqual => Some(Comparison::Equal),
        typed::Operator::Less => Some(Comparison::GreaterOrEqual),
        typed::Operator::LessOrEqual => Some(Comparison::Greater),
        typed::Operator::Greater => Some(Comparison::LessOrEqual),
        typed::Operator::GreaterOrEqual => Some(Comparison::Less),
        typed::Operator::Or
        | typed::Operator::Xor
        | typed::Operator::And
        | typed::Operator::ShiftLeft
        | typed::Operator::ShiftRight
        | typed::Operator::Add
        | typed::Operator::Subtract
        | typed::Operator::Multiply
        | typed::Operator::Divide
        | typed::Operator::Remainder => None,
    }
}

/// Returns the comparison of the first words of two pointers that holds if the comparison of the pointers fails. The two compared pointers
/// are thin, or the left one is null.
fn pointers_failing(operator: typed::PointerOperator) -> Option<Comparison>
    ensures { result ≡ pointers_failing operator }
{
    match operator {
        typed::PointerOperator::EqualThin | typed::PointerOperator::NullIs => Some(
            Comparison::NotEqual,
        ),
        typed::PointerOperator::NotEqualThin | typed::PointerOperator::NullIsNot => Some(
            Comparison::Equal,
        ),
        typed::PointerOperator::AddFat
        | typed::PointerOperator::SubtractFat
        | typed::PointerOperator::ThinIsNull
        | typed::PointerOperator::ThinIsNotNull
        | typed::PointerOperator::FatIsNull
        | typed::PointerOperator::FatIsNotNull => None,
    }
}

/// Returns the comparison that holds if an operator of a chain compares its two operands and this comparison fails.
pub(crate) fn pair_operation(operation: &typed::Operation) -> Option<Comparison>
    ensures { result ≡ pair_operation operation.now }
{
    match operation {
        typed::Operation::Compute { operator, .. } => failing_comparison(*operator),
        typed::Operation::Pointer { operator, .. }
        | typed::Operation::PointerPeek { operator, .. } => pointers_failing(*operator),
        typed::Operation::Test { .. } => None,
    }
}

/// Returns the right operand of an operator of a chain.
pub(crate) fn right_of(operation: &typed::Operation) -> &typed::Expr
    ensures { view_expression result.now ≡ right_of operation.now }
{
    match operation {
        typed::Operation::Compute { operand, .. }
        | typed::Operation::Test { operand, .. }
        | typed::Operation::Pointer { operand, .. }
        | typed::Operation::PointerPeek { operand, .. } => operand,
    }
}

/// Returns the comparison that holds exactly if this comparison fails.
fn opposite(comparison: Comparison) -> Comparison
    ensures { result ≡ opposite comparison }
{
    match comparison {
        Comparison::Equal => Comparison::NotEqual,
        Comparison::NotEqual => Comparison::Equal,
        Comparison::Less => Comparison::GreaterOrEqual,
        Comparison::LessOrEqual => Comparison::Greater,
        Comparison::Greater => Comparison::LessOrEqual,
        Comparison::GreaterOrEqual => Comparison::Less,
        Comparison::LessUnsigned => Comparison::GreaterOrEqualUnsigned,
        Comparison::GreaterOrEqualUnsigned => Comparison::LessUnsigned,
    }
}

/// Returns the instruction that moves a value with this number of words to slots. A constant operand always has one word.
pub(crate) fn move_of(words: usize, destination: usize, source: Operand) -> Instruction
    ensures { result ≡ move_of words destination source }
{
    match source {
        Operand::Slot { number } if words != 1 => Instruction::MoveWords {
            destination,
            source: number,
            count: words,
        },
        Operand::Slot { .. } | Operand::Word { .. } => Instruction::Move {
            destination,
            source,
        },
    }
}

/// Returns the instruction that turns an index into a number of bytes, for cells of 4, 1 or 12 bytes.
pub(crate) fn scale_of(bytes: usize, destination: usize, index: usize) -> Instruction
    ensures { result ≡ scale_of bytes destination index }
{
    let left = Operand::Slot { number: index };
    if bytes == 4 {
        return Instruction::Binary {
            operator: BinaryOperator::ShiftLeft,
            destination,
            left,
            right: Operand::Word { word: 2 },
        };
    }
    if bytes == 1 {
        return Instruction::Move {
            destination,
            source: left,
        };
    }
    Instruction::Binary {
        operator: BinaryOperator::Multiply,
        destination,
        left,
        right: Operand::Word { word: 12 },
    }
}

/// Returns the instruction that loads a word of a cell into a slot, or only the byte if the cell's representation kind is char.
pub(crate) fn load_of(kind: Kind, destination: usize, address: Operand, offset: u32) -> Instruction
    ensures { result ≡ load_of kind destination address offset }
{
    match kind {
        Kind::Char => Instruction::LoadByte {
            destination,
            address,
            offset,
        },
        Kind::Int | Kind::Nullable | Kind::NonNull | Kind::Fat | Kind::Handle | Kind::Key =>
            Instruction::Load {
                destination,
                address,
                offset,
            },
    }
}

/// Returns the instruction that stores a word of a cell, or only the byte if the cell's representation kind is char.
pub(crate) fn store_of(kind: Kind, address: Operand, offset: u32, source: Operand) -> Instruction
    ensures { result ≡ store_of kind address offset source }
{
    match kind {
        Kind::Char => Instruction::StoreByte {
            address,
            offset,
            source,
        },
        Kind::Int | Kind::Nullable | Kind::NonNull | Kind::Fat | Kind::Handle | Kind::Key =>
            Instruction::Store {
                address,
                offset,
                source,
            },
    }
}

/// Returns the jump that is taken if a condition fails.
pub(crate) fn failing_jump(condition: Condition, target: usize) -> Instruction
    ensures { result ≡ failing_jump condition target }
{
    Instruction::Branch {
        comparison: condition.failing,
        left: condition.left,
        right: condition.right,
        target,
    }
}

/// Returns the jump that is taken if a condition holds.
pub(crate) fn holding_jump(condition: Condition, target: usize) -> Instruction
    ensures { result ≡ holding_jump condition target }
{
    Instruction::Branch {
        comparison: opposite(condition.failing),
        left: condition.left,
        right: condition.right,
        target,
    }
}

/// Returns the negation of a condition, which compares the same operands by another operator.
pub(crate) fn negated_condition(condition: Condition) -> Condition
    ensures { result ≡ negated_condition condition }
{
    Condition {
        failing: opposite(condition.failing),
        left: condition.left,
        right: condition.right,
    }
}

/// Returns the condition that fails if the left operand of a logical operator decides the result.
pub(crate) fn deciding_condition(
    operator: typed::LogicalOperator,
    condition: Condition,
) -> Condition
    ensures { result ≡ deciding_condition operator condition }
{
    match operator {
        typed::LogicalOperator::AndThen => condition,
        typed::LogicalOperator::OrElse => negated_condition(condition),
    }
}

/// Returns the jump that is taken if the left operand of a logical operator decides the result.
pub(crate) fn deciding_jump(
    operator: typed::LogicalOperator,
    condition: Condition,
    target: usize,
) -> Instruction
    ensures { result ≡ deciding_jump operator condition target }
{
    failing_jump(deciding_condition(operator, condition), target)
}

/// Returns the jump that is taken if a word is 0.
pub(crate) fn jump_if_zero(condition: Operand, target: usize) -> Instruction
    ensures { result ≡ jump_if_zero condition target }
{
    Instruction::Branch {
        comparison: Comparison::Equal,
        left: condition,
        right: Operand::Word { word: 0 },
        target,
    }
}

/// Returns the jump that is taken if a word is not 0.
pub(crate) fn jump_if_nonzero(condition: Operand, target: usize) -> Instruction
    ensures { result ≡ jump_if_nonzero condition target }
{
    Instruction::Branch {
        comparison: Comparison::NotEqual,
        left: condition,
        right: Operand::Word { word: 0 },
        target,
    }
}

/// Returns the jump over the right operand of `&&` or `||`, which is taken if the left operand's value in this slot decides the result.
pub(crate) fn test_jump(operator: typed::LogicalOperator, slot: usize, target: usize) -> Instruction
    ensures { result ≡ test_jump operator slot target }
{
    let condition = Operand::Slot { number: slot };
    match operator {
        typed::LogicalOperator::AndThen => jump_if_zero(condition, target),
        typed::LogicalOperator::OrElse => jump_if_nonzero(condition, target),
    }
}

/// Returns the operand with the tag of an exception, which is less than 2 ^ 32 in every source text.
pub(crate) fn tag_operand(tag: usize) -> Operand
    ensures { result ≡ tag_operand tag }
{
    Operand::Word {
        word: (tag % 0x1_0000_0000) as u32,
    }
}

/// Returns the jump over a catch clause, which is taken if the tag in a slot is not that of the clause.
pub(crate) fn other_jump(tag: usize, slot: usize, target: usize) -> Instruction
    ensures { result ≡ other_jump tag slot target }
{
    Instruction::Branch {
        comparison: Comparison::NotEqual,
        left: Operand::Slot { number: slot },
        right: tag_operand(tag),
        target,
    }
}

/// Returns the instruction that throws an exception again if no catch clause of a `try` has caught it.
pub(crate) fn goes_on(slot: usize) -> Instruction
    requires { slot ≤ most_locals }
    ensures { result ≡ goes_on slot }
{
    Instruction::Throw {
        tag: Operand::Slot { number: slot },
        value: Operand::Slot { number: slot + 1 },
    }
}
