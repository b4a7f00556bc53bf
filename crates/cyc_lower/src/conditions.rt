//! Emits conditions: two operands and their comparison, before a jump that is taken if the condition fails.
ghost use Rattle.std.specs.Prelude.{◌≡◌, ◌≤◌, ◌<◌, ◌+◌, IfOk, length, set};
ghost use Rattle.cyc_types.specs.TypedTreeView.{view_expression, operations_of};
ghost use Rattle.cyc_lower_proof.specs.inside.ControlCode.{is_same, all_test, are_tests, turned_test, failing_jump};
ghost use Rattle.cyc_lower_proof.specs.inside.Lowering.{first_operand, first_code, pair_code, condition_of, condition_code, tests_code};
ghost use Rattle.cyc_lower_proof.specs.inside.Lowering.{last_condition, after_tests, choice_of, choice_code};
ghost use Rattle.cyc_lower.specs.inside.Emission.{Gives, most_locals, value_code, IsChain, is_test, other_code, other_condition, zero_condition};
ghost use Rattle.cyc_lower.specs.inside.Emission.{view_starts, null_condition, pair_condition, failed, AreBefore, IsEarly, IsSettled, IsBranch};

use crate::emitter::Emitter;
use crate::operands::{is_simple, slot_after};
use crate::operators::{
    deciding_condition, deciding_jump, negated_condition, null_operation, pair_operation, right_of,
};
use crate::starts::Starts;
use cyc_lower_proof::Condition;
use cyc_plain::{Comparison, Operand};
use cyc_types::typed::{Expr, Kind, LogicalOperator, Operation, UnaryOperator};
use std::alloc::AllocError;

/// A jump in the code that is taken if a condition fails, and whose target is not yet known.
#[derive(Clone, Copy)]
pub(crate) struct Pending {
    pub(crate) place: usize,
    pub(crate) condition: Condition,
}

/// The condition of a branch before the jump over its first statement, and the condition's inner jumps, which get the same target as
/// that jump.
#[derive(Drop)]
pub(crate) struct Tested {
    pub(crate) last: Condition,
    pub(crate) early: Vec<Pending>,
}

fn is_same(operator: LogicalOperator, other: LogicalOperator) -> bool
    ensures { result ≡ is_same operator other }
{
    match operator {
        LogicalOperator::AndThen => matches!(other, LogicalOperator::AndThen),
        LogicalOperator::OrElse => matches!(other, LogicalOperator::OrElse),
    }
}

/// Returns the logical operator that the negation of a logical operator has: `&&` for `||`, and `||` for `&&`.
fn turned_test(operator: LogicalOperator) -> LogicalOperator
    ensures { result ≡ turned_test operator }
{
    match operator {
        LogicalOperator::AndThen => LogicalOperator::OrElse,
        LogicalOperator::OrElse => LogicalOperator::AndThen,
    }
}

/// Returns true if an operator of a chain is the given logical operator.
fn is_test(operator: LogicalOperator, operation: &Operation) -> bool
    ensures { result ≡ is_test operator operation.now }
{
    match operation {
        Operation::Test {
            operator: other,
            ..
        } => is_same(operator, *other),
        _ => false,
    }
}

/// Returns true if all operators of a chain are the given logical operator.
fn all_test(operator: LogicalOperator, operations: &[Operation]) -> bool
    ensures { result ≡ all_test operator (operations_of operations.now) }
{
    for operation in operations {
        if !is_test(operator, operation) {
            return false;
        }
    }
    true
}

/// Returns true if a chain has at least one operator, and all of them are the given logical operator.
fn are_tests(operator: LogicalOperator, operations: &[Operation]) -> bool
    ensures { result ≡ are_tests operator (operations_of operations.now) }
{
    if operations.is_empty() {
        return false;
    }
    all_test(operator, operations)
}

impl Emitter {
    /// Emits a value and returns the condition that compares it with 0.
    fn compare_with_zero(
        &mut self,
        starts: &Starts,
        value: &Expr,
        free: usize,
    ) -> Result<Condition, AllocError>
        requires { free ≤ most_locals + length self.old.code.items }
        ensures { Gives (zero_condition (view_starts starts.now) (view_expression value.now) free) result self.old self.new
            (value_code (view_starts starts.now) (view_expression value.now) (length self.old.code.items) free) }
    {
        let left = self.lower_operand(starts, value, free)?;
        Ok(Condition {
            failing: Comparison::Equal,
            left,
            right: Operand::Word { word: 0 },
        })
    }

    /// Emits a pointer and returns the condition that compares its first word with 0.
    fn compare_with_null(
        &mut self,
        starts: &Starts,
        failing: Comparison,
        value: &Expr,
        free: usize,
    ) -> Result<Condition, AllocError>
        requires { free ≤ most_locals + length self.old.code.items }
        ensures { Gives (null_condition (view_starts starts.now) failing (view_expression value.now) free) result self.old self.new
            (value_code (view_starts starts.now) (view_expression value.now) (length self.old.code.items) free) }
    {
        let left = self.lower_operand(starts, value, free)?;
        Ok(Condition {
            failing,
            left,
            right: Operand::Word { word: 0 },
        })
    }

    /// Emits the first of two compared operands. The first operand is used without code only if evaluating the second operand
    /// has no side effect.
    fn lower_first(
        &mut self,
        starts: &Starts,
        value: &Expr,
        second: &Expr,
        free: usize,
    ) -> Result<Operand, AllocError>
        requires { free ≤ most_locals + length self.old.code.items }
        ensures { Gives (first_operand (view_starts starts.now) (view_expression value.now) (view_expression second.now) free) result self.old
            self.new (first_code (view_starts starts.now) (view_expression value.now) (view_expression second.now) (length self.old.code.items)
            free) }
    {
        if is_simple(starts, second) {
            return self.lower_operand(starts, value, free);
        }
        self.lower_expression(starts, value, free, free)?;
        Ok(Operand::Slot { number: free })
    }

    /// Emits two operands and returns the condition that compares them.
    fn compare_pair(
        &mut self,
        starts: &Starts,
        failing: Comparison,
        first: &Expr,
        second: &Expr,
        free: usize,
    ) -> Result<Condition, AllocError>
        requires { free ≤ most_locals + length self.old.code.items }
        ensures { Gives (pair_condition (view_starts starts.now) failing (view_expression first.now) (view_expression second.now) free) result
            self.old self.new (pair_code (view_starts starts.now) (view_expression first.now) (view_expression second.now)
            (length self.old.code.items) free) }
    {
        let left = self.lower_first(starts, first, second, free)?;
        let following = slot_after(free, Kind::Int)?;
        let right = self.lower_operand(starts, second, following)?;
        Ok(Condition {
            failing,
            left,
            right,
        })
    }

    /// Emits a condition that is a chain of operators. If the only operator is a comparison, the conditional jump
    /// after it performs the comparison.
    fn compare_chain(
        &mut self,
        starts: &Starts,
        value: &Expr,
        first: &Expr,
        rest: &[Operation],
        free: usize,
    ) -> Result<Condition, AllocError>
        requires low { free ≤ most_locals + length self.old.code.items }
        requires chain { IsChain (view_expression value.now) (view_expression first.now) (operations_of rest.now) }
        ensures { Gives (condition_of (view_starts starts.now) (view_expression value.now) free) result self.old self.new
            (condition_code (view_starts starts.now) (view_expression value.now) (length self.old.code.items) free) }
    {
        if rest.len() != 1 {
            return self.compare_with_zero(starts, value, free);
        }
        if let Some(operation) = rest.first() {
            if let Some(failing) = null_operation(operation) {
                return self.compare_with_null(starts, failing, first, free);
            }
            if let Some(failing) = pair_operation(operation) {
                return self.compare_pair(starts, failing, first, right_of(operation), free);
            }
        }
        self.compare_with_zero(starts, value, free)
    }

    /// Emits a condition and returns the comparison of its two operands.
    pub(crate) fn lower_condition(
        &mut self,
        starts: &Starts,
        value: &Expr,
        free: usize,
    ) -> Result<Condition, AllocError>
        requires { free ≤ most_locals + length self.old.code.items }
        ensures { Gives (condition_of (view_starts starts.now) (view_expression value.now) free) result self.old self.new
            (condition_code (view_starts starts.now) (view_expression value.now) (length self.old.code.items) free) }
    {
        match value {
            Expr::Binary { first, rest, .. } => self.compare_chain(
                starts, value, first, rest, free,
            ),
            Expr::Unary {
                operator: UnaryOperator::Not,
                operand,
            } => {
                let condition = self.lower_condition(starts, operand, free)?;
                Ok(negated_condition(condition))
            }
            _ => self.compare_with_zero(starts, value, free),
        }
    }

    /// Emits the right operand of a logical operator, after a jump that is taken if the condition of the left operand decides the result.
    fn lower_other(
        &mut self,
        starts: &Starts,
        operator: LogicalOperator,
        operation: &Operation,
        before: Condition,
        following: usize,
        free: usize,
    ) -> Result<Condition, AllocError>
        requires { free ≤ most_locals + length self.old.code.items }
        ensures { Gives (other_condition (view_starts starts.now) operation.now before free) result self.old self.new
            (other_code (view_starts starts.now) operator operation.now before following (length self.old.code.items) free) }
    {
        match operation {
            Operation::Test { operand, .. } => {
                self.emit(deciding_jump(operator, before, following))?;
                self.lower_condition(starts, operand, free)
            }
            _ => Ok(before),
        }
    }

    /// Emits the operands of a chain of only `&&` or only `||`. If an operand before the last one decides, a jump goes to the
    /// position `following`. Returns the condition of the last operand.
    fn lower_tests(
        &mut self,
        starts: &Starts,
        operator: LogicalOperator,
        first: &Expr,
        rest: &[Operation],
        following: usize,
        free: usize,
    ) -> Result<Condition, AllocError>
        requires { free ≤ most_locals + length self.old.code.items }
        ensures { Gives (last_condition (view_starts starts.now) (operations_of rest.now)
            (condition_of (view_starts starts.now) (view_expression first.now) free) free) result self.old self.new
            (tests_code (view_starts starts.now) operator (view_expression first.now) (operations_of rest.now) following (length self.old.code.items)
            free) }
    {
        let mut condition = self.lower_condition(starts, first, free)?;
        for operation in rest {
            condition = self.lower_other(starts, operator, operation, condition, following, free)?;
        }
        Ok(condition)
    }

    /// Emits the operands of a chain of `&&` or `||` while the target of the jumps taken when an operand decides the result is unknown.
    fn lower_early(
        &mut self,
        starts: &Starts,
        operator: LogicalOperator,
        first: &Expr,
        rest: &[Operation],
        free: usize,
    ) -> Result<Tested, AllocError>
        requires { free ≤ most_locals + length self.old.code.items }
        ensures { IfOk result (IsEarly (view_starts starts.now) operator (view_expression first.now) rest.now free self.old.code.items self.new.code.items) }
    {
        let mut last = self.lower_condition(starts, first, free)?;
        let mut early = Vec::new(starts.alloc);
        for operation in rest {
            early.push(Pending {
                place: self.place(),
                condition: deciding_condition(operator, last),
            })?;
            last = self.lower_other(starts, operator, operation, last, 0, free)?;
        }
        Ok(Tested { last, early })
    }

    /// Emits the operands of a chain of only `&&` or only `||`. The jumps taken when an operand decides go to the position after
    /// the conditional jump that ends the condition. The target of the jumps inside a chain is known only after the code of the
    /// chain was emitted once.
    fn lower_chain(
        &mut self,
        starts: &Starts,
        operator: LogicalOperator,
        first: &Expr,
        rest: &[Operation],
        free: usize,
    ) -> Result<Condition, AllocError>
        requires { free ≤ most_locals + length self.old.code.items }
        ensures { Gives (last_condition (view_starts starts.now) (operations_of rest.now)
            (condition_of (view_starts starts.now) (view_expression first.now) free) free) result self.old self.new
            (tests_code (view_starts starts.now) operator (view_expression first.now) (operations_of rest.now)
            (after_tests (view_starts starts.now) operator (view_expression first.now) (operations_of rest.now) (length self.old.code.items) free)
            (length self.old.code.items) free) }
    {
        let begin = self.place();
        self.lower_tests(starts, operator, first, rest, 0, free)?;
        let following = self.place() + 1;
        self.take_back(begin);
        self.lower_tests(starts, operator, first, rest, following, free)
    }

    /// Emits a condition that is a chain of operators (such as `a && b && c`). The operators of the chain may be logical operators, or
    /// other operators such as `+`.
    fn choose_chain(
        &mut self,
        starts: &Starts,
        operator: LogicalOperator,
        value: &Expr,
        first: &Expr,
        rest: &[Operation],
        free: usize,
    ) -> Result<Condition, AllocError>
        requires low { free ≤ most_locals + length self.old.code.items }
        requires chain { IsChain (view_expression value.now) (view_expression first.now) (operations_of rest.now) }
        ensures { Gives (choice_of (view_starts starts.now) operator (view_expression value.now) free) result self.old self.new
            (choice_code (view_starts starts.now) operator (view_expression value.now) (length self.old.code.items) free) }
    {
        if are_tests(operator, rest) {
            return self.lower_chain(starts, operator, first, rest, free);
        }
        self.lower_condition(starts, value, free)
    }

    /// Emits a condition before a jump. A chain of the given operator (`&&` or `||`) is emitted operand by operand: if one operand
    /// decides, control continues after the jump.
    pub(crate) fn lower_choice(
        &mut self,
        starts: &Starts,
        operator: LogicalOperator,
        value: &Expr,
        free: usize,
    ) -> Result<Condition, AllocError>
        requires { free ≤ most_locals + length self.old.code.items }
        ensures { Gives (choice_of (view_starts starts.now) operator (view_expression value.now) free) result self.old self.new
            (choice_code (view_starts starts.now) operator (view_expression value.now) (length self.old.code.items) free) }
    {
        match value {
            Expr::Binary { first, rest, .. } => self.choose_chain(
                starts, operator, value, first, rest, free,
            ),
            Expr::Unary {
                operator: UnaryOperator::Not,
                operand,
            } => {
                let turned = turned_test(operator);
                let condition = self.lower_choice(starts, turned, operand, free)?;
                Ok(negated_condition(condition))
            }
            _ => self.compare_with_zero(starts, value, free),
        }
    }

    /// Emits the condition of a branch so that a chain of the other operator (`&&` for `||`, or the reverse) is emitted operand by operand.
    /// If a chain of the other operator is emitted operand by operand, no jump of the condition waits for its target.
    fn lower_settled(
        &mut self,
        starts: &Starts,
        operator: LogicalOperator,
        value: &Expr,
        free: usize,
    ) -> Result<Tested, AllocError>
        requires { free ≤ most_locals + length self.old.code.items }
        ensures { IfOk result (IsSettled (view_starts starts.now) (turned_test operator) (view_expression value.now) free self.old.code.items
            self.new.code.items) }
    {
        let turned = turned_test(operator);
        let last = self.lower_choice(starts, turned, value, free)?;
        Ok(Tested {
            last,
            early: Vec::new(starts.alloc),
        })
    }

    /// Emits the condition of a branch that is a chain of operators (such as `a && b && c`). The operators of the chain
    /// may be the given logical operator, or other operators such as `+`.
    fn branch_chain(
        &mut self,
        starts: &Starts,
        operator: LogicalOperator,
        value: &Expr,
        first: &Expr,
        rest: &[Operation],
        free: usize,
    ) -> Result<Tested, AllocError>
        requires low { free ≤ most_locals + length self.old.code.items }
        requires chain { IsChain (view_expression value.now) (view_expression first.now) (operations_of rest.now) }
        ensures { IfOk result (IsBranch (view_starts starts.now) operator (view_expression value.now) free self.old.code.items self.new.code.items) }
    {
        if are_tests(operator, rest) {
            return self.lower_early(starts, operator, first, rest, free);
        }
        self.lower_settled(starts, operator, value, free)
    }

    /// Emits the condition of a branch before the jump over its first statement. In a chain of the given operator (`&&` or `||`), each
    /// jump taken when an operand decides goes to the other statement of the branch.
    pub(crate) fn lower_branch(
        &mut self,
        starts: &Starts,
        operator: LogicalOperator,
        value: &Expr,
        free: usize,
    ) -> Result<Tested, AllocError>
        requires { free ≤ most_locals + length self.old.code.items }
        ensures { IfOk result (IsBranch (view_starts starts.now) operator (view_expression value.now) free self.old.code.items self.new.code.items) }
    {
        match value {
            Expr::Binary { first, rest, .. } => self.branch_chain(
                starts, operator, value, first, rest, free,
            ),
            Expr::Unary {
                operator: applied,
                operand,
            } => match applied {
                UnaryOperator::Not => {
                    let turned = turned_test(operator);
                    let mut tested = self.lower_branch(starts, turned, operand, free)?;
                    tested.last = negated_condition(tested.last);
                    Ok(tested)
                }
                _ => self.lower_settled(starts, operator, value, free),
            },
            _ => self.lower_settled(starts, operator, value, free),
        }
    }

    /// Sets the target of the given jumps, which are taken if a condition fails and had no target so far, to the next instruction.
    fn lead_here(&mut self, jumps: &[Pending])
        requires { AreBefore jumps.now (length self.old.code.items) }
        ensures { self.new.code.items ≡ failed jumps.now (length self.old.code.items) self.old.code.items }
    {
        for jump in jumps {
            self.jump_here_if_failing(jump.place, jump.condition);
        }
    }

    /// Sets the next instruction as the target of a branch whose condition fails. The target is set in the jump at `place`, which
    /// follows the condition, and in the condition's inner jumps.
    pub(crate) fn fail_here(&mut self, place: usize, tested: &Tested)
        requires { (place < length self.old.code.items) × AreBefore tested.now.early.items (length self.old.code.items) }
        ensures code { self.new.code.items ≡ failed tested.now.early.items (length self.old.code.items)
            (set self.old.code.items place (failing_jump tested.now.last (length self.old.code.items))) }
        ensures long { length self.new.code.items ≡ length self.old.code.items }
    {
        self.jump_here_if_failing(place, tested.last);
        self.lead_here(&tested.early);
    }
}
