//! Emits the MIPS lines of operators and tests, and of other instructions that access only the function's own slots.
ghost use Rattle.std.specs.Prelude.{◌≡◌, ◌+◌, ◌*◌, ◌<◌, ◌≤◌, ◌^◌, [], ◌∷◌, ◌++◌, OnOk};
ghost use Rattle.cyc_select.specs.inside.Instructions.{small, syscall, arithmetic_of, immediate_of, shift_of, shift_by_of, multiply_divide_of, move_from_of};
ghost use Rattle.cyc_select.specs.inside.Slots.{give_code};
ghost use Rattle.cyc_select.specs.inside.Operands.{operation_code, outcome_code, operands_code, operation_of, computed_code, plan_code, test_code};
ghost use Rattle.cyc_select.specs.inside.Operands.{branch_on, condition_of, operation_count, outcome_count, count_of_operation, plan_count};
ghost use Rattle.cyc_select.specs.inside.Operands.{test_count, is_tested};
ghost use Rattle.cyc_select.specs.inside.Selection.{ordinary, product_code, quotient_code, divided_code, divide_code, part_of, operator_code};
ghost use Rattle.cyc_select.specs.inside.Selection.{move_code, branch_code, write_code, uncaught_code};
ghost use Rattle.cyc_select.specs.inside.Emission.{AddsLines, IsReached, IsFound, IsPlanFound, IsTestFound, most_lines};

use crate::code::{Condition, Line};
use crate::constants::{FIRST, SECOND, THIRD, ZERO};
use crate::emitter::Emitter;
use crate::instructions::{
    add_immediate, is_zero, minus, register, shift_amount, small, store_slot, syscall,
};
use crate::numbers::is_plain_divisor;
use crate::operands::{keep_count, made_in, operand_count, operand_register, value_register};
use crate::plan::{Operation, Outcome, Plan, Test, binary_plan};
use cyc_frame::Frame;
use cyc_isa::{ArithmeticOp, BranchOp, ImmediateOp, Instr, MoveFromOp, MultiplyDivideOp, ShiftOp};
use cyc_machine_model::constants::{
    ARGUMENT, END_UNCAUGHT, GET_BYTE, PUT_BYTE, SECOND_ARGUMENT, SERVICE,
};
use cyc_plain::{BinaryOperator, Operand};
use std::alloc::AllocError;

/// The operands of a binary operator, and the slot that receives its result.
#[derive(Clone, Copy)]
pub(crate) struct Parts {
    pub(crate) destination: usize,
    pub(crate) left: Operand,
    pub(crate) right: Operand,
}

/// Returns the instruction that applies an operator to two registers and writes a third one.
pub(crate) fn arithmetic(op: ArithmeticOp, target: u8, left: u8, right: u8) -> Instr
    ensures { result ≡ arithmetic_of op target left right }
{
    Instr::Arithmetic {
        op,
        destination: register(target),
        left: register(left),
        right: register(right),
    }
}

pub(crate) fn shift(op: ShiftOp, target: u8, source: u8, by: u8) -> Instr
    ensures { result ≡ shift_of op target source by }
{
    Instr::ShiftVariable {
        op,
        destination: register(target),
        source: register(source),
        by: register(by),
    }
}

/// Returns the instruction that applies an operator to a register and an immediate.
pub(crate) fn immediate(op: ImmediateOp, target: u8, left: u8, half: u16) -> Instr
    ensures { result ≡ immediate_of op target left half }
{
    Instr::Immediate {
        op,
        target: register(target),
        source: register(left),
        immediate: half,
    }
}

/// Returns the instruction that shifts a register by a constant, taken modulo 32.
pub(crate) fn shift_by(op: ShiftOp, target: u8, source: u8, amount: u8) -> Instr
    ensures { result ≡ shift_by_of op target source amount }
{
    Instr::Shift {
        op,
        destination: register(target),
        source: register(source),
        amount: shift_amount(amount),
    }
}

fn multiply_divide(op: MultiplyDivideOp, left: u8, right: u8) -> Instr
    ensures { result ≡ multiply_divide_of op left right }
{
    Instr::MultiplyDivide {
        op,
        left: register(left),
        right: register(right),
    }
}

fn move_from(op: MoveFromOp, target: u8) -> Instr
    ensures { result ≡ move_from_of op target }
{
    Instr::MoveFrom {
        op,
        destination: register(target),
    }
}

fn operation_count(operation: Operation) -> usize
    ensures value { result ≡ operation_count operation }
    ensures few { result ≤ 2 }
{
    match operation {
        Operation::Arithmetic { .. }
        | Operation::Immediate { .. }
        | Operation::Shift { .. }
        | Operation::ShiftBy { .. } => 1,
        Operation::MultiplyDivide { .. } => 2,
    }
}

fn outcome_count(outcome: Outcome) -> usize
    ensures value { result ≡ outcome_count outcome }
    ensures few { result ≤ 1 }
{
    match outcome {
        Outcome::AsItIs => 0,
        Outcome::WhetherZero | Outcome::WhetherNotZero => 1,
    }
}

/// Returns the number of MIPS lines of a plan (a computation from two operands) without its final step.
pub(crate) fn count_of_operation(frame: &Frame, plan: Plan) -> usize
    ensures value { result ≡ count_of_operation frame.now plan }
    ensures few { result ≤ 6 }
{
    operand_count(frame, plan.left)
        + operand_count(frame, plan.right)
        + operation_count(plan.operation)
}

/// Returns the number of MIPS lines that compute a plan (a computation from two operands) and write its result to a slot.
pub(crate) fn plan_count(frame: &Frame, plan: Plan, destination: usize) -> usize
    ensures { result ≡ plan_count frame.now plan destination }
{
    count_of_operation(frame, plan) + outcome_count(plan.outcome) + keep_count(frame, destination)
}

/// Returns the number of MIPS lines that compute the test of a branch.
pub(crate) fn test_count(frame: &Frame, test: Test) -> usize
    ensures value { result ≡ test_count frame.now test }
    ensures few { result ≤ 6 }
{
    match test {
        Test::Operands { left, right, .. } => {
            operand_count(frame, left) + operand_count(frame, right)
        }
        Test::Sign { operand, .. } => operand_count(frame, operand),
        Test::Computed { plan } => count_of_operation(frame, plan),
    }
}

/// Returns the branch that is taken if the final step of a plan (a computation from two operands) would compute 1.
fn branch_on(outcome: Outcome) -> BranchOp
    ensures { result ≡ branch_on outcome }
{
    match outcome {
        Outcome::AsItIs | Outcome::WhetherNotZero => BranchOp::NotEqual,
        Outcome::WhetherZero => BranchOp::Equal,
    }
}

/// Returns the condition on registers under which a branch is taken, once the lines that compute its test have been executed.
pub(crate) fn condition_of(frame: &Frame, test: Test) -> Condition
    ensures { result ≡ condition_of frame.now test }
{
    match test {
        Test::Operands { op, left, right } => Condition::Registers {
            op,
            left: register(operand_register(frame, FIRST, left)),
            right: register(operand_register(frame, SECOND, right)),
        },
        Test::Sign { op, operand } => Condition::Sign {
            op,
            source: register(operand_register(frame, FIRST, operand)),
        },
        Test::Computed { plan } => Condition::Registers {
            op: branch_on(plan.outcome),
            left: register(FIRST),
            right: register(ZERO),
        },
    }
}

/// Returns true if the code of a division must test its divisor, which may be 0 or -1.
pub(crate) fn is_tested(operator: BinaryOperator, divisor: Operand) -> bool
    ensures { result ≡ is_tested operator divisor }
{
    match operator {
        BinaryOperator::Divide | BinaryOperator::Remainder => !is_plain_divisor(divisor),
        _ => false,
    }
}

/// Returns the register that holds the result of a division: HI for a remainder, LO for a quotient.
fn part_of(operator: BinaryOperator) -> MoveFromOp
    ensures { result ≡ part_of operator }
{
    match operator {
        BinaryOperator::Remainder => MoveFromOp::High,
        _ => MoveFromOp::Low,
    }
}

/// Returns the instruction that computes a quotient or a remainder by -1, as a product.
fn product(which: MoveFromOp, left: u8) -> Instr
    ensures { result ≡ product_code which left }
{
    match which {
        MoveFromOp::High => multiply_divide(MultiplyDivideOp::Multiply, ZERO, ZERO),
        MoveFromOp::Low => multiply_divide(MultiplyDivideOp::Multiply, left, THIRD),
    }
}

impl Emitter {
    /// Emits the MIPS lines that copy an operand to a slot.
    pub(crate) fn copy(
        &mut self,
        frame: &Frame,
        destination: usize,
        source: Operand,
    ) -> Result<(), AllocError>
        requires target { IsReached frame.now destination }
        requires source { IsFound frame.now source }
        ensures { AddsLines result self.old self.new (move_code frame.now destination source) }
    {
        if let Some(own) = value_register(frame, destination) {
            self.load(frame, own, source)?;
            return self.keep(frame, destination);
        }
        self.operand(frame, FIRST, source)?;
        self.ordinary(&[store_slot(frame, operand_register(frame, FIRST, source), destination)])
    }

    /// Emits the instructions that compute a word from two registers and write a third one.
    fn operation(
        &mut self,
        operation: Operation,
        target: u8,
        left: u8,
        right: u8,
    ) -> Result<(), AllocError>
        ensures { AddsLines result self.old self.new (ordinary (operation_code operation target left right)) }
    {
        match operation {
            Operation::Arithmetic { op } => self.ordinary(&[arithmetic(op, target, left, right)]),
            Operation::Immediate { op, half } => {
                self.ordinary(&[immediate(op, target, left, half)])
            }
            Operation::Shift { op } => self.ordinary(&[shift(op, target, left, right)]),
            Operation::ShiftBy { op, amount } => {
                self.ordinary(&[shift_by(op, target, left, amount)])
            }
            Operation::MultiplyDivide { op, from } => {
                self.ordinary(&[multiply_divide(op, left, right), move_from(from, target)])
            }
        }
    }

    /// Emits the final step of a plan (a computation from two operands) on the word in a register.
    fn outcome(&mut self, outcome: Outcome, target: u8) -> Result<(), AllocError>
        ensures { AddsLines result self.old self.new (ordinary (outcome_code outcome target)) }
    {
        match outcome {
            Outcome::AsItIs => Ok(()),
            Outcome::WhetherZero => self.ordinary(&[is_zero(target)]),
            Outcome::WhetherNotZero => {
                self.ordinary(&[arithmetic(ArithmeticOp::SetLessUnsigned, target, ZERO, target)])
            }
        }
    }

    /// Emits the MIPS lines that make two operands available, each in a register.
    fn operands(&mut self, frame: &Frame, left: Operand, right: Operand) -> Result<(), AllocError>
        requires left { IsFound frame.now left }
        requires right { IsFound frame.now right }
        ensures { AddsLines result self.old self.new (ordinary (operands_code frame.now left right)) }
    {
        self.operand(frame, FIRST, left)?;
        self.operand(frame, SECOND, right)
    }

    /// Emits the MIPS lines that compute a plan (a computation from two operands), without its final step, in a register.
    pub(crate) fn operation_of(
        &mut self,
        frame: &Frame,
        target: u8,
        plan: Plan,
    ) -> Result<(), AllocError>
        requires { IsPlanFound frame.now plan }
        ensures { AddsLines result self.old self.new (ordinary (operation_of frame.now target plan)) }
    {
        self.operands(frame, plan.left, plan.right)?;
        self.operation(
            plan.operation,
            target,
            operand_register(frame, FIRST, plan.left),
            operand_register(frame, SECOND, plan.right),
        )
    }

    /// Emits the MIPS lines that compute a plan (a computation from two operands) in a register.
    fn computed(&mut self, frame: &Frame, target: u8, plan: Plan) -> Result<(), AllocError>
        requires { IsPlanFound frame.now plan }
        ensures { AddsLines result self.old self.new (ordinary (computed_code frame.now target plan)) }
    {
        self.operation_of(frame, target, plan)?;
        self.outcome(plan.outcome, target)
    }

    /// Emits the MIPS lines that compute a plan (a computation from two operands) and write its result to a slot.
    pub(crate) fn plan(
        &mut self,
        frame: &Frame,
        plan: Plan,
        destination: usize,
    ) -> Result<(), AllocError>
        requires target { IsReached frame.now destination }
        requires found { IsPlanFound frame.now plan }
        ensures { AddsLines result self.old self.new (ordinary (plan_code frame.now plan destination)) }
    {
        self.computed(frame, made_in(frame, destination), plan)?;
        self.keep(frame, destination)
    }

    /// Emits the MIPS lines that compute the test of a branch.
    fn test(&mut self, frame: &Frame, test: Test) -> Result<(), AllocError>
        requires { IsTestFound frame.now test }
        ensures { AddsLines result self.old self.new (ordinary (test_code frame.now test)) }
    {
        match test {
            Test::Operands { left, right, .. } => self.operands(frame, left, right),
            Test::Sign { operand, .. } => self.operand(frame, FIRST, operand),
            Test::Computed { plan } => self.operation_of(frame, FIRST, plan),
        }
    }

    /// Emits a branch that is taken if a test holds, with the hoisted line, if any, before the branch.
    pub(crate) fn branch_where(
        &mut self,
        frame: &Frame,
        test: Test,
        first: Option<Instr>,
        label: usize,
    ) -> Result<(), AllocError>
        requires found { IsTestFound frame.now test }
        requires fits { label ≤ most_lines }
        ensures { AddsLines result self.old self.new (branch_code frame.now test first label) }
    {
        let condition = condition_of(frame, test);
        self.test(frame, test)?;
        match first {
            Some(first) => {
                self.ordinary(&[first])?;
                self.line(Line::Branch {
                    condition,
                    label: label + 1,
                })
            }
            None => self.line(Line::Branch { condition, label }),
        }
    }

    /// Emits the MIPS lines that make the dividend and the divisor available in registers and load -1 into a third one.
    fn dividend_and_divisor(
        &mut self,
        frame: &Frame,
        left: Operand,
        right: Operand,
    ) -> Result<(), AllocError>
        requires left { IsFound frame.now left }
        requires right { IsFound frame.now right }
        ensures { AddsLines result self.old self.new (ordinary (divided_code frame.now left right)) }
    {
        self.operands(frame, left, right)?;
        self.ordinary(&[add_immediate(THIRD, ZERO, minus(1))])
    }

    /// Emits the MIPS lines that divide one register by another and write the quotient or the remainder to a slot.
    fn quotient(
        &mut self,
        frame: &Frame,
        which: MoveFromOp,
        destination: usize,
        left: u8,
        right: u8,
    ) -> Result<(), AllocError>
        requires { IsReached frame.now destination }
        ensures { AddsLines result self.old self.new (ordinary (quotient_code frame.now which destination left right)) }
    {
        let target = made_in(frame, destination);
        self.ordinary(&[
            multiply_divide(MultiplyDivideOp::Divide, left, right),
            move_from(which, target),
        ])?;
        self.keep(frame, destination)
    }

    /// Emits the code of a quotient or a remainder. For the divisor -1 the code multiplies by -1 instead of dividing, since the machine
    /// cannot divide the least int by -1. The product is in the same register (HI or LO) in which the division leaves its result.
    fn divide(
        &mut self,
        frame: &Frame,
        here: usize,
        which: MoveFromOp,
        parts: Parts,
    ) -> Result<(), AllocError>
        requires fits { here ≤ most_lines }
        requires target { IsReached frame.now parts.destination }
        requires left { IsFound frame.now parts.left }
        requires right { IsFound frame.now parts.right }
        ensures { AddsLines result self.old self.new (divide_code frame.now here which parts.destination parts.left parts.right) }
    {
        let left = operand_register(frame, FIRST, parts.left);
        let right = operand_register(frame, SECOND, parts.right);
        let before = operand_count(frame, parts.left) + operand_count(frame, parts.right);
        self.dividend_and_divisor(frame, parts.left, parts.right)?;
        self.branch(BranchOp::NotEqual, right, THIRD, here + before + 4)?;
        self.ordinary(&[product(which, left)])?;
        self.line(Line::Jump {
            label: here + before + 5,
        })?;
        self.quotient(frame, which, parts.destination, left, right)
    }

    /// Emits the MIPS lines of an operator on two operands.
    pub(crate) fn binary(
        &mut self,
        frame: &Frame,
        here: usize,
        operator: BinaryOperator,
        parts: Parts,
    ) -> Result<(), AllocError>
        requires fits { here ≤ most_lines }
        requires target { IsReached frame.now parts.destination }
        requires left { IsFound frame.now parts.left }
        requires right { IsFound frame.now parts.right }
        ensures { AddsLines result self.old self.new (operator_code frame.now here operator parts.destination parts.left parts.right) }
    {
        if is_tested(operator, parts.right) {
            return self.divide(frame, here, part_of(operator), parts);
        }
        let plan = binary_plan(operator, parts.left, parts.right);
        self.plan(frame, plan, parts.destination)
    }

    /// Emits the MIPS lines that read an input byte into a slot.
    pub(crate) fn read_byte(&mut self, frame: &Frame, destination: usize) -> Result<(), AllocError>
        requires { IsReached frame.now destination }
        ensures { AddsLines result self.old self.new (ordinary (small SERVICE GET_BYTE ∷ syscall ∷ give_code frame.now SERVICE destination)) }
    {
        self.ordinary(&[small(SERVICE, GET_BYTE as u16), syscall()])?;
        self.give(frame, SERVICE, destination)
    }

    /// Emits the MIPS lines that print an operand's low byte.
    pub(crate) fn write_byte(&mut self, frame: &Frame, source: Operand) -> Result<(), AllocError>
        requires { IsFound frame.now source }
        ensures { AddsLines result self.old self.new (write_code frame.now source) }
    {
        self.load(frame, ARGUMENT, source)?;
        self.ordinary(&[small(SERVICE, PUT_BYTE as u16), syscall()])
    }

    /// Emits the MIPS lines that end the run with an uncaught exception.
    pub(crate) fn uncaught(
        &mut self,
        frame: &Frame,
        tag: u32,
        value: Operand,
    ) -> Result<(), AllocError>
        requires { IsFound frame.now value }
        ensures { AddsLines result self.old self.new (uncaught_code frame.now tag value) }
    {
        self.word(ARGUMENT, tag)?;
        self.load(frame, SECOND_ARGUMENT, value)?;
        self.ordinary(&[small(SERVICE, END_UNCAUGHT as u16), syscall()])
    }
}
