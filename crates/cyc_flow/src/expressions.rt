//! The flow state after an expression that satisfies the flow rules. Each method changes the state before the expression into the state
//! after it. It receives the locals that were peeked at (read without a move) and whose read values are not yet used. The state is
//! changed in place: expressions nest deepest, so no stack frame contains a state.
ghost use Rattle.std.specs.Prelude.{◌≡◌, ◌++◌, IfOk, Some, Ok, option_map};
ghost use Rattle.cyc_syntax.specs.inside.TreeView.{place_of_span};
ghost use Rattle.cyc_types.specs.Rules.{run, fault_at};
ghost use Rattle.cyc_types.specs.TypeView.{view_value_type};
ghost use Rattle.cyc_types.specs.TypedTreeView.{view_lvalue, view_expression, view_dereference, view_placement, view_initial, view_converted};
ghost use Rattle.cyc_types.specs.TypedTreeView.{arguments_of, operations_of};
ghost use Rattle.cyc_types.specs.flow.States.{Vacant, Full, with_fullness};
ghost use Rattle.cyc_types.specs.flow.Touched.{and_local, and_assigned, touched, touched_place, touched_placement, touched_initial};
ghost use Rattle.cyc_types.specs.flow.Touched.{touched_converted, touched_arguments, touched_operations};
ghost use Rattle.cyc_types.specs.flow.Expressions.{and_peeked, peek_of, peek_after, looked, moved, used, stored, rule, rule_place, rule_placement};
ghost use Rattle.cyc_types.specs.flow.Expressions.{rule_initial, rule_converted, rule_arguments, rule_operations};
ghost use Rattle.cyc_flow.specs.declared.stop.Stop.TheVariants.{Refused};
ghost use Rattle.cyc_flow.specs.inside.Code.{view_fullness, view_state, begun, Leads};
ghost use Rattle.cyc_flow.specs.inside.Steps.{rule_operation, touched_operation};

use crate::evaluation::Evaluation;
use crate::settled::{Settled, check_head};
use crate::state::{Fullness, State};
use crate::stop::Stop;
use crate::touched::Touched;
use cyc_types::typed::{
    Converted, Dereference, Expr, Initial, Lvalue, Operation, Placement, ValueType,
};
use cyc_words::{Code, Span};
use std::alloc::{AllocError, Global};
use std::mem;

/// The flow state at a program point, and the locals (unique pointers and keys) that were consumed, assigned or locked before this point.
#[derive(Drop)]
pub(crate) struct Tracked {
    pub(crate) state: State,
    pub(crate) touched: Touched,
}

/// Returns the local that an operand peeks at (reads without moving its value), if any.
fn peek_of(operand: &Expr) -> Option<usize>
    ensures { result ≡ peek_of (view_expression operand.now) }
{
    match operand {
        Expr::Peek { number, .. } => Some(*number),
        _ => None,
    }
}

/// Returns the local from which the dereferenced pointer is peeked (read without a move), if any.
pub(crate) fn peek_after(place: &Dereference) -> Option<usize>
    ensures { result ≡ peek_after (view_dereference place.now) }
{
    match place {
        Dereference::Target { pointer, .. } => peek_of(pointer),
        Dereference::Member { pointer, .. } => peek_of(pointer),
        Dereference::Element { pointer, .. } => peek_of(pointer),
    }
}

/// Returns the locals that were peeked at (read without a move) and whose values are not yet used, extended by the local in the last
/// argument, if any.
pub(crate) fn and_peeked(
    alloc: Global,
    waiting: &[usize],
    peeked: Option<usize>,
) -> Result<Vec<usize>, AllocError>
    ensures { IfOk result (λ v. v.items ≡ and_peeked peeked waiting.now) }
{
    let mut all = waiting.to_vec(alloc)?;
    if let Some(number) = peeked {
        all.push(number)?;
    }
    Ok(all)
}

impl Tracked {
    /// Returns the flow state in which one local is empty, lent or full as given, and all others are unchanged.
    pub(crate) fn with_fullness(mut self, number: usize, fullness: Fullness) -> Tracked
        ensures state { view_state result.state ≡ with_fullness (view_fullness fullness) (view_state self.state) number }
        ensures touched { result.touched.numbers.list ≡ self.touched.numbers.list }
    {
        self.state.set(number, fullness);
        self
    }

    /// Records that a local is consumed, assigned or locked.
    pub(crate) fn touch(&mut self, number: usize) -> Result<(), AllocError>
        ensures state { IfOk result (λ _. view_state self.new.state ≡ view_state self.old.state) }
        ensures touched { IfOk result (λ _. self.new.touched.numbers.list ≡ and_local number self.old.touched.numbers.list) }
    {
        self.touched.add(number)?;
        Ok(())
    }

    /// Returns the flow state after the body of a `try`, with the locals touched (consumed, assigned or locked) before the body and in it.
    pub(crate) fn after_body(self, touched: Touched) -> Tracked
        ensures state { view_state result.state ≡ view_state self.state }
        ensures touched { result.touched.numbers.list ≡ touched.numbers.list ++ self.touched.numbers.list }
    {
        Tracked {
            state: self.state,
            touched: touched.joined(self.touched),
        }
    }
}

impl Evaluation {
    /// Checks that a peek at a local (a read without a move) is allowed: the local holds a value that is not lent.
    fn look(&self, span: Span, number: usize) -> Result<(), Stop>
        ensures { Leads result self.now (run (looked (place_of_span span) number (view_state self.now.state))) self.now.touched.numbers.list (begun self.now) }
    {
        let mut settled = Settled::new();
        settled.look(&self.state, span, number);
        settled.end()
    }

    /// Checks a use of a variable that leaves its value in the variable.
    fn use_variable(&self, waiting: &[usize], variable: Lvalue) -> Result<(), Stop>
        ensures { Leads result self.now (run (used waiting.now (view_lvalue variable) (view_state self.now.state))) self.now.touched.numbers.list
            (begun self.now) }
    {
        let Lvalue::Local { span, number } = variable else {
            return Ok(());
        };
        let mut settled = Settled::new();
        settled.use_local(waiting, &self.state, span, number);
        settled.end()
    }

    /// Checks a use that moves the value out of a local and leaves the local empty.
    fn consume(&mut self, waiting: &[usize], span: Span, number: usize) -> Result<(), Stop>
        ensures { Leads result self.new (run (moved waiting.now (place_of_span span) number (view_state self.old.state)))
            (and_local number self.old.touched.numbers.list) (begun self.old) }
    {
        let mut settled = Settled::new();
        settled.use_local(waiting, &self.state, span, number);
        settled.end()?;
        self.set(number, Fullness::Vacant)?;
        self.touch(number)?;
        Ok(())
    }

    /// Checks an assignment to a variable, given the type of the assigned value.
    fn assign(
        &mut self,
        waiting: &[usize],
        variable: Lvalue,
        result_type: &ValueType,
    ) -> Result<(), Stop>
        ensures { Leads result self.new (run (stored waiting.now (view_lvalue variable) (view_state self.old.state)))
            (and_assigned (view_lvalue variable) (view_value_type result_type.now) self.old.touched.numbers.list) (begun self.old) }
    {
        let Lvalue::Local { span, number } = variable else {
            return Ok(());
        };
        let mut settled = Settled::new();
        settled.store_local(waiting, &self.state, span, number);
        settled.end()?;
        self.set(number, Fullness::Full)?;
        if let ValueType::Void = result_type {
            self.touch(number)?;
        }
        Ok(())
    }

    /// Checks an expression.
    #[cycle(expression)]
    pub(crate) fn evaluate(
        &mut self,
        alloc: Global,
        waiting: &[usize],
        value: &Expr,
    ) -> Result<(), Stop>
        ensures { Leads result self.new (run (rule waiting.now (view_expression value.now) (view_state self.old.state)))
            (touched (view_expression value.now) self.old.touched.numbers.list) (begun self.old) }
    {
        match value {
            Expr::Number { .. } | Expr::NullPointer | Expr::HeapRegion | Expr::Counter { .. } => {
                Ok(())
            }
            Expr::Copy { source, .. } => self.use_variable(waiting, *source),
            Expr::Move { span, number, .. } => self.consume(waiting, *span, *number),
            Expr::Peek { span, number, .. } => self.look(*span, *number),
            Expr::Load { source } => self.find(alloc, waiting, source),
            Expr::AddressOf { place, .. } => self.use_variable(waiting, *place),
            Expr::AddressOfCell { place, .. } => self.find(alloc, waiting, place),
            Expr::NumberOfElements { pointer } => self.evaluate(alloc, waiting, pointer),
            Expr::FreeUnique { pointer } => self.evaluate(alloc, waiting, pointer),
            Expr::FreeKey { key } => self.evaluate(alloc, waiting, key),
            Expr::Call { arguments, .. } => self.pass(alloc, waiting, arguments),
            Expr::Unary { operand, .. } => self.evaluate(alloc, waiting, operand),
            Expr::Binary { first, rest, .. } => {
                self.evaluate(alloc, waiting, first)?;
                self.apply_operations(alloc, waiting, rest)
            }
            Expr::Assign {
                target,
                value,
                result: result_type,
            } => {
                self.convert(alloc, waiting, value)?;
                self.assign(waiting, *target, result_type)
            }
            Expr::Store { target, value, .. } => {
                self.find(alloc, waiting, target)?;
                let waiting = and_peeked(alloc, waiting, peek_after(target))?;
                self.convert(alloc, &waiting, value)
            }
            Expr::New {
                placement,
                initial,
                ..
            } => {
                self.place(alloc, waiting, placement)?;
                self.initialise(alloc, waiting, initial)
            }
        }
    }

    /// Checks the evaluation of a dereference or of another expression that denotes a memory location.
    #[cycle(expression)]
    pub(crate) fn find(
        &mut self,
        alloc: Global,
        waiting: &[usize],
        place: &Dereference,
    ) -> Result<(), Stop>
        ensures { Leads result self.new (run (rule_place waiting.now (view_dereference place.now) (view_state self.old.state)))
            (touched_place (view_dereference place.now) self.old.touched.numbers.list) (begun self.old) }
    {
        match place {
            Dereference::Target { pointer, .. } => self.evaluate(alloc, waiting, pointer),
            Dereference::Member { pointer, .. } => self.evaluate(alloc, waiting, pointer),
            Dereference::Element { pointer, index, .. } => {
                self.evaluate(alloc, waiting, pointer)?;
                let waiting = and_peeked(alloc, waiting, peek_of(pointer))?;
                self.evaluate(alloc, &waiting, index)
            }
        }
    }

    /// Checks the expression of the region handle with which an object is allocated, if there is one.
    #[cycle(expression)]
    fn place(&mut self, alloc: Global, waiting: &[usize], placement: &Placement) -> Result<(), Stop>
        ensures { Leads result self.new (run (rule_placement waiting.now (view_placement placement.now) (view_state self.old.state)))
            (touched_placement (view_placement placement.now) self.old.touched.numbers.list) (begun self.old) }
    {
        match placement {
            Placement::OnHeap => Ok(()),
            Placement::AsUnique => Ok(()),
            Placement::ByHandle { handle } => self.evaluate(alloc, waiting, handle),
        }
    }

    /// Checks the initial values of a new object. An array may have no elements, and the flow state after its last element must be that
    /// at the first.
    #[cycle(expression)]
    fn initialise(
        &mut self,
        alloc: Global,
        waiting: &[usize],
        initial: &Initial,
    ) -> Result<(), Stop>
        ensures { Leads result self.new (run (rule_initial waiting.now (view_initial initial.now) (view_state self.old.state)))
            (touched_initial (view_initial initial.now) self.old.touched.numbers.list) (begun self.old) }
    {
        match initial {
            Initial::Plain { value, .. } => self.evaluate(alloc, waiting, value),
            Initial::Fields { values } => self.pass(alloc, waiting, values),
            Initial::Array {
                span,
                length,
                element,
                ..
            } => {
                self.evaluate(alloc, waiting, length)?;
                let outer = mem::replace(&mut self.trail, Vec::new(alloc));
                let head = self.state.copy(alloc)?;
                self.evaluate(alloc, waiting, element)?;
                check_head(&self.state, &head, *span)?;
                self.state = head;
                self.trail = outer;
                Ok(())
            }
        }
    }

    /// Checks an expression whose value is then converted.
    #[cycle(expression)]
    pub(crate) fn convert(
        &mut self,
        alloc: Global,
        waiting: &[usize],
        converted: &Converted,
    ) -> Result<(), Stop>
        ensures { Leads result self.new (run (rule_converted waiting.now (view_converted converted.now) (view_state self.old.state)))
            (touched_converted (view_converted converted.now) self.old.touched.numbers.list) (begun self.old) }
    {
        self.evaluate(alloc, waiting, &converted.value)
    }

    /// Checks the arguments of a call, or the fields of a struct.
    #[cycle(expression)]
    #[tactic(auto, using(std::proofs::lemmas::List::drop_more))]
    fn pass(
        &mut self,
        alloc: Global,
        waiting: &[usize],
        arguments: &[Converted],
    ) -> Result<(), Stop>
        ensures { Leads result self.new (run (rule_arguments waiting.now (arguments_of arguments.now) (view_state self.old.state)))
            (touched_arguments (arguments_of arguments.now) self.old.touched.numbers.list) (begun self.old) }
    {
        for argument in arguments {
            self.convert(alloc, waiting, argument)?;
        }
        Ok(())
    }

    /// Checks one operator of a chain with its operand, which `&&` and `||` may skip.
    #[cycle(expression)]
    fn apply_operation(
        &mut self,
        alloc: Global,
        waiting: &[usize],
        operation: &Operation,
    ) -> Result<(), Stop>
        ensures { Leads result self.new (run (rule_operation waiting.now operation.now (view_state self.old.state)))
            (touched_operation operation.now self.old.touched.numbers.list) (begun self.old) }
    {
        match operation {
            Operation::Compute { operand, .. } => self.evaluate(alloc, waiting, operand),
            Operation::Test { operand, .. } => {
                let outer = mem::replace(&mut self.trail, Vec::new(alloc));
                self.evaluate(alloc, waiting, operand)?;
                self.meet_start(alloc)?;
                self.resume(outer)?;
                Ok(())
            }
            Operation::Pointer { operand, .. } => self.evaluate(alloc, waiting, operand),
            Operation::PointerPeek {
                number,
                operand,
                ..
            } => {
                let waiting = and_peeked(alloc, waiting, Some(*number))?;
                self.evaluate(alloc, &waiting, operand)
            }
        }
    }

    /// Checks the remaining operators of a chain, with their operands.
    #[cycle(expression)]
    #[tactic(auto, using(std::proofs::lemmas::List::drop_more, crate::proofs::Walks::operation_run, crate::proofs::Walks::operation_touched))]
    fn apply_operations(
        &mut self,
        alloc: Global,
        waiting: &[usize],
        operations: &[Operation],
    ) -> Result<(), Stop>
        ensures { Leads result self.new (run (rule_operations waiting.now (operations_of operations.now) (view_state self.old.state)))
            (touched_operations (operations_of operations.now) self.old.touched.numbers.list) (begun self.old) }
    {
        for operation in operations {
            self.apply_operation(alloc, waiting, operation)?;
        }
        Ok(())
    }
}
