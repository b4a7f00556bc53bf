//! What each form of expression and statement does first.

ghost use Rattle.std.specs.Prelude.{◌≡◌, ◌∷◌, OnOk, drop, option_map};
ghost use Rattle.cyc_types.specs.TypedTreeView.{view_expression, view_statement, view_converted, operations_of, items_of};
ghost use Rattle.cyc_types.specs.TypeView.{view_ty};
ghost use Rattle.cyc_meaning.specs.State as meaning;
ghost use Rattle.cyc_meaning.specs.State.{Running, Evaluating, Needs, ConvertTo, ApplyPointer};
ghost use Rattle.cyc_meaning.specs.Objects.{compared};
ghost use Rattle.cyc_meaning.specs.Pointers.{takes_kind};
ghost use Rattle.cyc_meaning.specs.Parts.{target_by};
ghost use Rattle.cyc_meaning.specs.Step.{step_evaluating, assigned, addressed, counts, awaits_right, chained, tells, applies_pointer, declares, step_executing, returns, continues_with, step_proceeding};
ghost use Rattle.cyc_interpret.specs.WorldView.{view_operand, view_value};
ghost use Rattle.cyc_interpret.specs.View.{stack_of, environment_of, world_of, state_of};

use crate::entry::{Entry, Focus};
use crate::found::Compared;
use crate::machine::Machine;
use crate::operators::{decides, is_kind, is_zero, kind_of, truth};
use crate::places::{peeked, type_of_place};
use crate::pointers::{pointer_result, result_kind, takes_kind};
use crate::value::{Operand, Value};
use cyc_types::Ty;
use cyc_types::typed::{Converted, Expr, Item, Kind, Operation, PointerOperator, Stmt};
use std::alloc::AllocError;

impl<'a> Machine<'a> {
    pub(crate) fn evaluate(&mut self, value: &'a Expr) -> Result<(), AllocError>
        ensures { OnOk result (state_of self.new ≡ step_evaluating (view_expression value.now) (stack_of self.old) (environment_of self.old) (world_of self.old)) }
    {
        match value {
            Expr::Number { value } => self.give(Kind::Int, Value::Int { word: *value }),
            Expr::NullPointer => self.give(Kind::Nullable, Value::Null),
            Expr::HeapRegion => self.give(Kind::Handle, Value::Handle { region: 0 }),
            Expr::Copy { source, of_type } => {
                let object = self.environment.object_of(*source);
                self.load_from(kind_of(of_type), object);
            }
            Expr::Move {
                number,
                of_type,
                ..
            }
            | Expr::Peek {
                number,
                of_type,
                ..
            } => {
                let object = self.environment.local(*number);
                self.load_from(kind_of(of_type), object);
            }
            Expr::Call {
                span,
                callee,
                arguments,
                ..
            } => self.pass(*callee, *span, Vec::new(self.alloc), arguments, 0)?,
            Expr::Unary { operator, operand } => {
                self.stack.push(Entry::Operate {
                    operator: *operator,
                })?;
                self.go(Focus::Evaluating { value: operand });
            }
            Expr::Binary { first, rest, .. } => {
                self.stack.push(Entry::Chain { rest, from: 0 })?;
                self.go(Focus::Evaluating { value: first });
            }
            Expr::Assign { target, value, .. } => {
                let object = self.environment.object_of(*target);
                self.assign(object, value)?;
            }
            Expr::Counter { level } => {
                let index = self.environment.counter(*level);
                self.count(index);
            }
            Expr::Load { source } => {
                self.stack.push(Entry::LoadFrom {
                    kind: kind_of(type_of_place(source)),
                })?;
                self.go(Focus::Locating { place: source });
            }
            Expr::AddressOf { place, .. } => {
                let object = self.environment.object_of(*place);
                self.address(object);
            }
            Expr::AddressOfCell { place, .. } => {
                self.stack.push(Entry::TakeAddress)?;
                self.go(Focus::Locating { place });
            }
            Expr::NumberOfElements { pointer } => {
                self.stack.push(Entry::CountElements)?;
                self.go(Focus::Evaluating { value: pointer });
            }
            Expr::FreeUnique { pointer } => {
                self.stack.push(Entry::FreeObject)?;
                self.go(Focus::Evaluating { value: pointer });
            }
            Expr::FreeKey { key } => {
                self.stack.push(Entry::CloseByKey)?;
                self.go(Focus::Evaluating { value: key });
            }
            Expr::Store { target, value, .. } => {
                self.stack.push(Entry::StoreTo {
                    peek: peeked(target),
                    value,
                })?;
                self.go(Focus::Locating { place: target });
            }
            Expr::New {
                placement,
                initial,
                ..
            } => self.allocate(placement, initial)?,
        }
        Ok(())
    }

    /// A chain goes on from this operation, with the value of all before.
    pub(crate) fn chain(
        &mut self,
        rest: &'a Vec<Operation>,
        from: usize,
        left: Operand,
    ) -> Result<(), AllocError>
        ensures { OnOk result (state_of self.new ≡ chained (operations_of (drop from rest.now.items)) (view_operand left) (stack_of self.old) (environment_of self.old) (world_of self.old)) }
    {
        match rest.get(from) {
            None => self.go(Focus::Given { operand: left }),
            Some(
                Operation::Compute {
                    operator,
                    operand,
                    ..
                },
            ) => {
                if is_kind(left.kind, Kind::Int) {
                    self.stack.push(Entry::Chain {
                        rest,
                        from: from + 1,
                    })?;
                    self.stack.push(Entry::Apply {
                        operator: *operator,
                        left,
                    })?;
                    self.go(Focus::Evaluating { value: operand });
                } else {
                    self.fail();
                }
            }
            Some(Operation::Test { operator, operand }) => match is_zero(left.value) {
                None => self.fail(),
                Some(fails) => {
                    self.stack.push(Entry::Chain {
                        rest,
                        from: from + 1,
                    })?;
                    if decides(*operator, fails) {
                        self.give(
                            Kind::Int,
                            Value::Int {
                                word: truth(!fails),
                            },
                        );
                    } else {
                        self.stack.push(Entry::Decide)?;
                        self.go(Focus::Evaluating { value: operand });
                    }
                }
            },
            Some(Operation::Pointer { operator, operand }) => self.await_right(
                None,
                *operator,
                left,
                rest,
                from + 1,
                operand,
            )?,
            Some(
                Operation::PointerPeek {
                    number,
                    operator,
                    operand,
                },
            ) => self.await_right(Some(*number), *operator, left, rest, from + 1, operand)?,
        }
        Ok(())
    }

    /// The right operand of a pointer's operator is evaluated if the left one has a kind that it takes.
    fn await_right(
        &mut self,
        peek: Option<usize>,
        operator: PointerOperator,
        left: Operand,
        rest: &'a Vec<Operation>,
        from: usize,
        operand: &'a Expr,
    ) -> Result<(), AllocError>
        ensures { OnOk result (state_of self.new ≡ awaits_right (takes_kind operator left.kind) (ApplyPointer peek operator (view_operand left)) (view_expression operand.now) (operations_of (drop from rest.now.items)) (stack_of self.old) (environment_of self.old) (world_of self.old)) }
    {
        if takes_kind(operator, left.kind) {
            self.stack.push(Entry::Chain { rest, from })?;
            self.stack.push(Entry::ApplyPointer {
                peek,
                operator,
                left,
            })?;
            self.go(Focus::Evaluating { value: operand });
        } else {
            self.fail();
        }
        Ok(())
    }

    /// A variable is found before what it gets is evaluated.
    fn assign(&mut self, object: Option<usize>, value: &'a Converted) -> Result<(), AllocError>
        ensures { OnOk result (state_of self.new ≡ assigned object (view_converted value.now) (stack_of self.old) (environment_of self.old) (world_of self.old)) }
    {
        match object {
            None => self.fail(),
            Some(object) => {
                self.stack.push(Entry::Store { object })?;
                self.await_converted(value)?;
            }
        }
        Ok(())
    }

    fn address(&mut self, object: Option<usize>)
        ensures { state_of self.new ≡ addressed object (stack_of self.old) (environment_of self.old) (world_of self.old) }
    {
        match object {
            None => self.fail(),
            Some(object) => self.give(Kind::NonNull, Value::Thin { object, offset: 0 }),
        }
    }

    /// The counter of a `for` around.
    fn count(&mut self, index: Option<u32>)
        ensures { state_of self.new ≡ counts index (stack_of self.old) (environment_of self.old) (world_of self.old) }
    {
        match index {
            None => self.fail(),
            Some(word) => self.give(Kind::Int, Value::Int { word }),
        }
    }

    /// Two thin pointers are compared, whose objects must be there.
    #[tactic(auto, using(crate::proofs::Kept::tells_closed, crate::proofs::Kept::tells_missing))]
    fn compare(&mut self, negated: bool, left: Value, right: Value)
        ensures { state_of self.new ≡ tells negated (compared (world_of self.old) (view_value left) (view_value right)) (stack_of self.old) (environment_of self.old) (world_of self.old) }
    {
        match self.world.compare(left, right) {
            Compared::Found { equal } => self.tell(negated, equal),
            Compared::Closed => self.die(),
            Compared::Missing => self.fail(),
        }
    }

    fn tell(&mut self, negated: bool, equal: bool)
        ensures { state_of self.new ≡ tells negated (meaning.Found equal) (stack_of self.old) (environment_of self.old) (world_of self.old) }
    {
        let word = if negated { truth(!equal) } else { truth(equal) };
        self.give(Kind::Int, Value::Int { word });
    }

    pub(crate) fn apply_pointer(&mut self, operator: PointerOperator, left: Value, right: Value)
        ensures { state_of self.new ≡ applies_pointer operator (view_value left) (view_value right) (stack_of self.old) (environment_of self.old) (world_of self.old) }
    {
        match operator {
            PointerOperator::EqualThin => self.compare(false, left, right),
            PointerOperator::NotEqualThin => self.compare(true, left, right),
            _ => self.compute(result_kind(operator), pointer_result(operator, left, right)),
        }
    }

    /// A value is evaluated, and then converted.
    pub(crate) fn await_converted(&mut self, value: &'a Converted) -> Result<(), AllocError>
        ensures { OnOk result (state_of self.new ≡ Running (Evaluating (view_expression value.now.value)) (Needs (ConvertTo value.now.from value.now.to (target_by (view_expression value.now.value))) ∷ stack_of self.old) (environment_of self.old) (world_of self.old)) }
    {
        self.stack.push(Entry::ConvertTo {
            from: value.from,
            to: value.to,
            value: &value.value,
        })?;
        self.go(Focus::Evaluating {
            value: &value.value,
        });
        Ok(())
    }

    pub(crate) fn execute(&mut self, statement: &'a Stmt) -> Result<(), AllocError>
        ensures { OnOk result (state_of self.new ≡ step_executing (view_statement statement.now) (stack_of self.old) (environment_of self.old) (world_of self.old)) }
    {
        match statement {
            Stmt::Block { items, .. } => self.enter_block(items)?,
            Stmt::Empty => self.go(Focus::Proceeding),
            Stmt::Evaluate { value, .. } => {
                self.stack.push(Entry::Discard)?;
                self.go(Focus::Evaluating { value });
            }
            Stmt::If {
                condition,
                then,
                otherwise,
                ..
            } => {
                self.stack.push(Entry::Choose {
                    first: then,
                    second: otherwise,
                })?;
                self.go(Focus::Evaluating { value: condition });
            }
            Stmt::While {
                condition,
                body,
                ..
            } => self.test(condition, body)?,
            Stmt::Return { value, .. } => self.await_returned(value)?,
            Stmt::Break => self.go(Focus::Breaking),
            Stmt::Continue => self.go(Focus::Continuing),
            Stmt::Swap { left, right, .. } => self.swap(left, right)?,
            Stmt::Throw { tag, value, .. } => self.raise(*tag, value)?,
            Stmt::Try {
                body,
                clauses,
                default,
                ..
            } => self.attempt(body, clauses, default)?,
        }
        Ok(())
    }

    fn await_returned(&mut self, value: &'a Option<Converted>) -> Result<(), AllocError>
        ensures { OnOk result (state_of self.new ≡ returns (option_map view_converted value.now) (stack_of self.old) (environment_of self.old) (world_of self.old)) }
    {
        match value {
            None => self.go(Focus::Returning { value: None }),
            Some(value) => {
                self.stack.push(Entry::Return)?;
                self.await_converted(value)?;
            }
        }
        Ok(())
    }

    /// What is left of a block, from this item on.
    pub(crate) fn go_on(&mut self, items: &'a Vec<Item>, from: usize) -> Result<(), AllocError>
        ensures { OnOk result (state_of self.new ≡ continues_with (items_of (drop from items.now.items)) (stack_of self.old) (environment_of self.old) (world_of self.old)) }
    {
        match items.get(from) {
            None => self.go(Focus::Proceeding),
            Some(Item::Execute { statement }) => {
                self.stack.push(Entry::Rest {
                    items,
                    from: from + 1,
                })?;
                self.go(Focus::Executing { statement });
            }
            Some(
                Item::Local {
                    number,
                    of_type,
                    value,
                    ..
                },
            ) => self.make_local(*number, of_type, value, items, from + 1)?,
            Some(Item::Region { number, .. }) => self.open_lexical(*number, items, from + 1)?,
            Some(Item::Open { number, key, .. }) => self.open_by_key(
                *number,
                *key,
                items,
                from + 1,
            )?,
            Some(
                Item::Alias {
                    number,
                    of_type,
                    source,
                    ..
                },
            ) => self.alias(*number, kind_of(of_type), *source, items, from + 1)?,
            Some(Item::DynamicRegion { number, .. }) => self.open_dynamic(
                *number,
                items,
                from + 1,
            )?,
        }
        Ok(())
    }

    /// An initial value is evaluated before its local is made. Without one the local holds nothing yet.
    fn make_local(
        &mut self,
        number: usize,
        of_type: &'a Ty,
        value: &'a Option<Converted>,
        items: &'a Vec<Item>,
        from: usize,
    ) -> Result<(), AllocError>
        ensures { OnOk result (state_of self.new ≡ declares number (view_ty of_type.now) (option_map view_converted value.now) (items_of (drop from items.now.items)) (stack_of self.old) (environment_of self.old) (world_of self.old)) }
    {
        match value {
            None => {
                self.stack.push(Entry::Rest { items, from })?;
                if self.declare(number, kind_of(of_type), None)? {
                    self.go(Focus::Proceeding);
                }
            }
            Some(value) => {
                self.stack.push(Entry::Initialise {
                    number,
                    kind: kind_of(of_type),
                    items,
                    from,
                })?;
                self.await_converted(value)?;
            }
        }
        Ok(())
    }

    pub(crate) fn proceed(&mut self) -> Result<(), AllocError>
        ensures { OnOk result (state_of self.new ≡ step_proceeding (stack_of self.old) (environment_of self.old) (world_of self.old)) }
    {
        match self.stack.pop() {
            None => self.fail(),
            Some(Entry::Discard) | Some(Entry::Join) => self.go(Focus::Proceeding),
            Some(Entry::Rest { items, from }) => self.go_on(items, from)?,
            Some(Entry::Loop { condition, body }) => self.test(condition, body)?,
            Some(Entry::CloseRegion { region, home }) => {
                if self.close(region, home) {
                    self.go(Focus::Proceeding);
                }
            }
            Some(Entry::CloseLexical { region }) => {
                if self.close_lexical(region) {
                    self.go(Focus::Proceeding);
                }
            }
            Some(Entry::EndLoan { .. }) | Some(Entry::Handler { .. }) => self.go(Focus::Proceeding),
            Some(Entry::Caller { environment, .. }) => {
                self.environment = environment;
                self.go(Focus::Proceeding);
            }
            Some(_entry) => self.fail(),
        }
        Ok(())
    }
}
