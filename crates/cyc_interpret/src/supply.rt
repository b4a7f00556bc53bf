//! What waits for a value gets it.

ghost use Rattle.std.specs.Prelude.{◌≡◌, ◌∷◌, OnOk, drop};
ghost use Rattle.cyc_types.specs.TypedTreeView.{view_expression, items_of};
ghost use Rattle.cyc_meaning.specs.Parts.{leads_to, target_by};
ghost use Rattle.cyc_meaning.specs.Step.{step_given, converts, initialises};
ghost use Rattle.cyc_interpret.specs.WorldView.{view_operand, view_reach};
ghost use Rattle.cyc_interpret.specs.View.{stack_of, environment_of, world_of, state_of};

use crate::entry::{Entry, Focus};
use crate::machine::Machine;
use crate::operators::{binary_result, is_kind, is_zero, truth_of, unary_kind, unary_result};
use crate::places::target_by;
use crate::pointers::{conversion, element_count, followed};
use crate::value::{Operand, Reach};
use cyc_types::typed::{Expr, Item, Kind};
use std::alloc::AllocError;

impl<'a> Machine<'a> {
    /// A value of the kind that the tree says is converted, if it leads to what the tree says.
    fn convert(&mut self, from: Kind, to: Kind, value: &Expr, operand: Operand)
        ensures { state_of self.new ≡ converts from to (target_by (view_expression value.now)) (view_operand operand) (stack_of self.old) (environment_of self.old) (world_of self.old) }
    {
        if is_kind(operand.kind, from) && self.leads_by(value, followed(operand.value)) {
            self.compute(to, conversion(to, operand.value));
        } else {
            self.fail();
        }
    }

    /// Returns true if the value of an expression leads to what its type says.
    fn leads_by(&self, value: &Expr, reach: Reach) -> bool
        ensures { result ≡ leads_to (world_of self.now) (target_by (view_expression value.now)) (view_reach reach) }
    {
        match reach {
            Reach::At { object, offset } => self
                .world
                .leads_to(target_by(value), Reach::At { object, offset }),
            _ => true,
        }
    }

    /// A local gets its initial value. The rest of its block comes after it.
    fn initialise(
        &mut self,
        number: usize,
        kind: Kind,
        items: &'a Vec<Item>,
        from: usize,
        operand: Operand,
    ) -> Result<(), AllocError>
        ensures { OnOk result (state_of self.new ≡ initialises number kind (items_of (drop from items.now.items)) (view_operand operand) (stack_of self.old) (environment_of self.old) (world_of self.old)) }
    {
        if is_kind(operand.kind, kind) {
            self.stack.push(Entry::Rest { items, from })?;
            if self.declare(number, kind, Some(operand.value))? {
                self.go(Focus::Proceeding);
            }
        } else {
            self.fail();
        }
        Ok(())
    }

    pub(crate) fn supply(&mut self, operand: Operand) -> Result<(), AllocError>
        ensures { OnOk result (state_of self.new ≡ step_given (view_operand operand) (stack_of self.old) (environment_of self.old) (world_of self.old)) }
    {
        match self.stack.pop() {
            None => self.fail(),
            Some(Entry::Discard) => self.go(Focus::Proceeding),
            Some(Entry::ConvertTo { from, to, value }) => self.convert(from, to, value, operand),
            Some(Entry::Operate { operator }) => {
                self.compute(unary_kind(operator), unary_result(operator, operand.value));
            }
            Some(Entry::Chain { rest, from }) => self.chain(rest, from, operand)?,
            Some(Entry::Apply { operator, left }) => {
                self.compute(
                    Kind::Int,
                    binary_result(operator, left.value, operand.value),
                );
            }
            Some(Entry::Decide) => self.compute(Kind::Int, truth_of(is_zero(operand.value))),
            Some(Entry::Store { object }) => {
                if self.store(object, 0, operand) {
                    self.go(Focus::Given { operand });
                }
            }
            Some(
                Entry::Pass {
                    callee,
                    at,
                    before,
                    arguments,
                    from,
                },
            ) => {
                let mut before = before;
                before.push(operand)?;
                self.pass(callee, at, before, arguments, from)?;
            }
            Some(
                Entry::Initialise {
                    number,
                    kind,
                    items,
                    from,
                },
            ) => self.initialise(number, kind, items, from, operand)?,
            Some(Entry::Choose { first, second }) => {
                self.choose(is_zero(operand.value), first, second)?;
            }
            Some(Entry::Test { condition, body }) => {
                self.repeat(is_zero(operand.value), condition, body)?;
            }
            Some(Entry::Return) => self.go(Focus::Returning {
                value: Some(operand),
            }),
            Some(Entry::ApplyPointer { operator, left, .. }) => self.apply_pointer(
                operator,
                left.value,
                operand.value,
            ),
            Some(Entry::StoreCell { place, .. }) => {
                if self.store_at(place, operand) {
                    self.go(Focus::Given { operand });
                }
            }
            Some(Entry::Follow { pointer, target }) => self.follow(pointer, target, operand),
            Some(
                Entry::FollowMember {
                    pointer,
                    fields,
                    field,
                },
            ) => self.follow_member(pointer, fields, field, operand),
            Some(
                Entry::Index {
                    peek,
                    target,
                    index,
                },
            ) => self.index(peek, target, index, operand)?,
            Some(Entry::Advance { target, base, .. }) => self.advance(target, base, operand)?,
            Some(Entry::CountElements) => self.compute(Kind::Int, element_count(operand.value)),
            Some(Entry::FreeObject) => self.free(operand.value),
            Some(Entry::CloseByKey) => self.close_with(operand.value),
            Some(Entry::PlaceBy { initial }) => self.make_by(initial, operand.value)?,
            Some(Entry::BesideHandle { .. }) => self.go(Focus::Given { operand }),
            Some(Entry::MakePlain { owner, kind }) => self.make_plain(owner, kind, operand)?,
            Some(
                Entry::MakeFields {
                    owner,
                    before,
                    fields,
                    from,
                },
            ) => {
                let mut before = before;
                before.push(operand)?;
                self.make_fields(owner, before, fields, from)?;
            }
            Some(
                Entry::MakeArray {
                    owner,
                    level,
                    kind,
                    element,
                },
            ) => self.make_array(owner, level, kind, element, operand.value),
            Some(
                Entry::FillElement {
                    slot,
                    kind,
                    element,
                },
            ) => self.fill_element(slot, kind, element, operand),
            Some(Entry::ThrowWith { tag }) => self.raise_with(tag, operand.value),
            Some(
                Entry::OpenBy {
                    number,
                    lent,
                    items,
                    from,
                },
            ) => self.open_with(number, lent, items, from, operand.value)?,
            Some(
                Entry::AliasOf {
                    number,
                    lent,
                    items,
                    from,
                },
            ) => self.alias_as(number, lent, items, from, operand)?,
            Some(Entry::LoadFrom { .. })
            | Some(Entry::TakeAddress)
            | Some(Entry::StoreTo { .. })
            | Some(Entry::SwapLeft { .. })
            | Some(Entry::SwapRight { .. }) => self.fail(),
            Some(Entry::Rest { .. }) | Some(Entry::Join) | Some(Entry::Loop { .. }) => self.fail(),
            Some(Entry::CloseRegion { .. })
            | Some(Entry::CloseLexical { .. })
            | Some(Entry::EndLoan { .. }) => self.fail(),
            Some(Entry::Handler { .. }) | Some(Entry::Main) => self.fail(),
            Some(_entry) => self.fail(),
        }
        Ok(())
    }
}
