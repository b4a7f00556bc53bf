//! Places that a pointer leads to.

ghost use Rattle.std.specs.Prelude.{◌≡◌, OnOk, map, option_map, slice_get};
ghost use Rattle.cyc_types.specs.TypeView.{view_ty, view_value_type};
ghost use Rattle.cyc_types.specs.Types as types;
ghost use Rattle.cyc_types.specs.TypedTrees.{type_of_place, peeked};
ghost use Rattle.cyc_types.specs.TypedTreeView.{view_expression, view_dereference, view_struct, view_program};
ghost use Rattle.cyc_meaning.specs.Values.{kind_of};
ghost use Rattle.cyc_meaning.specs.Parts.{target_of, target_of_value, target_by};
ghost use Rattle.cyc_meaning.specs.Places.{arrives, follows, follows_member, indexes, advances, locates_member, step_locating, step_given_place};
ghost use Rattle.cyc_interpret.specs.WorldView.{view_operand, view_value, view_reach};
ghost use Rattle.cyc_interpret.specs.View.{stack_of, environment_of, world_of, state_of};

use crate::entry::{Entry, Focus};
use crate::machine::Machine;
use crate::operators::{is_kind, kind_of};
use crate::pointers::{followed, pointer_result};
use crate::value::{Operand, Reach, Value};
use cyc_types::typed::{Dereference, Expr, Kind, PointerOperator, StructType, ValueType};
use cyc_types::{Ty, TypedTree};
use std::alloc::AllocError;

// ---- what the tree says of a place

/// The type of what is there.
pub(crate) fn type_of_place(place: &Dereference) -> &Ty
    ensures { view_ty result.now ≡ type_of_place (view_dereference place.now) }
{
    match place {
        Dereference::Target { of_type, .. } => of_type,
        Dereference::Member { of_type, .. } => of_type,
        Dereference::Element { of_type, .. } => of_type,
    }
}

/// The local that a place is reached through by a peek.
pub(crate) fn peeked(place: &Dereference) -> Option<usize>
    ensures { result ≡ peeked (view_dereference place.now) }
{
    match place {
        Dereference::Target {
            pointer: Expr::Peek { number, .. },
            ..
        } => Some(*number),
        Dereference::Member {
            pointer: Expr::Peek { number, .. },
            ..
        } => Some(*number),
        Dereference::Element {
            pointer: Expr::Peek { number, .. },
            ..
        } => Some(*number),
        _ => None,
    }
}

/// What a pointer to this type leads to: a cell of a kind, or a struct.
pub(crate) fn target_of(of_type: &Ty) -> Option<Kind>
    ensures { result ≡ target_of (view_ty of_type.now) }
{
    match of_type {
        Ty::Struct { .. } => None,
        _ => Some(kind_of(of_type)),
    }
}

/// What a value of this type leads to, if it is a pointer.
fn target_of_type(of_type: &Ty) -> Option<Kind>
    ensures { result ≡ target_of_value (types.Value (view_ty of_type.now)) }
{
    match of_type {
        Ty::Pointer { target, .. } => target_of(target),
        _ => None,
    }
}

fn target_of_result(result_type: &ValueType) -> Option<Kind>
    ensures { result ≡ target_of_value (view_value_type result_type.now) }
{
    match result_type {
        ValueType::Value { of_type } => target_of_type(of_type),
        _ => None,
    }
}

/// What the value of an expression leads to, if it is a pointer.
pub(crate) fn target_by(value: &Expr) -> Option<Kind>
    ensures { result ≡ target_by (view_expression value.now) }
{
    match value {
        Expr::Copy { of_type, .. } => target_of_type(of_type),
        Expr::Move { of_type, .. } => target_of_type(of_type),
        Expr::Peek { of_type, .. } => target_of_type(of_type),
        Expr::AddressOf { of_type, .. } => target_of_type(of_type),
        Expr::AddressOfCell { of_type, .. } => target_of_type(of_type),
        Expr::Binary { of_type, .. } => target_of_type(of_type),
        Expr::New { of_type, .. } => target_of_type(of_type),
        Expr::Load { source } => target_of_type(type_of_place(source)),
        Expr::Call { result, .. } => target_of_result(result),
        Expr::Assign { result, .. } => target_of_result(result),
        Expr::Store { result, .. } => target_of_result(result),
        Expr::Number { .. } | Expr::NullPointer | Expr::HeapRegion | Expr::Counter { .. } => None,
        Expr::Unary { .. } => None,
        Expr::NumberOfElements { .. } | Expr::FreeUnique { .. } | Expr::FreeKey { .. } => None,
    }
}

/// The struct of a program that has this number.
fn struct_at(program: &TypedTree, number: usize) -> Option<&StructType>
    ensures { option_map (λ s. view_struct s.now) result ≡ slice_get (view_program program.now).structs number }
{
    program.structs.get(number)
}

// ---- a place is found

impl<'a> Machine<'a> {
    fn arrive(&mut self, reach: Reach)
        ensures { state_of self.new ≡ arrives (view_reach reach) (stack_of self.old) (environment_of self.old) (world_of self.old) }
    {
        match reach {
            Reach::At { object, offset } => self.go(Focus::GivenPlace {
                place: Value::Thin { object, offset },
            }),
            Reach::Stops { tag } => self.go(Focus::Throwing { tag, value: 0 }),
            Reach::Nowhere => self.fail(),
        }
    }

    /// The pointer of `*e` is followed.
    pub(crate) fn follow(&mut self, pointer: Kind, target: Option<Kind>, operand: Operand)
        ensures { state_of self.new ≡ follows pointer target (view_operand operand) (stack_of self.old) (environment_of self.old) (world_of self.old) }
    {
        let reach = followed(operand.value);
        if is_kind(operand.kind, pointer) && self.world.leads_to(target, reach) {
            self.arrive(reach);
        } else {
            self.fail();
        }
    }

    /// That of `e->f`.
    pub(crate) fn follow_member(
        &mut self,
        pointer: Kind,
        fields: &Vec<Ty>,
        field: usize,
        operand: Operand,
    )
        ensures { state_of self.new ≡ follows_member pointer (map kind_of (map view_ty fields.now.items)) field (view_operand operand) (stack_of self.old) (environment_of self.old) (world_of self.old) }
    {
        if is_kind(operand.kind, pointer) {
            let reach = self.world.member_of(followed(operand.value), fields, field);
            self.arrive(reach);
        } else {
            self.fail();
        }
    }

    /// The fat pointer of `e[i]` is there, and the index is evaluated.
    pub(crate) fn index(
        &mut self,
        peek: Option<usize>,
        target: Option<Kind>,
        index: &'a Expr,
        base: Operand,
    ) -> Result<(), AllocError>
        ensures { OnOk result (state_of self.new ≡ indexes peek target (view_expression index.now) (view_operand base) (stack_of self.old) (environment_of self.old) (world_of self.old)) }
    {
        if is_kind(base.kind, Kind::Fat) {
            self.stack.push(Entry::Advance { peek, target, base })?;
            self.go(Focus::Evaluating { value: index });
        } else {
            self.fail();
        }
        Ok(())
    }

    /// The pointer moves by the index, and then its access is checked.
    pub(crate) fn advance(
        &mut self,
        target: Option<Kind>,
        base: Operand,
        index: Operand,
    ) -> Result<(), AllocError>
        ensures { OnOk result (state_of self.new ≡ advances target (view_operand base) (view_operand index) (stack_of self.old) (environment_of self.old) (world_of self.old)) }
    {
        self.stack.push(Entry::Follow {
            pointer: Kind::Fat,
            target,
        })?;
        self.compute(
            Kind::Fat,
            pointer_result(PointerOperator::AddFat, base.value, index.value),
        );
        Ok(())
    }

    /// A place that a pointer leads to is evaluated.
    pub(crate) fn locate(
        &mut self,
        program: &'a TypedTree,
        place: &'a Dereference,
    ) -> Result<(), AllocError>
        ensures { OnOk result (state_of self.new ≡ step_locating (view_program program.now) (view_dereference place.now) (stack_of self.old) (environment_of self.old) (world_of self.old)) }
    {
        match place {
            Dereference::Target {
                kind,
                pointer,
                of_type,
                ..
            } => {
                self.stack.push(Entry::Follow {
                    pointer: *kind,
                    target: target_of(of_type),
                })?;
                self.go(Focus::Evaluating { value: pointer });
            }
            Dereference::Member {
                kind,
                pointer,
                number,
                field,
                ..
            } => self.locate_member(struct_at(program, *number), *kind, pointer, *field)?,
            Dereference::Element {
                pointer,
                index,
                of_type,
                ..
            } => {
                self.stack.push(Entry::Index {
                    peek: peeked(place),
                    target: target_of(of_type),
                    index,
                })?;
                self.go(Focus::Evaluating { value: pointer });
            }
        }
        Ok(())
    }

    fn locate_member(
        &mut self,
        of_struct: Option<&'a StructType>,
        kind: Kind,
        pointer: &'a Expr,
        field: usize,
    ) -> Result<(), AllocError>
        ensures { OnOk result (state_of self.new ≡ locates_member (option_map (λ s. view_struct s.now) of_struct.entry) kind (view_expression pointer.now) field (stack_of self.old) (environment_of self.old) (world_of self.old)) }
    {
        match of_struct {
            None => self.fail(),
            Some(of_struct) => {
                self.stack.push(Entry::FollowMember {
                    pointer: kind,
                    fields: &of_struct.fields,
                    field,
                })?;
                self.go(Focus::Evaluating { value: pointer });
            }
        }
        Ok(())
    }

    /// What waits for a place gets it.
    pub(crate) fn give_place(&mut self, place: Value) -> Result<(), AllocError>
        ensures { OnOk result (state_of self.new ≡ step_given_place (view_value place) (stack_of self.old) (environment_of self.old) (world_of self.old)) }
    {
        match self.stack.pop() {
            Some(Entry::LoadFrom { kind }) => self.load_at(kind, place),
            Some(Entry::TakeAddress) => self.give(Kind::NonNull, place),
            Some(Entry::StoreTo { peek, value }) => {
                self.stack.push(Entry::StoreCell { peek, place })?;
                self.await_converted(value)?;
            }
            Some(Entry::SwapLeft { kind, peek, right }) => self.find_right(
                kind, peek, true, place, right,
            )?,
            Some(Entry::SwapRight { kind, left, .. }) => self.find_both(kind, left, place),
            None => self.fail(),
            Some(_entry) => self.fail(),
        }
        Ok(())
    }
}
