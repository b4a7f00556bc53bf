//! Checks variables and memory cells reached through pointers, both as lvalues and as the values in them.
ghost use Rattle.std.specs.Prelude.{◌≡◌, [], ◌∷◌, map, option_map, is_some, None, Ok, IfOk};
ghost use Rattle.cyc_syntax.specs.inside.TreeView.{place_of_span, view_name};
ghost use Rattle.cyc_types.specs.TypeView.{view_ty, view_value_type};
ghost use Rattle.cyc_types.specs.TypedTrees as nodes;
ghost use Rattle.cyc_types.specs.TypedTrees.{type_of_place};
ghost use Rattle.cyc_types.specs.TypedTreeView.{view_lvalue, view_dereference, view_converted, view_side};
ghost use Rattle.cyc_types.specs.Rules.{settled, run};
ghost use Rattle.cyc_types.specs.typing.Expressions as rules;
ghost use Rattle.cyc_types.specs.typing.Expressions.{type_of_side, content_demanded, pointer_to, address_demanded, address_of, assigned_type};
ghost use Rattle.cyc_types.specs.typing.Expressions.{assignment, loaded, addressed, assigned, pointed, indexed, selected, field_number, field_among};
ghost use Rattle.cyc_types.specs.typing.Expressions.{field_type, live_wanted};
ghost use Rattle.cyc_scope.specs.inside.Code.{Ends, Gives};
ghost use Rattle.cyc_scope.specs.inside.Entries.{view_field};
ghost use Rattle.cyc_operands.specs.inside.Operands.{view_given, view_boxed, found_of, view_found, GivesOne};
ghost use Rattle.cyc_typing.specs.inside.Forms.{IsReached, loaded_after, reached_after, stored_in};

use cyc_operands::types::{
    arguments_of, is_key, is_moved, is_struct, is_unique, same_region, struct_of,
};
use cyc_operands::{Found, Given, as_int, boxed, convert, converted, type_of_place, type_of_side};
use cyc_scope::{Field, Scope, Settled, Stop};
use cyc_syntax::{Ident, PointerKind};
use cyc_types::typed::{Converted, Dereference, Kind, Lvalue, Side, ValueType};
use cyc_types::{Region, Ty, typed};
use cyc_words::{Code, Span};
use std::alloc::{AllocError, Global};
use std::rc::Rc;

/// A memory cell reached through a pointer, with the region that contains the cell and the requirements on its use as an lvalue.
#[derive(Drop)]
pub struct Reached {
    pub settled: Settled,
    pub cell: Box<Dereference>,
    pub region: Region,
}

// ---- the places that expressions denote

#[inline(never)]
fn boxed_place(alloc: Global, side: Side, region: Region) -> Result<Box<Found>, Stop>
    ensures { Gives view_found result (Ok (record { side = view_side side; region = region })) }
{
    Ok(Box::new(alloc, Found { side, region })?)
}

#[inline(never)]
pub(crate) fn variable_found(
    alloc: Global,
    place: Lvalue,
    of_type: &Ty,
    home: Region,
) -> Result<Box<Found>, Stop>
    ensures { Gives view_found result (Ok (record { side = nodes.VariableSide (view_lvalue place) (view_ty of_type.now); region = home })) }
{
    let of_type = of_type.share()?;
    boxed_place(alloc, Side::Variable { place, of_type }, home)
}

// ---- the cells that pointers lead to

/// Requires that the region of a pointer is live; `span` is the pointer's source position.
pub(crate) fn live_wanted(so_far: &mut Settled, scope: &Scope<'_>, value: Given<'_>, span: Span)
    ensures { so_far.new.known ≡ settled so_far.old.known (live_wanted scope.now (view_given value.entry) (place_of_span span) ∷ []) }
{
    so_far.demand(Code::RegionNotLive, span, scope.is_live(value.region()));
}

#[inline(never)]
fn boxed_cell(alloc: Global, cell: Dereference) -> Result<Box<Dereference>, Stop>
    ensures { Gives (λ b. view_dereference b.value) result (Ok (view_dereference cell)) }
{
    Ok(Box::new(alloc, cell)?)
}

#[inline(never)]
fn target(
    alloc: Global,
    span: Span,
    kind: Kind,
    value: Box<typed::Expr>,
    of_type: Ty,
) -> Result<Box<Dereference>, Stop>
    ensures { Gives (λ b. view_dereference b.value) result (Ok (nodes.Target kind (view_boxed value) (view_ty of_type))) }
{
    let pointer = Box::into_inner(value);
    boxed_cell(
        alloc,
        Dereference::Target {
            span,
            kind,
            pointer,
            of_type,
        },
    )
}

#[inline(never)]
fn element(
    alloc: Global,
    span: Span,
    value: Box<typed::Expr>,
    index: Box<typed::Expr>,
    of_type: Ty,
) -> Result<Box<Dereference>, Stop>
    ensures { Gives (λ b. view_dereference b.value) result (Ok (nodes.Element (view_boxed value) (view_boxed index) (view_ty of_type))) }
{
    let pointer = Box::into_inner(value);
    let index = Box::into_inner(index);
    boxed_cell(
        alloc,
        Dereference::Element {
            span,
            pointer,
            index,
            of_type,
        },
    )
}

#[inline(never)]
fn member(
    alloc: Global,
    span: Span,
    kind: Kind,
    value: Box<typed::Expr>,
    number: usize,
    field: usize,
    of_type: Ty,
) -> Result<Box<Dereference>, Stop>
    ensures { Gives (λ b. view_dereference b.value) result (Ok (nodes.Member kind (view_boxed value) number field (view_ty of_type))) }
{
    let pointer = Box::into_inner(value);
    boxed_cell(
        alloc,
        Dereference::Member {
            span,
            kind,
            pointer,
            number,
            field,
            of_type,
        },
    )
}

/// Returns the memory cell of `*e`; `span` is the source position of e.
#[inline(never)]
pub fn pointed(scope: &Scope<'_>, span: Span, value: Box<typed::Expr>) -> Result<Box<Reached>, Stop>
    ensures { GivesOne IsReached result (Ok (pointed scope.now (place_of_span span) (view_boxed value))) }
{
    let given = Given::by(&value);
    let mut settled = Settled::new();
    settled.demand(Code::TypeMismatch, span, given.is_pointer());
    live_wanted(&mut settled, scope, given, span);
    let region = given.region();
    let kind = given.pointer_kind();
    let of_type = given.target()?;
    let cell = target(scope.alloc(), span, kind, value, of_type)?;
    Ok(Box::new(
        scope.alloc(),
        Reached {
            settled,
            cell,
            region,
        },
    )?)
}

/// Returns the memory cell of `e[i]`; the source positions are those of e and i. A char may be used as i.
#[inline(never)]
pub fn indexed(
    scope: &Scope<'_>,
    span: Span,
    value: Box<typed::Expr>,
    index_span: Span,
    index: Box<typed::Expr>,
) -> Result<Box<Reached>, Stop>
    ensures { GivesOne IsReached result (Ok (indexed scope.now (place_of_span span) (view_boxed value) (place_of_span index_span)
        (rules.as_int (view_boxed index)))) }
{
    let index = as_int(scope.alloc(), index)?;
    let given = Given::by(&value);
    let mut settled = Settled::new();
    settled.demand(Code::TypeMismatch, span, given.is_fat());
    settled.demand(Code::TypeMismatch, index_span, Given::by(&index).is_int());
    live_wanted(&mut settled, scope, given, span);
    let region = given.region();
    let of_type = given.target()?;
    let cell = element(scope.alloc(), index_span, value, index, of_type)?;
    Ok(Box::new(
        scope.alloc(),
        Reached {
            settled,
            cell,
            region,
        },
    )?)
}

/// Returns the index and the type of the field with the given name. If no field has the name, the index is the
/// number of fields, and there is no type.
fn find_field(fields: &[Field], name: usize) -> (usize, Option<&Ty>)
    ensures number { result.0 ≡ field_number (map view_field fields.now) name }
    ensures of_type { option_map (λ t. view_ty t.now) result.1 ≡ field_among (map view_field fields.now) name }
{
    for i in 0..fields.len() {
        if fields[i].name == name {
            return (i, Some(&fields[i].of_type));
        }
    }
    (fields.len(), None)
}

/// Returns the type of a field in a struct with the given region arguments. If the struct has no such field, returns the type int.
fn field_type(alloc: Global, arguments: &[Region], known: Option<&Ty>) -> Result<Ty, AllocError>
    ensures { IfOk result (λ t. view_ty t ≡ field_type arguments.now (option_map (λ k. view_ty k.now) known.entry)) }
{
    match known {
        Some(of_type) => of_type.substituted(alloc, arguments),
        None => Ok(Ty::Int),
    }
}

/// Returns the memory cell of `e->f`; `span` is the source position of e.
#[inline(never)]
pub fn selected(
    scope: &Scope<'_>,
    span: Span,
    value: Box<typed::Expr>,
    field: Ident,
) -> Result<Box<Reached>, Stop>
    ensures { GivesOne IsReached result (Ok (selected scope.now (place_of_span span) (view_boxed value) (view_name field))) }
{
    let given = Given::by(&value);
    let base = given.target()?;
    let number = struct_of(&base);
    let fields = scope.fields(number);
    let (place, known) = find_field(fields, field.name.number);
    let mut settled = Settled::new();
    let has_members = given.has_members();
    settled.demand(Code::TypeMismatch, span, has_members);
    let is_known = !has_members || known.is_some();
    settled.demand(Code::UnknownName, field.span, is_known);
    live_wanted(&mut settled, scope, given, span);
    let region = given.region();
    let kind = given.pointer_kind();
    let of_type = field_type(scope.alloc(), arguments_of(&base), known)?;
    let cell = member(
        scope.alloc(),
        field.span,
        kind,
        value,
        number,
        place,
        of_type,
    )?;
    Ok(Box::new(
        scope.alloc(),
        Reached {
            settled,
            cell,
            region,
        },
    )?)
}

// ---- the uses of a cell

/// Requires that the value in a memory cell may be read; `span` is the source position of the cell's expression.
fn content_wanted(so_far: &mut Settled, of_type: &Ty, span: Span)
    ensures { so_far.new.known ≡ settled so_far.old.known (content_demanded (view_ty of_type.now) (place_of_span span)) }
{
    so_far.demand(Code::TypeMismatch, span, !is_struct(of_type));
    so_far.demand(Code::UniqueShared, span, !is_unique(of_type));
}

#[inline(never)]
fn load(alloc: Global, source: Box<Dereference>) -> Result<Box<typed::Expr>, Stop>
    ensures { Gives view_boxed result (Ok (nodes.Load (view_dereference source.value))) }
{
    boxed(alloc, typed::Expr::Load { source })
}

/// Returns the value in a memory cell, after the requirements on the cell as an lvalue were checked.
#[inline(never)]
fn load_reached(alloc: Global, span: Span, reached: Box<Reached>) -> Result<Box<typed::Expr>, Stop>
    ensures { Gives view_boxed result (loaded_after reached.value.settled.known (place_of_span span) (view_dereference reached.value.cell.value)) }
{
    let Reached { settled, cell, .. } = Box::into_inner(reached);
    let mut so_far = settled;
    content_wanted(&mut so_far, type_of_place(&cell), span);
    so_far.end()?;
    load(alloc, cell)
}

/// Returns the value in a memory cell; `span` is the source position of the cell's expression.
pub fn loaded(alloc: Global, span: Span, reached: Box<Reached>) -> Result<Box<typed::Expr>, Stop>
    ensures { (w : rules.Reached) → IsReached reached w → Gives view_boxed result (run (loaded (place_of_span span) w)) }
{
    load_reached(alloc, span, reached)
}

#[inline(never)]
fn place_reached(alloc: Global, reached: Box<Reached>) -> Result<Box<Found>, Stop>
    ensures { Gives view_found result (reached_after reached.value.settled.known (view_dereference reached.value.cell.value) reached.value.region) }
{
    let Reached {
        settled,
        cell,
        region,
    } = Box::into_inner(reached);
    settled.end()?;
    boxed_place(alloc, Side::Cell { place: cell }, region)
}

/// Returns a memory cell that was reached through a pointer, as an lvalue.
pub fn as_place(alloc: Global, reached: Box<Reached>) -> Result<Box<Found>, Stop>
    ensures { (w : rules.Reached) → IsReached reached w → Gives view_found result (run (rules.reached w)) }
{
    place_reached(alloc, reached)
}

// ---- the uses of a place

/// Returns the type of a pointer to the given lvalue.
fn pointer_to(alloc: Global, found: &Found) -> Result<Ty, AllocError>
    ensures { IfOk result (λ t. view_ty t ≡ pointer_to (found_of found.now)) }
{
    let target = type_of_side(&found.side).share()?;
    Ok(Ty::Pointer {
        kind: PointerKind::NonNull,
        target: Rc::new(alloc, target)?,
        region: found.region,
    })
}

/// Checks that the address of an lvalue may be taken; `span` is the lvalue's source position.
fn address_wanted(found: &Found, span: Span) -> Result<(), Stop>
    ensures { Ends result (settled None (address_demanded (found_of found.now) (place_of_span span))) }
{
    let of_type = type_of_side(&found.side);
    let mut settled = Settled::new();
    settled.demand(Code::RegionOrKeyMisused, span, !is_key(of_type));
    settled.demand(
        Code::UniqueShared,
        span,
        !is_unique(of_type) && !same_region(found.region, Region::Unique),
    );
    settled.end()
}

#[inline(never)]
fn address_of(alloc: Global, side: Side, of_type: Ty) -> Result<Box<typed::Expr>, Stop>
    ensures { Gives view_boxed result (Ok (address_of (view_side side) (view_ty of_type))) }
{
    match side {
        Side::Variable { place, .. } => boxed(alloc, typed::Expr::AddressOf { place, of_type }),
        Side::Cell { place } => boxed(alloc, typed::Expr::AddressOfCell { place, of_type }),
    }
}

/// Returns the address of an lvalue; `span` is the lvalue's source position. The lvalue may not be a key or a unique
/// pointer, and may not lie in a unique object.
#[inline(never)]
pub fn addressed(alloc: Global, span: Span, found: Box<Found>) -> Result<Box<typed::Expr>, Stop>
    ensures { Gives view_boxed result (run (addressed (place_of_span span) (view_found found))) }
{
    address_wanted(&found, span)?;
    let of_type = pointer_to(alloc, &found)?;
    let Found { side, .. } = Box::into_inner(found);
    address_of(alloc, side, of_type)
}

/// Returns the type of an assignment's value; an assignment of a unique pointer or a key has no value.
fn assigned_type(of_type: &Ty) -> Result<ValueType, AllocError>
    ensures { IfOk result (λ t. view_value_type t ≡ assigned_type (view_ty of_type.now)) }
{
    if is_moved(of_type) {
        return Ok(ValueType::Void);
    }
    Ok(ValueType::Value {
        of_type: of_type.share()?,
    })
}

#[inline(never)]
fn boxed_value(alloc: Global, value: Converted) -> Result<Box<Converted>, Stop>
    ensures { Gives (λ b. view_converted b.value) result (Ok (view_converted value)) }
{
    Ok(Box::new(alloc, value)?)
}

#[inline(never)]
fn store(
    alloc: Global,
    side: Side,
    value: Box<Converted>,
    given: ValueType,
) -> Result<Box<typed::Expr>, Stop>
    ensures { Gives view_boxed result (Ok (stored_in (view_side side) (view_converted value.value) (view_value_type given))) }
{
    match side {
        Side::Variable { place, .. } => boxed(
            alloc,
            typed::Expr::Assign {
                target: place,
                value,
                result: given,
            },
        ),
        Side::Cell { place } => boxed(
            alloc,
            typed::Expr::Store {
                target: place,
                value,
                result: given,
            },
        ),
    }
}

/// Returns the assignment of a value to a variable or memory cell.
#[inline(never)]
fn assignment(alloc: Global, side: Side, value: Box<typed::Expr>) -> Result<Box<typed::Expr>, Stop>
    ensures { Gives view_boxed result (Ok (assignment (view_side side) (view_boxed value))) }
{
    let given = assigned_type(type_of_side(&side))?;
    let value = boxed_value(alloc, converted(value, type_of_side(&side)))?;
    store(alloc, side, value, given)
}

/// Checks and returns the assignment of a value to an lvalue; `span` is the value's source position.
#[inline(never)]
pub fn assigned(
    scope: &Scope<'_>,
    found: Box<Found>,
    span: Span,
    value: Box<typed::Expr>,
) -> Result<Box<typed::Expr>, Stop>
    ensures { Gives view_boxed result (run (assigned scope.now.regions (view_found found) (place_of_span span) (view_boxed value))) }
{
    let mut settled = Settled::new();
    convert(
        &mut settled,
        scope,
        Given::by(&value),
        type_of_side(&found.side),
        span,
    );
    settled.end()?;
    let Found { side, .. } = Box::into_inner(found);
    assignment(scope.alloc(), side, value)
}
