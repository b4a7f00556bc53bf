//! Checks new objects: the region in which an object is allocated, and the values with which the object is filled.
ghost use Rattle.std.specs.Prelude.{◌≡◌, Ok, IfOk};
ghost use Rattle.cyc_syntax.specs.inside.TreeView.{place_of_span};
ghost use Rattle.cyc_types.specs.TypeView.{view_ty};
ghost use Rattle.cyc_types.specs.TypedTrees as nodes;
ghost use Rattle.cyc_types.specs.TypedTreeView.{view_placement, view_initial};
ghost use Rattle.cyc_types.specs.Rules.{settled, run};
ghost use Rattle.cyc_types.specs.Types as types;
ghost use Rattle.cyc_types.specs.typing.Expressions as rules;
ghost use Rattle.cyc_types.specs.typing.Expressions.{on_heap, as_unique, by_handle, element_demanded, plain_made, array_made, created};
ghost use Rattle.cyc_scope.specs.inside.Code.{Gives};
ghost use Rattle.cyc_operands.specs.inside.Operands.{view_given, view_boxed, IsMade, GivesOne};
ghost use Rattle.cyc_typing.specs.inside.Forms.{IsPlaced, merged, created_after};

use crate::places::live_wanted;
use cyc_operands::{Given, Made, as_int, boxed, boxed_initial};
use cyc_scope::{Scope, Settled, Stop};
use cyc_syntax::PointerKind;
use cyc_types::typed::{Initial, Kind, Placement};
use cyc_types::{Region, Ty, typed};
use cyc_words::{Code, Span};
use std::alloc::{AllocError, Global};
use std::rc::Rc;

/// The region in which an object is allocated, the typed node for this region, and the requirements on it.
#[derive(Drop)]
pub struct Placed {
    pub settled: Settled,
    pub placement: Placement,
    pub region: Region,
}

/// Returns the placement (region, typed node and requirements) of an object made by `new`: on the heap, without further requirements.
#[inline(never)]
pub fn on_heap(alloc: Global) -> Result<Box<Placed>, Stop>
    ensures { GivesOne IsPlaced result (Ok on_heap) }
{
    let settled = Settled::new();
    Ok(Box::new(
        alloc,
        Placed {
            settled,
            placement: Placement::OnHeap,
            region: Region::Heap,
        },
    )?)
}

/// Returns the placement (region, typed node and requirements) of an object made by `rnew(unique_region)`.
#[inline(never)]
pub fn as_unique(alloc: Global) -> Result<Box<Placed>, Stop>
    ensures { GivesOne IsPlaced result (Ok as_unique) }
{
    let settled = Settled::new();
    Ok(Box::new(
        alloc,
        Placed {
            settled,
            placement: Placement::AsUnique,
            region: Region::Unique,
        },
    )?)
}

/// Returns the placement (region, typed node and requirements) of an object in the region of a handle; `span` is the handle's source
/// position.
#[inline(never)]
pub fn by_handle(
    scope: &Scope<'_>,
    span: Span,
    handle: Box<typed::Expr>,
) -> Result<Box<Placed>, Stop>
    ensures { GivesOne IsPlaced result (Ok (by_handle scope.now (place_of_span span) (view_boxed handle))) }
{
    let given = Given::by(&handle);
    let mut settled = Settled::new();
    settled.demand(Code::TypeMismatch, span, given.is_handle());
    live_wanted(&mut settled, scope, given, span);
    let region = given.region();
    Ok(Box::new(
        scope.alloc(),
        Placed {
            settled,
            placement: Placement::ByHandle { handle },
            region,
        },
    )?)
}

/// Requires that a value can be stored in a memory cell; `span` is the value's source position.
fn element_wanted(so_far: &mut Settled, value: Given<'_>, span: Span)
    ensures { so_far.new.known ≡ settled so_far.old.known (element_demanded (view_given value.entry) (place_of_span span)) }
{
    so_far.demand(Code::TypeMismatch, span, value.is_value());
    so_far.demand(Code::RegionOrKeyMisused, span, !value.is_key());
}

#[inline(never)]
fn plain(alloc: Global, kind: Kind, value: Box<typed::Expr>) -> Result<Box<Initial>, Stop>
    ensures { Gives (λ b. view_initial b.value) result (Ok (nodes.Plain kind (view_boxed value))) }
{
    let value = Box::into_inner(value);
    boxed_initial(alloc, Initial::Plain { kind, value })
}

/// Returns the initial value of an object that consists of one value; `span` is the value's source position.
#[inline(never)]
pub fn plain_made(alloc: Global, span: Span, value: Box<typed::Expr>) -> Result<Box<Made>, Stop>
    ensures { GivesOne IsMade result (Ok (plain_made (place_of_span span) (view_boxed value))) }
{
    let given = Given::by(&value);
    let mut settled = Settled::new();
    element_wanted(&mut settled, given, span);
    let kind = given.kind();
    let target = given.of_type()?;
    let initial = plain(alloc, kind, value)?;
    Ok(Box::new(
        alloc,
        Made {
            settled,
            initial,
            target,
            mark: PointerKind::NonNull,
        },
    )?)
}

#[inline(never)]
fn array(
    alloc: Global,
    span: Span,
    level: usize,
    length: Box<typed::Expr>,
    kind: Kind,
    element: Box<typed::Expr>,
) -> Result<Box<Initial>, Stop>
    ensures { Gives (λ b. view_initial b.value) result (Ok (nodes.Array (place_of_span span) level (view_boxed length) kind (view_boxed element))) }
{
    let length = Box::into_inner(length);
    let element = Box::into_inner(element);
    boxed_initial(
        alloc,
        Initial::Array {
            span,
            level,
            length,
            kind,
            element,
        },
    )
}

/// Returns the initial value of an array of the given length, with an element for each value of the loop counter at the given level.
/// The source positions are those of the array's `for`, of the length and of the element. A char may be used as the length.
#[inline(never)]
pub fn array_made(
    alloc: Global,
    level: usize,
    for_span: Span,
    span: Span,
    length: Box<typed::Expr>,
    element_span: Span,
    element: Box<typed::Expr>,
) -> Result<Box<Made>, Stop>
    ensures { GivesOne IsMade result (Ok (array_made level (place_of_span for_span) (place_of_span span) (rules.as_int (view_boxed length))
        (place_of_span element_span) (view_boxed element))) }
{
    let length = as_int(alloc, length)?;
    let given = Given::by(&element);
    let mut settled = Settled::new();
    settled.demand(Code::TypeMismatch, span, Given::by(&length).is_int());
    element_wanted(&mut settled, given, element_span);
    let kind = given.kind();
    let target = given.of_type()?;
    let initial = array(alloc, for_span, level, length, kind, element)?;
    Ok(Box::new(
        alloc,
        Made {
            settled,
            initial,
            target,
            mark: PointerKind::Fat,
        },
    )?)
}

/// Adds requirements that were checked on their own, not after the earlier ones, to the requirements checked so far.
fn settle_too(so_far: &mut Settled, other: Settled)
    ensures { so_far.new.known ≡ merged so_far.old.known other.known }
{
    if let Some(fault) = other.known {
        let span = Span {
            line: fault.line,
            column: fault.column,
        };
        so_far.demand(fault.code, span, false);
    }
}

/// Returns the pointer type with the given pointer kind (`*`, `@` or `?`), target type and region.
fn pointer(alloc: Global, kind: PointerKind, target: Ty, region: Region) -> Result<Ty, AllocError>
    ensures { IfOk result (λ t. view_ty t ≡ types.Pointer kind (view_ty target) region) }
{
    Ok(Ty::Pointer {
        kind,
        target: Rc::new(alloc, target)?,
        region,
    })
}

#[inline(never)]
fn new(
    alloc: Global,
    span: Span,
    placement: Placement,
    initial: Box<Initial>,
    of_type: Ty,
) -> Result<Box<typed::Expr>, Stop>
    ensures { Gives view_boxed result (Ok (nodes.New (view_placement placement) (view_initial initial.value) (view_ty of_type))) }
{
    boxed(
        alloc,
        typed::Expr::New {
            span,
            placement,
            initial,
            of_type,
        },
    )
}

/// Returns the expression that makes a new object; all requirements must already be checked.
#[inline(never)]
fn create(
    alloc: Global,
    span: Span,
    placed: Box<Placed>,
    made: Box<Made>,
) -> Result<Box<typed::Expr>, Stop>
    ensures { Gives view_boxed result (created_after placed made) }
{
    let mut settled = placed.settled;
    settle_too(&mut settled, made.settled);
    settled.end()?;
    let Made {
        initial,
        target,
        mark,
        ..
    } = Box::into_inner(made);
    let of_type = pointer(alloc, mark, target, placed.region)?;
    let Placed { placement, .. } = Box::into_inner(placed);
    new(alloc, span, placement, initial, of_type)
}

/// Checks the requirements of a new object and returns the expression that makes it; `span` is the source position of the expression.
pub fn created(
    alloc: Global,
    span: Span,
    placed: Box<Placed>,
    made: Box<Made>,
) -> Result<Box<typed::Expr>, Stop>
    ensures { (w : rules.Placed) (m : rules.Made) → IsPlaced placed w → IsMade made m → Gives view_boxed result (run (created w m)) }
{
    create(alloc, span, placed, made)
}
