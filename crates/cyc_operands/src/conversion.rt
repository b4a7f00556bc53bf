//! Conversion of values from one type to another, which may require that one region outlives another.
ghost use Rattle.std.specs.Prelude.{◌≡◌, IfOk};
ghost use Rattle.cyc_syntax.specs.inside.TreeView.{place_of_span};
ghost use Rattle.cyc_types.specs.declared.region.Region.TheVariants.{Heap};
ghost use Rattle.cyc_types.specs.Types.{Value};
ghost use Rattle.cyc_types.specs.Types as types;
ghost use Rattle.cyc_types.specs.TypeView.{view_ty};
ghost use Rattle.cyc_types.specs.TypedTreeView.{view_converted};
ghost use Rattle.cyc_types.specs.Rules.{settled};
ghost use Rattle.cyc_types.specs.typing.Expressions as rules;
ghost use Rattle.cyc_types.specs.typing.Expressions.{is_convertible, is_alike, is_null_allowed, is_outlived, conversion, converted};
ghost use Rattle.cyc_operands.specs.inside.Operands.{view_given, view_boxed};

use crate::given::Given;
use crate::types::{is_convertible, is_non_null, is_pointer, kind_of, same_region};
use cyc_scope::{Scope, Settled};
use cyc_types::typed::{Converted, UnaryOperator};
use cyc_types::{Region, Ty, typed};
use cyc_words::{Code, Span};
use std::alloc::{AllocError, Global};

/// Returns true if the type is that of ints or of chars, which can be converted to each other.
pub fn is_number(wanted: &Ty) -> bool
    ensures int { result ≡ is_convertible types.Int (view_ty wanted.now) }
    ensures char { result ≡ is_convertible types.Char (view_ty wanted.now) }
{
    matches!(wanted, Ty::Int | Ty::Char)
}

fn is_heap_handle(wanted: &Ty) -> bool
    ensures { result ≡ is_convertible (types.Handle Heap) (view_ty wanted.now) }
{
    match wanted {
        Ty::Handle { region } => same_region(Region::Heap, *region),
        _ => false,
    }
}

/// Returns true if a value may be converted to a type, disregarding null and the regions of outermost pointers.
fn is_alike(value: Given<'_>, wanted: &Ty) -> bool
    ensures { result ≡ is_alike (view_given value.entry) (view_ty wanted.now) }
{
    match value {
        Given::Void => false,
        Given::Null => is_pointer(wanted),
        Given::Int | Given::Char => is_number(wanted),
        Given::HeapHandle => is_heap_handle(wanted),
        Given::Value(of_type) => is_convertible(of_type, wanted),
    }
}

fn is_null_allowed(value: Given<'_>, wanted: &Ty) -> bool
    ensures { result ≡ is_null_allowed (view_given value.entry) (view_ty wanted.now) }
{
    match value {
        Given::Null => !is_non_null(wanted),
        Given::Void | Given::Int | Given::Char | Given::HeapHandle | Given::Value(_) => true,
    }
}

/// Returns true if the region of a pointer outlives the region of the pointer type to which it is to be converted.
fn is_type_outlived(scope: &Scope<'_>, of_type: &Ty, wanted: &Ty) -> bool
    ensures { result ≡ is_outlived scope.now.regions (Value (view_ty of_type.now)) (view_ty wanted.now) }
{
    match (of_type, wanted) {
        (
            Ty::Pointer { region, .. },
            Ty::Pointer {
                region: wanted_region,
                ..
            },
        ) => scope.outlives(*region, *wanted_region),
        _ => true,
    }
}

fn is_outlived(scope: &Scope<'_>, value: Given<'_>, wanted: &Ty) -> bool
    ensures { result ≡ is_outlived scope.now.regions (view_given value.entry) (view_ty wanted.now) }
{
    match value {
        Given::Value(of_type) => is_type_outlived(scope, of_type, wanted),
        Given::Void | Given::Null | Given::Int | Given::Char | Given::HeapHandle => true,
    }
}

/// Checks that the value of the expression at a source position can be converted to a type.
pub fn convert(so_far: &mut Settled, scope: &Scope<'_>, value: Given<'_>, wanted: &Ty, span: Span)
    ensures { so_far.new.known ≡ settled so_far.old.known (conversion scope.now.regions (view_given value.entry) (view_ty wanted.now) (place_of_span span)) }
{
    so_far.demand(Code::TypeMismatch, span, is_alike(value, wanted));
    so_far.demand(Code::NullForNonNull, span, is_null_allowed(value, wanted));
    so_far.demand(Code::NotOutlived, span, is_outlived(scope, value, wanted));
}

/// Returns a value together with its conversion to a type.
pub fn converted(value: Box<typed::Expr>, wanted: &Ty) -> Converted
    ensures { view_converted result ≡ converted (view_boxed value) (view_ty wanted.now) }
{
    let from = Given::by(&value).kind();
    Converted {
        from,
        to: kind_of(wanted),
        value: Box::into_inner(value),
    }
}

/// Returns an expression as an int; a char is converted to the int with its value.
#[inline(never)]
pub fn as_int(alloc: Global, value: Box<typed::Expr>) -> Result<Box<typed::Expr>, AllocError>
    ensures { IfOk result (λ b. view_boxed b ≡ rules.as_int (view_boxed value)) }
{
    if Given::by(&value).is_char() {
        return Ok(Box::new(
            alloc,
            typed::Expr::Unary {
                operator: UnaryOperator::Widen,
                operand: value,
            },
        )?);
    }
    Ok(value)
}
