//! Calls of plain signatures, in which each region of a parameter is a region variable that occurs only once. The regions of the values
//! passed to a plain signature only have to be live, and no region is recorded for its region variables. If the traversal finds a value
//! that does not fit its parameter, the call is checked like a call of a signature that is not plain.
ghost use Rattle.std.specs.Prelude.{◌≡◌, length, map, option_map, IsTrue, IfOk};
ghost use Rattle.cyc_syntax.specs.inside.TreeView.{place_of_span, view_name, expressions_of};
ghost use Rattle.cyc_types.specs.declared.region.Region.TheVariants.{Heap};
ghost use Rattle.cyc_types.specs.Types as types;
ghost use Rattle.cyc_types.specs.TypeView.{view_ty};
ghost use Rattle.cyc_types.specs.inside.SignatureView.{view_signature};
ghost use Rattle.cyc_types.specs.Rules.{run};
ghost use Rattle.cyc_types.specs.typing.Scopes.{meaning_of, Routine};
ghost use Rattle.cyc_types.specs.typing.Expressions as rules;
ghost use Rattle.cyc_types.specs.typing.Expressions.{called_by, instantiated};
ghost use Rattle.cyc_scope.specs.inside.Code.{Gives};
ghost use Rattle.cyc_operands.specs.inside.Operands.{view_given, view_boxed, value_in};
ghost use Rattle.cyc_calls.specs.inside.Plain.{IsUsual, AreUsual, IsAlike, TakesType, TakesValue, TakesAll, IsTakenPlainly};

use crate::calls::call_with;
use crate::fitting::same_mark;
use cyc_operands::types::{is_non_null, is_pointer, same_region};
use cyc_operands::{Given, is_number};
use cyc_scope::{Scope, Stop};
use cyc_syntax::{Expr, Ident};
use cyc_types::typed::{Callee, Converted};
use cyc_types::{Region, Signature, Ty, typed};
use cyc_words::Span;
use std::alloc::AllocError;

/// Returns true if a region variable may have the given region.
fn is_usual(scope: &Scope<'_>, region: Region) -> bool
    ensures { IsTrue result → IsUsual scope.now region }
{
    !same_region(region, Region::Unique) && scope.is_live(region)
}

/// Returns true if the two lists have equally many regions, and region variables may have all regions of the second.
fn are_usual(scope: &Scope<'_>, wanted: &[Region], regions: &[Region]) -> bool
    ensures { IsTrue result → (length regions.now ≡ length wanted.now) × AreUsual scope.now regions.now }
{
    if regions.len() != wanted.len() {
        return false;
    }
    for region in regions {
        if !is_usual(scope, *region) {
            return false;
        }
    }
    true
}

/// Returns true if a type equals that of a parameter except for its regions.
fn is_alike(scope: &Scope<'_>, wanted: &Ty, of_type: &Ty) -> bool
    ensures { IsTrue result → IsAlike scope.now (view_ty wanted.now) (view_ty of_type.now) }
{
    match (wanted, of_type) {
        (Ty::Int, Ty::Int) | (Ty::Char, Ty::Char) => true,
        (
            Ty::Pointer {
                kind: wanted_kind,
                target: wanted_target,
                region: _wanted_region,
            },
            Ty::Pointer {
                kind,
                target,
                region,
            },
        ) => {
            if !same_mark(*kind, *wanted_kind) {
                return false;
            }
            if !is_usual(scope, *region) {
                return false;
            }
            is_alike(scope, wanted_target, target)
        }
        (Ty::Handle { .. }, Ty::Handle { region }) | (Ty::Key { .. }, Ty::Key { region }) => {
            is_usual(scope, *region)
        }
        (
            Ty::Struct {
                number: wanted_number,
                regions: wanted_regions,
            },
            Ty::Struct { number, regions },
        ) => {
            if *number != *wanted_number {
                return false;
            }
            are_usual(scope, wanted_regions, regions)
        }
        _ => false,
    }
}

/// Returns true if a value of the given type can be converted to the type of a parameter.
fn takes_type(scope: &Scope<'_>, wanted: &Ty, of_type: &Ty) -> bool
    ensures { IsTrue result → TakesType scope.now (view_ty wanted.now) (view_ty of_type.now) }
{
    match (wanted, of_type) {
        (Ty::Int | Ty::Char, Ty::Int | Ty::Char) => true,
        (
            Ty::Pointer {
                target: wanted_target,
                ..
            },
            Ty::Pointer { target, region, .. },
        ) => {
            if !is_usual(scope, *region) {
                return false;
            }
            is_alike(scope, wanted_target, target)
        }
        (Ty::Handle { .. }, Ty::Handle { region }) | (Ty::Key { .. }, Ty::Key { region }) => {
            is_usual(scope, *region)
        }
        _ => false,
    }
}

fn takes_heap_handle(scope: &Scope<'_>, wanted: &Ty) -> bool
    ensures { IsTrue result → TakesType scope.now (view_ty wanted.now) (types.Handle Heap) }
{
    match wanted {
        Ty::Handle { .. } => is_usual(scope, Region::Heap),
        _ => false,
    }
}

/// Returns true if a value can be converted to the type of a parameter.
fn takes_value(scope: &Scope<'_>, wanted: &Ty, value: Given<'_>) -> bool
    ensures { IsTrue result → TakesValue scope.now (view_ty wanted.now) (view_given value.entry) }
{
    match value {
        Given::Void => false,
        Given::Null => is_pointer(wanted) && !is_non_null(wanted),
        Given::Int | Given::Char => is_number(wanted),
        Given::HeapHandle => takes_heap_handle(scope, wanted),
        Given::Value(of_type) => takes_type(scope, wanted, of_type),
    }
}

/// Returns true if there are as many values as parameters, and each value can be converted to the parameter type at the value's index.
fn takes_all(scope: &Scope<'_>, parameters: &[Ty], values: &[Converted]) -> bool
    ensures { IsTrue result → TakesAll scope.now (map view_ty parameters.now) (map value_in values.now) }
{
    if values.len() != parameters.len() {
        return false;
    }
    for i in 0..parameters.len() {
        let given = Given::by(&values[i].value);
        if !takes_value(scope, &parameters[i], given) {
            return false;
        }
    }
    true
}

/// Returns true if a call of a function with a plain signature (each region of its parameters occurs only once) has no fault.
pub(crate) fn is_taken(
    scope: &Scope<'_>,
    function: Ident,
    callee: Callee,
    signature: &Signature,
    values: &[Converted],
) -> bool
    requires { meaning_of scope.now (view_name function) ≡ Routine callee (view_signature signature.now) }
    ensures { IsTrue result → IsTakenPlainly scope.now (view_signature signature.now) (map value_in values.now) }
{
    scope.is_plain(function)
        && scope.is_live(Region::Heap)
        && takes_all(scope, &signature.parameters, values)
}

fn shared(of_type: &Option<Ty>) -> Result<Option<Ty>, AllocError>
    ensures { IfOk result (λ t. option_map view_ty t ≡ option_map view_ty of_type.now) }
{
    match of_type {
        Some(of_type) => Ok(Some(of_type.share()?)),
        None => Ok(None),
    }
}

/// Returns the tree node of a call without a fault, of a function with a plain signature (each region of its parameters occurs only once).
#[inline(never)]
pub(crate) fn taken(
    scope: &Scope<'_>,
    callee: Callee,
    signature: &Signature,
    span: Span,
    expressions: &[Expr],
    values: Vec<Converted>,
) -> Result<Box<typed::Expr>, Stop>
    requires { IsTakenPlainly scope.now (view_signature signature.now) (map value_in values.items) }
    ensures { Gives view_boxed result (run (called_by scope.now callee (place_of_span span) (expressions_of expressions.now)
        (map value_in values.items) (view_signature signature.now)
        (instantiated (rules.instance_of (view_signature signature.now) (map value_in values.items)) (view_signature signature.now)))) }
{
    let returned = shared(&signature.result)?;
    call_with(
        scope.alloc(),
        span,
        callee,
        &signature.parameters,
        returned,
        values,
    )
}
