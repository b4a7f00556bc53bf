//! Calls: the typing rules' requirements on a call, given the regions that the arguments determine, and the call's tree node.
ghost use Rattle.std.specs.Prelude.{◌≡◌, map, option_map, None, Ok, IfOk, IfSome};
ghost use Rattle.std.specs.List.{list_all};
ghost use Rattle.cyc_syntax.specs.inside.TreeView.{place_of_span, view_name, expressions_of};
ghost use Rattle.cyc_types.specs.Types as types;
ghost use Rattle.cyc_types.specs.Types.{substituted_region};
ghost use Rattle.cyc_types.specs.TypeView.{view_ty, view_value_type};
ghost use Rattle.cyc_types.specs.TypedTrees as nodes;
ghost use Rattle.cyc_types.specs.TypedTreeView as typed_view;
ghost use Rattle.cyc_types.specs.inside.SignatureView.{substituted_pair, view_signature};
ghost use Rattle.cyc_types.specs.Rules.{settled, run};
ghost use Rattle.cyc_types.specs.typing.Scopes.{is_live, meaning_of};
ghost use Rattle.cyc_types.specs.typing.Expressions as rules;
ghost use Rattle.cyc_types.specs.typing.Expressions.{constraints_demanded, effect_demanded, call_demanded, called_by, called, instantiated};
ghost use Rattle.cyc_scope.specs.inside.Code.{Ends, Gives};
ghost use Rattle.cyc_operands.specs.inside.Operands.{view_boxed, value_in};
ghost use Rattle.cyc_calls.specs.inside.Instances.{instance_in};
ghost use Rattle.cyc_calls.specs.inside.Fitting.{FitsCall};
ghost use Rattle.cyc_calls.specs.inside.Calls.{regions_demanded, instance_wanted};
ghost use Rattle.cyc_calls.specs.inside.Passing.{all_with_kinds};

use crate::at_call::{region_at, result_at, signature_at};
use crate::fitting::fits;
use crate::instance::{instance_of, no_places};
use crate::passing::{demand_count, demand_variables, pass, set_all_kinds};
use crate::plain::{is_taken, taken};
use cyc_operands::boxed;
use cyc_scope::{Meaning, Scope, Settled, Stop, refused};
use cyc_syntax::{Expr, Ident};
use cyc_types::typed::{Callee, Converted, ValueType};
use cyc_types::{Region, Signature, Ty, typed};
use cyc_words::{Code, Span};
use smallvec::SmallVec;
use std::alloc::{AllocError, Global};

/// Checks that the constraints of a signature (one region outlives another) hold at a source position, given the table of regions of the
/// call.
fn demand_constraints(
    so_far: &mut Settled,
    scope: &Scope<'_>,
    table: &[Option<Region>],
    span: Span,
    constraints: &[(Region, Region)],
)
    ensures { so_far.new.known ≡ settled so_far.old.known
        (constraints_demanded scope.now.regions (place_of_span span) (map (substituted_pair (instance_in table.now)) constraints.now)) }
{
    for pair in constraints {
        let (longer, shorter) = (region_at(table, pair.0), region_at(table, pair.1));
        so_far.demand(Code::NotOutlived, span, scope.outlives(longer, shorter));
    }
}

/// Returns true if all regions of an effect are live, given the table of regions of the call. Consecutive equal regions are looked up once.
fn is_covered(scope: &Scope<'_>, table: &[Option<Region>], effect: &[Region]) -> bool
    ensures { result ≡ list_all (λ r. is_live scope.now r) (map (substituted_region (instance_in table.now)) effect.now) }
{
    let Some((first, rest)) = effect.split_first() else {
        return true;
    };
    let mut known = region_at(table, *first);
    if !scope.is_live(known) {
        return false;
    }
    for region in rest {
        let here = region_at(table, *region);
        if here == known {
            continue;
        }
        if !scope.is_live(here) {
            return false;
        }
        known = here;
    }
    true
}

/// Checks that all regions of an effect are live at a source position, after region variables are replaced by the regions in the
/// table of the call. For most effects, one first test shows that all regions are live, and no further check is needed.
#[tactic(auto, using(std::proofs::lemmas::List::drop_more, crate::proofs::Settling::covered_settled))]
fn demand_effect(
    so_far: &mut Settled,
    scope: &Scope<'_>,
    table: &[Option<Region>],
    span: Span,
    effect: &[Region],
)
    ensures { so_far.new.known ≡ settled so_far.old.known
        (effect_demanded scope.now (place_of_span span) (map (substituted_region (instance_in table.now)) effect.now)) }
{
    if is_covered(scope, table, effect) {
        return;
    }
    for region in effect {
        let is_live = scope.is_live(region_at(table, *region));
        so_far.demand(Code::EffectNotCovered, span, is_live);
    }
}

/// Checks a signature's requirements on regions at a source position, given the table of regions of the call: the constraints hold, and
/// the effect is live.
fn demand_regions(
    so_far: &mut Settled,
    scope: &Scope<'_>,
    table: &[Option<Region>],
    span: Span,
    signature: &Signature,
)
    ensures { so_far.new.known ≡ settled so_far.old.known
        (regions_demanded scope.now (place_of_span span) (instance_in table.now) (view_signature signature.now)) }
{
    demand_constraints(so_far, scope, table, span, &signature.constraints);
    demand_effect(so_far, scope, table, span, &signature.effect);
}

/// Checks that a call is well typed, given that its values fit the parameters.
fn fitting_call_wanted(
    scope: &Scope<'_>,
    table: &[Option<Region>],
    span: Span,
    signature: &Signature,
) -> Result<(), Stop>
    ensures { Ends result (settled None (regions_demanded scope.now (place_of_span span) (instance_in table.now) (view_signature signature.now))) }
{
    let mut settled = Settled::new();
    demand_regions(&mut settled, scope, table, span, signature);
    settled.end()
}

/// Checks that a call is well typed, given the table of regions of its signature and the signature `here` with these regions. The check
/// requires as many arguments as parameters, and that each argument can be converted to its parameter's type. No region variable may be
/// the region of unique pointers. The constraints must hold, and the effect must be live.
fn call_wanted(
    scope: &Scope<'_>,
    table: &[Option<Region>],
    span: Span,
    expressions: &[Expr],
    values: &[Converted],
    signature: &Signature,
    here: &Signature,
) -> Result<(), Stop>
    requires { view_signature here.now ≡ instantiated (instance_in table.now) (view_signature signature.now) }
    ensures { Ends result (settled None (call_demanded scope.now (place_of_span span) (expressions_of expressions.now) (map value_in values.now)
        (view_signature signature.now) (instantiated (instance_in table.now) (view_signature signature.now)))) }
{
    let mut settled = Settled::new();
    let parameters = &signature.parameters;
    demand_count(&mut settled, span, values, parameters);
    pass(&mut settled, scope, expressions, values, &here.parameters);
    demand_variables(&mut settled, expressions, values, parameters);
    demand_regions(&mut settled, scope, table, span, signature);
    settled.end()
}

/// Returns the regions of a signature's region variables at a call whose values fit the signature's parameters.
fn fitted(
    scope: &Scope<'_>,
    signature: &Signature,
    values: &[Converted],
) -> Result<Option<SmallVec<Option<Region>, 5>>, AllocError>
    ensures { IfOk result (λ fitted. IfSome fitted (λ table. FitsCall scope.now.regions (view_signature signature.now) (map value_in values.now) table.items)) }
{
    let mut table = no_places(scope.alloc(), signature.variables)?;
    if !fits(scope, &mut table, &signature.parameters, values) {
        return Ok(None);
    }
    Ok(Some(table))
}

/// Returns the regions of a signature's region variables at a well-typed call.
fn instance_wanted(
    scope: &Scope<'_>,
    span: Span,
    expressions: &[Expr],
    values: &[Converted],
    signature: &Signature,
) -> Result<SmallVec<Option<Region>, 5>, Stop>
    ensures { Gives (λ table. instance_in table.items) result
        (run (instance_wanted scope.now (place_of_span span) (expressions_of expressions.now) (map value_in values.now)
        (view_signature signature.now))) }
{
    if let Some(table) = fitted(scope, signature, values)? {
        fitting_call_wanted(scope, &table, span, signature)?;
        return Ok(table);
    }
    let table = instance_of(scope.alloc(), signature, values)?;
    let here = signature_at(scope.alloc(), &table, signature)?;
    call_wanted(scope, &table, span, expressions, values, signature, &here)?;
    Ok(table)
}

fn result_type(returned: Option<Ty>) -> ValueType
    ensures { view_value_type result ≡ types.result_type (option_map view_ty returned) }
{
    match returned {
        Some(of_type) => ValueType::Value { of_type },
        None => ValueType::Void,
    }
}

#[inline(never)]
fn call(
    alloc: Global,
    span: Span,
    callee: Callee,
    arguments: Vec<Converted>,
    returned: Option<Ty>,
) -> Result<Box<typed::Expr>, Stop>
    ensures { Gives view_boxed result (Ok (nodes.Call callee (typed_view.arguments_of arguments.items) (types.result_type (option_map view_ty returned)))) }
{
    let given = result_type(returned);
    boxed(
        alloc,
        typed::Expr::Call {
            span,
            callee,
            arguments,
            result: given,
        },
    )
}

/// Returns the tree node of a call of a function with the given parameters, with each value converted to the type at its index.
#[inline(never)]
pub(crate) fn call_with(
    alloc: Global,
    span: Span,
    callee: Callee,
    parameters: &[Ty],
    returned: Option<Ty>,
    values: Vec<Converted>,
) -> Result<Box<typed::Expr>, Stop>
    ensures { Gives view_boxed result (Ok (nodes.Call callee (typed_view.arguments_of (all_with_kinds values.items parameters.now))
        (types.result_type (option_map view_ty returned)))) }
{
    let mut arguments = values;
    set_all_kinds(&mut arguments, parameters);
    call(alloc, span, callee, arguments, returned)
}

/// Returns the tree node of a call of a function with the given signature.
#[inline(never)]
fn called_by(
    scope: &Scope<'_>,
    callee: Callee,
    signature: &Signature,
    span: Span,
    expressions: &[Expr],
    values: Vec<Converted>,
) -> Result<Box<typed::Expr>, Stop>
    ensures { Gives view_boxed result (run (called_by scope.now callee (place_of_span span) (expressions_of expressions.now)
        (map value_in values.items) (view_signature signature.now)
        (instantiated (rules.instance_of (view_signature signature.now) (map value_in values.items)) (view_signature signature.now)))) }
{
    let table = instance_wanted(scope, span, expressions, &values, signature)?;
    let returned = result_at(scope.alloc(), &table, &signature.result)?;
    call_with(
        scope.alloc(),
        span,
        callee,
        &signature.parameters,
        returned,
        values,
    )
}

/// Returns the tree node of a call of the function with the given name. The values passed by the call are those of the given argument
/// expressions.
#[inline(never)]
pub fn called(
    scope: &Scope<'_>,
    function: Ident,
    expressions: &[Expr],
    values: Vec<Converted>,
) -> Result<Box<typed::Expr>, Stop>
    ensures { Gives view_boxed result (run (called scope.now (meaning_of scope.now (view_name function)) (place_of_span function.span)
        (expressions_of expressions.now) (map value_in values.items))) }
{
    match scope.meaning(function) {
        Meaning::Unknown => Err(refused(Code::UnknownName, function.span)),
        Meaning::Variable { .. } | Meaning::Fixed { .. } | Meaning::Counter { .. } => {
            Err(refused(Code::TypeMismatch, function.span))
        }
        Meaning::Routine { callee, signature } => {
            let span = function.span;
            if is_taken(scope, function, callee, signature, &values) {
                return taken(scope, callee, signature, span, expressions, values);
            }
            called_by(scope, callee, signature, span, expressions, values)
        }
    }
}
