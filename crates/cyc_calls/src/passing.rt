//! Values that are passed to the parameters of a function, or to the fields of a new struct.
ghost use Rattle.std.specs.Prelude.{◌≡◌, [], ◌∷◌, ◌++◌, nat_eq, length, map, slice_get, OnOk, IfErr};
ghost use Rattle.cyc_words.specs.declared.fault.Code.TheVariants as codes;
ghost use Rattle.cyc_syntax.specs.inside.TreeView.{place_of_span, expressions_of};
ghost use Rattle.cyc_types.specs.TypeView.{view_ty};
ghost use Rattle.cyc_types.specs.Rules.{demand, noted, settled};
ghost use Rattle.cyc_types.specs.typing.Expressions.{passed_demanded, variables_demanded};
ghost use Rattle.cyc_scope.specs.declared.stop.Stop.TheVariants as stops;
ghost use Rattle.cyc_operands.specs.inside.Operands.{view_boxed, value_in};
ghost use Rattle.cyc_calls.specs.inside.Passing.{with_kinds, with_kinds_at, all_with_kinds};

use crate::instance::has_unique;
use cyc_operands::types::kind_of;
use cyc_operands::{Given, convert, span_of};
use cyc_scope::{Scope, Settled, Stop};
use cyc_syntax::Expr;
use cyc_types::typed::{Converted, Kind};
use cyc_types::{Ty, typed};
use cyc_words::{Code, Span};

/// Appends a value to the passed values. The types of the value's conversion are not known yet.
#[inline(never)]
pub fn push_value(values: &mut Vec<Converted>, value: Box<typed::Expr>) -> Result<(), Stop>
    ensures pushed { OnOk result (map value_in values.new.items ≡ map value_in values.old.items ++ view_boxed value ∷ []) }
    ensures memory { IfErr result (λ e. e ≡ stops.Memory) }
{
    values.push(Converted {
        from: Kind::Int,
        to: Kind::Int,
        value: Box::into_inner(value),
    })?;
    Ok(())
}

/// Sets the source and target types of a value's conversion.
fn set_kinds(value: &mut Converted, wanted: &Ty)
    ensures { value.new ≡ with_kinds value.old wanted.now }
{
    value.from = Given::by(&value.value).kind();
    value.to = kind_of(wanted);
}

/// Sets the source type and the target type in the conversion of the value at an index, if there is a value at this index.
fn set_kinds_at(values: &mut Vec<Converted>, index: usize, wanted: &Ty)
    ensures { values.new.items ≡ with_kinds_at (slice_get values.old.items index) values.old.items index wanted.now }
{
    if index < values.len() {
        set_kinds(&mut values[index], wanted);
    }
}

/// Sets the source type and the target type in the conversion of each value for which the list of types has an element.
pub(crate) fn set_all_kinds(values: &mut Vec<Converted>, types: &[Ty])
    ensures { values.new.items ≡ all_with_kinds values.old.items types.now }
{
    for i in 0..types.len() {
        set_kinds_at(values, i, &types[i]);
    }
}

/// Checks that there are as many values as types, and records a fault at the given source position otherwise.
pub(crate) fn demand_count(so_far: &mut Settled, span: Span, values: &[Converted], types: &[Ty])
    ensures { so_far.new.known ≡ noted so_far.old.known (demand codes.TypeMismatch (place_of_span span)
        (nat_eq (length (map value_in values.now)) (length (map view_ty types.now)))) }
{
    so_far.demand(Code::TypeMismatch, span, values.len() == types.len());
}

/// Checks that each value can be converted to the type at its index. The values to be converted are the results of the given expressions.
pub(crate) fn pass(
    so_far: &mut Settled,
    scope: &Scope<'_>,
    expressions: &[Expr],
    values: &[Converted],
    types: &[Ty],
)
    ensures { so_far.new.known ≡ settled so_far.old.known
        (passed_demanded scope.now.regions (expressions_of expressions.now) (map value_in values.now) (map view_ty types.now)) }
{
    for i in 0..types.len() {
        let (Some(expression), Some(value)) = (expressions.get(i), values.get(i)) else {
            return;
        };
        let given = Given::by(&value.value);
        convert(so_far, scope, given, &types[i], span_of(expression));
    }
}

/// Checks that no region variable of the given types is the region of unique pointers.
pub(crate) fn demand_variables(
    so_far: &mut Settled,
    expressions: &[Expr],
    values: &[Converted],
    types: &[Ty],
)
    ensures { so_far.new.known ≡ settled so_far.old.known
        (variables_demanded (expressions_of expressions.now) (map value_in values.now) (map view_ty types.now)) }
{
    for i in 0..types.len() {
        let (Some(expression), Some(value)) = (expressions.get(i), values.get(i)) else {
            return;
        };
        let is_unique = has_unique(&types[i], Given::by(&value.value));
        so_far.demand(Code::RegionOrKeyMisused, span_of(expression), !is_unique);
    }
}
