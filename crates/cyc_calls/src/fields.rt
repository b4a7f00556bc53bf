//! Builds new structs from values for their fields.
ghost use Rattle.std.specs.Prelude.{◌≡◌, map, Ok, IfOk};
ghost use Rattle.cyc_syntax.specs.inside.TreeView.{view_name, expressions_of};
ghost use Rattle.cyc_types.specs.TypeView.{view_ty};
ghost use Rattle.cyc_types.specs.TypedTrees as nodes;
ghost use Rattle.cyc_types.specs.TypedTreeView.{view_initial, arguments_of};
ghost use Rattle.cyc_types.specs.Rules.{settled};
ghost use Rattle.cyc_types.specs.typing.Expressions.{field_types, arguments_written, fields_known, fields_made};
ghost use Rattle.cyc_scope.specs.inside.Code.{Gives};
ghost use Rattle.cyc_scope.specs.inside.Entries.{view_field};
ghost use Rattle.cyc_operands.specs.inside.Operands.{value_in, IsMade, GivesOne};
ghost use Rattle.cyc_calls.specs.inside.Passing.{all_with_kinds, fields_asked};

use crate::passing::{demand_count, pass, set_all_kinds};
use cyc_operands::{Made, boxed_initial};
use cyc_scope::{Field, Scope, Settled, Stop, demand_struct};
use cyc_syntax::{Expr, Ident, PointerKind};
use cyc_types::formation::arguments_or;
use cyc_types::typed::{Converted, Initial};
use cyc_types::{Region, Ty};
use smallvec::SmallVec;
use std::alloc::{AllocError, Global};
use std::rc::Rc;

/// Returns the types of the fields of a struct with the given region arguments.
fn field_types(alloc: Global, arguments: &[Region], fields: &[Field]) -> Result<Vec<Ty>, AllocError>
    ensures { IfOk result (λ ts. map view_ty ts.items ≡ field_types arguments.now (map view_field fields.now)) }
{
    let mut all = Vec::with_capacity(alloc, fields.len())?;
    for field in fields {
        all.push(field.of_type.substituted(alloc, arguments)?)?;
    }
    Ok(all)
}

/// Returns the fields of the struct with the given name.
fn fields_known<'s>(scope: &'s Scope<'_>, name: Ident) -> &'s [Field]
    ensures { map view_field result.now ≡ fields_known scope.now (view_name name) }
{
    scope.fields(scope.structs().number(name.name.number))
}

/// Returns the region arguments of a struct type; region arguments that are not written are the heap.
fn arguments_written(
    scope: &Scope<'_>,
    name: Ident,
    regions: &[Ident],
) -> Result<Rc<SmallVec<Region, 4>>, AllocError>
    ensures { IfOk result (λ rs. rs.value.items ≡ arguments_written scope.now (view_name name) (map view_name regions.now)) }
{
    let count = scope.structs().parameters(name.name.number).unwrap_or(0);
    arguments_or(scope.alloc(), scope.names(), count, regions)
}

/// Returns the fields of a new struct, with each value converted to the type at its index.
#[inline(never)]
fn fields(alloc: Global, values: Vec<Converted>, types: &[Ty]) -> Result<Box<Initial>, Stop>
    ensures { Gives (λ b. view_initial b.value) result (Ok (nodes.Fields (arguments_of (all_with_kinds values.items types.now)))) }
{
    let mut values = values;
    set_all_kinds(&mut values, types);
    boxed_initial(alloc, Initial::Fields { values })
}

/// Checks the requirements on a struct whose values are given for fields of the given types. The values for the fields are the
/// results of the given expressions.
#[tactic(auto, using(crate::proofs::Settling::settled_further))]
fn demand_fields(
    so_far: &mut Settled,
    scope: &Scope<'_>,
    name: Ident,
    regions: &[Ident],
    expressions: &[Expr],
    values: &[Converted],
    types: &[Ty],
)
    ensures { so_far.new.known ≡ settled so_far.old.known
        (fields_asked scope.now (view_name name) (map view_name regions.now) (expressions_of expressions.now) (map value_in values.now)
        (map view_ty types.now)) }
{
    let (structs, names) = (scope.structs(), scope.names());
    demand_struct(so_far, structs, names, None, name.span, name, regions);
    demand_count(so_far, name.span, values, types);
    pass(so_far, scope, expressions, values, types);
}

/// Returns a new struct with the given values, which are the values of the given expressions.
#[inline(never)]
pub fn fields_made(
    scope: &Scope<'_>,
    name: Ident,
    regions: &[Ident],
    expressions: &[Expr],
    values: Vec<Converted>,
) -> Result<Box<Made>, Stop>
    ensures { GivesOne IsMade result (Ok (fields_made scope.now (view_name name) (map view_name regions.now) (expressions_of expressions.now)
        (map value_in values.items))) }
{
    let arguments = arguments_written(scope, name, regions)?;
    let types = field_types(scope.alloc(), &arguments, fields_known(scope, name))?;
    let mut settled = Settled::new();
    demand_fields(
        &mut settled,
        scope,
        name,
        regions,
        expressions,
        &values,
        &types,
    );
    let initial = fields(scope.alloc(), values, &types)?;
    let target = Ty::Struct {
        number: scope.structs().number(name.name.number),
        regions: arguments,
    };
    Ok(Box::new(
        scope.alloc(),
        Made {
            settled,
            initial,
            target,
            mark: PointerKind::NonNull,
        },
    )?)
}
