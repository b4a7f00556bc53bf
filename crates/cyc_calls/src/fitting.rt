//! The check that values fit the parameters of a signature. The check is one traversal of the types of the parameters and of the values,
//! which records the regions of the region variables and compares types. If there is no fault, the traversal has checked all requirements
//! of the rules on the values. If there is a fault, a second check finds the first fault in the order of the rules.
ghost use Rattle.std.specs.Prelude.{◌≡◌, map, IsTrue, IfSome};
ghost use Rattle.cyc_types.specs.declared.region.Region.TheVariants.{Heap};
ghost use Rattle.cyc_types.specs.Types as types;
ghost use Rattle.cyc_types.specs.TypeView.{view_ty};
ghost use Rattle.cyc_types.specs.typing.Tests.{mark_eq};
ghost use Rattle.cyc_operands.specs.inside.Operands.{view_given, value_in};
ghost use Rattle.cyc_calls.specs.inside.Fitting.{Stands, FitsRegion, FitsRegions, FitsType, FitsOutermost, FitsValue, FitsValues};

use cyc_operands::types::{is_non_null, is_pointer, same_region};
use cyc_operands::{Given, is_number};
use cyc_scope::Scope;
use cyc_syntax::PointerKind;
use cyc_types::typed::Converted;
use cyc_types::{Region, Ty};

/// Returns the region that replaces a region of a parameter type at the call. A variable has its recorded region; if it has none, the
/// given region is recorded. The function returns no result if a variable would be the region of unique pointers.
fn region_for(table: &mut [Option<Region>], wanted: Region, region: Region) -> Option<Region>
    ensures { IfSome result (λ known. Stands table.old table.new wanted region known) }
{
    let Region::Variable(number) = wanted else {
        return Some(wanted);
    };
    if same_region(region, Region::Unique) {
        return None;
    }
    match table.get(number) {
        Some(Some(known)) => Some(*known),
        Some(None) => {
            table[number] = Some(region);
            Some(region)
        }
        None => None,
    }
}

fn fits_region(table: &mut [Option<Region>], wanted: Region, region: Region) -> bool
    ensures { IsTrue result → FitsRegion table.old table.new wanted region }
{
    match region_for(table, wanted, region) {
        Some(known) => same_region(region, known),
        None => false,
    }
}

/// Returns true if the region arguments of a struct type equal those of a parameter's type at the call.
fn fits_regions(table: &mut [Option<Region>], wanted: &[Region], regions: &[Region]) -> bool
    ensures { IsTrue result → FitsRegions table.old table.new wanted.now regions.now }
{
    if regions.len() != wanted.len() {
        return false;
    }
    for i in 0..wanted.len() {
        if !fits_region(table, wanted[i], regions[i]) {
            return false;
        }
    }
    true
}

pub(crate) fn same_mark(a: PointerKind, b: PointerKind) -> bool
    ensures { result ≡ mark_eq a b }
{
    match (a, b) {
        (PointerKind::Nullable, PointerKind::Nullable)
        | (PointerKind::NonNull, PointerKind::NonNull)
        | (PointerKind::Fat, PointerKind::Fat) => true,
        _ => false,
    }
}

/// Returns true if a type equals a parameter's type at the call, including all its regions and target types. The region of a pointer is
/// recorded before those of its target, so the check of a pointer needs no stack frame of its own. In the order of the rules, the
/// pointer's region comes after those of the target, which is equivalent if all regions fit.
#[tactic(auto, using(crate::proofs::FittedValues::fits_handle, crate::proofs::FittedValues::fits_key))]
fn fits_type(table: &mut [Option<Region>], wanted: &Ty, of_type: &Ty) -> bool
    ensures { IsTrue result → FitsType table.old table.new (view_ty wanted.now) (view_ty of_type.now) }
{
    match (wanted, of_type) {
        (Ty::Int, Ty::Int) | (Ty::Char, Ty::Char) => true,
        (
            Ty::Pointer {
                kind: wanted_kind,
                target: wanted_target,
                region: wanted_region,
            },
            Ty::Pointer {
                kind,
                target,
                region,
            },
        ) => {
            if !same_mark(*kind, *wanted_kind) {
                return false;
            }
            if !fits_region(table, *wanted_region, *region) {
                return false;
            }
            fits_type(table, wanted_target, target)
        }
        (
            Ty::Handle {
                region: wanted_region,
            },
            Ty::Handle { region },
        ) => fits_region(table, *wanted_region, *region),
        (
            Ty::Key {
                region: wanted_region,
            },
            Ty::Key { region },
        ) => fits_region(table, *wanted_region, *region),
        (
            Ty::Struct {
                number: wanted_number,
                regions: wanted_regions,
            },
            Ty::Struct { number, regions },
        ) => {
            if *number != *wanted_number {
                return false;
            }
            fits_regions(table, wanted_regions, regions)
        }
        _ => false,
    }
}

/// Returns true if the region of a value's outermost pointer outlives that of the outermost pointer of the parameter's type.
fn fits_outermost(
    scope: &Scope<'_>,
    table: &mut [Option<Region>],
    wanted: Region,
    region: Region,
) -> bool
    ensures { IsTrue result → FitsOutermost scope.now.regions table.old table.new wanted region }
{
    match region_for(table, wanted, region) {
        Some(known) => scope.outlives(region, known),
        None => false,
    }
}

/// Returns true if a value of the given type can be converted to the type of a parameter.
fn fits_value_type(
    scope: &Scope<'_>,
    table: &mut [Option<Region>],
    wanted: &Ty,
    of_type: &Ty,
) -> bool
    ensures { IsTrue result → FitsValue scope.now.regions table.old table.new (view_ty wanted.now) (types.Value (view_ty of_type.now)) }
{
    match (wanted, of_type) {
        (Ty::Int | Ty::Char, Ty::Int | Ty::Char) => true,
        (
            Ty::Pointer {
                target: wanted_target,
                region: wanted_region,
                ..
            },
            Ty::Pointer { target, region, .. },
        ) => {
            if !fits_type(table, wanted_target, target) {
                return false;
            }
            fits_outermost(scope, table, *wanted_region, *region)
        }
        (
            Ty::Handle {
                region: wanted_region,
            },
            Ty::Handle { region },
        ) => fits_region(table, *wanted_region, *region),
        (
            Ty::Key {
                region: wanted_region,
            },
            Ty::Key { region },
        ) => fits_region(table, *wanted_region, *region),
        _ => false,
    }
}

fn fits_heap_handle(scope: &Scope<'_>, table: &mut [Option<Region>], wanted: &Ty) -> bool
    ensures { IsTrue result → FitsValue scope.now.regions table.old table.new (view_ty wanted.now) (types.Value (types.Handle Heap)) }
{
    match wanted {
        Ty::Handle { region } => fits_region(table, *region, Region::Heap),
        _ => false,
    }
}

/// Returns true if a value can be converted to the type of a parameter.
fn fits_value(
    scope: &Scope<'_>,
    table: &mut [Option<Region>],
    wanted: &Ty,
    value: Given<'_>,
) -> bool
    ensures { IsTrue result → FitsValue scope.now.regions table.old table.new (view_ty wanted.now) (view_given value.entry) }
{
    match value {
        Given::Void => false,
        Given::Null => is_pointer(wanted) && !is_non_null(wanted),
        Given::Int | Given::Char => is_number(wanted),
        Given::HeapHandle => fits_heap_handle(scope, table, wanted),
        Given::Value(of_type) => fits_value_type(scope, table, wanted, of_type),
    }
}

/// Returns true if there are as many values as parameters, and each value can be converted to the parameter type at the value's index.
pub(crate) fn fits(
    scope: &Scope<'_>,
    table: &mut [Option<Region>],
    parameters: &[Ty],
    values: &[Converted],
) -> bool
    ensures { IsTrue result → FitsValues scope.now.regions table.old table.new (map view_ty parameters.now) (map value_in values.now) }
{
    if values.len() != parameters.len() {
        return false;
    }
    for i in 0..parameters.len() {
        let given = Given::by(&values[i].value);
        if !fits_value(scope, table, &parameters[i], given) {
            return false;
        }
    }
    true
}
