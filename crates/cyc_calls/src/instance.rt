//! The regions of the region variables of a signature at a call. Each region variable is bound to the region at its first occurrence in the
//! types of the arguments.
ghost use Rattle.std.specs.Prelude.{◌≡◌, ◌∷◌, [], map, replicate, IfOk, Option, Some, None};
ghost use Rattle.std.specs.List.{list_any};
ghost use Rattle.cyc_types.specs.declared.region.Region.TheVariants as regions;
ghost use Rattle.cyc_types.specs.Types as types;
ghost use Rattle.cyc_types.specs.TypeView.{view_ty};
ghost use Rattle.cyc_types.specs.inside.SignatureView.{view_signature};
ghost use Rattle.cyc_types.specs.typing.Expressions.{all_paired, paired, paired_argument, paired_arguments, instance_of, is_unique_for_variable};
ghost use Rattle.cyc_operands.specs.inside.Operands.{view_given, value_in};
ghost use Rattle.cyc_calls.specs.inside.Instances.{instance_in, noted_place, noted_places};

use cyc_operands::Given;
use cyc_types::typed::Converted;
use cyc_types::{Region, Signature, Ty};
use smallvec::SmallVec;
use std::alloc::{AllocError, Global};

/// Records a region at an occurrence of a region in a parameter type.
fn note(table: &mut [Option<Region>], variable: Region, region: Region)
    ensures { table.new ≡ noted_place table.old (variable, region) }
{
    let Region::Variable(number) = variable else {
        return;
    };
    if let Some(None) = table.get(number) {
        table[number] = Some(region);
    }
}

/// Records the regions at the occurrences of the region arguments of a struct type.
#[tactic(auto, using(crate::proofs::Instances::paired_past))]
fn note_all(table: &mut [Option<Region>], variables: &[Region], regions: &[Region])
    ensures { table.new ≡ noted_places table.old (all_paired variables.now regions.now) }
{
    for i in 0..variables.len() {
        if i >= regions.len() {
            return;
        }
        note(table, variables[i], regions[i]);
    }
}

/// Records the regions at the occurrences of all regions of a parameter type.
#[tactic(auto, using(crate::proofs::Instances::noted_append))]
fn note_type(table: &mut [Option<Region>], parameter: &Ty, given: &Ty)
    ensures { table.new ≡ noted_places table.old (paired (view_ty parameter.now) (view_ty given.now)) }
{
    match (parameter, given) {
        (
            Ty::Pointer { target, region, .. },
            Ty::Pointer {
                target: given_target,
                region: given_region,
                ..
            },
        ) => {
            note_type(table, target, given_target);
            note(table, *region, *given_region);
        }
        (
            Ty::Handle { region },
            Ty::Handle {
                region: given_region,
            },
        ) => note(table, *region, *given_region),
        (
            Ty::Key { region },
            Ty::Key {
                region: given_region,
            },
        ) => note(table, *region, *given_region),
        (
            Ty::Struct { regions, .. },
            Ty::Struct {
                regions: given_regions,
                ..
            },
        ) => note_all(table, regions, given_regions),
        _ => {}
    }
}

/// Records the heap as the region of a handle, for the argument `heap_region`.
fn note_heap_handle(table: &mut [Option<Region>], parameter: &Ty)
    ensures { table.new ≡ noted_places table.old (paired (view_ty parameter.now) (types.Handle regions.Heap)) }
{
    if let Ty::Handle { region } = parameter {
        note(table, *region, Region::Heap);
    }
}

#[tactic(auto, using(crate::proofs::Instances::paired_int, crate::proofs::Instances::paired_char))]
fn note_given(table: &mut [Option<Region>], parameter: &Ty, given: Given<'_>)
    ensures { table.new ≡ noted_places table.old (paired_argument (view_ty parameter.now) (view_given given.entry)) }
{
    match given {
        Given::Void | Given::Null | Given::Int | Given::Char => {}
        Given::HeapHandle => note_heap_handle(table, parameter),
        Given::Value(of_type) => note_type(table, parameter, of_type),
    }
}

#[tactic(auto, using(crate::proofs::Instances::given_past))]
fn note_arguments(table: &mut [Option<Region>], parameters: &[Ty], values: &[Converted])
    ensures { table.new ≡ noted_places table.old (paired_arguments (map view_ty parameters.now) (map value_in values.now)) }
{
    for i in 0..parameters.len() {
        if i >= values.len() {
            return;
        }
        note_given(table, &parameters[i], Given::by(&values[i].value));
    }
}

/// Table elements for region variables without a recorded region. The code copies a table from this constant instead of
/// building the table element by element.
const UNPLACED: [Option<Region>; 64] = [None; 64];

/// Returns a table of `count` variables without recorded regions.
fn unplaced(alloc: Global, count: usize) -> Result<SmallVec<Option<Region>, 5>, AllocError>
    ensures { IfOk result (λ table. table.items ≡ replicate count None) }
{
    let mut table = SmallVec::with_capacity(alloc, count)?;
    let mut left = count;
    while left > 0 {
        let next = left.min(UNPLACED.len());
        table.extend_from_slice(&UNPLACED[..next])?;
        left -= next;
    }
    Ok(table)
}

/// Returns a table of region variables without recorded regions, numbered from 1. Number 0 is not a variable.
pub(crate) fn no_places(
    alloc: Global,
    variables: usize,
) -> Result<SmallVec<Option<Region>, 5>, AllocError>
    ensures { IfOk result (λ table. table.items ≡ Some regions.Heap ∷ replicate variables None) }
{
    let Some(length) = variables.checked_add(1) else {
        return Err(AllocError);
    };
    let mut table = unplaced(alloc, length)?;
    note(&mut table, Region::Variable(0), Region::Heap);
    Ok(table)
}

/// Returns the regions of the region variables of a signature at a call with the given arguments. The result is a table with the region at
/// the first occurrence of each variable.
#[tactic(auto, using(crate::proofs::Instances::instance_found, crate::proofs::Instances::noted_whole))]
pub(crate) fn instance_of(
    alloc: Global,
    signature: &Signature,
    values: &[Converted],
) -> Result<SmallVec<Option<Region>, 5>, AllocError>
    ensures { IfOk result (λ table. instance_in table.items ≡ instance_of (view_signature signature.now) (map value_in values.now)) }
{
    let mut table = no_places(alloc, signature.variables)?;
    note_arguments(&mut table, &signature.parameters, values);
    Ok(table)
}

// ---- the region of unique pointers is the region of no variable

fn is_unique_for_variable(variable: Region, region: Region) -> bool
    ensures { result ≡ is_unique_for_variable (variable, region) }
{
    matches!((variable, region), (Region::Variable(_), Region::Unique))
}

#[tactic(auto, using(crate::proofs::Instances::paired_past))]
fn has_unique_argument(variables: &[Region], regions: &[Region]) -> bool
    ensures { result ≡ list_any is_unique_for_variable (all_paired variables.now regions.now) }
{
    for i in 0..variables.len() {
        if i >= regions.len() {
            return false;
        }
        if is_unique_for_variable(variables[i], regions[i]) {
            return true;
        }
    }
    false
}

#[tactic(auto, using(cyc_words::proofs::Searches::any_last_first))]
fn has_unique_in(parameter: &Ty, given: &Ty) -> bool
    ensures { result ≡ list_any is_unique_for_variable (paired (view_ty parameter.now) (view_ty given.now)) }
{
    match (parameter, given) {
        (
            Ty::Pointer { target, region, .. },
            Ty::Pointer {
                target: given_target,
                region: given_region,
                ..
            },
        ) => {
            is_unique_for_variable(*region, *given_region) || has_unique_in(target, given_target)
        }
        (
            Ty::Handle { region },
            Ty::Handle {
                region: given_region,
            },
        ) => is_unique_for_variable(*region, *given_region),
        (
            Ty::Key { region },
            Ty::Key {
                region: given_region,
            },
        ) => is_unique_for_variable(*region, *given_region),
        (
            Ty::Struct { regions, .. },
            Ty::Struct {
                regions: given_regions,
                ..
            },
        ) => has_unique_argument(regions, given_regions),
        _ => false,
    }
}

/// Returns true if the region of unique pointers stands where a parameter's type has a region variable.
#[tactic(auto, using(crate::proofs::Instances::no_unique_int, crate::proofs::Instances::no_unique_char, crate::proofs::Instances::no_unique_heap))]
pub(crate) fn has_unique(parameter: &Ty, given: Given<'_>) -> bool
    ensures { result ≡ list_any is_unique_for_variable (paired_argument (view_ty parameter.now) (view_given given.entry)) }
{
    match given {
        Given::Void | Given::Null | Given::Int | Given::Char | Given::HeapHandle => false,
        Given::Value(of_type) => has_unique_in(parameter, of_type),
    }
}
