//! A table with the index of the oldest open scope of each region. The indexes of oldest scopes decide the outlives relation
//! without a search of the scopes.
ghost use Rattle.std.specs.Prelude.{◌≡◌, ◌≤◌, ◌<◌, ◌||◌, ◌&&◌, ◌++◌, ◌+◌, ℕ, List, [], ◌∷◌, reverse, length, get_or, not, false, true, IsTrue, OnOk, IfOk};
ghost use Rattle.std.specs.List.{list_any};
ghost use Rattle.cyc_types.specs.declared.region.Region.{Region};
ghost use Rattle.cyc_types.specs.declared.region.Region.TheVariants.{Unique};
ghost use Rattle.cyc_types.specs.declared.scope.Scope.{Scope};
ghost use Rattle.cyc_types.specs.Outlives.{is_outlived_by_live};
ghost use Rattle.cyc_types.specs.Types.{region_eq, is_region_among};
ghost use Rattle.cyc_types.specs.Closure.{IsClosed, above, above_one_of, leads, table_leads, written_in};
ghost use Rattle.cyc_types.specs.inside.Openings.{IsInOrder, live_before, opening_of};

use crate::Region;
use crate::constraint_table::{ConstraintTable, entry_of, table_leads};
use crate::region_list::RegionList;
use crate::scope::{Scope, is_outlived_by_live};
use std::alloc::AllocError;

/// Returns the index of the region's oldest open scope. The index is meaningless if the region has no open scope.
fn opening_of(openings: &[usize], region: Region) -> usize
    ensures { result ≡ opening_of openings.now region }
{
    match region {
        Region::Heap | Region::Unique => 0,
        Region::Variable(number) => match openings.get(number) {
            Some(place) => *place,
            None => 0,
        },
    }
}

/// Returns true if the region is live while the `count` oldest scopes are open.
pub(crate) fn is_live_before(
    live: &RegionList,
    openings: &[usize],
    scopes: &[Scope],
    count: usize,
    region: Region,
) -> bool
    requires { (w : List (Region × Region)) × (n : ℕ) × (count ≤ n) × IsInOrder w live.now openings.now scopes.now n }
    ensures { result ≡ is_region_among region (live_before live.now scopes.now count) }
{
    if live.has(region) {
        return true;
    }
    let place = opening_of(openings, region);
    if place < count {
        return scopes[place].region == region;
    }
    false
}

/// Returns true if one of `regions` is live while the `count` oldest scopes are open, not counting the unique region.
fn is_one_live_before(
    live: &RegionList,
    openings: &[usize],
    scopes: &[Scope],
    count: usize,
    regions: &[Region],
) -> bool
    requires { (w : List (Region × Region)) × (n : ℕ) × (count ≤ n) × IsInOrder w live.now openings.now scopes.now n }
    ensures { result ≡ list_any (λ r. not (region_eq r Unique) && is_region_among r (live_before live.now scopes.now count)) regions.now }
{
    for region in regions {
        if *region != Region::Unique && is_live_before(live, openings, scopes, count, *region) {
            return true;
        }
    }
    false
}

/// Returns true if constraints lead from `a` to a region that is live while the `count` oldest scopes are open, not
/// counting the unique region.
fn is_above_live_before(
    constraints: &ConstraintTable,
    live: &RegionList,
    openings: &[usize],
    scopes: &[Scope],
    count: usize,
    a: Region,
) -> bool
    requires closed { IsClosed constraints.now }
    requires order { (n : ℕ) × (count ≤ n) × IsInOrder (written_in constraints.now) live.now openings.now scopes.now n }
    ensures { result ≡ above_one_of (written_in constraints.now) (live_before live.now scopes.now count) a }
{
    if a != Region::Unique && is_live_before(live, openings, scopes, count, a) {
        return true;
    }
    match entry_of(constraints, a) {
        Some(entry) => is_one_live_before(live, openings, scopes, count, entry.outlived.as_slice()),
        None => false,
    }
}

/// Returns true if a path of constraints and open scopes leads from `a` to `b`, provided that the table of opening indexes is correct for
/// all scopes.
///
/// A region that is live when a scope opens outlives the scope's region. A region that is not live when the scope opens outlives the
/// scope's region only by constraints, since the scope's region is new.
pub(crate) fn leads_in_order(
    constraints: &ConstraintTable,
    live: &RegionList,
    openings: &[usize],
    scopes: &[Scope],
    a: Region,
    b: Region,
) -> bool
    requires closed { IsClosed constraints.now }
    requires order { IsInOrder (written_in constraints.now) live.now openings.now scopes.now (length scopes.now) }
    ensures { result ≡ leads (written_in constraints.now) live.now (reverse scopes.now) a b }
{
    if table_leads(constraints, a, b) {
        return true;
    }
    let place = opening_of(openings, b);
    if place < scopes.len() {
        let scope = scopes[place];
        if scope.region == b && is_outlived_by_live(scope.kind) {
            return is_above_live_before(constraints, live, openings, scopes, place, a);
        }
    }
    false
}

/// Grows the table of opening indexes until it has an entry for the region variable with this number.
fn grow(openings: &mut Vec<usize>, number: usize) -> Result<(), AllocError>
    ensures same { (x : ℕ) → get_or openings.new.items x 0 ≡ get_or openings.old.items x 0 }
    ensures long { OnOk result (number < length openings.new.items) }
{
    if number < openings.len() {
        return Ok(());
    }
    let Some(length) = number.checked_add(1) else {
        return Err(AllocError);
    };
    openings.resize(length, 0)?;
    Ok(())
}

/// Stores `place` in the table as the index of the oldest open scope of `region`, if `region` is a region variable.
fn note(openings: &mut Vec<usize>, region: Region, place: usize) -> Result<bool, AllocError>
    ensures noted { IfOk result (λ noted. noted ≡ true → opening_of openings.new.items region ≡ place) }
    ensures others { (r : Region) → region_eq region r ≡ false → opening_of openings.new.items r ≡ opening_of openings.old.items r }
{
    let Region::Variable(number) = region else {
        return Ok(false);
    };
    grow(openings, number)?;
    openings[number] = place;
    Ok(true)
}

/// Returns true if no constraint has `region` as its longer-lived region.
fn is_alone(constraints: &ConstraintTable, region: Region) -> bool
    ensures { IsTrue result → (b : Region) → table_leads constraints.now region b ≡ region_eq region b }
{
    match entry_of(constraints, region) {
        Some(_) => false,
        None => true,
    }
}

/// Returns true if the table of opening indexes will be correct for the next scope, provided that it is correct for the oldest
/// `in_order` scopes. Stores in the table of opening indexes the index of the oldest scope of the next scope's region.
pub(crate) fn opens_in_order(
    constraints: &ConstraintTable,
    live: &RegionList,
    openings: &mut Vec<usize>,
    scopes: &[Scope],
    in_order: usize,
    scope: Scope,
) -> Result<bool, AllocError>
    requires closed { IsClosed constraints.now }
    requires order { IsInOrder (written_in constraints.now) live.now openings.old.items scopes.now in_order }
    ensures kept { IsInOrder (written_in constraints.now) live.now openings.new.items scopes.now in_order }
    ensures next { IfOk result (λ next. next ≡ true → IsInOrder (written_in constraints.now) live.now openings.new.items (scopes.now ++ scope ∷ [])
        (length scopes.now + 1)) }
{
    let place = scopes.len();
    if in_order < place {
        return Ok(false);
    }
    let is_known = is_live_before(live, openings, scopes, place, scope.region);
    if is_known {
        return Ok(!is_outlived_by_live(scope.kind));
    }
    if is_outlived_by_live(scope.kind) && !is_alone(constraints, scope.region) {
        return Ok(false);
    }
    note(openings, scope.region, place)
}
