//! A table of the transitively closed outlives constraints, indexed by region. The table finds the constraints whose
//! longer-lived region is a given region without a search.
ghost use Rattle.std.specs.Prelude.{◌≡◌, ℕ, ◌<◌, cond, get_or, length, Some, None, OnOk, IfSome, MatchOption};
ghost use Rattle.cyc_types.specs.declared.region.Region.{Region};
ghost use Rattle.cyc_types.specs.Types.{region_eq};
ghost use Rattle.cyc_types.specs.Closure.{entry_leads, table_leads};
ghost use Rattle.cyc_types.specs.inside.ConstraintPlaces.{place_of};

use crate::Region;
use crate::constraints::Constraint;
use std::alloc::{AllocError, Global};
use std::marker::Model;

/// For each region, the index of the first outlives constraint that has it as longer-lived region.
#[derive(Drop)]
pub(crate) struct Places {
    heap: Option<usize>,
    unique: Option<usize>,
    /// For each region variable, indexed by its number, the index of the first constraint that has it as longer-lived region.
    variables: Vec<Option<usize>>,
}

/// The outlives constraints, in their order, with a table of the index of each region's first constraint. Contracts see this table
/// as the list of constraints.
#[derive(Drop)]
pub(crate) struct ConstraintTable {
    constraints: Vec<Constraint>,
    places: Places,
}

impl Model for ConstraintTable {
    ghost use Rattle.std.specs.Prelude.{List};
    ghost use Rattle.cyc_types.specs.declared.constraints.Constraint.{Constraint};
    ghost use Rattle.cyc_types.specs.inside.ConstraintPlaces.{AreFirst};

    ghost Value = { List Constraint };

    ghost view = { λ t. t.constraints.items };

    ghost invariant = { λ t. AreFirst t.constraints.items t.constraints.items t.places };
}

impl Places {
    /// Returns a table that records for no region a first constraint with it as longer-lived region.
    fn new(alloc: Global) -> Places
        ensures { (r : Region) → place_of result r ≡ None }
    {
        Places {
            heap: None,
            unique: None,
            variables: Vec::new(alloc),
        }
    }

    fn get(&self, region: Region) -> Option<usize>
        ensures { result ≡ place_of self.now region }
    {
        match region {
            Region::Heap => self.heap,
            Region::Unique => self.unique,
            Region::Variable(number) => self.variables.get(number).copied().unwrap_or(None),
        }
    }

    fn set(&mut self, region: Region, place: usize) -> Result<(), AllocError>
        ensures { OnOk result ((r : Region) → place_of self.new r ≡ cond (region_eq region r) (Some place) (place_of self.old r)) }
    {
        match region {
            Region::Heap => self.heap = Some(place),
            Region::Unique => self.unique = Some(place),
            Region::Variable(number) => {
                grow(&mut self.variables, number)?;
                self.variables[number] = Some(place);
            }
        }
        Ok(())
    }
}

/// Grows the table of first constraints until it has an entry for the region variable with this number.
fn grow(variables: &mut Vec<Option<usize>>, number: usize) -> Result<(), AllocError>
    ensures same { (x : ℕ) → get_or variables.new.items x None ≡ get_or variables.old.items x None }
    ensures long { OnOk result (number < length variables.new.items) }
{
    if number < variables.len() {
        return Ok(());
    }
    let Some(length) = number.checked_add(1) else {
        return Err(AllocError);
    };
    variables.resize(length, None)?;
    Ok(())
}

impl ConstraintTable {
    ghost use Rattle.std.specs.Prelude.{◌≡◌, IfOk};

    /// Returns the table of these outlives constraints, in which the constraints with a given longer-lived region are
    /// found without a search.
    pub(crate) fn new(
        alloc: Global,
        constraints: Vec<Constraint>,
    ) -> Result<ConstraintTable, AllocError>
        ensures { IfOk result (λ table. table ≡ constraints.items) }
    {
        let mut places = Places::new(alloc);
        for i in (0..constraints.len()).rev() {
            places.set(constraints[i].longer, i)?;
        }
        Ok(ConstraintTable {
            constraints,
            places,
        })
    }
}

/// Returns the table entry that lists all regions that `region` outlives, if a constraint has `region` as its longer-lived region.
pub(crate) fn entry_of(constraints: &ConstraintTable, region: Region) -> Option<&Constraint>
    ensures entry { MatchOption result ((b : Region) → table_leads constraints.now region b ≡ region_eq region b)
        (λ c. (b : Region) → table_leads constraints.now region b ≡ entry_leads c.now b) }
    ensures longer { IfSome result (λ c. c.now.longer ≡ region) }
{
    match constraints.places.get(region) {
        Some(place) => Some(&constraints.constraints[place]),
        None => None,
    }
}

/// Returns true if region `a` outlives region `b` according to the constraints.
pub(crate) fn table_leads(constraints: &ConstraintTable, a: Region, b: Region) -> bool
    ensures { result ≡ table_leads constraints.now a b }
{
    match entry_of(constraints, a) {
        Some(constraint) => constraint.leads_to(b),
        None => a == b,
    }
}
