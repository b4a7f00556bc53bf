//! The outlives constraints of a function; their transitive closure is computed once.
ghost use Rattle.std.specs.Prelude.{◌≡◌, ◌||◌, ◌&&◌, [], IfOk, OnOk, MatchOption, IfSome, IsTrue};
ghost use Rattle.cyc_types.specs.declared.region.Region.{Region};
ghost use Rattle.cyc_types.specs.Types.{region_eq, is_region_among};
ghost use Rattle.cyc_types.specs.Closure.{above, entry_leads, table_leads, written_in, IsClosed, has_entry};

use crate::Region;
use crate::region_list::RegionList;
use smallvec::SmallVec;
use std::alloc::{AllocError, Global};

/// A constraint as written, together with all regions that its longer-lived region outlives according to the constraints.
#[derive(Drop)]
pub struct Constraint {
    pub longer: Region,
    pub shorter: Region,
    pub outlived: RegionList,
}

impl Constraint {
    /// Returns a constraint with no outlived regions recorded yet; the transitive closure of the constraints adds them later.
    fn new(alloc: Global, longer: Region, shorter: Region) -> Constraint
        ensures longer { result.longer ≡ longer }
        ensures shorter { result.shorter ≡ shorter }
        ensures outlived { result.outlived ≡ [] }
    {
        Constraint {
            longer,
            shorter,
            outlived: RegionList::new(alloc),
        }
    }

    /// Returns true if the constraint records that its longer-lived region outlives `region`.
    pub(crate) fn leads_to(&self, region: Region) -> bool
        ensures { result ≡ entry_leads self.now region }
    {
        self.longer == region || self.outlived.has(region)
    }

    /// Adds a region to the recorded regions that the constraint's longer-lived region outlives.
    fn add(&mut self, region: Region) -> Result<(), AllocError>
        ensures longer { OnOk result (self.new.longer ≡ self.old.longer) }
        ensures shorter { OnOk result (self.new.shorter ≡ self.old.shorter) }
        ensures leads { OnOk result ((b : Region) → entry_leads self.new b ≡ (entry_leads self.old b || region_eq region b)) }
    {
        if !self.leads_to(region) {
            self.outlived.push(region)?;
        }
        Ok(())
    }

    /// Adds all regions of `below` to the regions that the constraint's longer-lived region outlives, if this region outlives `via`.
    fn extend(&mut self, via: Region, below: &[Region]) -> Result<(), AllocError>
        ensures longer { OnOk result (self.new.longer ≡ self.old.longer) }
        ensures shorter { OnOk result (self.new.shorter ≡ self.old.shorter) }
        ensures leads { OnOk result ((b : Region) → entry_leads self.new b
            ≡ (entry_leads self.old b || (entry_leads self.old via && is_region_among b below.now))) }
    {
        if self.leads_to(via) {
            for region in below {
                self.add(*region)?;
            }
        }
        Ok(())
    }
}

/// Returns the constraint that lists all regions that `region` outlives, if a constraint has `region` as its longer-lived region.
fn entry_of(constraints: &[Constraint], region: Region) -> Option<&Constraint>
    ensures entry { MatchOption result ((b : Region) → table_leads constraints.now region b ≡ region_eq region b)
        (λ c. (b : Region) → table_leads constraints.now region b ≡ entry_leads c.now b) }
    ensures longer { IfSome result (λ c. c.now.longer ≡ region) }
{
    for constraint in constraints {
        if constraint.longer == region {
            return Some(constraint);
        }
    }
    None
}

/// Returns true if the constraints record that region `longer` outlives region `shorter`.
fn is_known(constraints: &[Constraint], longer: Region, shorter: Region) -> bool
    ensures { result ≡ table_leads constraints.now longer shorter }
{
    match entry_of(constraints, longer) {
        Some(constraint) => constraint.leads_to(shorter),
        None => longer == shorter,
    }
}

/// Returns a list of the given region and all regions that it outlives.
fn all_below(
    alloc: Global,
    constraints: &[Constraint],
    region: Region,
) -> Result<SmallVec<Region, 5>, AllocError>
    ensures { IfOk result (λ below. (b : Region) → is_region_among b below.items ≡ table_leads constraints.now region b) }
{
    let mut below = match entry_of(constraints, region) {
        Some(constraint) => SmallVec::from_slice(alloc, constraint.outlived.as_slice())?,
        None => SmallVec::new(alloc),
    };
    below.push(region)?;
    Ok(below)
}

/// Adds all regions of `below` to the outlived regions of each constraint whose longer-lived region outlives `via`.
fn extend_all(
    constraints: &mut [Constraint],
    via: Region,
    below: &[Region],
) -> Result<(), AllocError>
    requires { IsTrue (has_entry constraints.old via) }
    ensures written { OnOk result (written_in constraints.new ≡ written_in constraints.old) }
    ensures leads { OnOk result ((a b : Region) → table_leads constraints.new a b
        ≡ (table_leads constraints.old a b || (table_leads constraints.old a via && is_region_among b below.now))) }
{
    for constraint in constraints.iter_mut() {
        constraint.extend(via, below)?;
    }
    Ok(())
}

/// Returns the constraints as written in the source; no constraint records an outlived region yet.
fn unclosed(alloc: Global, written: &[(Region, Region)]) -> Result<Vec<Constraint>, AllocError>
    ensures written { IfOk result (λ constraints. written_in constraints.items ≡ written.now) }
    ensures leads { IfOk result (λ constraints. (a b : Region) → table_leads constraints.items a b ≡ region_eq a b) }
{
    let mut constraints = Vec::new(alloc);
    for pair in written {
        let entry = Constraint::new(alloc, pair.0, pair.1);
        constraints.push(entry)?;
    }
    Ok(constraints)
}

/// Returns the constraints, closed under transitivity: each constraint records all regions that its longer-lived region outlives.
pub(crate) fn closed(
    alloc: Global,
    written: &[(Region, Region)],
) -> Result<Vec<Constraint>, AllocError>
    ensures written { IfOk result (λ constraints. written_in constraints.items ≡ written.now) }
    ensures closed { IfOk result (λ constraints. IsClosed constraints.items) }
{
    let mut constraints = unclosed(alloc, written)?;
    for i in (0..written.len()).rev() {
        let (longer, shorter) = written[i];
        // the earlier constraints already imply this outlives constraint, so the loop adds no region to the recorded outlived regions
        if is_known(&constraints, longer, shorter) {
            continue;
        }
        let below = all_below(alloc, &constraints, shorter)?;
        extend_all(&mut constraints, longer, &below)?;
    }
    Ok(constraints)
}
