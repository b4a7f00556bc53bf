//! The outlives relation between regions, computed from the constraints of a function and the open scopes.
ghost use Rattle.std.specs.Prelude.{◌≡◌, ◌≢◌, ◌↔◌, ◌||◌, ◌-◌, [], ◌∷◌, reverse, drop, IsTrue, IfOk, OnOk, OnErr, length, ◌<◌};
ghost use Rattle.std.specs.List.{list_any};
ghost use Rattle.std.specs.Option.{ForSome};
ghost use Rattle.cyc_types.specs.declared.scope.Scope.{Scope};
ghost use Rattle.cyc_types.specs.Outlives.{OutlivesIn, live_regions, is_outlived_by_live};
ghost use Rattle.cyc_types.specs.Types.{region_eq, is_region_among};
ghost use Rattle.cyc_types.specs.Closure.{HasNoUnique, IsClosed, above, above_one_of, above_one_opened, context_of, is_outliving, is_above_known};
ghost use Rattle.cyc_types.specs.Closure.{leads, written_in};

use crate::Region;
use crate::constraint_table::{ConstraintTable, table_leads};
use crate::constraints::closed;
use crate::openings::{is_live_before, leads_in_order, opens_in_order};
use crate::region_list::RegionList;
use crate::scope::{Kind, Scope, is_outlived_by_live};
use std::alloc::{AllocError, Global};
use std::marker::Model;

/// The outlives relation of a function at one point of its body. The relation is computed from the written constraints, the regions
/// that are live before any scope opens, and the open scopes.
///
/// The heap outlives every region except the unique region. A region that is live when a block or a lexical scope opens outlives the
/// new scope's region. Opening a dynamic or an alias region adds no pair to the outlives relation. The unique region is related to no
/// other region. Queries of the outlives relation do not allocate.
#[derive(Drop)]
pub struct Outlives {
    constraints: ConstraintTable,
    live: RegionList,
    /// The scopes that are open, oldest first.
    scopes: Vec<Scope>,
    /// For each region variable with an open scope, the index of the oldest open scope of this region variable. Entries of
    /// region variables without an open scope are meaningless.
    openings: Vec<usize>,
    /// The number of oldest scopes for which the table `openings` is correct. For these oldest scopes, `openings` decides
    /// which regions are live and which regions outlive each other.
    in_order: usize,
}

impl Model for Outlives {
    ghost use Rattle.cyc_types.specs.Outlives.{RegionContext};
    ghost use Rattle.cyc_types.specs.Closure.{IsClosed, context_of, written_in};
    ghost use Rattle.cyc_types.specs.inside.Openings.{IsInOrder};

    ghost Value = { RegionContext };

    ghost view = { λ o. context_of o.constraints o.live o.scopes.items };

    ghost invariant = { λ o. IsClosed o.constraints × IsInOrder (written_in o.constraints) o.live o.openings.items o.scopes.items o.in_order };
}

impl Outlives {
    /// Returns the outlives relation without open scopes. The first region of each pair of `written` outlives the second; `live` lists
    /// the regions that are live at the start.
    pub fn new(
        alloc: Global,
        written: &[(Region, Region)],
        live: &[Region],
    ) -> Result<Outlives, AllocError>
        ensures written { IfOk result (λ outlives. outlives.written ≡ written.now) }
        ensures live { IfOk result (λ outlives. outlives.live ≡ live.now) }
        ensures opened { IfOk result (λ outlives. outlives.opened ≡ []) }
    {
        Ok(Outlives {
            constraints: ConstraintTable::new(alloc, closed(alloc, written)?)?,
            live: RegionList::from_slice(alloc, live)?,
            scopes: Vec::new(alloc),
            openings: Vec::new(alloc),
            in_order: 0,
        })
    }

    /// Returns true if region `a` outlives region `b`.
    pub fn outlives(&self, a: Region, b: Region) -> bool
        ensures tested { result ≡ is_outliving self.now a b }
        // If the unique region occurs neither in the constraints nor in the scopes, this method returns true exactly if
        // region `a` outlives region `b`.
        ensures related { HasNoUnique self.now → (IsTrue result ↔ OutlivesIn self.now a b) }
    {
        self.is_outliving(a, b)
    }

    /// Returns true if the region is live at the current point of the function's body.
    #[tactic(auto, using(crate::proofs::SearchLemmas::live_among))]
    pub fn is_live(&self, region: Region) -> bool
        ensures { result ≡ is_region_among region (live_regions self.now.live self.now.opened) }
    {
        if self.in_order == self.scopes.len() {
            return is_live_before(
                &self.live,
                &self.openings,
                &self.scopes,
                self.in_order,
                region,
            );
        }
        self.live.has(region) || is_opened(&self.scopes, region)
    }

    /// Returns the number of open scopes.
    pub fn len(&self) -> usize
        ensures { result ≡ length self.now.opened }
    {
        self.scopes.len()
    }

    /// Opens a scope. The scope's region is live until the scope is closed. The scope's region may occur in constraints or already be
    /// live, as the region of a key may.
    pub fn open_scope(&mut self, region: Region, kind: Kind) -> Result<(), AllocError>
        ensures opened { OnOk result (self.new ≡ record self.old { opened = record { region = region; kind = kind } ∷ self.old.opened }) }
        ensures unchanged { OnErr result (self.new ≡ self.old) }
    {
        let scope = Scope { region, kind };
        let is_next = opens_in_order(
            &self.constraints,
            &self.live,
            &mut self.openings,
            &self.scopes,
            self.in_order,
            scope,
        )?;
        self.scopes.push(scope)?;
        if is_next {
            self.in_order = self.scopes.len();
        }
        Ok(())
    }

    /// Closes the newest open scope.
    pub fn close_scope(&mut self)
        requires { self.old.opened ≢ [] }
        ensures context { (scope : Scope) × (self.old ≡ record self.new { opened = scope ∷ self.new.opened }) }
    {
        let _ = self.scopes.pop();
        self.in_order = self.in_order.min(self.scopes.len());
    }

    /// Closes all open scopes except the `count` oldest.
    #[tactic(auto, using(cyc_words::proofs::Lists::reverse_take))]
    pub fn close(&mut self, count: usize)
        ensures { self.new ≡ record self.old { opened = drop (length self.old.opened - count) self.old.opened } }
    {
        self.scopes.truncate(count);
        self.in_order = self.in_order.min(self.scopes.len());
    }

    /// Returns true if `a` outlives `b` by the constraints and the scopes, or if `a` outlives the heap.
    fn is_outliving(&self, a: Region, b: Region) -> bool
        ensures { result ≡ is_outliving self.now a b }
    {
        if a == b {
            return true;
        }
        b != Region::Unique && (self.leads(a, b) || self.leads(a, Region::Heap))
    }

    /// Returns true if a path of the constraints and the open scopes leads from region `a` to region `b`.
    fn leads(&self, a: Region, b: Region) -> bool
        ensures { result ≡ leads self.now.written self.now.live self.now.opened a b }
    {
        if self.in_order == self.scopes.len() {
            return leads_in_order(
                &self.constraints,
                &self.live,
                &self.openings,
                &self.scopes,
                a,
                b,
            );
        }
        leads(&self.constraints, self.live.as_slice(), &self.scopes, a, b)
    }
}

/// Returns true if one of the scopes has the given region.
fn is_opened(scopes: &[Scope], region: Region) -> bool
    ensures { result ≡ list_any (λ s. region_eq s.region region) scopes.now }
{
    for scope in scopes {
        if scope.region == region {
            return true;
        }
    }
    false
}

/// Returns true if constraints lead from `a` to a region in the list, not counting the unique region.
fn is_above_one_of(constraints: &ConstraintTable, regions: &[Region], a: Region) -> bool
    requires { IsClosed constraints.now }
    ensures { result ≡ above_one_of (written_in constraints.now) regions.now a }
{
    for region in regions {
        if *region != Region::Unique && table_leads(constraints, a, *region) {
            return true;
        }
    }
    false
}

/// Returns true if constraints lead from `a` to the region of a scope in the list, not counting the unique region.
fn is_above_one_opened(constraints: &ConstraintTable, scopes: &[Scope], a: Region) -> bool
    requires { IsClosed constraints.now }
    ensures { result ≡ above_one_opened (written_in constraints.now) scopes.now a }
{
    for scope in scopes {
        if scope.region != Region::Unique && table_leads(constraints, a, scope.region) {
            return true;
        }
    }
    false
}

/// Returns true if constraints lead from `a` to a region that is live while the given scopes are open.
fn is_above_live(
    constraints: &ConstraintTable,
    live: &[Region],
    scopes: &[Scope],
    a: Region,
) -> bool
    requires { IsClosed constraints.now }
    ensures { result ≡ above_one_of (written_in constraints.now) (live_regions live.now (reverse scopes.now)) a }
{
    is_above_one_of(constraints, live, a) || is_above_one_opened(constraints, scopes, a)
}

/// Returns true if a path of the constraints and the open scopes leads from region `a` to region `b`.
///
/// The scopes are visited from the oldest to the newest. Once all regions live at some scope outlive `b`, a later scope makes further
/// regions outlive `b` only if the later scope's own region outlives `b`. If a later scope's own region outlives `b`, all regions live at
/// that later scope outlive `b`.
fn leads(
    constraints: &ConstraintTable,
    live: &[Region],
    scopes: &[Scope],
    a: Region,
    b: Region,
) -> bool
    requires { IsClosed constraints.now }
    ensures { result ≡ leads (written_in constraints.now) live.now (reverse scopes.now) a b }
{
    if table_leads(constraints, a, b) {
        return true;
    }
    let mut known: Option<usize> = None;
    for i in 0..scopes.len() {
        let scope = scopes[i];
        if is_outlived_by_live(scope.kind)
            && is_known(constraints, live, scopes, known, scope.region, b)
        {
            if is_above_live(constraints, live, &scopes[..i], a) {
                return true;
            }
            known = Some(i);
        }
    }
    false
}

/// Returns true if `a` outlives `b` by the constraints or through a region live when the scope at index `known` opened. If `known`
/// is `None`, only the constraints count.
fn is_known(
    constraints: &ConstraintTable,
    live: &[Region],
    scopes: &[Scope],
    known: Option<usize>,
    a: Region,
    b: Region,
) -> bool
    requires closed { IsClosed constraints.now }
    requires known { ForSome known (λ k. k < length scopes.now) }
    ensures { result ≡ (above (written_in constraints.now) a b || is_above_known (written_in constraints.now) live.now scopes.now known a) }
{
    table_leads(constraints, a, b)
        || match known {
            Some(k) => is_above_live(constraints, live, &scopes[..k], a),
            None => false,
        }
}
