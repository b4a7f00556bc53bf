//! The live regions and the outlives relation of a scope. Regions that are live in a function's whole body are recognised by their numbers.
ghost use Rattle.std.specs.Prelude.{◌∷◌};
ghost use Rattle.cyc_types.specs.declared.region.Region.TheVariants.{Heap, Unique};
ghost use Rattle.cyc_scope.specs.inside.Throughout.{AreThroughout};

use crate::stop::Stop;
use cyc_types::{Kind, Outlives, Region};
use std::alloc::{AllocError, Global};
use std::marker::Model;

/// Returns the largest number n such that the effect (a list of regions) begins with the region variables 1 to n in ascending order.
fn count_of(effect: &[Region]) -> usize
    ensures { AreThroughout (Heap ∷ Unique ∷ effect.now) result }
{
    for i in 0..effect.len() {
        if effect[i] != Region::Variable(i + 1) {
            return i;
        }
    }
    effect.len()
}

/// The outlives relation between regions at one point of a function's body. Contracts see only the outlives relation, not its tables.
#[derive(Drop)]
pub(crate) struct Regions {
    outlives: Outlives,
    /// The region variables from number 1 to `throughout` are live in the whole body, as the heap is.
    throughout: usize,
}

impl Model for Regions {
    ghost use Rattle.cyc_types.specs.Outlives.{RegionContext};
    ghost use Rattle.cyc_scope.specs.inside.Throughout.{AreThroughout};

    ghost Value = { RegionContext };

    ghost view = { λ r. r.outlives };

    ghost invariant = { λ r. AreThroughout r.outlives.live r.throughout };
}

impl Regions {
    ghost use Rattle.std.specs.Prelude.{◌≡◌, ◌-◌, [], ◌∷◌, drop, length, IfOk, OnOk, IfErr};
    ghost use Rattle.cyc_types.specs.declared.region.Region.TheVariants.{Heap, Unique};
    ghost use Rattle.cyc_types.specs.Outlives.{live_regions};
    ghost use Rattle.cyc_types.specs.Closure.{is_outliving};
    ghost use Rattle.cyc_types.specs.Types.{is_region_among};
    ghost use Rattle.cyc_scope.specs.declared.stop.Stop.TheVariants.{Memory};

    /// Returns the region context before any scope opens; the heap, the unique region and the regions of the effect are live.
    pub(crate) fn new(
        alloc: Global,
        written: &[(Region, Region)],
        effect: &[Region],
    ) -> Result<Regions, Stop>
        ensures regions { IfOk result (λ r. r ≡ record { written = written.now; live = Heap ∷ Unique ∷ effect.now; opened = [] }) }
        ensures memory { IfErr result (λ e. e ≡ Memory) }
    {
        let mut live = Vec::new(alloc);
        live.push(Region::Heap)?;
        live.push(Region::Unique)?;
        live.extend_from_slice(effect)?;
        Ok(Regions {
            outlives: Outlives::new(alloc, written, &live)?,
            throughout: count_of(effect),
        })
    }

    /// Returns true if the region is live at the current point.
    #[tactic(auto, using(crate::proofs::ThroughoutLemmas::live_throughout, crate::proofs::ThroughoutLemmas::heap_throughout))]
    pub(crate) fn is_live(&self, region: Region) -> bool
        ensures { result ≡ is_region_among region (live_regions self.now.live self.now.opened) }
    {
        match region {
            Region::Heap => true,
            Region::Variable(number) if number != 0 && number <= self.throughout => true,
            Region::Unique | Region::Variable(_) => self.outlives.is_live(region),
        }
    }

    /// Returns true if region `a` outlives region `b`.
    pub(crate) fn outlives(&self, a: Region, b: Region) -> bool
        ensures { result ≡ is_outliving self.now a b }
    {
        self.outlives.outlives(a, b)
    }

    /// Returns the number of open scopes.
    pub(crate) fn len(&self) -> usize
        ensures { result ≡ length self.now.opened }
    {
        self.outlives.len()
    }

    /// Opens a scope.
    pub(crate) fn open_scope(&mut self, region: Region, kind: Kind) -> Result<(), AllocError>
        ensures opened { OnOk result (self.new ≡ record self.old { opened = record { region = region; kind = kind } ∷ self.old.opened }) }
    {
        self.outlives.open_scope(region, kind)
    }

    /// Closes all open scopes except the `count` oldest.
    pub(crate) fn close(&mut self, count: usize)
        ensures { self.new ≡ record self.old { opened = drop (length self.old.opened - count) self.old.opened } }
    {
        self.outlives.close(count)
    }
}
