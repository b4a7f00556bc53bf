//! A list of regions with constant-time membership.

use crate::Region;
use crate::name_set::{grow, mark};
use std::alloc::{AllocError, Global};
use std::marker::Model;

/// A list of regions. Contracts see this list as the regions in order.
#[derive(Drop)]
pub struct RegionList {
    regions: Vec<Region>,
    has_heap: bool,
    has_unique: bool,
    /// For each region variable, true if the region variable is in the list.
    marks: Vec<bool>,
}

impl Model for RegionList {
    ghost use Rattle.std.specs.Prelude.{◌≡◌, List};
    ghost use Rattle.cyc_types.specs.declared.region.Region.{Region};
    ghost use Rattle.cyc_types.specs.Types.{is_region_among};
    ghost use Rattle.cyc_types.specs.inside.RegionMarks.{is_marked};

    ghost Value = { List Region };

    ghost view = { λ l. l.regions.items };

    ghost invariant = { λ l. (r : Region) → is_marked l.has_heap l.has_unique l.marks.items r ≡ is_region_among r l.regions.items };
}

impl RegionList {
    ghost use Rattle.std.specs.Prelude.{◌≡◌, [], ◌∷◌, ◌++◌, IfOk, OnOk};
    ghost use Rattle.cyc_types.specs.Types.{is_region_among};

    pub(crate) fn new(alloc: Global) -> RegionList
        ensures { result ≡ [] }
    {
        RegionList {
            regions: Vec::new(alloc),
            has_heap: false,
            has_unique: false,
            marks: Vec::new(alloc),
        }
    }

    /// Returns the list of the given regions, with a flag for each region in it.
    pub(crate) fn from_slice(alloc: Global, regions: &[Region]) -> Result<RegionList, AllocError>
        ensures { IfOk result (λ list. list ≡ regions.now) }
    {
        let mut list = RegionList::new(alloc);
        for region in regions {
            list.push(*region)?;
        }
        Ok(list)
    }

    pub(crate) fn as_slice(&self) -> &[Region]
        ensures { result.now ≡ self.now }
    {
        &self.regions
    }

    /// Returns true if the region is in the list.
    pub(crate) fn has(&self, region: Region) -> bool
        ensures { result ≡ is_region_among region self.now }
    {
        match region {
            Region::Heap => self.has_heap,
            Region::Unique => self.has_unique,
            Region::Variable(number) => match self.marks.get(number) {
                Some(mark) => *mark,
                None => false,
            },
        }
    }

    /// Adds a region at the end of the list.
    pub(crate) fn push(&mut self, region: Region) -> Result<(), AllocError>
        ensures { OnOk result (self.new ≡ self.old ++ region ∷ []) }
    {
        if let Region::Variable(number) = region {
            grow(&mut self.marks, number)?;
        }
        self.regions.push(region)?;
        match region {
            Region::Heap => self.has_heap = true,
            Region::Unique => self.has_unique = true,
            Region::Variable(number) => mark(&mut self.marks, number),
        }
        Ok(())
    }
}
