//! Counts the pages of a store that are in use.

ghost use Rattle.std.specs.Prelude.{◌≡◌, ◌+◌, ◌-◌, ◌<◌, ◌≤◌, IfOk, length, replicate, set, slice_index};

use std::alloc::{AllocError, Global};
use std::marker::Model;

/// The number of pages in use, and for each region its number of pages. Closing a region accesses only one of its pages, although all of
/// its pages are freed.
#[derive(Drop)]
pub(crate) struct Usage {
    /// For each page, the number of pages of the region that begins in that page.
    regions: Vec<u32>,
    /// The number of pages in use: those of regions, and those split into slots.
    pages: u32,
}

impl Model for Usage {
    ghost use Rattle.cyc_pagestore.specs.inside.Usage.{Counts};

    ghost Value = { Counts };

    ghost view = { λ u. record { regions = u.regions.items; pages = u.pages } };
}

impl Usage {
    /// Returns the counts of pages in use of a new store, in which the heap is open in the first page.
    pub(crate) fn new(alloc: Global, pages: u32) -> Result<Usage, AllocError>
        requires { 1 ≤ pages }
        ensures { IfOk result (λ u. u ≡ record { regions = set (replicate pages 0) 0 1; pages = 1 }) }
    {
        let mut regions = vec![in alloc; 0; pages as usize]?;
        regions[0] = 1;
        Ok(Usage { regions, pages: 1 })
    }

    /// Returns the number of pages in use.
    pub(crate) fn pages(&self) -> u32
        ensures { result ≡ self.now.pages }
    {
        self.pages
    }

    /// Notes in the counts of pages in use that a region was opened in the given page.
    pub(crate) fn note_opened(&mut self, page: u32)
        requires there { page < length self.old.regions }
        requires few { self.old.pages < 65536 }
        ensures { self.new ≡ record { regions = set self.old.regions page 1; pages = self.old.pages + 1 } }
    {
        self.regions[page as usize] = 1;
        self.pages += 1;
    }

    /// Notes in the counts of pages in use that a page was added to the region whose first page is `root`.
    pub(crate) fn note_added(&mut self, root: u32)
        requires there { root < length self.old.regions }
        requires few { self.old.pages < 65536 }
        requires some { slice_index self.old.regions root ≤ self.old.pages }
        ensures { self.new ≡ record { regions = set self.old.regions root (slice_index self.old.regions root + 1); pages = self.old.pages + 1 } }
    {
        self.regions[root as usize] += 1;
        self.pages += 1;
    }

    /// Notes in the counts of pages in use that a page was split into slots.
    pub(crate) fn note_cut(&mut self)
        requires { self.old.pages < 65536 }
        ensures { self.new ≡ record self.old { pages = self.old.pages + 1 } }
    {
        self.pages += 1;
    }

    /// Notes in the counts of pages in use that the region whose first page is `root` was closed.
    pub(crate) fn note_closed(&mut self, root: u32)
        requires there { root < length self.old.regions }
        requires some { slice_index self.old.regions root ≤ self.old.pages }
        ensures { self.new ≡ record self.old { pages = self.old.pages - slice_index self.old.regions root } }
    {
        self.pages -= self.regions[root as usize];
    }
}
