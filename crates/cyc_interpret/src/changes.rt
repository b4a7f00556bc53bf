//! What is done to regions and objects.

ghost use Rattle.std.specs.Prelude.{◌≡◌, ◌<◌, ◌≤◌, ◌+◌, false, ◌∷◌, ◌++◌, ℕ, [], IfOk, OnOk, OnErr, Some, drop, if◌then◌else◌, map, nat_le, option_map, slice_get, true};
ghost use Rattle.cyc_meaning.specs.State as meaning;
ghost use Rattle.cyc_meaning.specs.State.{has_pages, cell_at, opened_as, closed, written, made, variable};
ghost use Rattle.cyc_meaning.specs.Objects.{made_in, made_unique, created, freed};
ghost use Rattle.cyc_meaning.specs.inside.Effects.{pages_in};
ghost use Rattle.cyc_interpret.specs.WorldView.{view_value, view_sort, view_region, view_owner, view_cell};
ghost use Rattle.cyc_interpret.specs.View.{view_world};
ghost use Rattle.cyc_interpret.specs.inside.Found.{IsCreated};

use crate::found::Reached;
use crate::objects::{Cell, Object, Owner, Region, Sort};
use crate::sizes::{block_size, class_of, pages_for};
use crate::value::Value;
use crate::world::World;
use cyc_types::typed::Kind;
use std::alloc::{AllocError, Global};

/// The words of a page of the store.
const PAGE_WORDS: u128 = 1024;

/// A count that grows. One that 128 bits do not hold would be of more pages than memory has words.
fn counted(count: u128, more: u128) -> Result<u128, AllocError>
    ensures { IfOk result (λ sum. sum ≡ count + more) }
{
    match count.checked_add(more) {
        Some(sum) => Ok(sum),
        None => Err(AllocError),
    }
}

// ---- the pages of a region

/// Returns true if the store keeps pages for a region of a sort.
fn has_pages(sort: Sort, is_open: bool) -> bool
    ensures { result ≡ has_pages (view_sort sort) is_open }
{
    match sort {
        Sort::Heap => true,
        Sort::Globals | Sort::Stack => false,
        Sort::Lexical | Sort::Dynamic => is_open,
    }
}

impl Region {
    /// A region that nothing was made in yet.
    pub(crate) fn new(alloc: Global, sort: Sort) -> Region
        ensures { view_region result ≡ meaning.new_region (view_sort sort) }
    {
        Region {
            sort,
            is_open: true,
            blocks: Vec::new(alloc),
            pages: 1,
            filled: 0,
        }
    }

    /// The pages that the store keeps for it.
    #[tactic(auto, using(crate::proofs::Pages::held_is))]
    fn held(&self) -> u128
        ensures { result ≡ pages_in (view_region self.now) }
    {
        if has_pages(self.sort, self.is_open) {
            self.pages
        } else {
            0
        }
    }

    /// Returns true if a block of so many words fits the rest of the last page.
    fn fits(&self, size: u128) -> bool
        ensures { result ≡ nat_le (self.now.filled + size) 1024 }
    {
        size <= PAGE_WORDS && self.filled <= PAGE_WORDS - size
    }

    /// How many pages more it has with a block of so many words more.
    #[tactic(auto, using(crate::proofs::Pages::grows, crate::proofs::Pages::fits_in, crate::proofs::Pages::keeps_none))]
    fn growth(&self, size: u128) -> u128
        ensures { pages_in (record (view_region self.now) { blocks = (view_region self.now).blocks ++ size ∷ [] }) ≡ pages_in (view_region self.now) + result }
    {
        if has_pages(self.sort, self.is_open) {
            if self.fits(size) { 0 } else { 1 }
        } else {
            0
        }
    }

    /// A block of so many words is made in it.
    fn add(&mut self, size: u128) -> Result<(), AllocError>
        ensures added { OnOk result (view_region self.new ≡ record (view_region self.old) { blocks = (view_region self.old).blocks ++ size ∷ [] }) }
        ensures same { OnErr result (view_region self.new ≡ view_region self.old) }
    {
        if self.fits(size) {
            self.blocks.push(size)?;
            self.filled += size;
        } else {
            let pages = counted(self.pages, 1)?;
            self.blocks.push(size)?;
            self.pages = pages;
            self.filled = size;
        }
        Ok(())
    }
}

impl Region {
    /// It is closed for good. Returns how many pages the store gets back.
    fn close(&mut self) -> u128
        ensures closed { view_region self.new ≡ record (view_region self.old) { is_open = false } }
        ensures pages { pages_in (view_region self.new) + result ≡ pages_in (view_region self.old) }
    {
        let held = self.held();
        self.is_open = false;
        held - self.held()
    }
}

// ---- regions

impl World {
    /// A region of this sort more, with the next number.
    pub(crate) fn open(&mut self, alloc: Global, sort: Sort) -> Result<(), AllocError>
        ensures { OnOk result (view_world self.new ≡ opened_as (view_sort sort) (view_world self.old)) }
    {
        let region = Region::new(alloc, sort);
        let pages = counted(self.pages, region.held())?;
        self.regions.push(region)?;
        self.pages = pages;
        self.made = self.made.saturating_add(1);
        Ok(())
    }

    /// A region that is open is closed for good.
    pub(crate) fn close(&mut self, number: usize)
        requires { option_map (λ r. r.is_open) (slice_get (view_world self.old).regions number) ≡ Some true }
        ensures { (r : meaning.Region) → slice_get (view_world self.old).regions number ≡ Some r → view_world self.new ≡ closed (view_world self.old) number r }
    {
        let freed = self.regions[number].close();
        self.pages -= freed;
    }
}

// ---- objects

impl World {
    /// A cell that is there holds this value.
    pub(crate) fn write(&mut self, object: usize, offset: usize, value: Value)
        requires { (at : meaning.Located) × (cell_at (view_world self.old) object offset ≡ meaning.Found at) }
        ensures { (at : meaning.Located) → cell_at (view_world self.old) object offset ≡ meaning.Found at → view_world self.new ≡ written (view_world self.old) object offset at (view_value value) }
    {
        self.objects[object].cells[offset].content = Some(value);
    }

    /// A variable is an object of one cell.
    pub(crate) fn declare(
        &mut self,
        alloc: Global,
        region: usize,
        kind: Kind,
        content: Option<Value>,
    ) -> Result<(), AllocError>
        ensures { OnOk result (view_world self.new ≡ made (view_world self.old) (variable region kind (option_map view_value content))) }
    {
        let mut cells = Vec::new(alloc);
        cells.push(Cell { kind, content })?;
        self.objects.push(Object {
            owner: Owner::InRegion { region },
            cells,
        })?;
        self.made = self.made.saturating_add(2);
        Ok(())
    }

    /// A new object with the next number, for this owner.
    pub(crate) fn create(&mut self, owner: Owner, cells: Vec<Cell>) -> Result<Reached, AllocError>
        ensures { IfOk result (λ reached. IsCreated reached (view_world self.old) (view_world self.new) (created (view_world self.old) (view_owner owner) (map view_cell cells.items))) }
    {
        self.made = self
            .made
            .saturating_add(1)
            .saturating_add(cells.len() as u64);
        match owner {
            Owner::Unique { live: true } => {
                self.create_unique(cells)?;
                Ok(Reached::Found)
            }
            Owner::Unique { live: false } => Ok(Reached::Missing),
            Owner::InRegion { region } => match self.is_open(region) {
                None => Ok(Reached::Missing),
                Some(false) => Ok(Reached::Closed),
                Some(true) => {
                    self.create_in(region, cells)?;
                    Ok(Reached::Found)
                }
            },
        }
    }

    /// An object in a region that is open is a block of its size after the others.
    fn create_in(&mut self, region: usize, cells: Vec<Cell>) -> Result<(), AllocError>
        requires { option_map (λ r. r.is_open) (slice_get (view_world self.old).regions region) ≡ Some true }
        ensures { OnOk result ((r : meaning.Region) → slice_get (view_world self.old).regions region ≡ Some r → view_world self.new ≡ made_in (view_world self.old) region r (map view_cell cells.items)) }
    {
        let size = block_size(&cells);
        let pages = counted(self.pages, self.regions[region].growth(size))?;
        self.objects.push(Object {
            owner: Owner::InRegion { region },
            cells,
        })?;
        self.regions[region].add(size)?;
        self.pages = pages;
        Ok(())
    }

    /// A unique object counts among those of its class, whose pages never fall.
    fn create_unique(&mut self, cells: Vec<Cell>) -> Result<(), AllocError>
        ensures { OnOk result (view_world self.new ≡ made_unique (view_world self.old) (map view_cell cells.items)) }
    {
        let class = class_of(block_size(&cells));
        let live = self.live[class as usize] + 1;
        let wanted = pages_for(class, live);
        let held = self.classes[class as usize];
        let raised = held.max(wanted);
        let pages = counted(self.pages - held, raised)?;
        self.objects.push(Object {
            owner: Owner::Unique { live: true },
            cells,
        })?;
        self.live[class as usize] = live;
        self.classes[class as usize] = raised;
        self.pages = pages;
        Ok(())
    }

    /// A unique object that is live is given back.
    pub(crate) fn free(&mut self, number: usize)
        requires { option_map (λ x. x.owner) (slice_get (view_world self.old).objects number) ≡ Some (meaning.Unique true) }
        ensures { (x : meaning.Object) → slice_get (view_world self.old).objects number ≡ Some x → view_world self.new ≡ freed (view_world self.old) number x }
    {
        let object = &mut self.objects[number];
        let class = class_of(block_size(&object.cells));
        object.owner = Owner::Unique { live: false };
        self.live[class as usize] -= 1;
    }
}

// ---- devices

impl World {
    pub(crate) fn print(&mut self, byte: u8) -> Result<(), AllocError>
        ensures { OnOk result (view_world self.new ≡ record (view_world self.old) { output = (view_world self.old).output ++ byte ∷ [] }) }
    {
        self.output.push(byte)?;
        Ok(())
    }

    /// The next byte of the input, if there is one.
    pub(crate) fn take(&mut self) -> Option<u8>
        ensures byte { result ≡ slice_get (view_world self.old).input 0 }
        ensures rest { view_world self.new ≡ record (view_world self.old) { input = drop 1 (view_world self.old).input } }
    {
        match self.input.get(self.read) {
            None => None,
            Some(byte) => {
                let byte = *byte;
                self.read += 1;
                Some(byte)
            }
        }
    }
}
