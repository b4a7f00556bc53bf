//! The effect of a call of a page table on the table's rows.

use cyc_store::Role;

/// A change that one operation makes to the rows of a page table (a row has the data of one page). The type occurs only in contracts.
#[derive(Clone, Copy)]
pub enum Step {
    /// All pages were created as free pages.
    Made(u32),
    /// The free page with the given number was allocated.
    Taken(u32),
    /// A region with the given role begins in the given page.
    Began(u32, Role),
    /// A page was added to a region, given by its first page, and the given number of the page's words was filled.
    Added(u32, u32, u32),
    /// A page was filled up to the given word.
    Filled(u32, u32),
    /// A page was split into slots of the given size class.
    Cut(u32, u32),
    /// All pages of the region with the given first page were freed.
    Closed(u32),
}
