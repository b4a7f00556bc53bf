//! The effect of a call of a pool function on the free pages of the pool and on its chains (lists of linked pages).

/// A change of the free pages of a pool and of its chains (lists of linked pages), made by one call of a pool function.
#[derive(Clone, Copy)]
pub enum Change {
    /// All pages were created; each page is free.
    Made(u32),
    /// The first free page was taken from the list of free pages.
    Taken(u32),
    /// A page was appended to the chain of linked pages with the given head (first page).
    Pushed(u32, u32),
    /// All pages of the chain of linked pages with the given head (first page) were freed.
    Given(u32),
}
