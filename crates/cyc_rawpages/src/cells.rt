//! One block of memory as a sequence of cells for words. All code of the crate with raw pointers is in this file.

ghost use Rattle.std.specs.Prelude.{◌≡◌, ℕ, ◌<◌, ◌≤◌, ◌^◌, List, Option, None, Some, IfSome, length, replicate, get_or, slice_set};
ghost use denote.RawPtr.{Ptr};
ghost use Rattle.cyc_rawpages.specs.inside.Ownership.{places_at, lent_at, words_type, IsFilled};

use std::alloc::Allocator;
use std::marker::{Model, PhantomData};

/// The start address of a block, without ownership of the block's memory.
#[derive(Clone, Copy)]
pub(crate) struct Start {
    at: *mut u32,
}

/// The ownership of a block's cells, as a value of size 0.
pub(crate) struct Cells {
    ghost at: { Ptr },
    ghost slots: { List (Option ℕ) },
    ghost few: { length slots < 2 ^ 32 },
}

impl Model for Cells {
    ghost also_owns = { λ c. places_at c.at c.slots };

    ghost also_shares = { λ c _ κ. lent_at c.at c.slots κ };
}

/// The right to free a block with the given number of words, as a value of size 0.
pub(crate) struct Lease<A: Allocator> {
    by: PhantomData<A>,
    ghost alloc: { A },
    ghost at: { Ptr },
    ghost count: { ℕ },
}

impl<A: Allocator> Model for Lease<A> {
    ghost also_owns = { λ l. A.dealloc_token l.alloc (words_type l.count) l.at };
}

/// Allocates a block of `count` words, none of which is initialised.
pub(crate) fn acquire<A: Allocator>(alloc: &A, count: usize) -> Option<(Start, Cells, Lease<A>)>
    requires { count < 2 ^ 32 }
    ensures { IfSome result (λ t. (t.1.at ≡ t.0.at) × (t.1.slots ≡ replicate count None) × (t.2.at ≡ t.0.at) × (t.2.count ≡ count) × (t.2.alloc ≡ alloc.now)) }
{
    match alloc.allocate(count * 4, 4) {
        Ok(block) => {
            let at = block as *mut u32;
            let by = PhantomData;
            Some((Start { at }, Cells {}, Lease { by }))
        }
        Err(_) => None,
    }
}

/// Frees a block of `count` words, whose ownership the caller gives up.
pub(crate) fn release<A: Allocator>(
    alloc: &A,
    start: Start,
    count: usize,
    cells: Cells,
    lease: Lease<A>,
)
    requires { (cells.at ≡ start.at) × (length cells.slots ≡ count) × (lease.at ≡ start.at) × (lease.count ≡ count) × (lease.alloc ≡ alloc.now) }
{
    let Cells {} = cells;
    let Lease { by: _ } = lease;
    unsafe { alloc.deallocate(start.at as *mut u8, count * 4, 4) }
}

impl Cells {
    /// Returns the word in a cell; the cell must contain a word.
    pub(crate) fn read(&self, start: Start, index: usize) -> u32
        requires { (start.at ≡ self.now.at) × IsFilled self.now.slots index }
        ensures { get_or self.now.slots index None ≡ Some result }
    {
        unsafe { start.at.add(index).read() }
    }

    /// Writes a word.
    pub(crate) fn write(&mut self, start: Start, index: usize, word: u32)
        requires { (start.at ≡ self.old.at) × (index < length self.old.slots) }
        ensures { (self.new.at ≡ self.old.at) × (self.new.slots ≡ slice_set self.old.slots index (Some word)) }
    {
        unsafe { start.at.add(index).write(word) }
    }
}
