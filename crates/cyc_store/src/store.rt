//! This file defines the trait that each store implements.

ghost use Rattle.std.specs.Prelude.{◌≡◌, ◌+◌, ◌*◌, ◌<◌, ◌≤◌, Bool, IsSome, IsTrue, is_some};
ghost use Rattle.cyc_store.specs.Answers.{Responds, allocated, done_unless, opened_dynamic, opened_lexical};
ghost use Rattle.cyc_store.specs.Services.{Allocate, CloseDynamic, CloseTo, Free, OpenDynamic, OpenLexical};
ghost use Rattle.cyc_store.specs.Services as services;
ghost use Rattle.cyc_store.specs.State.{StoreState, saved, word_at};
ghost use Rattle.cyc_store.specs.declared.range.TheConstants.{STORE_BASE, PAGE_WORDS};

use super::answer::{BadHandle, BadMark, No, NotABlock};

/// A store of regions and blocks. Regions are opened and closed, blocks are allocated in them, unique blocks are freed separately, and
/// the words of live blocks are read and written.
///
/// The content of the store is its ghost member `held`. Each method changes the content as the store relation allows. The store chooses
/// the handle of a region and the address of a block. A call that is refused changes nothing in the store.
pub trait Store {
    ghost held: { Self → StoreState };

    /// True if the store may run out of memory after its creation. If a store cannot run out of memory after
    /// its creation, no call returns [`No::Memory`].
    const GROWS: bool;

    ghost GROWS: { Bool };

    /// Opens a lexical region. Returns its handle, which is new, and the number of lexical regions that were open before.
    fn open_lexical(&mut self) -> Result<(u32, u32), No>
        ensures { Responds GROWS (held self.old) OpenLexical (opened_lexical result) (held self.new) };

    /// Closes the newest lexical regions until `mark` lexical regions are open.
    fn close_to(&mut self, mark: u32) -> Result<(), BadMark>
        ensures { Responds GROWS (held self.old) (CloseTo mark) (done_unless services.BadMark result) (held self.new) };

    /// Opens a dynamic region. Returns the region's handle, which is new.
    fn open_dynamic(&mut self) -> Result<u32, No>
        ensures { Responds GROWS (held self.old) OpenDynamic (opened_dynamic result) (held self.new) };

    /// Closes the dynamic region with this handle.
    fn close_dynamic(&mut self, handle: u32) -> Result<(), BadHandle>
        ensures { Responds GROWS (held self.old) (CloseDynamic handle) (done_unless services.BadHandle result) (held self.new) };

    /// Allocates a block of this many words, with arbitrary contents, in the region with this handle, and returns the address of the block.
    /// In the unique region the block has the size of its class, which is the least power of two that is at least the requested size.
    fn alloc(&mut self, handle: u32, words: u32) -> Result<u32, No>
        ensures { Responds GROWS (held self.old) (Allocate handle words) (allocated result) (held self.new) };

    /// Frees the live unique block that begins at this address.
    fn free(&mut self, address: u32) -> Result<(), NotABlock>
        ensures { Responds GROWS (held self.old) (Free address) (done_unless services.NotABlock result) (held self.new) };

    /// Returns the word at an address, if the address is that of a word in a live block; each word of a live block lies in the
    /// store's pages.
    fn load(&self, address: u32) -> Option<u32>
        ensures word { result ≡ word_at (held self.now) address }
        ensures inside { IsSome result → (STORE_BASE ≤ address) × (address < STORE_BASE + 4 * (PAGE_WORDS * (held self.now).pages)) };

    /// Writes a word of a live block; each word of a live block lies in the store's pages. Returns false, and changes nothing, if the
    /// address is not in a live block.
    fn save(&mut self, address: u32, word: u32) -> bool
        ensures done { result ≡ is_some (word_at (held self.old) address) }
        ensures inside { IsTrue result → (STORE_BASE ≤ address) × (address < STORE_BASE + 4 * (PAGE_WORDS * (held self.old).pages)) }
        ensures saved { held self.new ≡ saved (held self.old) address word };
}
