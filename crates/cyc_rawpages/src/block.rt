//! A block of words, which contracts see as lists. Raw pointers occur only in the module `cells`.

ghost use Rattle.std.specs.Prelude.{◌≡◌, ℕ, ◌+◌, ◌<◌, ◌≤◌, ◌^◌, None, Some, IfOk, get_or, length, replicate, slice_index, slice_set};
ghost use Rattle.cyc_rawpages.specs.inside.Words.{headed, headed_all};

use super::cells::{Cells, Lease, Start, acquire, release};
use std::alloc::{AllocError, Global};
use std::marker::Model;

/// The number of words, counted from the written one on, that become initialised when an uninitialised word is written, unless the block
/// ends earlier.
const STRETCH: usize = 1024;

/// One block of memory with `heads` header words at its start, followed by `words` further words. Dropping the struct frees the block.
///
/// The header words at the start of a block are initialised when the block is allocated. The other words of a block are initialised up to
/// the last word that was set, and some words after it. Uninitialised words are read as 0, so the operating system provides no memory for
/// unused words.
pub struct Block {
    start: Start,
    count: usize,
    heads: usize,
    /// The number of words after the header words that are already initialised.
    made: usize,
    cells: Cells,
    lease: Lease<Global>,
    alloc: Global,
}

impl Model for Block {
    ghost use Rattle.cyc_rawpages.specs.inside.Words.{Parts, parts_of, IsBlock};

    ghost Value = { Parts };

    ghost view = { λ b. parts_of b.heads b.made b.cells.slots };

    ghost invariant = { λ b. IsBlock b.start b.count b.heads b.made b.cells b.lease b.alloc };
}

/// Writes 0 to each cell from index `from` up to index `to`, exclusive.
#[inline(never)]
fn clear(cells: &mut Cells, start: Start, from: usize, to: usize)
    requires at { start.at ≡ cells.old.at }
    requires inside { (from ≤ to) × (to ≤ length cells.old.slots) }
    ensures at { cells.new.at ≡ cells.old.at }
    ensures many { length cells.new.slots ≡ length cells.old.slots }
    ensures cleared { (i : ℕ) → from ≤ i → i < to → get_or cells.new.slots i None ≡ Some 0 }
    ensures below { (i : ℕ) → i < from → get_or cells.new.slots i None ≡ get_or cells.old.slots i None }
    ensures above { (i : ℕ) → to ≤ i → get_or cells.new.slots i None ≡ get_or cells.old.slots i None }
{
    for index in from..to {
        cells.write(start, index, 0);
    }
}

impl Block {
    /// Allocates a block of header words and further words, all of which read as 0.
    pub fn new(alloc: Global, heads: usize, words: usize) -> Result<Block, AllocError>
        requires { heads + words < 2 ^ 32 }
        ensures { IfOk result (λ b. b ≡ record { heads = replicate heads 0; words = replicate words 0; made = 0 }) }
    {
        let count = heads + words;
        let Some((start, mut cells, lease)) = acquire(&alloc, count) else {
            return Err(AllocError);
        };
        clear(&mut cells, start, 0, heads);
        Ok(Block {
            start,
            count,
            heads,
            made: 0,
            cells,
            lease,
            alloc,
        })
    }

    /// Returns the header word with index `index`, one of those at the start of the block.
    #[inline]
    pub fn head(&self, index: usize) -> u32
        requires { index < length self.now.heads }
        ensures { result ≡ slice_index self.now.heads index }
    {
        self.cells.read(self.start, index)
    }

    /// Replaces the header word with index `index`, one of those at the start of the block, by `word`.
    #[inline]
    pub fn set_head(&mut self, index: usize, word: u32)
        requires { index < length self.old.heads }
        ensures { self.new ≡ headed self.old index word }
    {
        self.cells.write(self.start, index, word)
    }

    /// Writes the same word to each of `count` header words at the start of the block, from index `first` on.
    pub fn set_heads(&mut self, first: usize, count: usize, word: u32)
        requires inside { first + count ≤ length self.old.heads }
        requires few { first + count < 2 ^ 32 }
        ensures { self.new ≡ headed_all self.old first count word }
    {
        // The field `start` is loaded once, so that it is not reloaded after each write.
        let start = self.start;
        for number in 0..count {
            self.cells.write(start, first + number, word);
        }
    }

    /// Returns the number of initialised words of the block after its header words, counted from the first word after the header words.
    #[inline]
    pub fn made(&self) -> usize
        ensures is { result ≡ self.now.made }
        ensures within { result ≤ length self.now.words }
    {
        self.made
    }

    /// Writes 0 to each word that is not initialised yet among the first `count` words after the header words.
    #[inline]
    pub fn make(&mut self, count: usize)
        requires { count ≤ length self.old.words }
        ensures same { self.new ≡ record self.old { made = self.new.made } }
        ensures more { (self.old.made ≤ self.new.made) × (count ≤ self.new.made) }
    {
        if self.made < count {
            self.make_far(count);
        }
    }

    /// Writes 0 to each word that is not initialised yet among the first `count` words after the header words. At least the
    /// last of these words must not be initialised yet.
    #[cold]
    #[inline(never)]
    fn make_far(&mut self, count: usize)
        requires there { count ≤ length self.old.words }
        requires more { self.old.made < count }
        ensures { self.new ≡ record self.old { made = count } }
    {
        clear(
            &mut self.cells,
            self.start,
            self.heads + self.made,
            self.heads + count,
        );
        self.made = count;
    }

    /// Returns the word at an index, counted from the first word after the block's header words.
    #[inline]
    pub fn word(&self, index: usize) -> u32
        requires { index < length self.now.words }
        ensures { result ≡ slice_index self.now.words index }
    {
        if index < self.made {
            self.cells.read(self.start, self.heads + index)
        } else {
            0
        }
    }

    /// Writes the word at an index, counted from the first word after the block's header words.
    #[inline]
    pub fn set_word(&mut self, index: usize, word: u32)
        requires { index < length self.old.words }
        ensures set { self.new ≡ record self.old { words = slice_set self.old.words index word; made = self.new.made } }
        ensures more { self.old.made ≤ self.new.made }
    {
        if index < self.made {
            self.cells.write(self.start, self.heads + index, word)
        } else {
            self.set_far_word(index, word)
        }
    }

    /// Writes the word at an index, counted from the first word after the header words. Also writes 0 to each
    /// uninitialised word before it and to a number of words after it.
    #[cold]
    #[inline(never)]
    fn set_far_word(&mut self, index: usize, word: u32)
        requires { index < length self.old.words }
        ensures set { self.new ≡ record self.old { words = slice_set self.old.words index word; made = self.new.made } }
        ensures more { self.old.made ≤ self.new.made }
    {
        let words = self.count - self.heads;
        let made = (index + STRETCH).min(words).max(self.made);
        clear(
            &mut self.cells,
            self.start,
            self.heads + self.made,
            self.heads + made,
        );
        self.made = made;
        self.cells.write(self.start, self.heads + index, word)
    }
}

impl Drop for Block {
    fn drop(self) {
        let Block {
            start,
            count,
            heads: _,
            made: _,
            cells,
            lease,
            alloc,
        } = self;
        release(&alloc, start, count, cells, lease);
    }
}
