//! A pool of pages in one block of memory.

ghost use Rattle.std.specs.Prelude.{◌==◌, ◌≡◌, ◌≢◌, ℕ, [], ◌∷◌, ◌++◌, ◌+◌, ◌*◌, ◌%◌, ◌^◌, ◌<◌, ◌≤◌, ◌⊎◌, IfOk, MatchOption, false, length, replicate};
ghost use Rattle.std.specs.Prelude.{set, slice_index, slice_index_or};
ghost use Rattle.cyc_rawpages.specs.inside.Lists.{chain_at, freed};
ghost use Rattle.cyc_rawpages.specs.inside.Pool.{IsFree, IsHead, LinksAll, between, new_pool};

use super::block::Block;
use super::change::Change;
use super::header::{
    FILL, HEAD_WORDS, HIGH, LOW, MOST_PAGES, NEXT, NONE, OWNER, PAGE_WORDS, TAIL, bits_at,
    header_at, marked, marked_from,
};
use super::roll::Roll;
use std::alloc::{AllocError, Global};
use std::marker::Model;

/// A page of a pool, identified by its index.
#[derive(Clone, Copy, Debug, PartialEq, Eq)]
pub struct PageNo {
    /// The page number, from 0 up to the pool's number of pages, exclusive.
    pub number: u32,
}

/// A chain of pages, identified by its head page.
#[derive(Clone, Copy, Debug, PartialEq, Eq)]
pub struct Chain {
    /// The first page of the chain.
    pub head: PageNo,
}

/// A pool of pages. A page is free or in a chain, which is identified by its first page, the head. Each page has 1,024 words, 1,024 bits, a
/// fill mark, an owner and a serial. The meaning of a page's words, bits, fill mark, owner and serial is up to the caller.
///
/// After [`Pool::new`], no function of the pool allocates. The pool's memory is freed when the pool is dropped.
#[derive(Drop)]
pub struct Pool {
    block: Block,
    pages: u32,
    /// The first page in the pool's list of free pages.
    first: u32,
    roll: Roll,
}

impl Model for Pool {
    ghost use Rattle.cyc_rawpages.specs.inside.Pool.{PoolState, state_of, IsPool};

    ghost Value = { PoolState };

    ghost view = { λ p. state_of p.pages p.block p.roll.lists };

    ghost invariant = { λ p. IsPool p.pages p.block p.first p.roll.lists };
}

/// Links each page of a pool to the next page, and returns the first page.
fn link_all(block: &mut Block, pages: u32) -> u32
    requires few { pages ≤ MOST_PAGES }
    requires whole { length block.old.heads ≡ HEAD_WORDS * pages }
    ensures { LinksAll pages block.old block.new result }
{
    let mut first = NONE;
    let mut left = pages;
    while left > 0 {
        left -= 1;
        block.set_head(header_at(left, NEXT), first);
        first = left;
    }
    first
}

impl Pool {
    /// Allocates a pool of free pages. In a new pool every word and field is 0, and no bit is set.
    pub fn new(alloc: Global, pages: u32) -> Result<Pool, AllocError>
        requires { pages ≤ MOST_PAGES }
        ensures { IfOk result (λ p. p ≡ new_pool pages) }
    {
        let mut block = Block::new(
            alloc,
            HEAD_WORDS as usize * pages as usize,
            PAGE_WORDS as usize * pages as usize,
        )?;
        let first = link_all(&mut block, pages);
        Ok(Pool {
            block,
            pages,
            first,
            roll: Roll::with(&Roll::new(), &Change::Made(pages)),
        })
    }

    /// Takes a free page, which becomes a chain that consists of this page. Returns `None` if no page is free.
    pub fn take(&mut self) -> Option<PageNo>
        ensures { MatchOption result ((self.old.free ≡ replicate self.old.pages false) × (self.new ≡ self.old))
            (λ page. (page.number < self.old.pages) × IsFree self.old.free page.number
            × (self.new ≡ record self.old { free = set self.old.free page.number false; chains = set self.old.chains page.number (page.number ∷ []) })) }
    {
        let page = self.first;
        if page == NONE {
            return None;
        }
        self.first = self.block.head(header_at(page, NEXT));
        self.block.set_head(header_at(page, TAIL), page);
        self.block.make(PAGE_WORDS as usize * (page as usize + 1));
        self.roll = Roll::with(&self.roll, &Change::Taken(page));
        Some(PageNo { number: page })
    }

    /// Appends a page, which must be the only page of its chain of linked pages, to another chain.
    pub fn chain_push(&mut self, head: PageNo, page: PageNo)
        requires head { (head.number < self.old.pages) × IsHead self.old.chains head.number }
        requires page { (page.number < self.old.pages) × (chain_at self.old.chains page.number ≡ page.number ∷ []) }
        requires other { head.number ≢ page.number }
        ensures head { IsHead self.new.chains head.number }
        ensures pushed { self.new ≡ record self.old { chains = set (set self.old.chains head.number (chain_at self.old.chains head.number ++ page.number ∷ [])) page.number [] } }
    {
        let tail = self.block.head(header_at(head.number, TAIL));
        self.block.set_head(header_at(tail, NEXT), page.number);
        self.block
            .set_head(header_at(head.number, TAIL), page.number);
        self.roll = Roll::with(&self.roll, &Change::Pushed(head.number, page.number));
    }

    /// Frees all pages of a chain in constant time, by linking the chain to the free list.
    pub fn give_chain(&mut self, chain: Chain)
        requires there { chain.head.number < self.old.pages }
        requires head { IsHead self.old.chains chain.head.number }
        ensures { self.new ≡ record self.old { free = freed self.old.free (chain_at self.old.chains chain.head.number); chains = set self.old.chains chain.head.number [] } }
    {
        let head = chain.head.number;
        let tail = self.block.head(header_at(head, TAIL));
        self.block.set_head(header_at(tail, NEXT), self.first);
        self.first = head;
        self.roll = Roll::with(&self.roll, &Change::Given(head));
    }

    /// Returns the number of initialised words, counted from the first word of the first page. The words of each page that is not free
    /// are initialised. The uninitialised words of free pages read as 0.
    #[inline]
    pub fn made(&self) -> usize
        ensures within { result ≤ PAGE_WORDS * self.now.pages }
        ensures taken { (page : ℕ) → page < self.now.pages → IsFree self.now.free page ⊎ (PAGE_WORDS * page + PAGE_WORDS ≤ result) }
    {
        self.block.made()
    }

    /// Returns a word of a page.
    #[inline]
    pub fn load(&self, page: PageNo, word: u32) -> u32
        requires { (page.number < self.now.pages) × (word < PAGE_WORDS) }
        ensures { result ≡ slice_index self.now.words (PAGE_WORDS * page.number + word) }
    {
        self.block
            .word(PAGE_WORDS as usize * page.number as usize + word as usize)
    }

    /// Writes a word of a page.
    #[inline]
    pub fn save(&mut self, page: PageNo, word: u32, value: u32)
        requires { (page.number < self.old.pages) × (word < PAGE_WORDS) }
        ensures { self.new ≡ record self.old { words = set self.old.words (PAGE_WORDS * page.number + word) value } }
    {
        self.block.set_word(
            PAGE_WORDS as usize * page.number as usize + word as usize,
            value,
        )
    }

    /// Returns the fill mark of a page: a number, meant to count the page's words that are filled.
    #[inline]
    pub fn fill(&self, page: PageNo) -> u32
        requires { page.number < self.now.pages }
        ensures { result ≡ slice_index self.now.fills page.number }
    {
        self.block.head(header_at(page.number, FILL))
    }

    /// Sets the fill mark of a page: a number, meant to count the page's words that are filled.
    #[inline]
    pub fn set_fill(&mut self, page: PageNo, fill: u32)
        requires { page.number < self.old.pages }
        ensures { self.new ≡ record self.old { fills = set self.old.fills page.number fill } }
    {
        self.block.set_head(header_at(page.number, FILL), fill)
    }

    /// Returns the owner of a page.
    #[inline]
    pub fn owner(&self, page: PageNo) -> u32
        requires { page.number < self.now.pages }
        ensures { result ≡ slice_index self.now.owners page.number }
    {
        self.block.head(header_at(page.number, OWNER))
    }

    /// Sets the owner of a page.
    #[inline]
    pub fn set_owner(&mut self, page: PageNo, owner: u32)
        requires { page.number < self.old.pages }
        ensures { self.new ≡ record self.old { owners = set self.old.owners page.number owner } }
    {
        self.block.set_head(header_at(page.number, OWNER), owner)
    }

    /// Returns the serial number of a page.
    #[inline]
    pub fn serial(&self, page: PageNo) -> u64
        requires { page.number < self.now.pages }
        ensures { result ≡ slice_index self.now.serials page.number }
    {
        let low = self.block.head(header_at(page.number, LOW));
        let high = self.block.head(header_at(page.number, HIGH));
        low as u64 + 0x1_0000_0000 * high as u64
    }

    /// Sets the serial number of a page.
    #[inline]
    pub fn set_serial(&mut self, page: PageNo, serial: u64)
        requires { page.number < self.old.pages }
        ensures { self.new ≡ record self.old { serials = set self.old.serials page.number serial } }
    {
        let low = (serial % 0x1_0000_0000) as u32;
        let high = (serial / 0x1_0000_0000) as u32;
        self.block.set_head(header_at(page.number, LOW), low);
        self.block.set_head(header_at(page.number, HIGH), high);
    }

    /// Returns true if the given one of a page's 1,024 bits is set.
    #[inline]
    pub fn bit(&self, page: PageNo, bit: u32) -> bool
        requires { (page.number < self.now.pages) × (bit < PAGE_WORDS) }
        ensures { result ≡ slice_index_or self.now.bits (PAGE_WORDS * page.number + bit) false }
    {
        let marks = self.block.head(bits_at(page.number, bit));
        marks >> (bit % 32) & 1 == 1
    }

    /// Sets or clears one of a page's 1,024 bits, whose meaning is up to the caller.
    pub fn set_bit(&mut self, page: PageNo, bit: u32, value: bool)
        requires { (page.number < self.old.pages) × (bit < PAGE_WORDS) }
        ensures { self.new ≡ record self.old { bits = set self.old.bits (PAGE_WORDS * page.number + bit) value } }
    {
        let at = bits_at(page.number, bit);
        let marks = marked(self.block.head(at), bit % 32, value);
        self.block.set_head(at, marks);
    }

    /// Sets or clears `count` bits of a page from `bit` on in one operation. All `count` bits must lie in one 32-bit word.
    pub fn set_bits(&mut self, page: PageNo, bit: u32, count: u32, value: bool)
        requires there { (page.number < self.old.pages) × (bit < PAGE_WORDS) }
        requires few { bit % 32 + count ≤ 32 }
        ensures same { self.new ≡ record self.old { bits = self.new.bits } }
        ensures whole { length self.new.bits ≡ length self.old.bits }
        ensures bits { (number : ℕ) → slice_index_or self.new.bits number false
            ≡ between (λ (other : ℕ). slice_index_or self.old.bits other false) (PAGE_WORDS * page.number + bit) count value number }
    {
        let at = bits_at(page.number, bit);
        let marks = marked_from(self.block.head(at), bit % 32, count, value);
        self.block.set_head(at, marks);
    }

    /// Sets or clears `count` bits of a page from `bit` on, 32 bits at a time.
    pub fn set_whole_bits(&mut self, page: PageNo, bit: u32, count: u32, value: bool)
        requires there { (page.number < self.old.pages) × (bit < PAGE_WORDS) × (bit + count ≤ PAGE_WORDS) }
        requires aligned { (bit % 32 ≡ 0) × (count % 32 ≡ 0) }
        ensures same { self.new ≡ record self.old { bits = self.new.bits } }
        ensures whole { length self.new.bits ≡ length self.old.bits }
        ensures bits { (number : ℕ) → slice_index_or self.new.bits number false
            ≡ between (λ (other : ℕ). slice_index_or self.old.bits other false) (PAGE_WORDS * page.number + bit) count value number }
    {
        let first = bits_at(page.number, bit);
        let marks = marked_from(0, 0, 32, value);
        self.block.set_heads(first, (count / 32) as usize, marks);
    }
}
