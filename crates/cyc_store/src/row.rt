//! This file defines the table of the pages of a store.

ghost use Rattle.std.specs.Prelude.{◌≡◌, ℕ, [], ◌+◌, ◌≤◌, IfOk, OnErr, length, slice_index_or, false, IsTrue, ◌↔◌};

use super::range::PAGE_WORDS;
use std::alloc::{AllocError, Global};

/// The role of a page in the store.
#[derive(Clone, Copy)]
pub enum Role {
    /// The page is free, or it is a page of a region but not the region's first page.
    Rest,
    /// The first page of the heap.
    Heap,
    /// The first page of a lexical region.
    Lexical,
    /// The first page of a dynamic region.
    Dynamic,
    /// The page is cut into slots for unique blocks of one class, which is the exponent of their number of words.
    Slots(u32),
}

/// A row of the page table.
#[derive(Clone, Copy)]
pub struct Row {
    pub role: Role,
    /// For a page of a region, the number of its filled words.
    pub filled: u32,
    /// The page to which this page links: the next older page of its region or, if this page is free, another free page.
    pub next: u32,
    /// For a region's first page, the region's newest page.
    pub newest: u32,
    /// For a region's first page, the number of the region's pages.
    pub count: u32,
}

/// The empty slots of one size class.
#[derive(Clone, Copy)]
pub struct ClassSlots {
    /// The first of the empty slots that contained a block before. The first word of each empty slot that contained a block
    /// before is the index of the first word of the next one.
    pub dead: u32,
    /// The first of the empty slots that never contained a block; these slots are consecutive in one page. The
    /// field `left` is their number.
    pub fresh: u32,
    pub left: u32,
}

/// The value that, in place of an index, stands for no page or no slot.
pub const NONE: u32 = 0xffff_ffff;

/// The page table's row for an empty page.
pub const BLANK: Row = Row {
    role: Role::Rest,
    filled: 0,
    next: NONE,
    newest: NONE,
    count: 0,
};

/// The pages that have ever been used, with their words, one page after another.
#[derive(Drop)]
pub struct PageTable {
    /// The largest number of pages that the table may have.
    pub most: u32,
    pub words: Vec<u32>,
    /// For each word of all pages, a flag that is true if the word is in a live unique block.
    pub live: Vec<bool>,
    pub rows: Vec<Row>,
    /// The first page of the linked list of free pages.
    pub free: u32,
}

impl PageTable {
    ghost use Rattle.cyc_store.specs.Table.{IsWhole, IsSame, Draws, given_rows, given_free, AreThere, marked_between};

    /// Returns a table without pages.
    pub fn new(alloc: Global, most: u32) -> PageTable
        ensures most { result.most ≡ most }
        ensures words { result.words.items ≡ [] }
        ensures live { result.live.items ≡ [] }
        ensures rows { result.rows.items ≡ [] }
        ensures free { result.free ≡ NONE }
    {
        PageTable {
            most,
            words: Vec::new(alloc),
            live: Vec::new(alloc),
            rows: Vec::new(alloc),
            free: NONE,
        }
    }

    /// Returns true if every page is in use.
    pub fn is_full(&self) -> bool
        ensures { IsTrue result ↔ ((length self.now.rows.items ≤ self.now.free) × (self.now.most ≤ length self.now.rows.items)) }
    {
        self.rows.len() <= self.free as usize && self.most as usize <= self.rows.len()
    }

    /// Takes a page: a free page or, if there is none, a new one.
    pub fn draw(&mut self) -> Result<u32, AllocError>
        requires few { length self.old.rows.items ≤ 65536 }
        requires whole { IsWhole self.old }
        ensures draws { IfOk result (λ page. Draws self.old self.new page) }
        ensures same { OnErr result (IsSame self.old self.new) }
        ensures grew { OnErr result (length self.old.rows.items ≤ self.old.free) }
    {
        if (self.free as usize) < self.rows.len() {
            let page = self.free;
            self.free = self.rows[page as usize].next;
            return Ok(page);
        }
        let page = self.rows.len();
        self.words.reserve(PAGE_WORDS as usize)?;
        self.live.reserve(PAGE_WORDS as usize)?;
        self.rows.reserve(1)?;
        self.words.resize((page + 1) * PAGE_WORDS as usize, 0)?;
        self.live.resize((page + 1) * PAGE_WORDS as usize, false)?;
        if self.rows.push(BLANK).is_err() {
            return Err(AllocError);
        }
        Ok(page as u32)
    }

    /// Marks `count` words as words of a live unique block, or as words of no live block.
    pub fn mark(&mut self, first: usize, count: usize, mark: bool)
        requires { first + count ≤ length self.old.live.items }
        ensures live { (word : ℕ) → slice_index_or self.new.live.items word false
            ≡ marked_between (λ (other : ℕ). slice_index_or self.old.live.items other false) first count mark word }
        ensures whole { length self.new.live.items ≡ length self.old.live.items }
        ensures words { self.new.words.items ≡ self.old.words.items }
        ensures rows { self.new.rows.items ≡ self.old.rows.items }
        ensures free { self.new.free ≡ self.old.free }
        ensures most { self.new.most ≡ self.old.most }
    {
        for number in 0..count {
            self.live[first + number] = mark;
        }
    }

    /// Frees `count` linked pages of a region, from its newest page on.
    pub fn give_back(&mut self, newest: u32, count: u32)
        requires { AreThere self.old.rows.items newest count self.old.free }
        ensures rows { self.new.rows.items ≡ given_rows self.old.rows.items newest count self.old.free }
        ensures free { self.new.free ≡ given_free self.old.rows.items newest count self.old.free }
        ensures words { self.new.words.items ≡ self.old.words.items }
        ensures live { self.new.live.items ≡ self.old.live.items }
        ensures most { self.new.most ≡ self.old.most }
    {
        let mut page = newest;
        let mut left = count;
        while left > 0 {
            let next = self.rows[page as usize].next;
            self.rows[page as usize] = Row {
                role: Role::Rest,
                filled: 0,
                next: self.free,
                newest: NONE,
                count: 0,
            };
            self.free = page;
            page = next;
            left -= 1;
        }
    }
}
