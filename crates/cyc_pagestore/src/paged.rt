//! A page store on a pool of pages.

ghost use Rattle.std.specs.Prelude.{◌≡◌, ◌≢◌, ◌+◌, ◌*◌, ◌%◌, ◌^◌, ◌<◌, ◌≤◌, ◌⊎◌, IfErr, IfOk, IsTrue, MatchOption, OnErr, OnOk, true, false, None};
ghost use Rattle.std.specs.Prelude.{Some, Err, length, is_some};
ghost use Rattle.cyc_words.specs.Demand.{class_of};
ghost use Rattle.cyc_store.specs.Answers.{Responds, allocated};
ghost use Rattle.cyc_store.specs.Ledger.{Unwinds, held_of, memory_of};
ghost use Rattle.cyc_store.specs.State.{lookup, AreWords, start, demand, homes, holder, address_of, handle_of, lexical_count, word_at};
ghost use Rattle.cyc_store.specs.Services.{Allocate, Free, Done, Serves};
ghost use Rattle.cyc_store.specs.inside.Kept.{next_slot_of};
ghost use Rattle.cyc_store.specs.Ordered.{IsOrdered};
ghost use Rattle.cyc_store.specs.Slots.{HasSlot, IsSpent, Stocks, Fills};

use super::table::PoolTable;
use super::usage::Usage;
use cyc_store::{
    BadHandle, BadMark, Change, ClassSlots, LEAST_PAGES, Ledger, MOST_BLOCK_WORDS, MOST_PAGES,
    NONE, No, NotABlock, PAGE_WORDS, Role, STORE_BASE, Store, UNIQUE, address_at, class_of,
    is_size, number_at, size_of,
};
use std::alloc::{AllocError, Global};
use std::marker::Model;

/// A store on a pool of pages. All of the store's memory is allocated when the store is made, and a region of any size is closed in
/// constant time.
#[derive(Drop)]
pub struct PageStore {
    table: PoolTable,
    /// The handles of the open lexical regions, oldest first.
    lexicals: Vec<u32>,
    classes: [ClassSlots; 11],
    usage: Usage,
    ledger: Ledger,
}

impl Model for PageStore {
    ghost use Rattle.cyc_store.specs.Ledger.{Stored};
    ghost use Rattle.cyc_pagestore.specs.inside.Stored.{IsPagedStore};

    ghost Value = { Stored };

    ghost view = { λ s. record { pages = s.table.most; words = s.table.words; blocks = s.ledger.blocks; room = s.table.most } };

    ghost invariant = { λ s. IsPagedStore s.table s.lexicals s.classes s.ledger.blocks s.usage };
}

/// Returns the index of the word at an address, if the word is among the store's first `count` words. One comparison tests all conditions
/// on the address: if the address is misaligned or below the store, the computed index is too large.
#[inline(always)]
fn number_below(count: usize, address: u32) -> Option<u32>
    requires { count ≤ 0x400_0000 }
    ensures { MatchOption result ((address < STORE_BASE) ⊎ (address % 4 ≢ 0) ⊎ (STORE_BASE + 4 * count ≤ address))
        (λ word. (word < count) × (address ≡ STORE_BASE + 4 * word)) }
{
    let distance = address.wrapping_sub(STORE_BASE);
    let word = distance / 4 + distance % 4 * 0x4000_0000;
    if (word as usize) < count {
        Some(word)
    } else {
        None
    }
}

/// Returns the first free slot of a size class, and the remaining free slots.
#[inline]
fn next_slot(slots: ClassSlots, table: &PoolTable, class: u32) -> (u32, ClassSlots)
    requires class { class ≤ 10 }
    requires dead { slots.dead ≢ NONE → slots.dead < 1024 * table.now.most }
    requires fresh { slots.dead ≡ NONE → (1 ≤ slots.left) × (slots.fresh < 0x400_0000) }
    ensures { result ≡ next_slot_of slots table.now.words class }
{
    if slots.dead != NONE {
        let rest = ClassSlots {
            dead: table.word(slots.dead),
            fresh: slots.fresh,
            left: slots.left,
        };
        (slots.dead, rest)
    } else {
        let rest = ClassSlots {
            dead: NONE,
            fresh: slots.fresh + size_of(class),
            left: slots.left - 1,
        };
        (slots.fresh, rest)
    }
}

/// Returns the size class of a block of `words` words. The function needs few tests for a large block, because for a large block
/// the most mark bits of live words must be written as well.
#[inline]
fn slot_class(words: u32) -> u32
    requires { words ≤ 1024 }
    ensures { result ≡ class_of words }
{
    if 512 < words {
        10
    } else if 256 < words {
        9
    } else {
        class_of(words)
    }
}

impl PageStore {
    /// Returns a new store of `pages` pages, in which only the heap is open.
    pub fn new(alloc: Global, pages: u32) -> Result<PageStore, AllocError>
        requires least { LEAST_PAGES ≤ pages }
        requires most { pages ≤ MOST_PAGES }
        ensures held { IfOk result (λ s. held_of s ≡ start pages (memory_of s.words)) }
        ensures words { IfOk result (λ s. AreWords (memory_of s.words)) }
    {
        let lexicals = Vec::with_capacity(alloc, pages as usize)?;
        let table = PoolTable::new(alloc, pages)?;
        let usage = Usage::new(alloc, pages)?;
        let none = ClassSlots {
            dead: NONE,
            fresh: 0,
            left: 0,
        };
        Ok(PageStore {
            table,
            lexicals,
            classes: [none; 11],
            usage,
            ledger: Ledger::new(),
        })
    }

    /// States the law that the blocks lie in pages. By [`choices_exist`], each call that requests no more pages than the store has
    /// then has an address to return.
    ///
    /// [`choices_exist`]: cyc_store::runs::choices_exist
    pub fn lies_in_pages(&self)
        ensures { IsOrdered (held_of self.now) }
    {
        let _table = &self.table;
    }

    /// Returns the number of pages in use, which is the number that the blocks require.
    pub fn pages_in_use(&self) -> u32
        ensures { result ≡ demand (held_of self.now) }
    {
        self.usage.pages()
    }

    /// Advances the store's next serial number to the second-last possible one, as if very many regions had been opened and closed. A
    /// test cannot open and close so many regions. The values in the store and the results of its calls are unchanged.
    pub fn come_to_last_serial(&mut self)
        ensures { self.new ≡ self.old }
    {
        self.table.come_to_last_serial();
    }

    /// Returns true if the word with the given index belongs to a live block.
    #[inline(always)]
    fn is_live(&self, word: u32) -> bool
        requires { word < length self.now.words }
        ensures { result ≡ is_some (holder (homes (held_of self.now)) (STORE_BASE + 4 * word)) }
    {
        if self.table.is_filled(word) {
            return true;
        }
        self.table.is_marked(word)
    }

    /// Returns the index of the word with the given address, if the word belongs to a live block. A word of the store
    /// that was never written belongs to no live block.
    #[inline(always)]
    fn word_of(&self, address: u32) -> Option<u32>
        ensures { MatchOption result (word_at (held_of self.now) address ≡ None)
            (λ word. (word < length self.now.words) × (address ≡ STORE_BASE + 4 * word) × (is_some (word_at (held_of self.now) address) ≡ true)) }
    {
        let Some(word) = number_below(self.table.made(), address) else {
            return None;
        };
        if self.is_live(word) { Some(word) } else { None }
    }

    /// Returns the first page of the open region with the given handle.
    fn root_of(&self, handle: u32) -> Option<u32>
        ensures { MatchOption result (lookup handle_of self.now.blocks.regions handle ≡ None)
            (λ root. (handle ≡ 2 * root + 1) × (is_some (lookup handle_of self.now.blocks.regions handle) ≡ true)) }
    {
        let count = self.table.most();
        let page = handle / 2;
        if handle % 2 == 0 {
            return None;
        }
        if count <= page {
            return None;
        }
        match self.table.role(page) {
            Role::Heap | Role::Lexical | Role::Dynamic => Some(page),
            _ => None,
        }
    }

    /// Returns the number of open lexical regions.
    fn lexicals_open(&self) -> u32
        ensures { result ≡ lexical_count self.now.blocks.regions }
    {
        self.lexicals.len() as u32
    }

    /// Closes the newest lexical region.
    fn close_newest(&mut self)
        requires { 0 < lexical_count self.old.blocks.regions }
        ensures { Unwinds self.old self.new }
    {
        let Some(handle) = self.lexicals.pop() else {
            return;
        };
        self.table.close(handle / 2);
        self.usage.note_closed(handle / 2);
        self.ledger = Ledger::with(&self.ledger, &Change::Closed(handle));
    }

    /// Allocates a block of `words` words in the region whose first page is `root`.
    fn alloc_in(&mut self, root: u32, words: u32) -> Result<u32, No>
        requires named { is_some (lookup handle_of self.old.blocks.regions (2 * root + 1)) ≡ true }
        requires least { 1 ≤ words }
        requires most { words ≤ MOST_BLOCK_WORDS }
        ensures { Responds false (held_of self.old) (Allocate (2 * root + 1) words) (allocated result) (held_of self.new) }
    {
        let last = self.table.newest(root);
        let used = self.table.filled(last);
        if used + words <= PAGE_WORDS {
            self.table.fill(root, used + words);
            let address = address_at(PAGE_WORDS * last + used);
            self.ledger = Ledger::with(&self.ledger, &Change::Made(2 * root + 1, address, words));
            return Ok(address);
        }
        let Some(page) = self.table.add(root, words) else {
            return Err(No::Full);
        };
        self.usage.note_added(root);
        let address = address_at(PAGE_WORDS * page);
        self.ledger = Ledger::with(&self.ledger, &Change::Made(2 * root + 1, address, words));
        Ok(address)
    }

    /// Splits a free page into slots of the given size class.
    fn stock(&mut self, class: u32) -> Result<(), No>
        requires class { class ≤ 10 }
        requires none { ¬ HasSlot (held_of self.old) class }
        ensures ok { OnOk result (Stocks (held_of self.old) class (held_of self.new)) }
        ensures full { result ≡ Err No.Full → IsSpent (held_of self.old) }
        ensures few { IfErr result (λ why. why ≡ No.Full) }
        ensures same { OnErr result (held_of self.new ≡ held_of self.old) }
    {
        let Some(page) = self.table.cut(class) else {
            return Err(No::Full);
        };
        self.usage.note_cut();
        self.classes[class as usize] = ClassSlots {
            dead: NONE,
            fresh: PAGE_WORDS * page,
            left: PAGE_WORDS >> class,
        };
        self.ledger = Ledger::with(&self.ledger, &Change::Stocked(class));
        Ok(())
    }

    /// Allocates a unique block in a slot of the given size class, and returns the block's address.
    fn fill(&mut self, class: u32) -> u32
        requires class { class ≤ 10 }
        requires some { HasSlot (held_of self.old) class }
        ensures { Fills (held_of self.old) class result (held_of self.new) }
    {
        let (word, rest) = next_slot(self.classes[class as usize], &self.table, class);
        self.classes[class as usize] = rest;
        let size = size_of(class);
        self.table.mark(word, size, true);
        let address = address_at(word);
        self.ledger = Ledger::with(&self.ledger, &Change::MadeUnique(address, size));
        address
    }

    /// Allocates a unique block of `words` words.
    fn alloc_unique(&mut self, words: u32) -> Result<u32, No>
        requires least { 1 ≤ words }
        requires most { words ≤ MOST_BLOCK_WORDS }
        ensures { Responds false (held_of self.old) (Allocate UNIQUE words) (allocated result) (held_of self.new) }
    {
        let class = slot_class(words);
        let slots = self.classes[class as usize];
        if slots.dead == NONE && slots.left == 0 {
            self.stock(class)?;
        }
        Ok(self.fill(class))
    }

    /// Returns the first word and the size class of the live unique block that begins at the given address.
    fn slot_of(&self, address: u32) -> Option<(u32, u32)>
        ensures { MatchOption result (lookup address_of self.now.blocks.unique address ≡ None)
            (λ slot. (address ≡ STORE_BASE + 4 * slot.0) × (lookup address_of self.now.blocks.unique address
            ≡ Some (record { address = address; size = 2 ^ slot.1 }))) }
    {
        let count = self.table.most();
        let Some(word) = number_at(address) else {
            return None;
        };
        if count <= word / PAGE_WORDS {
            return None;
        }
        let Role::Slots(class) = self.table.role(word / PAGE_WORDS) else {
            return None;
        };
        let number = (word % PAGE_WORDS) >> class;
        if number * size_of(class) != word % PAGE_WORDS {
            return None;
        }
        if self.table.is_marked(word) {
            Some((word, class))
        } else {
            None
        }
    }

    /// Frees the live unique block of size class `class` that begins at the word `word`.
    fn empty(&mut self, word: u32, class: u32)
        requires { lookup address_of self.old.blocks.unique (STORE_BASE + 4 * word) ≡ Some (record { address = STORE_BASE + 4 * word; size = 2 ^ class }) }
        ensures { Serves (held_of self.old) (Free (STORE_BASE + 4 * word)) Done (held_of self.new) }
    {
        self.table.set_word(word, self.classes[class as usize].dead);
        self.classes[class as usize].dead = word;
        self.table.mark(word, size_of(class), false);
        self.ledger = Ledger::with(&self.ledger, &Change::Freed(address_at(word)));
    }
}

impl Store for PageStore {
    ghost use Rattle.std.specs.Prelude.{false};
    ghost use Rattle.cyc_store.specs.Ledger.{held_of};

    ghost held = { held_of };

    const GROWS: bool = false;

    ghost GROWS = { false };

    fn open_lexical(&mut self) -> Result<(u32, u32), No> {
        let Some(page) = self.table.open(Role::Lexical) else {
            return Err(No::Full);
        };
        self.usage.note_opened(page);
        let handle = 2 * page + 1;
        let mark = self.lexicals.len() as u32;
        self.lexicals.push_reserved(handle);
        self.ledger = Ledger::with(&self.ledger, &Change::OpenedLexical(handle));
        Ok((handle, mark))
    }

    fn close_to(&mut self, mark: u32) -> Result<(), BadMark> {
        if self.lexicals.len() < mark as usize {
            return Err(BadMark);
        }
        while mark < self.lexicals_open() {
            self.close_newest();
        }
        Ok(())
    }

    fn open_dynamic(&mut self) -> Result<u32, No> {
        let Some(page) = self.table.open(Role::Dynamic) else {
            return Err(No::Full);
        };
        self.usage.note_opened(page);
        let handle = 2 * page + 1;
        self.ledger = Ledger::with(&self.ledger, &Change::OpenedDynamic(handle));
        Ok(handle)
    }

    fn close_dynamic(&mut self, handle: u32) -> Result<(), BadHandle> {
        let Some(root) = self.root_of(handle) else {
            return Err(BadHandle);
        };
        let Role::Dynamic = self.table.role(root) else {
            return Err(BadHandle);
        };
        self.table.close(root);
        self.usage.note_closed(root);
        self.ledger = Ledger::with(&self.ledger, &Change::Closed(handle));
        Ok(())
    }

    fn alloc(&mut self, handle: u32, words: u32) -> Result<u32, No> {
        if handle == UNIQUE {
            if is_size(words) {
                return self.alloc_unique(words);
            }
            return Err(No::BadSize);
        }
        let Some(root) = self.root_of(handle) else {
            return Err(No::BadHandle);
        };
        if is_size(words) {
            self.alloc_in(root, words)
        } else {
            Err(No::BadSize)
        }
    }

    fn free(&mut self, address: u32) -> Result<(), NotABlock> {
        let Some((word, class)) = self.slot_of(address) else {
            return Err(NotABlock);
        };
        self.empty(word, class);
        Ok(())
    }

    #[inline(always)]
    fn load(&self, address: u32) -> Option<u32> {
        let Some(word) = self.word_of(address) else {
            return None;
        };
        Some(self.table.word(word))
    }

    #[inline(always)]
    fn save(&mut self, address: u32, word: u32) -> bool {
        let Some(at) = self.word_of(address) else {
            return false;
        };
        self.table.set_word(at, word);
        true
    }
}
