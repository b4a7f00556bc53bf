//! A heap store (allocator of regions and unique blocks) on an array of machine words, which grows by pages.

ghost use Rattle.std.specs.Prelude.{◌≡◌, ◌≢◌, ◌+◌, ◌*◌, ◌%◌, ◌^◌, ◌<◌, ◌≤◌, ◌⊎◌, IfErr, IfOk, IsTrue, MatchOption, OnErr, OnOk, true, false, None};
ghost use Rattle.std.specs.Prelude.{Some, length, is_some};
ghost use Rattle.cyc_words.specs.Demand.{class_of};
ghost use Rattle.cyc_store.specs.Answers.{Responds, allocated, opened_dynamic, opened_lexical};
ghost use Rattle.cyc_store.specs.Ledger.{HasNoRoom, IsUsedUp, Unwinds, held_of, memory_of};
ghost use Rattle.cyc_store.specs.State.{lookup, AreWords, start, homes, holder, address_of, handle_of, lexical_count, demand, word_at};
ghost use Rattle.cyc_store.specs.Services.{Allocate, Free, Done, OpenDynamic, OpenLexical, Serves};
ghost use Rattle.cyc_store.specs.inside.Kept.{next_slot_of};
ghost use Rattle.cyc_store.specs.Ordered.{IsOrdered};
ghost use Rattle.cyc_store.specs.Slots.{HasSlot, IsSpent, Stocks, Fills};

use cyc_store::{
    BLANK, BadHandle, BadMark, Change, ClassSlots, LEAST_PAGES, Ledger, MOST_BLOCK_WORDS,
    MOST_PAGES, NONE, No, NotABlock, PAGE_WORDS, PageTable, Role, Row, STORE_BASE, Store, UNIQUE,
    address_at, class_of, is_size, number_at, size_of,
};
use std::alloc::{AllocError, Global};
use std::marker::Model;

/// A heap store on an array of words, which grows by pages. The store allocates memory for a page only when the page is used.
#[derive(Drop)]
pub struct PlainStore {
    table: PageTable,
    /// The handles of the open lexical regions, oldest first.
    lexicals: Vec<u32>,
    classes: [ClassSlots; 11],
    ledger: Ledger,
}

impl Model for PlainStore {
    ghost use Rattle.std.specs.Prelude.{vec_capacity};
    ghost use Rattle.cyc_store.specs.Ledger.{Stored};

    ghost Value = { Stored };

    ghost use Rattle.cyc_store.specs.inside.Kept.{IsKept};

    ghost view = { λ s. record { pages = s.table.most; words = s.table.words.items; blocks = s.ledger.blocks; room = vec_capacity s.lexicals } };

    ghost invariant = { λ s. IsKept s.table s.lexicals.items s.classes s.ledger.blocks };
}

/// Returns the index of the word at an address, if the word is among the store's first `count` words.
#[inline]
fn number_below(count: usize, address: u32) -> Option<usize>
    requires { count ≤ 0x400_0000 }
    ensures { MatchOption result ((address < STORE_BASE) ⊎ (address % 4 ≢ 0) ⊎ (STORE_BASE + 4 * count ≤ address))
        (λ word. (word < count) × (address ≡ STORE_BASE + 4 * word)) }
{
    let word = (address.wrapping_sub(STORE_BASE) / 4) as usize;
    if count <= word {
        return None;
    }
    if address % 4 != 0 {
        return None;
    }
    Some(word)
}

/// Returns the first free slot for a block of a size class (a power of two of words), and the slots of this class that remain free.
#[inline]
fn next_slot(slots: ClassSlots, words: &Vec<u32>, class: u32) -> (u32, ClassSlots)
    requires class { class ≤ 10 }
    requires dead { slots.dead ≢ NONE → slots.dead < length words.now.items }
    requires fresh { slots.dead ≡ NONE → (1 ≤ slots.left) × (slots.fresh < 0x400_0000) }
    ensures { result ≡ next_slot_of slots words.now.items class }
{
    if slots.dead != NONE {
        let rest = ClassSlots {
            dead: words[slots.dead as usize],
            fresh: slots.fresh,
            left: slots.left,
        };
        (slots.dead, rest)
    } else {
        let rest = ClassSlots {
            dead: NONE,
            fresh: slots.fresh + size_of(class),
            left: slots.left - 1,
        };
        (slots.fresh, rest)
    }
}

impl PlainStore {
    /// Returns a new store with `pages` pages, in which only the heap region is open.
    pub fn new(alloc: Global, pages: u32) -> Result<PlainStore, AllocError>
        requires least { LEAST_PAGES ≤ pages }
        requires most { pages ≤ MOST_PAGES }
        ensures held { IfOk result (λ s. held_of s ≡ start pages (memory_of s.words)) }
        ensures words { IfOk result (λ s. AreWords (memory_of s.words)) }
    {
        let mut table = PageTable::new(alloc, pages);
        let page = table.draw()?;
        table.rows[page as usize] = Row {
            role: Role::Heap,
            newest: page,
            count: 1,
            ..BLANK
        };
        let none = ClassSlots {
            dead: NONE,
            fresh: 0,
            left: 0,
        };
        Ok(PlainStore {
            table,
            lexicals: Vec::new(alloc),
            classes: [none; 11],
            ledger: Ledger::new(),
        })
    }

    /// Law: the blocks of the store lie within pages. Because blocks lie within pages, the store can choose an
    /// address for each permitted request, by [`choices_exist`].
    ///
    /// [`choices_exist`]: cyc_store::runs::choices_exist
    pub fn lies_in_pages(&self)
        ensures { IsOrdered (held_of self.now) }
    {
        let _most = self.table.most;
    }

    /// Returns true if the word with this index in the store's array lies in a live block.
    #[inline]
    fn is_live(&self, word: usize) -> bool
        requires { word < length self.now.words }
        ensures { result ≡ is_some (holder (homes (held_of self.now)) (STORE_BASE + 4 * word)) }
    {
        let offset = (word % PAGE_WORDS as usize) as u32;
        let row = &self.table.rows[word / PAGE_WORDS as usize];
        if offset < row.filled {
            return true;
        }
        self.table.live[word]
    }

    /// Returns the index of the word at an address, if the word lies in a live block.
    #[inline]
    fn word_of(&self, address: u32) -> Option<usize>
        ensures { MatchOption result (word_at (held_of self.now) address ≡ None)
            (λ word. (word < length self.now.words) × (address ≡ STORE_BASE + 4 * word) × (is_some (word_at (held_of self.now) address) ≡ true)) }
    {
        let Some(word) = number_below(self.table.words.len(), address) else {
            return None;
        };
        if self.is_live(word) { Some(word) } else { None }
    }

    /// Returns the first page of the open region with the given handle.
    fn root_of(&self, handle: u32) -> Option<u32>
        ensures { MatchOption result (lookup handle_of self.now.blocks.regions handle ≡ None)
            (λ root. (handle ≡ 2 * root + 1) × (is_some (lookup handle_of self.now.blocks.regions handle) ≡ true)) }
    {
        let count = self.table.rows.len();
        let page = handle / 2;
        if handle % 2 == 0 {
            return None;
        }
        if count <= page as usize {
            return None;
        }
        let first = self.table.rows[page as usize];
        match first.role {
            Role::Heap | Role::Lexical | Role::Dynamic => Some(page),
            _ => None,
        }
    }

    /// Returns the number of open lexical regions.
    fn lexicals_open(&self) -> u32
        ensures { result ≡ lexical_count self.now.blocks.regions }
    {
        self.lexicals.len() as u32
    }

    /// Closes the lexical region that was opened last.
    fn close_newest(&mut self)
        requires { 0 < lexical_count self.old.blocks.regions }
        ensures { Unwinds self.old self.new }
    {
        let Some(handle) = self.lexicals.pop() else {
            return;
        };
        let first = self.table.rows[(handle / 2) as usize];
        self.table.give_back(first.newest, first.count);
        self.ledger = Ledger::with(&self.ledger, &Change::Closed(handle));
    }

    /// Allocates a block of `words` words in the region whose first page is `root`.
    fn alloc_in(&mut self, root: u32, words: u32) -> Result<u32, No>
        requires named { is_some (lookup handle_of self.old.blocks.regions (2 * root + 1)) ≡ true }
        requires least { 1 ≤ words }
        requires most { words ≤ MOST_BLOCK_WORDS }
        ensures answer { Responds true (held_of self.old) (Allocate (2 * root + 1) words) (allocated result) (held_of self.new) }
        ensures grew { result ≡ Err No.Memory → IsUsedUp self.old }
    {
        let first = self.table.rows[root as usize];
        let last = self.table.rows[first.newest as usize];
        if last.filled + words <= PAGE_WORDS {
            self.table.rows[first.newest as usize] = Row {
                filled: last.filled + words,
                ..last
            };
            let address = address_at(PAGE_WORDS * first.newest + last.filled);
            self.ledger = Ledger::with(&self.ledger, &Change::Made(2 * root + 1, address, words));
            return Ok(address);
        }
        if self.table.is_full() {
            return Err(No::Full);
        }
        let Ok(page) = self.table.draw() else {
            return Err(No::Memory);
        };
        self.table.rows[page as usize] = Row {
            filled: words,
            next: first.newest,
            ..BLANK
        };
        self.table.rows[root as usize] = Row {
            newest: page,
            count: first.count + 1,
            ..first
        };
        let address = address_at(PAGE_WORDS * page);
        self.ledger = Ledger::with(&self.ledger, &Change::Made(2 * root + 1, address, words));
        Ok(address)
    }

    /// Splits a free page into slots of the given size class.
    fn stock(&mut self, class: u32) -> Result<(), No>
        requires class { class ≤ 10 }
        requires none { ¬ HasSlot (held_of self.old) class }
        ensures ok { OnOk result (Stocks (held_of self.old) class (held_of self.new)) }
        ensures full { result ≡ Err No.Full → IsSpent (held_of self.old) }
        ensures memory { result ≡ Err No.Memory → (demand (held_of self.old) < self.old.pages) }
        ensures grew { result ≡ Err No.Memory → IsUsedUp self.old }
        ensures few { IfErr result (λ why. (why ≡ No.Full) ⊎ (why ≡ No.Memory)) }
        ensures same { OnErr result (held_of self.new ≡ held_of self.old) }
    {
        if self.table.is_full() {
            return Err(No::Full);
        }
        let Ok(page) = self.table.draw() else {
            return Err(No::Memory);
        };
        self.table.rows[page as usize] = Row {
            role: Role::Slots(class),
            ..BLANK
        };
        self.classes[class as usize] = ClassSlots {
            dead: NONE,
            fresh: PAGE_WORDS * page,
            left: PAGE_WORDS >> class,
        };
        self.ledger = Ledger::with(&self.ledger, &Change::Stocked(class));
        Ok(())
    }

    /// Allocates a unique block in a free slot of the given size class, and returns the block's address.
    fn fill(&mut self, class: u32) -> u32
        requires class { class ≤ 10 }
        requires some { HasSlot (held_of self.old) class }
        ensures { Fills (held_of self.old) class result (held_of self.new) }
    {
        let (word, rest) = next_slot(self.classes[class as usize], &self.table.words, class);
        self.classes[class as usize] = rest;
        let size = size_of(class);
        self.table.mark(word as usize, size as usize, true);
        let address = address_at(word);
        self.ledger = Ledger::with(&self.ledger, &Change::MadeUnique(address, size));
        address
    }

    /// Allocates a unique block with `words` words.
    fn alloc_unique(&mut self, words: u32) -> Result<u32, No>
        requires least { 1 ≤ words }
        requires most { words ≤ MOST_BLOCK_WORDS }
        ensures answer { Responds true (held_of self.old) (Allocate UNIQUE words) (allocated result) (held_of self.new) }
        ensures grew { result ≡ Err No.Memory → IsUsedUp self.old }
    {
        let class = class_of(words);
        let slots = self.classes[class as usize];
        if slots.dead == NONE && slots.left == 0 {
            self.stock(class)?;
        }
        Ok(self.fill(class))
    }

    /// Returns the first word and the size class of the live unique block that begins at the given address.
    fn slot_of(&self, address: u32) -> Option<(u32, u32)>
        ensures { MatchOption result (lookup address_of self.now.blocks.unique address ≡ None)
            (λ slot. (address ≡ STORE_BASE + 4 * slot.0) × (lookup address_of self.now.blocks.unique address
            ≡ Some (record { address = address; size = 2 ^ slot.1 }))) }
    {
        let count = self.table.rows.len();
        let Some(word) = number_at(address) else {
            return None;
        };
        if count <= (word / PAGE_WORDS) as usize {
            return None;
        }
        let row = self.table.rows[(word / PAGE_WORDS) as usize];
        let Role::Slots(class) = row.role else {
            return None;
        };
        let number = (word % PAGE_WORDS) >> class;
        if number * size_of(class) != word % PAGE_WORDS {
            return None;
        }
        if self.table.live[word as usize] {
            Some((word, class))
        } else {
            None
        }
    }

    /// Frees the live unique block that begins at the word with the given index and has the given size class.
    fn empty(&mut self, word: u32, class: u32)
        requires { lookup address_of self.old.blocks.unique (STORE_BASE + 4 * word) ≡ Some (record { address = STORE_BASE + 4 * word; size = 2 ^ class }) }
        ensures { Serves (held_of self.old) (Free (STORE_BASE + 4 * word)) Done (held_of self.new) }
    {
        self.table.words[word as usize] = self.classes[class as usize].dead;
        self.classes[class as usize].dead = word;
        self.table
            .mark(word as usize, size_of(class) as usize, false);
        self.ledger = Ledger::with(&self.ledger, &Change::Freed(address_at(word)));
    }
}

impl Store for PlainStore {
    ghost use Rattle.std.specs.Prelude.{true};
    ghost use Rattle.cyc_store.specs.Ledger.{held_of};

    ghost held = { held_of };

    const GROWS: bool = true;

    ghost GROWS = { true };

    fn open_lexical(&mut self) -> Result<(u32, u32), No>
        ensures answer { Responds true (held_of self.old) OpenLexical (opened_lexical result) (held_of self.new) }
        ensures grew { result ≡ Err No.Memory → IsUsedUp self.old ⊎ HasNoRoom self.old }
    {
        if self.table.is_full() {
            return Err(No::Full);
        }
        let Ok(()) = self.lexicals.reserve(1) else {
            return Err(No::Memory);
        };
        let Ok(page) = self.table.draw() else {
            return Err(No::Memory);
        };
        let handle = 2 * page + 1;
        let mark = self.lexicals.len() as u32;
        let Ok(()) = self.lexicals.push(handle) else {
            return Err(No::Memory);
        };
        self.table.rows[page as usize] = Row {
            role: Role::Lexical,
            newest: page,
            count: 1,
            ..BLANK
        };
        self.ledger = Ledger::with(&self.ledger, &Change::OpenedLexical(handle));
        Ok((handle, mark))
    }

    fn close_to(&mut self, mark: u32) -> Result<(), BadMark> {
        if self.lexicals.len() < mark as usize {
            return Err(BadMark);
        }
        while mark < self.lexicals_open() {
            self.close_newest();
        }
        Ok(())
    }

    fn open_dynamic(&mut self) -> Result<u32, No>
        ensures answer { Responds true (held_of self.old) OpenDynamic (opened_dynamic result) (held_of self.new) }
        ensures grew { result ≡ Err No.Memory → IsUsedUp self.old }
    {
        if self.table.is_full() {
            return Err(No::Full);
        }
        let Ok(page) = self.table.draw() else {
            return Err(No::Memory);
        };
        let handle = 2 * page + 1;
        self.table.rows[page as usize] = Row {
            role: Role::Dynamic,
            newest: page,
            count: 1,
            ..BLANK
        };
        self.ledger = Ledger::with(&self.ledger, &Change::OpenedDynamic(handle));
        Ok(handle)
    }

    fn close_dynamic(&mut self, handle: u32) -> Result<(), BadHandle> {
        let Some(root) = self.root_of(handle) else {
            return Err(BadHandle);
        };
        let first = self.table.rows[root as usize];
        let Role::Dynamic = first.role else {
            return Err(BadHandle);
        };
        self.table.give_back(first.newest, first.count);
        self.ledger = Ledger::with(&self.ledger, &Change::Closed(handle));
        Ok(())
    }

    fn alloc(&mut self, handle: u32, words: u32) -> Result<u32, No>
        ensures answer { Responds true (held_of self.old) (Allocate handle words) (allocated result) (held_of self.new) }
        ensures grew { result ≡ Err No.Memory → IsUsedUp self.old }
    {
        if handle == UNIQUE {
            if is_size(words) {
                return self.alloc_unique(words);
            }
            return Err(No::BadSize);
        }
        let Some(root) = self.root_of(handle) else {
            return Err(No::BadHandle);
        };
        if is_size(words) {
            self.alloc_in(root, words)
        } else {
            Err(No::BadSize)
        }
    }

    fn free(&mut self, address: u32) -> Result<(), NotABlock> {
        let Some((word, class)) = self.slot_of(address) else {
            return Err(NotABlock);
        };
        self.empty(word, class);
        Ok(())
    }

    fn load(&self, address: u32) -> Option<u32> {
        let Some(word) = self.word_of(address) else {
            return None;
        };
        Some(self.table.words[word])
    }

    fn save(&mut self, address: u32, word: u32) -> bool {
        let Some(at) = self.word_of(address) else {
            return false;
        };
        self.table.words[at] = word;
        true
    }
}
