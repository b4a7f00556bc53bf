//! A page table over a pool.

ghost use Rattle.std.specs.Prelude.{◌≡◌, [], ◌∷◌, ◌+◌, ◌*◌, ◌/◌, ◌%◌, ◌^◌, ◌<◌, ◌≤◌, IfOk, MatchOption, false, length, nat_lt, set, slice_index};
ghost use Rattle.std.specs.Prelude.{slice_index_or};
ghost use Rattle.cyc_rawpages.specs.inside.Pool.{IsFree};
ghost use Rattle.cyc_pagestore.specs.inside.Table.{AreAlone, blank_table, IsFull, IsIdlePast, IsRoot, Opens, Adds, Cuts, Fills, Closes, Marks, row_of};

use super::links::Roster;
use super::serial::{is_within, next_serial, reach};
use super::step::Step;
use cyc_rawpages::{Chain, PageNo, Pool};
use cyc_store::{NONE, PAGE_WORDS, Role};
use std::alloc::{AllocError, Global};
use std::marker::Model;

/// The data that the table stores for each page outside the pool.
#[derive(Clone, Copy)]
pub(crate) struct Spot {
    role: Role,
    /// For the first page of a region, the region's newest page.
    newest: u32,
}

/// The pages of a store, each with its words and a mark for each word of a live unique block.
#[derive(Drop)]
pub(crate) struct PoolTable {
    pool: Pool,
    pages: u32,
    spots: Vec<Spot>,
    /// A serial above the serials of all pages.
    next: u64,
    roster: Roster,
}

impl Model for PoolTable {
    ghost use Rattle.cyc_pagestore.specs.inside.Table.{TableState, IsBacked};

    ghost Value = { TableState };

    ghost view = { λ t. record { most = t.pool.pages; words = t.pool.words; live = t.pool.bits; rows = t.roster.links.rows; free = t.roster.links.free } };

    ghost invariant = { λ t. IsBacked t.pool t.pages t.spots.items t.next t.roster.links };
}

/// Takes page 0, which is free, from the pool. The pool promises no order, so pages that it returns before page 0 are freed again.
fn take_first(pool: &mut Pool)
    requires first { IsFree pool.old.free 0 }
    requires alone { AreAlone pool.old }
    ensures { pool.new ≡ record pool.old { free = set pool.old.free 0 false; chains = set pool.old.chains 0 (0 ∷ []) } }
{
    let Some(page) = pool.take() else {
        return;
    };
    if page.number == 0 {
        return;
    }
    take_first(pool);
    pool.give_chain(Chain { head: page });
}

impl PoolTable {
    /// Returns a table of pages; the heap is open in the first page.
    pub(crate) fn new(alloc: Global, pages: u32) -> Result<PoolTable, AllocError>
        requires least { 1 ≤ pages }
        requires most { pages ≤ 65536 }
        ensures { IfOk result (λ t. Opens (blank_table pages) t 0 Role.Heap) }
    {
        let blank = Spot {
            role: Role::Rest,
            newest: NONE,
        };
        let mut spots = vec![in alloc; blank; pages as usize]?;
        let mut pool = Pool::new(alloc, pages)?;
        take_first(&mut pool);
        let first = PageNo { number: 0 };
        pool.set_owner(first, 0);
        pool.set_fill(first, 0);
        pool.set_serial(first, 1);
        spots[0] = Spot {
            role: Role::Heap,
            newest: 0,
        };
        let made = Roster::with(&Roster::new(), &Step::Made(pages));
        let taken = Roster::with(&made, &Step::Taken(0));
        Ok(PoolTable {
            pool,
            pages,
            spots,
            next: 2,
            roster: Roster::with(&taken, &Step::Began(0, Role::Heap)),
        })
    }

    /// Returns the number of words, from the first on, that are written. No page that contains a word not yet written is in use.
    #[inline]
    pub(crate) fn made(&self) -> usize
        ensures within { result ≤ 1024 * self.now.most }
        ensures idle { IsIdlePast self.now result }
    {
        self.pool.made()
    }

    /// Returns the word with the given index, counted across all pages.
    #[inline]
    pub(crate) fn word(&self, word: u32) -> u32
        requires { word < 1024 * self.now.most }
        ensures { result ≡ slice_index self.now.words word }
    {
        self.pool.load(
            PageNo {
                number: word / PAGE_WORDS,
            },
            word % PAGE_WORDS,
        )
    }

    /// Writes a word.
    #[inline]
    pub(crate) fn set_word(&mut self, word: u32, value: u32)
        requires { word < 1024 * self.old.most }
        ensures { self.new ≡ record self.old { words = set self.old.words word value } }
    {
        self.pool.save(
            PageNo {
                number: word / PAGE_WORDS,
            },
            word % PAGE_WORDS,
            value,
        )
    }

    /// Returns true if a word is marked as part of a live unique block.
    #[inline]
    pub(crate) fn is_marked(&self, word: u32) -> bool
        requires { word < 1024 * self.now.most }
        ensures { result ≡ slice_index_or self.now.live word result }
    {
        self.pool.bit(
            PageNo {
                number: word / PAGE_WORDS,
            },
            word % PAGE_WORDS,
        )
    }

    /// Sets or clears the mark bits (of words of live unique blocks) for `count` words from `first` on. The marks of 32 words form one word
    /// of the pool, which is not read if all 32 marks are written.
    pub(crate) fn mark(&mut self, first: u32, count: u32, mark: bool)
        requires { first + count ≤ 1024 * self.old.most }
        ensures { Marks self.old self.new first count mark }
    {
        if count >= 32
            && count % 32 == 0
            && first % 32 == 0
            && count <= PAGE_WORDS - first % PAGE_WORDS
        {
            self.mark_whole(first, count, mark);
        } else {
            self.mark_parts(first, count, mark);
        }
    }

    /// Sets or clears the mark bits of words of one page, 32 at a time: one whole word of the pool.
    fn mark_whole(&mut self, first: u32, count: u32, mark: bool)
        requires there { first + count ≤ 1024 * self.old.most }
        requires least { 1 ≤ count }
        requires whole { (first % 32 ≡ 0) × (count % 32 ≡ 0) }
        requires page { first % 1024 + count ≤ 1024 }
        ensures { Marks self.old self.new first count mark }
    {
        self.pool.set_whole_bits(
            PageNo {
                number: first / PAGE_WORDS,
            },
            first % PAGE_WORDS,
            count,
            mark,
        );
    }

    /// Sets or clears the mark bits of words as [`PoolTable::mark`] does, for any range of words.
    fn mark_parts(&mut self, first: u32, count: u32, mark: bool)
        requires { first + count ≤ 1024 * self.old.most }
        ensures { Marks self.old self.new first count mark }
    {
        let mut done = 0;
        while done < count {
            let word = first + done;
            let some = (32 - word % 32).min(count - done);
            self.pool.set_bits(
                PageNo {
                    number: word / PAGE_WORDS,
                },
                word % PAGE_WORDS,
                some,
                mark,
            );
            done += some;
        }
    }

    /// Returns the number of a page's words that are live by its fill mark (the end of its filled words).
    #[inline]
    pub(crate) fn filled(&self, page: u32) -> u32
        requires { page < self.now.most }
        ensures { result ≡ (row_of self.now page).filled }
    {
        reach(&self.pool, page)
    }

    /// Returns true if a word is live by the fill mark of its page (the end of the page's filled words).
    #[inline]
    pub(crate) fn is_filled(&self, word: u32) -> bool
        requires { word < 1024 * self.now.most }
        ensures { result ≡ nat_lt (word % 1024) (row_of self.now (word / 1024)).filled }
    {
        is_within(&self.pool, word)
    }

    /// Returns the role of a page, for example the first page of a lexical region.
    pub(crate) fn role(&self, page: u32) -> Role
        requires { page < self.now.most }
        ensures { result ≡ (row_of self.now page).role }
    {
        self.spots[page as usize].role
    }

    /// Returns the newest page of the region whose first page is `root`.
    pub(crate) fn newest(&self, root: u32) -> u32
        requires { root < self.now.most }
        ensures { result ≡ (row_of self.now root).newest }
    {
        self.spots[root as usize].newest
    }

    /// Returns the number of pages of the page table.
    #[inline]
    pub(crate) fn most(&self) -> u32
        ensures { result ≡ self.now.most }
    {
        self.pages
    }

    /// Takes a free page and begins a region in it.
    pub(crate) fn open(&mut self, role: Role) -> Option<u32>
        requires { IsRoot role }
        ensures { MatchOption result (IsFull self.old × (self.new ≡ self.old)) (λ page. Opens self.old self.new page role) }
    {
        let Some(page) = self.pool.take() else {
            return None;
        };
        let serial = next_serial(&mut self.pool, self.pages, self.next);
        self.next = serial + 1;
        self.pool.set_owner(page, page.number);
        self.pool.set_fill(page, 0);
        self.pool.set_serial(page, serial);
        self.spots[page.number as usize] = Spot {
            role,
            newest: page.number,
        };
        let taken = Roster::with(&self.roster, &Step::Taken(page.number));
        self.roster = Roster::with(&taken, &Step::Began(page.number, role));
        Some(page.number)
    }

    /// Takes a free page and adds it to the region whose first page is `root`, with `words` words filled.
    pub(crate) fn add(&mut self, root: u32, words: u32) -> Option<u32>
        requires there { root < self.old.most }
        requires root { IsRoot (row_of self.old root).role }
        requires few { words ≤ 1024 }
        ensures { MatchOption result (IsFull self.old × (self.new ≡ self.old)) (λ page. Adds self.old self.new root page words) }
    {
        let Some(page) = self.pool.take() else {
            return None;
        };
        let head = PageNo { number: root };
        let serial = self.pool.serial(head);
        self.pool.set_owner(page, root);
        self.pool.set_fill(page, PAGE_WORDS * page.number + words);
        self.pool.set_serial(page, serial);
        self.pool.chain_push(head, page);
        let role = self.spots[root as usize].role;
        self.spots[root as usize] = Spot {
            role,
            newest: page.number,
        };
        let taken = Roster::with(&self.roster, &Step::Taken(page.number));
        self.roster = Roster::with(&taken, &Step::Added(root, page.number, words));
        Some(page.number)
    }

    /// Takes a free page and splits it into slots of the given size class.
    pub(crate) fn cut(&mut self, class: u32) -> Option<u32>
        ensures { MatchOption result (IsFull self.old × (self.new ≡ self.old)) (λ page. Cuts self.old self.new page class) }
    {
        let Some(page) = self.pool.take() else {
            return None;
        };
        self.pool.set_fill(page, 0);
        self.spots[page.number as usize] = Spot {
            role: Role::Slots(class),
            newest: NONE,
        };
        let taken = Roster::with(&self.roster, &Step::Taken(page.number));
        self.roster = Roster::with(&taken, &Step::Cut(page.number, class));
        Some(page.number)
    }

    /// Sets the fill mark (the end of the filled words) of the newest page of the region whose first page is `root`.
    pub(crate) fn fill(&mut self, root: u32, filled: u32)
        requires there { root < self.old.most }
        requires root { IsRoot (row_of self.old root).role }
        requires few { filled ≤ 1024 }
        ensures { Fills self.old self.new (row_of self.old root).newest filled }
    {
        let page = self.spots[root as usize].newest;
        self.pool
            .set_fill(PageNo { number: page }, PAGE_WORDS * page + filled);
        self.roster = Roster::with(&self.roster, &Step::Filled(page, filled));
    }

    /// Frees all pages of the region whose first page is `root`, in constant time.
    pub(crate) fn close(&mut self, root: u32)
        requires there { root < self.old.most }
        requires root { IsRoot (row_of self.old root).role }
        ensures { Closes self.old self.new root }
    {
        let head = PageNo { number: root };
        let serial = next_serial(&mut self.pool, self.pages, self.next);
        self.next = serial + 1;
        self.pool.set_fill(head, 0);
        self.pool.set_serial(head, serial);
        self.pool.give_chain(Chain { head });
        self.spots[root as usize] = Spot {
            role: Role::Rest,
            newest: NONE,
        };
        self.roster = Roster::with(&self.roster, &Step::Closed(root));
    }

    /// Advances the next serial number to the second-last possible one, as if very many regions had been opened and closed.
    #[tactic(auto, using(crate::proofs::Calls::later_backed))]
    pub(crate) fn come_to_last_serial(&mut self)
        ensures { self.new ≡ self.old }
    {
        if self.next < u64::MAX - 1 {
            self.next = u64::MAX - 1;
        }
    }
}
