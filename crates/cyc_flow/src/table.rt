//! The flow state of each local of a function, as bits of machine words, so that the join of two branches processes 64 locals at once.
ghost use Rattle.std.specs.Prelude.{◌≡◌, ◌≢◌, ◌<◌, ◌≤◌, ◌++◌, IfOk, ℕ, List, true, length, replicate, drop, get_or, slice_set};
ghost use Rattle.std.specs.Int.{bit_at};
ghost use Rattle.cyc_types.specs.flow.States.{Vacant, Full, Reached, lower_each, are_as_full, with_each, emptied};
ghost use Rattle.cyc_flow.specs.inside.Code.{view_fullness};
ghost use Rattle.cyc_flow.specs.inside.Bits.{has_bit};
ghost use Rattle.cyc_flow.specs.inside.Numbers.{Stand, with_words};
ghost use Rattle.cyc_flow.specs.inside.Tables.{marked, marks_at, table_length, view_table, Covers, met, met_each, emptied_marks, missing};

use crate::state::Fullness;
use std::alloc::{AllocError, Global};

/// The flow states of 64 locals. For each local, one bit says that it holds a value, and another that the value is not lent. For an empty
/// local, the second bit is meaningless.
#[derive(Clone, Copy)]
struct Marks {
    held: u64,
    free: u64,
}

/// Returns the word with one bit set or cleared.
pub(crate) fn with_bit(word: u64, place: usize, value: bool) -> u64
    requires { place < 64 }
    ensures same { has_bit result place ≡ value }
    ensures other { (i : ℕ) → i < 64 → i ≢ place → bit_at result i ≡ bit_at word i }
{
    if value {
        word | 1 << place
    } else {
        word & !(1 << place)
    }
}

impl Marks {
    fn fullness(self, place: usize) -> Fullness
        requires { place < 64 }
        ensures { view_fullness result ≡ marked self place }
    {
        if self.held >> place & 1 != 1 {
            Fullness::Vacant
        } else if self.free >> place & 1 != 1 {
            Fullness::Locked
        } else {
            Fullness::Full
        }
    }

    fn with(self, place: usize, fullness: Fullness) -> Marks
        requires { place < 64 }
        ensures same { marked result place ≡ view_fullness fullness }
        ensures other { (i : ℕ) → i < 64 → i ≢ place → marked result i ≡ marked self i }
    {
        Marks {
            held: with_bit(self.held, place, !fullness.is_vacant()),
            free: with_bit(self.free, place, matches!(fullness, Fullness::Full)),
        }
    }

    fn met(self, other: Marks) -> Marks
        ensures { result ≡ met self other }
    {
        Marks {
            held: self.held & other.held,
            free: self.free & other.free,
        }
    }

    /// Returns the bits that are set in the marks `other` but not in these marks. Marks contain two bits for each of 64 locals.
    fn missing(self, other: Marks) -> u64
        ensures { result ≡ missing self other }
    {
        (self.held & other.held ^ other.held) | (self.free & other.free ^ other.free)
    }

    /// Empties each local whose bit is set in this word, unless the local is lent.
    fn emptied(self, word: u64) -> Marks
        ensures { result ≡ emptied_marks self word }
    {
        Marks {
            held: self.held ^ (self.held & self.free & word),
            free: self.free,
        }
    }
}

/// The flow state of each local, indexed by its number.
#[derive(Drop)]
pub(crate) struct Table {
    /// The number of locals, provided that every local has bits in `marks`.
    count: usize,
    /// The bits of the first 64 locals, then those of the next 64, and so on.
    marks: Vec<Marks>,
}

impl Table {
    /// Returns a table of `count` locals, all of them empty.
    pub(crate) fn new(alloc: Global, count: usize) -> Result<Table, AllocError>
        ensures { IfOk result (λ t. view_table t ≡ replicate count Vacant) }
    {
        let none = Marks { held: 0, free: 0 };
        Ok(Table {
            count,
            marks: vec![in alloc; none; count / 64 + 1]?,
        })
    }

    /// Returns the number of locals in the table.
    pub(crate) fn len(&self) -> usize
        ensures { result ≡ table_length self.now }
    {
        if self.count / 64 < self.marks.len() {
            self.count
        } else {
            self.marks.len() * 64
        }
    }

    /// Returns the state of a local: empty, lent or full; a local outside the table is empty.
    pub(crate) fn fullness(&self, number: usize) -> Fullness
        ensures { view_fullness result ≡ get_or (view_table self.now) number Vacant }
    {
        if number < self.len() {
            self.marks[number / 64].fullness(number % 64)
        } else {
            Fullness::Vacant
        }
    }

    /// Sets the state of one local in the table to empty, lent or full.
    pub(crate) fn set(&mut self, number: usize, fullness: Fullness)
        ensures { view_table self.new ≡ slice_set (view_table self.old) number (view_fullness fullness) }
    {
        let place = number / 64;
        if place < self.marks.len() {
            self.marks[place] = self.marks[place].with(number % 64, fullness);
        }
    }

    /// Sets the state of each local in the list `numbers` to full.
    #[tactic(auto, using(std::proofs::lemmas::List::drop_more))]
    pub(crate) fn fill_each(&mut self, numbers: &[usize])
        ensures { Reached (view_table self.new) ≡ with_each Full numbers.now (Reached (view_table self.old)) }
    {
        for number in numbers {
            self.set(*number, Fullness::Full);
        }
    }

    /// Sets the states of the first `count` locals to full.
    pub(crate) fn fill(&mut self, count: usize)
        requires { count ≤ table_length self.old }
        ensures { view_table self.new ≡ replicate count Full ++ drop count (view_table self.old) }
    {
        for number in 0..count {
            self.set(number, Fullness::Full);
        }
    }

    pub(crate) fn copy(&self, alloc: Global) -> Result<Table, AllocError>
        ensures { IfOk result (λ t. view_table t ≡ view_table self.now) }
    {
        Ok(Table {
            count: self.count,
            marks: Vec::from_slice(alloc, &self.marks)?,
        })
    }

    /// Returns the meet of two tables of local states, up to the length of the shorter one.
    pub(crate) fn lower(mut self, other: &Table) -> Table
        ensures { view_table result ≡ lower_each (view_table self) (view_table other.now) }
    {
        self.marks = meet_each(self.marks, &other.marks);
        self.count = self.count.min(other.count);
        self
    }

    /// Empties each local whose bit is set in these words, unless the local is lent.
    pub(crate) fn emptied(mut self, words: &[u64]) -> Table
        ensures { (ns : List ℕ) → Stand words.now ns → Reached (view_table result) ≡ emptied ns (Reached (view_table self)) }
    {
        self.marks = empty_each(self.marks, words);
        self
    }

    /// Returns true if no local is emptier in this table than in the table `other`. If a bit of `other` is missing in this table, the
    /// locals are compared one by one. The comparison one by one is rare, since a missing bit usually is a fault, with which the check
    /// ends.
    pub(crate) fn is_as_full(&self, other: &Table) -> bool
        ensures { result ≡ are_as_full (view_table self.now) (view_table other.now) }
    {
        if self.len() != other.len() {
            return false;
        }
        cover_each(&self.marks, &other.marks) || self.are_as_full(other)
    }

    /// Compares the two tables of local states, one local after the other.
    fn are_as_full(&self, other: &Table) -> bool
        requires { table_length self.now ≡ table_length other.now }
        ensures { result ≡ are_as_full (view_table self.now) (view_table other.now) }
    {
        for number in 0..self.len() {
            if !self.fullness(number).is_as_full(other.fullness(number)) {
                return false;
            }
        }
        true
    }
}

/// Returns the bits that are set in both lists of local states, up to the length of the shorter list.
fn meet_each(mut one: Vec<Marks>, other: &[Marks]) -> Vec<Marks>
    ensures { result.items ≡ met_each one.items other.now }
{
    let count = one.len().min(other.len());
    for i in 0..count {
        one[i] = one[i].met(other[i]);
    }
    one.truncate(count);
    one
}

/// Empties each local whose bit is set in these words, unless the local is lent.
#[tactic(auto, using(crate::proofs::Sets::changed_more))]
fn empty_each(mut marks: Vec<Marks>, words: &[u64]) -> Vec<Marks>
    ensures { result.items ≡ with_words emptied_marks marks.items words.now }
{
    let count = marks.len().min(words.len());
    for i in 0..count {
        marks[i] = marks[i].emptied(words[i]);
    }
    marks
}

/// Returns true if each bit set in `other` is set in `one`. All words are compared without an early exit, so that the loop can be
/// vectorized.
#[tactic(auto, using(crate::proofs::Tables::lacks_none))]
fn cover_each(one: &[Marks], other: &[Marks]) -> bool
    ensures { result ≡ true → (p : ℕ) → p < length one.now → p < length other.now → Covers (marks_at one.now p) (marks_at other.now p) }
{
    let mut missing = 0;
    for i in 0..one.len().min(other.len()) {
        missing = missing | one[i].missing(other[i]);
    }
    missing == 0
}
