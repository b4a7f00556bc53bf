//! The set of touched locals (consumed, assigned or locked). Each local is visited once, and 64 locals at a time.
ghost use Rattle.std.specs.Prelude.{◌≡◌, ◌==◌, ◌||◌, ℕ, [], ◌++◌, IfOk, bit_or};
ghost use Rattle.cyc_types.specs.flow.Touched.{and_local};
ghost use Rattle.cyc_flow.specs.inside.Numbers.{has_number, with_words, Stand};

use crate::numbers::{Numbers, Touch};
use crate::table::with_bit;
use std::alloc::{AllocError, Global};
use std::mem;

/// The locals (unique pointers and keys) that were consumed, assigned or locked in a part of a function.
#[derive(Drop)]
pub(crate) struct Touched {
    /// One bit for each local, 64 in a word, which is set if the local was touched (consumed, assigned or locked). Locals beyond
    /// the last word were not touched.
    words: Vec<u64>,
    pub(crate) numbers: Numbers,
    ghost stand: { Stand words.items numbers.list },
}

/// Adds the index of a local to the set.
fn insert(words: &mut Vec<u64>, number: usize) -> Result<(), AllocError>
    ensures { IfOk result (λ _. (n : ℕ) → has_number words.new.items n ≡ ((n == number) || has_number words.old.items n)) }
{
    let place = number / 64;
    if words.len() <= place {
        words.resize(place + 1, 0)?;
    }
    words[place] = with_bit(words[place], number % 64, true);
    Ok(())
}

/// Returns the union of two bit sets, given as lists of words. Each word of the first list gets the bits of the second list's word at the
/// same index. Words of the second list beyond the length of the first list are ignored.
#[tactic(auto, using(crate::proofs::Sets::changed_more))]
fn either_each(mut one: Vec<u64>, other: &[u64]) -> Vec<u64>
    ensures { result.items ≡ with_words bit_or one.items other.now }
{
    let count = one.len().min(other.len());
    for i in 0..count {
        one[i] = one[i] | other[i];
    }
    one
}

/// Returns the union of two sets of locals.
fn united(one: Vec<u64>, other: Vec<u64>) -> Vec<u64>
    ensures { (n : ℕ) → has_number result.items n ≡ (has_number one.items n || has_number other.items n) }
{
    if one.len() < other.len() {
        either_each(other, &one)
    } else {
        either_each(one, &other)
    }
}

impl Touched {
    #[tactic(auto, using(crate::proofs::Sets::stand_none))]
    pub(crate) fn none(alloc: Global) -> Touched
        ensures { result.numbers.list ≡ [] }
    {
        Touched {
            words: Vec::new(alloc),
            numbers: Numbers::none(),
        }
    }

    /// Returns the words that represent the set, with 64 locals in each word.
    pub(crate) fn words(&self) -> &[u64]
        ensures { Stand result.now self.now.numbers.list }
    {
        &self.words
    }

    /// Adds the index of one more touched local (consumed, assigned or locked) to the set.
    pub(crate) fn add(&mut self, number: usize) -> Result<(), AllocError>
        ensures { IfOk result (λ _. self.new.numbers.list ≡ and_local number self.old.numbers.list) }
    {
        let alloc = *self.words.allocator();
        let Touched { mut words, numbers } = mem::replace(self, Touched::none(alloc));
        insert(&mut words, number)?;
        *self = Touched {
            words,
            numbers: Numbers::with(&numbers, &Touch { number }),
        };
        Ok(())
    }

    /// Returns the union of two sets of touched locals (consumed, assigned or locked). The list of local indices of the union is the
    /// first set's list followed by the second's.
    pub(crate) fn joined(self, more: Touched) -> Touched
        ensures { result.numbers.list ≡ self.numbers.list ++ more.numbers.list }
    {
        let numbers = Numbers::joined(&self.numbers, &more.numbers);
        Touched {
            words: united(self.words, more.words),
            numbers,
        }
    }
}
